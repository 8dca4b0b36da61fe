// The listing program: prints the listing of the wiring file on standard input. Its test is a file of 8,196 bytes, the longest that
// there is, with 2,048 links of which only the last is in fault; tests/listing shows others.
#![tactic(auto)]

fn main(rt: HostRuntime) {
    listing_io::print_listing(&mut rt.stdin(), &mut rt.stdout());
}
