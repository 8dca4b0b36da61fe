// The cases, one to a line: its kind, its numbers, and last the name that begins what is printed for it.
use crate::lent::{lent, output};
use crate::lines::cell;
use crate::plans::{changed, walk};
use crate::wirings::{fault, rack};

// A case by its kind.
fn case(rt: &impl Print, line: &str) {
    match cell(line, 0) {
        "rack" => rack(rt, line),
        "fault" => fault(rt, line),
        "lent" => lent(rt, line),
        "output" => output(rt, line),
        "changed" => changed(rt, line),
        "walk" => walk(rt, line),
        _ => {}
    }
}

// Each line of a text as a case. Nothing tells of output that fails; the next line is tried all the same.
pub fn each_case(rt: &impl Print, text: &str) {
    for line in text.lines() {
        case(rt, line);
        let _ = println!(rt;);
    }
}

// Racks by rules: rule, cards, links, mixed or not, and a walk from one card to another. The first three are those that
// docs/REQUIREMENTS.md names outside its table of cases.
pub const RACKS: &str = "\
rack|chain    |256| 255|     |  0|255|chain 256:
rack|chain    |257| 256|     |  0|256|chain 257:
rack|16 by 128|256|2049|     |  0|  1|2,049 links:
rack|chain    |  1|   0|     |  0|  0|1 card:
rack|ring     |256| 256|     |  3|131|ring 256:
rack|hypercube|256|1024|     |  0|255|8-cube:
rack|hypercube|256|2048|     |  0|255|8-cube doubled:
rack|grid     |256| 480|     |240| 15|grid 16 x 16:
rack|star     |256| 255|     |  7|  9|star 256:
rack|tree     |256| 255|     |254|255|tree 256:
rack|chain    |256| 255|mixed| 13|  0|chain 256 mixed:
rack|ring     |256| 256|mixed| 13|141|ring 256 mixed:
rack|hypercube|256|1024|mixed| 13|192|8-cube mixed:
rack|hypercube|256|2048|mixed| 13|192|8-cube doubled mixed:
rack|grid     |256| 480|mixed| 13|192|grid 16 x 16 mixed:
rack|star     |256| 255|mixed| 13|200|star 256 mixed:
rack|tree     |256| 255|mixed|100|200|tree 256 mixed:
rack|ring     |255| 255|     |  0|  1|ring 255:
rack|ring     |255| 255|mixed|  0|  1|ring 255 mixed:
rack|extra    |256| 256|     |  0|  1|chain with a chord:
rack|extra    |256| 256|mixed|  0|  1|chain with a chord mixed:
rack|2 by 3   |  5|   6|     |  0|  1|2 by 3:
rack|16 by 128|144|2048|     |  0|  1|16 by 128:
rack|parts    |256| 254|     |  0|  1|two parts:
rack|parts    |256| 254|mixed|  0|  1|two parts mixed:
rack|loose    | 64|  64|     |  0| 63|loose 64, 64 links:
rack|loose    | 90|  91|     |  0| 89|loose 90, 91 links:
rack|loose    |200| 230|     |  0|  1|loose 200, 230 links:
rack|chain    |  0|   0|     |  0|  0|no card:";

// Files and lent buffers with faults.
// fault: a ring's links, its number of cards, the bytes of its file, and two links put anew, each with its two ends.
// lent: the bytes of a file, the words and the hops lent. output: the bytes lent for a plan. walk: as below.
pub const FILES: &str = "\
fault|  4|  4|   3|  0|  0|  1|  0|  0|  1|3 bytes:
fault|  4|  4|   0|  0|  0|  1|  0|  0|  1|no bytes:
fault|  4|  4|  19|  0|  0|  1|  0|  0|  1|19 bytes for 4 links:
fault|  4|  4|  21|  0|  0|  1|  0|  0|  1|21 bytes for 4 links:
fault|  4|257|  19|  0|  0|  1|  0|  0|  1|19 bytes and 257 cards:
fault|256|256|1028|100|100|256|100|100|256|end 256 at link 100:
fault|256|256|1028| 77|  5|  5| 77|  5|  5|card 5 to itself at link 77:
fault|256|256|1028|200| 18| 17|200| 18| 17|link 17 again at link 200:
fault|256|256|1028|200| 18| 17|201| 17| 18|link 17 again at links 200 and 201:
fault|256|256|1028| 20|  9|  9| 30|300|  1|7 at link 20, 6 at link 30:
fault|256|256|1028|  0|300|300|  8|  8|  8|card 300 to itself at link 0:
lent|20|1023|65536|1,023 words:
lent|20|1024|65535|65,535 bytes of hops:
output|16389|16,389 bytes for a plan
walk|4|     | |26|0|2|5|6|255|room for 255 cards
lent| 3|1024|65537|3 bytes and 65,537 bytes of hops:
walk|4|     | | 3|0|2|0|0|257|a plan of 3 bytes and room for 257 cards";

// Plans of rings: the ring, a place where a byte is put anew if it is, the byte, the bytes of the plan, and a walk's two cards.
// walk: also the frames and hops counted so far, and the room for cards met.
pub const PLANS: &str = "\
changed|  4|     |   |  26| 0|  2|ring 4, whole
changed|  4|   24|  0|  26| 0|  2|ring 4, card 2 at 0
changed|  4|     |   |  25| 0|  2|ring 4, a byte short
changed|  4|     |   |  27| 0|  2|ring 4, a byte over
changed|  4|     |   |   5| 0|  2|ring 4, 5 bytes
changed|  4|    1|  1|  26| 0|  2|ring 4, 260 cards
changed|  4|    5|  1|  26| 0|  2|ring 4, 258 columns
changed|  4|    4|  3|  26| 0|  2|ring 4, 3 columns
changed|  4|    6|  9|  26| 0|  2|ring 4, an end at 9
changed|  4|   22|  4|  26| 0|  2|ring 4, 4 at bit 2
changed|  4|   23|  3|  26| 0|  2|ring 4, card 1 at 3
changed|256|     |   |5126| 0|128|ring 256, whole
changed|256| 3078|  0|5126| 0|128|ring 256, card 128 byte 0 at 0
changed|256| 1046|  0|5126| 0|128|ring 256, card 1 byte 0 at 0
changed|256| 2069|255|5126|60| 70|ring 256, card 64 byte 15 at 255
changed|  4|     |   |  26| 0|  4|ring 4, to 4
changed|  4|     |   |  26| 4|  0|ring 4, from 4
changed|  4|     |   |  26|4294967295|4294967295|ring 4, from 4,294,967,295 to itself
changed|  4|   24|  0|  26| 0|  4|ring 4, card 2 at 0, to 4
changed|  4|     |   |  25| 0|  4|ring 4, a byte short, to 4
walk|256|     | |5126|0|128|4294967295|0|256|frames full
walk|256|     | |5126|9|  9|4294967295|0|256|frames full, to itself
walk|256|     | |5126|0|128|4294967294|0|256|one frame left
walk|256|     | |5126|0|128|0|4294967168|256|127 hops left
walk|256|     | |5126|0|128|0|4294967167|256|128 hops left
walk|256|     | |5126|9|  9|0|4294967295|256|hops full, to itself
walk|256| 1046|0|5126|2|  0|4294967295|4294967295|256|counts full, stuck
walk|256|     | |5126|0|256|4294967295|4294967295|256|counts full, to card 256";
