// Tests that the fixed words of a listing stand in their places: those of the ring of four, of the triangle and of two cards apart.
#![tactic(auto)]

use listing_text::{LENT_TEXT, put_listing_text};

// Says of each word whether it stands at its place in the listing of a file. Nothing tells of output that fails; the next line is tried all
// the same.
fn say_words(rt: &impl Print, file: &[u8], words: &[(usize, &str)]) {
    let mut text = [0u8; LENT_TEXT];
    put_listing_text(file, &mut text);
    for &(at, word) in words {
        let found = text
            .get(at..)
            .is_some_and(|rest| rest.starts_with(word.as_bytes()));
        let _ = println!(rt; "{word}: {}in its place", if found { "" } else { "not " });
    }
}

fn main(rt: HostRuntime) {
    let ring = [4, 0, 4, 0, 0, 0, 1, 0, 2, 0, 3, 0, 1, 0, 2, 0, 3, 0, 0, 0];
    let accepted = [
        (0, "cards "),
        (8, "links "),
        (16, "columns "),
        (26, "card "),
        (56, "card "),
    ];
    say_words(&rt, &ring, &accepted);
    let triangle = [3, 0, 3, 0, 0, 0, 1, 0, 2, 0, 1, 0, 2, 0, 0, 0];
    say_words(&rt, &triangle, &[(0, "refused "), (10, " link ")]);
    say_words(&rt, &[2, 0, 0, 0], &[(0, "refused "), (9, " card ")]);
}
