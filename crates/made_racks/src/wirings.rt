// Wiring files, sound and faulty: each is planned, its plan is written, and if it was accepted, read and walked.
ghost use Rattle.std.specs.Prelude.{◌<◌, ◌≤◌};
ghost use Rattle.rack.specs.Limits.{most_cards};

use crate::calls::{addressed, read, stepped, walked, walked_to_each, written};
use crate::lent::planned_lent;
use crate::lines::{cell, number, number_to};
use crate::shapes::{LENT_FILE, MORE_LINKS, Rule, Shape, put_link, ring};
use forwarder::walk::{LENT_MET, Tally};
use rack::bytes::put_number;
use rack::limits::{LENT_PLAN, MOST_CARDS, MOST_LINKS};

// Reads a plan, walks one frame on it and one to each card, takes a step, and asks for an address.
fn used(rt: &impl Print, plan: &[u8], n: u32, from: u32, goal: u32) {
    let mut met = [7u16; LENT_MET];
    let none = Tally { frames: 0, hops: 0 };
    read(rt, plan);
    walked(rt, plan, from, goal, none, &mut met);
    walked_to_each(rt, plan, n, from);
    stepped(rt, plan, from, goal);
    addressed(rt, plan, goal);
}

// A wiring file, planned in lent buffers that are not zero, written, read and walked.
fn file_line(rt: &impl Print, file: &[u8], n: u32, from: u32, goal: u32) {
    planned_lent(rt, file);
    let mut plan = [7u8; LENT_PLAN];
    let size = written(rt, file, &mut plan);
    if let Some(plan) = size.and_then(|size| plan.get(..size)) {
        used(rt, plan, n, from, goal);
    }
}

// A rack by its rule.
pub fn rack(rt: &impl Print, line: &str) {
    let _ = rt.print(cell(line, 7));
    let Ok(rule) = Rule::try_from(cell(line, 1)) else {
        return;
    };
    let links = number_to(line, 3, MORE_LINKS);
    let shape = Shape {
        rule,
        cards: number_to(line, 2, u16::MAX.into()),
        links,
        is_mixed: cell(line, 4) == "mixed",
    };
    file_line(
        rt,
        &shape.wiring()[..4 + 4 * links],
        number(line, 2),
        number(line, 5),
        number(line, 6),
    );
}

// The link in cell `k`, and its ends in the two behind it, put into the file of a ring of `n` cards.
fn put_cells(file: &mut [u8; LENT_FILE], n: usize, line: &str, k: usize)
    requires { (n ≤ most_cards) × (k < 100) }
{
    let first = number_to(line, k + 1, u16::MAX.into());
    let second = number_to(line, k + 2, u16::MAX.into());
    put_link(file, n, number_to(line, k, MOST_LINKS), (first, second));
}

// The first bytes of the file of a ring with another number of cards, and two links put anew.
pub fn fault(rt: &impl Print, line: &str) {
    let _ = rt.print(cell(line, 10));
    let n = number_to(line, 1, MOST_CARDS);
    let mut file = ring(n);
    put_number(&mut file, 0, number_to(line, 2, u16::MAX.into()));
    put_cells(&mut file, n, line, 4);
    put_cells(&mut file, n, line, 7);
    file_line(
        rt,
        &file[..number_to(line, 3, LENT_FILE)],
        number(line, 1),
        0,
        1,
    );
}
