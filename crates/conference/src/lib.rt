// The conference card of three cards, on a plan's own bytes. Definitions in specs/, laws in proofs/.
#![tactic(auto)]

ghost use Rattle.std.specs.Prelude.{◌≡◌, Err, IfErr, IfOk, OnOk};
ghost use Rattle.rack.specs.PlanFile.{plan_cards};
ghost use Rattle.conference.specs.Callers.{CallersAre};
ghost use Rattle.conference.specs.Conference.{CardOrNone, ConferenceIs, ConferenceSays, conference_of, three_refusal};

use counting::ones::ones_table;
use counting::plans::CountedPlan;
use rack::refused::Refused;
use reader::read::read_plan;
use reader::views::ReadPlan;

// Three cards of a plan that was read, and the hops between each two of them.
#[derive(Clone, Copy)]
struct Callers<'a> {
    counted: CountedPlan<'a>,
    a: usize,
    b: usize,
    c: usize,
    ab: u32,
    ac: u32,
    bc: u32,
    ghost hops: { CallersAre counted.plan.bytes.now a b c ab ac bc },
}

impl<'a> Callers<'a> {
    ghost use Rattle.std.specs.Prelude.{◌≡◌, ◌<◌, ◌≤◌, MatchOption};
    ghost use Rattle.rack.specs.PlanFile.{plan_cards, plan_wiring};
    ghost use Rattle.conference.specs.Conference.{conference, median};

    // Whether card `x` is on a shortest path between each two of the three.
    fn is_median(self, x: usize) -> bool
        requires { x < self.counted.plan.cards }
        ensures { result ≡ median (plan_wiring self.entry.counted.plan.bytes.now) self.entry.a self.entry.b self.entry.c x }
    {
        let from_a = self.counted.hamming(self.a, x);
        let to_b = self.counted.hamming(x, self.b);
        if from_a + to_b != self.ab {
            return false;
        }
        let to_c = self.counted.hamming(x, self.c);
        from_a + to_c == self.ac && to_b + to_c == self.bc
    }

    // The lowest card that is on a shortest path between each two of the three.
    fn lowest_median(self) -> Option<u32>
        ensures { MatchOption result (plan_cards self.entry.counted.plan.bytes.now ≤ conference (plan_wiring self.entry.counted.plan.bytes.now) self.entry.a self.entry.b self.entry.c) (λ x. (x < plan_cards self.entry.counted.plan.bytes.now) × (x ≡ conference (plan_wiring self.entry.counted.plan.bytes.now) self.entry.a self.entry.b self.entry.c)) }
    {
        (0..self.counted.plan.cards as u32).find(|x| self.is_median(*x as usize))
    }
}

// The conference card of three cards of a plan that was read, or none: 14.
fn conference_of_read(read: ReadPlan<'_>, a: u32, b: u32, c: u32) -> Result<Option<u32>, Refused>
    ensures says { ConferenceIs (three_refusal 0 (plan_cards read.entry.plan.bytes.now) a b c) read.entry.plan.bytes.now a b c (conference_of result) }
    ensures promise { OnOk result (CardOrNone read.entry.plan.bytes.now a b c (conference_of result)) }
{
    let plan = read.plan;
    let (a, b, c) = (a as usize, b as usize, c as usize);
    if plan.cards <= a || plan.cards <= b || plan.cards <= c {
        return Err(Refused::NoCard);
    }
    let ones = ones_table();
    let counted = CountedPlan { ones: &ones, plan };
    let callers = Callers {
        counted,
        a,
        b,
        c,
        ab: counted.hamming(a, b),
        ac: counted.hamming(a, c),
        bc: counted.hamming(b, c),
    };
    Ok(callers.lowest_median())
}

// The same of a reading: of the plan that it gives, or of its refusal, which comes before 14 and is handed on.
pub fn conference_sized(
    read: Result<ReadPlan<'_>, Refused>,
    a: u32,
    b: u32,
    c: u32,
) -> Result<Option<u32>, Refused>
    ensures says { IfOk read.entry (λ r. ConferenceIs (three_refusal 0 (plan_cards r.plan.bytes.now) a b c) r.plan.bytes.now a b c (conference_of result)) }
    ensures promise { IfOk read.entry (λ r. OnOk result (CardOrNone r.plan.bytes.now a b c (conference_of result))) }
    ensures before { IfErr read.entry (λ e. result ≡ Err e) }
{
    conference_of_read(read?, a, b, c)
}

// The card that is on a shortest path between each two of three cards, or none: 12, 13, 14.
pub fn conference_card(plan: &[u8], a: u32, b: u32, c: u32) -> Result<Option<u32>, Refused>
    ensures says { ConferenceSays plan.now a b c (conference_of result) }
    ensures promise { OnOk result (CardOrNone plan.now a b c (conference_of result)) }
{
    conference_sized(read_plan(plan), a, b, c)
}
