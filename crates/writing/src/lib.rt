// Plan writing: a plan is guessed and read. If it is read it is the planner's own, whatever the guess was; if not, the rack is planned from
// its hops, which alone says that a rack is refused.
#![tactic(auto)]

ghost use Rattle.std.specs.Prelude.{IfSome};
ghost use Rattle.rack.specs.WiringFile.{file_wiring};
ghost use Rattle.planner.specs.Answer.{answer_of};
ghost use Rattle.planner.specs.Planning.{AskedToWrite, PlanFound, WriteSays};
ghost use Rattle.writing.specs.Guessing.{Bytes, GuessIs};

use column_guess::guess_columns;
use plan_writer::put_plan;
use rack::limits::{LENT_PLAN, LENT_WORDS};
use rack::refused::Refused;
use rack::views::SizedFile;
use reader::read::read_plan;
use survey::links::sized_file;

// Writes the plan of a file that passed 2 to 5 with columns that are guessed, and gives its length where it is read; else none, whatever
// stands in the buffer then.
fn guessed_plan(file: SizedFile<'_>, last: bool, output: &mut [u8; LENT_PLAN]) -> Option<usize>
    requires { Bytes file.bytes.now }
    ensures { IfSome result (GuessIs file.entry.bytes.now output.new) }
{
    let mut words = [0u64; LENT_WORDS];
    let k = guess_columns(file, last, &mut words)?;
    let length = put_plan(file, k, &words, output);
    read_plan(&output[0..length]).ok()?;
    Some(length)
}

// The same by one guess, and where its plan is not read by another. The guess has two callers, and so a stack frame of its own, which is gone
// before the rack is planned from its hops.
fn guess_plan(file: SizedFile<'_>, output: &mut [u8; LENT_PLAN]) -> Option<usize>
    requires { Bytes file.bytes.now }
    ensures { IfSome result (GuessIs file.entry.bytes.now output.new) }
{
    // A match and no `or_else`, of which std does not say what stands in the buffer where no second guess is made.
    match guessed_plan(file, false, output) {
        None => guessed_plan(file, true, output),
        guess => guess,
    }
}

// Writes the plan file of a rack, or a refusal; the value is the used length. It has planner's name and clauses, and stands on it: where no
// guess is read, the planner writes.
pub fn write_plan(file: &[u8], output: &mut [u8]) -> Result<u32, Refused>
    ensures says { WriteSays file.now (answer_of result) output.old output.new }
    ensures found { AskedToWrite file.now output.old → PlanFound (file_wiring file.now) (answer_of result) output.new }
{
    let Some(output) = output.as_mut_array::<LENT_PLAN>() else {
        return Err(Refused::Lent);
    };
    if let Ok(sized) = sized_file(file)
        && let Some(length) = guess_plan(sized, output)
    {
        return Ok(length as u32);
    }
    planner::write_plan(file, output)
}
