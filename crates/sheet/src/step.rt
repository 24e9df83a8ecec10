// One command, in place: its refusal or its effect, and the rows that it writes or brings back.
// No other function writes rows.
ghost use Rattle.std.specs.Prelude.{◌≡◌, drop};
ghost use Rattle.commands.specs.Answers.{answer_of};
ghost use Rattle.commands.specs.Model.{stepped};
ghost use Rattle.commands.specs.RefusalNumbers.{refusal_number};
ghost use Rattle.sheet.specs.Words.{undone, lent_step};
ghost use Rattle.commands.specs.Fields.{command_of};
ghost use Rattle.sheet.specs.Run.{stepped_at, lent_step_at};

use crate::answer::{numbers_of, refusal_of};
use crate::history::{remember, remembers, restore};
use crate::rows::{RowIndex, STATE_WORDS, put_row, row_at, stored_at};
use commands::codes::{Kind, Refusal};
use commands::command::{Answer, Command, command_at};
use commands::effects::{Effect, effect_of};

// How many numbers a command has.
pub const COMMAND_NUMBERS: usize = 7;

// 33: takes back the latest command that is remembered. "With nothing remembered [it] is refused
// by 11".
#[tactic(auto, using(crate::proofs::LentStepLaws::undone_some, crate::proofs::LentStepLaws::undone_none), unfolding(commands::specs::Answers::answer_of))]
fn undo(state: &mut [u32; STATE_WORDS]) -> Result<Answer, Refusal>
    ensures { stepped state.new (answer_of result) ≡ undone state.old }
{
    if remembers(state) {
        Ok(restore(state))
    } else {
        Err(Refusal::HistoryEmpty)
    }
}

// The command on a sheet. A row above 63 is refused where it is used, and not read where it is not:
// any row may stand in its place.
#[tactic(auto, using(crate::proofs::LentStepLaws::found, crate::proofs::LentStepLaws::tells))]
fn step_sheet(state: &mut [u32; STATE_WORDS], c: Command) -> Result<Answer, Refusal>
    ensures { stepped state.new (answer_of result) ≡ lent_step state.old c }
{
    let a = RowIndex::of(c.a);
    let b = RowIndex::of(c.b);
    let u = RowIndex::of(c.u);
    let row_a = row_at(state, a);
    let row_b = row_at(state, b);
    let row_u = stored_at(state, u);
    match effect_of(c, row_a, row_b, row_u)? {
        Effect::Tell(x) => Ok(x),
        Effect::Put { kind, v, offset } => {
            let kind = u32::from(kind);
            let t = RowIndex { at: c.t as usize };
            remember(state, c.t, 1);
            put_row(state, t, kind, v, offset);
            Ok(Answer::Shown { row: c.t, kind, v })
        }
        Effect::PutTwo { v, w } => {
            let kind = u32::from(Kind::Direction);
            let t = RowIndex { at: c.t as usize };
            let next = RowIndex { at: t.at + 1 };
            remember(state, c.t, 2);
            put_row(state, t, kind, v, 0.0);
            put_row(state, next, kind, w, 0.0);
            Ok(Answer::Shown { row: c.t, kind, v })
        }
        Effect::Restore => undo(state),
    }
}

// The command on the sheet that lies in the words.
#[tactic(auto, using(crate::proofs::LentLaws::lent_short), unfolding(commands::specs::Answers::answer_of))]
pub fn step(state: &mut [u32], c: Command) -> Result<Answer, Refusal>
    ensures { stepped state.new (answer_of result) ≡ lent_step state.old c }
{
    match state.first_chunk_mut() {
        Some(sheet) => step_sheet(sheet, c),
        None => Err(Refusal::LentTooShort),
    }
}

// The same in numbers: the seven from `from` on give the command, and its answer's six go to the
// places from `at` on. Where there are not so many places, it is refused by 9, and nothing is run.
#[tactic(auto, using(crate::proofs::LentStepLaws::at_short))]
pub fn step_at(
    state: &mut [u32],
    numbers: &[u32],
    from: usize,
    out: &mut [u32],
    at: usize,
) -> Result<(), Refusal>
    ensures { stepped_at state.new out.new (refusal_number result) ≡ lent_step_at state.old (command_of (drop from numbers.now)) out.old at }
{
    if out.len() < at {
        return Err(Refusal::LentTooShort);
    }
    let (_, rest) = out.split_at_mut(at);
    let Some(places) = rest.first_chunk_mut() else {
        return Err(Refusal::LentTooShort);
    };
    let answer = step(state, command_at(numbers, from));
    *places = numbers_of(answer);
    refusal_of(answer)
}
