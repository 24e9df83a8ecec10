// One line on a sheet: the command that its fields give, and its answer line.
ghost use Rattle.commands.specs.RefusalNumbers.{refusal_number};
ghost use Rattle.stream.specs.Responses.{Responds};

use crate::answers::put_line;
use commands::codes::Refusal;
use lines::answer_line::ANSWER_LENGTH;
use lines::command_line::fields;
use sheet::answer::{ANSWER_NUMBERS, numbers_of};
use sheet::step::{COMMAND_NUMBERS, step_at};

// Runs the command of a line on the sheet that lies in the words, and writes its answer line over the
// first 43 bytes of out. Gives the line's refusal: 9 where fewer than 43 bytes are lent, and then
// nothing is run or written.
#[tactic(auto, using(crate::proofs::turns::ResponseLaws::respond_short))]
pub fn respond(state: &mut [u32], line: &[u8], out: &mut [u8]) -> Result<(), Refusal>
    ensures { Responds state.old line.now out.old (refusal_number result) state.new out.new }
{
    if out.len() < ANSWER_LENGTH {
        return Err(Refusal::LentTooShort);
    }
    let mut f = [0u32; COMMAND_NUMBERS];
    let mut six = [0u32; ANSWER_NUMBERS];
    let told = if fields(line, &mut f) {
        step_at(state, &f, 0, &mut six, 0)
    } else {
        six = numbers_of(Err(Refusal::IllFormed));
        Err(Refusal::IllFormed)
    };
    put_line(out, 0, &six);
    told
}
