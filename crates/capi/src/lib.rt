// The bench for Rust and C, as a static library: functions on numbers, lists of commands, and a sheet that a program keeps in words of its own.
#![tactic(auto)]

ghost use Rattle.std.specs.Prelude.{◌≡◌, [], ◌∷◌};
ghost use Rattle.std.specs.Float.Ieee as Ieee;
ghost use Rattle.std.specs.Float.{binary32};
ghost use Rattle.scalar.specs.Root as Root;
ghost use Rattle.scalar.specs.ExactRoot as ExactRoot;
ghost use Rattle.scalar.specs.Fused as Fused;
ghost use Rattle.scalar.specs.Integral as Integral;
ghost use Rattle.vector.specs.Masks.{bit};
ghost use Rattle.commands.specs.Fields.{command_of};
ghost use Rattle.commands.specs.RefusalNumbers.{refusal_number};
ghost use Rattle.sheet.specs.Words.{state_words};
ghost use Rattle.sheet.specs.Run.{stepped_at, lent_step_at, Runs, RunsAll};
ghost use Rattle.stream.specs.Responses.{Responds};
ghost use Rattle.capi.specs.Fresh.{freshened, fresh_of};

use commands::codes::Refusal;
use sheet::rows::STATE_WORDS;

// The number of a refusal, 0 for none, as C has it.
fn number_of(done: Result<(), Refusal>) -> u32
    ensures { result ≡ refusal_number done }
{
    match done {
        Ok(()) => 0,
        Err(refusal) => u32::from(refusal),
    }
}

#[unsafe(no_mangle)]
pub extern "C" fn bench_sqrt(x: f32) -> f32
    ensures { result ≡ Root.root x }
{
    scalar::root::sqrt(x)
}

// Whether the root of x is exact: 1 where it is, else 0.
#[tactic(auto, using(vector::proofs::meanings::MaskLaws::byte_is_bit), unfolding(scalar::specs::ExactRoot::root_and_exactness))]
#[unsafe(no_mangle)]
pub extern "C" fn bench_sqrt_is_exact(x: f32) -> u32
    ensures { result ≡ bit (ExactRoot.exact_root x) }
{
    let marked = scalar::root::sqrt_and_exactness(x);
    marked.exact as u32
}

#[unsafe(no_mangle)]
pub extern "C" fn bench_mul_add(a: f32, b: f32, c: f32) -> f32
    ensures { result ≡ Fused.mul_add a b c }
{
    scalar::fused::mul_add(a, b, c)
}

#[unsafe(no_mangle)]
pub extern "C" fn bench_trunc(x: f32) -> f32
    ensures { result ≡ Integral.trunc x }
{
    scalar::integral::trunc(x)
}

#[unsafe(no_mangle)]
pub extern "C" fn bench_floor(x: f32) -> f32
    ensures { result ≡ Integral.floor x }
{
    scalar::integral::floor(x)
}

#[unsafe(no_mangle)]
pub extern "C" fn bench_round(x: f32) -> f32
    ensures { result ≡ Integral.round_even x }
{
    scalar::integral::round(x)
}

#[unsafe(no_mangle)]
pub extern "C" fn bench_rem(a: f32, b: f32) -> f32
    ensures { result ≡ Ieee.rem binary32 a b }
{
    scalar::euclid::rem(a, b)
}

// Runs a list of commands from a fresh sheet, seven numbers each, and writes their answers, six numbers each. Gives 0, or the number by which the list is
// refused: 9 where too few numbers are lent, 1 where the list ends within a command.
#[unsafe(no_mangle)]
pub extern "C" fn bench_run(commands: &[u32], answers: &mut [u32]) -> u32
    ensures { RunsAll commands.now answers.old answers.new result }
{
    number_of(sheet::run::run_all(commands, answers))
}

// How many words a sheet has.
#[unsafe(no_mangle)]
pub extern "C" fn bench_words() -> usize
    ensures { result ≡ state_words }
{
    STATE_WORDS
}

// Makes the first words a fresh sheet, and leaves those behind it. Gives 0, or 9 where there are too few words, and then none is touched.
#[tactic(auto, using(crate::proofs::FreshLaws::fresh_short, crate::proofs::FreshLaws::fresh_filled))]
#[unsafe(no_mangle)]
pub extern "C" fn bench_fresh(state: &mut [u32]) -> u32
    ensures { freshened state.new result ≡ fresh_of state.old }
{
    if state.len() < STATE_WORDS {
        return u32::from(Refusal::LentTooShort);
    }
    state[..STATE_WORDS].fill(0);
    0
}

// Runs one command on the sheet that lies in the words, and writes its answer's six numbers to the first six of `answer`. Gives the answer's refusal, which is 9 where the
// words are too few for a sheet; 9 too where there are fewer than six places, and then nothing is run or written.
#[unsafe(no_mangle)]
pub extern "C" fn bench_step(
    state: &mut [u32],
    number: u32,
    t: u32,
    a: u32,
    b: u32,
    u: u32,
    v: u32,
    w: u32,
    answer: &mut [u32],
) -> u32
    ensures { stepped_at state.new answer.new result ≡ lent_step_at state.old (command_of (number ∷ t ∷ a ∷ b ∷ u ∷ v ∷ w ∷ [])) answer.old 0 }
{
    let seven = [number, t, a, b, u, v, w];
    number_of(sheet::step::step_at(state, &seven, 0, answer, 0))
}

// Runs the command of one line, which comes without its line feed, and writes its answer line over the first 43 bytes of `answer`. Gives the answer's refusal, which is 9
// where a command has too few words for a sheet; 9 too where there are fewer than 43 bytes, and then nothing is run or written.
#[unsafe(no_mangle)]
pub extern "C" fn bench_respond(state: &mut [u32], line: &[u8], answer: &mut [u8]) -> u32
    ensures { Responds state.old line.now answer.old result state.new answer.new }
{
    number_of(stream::respond::respond(state, line, answer))
}

// Runs a list of commands on the sheet that lies in the words, as `bench_run` does on a fresh one. Where the words are too few for a sheet, the list is refused by 9.
#[unsafe(no_mangle)]
pub extern "C" fn bench_run_on(state: &mut [u32], commands: &[u32], answers: &mut [u32]) -> u32
    ensures { Runs state.old commands.now answers.old state.new answers.new result }
{
    number_of(sheet::run::run(state, commands, answers))
}
