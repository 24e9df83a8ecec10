// What a sheet remembers, behind its rows: a ring of 64 entries of twelve words, each the target
// of a command, how many rows it overwrote, one or two, and these as they were; then the place in
// the ring that is written next. An entry with no rows is none.
ghost use Rattle.std.specs.Prelude.{◌≡◌, true, ◌⊎◌, ◌+◌, ◌*◌, ◌≤◌, ◌<◌, take, drop};
ghost use Rattle.std.proofs.lemmas.List.Edits.{sets};
ghost use Rattle.commands.specs.Answers.{answer_of};
ghost use Rattle.commands.specs.Model.{stepped, restored, is_some};
ghost use Rattle.sheet.specs.History.{ring_at, next_of, back, place_at, remembered, target_in, put_back, taken_back};
ghost use Rattle.sheet.specs.Words.{state_words, model_of};

use crate::rows::{ROW_COUNT, ROW_WIDTH, RowIndex, STATE_WORDS, put_words, row_at, words_at};
use commands::command::Answer;

// Where the ring begins, the words of an entry, the word that tells the place that is written
// next, and the places of the ring.
const RING: usize = 320;

const ENTRY_WIDTH: usize = 12;

const NEXT: usize = 1088;

const DEPTH: u32 = 64;

// Where a place of the ring lies.
fn place_at(place: u32) -> usize
    requires { place < 64 }
    ensures { result ≡ place_at place }
{
    RING + place as usize * ENTRY_WIDTH
}

// The place of the latest entry: the one before the place that is written next.
fn latest(state: &[u32; STATE_WORDS]) -> u32
    ensures { result ≡ back (next_of state.now) }
{
    (state[NEXT] % DEPTH + DEPTH - 1) % DEPTH
}

// Whether there is a command to take back.
#[tactic(auto, using(crate::proofs::words::WordLaws::remembers_told))]
pub(crate) fn remembers(state: &[u32; STATE_WORDS]) -> bool
    ensures { result ≡ is_some (model_of state.now).history }
{
    let e = place_at(latest(state));
    state[e + 1] != 0
}

// Copies so many rows, of five words each, to other words (`put_words` says why word by word).
#[tactic(auto, using(crate::proofs::words::ListLaws::five_more))]
fn copy_rows(state: &mut [u32; STATE_WORDS], from: usize, to: usize, rows: usize)
    requires within { (from + rows * 5 ≤ state_words) × (to + rows * 5 ≤ state_words) }
    requires apart { (from + rows * 5 ≤ to) ⊎ (to + rows * 5 ≤ from) }
    ensures { state.new ≡ sets state.old to (take (rows * 5) (drop from state.old)) }
{
    for i in 0..rows {
        let row = words_at(state, from + i * ROW_WIDTH);
        put_words(state, to + i * ROW_WIDTH, row);
    }
}

// Remembers so many rows from row t on, one or two, which are about to be written.
#[tactic(auto, using(crate::proofs::ring::CopyLaws::remember_written))]
pub(crate) fn remember(state: &mut [u32; STATE_WORDS], t: u32, rows: u32)
    requires { (rows ≤ 2) × (t + rows ≤ 64) }
    ensures { state.new ≡ remembered state.old t rows }
{
    let next = state[NEXT] % DEPTH;
    let e = place_at(next);
    let row = t as usize * ROW_WIDTH;
    state[e] = t;
    state[e + 1] = rows;
    copy_rows(state, row, e + 2, rows as usize);
    state[NEXT] = (next + 1) % DEPTH;
}

// Puts back the rows of the entry at e, and gives its target.
#[tactic(auto, using(crate::proofs::ring::CopyLaws::put_back_written))]
fn put_back(state: &mut [u32; STATE_WORDS], e: usize) -> u32
    requires { (ring_at ≤ e) × (e + 12 ≤ state_words) }
    ensures words { state.new ≡ put_back state.old e }
    ensures target { result ≡ target_in state.old e }
{
    let rows = if state[e + 1] == 2 { 2 } else { 1 };
    let t = state[e] % (ROW_COUNT + 1 - rows);
    let row = t as usize * ROW_WIDTH;
    copy_rows(state, e + 2, row, rows as usize);
    t
}

// Takes back the latest command that is remembered: the rows that it overwrote are put back, its
// entry is then none, and its row t is shown.
#[tactic(auto, using(crate::proofs::ring::TakeBackLaws::restore_done))]
pub(crate) fn restore(state: &mut [u32; STATE_WORDS]) -> Answer
    requires { is_some (model_of state.old).history ≡ true }
    ensures { stepped state.new (answer_of (Ok result)) ≡ stepped (taken_back state.old) (restored (model_of state.old) (model_of state.old).history).answer }
{
    let place = latest(state);
    let e = place_at(place);
    let t = put_back(state, e);
    state[e + 1] = 0;
    state[NEXT] = place;
    let row = row_at(state, RowIndex { at: t as usize });
    Answer::Shown {
        row: t,
        kind: row.kind,
        v: row.v,
    }
}
