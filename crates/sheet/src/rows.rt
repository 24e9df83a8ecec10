// The rows of a sheet: 64 rows of five words, the kind and four numbers as bits; behind them is
// what it remembers (history.rt).
ghost use Rattle.std.specs.Prelude.{◌≡◌, ◌+◌, ◌%◌, ◌≤◌, ◌<◌, take, drop};
ghost use Rattle.std.proofs.lemmas.List.Edits.{sets};
ghost use Rattle.commands.specs.Rows.{row, row_of, stored_row, row_at};
ghost use Rattle.sheet.specs.Rows.{stored_words, put_row};
ghost use Rattle.sheet.specs.Words.{state_words, model_of};

use commands::row::{Row, StoredRow};
use scalar::bits::to_bits;
use vector::vec3::Vec3;

// The rows of a sheet, and the words of a row.
pub(crate) const ROW_COUNT: u32 = 64;

pub(crate) const ROW_WIDTH: usize = 5;

// The words of a sheet: what is behind them is the caller's.
pub const STATE_WORDS: usize = 1089;

// The number of a row of the sheet.
#[derive(Clone, Copy)]
pub(crate) struct RowIndex {
    pub(crate) at: usize,
    ghost in_sheet: { at < 64 },
}

impl RowIndex {
    // The row of a number, which is taken modulo 64.
    pub(crate) fn of(n: u32) -> Self
        ensures { result.at ≡ n % 64 }
    {
        RowIndex {
            at: (n % ROW_COUNT) as usize,
        }
    }
}

// The five words from a place on.
#[tactic(auto, using(crate::proofs::words::ListLaws::five_taken))]
pub(crate) fn words_at(state: &[u32; STATE_WORDS], at: usize) -> StoredRow
    requires { at + 5 ≤ state_words }
    ensures { stored_words result ≡ take 5 (drop at state.now) }
{
    StoredRow {
        kind: state[at],
        x: state[at + 1],
        y: state[at + 2],
        z: state[at + 3],
        offset: state[at + 4],
    }
}

// Writes the five words from a place on.
// Word by word: with `copy_from_slice` and `copy_within` a line took 969 instructions, so 954.
pub(crate) fn put_words(state: &mut [u32; STATE_WORDS], at: usize, row: StoredRow)
    requires { at + 5 ≤ state_words }
    ensures { state.new ≡ sets state.old at (stored_words row) }
{
    state[at] = row.kind;
    state[at + 1] = row.x;
    state[at + 2] = row.y;
    state[at + 3] = row.z;
    state[at + 4] = row.offset;
}

// Row i, as it is stored.
#[tactic(auto, using(crate::proofs::words::WordLaws::row_stored))]
pub(crate) fn stored_at(state: &[u32; STATE_WORDS], i: RowIndex) -> StoredRow
    ensures { stored_row result ≡ row_at (model_of state.now).rows i.at }
{
    words_at(state, i.at * ROW_WIDTH)
}

// Row i.
pub(crate) fn row_at(state: &[u32; STATE_WORDS], i: RowIndex) -> Row
    ensures { row_of result ≡ row_at (model_of state.now).rows i.at }
{
    Row::from(stored_at(state, i))
}

// Writes row i, and no other word. The kind is a number, as `Row` has it.
#[tactic(auto, unfolding(crate::specs::Rows::put_row, crate::specs::Rows::row_words))]
pub(crate) fn put_row(state: &mut [u32; STATE_WORDS], i: RowIndex, kind: u32, v: Vec3, offset: f32)
    ensures { state.new ≡ put_row state.old i.at (row kind v offset) }
{
    let row = StoredRow {
        kind,
        x: to_bits(v.x),
        y: to_bits(v.y),
        z: to_bits(v.z),
        offset: to_bits(offset),
    };
    put_words(state, i.at * ROW_WIDTH, row);
}
