// The refusals that are known before a command is worked out: 2, 3, 4 and 5, from its fields and the kinds of its sources. 11 is where the history is (crate sheet).
ghost use Rattle.std.specs.Prelude.{◌≡◌, true, ◌&&◌, not, eqb, ltb};
ghost use Rattle.std.specs.Float.Ieee as Ieee;
ghost use Rattle.std.specs.Float.{binary32};
ghost use Rattle.std.specs.Float.Ieee.Scale.{finite};
ghost use Rattle.commands.specs.Fields.{is_used, allows};
ghost use Rattle.commands.specs.CommandSets.{in_set, set_of};
ghost use Rattle.commands.specs.RefusalNumbers.{refusal_number};
ghost use Rattle.commands.specs.Commands.{entry_at};
ghost use Rattle.commands.specs.Refusals.{no_row, bad_source, out_of_order, out_of_range, bad_value, first, early};

use crate::codes::{Kind, LAST, Refusal};
use crate::command::Command;
use scalar::bits::from_bits;
use scalar::sign::is_finite;

// The commands that use t, a, b, u, v and w, each a bit: columns of the table in specs/Commands.
const USE_T: u64 = 0x14_01ff_ffff;

const USE_A: u64 = 0x3d_ffff_fffc;

const USE_B: u64 = 0x1c_9ad8_faf8;

const USE_U: u64 = 0x0080_6702;

const USE_V: u64 = 0x0000_0602;

const USE_W: u64 = 0x0000_0202;

// The commands that do not take a row as a source, by its kind: empty, a point, a direction,
// a plane, or any other.
#[derive(Clone, Copy)]
struct Unfit {
    empty: u64,
    point: u64,
    direction: u64,
    plane: u64,
    other: u64,
}

// As a.
const UNFIT_A: Unfit = Unfit {
    empty: USE_A,
    point: 0x20_01c0_0000,
    direction: 0x3c_0000_0000,
    plane: 0x1c_ffff_fffc,
    other: 0x3c_ffff_fffc,
};

// And as b; 32 alone takes a row of another kind, and it does not use b.
const UNFIT_B: Unfit = Unfit {
    empty: USE_B,
    point: 0x1c_00c0_0000,
    direction: 0x08_0000_0000,
    plane: 0x14_9ad8_faf8,
    other: USE_B,
};

// Whether n is in a set, a bit for each number up to LAST.
#[tactic(auto, unfolding(crate::specs::CommandSets::in_set))]
fn is_in(set: u64, n: u32) -> bool
    ensures { result ≡ in_set set n }
{
    n <= LAST && (set >> n) % 2 == 1
}

// Which fields a command uses: 36 alone reads the row whose number is field u.
#[derive(Clone, Copy)]
struct Uses {
    t: bool,
    a: bool,
    b: bool,
    row: bool,
    u: bool,
    v: bool,
    w: bool,
}

impl Uses {
    fn of(n: u32) -> Uses
        ensures t { result.t ≡ (entry_at n).uses.t }
        ensures a { result.a ≡ is_used (entry_at n).uses.a }
        ensures b { result.b ≡ is_used (entry_at n).uses.b }
        ensures row { result.row ≡ is_used (entry_at n).uses.row }
        ensures u { result.u ≡ (entry_at n).uses.u }
        ensures v { result.v ≡ (entry_at n).uses.v }
        ensures w { result.w ≡ (entry_at n).uses.w }
    {
        Uses {
            t: is_in(USE_T, n),
            a: is_in(USE_A, n),
            b: is_in(USE_B, n),
            row: n == 36,
            u: is_in(USE_U, n),
            v: is_in(USE_V, n),
            w: is_in(USE_W, n),
        }
    }
}

// A row that is used and is none of the sheet's.
fn row_out(used: bool, i: u32) -> bool
    ensures { result ≡ (used && ltb 63 i) }
{
    used && 63 < i
}

// 24 writes row t + 1 too.
fn no_next_row(n: u32, t: u32) -> bool
    ensures { result ≡ (eqb n 24 && eqb t 63) }
{
    n == 24 && t == 63
}

// "3, a used row above 63, or t = 63 in 24"
#[tactic(auto, unfolding(crate::specs::Refusals::no_row))]
fn no_row(c: Command) -> bool
    ensures { result ≡ no_row c }
{
    let uses = Uses::of(c.number);
    row_out(uses.t, c.t)
        || row_out(uses.a, c.a)
        || row_out(uses.b, c.b)
        || row_out(uses.row, c.u)
        || no_next_row(c.number, c.t)
}

// One of the five sets, by a row's kind.
#[tactic(auto, unfolding(crate::specs::CommandSets::set_of, crate::specs::KindNumbers::kind_of))]
fn set_of(kind: u32, sets: Unfit) -> u64
    ensures { result ≡ set_of «kind» sets.empty sets.point sets.direction sets.plane sets.other }
{
    match Kind::try_from(kind) {
        Ok(Kind::Empty) => sets.empty,
        Ok(Kind::Point) => sets.point,
        Ok(Kind::Direction) => sets.direction,
        Ok(Kind::Plane) => sets.plane,
        Err(_) => sets.other,
    }
}

// Whether the command does not take a row of this kind as the row whose number is field u.
fn bad_row(n: u32, kind: u32) -> bool
    ensures { result ≡ not (allows (entry_at n).uses.row «kind») }
{
    Uses::of(n).row && kind != u32::from(Kind::Plane)
}

// "4, a source empty, or no direction in 22 to 24"; "A row called point, direction or plane here must be of that kind, else 4"
fn bad_source(n: u32, kind_a: u32, kind_b: u32, kind_row: u32) -> bool
    ensures { result ≡ bad_source n kind_a kind_b kind_row }
{
    let bad_a = is_in(set_of(kind_a, UNFIT_A), n);
    let bad_b = is_in(set_of(kind_b, UNFIT_B), n);
    bad_a || bad_b || bad_row(n, kind_row)
}

// A value that is used and not finite.
fn value_bad(used: bool, bits: u32) -> bool
    ensures { result ≡ (used && not (finite (Ieee.of_bits binary32 bits))) }
{
    used && !is_finite(from_bits(bits))
}

// A value that is used and not between two bounds.
fn out_of_bounds(used: bool, low: f32, x: f32, high: f32) -> bool
    ensures { result ≡ (used && not (Ieee.le low x && Ieee.le x high)) }
{
    // `!(low <= x && x <= high)` makes a command take 1.05 of the time
    used && if low <= x { !(x <= high) } else { true }
}

// "in 10 not 0 ≤ u ≤ v"
#[tactic(auto, unfolding(crate::specs::Refusals::out_of_order))]
fn out_of_order(n: u32, u: u32, v: u32) -> bool
    ensures { result ≡ out_of_order n (Ieee.of_bits binary32 u) (Ieee.of_bits binary32 v) }
{
    out_of_bounds(n == 10, 0.0, from_bits(u), from_bits(v))
}

// "in 23 u outside 0.25 to 4"
#[tactic(auto, unfolding(crate::specs::Refusals::out_of_range))]
fn out_of_range(n: u32, u: u32) -> bool
    ensures { result ≡ out_of_range n (Ieee.of_bits binary32 u) }
{
    out_of_bounds(n == 23, 0.25, from_bits(u), 4.0)
}

// "5, a used value not finite, or in 10 not 0 ≤ u ≤ v, or in 23 u outside 0.25 to 4"
#[tactic(auto, unfolding(crate::specs::Refusals::bad_value))]
fn bad_value(c: Command) -> bool
    ensures { result ≡ bad_value c.number (Ieee.of_bits binary32 c.u) (Ieee.of_bits binary32 c.v) (Ieee.of_bits binary32 c.w) }
{
    let uses = Uses::of(c.number);
    value_bad(uses.u, c.u)
        || value_bad(uses.v, c.v)
        || value_bad(uses.w, c.w)
        || out_of_order(c.number, c.u, c.v)
        || out_of_range(c.number, c.u)
}

// The first of refusals 2, 3, 4 and 5 that holds, from the kinds of the sources, where there is
// a command to take back.
#[tactic(auto, using(crate::proofs::ConditionLaws::some_remembered), unfolding(crate::specs::Refusals::early, crate::specs::Refusals::first, crate::specs::Refusals::nothing_remembered, crate::specs::Refusals::unknown))]
pub(crate) fn refusal(c: Command, kind_a: u32, kind_b: u32, kind_row: u32) -> Result<(), Refusal>
    ensures { refusal_number result ≡ first (early c true kind_a kind_b kind_row) }
{
    if LAST < c.number {
        return Err(Refusal::UnknownCommand);
    }
    if no_row(c) {
        return Err(Refusal::RowOutside);
    }
    if bad_source(c.number, kind_a, kind_b, kind_row) {
        return Err(Refusal::UnfitSource);
    }
    if bad_value(c) {
        return Err(Refusal::ValueOutside);
    }
    Ok(())
}
