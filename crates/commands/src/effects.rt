// What a command comes to: it sees the rows that it reads and no sheet.
#![tactic(auto, unfolding(crate::specs::Answers::answer_of, crate::specs::Effects::effect_by, crate::specs::Effects::effect_of, crate::specs::Effects::settled, crate::specs::Effects::unless, crate::specs::Planes::height, crate::specs::Planes::is_parallel, crate::specs::Planes::meeting, crate::specs::Planes::offset_through, crate::specs::Refusals::lacks_direction, crate::specs::Refusals::no_factor, crate::specs::Refusals::not_finite, vector::specs::Optics::refract_k))]

mod directions;
mod planes;
mod projections;
mod results;

ghost use Rattle.std.specs.Prelude.{◌≡◌, true, Ok};
ghost use Rattle.std.specs.Float.{binary32};
ghost use Rattle.std.specs.Float.Ieee.{of_bits};
ghost use Rattle.vector.specs.Vectors.{vec};
ghost use Rattle.commands.specs.Rows.{row_of};
ghost use Rattle.commands.specs.Fields.{read_of, sources_of};
ghost use Rattle.commands.specs.Results as Results;
ghost use Rattle.commands.specs.Effects.{effect_by, settled, late_effect, command_effect};

use crate::codes::{Kind, Refusal};
use crate::command::{Answer, Command};
use crate::effects::directions::{directed, directed_pair, direction, refracted};
use crate::effects::planes::{height, meeting, plane};
use crate::effects::projections::{project, projected, reject};
use crate::effects::results::{angle, number, point, root, whole};
use crate::refusal::refusal;
use crate::row::{Row, StoredRow};
use scalar::bits::from_bits;
use vector::vec3::Vec3;

// An answer to tell; what to write at the target, one row, or two directions at t and t + 1;
// or the rows before the latest command that is remembered.
#[derive(Clone, Copy)]
pub enum Effect {
    Tell(Answer),
    Put { kind: Kind, v: Vec3, offset: f32 },
    PutTwo { v: Vec3, w: Vec3 },
    Restore,
}

fn empties() -> Effect
    ensures { effect_by (Ok result) ≡ settled Results.Empties }
{
    Effect::Put {
        kind: Kind::Empty,
        v: Vec3::ZERO,
        offset: 0.0,
    }
}

// Row i, as it is.
fn shows(i: u32, row: Row) -> Effect
    ensures { effect_by (Ok result) ≡ settled (Results.Shows i (row_of row)) }
{
    Effect::Tell(Answer::Shown {
        row: i,
        kind: row.kind,
        v: row.v,
    })
}

fn undoes() -> Effect
    ensures { effect_by (Ok result) ≡ settled Results.Undoes }
{
    Effect::Restore
}

// The values u, v and w as a vector.
fn values(c: Command) -> Vec3
    ensures { result ≡ vec (of_bits binary32 c.u) (of_bits binary32 c.v) (of_bits binary32 c.w) }
{
    Vec3 {
        x: from_bits(c.u),
        y: from_bits(c.v),
        z: from_bits(c.w),
    }
}

// An arm for each row of the table (specs/Commands); 8, 7, 12 and 6 are given where they arise.
// The numbers stay: callers give them (capi's step), and an enum of 38 names says the table twice.
#[tactic(auto, using(crate::proofs::LateLaws::arm), unfolding(crate::proofs::LateLaws::in_order, crate::specs::Commands::entry_at, crate::specs::Commands::table, crate::specs::Refusals::no_refraction, crate::specs::Refusals::no_meeting, crate::specs::Effects::unless))]
pub(crate) fn late_effect(c: Command, a: Row, b: Row, p: StoredRow) -> Result<Effect, Refusal>
    ensures { effect_by result ≡ late_effect c (sources_of c (read_of a b p)) }
{
    match c.number {
        0 => Ok(empties()),
        1 => point(values(c)),
        2 => direction(a.v),
        3 => point(a.v + b.v),
        4 => point(a.v - b.v),
        5 => point(a.v.cross(b.v)),
        6 => point(a.v.min(b.v)),
        7 => point(a.v.max(b.v)),
        8 => point(a.v * from_bits(c.u)),
        9 => point(a.v.mul_add(b.v, values(c))),
        10 => point(a.v.clamp_length(from_bits(c.u), from_bits(c.v))),
        11 => projected(b, project(a.v, b)),
        12 => projected(b, reject(a.v, b)),
        13 => point(a.v.lerp(b.v, from_bits(c.u))),
        14 => point(a.v.move_towards(b.v, from_bits(c.u))),
        15 => point(a.v.midpoint(b.v)),
        16 => point(a.v.trunc()),
        17 => point(a.v.floor()),
        18 => point(a.v.round()),
        19 => point(a.v.div_euclid(b.v)),
        20 => point(a.v.rem_euclid(b.v)),
        21 => point(a.v.any_orthogonal_vector()),
        22 => Ok(directed(a.v.reflect(b.v))),
        23 => refracted(a.v, b.v, from_bits(c.u)),
        24 => Ok(directed_pair(a.v.any_orthonormal_pair())),
        25 => number(a.v.dot(b.v)),
        26 => root(a.v.length_and_exactness()),
        27 => root(a.v.distance_and_exactness(b.v)),
        28 => angle(a.v, b.v),
        29 => Ok(whole(a.v.min_position())),
        30 => Ok(whole(a.v.max_position())),
        31 => Ok(whole(a.v.cmple(b.v).bitmask())),
        32 => Ok(shows(c.a, a)),
        33 => Ok(undoes()),
        34 => plane(a.v, b.v),
        35 => height(a.v, b),
        36 => meeting(a.v, b.v, Row::from(p)),
        37 => number(a.offset),
        // 2 has refused the numbers that are not in the table
        _ => Ok(empties()),
    }
}

// What a command comes to, from rows a and b and the row whose number is field u, where there is
// a command to take back: whether there is one the caller sees, and 33 alone depends on it.
// The last row comes as it is stored, since 36 alone makes numbers of its bits.
#[tactic(auto, using(crate::proofs::FirstLaws::refused_early, crate::proofs::FirstLaws::late_alone), unfolding(crate::specs::Effects::effect_by))]
pub fn effect_of(c: Command, a: Row, b: Row, p: StoredRow) -> Result<Effect, Refusal>
    ensures { effect_by result ≡ command_effect c (read_of a b p) true }
{
    refusal(c, a.kind, b.kind, p.kind)?;
    late_effect(c, a, b, p)
}
