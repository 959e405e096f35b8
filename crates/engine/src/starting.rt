// The start of a drawing of either degree: its refusals, and its registers, from the coefficients of its curves.
ghost use Rattle.std.specs.Prelude.{◌≡◌};
ghost use Rattle.coordinate.specs.Curve.{Mild};
ghost use Rattle.coordinate.specs.Registers.{start_registers};
ghost use Rattle.operations.specs.Coordinates.{pick};
ghost use Rattle.operations.specs.Refusals.{begin_refusal};
ghost use Rattle.engine.specs.Place.{Stands};
ghost use Rattle.engine.specs.Start.{nothing_drawn};
ghost use Rattle.engine.specs.Moved.{answered};
ghost use Rattle.engine.specs.Coefficients.{curve_of, no_curve};
ghost use Rattle.engine.specs.Checked.{checked, begun};

use crate::curve::{Coefficients, Curve};
use crate::place::Place;
use crate::turning::refuse;
use crate::{Drawing, Refused};
use coordinate::Registers;
use rules::Refusal;

// One coordinate of a start: whether it keeps rules 1 and 2, and where it keeps both its coefficients. No Option or Result: `checked` and `begun`
// in specs/Checked speak of these fields, since 1 over all three coordinates comes before 2.
#[derive(Clone, Copy)]
pub(crate) struct Checked {
    pub(crate) inside: bool,
    pub(crate) near: bool,
    pub(crate) curve: Coefficients,
}

pub(crate) fn check<C: Curve>(p: C, reach: u32) -> Checked
    ensures { result ≡ checked C.degree reach (C.control p) }
{
    let inside = p.inside();
    let near = p.near(reach);
    if inside & near {
        return Checked {
            inside: inside,
            near: near,
            curve: p.coefficients(),
        };
    }
    Checked {
        inside: inside,
        near: near,
        curve: no_curve(),
    }
}

// The drawing at the start of three curves, or its refusal.
pub(crate) fn begin(
    x: Checked,
    y: Checked,
    width: Checked,
    finest: u32,
    level: u32,
) -> Result<Drawing, Refused>
    requires { Mild (curve_of x.curve) × Mild (curve_of y.curve) × Mild (curve_of width.curve) }
    ensures { answered result ≡ begun finest (pick x y width) level }
{
    let inside = x.inside & y.inside & width.inside;
    let near = x.near & y.near & width.near;
    let checked = check_begin(finest, inside, near, level);
    let at = checked.map_err(|refusal| refuse(refusal, nothing()))?;
    Ok(Drawing {
        finest: at.finest,
        level: at.level,
        q: at.q,
        x: start_one(x.curve, at),
        y: start_one(y.curve, at),
        width: start_one(width.curve, at),
    })
}

// Where it starts, by whether all points are coordinates, and all neighbours near.
#[tactic(auto, unfolding(operations::specs::Refusals::begin_refusal, rules::specs::Rules::is_finest, rules::specs::Rules::is_level))]
fn check_begin(finest: u32, inside: bool, near: bool, level: u32) -> Result<Place, Refusal>
    ensures { Stands (begin_refusal finest inside near level) finest level 0 result }
{
    if !rules::finest(finest) {
        return Err(Refusal::FinestLevel);
    }
    if !inside {
        return Err(Refusal::Coordinate);
    }
    if !near {
        return Err(Refusal::Neighbours);
    }
    if !rules::level(finest, level) {
        return Err(Refusal::StartLevel);
    }
    Ok(Place {
        finest: finest,
        level: level,
        q: 0,
    })
}

// The coefficients are small: they and every sum here fit 32 bits.
fn start_one(f: Coefficients, at: Place) -> Registers
    requires { Mild (curve_of f) }
    ensures { result ≡ start_registers at.level (curve_of f) }
{
    let cubic = 65536 * f.a as i32;
    let square = 65536 * f.b as i32;
    let linear = 65536 * f.c as i32;
    let a = (6 * cubic) >> at.level;
    let b = a + 2 * square;
    let c = linear + ((square + (cubic >> at.level)) >> at.level);
    let d = 65536 * f.d as i32;
    Registers {
        a: a,
        b: b,
        c: c,
        d: d,
    }
}

// Where a coordinate breaks a rule nothing is reckoned of it.
fn no_curve() -> Coefficients
    ensures { result ≡ no_curve }
{
    Coefficients {
        a: 0,
        b: 0,
        c: 0,
        d: 0,
    }
}

// Number by number, so that the edit paired_refused_start_at_finest_11 can name one.
fn nothing() -> Drawing
    ensures { result ≡ nothing_drawn }
{
    let zeros = Registers {
        a: 0,
        b: 0,
        c: 0,
        d: 0,
    };
    Drawing {
        finest: 0,
        level: 0,
        q: 0,
        x: zeros,
        y: zeros,
        width: zeros,
    }
}
