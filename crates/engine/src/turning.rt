// The operations on one coordinate, in 64 bits, since of registers that a caller made up the new ones may leave 32; landing; the point shown.
ghost use Rattle.std.specs.Prelude.{◌≡◌};
ghost use Rattle.coordinate.specs.Registers.{halve, double, step, turn};
ghost use Rattle.coordinate.specs.Shown.{pixel};
ghost use Rattle.engine.specs.Drawing.{landed};
ghost use Rattle.engine.specs.Moved.{answered};
ghost use Rattle.engine.specs.Wide.{narrowed, Narrows};

use crate::place::Place;
use crate::{Drawing, Refused};
use coordinate::Registers;
use rules::Refusal;
use std::num::TryFromIntError;

// The registers of one coordinate before it is known that they fit 32 bits. Not a generic `Registers`: the theorems of coordinate name that record.
#[derive(Clone, Copy)]
pub(crate) struct Wide {
    pub(crate) a: i64,
    pub(crate) b: i64,
    pub(crate) c: i64,
    pub(crate) d: i64,
}

impl From<Registers> for Wide {
    ghost from_gives = { λ r w. narrowed w ≡ r };

    fn from(r: Registers) -> Wide {
        Wide {
            a: i64::from(r.a),
            b: i64::from(r.b),
            c: i64::from(r.c),
            d: i64::from(r.d),
        }
    }
}

impl TryFrom<Wide> for Registers {
    type Error = TryFromIntError;

    ghost try_from_gives = { Narrows };

    fn try_from(w: Wide) -> Result<Registers, TryFromIntError> {
        Ok(Registers {
            a: i32::try_from(w.a)?,
            b: i32::try_from(w.b)?,
            c: i32::try_from(w.c)?,
            d: i32::try_from(w.d)?,
        })
    }
}

pub(crate) fn halve_one(r: Registers, at: Place) -> Wide
    ensures { narrowed result ≡ turn halve at.level r }
{
    let old = Wide::from(r);
    let a = old.a >> 1;
    let b = old.b - a;
    Wide {
        a: a,
        b: b,
        c: old.c - (b >> (at.level + 2)),
        d: old.d,
    }
}

pub(crate) fn double_one(r: Registers, at: Place) -> Wide
    ensures { narrowed result ≡ turn double at.level r }
{
    let old = Wide::from(r);
    Wide {
        a: 2 * old.a,
        b: old.b + old.a,
        c: old.c + (old.b >> (at.level + 1)),
        d: old.d,
    }
}

pub(crate) fn step_one(r: Registers, at: Place) -> Wide
    ensures { narrowed result ≡ turn step at.level r }
{
    let old = Wide::from(r);
    Wide {
        a: old.a,
        b: old.b + old.a,
        c: old.c + (old.b >> at.level),
        d: old.d + (old.c >> at.level),
    }
}

// The new drawing, of the old one's finest level, where its registers fit 32 bits; otherwise the old one, refused 10. Tried as one match on the
// three: a tenth slower.
#[tactic(auto, unfolding(crate::specs::Drawing::landed, operations::specs::Refusals::registers_refusal, operations::specs::Coordinates::every))]
pub(crate) fn land(
    old: Drawing,
    level: u32,
    q: u32,
    x: Wide,
    y: Wide,
    width: Wide,
) -> Result<Drawing, Refused>
    ensures { answered result ≡ landed old (record { finest = old.finest; level = level; q = q; x = narrowed x; y = narrowed y; width = narrowed width }) }
{
    let Ok(x) = Registers::try_from(x) else {
        return Err(refuse(Refusal::NoDrawing, old));
    };
    let Ok(y) = Registers::try_from(y) else {
        return Err(refuse(Refusal::NoDrawing, old));
    };
    let Ok(width) = Registers::try_from(width) else {
        return Err(refuse(Refusal::NoDrawing, old));
    };
    let new = Drawing {
        finest: old.finest,
        level: level,
        q: q,
        x: x,
        y: y,
        width: width,
    };
    Ok(new)
}

// A refusal hands back the drawing that it is given.
pub(crate) fn refuse(refusal: Refusal, d: Drawing) -> Refused
    ensures { result ≡ record { refusal = refusal; drawing = d } }
{
    Refused {
        drawing: d,
        refusal: refusal,
    }
}

pub(crate) fn pixel_of(r: Registers) -> i32
    ensures { result ≡ pixel r }
{
    ((i64::from(r.d) + 32768) >> 16) as i32
}
