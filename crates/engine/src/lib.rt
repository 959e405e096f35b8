// The drawing engine: start, halve, double, step, choosing the next operation, and the point shown.
#![tactic(auto)]

mod choosing;
mod cubic;
mod curve;
mod place;
mod quadratic;
mod starting;
mod turning;

ghost use Rattle.std.specs.Prelude.{◌≡◌};
ghost use Rattle.rules.specs.Rules.{standard_upper, standard_lower};
ghost use Rattle.coordinate.specs.Registers.{halve, double, step};
ghost use Rattle.operations.specs.Coordinates.{pick};
ghost use Rattle.engine.specs.Drawing.{called};
ghost use Rattle.engine.specs.Moved.{answered};
ghost use Rattle.engine.specs.Start.{started};
ghost use Rattle.engine.specs.Choice.{said, choice};
ghost use Rattle.engine.specs.Shown.{point};

use choosing::{doubled_increment_of, increment_of};
use coordinate::Registers;
pub use curve::{Coefficients, Curve};
use place::Place;
use rules::{Limits, Refusal};
use starting::{begin, check};
use turning::{double_one, halve_one, land, pixel_of, refuse, step_one};

// A drawing at level `level` and position `q`, which counts 2^finest-ths of the parameter.
#[derive(Clone, Copy)]
pub struct Drawing {
    pub finest: u32,
    pub level: u32,
    pub q: u32,
    pub x: Registers,
    pub y: Registers,
    pub width: Registers,
}

// A refused call: the drawing that it was given, of a start one with every number 0, and why. The drawing is first, where an accepted one lies too.
#[derive(Clone, Copy)]
pub struct Refused {
    pub drawing: Drawing,
    pub refusal: Refusal,
}

// The next operation.
#[derive(Clone, Copy, Debug, PartialEq, Eq)]
pub enum Operation {
    Halve,
    Double,
    Step,
}

// The point shown: its pixel, and the width there.
#[derive(Clone, Copy)]
pub struct Shown {
    pub x: i32,
    pub y: i32,
    pub width: i32,
}

impl Drawing {
    // The drawing at the start of a curve of either degree, at a finest level from 6 to 12: a drawing does not know its degree. Refuses 24, 1, 2, 3.
    pub fn start<C: Curve>(
        x: C,
        y: C,
        width: C,
        finest: u32,
        level: u32,
    ) -> Result<Drawing, Refused>
        ensures { answered result ≡ started C.degree finest (pick (C.control x) (C.control y) (C.control width)) level }
    {
        let reach = rules::reach(C::degree(), finest);
        let x = check(x, reach);
        let y = check(y, reach);
        let width = check(width, reach);
        begin(x, y, width, finest, level)
    }

    // One level finer. Refuses 10, 5, 6, 10, with the drawing as it was. (Each coordinate by its name, as the definition `turned` has them: a
    // closure over the three would need a clause that says all three again.)
    pub fn halve(self) -> Result<Drawing, Refused>
        ensures { answered result ≡ called halve self }
    {
        let at = Place::to_halve(self).map_err(|refusal| refuse(refusal, self))?;
        let x = halve_one(self.x, at);
        let y = halve_one(self.y, at);
        let width = halve_one(self.width, at);
        land(self, at.level + 1, at.q, x, y, width)
    }

    // One level coarser. Refuses 10, 5, 7, 8, 10, with the drawing as it was.
    pub fn double(self) -> Result<Drawing, Refused>
        ensures { answered result ≡ called double self }
    {
        let at = Place::to_double(self).map_err(|refusal| refuse(refusal, self))?;
        let x = double_one(self.x, at);
        let y = double_one(self.y, at);
        let width = double_one(self.width, at);
        land(self, at.level - 1, at.q, x, y, width)
    }

    // One step on. Refuses 10, 5, 10, with the drawing as it was.
    pub fn step(self) -> Result<Drawing, Refused>
        ensures { answered result ≡ called step self }
    {
        let at = Place::of(self).map_err(|refusal| refuse(refusal, self))?;
        let x = step_one(self.x, at);
        let y = step_one(self.y, at);
        let width = step_one(self.width, at);
        land(self, at.level, at.q + at.stride(), x, y, width)
    }

    // The operation that the three rules choose under these limits, by x and y alone. Refuses 4, 10, 5.
    pub fn next(self, limits: Limits) -> Result<Operation, Refusal>
        ensures { said result ≡ choice limits.upper limits.lower self }
    {
        let at = Place::to_choose(self, limits)?;
        let upper = limits.upper;
        let lower = limits.lower;
        let x = increment_of(self.x.c, at);
        let y = increment_of(self.y.c, at);
        if ((upper < x) | (upper < y)) & (at.level < at.finest) {
            return Ok(Operation::Halve);
        }
        // A doubled increment is reckoned only where all else asks to double.
        let smaller = (x < lower) & (y < lower);
        if !((0 < at.level) & smaller & at.is_aligned()) {
            return Ok(Operation::Step);
        }
        let doubled_x = doubled_increment_of(self.x.b, self.x.c, at);
        let doubled_y = doubled_increment_of(self.y.b, self.y.c, at);
        let most = u64::from(upper);
        if (doubled_x <= most) & (doubled_y <= most) {
            return Ok(Operation::Double);
        }
        Ok(Operation::Step)
    }

    // The same under the standard limits, which README names beside it. Refuses 10, 5.
    pub fn next_standard(self) -> Result<Operation, Refusal>
        ensures { said result ≡ choice standard_upper standard_lower self }
    {
        self.next(Limits::standard())
    }

    // The point of any drawing: the nearest to d in each coordinate, halves upward.
    pub fn shown(self) -> Shown
        ensures { result ≡ point self }
    {
        Shown {
            x: pixel_of(self.x),
            y: pixel_of(self.y),
            width: pixel_of(self.width),
        }
    }
}
