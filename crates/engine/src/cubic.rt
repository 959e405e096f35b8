// One coordinate of a cubic.
ghost use Rattle.std.specs.Prelude.{◌≡◌, true};
ghost use Rattle.rules.specs.declared.Degree.TheVariants as degrees;
ghost use Rattle.coordinate.specs.Curve.{curve};
ghost use Rattle.coordinate.specs.Points.{are_coordinates};
ghost use Rattle.engine.specs.Coefficients.{curve_of};

use crate::curve::{Coefficients, Curve};
use coordinate::Cubic;
use rules::Degree;

impl Curve for Cubic {
    ghost degree = { degrees.Cubic };

    ghost control = { λ p. p };

    fn degree() -> Degree {
        Degree::Cubic
    }

    fn inside(self) -> bool {
        rules::coordinate(self.p0)
            & rules::coordinate(self.p1)
            & rules::coordinate(self.p2)
            & rules::coordinate(self.p3)
    }

    fn near(self, reach: u32) -> bool {
        rules::neighbours(reach, self.p0, self.p1)
            & rules::neighbours(reach, self.p1, self.p2)
            & rules::neighbours(reach, self.p2, self.p3)
    }

    // By the differences of neighbours. A start has those of coordinates; in 64 bits every other point has some too.
    fn coefficients(self) -> Coefficients {
        if self.inside() {
            return of_coordinates(self);
        }
        let p0 = i64::from(self.p0);
        let p1 = i64::from(self.p1);
        let p2 = i64::from(self.p2);
        let p3 = i64::from(self.p3);
        let first = p1 - p0;
        let second = p2 - p1;
        let third = p3 - p2;
        Coefficients {
            a: third - 2 * second + first,
            b: 3 * (second - first),
            c: 3 * first,
            d: p0,
        }
    }
}

// Of coordinates every sum fits 32 bits.
fn of_coordinates(p: Cubic) -> Coefficients
    requires { are_coordinates degrees.Cubic p ≡ true }
    ensures { curve_of result ≡ curve degrees.Cubic p }
{
    let first = p.p1 - p.p0;
    let second = p.p2 - p.p1;
    let third = p.p3 - p.p2;
    let a = third - 2 * second + first;
    let b = 3 * (second - first);
    let c = 3 * first;
    Coefficients {
        a: a as i64,
        b: b as i64,
        c: c as i64,
        d: p.p0 as i64,
    }
}
