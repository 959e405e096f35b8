// One coordinate of a quadratic.
ghost use Rattle.std.specs.Prelude.{◌≡◌, true};
ghost use Rattle.rules.specs.declared.Degree.TheVariants as degrees;
ghost use Rattle.coordinate.specs.Curve.{curve};
ghost use Rattle.coordinate.specs.Points.{are_coordinates};
ghost use Rattle.engine.specs.Coefficients.{curve_of};

use crate::curve::{Coefficients, Curve};
use coordinate::Quadratic;
use rules::Degree;

impl Curve for Quadratic {
    ghost degree = { degrees.Quadratic };

    ghost control = { λ p. p };

    fn degree() -> Degree {
        Degree::Quadratic
    }

    fn inside(self) -> bool {
        rules::coordinate(self.p0) & rules::coordinate(self.p1) & rules::coordinate(self.p2)
    }

    fn near(self, reach: u32) -> bool {
        rules::neighbours(reach, self.p0, self.p1) & rules::neighbours(reach, self.p1, self.p2)
    }

    // By the differences of neighbours. A start has those of coordinates; in 64 bits every other point has some too.
    fn coefficients(self) -> Coefficients {
        if self.inside() {
            return of_coordinates(self);
        }
        let p0 = i64::from(self.p0);
        let p1 = i64::from(self.p1);
        let p2 = i64::from(self.p2);
        let first = p1 - p0;
        let second = p2 - p1;
        Coefficients {
            a: 0,
            b: second - first,
            c: 2 * first,
            d: p0,
        }
    }
}

// Of coordinates every sum fits 32 bits.
fn of_coordinates(p: Quadratic) -> Coefficients
    requires { are_coordinates degrees.Quadratic p ≡ true }
    ensures { curve_of result ≡ curve degrees.Quadratic p }
{
    let first = p.p1 - p.p0;
    let second = p.p2 - p.p1;
    let b = second - first;
    let c = 2 * first;
    Coefficients {
        a: 0,
        b: b as i64,
        c: c as i64,
        d: p.p0 as i64,
    }
}
