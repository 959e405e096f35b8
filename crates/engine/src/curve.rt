// One coordinate of a curve, of either degree: rules 1 and 2, and its coefficients.
ghost use Rattle.std.specs.Prelude.{◌≡◌};
ghost use Rattle.rules.specs.declared.Degree.{Degree};
ghost use Rattle.coordinate.specs.Control.{Control};
ghost use Rattle.coordinate.specs.Curve.{curve};
ghost use Rattle.coordinate.specs.Points.{are_coordinates, are_near};
ghost use Rattle.engine.specs.Coefficients.{curve_of};

use rules::Degree;

// The coefficients A, B, C and D of one coordinate's curve, of any control points.
#[derive(Clone, Copy)]
pub struct Coefficients {
    pub a: i64,
    pub b: i64,
    pub c: i64,
    pub d: i64,
}

// What a drawing can start from, in each coordinate.
pub trait Curve: Copy {
    ghost degree: { Degree };

    ghost control: { Self → Control degree };

    fn degree() -> Degree
        ensures { result ≡ degree };

    // 1 where it fails.
    fn inside(self) -> bool
        ensures { result ≡ are_coordinates degree (control self) };

    // 2 where it fails.
    fn near(self, reach: u32) -> bool
        ensures { result ≡ are_near degree reach (control self) };

    fn coefficients(self) -> Coefficients
        ensures { curve_of result ≡ curve degree (control self) };
}
