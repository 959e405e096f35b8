// A segment of a path: its control points, the drawing that it starts from, and a drawing's entry.
ghost use Rattle.std.specs.Prelude.{◌≡◌, ◌+◌, ◌*◌, ◌≤◌, ◌<◌, length};
ghost use Rattle.rules.specs.Rules.{degree, coordinates, most_segments};
ghost use Rattle.path.specs.Path.{control};
ghost use Rattle.path.specs.Entries.{entry};
ghost use Rattle.drawer.specs.Accepted.{held};
ghost use Rattle.drawer.specs.Tally.{Placed, first_at};

use crate::Accepted;
use coordinate::{Cubic, Quadratic};
use engine::{Curve, Drawing};
use entries::Entry;
use rules::{COORDINATES, Degree};

// The entry of a drawing of segment k.
pub(crate) fn entry_of(d: Drawing, k: u32) -> Entry
    requires { Placed d k }
    ensures { result ≡ entry d.finest k d }
{
    let position = (k << d.finest) + d.q;
    let shown = d.shown();
    Entry {
        position: position.cast_signed(),
        x: shown.x,
        y: shown.y,
        width: shown.width,
    }
}

impl<'a> Accepted<'a> {
    // The drawing that segment k starts from.
    pub(crate) fn first(self, k: u32) -> Drawing
        requires { k < self.shape.segments }
        ensures { result ≡ first_at (held self.entry) k }
    {
        match self.shape.degree {
            Degree::Quadratic => self.start_of::<Quadratic>(k),
            Degree::Cubic => self.start_of::<Cubic>(k),
        }
    }

    #[tactic(auto, using(crate::proofs::Starts::segments_few, crate::proofs::Starts::segment_inside))]
    fn start_of<C: Read>(self, k: u32) -> Drawing
        requires { (C.degree ≡ self.shape.degree) × (k < self.shape.segments) }
        ensures { result ≡ first_at (held self.entry) k }
    {
        let x = C::read(self.points, 0, k);
        let y = C::read(self.points, 1, k);
        let width = C::read(self.points, 2, k);
        Drawing::start(x, y, width, self.shape.finest, self.shape.level).unwrap()
    }
}

// Not a method of `Curve`: that would have to say what is read past the list's end, where nothing is ever read.
trait Read: Curve {
    // Coordinate c of segment k's points.
    fn read(points: &[i32], c: usize, k: u32) -> Self
        requires { (c < coordinates) × (k < most_segments) × (coordinates * (degree Self.degree * k + degree Self.degree + 1) ≤ length points.now) }
        ensures { Self.control result ≡ control Self.degree points.now c k };
}

#[tactic(auto, unfolding(path::specs::Path::control, path::specs::Path::point_at))]
impl Read for Quadratic {
    fn read(points: &[i32], c: usize, k: u32) -> Quadratic {
        let i = COORDINATES * (2 * k as usize) + c;
        Quadratic {
            p0: points[i],
            p1: points[i + COORDINATES],
            p2: points[i + 2 * COORDINATES],
        }
    }
}

#[tactic(auto, unfolding(path::specs::Path::control, path::specs::Path::point_at))]
impl Read for Cubic {
    fn read(points: &[i32], c: usize, k: u32) -> Cubic {
        let i = COORDINATES * (3 * k as usize) + c;
        Cubic {
            p0: points[i],
            p1: points[i + COORDINATES],
            p2: points[i + 2 * COORDINATES],
            p3: points[i + 3 * COORDINATES],
        }
    }
}
