// A piece of a listing: one segment of a path, after the path's line where it is the first; and the place after it.
ghost use Rattle.std.specs.Prelude.{◌≡◌, ◌≤◌, ◌<◌, length};
ghost use Rattle.path.specs.Path.{path};
ghost use Rattle.path.specs.Joined.{alone};
ghost use Rattle.path.specs.Answer.{answered, drawn, written};
ghost use Rattle.sheet.specs.NumberList.{path_at, sheet_of};
ghost use Rattle.text.specs.Reached.{Gains};
ghost use Rattle.listing_text.specs.Listing.{shape_of, limits_of};
ghost use Rattle.listing_text.specs.Pieces.{path_in, segment_at, heading_at, piece_text, next_place};

use crate::lines::{path_line, put_entries};
use listing_text::Place;
use path::{Shape, Totals};
use rules::{COORDINATES, Limits, Refusal, SHEET_FINEST};
use sheet::PathAt;
use text::Text;

// Of a refused path nothing is counted.
const NOTHING: Totals = Totals {
    points: 0,
    length: 0,
};

// The piece at a place is put where the text stands; the answer is the place after it. The segment's entries are drawn into `list`.
pub(crate) fn piece_at(numbers: &[i32], place: Place, list: &mut [i32], text: &mut Text) -> Place
    requires inside { (place.path < 4294967295) × (place.at ≤ length numbers.now) }
    requires room { text.old.at ≤ length text.old.bytes.now }
    ensures next { result ≡ next_place numbers.now place }
    ensures text_after { Gains text.old (piece_text numbers.now place (length list.old)) text.new }
    ensures list_after { list.new ≡ written (segment_at numbers.now place) list.old }
{
    let path = PathAt {
        numbers: numbers,
        at: place.at,
    };
    put_heading(path, place, text);
    let drawn = draw_segment(path, place.segment, list).unwrap_or(NOTHING);
    // Where a later segment starts, the path has an entry already: the end of the segment before.
    let first = place.segment.min(1);
    put_entries(list, first, drawn.points, place.segment, text);
    next_place(path, place)
}

// The path's line before its first segment, nothing before the others. `place` says where the path is too: the definitions are of places.
#[tactic(auto, using(crate::proofs::Reach::path_read, crate::proofs::Counted::line_told, text::proofs::Pieces::gains_none))]
fn put_heading(path: PathAt, place: Place, text: &mut Text)
    requires { (place.at ≡ path.at) × (text.old.at ≤ length text.old.bytes.now) }
    ensures { Gains text.old (heading_at path.entry.numbers.now place) text.new }
{
    if place.segment == 0 {
        let whole = drawer::measure(path.points(), shape_of(path), limits_of(path.numbers));
        path_line(place.path, whole.unwrap_or(NOTHING), text);
    }
}

// Draws segment k of a path of the list.
#[tactic(auto, using(crate::proofs::Reach::path_read))]
fn draw_segment(path: PathAt, k: u32, list: &mut [i32]) -> Result<Totals, Refusal>
    ensures answer { answered result ≡ drawn (alone (path_in path.entry.numbers.now path.entry.at) k) (length list.old) }
    ensures list_after { list.new ≡ written (alone (path_in path.entry.numbers.now path.entry.at) k) list.old }
{
    draw_alone(
        path.points(),
        shape_of(path),
        limits_of(path.numbers),
        k,
        list,
    )
}

// Draws segment k of a path: its points, shape and limits are read one by one, and `segment_part` speaks of each.
#[tactic(auto, using(crate::proofs::Reach::segment_part))]
fn draw_alone(
    points: &[i32],
    shape: Shape,
    limits: Limits,
    k: u32,
    list: &mut [i32],
) -> Result<Totals, Refusal>
    ensures answer { answered result ≡ drawn (alone (path points.now shape limits) k) (length list.old) }
    ensures list_after { list.new ≡ written (alone (path points.now shape limits) k) list.old }
{
    let each = shape.degree.number() as usize;
    let from = (COORDINATES * (each * k as usize)).min(points.len());
    let to = (from + COORDINATES * (each + 1)).min(points.len());
    let one = Shape {
        segments: 1,
        ..shape
    };
    drawer::draw(&points[from..to], one, limits, list)
}

// The next segment of the path, or the next path.
#[tactic(auto, unfolding(listing_text::specs::Pieces::next_place))]
fn next_place(path: PathAt, place: Place) -> Place
    requires { (place.path < 4294967295) × (place.at ≡ path.at) }
    ensures { result ≡ next_place path.entry.numbers.now place }
{
    if u64::from(place.segment) + 1 < u64::from(path.segments()) {
        return Place {
            segment: place.segment + 1,
            ..place
        };
    }
    Place {
        path: place.path + 1,
        at: path.end().min(path.numbers.len()),
        segment: 0,
    }
}

// ---- the path and the sheet

// How a path is drawn.
#[tactic(auto, unfolding(sheet::specs::NumberList::path_at))]
fn shape_of(path: PathAt) -> Shape
    ensures { result ≡ shape_of (path_at path.entry.numbers.now path.entry.at) }
{
    let marked = path.mark();
    Shape {
        degree: marked.degree,
        segments: path.segments(),
        finest: SHEET_FINEST,
        level: marked.level,
    }
}

#[tactic(auto, unfolding(sheet::specs::NumberList::sheet_of))]
fn limits_of(numbers: &[i32]) -> Limits
    ensures { result ≡ limits_of (sheet_of numbers.now) }
{
    sheet::limits(numbers)
}
