// Point lists of paths: draw fills a lent list, measure answers the number of points and the length alone.
#![tactic(auto)]

mod segments;

ghost use Rattle.std.specs.Prelude.{◌≡◌, ◌*◌, ◌<◌, length, IfOk};
ghost use Rattle.std.proofs.lemmas.List.Edits.{sets};
ghost use Rattle.rules.specs.Numbered.{refusal_of};
ghost use Rattle.rules.specs.Rules.{standard_limits};
ghost use Rattle.entries.specs.Entries.{entry_size, numbers, flat};
ghost use Rattle.path.specs.Path.{path, path_refusal};
ghost use Rattle.path.specs.Entries.{entry, entries};
ghost use Rattle.path.specs.Answer.{answered, totals, answer, measured, drawn, written};
ghost use Rattle.drawer.specs.Tally.{Placed, start, begun, added, Small};

use engine::{Drawing, Operation};
use entries::{ENTRY_SIZE, Entry};
use path::{Shape, Totals};
use rules::{Limits, Refusal};
use segments::entry_of;

// Draws a path into the front of `list`, four numbers a point. Refuses 14, 24, 1, 2, 3, 4, 9, with the list as it was. README names the three
// arguments of a path; from `Accepted` on they are one.
pub fn draw(
    points: &[i32],
    shape: Shape,
    limits: Limits,
    list: &mut [i32],
) -> Result<Totals, Refusal>
    ensures answer { answered result ≡ drawn (path points.now shape limits) (length list.old) }
    ensures list_after { list.new ≡ written (path points.now shape limits) list.old }
{
    let path = Accepted::new(points, shape, limits)?;
    let totals = path.draw_into(&mut []);
    if list.len() < ENTRY_SIZE * (totals.points as usize) {
        return Err(Refusal::Room);
    }
    Ok(path.draw_into(list))
}

// The number of points and the length, without a list. Refuses 14, 24, 1, 2, 3, 4.
#[tactic(auto, using(crate::proofs::Answers::measured_answer, crate::proofs::Answers::measured_refused))]
pub fn measure(points: &[i32], shape: Shape, limits: Limits) -> Result<Totals, Refusal>
    ensures { answered result ≡ measured (path points.now shape limits) }
{
    let path = Accepted::new(points, shape, limits)?;
    Ok(path.draw_into(&mut []))
}

// The same under the standard limits, which README names beside it. Refuses 14, 24, 1, 2, 3, 9.
pub fn draw_standard(points: &[i32], shape: Shape, list: &mut [i32]) -> Result<Totals, Refusal>
    ensures answer { answered result ≡ drawn (path points.now shape standard_limits) (length list.old) }
    ensures list_after { list.new ≡ written (path points.now shape standard_limits) list.old }
{
    draw(points, shape, Limits::standard(), list)
}

// The same under the standard limits, which README names beside it. Refuses 14, 24, 1, 2, 3.
pub fn measure_standard(points: &[i32], shape: Shape) -> Result<Totals, Refusal>
    ensures { answered result ≡ measured (path points.now shape standard_limits) }
{
    measure(points, shape, Limits::standard())
}

// ---- the drawer

// A path that keeps every rule.
#[derive(Clone, Copy)]
struct Accepted<'a> {
    points: &'a [i32],
    shape: Shape,
    limits: Limits,
    ghost accepted: { path_refusal (path points.now shape limits) ≡ 0 },
}

impl<'a> Accepted<'a> {
    ghost use Rattle.drawer.specs.Accepted.{held};

    // The path of these arguments, or the first rule that it breaks.
    #[tactic(auto, unfolding(path::specs::Path::path_refusal))]
    fn new(points: &'a [i32], shape: Shape, limits: Limits) -> Result<Accepted<'a>, Refusal>
        ensures refusal { refusal_of result ≡ path_refusal (path points.now shape limits) }
        ensures path { IfOk result (λ a. held a ≡ path points.now shape limits) }
    {
        let degree = shape.degree;
        if !rules::size(degree, shape.segments, points.len()) {
            return Err(Refusal::Segments);
        }
        if !rules::finest(shape.finest) {
            return Err(Refusal::FinestLevel);
        }
        rules::check_points(rules::reach(degree, shape.finest), points)?;
        if !rules::level(shape.finest, shape.level) {
            return Err(Refusal::StartLevel);
        }
        if !limits.lawful() {
            return Err(Refusal::Limits);
        }
        Ok(Accepted {
            points: points,
            shape: shape,
            limits: limits,
        })
    }

    // Draws every segment: the entries go to the front of `list`, as far as it reaches.
    fn draw_into(self, list: &mut [i32]) -> Totals
        ensures value { totals result ≡ answer (entries (held self.entry)) }
        ensures list_after { list.new ≡ sets list.old 0 (flat (entries (held self.entry))) }
    {
        let mut t = self.begin(list);
        'segments: for k in 0..self.shape.segments {
            // A copy, which the operations can change in registers: what a call hands over stays in memory, and that is slower.
            let first = self.first(k);
            let mut d = first;
            // Document 01 fixes this form, nested loops, the inner one left by its label (docs/DECISIONS.md, 24). A chosen operation is not
            // refused; choosing is, at the segment's end alone.
            'operations: loop {
                match d.next(self.limits) {
                    Ok(Operation::Halve) => d = d.halve().unwrap(),
                    Ok(Operation::Double) => d = d.double().unwrap(),
                    Ok(Operation::Step) => {
                        d = d.step().unwrap();
                        t = t.show(d, k, list);
                    }
                    Err(_) => break 'operations,
                }
            }
        }
        t.totals
    }

    // The start, with its entry.
    #[tactic(auto, using(crate::proofs::Starts::some_segment, crate::proofs::Loops::start_placed), unfolding(crate::specs::Tally::begun, path::specs::Path::first))]
    fn begin(self, list: &mut [i32]) -> Tally
        ensures value { result ≡ begun (start (held self.entry)) }
        ensures list_after { list.new ≡ sets list.old 0 (numbers (start (held self.entry))) }
    {
        let start = entry_of(self.first(0), 0);
        entries::put(list, 0, start);
        Tally {
            totals: Totals {
                points: 1,
                length: 0,
            },
            last: start,
        }
    }
}

// What was drawn so far.
#[derive(Clone, Copy)]
struct Tally {
    totals: Totals,
    last: Entry,
}

impl Tally {
    // One point more, with its entry.
    fn show(self, d: Drawing, k: u32, list: &mut [i32]) -> Tally
        requires { Small self × Placed d k }
        ensures value { result ≡ added self (entry d.finest k d) }
        ensures list_after { list.new ≡ sets list.old (entry_size * self.totals.points) (numbers (entry d.finest k d)) }
    {
        let e = entry_of(d, k);
        entries::put(list, ENTRY_SIZE * (self.totals.points as usize), e);
        self.add(e)
    }

    #[tactic(auto, using(entries::proofs::Length::move_most), unfolding(crate::specs::Tally::added))]
    fn add(self, e: Entry) -> Tally
        requires { Small self }
        ensures { result ≡ added self e }
    {
        let moved = entries::move_length(self.last, e);
        Tally {
            totals: Totals {
                points: self.totals.points + 1,
                length: self.totals.length + moved,
            },
            last: e,
        }
    }
}
