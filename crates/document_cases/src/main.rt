// Runs the worked cases of document 01 through the public functions of the drawer and of the engine, and prints the numbers that the
// document gives; a case of order 8, in which the width alone moves; A at the finest levels 6 and 12 of order 9; and a quadratic path of order 10.
#![tactic(auto)]

mod output;

use coordinate::{Cubic, Quadratic, Registers};
use engine::{Curve, Drawing, Refused};
use entries::Entry;
use output::{Fault, Output};
use path::{Shape, Totals};
use rules::{Degree, Limits};
use std::fmt::{self, Write};

const STDOUT_FILENO: i32 = 1;

const STDERR_FILENO: i32 = 2;

// Those of A.
const LIMITS: Limits = Limits {
    upper: 65536,
    lower: 32768,
};

fn main() {
    if let Err(fault) = cases(&mut Output(STDOUT_FILENO)) {
        let _ = writeln!(Output(STDERR_FILENO), "document_cases: {fault:?}");
    }
}

fn cases(out: &mut Output) -> Result<(), Fault> {
    let a = listing(out, "A", &on_x(0, 1, 2, 3), cubic(11, 0))?;
    totals(out, "A", a)?;
    listing(out, "B", &on_x(3, 2, 1, 0), cubic(11, 0))?;
    operations(out)?;
    steep(out)?;
    refusals(out)?;
    listing(out, "K", &on_x(5, 5, 5, 5), cubic(11, 5))?;
    listing(out, "L", &on_x(0, 0, 0, 8), cubic(11, 0))?;
    let m = start(curve(0, 0, 0, 8), flat(0), 1)?.step()?;
    writeln!(out, "M q {}", m.q)?;
    verdict(out, "M", m.double())?;
    lane(out, "order 8")?;
    listing(out, "order 9", &on_x(0, 1, 2, 3), cubic(6, 0))?;
    listing(out, "order 9", &on_x(0, 1, 2, 3), cubic(12, 0))?;
    outline(out, "order 10")
}

// ---- the curves: x as given, y and the width 0 throughout

fn curve(p0: i32, p1: i32, p2: i32, p3: i32) -> Cubic {
    Cubic { p0, p1, p2, p3 }
}

fn flat(p: i32) -> Cubic {
    curve(p, p, p, p)
}

fn kink(p: i32) -> Cubic {
    curve(0, p, p, p)
}

fn bend(p0: i32, p1: i32, p2: i32) -> Quadratic {
    Quadratic { p0, p1, p2 }
}

fn start<C: Curve>(x: C, zero: C, level: u32) -> Result<Drawing, Refused> {
    Drawing::start(x, zero, zero, 11, level)
}

fn on_x(p0: i32, p1: i32, p2: i32, p3: i32) -> [i32; 12] {
    [p0, 0, 0, p1, 0, 0, p2, 0, 0, p3, 0, 0]
}

// A path of one segment.
fn cubic(finest: u32, level: u32) -> Shape {
    Shape {
        degree: Degree::Cubic,
        segments: 1,
        finest,
        level,
    }
}

// ---- the cases

// C to F.
fn operations(out: &mut Output) -> Result<(), Fault> {
    let c = start(curve(0, 0, 0, 8), flat(0), 0)?;
    let d = c.halve()?;
    let d2 = d.halve()?;
    let e = d2.double()?;
    let f = d2.step()?;
    writeln!(out, "C a {} b {} c {} d {}", c.x.a, c.x.b, c.x.c, c.x.d)?;
    abc(out, "D", d.x)?;
    abc(out, "D", d2.x)?;
    abc(out, "E", e.x)?;
    bcd(out, "F", f.x)?;
    writeln!(out, "F q {}", f.q)?;
    Ok(())
}

// G and H: 0, 0, 0, p at level 9, and stepped.
fn steep(out: &mut Output) -> Result<(), Fault> {
    let g = start(curve(0, 0, 0, 1), flat(0), 9)?;
    abc(out, "G", g.x)?;
    bcd(out, "G", g.step()?.x)?;
    let h = start(curve(0, 0, 0, -1), flat(0), 9)?;
    writeln!(out, "H c {}", h.x.c)?;
    bcd(out, "H", h.step()?.x)?;
    Ok(())
}

// I and J.
fn refusals(out: &mut Output) -> fmt::Result {
    verdict(out, "I", start(kink(682), flat(0), 0))?;
    verdict(out, "I", start(kink(683), flat(0), 0))?;
    verdict(out, "J", start(flat(0), flat(0), 11))?;
    verdict(out, "J", start(flat(0), flat(0), 12))?;
    verdict(out, "J", start(flat(16383), flat(0), 0))?;
    verdict(out, "J", start(flat(16384), flat(0), 0))
}

// A, B, K and L, and A at other finest levels: a path, drawn; its positions and its x.
fn listing(out: &mut Output, name: &str, points: &[i32], shape: Shape) -> Result<Totals, Fault> {
    let mut list = [0i32; 64];
    let drawn = drawer::draw(points, shape, LIMITS, &mut list)?;
    column(out, name, "positions", &list, drawn, |e| e.position)?;
    column(out, name, "x", &list, drawn, |e| e.x)?;
    Ok(drawn)
}

// A width alone: its positions, its widths, and a length of 0.
fn lane(out: &mut Output, name: &str) -> Result<(), Fault> {
    let points = [0, 0, 0, 0, 0, 682, 0, 0, 1364, 0, 0, 2046];
    let mut list = [0i32; 64];
    let drawn = drawer::draw(&points, cubic(11, 0), LIMITS, &mut list)?;
    column(out, name, "positions", &list, drawn, |e| e.position)?;
    column(out, name, "width", &list, drawn, |e| e.width)?;
    totals(out, name, drawn)?;
    Ok(())
}

// Two quadratic segments, x at 0, 1, 2 and then at 2, 4, 6; its positions, its x, and its length. Then neighbours 1,023 apart, and 1,024.
fn outline(out: &mut Output, name: &str) -> Result<(), Fault> {
    let points = [0, 0, 0, 1, 0, 0, 2, 0, 0, 4, 0, 0, 6, 0, 0];
    let shape = Shape {
        degree: Degree::Quadratic,
        segments: 2,
        finest: 11,
        level: 0,
    };
    let drawn = listing(out, name, &points, shape)?;
    totals(out, name, drawn)?;
    verdict(out, name, start(bend(0, 1023, 0), bend(0, 0, 0), 0))?;
    verdict(out, name, start(bend(0, 1024, 0), bend(0, 0, 0), 0))?;
    Ok(())
}

// ---- lines

// One number of each of a list's entries.
fn column<F: Fn(Entry) -> i32>(
    out: &mut Output,
    name: &str,
    label: &str,
    list: &[i32],
    drawn: Totals,
    number: F,
) -> fmt::Result
    requires { F.IsAlwaysCallable number }
{
    write!(out, "{name} {label}")?;
    for i in 0..drawn.points as usize {
        let Some(e) = entries::entry_at(list, i) else {
            break;
        };
        write!(out, " {}", number(e))?;
    }
    writeln!(out)
}

fn totals(out: &mut Output, name: &str, drawn: Totals) -> fmt::Result {
    writeln!(
        out,
        "{name} points {} length {}",
        drawn.points, drawn.length
    )
}

fn abc(out: &mut Output, name: &str, r: Registers) -> fmt::Result {
    writeln!(out, "{name} a {} b {} c {}", r.a, r.b, r.c)
}

fn bcd(out: &mut Output, name: &str, r: Registers) -> fmt::Result {
    writeln!(out, "{name} b {} c {} d {}", r.b, r.c, r.d)
}

fn verdict(out: &mut Output, name: &str, moved: Result<Drawing, Refused>) -> fmt::Result {
    match moved {
        Ok(_) => writeln!(out, "{name} accepted"),
        Err(r) => writeln!(out, "{name} refused {}", r.refusal.number()),
    }
}
