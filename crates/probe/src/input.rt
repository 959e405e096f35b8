// Words of standard input, and what a request's words stand for.
ghost use Rattle.std.specs.Prelude.{◌≡◌, ◌+◌, ◌*◌, ◌≤◌, ◌<◌, length};
ghost use Rattle.rules.specs.Rules.{coordinates, degree};
ghost use Rattle.probe.specs.Words.{word_at, control_at, registers_at, drawing_in, degree_of, shape_in, limits_in};

use coordinate::{Cubic, Quadratic, Registers};
use engine::{Curve, Drawing};
use path::Shape;
use rules::{COORDINATES, Degree, Limits};

pub(crate) const STDIN_FILENO: i32 = 0;

// Fills `words` from standard input, by way of `bytes`; none where the input ends before.
pub(crate) fn take_words(bytes: &mut [u8], words: &mut [i32]) -> Option<()>
    requires { 4 * length words.old ≤ length bytes.old }
{
    let size = 4 * words.len();
    if io::read_full(STDIN_FILENO, &mut bytes[..size]) < size {
        return None;
    }
    let (fours, _) = bytes.as_chunks::<4>();
    for (word, four) in words.iter_mut().zip(fours) {
        *word = word_at(four, 0).cast_signed();
    }
    Some(())
}

// The word that starts at byte `at`, the lowest byte first.
pub(crate) fn word_at(bytes: &[u8], at: usize) -> u32
    requires { at + 4 ≤ length bytes.now }
    ensures { result ≡ word_at bytes.now at }
{
    u32::from_le_bytes([bytes[at], bytes[at + 1], bytes[at + 2], bytes[at + 3]])
}

// One coordinate of the control points of a segment, which come point by point: x at 0, y at 1, the width at 2.
// Not a method of `Curve`: that would have to say what is read past the list's end, where nothing is ever read.
pub(crate) trait Pointed: Curve {
    fn of(points: &[i32], at: usize) -> Self
        requires { at + degree Self.degree * coordinates < length points.now }
        ensures { Self.control result ≡ control_at Self.degree points.now at };
}

impl Pointed for Cubic {
    fn of(points: &[i32], at: usize) -> Cubic {
        Cubic {
            p0: points[at],
            p1: points[at + COORDINATES],
            p2: points[at + 2 * COORDINATES],
            p3: points[at + 3 * COORDINATES],
        }
    }
}

impl Pointed for Quadratic {
    fn of(points: &[i32], at: usize) -> Quadratic {
        Quadratic {
            p0: points[at],
            p1: points[at + COORDINATES],
            p2: points[at + 2 * COORDINATES],
        }
    }
}

// finest level q, then a b c d of x, of y, of the width. No `From`: the types on both sides are of other crates.
pub(crate) fn drawing_of(words: &[i32; 15]) -> Drawing
    ensures { result ≡ drawing_in words.now }
{
    Drawing {
        finest: words[0].cast_unsigned(),
        level: words[1].cast_unsigned(),
        q: words[2].cast_unsigned(),
        x: registers_of(words, 3),
        y: registers_of(words, 7),
        width: registers_of(words, 11),
    }
}

fn registers_of(words: &[i32], at: usize) -> Registers
    requires { at + 4 ≤ length words.now }
    ensures { result ≡ registers_at words.now at }
{
    Registers {
        a: words[at],
        b: words[at + 1],
        c: words[at + 2],
        d: words[at + 3],
    }
}

// DEGREE segments finest level; none where the DEGREE is neither 2 nor 3.
pub(crate) fn shape_of(words: &[i32; 4]) -> Option<Shape>
    ensures { result ≡ shape_in words.now }
{
    let [degree, segments, finest, level] = *words;
    Some(Shape {
        degree: degree_of(degree.cast_unsigned())?,
        segments: segments.cast_unsigned(),
        finest: finest.cast_unsigned(),
        level: level.cast_unsigned(),
    })
}

fn degree_of(n: u32) -> Option<Degree>
    ensures { result ≡ degree_of n }
{
    match n {
        2 => Some(Degree::Quadratic),
        3 => Some(Degree::Cubic),
        _ => None,
    }
}

// upper lower.
pub(crate) fn limits_of(words: &[i32; 2]) -> Limits
    ensures { result ≡ limits_in words.now }
{
    let [upper, lower] = *words;
    Limits {
        upper: upper.cast_unsigned(),
        lower: lower.cast_unsigned(),
    }
}

// The low eight bits of each word.
pub(crate) fn take_bytes(words: &[i32], bytes: &mut [u8]) {
    for (byte, word) in bytes.iter_mut().zip(words) {
        *byte = word.to_le_bytes()[0];
    }
}
