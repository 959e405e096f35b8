// The answers to requests: none where the arguments are not those of the code.
ghost use Rattle.std.specs.Prelude.{◌≤◌, length, IfSome};

use crate::input::{Pointed, drawing_of, limits_of, shape_of, take_bytes};
use crate::output::{end_line, put_drawn, put_list, put_moved, put_next, put_shown, put_written};
use coordinate::{Cubic, Quadratic};
use engine::{Drawing, Operation, Refused};
use path::{Shape, Totals};
use rules::Refusal;
use text::Text;

// The most places that a request asks for.
pub(crate) const MOST_ROOM: usize = 16384;

// What the lent places hold before a call.
const NUMBER_BEFORE: i32 = -7;

const BYTE_BEFORE: u8 = 7;

// A code is a number of the input, and is read here alone.
pub(crate) fn answer(
    code: u32,
    words: &[i32],
    bytes: &mut [u8; 65600],
    list: &mut [i32; MOST_ROOM],
    text: &mut Text,
) -> Option<()>
    requires { length words.now ≤ 16400 }
{
    match code {
        1 => answer_start::<Cubic>(words, text),
        2 => answer_operation(words, Drawing::halve, text),
        3 => answer_operation(words, Drawing::double, text),
        4 => answer_operation(words, Drawing::step, text),
        5 => answer_next(words, next, text),
        6 => answer_shown(words, text),
        7 => answer_draw(words, draw, list, text),
        8 => answer_path(words, measure, &mut [], text),
        9 => answer_read(words, bytes, list, text),
        10 => answer_write(words, bytes, text),
        11 => answer_draw(words, draw_standard, list, text),
        12 => answer_path(words, measure_standard, &mut [], text),
        13 => answer_next(words, next_standard, text),
        14 => answer_start::<Quadratic>(words, text),
        _ => None,
    }
}

// ---- the engine

fn answer_start<C: Pointed>(words: &[i32], text: &mut Text) -> Option<()> {
    let (points, rest) = words.split_at_checked(rules::point_numbers(C::degree(), 1))?;
    let [finest, level] = *rest.as_array::<2>()?;
    let x = C::of(points, 0);
    let y = C::of(points, 1);
    let width = C::of(points, 2);
    let moved = Drawing::start(x, y, width, finest.cast_unsigned(), level.cast_unsigned());
    put_moved(text, moved);
    Some(())
}

fn answer_operation<F: FnOnce(Drawing) -> Result<Drawing, Refused>>(
    words: &[i32],
    operation: F,
    text: &mut Text,
) -> Option<()>
    requires { F.IsAlwaysCallable operation }
{
    let d = drawing_of(words.as_array()?);
    put_moved(text, operation(d));
    Some(())
}

// What an entry chooses, by a drawing and the words after it.
type Chosen = Option<Result<Operation, Refusal>>;

fn answer_next<F: FnOnce(Drawing, &[i32]) -> Chosen>(
    words: &[i32],
    entry: F,
    text: &mut Text,
) -> Option<()>
    requires { F.IsAlwaysCallable entry }
{
    let (d, rest) = words.split_first_chunk()?;
    put_next(text, entry(drawing_of(d), rest)?);
    Some(())
}

fn next(d: Drawing, words: &[i32]) -> Chosen {
    Some(d.next(limits_of(words.as_array()?)))
}

fn next_standard(d: Drawing, words: &[i32]) -> Chosen {
    words.is_empty().then(|| d.next_standard())
}

fn answer_shown(words: &[i32], text: &mut Text) -> Option<()> {
    put_shown(text, drawing_of(words.as_array()?).shown());
    Some(())
}

// ---- the drawer

// What an entry answers of a path, by its shape and the words after it, and what it does with a lent list.
type Drawn = Option<Result<Totals, Refusal>>;

fn answer_draw<F: FnOnce(Shape, &[i32], &mut [i32]) -> Drawn>(
    words: &[i32],
    entry: F,
    list: &mut [i32; MOST_ROOM],
    text: &mut Text,
) -> Option<()>
    requires { F.IsAlwaysCallable entry }
{
    let (room, rest) = room_of(words)?;
    answer_path(rest, entry, &mut list[..room], text)
}

// Measuring lends no place.
fn answer_path<F: FnOnce(Shape, &[i32], &mut [i32]) -> Drawn>(
    words: &[i32],
    entry: F,
    list: &mut [i32],
    text: &mut Text,
) -> Option<()>
    requires { F.IsAlwaysCallable entry }
{
    let (shape, rest) = words.split_first_chunk()?;
    put_drawn(text, entry(shape_of(shape)?, rest, list)?);
    put_list(text, list);
    end_line(text);
    Some(())
}

// The places are filled once it is known that the limits are there.
fn draw(shape: Shape, words: &[i32], list: &mut [i32]) -> Drawn {
    let (limits, points) = words.split_first_chunk()?;
    list.fill(NUMBER_BEFORE);
    Some(drawer::draw(points, shape, limits_of(limits), list))
}

fn measure(shape: Shape, words: &[i32], _list: &mut [i32]) -> Drawn {
    let (limits, points) = words.split_first_chunk()?;
    Some(drawer::measure(points, shape, limits_of(limits)))
}

fn draw_standard(shape: Shape, points: &[i32], list: &mut [i32]) -> Drawn {
    list.fill(NUMBER_BEFORE);
    Some(drawer::draw_standard(points, shape, list))
}

fn measure_standard(shape: Shape, points: &[i32], _list: &mut [i32]) -> Drawn {
    Some(drawer::measure_standard(points, shape))
}

// ---- the sheet

fn answer_read(
    words: &[i32],
    bytes: &mut [u8; 65600],
    list: &mut [i32; MOST_ROOM],
    text: &mut Text,
) -> Option<()>
    requires { length words.now ≤ 16400 }
{
    let (room, rest) = room_of(words)?;
    let sheet = &mut bytes[..rest.len()];
    take_bytes(rest, sheet);
    let list = &mut list[..room];
    list.fill(NUMBER_BEFORE);
    put_written(text, reading::read(sheet, list));
    put_list(text, list);
    end_line(text);
    Some(())
}

fn answer_write(words: &[i32], bytes: &mut [u8; 65600], text: &mut Text) -> Option<()> {
    let (room, rest) = room_of(words)?;
    let sheet = &mut bytes[..room];
    sheet.fill(BYTE_BEFORE);
    put_written(text, writing::write(rest, sheet));
    put_list(text, sheet);
    end_line(text);
    Some(())
}

// How many places are lent, and the words after that.
fn room_of(words: &[i32]) -> Option<(usize, &[i32])>
    ensures { IfSome result (λ p. (p.0 ≤ 16384) × (length p.1.now ≤ length words.now)) }
{
    let (room, rest) = words.split_first()?;
    let room = room.cast_unsigned() as usize;
    if MOST_ROOM < room {
        return None;
    }
    Some((room, rest))
}
