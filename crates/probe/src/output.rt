// Lines of numbers, gathered in a text: it is written out where it is full, and at the end of each line.
use coordinate::Registers;
use engine::{Drawing, Operation, Refused, Shown};
use path::Totals;
use rules::Refusal;
use text::Text;

const STDOUT_FILENO: i32 = 1;

// No number with its space is longer.
const FREE: usize = 32;

pub(crate) fn refuse() {
    io::write_all(STDOUT_FILENO, b"bad request\n");
}

// ---- a line

pub(crate) fn put_moved(text: &mut Text, moved: Result<Drawing, Refused>) {
    let (refusal, d) = match moved {
        Ok(d) => (0, d),
        Err(r) => (r.refusal.number(), r.drawing),
    };
    put_first(text, refusal);
    put(text, d.finest);
    put(text, d.level);
    put(text, d.q);
    put_registers(text, d.x);
    put_registers(text, d.y);
    put_registers(text, d.width);
    end_line(text);
}

pub(crate) fn put_next(text: &mut Text, next: Result<Operation, Refusal>) {
    let operation = put_verdict(text, next.map(|operation| operation as u32));
    put(text, operation);
    end_line(text);
}

pub(crate) fn put_shown(text: &mut Text, shown: Shown) {
    put_first(text, shown.x);
    put(text, shown.y);
    put(text, shown.width);
    end_line(text);
}

pub(crate) fn end_line(text: &mut Text) {
    make_room(text);
    text.put(b"\n");
    write_out(text);
}

// ---- the start of a line

pub(crate) fn put_drawn(text: &mut Text, drawn: Result<Totals, Refusal>) {
    let (points, length) = put_verdict(text, drawn.map(|t| (t.points, t.length)));
    put(text, points);
    put(text, length);
}

pub(crate) fn put_written(text: &mut Text, written: Result<u32, Refusal>) {
    let count = put_verdict(text, written);
    put(text, count);
}

// The refusal's number, or 0. What was answered is handed on; under a refusal its numbers are 0.
fn put_verdict<T: Default + Drop>(text: &mut Text, answer: Result<T, Refusal>) -> T {
    match answer {
        Ok(value) => {
            put_first(text, 0u32);
            value
        }
        Err(refusal) => {
            put_first(text, refusal.number());
            T::default()
        }
    }
}

// ---- one number more, or several

pub(crate) fn put_list<N: Copy + Into<i64>>(text: &mut Text, list: &[N]) {
    for &n in list {
        put(text, n);
    }
}

fn put_registers(text: &mut Text, r: Registers) {
    put_list(text, &[r.a, r.b, r.c, r.d]);
}

fn put<N: Into<i64>>(text: &mut Text, n: N) {
    make_room(text);
    text.put(b" ");
    put_first(text, n);
}

fn put_first<N: Into<i64>>(text: &mut Text, n: N) {
    text.put_number(n.into());
}

// ---- the text

// The text is written out where little of it is free.
fn make_room(text: &mut Text) {
    if text.bytes.len().saturating_sub(text.at) < FREE {
        write_out(text);
    }
}

fn write_out(text: &mut Text) {
    io::write_all(STDOUT_FILENO, text.filled());
    text.at = 0;
}
