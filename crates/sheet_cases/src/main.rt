// Runs the requests of standard input through the sheet's two entries and prints a line for each: the refusal, the count, and the whole
// lent buffer afterwards, its values where they are at most 64 and else their check sum. tests/sheet_cases.py says what a request is, and
// makes the requests and the lines.
#![tactic(auto)]

ghost use Rattle.std.specs.Prelude.{◌≤◌, IfSome};

use rules::Refusal;
use text::Text;

const STDIN_FILENO: i32 = 0;

const STDOUT_FILENO: i32 = 1;

// A sheet, a number list and each lent buffer have at most so many places.
const MOST: usize = 33000;

// What the places hold before a call.
const NUMBER_BEFORE: i32 = -7;

const BYTE_BEFORE: u8 = 7;

// A buffer of at most so many values is printed whole.
const WHOLE: usize = 64;

// A proved loop has to end, and nothing says that the input does: no run has so many requests.
fn main() {
    for _ in 0..1_000_000 {
        if request().is_none() {
            return;
        }
    }
}

// One request; none where the input has ended, or is no request. Code 1 reads a sheet; with another one a number list is written.
fn request() -> Option<()> {
    let code = word()?;
    let room = size()?;
    let size = size()?;
    // A code is a number of the input, and is read here alone.
    match code {
        1 => read_request(room, size),
        _ => write_request(room, size),
    }
    Some(())
}

fn read_request(room: usize, size: usize)
    requires { (room ≤ 33000) × (size ≤ 33000) }
{
    let mut bytes = [BYTE_BEFORE; MOST];
    let mut numbers = [NUMBER_BEFORE; MOST];
    let sheet = &mut bytes[..size];
    let list = &mut numbers[..room];
    io::read_full(STDIN_FILENO, sheet);
    let answer = reading::read(sheet, list);
    print_line(answer, list);
}

fn write_request(room: usize, size: usize)
    requires { (room ≤ 33000) × (size ≤ 33000) }
{
    let mut numbers = [NUMBER_BEFORE; MOST];
    let mut bytes = [BYTE_BEFORE; MOST];
    let list = &mut numbers[..size];
    let sheet = &mut bytes[..room];
    take_numbers(list);
    let answer = writing::write(list, sheet);
    print_line(answer, sheet);
}

// ---- the input

fn word() -> Option<u32> {
    let mut bytes = [0u8; 4];
    if io::read_full(STDIN_FILENO, &mut bytes) < 4 {
        return None;
    }
    Some(u32::from_le_bytes(bytes))
}

fn size() -> Option<usize>
    ensures { IfSome result (λ n. n ≤ 33000) }
{
    let n = word()? as usize;
    if MOST < n {
        return None;
    }
    Some(n)
}

// Where the input ends before a number does, its bytes that are missing are 0.
fn take_numbers(numbers: &mut [i32]) {
    for number in numbers.iter_mut() {
        let mut bytes = [0u8; 4];
        io::read_full(STDIN_FILENO, &mut bytes);
        *number = i32::from_le_bytes(bytes);
    }
}

// ---- the lines

fn print_line<N: Copy + Into<i32>>(answer: Result<u32, Refusal>, buffer: &[N]) {
    let mut bytes = io::buffer();
    let mut text = Text {
        bytes: &mut bytes,
        at: 0,
    };
    let (refusal, count) = match answer {
        Ok(count) => (0, count),
        Err(refusal) => (refusal.number(), 0),
    };
    text.put_count(u64::from(refusal));
    put(&mut text, i64::from(count));
    if buffer.len() <= WHOLE {
        for &n in buffer {
            put(&mut text, i64::from(n.into()));
        }
    } else {
        put(&mut text, i64::from(check_sum(buffer)));
    }
    end_line(&mut text);
}

fn put(text: &mut Text, z: i64) {
    text.put(b" ");
    text.put_number(z);
}

fn end_line(text: &mut Text) {
    text.put(b"\n");
    io::write_all(STDOUT_FILENO, text.filled());
}

fn check_sum<N: Copy + Into<i32>>(values: &[N]) -> u32 {
    values.iter().fold(1u32, |sum, &n| {
        sum.wrapping_mul(31).wrapping_add(n.into().cast_unsigned())
    })
}
