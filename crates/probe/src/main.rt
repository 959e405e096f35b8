// Calls the library's entries on any numbers, for tests. Standard input has requests in signed 32-bit words, the lowest byte first: a code, a
// count K, and K arguments. Each is answered by a line of decimal numbers, or by "bad request": an unknown code, another K than the code's,
// K over 16,400, room over 16,384, a DEGREE that is neither 2 nor 3, or a request that the input's end cuts off.
//
//     1 start                       COORDINATES of 4 points, finest, level                refusal DRAWING
//     2 halve, 3 double, 4 step     DRAWING                                               refusal DRAWING
//     5 next                        DRAWING upper lower                                   refusal operation (0 halve, 1 double, 2 step)
//     6 shown                       DRAWING                                               x y width
//     7 draw                        room SHAPE upper lower COORDINATES                    refusal points length LIST
//     8 measure                     SHAPE upper lower COORDINATES                         refusal points length
//     9 read                        room BYTES                                            refusal count LIST
//     10 write                      room NUMBERS                                          refusal count LIST
//     11 draw_standard              room SHAPE COORDINATES                                as 7
//     12 measure_standard           SHAPE COORDINATES                                     as 8
//     13 next_standard              DRAWING                                               as 5
//     14 start_quadratic            COORDINATES of 3 points, finest, level                as 1
//
// DRAWING is the fifteen numbers finest level q, then a b c d of x, of y, of the width. COORDINATES come point by point, x y width. SHAPE is
// the four numbers DEGREE segments finest level; DEGREE is 2 for a quadratic path, 3 for a cubic one. BYTES has a
// byte a word, in its low eight bits. LIST is the `room` places that are lent, which hold -7, or 7 for bytes, before the call.
#![tactic(auto)]

mod answers;
mod input;
mod output;

use answers::{MOST_ROOM, answer};
use input::{STDIN_FILENO, take_words, word_at};
use output::refuse;
use text::Text;

// The most arguments of a request.
const MOST_WORDS: u32 = 16400;

fn main() {
    // Four bytes for each argument.
    let mut bytes = [0u8; 65600];
    let mut words = [0i32; 16400];
    let mut list = [0i32; MOST_ROOM];
    let mut buffer = io::large_buffer();
    let mut text = Text {
        bytes: &mut buffer,
        at: 0,
    };
    run(&mut bytes, &mut words, &mut list, &mut text);
}

// A proved loop has to end, and nothing says that the input does: no run has so many requests.
fn run(
    bytes: &mut [u8; 65600],
    words: &mut [i32; 16400],
    list: &mut [i32; MOST_ROOM],
    text: &mut Text,
) {
    for _ in 0..1_000_000_000_000_u64 {
        if request(bytes, words, list, text).is_none() {
            return;
        }
    }
}

// Takes one request and answers it; none where the input has ended. Of a request whose K is out of range no argument is taken.
fn request(
    bytes: &mut [u8; 65600],
    words: &mut [i32; 16400],
    list: &mut [i32; MOST_ROOM],
    text: &mut Text,
) -> Option<()> {
    let mut head = [0u8; 8];
    let got = io::read_full(STDIN_FILENO, &mut head);
    if got == 0 {
        return None;
    }
    if got < 8 {
        refuse();
        return None;
    }
    let code = word_at(&head, 0);
    let count = word_at(&head, 4);
    if MOST_WORDS < count {
        refuse();
        return Some(());
    }
    let words = &mut words[..count as usize];
    if take_words(bytes, words).is_none() {
        refuse();
        return None;
    }
    if answer(code, words, bytes, list, text).is_none() {
        refuse();
    }
    Some(())
}
