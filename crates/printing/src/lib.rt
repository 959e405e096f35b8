// Prints the listing of a sheet: "paths N"; for each path "path I points P length G"; then each entry as position, x, y, width. It is printed a piece
// at a time, one segment of a path after the path's line where it is the first: no buffer holds more than a segment's entries.
#![tactic(auto)]

mod lines;
mod pieces;

ghost use Rattle.std.specs.Prelude.{◌≡◌, false, ℕ, ◌≤◌, length, take};
ghost use Rattle.rules.specs.Numbered.{refusal_of};
ghost use Rattle.sheet.specs.NumberList.{sheet_of};
ghost use Rattle.sheet.specs.Reading.{sheet_refusal};
ghost use Rattle.sheet.specs.Writing.{list_refusal};
ghost use Rattle.listing_text.specs.Listing.{sheet_text, listing};
ghost use Rattle.listing_text.specs.Pieces.{segment_numbers, text_size};

use lines::put_line;
use listing_text::{Output, Place, SEGMENT_NUMBERS};
use pieces::piece_at;
use sheet::{LIST_HEAD, MOST_BYTES, MOST_NUMBERS, number_at};
use text::Text;

const STDIN_FILENO: i32 = 0;

const STDOUT_FILENO: i32 = 1;

// Prints the listing of a sheet. Whether standard output took all of it, `whole`, no contract can say.
pub fn print(sheet: &[u8]) -> Output
    ensures verdict { refusal_of result.verdict ≡ sheet_refusal sheet.now }
    ensures count { result.count ≡ length (listing sheet.now) }
{
    // Room for every sheet's numbers, and below for every segment's list.
    let mut numbers = [0i32; MOST_NUMBERS];
    let mut buffer = io::large_buffer();
    let mut text = Text {
        bytes: &mut buffer,
        at: 0,
    };
    match reading::read(sheet, &mut numbers) {
        Ok(count) => {
            let mut list = [0i32; SEGMENT_NUMBERS];
            print_paths(&numbers[..count as usize], &mut list, &mut text)
        }
        Err(refusal) => {
            put_line(b"refused ", refusal.number(), &mut text);
            Output {
                verdict: Err(refusal),
                count: text.at,
                whole: hand_over(&text, true),
            }
        }
    }
}

// Reads standard input into a lent buffer, until it is full or the input ends, and prints the listing of what was read: the first n bytes
// of the buffer as it is left.
pub fn print_input(sheet: &mut [u8]) -> Output
    ensures { (n : ℕ) × (n ≤ length sheet.new)
        × (refusal_of result.verdict ≡ sheet_refusal (take n sheet.new)) × (result.count ≡ length (listing (take n sheet.new))) }
{
    let n = io::read_full(STDIN_FILENO, sheet);
    print(&sheet[..n])
}

// Room for the longest sheet and a byte more, so that a longer one is seen as such and refused.
pub fn sheet_buffer() -> [u8; MOST_BYTES + 1]
    ensures { 32769 ≡ length result }
{
    [0; MOST_BYTES + 1]
}

// Prints an accepted number list, a piece at a time.
fn print_paths(numbers: &[i32], list: &mut [i32], text: &mut Text) -> Output
    requires accepted { list_refusal numbers.now ≡ 0 }
    requires room { (length list.old ≡ segment_numbers) × (length text.old.bytes.now ≡ text_size) × (text.old.at ≡ 0) }
    ensures { (refusal_of result.verdict ≡ 0) × (result.count ≡ length (sheet_text (sheet_of numbers.now))) }
{
    let paths = number_at(numbers, 0);
    put_line(b"paths ", paths, text);
    let mut count = text.at;
    let mut whole = hand_over(text, true);
    let mut place = Place {
        path: 0,
        at: LIST_HEAD,
        segment: 0,
    };
    // No `for`: which place comes next, the piece says.
    while place.path < paths {
        text.at = 0;
        place = piece_at(numbers, place, list, text);
        count += text.at;
        whole = hand_over(text, whole);
    }
    Output {
        verdict: Ok(()),
        count: count,
        whole: whole,
    }
}

// Hands the text over to standard output, unless something before it was not taken, and answers whether all was taken.
fn hand_over(text: &Text, whole: bool) -> bool
    ensures { whole ≡ false → result ≡ false }
{
    whole && io::write_all(STDOUT_FILENO, text.filled())
}
