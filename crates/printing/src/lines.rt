// The lines of a listing, put into a text.
ghost use Rattle.std.specs.Prelude.{◌≡◌, ◌++◌, ◌*◌, ◌^◌, ◌≤◌, length};
ghost use Rattle.rules.specs.Rules.{sheet_finest};
ghost use Rattle.entries.specs.Entries.{entry_size};
ghost use Rattle.path.specs.Answer.{totals};
ghost use Rattle.path.specs.Joined.{shifted};
ghost use Rattle.text.specs.Reached.{Gains};
ghost use Rattle.listing_text.specs.Lines.{end, named, followed, path_line, entry_line};
ghost use Rattle.listing_text.specs.Pieces.{lines_in};

use entries::Entry;
use path::Totals;
use rules::SHEET_FINEST;
use text::Text;

// A segment starts so many positions after the one before.
const END: i64 = 1 << SHEET_FINEST;

// A line of one word and its number.
pub(crate) fn put_line(word: &[u8], n: u32, text: &mut Text)
    ensures { Gains text.old (named word.now n ++ end) text.new }
{
    put_named(word, n, text);
    text.put(b"\n");
}

pub(crate) fn path_line(path: u32, whole: Totals, text: &mut Text)
    ensures { Gains text.old (path_line path (totals whole)) text.new }
{
    put_named(b"path ", path, text);
    put_named(b" points ", whole.points, text);
    put_named(b" length ", whole.length, text);
    text.put(b"\n");
}

// Entries `from` to `count` of a segment's list, at their place on the path as segment k: `lines_in` names the list and these numbers.
pub(crate) fn put_entries(list: &[i32], from: u32, count: u32, k: u32, text: &mut Text)
    requires { (entry_size * count ≤ length list.now) × (text.old.at ≤ length text.old.bytes.now) }
    ensures { Gains text.old (lines_in list.now from count k) text.new }
{
    for i in from..count {
        if let Some(e) = entries::entry_at(list, i as usize) {
            put_entry(e, k, text);
        }
    }
}

// An entry of segment k at its place on the path. By `as`, whose numbers the laws of `numbers` read (proofs/Machine).
fn put_entry(e: Entry, k: u32, text: &mut Text)
    ensures { Gains text.old (entry_line (shifted (2 ^ sheet_finest * k) e)) text.new }
{
    put_followed(position_of(e, k), b" ", text);
    put_followed(e.x as i64, b" ", text);
    put_followed(e.y as i64, b" ", text);
    put_followed(e.width as i64, b"\n", text);
}

fn position_of(e: Entry, k: u32) -> i64
    ensures { result ≡ (shifted (2 ^ sheet_finest * k) e).position }
{
    e.position as i64 + END * k as i64
}

// A number after its word.
fn put_named(word: &[u8], n: u32, text: &mut Text)
    ensures { Gains text.old (named word.now n) text.new }
{
    text.put(word);
    text.put_count(u64::from(n));
}

// A number and what follows it.
fn put_followed(z: i64, mark: &[u8], text: &mut Text)
    ensures { Gains text.old (followed z mark.now) text.new }
{
    text.put_number(z);
    text.put(mark);
}
