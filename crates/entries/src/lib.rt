// Entries of a point list: stored in a lent list, read back, and the length of a move from one to the next.
#![tactic(auto)]

ghost use Rattle.std.specs.Prelude.{◌≡◌, set};
ghost use Rattle.std.proofs.lemmas.List.Edits.{sets};
ghost use Rattle.entries.specs.Entries.{numbers, entry_at, found};
ghost use Rattle.entries.specs.Length.{move_length};

// The numbers of an entry.
pub const ENTRY_SIZE: usize = 4;

// An entry: its position on the path, its pixel, and the width there.
#[derive(Clone, Copy)]
pub struct Entry {
    pub position: i32,
    pub x: i32,
    pub y: i32,
    pub width: i32,
}

// Stores the four numbers of an entry from place `at` on, as far as the list reaches.
pub fn put(list: &mut [i32], at: usize, e: Entry)
    ensures { list.new ≡ sets list.old at (numbers e) }
{
    // Four stores: a `for` over the places zipped with the numbers, and a copy of a slice, take twice the time.
    if at < list.len() {
        store(list, at, e.position);
        store(list, at + 1, e.x);
        store(list, at + 2, e.y);
        store(list, at + 3, e.width);
    }
}

// A number at a place of the list; past its end nothing changes.
fn store(list: &mut [i32], at: usize, v: i32)
    ensures { list.new ≡ set list.old at v }
{
    if at < list.len() {
        list[at] = v;
    }
}

// Entry `i` of a list, where the list reaches that far. Place by place, so that edits can take one for another.
#[tactic(auto, unfolding(crate::specs::Entries::entry_at))]
pub fn entry_at(list: &[i32], i: usize) -> Option<Entry>
    ensures { found result ≡ entry_at list.now i }
{
    if i >= list.len() / ENTRY_SIZE {
        return None;
    }
    let at = ENTRY_SIZE * i;
    Some(Entry {
        position: list[at],
        x: list[at + 1],
        y: list[at + 2],
        width: list[at + 3],
    })
}

// What the move from one entry to the next adds to the length; the width takes no part.
#[tactic(auto, unfolding(crate::specs::Length::move_length))]
pub fn move_length(from: Entry, to: Entry) -> u32
    ensures { result ≡ move_length from to }
{
    match (from.x == to.x, from.y == to.y) {
        (true, true) => 0,
        (true, false) => 1000,
        (false, true) => 1000,
        (false, false) => 1414,
    }
}
