// What a cleaned list is, what a cleaner holds, and their theorems: there is no code here.
#![tactic(auto)]

use entries::Entry;

// From one entry to the next, by the coordinates that change.
#[derive(Clone, Copy, PartialEq, Eq)]
pub enum Move {
    Stays,
    AlongX,
    AlongY,
    Diagonal,
}

// What a cleaner holds of the entries that it was fed. The latest entry shows the pixel of the one before it here, and takes its place if no other
// pixel comes.
#[derive(Clone, Copy)]
pub enum Cleaner {
    Empty,
    // kept, latest: the run of `kept` goes on, and neither was handed out
    Kept(Entry, Entry),
    // kept, undecided, latest: `kept` was handed out, and the run of `undecided`, which may be the middle of an elbow, goes on
    Undecided(Entry, Entry, Entry),
}

// A cleaner that was fed an entry, and the entry of the cleaned list that this settled, where it settled one.
#[derive(Clone, Copy)]
pub struct Fed {
    pub cleaner: Cleaner,
    pub settled: Option<Entry>,
}
