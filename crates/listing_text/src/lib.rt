// What a listing is: its lines, and the pieces that it is printed in. There is no code here.
#![tactic(auto)]

use rules::Refusal;

// A segment has at most 2^SHEET_FINEST + 1 entries: the numbers of its list.
pub const SEGMENT_NUMBERS: usize = entries::ENTRY_SIZE * ((1 << rules::SHEET_FINEST) + 1);

// What was printed: whether the sheet is refused, and why; how many bytes its listing has; and whether standard output took them all.
#[derive(Clone, Copy)]
pub struct Output {
    pub verdict: Result<(), Refusal>,
    pub count: usize,
    // no value stands or falls with it
    pub whole: bool,
}

// Where a listing stands: path `path` is next, its numbers start at number `at`, and of its segments `segment` is next.
#[derive(Clone, Copy)]
pub struct Place {
    pub path: u32,
    pub at: usize,
    pub segment: u32,
}
