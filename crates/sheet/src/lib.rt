// What reading, writing and printing a sheet have in common: the sizes of a sheet and of its number list, and the numbers of a list.
#![tactic(auto)]

mod list;

ghost use Rattle.std.specs.Prelude.{◌≡◌};
ghost use Rattle.sheet.specs.Sheet.{head_size};

pub use list::{PathAt, limits, number_at};

// A sheet has at most so many paths, and from LEAST_BYTES, the count and the limits, to MOST_BYTES bytes; MOST_NUMBERS numbers have room for
// every sheet's number list.
pub const MOST_PATHS: u32 = 1024;

pub const LEAST_BYTES: usize = 12;

pub const MOST_BYTES: usize = 32768;

pub const MOST_NUMBERS: usize = MOST_BYTES / VALUE_SIZE;

// In bytes: an offset; a number of a record; the segments and the mark before a record's points.
pub const OFFSET_SIZE: usize = 4;

pub const VALUE_SIZE: usize = 2;

pub const RECORD_HEAD: usize = VALUE_SIZE * PATH_HEAD;

// In numbers: the count and the limits before a number list's paths; the segments and the mark before a path's points.
pub const LIST_HEAD: usize = 3;

pub const PATH_HEAD: usize = 2;

// The bytes before the records: the count, the limits and the offsets.
pub fn head_size(paths: u32) -> usize
    ensures { result ≡ head_size paths }
{
    LEAST_BYTES + OFFSET_SIZE * paths as usize
}
