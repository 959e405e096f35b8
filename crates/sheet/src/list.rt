// The numbers of a number list, and of a path in it.
ghost use Rattle.std.specs.Prelude.{◌≡◌, ◌^◌, ◌≤◌, ◌<◌, length};
ghost use Rattle.sheet.specs.NumberList.{number_at, path_mark, path_point_numbers, path_at, path_end};

use crate::PATH_HEAD;
use rules::{Limits, Marked};

// A count, a limit, segments or a mark: number i of a list. No `Option`: the definition has 0 past the end.
pub fn number_at(numbers: &[i32], i: usize) -> u32
    ensures { result ≡ number_at numbers.now i }
{
    numbers.get(i).map_or(0, |&z| rules::natural(z))
}

// The limits of a number list.
pub fn limits(numbers: &[i32]) -> Limits
    ensures { result ≡ record { upper = number_at numbers.now 1; lower = number_at numbers.now 2 } }
{
    Limits {
        upper: number_at(numbers, 1),
        lower: number_at(numbers, 2),
    }
}

// A path of a number list: its numbers start at number `at`. (A record of a sheet is read from bytes, by definitions of its own: `RecordAt` of
// reading.)
#[derive(Clone, Copy)]
pub struct PathAt<'a> {
    pub numbers: &'a [i32],
    pub at: usize,
    ghost inside: { at ≤ length numbers.now },
}

impl<'a> PathAt<'a> {
    pub fn segments(self) -> u32
        ensures { result ≡ number_at self.entry.numbers.now self.entry.at }
    {
        number_at(self.numbers, self.at)
    }

    // Its degree and start level.
    pub fn mark(self) -> Marked
        ensures { result ≡ path_mark self.entry.numbers.now self.entry.at }
    {
        Marked::from(number_at(self.numbers, self.at + 1))
    }

    // How many numbers its points are.
    pub fn point_numbers(self) -> usize
        ensures value { result ≡ path_point_numbers self.entry.numbers.now self.entry.at }
        ensures upper_bound { result < 2 ^ 36 }
    {
        rules::point_numbers(self.mark().degree, self.segments())
    }

    // Where it ends, be the list so long or not.
    pub fn end(self) -> usize
        ensures { result ≡ path_end self.entry.numbers.now self.entry.at }
    {
        self.at + PATH_HEAD + self.point_numbers()
    }

    // Its points, as far as the list reaches.
    #[tactic(auto, using(crate::proofs::Reach::points_read))]
    pub fn points(self) -> &'a [i32]
        ensures { result.now ≡ (path_at self.entry.numbers.now self.entry.at).points }
    {
        let from = (self.at + PATH_HEAD).min(self.numbers.len());
        let to = self.end().min(self.numbers.len());
        &self.numbers[from..to]
    }
}
