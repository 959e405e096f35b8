// Why an entry refuses. The documents number the refusals; the number is what a program prints.
ghost use Rattle.std.specs.Prelude.{◌≡◌};
ghost use Rattle.rules.specs.Numbered.{number};

#[derive(Clone, Copy, Debug, PartialEq, Eq)]
pub enum Refusal {
    // a coordinate out of its range
    Coordinate = 1,
    // neighbours too far apart
    Neighbours = 2,
    StartLevel = 3,
    // limits outside their rule
    Limits = 4,
    // the segment has ended
    Ended = 5,
    // halve at the finest level, double at level 0, double out of line with the doubled step
    AtFinestLevel = 6,
    AtLevelZero = 7,
    OutOfLine = 8,
    // the lent buffer is shorter than the whole answer
    Room = 9,
    NoDrawing = 10,
    // of a sheet: its bytes, its count of paths, an offset
    SheetSize = 11,
    PathCount = 12,
    Offset = 13,
    // segments out of their range, or another number of points than theirs
    Segments = 14,
    CutRecord = 15,
    BytesLeft = 16,
    // a number list that ends early or has numbers left over
    NumberList = 17,
    FinestLevel = 24,
}

impl Refusal {
    pub fn number(self) -> u32
        ensures { result ≡ number self }
    {
        self as u32
    }
}
