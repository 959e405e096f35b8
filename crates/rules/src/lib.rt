// The rules that every room shares: why an entry refuses, and refusals 1 to 4, 14 and 24 as tests of any numbers.
#![tactic(auto)]

mod refused;

ghost use Rattle.std.specs.Prelude.{◌≡◌};
ghost use Rattle.rules.specs.Numbered.{refusal_of};
ghost use Rattle.rules.specs.Rules.{is_finest, degree, most_reach, reach, is_coordinate, are_neighbours, is_level, are_limits, standard_limits, is_segments, point_numbers, is_size, head_refusal, are_points, are_chained, points_refusal, natural, marked};

pub use refused::Refusal;

// The finest level of a sheet's paths.
pub const SHEET_FINEST: u32 = 11;

// The standard limits, 0.7 and 0.35 of a unit.
const STANDARD_UPPER: u32 = 45875;

const STANDARD_LOWER: u32 = 22937;

// A point has so many numbers.
pub const COORDINATES: usize = 3;

pub const MOST_SEGMENTS: u32 = 64;

// The numbers of the points of MOST_SEGMENTS segments, of the larger degree.
pub const MOST_POINT_NUMBERS: usize = COORDINATES * (3 * MOST_SEGMENTS as usize + 1);

// In a sheet and in its number list so much is added to the start level of a quadratic path.
const QUADRATIC_MARK: u32 = 256;

// The degree of a path's curves.
#[derive(Clone, Copy)]
pub enum Degree {
    Quadratic,
    Cubic,
}

impl Degree {
    // Of degree D segment k has the points from D * k to D * k + D.
    pub fn number(self) -> u32
        ensures { result ≡ degree self }
    {
        match self {
            Degree::Quadratic => 2,
            Degree::Cubic => 3,
        }
    }

    // Neighbours are at most this far apart, whatever the finest level is.
    pub fn most_reach(self) -> u32
        ensures { result ≡ most_reach self }
    {
        match self {
            Degree::Quadratic => 1023,
            Degree::Cubic => 682,
        }
    }
}

// The limits by which an operation is chosen, in 65,536ths of a unit.
#[derive(Clone, Copy)]
pub struct Limits {
    pub upper: u32,
    pub lower: u32,
}

impl Limits {
    // 4 where it fails.
    pub fn lawful(self) -> bool
        ensures { result ≡ are_limits self.upper self.lower }
    {
        (1 <= self.upper) & (self.upper <= 65536) & (self.lower <= self.upper)
    }

    // Those of an entry without limits.
    pub fn standard() -> Limits
        ensures { result ≡ standard_limits }
    {
        Limits {
            upper: STANDARD_UPPER,
            lower: STANDARD_LOWER,
        }
    }
}

// 24 where it fails. At finest level f a position counts 2^f-ths of the parameter.
pub fn finest(f: u32) -> bool
    ensures { result ≡ is_finest f }
{
    (6 <= f) & (f <= 12)
}

// 1 where it fails.
pub fn coordinate(p: i32) -> bool
    ensures { result ≡ is_coordinate p }
{
    (-16384 <= p) & (p <= 16383)
}

// How far apart neighbours may be at finest level f, which may be any number.
pub fn reach(degree: Degree, f: u32) -> u32
    ensures { result ≡ reach degree f }
{
    if f == 0 {
        return 0;
    }
    if f > 11 {
        return degree.most_reach();
    }
    ((1 << f) - 2) / degree.number()
}

// 2 where it fails. Any two numbers may be asked.
#[tactic(auto, unfolding(crate::specs::Rules::are_neighbours))]
pub fn neighbours(reach: u32, p: i32, q: i32) -> bool
    ensures { result ≡ are_neighbours reach p q }
{
    q.abs_diff(p) <= reach
}

// 3 where it fails.
pub fn level(finest: u32, n: u32) -> bool
    ensures { result ≡ is_level finest n }
{
    n <= finest
}

// 14 where it fails.
pub fn segments(count: u32) -> bool
    ensures { result ≡ is_segments count }
{
    (1 <= count) & (count <= MOST_SEGMENTS)
}

// How many numbers the points of so many segments are.
pub fn point_numbers(degree: Degree, count: u32) -> usize
    ensures { result ≡ point_numbers degree count }
{
    COORDINATES * (degree.number() as usize * count as usize + 1)
}

// 14 where it fails.
pub fn size(degree: Degree, count: u32, numbers: usize) -> bool
    ensures { result ≡ is_size degree count numbers }
{
    if !segments(count) {
        return false;
    }
    numbers == point_numbers(degree, count)
}

// A path's segments and start level: refuses 14, 3.
pub fn check_head(finest: u32, count: u32, n: u32) -> Result<(), Refusal>
    ensures { refusal_of result ≡ head_refusal finest count n }
{
    if !segments(count) {
        return Err(Refusal::Segments);
    }
    if !level(finest, n) {
        return Err(Refusal::StartLevel);
    }
    Ok(())
}

// 1 over a whole path's points where it fails. By an index, here and below: of an array the compiler tests four numbers a turn so, and one by `all`.
pub fn points(numbers: &[i32]) -> bool
    ensures { result ≡ are_points numbers.now }
{
    for i in 0..numbers.len() {
        if !coordinate(numbers[i]) {
            return false;
        }
    }
    true
}

// 2 over a whole path's points where it fails: each number and the same coordinate of the next point.
pub fn chained(reach: u32, numbers: &[i32]) -> bool
    ensures { result ≡ are_chained reach numbers.now }
{
    for j in COORDINATES..numbers.len() {
        if !neighbours(reach, numbers[j - COORDINATES], numbers[j]) {
            return false;
        }
    }
    true
}

// A whole path's points: refuses 1, 2.
pub fn check_points(reach: u32, numbers: &[i32]) -> Result<(), Refusal>
    ensures { refusal_of result ≡ points_refusal reach numbers.now }
{
    if !points(numbers) {
        return Err(Refusal::Coordinate);
    }
    if !chained(reach, numbers) {
        return Err(Refusal::Neighbours);
    }
    Ok(())
}

// A count, a limit, segments or a mark of a number list; one below 0 is larger than any rule allows. No `Option`: README names the number.
pub fn natural(z: i32) -> u32
    ensures { result ≡ natural z }
{
    u32::try_from(z).unwrap_or(u32::MAX)
}

// The degree and the start level of a path, which a sheet and its number list have in one number, the mark.
#[derive(Clone, Copy)]
pub struct Marked {
    pub degree: Degree,
    pub level: u32,
}

// From 256 on a mark is a quadratic's, and what is left after 256 is taken off is the level, whatever it is.
impl From<u32> for Marked {
    ghost from_gives = { λ mark r. r ≡ marked mark };

    fn from(mark: u32) -> Marked {
        if mark < QUADRATIC_MARK {
            return Marked {
                degree: Degree::Cubic,
                level: mark,
            };
        }
        Marked {
            degree: Degree::Quadratic,
            level: mark - QUADRATIC_MARK,
        }
    }
}
