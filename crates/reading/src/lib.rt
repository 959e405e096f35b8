// Reading a sheet: its number list, from its bytes. By `as` where the number is shown to fit, and to `usize`, which has no `From<u32>`.
#![tactic(auto)]

ghost use Rattle.std.specs.Prelude.{◌≡◌, ◌+◌, ◌*◌, ◌^◌, ◌≤◌, ◌<◌, length};
ghost use Rattle.std.proofs.lemmas.List.Edits.{sets};
ghost use Rattle.rules.specs.Numbered.{refusal_of};
ghost use Rattle.sheet.specs.Bytes.{value_size, u16_at, u32_at, i16_at, values_at};
ghost use Rattle.sheet.specs.Sheet.{head_size, record_head, sheet_numbers};
ghost use Rattle.sheet.specs.Records.{record_mark, record_point_numbers, record_end, sheet_at};
ghost use Rattle.sheet.specs.Reading.{body_refusal, record_refusal, records_refusal, sheet_refusal};
ghost use Rattle.sheet.specs.Answer.{answered, read_answer, numbers_read};

use rules::{Limits, Marked, Refusal, SHEET_FINEST};
use sheet::{LEAST_BYTES, LIST_HEAD, MOST_BYTES, MOST_PATHS, RECORD_HEAD, VALUE_SIZE, head_size};

// Reads a sheet's number list into the front of `numbers` and answers how many they are. Refuses 11, 12, 4; per record 13, 15, 14, 3, 15,
// 1, 2; 16, 9, with `numbers` as they were.
#[tactic(auto, using(numbers::proofs::Buffers::sets_front), unfolding(sheet::specs::Answer::read_answer, sheet::specs::Answer::numbers_read, sheet::specs::Reading::read_refusal))]
pub fn read(sheet: &[u8], numbers: &mut [i32]) -> Result<u32, Refusal>
    ensures answer { answered result ≡ read_answer sheet.now (length numbers.old) }
    ensures list_after { numbers.new ≡ numbers_read sheet.now numbers.old }
{
    check_sheet(sheet)?;
    let count = number_count(sheet);
    if numbers.len() < count {
        return Err(Refusal::Room);
    }
    fill_numbers(sheet, numbers);
    Ok(count as u32)
}

// ---- its refusals; writing's are by the same rules, in another order and of numbers in place of bytes

#[tactic(auto, unfolding(sheet::specs::Reading::sheet_refusal))]
fn check_sheet(sheet: &[u8]) -> Result<(), Refusal>
    ensures { refusal_of result ≡ sheet_refusal sheet.now }
{
    if sheet.len() < LEAST_BYTES {
        return Err(Refusal::SheetSize);
    }
    if MOST_BYTES < sheet.len() {
        return Err(Refusal::SheetSize);
    }
    let paths = u32_at(sheet, 0);
    if MOST_PATHS < paths {
        return Err(Refusal::PathCount);
    }
    if sheet.len() < head_size(paths) {
        return Err(Refusal::PathCount);
    }
    let limits = Limits {
        upper: u32_at(sheet, 4),
        lower: u32_at(sheet, 8),
    };
    if !limits.lawful() {
        return Err(Refusal::Limits);
    }
    check_records(sheet, paths)
}

// The records stand one after another; `at` is where record k stands.
fn check_records(sheet: &[u8], paths: u32) -> Result<(), Refusal>
    requires { head_size paths ≤ length sheet.now }
    ensures { refusal_of result ≡ records_refusal sheet.now paths 0 (head_size paths) }
{
    let mut at = head_size(paths);
    for k in 0..paths {
        check_record(sheet, k, at)?;
        let record = RecordAt {
            sheet: sheet,
            at: at,
        };
        at = record.end();
    }
    if at != sheet.len() {
        return Err(Refusal::BytesLeft);
    }
    Ok(())
}

#[tactic(auto, unfolding(sheet::specs::Reading::record_refusal, sheet::specs::Reading::is_offset))]
fn check_record(sheet: &[u8], k: u32, at: usize) -> Result<(), Refusal>
    requires { (head_size (k + 1) ≤ length sheet.now) × (at ≤ length sheet.now) }
    ensures { refusal_of result ≡ record_refusal sheet.now k at }
{
    let offset = u32_at(sheet, head_size(k));
    if offset as usize != at {
        return Err(Refusal::Offset);
    }
    check_body(sheet, at)
}

#[tactic(auto, unfolding(sheet::specs::Reading::body_refusal, sheet::specs::Records::record_at, sheet::specs::PathRules::path_rules))]
fn check_body(sheet: &[u8], at: usize) -> Result<(), Refusal>
    requires { at ≤ length sheet.now }
    ensures { refusal_of result ≡ body_refusal sheet.now at }
{
    if sheet.len() < at + RECORD_HEAD {
        return Err(Refusal::CutRecord);
    }
    let record = RecordAt {
        sheet: sheet,
        at: at,
    };
    let marked = record.mark();
    rules::check_head(SHEET_FINEST, record.segments(), marked.level)?;
    if sheet.len() < record.end() {
        return Err(Refusal::CutRecord);
    }
    let n = record.point_numbers();
    // Fixed memory: as many as there are go on at once.
    let mut points = [0i32; rules::MOST_POINT_NUMBERS];
    take_values(sheet, at + RECORD_HEAD, n, &mut points, 0);
    rules::check_points(rules::reach(marked.degree, SHEET_FINEST), &points[..n])
}

// ---- the head of a record

// A record of a sheet whose segments and mark are there: its bytes start at byte `at`. (A path of a number list is read from numbers, by
// definitions of its own: `PathAt` of sheet.)
#[derive(Clone, Copy)]
struct RecordAt<'a> {
    sheet: &'a [u8],
    at: usize,
    ghost begins: { at + record_head ≤ length sheet.now },
}

impl RecordAt<'_> {
    fn segments(self) -> u32
        ensures value { result ≡ u16_at self.entry.sheet.now self.entry.at }
        ensures upper_bound { result < 65536 }
    {
        u16_at(self.sheet, self.at)
    }

    // Its degree and start level.
    fn mark(self) -> Marked
        ensures { result ≡ record_mark self.entry.sheet.now self.entry.at }
    {
        Marked::from(u16_at(self.sheet, self.at + VALUE_SIZE))
    }

    // How many numbers its points are.
    fn point_numbers(self) -> usize
        ensures value { result ≡ record_point_numbers self.entry.sheet.now self.entry.at }
        ensures upper_bound { result < 2 ^ 20 }
    {
        rules::point_numbers(self.mark().degree, self.segments())
    }

    // Where it ends, be the sheet so long or not.
    fn end(self) -> usize
        ensures { result ≡ record_end self.entry.sheet.now self.entry.at }
    {
        self.at + RECORD_HEAD + VALUE_SIZE * self.point_numbers()
    }
}

// ---- the number list of an accepted sheet

// After the header every number of a sheet is of sixteen bits, and the number list has them in the same order.
#[tactic(auto, using(sheet::proofs::Reading::headed, crate::proofs::Flat::numbers_count))]
fn number_count(sheet: &[u8]) -> usize
    requires { sheet_refusal sheet.now ≡ 0 }
    ensures { result ≡ length (sheet_numbers (sheet_at sheet.now)) }
{
    LIST_HEAD + (sheet.len() - head_size(u32_at(sheet, 0))) / VALUE_SIZE
}

#[tactic(auto, using(sheet::proofs::Reading::headed, crate::proofs::Flat::numbers_count, rules::proofs::Laws::limits_hold))]
fn fill_numbers(sheet: &[u8], numbers: &mut [i32])
    requires accepted { sheet_refusal sheet.now ≡ 0 }
    requires room { length (sheet_numbers (sheet_at sheet.now)) ≤ length numbers.old }
    ensures { numbers.new ≡ sets numbers.old 0 (sheet_numbers (sheet_at sheet.now)) }
{
    let paths = u32_at(sheet, 0);
    let start = head_size(paths);
    numbers[0] = paths as i32;
    numbers[1] = u32_at(sheet, 4) as i32;
    numbers[2] = u32_at(sheet, 8) as i32;
    take_values(
        sheet,
        start,
        (sheet.len() - start) / VALUE_SIZE,
        numbers,
        LIST_HEAD,
    );
}

// n values from place p of the sheet on go to the list, from place `at` on. By index: of what `iter_mut` lends a proof knows the length alone.
fn take_values(sheet: &[u8], p: usize, n: usize, list: &mut [i32], at: usize)
    requires { (p + value_size * n ≤ length sheet.now) × (at + n ≤ length list.old) }
    ensures { list.new ≡ sets list.old at (values_at sheet.now p n) }
{
    for i in 0..n {
        list[at + i] = i16_at(sheet, p + VALUE_SIZE * i);
    }
}

// ---- numbers in bytes

fn u16_at(sheet: &[u8], p: usize) -> u32
    requires { p + 2 ≤ length sheet.now }
    ensures value { result ≡ u16_at sheet.now p }
    ensures upper_bound { result < 65536 }
{
    u32::from(u16::from_le_bytes([sheet[p], sheet[p + 1]]))
}

fn u32_at(sheet: &[u8], p: usize) -> u32
    requires { p + 4 ≤ length sheet.now }
    ensures { result ≡ u32_at sheet.now p }
{
    u32::from_le_bytes([sheet[p], sheet[p + 1], sheet[p + 2], sheet[p + 3]])
}

fn i16_at(sheet: &[u8], p: usize) -> i32
    requires { p + 2 ≤ length sheet.now }
    ensures { result ≡ i16_at sheet.now p }
{
    i32::from(i16::from_le_bytes([sheet[p], sheet[p + 1]]))
}
