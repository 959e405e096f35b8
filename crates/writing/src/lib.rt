// Writing a sheet: its bytes, from its number list. By `as` where the number is shown to fit, and to `usize`, which has no `From<u32>`.
#![tactic(auto)]

ghost use Rattle.std.specs.Prelude.{◌≡◌, ◌+◌, ◌*◌, ◌≤◌, length};
ghost use Rattle.std.proofs.lemmas.List.Edits.{sets};
ghost use Rattle.rules.specs.Numbered.{refusal_of};
ghost use Rattle.numbers.specs.Tables.{All};
ghost use Rattle.sheet.specs.Bytes.{Short, value_size, le16, le32, bits16, value_bytes};
ghost use Rattle.sheet.specs.Sheet.{least_bytes, most_bytes, list_head, head_size, offsets, sheet_bytes};
ghost use Rattle.sheet.specs.NumberList.{paths_at, sheet_of};
ghost use Rattle.sheet.specs.Writing.{path_refusal, paths_refusal, Parted, list_refusal};
ghost use Rattle.sheet.specs.Answer.{answered, write_answer, bytes_written};

use rules::{Refusal, SHEET_FINEST};
use sheet::{
    LIST_HEAD, MOST_BYTES, MOST_PATHS, PATH_HEAD, PathAt, RECORD_HEAD, VALUE_SIZE, head_size,
    number_at,
};

// Writes the sheet of a number list into the front of `sheet` and answers how many bytes it has. Refuses 17, 12, 4; per path 17, 14, 3, 17,
// 1, 2; 17, 11, 9, with `sheet` as it was.
#[tactic(auto, using(numbers::proofs::Buffers::sets_front), unfolding(sheet::specs::Answer::write_answer, sheet::specs::Answer::bytes_written, sheet::specs::Writing::write_refusal))]
pub fn write(numbers: &[i32], sheet: &mut [u8]) -> Result<u32, Refusal>
    ensures answer { answered result ≡ write_answer numbers.now (length sheet.old) }
    ensures sheet_after { sheet.new ≡ bytes_written numbers.now sheet.old }
{
    check_list(numbers)?;
    let count = byte_count(numbers);
    if sheet.len() < count {
        return Err(Refusal::Room);
    }
    fill_sheet(numbers, sheet);
    Ok(count as u32)
}

// ---- its refusals; reading's are by the same rules, in another order and of bytes in place of numbers

#[tactic(auto, unfolding(sheet::specs::Writing::list_refusal))]
fn check_list(numbers: &[i32]) -> Result<(), Refusal>
    ensures { refusal_of result ≡ list_refusal numbers.now }
{
    if numbers.len() < LIST_HEAD {
        return Err(Refusal::NumberList);
    }
    let paths = number_at(numbers, 0);
    if MOST_PATHS < paths {
        return Err(Refusal::PathCount);
    }
    if !sheet::limits(numbers).lawful() {
        return Err(Refusal::Limits);
    }
    check_paths(numbers, paths)?;
    if MOST_BYTES < byte_count(numbers) {
        return Err(Refusal::SheetSize);
    }
    Ok(())
}

// The paths stand one after another; `at` is where the next stands.
fn check_paths(numbers: &[i32], paths: u32) -> Result<(), Refusal>
    requires { list_head ≤ length numbers.now }
    ensures { refusal_of result ≡ paths_refusal numbers.now paths list_head }
{
    let mut at = LIST_HEAD;
    for _ in 0..paths {
        let path = PathAt {
            numbers: numbers,
            at: at,
        };
        check_path(path)?;
        at = path.end();
    }
    if at != numbers.len() {
        return Err(Refusal::NumberList);
    }
    Ok(())
}

#[tactic(auto, unfolding(sheet::specs::Writing::path_refusal, sheet::specs::NumberList::path_at, sheet::specs::PathRules::path_rules))]
fn check_path(path: PathAt) -> Result<(), Refusal>
    ensures { refusal_of result ≡ path_refusal path.entry.numbers.now path.entry.at }
{
    if path.numbers.len() < path.at + PATH_HEAD {
        return Err(Refusal::NumberList);
    }
    let marked = path.mark();
    rules::check_head(SHEET_FINEST, path.segments(), marked.level)?;
    if path.numbers.len() < path.end() {
        return Err(Refusal::NumberList);
    }
    rules::check_points(rules::reach(marked.degree, SHEET_FINEST), path.points())
}

// ---- the bytes of an accepted number list

// Each number of the paths takes two bytes.
#[tactic(auto, using(crate::proofs::Flat::bytes_count))]
fn byte_count(numbers: &[i32]) -> usize
    requires { Parted numbers.now }
    ensures { result ≡ length (sheet_bytes (sheet_of numbers.now)) }
{
    head_size(number_at(numbers, 0)) + VALUE_SIZE * (numbers.len() - LIST_HEAD)
}

#[tactic(auto, using(crate::proofs::Flat::room))]
fn fill_sheet(numbers: &[i32], sheet: &mut [u8])
    requires accepted { list_refusal numbers.now ≡ 0 }
    requires room { length (sheet_bytes (sheet_of numbers.now)) ≤ length sheet.old }
    ensures { sheet.new ≡ sets sheet.old 0 (sheet_bytes (sheet_of numbers.now)) }
{
    let paths = number_at(numbers, 0);
    put_u32(sheet, 0, paths);
    put_u32(sheet, 4, number_at(numbers, 1));
    put_u32(sheet, 8, number_at(numbers, 2));
    put_offsets(numbers, paths, sheet);
    put_values(&numbers[LIST_HEAD..], sheet, head_size(paths));
}

// The offsets of `paths` records, the first after the header.
fn put_offsets(numbers: &[i32], paths: u32, sheet: &mut [u8])
    requires accepted { paths_refusal numbers.now paths list_head ≡ 0 }
    requires room { (head_size paths + value_size * length numbers.now ≤ 2 * most_bytes) × (head_size paths ≤ length sheet.old) }
    ensures { sheet.new ≡ sets sheet.old least_bytes (offsets (head_size paths) (paths_at numbers.now paths list_head)) }
{
    let mut place = head_size(paths);
    let mut at = LIST_HEAD;
    for k in 0..paths {
        put_u32(sheet, head_size(k), place as u32);
        let path = PathAt {
            numbers: numbers,
            at: at,
        };
        place += RECORD_HEAD + VALUE_SIZE * path.point_numbers();
        at = path.end();
    }
}

// The values, in sixteen bits each, from place p on.
fn put_values(values: &[i32], sheet: &mut [u8], p: usize)
    requires short { All Short values.now }
    requires room { p + value_size * length values.now ≤ length sheet.old }
    ensures { sheet.new ≡ sets sheet.old p (value_bytes values.now) }
{
    for (i, &z) in values.iter().enumerate() {
        put_i16(sheet, p + VALUE_SIZE * i, z);
    }
}

// ---- numbers in bytes, each width by its own definition, `le32` and `le16`

#[tactic(auto, using(crate::proofs::Bytes::copied_as, crate::proofs::Bytes::bytes_32))]
fn put_u32(sheet: &mut [u8], at: usize, n: u32)
    requires { at + 4 ≤ length sheet.old }
    ensures { sheet.new ≡ sets sheet.old at (le32 n) }
{
    sheet[at..at + 4].copy_from_slice(&n.to_le_bytes());
}

#[tactic(auto, using(crate::proofs::Bytes::copied_as, crate::proofs::Bytes::bits_16))]
fn put_i16(sheet: &mut [u8], at: usize, z: i32)
    requires short { Short z }
    requires room { at + 2 ≤ length sheet.old }
    ensures { sheet.new ≡ sets sheet.old at (le16 (bits16 z)) }
{
    sheet[at..at + 2].copy_from_slice(&(z as i16).to_le_bytes());
}
