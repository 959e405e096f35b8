// Lists several sheets, one after another. Standard input has for each its size, in four bytes with the lowest first, and then its bytes. After a
// size of 4,294,967,295 the rest of the input is a sheet, read and listed as the program `listing` does it. tests/stored.py makes the sheets and
// their text.
#![tactic(auto)]

const STDIN_FILENO: i32 = 0;

// The size before the last sheet, which ends where the input does.
const TO_THE_END: u32 = u32::MAX;

// A proved loop has to end, and nothing says that the input does: no run has so many sheets.
fn main() {
    for _ in 0..1_000_000 {
        if list_next().is_none() {
            return;
        }
    }
}

// One sheet; none where it was the last one, or the input has ended, or has a size that is too large.
fn list_next() -> Option<()> {
    let mut head = [0u8; 4];
    if io::read_full(STDIN_FILENO, &mut head) < 4 {
        return None;
    }
    let size = u32::from_le_bytes(head);
    let mut buffer = printing::sheet_buffer();
    if size == TO_THE_END {
        printing::print_input(&mut buffer);
        return None;
    }
    let sheet = buffer.get_mut(..size as usize)?;
    if io::read_full(STDIN_FILENO, sheet) < sheet.len() {
        return None;
    }
    printing::print(sheet);
    Some(())
}
