// Lists the sheet on standard input. Where standard output did not take the whole listing, standard error says so; the exit status stays 0,
// since ./list reads standard error.
#![tactic(auto)]

const STDERR_FILENO: i32 = 2;

fn main() {
    let mut sheet = printing::sheet_buffer();
    let output = printing::print_input(&mut sheet);
    if !output.whole {
        io::write_all(
            STDERR_FILENO,
            b"listing: standard output did not take the whole listing\n",
        );
    }
}
