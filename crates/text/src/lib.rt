// Text gathered in a lent buffer, piece after piece, each where the one before it ended. Not by `Display`: `write!` stops with an error where
// the buffer is full, and here a piece is put as far as it fits.
#![tactic(auto)]

ghost use Rattle.std.specs.Prelude.{◌≡◌, take};
ghost use Rattle.text.specs.Decimal.{decimal, numeral};
ghost use Rattle.text.specs.Reached.{Gains};

// A lent buffer, filled up to place `at`. A piece is put from there on, as far as the buffer reaches. No invariant holds `at` inside: past the
// end nothing is put, and the end is the place then.
#[derive(Drop)]
pub struct Text<'a> {
    pub bytes: &'a mut [u8],
    pub at: usize,
}

impl<'a> Text<'a> {
    // Bytes as they are.
    pub fn put(&mut self, piece: &[u8])
        ensures { Gains self.old piece.now self.new }
    {
        let at = self.at;
        let len = self.bytes.len();
        if len <= at {
            self.at = len;
            return;
        }
        let n = piece.len().min(len - at);
        self.bytes[at..at + n].copy_from_slice(&piece[..n]);
        self.at = at + n;
    }

    // A number from 0 on, in decimal.
    pub fn put_count(&mut self, n: u64)
        ensures { Gains self.old (decimal n) self.new }
    {
        let mut digits = [0u8; 20];
        let k = io::decimal(n, &mut digits);
        self.put(&digits[..k]);
    }

    // A whole number, in decimal.
    pub fn put_number(&mut self, z: i64)
        ensures { Gains self.old (numeral z) self.new }
    {
        if z < 0 {
            self.put(b"-");
        }
        self.put_count(z.unsigned_abs());
    }

    // What was put.
    pub fn filled(&self) -> &[u8]
        ensures { result.now ≡ take self.now.at self.now.bytes.now }
    {
        &self.bytes[..self.at.min(self.bytes.len())]
    }
}
