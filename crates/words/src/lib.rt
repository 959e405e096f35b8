// Numbers and their 32-bit words, for programs that take and print them. Each is a method of the library; README names them, and so they stay.
#![tactic(auto)]

ghost use Rattle.std.specs.Prelude.{◌≡◌, nat_abs};
ghost use Rattle.std.specs.Int.{w32};
ghost use Rattle.std.proofs.Common.{to_z, of_z};
ghost use Rattle.words.specs.LittleEndian.{word_of};

// The word of four bytes, the lowest first.
pub fn word(b0: u8, b1: u8, b2: u8, b3: u8) -> u32
    ensures { result ≡ word_of b0 b1 b2 b3 }
{
    u32::from_le_bytes([b0, b1, b2, b3])
}

// The signed number that a word holds.
pub fn signed(word: u32) -> i32
    ensures { result ≡ to_z w32 word }
{
    word.cast_signed()
}

// The word that holds a signed number.
pub fn bits(z: i32) -> u32
    ensures { result ≡ of_z w32 z }
{
    z.cast_unsigned()
}

// A number without its sign.
pub fn magnitude(z: i64) -> u64
    ensures { result ≡ nat_abs z }
{
    z.unsigned_abs()
}
