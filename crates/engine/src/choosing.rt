// The increments of a coordinate, by which the next operation is chosen, each from the registers that it needs.
ghost use Rattle.std.specs.Prelude.{◌≡◌, ◌≤◌};
ghost use Rattle.coordinate.specs.declared.Registers.{Registers};
ghost use Rattle.coordinate.specs.Increment.{increment, doubled_increment};

use crate::place::Place;

// By c, whatever the other registers are.
pub(crate) fn increment_of(c: i32, at: Place) -> u32
    ensures { (r : Registers) → r.c ≡ c → result ≡ increment at.level r }
{
    (c >> at.level).unsigned_abs()
}

// After doubling: by b and c, whatever the others are. In 64 bits, since of registers that a caller made up the doubled c may leave 32.
pub(crate) fn doubled_increment_of(b: i32, c: i32, at: Place) -> u64
    requires { 1 ≤ at.level }
    ensures { (r : Registers) → r.b ≡ b → r.c ≡ c → result ≡ doubled_increment at.level r }
{
    let doubled = i64::from(c) + (i64::from(b) >> (at.level + 1));
    (doubled >> (at.level - 1)).unsigned_abs()
}
