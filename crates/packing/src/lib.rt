// Several values in one number, for callers in C or Rust: the first in its lowest byte, the others above. What byte k
// of a number is stands in specs/Bytes.antt, with two values packed; proofs/Bytes.antt has that a value packed into a
// byte comes back.
#![tactic(auto)]

ghost use Rattle.std.specs.Prelude.{◌≡◌};
ghost use Rattle.packing.specs.Bytes.{two_packed};

// Two values: the first in the lowest byte, the second in the byte above it.
pub fn two_packed(low: u8, next: u8) -> u32
    ensures { result ≡ two_packed low next }
{
    u32::from(low) + 256 * u32::from(next)
}
