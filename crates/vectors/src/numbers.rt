// What stands for an answer and for bytes in the output, and the part of a case that is a buffer.
ghost use Rattle.files.specs.Counts.{IsPrefixLen};

use super::text::Text;
use refusals::Refusal;
use std::fmt;
use std::fmt::Write;

// Puts the code of an answer, and the index that a refusal names.
pub fn put_finding<T: Copy>(out: &mut Text, answer: Result<T, Refusal>) -> fmt::Result {
    let index = answer.err().map_or(0, |refusal| refusal.index());
    write!(out, " {} {index}", refusals::code(answer))
}

// The sum of bytes: 0, and with each byte in turn 31 times the sum, and the byte, cut to 32 bits.
pub fn sum32(s: &[u8]) -> u32 {
    s.iter().fold(
        0u32,
        |sum, b| sum.wrapping_mul(31).wrapping_add(u32::from(*b)),
    )
}

// Copies bytes to the start of a buffer, as many as it holds; says how many.
pub fn copied(s: &[u8], buffer: &mut [u8]) -> usize
    ensures { IsPrefixLen result buffer.new }
{
    let n = s.len().min(buffer.len());
    buffer[..n].copy_from_slice(&s[..n]);
    n
}
