// Cases of journals: their count, one of their records, and a record added.
use super::numbers::{copied, sum32};
use super::text::Text;
use refusals::code;
use std::fmt;
use std::fmt::Write;

// Kind 7: the code of journal a, and its count.
pub fn put_count(out: &mut Text, a: &[u8]) -> fmt::Result {
    write!(out, " {} {}", code(journal::check(a)), journal::count(a))
}

// Kind 8: the code of record n of journal a, the length of its part (32 or 0), and the part's sum.
pub fn put_part(out: &mut Text, a: &[u8], n: u32) -> fmt::Result {
    let answer = journal::record_at(a, n);
    let part = answer.unwrap_or_default();
    write!(out, " {} {} {}", code(answer), part.len(), sum32(part))
}

// Kind 9: the code of adding record b to journal a, and the sum of the journal then. Of a longer a the first 32,816
// bytes count.
pub fn put_added(out: &mut Text, a: &[u8], b: &[u8]) -> fmt::Result {
    let mut buffer = [0u8; 32816];
    let n = copied(a, &mut buffer);
    let s = &mut buffer[..n];
    let answer = journal::add(s, b);
    write!(out, " {} {}", code(answer), sum32(s))
}
