// Cases of records that are read, and of messages that are written.
use super::numbers::{copied, sum32};
use super::text::Text;
use message::Message;
use refusals::code;
use std::fmt;
use std::fmt::Write;

// Puts kind, zone, time, id and the details of a message.
fn put_fields(out: &mut Text, m: Message) -> fmt::Result {
    write!(out, " {} {} {} {}", m.kind, m.zone, m.time, m.id)?;
    for detail in [m.d0, m.d1, m.d2, m.d3, m.d4, m.d5] {
        write!(out, " {detail}")?;
    }
    Ok(())
}

// Kind 5: the code of record a; of an accepted one also its fields, and the sum of the bytes that writing it again
// gives.
pub fn put_record(out: &mut Text, a: &[u8]) -> fmt::Result {
    let answer = message::read_record(a);
    write!(out, " {}", code(answer))?;
    let Ok(m) = answer else {
        return Ok(());
    };
    put_fields(out, m)?;
    let mut s = [0u8; 32];
    let _ = message::write_record(m, &mut s);
    write!(out, " {}", sum32(&s))
}

// The message that stands in 32 bytes, with no check of its fields; the crate `message` gives none unjudged.
fn unchecked(a: &[u8]) -> Message {
    Message {
        kind: bigendian::get(a, 0),
        zone: bigendian::get(a, 1),
        time: bigendian::get(a, 2),
        id: bigendian::get(a, 6),
        a: bigendian::get(a, 10),
        b: bigendian::get(a, 18),
        d0: bigendian::get(a, 26),
        d1: bigendian::get(a, 27),
        d2: bigendian::get(a, 28),
        d3: bigendian::get(a, 29),
        d4: bigendian::get(a, 30),
        d5: bigendian::get(a, 31),
    }
}

// Kind 6: the code of writing the message of a into buffer b, and the sum of the buffer then. Of a longer b the first
// 64 bytes are the buffer.
pub fn put_written(out: &mut Text, a: &[u8], b: &[u8]) -> fmt::Result {
    let mut buffer = [0u8; 64];
    let n = copied(b, &mut buffer);
    let s = &mut buffer[..n];
    let answer = message::write_record(unchecked(a), s);
    write!(out, " {} {}", code(answer), sum32(s))
}
