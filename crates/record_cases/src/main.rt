// Tries the field rules of message records (RECORD-1 to RECORD-6 of docs/RULES.md) on worked numbers. A rule that
// refuses everything, or one that accepts everything, could still be proved to keep the layout and the round trips;
// what this program writes shows which records are accepted. The expected lines are in stdout, written from the rules
// by hand; no expected number stands here.
//
// A line for each case: KIND FIELD VALUE READ WRITE. The case is the good message of KIND with VALUE put into FIELD
// ('-' and 0: the good message itself). READ is what reading its 32 bytes gives (0: accepted), WRITE what writing the
// message gives.
// Then lines 'length N READ WRITE KEPT' for a good message, one with a bad field and one with a bad kind: READ is
// what reading the first N bytes of its record (with one byte more for 33) gives, WRITE what writing the message into
// N bytes gives, and KEPT is 1 if the buffer is then as it was. Last, of how many accepted records the message that
// was read was written as the same 32 bytes, and how many cases were accepted.
#![tactic(auto)]

mod bytes;
mod cases;
mod good;

use cases::{Case, OWN, SHARED, changed};
use good::good;
use message::{Kind, Message, RECORD};
use refusals::code;
use std::io;

// How many cases were accepted, and how many of those were written again as the same bytes.
#[derive(Clone, Copy)]
struct Tally {
    accepted: u64,
    same: u64,
}

// What writing a message into 32 bytes gives.
fn write_code(m: Message) -> u8 {
    let mut s = [0xAAu8; RECORD];
    code(message::write_record(m, &mut s))
}

// Whether a message that was read is written as the same 32 bytes.
fn written_again(m: Message, s: [u8; RECORD]) -> bool {
    let mut t = [0xAAu8; RECORD];
    message::write_record(m, &mut t).is_ok() && t == s
}

// Counts a record of 32 bytes.
fn counted(t: Tally, s: [u8; RECORD]) -> Tally {
    let Ok(m) = message::read_record(&s) else {
        return t;
    };
    Tally {
        accepted: t.accepted.wrapping_add(1),
        same: t.same.wrapping_add(u64::from(written_again(m, s))),
    }
}

// Tries one case, and writes its line.
fn tried(rt: &impl Print, t: Tally, kind: u8, case: Case) -> io::Result<Tally> {
    let m = changed(good(kind), case);
    let mut s = [0u8; RECORD];
    bytes::store(m, &mut s);
    let read = code(message::read_record(&s));
    let write = write_code(m);
    println!(rt; "{kind} {} {} {read} {write}", case.field, case.value)?;
    Ok(counted(t, s))
}

// Tries the cases that every kind has.
fn shared_tried(rt: &impl Print, t: Tally, kind: u8) -> io::Result<Tally> {
    let mut n = t;
    for (field, value) in SHARED {
        n = tried(rt, n, kind, Case { field, value })?;
    }
    Ok(n)
}

// Tries the cases of one kind's own.
fn own_tried(rt: &impl Print, t: Tally, kind: u8) -> io::Result<Tally> {
    let mut n = t;
    for (base, field, value) in OWN {
        if base == kind {
            n = tried(rt, n, kind, Case { field, value })?;
        }
    }
    Ok(n)
}

// Tries the reading of n bytes, those of a message's record and then a 0, and the writing of the message into n bytes.
fn length_tried(rt: &impl Print, m: Message, n: usize) -> io::Result<()> {
    let mut s = [0u8; 33];
    bytes::store(m, &mut s);
    let mut t = [0xAAu8; 33];
    let (Some(first), Some(room)) = (s.get(..n), t.get_mut(..n)) else {
        return Ok(());
    };
    let read = code(message::read_record(first));
    let write = code(message::write_record(m, room));
    let kept = u8::from(t == [0xAAu8; 33]);
    println!(rt; "length {n} {read} {write} {kept}")
}

// Tries lengths about 32 for one message.
fn lengths_tried(rt: &impl Print, m: Message) -> io::Result<()> {
    for n in [0, 31, 32, 33] {
        length_tried(rt, m, n)?;
    }
    Ok(())
}

// Tries every case, grouped by base kind. Base kind 14 is no kind: its cases have a bad field under a bad kind.
// Then tries the lengths, with a good message, one with a bad field and one with a bad kind; then writes the counts.
fn main(rt: HostRuntime) -> io::Result<()> {
    let mut t = Tally {
        accepted: 0,
        same: 0,
    };
    for kind in 1..=14u8 {
        if kind <= 13 {
            t = shared_tried(&rt, t, kind)?;
        }
        t = own_tried(&rt, t, kind)?;
    }
    let m = good(u8::from(Kind::Clearance));
    lengths_tried(&rt, m)?;
    lengths_tried(&rt, Message { d0: 64, ..m })?;
    lengths_tried(&rt, Message { kind: 14, ..m })?;
    println!(rt; "same {}", t.same)?;
    println!(rt; "accepted {}", t.accepted)
}
