// Runs stored cases through the desk and prints what it answers. The cases are in data/cases and the expected lines in
// stdout; both were written by the further implementation of the rules (docs/RULES.md), in reference/, which shares
// nothing with the desk. What is proved here is that the program is safe and ends.
//
// A case: its kind (1 byte), two numbers x and y (4 bytes each), the lengths of two parts a and b (2 bytes each), all
// big-endian; then the parts. A line: the case's number from 1, and the numbers that its kind prints (stations.rt,
// messages.rt and journals.rt have the kinds), a space between any two.
#![tactic(auto)]

mod cases;
mod journals;
mod messages;
mod numbers;
mod stations;
mod text;

use cases::{Case, Cases};
use std::fmt::Write;
use std::{fmt, io};
use text::Text;

// Puts what a case answers; any other kind answers nothing. Of a zone or turnout in x the lowest byte counts. The
// kinds are looked at here alone: an enum would be a second table of them.
fn put_answer(out: &mut Text, c: Case<'_>) -> fmt::Result {
    let Case { kind, x, y, a, b } = c;
    let low = (x % 256) as u8;
    match kind {
        1 => stations::put_sheet(out, a),
        2 => stations::put_replay(out, a, b),
        3 => stations::put_movement(out, a, b, low, y),
        4 => stations::put_work(out, a, b, low),
        5 => messages::put_record(out, a),
        6 => messages::put_written(out, a, b),
        7 => journals::put_count(out, a),
        8 => journals::put_part(out, a, x),
        9 => journals::put_added(out, a, b),
        10 => stations::put_verdict(out, x),
        11 => stations::put_copied(out, a, b),
        12 => stations::put_panel(out, a),
        _ => Ok(()),
    }
}

// Puts the line of case n.
fn put_line(out: &mut Text, n: u32, c: Case<'_>) -> fmt::Result {
    write!(out, "{n}")?;
    put_answer(out, c)?;
    out.write_str("\n")
}

// Puts the lines of the cases, at most 4,096.
fn put_lines(out: &mut Text, cases: Cases<'_>) -> fmt::Result {
    for (n, c) in (1..=4096u32).zip(cases) {
        put_line(out, n, c)?;
    }
    Ok(())
}

fn main(rt: HostRuntime) -> io::Result<()> {
    let mut buffer = [0u8; 294912];
    let n = files::read_file(&rt, b"cases", &mut buffer);
    let cases = Cases(&buffer[..n]);
    let mut out = Text::new();
    // no write to a text fails
    let _ = put_lines(&mut out, cases);
    rt.write_all(out.bytes())
}
