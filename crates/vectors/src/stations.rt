// Cases of sheets that are read, by the desk and by the panel, and written again; of a journal replayed, of both
// questions after it, and of verdicts.
use super::numbers::{copied, put_finding, sum32};
use super::text::Text;
use refusals::code;
use station::Station;
use std::fmt;
use std::fmt::Write;
use zone::Regime;

// Kind 1: the code of sheet a, and the index of its bad record.
pub fn put_sheet(out: &mut Text, a: &[u8]) -> fmt::Result {
    put_finding(out, sheet::read_sheet(a))
}

// Kind 2: the code of journal b on sheet a; where it is 0 also each record's code and minutes. A journal has at most
// 1,024 records, and an answer takes 5 bytes.
pub fn put_replay(out: &mut Text, a: &[u8], b: &[u8]) -> fmt::Result {
    let mut answers = [0u8; 5120];
    let answer = replay::replay(a, b, &mut answers);
    write!(out, " {}", code(answer))?;
    if answer.is_err() {
        return Ok(());
    }
    for answer in answers
        .chunks_exact(report::ANSWER)
        .take(journal::count(b) as usize)
    {
        write!(
            out,
            " {} {}",
            bigendian::get::<u8>(answer, 0),
            bigendian::get::<u32>(answer, 1)
        )?;
    }
    Ok(())
}

// Kind 3: the movement question after journal b on sheet a: code, regime, lowest or 255, count. Of a refusal there are
// the regime held, no lowest and the count 0.
pub fn put_movement(out: &mut Text, a: &[u8], b: &[u8], zone: u8, train: u32) -> fmt::Result {
    let answer = replay::replay_movement(a, b, zone, train);
    let (regime, lowest, count) = match answer {
        Ok(state) => (state.regime, state.lowest, state.count),
        Err(_) => (Regime::Held, None, 0),
    };
    let (regime, lowest) = (u8::from(regime), lowest.unwrap_or(255));
    write!(out, " {} {regime} {lowest} {count}", code(answer))
}

// Kind 4: the work question after journal b on sheet a: code, then 1 for yes and 0 for no.
pub fn put_work(out: &mut Text, a: &[u8], b: &[u8], turnout: u8) -> fmt::Result {
    let answer = replay::replay_work(a, b, turnout);
    write!(out, " {} {}", code(answer), answer.unwrap_or(false) as u8)
}

// Kind 10: the verdict for line, signal and flags, the three lower bytes of x: code, verdict or 0.
pub fn put_verdict(out: &mut Text, x: u32) -> fmt::Result {
    let [_, line, signal, flags] = x.to_be_bytes();
    let answer = signals::judge(line, signal, flags);
    write!(out, " {} {}", code(answer), answer.map_or(0, u8::from))
}

// Kind 11: the code and the index of reading sheet a and writing it into buffer b, and the sum of the whole buffer
// then. Of a longer b the first 2,400 bytes are the buffer; the longest sheet has 2,312.
pub fn put_copied(out: &mut Text, a: &[u8], b: &[u8]) -> fmt::Result {
    let mut buffer = [0u8; 2400];
    let n = copied(b, &mut buffer);
    let s = &mut buffer[..n];
    put_finding(out, sheet_writer::copy_sheet(a, s))?;
    write!(out, " {}", sum32(s))
}

// Kind 12: the code and the index of the panel's reading of sheet a; then the code of writing the station that it gave,
// the empty one where it refuses, into 2,312 bytes of 0, and the sum of these then. The sum tells stations apart.
pub fn put_panel(out: &mut Text, a: &[u8]) -> fmt::Result {
    let answer = panel::read_panel_sheet(a);
    put_finding(out, answer)?;
    let mut buffer = [0u8; 2312];
    let written = sheet_writer::write_sheet(answer.unwrap_or(Station::empty()), &mut buffer);
    write!(out, " {} {}", code(written), sum32(&buffer))
}
