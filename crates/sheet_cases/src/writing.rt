// Stations that are written: changes to a station's numbers, and what the writer leaves in a buffer.
use super::bases::{Base, Sheet};
use case_rows::Row;
use station::{Route, Station, Turnout};
use std::io;

// Every byte of the buffer before the call.
pub const BEFORE: u8 = 170;

// Puts a number into a turnout: 0 the zone, 1 the number of its group, 2 the drive. Here and below by the place in the
// row of numbers, which is no kind.
fn put_in_turnout(t: &mut Turnout, j: usize, value: u8) {
    match j {
        0 => t.zone = value,
        1 => t.group = value,
        _ => t.drive = value,
    }
}

// Puts a number into a route: 0 the zone, 1 run over, 2 flank, 3 exit zone, 4 reverse.
fn put_in_route(r: &mut Route, j: usize, value: u16) {
    let set = u64::from(value);
    match j {
        0 => r.zone = (value % 256) as u8,
        1 => r.over = set,
        2 => r.flank = set,
        3 => r.exits = set,
        _ => r.reverse = set,
    }
}

// Puts a number at a place of a station (main.rt).
fn put_number(st: &mut Station, place: u16, value: u16) {
    let place = usize::from(place);
    let byte = (value % 256) as u8;
    match place {
        0 => st.turnouts = byte,
        1 => st.routes = byte,
        2 => st.zones = byte,
        3..195 => put_in_turnout(&mut st.turnout[(place - 3) / 3], place % 3, byte),
        195..515 => put_in_route(&mut st.route[(place - 195) / 5], place % 5, value),
        _ => {}
    }
}

// Makes the changes of the row, at most 16.
fn change(st: &mut Station, row: &mut Row<'_>) {
    for _ in 0..16u8 {
        if row.byte() != b' ' {
            return;
        }
        let place = row.number();
        let value = row.number();
        put_number(st, place, value);
    }
}

// Writes how many bytes at the start of the buffer are those of a sheet, and how many of the rest are as they were
// before the call.
pub fn write_left(rt: &impl Print, s: &[u8], sheet: &[u8]) -> io::Result<()> {
    let same = s.iter().zip(sheet).take_while(|(a, b)| **a == **b).count();
    let untouched = s.iter().skip(same).filter(|b| **b == BEFORE).count();
    print!(rt; " {same} {untouched}")
}

// Writes the sheet of a station into a buffer, and writes what comes of it, beside a sheet.
fn buffer_tried(rt: &impl Print, st: Station, s: &mut [u8], sheet: &[u8]) -> io::Result<()> {
    let answer = sheet_writer::write_sheet(st, s);
    print!(rt; " {}", refusals::code(answer))?;
    write_left(rt, s, sheet)
}

// Tries the station of a base number with the changes of the row, beside what it should be written as without them.
// Where the number names no sheet, no bytes are read, which gives the empty station.
pub fn tried(rt: &impl Print, number: u16, row: &mut Row<'_>) -> io::Result<()> {
    let base = Base::try_from(number);
    let n = usize::from(row.number());
    let answer = sheet::read_sheet(Sheet::of(base).bytes());
    let mut st = answer.unwrap_or(Station::empty());
    change(&mut st, row);
    let written = Sheet::of(base.map(Base::written));
    let mut buffer = [BEFORE; 2400];
    if let Some(s) = buffer.get_mut(..n) {
        buffer_tried(rt, st, s, written.bytes())?;
    }
    Ok(())
}
