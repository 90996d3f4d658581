// Stations compared: those of two sheets, and those of a sheet and of its copy (SHEET-14, WRITE-2 and WRITE-5 of
// docs/RULES.md).
use super::bases::{Base, Sheet};
use super::stations::differing;
use super::write_finding;
use super::writing::{BEFORE, write_left};
use case_rows::Row;
use refusals::code;
use station::Station;
use std::io;

// Writes how many numbers differ in the stations that two sheets give.
fn write_differing(rt: &impl Print, s: &[u8], t: &[u8]) -> io::Result<()> {
    let a = sheet::read_sheet(s).unwrap_or(Station::empty());
    let b = sheet::read_sheet(t).unwrap_or(Station::empty());
    print!(rt; " {}", differing(&a, &b))
}

// Tries the two sheets of the row, the damage in the first.
pub fn stations_tried(rt: &impl Print, row: &mut Row<'_>) -> io::Result<()> {
    let mut one = Sheet::of(Base::try_from(row.number()));
    let other = Sheet::of(Base::try_from(row.number()));
    row.put_pairs(&mut one.buffer);
    let s = one.bytes();
    let t = other.bytes();
    let first = code(sheet::read_sheet(s));
    let second = code(sheet::read_sheet(t));
    print!(rt; " {first} {second}")?;
    write_differing(rt, s, t)
}

// Copies a sheet into a buffer, and writes what comes of it.
fn copied(rt: &impl Print, sheet: &[u8], s: &mut [u8]) -> io::Result<()> {
    let answer = sheet_writer::copy_sheet(sheet, s);
    write_finding(rt, answer)?;
    write_left(rt, s, sheet)?;
    if answer.is_ok() {
        write_differing(rt, sheet, s.get(..sheet.len()).unwrap_or(s))?;
    }
    Ok(())
}

// Tries the copy of the row, into a buffer of at most 2,400 bytes.
pub fn copy_tried(rt: &impl Print, row: &mut Row<'_>) -> io::Result<()> {
    let mut sheet = Sheet::of(Base::try_from(row.number()));
    let length = usize::from(row.number());
    let room = usize::from(row.number());
    row.put_pairs(&mut sheet.buffer);
    let mut buffer = [BEFORE; 2400];
    if let Some(s) = buffer.get_mut(..room) {
        copied(rt, sheet.first(length), s)?;
    }
    Ok(())
}
