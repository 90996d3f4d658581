// The groups' numbers in the station that reading a sheet gives (SHEET-2, SHEET-12, SHEET-14 of docs/RULES.md).
use super::bases::Sheet;
use super::write_finding;
use case_rows::Row;
use station::Station;
use std::io;

// Writes the numbers of so many turnouts of a station, from a turnout on.
fn write_numbers(rt: &impl Print, st: &Station, from: u16, count: u16) -> io::Result<()> {
    let from = usize::from(from);
    for n in from..from + usize::from(count) {
        print!(rt; " {}", st.turnout[n % 64].group)?;
    }
    Ok(())
}

// Tries a sheet with the turnouts, and the damage, of the row.
pub fn tried(rt: &impl Print, mut sheet: Sheet, row: &mut Row<'_>) -> io::Result<()> {
    let from = row.number();
    let count = row.number();
    row.put_pairs(&mut sheet.buffer);
    row.put_pairs(&mut sheet.buffer);
    let answer = sheet::read_sheet(sheet.bytes());
    write_finding(rt, answer)?;
    let st = answer.unwrap_or(Station::empty());
    write_numbers(rt, &st, from, count)
}
