// Sheets for the cabin panel (PANEL-1 to PANEL-3 of docs/RULES.md): plain ones of any counts, read by the panel and by
// the desk.
use super::bases::{LONGEST, Sheet};
use super::sheets::{put_header, put_route};
use super::{stations, write_finding};
use bigendian::put;
use case_rows::Row;
use refusals::Refusal;
use station::Station;
use std::io;

// Stores turnouts in bytes that are 0: in zone 0, alone, electric.
fn put_turnouts(s: &mut [u8], p: u8) {
    for n in 0..p {
        put(s, 9 + 3 * usize::from(n), 255u8);
    }
}

// Stores routes, after P turnouts, in bytes that are 0: in zone 0 and over {0}, their other sets empty.
fn put_routes(s: &mut [u8], p: u8, r: u8) {
    for n in 0..r {
        put_route(s, 8 + 3 * u16::from(p) + 33 * u16::from(n), 0, [1, 0, 0, 0]);
    }
}

// The plain sheet of version 1 with one zone and with the counts of turnouts and of routes that are next, modulo 256;
// what does not fit is left off. With version 2 it is good too: every turnout is alone.
pub fn plain(row: &mut Row<'_>) -> Sheet {
    let p = (row.number() % 256) as u8;
    let r = (row.number() % 256) as u8;
    let mut buffer = [0; LONGEST];
    put_header(&mut buffer, 1, p, r, 1);
    put_turnouts(&mut buffer, p);
    put_routes(&mut buffer, p, r);
    let length = 8 + 3 * usize::from(p) + 33 * usize::from(r);
    Sheet { buffer, length }
}

// Writes what a reading gave: the code, the index, and the sum of the station, the empty one where it refuses.
fn write_all_of(rt: &impl Print, answer: Result<Station, Refusal>) -> io::Result<()> {
    write_finding(rt, answer)?;
    let st = answer.unwrap_or(Station::empty());
    print!(rt; " {}", stations::sum(&st))
}

// Tries the plain sheet of the row: writes what the panel's reading of its bytes gives, then the desk's.
pub fn tried(rt: &impl Print, row: &mut Row<'_>) -> io::Result<()> {
    let mut sheet = plain(row);
    let n = usize::from(row.number());
    row.put_pairs(&mut sheet.buffer);
    let s = sheet.first(n);
    write_all_of(rt, panel::read_panel_sheet(s))?;
    write_all_of(rt, sheet::read_sheet(s))
}
