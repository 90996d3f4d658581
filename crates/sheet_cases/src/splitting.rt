// Whether sets split a group, and what is tied to a turnout (KIND-1.2, VALUE-1 and VALUE-2 of docs/RULES.md), on
// stations whose groups' numbers are any.
use case_rows::Row;
use station::{Station, Turnout};
use std::io;

// The numbers of a row: that of turnout n's group at place n, and 1 at place 100 + n where the set has turnout n.
const PLACES: usize = 164;

// The numbers that are next, from at most 32 pairs; where a pair gives none there is 255.
fn places(row: &mut Row<'_>) -> [u8; PLACES] {
    let mut s = [255; PLACES];
    row.put_pairs(&mut s);
    row.put_pairs(&mut s);
    s
}

// The 64 turnouts with their numbers. Zones and drives differ from one to the next: they are not looked at.
fn turnouts_in(s: &[u8; PLACES]) -> [Turnout; 64] {
    let mut turnouts = [Turnout::NONE; 64];
    for n in 0..64u8 {
        turnouts[usize::from(n)] = Turnout {
            zone: n,
            group: s[usize::from(n)],
            drive: n,
        };
    }
    turnouts
}

// The set.
fn set_in(s: &[u8; PLACES]) -> u64 {
    let mut set: u64 = 0;
    for n in 0..64usize {
        if s[100 + n] == 1 {
            set |= 1 << n;
        }
    }
    set
}

// The station with a count of turnouts, modulo 256.
fn station_in(count: u16, s: &[u8; PLACES]) -> Station {
    Station {
        turnouts: (count % 256) as u8,
        zones: 1,
        turnout: turnouts_in(s),
        ..Station::empty()
    }
}

// Tries the station and the set of the row.
pub fn tried(rt: &impl Print, row: &mut Row<'_>) -> io::Result<()> {
    let count = row.number();
    let s = places(row);
    let splits = groups::splits_group(station_in(count, &s), set_in(&s));
    print!(rt; " {}", splits as u8)
}

// Tries the station and the turnout of the row.
pub fn tied_tried(rt: &impl Print, row: &mut Row<'_>) -> io::Result<()> {
    let count = row.number();
    let n = usize::from(row.number());
    let st = station_in(count, &places(row));
    print!(rt;
        " {} {}",
        groups::tied_to(st, n),
        groups::is_grouped(st, n) as u8
    )
}
