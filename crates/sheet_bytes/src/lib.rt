// A station as the bytes of a sheet, stored into a buffer (WRITE-1 of docs/RULES.md). The bytes are in
// specs/SheetBytes.antt; they are the inverse of the station that the crate `layout` finds in bytes
// (proofs/Inverse.antt). Storing takes any station and any buffer; the crate `sheet_writer` refuses.
#![tactic(auto)]

ghost use Rattle.std.specs.Prelude.{◌≡◌, ◌+◌, ◌*◌, min};
ghost use Rattle.std.proofs.lemmas.List.Edits.{sets};
ghost use Rattle.sheet_bytes.specs.SheetBytes.{
  header_bytes,
  turnout_bytes,
  route_bytes,
  turnout_records,
  route_records,
  sheet_bytes,
};

use station::{Route, Station, Turnout};

// The length of the header.
const HEADER: u16 = 8;

// The version that is written.
const VERSION: u16 = 2;

fn put_header(s: &mut [u8], p: u8, r: u8, z: u8)
    ensures { s.new ≡ sets s.old 0 (header_bytes p r z) }
{
    bigendian::put(s, 0, b'S');
    bigendian::put(s, 1, b'P');
    bigendian::put(s, 2, b'T');
    bigendian::put(s, 3, VERSION);
    bigendian::put(s, 5, p);
    bigendian::put(s, 6, r);
    bigendian::put(s, 7, z);
}

fn put_turnout(s: &mut [u8], at: u16, t: Turnout)
    ensures { s.new ≡ sets s.old at (turnout_bytes t) }
{
    let at = at as usize;
    bigendian::put(s, at, t.zone);
    bigendian::put(s, at + 1, t.group);
    bigendian::put(s, at + 2, t.drive);
}

fn put_route(s: &mut [u8], at: u16, r: Route)
    ensures { s.new ≡ sets s.old at (route_bytes r) }
{
    let at = at as usize;
    bigendian::put(s, at, r.zone);
    bigendian::put(s, at + 1, r.over);
    bigendian::put(s, at + 9, r.flank);
    bigendian::put(s, at + 17, r.exits);
    bigendian::put(s, at + 25, r.reverse);
}

// Stores the first p turnout records after the header. One loop for both kinds of record would lend the buffer to a
// closure, which then is no `Fn`, or ask for a trait with the width of a record and a law on it: longer than the two. A
// count and 64 records: `turnout_records` speaks of a count that may be over its limit (VALUE-1).
fn put_turnouts(s: &mut [u8], p: u8, ts: [Turnout; 64])
    ensures { s.new ≡ sets s.old 8 (turnout_records p ts) }
{
    for i in 0..p.min(64) {
        put_turnout(s, HEADER + 3 * (i as u16), ts[i as usize]);
    }
}

// Stores the first r routes after the p turnouts.
fn put_routes(s: &mut [u8], p: u8, r: u8, rs: [Route; 64])
    ensures { s.new ≡ sets s.old (8 + 3 * min p 64) (route_records r rs) }
{
    let first = HEADER + 3 * (p.min(64) as u16);
    for i in 0..r.min(64) {
        put_route(s, first + 33 * (i as u16), rs[i as usize]);
    }
}

// Stores the sheet of a station at the start of the buffer; a byte past its end is not stored (WRITE-1).
pub fn put_sheet(st: Station, s: &mut [u8])
    ensures { s.new ≡ sets s.old 0 (sheet_bytes st) }
{
    put_header(s, st.turnouts, st.routes, st.zones);
    put_turnouts(s, st.turnouts, st.turnout);
    put_routes(s, st.turnouts, st.routes, st.route);
}
