// The bytes of a station sheet (SHEET-1, SHEET-2, SHEET-4 and SHEET-10 to SHEET-12 of docs/RULES.md): the checks of its
// header, and the station that stands in them. The rules are in specs/Layout.antt. The crate `sheet` judges the
// station.
#![tactic(auto)]

ghost use Rattle.std.specs.Prelude.{◌≡◌, ℕ};
ghost use Rattle.layout.specs.Layout.{
  has_mark,
  version,
  version_kept,
  within_limits,
  counts_kept,
  sheet_length,
  before_length,
  length_number,
  header_number,
  turnout_in,
  route_in,
  station_in,
};
ghost use Rattle.refusals.specs.Numbers.{code_of, code_or};
ghost use Rattle.sets.specs.Table.{places};

use refusals::{Refusal, refuse_if};
use station::{Route, Station, Turnout};

// The length of the header.
const HEADER: u16 = 8;

// The letters SPT.
fn has_mark(s: &[u8]) -> bool
    ensures { result ≡ has_mark s.now }
{
    s.starts_with(b"SPT")
}

// Whether there are at most so many turnouts and routes.
pub fn within_limits(turnouts: u8, routes: u8, p: u8, r: u8) -> bool
    ensures { result ≡ within_limits turnouts routes p r }
{
    (p <= turnouts) & (r <= routes)
}

// Whether P, R and Z are in range (SHEET-1).
pub fn counts_kept(p: u8, r: u8, z: u8) -> bool
    ensures { result ≡ counts_kept p r z }
{
    (1 <= p) & within_limits(64, 64, p, r) & (1 <= z) & (z <= 8)
}

// Whether a version is one that can be read (SHEET-1).
fn version_kept(v: u16) -> bool
    ensures { result ≡ version_kept v }
{
    (v == 1) | (v == 2)
}

// The version of a sheet (SHEET-1).
pub fn version_of(s: &[u8]) -> u16
    ensures { result ≡ version s.now }
{
    bigendian::get(s, 3)
}

// The length of a sheet with so many turnouts and routes (SHEET-10).
pub fn sheet_length(p: u8, r: u8) -> usize
    ensures { result ≡ sheet_length p r }
{
    HEADER as usize + 3 * (p as usize) + 33 * (r as usize)
}

// The checks before that of the length: length under 8, mark, version, counts (SHEET-11).
pub fn before_length(s: &[u8]) -> Result<(), Refusal>
    ensures number { code_of result ≡ before_length s.now 0 }
    ensures later { (n : ℕ) → code_or result n ≡ before_length s.now n }
{
    let counts = counts_kept(
        bigendian::get::<u8>(s, 5),
        bigendian::get::<u8>(s, 6),
        bigendian::get::<u8>(s, 7),
    );
    refuse_if(s.len() < HEADER as usize, Refusal::BadLength)?;
    refuse_if(!has_mark(s), Refusal::BadMark)?;
    refuse_if(!version_kept(version_of(s)), Refusal::BadVersion)?;
    refuse_if(!counts, Refusal::BadCounts)
}

// Whether there are as many bytes as the counts ask for (SHEET-10).
pub fn check_length(s: &[u8]) -> Result<(), Refusal>
    ensures { code_of result ≡ length_number s.now }
{
    let length = sheet_length(bigendian::get::<u8>(s, 5), bigendian::get::<u8>(s, 6));
    refuse_if(s.len() != length, Refusal::BadLength)
}

// The checks of the header and of the length, in the desk's order (SHEET-11).
#[tactic(auto, using(crate::proofs::Refused::header_order), unfolding(crate::specs::Layout::header_number))]
pub fn check_header(s: &[u8]) -> Result<(), Refusal>
    ensures { code_of result ≡ header_number s.now }
{
    before_length(s)?;
    check_length(s)
}

fn turnout_in(s: &[u8], at: u16) -> Turnout
    ensures { result ≡ turnout_in s.now at }
{
    let at = at as usize;
    Turnout {
        zone: bigendian::get(s, at),
        group: bigendian::get(s, at + 1),
        drive: bigendian::get(s, at + 2),
    }
}

fn route_in(s: &[u8], at: u16) -> Route
    ensures { result ≡ route_in s.now at }
{
    let at = at as usize;
    Route {
        zone: bigendian::get(s, at),
        over: bigendian::get(s, at + 1),
        flank: bigendian::get(s, at + 9),
        exits: bigendian::get(s, at + 17),
        reverse: bigendian::get(s, at + 25),
    }
}

// 64 records: at each place below n the one that `at` gives for it, at the others `empty` (SHEET-12).
fn table<T: Copy, F: Fn(u8) -> T>(n: u8, empty: T, at: F) -> [T; 64]
    requires { F.IsAlwaysCallable at }
    ensures { (f : ℕ → T) → ((i : ℕ) (x : T) → F.post at i x → x ≡ f i) → result ≡ places f n empty }
{
    let mut records = [empty; 64];
    for i in 0..n.min(64) {
        records[i as usize] = at(i);
    }
    records
}

// The station that stands in the bytes (SHEET-2, SHEET-4).
#[tactic(auto, unfolding(crate::specs::Layout::station_in))]
pub fn station_in(s: &[u8]) -> Station
    ensures { result ≡ station_in s.now }
{
    let p = bigendian::get::<u8>(s, 5);
    let r = bigendian::get::<u8>(s, 6);
    let first = HEADER + 3 * (p as u16);
    Station {
        turnouts: p,
        routes: r,
        zones: bigendian::get(s, 7),
        turnout: table(p, Turnout::NONE, |i| turnout_in(s, HEADER + 3 * (i as u16))),
        route: table(r, Route::NONE, |i| route_in(s, first + 33 * (i as u16))),
    }
}
