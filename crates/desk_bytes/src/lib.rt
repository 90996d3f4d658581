// A desk in 520 bytes, UNIT-1 (docs/RULES.md): its encoding, the desk that stands in bytes, and one zone of it read or
// stored alone. The layout is in specs/Encoding.antt; proofs/RoundTrip.antt has that a desk, encoded and decoded, is
// the same desk, proofs/ZonePlaces.antt that a zone stored is put into it. Every function takes any bytes and any desk.
#![tactic(auto)]

ghost use Rattle.std.specs.Prelude.{◌≡◌, ◌+◌, ◌*◌};
ghost use Rattle.desk.specs.Desk.{zone_at};
ghost use Rattle.desk_bytes.specs.Encoding.{stored_desk, stored_zone, desk_in, is_desk};

use desk::Desk;
use zone::{Work, Zone};

mod checking;
mod reading;
mod storing;

// The length of a desk in bytes (UNIT-1).
pub const LENGTH: usize = 520;

// A zone with nothing in it.
const NO_ZONE: Zone = Zone {
    work: Work::NoWork,
    movement: None,
    recorder: false,
    time: 0,
};

// Where zone k stands: a number of 8 bits, so that no place overflows.
fn place(k: u8) -> u16
    ensures { result ≡ 8 + 64 * k }
{
    8 + 64 * u16::from(k)
}

// Stores a desk at the start of the bytes; a byte past their end is not stored (UNIT-1).
pub fn encode(d: Desk, s: &mut [u8])
    ensures { s.new ≡ stored_desk s.old d }
{
    storing::put_head(s);
    storing::put_zones(d, s);
}

// The desk that stands in the bytes, whatever they are.
pub fn decode(s: &[u8]) -> Desk
    ensures { result ≡ desk_in s.now }
{
    reading::desk_in(s)
}

// Zone k of the desk that stands in the bytes; from 8 on a zone with nothing in it.
pub fn zone_at(s: &[u8], k: usize) -> Zone
    ensures { result ≡ zone_at (desk_in s.now) k }
{
    if k < Desk::ZONES {
        return reading::zone_in(s, k as u8);
    }
    NO_ZONE
}

// Stores zone k in its place, and nothing from 8 on; a byte past the end is not stored.
pub fn put_zone_at(z: Zone, s: &mut [u8], k: usize)
    ensures { s.new ≡ stored_zone s.old k z }
{
    if k < Desk::ZONES {
        storing::put_zone(z, s, k as u8);
    }
}

// Whether the bytes are those of a desk (UNIT-2).
pub fn is_desk(s: &[u8]) -> bool
    ensures { result ≡ is_desk s.now }
{
    if s.len() != LENGTH {
        return false;
    }
    (bigendian::get::<u64>(s, 0) == storing::HEAD) & checking::zones_kept(s)
}
