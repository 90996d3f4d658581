// Whether bytes are a desk's, UNIT-2 (docs/RULES.md): in each place stands what the zone that is read there is encoded
// to.
ghost use Rattle.std.specs.Prelude.{◌≡◌, ◌+◌, ◌*◌, eqb};
ghost use Rattle.desk_bytes.specs.Encoding.{
  work_bytes,
  movement_bytes,
  zone_bytes,
  zones_from,
  work_in,
  movement_in,
  zone_in,
  desk_in,
};
ghost use Rattle.desk_bytes.specs.StandAt.{stand_at};
ghost use Rattle.bigendian.specs.BigEndian.{number_at};
ghost use Rattle.zone.specs.Movement.{key_set};

use crate::place;
use bigendian::get;

// A stage of 0, 1 or 2; asked work has 0 in the fields of an agreement, no work 0 in every field.
fn work_kept(s: &[u8], at: u16) -> bool
    ensures { result ≡ stand_at s.now at (work_bytes (work_in s.now at)) }
{
    let at = at as usize;
    let stage: u8 = get(s, at);
    if stage == 2 {
        return true;
    }
    let not_agreed = (get::<u32>(s, at + 14) == 0) & (get::<u64>(s, at + 18) == 0);
    if stage == 1 {
        return not_agreed;
    }
    (stage == 0)
        & (get::<u8>(s, at + 1) == 0)
        & (get::<u32>(s, at + 2) == 0)
        & (get::<u64>(s, at + 6) == 0)
        & not_agreed
}

// A first byte of 0 or 1; no movement has 0 in every field.
fn movement_kept(s: &[u8], at: u16) -> bool
    ensures { result ≡ stand_at s.now at (movement_bytes (movement_in s.now at)) }
{
    let at = at as usize;
    let standing: u8 = get(s, at);
    if standing == 1 {
        return true;
    }
    (standing == 0)
        & (get::<u8>(s, at + 1) == 0)
        & (get::<u8>(s, at + 2) == 0)
        & (get::<u32>(s, at + 3) == 0)
        & (get::<u64>(s, at + 7) == 0)
        & (get::<u64>(s, at + 15) == 0)
}

// No movement has no keys.
fn keys_kept(s: &[u8], at: u16) -> bool
    ensures { result ≡ eqb (number_at 8 s.now (at + 28)) (key_set (movement_in s.now at)) }
{
    let at = at as usize;
    (get::<u8>(s, at) == 1) | (get::<u64>(s, at + 28) == 0)
}

// Its work, its movement, a recorder's byte of 0 or 1, the keys, and 2 reserved bytes of 0.
fn zone_kept(s: &[u8], k: u8) -> bool
    ensures { result ≡ stand_at s.now (8 + 64 * k) (zone_bytes (zone_in s.now (8 + 64 * k))) }
{
    let at = place(k);
    work_kept(s, at)
        & movement_kept(s, at + 26)
        & (get::<u8>(s, at as usize + 49) < 2)
        & keys_kept(s, at + 26)
        & (get::<u16>(s, at as usize + 62) == 0)
}

// The 8 zones, after the head.
pub fn zones_kept(s: &[u8]) -> bool
    ensures { result ≡ stand_at s.now 8 (zones_from (desk_in s.now) 0 8) }
{
    for k in 0..8u8 {
        if !zone_kept(s, k) {
            return false;
        }
    }
    true
}
