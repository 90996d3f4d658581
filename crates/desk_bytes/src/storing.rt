// Storing a desk in bytes, UNIT-1 (docs/RULES.md): the head, then each zone from its place on.
ghost use Rattle.std.specs.Prelude.{◌≡◌, ◌+◌, ◌*◌};
ghost use Rattle.std.proofs.lemmas.List.Edits.{sets};
ghost use Rattle.zone.specs.Movement.{key_set};
ghost use Rattle.desk_bytes.specs.Encoding.{
  head_bytes,
  work_fields,
  work_bytes,
  movement_fields,
  movement_bytes,
  last_bytes,
  zone_bytes,
  zones_from,
};

use crate::place;
use desk::Desk;
use zone::movements::key_set;
use zone::{Agreement, Passage, Work, Zone};

// The version, 1, in the first of 8 bytes.
pub const HEAD: u64 = 72057594037927936;

// What the fields of no work hold, and those of an agreement while work is only asked for.
const NO_AGREEMENT: Agreement = Agreement {
    set: 0,
    opened: 0,
    form: 0,
    since: 0,
    manner: 0,
};

// What the fields of no movement hold.
const NO_PASSAGE: Passage = Passage {
    cleared: 0,
    efficient: 0,
    keys: 0,
    train: 0,
    route: 0,
    order: 0,
};

pub fn put_head(s: &mut [u8])
    ensures { s.new ≡ sets s.old 0 head_bytes }
{
    bigendian::put(s, 0, HEAD);
}

fn put_work_fields(s: &mut [u8], at: u16, stage: u8, g: Agreement)
    ensures { s.new ≡ sets s.old at (work_fields stage g.manner g.form g.set g.since g.opened) }
{
    let at = at as usize;
    bigendian::put(s, at, stage);
    bigendian::put(s, at + 1, g.manner);
    bigendian::put(s, at + 2, g.form);
    bigendian::put(s, at + 6, g.set);
    bigendian::put(s, at + 14, g.since);
    bigendian::put(s, at + 18, g.opened);
}

#[tactic(auto, unfolding(crate::specs::Encoding::work_bytes))]
fn put_work(w: Work, s: &mut [u8], at: u16)
    ensures { s.new ≡ sets s.old at (work_bytes w) }
{
    match w {
        Work::NoWork => put_work_fields(s, at, 0, NO_AGREEMENT),
        Work::Asked(q) => {
            let asked = Agreement {
                manner: q.manner,
                form: q.form,
                set: q.set,
                ..NO_AGREEMENT
            };
            put_work_fields(s, at, 1, asked)
        }
        Work::Agreed(g) => put_work_fields(s, at, 2, g),
    }
}

fn put_movement_fields(s: &mut [u8], at: u16, standing: u8, p: Passage)
    ensures { s.new
        ≡ sets s.old at (movement_fields standing p.route p.order p.train p.cleared p.efficient) }
{
    let at = at as usize;
    bigendian::put(s, at, standing);
    bigendian::put(s, at + 1, p.route);
    bigendian::put(s, at + 2, p.order);
    bigendian::put(s, at + 3, p.train);
    bigendian::put(s, at + 7, p.cleared);
    bigendian::put(s, at + 15, p.efficient);
}

#[tactic(auto, unfolding(crate::specs::Encoding::movement_bytes))]
fn put_movement(v: Option<Passage>, s: &mut [u8], at: u16)
    ensures { s.new ≡ sets s.old at (movement_bytes v) }
{
    match v {
        None => put_movement_fields(s, at, 0, NO_PASSAGE),
        Some(p) => put_movement_fields(s, at, 1, p),
    }
}

// The recorder, the time, the keys, the reserved bytes.
#[tactic(auto, unfolding(crate::specs::Encoding::last_bytes))]
fn put_last(z: Zone, s: &mut [u8], at: u16)
    ensures { s.new ≡ sets s.old at (last_bytes z.recorder z.time (key_set z.movement)) }
{
    let at = at as usize;
    bigendian::put(s, at, u8::from(z.recorder));
    bigendian::put(s, at + 1, z.time);
    bigendian::put(s, at + 5, key_set(z.movement));
    bigendian::put(s, at + 13, 0u16);
}

// Stores zone k in its place.
pub fn put_zone(z: Zone, s: &mut [u8], k: u8)
    ensures { s.new ≡ sets s.old (8 + 64 * k) (zone_bytes z) }
{
    let at = place(k);
    put_work(z.work, s, at);
    put_movement(z.movement, s, at + 26);
    put_last(z, s, at + 49);
}

pub fn put_zones(d: Desk, s: &mut [u8])
    ensures { s.new ≡ sets s.old 8 (zones_from d 0 8) }
{
    for (k, z) in d.zones.iter().enumerate() {
        put_zone(*z, s, k as u8);
    }
}
