// The thirteen kinds of message over one zone (KIND-1 to KIND-13 of docs/RULES.md): each is its checks, in the written
// order, and its effect. The rules are in the crate `rules`, specs/Kinds.antt. A kind is a function of its own, as its
// row is, also where two leave the same zone.
#![tactic(auto, using(refusals::proofs::Numbers::not_zero), // no refusal has the number 0
unfolding(rules::specs::Kinds::answered, rules::specs::Kinds::row, rules::specs::Kinds::zone_after, // a kind's answer
rules::specs::Kinds::work_after, rules::specs::Kinds::moved, // what it does to the work and the movement
rules::specs::Kinds::recorder_after, rules::specs::Kinds::minutes_for,))]

ghost use Rattle.std.specs.Prelude.{◌≡◌};
ghost use Rattle.zone.specs.Zone.{answer_of};
ghost use Rattle.rules.specs.Kinds.{answered, heard_on};

mod codes;

use durations::minutes_between;
use message::{Kind, Message};
use refusals::{Refusal, refuse_if};
use rules::Concerned;
use rules::clearances::is_efficient;
use station::Station;
use zone::movements::{cleared_at, keyed_at, movement_for, ordered_as};
use zone::trains::{changed_under, movement_under, with_movement};
use zone::works::{agreed_at, agreed_from, asked_for, opened_to, restored_of, shut_to};
use zone::{Heard, Work, Zone, at_time, with_recorder, with_work, work_of};

// A message at its zone: the station, the routes that bear on it, the zone as it is, the message.
#[derive(Clone, Copy)]
struct Hearing<'a> {
    st: &'a Station,
    routes: Concerned,
    z: Zone,
    m: Message,
}

fn work_asked(h: &Hearing) -> Result<Heard, Refusal>
    ensures { answer_of h.now.z result ≡ answered 1 h.now.st.now h.now.routes h.now.z h.now.m }
{
    codes::work_asked(h)?;
    let zone = with_work(h.z, asked_for(h.m.id, h.m.d0, h.m.a), h.m.time);
    Ok(Heard { zone, minutes: 0 })
}

fn agreed(h: &Hearing) -> Result<Heard, Refusal>
    ensures { answer_of h.now.z result ≡ answered 2 h.now.st.now h.now.routes h.now.z h.now.m }
{
    codes::agreed(h)?;
    let zone = with_work(h.z, agreed_from(work_of(h.z), h.m.time), h.m.time);
    Ok(Heard { zone, minutes: 0 })
}

fn withdrawn(h: &Hearing) -> Result<Heard, Refusal>
    ensures { answer_of h.now.z result ≡ answered 3 h.now.st.now h.now.routes h.now.z h.now.m }
{
    codes::withdrawn(h)?;
    let zone = with_work(h.z, Work::NoWork, h.m.time);
    Ok(Heard { zone, minutes: 0 })
}

fn detection_off(h: &Hearing) -> Result<Heard, Refusal>
    ensures { answer_of h.now.z result ≡ answered 4 h.now.st.now h.now.routes h.now.z h.now.m }
{
    codes::detection_off(h)?;
    let zone = with_work(
        h.z,
        opened_to(work_of(h.z), sets::join(h.m.a, h.m.b)),
        h.m.time,
    );
    Ok(Heard { zone, minutes: 0 })
}

fn movement_asked(h: &Hearing) -> Result<Heard, Refusal>
    ensures { answer_of h.now.z result ≡ answered 5 h.now.st.now h.now.routes h.now.z h.now.m }
{
    codes::movement_asked(h)?;
    let zone = at_time(with_movement(h.z, movement_for(h.m.id, h.m.d0)), h.m.time);
    Ok(Heard { zone, minutes: 0 })
}

fn clearance(h: &Hearing) -> Result<Heard, Refusal>
    ensures { answer_of h.now.z result ≡ answered 6 h.now.st.now h.now.routes h.now.z h.now.m }
{
    codes::clearance(h)?;
    let v = movement_under(h.z, h.m.id);
    let z = changed_under(h.z, h.m.id, cleared_at(v, h.m.d0, is_efficient(h.m.d1)));
    let zone = with_work(
        z,
        shut_to(work_of(h.z), sets::only(h.m.d0 as usize)),
        h.m.time,
    );
    Ok(Heard { zone, minutes: 0 })
}

fn ordered(h: &Hearing) -> Result<Heard, Refusal>
    ensures { answer_of h.now.z result ≡ answered 7 h.now.st.now h.now.routes h.now.z h.now.m }
{
    codes::ordered(h)?;
    let v = movement_under(h.z, h.m.id);
    let zone = at_time(changed_under(h.z, h.m.id, ordered_as(v, h.m.d0)), h.m.time);
    Ok(Heard { zone, minutes: 0 })
}

fn passed(h: &Hearing) -> Result<Heard, Refusal>
    ensures { answer_of h.now.z result ≡ answered 8 h.now.st.now h.now.routes h.now.z h.now.m }
{
    codes::passed(h)?;
    let zone = at_time(changed_under(h.z, h.m.id, None), h.m.time);
    Ok(Heard { zone, minutes: 0 })
}

fn cancelled(h: &Hearing) -> Result<Heard, Refusal>
    ensures { answer_of h.now.z result ≡ answered 9 h.now.st.now h.now.routes h.now.z h.now.m }
{
    codes::cancelled(h)?;
    let zone = at_time(changed_under(h.z, h.m.id, None), h.m.time);
    Ok(Heard { zone, minutes: 0 })
}

fn part_restored(h: &Hearing) -> Result<Heard, Refusal>
    ensures { answer_of h.now.z result ≡ answered 10 h.now.st.now h.now.routes h.now.z h.now.m }
{
    codes::part_restored(h)?;
    let zone = with_work(h.z, restored_of(work_of(h.z), h.m.a), h.m.time);
    Ok(Heard { zone, minutes: 0 })
}

fn all_restored(h: &Hearing) -> Result<Heard, Refusal>
    ensures { answer_of h.now.z result ≡ answered 11 h.now.st.now h.now.routes h.now.z h.now.m }
{
    codes::all_restored(h)?;
    let since = agreed_at(work_of(h.z));
    let zone = with_work(h.z, Work::NoWork, h.m.time);
    Ok(Heard {
        zone,
        minutes: minutes_between(since, h.m.time),
    })
}

fn recorder(h: &Hearing) -> Result<Heard, Refusal>
    ensures { answer_of h.now.z result ≡ answered 12 h.now.st.now h.now.routes h.now.z h.now.m }
{
    let zone = with_recorder(h.z, h.m.d0 == 1, h.m.time);
    Ok(Heard { zone, minutes: 0 })
}

fn key_used(h: &Hearing) -> Result<Heard, Refusal>
    ensures { answer_of h.now.z result ≡ answered 13 h.now.st.now h.now.routes h.now.z h.now.m }
{
    codes::key_used(h)?;
    let v = movement_under(h.z, h.m.id);
    let zone = at_time(changed_under(h.z, h.m.id, keyed_at(v, h.m.d0)), h.m.time);
    Ok(Heard { zone, minutes: 0 })
}

// A message heard by its zone once 14 is past: the checks and the effect of its kind (HEAR-4).
#[tactic(auto, using(crate::proofs::NoKind::answered_none))]
fn hear_kind(h: &Hearing) -> Result<Heard, Refusal>
    ensures { answer_of h.now.z result ≡ answered h.now.m.kind h.now.st.now h.now.routes h.now.z h.now.m }
{
    match Kind::try_from(h.m.kind)? {
        Kind::WorkAsked => work_asked(h),
        Kind::Agreed => agreed(h),
        Kind::Withdrawn => withdrawn(h),
        Kind::DetectionOff => detection_off(h),
        Kind::MovementAsked => movement_asked(h),
        Kind::Clearance => clearance(h),
        Kind::Ordered => ordered(h),
        Kind::Passed => passed(h),
        Kind::Cancelled => cancelled(h),
        Kind::PartRestored => part_restored(h),
        Kind::AllRestored => all_restored(h),
        Kind::Recorder => recorder(h),
        Kind::KeyUsed => key_used(h),
    }
}

// A message heard by its zone: 14, then the checks and the effect of its kind (HEAR-3, HEAR-4). Four arguments, as
// `heard_on` has them and its callers keep them.
#[tactic(auto, unfolding(rules::specs::Kinds::heard_on))]
pub fn hear(st: Station, routes: Concerned, z: Zone, m: Message) -> Result<Heard, Refusal>
    ensures { answer_of z result ≡ heard_on st routes z m }
{
    refuse_if(m.time < z.time, Refusal::TooEarly)?;
    let hearing = Hearing {
        st: &st,
        routes,
        z,
        m,
    };
    hear_kind(&hearing)
}
