// The unit, UNIT-1 to UNIT-6 (docs/RULES.md): a desk kept in 520 bytes by the caller, for firmware in C or Rust that
// hears one record at a time. The crate `works_desk_unit_c` hands its four public calls to C. The rules are in
// specs/Unit.antt, the desk's bytes in the crate `desk_bytes`. Every function takes any bytes and any numbers.
// proofs/OneByOne.antt has that records heard one by one get what replaying them gives, proofs/Demand3.antt that demand
// 3 holds of them, proofs/Calls.antt that the numbers which the calls return show it, proofs/Separation.antt that a
// zone's answers go by its own messages alone.
#![tactic(auto)]

ghost use Rattle.std.specs.Prelude.{◌≡◌, IfOk};
ghost use Rattle.refusals.specs.Numbers.{code_of};
ghost use Rattle.desk.specs.Questions.{movement_answer_of, work_answer_of};
ghost use Rattle.packed.specs.Packed.{movement_packed, work_packed};
ghost use Rattle.works_desk_unit.specs.Unit.{
  unit_fresh,
  started,
  unit_applied,
  unit_answer_of,
  called,
  unit_movement,
  unit_work,
};

use desk::{Desk, MovementState};
use refusals::{Refusal, refuse_if};
use station::Station;

// Stores the fresh desk. Refused by 61 for a buffer of another length than a desk's (UNIT-6).
#[tactic(auto, unfolding(crate::specs::Unit::unit_fresh))]
fn fresh(desk: &mut [u8]) -> Result<(), Refusal>
    ensures { record { code = code_of result; bytes = desk.new } ≡ unit_fresh desk.old }
{
    if desk.len() != desk_bytes::LENGTH {
        return Err(Refusal::NotADesk);
    }
    desk_bytes::encode(Desk::fresh(), desk);
    Ok(())
}

// The same, by its number.
pub fn unit_fresh(desk: &mut [u8]) -> u8
    ensures { record { code = result; bytes = desk.new } ≡ unit_fresh desk.old }
{
    refusals::code(fresh(desk))
}

// The sheet's station. Refused by the sheet's number, then by 61 for bytes that are no desk's (UNIT-3, UNIT-4).
#[tactic(auto, using(refusals::proofs::Numbers::not_zero), unfolding(crate::specs::Unit::started))]
fn start(sheet: &[u8], desk: &[u8]) -> Result<Station, Refusal>
    ensures number { code_of result ≡ (started sheet.now desk.now).code }
    ensures station { IfOk result (λ st. st ≡ (started sheet.now desk.now).station) }
{
    let st = sheet::read_sheet(sheet)?;
    refuse_if(!desk_bytes::is_desk(desk), Refusal::NotADesk)?;
    Ok(st)
}

// Hears a record, and gives the minutes; where it is accepted, stores its zone then. Refused by the sheet's number, by
// 61, then as the desk refuses the record (UNIT-3).
#[tactic(auto, using(refusals::proofs::Numbers::not_zero), unfolding(crate::specs::Unit::unit_applied))]
fn apply(sheet: &[u8], desk: &mut [u8], record: &[u8]) -> Result<u32, Refusal>
    ensures { unit_answer_of desk.new result ≡ unit_applied sheet.now desk.old «record».now }
{
    let st = start(sheet, desk)?;
    let m = message::read_record(record)?;
    let place = desk::zone_place(st, m);
    let z = desk_bytes::zone_at(desk, place);
    let heard = desk::zone_hears(st, z, m)?;
    desk_bytes::put_zone_at(heard.zone, desk, place);
    Ok(heard.minutes)
}

// Hears a record: the code in the lowest byte, the minutes above it (UNIT-3).
pub fn unit_apply(sheet: &[u8], desk: &mut [u8], record: &[u8]) -> u64
    ensures { record { answer = result; bytes = desk.new }
        ≡ called (unit_applied sheet.now desk.old «record».now) }
{
    match apply(sheet, desk, record) {
        Ok(minutes) => packed::answer_packed(0, minutes),
        // a refusal has no minutes (MINUTES-2)
        Err(refusal) => packed::answer_packed(u8::from(refusal), 0),
    }
}

#[tactic(auto, using(refusals::proofs::Numbers::not_zero), unfolding(crate::specs::Unit::unit_movement))]
fn movement(sheet: &[u8], desk: &[u8], zone: u8, train: u32) -> Result<MovementState, Refusal>
    ensures { movement_answer_of result ≡ unit_movement sheet.now desk.now zone train }
{
    let st = start(sheet, desk)?;
    desk::query_movement(st, desk_bytes::decode(desk), zone, train)
}

// The movement question: the code, the regime, the lowest turnout lacking a clearance, how many lack one, a byte each
// (UNIT-4).
pub fn unit_movement(sheet: &[u8], desk: &[u8], zone: u8, train: u32) -> u64
    ensures { result ≡ movement_packed (unit_movement sheet.now desk.now zone train) }
{
    packed::movement_result_packed(movement(sheet, desk, zone, train))
}

#[tactic(auto, using(refusals::proofs::Numbers::not_zero), unfolding(crate::specs::Unit::unit_work))]
fn work(sheet: &[u8], desk: &[u8], turnout: u8) -> Result<bool, Refusal>
    ensures { work_answer_of result ≡ unit_work sheet.now desk.now turnout }
{
    let st = start(sheet, desk)?;
    desk::query_work(st, desk_bytes::decode(desk), turnout)
}

// The work question: the code, and 256 if the turnout is open to work (UNIT-4).
pub fn unit_work(sheet: &[u8], desk: &[u8], turnout: u8) -> u32
    ensures { result ≡ work_packed (unit_work sheet.now desk.now turnout) }
{
    packed::work_result_packed(work(sheet, desk, turnout))
}
