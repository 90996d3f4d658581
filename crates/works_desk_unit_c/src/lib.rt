// The static library of the unit, for firmware in C or Rust: the calls of the crate `works_desk_unit`, each with the
// same clauses. A byte slice goes as a pointer and a length. tools/archives lays it out as libworks_desk_unit.a.
#![tactic(auto)]

ghost use Rattle.std.specs.Prelude.{◌≡◌};
ghost use Rattle.packed.specs.Packed.{movement_packed, work_packed};
ghost use Rattle.works_desk_unit.specs.Unit.{unit_fresh, unit_applied, called, unit_movement, unit_work};

// Stores the fresh desk. Refused by 61 for a buffer of another length than a desk's (UNIT-6).
#[unsafe(no_mangle)]
pub extern "C" fn unit_fresh(desk: &mut [u8]) -> u8
    ensures { record { code = result; bytes = desk.new } ≡ unit_fresh desk.old }
{
    works_desk_unit::unit_fresh(desk)
}

// Hears a record: the code in the lowest byte, the minutes above it (UNIT-3).
#[unsafe(no_mangle)]
pub extern "C" fn unit_apply(sheet: &[u8], desk: &mut [u8], record: &[u8]) -> u64
    ensures { record { answer = result; bytes = desk.new }
        ≡ called (unit_applied sheet.now desk.old «record».now) }
{
    works_desk_unit::unit_apply(sheet, desk, record)
}

// The movement question: the code, the regime, the lowest turnout lacking a clearance, how many lack one, a byte each
// (UNIT-4).
#[unsafe(no_mangle)]
pub extern "C" fn unit_movement(sheet: &[u8], desk: &[u8], zone: u8, train: u32) -> u64
    ensures { result ≡ movement_packed (unit_movement sheet.now desk.now zone train) }
{
    works_desk_unit::unit_movement(sheet, desk, zone, train)
}

// The work question: the code, and 256 if the turnout is open to work (UNIT-4).
#[unsafe(no_mangle)]
pub extern "C" fn unit_work(sheet: &[u8], desk: &[u8], turnout: u8) -> u32
    ensures { result ≡ work_packed (unit_work sheet.now desk.now turnout) }
{
    works_desk_unit::unit_work(sheet, desk, turnout)
}
