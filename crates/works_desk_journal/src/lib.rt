// The static library of the works desk, for firmware in C or Rust: numbers and byte slices only. A byte slice goes as a
// pointer and a length; several values come back packed in one number, which specs/Packed.antt and the crate `packed`
// define. Every function takes any bytes and any numbers (CALL-1 of docs/RULES.md).
#![tactic(auto)]

ghost use Rattle.std.specs.Prelude.{◌≡◌};
ghost use Rattle.message.specs.Record.{read_record, written};
ghost use Rattle.sheet.specs.Sheet.{read_sheet, found_of};
ghost use Rattle.journal.specs.Journal.{journal_number, counted, record_number, added};
ghost use Rattle.replay.specs.Replay.{replayed, movement_replayed, work_replayed};
ghost use Rattle.packed.specs.Packed.{movement_packed, work_packed};
ghost use Rattle.sheet_writer.specs.Writer.{copied_sheet};
ghost use Rattle.works_desk_journal.specs.Packed.{finding_packed, sheet_packed, copy_packed, record_packed};

use message::Message;
use refusals::Refusal;

// The code of an answer, and 256 times the index of the bad record that it names.
fn finding_packed<T: Copy>(answer: Result<T, Refusal>) -> u32
    ensures { result ≡ finding_packed (found_of answer) }
{
    let index = answer.err().map_or(0, Refusal::index);
    packing::two_packed(refusals::code(answer), index)
}

// Reads a sheet: its code, and 256 times the index of the bad record (SHEET-11).
#[unsafe(no_mangle)]
pub extern "C" fn desk_sheet(sheet: &[u8]) -> u32
    ensures { result ≡ sheet_packed (read_sheet sheet.now) }
{
    finding_packed(sheet::read_sheet(sheet))
}

// Reads a sheet and writes it into the buffer: the code, and 256 times the index of the bad record (WRITE-5). It never
// gives 7.
#[unsafe(no_mangle)]
pub extern "C" fn desk_copy_sheet(sheet: &[u8], buffer: &mut [u8]) -> u32
    ensures { record { answer = result; bytes = buffer.new }
        ≡ copy_packed (copied_sheet sheet.now buffer.old) }
{
    finding_packed(sheet_writer::copy_sheet(sheet, buffer))
}

// Reads a record: 0, or the number that refuses it (RECORD-4).
#[unsafe(no_mangle)]
pub extern "C" fn desk_record(record: &[u8]) -> u8
    ensures { result ≡ (read_record «record».now).code }
{
    refusals::code(message::read_record(record))
}

// Writes a message as a record into the buffer (RECORD-5).
#[unsafe(no_mangle)]
pub extern "C" fn desk_write_record(
    kind: u8,
    zone: u8,
    time: u32,
    id: u32,
    a: u64,
    b: u64,
    d0: u8,
    d1: u8,
    d2: u8,
    d3: u8,
    d4: u8,
    d5: u8,
    buffer: &mut [u8],
) -> u8
    ensures { record { code = result; bytes = buffer.new }
        ≡ written (record {
          kind = kind;
          zone = zone;
          time = time;
          id = id;
          a = a;
          b = b;
          d0 = d0;
          d1 = d1;
          d2 = d2;
          d3 = d3;
          d4 = d4;
          d5 = d5;
        }) buffer.old }
{
    let m = Message {
        kind,
        zone,
        time,
        id,
        a,
        b,
        d0,
        d1,
        d2,
        d3,
        d4,
        d5,
    };
    refusals::code(message::write_record(m, buffer))
}

// Hears every record of a journal and stores each one's code and minutes (REPLAY-1, REPLAY-2).
#[unsafe(no_mangle)]
pub extern "C" fn desk_replay(sheet: &[u8], journal: &[u8], answers: &mut [u8]) -> u8
    ensures { record { code = result; bytes = answers.new }
        ≡ replayed sheet.now journal.now answers.old }
{
    refusals::code(replay::replay(sheet, journal, answers))
}

// The movement question after a journal: the code, the regime, the lowest turnout lacking a clearance, how many lack
// one, a byte each (REPLAY-3).
#[unsafe(no_mangle)]
pub extern "C" fn desk_movement(sheet: &[u8], journal: &[u8], zone: u8, train: u32) -> u64
    ensures { result ≡ movement_packed (movement_replayed sheet.now journal.now zone train) }
{
    packed::movement_result_packed(replay::replay_movement(sheet, journal, zone, train))
}

// The work question after a journal: the code, and 256 if the turnout is open to work (REPLAY-3).
#[unsafe(no_mangle)]
pub extern "C" fn desk_work(sheet: &[u8], journal: &[u8], turnout: u8) -> u32
    ensures { result ≡ work_packed (work_replayed sheet.now journal.now turnout) }
{
    packed::work_result_packed(replay::replay_work(sheet, journal, turnout))
}

// 0 if the bytes are a journal, else 30 (JOURNAL-2).
#[unsafe(no_mangle)]
pub extern "C" fn desk_journal_check(journal: &[u8]) -> u8
    ensures { result ≡ journal_number journal.now }
{
    refusals::code(journal::check(journal))
}

// How many records a journal holds.
#[unsafe(no_mangle)]
pub extern "C" fn desk_journal_count(journal: &[u8]) -> u32
    ensures { result ≡ counted journal.now }
{
    journal::count(journal)
}

// Record n of a journal: 256 times the place where it starts, or the number that refuses it (JOURNAL-3).
#[unsafe(no_mangle)]
pub extern "C" fn desk_journal_record(journal: &[u8], n: u32) -> u64
    ensures { result ≡ record_packed (record_number journal.now n) n }
{
    match journal::record_at(journal, n) {
        Ok(_) => 256 * (16 + 32 * u64::from(n)),
        Err(refusal) => u64::from(u8::from(refusal)),
    }
}

// Adds a record to a journal (JOURNAL-4).
#[unsafe(no_mangle)]
pub extern "C" fn desk_journal_add(journal: &mut [u8], record: &[u8]) -> u8
    ensures { record { code = result; bytes = journal.new }
        ≡ added journal.old «record».now }
{
    refusals::code(journal::add(journal, record))
}
