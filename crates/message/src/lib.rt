// Messages of the works desk and their 32-byte records (RECORD-1 to RECORD-6 of docs/RULES.md): the field rules,
// reading and writing. The rules are in specs/: Fields.antt has the table's column of fields, Record.antt the layout
// and both answers.
#![tactic(auto)]

ghost use Rattle.std.specs.Prelude.{◌≡◌};
ghost use Rattle.refusals.specs.Numbers.{code_of};
ghost use Rattle.message.specs.Fields.{field_number};
ghost use Rattle.message.specs.Record.{reading_of, read_record, written};

mod fields;
mod kind;
mod layout;

pub use kind::Kind;
use refusals::{Refusal, refuse_if};

// The length of a record in bytes.
pub const RECORD: usize = 32;

// A message: kind, zone, time in seconds, form number or train, two turnout sets, six details (RECORD-1). Its kind
// stays a byte, as its details do: a message of any kind and detail is answered (11, 13).
#[derive(Clone, Copy, Debug, PartialEq, Eq)]
pub struct Message {
    pub a: u64,
    pub b: u64,
    pub time: u32,
    pub id: u32,
    pub kind: u8,
    pub zone: u8,
    pub d0: u8,
    pub d1: u8,
    pub d2: u8,
    pub d3: u8,
    pub d4: u8,
    pub d5: u8,
}

// Refuses a message that does not keep the field rules: by 11 for its kind, then by 13 for a field (RECORD-4).
#[tactic(auto, using(crate::proofs::Numbers::is_number), // the kinds are the numbers from 1 to 13
unfolding(crate::specs::Fields::field_number, crate::specs::Fields::fields_kept))]
pub fn check_fields(m: Message) -> Result<(), Refusal>
    ensures { code_of result ≡ field_number m }
{
    let kind = Kind::try_from(m.kind)?;
    if !fields::fields_kept(kind, m) {
        return Err(Refusal::BadField);
    }
    Ok(())
}

// Reads a record. Refused by 10, 11, 13, in that order (RECORD-4).
#[tactic(auto, unfolding(crate::specs::Record::read_record))]
pub fn read_record(s: &[u8]) -> Result<Message, Refusal>
    ensures { reading_of result ≡ read_record s.now }
{
    refuse_if(s.len() != RECORD, Refusal::NotARecord)?;
    let m = layout::decode(s);
    check_fields(m)?;
    Ok(m)
}

// Writes a message as a record into the buffer. Refused by 10 for a buffer that is not 32 bytes, then by 13 for a
// message that no record carries; the buffer then stays as it was (RECORD-5).
#[tactic(auto, using(crate::proofs::RoundTrips::writing), unfolding(crate::specs::Record::written))]
pub fn write_record(m: Message, s: &mut [u8]) -> Result<(), Refusal>
    ensures { record { code = code_of result; bytes = s.new } ≡ written m s.old }
{
    refuse_if(s.len() != RECORD, Refusal::NotARecord)?;
    check_fields(m).or(Err(Refusal::BadField))?;
    layout::encode(m, s);
    Ok(())
}
