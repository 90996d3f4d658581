// The answer to a record and those to the two questions, packed in one number each, for callers in C or Rust. The
// packing is in specs/Packed.antt; that every value comes back, in specs/Unpacked.antt and proofs/Unpacked.antt.
#![tactic(auto)]

ghost use Rattle.std.specs.Prelude.{◌≡◌};
ghost use Rattle.desk.specs.Questions.{movement_answer_of, work_answer_of};
ghost use Rattle.packed.specs.Packed.{answer_packed, movement_packed, work_packed};

use desk::MovementState;
use refusals::Refusal;
use zone::Regime;

// What stands for the lowest turnout where none lacks a clearance (ASK-1).
const NO_TURNOUT: u32 = 255;

// The answer to a record: the code in the lowest byte, the minutes above it. Of every code, as `answer_packed` says.
pub fn answer_packed(code: u8, minutes: u32) -> u64
    ensures { result ≡ answer_packed code minutes }
{
    u64::from(code) + 256 * u64::from(minutes)
}

// The numbers of an answer to the movement question, a byte each: the code, the regime, the lowest turnout lacking a
// clearance, how many lack one. Of every code and every turnout, as its rule says.
pub fn movement_packed(code: u8, regime: Regime, lowest: u32, count: u32) -> u64
    ensures { result
        ≡ movement_packed (record { code = code; regime = regime; lowest = lowest; count = count }) }
{
    u64::from(code)
        + 256 * u64::from(u8::from(regime))
        + 65536 * u64::from(lowest)
        + 16777216 * u64::from(count)
}

// The same of what the movement question gives.
pub fn movement_result_packed(answer: Result<MovementState, Refusal>) -> u64
    ensures { result ≡ movement_packed (movement_answer_of answer) }
{
    match answer {
        Ok(state) => {
            let lowest = state.lowest.unwrap_or(NO_TURNOUT);
            movement_packed(0, state.regime, lowest, state.count)
        }
        Err(refusal) => movement_packed(u8::from(refusal), Regime::Held, NO_TURNOUT, 0),
    }
}

// The numbers of an answer to the work question: the code, and 256 if the turnout is open to work. Of every code, as
// its rule says.
pub fn work_packed(code: u8, yes: bool) -> u32
    ensures { result ≡ work_packed (record { code = code; yes = yes }) }
{
    u32::from(code) + 256 * u32::from(yes)
}

// The same of what the work question gives.
pub fn work_result_packed(answer: Result<bool, Refusal>) -> u32
    ensures { result ≡ work_packed (work_answer_of answer) }
{
    match answer {
        Ok(open) => work_packed(0, open),
        Err(refusal) => work_packed(u8::from(refusal), false),
    }
}
