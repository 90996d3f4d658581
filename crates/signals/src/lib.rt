// Works on signals (SIGNAL-1 to SIGNAL-10 of docs/RULES.md; Art. 3.5, 3.6, 3.13): which works are allowed on a signal,
// from the kind of line, the signal and what is known of it. The verdicts are a constant table; the rule that it holds
// is in specs/Signals.antt.
#![tactic(auto)]

ghost use Rattle.std.specs.Prelude.{◌≡◌};
ghost use Rattle.signals.specs.Answer.{answer_of, judged, number_of, Decodes};

mod table;

use refusals::Refusal;
use table::VERDICTS;

// The verdicts 1 to 6 (SIGNAL-3).
#[derive(Clone, Copy, Debug, PartialEq, Eq)]
pub enum Verdict {
    AtDanger,
    Dark,
    DarkBlockOut,
    AnyAspectBlockOut,
    ClosureOnly,
    NoSuchSignal,
}

impl From<Verdict> for u8 {
    ghost from_gives = { λ v n. n ≡ number_of v };

    // The number of SIGNAL-3.
    fn from(verdict: Verdict) -> u8 {
        match verdict {
            Verdict::AtDanger => 1,
            Verdict::Dark => 2,
            Verdict::DarkBlockOut => 3,
            Verdict::AnyAspectBlockOut => 4,
            Verdict::ClosureOnly => 5,
            Verdict::NoSuchSignal => 6,
        }
    }
}

impl TryFrom<u8> for Verdict {
    type Error = Refusal;

    ghost try_from_gives = { Decodes };

    // The verdict that has this number of SIGNAL-3; out of range if none has.
    fn try_from(number: u8) -> Result<Self, Refusal> {
        match number {
            1 => Ok(Verdict::AtDanger),
            2 => Ok(Verdict::Dark),
            3 => Ok(Verdict::DarkBlockOut),
            4 => Ok(Verdict::AnyAspectBlockOut),
            5 => Ok(Verdict::ClosureOnly),
            6 => Ok(Verdict::NoSuchSignal),
            _ => Err(Refusal::OutOfRange),
        }
    }
}

// The verdict for works on a signal of a line. Refused by 33 for a line, a signal or flags out of range (SIGNAL-2),
// which stay numbers, so that the rule can answer those.
pub fn judge(line: u8, signal: u8, flags: u8) -> Result<Verdict, Refusal>
    ensures { answer_of result ≡ judged line signal flags }
{
    if line < 1 || line > 3 || signal > 5 || flags > 63 {
        return Err(Refusal::OutOfRange);
    }
    let at = ((line as usize - 1) * 6 + signal as usize) * 64 + flags as usize;
    Verdict::try_from(VERDICTS[at])
}
