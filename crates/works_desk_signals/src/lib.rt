// What the level Line adds to the static library `works_desk_journal`: the verdicts for works on signals (SIGNAL-1 to
// SIGNAL-10 of docs/RULES.md), as a number for C.
#![tactic(auto)]

ghost use Rattle.std.specs.Prelude.{◌≡◌};
ghost use Rattle.signals.specs.Answer.{judged};
ghost use Rattle.works_desk_signals.specs.Packed.{verdict_packed};

// The verdict for works on a signal: the code, and 256 times the verdict.
#[unsafe(no_mangle)]
pub extern "C" fn desk_verdict(line: u8, signal: u8, flags: u8) -> u32
    ensures { result ≡ verdict_packed (judged line signal flags) }
{
    match signals::judge(line, signal, flags) {
        Ok(verdict) => packing::two_packed(0, u8::from(verdict)),
        Err(refusal) => packing::two_packed(u8::from(refusal), 0),
    }
}
