// Asks `signals::judge` one question for each sentence of SIGNAL-1 to SIGNAL-10 (docs/RULES.md) and for each flag that
// matters there, and prints a line for each: line, signal, flags, code, verdict. The expected lines are in `stdout`,
// written from these rules by hand.
#![tactic(auto)]

use std::io;

// The questions: line, signal, flags. Flags: 1 held, 2 day, 4 SSC fitted, 8 ensured, 16 lights touched, 32 cannot
// light wrongly.
const CASES: [[u8; 3]; 79] = [
    // SIGNAL-4: "Line 1 signal 5: 6", before all else: held, by day, with lights touched
    [1, 5, 0],
    [1, 5, 1],
    [1, 5, 2],
    [1, 5, 16],
    [1, 5, 17],
    // SIGNAL-5: "Else lights touched and (line 3 ..": with flag 32, even if held
    [3, 0, 48],
    [3, 0, 49],
    [3, 5, 51],
    // SIGNAL-5: ".. or not flag 32): 5", even if held, by day, or where the verdict is otherwise 4
    [1, 0, 17],
    [1, 0, 18],
    [2, 0, 17],
    [2, 5, 16],
    [3, 0, 17],
    // lights touched that cannot light wrongly change nothing on lines 1 and 2
    [1, 0, 49],
    [1, 0, 50],
    [2, 0, 49],
    [2, 5, 48],
    // SIGNAL-6: "Else held: 1": on each line, by night and by day, with SSC not ensured, with flag 32 alone
    [1, 0, 1],
    [1, 2, 3],
    [1, 1, 5],
    [1, 0, 33],
    [2, 0, 1],
    [2, 5, 1],
    [3, 0, 1],
    [3, 5, 1],
    [3, 0, 33],
    // SIGNAL-7: "Else line 3: 5": by night and by day, and signal 5 exists there
    [3, 0, 0],
    [3, 0, 2],
    [3, 2, 2],
    [3, 5, 0],
    [3, 5, 2],
    // SIGNAL-8: line 1 "by day, with SSC absent ..": each signal; signals 1 and 2 are station K's
    [1, 0, 2],
    [1, 1, 2],
    [1, 2, 2],
    [1, 3, 2],
    [1, 4, 2],
    // flag 8 without flag 4: SSC is absent
    [1, 0, 10],
    [1, 2, 10],
    // ".. or ensured"
    [1, 1, 14],
    [1, 3, 14],
    // SIGNAL-8: "failing that 5": SSC not ensured; by night, also with SSC ensured
    [1, 4, 6],
    [1, 2, 6],
    [1, 0, 0],
    [1, 1, 0],
    [1, 2, 0],
    [1, 3, 0],
    [1, 4, 0],
    [1, 0, 12],
    // SIGNAL-8: "and line 2 signals 2 and 3": SSC absent, flag 8 alone, ensured, not ensured, by night
    [2, 2, 2],
    [2, 3, 2],
    [2, 2, 10],
    [2, 2, 14],
    [2, 3, 14],
    [2, 2, 6],
    [2, 3, 6],
    [2, 2, 0],
    [2, 3, 0],
    // SIGNAL-9: "Line 2 signal 5: 4": by day and by night, with SSC not ensured and ensured
    [2, 5, 2],
    [2, 5, 0],
    [2, 5, 6],
    [2, 5, 4],
    [2, 5, 14],
    // SIGNAL-9: "others 5": by day and by night; signal 1 by day is station K's
    [2, 0, 2],
    [2, 1, 2],
    [2, 4, 2],
    [2, 4, 14],
    [2, 0, 0],
    // the last flags in range
    [1, 0, 63],
    [3, 5, 63],
    // SIGNAL-2: "33: line, signal or flags (above 63) out of range", "verdict 0"
    [0, 0, 0],
    [4, 0, 0],
    [255, 0, 0],
    [1, 6, 0],
    [1, 255, 0],
    [1, 0, 64],
    [1, 5, 64],
    [1, 0, 255],
    [0, 6, 64],
    [255, 255, 255],
];

fn main(rt: HostRuntime) -> io::Result<()> {
    for [line, signal, flags] in CASES {
        let answer = signals::judge(line, signal, flags);
        let verdict = answer.map_or(0, u8::from);
        println!(rt;
            "{line} {signal} {flags} {} {verdict}",
            refusals::code(answer)
        )?;
    }
    Ok(())
}
