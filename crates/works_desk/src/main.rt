// The desk program (PROGRAM-1 and PROGRAM-2 of docs/RULES.md): reads the files `sheet` and `journal` of its working
// folder, hears every record of the journal, and prints a line for each: its number from 1, the code, the minutes. A
// refused sheet, else a refused journal, prints its number alone. The text is `desk_text`'s.
#![tactic(auto)]

use std::io;

fn main(rt: HostRuntime) -> io::Result<()> {
    printing::print_files(&rt, b"sheet", b"journal")
}
