// Tries what the desk program prints (PROGRAM-1, PROGRAM-2), on files with other names: a refused sheet, a refused
// journal, both, files that are not there, an empty journal, a folder in place of a file. The files are in data/; the
// expected lines are in stdout, written from the rules (docs/RULES.md) by hand.
#![tactic(auto)]

use std::io;
use std::rt::Files;

// Writes the name of a case and prints the text of its two files.
fn tried(rt: &(impl Files + Print), name: &str, sheet: &[u8], journal: &[u8]) -> io::Result<()> {
    println!(rt; "{name}:")?;
    printing::print_files(rt, sheet, journal)
}

fn main(rt: HostRuntime) -> io::Result<()> {
    tried(&rt, "both good", b"sheet", b"journal")?;
    tried(&rt, "sheet of 49 bytes", b"sheet-49", b"journal")?;
    tried(&rt, "sheet with another mark", b"sheet-mark", b"journal")?;
    tried(&rt, "journal with another mark", b"sheet", b"journal-mark")?;
    tried(
        &rt,
        "journal cut within its last record",
        b"sheet",
        b"journal-cut",
    )?;
    tried(&rt, "both refused", b"sheet-mark", b"journal-mark")?;
    tried(&rt, "no sheet", b"none", b"journal")?;
    tried(&rt, "no journal", b"sheet", b"none")?;
    tried(&rt, "no files", b"none", b"none")?;
    tried(&rt, "empty journal", b"sheet", b"journal-empty")?;
    tried(&rt, "folder for the sheet", b".", b"journal")?;
    tried(&rt, "folder for the journal", b"sheet", b".")
}
