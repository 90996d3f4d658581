// Reading a file of the working folder into a buffer. A file that cannot be opened, or of which any read fails, counts
// as empty (PROGRAM-2 of docs/RULES.md); a folder opens and then fails to read. A name that is not UTF-8 is one that
// cannot be opened.
#![tactic(auto)]

ghost use Rattle.std.specs.Prelude.{◌≤◌, length, IfOk};
ghost use Rattle.files.specs.Counts.{IsPrefixLen};

use std::io::Read;
use std::rt::Files;
use std::{fs, io};

// Reads an open file until it ends or the buffer is full, and says how many bytes of the buffer are the file's.
fn read_all<R: Read>(reader: &mut R, buf: &mut [u8]) -> io::Result<usize>
    ensures { IfOk result (λ n. n ≤ length buf.new) }
{
    let mut done: usize = 0;
    // a `while`: a read takes as many bytes as it likes, and std's own loops over it say too little after an error
    while done < buf.len() {
        let n = reader.read(&mut buf[done..])?;
        if n == 0 {
            break;
        }
        done += n;
    }
    Ok(done)
}

// Reads the file of that name, as far as the buffer holds it, and says how many bytes of the buffer, from its start on,
// are the file's.
pub fn read_file<R: Files>(rt: &R, name: &[u8], buf: &mut [u8]) -> usize
    ensures { IsPrefixLen result buf.new }
{
    let Ok(path) = str::from_utf8(name) else {
        return 0;
    };
    let Ok(mut file) = fs::open(rt, path) else {
        return 0;
    };
    read_all(&mut file, buf).unwrap_or(0)
}
