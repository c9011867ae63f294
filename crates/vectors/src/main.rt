// Runs lines of vectors from standard input and writes what each comes to. A line has an operation and its inputs, parted by bars; what
// stands behind the last of them is passed over. A kind of line is a module with a function `outcome`, here or in `kinds`, and a name in
// `outcome`.
#![tactic(auto)]

mod build;
mod decide;
mod read;
mod search;
mod truth;

use kinds::{edits, greatest, sets, sheets};
use lines::area::start;
use lines::field::{bytes, field};
use lines::{line, say};

// Nothing says that the input ends, so the loop has more turns than any run uses up.
fn main() {
    let mut room = io::large_buffer();
    for _ in 0..u64::MAX {
        let Some(n) = line::next(&mut room) else {
            return;
        };
        if outcome(line::whole(&room, n)).is_none() {
            say::malformed();
        }
        say::put(b"\n");
    }
}

// The first input of every operation is bytes in hex. A broken line has no outcome.
fn outcome(line: &[u8]) -> Option<()> {
    let mut kept = io::large_buffer();
    let n = bytes(&mut kept, field(line, 1))?;
    let s = start(&kept, n);
    match field(line, 0) {
        b"read" => read::outcome(s),
        b"truth" => truth::outcome(line, s),
        b"decide" => decide::outcome(line, s),
        b"build" => build::outcome(line, s),
        b"search" => search::outcome(line, s),
        b"safety" => greatest::outcome(line, s),
        b"sheet" => sheets::outcome(line, s),
        b"set" => sets::outcome(line, s),
        b"edit" => edits::outcome(line, s),
        _ => None,
    }
}
