// The lines of standard input, one after another. Blank ones and comments are passed over. Blanks are kept as one space between words,
// and none at the line's ends or beside a bar; so fields and words are what stands between bars and spaces.
ghost use Rattle.std.specs.Prelude.{◌≤◌, length};

use crate::area::start;

// How many bytes the next line has, which `room` begins with; none at the input's end. Nothing says that the input ends, so the loop has
// more turns than any run uses up.
pub fn next(room: &mut [u8]) -> Option<usize> {
    let mut n = 0;
    for _ in 0..u64::MAX {
        match read() {
            None => return is_run(start(room, n)).then_some(n),
            Some(b'\n') => {
                if is_run(start(room, n)) {
                    return Some(n);
                }
                n = 0;
            }
            Some(b) => n = pushed(room, n, b),
        }
    }
    None
}

// One byte, so that a line is answered as soon as it has come.
fn read() -> Option<u8> {
    let mut byte = [0];
    if io::read_full(0, &mut byte) == 0 {
        return None;
    }
    Some(byte[0])
}

// Whether the line is to be run: neither one with no bytes nor a comment is.
fn is_run(line: &[u8]) -> bool {
    !matches!(line.first(), None | Some(b'#'))
}

// The line, of n bytes, with one byte more. One that fills the room stays as it is.
fn pushed(line: &mut [u8], n: usize, b: u8) -> usize {
    if line.len() <= n {
        return n;
    }
    if !is_blank(b) {
        let at = joined(&line[..n], b);
        line[at] = b;
        return at + 1;
    }
    if is_parted(&line[..n]) {
        return n;
    }
    line[n] = b' ';
    n + 1
}

fn is_blank(b: u8) -> bool {
    matches!(b, b'\t' | b'\r' | b' ')
}

// Whether no word ends there.
fn is_parted(line: &[u8]) -> bool {
    matches!(line.last(), None | Some(b' ' | b'|'))
}

// Where the byte goes: a bar takes the place of a space in front of it.
fn joined(line: &[u8], b: u8) -> usize
    ensures { result ≤ length line.now }
{
    if b == b'|' {
        trimmed(line).len()
    } else {
        line.len()
    }
}

// Without a space at the end.
fn trimmed(line: &[u8]) -> &[u8]
    ensures { length result.now ≤ length line.now }
{
    line.strip_suffix(b" ").unwrap_or(line)
}

// The line, of n bytes. One that filled the room is too long: it is cut to a byte, and no operation has so short a name.
pub fn whole(room: &[u8], n: usize) -> &[u8] {
    if n < room.len() {
        trimmed(&room[..n])
    } else {
        start(room, 1)
    }
}
