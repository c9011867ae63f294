// The areas that are lent, with a pattern in them beforehand; behind the outcome stands what is so afterwards.
ghost use Rattle.std.specs.Prelude.{◌≡◌, length};

use crate::say::{number, put};

// The patterns of bytes, of letters (beef in hex), and of words, 2 ^ 63, which is no truth word.
pub const BYTE: u8 = 165;

pub const LETTER: u16 = 48879;

pub const WORD: u64 = 9223372036854775808;

// How many bytes and letters there are.
pub const BYTES: usize = 800000;

pub const LETTERS: usize = 8192;

// All that can be lent as a workspace. The `ensures` gives only the length.
pub fn room() -> [u8; BYTES]
    ensures { BYTES ≡ length result }
{
    [BYTE; BYTES]
}

// Whether more is asked for than there is.
pub fn is_beyond(work: usize, course: usize) -> bool {
    BYTES < work || LETTERS < course
}

// The first n, or as many as there are.
pub fn start<T>(s: &[T], n: usize) -> &[T] {
    &s[..n.min(s.len())]
}

// The same, to be written.
pub fn lent<T>(s: &mut [T], n: usize) -> &mut [T] {
    let end = n.min(s.len());
    &mut s[..end]
}

// Those behind the first n, where there are so many.
pub fn rest<T>(s: &[T], n: usize) -> &[T] {
    &s[n.min(s.len())..]
}

// How many bytes are zero from the start on.
pub fn zeros(area: &[u8]) -> usize {
    area.iter().take_while(|b| **b == 0).count()
}

// How many at the end are as they were.
fn kept<T: Copy + Eq>(area: &[T], pattern: T) -> usize {
    area.iter().rev().take_while(|x| **x == pattern).count()
}

// How many bytes from the start on are as before.
fn alike(before: &[u8], area: &[u8]) -> usize {
    before.iter().zip(area).take_while(|(a, b)| a == b).count()
}

// The notes behind an outcome: how many bytes are zero from the start on, how many at the end are as they were, and how many were lent.
pub fn note_bytes(area: &[u8]) {
    put(b" | work: zero");
    number(b' ', zeros(area));
    put(b", kept");
    of(kept(area, BYTE), area.len());
}

// How many bytes behind those of an outcome are zero, from the first on, and how many there are.
pub fn note_rest(area: &[u8]) {
    put(b" | rest: zero");
    of(zeros(area), area.len());
}

// How many of the bytes at the area's start are as before, from the first on, and how many there were.
pub fn note_nodes(before: &[u8], area: &[u8]) {
    put(b" | nodes: kept");
    of(alike(before, area), before.len());
}

pub fn note_letters(area: &[u16]) {
    put(b" | course: kept");
    of(kept(area, LETTER), area.len());
}

// The notes on both areas, where they are to be shown.
pub fn note_both(workspace: &[u8], letters: &[u16], shown: bool) {
    if shown {
        note_bytes(workspace);
        note_letters(letters);
    }
}

pub fn note_words(area: &[u64]) {
    put(b" | words: kept");
    of(kept(area, WORD), area.len());
}

fn of(some: usize, all: usize) {
    number(b' ', some);
    put(b" of");
    number(b' ', all);
}
