// What is written for an outcome, piece by piece, to standard output.
use crate::area::start;
use formula::Refusal;

pub fn put(said: &[u8]) {
    io::write_all(1, said);
}

// In decimal, behind one byte.
pub fn number(front: u8, n: usize) {
    put(&[front]);
    io::print_decimal(1, n as u64);
}

// In hex, behind one byte.
pub fn hex(front: u8, n: u64, width: usize) {
    put(&[front]);
    io::print_hex(1, n, width);
}

// For a line that cannot be run.
pub fn malformed() {
    put(b"MALFORMED");
}

// A word, and a number behind it.
fn worded(word: &[u8], n: usize) {
    put(word);
    number(b' ', n);
}

pub fn refused(code: u8) {
    worded(b"REFUSED", usize::from(code));
}

pub fn refused_at(code: u8, place: usize) {
    refused(code);
    worded(b" at", place);
}

pub fn unread(why: Refusal) {
    refused(formula::code_of(why));
    places(why);
}

// A refusal of reading has a place, and that of a binder where it names one.
pub fn places(why: Refusal) {
    worded(b" at", formula::place_of(why));
    match why {
        Refusal::AtByte { .. } => {}
        Refusal::Unguarded { binder_at, .. } => worded(b" from", binder_at),
    }
}

// Bytes in hex, behind a space; a dash stands for none.
pub fn spelled(s: &[u8]) {
    if s.is_empty() {
        put(b" -");
        return;
    }
    put(b" ");
    for b in s {
        io::print_hex(1, u64::from(*b), 2);
    }
}

// How long lead-in and loop are, and how many nodes there are.
pub fn met(stem: usize, cycle: usize, nodes: usize) {
    put(b"MET");
    number(b' ', stem);
    number(b' ', cycle);
    number(b' ', nodes);
}

pub fn not(nodes: usize) {
    worded(b"NOT", nodes);
}

// The letters of lead-in and loop, which are the first in a witness buffer.
pub fn course(letters: &[u16], stem: usize, cycle: usize) {
    for letter in start(letters, stem.saturating_add(cycle)) {
        hex(b' ', u64::from(*letter), 4);
    }
}
