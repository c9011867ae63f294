// `truth | HEX | LEAD-IN | PLACES`: the truth of a formula on a lasso. The outcome is the word of each place in hex, or a refusal. As
// many words are lent as there are places. With `| lent WORDS` behind it so many are, filled with a pattern, and the outcome is followed
// by the truth of the formula and by how many words at the end are as they were.
use lasso::Refusal;
use lines::field::{field, is_lent, lent, letters, number, part};
use lines::{area, say};

// How many places and words there are.
const PLACES: usize = 16384;

// What a line asks for: how long the stem is and how many letters there are, how many words are lent, and whether they are shown
// afterwards.
#[derive(Clone, Copy)]
struct Case {
    stem: usize,
    letters: usize,
    room: usize,
    shown: bool,
}

// A broken line has none.
pub(crate) fn outcome(line: &[u8], s: &[u8]) -> Option<()> {
    let mut places = [0u16; PLACES];
    let mut words = [area::WORD; PLACES];
    let a = asked(&mut places, line)?;
    let letters = area::start(&places, a.letters);
    let truth = lasso::evaluate(s, letters, a.stem, area::lent(&mut words, a.room));
    noted(truth, area::start(&words, a.room), a.letters, a.shown);
    Some(())
}

// A course may have no places, but has its field.
fn asked(places: &mut [u16], line: &[u8]) -> Option<Case> {
    let stem = number(field(line, 2))?;
    let letters = letters(places, part(line, b'|', 3)?)?;
    let said = field(line, 4);
    let [room] = lent(said, [letters])?;
    if PLACES < room {
        return None;
    }
    Some(Case {
        stem,
        letters,
        room,
        shown: is_lent(said),
    })
}

fn noted(truth: Result<bool, Refusal>, words: &[u64], count: usize, shown: bool) {
    told(truth, area::start(words, count));
    if shown {
        note(truth);
        area::note_words(words);
    }
}

fn told(truth: Result<bool, Refusal>, words: &[u64]) {
    match truth {
        Ok(_) => hex_words(words),
        Err(Refusal::Unread(why)) => say::unread(why),
        Err(why) => say::refused(lasso::code_of(why)),
    }
}

// With a space between two.
fn hex_words(words: &[u64]) {
    let Some((first, rest)) = words.split_first() else {
        return;
    };
    io::print_hex(1, *first, 1);
    for word in rest {
        say::hex(b' ', *word, 1);
    }
}

// A refusal tells no truth.
fn note(truth: Result<bool, Refusal>) {
    match truth {
        Ok(true) => say::put(b" | true"),
        Ok(false) => say::put(b" | false"),
        Err(_) => {}
    }
}
