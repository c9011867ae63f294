// What the kinds of line have in common that decide with room for N nodes and M profiles: the fields `N M` and `lent WORK COURSE`, and
// MET and NOT with P.
use lines::area::is_beyond;
use lines::field::{field, is_lent, lent, numbers};
use lines::say;

// What a line asks for: N and M, how much of the two areas is lent, and whether they are shown afterwards.
#[derive(Clone, Copy)]
pub struct Case {
    pub n: usize,
    pub m: usize,
    pub work: usize,
    pub course: usize,
    pub shown: bool,
}

// What the line asks for, where the field in this place may say how much is lent. A broken line asks for nothing, and so does one that
// asks for more than there is.
pub fn asked(line: &[u8], place: usize) -> Option<Case> {
    let [n, m] = numbers::<2>(field(line, 2), 0)?;
    let said = field(line, place);
    let otherwise = [decision::workspace_size(n, m), decision::witness_size(n, m)];
    let [work, course] = lent(said, otherwise)?;
    if is_beyond(work, course) {
        return None;
    }
    Some(Case {
        n,
        m,
        work,
        course,
        shown: is_lent(said),
    })
}

// The sizes, and the course behind them.
pub fn met(stem: usize, cycle: usize, nodes: usize, profiles: usize, letters: &[u16]) {
    say::met(stem, cycle, nodes);
    say::number(b' ', profiles);
    say::course(letters, stem, cycle);
}

pub fn not(nodes: usize, profiles: usize) {
    say::not(nodes);
    say::number(b' ', profiles);
}
