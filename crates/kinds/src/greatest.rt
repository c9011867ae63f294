// `safety | HEX | N`: the decision of a formula whose fixpoints are all greatest. The outcome is the verdict, with the course behind it in
// one line. What 12 and 13 ask is lent, or nothing where 11 refuses. With `| lent WORK COURSE` behind it so many bytes and places are,
// filled with patterns, and the outcome is followed by how many bytes are zero from the start on and how many of each area at its end are
// as they were.
use crate::granted;
use lines::field::{field, is_lent, lent, number};
use lines::{area, say};
use safety::{Refusal, Verdict};

// What a line asks for: N, how much of the two areas is lent, and whether they are shown afterwards.
#[derive(Clone, Copy)]
struct Case {
    n: usize,
    work: usize,
    course: usize,
    shown: bool,
}

// A broken line has none.
pub fn outcome(line: &[u8], s: &[u8]) -> Option<()> {
    let mut workspace = area::room();
    let mut letters = [area::LETTER; area::LETTERS];
    let a = asked(line)?;
    let work = area::lent(&mut workspace, a.work);
    let course = area::lent(&mut letters, a.course);
    let answer = safety::decide_safety(s, a.n, work, course);
    noted(
        answer,
        area::start(&workspace, a.work),
        area::start(&letters, a.course),
        a.shown,
    );
    Some(())
}

fn asked(line: &[u8]) -> Option<Case> {
    let n = number(field(line, 2))?;
    let said = field(line, 3);
    let nodes = granted(n);
    let [work, course] = lent(said, [construction::NODE_BYTES * nodes, nodes])?;
    if area::is_beyond(work, course) {
        return None;
    }
    Some(Case {
        n,
        work,
        course,
        shown: is_lent(said),
    })
}

fn noted(answer: Result<Verdict, Refusal>, workspace: &[u8], letters: &[u16], shown: bool) {
    told(answer, letters);
    area::note_both(workspace, letters, shown);
}

fn told(answer: Result<Verdict, Refusal>, letters: &[u16]) {
    match answer {
        Ok(Verdict::Satisfiable { stem, cycle, nodes }) => {
            say::met(stem, cycle, nodes);
            say::course(letters, stem, cycle);
        }
        Ok(Verdict::Unsatisfiable(nodes)) => say::not(nodes),
        Err(Refusal::Unread(why)) => say::unread(why),
        Err(Refusal::LeastAt(place)) => say::refused_at(43, place),
        Err(Refusal::No(question)) => say::refused(construction::question_code(question)),
    }
}
