// `set | SHEET | N M`: whether one course meets all formulas of a catalogue. The outcome is the verdict of their conjunction, with the
// course behind it in one line after MET, and with the positions of a core behind it after NOT; or the refusal, of 30 with the place of the
// fault, of 1 to 9 with the position of the formula behind it, of 35 with the positions of those that were tried. What 12 and 13 ask is
// lent, or nothing where 11 refuses. With `| lent WORK COURSE` behind it so many bytes and places are, filled with patterns, and the
// outcome is followed by how many bytes are zero from the start on and how many of each area at its end are as they were.
use crate::capacities;
use joint::{Refusal, Verdict};
use lines::{area, say};

// A broken line has none.
pub fn outcome(line: &[u8], s: &[u8]) -> Option<()> {
    let mut workspace = area::room();
    let mut letters = [area::LETTER; area::LETTERS];
    let a = capacities::asked(line, 3)?;
    let work = area::lent(&mut workspace, a.work);
    let course = area::lent(&mut letters, a.course);
    let answer = joint::decide_all(s, a.n, a.m, work, course);
    noted(
        answer,
        area::start(&workspace, a.work),
        area::start(&letters, a.course),
        a.shown,
    );
    Some(())
}

fn noted(answer: Result<Verdict, Refusal>, workspace: &[u8], letters: &[u16], shown: bool) {
    told(answer, letters);
    area::note_both(workspace, letters, shown);
}

fn told(answer: Result<Verdict, Refusal>, letters: &[u16]) {
    let code = joint::code_of(answer);
    match answer {
        Ok(
            Verdict::Satisfiable {
                stem,
                cycle,
                nodes,
                profiles,
            },
        ) => capacities::met(stem, cycle, nodes, profiles, letters),
        Ok(
            Verdict::Unsatisfiable {
                nodes,
                profiles,
                core,
            },
        ) => {
            capacities::not(nodes, profiles);
            positions(core);
        }
        Err(Refusal::Damaged(place)) => say::refused_at(code, place),
        Err(Refusal::Unread { position, why }) => {
            say::unread(why);
            say::put(b" of");
            say::number(b' ', position);
        }
        Err(Refusal::Untried(tried)) => {
            say::refused(code);
            positions(tried);
        }
        Err(Refusal::Miscounted | Refusal::No(_)) => say::refused(code),
    }
}

// The positions in a subset: bit i of its word is for position i.
fn positions(subset: u8) {
    for i in 0..joint::MAX_FORMULAS {
        if subset >> i & 1 == 1 {
            say::number(b' ', i);
        }
    }
}
