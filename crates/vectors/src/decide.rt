// `decide | HEX | N M`: the decision. The outcome is the verdict, with the course behind it in one line. What 12 and 13 ask is lent, or
// nothing where 11 refuses. With `| lent WORK COURSE` behind it so many bytes and places are, filled with patterns, and the outcome is
// followed by how many bytes are zero from the start on and how many of each area at its end are as they were.
use construction::Refusal;
use decision::Verdict;
use kinds::{capacities, refused};
use lines::{area, say};

// A broken line has none.
pub(crate) fn outcome(line: &[u8], s: &[u8]) -> Option<()> {
    let mut workspace = area::room();
    let mut letters = [area::LETTER; area::LETTERS];
    let a = capacities::asked(line, 3)?;
    let work = area::lent(&mut workspace, a.work);
    let course = area::lent(&mut letters, a.course);
    let answer = decision::decide(s, a.n, a.m, work, course);
    noted(
        answer,
        area::start(&workspace, a.work),
        area::start(&letters, a.course),
        a.shown,
    );
    Some(())
}

fn noted(answer: Result<Verdict, Refusal>, workspace: &[u8], letters: &[u16], shown: bool) {
    told(answer, letters);
    area::note_both(workspace, letters, shown);
}

pub(crate) fn told(answer: Result<Verdict, Refusal>, letters: &[u16]) {
    match answer {
        Ok(
            Verdict::Satisfiable {
                stem,
                cycle,
                nodes,
                profiles,
            },
        ) => capacities::met(stem, cycle, nodes, profiles, letters),
        Ok(Verdict::Unsatisfiable { nodes, profiles }) => capacities::not(nodes, profiles),
        Err(why) => refused(why),
    }
}
