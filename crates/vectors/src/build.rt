// `build | HEX | N`: building. The outcome is K, with the nodes behind it as words in hex, or the refusal. The 8 N bytes that 12 asks are
// lent, or none where 11 refuses. With `| lent WORK` behind it so many are, filled with a pattern, and the outcome is followed by how many
// bytes are zero from the start on and how many at the end are as they were.
use construction::Refusal;
use kinds::{granted, refused};
use lines::field::{field, is_lent, lent, number};
use lines::{area, say};

// What a line asks for: N, how many bytes are lent, and whether they are shown afterwards.
#[derive(Clone, Copy)]
struct Case {
    n: usize,
    work: usize,
    shown: bool,
}

// A broken line has none.
pub(crate) fn outcome(line: &[u8], s: &[u8]) -> Option<()> {
    let mut workspace = area::room();
    let a = asked(line)?;
    let built = construction::build(s, a.n, area::lent(&mut workspace, a.work));
    noted(built, area::start(&workspace, a.work), a.shown);
    Some(())
}

fn asked(line: &[u8]) -> Option<Case> {
    let n = number(field(line, 2))?;
    let said = field(line, 3);
    let [work] = lent(said, [construction::NODE_BYTES * granted(n)])?;
    if area::is_beyond(work, 0) {
        return None;
    }
    Some(Case {
        n,
        work,
        shown: is_lent(said),
    })
}

fn noted(built: Result<usize, Refusal>, workspace: &[u8], shown: bool) {
    told(built, workspace);
    if shown {
        area::note_bytes(workspace);
    }
}

fn told(built: Result<usize, Refusal>, workspace: &[u8]) {
    match built {
        Ok(nodes) => {
            say::put(b"BUILT");
            say::number(b' ', nodes);
            hex_nodes(workspace, nodes);
        }
        Err(why) => refused(why),
    }
}

fn hex_nodes(area: &[u8], nodes: usize) {
    for node in area.chunks_exact(construction::NODE_BYTES).take(nodes) {
        say::hex(b' ', base::number_at(node, 0, construction::NODE_BYTES), 1);
    }
}
