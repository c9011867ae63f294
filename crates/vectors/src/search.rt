// `search | HEX | N M`: the formula is built with N in the lent workspace, and its nodes are searched with M. As much is lent as for
// `decide`, and the outcome is the same: where building is refused with 14 the search finds no nodes and says 36, and 14 is told.
//
// With `| edited RULE K AT VALUE` behind it the formula RULE is built, then byte AT of the workspace is set to VALUE, if so many are lent,
// and the search is handed K. The outcome is what the search says.
//
// With `| lent WORK COURSE` behind either so many bytes and places are lent, filled with patterns, and the outcome is followed by how many
// of the bytes for N nodes are as they were just before the search, from the start on; how many of those behind are zero from their start
// on, and how many at the end are as they were; and how many places at the end are.
use crate::decide::told;
use construction::{Question, Refusal};
use decision::Verdict;
use kinds::capacities;
use lines::field::{begins, bytes, field, numbers, part};
use lines::{area, say};

// What comes between building and searching: the K that the search is handed, which byte is set, and to what.
#[derive(Clone, Copy)]
struct Edit {
    nodes: usize,
    at: usize,
    value: u8,
}

// A broken line has none.
pub(crate) fn outcome(line: &[u8], s: &[u8]) -> Option<()> {
    let mut workspace = area::room();
    let mut letters = [area::LETTER; area::LETTERS];
    let mut kept = io::large_buffer();
    let length = bytes(&mut kept, built_hex(line))?;
    let edit = match edited(line) {
        Some(said) => Some(edit_of(said)?),
        None => None,
    };
    let a = capacities::asked(line, if edit.is_some() { 4 } else { 3 })?;
    let work = area::lent(&mut workspace, a.work);
    let built = construction::build(area::start(&kept, length), a.n, work);
    if let Some(e) = edit {
        set(work, e.at, e.value);
    }
    let before = workspace;
    let answer = decision::search(
        s,
        handed(edit, built),
        a.n,
        a.m,
        area::lent(&mut workspace, a.work),
        area::lent(&mut letters, a.course),
    );
    noted(
        settled(answer, built, edit),
        area::start(&before, nodes_size(a.n, a.work)),
        area::start(&workspace, a.work),
        area::start(&letters, a.course),
        a.shown,
    );
    Some(())
}

// The field that says what comes between, if the line has one.
fn edited(line: &[u8]) -> Option<&[u8]> {
    let said = field(line, 3);
    begins(said, b"edited").then_some(said)
}

// The formula that is built, in hex: that of the edit, or the one that is searched.
fn built_hex(line: &[u8]) -> &[u8] {
    match edited(line) {
        Some(said) => part(said, b' ', 1).unwrap_or(&[]),
        None => field(line, 1),
    }
}

fn edit_of(said: &[u8]) -> Option<Edit> {
    let [nodes, at, value] = numbers::<3>(said, 2)?;
    let value = u8::try_from(value).ok()?;
    Some(Edit { nodes, at, value })
}

// Sets a byte, if the area has it.
fn set(area: &mut [u8], at: usize, value: u8) {
    if let Some(b) = area.get_mut(at) {
        *b = value;
    }
}

// The K that the search is handed: that of the edit, or what building reports.
fn handed(edit: Option<Edit>, built: Result<usize, Refusal>) -> usize {
    match edit {
        Some(e) => e.nodes,
        None => built.unwrap_or(0),
    }
}

// A refusal of building is told in place of 36, which is all that the search can say of it; but not with an edit.
fn settled(
    answer: Result<Verdict, Refusal>,
    built: Result<usize, Refusal>,
    edit: Option<Edit>,
) -> Result<Verdict, Refusal> {
    match (answer, built, edit) {
        (Err(Refusal::No(Question::Built)), Err(why), None) => Err(why),
        _ => answer,
    }
}

// How many of the lent bytes are for nodes.
fn nodes_size(n: usize, work: usize) -> usize {
    if n <= work / construction::NODE_BYTES {
        construction::NODE_BYTES * n
    } else {
        work
    }
}

fn noted(
    answer: Result<Verdict, Refusal>,
    before: &[u8],
    workspace: &[u8],
    letters: &[u16],
    shown: bool,
) {
    told(answer, letters);
    if shown {
        area::note_nodes(before, workspace);
        area::note_bytes(area::rest(workspace, before.len()));
        area::note_letters(letters);
    }
}
