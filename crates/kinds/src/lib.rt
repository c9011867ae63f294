// Kinds of line of the test runner that are checked apart from the program: a module each with a function `outcome`, and `capacities` with
// what several have in common.
#![tactic(auto)]

pub mod capacities;
pub mod edits;
pub mod greatest;
pub mod sets;
pub mod sheets;

ghost use Rattle.std.specs.Prelude.{◌≤◌};

use construction::Refusal;
use lines::say;

// A refusal of building, of the decision or of a search.
pub fn refused(why: Refusal) {
    match why {
        Refusal::Unread(why) => say::unread(why),
        Refusal::No(question) => say::refused(construction::question_code(question)),
    }
}

// For how many nodes room is lent where a line does not say how much: for none where 11 refuses.
pub fn granted(nodes: usize) -> usize
    ensures { result ≤ 1024 }
{
    if nodes <= construction::MAX_NODES {
        nodes
    } else {
        0
    }
}
