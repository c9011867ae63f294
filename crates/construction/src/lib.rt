// Building: the nodes of a formula in a lent workspace, so that they can be searched again and again; and whether a workspace has them.
#![tactic(auto)]

ghost use Rattle.std.specs.Prelude.{◌≡◌, true, ◌*◌, ◌≤◌, length};
ghost use Rattle.tableau.specs.Operators.{operators};
ghost use Rattle.tableau.specs.Area.{NodeRoom};
ghost use Rattle.tableau.specs.Origins.{Origins};
ghost use Rattle.construction.specs.declared.Refusal.TheVariants.{Unread, No};
ghost use Rattle.construction.specs.Questions.{question_code};
ghost use Rattle.construction.specs.Construction.{between, are_nodes};
ghost use Rattle.construction.specs.Contract.{Constructed};
ghost use Rattle.construction.specs.Inner.{Settled};

use tableau::Tableau;

// The questions after reading that an operation with lent room may answer by no.
#[derive(Clone, Copy, PartialEq, Eq, Debug)]
pub enum Question {
    // 11: the capacities are in range.
    Capacity,
    // 12: the workspace is large enough.
    Workspace,
    // 13: so is the witness buffer.
    Buffer,
    // 14: there is room for the nodes.
    Nodes,
    // 15: there is room for the profiles.
    Profiles,
    // 36: the workspace has the nodes.
    Built,
}

// The number of the question: MEANING 5.2 and 5.12.
pub fn question_code(q: Question) -> u8
    ensures { result ≡ question_code q }
{
    match q {
        Question::Capacity => 11,
        Question::Workspace => 12,
        Question::Buffer => 13,
        Question::Nodes => 14,
        Question::Profiles => 15,
        Question::Built => 36,
    }
}

// Why an operation with lent room refuses: the formula is not read, or the answer to a question is no.
#[derive(Clone, Copy, PartialEq, Eq, Debug)]
pub enum Refusal {
    Unread(formula::Refusal),
    No(Question),
}

impl From<formula::Refusal> for Refusal {
    ghost from_gives = { λ why r. r ≡ Unread why };

    fn from(why: formula::Refusal) -> Refusal {
        Refusal::Unread(why)
    }
}

impl From<Question> for Refusal {
    ghost from_gives = { λ q r. r ≡ No q };

    fn from(q: Question) -> Refusal {
        Refusal::No(q)
    }
}

// What question 11 grants at most.
pub const MAX_NODES: usize = 1024;

// The bytes of workspace that question 12 asks for each node.
pub const NODE_BYTES: usize = 8;

pub fn between(low: usize, high: usize, n: usize) -> bool
    ensures { result ≡ between low high n }
{
    (low..=high).contains(&n)
}

// Question 36: whether so many nodes and the first bytes of the area are what building leaves for the formula. The nodes are worked out in
// room of its own, with notes on where each was found from.
pub fn are_nodes(
    t: &Tableau,
    nodes: usize,
    node_capacity: usize,
    area: &[u8],
    origins: &mut [u16],
) -> bool
    requires node_room { NodeRoom 1 node_capacity (length area.now) }
    requires node_capacity_in_bounds { 2 * node_capacity ≤ length origins.old }
    ensures value { result ≡ are_nodes nodes node_capacity area.now (operators t.now) }
    ensures origins { result ≡ true → Origins (operators t.now) origins.new nodes }
{
    let mut own = [0u8; 8192];
    let Some(known) = t.nodes(&mut own, node_capacity, origins) else {
        return false;
    };
    let size = NODE_BYTES * node_capacity;
    nodes == known && area[..size] == own[..size]
}

// The questions after reading, in their order, and the nodes.
fn ask_room(t: &Tableau, node_capacity: usize, workspace: &mut [u8]) -> Result<usize, Refusal>
    ensures { Settled (operators t.now) node_capacity workspace.old workspace.new result }
{
    if !between(1, MAX_NODES, node_capacity) {
        return Err(Refusal::No(Question::Capacity));
    }
    let asked = NODE_BYTES * node_capacity;
    if workspace.len() < asked {
        return Err(Refusal::No(Question::Workspace));
    }
    tableau::clear(workspace, 0, asked);
    let mut origins = [0u16; 2048];
    let Some(nodes) = t.nodes(workspace, node_capacity, &mut origins) else {
        tableau::clear(workspace, 0, asked);
        return Err(Refusal::No(Question::Nodes));
    };
    Ok(nodes)
}

// Puts the nodes of the formula in the bytes into the workspace's first bytes, with room for so many.
pub fn build(bytes: &[u8], node_capacity: usize, workspace: &mut [u8]) -> Result<usize, Refusal>
    ensures { Constructed bytes.now node_capacity workspace.old workspace.new result }
{
    let t = Tableau::new(formula::read(bytes)?);
    ask_room(&t, node_capacity, workspace)
}
