// The decision: whether any lasso meets a formula, with the first of the shortest witnesses (MEANING 5.4); and the same as a search over
// nodes that were built before.
#![tactic(auto)]

ghost use Rattle.std.specs.Prelude.{◌≡◌, ◌≤◌, ◌<◌, length, Some, OnOk, IfErr};
ghost use Rattle.tableau.specs.Operators.{operators};
ghost use Rattle.construction.specs.Construction.{nodes_size};
ghost use Rattle.decision.specs.Verdict.{within_capacity, workspace_size, witness_size, decide};
ghost use Rattle.decision.specs.Lends.{Lends, ToLend};
ghost use Rattle.decision.specs.Contract.{Decided, Searched};
ghost use Rattle.decision.specs.Inner.{Decoded, StorePlaced, Ready, Told, onward, RefusedBy, NodesReady, CameTo};

use construction::{Question, Refusal};
use cycle_search::Sought;
use profile_search::Store;
use tableau::Tableau;
use traces::RankedTableau;

// What the decision finds: how long the stem and the cycle of a witness are, or that there is none; with the number of nodes, and of the
// profiles that were counted.
#[derive(Clone, Copy, PartialEq, Eq, Debug)]
pub enum Verdict {
    Satisfiable {
        stem: usize,
        cycle: usize,
        nodes: usize,
        profiles: usize,
    },
    Unsatisfiable {
        nodes: usize,
        profiles: usize,
    },
}

// What question 11 grants at most.
pub const MAX_PROFILES: usize = 4096;

// The bytes of workspace that question 12 asks for each profile.
pub const PROFILE_BYTES: usize = 192;

// Question 11: whether the capacities are in range.
pub fn within_capacity(n: usize, m: usize) -> bool
    ensures { result ≡ within_capacity n m }
{
    construction::between(1, construction::MAX_NODES, n)
        && construction::between(1, MAX_PROFILES, m)
}

// Question 12: how many bytes of workspace are to be lent; 0 where 11 refuses.
pub fn workspace_size(n: usize, m: usize) -> usize
    ensures { ToLend n m (workspace_size n m) result }
{
    if within_capacity(n, m) {
        construction::NODE_BYTES * n + PROFILE_BYTES * m
    } else {
        0
    }
}

// Question 13: how many letters of a witness buffer are to be lent; 0 where 11 refuses.
pub fn witness_size(n: usize, m: usize) -> usize
    ensures { ToLend n m (witness_size n m) result }
{
    if within_capacity(n, m) { n + m } else { 0 }
}

// The answer to what the search came to: with an accepting profile the stem to its first node is written, and then its letters.
fn answered(
    origins: &[u16],
    area: &[u8],
    store: Store,
    nodes: usize,
    found: Sought,
    letters: &mut [u16],
) -> Result<Verdict, Refusal>
    requires { Ready origins.now store area.now (length letters.old) (Some found) }
    ensures { Told origins.now store area.now nodes (Some found) letters.old letters.new result }
{
    match found {
        Sought::Nowhere(profiles) => Ok(Verdict::Unsatisfiable { nodes, profiles }),
        Sought::Accepting { profile, count } => {
            let w = witness::write(origins, area, store, profile, letters);
            Ok(Verdict::Satisfiable {
                stem: w.stem,
                cycle: w.cycle,
                nodes,
                profiles: count,
            })
        }
    }
}

// The questions 11 to 13, in their order: the first that refuses, if any.
pub fn ask_capacities(n: usize, m: usize, workspace: usize, witness: usize) -> Result<(), Question>
    ensures ok { OnOk result (Lends n m workspace witness) }
    ensures err { IfErr result (RefusedBy n m workspace witness) }
{
    if !within_capacity(n, m) {
        return Err(Question::Capacity);
    }
    if workspace < workspace_size(n, m) {
        return Err(Question::Workspace);
    }
    if witness < witness_size(n, m) {
        return Err(Question::Buffer);
    }
    Ok(())
}

// How many nodes there is room for, and how many profiles.
#[derive(Clone, Copy)]
struct Capacities {
    nodes: usize,
    profiles: usize,
}

impl Capacities {
    // The store behind the nodes, for profiles over n operands of next.
    fn store(self, n: usize) -> Store
        requires n_bound { n ≤ 12 }
        requires nodes_bound { self.nodes ≤ 1024 }
        requires profiles_bound { (0 < self.profiles) × (self.profiles ≤ 4096) }
        ensures { StorePlaced self.nodes self.profiles n result }
    {
        Store {
            base: construction::NODE_BYTES * self.nodes,
            capacity: self.profiles,
            n,
        }
    }
}

// From the nodes at the area's beginning: the profiles behind them, and the answer, 15 where there is no room for the profiles.
fn from_nodes(
    t: &Tableau,
    room: Capacities,
    nodes: usize,
    origins: &[u16],
    area: &mut [u8],
    letters: &mut [u16],
) -> Result<Verdict, Refusal>
    requires { NodesReady t.now.table.rows t.now.table.count room.nodes room.profiles nodes origins.now area.old
        (length letters.old) }
    ensures { CameTo (onward room.profiles (operators t.now)) (nodes_size room.nodes)
        (workspace_size room.nodes room.profiles) area.old area.new letters.old letters.new result }
{
    let ranks = traces::ranked(t);
    let ranked = RankedTableau { tableau: t, ranks };
    let store = room.store(ranks.nexts);
    let Some(found) = cycle_search::search(&ranked, store, area, nodes) else {
        return Err(Refusal::No(Question::Profiles));
    };
    answered(origins, area, store, nodes, found, letters)
}

// From the root: the nodes, 14 where there is no room for them, and what comes behind.
fn from_root(
    t: &Tableau,
    room: Capacities,
    area: &mut [u8],
    letters: &mut [u16],
) -> Result<Verdict, Refusal>
    requires decoded { Decoded t.now.table.rows t.now.table.count }
    requires lends { Lends room.nodes room.profiles (length area.old) (length letters.old) }
    ensures { CameTo (decide room.nodes room.profiles (operators t.now)) 0
        (workspace_size room.nodes room.profiles) area.old area.new letters.old letters.new result }
{
    let mut origins = [0u16; 2048];
    let Some(nodes) = t.nodes(area, room.nodes, &mut origins) else {
        return Err(Refusal::No(Question::Nodes));
    };
    from_nodes(t, room, nodes, &origins, area, letters)
}

// Whether any lasso meets the formula in the bytes, with capacities of nodes and of profiles.
pub fn decide(
    bytes: &[u8],
    node_capacity: usize,
    profile_capacity: usize,
    workspace: &mut [u8],
    witness: &mut [u16],
) -> Result<Verdict, Refusal>
    ensures { Decided bytes.now node_capacity profile_capacity workspace.old workspace.new
        witness.old
        witness.new result }
{
    let t = Tableau::new(formula::read(bytes)?);
    ask_capacities(
        node_capacity,
        profile_capacity,
        workspace.len(),
        witness.len(),
    )?;
    let room = Capacities {
        nodes: node_capacity,
        profiles: profile_capacity,
    };
    let v = from_root(&t, room, workspace, witness);
    let asked = workspace_size(node_capacity, profile_capacity);
    tableau::clear(workspace, 0, asked);
    v
}

// The same over the nodes that building left in the workspace, so many of them: they stay there for another search. The notes that
// question 36 leaves serve the stem.
pub fn search(
    bytes: &[u8],
    nodes: usize,
    node_capacity: usize,
    profile_capacity: usize,
    workspace: &mut [u8],
    witness: &mut [u16],
) -> Result<Verdict, Refusal>
    ensures { Searched bytes.now nodes node_capacity profile_capacity workspace.old
        workspace.new witness.old witness.new result }
{
    let t = Tableau::new(formula::read(bytes)?);
    ask_capacities(
        node_capacity,
        profile_capacity,
        workspace.len(),
        witness.len(),
    )?;
    let mut origins = [0u16; 2048];
    if !construction::are_nodes(&t, nodes, node_capacity, workspace, &mut origins) {
        return Err(Refusal::No(Question::Built));
    }
    let room = Capacities {
        nodes: node_capacity,
        profiles: profile_capacity,
    };
    let v = from_nodes(&t, room, nodes, &origins, workspace, witness);
    let behind = construction::NODE_BYTES * node_capacity;
    let asked = workspace_size(node_capacity, profile_capacity);
    tableau::clear(workspace, behind, asked);
    v
}
