// The decision of formulas whose fixpoints are all greatest (MEANING 5.14). Every cycle of such a formula is accepting, so it needs room
// for nodes and for nothing else: the transitions between them are noted as a relation, in which a shortest cycle is found by numbers
// alone.
#![tactic(auto)]

ghost use Rattle.std.specs.Prelude.{◌≡◌, List, ℕ, ◌+◌, ◌*◌, ◌≤◌, ◌<◌, length, Ok};
ghost use Rattle.formula.specs.Access.{decoded};
ghost use Rattle.profile.specs.Profiles.{is_least};
ghost use Rattle.tableau.specs.Operators.{operators};
ghost use Rattle.tableau.specs.Found.{Finding};
ghost use Rattle.witness.specs.Letters.{stem_letters, StemNoted};
ghost use Rattle.safety.specs.Safety.{first_least, decide, ask_room, ask_greatest};
ghost use Rattle.safety.specs.Contract.{Decided};
ghost use Rattle.safety.specs.Inner.{Lent, RoomAsked, Surveyed, Onward, HasStep, IsFirstStep, HasCycle};
ghost use Rattle.safety.specs.Inner.{CycleWritten, CourseWritten, concluded, NodesReady, Halfway, Answers, CameTo, Settled};
ghost use Rattle.safety.specs.declared.Refusal.TheVariants.{Unread, No};

use construction::Question;
use formula::{Operator, Subformula};
use lasso::Position;
use tableau::{NodeNumber, Tableau, Target};

#[derive(Clone, Copy)]
pub enum Verdict {
    Satisfiable {
        stem: usize,
        cycle: usize,
        nodes: usize,
    },
    Unsatisfiable(usize),
}

// Why there is no verdict: reading refuses the bytes; a least fixpoint, 43 with its place; or one of the questions 11 to 14 is answered by
// no.
#[derive(Clone, Copy)]
pub enum Refusal {
    Unread(formula::Refusal),
    LeastAt(usize),
    No(Question),
}

impl From<formula::Refusal> for Refusal {
    ghost from_gives = { λ why r. r ≡ Unread why };

    fn from(why: formula::Refusal) -> Refusal {
        Refusal::Unread(why)
    }
}

impl From<Question> for Refusal {
    ghost from_gives = { λ q r. r ≡ No q };

    fn from(q: Question) -> Refusal {
        Refusal::No(q)
    }
}

// A transition by its node and its letter.
#[derive(Clone, Copy)]
struct Step {
    to: NodeNumber,
    letter: u16,
}

fn is_least(o: Operator) -> bool
    ensures { result ≡ is_least (decoded o) }
{
    match o {
        Operator::Fixpoint { greatest, .. } => !greatest,
        _ => false,
    }
}

// The place of the first least fixpoint.
fn first_least(t: &Tableau) -> Option<usize>
    ensures { result ≡ first_least 0 (operators t.now) }
{
    let mut place = 0;
    for e in 0..t.table.count {
        let o = formula::operator_at(&t.table.rows, Subformula(e));
        if is_least(o) {
            return Some(place);
        }
        place += formula::width(o);
    }
    None
}

// The questions 11 to 13, in their order.
fn ask_room(node_capacity: usize, workspace: usize, witness: usize) -> Result<(), Question>
    ensures { RoomAsked node_capacity workspace witness result }
{
    if !construction::between(1, construction::MAX_NODES, node_capacity) {
        return Err(Question::Capacity);
    }
    if workspace < construction::NODE_BYTES * node_capacity {
        return Err(Question::Workspace);
    }
    if witness < node_capacity {
        return Err(Question::Buffer);
    }
    Ok(())
}

// The nodes of a tableau in the area, found by their slots, and how many steps each of them is from the node of the cycle.
#[derive(Clone, Copy)]
struct Survey<'a> {
    tableau: &'a Tableau,
    area: &'a [u8],
    slots: &'a [u16; 2048],
    known: usize,
    steps: &'a [u16; 1024],
}

impl Survey<'_> {
    // Whether a transition leads to a node that is so many steps from the cycle's node, and then to which, with its letter.
    fn reached(&self, target: Option<Target>, far: usize) -> Option<Step>
        requires { Surveyed self.now }
        ensures { Onward self.now target far result }
    {
        let Target { to, required } = target?;
        let n = tableau::located(self.area, self.slots, self.known, to)?;
        if usize::from(self.steps[n.0]) != far {
            return None;
        }
        Some(Step {
            to: n,
            letter: letters::letter_of(required),
        })
    }

    // The first transition of a node, by its choice word, to a node that is so many steps from the cycle's.
    fn step_on(&self, from: NodeNumber, far: usize) -> Step
        requires surveyed { Surveyed self.now }
        requires from_lt_known { from.0 < self.now.known }
        requires some_step { HasStep self.now from.0 far }
        ensures { IsFirstStep self.now from.0 far result }
    {
        let node = tableau::node(self.area, from);
        let core = self.tableau.core_of(node);
        let unmet = self.tableau.unmet(node);
        let end = base::power(self.tableau.ors());
        for word in 0..end {
            let target = self.tableau.by_word(&unmet, core, word);
            if let Some(step) = self.reached(target, far) {
                return step;
            }
        }
        unreachable!()
    }

    // Writes the letters of the first of the shortest cycles of a node from a position on.
    fn write_cycle(&self, node: NodeNumber, cycle: usize, letters: &mut [u16], from: Position)
        requires cycle_there { HasCycle self.now node.0 cycle }
        requires cycle_in_bounds { from.0 + cycle ≤ length letters.old }
        ensures { CycleWritten (operators self.now.tableau.now) node.0 cycle from.0 letters.old letters.new }
    {
        let start = from.0;
        let mut at = node;
        for i in 0..cycle {
            let s = self.step_on(at, cycle - i - 1);
            letters[start + i] = s.letter;
            at = s.to;
        }
    }

    // Writes the stem to a node and behind it the first of its shortest cycles; how long the stem is.
    fn write_course(
        &self,
        origins: &[u16],
        node: NodeNumber,
        cycle: usize,
        letters: &mut [u16],
    ) -> usize
        requires cycle_there { HasCycle self.now node.0 cycle }
        requires stem_noted { StemNoted origins.now node.0 }
        requires cycle_in_bounds { length (stem_letters origins.now node.0) + cycle ≤ length letters.old }
        ensures { CourseWritten (operators self.now.tableau.now) origins.now node.0 cycle letters.old letters.new result }
    {
        let stem = witness::stem_length(origins, node);
        witness::write_stem(origins, node, letters, stem);
        self.write_cycle(node, cycle, letters, Position(stem));
        stem
    }
}

// From the nodes and their transitions: a shortest cycle, if there is one, and the answer.
fn from_nodes(
    t: &Tableau,
    area: &[u8],
    slots: &[u16; 2048],
    origins: &[u16],
    relation: &[u64],
    nodes: usize,
    letters: &mut [u16],
) -> Verdict
    requires nodes_ready { NodesReady t.now.table.rows t.now.table.count nodes area.now slots.now origins.now
        relation.now (length letters.old) }
    ensures { Answers (concluded (operators t.now)) letters.old letters.new (Ok result) }
{
    let mut steps = [0u16; 1024];
    let Some(shortest) = distances::shortest(relation, nodes, &mut steps) else {
        return Verdict::Unsatisfiable(nodes);
    };
    let survey = Survey {
        tableau: t,
        area,
        slots,
        known: nodes,
        steps: &steps,
    };
    let stem = survey.write_course(
        origins,
        NodeNumber(shortest.vertex),
        shortest.length,
        letters,
    );
    Verdict::Satisfiable {
        stem,
        cycle: shortest.length,
        nodes,
    }
}

// From more than 64 nodes, where the search has gone on from the first 64: it goes on with room for all transitions, which is made only
// here. 14 where there is no room for the nodes, and what comes behind.
fn from_many(
    t: &Tableau,
    node_capacity: usize,
    area: &mut [u8],
    slots: &mut [u16; 2048],
    origins: &mut [u16],
    first: &[u64],
    known: usize,
    letters: &mut [u16],
) -> Result<Verdict, Refusal>
    requires halfway { Halfway t.now.table.rows t.now.table.count node_capacity known area.old slots.old origins.old
        first.now (length letters.old) }
    ensures { (a : List ℕ) → Finding t.now.table.rows t.now.table.count node_capacity known 64 a area.old origins.old
        → CameTo node_capacity (decide node_capacity (operators t.now)) a area.new
        letters.old letters.new result }
{
    let mut relation = [0u64; relation::WORDS];
    relation::widen(first, &mut relation);
    let Some(nodes) = t.go_on(
        area,
        slots,
        origins,
        &mut relation,
        64,
        node_capacity,
        known,
        node_capacity,
    ) else {
        return Err(Refusal::No(Question::Nodes));
    };
    Ok(from_nodes(t, area, slots, origins, &relation, nodes, letters))
}

// From the root: the nodes with their transitions, 14 where there is no room for them, and what comes behind. For up to 64 nodes one block
// of the relation is enough, and no more is cleared.
fn from_root(
    t: &Tableau,
    node_capacity: usize,
    area: &mut [u8],
    letters: &mut [u16],
) -> Result<Verdict, Refusal>
    requires lent { Lent node_capacity (length area.old) (length letters.old) }
    ensures { CameTo node_capacity (decide node_capacity (operators t.now)) area.old
        area.new letters.old letters.new result }
{
    let mut slots = [0u16; 2048];
    let mut origins = [0u16; 2048];
    let mut first = [0u64; relation::BLOCK_WORDS];
    let Some(nodes) = t.search_from_root(
        area,
        &mut slots,
        &mut origins,
        &mut first,
        64,
        node_capacity,
    ) else {
        return Err(Refusal::No(Question::Nodes));
    };
    if nodes <= 64 {
        return Ok(from_nodes(t, area, &slots, &origins, &first, nodes, letters));
    }
    from_many(
        t,
        node_capacity,
        area,
        &mut slots,
        &mut origins,
        &first,
        nodes,
        letters,
    )
}

// The questions after reading, in their order.
fn decided(
    t: &Tableau,
    node_capacity: usize,
    workspace: &mut [u8],
    witness: &mut [u16],
) -> Result<Verdict, Refusal>
    ensures { Settled node_capacity (ask_greatest (first_least 0 (operators t.now))
        (ask_room node_capacity (length workspace.old) (length witness.old)
        (decide node_capacity (operators t.now))))
        workspace.old workspace.new witness.old witness.new result }
{
    if let Some(place) = first_least(t) {
        return Err(Refusal::LeastAt(place));
    }
    ask_room(node_capacity, workspace.len(), witness.len())?;
    let v = from_root(t, node_capacity, workspace, witness);
    tableau::clear(workspace, 0, construction::NODE_BYTES * node_capacity);
    v
}

// Whether any lasso meets the formula in the bytes, whose fixpoints are to be greatest, with room for so many nodes.
pub fn decide_safety(
    bytes: &[u8],
    node_capacity: usize,
    workspace: &mut [u8],
    witness: &mut [u16],
) -> Result<Verdict, Refusal>
    ensures { Decided bytes.now node_capacity workspace.old workspace.new witness.old
        witness.new result }
{
    let t = Tableau::new(formula::read(bytes)?);
    decided(&t, node_capacity, workspace, witness)
}
