// The tableau of a formula: sets of subformulas as words, bit e for subformula e; transitions by choice words; nodes.
#![tactic(auto)]

ghost use Rattle.std.specs.Prelude.{◌≡◌, ◌||◌, IfSome, ◌+◌, ◌*◌, ◌^◌, ◌≤◌, ◌<◌, eqb, length, false, T, ℕ, List};
ghost use Rattle.base.specs.Bits.{bit, word, Lowest};
ghost use Rattle.base.specs.Lists.{member, index};
ghost use Rattle.letters.specs.Requirements.{clash};
ghost use Rattle.formula.specs.Rows.{operator_at};
ghost use Rattle.formula.specs.Access.{Placed};
ghost use Rattle.tableau.specs.Saturation.{moves};
ghost use Rattle.tableau.specs.Transition.{ors, choice_of};
ghost use Rattle.tableau.specs.Operators.{operators, on};
ghost use Rattle.tableau.specs.Inner.{with_bits, Saturated, RequiresMore, RequiredBy, TargetIs};
ghost use Rattle.tableau.specs.Fringe.{Spread, Follows, moves_both, ClosesBy, ClosingOf, Joined, CoreOf};
ghost use Rattle.tableau.specs.Inner.{TargetBy, Widest, UnmetBetween, is_unmet, UnmetOrs};
ghost use Rattle.relation.specs.Relation.{HasBlock, Related};
ghost use Rattle.tableau.specs.Area.{eight, words_at, lookup, cleared, counted, NodeRoom, NodesHeld, reachable, slot_of, SlotsMarked};
ghost use Rattle.tableau.specs.Steps.{Located, known_then, CameIn, StepNoted, StepsOf};
ghost use Rattle.tableau.specs.Area.{with_note};
ghost use Rattle.tableau.specs.Area.{Growing, NodeAdded, Followed, Expanded};
ghost use Rattle.tableau.specs.Origins.{Origins};
ghost use Rattle.tableau.specs.Found.{Begun, GoneOn, Searched};

mod formed;

pub use formed::Tableau;
use formula::{Operator, Subformula};
use letters::Requirement;

// The number of a node, kept apart from subformulas and positions.
#[derive(Clone, Copy, PartialEq, Eq)]
pub struct NodeNumber(pub usize);

// A node that a transition leads to: its set, the number of the node that it leads from, and its letter.
#[derive(Clone, Copy)]
pub struct Arrival {
    pub set: u64,
    pub from: NodeNumber,
    pub letter: u16,
}

// The node of an arrival among those known: how many there are then, and its number.
#[derive(Clone, Copy)]
struct Added {
    known: usize,
    at: NodeNumber,
}

// What one pass over a set of subformulas gathers: what it requires of a letter, whether it holds false, and the operands of its nexts.
#[derive(Clone, Copy)]
struct Gathered {
    required: Requirement,
    falsum: bool,
    to: u64,
}

// A node on the way to its core: the set so far, the subformulas whose moves are still to be followed, and the ors, which wait.
#[derive(Clone, Copy)]
struct Closing {
    set: u64,
    fringe: u64,
    waiting: u64,
}

// What every saturation of a node has in common: what the moves of all operators but the ors lead to; the ors among them, whose moves a
// choice settles; what the set gathers; and whether that fails already, so that the node has no transition.
#[derive(Clone, Copy)]
pub struct Core {
    pub node: u64,
    pub set: u64,
    pub fringe: u64,
    gathered: Gathered,
    pub fails: bool,
}

// Where a transition leads: the set of the node, with what it requires of its letter.
#[derive(Clone, Copy)]
pub struct Target {
    pub to: u64,
    pub required: Requirement,
}

// The set with the subformulas to which the moves of one go.
fn moved(rows: &[u8; 144], choice: u64, s: Subformula, set: u64) -> u64
    requires { Placed rows.now s.0 }
    ensures { result ≡ with_bits (moves (operator_at rows.now s.0) (bit choice s.0)) set }
{
    match formula::operator_at(rows, s) {
        Operator::Variable(m) | Operator::Fixpoint { body: m, .. } => set | base::power(m.0),
        Operator::Pair {
            either: false,
            left,
            right,
        } => set | base::power(left.0) | base::power(right.0),
        Operator::Pair { right, .. } if base::has(choice, s.0) => set | base::power(right.0),
        Operator::Pair { left, .. } => set | base::power(left.0),
        Operator::Constant(_) | Operator::Signal { .. } | Operator::Next(_) => set,
    }
}

// A turn on the way to a core: of the fringe an or goes to those that wait, and the moves of any other operator are followed.
fn closed_by(rows: &[u8; 144], s: Subformula, had: Closing) -> Closing
    requires placed { Placed rows.now s.0 }
    requires lowest { Lowest had.fringe s.0 }
    ensures { ClosesBy (operator_at rows.now s.0) s.0 had result }
{
    let rest = base::without(had.fringe, s.0);
    if formula::is_or(rows, s) {
        return Closing {
            set: had.set,
            fringe: rest,
            waiting: had.waiting | base::power(s.0),
        };
    }
    let grown = moved(rows, 0, s, had.set);
    Closing {
        set: grown,
        fringe: rest | (grown ^ had.set),
        waiting: had.waiting,
    }
}

// The least set around another that no move leaves. The fringe has the subformulas of the set whose moves are still to be followed: a step
// puts in where those of one go, and what is new comes into the fringe.
fn followed<F: Fn(Subformula, u64) -> u64>(count: usize, set: u64, fringe: u64, step: F) -> u64
    ghost go: { ℕ → List ℕ }
    requires few { (k : ℕ) → T (bit fringe k) → k < count }
    requires step { Follows (F.pre step) (F.post step) count go }
    ensures { (node : ℕ) → Spread go count node set fringe → Spread go count node result 0 }
{
    let mut set = set;
    let mut fringe = fringe;
    while fringe != 0 {
        let e = base::lowest(fringe);
        let grown = step(Subformula(e), set);
        fringe = base::without(fringe, e) | (grown ^ set);
        set = grown;
    }
    set
}

// The set with the subformulas to which the moves of one go under one choice, and under another.
fn moved_by_both(rows: &[u8; 144], lower: u64, upper: u64, s: Subformula, set: u64) -> u64
    requires { Placed rows.now s.0 }
    ensures { result ≡ with_bits (moves_both rows.now lower upper s.0) set }
{
    moved(rows, upper, s, moved(rows, lower, s, set))
}

// Whether a choice word picks right at an or that, by one of its picks, no saturation meets.
fn is_unmet(unmet: &[u64; 24], choice_word: u64) -> bool
    ensures { result ≡ is_unmet unmet.now choice_word }
{
    (0..12).any(|j| {
        let pick = ((choice_word >> j) % 2) as usize;
        choice_word & unmet[2 * j + pick] != 0
    })
}

// The bit of a signal in a word of 16.
fn signal_bit(signal: u8) -> u16
    requires { signal < 16 }
    ensures { result ≡ 2 ^ signal }
{
    1u16 << signal
}

// What is gathered, with what a subformula requires.
fn with_required(rows: &[u8; 144], s: Subformula, had: Gathered) -> Gathered
    requires { Placed rows.now s.0 }
    ensures { RequiresMore (operator_at rows.now s.0) had result }
{
    let mut r = had;
    match formula::operator_at(rows, s) {
        Operator::Constant(holds) => r.falsum |= !holds,
        Operator::Signal {
            present: true,
            signal,
        } => r.required.present |= signal_bit(signal),
        Operator::Signal { signal, .. } => r.required.absent |= signal_bit(signal),
        Operator::Next(operand) => r.to |= base::power(operand.0),
        Operator::Variable(_) | Operator::Pair { .. } | Operator::Fixpoint { .. } => {}
    }
    r
}

// What two sets gather together.
fn joined(a: Gathered, b: Gathered) -> Gathered
    ensures { Joined a b result }
{
    Gathered {
        required: Requirement {
            present: a.required.present | b.required.present,
            absent: a.required.absent | b.required.absent,
        },
        falsum: a.falsum | b.falsum,
        to: a.to | b.to,
    }
}

// Whether a set that gathers this gives no transition: it holds false, or no letter is as required.
fn is_dead_end(all: Gathered) -> bool
    ensures { result ≡ (all.falsum || clash all.required) }
{
    all.falsum | letters::clashes(all.required)
}

// The node with this number: its set.
pub fn node(area: &[u8], number: NodeNumber) -> u64
    requires { (number.0 < 1024) × (8 * number.0 + 8 ≤ length area.now) }
    ensures { result ≡ eight area.now (8 * number.0) }
{
    let i = number.0;
    base::number_at(area, 8 * i, 8)
}

// Where a set stands among the first `known` nodes, if it is one of them.
pub fn find(area: &[u8], known: usize, set: u64) -> Option<NodeNumber>
    requires { (known ≤ 1024) × (8 * known ≤ length area.now) }
    ensures { result ≡ lookup known (index (eqb set) (words_at area.now 0 known)) }
{
    (0..known)
        .map(NodeNumber)
        .find(|number| node(area, *number) == set)
}

// The slot of a set; every bit of the set counts in the remainder by a prime. The mark that a slot has is 1 + the number of the last known
// node with this slot, or 0 if there is none: it tells at once that most new sets are new, and where most known ones are. It is a number
// and no Option, of which 2,048 would take twice the room on the stack, which is fixed (docs/DECISIONS.md).
fn slot(set: u64) -> usize
    ensures { result ≡ slot_of set }
{
    (set % 2029) as usize
}

// Where a set stands among the first `known` nodes, if it is one of them. Without a mark it is none; else the marked node is tried first.
pub fn located(area: &[u8], slots: &[u16; 2048], known: usize, set: u64) -> Option<NodeNumber>
    requires known_bound { (known ≤ 1024) × (8 * known ≤ length area.now) }
    requires slots_marked { SlotsMarked known area.now slots.now }
    ensures { Located known area.now set result }
{
    let k = slot(set);
    let marked = usize::from(slots[k]).checked_sub(1)?;
    if marked < known && node(area, NodeNumber(marked)) == set {
        return Some(NodeNumber(marked));
    }
    find(area, known, set)
}

// Notes where the search came to a node from. The notes lie in 4,096 bytes of the caller, two numbers for each node (docs/DECISIONS.md).
fn note(origins: &mut [u16], number: NodeNumber, from: NodeNumber, letter: u16)
    requires { (number.0 < 1024) × ((from.0 < 1024) × (2 * number.0 + 2 ≤ length origins.old)) }
    ensures { origins.new ≡ with_note origins.old number.0 from.0 letter }
{
    let j = number.0;
    origins[2 * j] = from.0 as u16;
    origins[2 * j + 1] = letter;
}

// The node of an arrival, which is not known, as the last of those known, if there is room for it. Area, slots and origins stay apart. As
// references in one struct g they were tried: each function promises of each that it is still the same, as in
// `g.new.area.ghost_name ≡ g.old.area.ghost_name`, and `add` gets no proof, since it lends two of them to `located` at once.
fn append(
    area: &mut [u8],
    slots: &mut [u16; 2048],
    origins: &mut [u16],
    known: usize,
    capacity: usize,
    new: Arrival,
) -> Option<Added>
    requires growing { Growing known capacity area.old slots.old origins.old }
    requires from_bound { new.from.0 < 1024 }
    requires known_value { member new.set (words_at area.old 0 known) ≡ false }
    ensures node_added { NodeAdded known capacity new area.old origins.old area.new origins.new
        (known_then capacity result) }
    ensures came_in { IfSome result (CameIn known capacity new.set area.old area.new slots.new) }
{
    if capacity <= known {
        return None;
    }
    let at = NodeNumber(known);
    base::put_number(area, 8 * known, 8, new.set);
    let k = slot(new.set);
    slots[k] = (known + 1) as u16;
    note(origins, at, new.from, new.letter);
    Some(Added {
        known: known + 1,
        at,
    })
}

// The node of an arrival as one of those known, if it is one or there is room for it.
fn add(
    area: &mut [u8],
    slots: &mut [u16; 2048],
    origins: &mut [u16],
    known: usize,
    capacity: usize,
    new: Arrival,
) -> Option<Added>
    requires growing { Growing known capacity area.old slots.old origins.old }
    requires from_bound { new.from.0 < 1024 }
    ensures node_added { NodeAdded known capacity new area.old origins.old area.new origins.new
        (known_then capacity result) }
    ensures came_in { IfSome result (CameIn known capacity new.set area.old area.new slots.new) }
{
    match located(area, slots, known, new.set) {
        None => append(area, slots, origins, known, capacity, new),
        Some(at) => Some(Added { known, at }),
    }
}

// Notes that a transition leads from one node to another, where the relation has the block for it.
fn note_step(relation: &mut [u64], from: NodeNumber, to: NodeNumber)
    requires { (from.0 < 1024) × (to.0 < 1024) }
    ensures { HasBlock relation.old from.0 → Related to.0 from.0 relation.old relation.new }
{
    let has_block = relation::BLOCK_WORDS * (from.0 / 64) + relation::BLOCK_WORDS <= relation.len();
    if has_block {
        relation::relate(relation, to.0, from.0);
    }
}

// Adds the node that a step leads to, if it leads to one, from the node with this number, and notes the step. How many nodes are known
// then, if there is room for them.
fn follow(
    area: &mut [u8],
    slots: &mut [u16; 2048],
    origins: &mut [u16],
    relation: &mut [u64],
    number: NodeNumber,
    target: Option<Target>,
    known: usize,
    capacity: usize,
) -> Option<usize>
    requires growing { Growing known capacity area.old slots.old origins.old }
    requires number_bound { number.0 < 1024 }
    ensures followed { Followed number.0 target known capacity area.old origins.old area.new
        origins.new (counted capacity result) }
    ensures bounds { IfSome result (λ n. (known ≤ n) × (n ≤ capacity)) }
    ensures slots_marked { IfSome result (λ n. SlotsMarked n area.new slots.new) }
    ensures step_noted { HasBlock relation.old number.0 → IfSome result (StepNoted number.0 target known
        area.old area.new relation.old relation.new) }
{
    let Some(target) = target else {
        return Some(known);
    };
    let new = Arrival {
        set: target.to,
        from: number,
        letter: letters::letter_of(target.required),
    };
    let added = add(area, slots, origins, known, capacity, new)?;
    note_step(relation, number, added.at);
    Some(added.known)
}

// Puts the root in as the first node.
fn put_root(area: &mut [u8], slots: &mut [u16; 2048], origins: &mut [u16], capacity: usize)
    requires node_room { NodeRoom 1 capacity (length area.old) }
    requires capacity_in_bounds { 2 * capacity ≤ length origins.old }
    requires in_bounds { 2048 ≤ length slots.old }
    ensures { Begun capacity area.old area.new slots.new origins.new }
{
    let root = Arrival {
        set: 1,
        from: NodeNumber(0),
        letter: 0,
    };
    add(area, slots, origins, 0, capacity, root);
}

// Zeros in the bytes from one up to another.
pub fn clear(area: &mut [u8], from: usize, to: usize)
    requires { (from ≤ to) × (to ≤ length area.old) }
    ensures { area.new ≡ cleared from to area.old }
{
    area[from..to].fill(0);
}

impl Tableau {
    // How many or operators there are.
    pub fn ors(&self) -> usize
        ensures { result ≡ ors (operators self.now) }
    {
        (0..self.table.count)
            .filter(|e| formula::is_or(&self.table.rows, Subformula(*e)))
            .count()
    }

    // The choice of a choice word, as the set of the or operators whose right operand is picked.
    pub fn choice_of(&self, choice_word: u64) -> u64
        ensures { result ≡ word (choice_of (operators self.now) choice_word) }
    {
        let mut choice = 0u64;
        let mut left = choice_word;
        for e in 0..self.table.count {
            if formula::is_or(&self.table.rows, Subformula(e)) {
                choice |= (left % 2) << e;
                left /= 2;
            }
        }
        choice
    }

    // The least set around the node that no move leaves, but those of the ors. A node has no bit from count on: `low` changes none, and
    // bounds e for any word. No call of `followed` serves: a step there answers one set, and here the ors go to another, where they wait.
    fn closed(&self, node: u64) -> Closing
        ensures closing_of { on self.now ClosingOf node result }
        ensures fringe_value { result.fringe ≡ 0 }
    {
        let mut c = Closing {
            set: node,
            fringe: base::low(node, self.table.count),
            waiting: 0,
        };
        while c.fringe != 0 {
            let e = base::lowest(c.fringe);
            c = closed_by(&self.table.rows, Subformula(e), c);
        }
        c
    }

    // The least set around the core's node that no move leaves.
    fn saturated(&self, choice: u64, core: Core) -> u64
        requires core_of { on self.now CoreOf core }
        ensures { on self.now Saturated choice core.node result }
    {
        followed(self.table.count, core.set, core.fringe, |s, set| {
            moved(&self.table.rows, choice, s, set)
        })
    }

    // A set that holds every saturation of the node under a choice word with the bits of low, and no others than those of high: it follows
    // the moves of both at once.
    fn widest(&self, low: u64, high: u64, node: u64) -> u64
        ensures { on self.now Widest low high node result }
    {
        let lower = self.choice_of(low);
        let upper = self.choice_of(high);
        followed(
            self.table.count,
            node,
            base::low(node, self.table.count),
            |s, set| { moved_by_both(&self.table.rows, lower, upper, s, set) },
        )
    }

    // The bits of a choice word at the ors that no saturation of the node meets under a choice word between low and high.
    fn unmet_between(&self, low: u64, high: u64, node: u64) -> u64
        ensures { on self.now UnmetBetween low high node result }
    {
        let wide = self.widest(low, high, node);
        let mut bits = 0u64;
        let mut n = 0;
        for e in 0..self.table.count {
            if formula::is_or(&self.table.rows, Subformula(e)) {
                bits = base::with(bits, n, !base::has(wide, e));
                n += 1;
            }
        }
        bits
    }

    // The bits of a choice word at the ors that no saturation of the node meets: entry 2 j for the words that pick left at or j, 2 j + 1
    // for those that pick right there. Of an or that is never met, and where there are so few words that to try them is cheaper, both
    // entries have only the bits at the ors that are never met. It is a list and no pair for each or: a pick is a number, which would only
    // go from one index to the other.
    pub fn unmet(&self, node: u64) -> [u64; 24]
        ensures { on self.now UnmetOrs node result }
    {
        let n = self.ors();
        let all = base::power(n) - 1;
        let never = self.unmet_between(0, all, node);
        let mut bits = [never; 24];
        if n < 7 {
            return bits;
        }
        for j in 0..n {
            if !base::has(never, j) {
                bits[2 * j] = self.unmet_between(0, base::with(all, j, false), node);
                bits[2 * j + 1] = self.unmet_between(base::power(j), all, node);
            }
        }
        bits
    }

    // What the subformulas of a set require, in one pass over it.
    fn required_by(&self, set: u64) -> Gathered
        ensures { on self.now RequiredBy set result }
    {
        let mut all = Gathered {
            required: Requirement {
                present: 0,
                absent: 0,
            },
            falsum: false,
            to: 0,
        };
        let mut rest = base::low(set, self.table.count);
        while rest != 0 {
            let e = base::lowest(rest);
            all = with_required(&self.table.rows, Subformula(e), all);
            rest = base::without(rest, e);
        }
        all
    }

    // The core of a node.
    pub fn core_of(&self, node: u64) -> Core
        ensures { on self.now CoreOf result × (result.node ≡ node) }
    {
        let c = self.closed(node);
        let gathered = self.required_by(c.set);
        Core {
            node,
            set: c.set,
            fringe: c.waiting,
            gathered,
            fails: is_dead_end(gathered),
        }
    }

    // The transition of the core's node under a choice, which picks nothing at an or that is not met, if it exists. What the core gathers
    // need not be gathered again.
    fn transition(&self, choice: u64, core: Core) -> Option<Target>
        requires core_of { on self.now CoreOf core }
        ensures { on self.now TargetIs choice core.node result }
    {
        let set = self.saturated(choice, core);
        if choice & set != choice {
            return None;
        }
        let common = core.gathered;
        let r = joined(common, self.required_by(set ^ core.set));
        if is_dead_end(r) {
            return None;
        }
        Some(Target {
            to: r.to,
            required: r.required,
        })
    }

    // The transition of the core's node under a choice word, if it exists. Most words that pick at an or that they do not meet are known by
    // `unmet`.
    pub fn by_word(&self, unmet: &[u64; 24], core: Core, choice_word: u64) -> Option<Target>
        requires core_of { on self.now CoreOf core }
        requires unmet_ors { on self.now UnmetOrs core.node unmet.now }
        ensures { on self.now TargetBy choice_word core.node result }
    {
        if core.fails || is_unmet(unmet, choice_word) {
            return None;
        }
        let choice = self.choice_of(choice_word);
        self.transition(choice, core)
    }

    // Adds the nodes to which the transitions of a node lead, by rising choice word, and notes these transitions. How many nodes are known
    // then, if there is room for them.
    fn expand(
        &self,
        area: &mut [u8],
        slots: &mut [u16; 2048],
        origins: &mut [u16],
        relation: &mut [u64],
        number: NodeNumber,
        known: usize,
        capacity: usize,
    ) -> Option<usize>
        requires number_lt_known { number.0 < known }
        requires growing { Growing known capacity area.old slots.old origins.old }
        ensures expanded { on self.now Expanded number.0 known capacity area.old origins.old
            area.new origins.new (counted capacity result) }
        ensures bounds { IfSome result (λ n. (known ≤ n) × (n ≤ capacity)) }
        ensures slots_marked { IfSome result (λ n. SlotsMarked n area.new slots.new) }
        ensures steps_of { HasBlock relation.old number.0 → IfSome result (λ n. on self.now StepsOf number.0
            known area.old area.new relation.old relation.new n) }
    {
        let from = node(area, number);
        let core = self.core_of(from);
        let unmet = self.unmet(from);
        let end = base::power(self.ors());
        let mut all = known;
        for word in 0..end {
            let target = self.by_word(&unmet, core, word);
            all = follow(
                area, slots, origins, relation, number, target, all, capacity,
            )?;
        }
        Some(all)
    }

    // A part of the search for the reachable nodes, breadth first: goes on from the nodes from one number up to another, where there are so
    // many, and notes where each node was found from. A relation gets the transitions of those nodes whose block it has. How many nodes are
    // known then, if there is room for them; else the area has as many of them as it has room for.
    pub fn go_on(
        &self,
        area: &mut [u8],
        slots: &mut [u16; 2048],
        origins: &mut [u16],
        relation: &mut [u64],
        from: usize,
        to: usize,
        known: usize,
        capacity: usize,
    ) -> Option<usize>
        requires from_le_to { (from ≤ to) × (from ≤ known) }
        requires growing { Growing known capacity area.old slots.old origins.old }
        ensures gone_on { on self.now GoneOn from to known capacity area.old origins.old
            relation.old area.new slots.new origins.new relation.new (counted capacity result) }
        ensures fits { IfSome result (λ n. n ≤ capacity) }
    {
        let mut total = known;
        for i in from..to {
            if total <= i {
                break;
            }
            let next = NodeNumber(i);
            total = self.expand(area, slots, origins, relation, next, total, capacity)?;
        }
        Some(total)
    }

    // The first part: puts the root in, with which the search begins, and goes on up to a number. Slots that hold anything will do.
    pub fn search_from_root(
        &self,
        area: &mut [u8],
        slots: &mut [u16; 2048],
        origins: &mut [u16],
        relation: &mut [u64],
        to: usize,
        capacity: usize,
    ) -> Option<usize>
        requires node_room { NodeRoom 1 capacity (length area.old) }
        requires capacity_in_bounds { 2 * capacity ≤ length origins.old }
        requires in_bounds { 2048 ≤ length slots.old }
        ensures searched { on self.now Searched to capacity area.old relation.old area.new
            slots.new origins.new relation.new (counted capacity result) }
        ensures fits { IfSome result (λ n. n ≤ capacity) }
    {
        put_root(area, slots, origins, capacity);
        self.go_on(area, slots, origins, relation, 0, to, 1, capacity)
    }

    // Writes the reachable nodes, the root first, and notes where each was found from. How many they are, if there is room for them; else
    // the area has as many of them as it has room for. No transition is noted.
    pub fn nodes(&self, area: &mut [u8], capacity: usize, origins: &mut [u16]) -> Option<usize>
        requires node_room { NodeRoom 1 capacity (length area.old) }
        requires capacity_in_bounds { 2 * capacity ≤ length origins.old }
        ensures nodes_held { NodesHeld capacity (counted capacity result) area.old area.new (reachable (operators self.now)) }
        ensures origins { IfSome result (Origins (operators self.now) origins.new) }
        ensures fits { IfSome result (λ n. n ≤ capacity) }
    {
        let mut slots = [0u16; 2048];
        let mut no_relation = [0u64; 1];
        self.search_from_root(
            area,
            &mut slots,
            origins,
            &mut no_relation,
            capacity,
            capacity,
        )
    }
}
