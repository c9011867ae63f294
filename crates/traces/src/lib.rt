// The traces of a transition: for each subformula a byte with the priorities with which traces reach it, bit x for the x-th fixpoint and
// bit 7 for none; and from these the triples.
#![tactic(auto)]

ghost use Rattle.std.specs.Prelude.{◌≡◌, true, false, [], ◌∷◌, ℕ, ◌+◌, ◌*◌, ◌^◌, ◌<◌, length, get_or};
ghost use Rattle.base.specs.Bits.{bit};
ghost use Rattle.formula.specs.Rows.{operator_at};
ghost use Rattle.formula.specs.Access.{Placed};
ghost use Rattle.tableau.specs.Operators.{operators};
ghost use Rattle.profile.specs.Profiles.{is_least};
ghost use Rattle.profile_tables.specs.Marks.{leasts};
ghost use Rattle.traces.specs.Inner.{fix_at, RowsLimited, RanksOf, PrioritiesMarked, PassedOn, SweptMarks, TracesReached, RowFilled};
ghost use Rattle.traces.specs.Inner.{DoneTo, TriplesOf};

use formula::{Operator, Subformula};
use tableau::Tableau;

// The ranks of the subformulas: how many next, or fixpoints, begin before each one; and how many next there are in all.
#[derive(Clone, Copy)]
pub struct Ranks {
    pub nexts: usize,
    pub next: [u8; 48],
    pub fix: [u8; 48],
}

// The ranks of a tableau's subformulas.
pub fn ranked(tableau: &Tableau) -> Ranks
    ensures { RanksOf tableau.now.table.rows tableau.now.table.count result }
{
    let mut next = [0u8; 48];
    let mut fix = [0u8; 48];
    let mut nexts = 0u8;
    let mut fixes = 0u8;
    for e in 0..tableau.table.count {
        next[e] = nexts;
        fix[e] = fixes;
        nexts += u8::from(formula::is_next(&tableau.table.rows, Subformula(e)));
        fixes += u8::from(formula::is_fixpoint(&tableau.table.rows, Subformula(e)));
    }
    Ranks {
        nexts: usize::from(nexts),
        next,
        fix,
    }
}

// The priorities w at subformula s too. The marks come as a slice, since a contract knows the length of a slice, and not that of an array
// behind a reference.
fn mark(marks: &mut [u8], s: Subformula, w: u8)
    requires { s.0 < length marks.old }
    ensures { PrioritiesMarked (s.0 ∷ []) w marks.old marks.new }
{
    marks[s.0] |= w;
}

// Marks what subformula s passes on: nothing where it has no marks itself, as most have none.
fn passing(rows: &[u8; 144], fix: &[u8; 48], choice: u64, s: Subformula, marks: &mut [u8; 48])
    requires placed { Placed rows.now s.0 }
    requires s_bound { fix_at rows.now s.0 ≡ true → get_or fix.now s.0 0 < 8 }
    ensures { PassedOn (operator_at rows.now s.0) (bit choice s.0) s.0 (get_or fix.now s.0 0)
        marks.old marks.new }
{
    let w = marks[s.0];
    if w == 0 {
        return;
    }
    match formula::operator_at(rows, s) {
        Operator::Constant(_) | Operator::Signal { .. } | Operator::Next(_) => {}
        Operator::Variable(binder) => mark(marks, binder, w),
        Operator::Pair {
            either: false,
            left,
            right,
        } => {
            mark(marks, left, w);
            mark(marks, right, w);
        }
        Operator::Pair { left, right, .. } => {
            mark(marks, if base::has(choice, s.0) { right } else { left }, w);
        }
        Operator::Fixpoint { body, .. } => {
            let own = fix[s.0];
            mark(marks, body, triples::minima(w, 1 << own));
        }
    }
}

// Whether s is a least fixpoint.
fn is_least(rows: &[u8; 144], s: Subformula) -> bool
    requires { Placed rows.now s.0 }
    ensures { result ≡ is_least (operator_at rows.now s.0) }
{
    matches!(
        formula::operator_at(rows, s),
        Operator::Fixpoint {
            greatest: false,
            ..
        }
    )
}

// A tableau whose next and fixpoints are as few as bytes have room for, with the ranks of its subformulas.
#[derive(Clone, Copy)]
pub struct RankedTableau<'a> {
    pub tableau: &'a Tableau,
    pub ranks: Ranks,
    ghost limited: { RowsLimited tableau.now.table.rows tableau.now.table.count },
    ghost of: { RanksOf tableau.now.table.rows tableau.now.table.count ranks },
}

impl RankedTableau<'_> {
    // Marks what each subformula passes on, taken in rising order.
    fn passed(&self, choice: u64, marks: &mut [u8; 48])
        ensures { SweptMarks self.now.tableau.now.table.rows self.now.tableau.now.table.count choice marks.old
            marks.new }
    {
        for e in 0..self.tableau.table.count {
            let rows = &self.tableau.table.rows;
            passing(rows, &self.ranks.fix, choice, Subformula(e), marks);
        }
    }

    // The priorities with which traces from subformula s reach each one.
    fn reaching(&self, choice: u64, s: Subformula) -> [u8; 48]
        requires { s.0 < 48 }
        ensures { TracesReached self.now.tableau.now.table.rows self.now.tableau.now.table.count choice s.0 result }
    {
        let mut w = [0u8; 48];
        w[s.0] = 128;
        for _ in 0..8 * self.tableau.table.count {
            let old = w;
            self.passed(choice, &mut w);
            if w == old {
                return w;
            }
        }
        w
    }

    // Fills row f of the triples: the marks of each next.
    fn triple_row(&self, f: usize, marks: &[u8; 48], t: &mut [u8; 144])
        requires { f < 12 }
        ensures { RowFilled self.now.tableau.now.table.rows marks.now self.now.tableau.now.table.count f t.old t.new }
    {
        for e in 0..self.tableau.table.count {
            if formula::is_next(&self.tableau.table.rows, Subformula(e)) {
                t[f * 12 + usize::from(self.ranks.next[e])] = marks[e];
            }
        }
    }

    // Fills the row of subformula s, where it is a next whose operand is in the node.
    fn with_row(&self, choice: u64, node: u64, s: Subformula, t: &mut [u8; 144])
        requires in_table { s.0 < self.now.tableau.now.table.count }
        requires before { DoneTo self.now.tableau.now.table.rows self.now.tableau.now.table.count choice node s.0 t.old }
        ensures { DoneTo self.now.tableau.now.table.rows self.now.tableau.now.table.count choice node (s.0 + 1) t.new }
    {
        let operand = Subformula(s.0 + 1);
        if !formula::is_next(&self.tableau.table.rows, s) || !base::has(node, operand.0) {
            return;
        }
        let w = self.reaching(choice, operand);
        self.triple_row(usize::from(self.ranks.next[s.0]), &w, t);
    }

    // The triples of the transition of a node under a choice.
    pub fn triples_of(&self, choice: u64, node: u64) -> [u8; 144]
        ensures { TriplesOf self.now.tableau.now.table.rows self.now.tableau.now.table.count choice node result }
    {
        let mut t = [0u8; 144];
        for e in 0..self.tableau.table.count {
            self.with_row(choice, node, Subformula(e), &mut t);
        }
        t
    }

    // The priorities that are least fixpoints.
    pub fn least_mask(&self) -> u8
        ensures { (i : ℕ) → bit result i ≡ get_or (leasts (operators self.now.tableau.now)) i false }
    {
        let mut mask = 0u8;
        for e in 0..self.tableau.table.count {
            if is_least(&self.tableau.table.rows, Subformula(e)) {
                mask |= 1 << self.ranks.fix[e];
            }
        }
        mask
    }
}
