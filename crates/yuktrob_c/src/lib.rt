// The operations with the C calling convention: a slice comes as a pointer and a length, an array as a pointer, and each answer is one
// number. What can be any place in memory does not fit beside a refusal, and is put into words that the caller lends; the bytes and the
// table of an edit go into arrays.
#![tactic(auto)]

ghost use Rattle.std.specs.Prelude.{◌≡◌, ◌≤◌, ◌<◌, length};
ghost use Rattle.formula.specs.Reading.{Reading, reading};
ghost use Rattle.formula.specs.Rows.{entries_of};
ghost use Rattle.formula.specs.Access.{decoded, Fits, Readable};
ghost use Rattle.lasso.specs.Truth.{truth, written};
ghost use Rattle.lasso.specs.Contract.{lasso, answer};
ghost use Rattle.construction.specs.Contract as built;
ghost use Rattle.decision.specs.Contract.{says, leaves, cleared, kept};
ghost use Rattle.yuktrob_c.specs.Numbers.{number, refusal_number, Letters16, Early, TruthFits, VerdictFits};
ghost use Rattle.yuktrob_c.specs.Numbers.{reading_number, truth_number, found, verdict_number, verdict_of};
ghost use Rattle.yuktrob_c.specs.Numbers.{no_number, construction_number, construction_of, search_of, NoFits, ConstructionFits};
ghost use Rattle.safety.specs.Contract as safe;
ghost use Rattle.yuktrob_c.specs.Numbers.{safety_number, safety_of, SafetyFits};
ghost use Rattle.yuktrob_c.specs.Entry.{argument_of, packed, entry_number};
ghost use Rattle.catalogue.specs.Location.{location};
ghost use Rattle.catalogue.specs.Contract.{place_told, size_told};
ghost use Rattle.yuktrob_c.specs.Numbers.{location_number};
ghost use Rattle.substitution.specs.Substitution.{substitution};
ghost use Rattle.substitution.specs.Contract as edited;
ghost use Rattle.yuktrob_c.specs.Numbers.{source_number, edit_number, EditFits};
ghost use Rattle.joint.specs.Contract as joined;
ghost use Rattle.yuktrob_c.specs.Numbers.{joint_number, joint_of, JointFits};

use catalogue::Found;
use decision::Verdict;
use formula::{Operator, Refusal, Subformula, Table};
use substitution::Source;

// The lowest byte is a refusal's code or 0; what the answer carries stands above it.
fn number(code: u8, carried: usize) -> u64
    requires { carried < 72057594037927936 }
    ensures { result ≡ number code carried }
{
    (usize::from(code) + 256 * carried) as u64
}

// A refusal of reading with its place, and that of the binder if it has one.
fn refusal_number(why: Refusal) -> u64
    requires { Early why }
    ensures { result ≡ refusal_number why }
{
    let code = formula::code_of(why);
    match why {
        Refusal::AtByte { at, .. } => number(code, at),
        Refusal::Unguarded { at, binder_at } => number(code, at + 256 * binder_at),
    }
}

fn truth_number(t: Result<bool, lasso::Refusal>) -> u64
    requires { TruthFits t }
    ensures { result ≡ truth_number t }
{
    match t {
        Ok(on) => number(0, usize::from(on)),
        Err(lasso::Refusal::Unread(why)) => refusal_number(why),
        Err(why) => number(lasso::code_of(why), 0),
    }
}

// Why building, the decision or a search refuses: a refusal of reading, or a question, which carries nothing.
fn no_number(why: construction::Refusal) -> u64
    requires { NoFits why }
    ensures { result ≡ no_number why }
{
    match why {
        construction::Refusal::Unread(why) => refusal_number(why),
        construction::Refusal::No(question) => number(construction::question_code(question), 0),
    }
}

fn construction_number(c: Result<usize, construction::Refusal>) -> u64
    requires { ConstructionFits c }
    ensures { result ≡ construction_number c }
{
    match c {
        Ok(count) => number(0, count),
        Err(why) => no_number(why),
    }
}

// A verdict with its sizes.
fn found(met: usize, stem: usize, cycle: usize, nodes: usize, profiles: usize) -> u64
    requires met_bound { met ≤ 1 }
    requires letters_16 { Letters16 stem cycle nodes profiles }
    ensures { result ≡ number 0 (found met stem cycle nodes profiles) }
{
    let sizes = stem + 8192 * (cycle + 8192 * (nodes + 8192 * profiles));
    number(0, met + 2 * sizes)
}

fn verdict_number(v: Result<Verdict, construction::Refusal>) -> u64
    requires { VerdictFits v }
    ensures { result ≡ verdict_number v }
{
    match v {
        Ok(
            Verdict::Satisfiable {
                stem,
                cycle,
                nodes,
                profiles,
            },
        ) => found(1, stem, cycle, nodes, profiles),
        Ok(Verdict::Unsatisfiable { nodes, profiles }) => found(0, 0, 0, nodes, profiles),
        Err(why) => no_number(why),
    }
}

fn safety_number(v: Result<safety::Verdict, safety::Refusal>) -> u64
    requires { SafetyFits v }
    ensures { result ≡ safety_number v }
{
    match v {
        Ok(safety::Verdict::Satisfiable { stem, cycle, nodes }) => found(1, stem, cycle, nodes, 0),
        Ok(safety::Verdict::Unsatisfiable(nodes)) => found(0, 0, 0, nodes, 0),
        Err(safety::Refusal::Unread(why)) => refusal_number(why),
        Err(safety::Refusal::LeastAt(place)) => number(43, place),
        Err(safety::Refusal::No(question)) => number(construction::question_code(question), 0),
    }
}

// The number in an operator that is not the next subformula's: a signal, a binder or the right operand; 0 where there is none.
fn argument(operator: Operator) -> usize
    ensures { result ≡ argument_of (decoded operator) }
{
    match operator {
        Operator::Constant(_) => 0,
        Operator::Signal { signal, .. } => usize::from(signal),
        Operator::Variable(binder) => binder.0,
        Operator::Pair { right, .. } => right.0,
        Operator::Next(_) => 0,
        Operator::Fixpoint { .. } => 0,
    }
}

fn packed(operator: Operator, end: usize) -> u64
    requires { Fits 48 (decoded operator) × (end ≤ 48) }
    ensures { result ≡ number 0 (packed (decoded operator) end) }
{
    let behind = argument(operator) + 256 * end;
    number(
        0,
        usize::from(formula::opcode_byte(operator)) + 256 * behind,
    )
}

// Subformula e of a table, or 0 if it has no such subformula.
fn entry(t: Table, e: usize) -> u64
    requires { Readable t }
    ensures { result ≡ entry_number (Reading.accepted (entries_of t)) e }
{
    if e >= t.count {
        return 0;
    }
    let s = Subformula(e);
    packed(formula::operator_at(&t.rows, s), formula::end(&t.rows, s))
}

// Reads a formula: how many subformulas it has.
#[unsafe(no_mangle)]
pub extern "C" fn yuktrob_read(rule: &[u8]) -> u64
    ensures { result ≡ reading_number (reading rule.now) }
{
    match formula::read(rule) {
        Ok(t) => number(0, t.count),
        Err(why) => refusal_number(why),
    }
}

// One subformula of a formula.
#[unsafe(no_mangle)]
pub extern "C" fn yuktrob_entry(rule: &[u8], e: usize) -> u64
    ensures { result ≡ entry_number (reading rule.now) e }
{
    match formula::read(rule) {
        Ok(t) => entry(t, e),
        Err(why) => refusal_number(why),
    }
}

// The truth of a formula on a lasso.
#[unsafe(no_mangle)]
pub extern "C" fn yuktrob_truth(rule: &[u8], places: &[u16], lead: usize, words: &mut [u64]) -> u64
    ensures numbered { result ≡ truth_number
        (answer (truth rule.now (lasso places.now lead) (length words.old))) }
    ensures labelled { words.new ≡ written
        (truth rule.now (lasso places.now lead) (length words.old)) words.old }
{
    truth_number(lasso::evaluate(rule, places, lead, words))
}

// Whether any lasso meets a formula.
#[unsafe(no_mangle)]
pub extern "C" fn yuktrob_decide(
    rule: &[u8],
    nodes: usize,
    profiles: usize,
    work: &mut [u8],
    course: &mut [u16],
) -> u64
    ensures numbered { result ≡ verdict_number
        (says (verdict_of rule.now nodes profiles work.old course.old)) }
    ensures filled { course.new ≡ leaves
        (verdict_of rule.now nodes profiles work.old course.old) course.old }
    ensures emptied { work.new ≡ cleared nodes profiles
        (verdict_of rule.now nodes profiles work.old course.old) work.old }
{
    verdict_number(decision::decide(rule, nodes, profiles, work, course))
}

// The nodes of a formula, for searches over them.
#[unsafe(no_mangle)]
pub extern "C" fn yuktrob_build(rule: &[u8], nodes: usize, work: &mut [u8]) -> u64
    ensures numbered { result ≡ construction_number (built.says (construction_of rule.now nodes work.old)) }
    ensures filled { work.new ≡ built.leaves nodes
        (construction_of rule.now nodes work.old) work.old }
{
    construction_number(construction::build(rule, nodes, work))
}

// Whether any lasso meets a formula, over its nodes as building left them.
#[unsafe(no_mangle)]
pub extern "C" fn yuktrob_search(
    rule: &[u8],
    built: usize,
    nodes: usize,
    profiles: usize,
    work: &mut [u8],
    course: &mut [u16],
) -> u64
    ensures numbered { result ≡ verdict_number
        (says (search_of rule.now built nodes profiles work.old course.old)) }
    ensures filled { course.new ≡ leaves
        (search_of rule.now built nodes profiles work.old course.old) course.old }
    ensures emptied { work.new ≡ kept nodes profiles
        (search_of rule.now built nodes profiles work.old course.old) work.old }
{
    verdict_number(decision::search(rule, built, nodes, profiles, work, course))
}

// Whether any lasso meets a formula whose fixpoints are all greatest.
#[unsafe(no_mangle)]
pub extern "C" fn yuktrob_decide_safety(
    rule: &[u8],
    nodes: usize,
    work: &mut [u8],
    course: &mut [u16],
) -> u64
    ensures numbered { result ≡ safety_number
        (safe.says (safety_of rule.now nodes work.old course.old)) }
    ensures filled { course.new ≡ safe.leaves
        (safety_of rule.now nodes work.old course.old) course.old }
    ensures emptied { work.new ≡ safe.cleared nodes
        (safety_of rule.now nodes work.old course.old) work.old }
{
    safety_number(safety::decide_safety(rule, nodes, work, course))
}

fn location_number(l: Result<Found, catalogue::Refusal>) -> u64
    ensures { result ≡ location_number l }
{
    number(catalogue::code_of(l), catalogue::layer_of(l))
}

// Where the formula of a number is, in an overlay [the dealer's sheet] or a base catalogue [the factory's].
#[unsafe(no_mangle)]
pub extern "C" fn yuktrob_lookup(
    dealer: &[u8],
    factory: &[u8],
    number: u16,
    start: &mut usize,
    size: &mut usize,
) -> u64
    ensures numbered { result ≡ location_number (location dealer.now factory.now number) }
    ensures placed { start.new ≡ place_told (location dealer.now factory.now number) }
    ensures measured { size.new ≡ size_told (location dealer.now factory.now number) }
{
    let l = catalogue::locate(dealer, factory, number);
    *start = catalogue::place_of(l);
    *size = catalogue::size_of(l);
    location_number(l)
}

fn joint_number(j: Result<joint::Verdict, joint::Refusal>) -> u64
    requires { JointFits j }
    ensures { result ≡ joint_number j }
{
    match j {
        Ok(
            joint::Verdict::Satisfiable {
                stem,
                cycle,
                nodes,
                profiles,
            },
        ) => found(1, stem, cycle, nodes, profiles),
        Ok(
            joint::Verdict::Unsatisfiable {
                nodes,
                profiles,
                core,
            },
        ) => found(0, usize::from(core), 0, nodes, profiles),
        Err(joint::Refusal::Damaged(_)) => number(30, 0),
        Err(joint::Refusal::Miscounted) => number(34, 0),
        Err(joint::Refusal::Unread { position, why }) => refusal_number(why)
            + 16777216 * (position as u64),
        Err(joint::Refusal::No(question)) => number(construction::question_code(question), 0),
        Err(joint::Refusal::Untried(s)) => number(35, usize::from(s)),
    }
}

// Whether one lasso meets all formulas of a catalogue, and if none does, which of them clash.
#[unsafe(no_mangle)]
pub extern "C" fn yuktrob_decide_set(
    sheet: &[u8],
    nodes: usize,
    profiles: usize,
    work: &mut [u8],
    course: &mut [u16],
    place: &mut usize,
) -> u64
    ensures numbered { result ≡ joint_number
        (joined.says (joint_of sheet.now nodes profiles work.old course.old)) }
    ensures filled { course.new ≡ joined.leaves
        (joint_of sheet.now nodes profiles work.old course.old) course.old }
    ensures emptied { work.new ≡ joined.cleared nodes profiles
        (joint_of sheet.now nodes profiles work.old course.old) work.old }
    ensures placed { place.new ≡ joined.fault_told
        (joined.says (joint_of sheet.now nodes profiles work.old course.old)) }
{
    let j = joint::decide_all(sheet, nodes, profiles, work, course);
    *place = joint::fault_of(j);
    joint_number(j)
}

fn source_number(source: Source) -> usize
    ensures { (result ≡ source_number source) × (result ≤ 2) }
{
    match source {
        Source::Old => 0,
        Source::New => 1,
        Source::Spliced => 2,
    }
}

fn edit_number(answer: Result<usize, substitution::Refusal>, count: usize) -> u64
    requires { EditFits answer × (count ≤ 48) }
    ensures { result ≡ edit_number count answer }
{
    match answer {
        Ok(long) => number(0, long + 256 * count),
        Err(substitution::Refusal::Unread { source, why }) => {
            refusal_number(why) + 16777216 * (source_number(source) as u64)
        }
        Err(substitution::Refusal::Missing) => number(37, 0),
    }
}

// A formula with another one in place of a subformula: the spliced bytes, and the rows of the table.
#[unsafe(no_mangle)]
pub extern "C" fn yuktrob_edit(
    old: &[u8],
    e: usize,
    new: &[u8],
    spliced: &mut [u8; 97],
    rows: &mut [u8; 144],
) -> u64
    ensures numbered { result ≡ edit_number
        (edited.handed (substitution old.now e new.now)).table.count
        (edited.handed (substitution old.now e new.now)).answer }
    ensures spliced { spliced.new ≡ (edited.handed (substitution old.now e new.now)).bytes }
    ensures tabled { rows.new ≡ (edited.handed (substitution old.now e new.now)).table.rows }
{
    let r = substitution::substitute(old, e, new);
    let bytes = r.bytes;
    let entries = r.table.rows;
    *spliced = bytes;
    *rows = entries;
    edit_number(r.answer, r.table.count)
}
