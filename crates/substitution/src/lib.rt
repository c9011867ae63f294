// Another formula in place of a subformula (MEANING 11; document 02: editing a rule): the spliced bytes, and the table that reading them
// gives.
#![tactic(auto)]

ghost use Rattle.std.specs.Prelude.{◌≡◌, true, ◌≤◌, ◌<◌, ltb, length, get_or, take};
ghost use Rattle.formula.specs.Reading.{reading};
ghost use Rattle.formula.specs.Rows.{operators_of, entries_of};
ghost use Rattle.formula.specs.Access.{Readable};
ghost use Rattle.formula.specs.Table.{bytes_before};
ghost use Rattle.context.specs.Bytes.{first_byte, last_byte};
ghost use Rattle.substitution.specs.Substitution.{of_number, of_new, substitution};
ghost use Rattle.substitution.specs.Contract.{turned_away, handed, number_of};
ghost use Rattle.substitution.specs.Inner.{ReadAs, spliced_at, Spans, Splices};

use formula::{Subformula, Table};

// Of which bytes reading speaks.
#[derive(Clone, Copy)]
pub enum Source {
    Old,
    New,
    Spliced,
}

// Why there is no substitution: reading refuses one of the formulas, or there is no such subformula, 37.
#[derive(Clone, Copy)]
pub enum Refusal {
    Unread {
        source: Source,
        why: formula::Refusal,
    },
    Missing,
}

// The answer, how many bytes there are now, with the table and the bytes. Refused, the table is the old formula's, or empty if that is
// refused itself, and the bytes are zero: they are promised beside a refusal, so they stand beside the answer.
#[derive(Clone, Copy)]
pub struct Substitution {
    pub answer: Result<usize, Refusal>,
    pub table: Table,
    pub bytes: [u8; 97],
}

// Where a subformula's bytes begin, and the place behind the last of them.
#[derive(Clone, Copy)]
struct Span {
    from: usize,
    to: usize,
}

// As many bytes as reading looks at, and how many there are. There is no heap, so the room for them is that for the most there can be.
#[derive(Clone, Copy)]
struct Prefix {
    bytes: [u8; 97],
    count: usize,
}

// An accepted formula has at most 96 bytes, and where there is a 97th, reading says no at it or before.
const BYTES: usize = 97;

// What stands for the table where the old formula has none.
const NO_TABLE: Table = Table {
    count: 0,
    rows: [0; 144],
};

// How many bytes the first n operators have.
fn bytes_before(t: Table, n: usize) -> usize
    requires { Readable t × (n ≤ t.count) }
    ensures { result ≡ bytes_before (operators_of t.rows 0 t.count) n }
{
    let mut sum = 0;
    for i in 0..n {
        sum += formula::width(formula::operator_at(&t.rows, Subformula(i)));
    }
    sum
}

// Where the bytes of a subformula stand.
fn span_of(t: Table, e: usize) -> Span
    requires { Readable t × (e < t.count) }
    ensures { (result.from ≡ first_byte (entries_of t) e) × (result.to ≡ last_byte (entries_of t) e) }
{
    let end = formula::end(&t.rows, Subformula(e));
    Span {
        from: bytes_before(t, e),
        to: bytes_before(t, end),
    }
}

// The old bytes with the new ones in place of those of a span, as far as reading looks at them.
fn splice(old: &[u8], span: Span, new: &[u8]) -> Prefix
    requires { Spans span old.now new.now }
    ensures { Splices (spliced_at span old.now new.now) result }
{
    let behind = new.iter().chain(old[span.to..].iter());
    let spliced = old[..span.from].iter().chain(behind);
    let mut bytes = [0u8; BYTES];
    let mut count = 0;
    for byte in spliced.take(BYTES) {
        bytes[count] = *byte;
        count += 1;
    }
    Prefix { bytes, count }
}

fn refused(why: Refusal, table: Table) -> Substitution
    ensures { result ≡ turned_away why table }
{
    Substitution {
        answer: Err(why),
        table,
        bytes: [0u8; BYTES],
    }
}

fn unread(source: Source, why: formula::Refusal, table: Table) -> Substitution
    ensures { result ≡ turned_away (Refusal.Unread source why) table }
{
    refused(Refusal::Unread { source, why }, table)
}

// Subformula e of the old formula, of which this is the table, gives place to the new one.
fn replaced(old: &[u8], t: Table, e: usize, new: &[u8]) -> Substitution
    requires { ReadAs old.now t × (e < t.count) × (length new.now ≤ 96) }
    ensures { result ≡ handed (of_number old.now (entries_of t) e new.now true) }
{
    let Prefix { bytes, count } = splice(old, span_of(t, e), new);
    match formula::read(&bytes[..count]) {
        Err(why) => unread(Source::Spliced, why, t),
        Ok(table) => Substitution {
            answer: Ok(count),
            table,
            bytes,
        },
    }
}

// Question 37: whether there is a subformula e.
fn numbered(old: &[u8], t: Table, e: usize, new: &[u8]) -> Substitution
    requires { ReadAs old.now t × (length new.now ≤ 96) }
    ensures { result ≡ handed (of_number old.now (entries_of t) e new.now
        (ltb e (length (entries_of t).operators))) }
{
    if e < t.count {
        return replaced(old, t, e, new);
    }
    refused(Refusal::Missing, t)
}

// The new formula is read before the number is looked at.
fn with_new(old: &[u8], t: Table, e: usize, new: &[u8]) -> Substitution
    requires { ReadAs old.now t }
    ensures { result ≡ handed (of_new old.now (entries_of t) e new.now (reading new.now)) }
{
    match formula::read(new) {
        Err(why) => unread(Source::New, why, t),
        Ok(_) => numbered(old, t, e, new),
    }
}

// The old formula with the new one in place of its subformula e.
pub fn substitute(old: &[u8], e: usize, new: &[u8]) -> Substitution
    ensures { result ≡ handed (substitution old.now e new.now) }
{
    match formula::read(old) {
        Err(why) => unread(Source::Old, why, NO_TABLE),
        Ok(t) => with_new(old, t, e, new),
    }
}

// The number of an answer: that of the question which is answered by no, or 0.
pub fn code_of(answer: Result<usize, Refusal>) -> u8
    ensures { result ≡ number_of answer }
{
    match answer {
        Ok(_) => 0,
        Err(Refusal::Unread { why, .. }) => formula::code_of(why),
        Err(Refusal::Missing) => 37,
    }
}
