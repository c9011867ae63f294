// Reading a formula: bytes into its table of subformulas, or a refusal.
#![tactic(auto)]

ghost use Rattle.std.specs.Prelude.{◌≡◌, List, ℕ, ◌+◌, ◌≤◌, ◌<◌, length, IfOk};
ghost use Rattle.formula.specs.Refusal.{code_of, place_of, at_byte};
ghost use Rattle.formula.specs.Reading.{reading, within as allowed};
ghost use Rattle.formula.specs.Table as definitions;
ghost use Rattle.formula.specs.Table.{is_or, is_next, is_fix, width};
ghost use Rattle.formula.specs.Rows.{opcode_at, operator_at, end_at, opcode_byte, reading_of};
ghost use Rattle.formula.specs.Access.{decoded, Placed};
ghost use Rattle.formula.specs.Contract.{Filled, stored};
ghost use Rattle.formula.specs.Inner.{named, Decodes, point, Limits, RoomFor, OperatorCounted, Takes, Opening, Signals, Names, ScopeReady};
ghost use Rattle.formula.specs.Inner.{InsideReady, OperandScope, ReadBehind, Written, Command, ReadFrom};

// The number of a subformula (document 01: an entry), kept apart from positions on a lasso.
#[derive(Clone, Copy, PartialEq, Eq, Debug)]
pub struct Subformula(pub usize);

// The subformulas: how many, and their rows. The layout of the rows is said above `written`; code elsewhere asks `operator_at`, `is_or`,
// `is_next`, `is_fixpoint` and `end`.
#[derive(Clone, Copy, PartialEq, Eq, Debug)]
pub struct Table {
    pub count: usize,
    pub rows: [u8; 144],
}

// What a subformula is: its operator with the numbers of its operands, a signal's number, or the number of a variable's binder.
#[derive(Clone, Copy, PartialEq, Eq, Debug)]
pub enum Operator {
    Constant(bool),
    Signal {
        present: bool,
        signal: u8,
    },
    Variable(Subformula),
    Pair {
        either: bool,
        left: Subformula,
        right: Subformula,
    },
    Next(Subformula),
    Fixpoint {
        greatest: bool,
        body: Subformula,
    },
}

// What was wrong where the answer to a question of reading was no, by the question's number (MEANING 1.4); question 8 has a refusal of its
// own.
#[derive(Clone, Copy, PartialEq, Eq, Debug)]
pub enum Fault {
    // The bytes end where an operator is due.
    MissingOperator = 1,
    // The byte is no opcode.
    UnknownOpcode = 2,
    // There are 48 operators before it.
    TooManyOperators = 3,
    // With it there are more than 12 or, 12 next or 7 fixpoints.
    TooManyOfKind = 4,
    // The bytes end where an operand byte is due.
    MissingOperand = 5,
    // The signal is above 15.
    UnknownSignal = 6,
    // The depth names no fixpoint around the variable.
    UnboundVariable = 7,
    // The formula is complete, and bytes are left.
    BytesLeft = 9,
}

// Why reading stopped: a fault, with the byte's place; or 8, with the place of the variable's operand and that of the byte of its binder.
#[derive(Clone, Copy, PartialEq, Eq, Debug)]
pub enum Refusal {
    AtByte { fault: Fault, at: usize },
    Unguarded { at: usize, binder_at: usize },
}

impl Fault {
    // The refusal for it at a byte.
    fn at(self, at: usize) -> Refusal
        ensures { result ≡ at_byte self at }
    {
        Refusal::AtByte { fault: self, at }
    }
}

// The code that is told of any refusal.
pub fn code_of(why: Refusal) -> u8
    ensures { result ≡ code_of why }
{
    match why {
        Refusal::AtByte { fault, .. } => fault as u8,
        Refusal::Unguarded { .. } => 8,
    }
}

// The place of the byte that stopped it: of an unguarded variable the one of its operand.
pub fn place_of(why: Refusal) -> usize
    ensures { result ≡ place_of why }
{
    match why {
        Refusal::AtByte { at, .. } | Refusal::Unguarded { at, .. } => at,
    }
}

// The operators by their opcodes: MEANING 1.1.
#[derive(Clone, Copy, PartialEq, Eq, Debug)]
pub enum Opcode {
    True = 1,
    False = 2,
    Present = 3,
    Absent = 4,
    Variable = 5,
    Or = 6,
    And = 7,
    Next = 8,
    Least = 9,
    Greatest = 10,
}

// Question 2: the operator that a byte begins.
impl TryFrom<u8> for Opcode {
    type Error = Fault;

    ghost try_from_gives = { Decodes };

    fn try_from(byte: u8) -> Result<Opcode, Fault> {
        match byte {
            1 => Ok(Opcode::True),
            2 => Ok(Opcode::False),
            3 => Ok(Opcode::Present),
            4 => Ok(Opcode::Absent),
            5 => Ok(Opcode::Variable),
            6 => Ok(Opcode::Or),
            7 => Ok(Opcode::And),
            8 => Ok(Opcode::Next),
            9 => Ok(Opcode::Least),
            10 => Ok(Opcode::Greatest),
            _ => Err(Fault::UnknownOpcode),
        }
    }
}

// Where reading stands: the byte's place, and how many operators, or, next and fixpoints were read.
#[derive(Clone, Copy)]
struct Head {
    at: usize,
    count: usize,
    ors: usize,
    nexts: usize,
    fixpoints: usize,
}

// An enclosing fixpoint: its number, and the place of its byte.
#[derive(Clone, Copy)]
struct Binder {
    number: u8,
    place: usize,
}

// The enclosing fixpoints, outermost first: how many they are, and how many of them have a next inside.
#[derive(Clone, Copy)]
struct Scope {
    depth: usize,
    guarded: usize,
    binders: [Binder; 7],
}

// Whether there is room for one more operator: question 4.
fn within(op: Opcode, h: Head) -> bool
    ensures { (s : List ℕ) → result ≡ allowed (named op) (point s h) }
{
    match op {
        Opcode::Or => h.ors < 12,
        Opcode::Next => h.nexts < 12,
        Opcode::Least | Opcode::Greatest => h.fixpoints < 7,
        _ => true,
    }
}

// The operator op is counted.
fn counted(op: Opcode, h: Head) -> Head
    requires { RoomFor op h }
    ensures { OperatorCounted op h result }
{
    let mut x = h;
    x.count += 1;
    match op {
        Opcode::Or => x.ors += 1,
        Opcode::Next => x.nexts += 1,
        Opcode::Least | Opcode::Greatest => x.fixpoints += 1,
        _ => {}
    }
    x
}

// The questions 1 and 5: the byte at h, with where reading stands behind it.
fn byte_at(s: &[u8], h: Head, missing: Fault) -> Result<(u8, Head), Refusal>
    ensures { Takes s.now h missing result }
{
    let Some(&byte) = s.get(h.at) else {
        return Err(missing.at(h.at));
    };
    Ok((byte, Head { at: h.at + 1, ..h }))
}

// The questions about an operator's byte: 1, 2, 3 and 4. With the opcode comes where reading stands behind it.
fn opcode_at(s: &[u8], h: Head) -> Result<(Opcode, Head), Refusal>
    requires { Limits h }
    ensures { Opening s.now h result }
{
    let (byte, after) = byte_at(s, h, Fault::MissingOperator)?;
    let op = Opcode::try_from(byte).map_err(|fault| fault.at(h.at))?;
    if 48 <= h.count {
        return Err(Fault::TooManyOperators.at(h.at));
    }
    if !within(op, after) {
        return Err(Fault::TooManyOfKind.at(h.at));
    }
    Ok((op, counted(op, after)))
}

// The operand byte of a signal: the questions 5 and 6.
fn signal_at(s: &[u8], h: Head) -> Result<(u8, Head), Refusal>
    requires { Limits h }
    ensures { Signals s.now h result }
{
    let (signal, after) = byte_at(s, h, Fault::MissingOperand)?;
    if 15 < signal {
        return Err(Fault::UnknownSignal.at(h.at));
    }
    Ok((signal, after))
}

// The binder that the operand byte of a variable names: the questions 5, 7 and 8.
fn binder_at(s: &[u8], h: Head, scope: Scope) -> Result<(u8, Head), Refusal>
    requires { ScopeReady h scope }
    ensures { Names s.now h scope result }
{
    let (up, after) = byte_at(s, h, Fault::MissingOperand)?;
    let up = usize::from(up);
    if scope.depth <= up {
        return Err(Fault::UnboundVariable.at(h.at));
    }
    let outer = scope.depth - 1 - up;
    if scope.guarded <= outer {
        return Err(Refusal::Unguarded {
            at: h.at,
            binder_at: scope.binders[outer].place,
        });
    }
    Ok((scope.binders[outer].number, after))
}

// The scope of the operands of subformula me, whose byte is at a place.
fn inside(scope: Scope, me: Subformula, at: usize, op: Opcode) -> Scope
    requires { InsideReady scope me.0 op }
    ensures { OperandScope scope me.0 at op result }
{
    let e = me.0;
    let depth = scope.depth;
    let mut inner = scope;
    match op {
        Opcode::Next => inner.guarded = depth,
        Opcode::Least | Opcode::Greatest => {
            inner.binders[depth] = Binder {
                number: (e % 256) as u8,
                place: at,
            };
            inner.depth = depth + 1;
        }
        _ => {}
    }
    inner
}

// Reads an operator with all its operands, which come into the rows: where reading stands behind them.
fn command(s: &[u8], h: Head, rows: &mut [u8; 144], scope: Scope) -> Result<Head, Refusal>
    requires { ScopeReady h scope }
    ensures { Command s.now h rows.old scope rows.new result }
{
    let (op, after) = opcode_at(s, h)?;
    let me = Subformula(h.count);
    let (operand, behind) = match op {
        Opcode::True | Opcode::False => (0, after),
        Opcode::Present | Opcode::Absent => signal_at(s, after)?,
        Opcode::Variable => binder_at(s, after, scope)?,
        Opcode::Or | Opcode::And => {
            let inner = inside(scope, me, h.at, op);
            let left = command(s, after, rows, inner)?;
            (0, command(s, left, rows, inner)?)
        }
        Opcode::Next | Opcode::Least | Opcode::Greatest => {
            let inner = inside(scope, me, h.at, op);
            (0, command(s, after, rows, inner)?)
        }
    };
    written(rows, me, op, operand, behind);
    Ok(behind)
}

// Reads a whole formula that begins at a byte.
fn read_at(s: &[u8], at: usize) -> Result<Table, Refusal>
    ensures { ReadFrom s.now at result }
{
    let start = Head {
        at,
        count: 0,
        ors: 0,
        nexts: 0,
        fixpoints: 0,
    };
    let nowhere = Binder {
        number: 0,
        place: 0,
    };
    let outside = Scope {
        depth: 0,
        guarded: 0,
        binders: [nowhere; 7],
    };
    let mut rows = [0u8; 144];
    let h = command(s, start, &mut rows, outside)?;
    if h.at < s.len() {
        return Err(Fault::BytesLeft.at(h.at));
    }
    Ok(Table {
        count: h.count,
        rows,
    })
}

// The bytes of a formula together with the place of the byte that reading begins at: the papers name this pair (MEANING 1.5), so it stays.
#[derive(Clone, Copy)]
struct Reader<'a> {
    src: &'a [u8],
    at: usize,
}

// The reader at the first byte.
fn new<'a>(src: &'a [u8]) -> Reader<'a>
    ensures { (result.src ≡ src.entry) × (result.at ≡ 0) }
{
    Reader { src, at: 0 }
}

// Reads the formula that begins where the reader stands.
fn read_from<'a>(r: Reader<'a>) -> Result<Table, Refusal>
    ensures { ReadFrom r.entry.src.now r.entry.at result }
{
    read_at(r.src, r.at)
}

// Reads a whole formula.
pub fn read(s: &[u8]) -> Result<Table, Refusal>
    ensures outcome { reading_of result ≡ reading s.now }
    ensures table { IfOk result Filled }
    ensures determined { result ≡ stored (reading s.now) }
{
    read_from(new(s))
}

// The layout of the rows, known to the functions from here on and to no others. Of subformula e byte e is the opcode; byte 48 + e is what
// the operand byte stands for, a signal or the binder of a variable, and 0 where there is none; byte 96 + e is the length, the number of
// operators in it. Its first operand is e + 1, and a right one begins where that ends. What belongs to no subformula is 0. MEANING 11 gives
// this layout to callers, so it stays.

// Subformula me, read up to h, comes into the rows.
fn written(rows: &mut [u8; 144], me: Subformula, op: Opcode, operand: u8, h: Head)
    requires { ReadBehind me.0 h }
    ensures { Written h rows.old me.0 op operand rows.new }
{
    let e = me.0;
    rows[e] = op as u8;
    rows[48 + e] = operand;
    rows[96 + e] = ((h.count - e) % 256) as u8;
}

fn opcode_of(rows: &[u8; 144], s: Subformula) -> u8
    requires { s.0 < 48 }
    ensures { result ≡ opcode_at rows.now s.0 }
{
    let e = s.0;
    rows[e]
}

// The number that is so many after e.
fn after(e: usize, length: u8) -> usize
    requires { e < 48 }
    ensures { result ≡ e + length }
{
    e + usize::from(length)
}

// The number after the last subformula inside s.
pub fn end(rows: &[u8; 144], s: Subformula) -> usize
    requires { s.0 < 48 }
    ensures { result ≡ end_at rows.now s.0 }
{
    let e = s.0;
    after(e, rows[96 + e])
}

// Whether s is an or.
pub fn is_or(rows: &[u8; 144], s: Subformula) -> bool
    requires { s.0 < 48 }
    ensures { result ≡ is_or (operator_at rows.now s.0) }
{
    opcode_of(rows, s) == Opcode::Or as u8
}

// Whether it is a next.
pub fn is_next(rows: &[u8; 144], s: Subformula) -> bool
    requires { s.0 < 48 }
    ensures { result ≡ is_next (operator_at rows.now s.0) }
{
    opcode_of(rows, s) == Opcode::Next as u8
}

// Whether it is a fixpoint.
pub fn is_fixpoint(rows: &[u8; 144], s: Subformula) -> bool
    requires { s.0 < 48 }
    ensures { result ≡ is_fix (operator_at rows.now s.0) }
{
    let op = opcode_of(rows, s);
    (op == Opcode::Least as u8) | (op == Opcode::Greatest as u8)
}

// An or, or an and.
fn pair(rows: &[u8; 144], s: Subformula, either: bool) -> Operator
    requires { s.0 + 1 < 48 }
    ensures { definitions.Operator.pair either (s.0 + 1) (end_at rows.now (s.0 + 1)) ≡ decoded result }
{
    let left = Subformula(s.0 + 1);
    let right = Subformula(end(rows, left));
    Operator::Pair {
        either,
        left,
        right,
    }
}

// The operator of subformula s. A byte that is no opcode stands for a variable that is its own binder, which no table has.
pub fn operator_at(rows: &[u8; 144], s: Subformula) -> Operator
    requires { Placed rows.now s.0 }
    ensures { operator_at rows.now s.0 ≡ decoded result }
{
    let e = s.0;
    let Ok(op) = Opcode::try_from(rows[e]) else {
        return Operator::Variable(s);
    };
    let operand = rows[48 + e];
    let first = Subformula(e + 1);
    match op {
        Opcode::True => Operator::Constant(true),
        Opcode::False => Operator::Constant(false),
        Opcode::Present => Operator::Signal {
            present: true,
            signal: operand,
        },
        Opcode::Absent => Operator::Signal {
            present: false,
            signal: operand,
        },
        Opcode::Variable => Operator::Variable(Subformula(usize::from(operand))),
        Opcode::Or => pair(rows, s, true),
        Opcode::And => pair(rows, s, false),
        Opcode::Next => Operator::Next(first),
        Opcode::Least => Operator::Fixpoint {
            greatest: false,
            body: first,
        },
        Opcode::Greatest => Operator::Fixpoint {
            greatest: true,
            body: first,
        },
    }
}

// The byte of its opcode.
pub fn opcode_byte(operator: Operator) -> u8
    ensures { result ≡ opcode_byte (decoded operator) }
{
    let op = match operator {
        Operator::Constant(true) => Opcode::True,
        Operator::Constant(false) => Opcode::False,
        Operator::Signal { present: true, .. } => Opcode::Present,
        Operator::Signal { present: false, .. } => Opcode::Absent,
        Operator::Variable(_) => Opcode::Variable,
        Operator::Pair { either: true, .. } => Opcode::Or,
        Operator::Pair { either: false, .. } => Opcode::And,
        Operator::Next(_) => Opcode::Next,
        Operator::Fixpoint {
            greatest: false,
            ..
        } => Opcode::Least,
        Operator::Fixpoint { greatest: true, .. } => Opcode::Greatest,
    };
    op as u8
}

// How many bytes its spelling begins with, before those of its operands.
pub fn width(operator: Operator) -> usize
    ensures { (result ≡ width (decoded operator)) × (result ≤ 2) }
{
    match operator {
        Operator::Signal { .. } | Operator::Variable(_) => 2,
        Operator::Constant(_) | Operator::Pair { .. } | Operator::Fixpoint { .. } => 1,
        Operator::Next(_) => 1,
    }
}
