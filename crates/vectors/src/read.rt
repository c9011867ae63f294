// `read | HEX`: reading a formula. The outcome is `ACCEPTED` with the entries, an opcode each with its operand, operands' numbers or
// binder, or a refusal.
ghost use Rattle.std.specs.Prelude.{ℕ, ◌<◌};
ghost use Rattle.formula.specs.Access.{Placed, Readable};

use formula::{Operator, Subformula, Table};
use lines::say;

pub(crate) fn outcome(s: &[u8]) -> Option<()> {
    match formula::read(s) {
        Ok(table) => accepted(table),
        Err(why) => say::unread(why),
    }
    Some(())
}

fn accepted(table: Table)
    requires { Readable table }
{
    let rows = table.rows;
    say::put(b"ACCEPTED");
    entries(&rows, table.count);
}

fn entries(rows: &[u8; 144], count: usize)
    requires { (e : ℕ) → e < count → Placed rows.now e }
{
    for e in 0..count {
        entry(rows, Subformula(e));
    }
}

fn entry(rows: &[u8; 144], s: Subformula)
    requires { Placed rows.now s.0 }
{
    let operator = formula::operator_at(rows, s);
    opcode(formula::opcode_byte(operator));
    match operator {
        Operator::Constant(_) => {}
        Operator::Signal { signal, .. } => say::number(b':', usize::from(signal)),
        Operator::Variable(binder) => variable(rows, s, binder),
        Operator::Pair { left, right, .. } => {
            operand(left);
            operand(right);
        }
        Operator::Next(only) => operand(only),
        Operator::Fixpoint { body, .. } => operand(body),
    }
}

fn opcode(op: u8) {
    say::hex(b' ', u64::from(op), 2);
}

fn operand(s: Subformula) {
    say::number(b'/', s.0);
}

// A variable: its depth, and its binder.
fn variable(rows: &[u8; 144], s: Subformula, binder: Subformula)
    requires { s.0 < 48 }
{
    say::number(b':', depth(rows, s, binder));
    say::number(b'>', binder.0);
}

// How many fixpoints stand around the variable from its binder on, the binder not counted.
fn depth(rows: &[u8; 144], s: Subformula, binder: Subformula) -> usize
    requires { s.0 < 48 }
{
    let around = (binder.0..s.0).filter(|f| is_around(rows, s, Subformula(*f)));
    around.count().saturating_sub(1)
}

fn is_around(rows: &[u8; 144], s: Subformula, outer: Subformula) -> bool
    requires { outer.0 < 48 }
{
    formula::is_fixpoint(rows, outer) && s.0 < formula::end(rows, outer)
}
