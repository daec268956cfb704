// What the lowering requires of a node.
ghost use Rattle.std.specs.Prelude.{◌≡◌, Some};
ghost use Rattle.pungi_meaning.specs.Exprs.{is_and, step_op};
ghost use Rattle.pungi_meaning.specs.Values.{slot_kind};
ghost use Rattle.pungi_layout.specs.code.ExprCode.{bit, branch_on};
ghost use Rattle.pungi_layout.specs.code.Parts.{is_minus, has_value, has_call_value};

use pungi_api::{Answer, CallAnswer, Param};
use pungi_base::{Kind, Punct};
use pungi_code::{Atom, Instr, Label, Var};
use pungi_meaning::Op;
use pungi_types::ValueKind;

/// A sign is a minus.
pub fn is_minus(mark: Kind) -> bool
    ensures { result ≡ is_minus mark }
{
    match mark {
        Kind::Punct(Punct::Minus) => true,
        _ => false,
    }
}

/// What a slot of this kind holds.
pub fn slot_kind(kind: ValueKind) -> Param
    ensures { result ≡ slot_kind kind }
{
    match kind {
        ValueKind::Int => Param::Int,
        ValueKind::Long => Param::Long,
        ValueKind::Size => Param::Size,
        ValueKind::Text => Param::TextOrNull,
        _ => Param::ObjectOrNull,
    }
}

/// An operator is `&&`.
pub fn is_and(mark: Punct) -> bool
    ensures { result ≡ is_and mark }
{
    match mark {
        Punct::AndAnd => true,
        _ => false,
    }
}

/// The operator of `++` or `--`.
pub fn step_op(mark: Kind) -> Op
    ensures { result ≡ step_op mark }
{
    match mark {
        Kind::Punct(punct) => Op::of(punct),
        _ => Op::Add,
    }
}

/// The integer 0 or 1.
pub fn bit(holds: bool) -> Atom
    ensures { result ≡ bit holds }
{
    if holds { Atom::Int(1) } else { Atom::Int(0) }
}

/// On the wanted truth of a variable to one place, else to another.
pub fn branch_on(on: bool, var: u32, go: u32, other: u32) -> Instr
    ensures { result ≡ branch_on on var go other }
{
    let atom = Atom::Var(Var(var));
    if on {
        Instr::Branch(atom, Label(go), Label(other))
    } else {
        Instr::Branch(atom, Label(other), Label(go))
    }
}

fn has_value(answer: Answer) -> bool
    ensures { result ≡ has_value answer }
{
    match answer {
        Answer::Void => false,
        _ => true,
    }
}

/// A call with this answer leaves a value.
pub fn has_call_value(answer: CallAnswer) -> bool
    ensures { result ≡ has_call_value answer }
{
    match answer {
        CallAnswer::Of(answer) => has_value(answer),
        CallAnswer::Argument => true,
    }
}
