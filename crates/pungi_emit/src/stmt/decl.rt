// The instructions of values that stand alone, of declared locals, of tests and of `return`.
ghost use Rattle.std.specs.Prelude.{◌≡◌, ◌+◌, ◌<◌, ◌≤◌, ◌^◌, ◌++◌, length, map, IfOk, OnOk};
ghost use Rattle.pungi_resolved.specs.ActionView.{declared_view, action_view, actions_of};
ghost use Rattle.pungi_code.specs.Limits.{most_instructions};
ghost use Rattle.pungi_resolved.specs.ValueView.{value_view, optional_view};
ghost use Rattle.pungi_meaning.specs.Work.{block_locals, action_locals};
ghost use Rattle.pungi_layout.specs.code.Sizes.{expr_size, option_size, declare_size, test_size};
ghost use Rattle.pungi_layout.specs.code.Sound.{IsSound, IsOptionSound, IsOptionWanted, AreDeclared, IsStmtSound};
ghost use Rattle.pungi_layout.specs.code.Sound.{AreStmtsSound, expr_nodes, option_nodes, declare_nodes};
ghost use Rattle.pungi_layout.specs.code.ExprCode.{expr_code};
ghost use Rattle.pungi_layout.specs.code.Temporaries.{temp_of, operand, local_column};
ghost use Rattle.pungi_layout.specs.code.StmtCode.{unset_code, value_code, option_code, bind_code, declare_code};
ghost use Rattle.pungi_layout.specs.code.StmtCode.{test_code, tested_code, return_code};

use crate::code::instructions::{Around, next_place, put};
use crate::expr::column::local_column;
use crate::expr::expr_code::emit_value;
use crate::expr::first_token::first_token;
use crate::expr::temporary::{atom, operand, temp_of};
use pungi_base::{Memory, Pos, Seq};
use pungi_code::{Instr, Label, Line, Var};
use pungi_resolved::{Action, ActionNode, DeclaredLocal, Value as Node};
use pungi_types::ValueKind;

/// A value that is the only one. The answer is the variable in which it stands.
pub fn emit_alone(code: &mut Seq<Line>, around: Around, node: &Node) -> Result<u32, Memory>
    requires sound { IsSound around.locals (value_view node.now) }
    requires few { expr_nodes (value_view node.now) < 2 ^ 16 }
    requires long { length code.old + expr_size (value_view node.now) ≤ most_instructions }
    ensures var { IfOk result (λ x. x ≡ temp_of around.locals 0 (value_view node.now)) }
    ensures code { OnOk result (code.new ≡ code.old ++ value_code around.locals (length code.old)
        (value_view node.now)) }
{
    let target = temp_of(around.locals, 0, node);
    emit_value(code, around, 0, target, node)?;
    Ok(target)
}

/// A value that may be missing.
pub fn emit_option(
    code: &mut Seq<Line>,
    around: Around,
    node: &Option<Box<Node>>,
) -> Result<(), Memory>
    requires sound { IsOptionSound around.locals (optional_view node.now) }
    requires few { option_nodes (optional_view node.now) < 2 ^ 16 }
    requires long { length code.old + option_size (optional_view node.now) ≤ most_instructions }
    ensures { OnOk result (code.new ≡ code.old ++ option_code around.locals (length code.old)
        (optional_view node.now)) }
{
    if let Some(node) = node {
        emit_alone(code, around, node)?;
        Ok(())
    } else {
        Ok(())
    }
}

/// A value that something of this kind gets. The answer is the variable in which it stands.
fn emit_wanted(
    code: &mut Seq<Line>,
    around: Around,
    kind: Option<ValueKind>,
    node: &Node,
) -> Result<u32, Memory>
    requires sound { IsSound around.locals (value_view node.now) }
    requires few { expr_nodes (value_view node.now) < 2 ^ 16 }
    requires long { length code.old + expr_size (value_view node.now) ≤ most_instructions }
    ensures var { IfOk result (λ x. x ≡ operand around.locals 0 (local_column kind) (value_view node.now)) }
    ensures code { OnOk result (code.new ≡ code.old ++ expr_code around.locals 0 (operand around.locals 0
        (local_column kind) (value_view node.now)) (length code.old) (value_view node.now)) }
{
    let target = operand(around.locals, 0, local_column(kind), node);
    emit_value(code, around, 0, target, node)?;
    Ok(target)
}

/// A declared local: it gets its value, or becomes unset.
fn emit_bind(code: &mut Seq<Line>, around: Around, reached: &DeclaredLocal) -> Result<(), Memory>
    requires local { reached.now.number < around.locals }
    requires sound { IsOptionWanted around.locals (optional_view reached.now.value) }
    requires few { option_nodes (optional_view reached.now.value) < 2 ^ 16 }
    requires long { length code.old + option_size (optional_view reached.now.value) ≤ most_instructions }
    ensures { OnOk result (code.new ≡ code.old ++ bind_code around.locals (length code.old) reached.now.at
        reached.now.number reached.now.kind (optional_view reached.now.value)) }
{
    let local = reached.number as u32;
    if let Some(node) = &reached.value {
        let value = emit_wanted(code, around, reached.kind, node)?;
        put(code, reached.at, Instr::Set(Var(local), atom(value)))
    } else {
        put(code, reached.at, Instr::Unset(Var(local)))
    }
}

/// Declared locals.
pub fn emit_declared(
    code: &mut Seq<Line>,
    around: Around,
    list: &[DeclaredLocal],
) -> Result<(), Memory>
    requires sound { AreDeclared around.locals (map declared_view list.now) }
    requires few { declare_nodes (map declared_view list.now) < 2 ^ 16 }
    requires long { length code.old + declare_size (map declared_view list.now) ≤ most_instructions }
    ensures { OnOk result (code.new ≡ code.old ++ declare_code around.locals (length code.old)
        (map declared_view list.now)) }
{
    for reached in list {
        emit_bind(code, around, reached)?;
    }
    Ok(())
}

/// Declared locals hold nothing.
pub fn emit_unset(
    code: &mut Seq<Line>,
    locals: u16,
    pos: Pos,
    list: &[DeclaredLocal],
) -> Result<(), Memory>
    requires { AreDeclared locals (map declared_view list.now) }
    ensures { OnOk result (code.new ≡ code.old ++ unset_code pos (map declared_view list.now)) }
{
    for reached in list {
        let local = reached.number as u32;
        put(code, pos, Instr::Unset(Var(local)))?;
    }
    Ok(())
}

/// The locals that a statement of a block declares hold nothing.
fn emit_own_unset(
    code: &mut Seq<Line>,
    locals: u16,
    pos: Pos,
    action: &Action,
) -> Result<(), Memory>
    requires { IsStmtSound locals (action_view action.now) }
    ensures { OnOk result (code.new ≡ code.old ++ unset_code pos (action_locals (action_view action.now))) }
{
    if let ActionNode::Declare(list) = &action.node {
        emit_unset(code, locals, pos, list)
    } else {
        Ok(())
    }
}

/// The locals that a block declares hold nothing.
pub fn emit_unsets(
    code: &mut Seq<Line>,
    locals: u16,
    pos: Pos,
    list: &[Action],
) -> Result<(), Memory>
    requires { AreStmtsSound locals (actions_of (map action_view list.now)) }
    ensures { OnOk result (code.new ≡ code.old ++ unset_code pos (block_locals (map action_view list.now))) }
{
    for action in list {
        emit_own_unset(code, locals, pos, action)?;
    }
    Ok(())
}

/// A test, and the branch after it, at the first token of what is tested.
pub fn emit_test(
    code: &mut Seq<Line>,
    around: Around,
    test: &Node,
    other: u32,
) -> Result<(), Memory>
    requires sound { IsSound around.locals (value_view test.now) }
    requires few { expr_nodes (value_view test.now) < 2 ^ 16 }
    requires long { length code.old + (expr_size (value_view test.now) + 1) ≤ most_instructions }
    ensures { OnOk result (code.new ≡ code.old ++ test_code around.locals (length code.old)
        (value_view test.now) (length code.old + expr_size (value_view test.now) + 1) other) }
{
    let value = emit_alone(code, around, test)?;
    let place = next_place(code);
    let go = place + 1;
    let token = first_token(test);
    put(
        code,
        token,
        Instr::Branch(atom(value), Label(go), Label(other)),
    )?;
    Ok(())
}

/// A test that may be missing.
pub fn emit_tested(
    code: &mut Seq<Line>,
    around: Around,
    test: &Option<Box<Node>>,
    other: u32,
) -> Result<(), Memory>
    requires sound { IsOptionSound around.locals (optional_view test.now) }
    requires few { option_nodes (optional_view test.now) < 2 ^ 16 }
    requires long { length code.old + test_size (optional_view test.now) ≤ most_instructions }
    ensures { OnOk result (code.new ≡ code.old ++ tested_code around.locals (length code.old)
        (optional_view test.now) (length code.old + test_size (optional_view test.now)) other) }
{
    if let Some(test) = test {
        emit_test(code, around, test, other)
    } else {
        Ok(())
    }
}

/// `return`, in a function with a result of this kind.
pub fn emit_return(
    code: &mut Seq<Line>,
    around: Around,
    pos: Pos,
    kind: Option<ValueKind>,
    node: &Option<Box<Node>>,
) -> Result<(), Memory>
    requires sound { IsOptionWanted around.locals (optional_view node.now) }
    requires few { option_nodes (optional_view node.now) < 2 ^ 16 }
    requires long { length code.old + (option_size (optional_view node.now) + 1) ≤ most_instructions }
    ensures { OnOk result (code.new ≡ code.old ++ return_code around.locals (length code.old) pos kind
        (optional_view node.now)) }
{
    if let Some(node) = node {
        let value = emit_wanted(code, around, kind, node)?;
        put(code, pos, Instr::Return(Some(atom(value))))
    } else {
        put(code, pos, Instr::Return(None))
    }
}
