// What the variables of a code hold.
ghost use Rattle.std.specs.Prelude.{◌≡◌, ◌≤◌, ◌++◌, map, IfOk, OnOk};
ghost use Rattle.pungi_code.specs.Limits.{most_variables};
ghost use Rattle.pungi_layout.specs.code.Sound.{stmt_nodes};
ghost use Rattle.pungi_resolved.specs.ActionView.{declared_view, action_view, actions_of, function_view};
ghost use Rattle.pungi_layout.specs.code.VarKinds.{kind_held, stmt_declared, stmts_declared, temp_kinds};
ghost use Rattle.pungi_layout.specs.code.VarKinds.{var_kinds as kinds_of_vars};

use crate::expr::call_kinds::{add_params, held_kind};
use crate::function::levels::stmt_levels;
use pungi_api::Param;
use pungi_base::{Memory, Seq};
use pungi_resolved::{Action, ActionNode, DeclaredLocal, Function};
use std::alloc::Global;

fn add_declared(kinds: &mut Seq<Param>, list: &[DeclaredLocal]) -> Result<(), Memory>
    ensures { OnOk result (kinds.new ≡ kinds.old ++ map kind_held (map declared_view list.now)) }
{
    for reached in list {
        kinds.push(held_kind(reached.kind))?;
    }
    Ok(())
}

/// The locals that a statement declares, those of the statements in it too.
#[cycle(add)]
#[tactic(auto, using(crate::proofs::function::VarKinds::both_added))]
fn add_stmt(kinds: &mut Seq<Param>, action: &Action) -> Result<(), Memory>
    ensures { OnOk result (kinds.new ≡ kinds.old ++ map kind_held (stmt_declared (action_view action.now))) }
{
    match &action.node {
        ActionNode::Block(list, _) => Ok(add_list(kinds, list)?),
        ActionNode::Declare(list) => Ok(add_declared(kinds, list)?),
        ActionNode::If(_, a)
        | ActionNode::While(_, a)
        | ActionNode::DoWhile(a, _)
        | ActionNode::Switch(_, a)
        | ActionNode::Case(_, a)
        | ActionNode::Default(a)
        | ActionNode::Label(_, a) => Ok(add_stmt(kinds, a)?),
        ActionNode::IfElse(_, a, b) => {
            add_stmt(kinds, a)?;
            Ok(add_stmt(kinds, b)?)
        }
        ActionNode::For(list, _, _, _, a) => {
            add_declared(kinds, list)?;
            Ok(add_stmt(kinds, a)?)
        }
        ActionNode::Do(_)
        | ActionNode::Goto(_)
        | ActionNode::Break
        | ActionNode::Continue
        | ActionNode::Return(_, _) => Ok(()),
    }
}

#[cycle(add)]
fn add_list(kinds: &mut Seq<Param>, list: &[Action]) -> Result<(), Memory>
    ensures { OnOk result (kinds.new ≡ kinds.old ++ map kind_held (stmts_declared
        (actions_of (map action_view list.now)))) }
{
    for action in list {
        add_stmt(kinds, action)?;
    }
    Ok(())
}

/// The variables of a level, in the order of the columns.
fn add_level(kinds: &mut Seq<Param>) -> Result<(), Memory>
    ensures { OnOk result (kinds.new ≡ kinds.old ++ temp_kinds 1) }
{
    kinds.push(Param::Int)?;
    kinds.push(Param::Long)?;
    kinds.push(Param::Size)?;
    kinds.push(Param::TextOrNull)?;
    kinds.push(Param::ObjectOrNull)
}

fn add_temps(kinds: &mut Seq<Param>, levels: u32) -> Result<(), Memory>
    ensures { OnOk result (kinds.new ≡ kinds.old ++ temp_kinds levels) }
{
    for _i in 0..levels {
        add_level(kinds)?;
    }
    Ok(())
}

/// All variables of the code of a function: the parameters, the other locals, the temporaries.
pub fn var_kinds(alloc: Global, f: &Function) -> Result<Seq<Param>, Memory>
    requires { stmt_nodes (function_view f.now).body ≤ most_variables }
    ensures { IfOk result (λ kinds. kinds ≡ kinds_of_vars (function_view f.now)) }
{
    let mut kinds = Seq::new(Vec::new(alloc));
    add_params(&mut kinds, f.params.as_slice())?;
    add_stmt(&mut kinds, &f.body)?;
    add_temps(&mut kinds, stmt_levels(&f.body))?;
    Ok(kinds)
}
