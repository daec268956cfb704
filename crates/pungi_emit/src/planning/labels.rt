// The labels of a block.
ghost use Rattle.std.specs.Prelude.{◌≡◌, ◌≤◌, ◌++◌, length, map, IfOk, OnOk};
ghost use Rattle.pungi_resolved.specs.ActionView.{action_view};
ghost use Rattle.pungi_emit.specs.planning.Plans.{stmt_names, list_names, names_of, places_of};

use crate::planning::plan::{Plan, planned_all};
use crate::planning::scope::Placed;
use pungi_base::{Memory, Name, Seq};
use pungi_resolved::{Action, ActionNode};
use std::alloc::Global;

/// The labels of a statement that stand in no inner block.
fn own_names(names: &mut Seq<Name>, action: &Action) -> Result<(), Memory>
    ensures { OnOk result (names.new ≡ names.old ++ stmt_names (action_view action.now)) }
{
    match &action.node {
        ActionNode::Label(name, a) => {
            names.push(*name)?;
            own_names(names, a)
        }
        ActionNode::If(_, a)
        | ActionNode::While(_, a)
        | ActionNode::DoWhile(a, _)
        | ActionNode::For(_, _, _, _, a)
        | ActionNode::Switch(_, a)
        | ActionNode::Case(_, a)
        | ActionNode::Default(a) => own_names(names, a),
        ActionNode::IfElse(_, a, b) => {
            own_names(names, a)?;
            own_names(names, b)
        }
        ActionNode::Block(_, _)
        | ActionNode::Declare(_)
        | ActionNode::Do(_)
        | ActionNode::Goto(_)
        | ActionNode::Break
        | ActionNode::Continue
        | ActionNode::Return(_, _) => Ok(()),
    }
}

/// The labels of a block.
pub fn block_names(alloc: Global, list: &[Action]) -> Result<Seq<Name>, Memory>
    ensures { IfOk result (λ names. names ≡ list_names (map action_view list.now)) }
{
    let mut names = Seq::new(Vec::new(alloc));
    for action in list {
        own_names(&mut names, action)?;
    }
    Ok(names)
}

/// Labels, each at its place.
fn place_all(alloc: Global, names: &[Name], places: &[u32]) -> Result<Vec<Placed>, Memory>
    requires { length names.now ≡ length places.now }
    ensures names { IfOk result (λ labels. names_of labels.items ≡ names.now) }
    ensures places { IfOk result (λ labels. places_of labels.items ≡ places.now) }
{
    let mut labels = Vec::new(alloc);
    for i in 0..names.len() {
        labels.push(Placed {
            name: names[i],
            place: places[i],
        })?;
    }
    Ok(labels)
}

/// The labels of a block, each at its planned place.
pub fn plan_labels(
    alloc: Global,
    plan: &mut Plan<'_>,
    list: &[Action],
) -> Result<Vec<Placed>, Memory>
    requires { length (list_names (map action_view list.now)) ≤ length plan.old.left.now }
    ensures names { IfOk result (λ labels. names_of labels.items ≡ list_names (map action_view list.now)) }
    ensures places { IfOk result (λ labels. plan.old.left.now ≡ places_of labels.items ++ plan.new.left.now) }
{
    let names = block_names(alloc, list)?;
    let places = planned_all(plan, names.len());
    place_all(alloc, names.as_slice(), places)
}
