// Expressions.
ghost use Rattle.std.specs.Prelude.{◌≡◌, ◌∷◌, [], IfOk, OnOk, None, Some, map, reverse};
ghost use Rattle.pungi_resolved.specs.ValueView.{value_view, values_of, place_view};
ghost use Rattle.pungi_meaning.specs.Todo.{ToArgs, ToCompute, ToEval, ToOld, ToStore, listed_values};
ghost use Rattle.pungi_meaning.specs.Machine.{target_of, todo_of, todos, state_of, Matches};
ghost use Rattle.pungi_meaning.specs.Work.{push_value, replace_value, top};
ghost use Rattle.pungi_meaning.specs.Exprs.{base_first, convert, sign, step, is_and, step_op, evaluate, fetch};
ghost use Rattle.pungi_meaning.specs.Exprs.{step_place, step_after, empty_place, empty_after};

use crate::machine::{Ending, Machine};
use crate::slot::load_old;
use crate::stack::{newest, take};
use crate::task::{Target, Task};
use crate::{Cmp, Op, wide};
use pungi_base::{Choice, Kind, Memory, Pos, Punct, Value};
use pungi_resolved::{Place, Value as Node, ValueNode};
use pungi_types::ValueKind;
use pungi_types::operator::is_same_kind;
use std::alloc::Global;

fn is_and(mark: Punct) -> bool
    ensures { result ≡ is_and mark }
{
    match mark {
        Punct::AndAnd => true,
        _ => false,
    }
}

fn step_op(mark: Kind) -> Op
    ensures { result ≡ step_op mark }
{
    match mark {
        Kind::Punct(punct) => Op::of(punct),
        _ => Op::Add,
    }
}

/// One value more waits.
pub fn push_value(m: &mut Machine, value: Value) -> Result<Option<Ending>, Memory>
    ensures { IfOk result (λ halt. Matches (push_value value (todos m.old.tasks.items) (state_of m.old)) halt m.new) }
{
    m.values.push(value)?;
    Ok(None)
}

/// A value, in place of the newest one.
pub fn replace_value(m: &mut Machine, value: Value) -> Result<Option<Ending>, Memory>
    ensures { IfOk result (λ halt. Matches (replace_value [] value (todos m.old.tasks.items) (state_of m.old)) halt
        m.new) }
{
    take(&mut m.values);
    push_value(m, value)
}

/// One thing more comes first.
pub fn push_task<'a>(tasks: &mut Vec<Task<'a>>, task: Task<'a>) -> Result<(), Memory>
    ensures { OnOk result (todos tasks.new.items ≡ todo_of task.entry ∷ todos tasks.old.items) }
{
    tasks.push(task)?;
    Ok(())
}

/// One thing more comes first, and the run goes on.
pub fn do_first<'a>(m: &mut Machine<'a>, task: Task<'a>) -> Result<Option<Ending>, Memory>
    ensures goes { IfOk result (λ halt. halt ≡ None) }
    ensures todos { OnOk result (todos m.new.tasks.items ≡ todo_of task.entry ∷ todos m.old.tasks.items) }
    ensures state { OnOk result (state_of m.new ≡ state_of m.old) }
{
    push_task(&mut m.tasks, task)?;
    Ok(None)
}

/// A part, and what comes after it.
pub fn evaluate_then<'a>(
    m: &mut Machine<'a>,
    then: Task<'a>,
    part: &'a Node,
) -> Result<Option<Ending>, Memory>
    ensures goes { IfOk result (λ halt. halt ≡ None) }
    ensures todos { OnOk result (todos m.new.tasks.items
        ≡ ToEval (value_view part.now) ∷ todo_of then.entry ∷ todos m.old.tasks.items) }
    ensures state { OnOk result (state_of m.new ≡ state_of m.old) }
{
    do_first(m, then)?;
    do_first(m, Task::Eval(part))
}

/// Two parts, from left to right, and what comes after them.
fn evaluate_two_then<'a>(
    m: &mut Machine<'a>,
    then: Task<'a>,
    left: &'a Node,
    right: &'a Node,
) -> Result<Option<Ending>, Memory>
    ensures goes { IfOk result (λ halt. halt ≡ None) }
    ensures todos { OnOk result (todos m.new.tasks.items
        ≡ ToEval (value_view left.now) ∷ ToEval (value_view right.now) ∷ todo_of then.entry ∷ todos m.old.tasks.items) }
    ensures state { OnOk result (state_of m.new ≡ state_of m.old) }
{
    evaluate_then(m, then, right)?;
    do_first(m, Task::Eval(left))
}

/// The base of a field comes first.
fn base_first<'a>(m: &mut Machine<'a>, place: &'a Place) -> Result<Option<Ending>, Memory>
    ensures goes { IfOk result (λ halt. halt ≡ None) }
    ensures todos { OnOk result (todos m.new.tasks.items
        ≡ base_first (place_view place.now) (todos m.old.tasks.items)) }
    ensures state { OnOk result (state_of m.new ≡ state_of m.old) }
{
    match place {
        Place::Field(_, base, _, _) => do_first(m, Task::Eval(base)),
        _ => Ok(None),
    }
}

/// A conversion to another kind comes first.
fn convert(
    m: &mut Machine,
    pos: Pos,
    to: ValueKind,
    from: ValueKind,
) -> Result<Option<Ending>, Memory>
    ensures goes { IfOk result (λ halt. halt ≡ None) }
    ensures todos { OnOk result (todos m.new.tasks.items ≡ convert pos to from (todos m.old.tasks.items)) }
    ensures state { OnOk result (state_of m.new ≡ state_of m.old) }
{
    if is_same_kind(Some(to), Some(from)) {
        Ok(None)
    } else {
        do_first(m, Task::Fit(pos, to))
    }
}

/// A part with a sign. A minus does something, a plus does nothing.
fn evaluate_signed<'a>(
    m: &mut Machine<'a>,
    pos: Pos,
    mark: Kind,
    kind: ValueKind,
    part: &'a Node,
) -> Result<Option<Ending>, Memory>
    ensures goes { IfOk result (λ halt. halt ≡ None) }
    ensures todos { OnOk result (todos m.new.tasks.items
        ≡ ToEval (value_view part.now) ∷ sign pos mark kind (todos m.old.tasks.items)) }
    ensures state { OnOk result (state_of m.new ≡ state_of m.old) }
{
    match mark {
        Kind::Punct(Punct::Minus) => evaluate_then(m, Task::Minus(pos, kind), part),
        _ => do_first(m, Task::Eval(part)),
    }
}

/// An expression that reads a place.
fn fetch<'a>(
    m: &mut Machine<'a>,
    alloc: Global,
    choices: &[Choice],
    kind: ValueKind,
    place: &'a Place,
) -> Result<Option<Ending>, Memory>
    ensures { IfOk result (λ halt. Matches (fetch choices.now kind (place_view place.now) (todos m.old.tasks.items)
        (state_of m.old)) halt m.new) }
{
    match place {
        Place::Field(pos, base, tag, field) => {
            evaluate_then(m, Task::Load(*pos, kind, *tag, *field), base)
        }
        _ => load_old(m, alloc, choices, kind, place),
    }
}

/// The remainders of `++` and `--`.
fn step<'a>(
    m: &mut Machine<'a>,
    pos: Pos,
    mark: Kind,
    kind: ValueKind,
    place: &'a Place,
) -> Result<Option<Ending>, Memory>
    ensures goes { IfOk result (λ halt. halt ≡ None) }
    ensures todos { OnOk result (todos m.new.tasks.items
        ≡ step pos mark kind (place_view place.now) (todos m.old.tasks.items)) }
    ensures state { OnOk result (state_of m.new ≡ state_of m.old) }
{
    do_first(m, Task::Store(kind, place))?;
    convert(m, pos, kind, wide(kind))?;
    do_first(m, Task::Step(pos, step_op(mark), wide(kind)))
}

/// What a place holds is wanted before it is written.
fn look_first<'a>(
    m: &mut Machine<'a>,
    kind: ValueKind,
    place: &'a Place,
) -> Result<Option<Ending>, Memory>
    ensures goes { IfOk result (λ halt. halt ≡ None) }
    ensures todos { OnOk result (todos m.new.tasks.items
        ≡ base_first (place_view place.now) (ToOld kind (place_view place.now) ∷ todos m.old.tasks.items)) }
    ensures state { OnOk result (state_of m.new ≡ state_of m.old) }
{
    do_first(m, Task::Old(kind, place))?;
    base_first(m, place)
}

/// `++` and `--`.
fn step_place<'a>(
    m: &mut Machine<'a>,
    is_postfix: bool,
    pos: Pos,
    mark: Kind,
    kind: ValueKind,
    place: &'a Place,
) -> Result<Option<Ending>, Memory>
    ensures { IfOk result (λ halt. Matches (step_place is_postfix pos mark kind (place_view place.now)
        (todos m.old.tasks.items) (state_of m.old)) halt m.new) }
{
    if is_postfix {
        do_first(m, Task::Postfix(pos, mark, kind, place))?;
    } else {
        step(m, pos, mark, kind, place)?;
    }
    look_first(m, kind, place)
}

/// What a place holds, which holds `NULL` from then on.
fn empty_place<'a>(
    m: &mut Machine<'a>,
    kind: ValueKind,
    place: &'a Place,
) -> Result<Option<Ending>, Memory>
    ensures { IfOk result (λ halt. Matches (empty_place kind (place_view place.now)
        (todos m.old.tasks.items) (state_of m.old)) halt m.new) }
{
    do_first(m, Task::Empty(kind, place))?;
    look_first(m, kind, place)
}

/// `++` and `--` after a place, whose old content stays the value.
pub fn step_after<'a>(
    m: &mut Machine<'a>,
    pos: Pos,
    mark: Kind,
    kind: ValueKind,
    place: &'a Place,
) -> Result<Option<Ending>, Memory>
    ensures { IfOk result (λ halt. Matches (step_after pos mark kind (place_view place.now)
        (top (reverse m.old.values.items)) (todos m.old.tasks.items) (state_of m.old)) halt m.new) }
{
    let old = newest(&m.values);
    do_first(m, Task::Yield(old))?;
    step(m, pos, mark, kind, place)
}

/// A place is to hold `NULL`, and its old content stays the value.
pub fn empty_after<'a>(
    m: &mut Machine<'a>,
    kind: ValueKind,
    place: &'a Place,
) -> Result<Option<Ending>, Memory>
    ensures { IfOk result (λ halt. Matches (empty_after kind (place_view place.now)
        (top (reverse m.old.values.items)) (todos m.old.tasks.items) (state_of m.old)) halt m.new) }
{
    let old = newest(&m.values);
    do_first(m, Task::Yield(old))?;
    do_first(m, Task::Store(kind, place))?;
    replace_value(m, Value::Null)
}

/// `=`.
fn assign<'a>(
    m: &mut Machine<'a>,
    kind: ValueKind,
    place: &'a Place,
    part: &'a Node,
) -> Result<Option<Ending>, Memory>
    ensures goes { IfOk result (λ halt. halt ≡ None) }
    ensures todos { OnOk result (todos m.new.tasks.items
        ≡ base_first (place_view place.now) (ToEval (value_view part.now) ∷ ToStore kind (place_view place.now)
        ∷ todos m.old.tasks.items)) }
    ensures state { OnOk result (state_of m.new ≡ state_of m.old) }
{
    evaluate_then(m, Task::Store(kind, place), part)?;
    base_first(m, place)
}

/// `+=` and its kin.
fn update<'a>(
    m: &mut Machine<'a>,
    pos: Pos,
    op: Op,
    counted: ValueKind,
    kind: ValueKind,
    place: &'a Place,
    part: &'a Node,
) -> Result<Option<Ending>, Memory>
    ensures goes { IfOk result (λ halt. halt ≡ None) }
    ensures todos { OnOk result (todos m.new.tasks.items
        ≡ base_first (place_view place.now) (ToOld kind (place_view place.now) ∷ ToEval (value_view part.now)
        ∷ ToCompute pos op counted ∷ convert pos kind counted (ToStore kind (place_view place.now)
        ∷ todos m.old.tasks.items))) }
    ensures state { OnOk result (state_of m.new ≡ state_of m.old) }
{
    do_first(m, Task::Store(kind, place))?;
    convert(m, pos, kind, counted)?;
    evaluate_then(m, Task::Compute(pos, op, counted), part)?;
    look_first(m, kind, place)
}

/// The arguments of a call come first.
fn prepare<'a>(
    m: &mut Machine<'a>,
    pos: Pos,
    target: Target<'a>,
    args: &'a [Node],
) -> Result<Option<Ending>, Memory>
    ensures goes { IfOk result (λ halt. halt ≡ None) }
    ensures todos { OnOk result (todos m.new.tasks.items
        ≡ ToArgs pos (target_of target.entry) (listed_values (values_of (map value_view args.now))) 0
        ∷ todos m.old.tasks.items) }
    ensures state { OnOk result (state_of m.new ≡ state_of m.old) }
{
    do_first(m, Task::Args(pos, target, args, 0))
}

/// An expression is evaluated, or leaves its parts and its remainder.
pub fn evaluate<'a>(
    m: &mut Machine<'a>,
    alloc: Global,
    choices: &[Choice],
    node: &'a Node,
) -> Result<Option<Ending>, Memory>
    ensures { IfOk result (λ halt. Matches (evaluate choices.now (value_view node.now) (todos m.old.tasks.items)
        (state_of m.old)) halt m.new) }
{
    match &node.node {
        ValueNode::Constant(n) => push_value(m, Value::Int(*n)),
        ValueNode::Text(_) => push_value(m, Value::Text),
        ValueNode::Null => push_value(m, Value::Null),
        ValueNode::Static(n) => push_value(m, Value::Object(*n)),
        ValueNode::Module(_) => push_value(m, Value::Text),
        ValueNode::Read(kind, place) => fetch(m, alloc, choices, *kind, place),
        ValueNode::Inner(part) => do_first(m, Task::Eval(part)),
        ValueNode::Signed(mark, kind, part) => evaluate_signed(m, node.pos, *mark, *kind, part),
        ValueNode::Negated(part) => evaluate_then(m, Task::Negate, part),
        ValueNode::Stepped(is_postfix, mark, kind, place) => {
            step_place(m, *is_postfix, node.pos, *mark, *kind, place)
        }
        ValueNode::Emptied(kind, place) => empty_place(m, *kind, place),
        ValueNode::Computed(mark, kind, a, b) => {
            evaluate_two_then(m, Task::Compute(node.pos, Op::of(*mark), *kind), a, b)
        }
        ValueNode::Compared(mark, a, b) => {
            evaluate_two_then(m, Task::Compare(node.pos, Cmp::of(*mark)), a, b)
        }
        ValueNode::Joined(mark, a, b) => { evaluate_then(m, Task::Right(is_and(*mark), b), a) }
        ValueNode::Stored(kind, place, part) => assign(m, *kind, place, part),
        ValueNode::Updated(mark, counted, kind, place, part) => {
            update(m, node.pos, Op::of(*mark), *counted, *kind, place, part)
        }
        ValueNode::Chosen(c, a, b) => evaluate_then(m, Task::Pick(a, b), c),
        ValueNode::Converted(kind, part) => evaluate_then(m, Task::Fit(node.pos, *kind), part),
        ValueNode::Cast(part) => do_first(m, Task::Eval(part)),
        ValueNode::Dropped(part) => do_first(m, Task::Eval(part)),
        ValueNode::Called(function, args) => prepare(m, node.pos, Target::Defined(function), args),
        ValueNode::CalledRow(_, signature, args) => {
            prepare(m, node.pos, Target::Row(signature.get()), args)
        }
        ValueNode::CalledUnlessNull(_, signature, args) => {
            prepare(m, node.pos, Target::UnlessNull(signature.get()), args)
        }
        ValueNode::CalledWithOutputs(_, signature, args, steps) => {
            let target = Target::WithOutputs(signature.get(), steps.as_slice());
            prepare(m, node.pos, target, args)
        }
    }
}
