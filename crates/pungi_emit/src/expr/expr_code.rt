// The instructions of expressions.
ghost use Rattle.std.specs.Prelude.{◌≡◌, ◌+◌, ◌<◌, ◌≤◌, ◌^◌, ◌++◌, length, OnOk};
ghost use Rattle.pungi_code.specs.Limits.{most_instructions};
ghost use Rattle.pungi_resolved.specs.ValueView.{value_view, place_view};
ghost use Rattle.pungi_resolved.specs.Values.{stepped, computed, compared, joined_by, stored, updated};
ghost use Rattle.pungi_resolved.specs.Values.{emptied, chosen};
ghost use Rattle.pungi_layout.specs.code.Sizes.{expr_size, place_size};
ghost use Rattle.pungi_layout.specs.code.Sound.{IsSound, IsPlaceSound, expr_nodes, place_nodes};
ghost use Rattle.pungi_layout.specs.code.ExprCode.{expr_code, base_code, old_code, base_var};

use crate::code::instructions::{Around, next_place, put, replace};
use crate::expr::calls::{
    emit_called, emit_called_row, emit_called_unless_null, emit_called_with_outputs,
};
use crate::expr::column::value_column;
use crate::expr::first_token::first_token;
use crate::expr::parts::{bit, branch_on, is_and};
use crate::expr::place::{emit_fit, emit_old, emit_store};
use crate::expr::step::emit_step;
use crate::expr::temporary::{
    above, atom, base_var, counted_var, operand, stored_var, temp, temp_of,
};
use crate::expr::unary::{emit_converted, emit_negated, emit_signed};
use pungi_base::{Kind, Memory, Pos, Punct, Seq};
use pungi_code::{Atom, Instr, Label, Line, Var};
use pungi_meaning::{Cmp, Op};
use pungi_resolved::{Place, Value as Node, ValueNode};
use pungi_types::ValueKind;

/// The base of a field, which waits where it is found again.
#[cycle(emit)]
fn emit_base(code: &mut Seq<Line>, around: Around, depth: u16, place: &Place) -> Result<(), Memory>
    requires sound { IsPlaceSound around.locals (place_view place.now) }
    requires deep { depth + place_nodes (place_view place.now) < 2 ^ 16 }
    requires long { length code.old + place_size (place_view place.now) ≤ most_instructions }
    ensures { OnOk result (code.new ≡ code.old ++ base_code around.locals depth (length code.old)
        (place_view place.now)) }
{
    match place {
        Place::Field(_, base, _, _) => {
            let target = temp_of(around.locals, depth, base);
            emit_value(code, around, depth, target, base)
        }
        _ => Ok(()),
    }
}

/// What a place holds goes on in `old`; its base stands in a variable of its own.
#[cycle(emit)]
fn emit_held(
    code: &mut Seq<Line>,
    around: Around,
    depth: u16,
    kind: ValueKind,
    place: &Place,
    old: u32,
) -> Result<(), Memory>
    requires sound { IsPlaceSound around.locals (place_view place.now) }
    requires deep { depth + place_nodes (place_view place.now) < 2 ^ 16 }
    requires long { length code.old + place_size (place_view place.now) ≤ most_instructions }
    ensures { OnOk result (code.new ≡ code.old ++ (base_code around.locals depth (length code.old)
        (place_view place.now) ++ old_code kind (place_view place.now) old (base_var around.locals
        (place_view place.now) depth))) }
{
    let base = base_var(around.locals, place, depth);
    emit_base(code, around, depth, place)?;
    emit_old(code, around.locals, kind, place, old, base)
}

/// `++` and `--`.
#[cycle(emit)]
fn emit_stepped(
    code: &mut Seq<Line>,
    around: Around,
    depth: u16,
    target: u32,
    pos: Pos,
    behind_it: bool,
    mark: Kind,
    kind: ValueKind,
    place: &Place,
) -> Result<(), Memory>
    requires sound { IsSound around.locals (stepped pos behind_it mark kind (place_view place.now)) }
    requires deep { depth + expr_nodes (stepped pos behind_it mark kind (place_view place.now)) < 2 ^ 16 }
    requires long { length code.old + expr_size (stepped pos behind_it mark kind (place_view place.now))
        ≤ most_instructions }
    ensures { OnOk result (code.new ≡ code.old ++ expr_code around.locals depth target (length code.old)
        (stepped pos behind_it mark kind (place_view place.now))) }
{
    if behind_it {
        let level = depth + 1;
        let value = temp(around.locals, level, kind);
        let old = temp(around.locals, above(place, level), kind);
        put(code, pos, Instr::Set(Var(target), bit(false)))?;
        emit_held(code, around, level, kind, place, old)?;
        put(code, pos, Instr::Set(Var(target), atom(old)))?;
        emit_step(code, around, level, value, pos, mark, kind, place)
    } else {
        let old = temp(around.locals, above(place, depth), kind);
        emit_held(code, around, depth, kind, place, old)?;
        emit_step(code, around, depth, target, pos, mark, kind, place)
    }
}

/// What a place holds goes on in `target`; the place holds `NULL` from then on.
#[cycle(emit)]
fn emit_emptied(
    code: &mut Seq<Line>,
    around: Around,
    depth: u16,
    target: u32,
    pos: Pos,
    kind: ValueKind,
    place: &Place,
) -> Result<(), Memory>
    requires sound { IsSound around.locals (emptied pos kind (place_view place.now)) }
    requires deep { depth + expr_nodes (emptied pos kind (place_view place.now)) < 2 ^ 16 }
    requires long { length code.old + expr_size (emptied pos kind (place_view place.now)) ≤ most_instructions }
    ensures { OnOk result (code.new ≡ code.old ++ expr_code around.locals depth target (length code.old)
        (emptied pos kind (place_view place.now))) }
{
    let level = depth + 1;
    let base = base_var(around.locals, place, level);
    let value = stored_var(around.locals, place, level, kind);
    let stored = temp(around.locals, level, kind);
    put(code, pos, Instr::Set(Var(target), Atom::Null))?;
    emit_held(code, around, level, kind, place, value)?;
    put(code, pos, Instr::Set(Var(target), atom(value)))?;
    put(code, pos, Instr::Set(Var(value), Atom::Null))?;
    emit_store(code, around.locals, kind, place, stored, base, value)
}

/// An assignment.
#[cycle(emit)]
fn emit_stored(
    code: &mut Seq<Line>,
    around: Around,
    depth: u16,
    target: u32,
    pos: Pos,
    kind: ValueKind,
    place: &Place,
    part: &Node,
) -> Result<(), Memory>
    requires sound { IsSound around.locals (stored pos kind (place_view place.now) (value_view part.now)) }
    requires deep { depth + expr_nodes (stored pos kind (place_view place.now) (value_view part.now)) < 2 ^ 16 }
    requires long { length code.old + expr_size (stored pos kind (place_view place.now) (value_view part.now))
        ≤ most_instructions }
    ensures { OnOk result (code.new ≡ code.old ++ expr_code around.locals depth target (length code.old)
        (stored pos kind (place_view place.now) (value_view part.now))) }
{
    let base = base_var(around.locals, place, depth);
    let value = stored_var(around.locals, place, depth, kind);
    let level = above(place, depth);
    emit_base(code, around, depth, place)?;
    emit_value(code, around, level, value, part)?;
    emit_store(code, around.locals, kind, place, target, base, value)?;
    Ok(())
}

/// `+=` and its kin.
#[cycle(emit)]
fn emit_updated(
    code: &mut Seq<Line>,
    around: Around,
    depth: u16,
    target: u32,
    pos: Pos,
    mark: Punct,
    counted: ValueKind,
    kind: ValueKind,
    place: &Place,
    part: &Node,
) -> Result<(), Memory>
    requires sound { IsSound around.locals (updated pos mark counted kind (place_view place.now)
        (value_view part.now)) }
    requires deep { depth + expr_nodes (updated pos mark counted kind (place_view place.now) (value_view part.now))
        < 2 ^ 16 }
    requires long { length code.old + expr_size (updated pos mark counted kind (place_view place.now)
        (value_view part.now)) ≤ most_instructions }
    ensures { OnOk result (code.new ≡ code.old ++ expr_code around.locals depth target (length code.old)
        (updated pos mark counted kind (place_view place.now) (value_view part.now))) }
{
    let locals = around.locals;
    let level = above(place, depth);
    let next_level = level + 1;
    let old = temp(locals, level, kind);
    let right = temp_of(locals, next_level, part);
    let base = base_var(locals, place, depth);
    let value = stored_var(locals, place, depth, kind);
    let outcome = counted_var(locals, place, depth, kind, counted);
    emit_held(code, around, depth, kind, place, old)?;
    emit_value(code, around, next_level, right, part)?;
    let instr = Instr::Arith(Var(outcome), counted, Op::of(mark), atom(old), atom(right));
    put(code, pos, instr)?;
    emit_fit(code, pos, kind, counted, value, outcome)?;
    emit_store(code, around.locals, kind, place, target, base, value)?;
    Ok(())
}

/// Two operands, each in its variable.
#[cycle(emit)]
fn emit_operands(
    code: &mut Seq<Line>,
    around: Around,
    depth: u16,
    left: u32,
    right: u32,
    a: &Node,
    b: &Node,
) -> Result<(), Memory>
    requires sound { IsSound around.locals (value_view a.now) × IsSound around.locals (value_view b.now) }
    requires deep { depth + (expr_nodes (value_view a.now) + expr_nodes (value_view b.now) + 1) < 2 ^ 16 }
    requires long { length code.old + (expr_size (value_view a.now) + expr_size (value_view b.now))
        ≤ most_instructions }
    ensures { OnOk result (code.new ≡ code.old ++ (expr_code around.locals depth left (length code.old)
        (value_view a.now) ++ expr_code around.locals (depth + 1) right (length code.old
        + expr_size (value_view a.now)) (value_view b.now))) }
{
    let level = depth + 1;
    emit_value(code, around, depth, left, a)?;
    emit_value(code, around, level, right, b)?;
    Ok(())
}

/// An operation on two numbers.
#[cycle(emit)]
fn emit_computed(
    code: &mut Seq<Line>,
    around: Around,
    depth: u16,
    target: u32,
    pos: Pos,
    mark: Punct,
    kind: ValueKind,
    a: &Node,
    b: &Node,
) -> Result<(), Memory>
    requires sound { IsSound around.locals (computed pos mark kind (value_view a.now) (value_view b.now)) }
    requires deep { depth + expr_nodes (computed pos mark kind (value_view a.now) (value_view b.now)) < 2 ^ 16 }
    requires long { length code.old + expr_size (computed pos mark kind (value_view a.now) (value_view b.now))
        ≤ most_instructions }
    ensures { OnOk result (code.new ≡ code.old ++ expr_code around.locals depth target (length code.old)
        (computed pos mark kind (value_view a.now) (value_view b.now))) }
{
    let left = temp_of(around.locals, depth, a);
    let right = temp_of(around.locals, depth + 1, b);
    emit_operands(code, around, depth, left, right, a, b)?;
    let instr = Instr::Arith(Var(target), kind, Op::of(mark), atom(left), atom(right));
    put(code, pos, instr)
}

/// A comparison.
#[cycle(emit)]
fn emit_compared(
    code: &mut Seq<Line>,
    around: Around,
    depth: u16,
    target: u32,
    pos: Pos,
    mark: Punct,
    a: &Node,
    b: &Node,
) -> Result<(), Memory>
    requires sound { IsSound around.locals (compared pos mark (value_view a.now) (value_view b.now)) }
    requires deep { depth + expr_nodes (compared pos mark (value_view a.now) (value_view b.now)) < 2 ^ 16 }
    requires long { length code.old + expr_size (compared pos mark (value_view a.now) (value_view b.now))
        ≤ most_instructions }
    ensures { OnOk result (code.new ≡ code.old ++ expr_code around.locals depth target (length code.old)
        (compared pos mark (value_view a.now) (value_view b.now))) }
{
    let left = operand(around.locals, depth, value_column(b), a);
    let right = operand(around.locals, depth + 1, value_column(a), b);
    emit_operands(code, around, depth, left, right, a, b)?;
    let instr = Instr::Compare(Var(target), Cmp::of(mark), atom(left), atom(right));
    put(code, pos, instr)
}

/// `&&` and `||`: the truth that waits is set to the other one. Each branch stands at the first token of its operand.
#[cycle(emit)]
fn emit_joined(
    code: &mut Seq<Line>,
    around: Around,
    depth: u16,
    target: u32,
    pos: Pos,
    mark: Punct,
    a: &Node,
    b: &Node,
) -> Result<(), Memory>
    requires sound { IsSound around.locals (joined_by pos mark (value_view a.now) (value_view b.now)) }
    requires deep { depth + expr_nodes (joined_by pos mark (value_view a.now) (value_view b.now)) < 2 ^ 16 }
    requires long { length code.old + expr_size (joined_by pos mark (value_view a.now) (value_view b.now))
        ≤ most_instructions }
    ensures { OnOk result (code.new ≡ code.old ++ expr_code around.locals depth target (length code.old)
        (joined_by pos mark (value_view a.now) (value_view b.now))) }
{
    let on = is_and(mark);
    let level = depth + 1;
    let left = temp_of(around.locals, level, a);
    let right = temp_of(around.locals, level, b);
    put(code, pos, Instr::Set(Var(target), bit(!on)))?;
    emit_value(code, around, level, left, a)?;
    let test = next_place(code);
    put(code, pos, Instr::Fall)?;
    emit_value(code, around, level, right, b)?;
    let last = next_place(code);
    let end = last + 2;
    let first = branch_on(on, left, test + 1, end);
    let second = branch_on(on, right, last + 1, end);
    let left_token = first_token(a);
    let right_token = first_token(b);
    replace(code, test, left_token, first);
    put(code, right_token, second)?;
    put(code, pos, Instr::Set(Var(target), bit(on)))?;
    Ok(())
}

/// `?:`.
#[cycle(emit)]
fn emit_chosen(
    code: &mut Seq<Line>,
    around: Around,
    depth: u16,
    target: u32,
    pos: Pos,
    c: &Node,
    a: &Node,
    b: &Node,
) -> Result<(), Memory>
    requires sound { IsSound around.locals (chosen pos (value_view c.now) (value_view a.now) (value_view b.now)) }
    requires deep { depth + expr_nodes (chosen pos (value_view c.now) (value_view a.now) (value_view b.now)) < 2 ^ 16 }
    requires long { length code.old + expr_size (chosen pos (value_view c.now) (value_view a.now)
        (value_view b.now)) ≤ most_instructions }
    ensures { OnOk result (code.new ≡ code.old ++ expr_code around.locals depth target (length code.old)
        (chosen pos (value_view c.now) (value_view a.now) (value_view b.now))) }
{
    let value = temp_of(around.locals, depth, c);
    emit_value(code, around, depth, value, c)?;
    let test = next_place(code);
    put(code, pos, Instr::Fall)?;
    emit_value(code, around, depth, target, a)?;
    let jump = next_place(code);
    put(code, pos, Instr::Fall)?;
    emit_value(code, around, depth, target, b)?;
    let end = next_place(code);
    let branch = branch_on(true, value, test + 1, jump + 1);
    let token = first_token(c);
    replace(code, jump, pos, Instr::Jump(Label(end)));
    replace(code, test, token, branch);
    Ok(())
}

/// The instructions of an expression: they leave its value in a variable, where so many values wait below it.
#[cycle(emit)]
pub fn emit_value(
    code: &mut Seq<Line>,
    around: Around,
    depth: u16,
    target: u32,
    node: &Node,
) -> Result<(), Memory>
    requires sound { IsSound around.locals (value_view node.now) }
    requires deep { depth + expr_nodes (value_view node.now) < 2 ^ 16 }
    requires long { length code.old + expr_size (value_view node.now) ≤ most_instructions }
    ensures { OnOk result (code.new ≡ code.old ++ expr_code around.locals depth target (length code.old)
        (value_view node.now)) }
{
    let pos = node.pos;
    match &node.node {
        ValueNode::Constant(n) => put(code, pos, Instr::Set(Var(target), Atom::Int(*n))),
        ValueNode::Text(_) | ValueNode::Module(_) => {
            put(code, pos, Instr::Set(Var(target), Atom::Text))
        }
        ValueNode::Null => put(code, pos, Instr::Set(Var(target), Atom::Null)),
        ValueNode::Static(object) => {
            put(code, pos, Instr::Set(Var(target), Atom::Static(*object)))
        }
        ValueNode::Read(kind, place) => emit_held(code, around, depth, *kind, place, target),
        ValueNode::Inner(part) | ValueNode::Cast(part) | ValueNode::Dropped(part) => {
            emit_value(code, around, depth, target, part)
        }
        ValueNode::Signed(mark, kind, part) => {
            emit_signed(code, around, depth, target, pos, *mark, *kind, part)
        }
        ValueNode::Negated(part) => emit_negated(code, around, depth, target, pos, part),
        ValueNode::Stepped(behind_it, mark, kind, place) => {
            emit_stepped(
                code, around, depth, target, pos, *behind_it, *mark, *kind, place,
            )
        }
        ValueNode::Emptied(kind, place) => {
            emit_emptied(code, around, depth, target, pos, *kind, place)
        }
        ValueNode::Computed(mark, kind, a, b) => {
            emit_computed(code, around, depth, target, pos, *mark, *kind, a, b)
        }
        ValueNode::Compared(mark, a, b) => {
            emit_compared(code, around, depth, target, pos, *mark, a, b)
        }
        ValueNode::Joined(mark, a, b) => {
            emit_joined(code, around, depth, target, pos, *mark, a, b)
        }
        ValueNode::Stored(kind, place, part) => {
            emit_stored(code, around, depth, target, pos, *kind, place, part)
        }
        ValueNode::Updated(mark, counted, kind, place, part) => {
            emit_updated(
                code, around, depth, target, pos, *mark, *counted, *kind, place, part,
            )
        }
        ValueNode::Chosen(c, a, b) => emit_chosen(code, around, depth, target, pos, c, a, b),
        ValueNode::Converted(kind, part) => {
            emit_converted(code, around, depth, target, pos, *kind, part)
        }
        ValueNode::Called(f, args) => emit_called(code, around, depth, target, pos, f, args),
        ValueNode::CalledRow(name, signature, args) => {
            emit_called_row(code, around, depth, target, pos, *name, signature, args)
        }
        ValueNode::CalledUnlessNull(name, signature, args) => {
            emit_called_unless_null(code, around, depth, target, pos, *name, signature, args)
        }
        ValueNode::CalledWithOutputs(name, signature, args, steps) => {
            let steps = steps.as_slice();
            emit_called_with_outputs(
                code, around, depth, target, pos, *name, signature, args, steps,
            )
        }
    }
}
