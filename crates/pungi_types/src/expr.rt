//! The kind of an expression, and where rules hold in it.
ghost use Rattle.std.specs.Prelude.{◌≡◌, ◌+◌, ◌<◌, map, if◌then◌else◌, IfOk, OnOk};
ghost use Rattle.pungi_types.specs.Findings.{least_from, ◌and◌};
ghost use Rattle.pungi_types.specs.Calls.{first_met, passed_address, argument_form, callee, call_wants, meaning_kind};
ghost use Rattle.pungi_types.specs.Calls.{made_kind};
ghost use Rattle.pungi_types.specs.Exprs.{operand, kind_of, expr_findings, args_findings, arg_findings, are_met};
ghost use Rattle.pungi_types.specs.Exprs.{are_fixed_met, called_findings, cast_findings, cast_kind, is_call_met};
ghost use Rattle.pungi_types.specs.Exprs.{step_kind};
ghost use Rattle.pungi_types.specs.WantsView.{wants_view};
ghost use Rattle.pungi_types.specs.ExprParts.{used_of, word_findings, step_findings, binary_findings, assign_findings};
ghost use Rattle.pungi_types.specs.ExprParts.{cond_findings, made_findings};
ghost use Rattle.pungi_types.specs.Names.{meaning_of};
ghost use Rattle.pungi_types.specs.Kinds.{type_name_kind, made_struct};
ghost use Rattle.pungi_tree.specs.Syntax as plain;
ghost use Rattle.pungi_tree.specs.ExprView.{expr_view, exprs_of, type_name_view};

use crate::argument::{argument_form, is_place, names_type_object, passed_address};
use crate::call::{call_format, call_kind, callee_wants, fixed_met, how_many, is_word, note_call};
use crate::findings::{note, note_used, operand};
use crate::lookup::Lookup;
use crate::made::{made_kind, made_wrong, struct_only};
use crate::met::Met;
use crate::operator::{
    Prefix, assign_kind, assign_wrong, assigns_pointers, binary_kind, binary_wrong, cast_kind,
    cast_wrong, cond_kind, cond_wrong, crosses, int_kind, is_bad_int, is_bits, is_bits_assign,
    is_pointer, is_void, on_pointers, prefix_of, step_kind, steps_pointer, unary_kind, unary_wrong,
};
use crate::wants::{Wants, first_met, is_done, other_wants};
use crate::{Finding, ValueKind};
use pungi_base::{Kind, Memory, Name, Pos, Punct};
use pungi_tree::{Expr, ExprNode, TypeName};
use std::alloc::Global;

type Known = Option<ValueKind>;

/// The kind of an expression, and where rules hold in it.
#[cycle(expr)]
pub fn check_expr<N: Lookup>(
    alloc: Global,
    names: &N,
    first: &mut Option<Finding>,
    e: &Expr,
) -> Result<Known, Memory>
    ensures kind { IfOk result (λ k. k ≡ kind_of (N.env names.now) (expr_view e.now)) }
    ensures found { OnOk result (first.new ≡ least_from first.old (expr_findings (N.env names.now)
        (expr_view e.now))) }
{
    match &e.node {
        ExprNode::Word(name) => Ok(word(names, first, e.pos, *name)),
        ExprNode::Int {
            value,
            long,
            unsigned,
        } => {
            note(first, is_bad_int(*value, *unsigned), e.pos, 14);
            Ok(int_kind(*value, *long, *unsigned))
        }
        ExprNode::Float | ExprNode::SizeOfType(_) => {
            note(first, true, e.pos, 2);
            Ok(None)
        }
        ExprNode::Char(_) => Ok(Some(ValueKind::Int)),
        ExprNode::Text(_) => Ok(Some(ValueKind::Text)),
        ExprNode::Null => Ok(Some(ValueKind::Null)),
        ExprNode::Paren(a) => check_expr(alloc, names, first, a),
        ExprNode::Unary(op, a) => unary(alloc, names, first, e.pos, *op, a),
        ExprNode::Post(_, a) => {
            let kind = check_expr(alloc, names, first, a)?;
            Ok(step(first, e.pos, is_place(names, a), kind, a))
        }
        ExprNode::Binary(m, a, b) => {
            let left = check_expr(alloc, names, first, a)?;
            let right = check_expr(alloc, names, first, b)?;
            note_binary(first, e.pos, *m, left, a, right, b);
            Ok(binary_kind(*m, left, right))
        }
        ExprNode::Assign(m, a, b) => {
            let left = check_expr(alloc, names, first, a)?;
            let right = check_expr(alloc, names, first, b)?;
            let place = is_place(names, a);
            note_assign(first, e.pos, *m, place, left, a, right, b);
            Ok(assign_kind(*m, place, left, right))
        }
        ExprNode::Cond(c, a, b) => {
            let test = check_expr(alloc, names, first, c)?;
            let left = check_expr(alloc, names, first, a)?;
            let right = check_expr(alloc, names, first, b)?;
            note_cond(first, e.pos, test, c, left, a, right, b);
            Ok(cond_kind(test, left, right))
        }
        ExprNode::Comma(a, b) => {
            check_expr(alloc, names, first, a)?;
            check_expr(alloc, names, first, b)?;
            note(first, true, e.pos, 2);
            Ok(None)
        }
        ExprNode::Cast(name, a) => {
            let kind = check_expr(alloc, names, first, a)?;
            Ok(cast(names, first, e.pos, name, kind, a))
        }
        ExprNode::Call(f, list) => {
            let met = call_args(alloc, names, first, list, f)?;
            called(alloc, names, first, f)?;
            note_call(names, first, e.pos, f, list, met);
            Ok(call_kind(names, f, met.all))
        }
        ExprNode::New(name, a) => {
            let kind = check_expr(alloc, names, first, a)?;
            Ok(made(names, first, e.pos, name, kind, a))
        }
        ExprNode::Index(a, b) => {
            let left = check_expr(alloc, names, first, a)?;
            let right = check_expr(alloc, names, first, b)?;
            note(first, true, e.pos, 2);
            note_both_used(first, left, a, right, b);
            Ok(None)
        }
        ExprNode::Dot(a, _) => {
            let kind = check_expr(alloc, names, first, a)?;
            note(first, true, e.pos, 2);
            note_used(first, kind, a);
            Ok(None)
        }
        ExprNode::Arrow(a, name) => {
            let kind = check_expr(alloc, names, first, a)?;
            let field = names.field_kind(kind, *name);
            note_used(first, kind, a);
            note(first, field.is_none(), e.pos, 12);
            Ok(field)
        }
    }
}

fn word<N: Lookup>(names: &N, first: &mut Option<Finding>, pos: Pos, word: Name) -> Known
    ensures kind { result ≡ meaning_kind (meaning_of (N.env names.now) word.0) }
    ensures found { first.new ≡ least_from first.old (word_findings (meaning_of (N.env names.now) word.0) pos) }
{
    note(first, names.is_function(word), pos, 3);
    note(first, names.is_unknown(word), pos, 9);
    names.word_kind(word)
}

/// The values of two expressions are used.
fn note_both_used(first: &mut Option<Finding>, left: Known, a: &Expr, right: Known, b: &Expr)
    ensures { first.new ≡ least_from first.old (used_of left (expr_view a.now) and used_of right (expr_view b.now)) }
{
    note_used(first, left, a);
    note_used(first, right, b);
}

/// What holds at `++` or `--` after an operand of this kind, and the kind of the whole.
fn step(first: &mut Option<Finding>, pos: Pos, place: bool, kind: Known, a: &Expr) -> Known
    ensures kind { result ≡ step_kind place kind }
    ensures found { first.new ≡ least_from first.old (step_findings pos place kind (expr_view a.now)) }
{
    let wrong = unary_wrong(Prefix::Step, place, operand(kind, a));
    note(first, wrong, pos, 10);
    note_used(first, kind, a);
    note(first, is_pointer(kind), pos, 13);
    step_kind(place, kind)
}

/// What holds at a binary operator between operands of these kinds.
fn note_binary(
    first: &mut Option<Finding>,
    pos: Pos,
    m: Punct,
    left: Known,
    a: &Expr,
    right: Known,
    b: &Expr,
)
    ensures { first.new ≡ least_from first.old (binary_findings pos m left (expr_view a.now) right (expr_view b.now)) }
{
    let wrong = binary_wrong(m, operand(left, a), operand(right, b));
    note(first, is_bits(m), pos, 2);
    note(first, wrong, pos, 10);
    note_both_used(first, left, a, right, b);
    note(first, on_pointers(m, left, right), pos, 13);
}

/// What holds at an assignment to an operand of the first kind, which is a place or not.
fn note_assign(
    first: &mut Option<Finding>,
    pos: Pos,
    m: Punct,
    place: bool,
    left: Known,
    a: &Expr,
    right: Known,
    b: &Expr,
)
    ensures { first.new ≡ least_from first.old (assign_findings pos m place left (expr_view a.now) right
        (expr_view b.now)) }
{
    let wrong = assign_wrong(m, place, operand(left, a), operand(right, b));
    note(first, is_bits_assign(m), pos, 2);
    note(first, wrong, pos, 10);
    note_both_used(first, left, a, right, b);
    note(first, assigns_pointers(m, left, right), pos, 13);
}

/// What holds at a `?:` over operands of these kinds.
fn note_cond(
    first: &mut Option<Finding>,
    pos: Pos,
    test: Known,
    c: &Expr,
    left: Known,
    a: &Expr,
    right: Known,
    b: &Expr,
)
    ensures { first.new ≡ least_from first.old (cond_findings pos test (expr_view c.now) left (expr_view a.now)
        right (expr_view b.now)) }
{
    let wrong = cond_wrong(operand(test, c), operand(left, a), operand(right, b));
    note(first, wrong, pos, 10);
    note_used(first, test, c);
    note_both_used(first, left, a, right, b);
}

#[cycle(expr)]
fn unary<N: Lookup>(
    alloc: Global,
    names: &N,
    first: &mut Option<Finding>,
    pos: Pos,
    op: Kind,
    a: &Expr,
) -> Result<Known, Memory>
    ensures kind { IfOk result (λ k. k ≡ kind_of (N.env names.now) (plain.unary pos op (expr_view a.now))) }
    ensures found { OnOk result (first.new ≡ least_from first.old (expr_findings (N.env names.now)
        (plain.unary pos op (expr_view a.now)))) }
{
    let prefix = prefix_of(op);
    let type_object = names_type_object(names, a);
    if matches!(prefix, Prefix::Address) && type_object {
        return Ok(Some(ValueKind::Object(None)));
    }
    let kind = check_expr(alloc, names, first, a)?;
    let place = is_place(names, a);
    note(first, matches!(prefix, Prefix::LeftOut), pos, 2);
    note(first, matches!(prefix, Prefix::Address), pos, 5);
    note(first, unary_wrong(prefix, place, operand(kind, a)), pos, 10);
    note_used(first, kind, a);
    note(first, steps_pointer(prefix, kind), pos, 13);
    Ok(unary_kind(prefix, type_object, place, kind))
}

// A word that is called is examined by the call alone.
#[cycle(expr)]
fn called<N: Lookup>(
    alloc: Global,
    names: &N,
    first: &mut Option<Finding>,
    f: &Expr,
) -> Result<(), Memory>
    ensures { OnOk result (first.new ≡ least_from first.old (called_findings (N.env names.now) (expr_view f.now))) }
{
    if !is_word(f) {
        check_expr(alloc, names, first, f)?;
    }
    Ok(())
}

/// Where rules hold in the arguments of a call, and how far they are what they are to be.
#[cycle(expr)]
fn call_args<N: Lookup>(
    alloc: Global,
    names: &N,
    first: &mut Option<Finding>,
    list: &Vec<Expr>,
    f: &Expr,
) -> Result<Met, Memory>
    ensures fixed { IfOk result (λ m. m.fixed ≡ is_call_met (N.env names.now)
        (callee (N.env names.now) (expr_view f.now)) (exprs_of (map expr_view list.now.items))) }
    ensures all { IfOk result (λ m. m.all ≡ are_met (N.env names.now) (call_wants (N.env names.now)
        (callee (N.env names.now) (expr_view f.now)) (exprs_of (map expr_view list.now.items)))
        (exprs_of (map expr_view list.now.items))) }
    ensures found { OnOk result (first.new ≡ least_from first.old (args_findings (N.env names.now)
        (call_wants (N.env names.now) (callee (N.env names.now) (expr_view f.now))
        (exprs_of (map expr_view list.now.items))) (exprs_of (map expr_view list.now.items)))) }
{
    let wants = callee_wants(alloc, names, f, list)?;
    let format = call_format(names, f);
    args(alloc, names, first, format, wants.wants(), list)
}

#[cycle(expr)]
fn args<N: Lookup>(
    alloc: Global,
    names: &N,
    first: &mut Option<Finding>,
    format: Option<usize>,
    wants: Wants<'_>,
    list: &Vec<Expr>,
) -> Result<Met, Memory>
    ensures fixed { IfOk result (λ m. m.fixed ≡ are_fixed_met format (N.env names.now) (wants_view wants.entry)
        (exprs_of (map expr_view list.now.items))) }
    ensures all { IfOk result (λ m. m.all ≡ are_met (N.env names.now) (wants_view wants.entry)
        (exprs_of (map expr_view list.now.items))) }
    ensures found { OnOk result (first.new ≡ least_from first.old (args_findings (N.env names.now)
        (wants_view wants.entry) (exprs_of (map expr_view list.now.items)))) }
{
    let mut all = true;
    let mut front = 0;
    let mut rest = wants;
    for e in list {
        let fits = arg(alloc, names, first, rest, e)?;
        all = all && fits;
        front = counted(front, all);
        rest = other_wants(rest);
    }
    let all = all && is_done(rest);
    Ok(Met {
        fixed: fixed_met(format, how_many(list.as_slice()), all, front),
        all,
    })
}

#[cycle(expr)]
fn arg<N: Lookup>(
    alloc: Global,
    names: &N,
    first: &mut Option<Finding>,
    wants: Wants<'_>,
    e: &Expr,
) -> Result<bool, Memory>
    ensures met { IfOk result (λ m. m ≡ first_met (wants_view wants.entry) (argument_form (N.env names.now)
        (expr_view e.now)) (operand (kind_of (N.env names.now) (expr_view e.now)) (expr_view e.now))) }
    ensures found { OnOk result (first.new ≡ least_from first.old (arg_findings (passed_address (N.env names.now)
        (wants_view wants.entry) (expr_view e.now)) (N.env names.now) (expr_view e.now))) }
{
    let form = argument_form(names, e);
    if passed_address(names, wants, e) {
        return Ok(first_met(wants, form, None));
    }
    let kind = check_expr(alloc, names, first, e)?;
    note_used(first, kind, e);
    Ok(first_met(wants, form, operand(kind, e)))
}

/// One more, where this one is counted.
fn counted(count: usize, one: bool) -> usize
    requires { count < usize.MAX }
    ensures { result ≡ (if one then count + 1 else count) }
{
    if one { count + 1 } else { count }
}

/// What holds at `PyObject_New` of a type with an argument of this kind, and the kind of the whole.
fn made<N: Lookup>(
    names: &N,
    first: &mut Option<Finding>,
    pos: Pos,
    name: &TypeName,
    kind: Known,
    a: &Expr,
) -> Known
    ensures kind { result ≡ made_kind (made_struct (N.env names.now).file.items (type_name_view name.now))
        (operand kind (expr_view a.now)) }
    ensures found { first.new ≡ least_from first.old (made_findings (made_struct (N.env names.now).file.items
        (type_name_view name.now)) pos kind (expr_view a.now)) }
{
    let to = struct_only(names.type_kind(&name.spec, name.stars.len() + 1));
    let of = operand(kind, a);
    note(first, made_wrong(to, of), pos, 10);
    note_used(first, kind, a);
    made_kind(to, of)
}

fn cast<N: Lookup>(
    names: &N,
    first: &mut Option<Finding>,
    pos: Pos,
    name: &TypeName,
    kind: Known,
    a: &Expr,
) -> Known
    ensures kind { result ≡ cast_kind (type_name_kind (N.env names.now).file.items (type_name_view name.now)) kind }
    ensures found { first.new ≡ least_from first.old (cast_findings (type_name_kind (N.env names.now).file.items
        (type_name_view name.now)) pos (type_name_view name.now) kind (expr_view a.now)) }
{
    let to = names.type_kind(&name.spec, name.stars.len());
    note(first, to.is_none(), name.spec.pos, 1);
    note(first, crosses(to, kind), pos, 4);
    note(first, cast_wrong(to, operand(kind, a)), pos, 10);
    if !is_void(to) {
        note_used(first, kind, a);
    }
    cast_kind(to, kind)
}
