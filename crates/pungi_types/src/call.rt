//! What the arguments of a call are to be, and where rules hold at it.
ghost use Rattle.std.specs.Prelude.{◌≡◌, ◌&&◌, ◌||◌, not, map, None, if◌then◌else◌, option_map, IfOk};
ghost use Rattle.pungi_types.specs.Findings.{least_from};
ghost use Rattle.pungi_types.specs.Calls.{is_word, how_many, callee, wants, call_wants, special_of, format_place};
ghost use Rattle.pungi_types.specs.Calls.{call_format, result_kind, takes_arguments};
ghost use Rattle.pungi_types.specs.Exprs.{is_unknown_call, is_value_called};
ghost use Rattle.pungi_types.specs.Formats.{format_at, parse_wants, build_wants, unpack_wants};
ghost use Rattle.pungi_types.specs.ExprParts.{special_in, fixed_met, call_findings};
ghost use Rattle.pungi_types.specs.WantsView.{wants_view, call_wants_view};
ghost use Rattle.pungi_tree.specs.ExprView.{expr_view, exprs_of};

use crate::findings::{note, note_some};
use crate::formats::{build_wants, format_at, format_pos, parse_wants, unpack_wants};
use crate::lookup::Lookup;
use crate::met::Met;
use crate::wants::Wants;
use crate::{CallWants, Finding, ValueKind};
use pungi_api::{Form, Row, Special};
use pungi_base::{Memory, Pos};
use pungi_tree::{Expr, ExprNode};
use std::alloc::Global;

type Known = Option<ValueKind>;

pub(crate) fn is_word(e: &Expr) -> bool
    ensures { result ≡ is_word (expr_view e.now) }
{
    matches!(&e.node, ExprNode::Word(_))
}

/// How many arguments a call has.
pub(crate) fn how_many(list: &[Expr]) -> usize
    ensures { result ≡ how_many (exprs_of (map expr_view list.now)) }
{
    list.len()
}

/// The rule of its own that a row has, if there is a row and it has one.
fn special_in(row: Option<&Row>) -> Option<Special>
    ensures { result ≡ special_in (option_map (λ r. r.now) row.entry) }
{
    match row {
        None => None,
        Some(row) => match row.form {
            Form::Plain => None,
            Form::Special(special) => Some(special),
        },
    }
}

/// The rule of its own of the row that a called expression names, if it names one that has one.
pub fn special_called<N: Lookup>(names: &N, f: &Expr) -> Option<Special>
    ensures { result ≡ special_of (callee (N.env names.now) (expr_view f.now)) }
{
    match &f.node {
        ExprNode::Word(name) => special_in(names.row(*name)),
        _ => None,
    }
}

/// Where a call of a row with this rule has its format, if it has one.
fn format_place(special: Option<Special>) -> Option<usize>
    ensures { result ≡ format_place special }
{
    match special {
        Some(Special::ParseTuple) => Some(1),
        Some(Special::BuildValue) => Some(0),
        _ => None,
    }
}

/// Where a call of this expression has its format, if it has one.
pub(crate) fn call_format<N: Lookup>(names: &N, f: &Expr) -> Option<usize>
    ensures { result ≡ call_format (callee (N.env names.now) (expr_view f.now)) }
{
    format_place(special_called(names, f))
}

/// What so many arguments of a called expression are to be, whatever they are.
fn row_wants<'a, N: Lookup>(names: &'a N, f: &Expr, list: &[Expr]) -> Wants<'a>
    ensures { wants_view result ≡ wants (N.env names.now) (callee (N.env names.now) (expr_view f.now))
        (how_many (exprs_of (map expr_view list.now))) }
{
    match &f.node {
        ExprNode::Word(name) => names.wants(*name, how_many(list)),
        _ => Wants::listed(&[]),
    }
}

fn parsing_wants<'a, N: Lookup>(
    alloc: Global,
    names: &N,
    list: &[Expr],
) -> Result<CallWants<'a>, Memory>
    ensures { IfOk result (λ ws. call_wants_view ws ≡ parse_wants (format_at (N.env names.now).file.texts 1
        (exprs_of (map expr_view list.now)))) }
{
    let format = format_at(alloc, names, 1, list)?;
    let wants = parse_wants(alloc, &format)?;
    Ok(CallWants::Made(wants))
}

fn building_wants<'a, N: Lookup>(
    alloc: Global,
    names: &N,
    list: &[Expr],
) -> Result<CallWants<'a>, Memory>
    ensures { IfOk result (λ ws. call_wants_view ws ≡ build_wants (format_at (N.env names.now).file.texts 0
        (exprs_of (map expr_view list.now)))) }
{
    let format = format_at(alloc, names, 0, list)?;
    let wants = build_wants(alloc, &format)?;
    Ok(CallWants::Made(wants))
}

fn unpacking_wants<'a>(alloc: Global, list: &[Expr]) -> Result<CallWants<'a>, Memory>
    ensures { IfOk result (λ ws. call_wants_view ws ≡ unpack_wants (how_many (exprs_of (map expr_view list.now)))) }
{
    let wants = unpack_wants(alloc, how_many(list))?;
    Ok(CallWants::Made(wants))
}

/// What these arguments of a called expression are to be.
pub fn callee_wants<'a, N: Lookup>(
    alloc: Global,
    names: &'a N,
    f: &Expr,
    list: &Vec<Expr>,
) -> Result<CallWants<'a>, Memory>
    ensures { IfOk result (λ ws. call_wants_view ws ≡ call_wants (N.env names.now)
        (callee (N.env names.now) (expr_view f.now)) (exprs_of (map expr_view list.now.items))) }
{
    match special_called(names, f) {
        Some(Special::ParseTuple) => parsing_wants(alloc, names, list.as_slice()),
        Some(Special::BuildValue) => building_wants(alloc, names, list.as_slice()),
        Some(Special::UnpackTuple) => unpacking_wants(alloc, list.as_slice()),
        _ => Ok(CallWants::Lent(row_wants(names, f, list.as_slice()))),
    }
}

/// The arguments before the format are there and fit, where so many fit before the first that doesn't; or all do where
/// there is no format.
pub(crate) fn fixed_met(format: Option<usize>, arguments: usize, all: bool, front: usize) -> bool
    ensures { result ≡ fixed_met format arguments all front }
{
    match format {
        None => all,
        Some(place) => place < arguments && place <= front,
    }
}

fn is_unknown_callee<N: Lookup>(names: &N, f: &Expr) -> bool
    ensures { result ≡ is_unknown_call (N.env names.now) (callee (N.env names.now) (expr_view f.now)) }
{
    match &f.node {
        ExprNode::Word(name) => names.is_unknown_call(*name),
        _ => false,
    }
}

fn is_wrong_call<N: Lookup>(names: &N, f: &Expr, fixed: bool) -> bool
    ensures { result ≡ (is_value_called (callee (N.env names.now) (expr_view f.now))
        || (takes_arguments (callee (N.env names.now) (expr_view f.now)) && not fixed)) }
{
    match &f.node {
        ExprNode::Word(name) => {
            names.is_value_called(*name) || (names.takes_arguments(*name) && !fixed)
        }
        _ => false,
    }
}

/// The kind of a call, whose arguments are met or not.
pub fn call_kind<N: Lookup>(names: &N, f: &Expr, met: bool) -> Known
    ensures { result ≡ (if is_word (expr_view f.now)
        && met then result_kind (N.env names.now) (callee (N.env names.now) (expr_view f.now)) else None) }
{
    match &f.node {
        ExprNode::Word(name) if met => names.result_kind(*name),
        _ => None,
    }
}

/// What holds at a call whose arguments are met so far.
pub(crate) fn note_call<N: Lookup>(
    names: &N,
    first: &mut Option<Finding>,
    pos: Pos,
    f: &Expr,
    list: &Vec<Expr>,
    met: Met,
)
    ensures { first.new ≡ least_from first.old (call_findings (N.env names.now) pos (expr_view f.now)
        (exprs_of (map expr_view list.now.items)) met.fixed met.all) }
{
    let format = format_pos(call_format(names, f), list.as_slice());
    note(first, !is_word(f), pos, 3);
    note(first, is_unknown_callee(names, f), pos, 9);
    note(first, is_wrong_call(names, f, met.fixed), pos, 10);
    note_some(first, met.fixed && !met.all, format, 11);
}
