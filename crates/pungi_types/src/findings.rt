ghost use Rattle.std.specs.Prelude.{◌≡◌};
ghost use Rattle.pungi_types.specs.Findings.{when, is_before, least_from, when_some};
ghost use Rattle.pungi_types.specs.Operators.{is_void};
ghost use Rattle.pungi_types.specs.Exprs.{void_call, operand};
ghost use Rattle.pungi_tree.specs.ExprView.{expr_view};

use crate::types::not_void;
use crate::{Finding, ValueKind};
use pungi_base::{Pos, Rule};
use pungi_tree::{Expr, ExprNode};

fn is_before(a: Finding, b: Finding) -> bool
    ensures { result ≡ is_before a b }
{
    a.pos.line < b.pos.line
        || (a.pos.line == b.pos.line
            && (a.pos.col < b.pos.col || (a.pos.col == b.pos.col && a.rule.0 < b.rule.0)))
}

/// Keeps the earlier of what was found and a rule that holds here, if it does.
pub fn note(first: &mut Option<Finding>, holds: bool, pos: Pos, rule: u8)
    ensures { first.new ≡ least_from first.old (when holds pos rule) }
{
    if holds {
        let finding = Finding {
            pos,
            rule: Rule(rule),
        };
        *first = match *first {
            None => Some(finding),
            Some(old) => Some(if is_before(finding, old) {
                finding
            } else {
                old
            }),
        };
    }
}

/// The same, where there is a place.
pub(crate) fn note_some(first: &mut Option<Finding>, holds: bool, pos: Option<Pos>, rule: u8)
    ensures { first.new ≡ least_from first.old (when_some holds pos rule) }
{
    if let Some(pos) = pos {
        note(first, holds, pos, rule);
    }
}

fn void_call(e: &Expr) -> Option<Pos>
    ensures { result ≡ void_call (expr_view e.now) }
{
    match &e.node {
        ExprNode::Paren(inner) => void_call(inner),
        ExprNode::Call(_, _) => Some(e.pos),
        _ => None,
    }
}

/// What is required of the value of an expression of this kind where it is used: nothing of a call that returns
/// nothing, since a rule holds at that call.
pub fn operand(kind: Option<ValueKind>, e: &Expr) -> Option<ValueKind>
    ensures { result ≡ operand kind (expr_view e.now) }
{
    if void_call(e).is_some() {
        not_void(kind)
    } else {
        kind
    }
}

/// The value of an expression of this kind is used.
pub fn note_used(first: &mut Option<Finding>, kind: Option<ValueKind>, e: &Expr)
    ensures { first.new ≡ least_from first.old (when_some (is_void kind) (void_call (expr_view e.now)) 10) }
{
    if let Some(pos) = void_call(e) {
        note(first, matches!(kind, Some(ValueKind::Void)), pos, 10);
    }
}
