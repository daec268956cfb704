//! The cases of a `switch` (C11 6.8.1, 6.8.4.2).
ghost use Rattle.std.specs.Prelude.{◌≡◌, map, OnOk};
ghost use Rattle.pungi_types.specs.Findings.{least_from};
ghost use Rattle.pungi_types.specs.Labels.{unsigned_constant, constant_of, is_equal_case, with_constant, with_value};
ghost use Rattle.pungi_types.specs.Labels.{cases_after, case_findings, cases_findings, switch_findings};
ghost use Rattle.pungi_scope.specs.CasesView.{cases_of};
ghost use Rattle.pungi_tree.specs.ExprView.{expr_view};
ghost use Rattle.pungi_tree.specs.StmtView.{stmt_view, stmts_of};

use indexmap::IndexSet;
use pungi_base::{Kind, Memory, Punct};
use pungi_tree::{Expr, ExprNode, Stmt, StmtNode};
use pungi_types::operator::byte_value;
use pungi_types::{Finding, note};
use std::alloc::Global;

/// The cases of a `switch` that were seen.
#[derive(Drop)]
pub(crate) struct SeenCases {
    values: IndexSet<i128>,
    has_default: bool,
}

fn unsigned_constant(e: &Expr) -> Option<i128>
    ensures { result ≡ unsigned_constant (expr_view e.now) }
{
    match &e.node {
        ExprNode::Int { value, .. } => { if *value < 0 { None } else { Some(*value) } }
        ExprNode::Char(code) => Some(i128::from(byte_value(*code))),
        _ => None,
    }
}

/// The value of an integer or character constant with at most one `-`.
pub fn constant(e: &Expr) -> Option<i128>
    ensures { result ≡ constant_of (expr_view e.now) }
{
    match &e.node {
        ExprNode::Unary(Kind::Punct(Punct::Minus), inner) => match unsigned_constant(inner) {
            None => None,
            Some(value) => Some(-value),
        },
        _ => unsigned_constant(e),
    }
}

fn is_equal_case(seen: &SeenCases, value: Option<i128>) -> bool
    ensures { result ≡ is_equal_case (cases_of seen.now) value }
{
    match value {
        None => false,
        Some(value) => seen.values.contains(&value),
    }
}

fn keep_value(values: &mut IndexSet<i128>, value: i128) -> Result<(), Memory>
    ensures { OnOk result (values.new.keys ≡ with_value values.old.keys value) }
{
    values.insert(value)?;
    Ok(())
}

fn see(seen: &mut SeenCases, value: Option<i128>) -> Result<(), Memory>
    ensures { OnOk result (cases_of seen.new ≡ with_constant (cases_of seen.old) value) }
{
    match value {
        None => Ok(()),
        Some(value) => {
            keep_value(&mut seen.values, value)?;
            Ok(())
        }
    }
}

/// Sees the cases that stand directly at a statement, also after labels.
fn note_cases(seen: &mut SeenCases, first: &mut Option<Finding>, s: &Stmt) -> Result<(), Memory>
    ensures seen { OnOk result (cases_of seen.new ≡ cases_after (cases_of seen.old) (stmt_view s.now)) }
    ensures found { OnOk result (first.new ≡ least_from first.old (case_findings (cases_of seen.old)
        (stmt_view s.now))) }
{
    match &s.node {
        StmtNode::Case(e, inner) => {
            let value = constant(e);
            note(first, is_equal_case(seen, value), s.pos, 7);
            see(seen, value)?;
            note_cases(seen, first, inner)?;
            Ok(())
        }
        StmtNode::Default(inner) => {
            note(first, seen.has_default, s.pos, 7);
            seen.has_default = true;
            note_cases(seen, first, inner)?;
            Ok(())
        }
        StmtNode::Label(_, inner) => {
            note_cases(seen, first, inner)?;
            Ok(())
        }
        _ => Ok(()),
    }
}

fn note_all_cases(
    seen: &mut SeenCases,
    first: &mut Option<Finding>,
    list: &Vec<Stmt>,
) -> Result<(), Memory>
    ensures { OnOk result (first.new ≡ least_from first.old (cases_findings (cases_of seen.old)
        (stmts_of (map stmt_view list.now.items)))) }
{
    for s in list {
        note_cases(seen, first, s)?;
    }
    Ok(())
}

/// What holds among the cases of a `switch` with this body: equal cases, and a second default.
pub(crate) fn note_switch(
    alloc: Global,
    first: &mut Option<Finding>,
    body: &Stmt,
) -> Result<(), Memory>
    ensures { OnOk result (first.new ≡ least_from first.old (switch_findings (stmt_view body.now))) }
{
    match &body.node {
        StmtNode::Block(list, _) => {
            let mut seen = SeenCases {
                values: IndexSet::new(alloc),
                has_default: false,
            };
            note_all_cases(&mut seen, first, list)
        }
        _ => Ok(()),
    }
}
