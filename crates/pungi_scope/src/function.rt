//! Which rule is reported of a function.
ghost use Rattle.std.specs.Prelude.{◌≡◌, ◌+◌, map, OnOk, IfOk};
ghost use Rattle.std.specs.Option.{option_copied};
ghost use Rattle.pungi_api.specs.Terms.{declared_in};
ghost use Rattle.pungi_types.specs.Findings.{least_from};
ghost use Rattle.pungi_types.specs.Labels.{stmts_locals};
ghost use Rattle.pungi_types.specs.Stmts.{in_block, stmts_findings};
ghost use Rattle.pungi_types.specs.Functions.{body_findings, body_locals, result_kind, result_findings, parts_findings};
ghost use Rattle.pungi_types.specs.Functions.{text_findings, params_count, refusal_in};
ghost use Rattle.pungi_types.specs.TypesView.{definition_view};
ghost use Rattle.pungi_scope.specs.Frames.{frame_of};
ghost use Rattle.pungi_tree.specs.ExprView.{params_view};
ghost use Rattle.pungi_tree.specs.StmtView.{stmt_view, stmts_of};

use crate::conventions::fits_convention;
use crate::labels::{Labels, block_labels, note_repeated_labels};
use crate::nodes::function_size;
use crate::params::check_params;
use crate::stmt::{check_list, in_block_with};
use crate::walk::{Around, Walk};
use crate::{LocalNames, NextLocal};
use indexmap::IndexSet;
use pungi_api::Convention;
use pungi_base::Memory;
use pungi_tree::{FunctionDef, Stmt, StmtNode};
use pungi_types::{Finding, Lookup, ValueKind, note};
use std::alloc::Global;

/// The most locals that a function may have, parameters counted.
const MOST_LOCALS: usize = 32;

/// The most nodes that a function may have.
const MOST_NODES: u32 = 4096;

/// Walks through the statements of a body. The parameters count as names of its block.
fn check_statements<N: Lookup>(
    names: &N,
    around: &Around<'_>,
    walk: &mut Walk,
    block: &mut IndexSet<u32>,
    list: &Vec<Stmt>,
) -> Result<(), Memory>
    ensures found { OnOk result (walk.new.first ≡ least_from walk.old.first
        (stmts_findings (record (in_block (frame_of (N.env names.now) walk.old block.old.keys around.now)
        (stmts_of (map stmt_view list.now.items))) { block = block.old.keys })
        (stmts_of (map stmt_view list.now.items)))) }
    ensures next { OnOk result (walk.new.next ≡ walk.old.next
        + stmts_locals (stmts_of (map stmt_view list.now.items))) }
{
    let labels = block_labels(around.alloc, list)?;
    check_list(names, &in_block_with(&*around, &labels), walk, block, list)
}

/// Walks through the body of a function.
fn check_body<N: Lookup>(
    names: &N,
    around: &Around<'_>,
    walk: &mut Walk,
    block: &mut IndexSet<u32>,
    body: &Stmt,
) -> Result<(), Memory>
    ensures found { OnOk result (walk.new.first ≡ least_from walk.old.first
        (body_findings (frame_of (N.env names.now) walk.old block.old.keys around.now) (stmt_view body.now))) }
    ensures next { OnOk result (walk.new.next ≡ walk.old.next + body_locals (stmt_view body.now)) }
{
    match &body.node {
        StmtNode::Block(list, _) => {
            check_statements(names, around, walk, block, list)?;
            Ok(())
        }
        _ => Ok(()),
    }
}

/// Walks through the parameters and the body of a function, and returns the number of the next local.
fn check_parts<N: Lookup>(
    names: &N,
    around: &Around<'_>,
    walk: &mut Walk,
    block: &mut IndexSet<u32>,
    f: &FunctionDef,
) -> Result<usize, Memory>
    ensures found { OnOk result (walk.new.first ≡ least_from walk.old.first
        (parts_findings (frame_of (N.env names.now) walk.old block.old.keys around.now) (definition_view f.now))) }
    ensures next { IfOk result (λ next. next ≡ walk.old.next + params_count (params_view f.now.params)
        + body_locals (stmt_view f.now.body)) }
{
    check_params(names, around, walk, block, &f.params)?;
    note_repeated_labels(around.alloc, &mut walk.first, &f.body)?;
    check_body(names, around, walk, block, &f.body)?;
    Ok(walk.next.number())
}

/// What holds at the type of a function's result, and its kind.
fn note_result<N: Lookup>(
    names: &N,
    first: &mut Option<Finding>,
    f: &FunctionDef,
) -> Option<ValueKind>
    ensures kind { result ≡ result_kind (N.env names.now) (definition_view f.now) }
    ensures found { first.new ≡ least_from first.old (result_findings (N.env names.now) (definition_view f.now)) }
{
    let kind = names.type_kind(&f.result, f.stars.len());
    note(first, kind.is_none(), f.result.pos, 1);
    kind
}

/// Walks through a function, and returns how many locals it has.
fn check_text<N: Lookup>(
    alloc: Global,
    names: &N,
    first: &mut Option<Finding>,
    f: &FunctionDef,
) -> Result<usize, Memory>
    ensures found { OnOk result (first.new ≡ least_from first.old (text_findings (N.env names.now)
        (definition_view f.now))) }
    ensures locals { IfOk result (λ locals. locals ≡ params_count (params_view f.now.params)
        + body_locals (stmt_view f.now.body)) }
{
    let kind = note_result(names, first, f);
    let around = Around {
        alloc,
        result: kind,
        labels: Labels::Outside,
        breaks: false,
        continues: false,
        cases: false,
        switched: false,
    };
    let mut walk = Walk {
        locals: LocalNames::new(alloc),
        next: NextLocal::new(alloc),
        first: *first,
    };
    let mut block = IndexSet::new(alloc);
    let locals = check_parts(names, &around, &mut walk, &mut block, f);
    *first = walk.first;
    locals
}

/// The rule that is reported of a function, with the place where it holds, or `None` where none holds. This convention
/// is declared for the function, if one is.
pub fn refusal<N: Lookup>(
    alloc: Global,
    names: &N,
    convention: Option<&Convention>,
    f: &FunctionDef,
) -> Result<Option<Finding>, Memory>
    requires { option_copied convention ≡ declared_in (N.env names.now).file.terms.conventions f.now.name.0 }
    ensures { IfOk result (λ told. told ≡ refusal_in (N.env names.now) (definition_view f.now)) }
{
    let mut first = None;
    let locals = check_text(alloc, names, &mut first, f)?;
    if first.is_none() {
        note(&mut first, locals > MOST_LOCALS, f.pos, 15);
        note(&mut first, function_size(f) > MOST_NODES, f.pos, 16);
        let fits = fits_convention(names, convention, f);
        note(&mut first, !fits, f.pos, 17);
    }
    Ok(first)
}
