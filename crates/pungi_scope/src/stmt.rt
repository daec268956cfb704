//! Where rules hold in statements.
ghost use Rattle.std.specs.Prelude.{◌≡◌, ◌++◌, ◌+◌, ◌-◌, [], length, drop, map, option_map, OnOk, true, false};
ghost use Rattle.pungi_types.specs.Findings.{least_from, ◌and◌};
ghost use Rattle.pungi_types.specs.Labels.{start_locals, stmt_locals, stmts_locals};
ghost use Rattle.pungi_types.specs.Stmts.{decl_findings, stmt_findings, stmts_findings, after_stmt, after_stmts};
ghost use Rattle.pungi_types.specs.Stmts.{start_findings, start_frame, option_condition, option_findings, in_part};
ghost use Rattle.pungi_types.specs.Stmts.{in_loop, in_switch, in_label, in_block};
ghost use Rattle.pungi_scope.specs.Frames.{frame_of, labels_of, declaration_of};
ghost use Rattle.pungi_tree.specs.Syntax as plain;
ghost use Rattle.pungi_tree.specs.ExprView.{optional_view};
ghost use Rattle.pungi_tree.specs.StmtView.{decl_view, var_decl_view, for_start_view, stmt_view, stmts_of};

use crate::cases::{constant, note_switch};
use crate::decl::check_decl;
use crate::labels::{Labels, block_labels, has_label};
use crate::steps::{
    note_at, visit, visit_condition, visit_optional, visit_optional_condition, visit_return,
    visit_switched,
};
use crate::walk::{Around, Walk};
use indexmap::IndexSet;
use pungi_base::{Memory, Pos};
use pungi_tree::{Decl, Expr, ForStart, Stmt, StmtNode};
use pungi_types::Lookup;

/// What surrounds a part that is no part of a block.
fn in_part<'a>(around: &Around<'a>) -> Around<'a>
    ensures { result ≡ record around.now { cases = false; switched = false } }
{
    Around {
        cases: false,
        switched: false,
        ..*around
    }
}

/// What surrounds the body of a loop.
fn in_loop<'a>(around: &Around<'a>) -> Around<'a>
    ensures { result ≡ record around.now { breaks = true; continues = true; cases = false; switched = false } }
{
    Around {
        breaks: true,
        continues: true,
        cases: false,
        switched: false,
        ..*around
    }
}

/// What surrounds the body of a `switch`.
fn in_switch<'a>(around: &Around<'a>) -> Around<'a>
    ensures { result ≡ record around.now { breaks = true; cases = false; switched = true } }
{
    Around {
        breaks: true,
        cases: false,
        switched: true,
        ..*around
    }
}

/// What surrounds a statement after a `case`, `default` or label.
fn in_label<'a>(around: &Around<'a>) -> Around<'a>
    ensures { result ≡ record around.now { switched = false } }
{
    Around {
        switched: false,
        ..*around
    }
}

/// What surrounds the statements of a block with these labels.
pub(crate) fn in_block_with<'a>(around: &'a Around<'_>, labels: &'a IndexSet<u32>) -> Around<'a>
    ensures result { result.result ≡ around.now.result }
    ensures labels { labels_of result.labels ≡ labels.now.keys ++ labels_of around.now.labels }
    ensures breaks { result.breaks ≡ around.now.breaks }
    ensures continues { result.continues ≡ around.now.continues }
    ensures cases { result.cases ≡ around.now.switched }
    ensures switched { result.switched ≡ false }
{
    Around {
        labels: Labels::Block(labels, &around.labels),
        cases: around.switched,
        switched: false,
        ..*around
    }
}

/// What begins a `for`.
fn check_start<N: Lookup>(
    names: &N,
    around: &Around<'_>,
    walk: &mut Walk,
    start: &ForStart,
) -> Result<(), Memory>
    ensures found { OnOk result (walk.new.first ≡ least_from walk.old.first
        (start_findings (frame_of (N.env names.now) walk.old [] around.now) (for_start_view start.now))) }
    ensures frame { OnOk result (frame_of (N.env names.now) walk.new [] around.now
        ≡ record (start_frame (frame_of (N.env names.now) walk.old [] around.now) (for_start_view start.now))
        { block = [] }) }
{
    match start {
        ForStart::Decl(d) => {
            let mut block = IndexSet::new(around.alloc);
            check_decl(names, around, walk, &mut block, d)
        }
        ForStart::Expr(e) => visit_optional(around.alloc, names, walk, e),
    }
}

/// Walks through what stands before the body of a `for`.
fn check_head<N: Lookup>(
    names: &N,
    around: &Around<'_>,
    walk: &mut Walk,
    pos: Pos,
    start: &ForStart,
    test: &Option<Expr>,
    step: &Option<Expr>,
) -> Result<(), Memory>
    ensures found { OnOk result (walk.new.first ≡ least_from walk.old.first
        (start_findings (frame_of (N.env names.now) walk.old [] around.now) (for_start_view start.now)
        and (option_condition (start_frame (frame_of (N.env names.now) walk.old [] around.now)
        (for_start_view start.now)).env pos (optional_view test.now)
        and option_findings (start_frame (frame_of (N.env names.now) walk.old [] around.now)
        (for_start_view start.now)).env (optional_view step.now)))) }
    ensures frame { OnOk result (frame_of (N.env names.now) walk.new [] around.now
        ≡ record (start_frame (frame_of (N.env names.now) walk.old [] around.now) (for_start_view start.now))
        { block = [] }) }
{
    check_start(names, around, walk, start)?;
    visit_optional_condition(around.alloc, names, walk, pos, test)?;
    visit_optional(around.alloc, names, walk, step)?;
    Ok(())
}

/// The declaration that a statement is.
fn declaration(s: &Stmt) -> Option<&Decl>
    ensures { option_map (λ d. decl_view d.now) result ≡ declaration_of (stmt_view s.now) }
{
    match &s.node {
        StmtNode::Declare(d) => Some(d),
        _ => None,
    }
}

/// Walks through a declaration that stands in no block. What it declares is in force in it alone.
fn check_alone<N: Lookup>(
    names: &N,
    around: &Around<'_>,
    walk: &mut Walk,
    d: &Decl,
) -> Result<(), Memory>
    ensures { OnOk result (walk.new ≡ record walk.old {
      first = least_from walk.old.first
          (decl_findings (frame_of (N.env names.now) walk.old [] around.now) (decl_view d.now));
      next = walk.old.next
          + length (map var_decl_view d.now.vars.items);
    }) }
{
    let kept = walk.locals.len();
    let mut block = IndexSet::new(around.alloc);
    let result = check_decl(names, around, walk, &mut block, d);
    walk.leave(kept);
    result
}

/// Walks through a statement of a block.
#[cycle(stmt)]
pub(crate) fn check_stmt<N: Lookup>(
    names: &N,
    around: &Around<'_>,
    walk: &mut Walk,
    block: &mut IndexSet<u32>,
    s: &Stmt,
) -> Result<(), Memory>
    ensures found { OnOk result (walk.new.first ≡ least_from walk.old.first
        (stmt_findings (frame_of (N.env names.now) walk.old block.old.keys around.now) (stmt_view s.now))) }
    ensures frame { OnOk result (frame_of (N.env names.now) walk.new block.new.keys around.now
        ≡ after_stmt (frame_of (N.env names.now) walk.old block.old.keys around.now) (stmt_view s.now)) }
{
    match declaration(s) {
        Some(d) => {
            check_decl(names, around, walk, block, d)?;
            Ok(())
        }
        None => {
            check_part(names, around, walk, s)?;
            Ok(())
        }
    }
}

/// Walks through a statement that is part of another. What it declares is in force in it alone.
#[cycle(stmt)]
fn check_part<N: Lookup>(
    names: &N,
    around: &Around<'_>,
    walk: &mut Walk,
    s: &Stmt,
) -> Result<(), Memory>
    ensures { OnOk result (walk.new ≡ record walk.old {
      first = least_from walk.old.first
          (stmt_findings (frame_of (N.env names.now) walk.old [] around.now) (stmt_view s.now));
      next = walk.old.next
          + stmt_locals (stmt_view s.now);
    }) }
{
    match &s.node {
        StmtNode::Block(list, _) => { check_block(names, around, walk, list) }
        StmtNode::Declare(d) => { check_alone(names, around, walk, d) }
        StmtNode::Do(e) => visit_optional(around.alloc, names, walk, e),
        StmtNode::If(e, yes, None) => {
            visit_condition(around.alloc, names, walk, s.pos, e)?;
            check_part(names, &in_part(around), walk, yes)
        }
        StmtNode::If(e, yes, Some(no)) => {
            visit_condition(around.alloc, names, walk, s.pos, e)?;
            check_part(names, &in_part(around), walk, yes)?;
            check_part(names, &in_part(around), walk, no)
        }
        StmtNode::While(e, body) => {
            visit_condition(around.alloc, names, walk, s.pos, e)?;
            check_part(names, &in_loop(around), walk, body)
        }
        StmtNode::DoWhile(body, e) => {
            check_part(names, &in_loop(around), walk, body)?;
            visit_condition(around.alloc, names, walk, s.pos, e)
        }
        StmtNode::For(head, body) => check_for(
            names,
            around,
            walk,
            s.pos,
            body,
            &head.start,
            &head.test,
            &head.step,
        ),
        StmtNode::Switch(e, body) => {
            visit_switched(around.alloc, names, walk, s.pos, e)?;
            note_switch(around.alloc, &mut walk.first, body)?;
            check_part(names, &in_switch(around), walk, body)
        }
        StmtNode::Case(e, inner) => {
            let wrong = !around.cases || constant(e).is_none();
            note_at(walk, wrong, s.pos, 7);
            visit(around.alloc, names, walk, e)?;
            check_part(names, &in_label(around), walk, inner)
        }
        StmtNode::Default(inner) => {
            note_at(walk, !around.cases, s.pos, 7);
            check_part(names, &in_label(around), walk, inner)
        }
        StmtNode::Label(_, inner) => { check_part(names, &in_label(around), walk, inner) }
        StmtNode::Goto(name, pos) => {
            let known = has_label(&around.labels, *name);
            note_at(walk, !known, *pos, 6);
            Ok(())
        }
        StmtNode::Break => {
            note_at(walk, !around.breaks, s.pos, 7);
            Ok(())
        }
        StmtNode::Continue => {
            note_at(walk, !around.continues, s.pos, 7);
            Ok(())
        }
        StmtNode::Return(e) => { visit_return(around.alloc, names, walk, around.result, s.pos, e) }
    }
}

/// Walks through a `for`. What its head declares is in force in it alone.
#[cycle(stmt)]
fn check_for<N: Lookup>(
    names: &N,
    around: &Around<'_>,
    walk: &mut Walk,
    pos: Pos,
    body: &Stmt,
    start: &ForStart,
    test: &Option<Expr>,
    step: &Option<Expr>,
) -> Result<(), Memory>
    ensures { OnOk result (walk.new ≡ record walk.old {
      first = least_from walk.old.first
          (stmt_findings (frame_of (N.env names.now) walk.old [] around.now) (plain.for pos (for_start_view start.now)
          (optional_view test.now) (optional_view step.now) (stmt_view body.now)));
      next = walk.old.next
          + (start_locals (for_start_view start.now) + stmt_locals (stmt_view body.now));
    }) }
{
    let kept = walk.locals.len();
    check_head(names, around, walk, pos, start, test, step)?;
    let result = check_part(names, &in_loop(around), walk, body);
    walk.leave(kept);
    result
}

/// Walks through a block.
#[cycle(stmt)]
fn check_block<N: Lookup>(
    names: &N,
    around: &Around<'_>,
    walk: &mut Walk,
    list: &Vec<Stmt>,
) -> Result<(), Memory>
    ensures { OnOk result (walk.new ≡ record walk.old {
      first = least_from walk.old.first
          (stmts_findings (in_block (frame_of (N.env names.now) walk.old [] around.now)
          (stmts_of (map stmt_view list.now.items))) (stmts_of (map stmt_view list.now.items)));
      next = walk.old.next
          + stmts_locals (stmts_of (map stmt_view list.now.items));
    }) }
{
    let labels = block_labels(around.alloc, list)?;
    check_inside(names, &in_block_with(&*around, &labels), walk, list)
}

/// Walks through the statements of a block. What they declare is in force in it alone.
#[cycle(stmt)]
fn check_inside<N: Lookup>(
    names: &N,
    around: &Around<'_>,
    walk: &mut Walk,
    list: &Vec<Stmt>,
) -> Result<(), Memory>
    ensures { OnOk result (walk.new ≡ record walk.old {
      first = least_from walk.old.first
          (stmts_findings (frame_of (N.env names.now) walk.old [] around.now) (stmts_of
          (map stmt_view list.now.items)));
      next = walk.old.next
          + stmts_locals (stmts_of (map stmt_view list.now.items));
    }) }
{
    let kept = walk.locals.len();
    let mut block = IndexSet::new(around.alloc);
    let result = check_list(names, around, walk, &mut block, list);
    walk.leave(kept);
    result
}

/// Walks through statements of a block, one after another.
#[cycle(stmt)]
pub(crate) fn check_list<N: Lookup>(
    names: &N,
    around: &Around<'_>,
    walk: &mut Walk,
    block: &mut IndexSet<u32>,
    list: &Vec<Stmt>,
) -> Result<(), Memory>
    ensures found { OnOk result (walk.new.first ≡ least_from walk.old.first
        (stmts_findings (frame_of (N.env names.now) walk.old block.old.keys around.now)
        (stmts_of (map stmt_view list.now.items)))) }
    ensures frame { OnOk result (frame_of (N.env names.now) walk.new block.new.keys around.now
        ≡ after_stmts (frame_of (N.env names.now) walk.old block.old.keys around.now)
        (stmts_of (map stmt_view list.now.items))) }
{
    for s in list {
        check_stmt(names, around, walk, block, s)?;
    }
    Ok(())
}
