//! The labels that a `goto` may go to (C11 6.8.1, 6.8.6.1).
ghost use Rattle.std.specs.Prelude.{◌≡◌, [], map, OnOk, IfOk};
ghost use Rattle.pungi_types.specs.Names.{is_among};
ghost use Rattle.pungi_types.specs.Labels.{own_labels, block_labels, labels_after, labels_after_all, label_findings};
ghost use Rattle.pungi_types.specs.Labels.{labels_findings};
ghost use Rattle.pungi_types.specs.Findings.{least_from};
ghost use Rattle.pungi_scope.specs.Frames.{labels_of};
ghost use Rattle.pungi_tree.specs.StmtView.{stmt_view, stmts_of};

use indexmap::IndexSet;
use pungi_base::{Memory, Name};
use pungi_tree::{Stmt, StmtNode};
use pungi_types::{Finding, is_kept, keep, note};
use std::alloc::Global;

/// The labels of the blocks around a place, the innermost block first.
#[derive(Clone, Copy)]
pub(crate) enum Labels<'a> {
    /// Outside blocks.
    Outside,
    /// In a block with these labels, and in those around it.
    Block(&'a IndexSet<u32>, &'a Labels<'a>),
}

/// Whether a label is in one of the blocks.
pub(crate) fn has_label(labels: &Labels<'_>, word: Name) -> bool
    ensures { result ≡ is_among (labels_of labels.now) word.0 }
{
    match labels {
        Labels::Outside => false,
        Labels::Block(words, outer) => is_kept(words, word) || has_label(outer, word),
    }
}

/// Adds the labels of a statement that are in no inner block.
fn own_labels(kept: &mut IndexSet<u32>, s: &Stmt) -> Result<(), Memory>
    ensures { OnOk result (kept.new.keys ≡ own_labels kept.old.keys (stmt_view s.now)) }
{
    match &s.node {
        StmtNode::If(_, yes, Some(no)) => {
            own_labels(kept, yes)?;
            own_labels(kept, no)?;
            Ok(())
        }
        StmtNode::If(_, inner, None)
        | StmtNode::While(_, inner)
        | StmtNode::DoWhile(inner, _)
        | StmtNode::For(_, inner)
        | StmtNode::Switch(_, inner)
        | StmtNode::Case(_, inner)
        | StmtNode::Default(inner) => own_labels(kept, inner),
        StmtNode::Label(name, inner) => {
            keep(kept, *name)?;
            own_labels(kept, inner)
        }
        StmtNode::Block(_, _)
        | StmtNode::Declare(_)
        | StmtNode::Do(_)
        | StmtNode::Goto(_, _)
        | StmtNode::Break
        | StmtNode::Continue
        | StmtNode::Return(_) => Ok(()),
    }
}

/// The labels of a block, without those of the blocks in it.
pub(crate) fn block_labels(alloc: Global, list: &Vec<Stmt>) -> Result<IndexSet<u32>, Memory>
    ensures { IfOk result (λ labels. labels.keys ≡ block_labels [] (stmts_of (map stmt_view list.now.items))) }
{
    let mut labels = IndexSet::new(alloc);
    for s in list {
        own_labels(&mut labels, s)?;
    }
    Ok(labels)
}

/// What holds at the labels of a function's body: one that stands in it twice.
pub(crate) fn note_repeated_labels(
    alloc: Global,
    first: &mut Option<Finding>,
    body: &Stmt,
) -> Result<(), Memory>
    ensures { OnOk result (first.new ≡ least_from first.old (label_findings [] (stmt_view body.now))) }
{
    let mut labels = IndexSet::new(alloc);
    note_labels(&mut labels, first, body)
}

/// Keeps all labels of a statement. One that was kept before is a label twice.
#[cycle(all_labels)]
fn note_labels(
    kept: &mut IndexSet<u32>,
    first: &mut Option<Finding>,
    s: &Stmt,
) -> Result<(), Memory>
    ensures kept { OnOk result (kept.new.keys ≡ labels_after kept.old.keys (stmt_view s.now)) }
    ensures found { OnOk result (first.new ≡ least_from first.old (label_findings kept.old.keys (stmt_view s.now))) }
{
    match &s.node {
        StmtNode::Block(list, _) => {
            note_all_labels(kept, first, list)?;
            Ok(())
        }
        StmtNode::If(_, yes, Some(no)) => {
            note_labels(kept, first, yes)?;
            note_labels(kept, first, no)?;
            Ok(())
        }
        StmtNode::If(_, inner, None)
        | StmtNode::While(_, inner)
        | StmtNode::DoWhile(inner, _)
        | StmtNode::For(_, inner)
        | StmtNode::Switch(_, inner)
        | StmtNode::Case(_, inner)
        | StmtNode::Default(inner) => {
            note_labels(kept, first, inner)?;
            Ok(())
        }
        StmtNode::Label(name, inner) => {
            note(first, is_kept(kept, *name), s.pos, 7);
            keep(kept, *name)?;
            note_labels(kept, first, inner)?;
            Ok(())
        }
        StmtNode::Declare(_)
        | StmtNode::Do(_)
        | StmtNode::Goto(_, _)
        | StmtNode::Break
        | StmtNode::Continue
        | StmtNode::Return(_) => Ok(()),
    }
}

#[cycle(all_labels)]
fn note_all_labels(
    kept: &mut IndexSet<u32>,
    first: &mut Option<Finding>,
    list: &Vec<Stmt>,
) -> Result<(), Memory>
    ensures kept { OnOk result (kept.new.keys ≡ labels_after_all kept.old.keys
        (stmts_of (map stmt_view list.now.items))) }
    ensures found { OnOk result (first.new ≡ least_from first.old (labels_findings kept.old.keys
        (stmts_of (map stmt_view list.now.items)))) }
{
    for s in list {
        note_labels(kept, first, s)?;
    }
    Ok(())
}
