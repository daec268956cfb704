//! What a function does (C11 6.9.1).
ghost use Rattle.std.specs.Prelude.{◌≡◌, ◌+◌, IfOk, OnOk, true};
ghost use Rattle.pungi_api.specs.Terms.{terms_of};
ghost use Rattle.pungi_types.specs.Functions.{body_locals};
ghost use Rattle.pungi_resolve.specs.Functions.{resolved_in};
ghost use Rattle.pungi_resolve.specs.Stmts.{body_action};
ghost use Rattle.pungi_resolve.specs.Sound.{is_sound_action};
ghost use Rattle.pungi_types.specs.TypesView.{definition_view};
ghost use Rattle.pungi_tree.specs.StmtView.{stmt_view};
ghost use Rattle.pungi_resolved.specs.ActionView.{action_view, function_view};
ghost use Rattle.pungi_resolve.specs.Passed.{IsPassed};
ghost use Rattle.pungi_resolve.specs.Sites.{site_of};
ghost use Rattle.pungi_resolve.specs.SoundActions.{IsSoundAction};

use crate::params::resolve_params;
use crate::stmt::resolve_stmt;
use crate::walk::{Around, Walk};
use pungi_api::Terms;
use pungi_base::{Memory, Pos, Seq};
use pungi_resolved::{Action, ActionNode, Function};
use pungi_scope::{LocalNames, NextLocal};
use pungi_tree::{FunctionDef, Stmt, StmtNode};
use pungi_types::Lookup;
use std::alloc::Global;

/// What the body of a function at this place does.
fn resolve_body<N: Lookup>(
    names: &N,
    around: Around,
    walk: &mut Walk,
    pos: Pos,
    body: &Stmt,
) -> Result<Action, Memory>
    requires { IsSoundAction (body_action pos (site_of (N.env names.now) walk.old around.result) (stmt_view body.now)) }
    ensures action { IfOk result (λ x. action_view x ≡ body_action pos (site_of (N.env names.now) walk.old
        around.result) (stmt_view body.now)) }
    ensures locals { OnOk result (walk.new.next ≡ walk.old.next + body_locals (stmt_view body.now)) }
{
    match &body.node {
        StmtNode::Block(_, _) => resolve_stmt(names, around, walk, body),
        StmtNode::Declare(_)
        | StmtNode::Do(_)
        | StmtNode::If(_, _, None)
        | StmtNode::If(_, _, Some(_))
        | StmtNode::While(_, _)
        | StmtNode::DoWhile(_, _)
        | StmtNode::For(_, _)
        | StmtNode::Switch(_, _)
        | StmtNode::Case(_, _)
        | StmtNode::Default(_)
        | StmtNode::Label(_, _)
        | StmtNode::Goto(_, _)
        | StmtNode::Break
        | StmtNode::Continue
        | StmtNode::Return(_) => Ok(Action {
            pos,
            node: ActionNode::Block(Vec::new(around.alloc), pos),
        }),
    }
}

/// What a function does in which no rule holds, where the names of its file are in force and it is judged under these
/// terms. Each word and operator in it has a meaning, and each case a constant that a `long` has.
pub fn resolve<N: Lookup>(
    alloc: Global,
    names: &N,
    terms: Terms,
    f: &FunctionDef,
) -> Result<Function, Memory>
    requires passed { IsPassed (N.env names.now) (definition_view f.now) }
    requires terms { terms ≡ terms_of (N.env names.now).file.terms f.now.name.0 }
    ensures function { IfOk result (λ x. function_view x ≡ resolved_in (N.env names.now) (definition_view f.now)) }
    ensures sound { IfOk result (λ x. is_sound_action (function_view x).body ≡ true) }
{
    let result_kind = names.type_kind(&f.result, f.stars.len());
    let around = Around {
        alloc,
        result: result_kind,
    };
    let mut walk = Walk {
        locals: LocalNames::new(alloc),
        next: NextLocal::new(alloc),
    };
    let params = resolve_params(names, around, &mut walk, &f.params)?;
    let body = resolve_body(names, around, &mut walk, f.pos, &f.body)?;
    Ok(Function {
        name: f.name,
        pos: f.pos,
        params: Seq::new(params),
        locals: walk.next.number(),
        result: result_kind,
        terms,
        body,
    })
}
