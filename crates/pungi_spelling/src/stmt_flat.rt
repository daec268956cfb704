ghost use Rattle.std.specs.Prelude.{◌≡◌, [], ◌∷◌, ◌++◌, OnOk, map};
ghost use Rattle.pungi_tree.specs.ExprView.{expr_view, optional_view};
ghost use Rattle.pungi_tree.specs.Placed.{kinds};
ghost use Rattle.pungi_tree.specs.StmtFlat.{condition_flat, optional_flat, init_flat, var_decl_flat, vars_flat};
ghost use Rattle.pungi_tree.specs.StmtFlat.{decl_flat, for_start_flat, stmt_flat, stmts_flat};
ghost use Rattle.pungi_tree.specs.Tokens.{mark as mark_of, key as key_of};
ghost use Rattle.pungi_tree.specs.StmtView.{init_option_view, var_decl_view, decl_view, for_start_view, stmt_view};
ghost use Rattle.pungi_tree.specs.StmtView.{stmts_of};

use crate::expr_flat::{declr, expr, spec};
use crate::tokens::{keyword, mark, put, put_keys, word};
use pungi_base::{Key, Kind, Memory, Name, Pos, Punct};
use pungi_tree::{Decl, Expr, ForStart, Init, Stmt, StmtNode, VarDecl};

fn optional(out: &mut Vec<Kind>, e: &Option<Expr>) -> Result<(), Memory>
    ensures { OnOk result (out.new.items ≡ out.old.items ++ optional_flat (optional_view e.now)) }
{
    match e {
        None => Ok(()),
        Some(e) => expr(out, e),
    }
}

fn table(out: &mut Vec<Kind>, tokens: &Vec<(Kind, Pos)>) -> Result<(), Memory>
    ensures { OnOk result (out.new.items ≡ out.old.items ++ kinds tokens.now.items) }
{
    for t in tokens {
        put(out, t.0)?;
    }
    Ok(())
}

fn init(out: &mut Vec<Kind>, i: &Option<Init>) -> Result<(), Memory>
    ensures { OnOk result (out.new.items ≡ out.old.items ++ init_flat (init_option_view i.now)) }
{
    match i {
        None => Ok(()),
        Some(Init::Value(e)) => {
            mark(out, Punct::Assign)?;
            expr(out, e)
        }
        Some(Init::Table(tokens)) => {
            mark(out, Punct::Assign)?;
            mark(out, Punct::LeftBrace)?;
            table(out, tokens)?;
            mark(out, Punct::RightBrace)
        }
    }
}

fn var_decl(out: &mut Vec<Kind>, v: &VarDecl) -> Result<(), Memory>
    ensures { OnOk result (out.new.items ≡ out.old.items ++ var_decl_flat (var_decl_view v.now)) }
{
    declr(out, &v.declr)?;
    init(out, &v.value)
}

fn vars(out: &mut Vec<Kind>, list: &Vec<VarDecl>) -> Result<(), Memory>
    ensures { OnOk result (out.new.items
        ≡ out.old.items ++ vars_flat (map var_decl_view list.now.items)) }
{
    if let Some((first, others)) = list.split_first() {
        var_decl(out, first)?;
        for v in others {
            mark(out, Punct::Comma)?;
            var_decl(out, v)?;
        }
    }
    Ok(())
}

pub(crate) fn decl(out: &mut Vec<Kind>, d: &Decl) -> Result<(), Memory>
    ensures { OnOk result (out.new.items ≡ out.old.items ++ decl_flat (decl_view d.now)) }
{
    put_keys(out, &d.quals)?;
    spec(out, &d.type_name)?;
    vars(out, &d.vars)?;
    mark(out, Punct::Semicolon)
}

fn for_start(out: &mut Vec<Kind>, start: &ForStart) -> Result<(), Memory>
    ensures { OnOk result (out.new.items
        ≡ out.old.items ++ for_start_flat (for_start_view start.now)) }
{
    match start {
        ForStart::Decl(d) => decl(out, d),
        ForStart::Expr(e) => ended(out, e),
    }
}

fn condition(out: &mut Vec<Kind>, key: Key, e: &Expr) -> Result<(), Memory>
    ensures { OnOk result (out.new.items ≡ out.old.items ++ condition_flat key (expr_view e.now)) }
{
    keyword(out, key)?;
    mark(out, Punct::LeftParen)?;
    expr(out, e)?;
    mark(out, Punct::RightParen)
}

fn for_head(
    out: &mut Vec<Kind>,
    start: &ForStart,
    test: &Option<Expr>,
    step: &Option<Expr>,
) -> Result<(), Memory>
    ensures { OnOk result (out.new.items ≡ out.old.items ++ (key_of Key.For ∷ mark_of Punct.LeftParen
        ∷ (for_start_flat (for_start_view start.now) ++ (optional_flat (optional_view test.now)
        ++ (mark_of Punct.Semicolon ∷ (optional_flat (optional_view step.now) ++ mark_of Punct.RightParen ∷ [])))))) }
{
    keyword(out, Key::For)?;
    mark(out, Punct::LeftParen)?;
    for_start(out, start)?;
    ended(out, test)?;
    optional(out, step)?;
    mark(out, Punct::RightParen)
}

fn ended(out: &mut Vec<Kind>, e: &Option<Expr>) -> Result<(), Memory>
    ensures { OnOk result (out.new.items ≡ out.old.items
        ++ (optional_flat (optional_view e.now) ++ mark_of Punct.Semicolon ∷ [])) }
{
    optional(out, e)?;
    mark(out, Punct::Semicolon)
}

#[cycle(stmt_flat)]
pub(crate) fn stmt(out: &mut Vec<Kind>, s: &Stmt) -> Result<(), Memory>
    ensures { OnOk result (out.new.items ≡ out.old.items ++ stmt_flat (stmt_view s.now)) }
{
    match &s.node {
        StmtNode::Block(list, _) => {
            mark(out, Punct::LeftBrace)?;
            stmts(out, list)?;
            mark(out, Punct::RightBrace)
        }
        StmtNode::Declare(d) => decl(out, d),
        StmtNode::Do(e) => ended(out, e),
        StmtNode::If(e, yes, None) => {
            condition(out, Key::If, e)?;
            stmt(out, yes)
        }
        StmtNode::If(e, yes, Some(no)) => {
            condition(out, Key::If, e)?;
            stmt(out, yes)?;
            keyword(out, Key::Else)?;
            stmt(out, no)
        }
        StmtNode::While(e, body) => {
            condition(out, Key::While, e)?;
            stmt(out, body)
        }
        StmtNode::DoWhile(body, e) => {
            keyword(out, Key::Do)?;
            stmt(out, body)?;
            condition(out, Key::While, e)?;
            mark(out, Punct::Semicolon)
        }
        StmtNode::For(head, body) => {
            for_head(out, &head.start, &head.test, &head.step)?;
            stmt(out, body)
        }
        StmtNode::Switch(e, body) => {
            condition(out, Key::Switch, e)?;
            stmt(out, body)
        }
        StmtNode::Case(e, body) => {
            keyword(out, Key::Case)?;
            expr(out, e)?;
            labelled(out, body)
        }
        StmtNode::Default(body) => {
            keyword(out, Key::Default)?;
            labelled(out, body)
        }
        StmtNode::Label(name, body) => {
            word(out, *name)?;
            labelled(out, body)
        }
        StmtNode::Goto(name, _) => goto_word(out, *name),
        StmtNode::Break => keyword_alone(out, Key::Break),
        StmtNode::Continue => keyword_alone(out, Key::Continue),
        StmtNode::Return(e) => {
            keyword(out, Key::Return)?;
            ended(out, e)
        }
    }
}

#[cycle(stmt_flat)]
fn labelled(out: &mut Vec<Kind>, body: &Stmt) -> Result<(), Memory>
    ensures { OnOk result (out.new.items ≡ out.old.items ++ (mark_of Punct.Colon ∷ stmt_flat (stmt_view body.now))) }
{
    mark(out, Punct::Colon)?;
    stmt(out, body)
}

fn goto_word(out: &mut Vec<Kind>, name: Name) -> Result<(), Memory>
    ensures { OnOk result (out.new.items ≡ out.old.items
        ++ (key_of Key.Goto ∷ Kind.Word name ∷ mark_of Punct.Semicolon ∷ [])) }
{
    keyword(out, Key::Goto)?;
    word(out, name)?;
    mark(out, Punct::Semicolon)
}

fn keyword_alone(out: &mut Vec<Kind>, key: Key) -> Result<(), Memory>
    ensures { OnOk result (out.new.items ≡ out.old.items ++ (key_of key ∷ mark_of Punct.Semicolon ∷ [])) }
{
    keyword(out, key)?;
    mark(out, Punct::Semicolon)
}

#[cycle(stmt_flat)]
fn stmts(out: &mut Vec<Kind>, list: &Vec<Stmt>) -> Result<(), Memory>
    ensures { OnOk result (out.new.items
        ≡ out.old.items ++ stmts_flat (stmts_of (map stmt_view list.now.items))) }
{
    for s in list {
        stmt(out, s)?;
    }
    Ok(())
}
