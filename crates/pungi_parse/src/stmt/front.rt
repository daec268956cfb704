ghost use Rattle.std.specs.Prelude.{length};
ghost use Rattle.pungi_parse.specs.stmt.Begun.{for_head_view, begun_view, branch_front, while_front, for_head_at};
ghost use Rattle.pungi_parse.specs.stmt.Begun.{for_front, switch_front, case_front, default_front, whole_at};
ghost use Rattle.pungi_parse.specs.stmt.Begun.{label_or_whole, begin_at, do_end};
ghost use Rattle.pungi_parse.specs.Readers.{readers};
ghost use Rattle.pungi_parse.specs.Reads.{ReadsFront};
ghost use Rattle.pungi_parse.specs.stmt.StmtReader.{read_stmt, read_element};
ghost use Rattle.pungi_tree.specs.Placed.{placed};
ghost use Rattle.pungi_tree.specs.StmtView.{stmt_view};

use crate::parser::Parser;
use crate::stmt::begun::{Begun, StmtHead};
use crate::stmt::decl::Front;
use crate::stmt::nodes::boxed;
use crate::stop::Stop;
use crate::tokens::one_token::{eat, eat_key};
use pungi_base::{Key, Pos, Punct, Token};
use pungi_tree::{ForHead, Stmt, StmtNode};

impl Parser<'_> {
    /// What stands after `if`, up to its first branch.
    #[tactic(auto, unfolding(crate::specs::stmt::Begun::branch_front, crate::specs::Reading::chain))]
    fn branch_front<'t>(&self, pos: Pos, tokens: &'t [Token]) -> Front<'t, Begun>
        ensures { ReadsFront begun_view (length tokens.now) result
            (branch_front self.now.types.now (readers self.now.types.now self.now.nest self.now.most) pos
            (placed tokens.now)) }
    {
        let (test, rest) = self.condition(tokens)?;
        Ok((Begun::If(pos, test), rest))
    }

    /// What stands after `while`, up to the body.
    #[tactic(auto, unfolding(crate::specs::stmt::Begun::while_front, crate::specs::Reading::chain))]
    fn while_front<'t>(&self, pos: Pos, tokens: &'t [Token]) -> Front<'t, Begun>
        ensures { ReadsFront begun_view (length tokens.now) result
            (while_front self.now.types.now (readers self.now.types.now self.now.nest self.now.most) pos
            (placed tokens.now)) }
    {
        let (test, rest) = self.condition(tokens)?;
        Ok((Begun::Before(pos, StmtHead::While(test)), rest))
    }

    /// What stands after `switch`, up to the body.
    #[tactic(auto, unfolding(crate::specs::stmt::Begun::switch_front, crate::specs::Reading::chain))]
    fn switch_front<'t>(&self, pos: Pos, tokens: &'t [Token]) -> Front<'t, Begun>
        ensures { ReadsFront begun_view (length tokens.now) result
            (switch_front self.now.types.now (readers self.now.types.now self.now.nest self.now.most) pos
            (placed tokens.now)) }
    {
        let (test, rest) = self.condition(tokens)?;
        Ok((Begun::Before(pos, StmtHead::Switch(test)), rest))
    }

    /// What stands between the parentheses of a `for`, with the closing one.
    #[tactic(auto, unfolding(crate::specs::stmt::Begun::for_head_at, crate::specs::Reading::chain))]
    fn for_head<'t>(&self, tokens: &'t [Token]) -> Front<'t, ForHead>
        ensures { ReadsFront for_head_view (length tokens.now) result
            (for_head_at self.now.types.now (readers self.now.types.now self.now.nest self.now.most)
            (placed tokens.now)) }
    {
        let (start, after) = self.start(tokens)?;
        let (test, behind) = self.optional(Punct::Semicolon, after)?;
        let (step, rest) = self.optional(Punct::RightParen, behind)?;
        Ok((ForHead { start, test, step }, rest))
    }

    /// What stands after `for`, up to the body.
    #[tactic(auto, unfolding(crate::specs::stmt::Begun::for_front, crate::specs::Reading::chain))]
    fn for_front<'t>(&self, pos: Pos, tokens: &'t [Token]) -> Front<'t, Begun>
        ensures { ReadsFront begun_view (length tokens.now) result
            (for_front self.now.types.now (readers self.now.types.now self.now.nest self.now.most) pos
            (placed tokens.now)) }
    {
        let Some((_, inner)) = eat(Punct::LeftParen, tokens) else {
            return Err(Stop::NothingRead);
        };
        let (head, rest) = self.for_head(inner)?;
        let head = Box::new(self.alloc, head)?;
        Ok((Begun::Before(pos, StmtHead::For(head)), rest))
    }

    /// What stands after `case`, up to the statement.
    #[tactic(auto, unfolding(crate::specs::stmt::Begun::case_front, crate::specs::Reading::chain))]
    fn case_front<'t>(&self, pos: Pos, tokens: &'t [Token]) -> Front<'t, Begun>
        ensures { ReadsFront begun_view (length tokens.now) result
            (case_front self.now.types.now (readers self.now.types.now self.now.nest self.now.most) pos
            (placed tokens.now)) }
    {
        let (value, _, after) = self.expr(2, tokens)?;
        let Some((_, rest)) = eat(Punct::Colon, after) else {
            return Err(Stop::NothingRead);
        };
        Ok((Begun::Before(pos, StmtHead::Case(value)), rest))
    }

    /// What stands after `default`, up to the statement.
    #[tactic(auto, unfolding(crate::specs::stmt::Begun::default_front, crate::specs::Reading::chain))]
    fn default_front<'t>(&self, pos: Pos, tokens: &'t [Token]) -> Front<'t, Begun>
        ensures { ReadsFront begun_view (length tokens.now) result
            (default_front self.now.types.now (readers self.now.types.now self.now.nest self.now.most) pos
            (placed tokens.now)) }
    {
        let Some((_, rest)) = eat(Punct::Colon, tokens) else {
            return Err(Stop::NothingRead);
        };
        Ok((Begun::Before(pos, StmtHead::Default), rest))
    }

    /// A whole statement, which holds no other one.
    #[tactic(auto, unfolding(crate::specs::stmt::Begun::whole_at, crate::specs::Reading::chain))]
    fn whole<'t>(&self, tokens: &'t [Token]) -> Front<'t, Begun>
        ensures { ReadsFront begun_view (length tokens.now) result
            (whole_at self.now.types.now (readers self.now.types.now self.now.nest self.now.most)
            (read_stmt self.now.types.now self.now.nest self.now.most) (read_element self.now.types.now
            self.now.nest self.now.most) (placed tokens.now)) }
    {
        let (stmt, rest) = self.jump_or_expression(tokens)?;
        Ok((Begun::Whole(stmt), rest))
    }

    /// A label, or a whole statement.
    #[tactic(auto, unfolding(crate::specs::stmt::Begun::label_or_whole, crate::specs::Reading::on_some))]
    fn label_or_whole<'t>(&self, tokens: &'t [Token]) -> Front<'t, Begun>
        ensures { ReadsFront begun_view (length tokens.now) result
            (label_or_whole self.now.types.now (readers self.now.types.now self.now.nest self.now.most)
            (read_stmt self.now.types.now self.now.nest self.now.most) (read_element self.now.types.now
            self.now.nest self.now.most) (placed tokens.now)) }
    {
        if let Some((pos, rest)) = eat_key(Key::Case, tokens) {
            return self.case_front(pos, rest);
        }
        if let Some((pos, rest)) = eat_key(Key::Default, tokens) {
            return self.default_front(pos, rest);
        }
        if let Some((name, pos, rest)) = self.label_front(tokens) {
            return Ok((Begun::Before(pos, StmtHead::Label(name)), rest));
        }
        self.whole(tokens)
    }

    /// A statement, up to the first one in it.
    #[tactic(auto, unfolding(crate::specs::stmt::Begun::begin_at, crate::specs::Reading::on_some))]
    pub(crate) fn begin<'t>(&self, tokens: &'t [Token]) -> Front<'t, Begun>
        ensures { ReadsFront begun_view (length tokens.now) result
            (begin_at self.now.types.now (readers self.now.types.now self.now.nest self.now.most)
            (read_stmt self.now.types.now self.now.nest self.now.most) (read_element self.now.types.now
            self.now.nest self.now.most) (placed tokens.now)) }
    {
        if let Some((pos, rest)) = eat(Punct::LeftBrace, tokens) {
            return Ok((Begun::Block(pos), rest));
        }
        if let Some((pos, rest)) = eat_key(Key::If, tokens) {
            return self.branch_front(pos, rest);
        }
        if let Some((pos, rest)) = eat_key(Key::While, tokens) {
            return self.while_front(pos, rest);
        }
        if let Some((pos, rest)) = eat_key(Key::Do, tokens) {
            return Ok((Begun::Do(pos), rest));
        }
        if let Some((pos, rest)) = eat_key(Key::For, tokens) {
            return self.for_front(pos, rest);
        }
        if let Some((pos, rest)) = eat_key(Key::Switch, tokens) {
            return self.switch_front(pos, rest);
        }
        self.label_or_whole(tokens)
    }

    /// What stands after the body of a `do`.
    #[tactic(auto, unfolding(crate::specs::stmt::Begun::do_end, crate::specs::Reading::chain))]
    pub(crate) fn do_end<'t>(
        &self,
        pos: Pos,
        body: Box<Stmt>,
        tokens: &'t [Token],
    ) -> Front<'t, Box<Stmt>>
        ensures { ReadsFront (λ t. stmt_view t.value) (length tokens.now) result
            (do_end self.now.types.now (readers self.now.types.now self.now.nest self.now.most) pos
            (stmt_view body.value) (placed tokens.now)) }
    {
        let Some((_, after)) = eat_key(Key::While, tokens) else {
            return Err(Stop::NothingRead);
        };
        let (test, behind) = self.condition(after)?;
        let Some((_, rest)) = eat(Punct::Semicolon, behind) else {
            return Err(Stop::NothingRead);
        };
        let node = StmtNode::DoWhile(body, Box::into_inner(test));
        Ok((boxed(self.alloc, Stmt { pos, node })?, rest))
    }
}
