ghost use Rattle.std.specs.Prelude.{◌≡◌, ◌<◌, length, option_map, IfSome};
ghost use Rattle.pungi_parse.specs.Readers.{readers};
ghost use Rattle.pungi_parse.specs.Reads.{ReadsFront};
ghost use Rattle.pungi_parse.specs.stmt.StmtReader.{optional, condition, declare_at, start_at, expression_at};
ghost use Rattle.pungi_parse.specs.stmt.StmtReader.{label_front, goto_at, return_at, jump_or_expression, read_stmt};
ghost use Rattle.pungi_parse.specs.stmt.StmtReader.{read_element};
ghost use Rattle.pungi_tree.specs.ExprView.{expr_view, optional_view};
ghost use Rattle.pungi_tree.specs.Placed.{placed};
ghost use Rattle.pungi_tree.specs.StmtView.{for_start_view, stmt_view};

use crate::parser::Parser;
use crate::stmt::decl::Front;
use crate::stmt::nodes::boxed;
use crate::stop::Stop;
use crate::tokens::beginnings::{begins_decl, plain_word};
use crate::tokens::one_token::{eat, eat_key, first_place};
use pungi_base::{Key, Name, Pos, Punct, Token};
use pungi_tree::{Expr, ForStart, Stmt, StmtNode};

impl Parser<'_> {
    /// An expression, where one stands there, and the punctuator after it.
    #[tactic(auto, unfolding(crate::specs::stmt::StmtReader::optional, crate::specs::Reading::chain, crate::specs::Reading::on_some))]
    pub(crate) fn optional<'t>(&self, mark: Punct, tokens: &'t [Token]) -> Front<'t, Option<Expr>>
        ensures { ReadsFront optional_view (length tokens.now) result
            (optional self.now.types.now (readers self.now.types.now self.now.nest self.now.most) mark
            (placed tokens.now)) }
    {
        if let Some((_, rest)) = eat(mark, tokens) {
            return Ok((None, rest));
        }
        let (e, _, after) = self.expr(0, tokens)?;
        let Some((_, rest)) = eat(mark, after) else {
            return Err(Stop::NothingRead);
        };
        Ok((Some(Box::into_inner(e)), rest))
    }

    /// An expression in parentheses.
    #[tactic(auto, unfolding(crate::specs::stmt::StmtReader::condition, crate::specs::Reading::chain))]
    pub(crate) fn condition<'t>(&self, tokens: &'t [Token]) -> Front<'t, Box<Expr>>
        ensures { ReadsFront (λ t. expr_view t.value) (length tokens.now) result
            (condition self.now.types.now (readers self.now.types.now self.now.nest self.now.most)
            (placed tokens.now)) }
    {
        let Some((_, inner)) = eat(Punct::LeftParen, tokens) else {
            return Err(Stop::NothingRead);
        };
        let (e, _, after) = self.expr(0, inner)?;
        let Some((_, rest)) = eat(Punct::RightParen, after) else {
            return Err(Stop::NothingRead);
        };
        Ok((e, rest))
    }

    /// A declaration among statements.
    #[tactic(auto, unfolding(crate::specs::stmt::StmtReader::declare_at, crate::specs::Reading::chain))]
    pub(crate) fn declare<'t>(&self, tokens: &'t [Token]) -> Front<'t, Box<Stmt>>
        ensures { ReadsFront (λ t. stmt_view t.value) (length tokens.now) result
            (declare_at self.now.types.now (readers self.now.types.now self.now.nest self.now.most)
            (placed tokens.now)) }
    {
        let Some(pos) = first_place(tokens) else {
            return Err(Stop::NothingRead);
        };
        let (decl, rest) = self.decl(tokens)?;
        let node = StmtNode::Declare(decl);
        Ok((boxed(self.alloc, Stmt { pos, node })?, rest))
    }

    /// What a `for` begins with.
    #[tactic(auto, unfolding(crate::specs::stmt::StmtReader::start_at, crate::specs::Reading::chain, crate::specs::Reading::on_some, crate::specs::Reading::when))]
    pub(crate) fn start<'t>(&self, tokens: &'t [Token]) -> Front<'t, ForStart>
        ensures { ReadsFront for_start_view (length tokens.now) result
            (start_at self.now.types.now (readers self.now.types.now self.now.nest self.now.most) (placed tokens.now)) }
    {
        if begins_decl(self.types, tokens) {
            let (decl, rest) = self.decl(tokens)?;
            return Ok((ForStart::Decl(decl), rest));
        }
        let (e, rest) = self.optional(Punct::Semicolon, tokens)?;
        Ok((ForStart::Expr(e), rest))
    }

    /// An expression with its semicolon, or the semicolon alone.
    #[tactic(auto, unfolding(crate::specs::stmt::StmtReader::expression_at, crate::specs::Reading::chain))]
    fn expression<'t>(&self, tokens: &'t [Token]) -> Front<'t, Box<Stmt>>
        ensures { ReadsFront (λ t. stmt_view t.value) (length tokens.now) result
            (expression_at self.now.types.now (readers self.now.types.now self.now.nest self.now.most)
            (placed tokens.now)) }
    {
        let Some(pos) = first_place(tokens) else {
            return Err(Stop::NothingRead);
        };
        let (e, rest) = self.optional(Punct::Semicolon, tokens)?;
        let node = StmtNode::Do(e);
        Ok((boxed(self.alloc, Stmt { pos, node })?, rest))
    }

    /// The word of a label with its colon: its name, its place, and the tokens after the colon.
    #[tactic(auto, unfolding(crate::specs::stmt::StmtReader::label_front, crate::specs::Reading::chain))]
    pub(crate) fn label_front<'t>(&self, tokens: &'t [Token]) -> Option<(Name, Pos, &'t [Token])>
        ensures token { option_map (λ x. (x.0, x.1, placed x.2.now)) result
            ≡ label_front self.now.types.now (readers self.now.types.now self.now.nest self.now.most)
            (placed tokens.now) }
        ensures shorter { IfSome result (λ x. length x.2.now < length tokens.now) }
    {
        let (name, pos, after) = plain_word(self.types, tokens)?;
        let (_, rest) = eat(Punct::Colon, after)?;
        Some((name, pos, rest))
    }

    /// What stands after `goto`.
    #[tactic(auto, unfolding(crate::specs::stmt::StmtReader::goto_at, crate::specs::Reading::chain))]
    fn goto<'t>(&self, pos: Pos, tokens: &'t [Token]) -> Front<'t, Box<Stmt>>
        ensures { ReadsFront (λ t. stmt_view t.value) (length tokens.now) result
            (goto_at self.now.types.now (readers self.now.types.now self.now.nest self.now.most) pos
            (placed tokens.now)) }
    {
        let Some((name, at, after)) = plain_word(self.types, tokens) else {
            return Err(Stop::NothingRead);
        };
        let Some((_, rest)) = eat(Punct::Semicolon, after) else {
            return Err(Stop::NothingRead);
        };
        let node = StmtNode::Goto(name, at);
        Ok((boxed(self.alloc, Stmt { pos, node })?, rest))
    }

    /// What stands after `return`.
    #[tactic(auto, unfolding(crate::specs::stmt::StmtReader::return_at, crate::specs::Reading::chain))]
    fn give_back<'t>(&self, pos: Pos, tokens: &'t [Token]) -> Front<'t, Box<Stmt>>
        ensures { ReadsFront (λ t. stmt_view t.value) (length tokens.now) result
            (return_at self.now.types.now (readers self.now.types.now self.now.nest self.now.most) pos
            (placed tokens.now)) }
    {
        let (e, rest) = self.optional(Punct::Semicolon, tokens)?;
        let node = StmtNode::Return(e);
        Ok((boxed(self.alloc, Stmt { pos, node })?, rest))
    }

    /// A statement that holds no other one, and is no block.
    #[tactic(auto, unfolding(crate::specs::stmt::StmtReader::jump_or_expression, crate::specs::Reading::chain, crate::specs::Reading::on_some))]
    pub(crate) fn jump_or_expression<'t>(&self, tokens: &'t [Token]) -> Front<'t, Box<Stmt>>
        ensures { ReadsFront (λ t. stmt_view t.value) (length tokens.now) result
            (jump_or_expression self.now.types.now (readers self.now.types.now self.now.nest self.now.most)
            (read_stmt self.now.types.now self.now.nest self.now.most) (read_element self.now.types.now
            self.now.nest self.now.most) (placed tokens.now)) }
    {
        if let Some((pos, after)) = eat_key(Key::Goto, tokens) {
            return self.goto(pos, after);
        }
        if let Some((pos, after)) = eat_key(Key::Break, tokens) {
            let Some((_, rest)) = eat(Punct::Semicolon, after) else {
                return Err(Stop::NothingRead);
            };
            let node = StmtNode::Break;
            return Ok((boxed(self.alloc, Stmt { pos, node })?, rest));
        }
        if let Some((pos, after)) = eat_key(Key::Continue, tokens) {
            let Some((_, rest)) = eat(Punct::Semicolon, after) else {
                return Err(Stop::NothingRead);
            };
            let node = StmtNode::Continue;
            return Ok((boxed(self.alloc, Stmt { pos, node })?, rest));
        }
        if let Some((pos, after)) = eat_key(Key::Return, tokens) {
            return self.give_back(pos, after);
        }
        self.expression(tokens)
    }
}
