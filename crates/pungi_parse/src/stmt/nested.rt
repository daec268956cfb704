ghost use Rattle.std.specs.Prelude.{suc, length};
ghost use Rattle.pungi_parse.specs.stmt.Begun.{begun_view, branch_rest, go_on};
ghost use Rattle.pungi_parse.specs.Readers.{readers};
ghost use Rattle.pungi_parse.specs.Reads.{ReadsFront};
ghost use Rattle.pungi_parse.specs.stmt.StmtReader.{block_at, read_stmt, read_element};
ghost use Rattle.pungi_tree.specs.ExprView.{expr_view};
ghost use Rattle.pungi_tree.specs.Placed.{placed};
ghost use Rattle.pungi_tree.specs.StmtView.{stmt_view};

use crate::parser::Parser;
use crate::stmt::begun::Begun;
use crate::stmt::decl::Front;
use crate::stmt::nodes::{block, boxed, headed, push};
use crate::stop::Stop;
use crate::tokens::beginnings::begins_decl;
use crate::tokens::one_token::{eat, eat_key};
use pungi_base::{Key, Pos, Punct, Token};
use pungi_tree::{Expr, Stmt, StmtNode};

impl Parser<'_> {
    /// A statement that is no declaration.
    #[cycle(statements)]
    pub(crate) fn stmt<'t>(&self, tokens: &'t [Token]) -> Front<'t, Box<Stmt>>
        ensures { ReadsFront (λ t. stmt_view t.value) (length tokens.now) result
            (read_stmt self.now.types.now self.now.nest self.now.most (placed tokens.now)) }
    {
        if self.most == 0 {
            return Err(Stop::NothingRead);
        }
        let inner = Parser {
            alloc: self.alloc,
            types: self.types,
            nest: self.nest,
            most: self.most - 1,
        };
        let (begun, rest) = inner.begin(tokens)?;
        inner.go_on(begun, rest)
    }

    /// The rest of a statement, whose parts are read by this parser.
    #[tactic(auto, unfolding(crate::specs::Reading::chain))]
    #[cycle(statements)]
    fn go_on<'t>(&self, begun: Begun, tokens: &'t [Token]) -> Front<'t, Box<Stmt>>
        ensures { ReadsFront (λ t. stmt_view t.value) (suc (length tokens.now)) result
            (go_on self.now.types.now (readers self.now.types.now self.now.nest self.now.most)
            (read_stmt self.now.types.now self.now.nest self.now.most) (read_element self.now.types.now
            self.now.nest self.now.most) (begun_view begun) (placed tokens.now)) }
    {
        match begun {
            Begun::Whole(stmt) => Ok((stmt, tokens)),
            Begun::Block(pos) => self.block(pos, tokens),
            Begun::If(pos, test) => self.branch(pos, test, tokens),
            Begun::Do(pos) => {
                let (body, rest) = self.stmt(tokens)?;
                self.do_end(pos, body, rest)
            }
            Begun::Before(pos, head) => {
                let (body, rest) = self.stmt(tokens)?;
                Ok((boxed(self.alloc, headed(pos, head, body))?, rest))
            }
        }
    }

    /// What stands after the condition of an `if`. An `else` belongs to the nearest one (C11 6.8.4.1).
    #[tactic(auto, unfolding(crate::specs::stmt::Begun::branch_rest, crate::specs::Reading::chain, crate::specs::Reading::on_some))]
    #[cycle(statements)]
    fn branch<'t>(&self, pos: Pos, test: Box<Expr>, tokens: &'t [Token]) -> Front<'t, Box<Stmt>>
        ensures { ReadsFront (λ t. stmt_view t.value) (length tokens.now) result
            (branch_rest self.now.types.now (readers self.now.types.now self.now.nest self.now.most)
            (read_stmt self.now.types.now self.now.nest self.now.most) (read_element self.now.types.now
            self.now.nest self.now.most) pos (expr_view test.value) (placed tokens.now)) }
    {
        let (yes, rest) = self.stmt(tokens)?;
        match eat_key(Key::Else, rest) {
            None => {
                let node = StmtNode::If(Box::into_inner(test), yes, None);
                Ok((boxed(self.alloc, Stmt { pos, node })?, rest))
            }
            Some((_, other)) => {
                let (no, behind) = self.stmt(other)?;
                let node = StmtNode::If(Box::into_inner(test), yes, Some(no));
                Ok((boxed(self.alloc, Stmt { pos, node })?, behind))
            }
        }
    }

    /// What stands after the brace of a block.
    #[cycle(statements)]
    fn block<'t>(&self, pos: Pos, tokens: &'t [Token]) -> Front<'t, Box<Stmt>>
        ensures { ReadsFront (λ t. stmt_view t.value) (length tokens.now) result
            (block_at self.now.types.now (readers self.now.types.now self.now.nest self.now.most)
            (read_stmt self.now.types.now self.now.nest self.now.most) (read_element self.now.types.now
            self.now.nest self.now.most) pos (placed tokens.now)) }
    {
        let mut list = Vec::new(self.alloc);
        let mut rest = tokens;
        'each: loop {
            if let Some((close, behind)) = eat(Punct::RightBrace, rest) {
                return Ok((block(self.alloc, pos, list, close)?, behind));
            }
            let (more, behind) = self.element(rest)?;
            push(&mut list, more)?;
            rest = behind;
        }
    }

    /// A statement or a declaration.
    #[cycle(statements)]
    fn element<'t>(&self, tokens: &'t [Token]) -> Front<'t, Box<Stmt>>
        ensures { ReadsFront (λ t. stmt_view t.value) (length tokens.now) result
            (read_element self.now.types.now self.now.nest self.now.most (placed tokens.now)) }
    {
        if self.most == 0 {
            return Err(Stop::NothingRead);
        }
        if !begins_decl(self.types, tokens) {
            return self.stmt(tokens);
        }
        let inner = Parser {
            alloc: self.alloc,
            types: self.types,
            nest: self.nest,
            most: self.most - 1,
        };
        inner.declare(tokens)
    }
}
