ghost use Rattle.std.specs.Prelude.{◌<◌, ◌-◌, ◌^◌, suc, length};
ghost use Rattle.pungi_parse.specs.expr.ExprReader.{read_at, comma_at, assign_at, assign_rest, conditional_at};
ghost use Rattle.pungi_parse.specs.expr.ExprReader.{conditional_rest, climb, casted};
ghost use Rattle.pungi_parse.specs.Readers.{readers};
ghost use Rattle.pungi_parse.specs.Reads.{Reads};
ghost use Rattle.pungi_tree.specs.ExprDepth.{expr_depth};
ghost use Rattle.pungi_tree.specs.ExprView.{expr_view};
ghost use Rattle.pungi_tree.specs.Placed.{placed};

use crate::expr::nodes::{self, boxed};
use crate::parser::{Parser, Read};
use crate::stop::Stop;
use crate::tokens::beginnings::cast_front;
use crate::tokens::one_token::{eat, eat_assign, eat_operator};
use crate::tokens::operators::{binary_level, level as level_of};
use pungi_base::{Punct, Token};
use pungi_tree::{Expr, ExprNode};

impl Parser<'_> {
    /// The expression of a level at the front (C11 6.5).
    #[cycle(parts)]
    pub(crate) fn expr<'t>(&self, level: u32, tokens: &'t [Token]) -> Read<'t, Box<Expr>>
        ensures { Reads (λ t. expr_view t.value) expr_depth self.now.most (length tokens.now) result
            ((readers self.now.types.now self.now.nest self.now.most).expr level (placed tokens.now)) }
    {
        if self.nest == 0 {
            return Err(Stop::NothingRead);
        }
        if self.most == 0 {
            return Err(Stop::NothingRead);
        }
        let inner = Parser {
            alloc: self.alloc,
            types: self.types,
            nest: self.nest - 1,
            most: self.most - 1,
        };
        inner.read_at(level, tokens)
    }

    /// The expression of a level at the front, whose parts may have `most` nodes on a path (C11 6.5).
    #[cycle(parts)]
    fn read_at<'t>(&self, level: u32, tokens: &'t [Token]) -> Read<'t, Box<Expr>>
        requires { self.now.most < 2 ^ 32 - 1 }
        ensures { Reads (λ t. expr_view t.value) expr_depth (suc self.now.most) (length tokens.now) result
            (read_at self.now.types.now (readers self.now.types.now self.now.nest self.now.most)
            (suc self.now.most) level (placed tokens.now)) }
    {
        if level == 0 {
            self.comma(tokens)
        } else if level == 1 {
            self.assign(tokens)
        } else if level == 2 {
            self.conditional(tokens)
        } else if level < 14 {
            self.climb(level, tokens)
        } else {
            self.unary(tokens)
        }
    }

    /// Expressions with commas between them (C11 6.5.17).
    #[tactic(auto, unfolding(crate::specs::expr::ExprReader::comma_at, crate::specs::Reading::chain))]
    #[cycle(parts)]
    fn comma<'t>(&self, tokens: &'t [Token]) -> Read<'t, Box<Expr>>
        requires { self.now.most < 2 ^ 32 - 1 }
        ensures { Reads (λ t. expr_view t.value) expr_depth (suc self.now.most) (length tokens.now) result
            (comma_at self.now.types.now (readers self.now.types.now self.now.nest self.now.most)
            (suc self.now.most) (placed tokens.now)) }
    {
        let (mut left, mut left_depth, mut rest) = self.assign(tokens)?;
        while let Some((pos, after)) = eat(Punct::Comma, rest) {
            if left_depth > self.most {
                return Err(Stop::NothingRead);
            }
            let (right, right_depth, behind) = self.expr(1, after)?;
            left = nodes::comma(self.alloc, pos, left, right)?;
            left_depth = left_depth.max(right_depth) + 1;
            rest = behind;
        }
        Ok((left, left_depth, rest))
    }

    /// An assignment, or what binds tighter (C11 6.5.16).
    #[tactic(auto, unfolding(crate::specs::expr::ExprReader::assign_at, crate::specs::expr::ExprReader::assign_rest, crate::specs::Reading::chain, crate::specs::Reading::on_some, crate::specs::Reading::when))]
    #[cycle(parts)]
    fn assign<'t>(&self, tokens: &'t [Token]) -> Read<'t, Box<Expr>>
        requires { self.now.most < 2 ^ 32 - 1 }
        ensures { Reads (λ t. expr_view t.value) expr_depth (suc self.now.most) (length tokens.now) result
            (assign_at self.now.types.now (readers self.now.types.now self.now.nest self.now.most)
            (suc self.now.most) (placed tokens.now)) }
    {
        let (left, depth, rest) = self.conditional(tokens)?;
        let Some((operator, pos, after)) = eat_assign(rest) else {
            return Ok((left, depth, rest));
        };
        if level_of(&left) < 14 || depth > self.most {
            return Err(Stop::NothingRead);
        }
        let (right, right_depth, behind) = self.expr(1, after)?;
        let node = ExprNode::Assign(operator, left, right);
        let tree = boxed(self.alloc, Expr { pos, node })?;
        Ok((tree, depth.max(right_depth) + 1, behind))
    }

    /// A conditional expression, or what binds tighter (C11 6.5.15).
    #[tactic(auto, unfolding(crate::specs::expr::ExprReader::conditional_at, crate::specs::expr::ExprReader::conditional_rest, crate::specs::Reading::chain, crate::specs::Reading::on_some, crate::specs::Reading::when))]
    #[cycle(parts)]
    fn conditional<'t>(&self, tokens: &'t [Token]) -> Read<'t, Box<Expr>>
        requires { self.now.most < 2 ^ 32 - 1 }
        ensures { Reads (λ t. expr_view t.value) expr_depth (suc self.now.most) (length tokens.now) result
            (conditional_at self.now.types.now (readers self.now.types.now self.now.nest self.now.most)
            (suc self.now.most) (placed tokens.now)) }
    {
        let (test, depth, rest) = self.climb(3, tokens)?;
        let Some((pos, after)) = eat(Punct::Question, rest) else {
            return Ok((test, depth, rest));
        };
        if depth > self.most {
            return Err(Stop::NothingRead);
        }
        let (yes, yes_depth, colon) = self.expr(0, after)?;
        let Some((_, after)) = eat(Punct::Colon, colon) else {
            return Err(Stop::NothingRead);
        };
        let (no, no_depth, behind) = self.expr(2, after)?;
        let node = ExprNode::Cond(test, yes, no);
        let tree = boxed(self.alloc, Expr { pos, node })?;
        Ok((tree, depth.max(yes_depth.max(no_depth)) + 1, behind))
    }

    /// Binary operators of a level and tighter ones, all to the left (C11 6.5.5 to 6.5.14).
    #[tactic(auto, unfolding(crate::specs::expr::ExprReader::climb, crate::specs::Reading::chain))]
    #[cycle(parts)]
    fn climb<'t>(&self, level: u32, tokens: &'t [Token]) -> Read<'t, Box<Expr>>
        requires { self.now.most < 2 ^ 32 - 1 }
        ensures { Reads (λ t. expr_view t.value) expr_depth (suc self.now.most) (length tokens.now) result
            (climb self.now.types.now (readers self.now.types.now self.now.nest self.now.most)
            (suc self.now.most) level (placed tokens.now)) }
    {
        let (mut left, mut left_depth, mut rest) = self.casted(tokens)?;
        while let Some((operator, pos, after)) = eat_operator(level, rest) {
            if left_depth > self.most {
                return Err(Stop::NothingRead);
            }
            let (right, right_depth, behind) = self.expr(binary_level(operator) + 1, after)?;
            left = nodes::binary(self.alloc, pos, operator, left, right)?;
            left_depth = left_depth.max(right_depth) + 1;
            rest = behind;
        }
        Ok((left, left_depth, rest))
    }

    /// A cast, or what binds tighter (C11 6.5.4).
    #[tactic(auto, unfolding(crate::specs::expr::ExprReader::casted, crate::specs::Reading::chain, crate::specs::Reading::on_some))]
    #[cycle(parts)]
    fn casted<'t>(&self, tokens: &'t [Token]) -> Read<'t, Box<Expr>>
        requires { self.now.most < 2 ^ 32 - 1 }
        ensures { Reads (λ t. expr_view t.value) expr_depth (suc self.now.most) (length tokens.now) result
            (casted self.now.types.now (readers self.now.types.now self.now.nest self.now.most)
            (suc self.now.most) (placed tokens.now)) }
    {
        let Some((pos, inner)) = cast_front(self.types, tokens) else {
            return self.unary(tokens);
        };
        let (name, name_depth, after) = self.type_name(inner)?;
        let Some((_, after)) = eat(Punct::RightParen, after) else {
            return Err(Stop::NothingRead);
        };
        let (operand, depth, behind) = self.expr(13, after)?;
        let node = ExprNode::Cast(name, operand);
        let tree = boxed(self.alloc, Expr { pos, node })?;
        Ok((tree, name_depth.max(depth) + 1, behind))
    }
}
