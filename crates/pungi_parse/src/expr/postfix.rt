ghost use Rattle.std.specs.Prelude.{◌≡◌, ◌≤◌, ◌<◌, ◌-◌, ◌^◌, suc, length, map, IfOk};
ghost use Rattle.pungi_parse.specs.expr.ExprReader.{unary, sizeof_at, postfix as postfix_of, postfix_turn, call_at};
ghost use Rattle.pungi_parse.specs.expr.ExprReader.{index_at, args_at, primary, paren_at, new_at};
ghost use Rattle.pungi_parse.specs.Readers.{readers};
ghost use Rattle.pungi_parse.specs.Reads.{Reads};
ghost use Rattle.pungi_parse.specs.ReaderParts.{joined};
ghost use Rattle.pungi_tree.specs.ExprDepth.{expr_depth, exprs_depth};
ghost use Rattle.pungi_tree.specs.ExprView.{expr_view, exprs_of};
ghost use Rattle.pungi_tree.specs.Placed.{placed};

use crate::expr::nodes::{boxed, push};
use crate::parser::{Parser, Read};
use crate::stop::Stop;
use crate::tokens::beginnings::{goes_on, new_front, plain_word, sizeof_front};
use crate::tokens::one_token::{eat, eat_key, eat_prefix, first_place};
use crate::tokens::operators::prefix_need;
use pungi_base::{Key, Kind, Pos, Punct, Token};
use pungi_tree::{Expr, ExprNode};

impl Parser<'_> {
    /// The unary expression at the front (C11 6.5.3).
    #[tactic(auto, unfolding(crate::specs::expr::ExprReader::unary, crate::specs::Reading::chain, crate::specs::Reading::on_some))]
    #[cycle(parts)]
    pub(crate) fn unary<'t>(&self, tokens: &'t [Token]) -> Read<'t, Box<Expr>>
        requires { self.now.most < 2 ^ 32 - 1 }
        ensures { Reads (λ t. expr_view t.value) expr_depth (suc self.now.most) (length tokens.now) result
            (unary self.now.types.now (readers self.now.types.now self.now.nest self.now.most)
            (suc self.now.most) (placed tokens.now)) }
    {
        if let Some((operator, pos, after)) = eat_prefix(tokens) {
            let (operand, depth, rest) = self.expr(prefix_need(operator), after)?;
            let node = ExprNode::Unary(Kind::Punct(operator), operand);
            let tree = boxed(self.alloc, Expr { pos, node })?;
            return Ok((tree, depth + 1, rest));
        }
        if let Some((pos, after)) = eat_key(Key::Sizeof, tokens) {
            return self.sizeof_at(pos, after);
        }
        self.postfix(tokens)
    }

    /// What stands after `sizeof` (C11 6.5.3.4).
    #[tactic(auto, unfolding(crate::specs::expr::ExprReader::sizeof_at, crate::specs::ReaderParts::sizeof_front, crate::specs::Reading::chain, crate::specs::Reading::on_some))]
    #[cycle(parts)]
    fn sizeof_at<'t>(&self, pos: Pos, tokens: &'t [Token]) -> Read<'t, Box<Expr>>
        requires { self.now.most < 2 ^ 32 - 1 }
        ensures { Reads (λ t. expr_view t.value) expr_depth (suc self.now.most) (length tokens.now) result
            (sizeof_at self.now.types.now (readers self.now.types.now self.now.nest self.now.most)
            (suc self.now.most) pos (placed tokens.now)) }
    {
        let Some(inner) = sizeof_front(self.types, tokens) else {
            let (operand, depth, rest) = self.expr(14, tokens)?;
            let node = ExprNode::Unary(Kind::Key(Key::Sizeof), operand);
            let tree = boxed(self.alloc, Expr { pos, node })?;
            return Ok((tree, depth + 1, rest));
        };
        let (name, depth, rest) = self.type_name(inner)?;
        let Some((_, rest)) = eat(Punct::RightParen, rest) else {
            return Err(Stop::NothingRead);
        };
        let node = ExprNode::SizeOfType(name);
        Ok((boxed(self.alloc, Expr { pos, node })?, depth + 1, rest))
    }

    /// A postfix expression (C11 6.5.2).
    #[tactic(auto, unfolding(crate::specs::expr::ExprReader::postfix, crate::specs::Reading::chain))]
    #[cycle(parts)]
    fn postfix<'t>(&self, tokens: &'t [Token]) -> Read<'t, Box<Expr>>
        requires { self.now.most < 2 ^ 32 - 1 }
        ensures { Reads (λ t. expr_view t.value) expr_depth (suc self.now.most) (length tokens.now) result
            (postfix_of self.now.types.now (readers self.now.types.now self.now.nest self.now.most)
            (suc self.now.most) (placed tokens.now)) }
    {
        let Some(start) = first_place(tokens) else {
            return Err(Stop::NothingRead);
        };
        let (mut tree, mut depth, mut rest) = self.primary(tokens)?;
        'each: loop {
            if !goes_on(rest) {
                return Ok((tree, depth, rest));
            }
            if depth > self.most {
                return Err(Stop::NothingRead);
            }
            let (longer, longer_depth, behind) = self.postfix_turn(start, tree, depth, rest)?;
            tree = longer;
            depth = longer_depth;
            rest = behind;
        }
    }

    /// What goes on with an expression, which has this depth and begins at `start`.
    #[tactic(auto, unfolding(crate::specs::expr::ExprReader::postfix_turn, crate::specs::ReaderParts::member_or_step, crate::specs::Reading::on_some))]
    #[cycle(parts)]
    fn postfix_turn<'t>(
        &self,
        start: Pos,
        tree: Box<Expr>,
        depth: u32,
        tokens: &'t [Token],
    ) -> Read<'t, Box<Expr>>
        requires most { self.now.most < 2 ^ 32 - 1 }
        requires deep { depth ≡ expr_depth (expr_view tree.value) }
        requires bound { depth ≤ self.now.most }
        ensures reads { Reads (λ t. expr_view t.value) expr_depth (suc self.now.most) (length tokens.now) result
            (joined (postfix_turn self.now.types.now (readers self.now.types.now self.now.nest self.now.most)
            start (expr_view tree.value) (placed tokens.now))) }
        ensures deeper { IfOk result (λ x. depth < x.1) }
    {
        if let Some((_, inner)) = eat(Punct::LeftParen, tokens) {
            return self.call(start, tree, depth, inner);
        }
        if let Some((pos, inner)) = eat(Punct::LeftBracket, tokens) {
            return self.index(tree, depth, pos, inner);
        }
        let Some((longer, rest)) = self.member_or_step(tree, tokens) else {
            return Err(Stop::NothingRead);
        };
        Ok((boxed(self.alloc, longer)?, depth + 1, rest))
    }

    /// A call, after its parenthesis (C11 6.5.2.2).
    #[tactic(auto, unfolding(crate::specs::expr::ExprReader::call_at, crate::specs::Reading::chain))]
    #[cycle(parts)]
    fn call<'t>(
        &self,
        start: Pos,
        callee: Box<Expr>,
        depth: u32,
        tokens: &'t [Token],
    ) -> Read<'t, Box<Expr>>
        requires most { self.now.most < 2 ^ 32 - 1 }
        requires deep { depth ≡ expr_depth (expr_view callee.value) }
        requires bound { depth ≤ self.now.most }
        ensures reads { Reads (λ t. expr_view t.value) expr_depth (suc self.now.most) (length tokens.now) result
            (call_at self.now.types.now (readers self.now.types.now self.now.nest self.now.most)
            start (expr_view callee.value) (placed tokens.now)) }
        ensures deeper { IfOk result (λ x. depth < x.1) }
    {
        let (args, args_depth, rest) = self.args(tokens)?;
        let call = Expr {
            pos: start,
            node: ExprNode::Call(callee, args),
        };
        let tree = boxed(self.alloc, call)?;
        Ok((tree, depth.max(args_depth) + 1, rest))
    }

    /// An element of an array, after the bracket (C11 6.5.2.1).
    #[tactic(auto, unfolding(crate::specs::expr::ExprReader::index_at, crate::specs::Reading::chain))]
    #[cycle(parts)]
    fn index<'t>(
        &self,
        array: Box<Expr>,
        depth: u32,
        pos: Pos,
        tokens: &'t [Token],
    ) -> Read<'t, Box<Expr>>
        requires most { self.now.most < 2 ^ 32 - 1 }
        requires deep { depth ≡ expr_depth (expr_view array.value) }
        requires bound { depth ≤ self.now.most }
        ensures reads { Reads (λ t. expr_view t.value) expr_depth (suc self.now.most) (length tokens.now) result
            (index_at self.now.types.now (readers self.now.types.now self.now.nest self.now.most)
            (expr_view array.value) pos (placed tokens.now)) }
        ensures deeper { IfOk result (λ x. depth < x.1) }
    {
        let (index, index_depth, rest) = self.expr(0, tokens)?;
        let Some((_, rest)) = eat(Punct::RightBracket, rest) else {
            return Err(Stop::NothingRead);
        };
        let node = ExprNode::Index(array, index);
        let tree = boxed(self.alloc, Expr { pos, node })?;
        Ok((tree, depth.max(index_depth) + 1, rest))
    }

    /// The arguments at the front, with their closing parenthesis (C11 6.5.2.2).
    #[tactic(auto, unfolding(crate::specs::expr::ExprReader::args_at, crate::specs::expr::ExprReader::some_args, crate::specs::Reading::chain, crate::specs::Reading::on_some))]
    #[cycle(parts)]
    fn args<'t>(&self, tokens: &'t [Token]) -> Read<'t, Vec<Expr>>
        ensures { Reads (λ t. exprs_of (map expr_view t.items)) exprs_depth self.now.most (length tokens.now) result
            (args_at self.now.types.now (readers self.now.types.now self.now.nest self.now.most)
            (placed tokens.now)) }
    {
        let mut list = Vec::new(self.alloc);
        if let Some((_, rest)) = eat(Punct::RightParen, tokens) {
            return Ok((list, 0, rest));
        }
        let (first, depth, after) = self.expr(1, tokens)?;
        push(&mut list, first)?;
        let mut deepest = depth;
        let mut rest = after;
        while let Some((_, inner)) = eat(Punct::Comma, rest) {
            let (arg, depth, behind) = self.expr(1, inner)?;
            push(&mut list, arg)?;
            deepest = deepest.max(depth);
            rest = behind;
        }
        let Some((_, behind)) = eat(Punct::RightParen, rest) else {
            return Err(Stop::NothingRead);
        };
        Ok((list, deepest, behind))
    }

    /// A primary expression (C11 6.5.1).
    #[tactic(auto, unfolding(crate::specs::expr::ExprReader::primary, crate::specs::Reading::chain, crate::specs::Reading::on_some))]
    #[cycle(parts)]
    fn primary<'t>(&self, tokens: &'t [Token]) -> Read<'t, Box<Expr>>
        requires { self.now.most < 2 ^ 32 - 1 }
        ensures { Reads (λ t. expr_view t.value) expr_depth (suc self.now.most) (length tokens.now) result
            (primary self.now.types.now (readers self.now.types.now self.now.nest self.now.most)
            (placed tokens.now)) }
    {
        if let Some((tree, rest)) = self.literal(tokens)? {
            return Ok((tree, 1, rest));
        }
        if let Some((pos, inner)) = new_front(self.types, tokens) {
            return self.new_object(pos, inner);
        }
        if let Some((name, pos, rest)) = plain_word(self.types, tokens) {
            let node = ExprNode::Word(name);
            return Ok((boxed(self.alloc, Expr { pos, node })?, 1, rest));
        }
        if let Some((pos, inner)) = eat(Punct::LeftParen, tokens) {
            return self.paren(pos, inner);
        }
        self.text(tokens)
    }

    /// An expression in parentheses, after the first (C11 6.5.1).
    #[tactic(auto, unfolding(crate::specs::expr::ExprReader::paren_at, crate::specs::Reading::chain))]
    #[cycle(parts)]
    fn paren<'t>(&self, pos: Pos, tokens: &'t [Token]) -> Read<'t, Box<Expr>>
        requires { self.now.most < 2 ^ 32 - 1 }
        ensures { Reads (λ t. expr_view t.value) expr_depth (suc self.now.most) (length tokens.now) result
            (paren_at self.now.types.now (readers self.now.types.now self.now.nest self.now.most)
            pos (placed tokens.now)) }
    {
        let (inner, depth, rest) = self.expr(0, tokens)?;
        let Some((_, rest)) = eat(Punct::RightParen, rest) else {
            return Err(Stop::NothingRead);
        };
        let node = ExprNode::Paren(inner);
        let tree = boxed(self.alloc, Expr { pos, node })?;
        Ok((tree, depth + 1, rest))
    }

    /// What stands after `PyObject_New (` (Python/C API Reference Manual 3.11, "Allocating Objects on the Heap").
    #[tactic(auto, unfolding(crate::specs::expr::ExprReader::new_at, crate::specs::Reading::chain))]
    #[cycle(parts)]
    fn new_object<'t>(&self, pos: Pos, tokens: &'t [Token]) -> Read<'t, Box<Expr>>
        requires { self.now.most < 2 ^ 32 - 1 }
        ensures { Reads (λ t. expr_view t.value) expr_depth (suc self.now.most) (length tokens.now) result
            (new_at self.now.types.now (readers self.now.types.now self.now.nest self.now.most)
            pos (placed tokens.now)) }
    {
        let (name, name_depth, rest) = self.type_name(tokens)?;
        let Some((_, inner)) = eat(Punct::Comma, rest) else {
            return Err(Stop::NothingRead);
        };
        let (e, depth, rest) = self.expr(1, inner)?;
        let Some((_, rest)) = eat(Punct::RightParen, rest) else {
            return Err(Stop::NothingRead);
        };
        let node = ExprNode::New(name, e);
        let tree = boxed(self.alloc, Expr { pos, node })?;
        Ok((tree, name_depth.max(depth) + 1, rest))
    }
}
