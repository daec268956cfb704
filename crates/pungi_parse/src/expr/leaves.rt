ghost use Rattle.std.specs.Prelude.{◌≡◌, ◌<◌, suc, false, length, map, option_map, IfOk, IfSome};
ghost use Rattle.pungi_parse.specs.tokens.OneToken.{eat_literal};
ghost use Rattle.pungi_parse.specs.expr.ExprReader.{text_at};
ghost use Rattle.pungi_parse.specs.Readers.{readers};
ghost use Rattle.pungi_parse.specs.Reads.{Reads};
ghost use Rattle.pungi_parse.specs.ReaderParts.{close_params, joined, member_or_step};
ghost use Rattle.pungi_tree.specs.ExprDepth.{expr_depth};
ghost use Rattle.pungi_tree.specs.ExprView.{expr_view, params_view, param_decl_view, param_decls_of};
ghost use Rattle.pungi_tree.specs.Syntax as plain;
ghost use Rattle.pungi_tree.specs.Placed.{placed};

use crate::expr::nodes::boxed;
use crate::parser::{Parser, Read};
use crate::stop::Stop;
use crate::tokens::beginnings::plain_word;
use crate::tokens::one_token::{eat, eat_literal, eat_step, first_place};
use crate::tokens::words;
use crate::types::nodes;
use pungi_base::{Memory, Pos, Punct, Token};
use pungi_tree::{Expr, ExprNode, ParamDecl, Params};

/// Parameters of this depth, with the closing parenthesis at the front.
#[tactic(auto, unfolding(crate::specs::ReaderParts::close_params, crate::specs::Reading::chain))]
pub(crate) fn close_params<'t>(
    list: Vec<ParamDecl>,
    dots: Option<Pos>,
    depth: u32,
    tokens: &'t [Token],
) -> Read<'t, Params>
    ensures reads { Reads params_view (λ _. depth) depth (length tokens.now) result
        (close_params (param_decls_of (map param_decl_view list.items)) dots (placed tokens.now)) }
    ensures same { IfOk result (λ x. params_view x.0
        ≡ plain.params (param_decls_of (map param_decl_view list.items)) false dots) }
{
    let Some((_, rest)) = eat(Punct::RightParen, tokens) else {
        return Err(Stop::NothingRead);
    };
    Ok((nodes::some_params(list, dots), depth, rest))
}

impl Parser<'_> {
    /// A constant or `NULL` at the front, and the tokens after it.
    pub(crate) fn literal<'t>(
        &self,
        tokens: &'t [Token],
    ) -> Result<Option<(Box<Expr>, &'t [Token])>, Memory>
        ensures token { IfOk result (λ o. option_map (λ x. (expr_view x.0.value, placed x.1.now)) o
            ≡ eat_literal (placed tokens.now)) }
        ensures shorter { IfOk result (λ o. IfSome o (λ x. length x.1.now < length tokens.now)) }
    {
        let Some((tree, rest)) = eat_literal(tokens) else {
            return Ok(None);
        };
        Ok(Some((boxed(self.alloc, tree)?, rest)))
    }

    /// A string literal, in one or more texts, at the front.
    #[tactic(auto, unfolding(crate::specs::expr::ExprReader::text_at, crate::specs::Reading::chain, crate::specs::Reading::unless))]
    pub(crate) fn text<'t>(&self, tokens: &'t [Token]) -> Read<'t, Box<Expr>>
        ensures { Reads (λ t. expr_view t.value) expr_depth 1 (length tokens.now) result
            (text_at self.now.types.now (readers self.now.types.now self.now.nest self.now.most) (placed tokens.now)) }
    {
        let Some(pos) = first_place(tokens) else {
            return Err(Stop::NothingRead);
        };
        let (names, rest) = words::texts(self.alloc, tokens)?;
        if names.is_empty() {
            return Err(Stop::NothingRead);
        }
        let node = ExprNode::Text(names);
        Ok((boxed(self.alloc, Expr { pos, node })?, 1, rest))
    }

    /// A member of an expression, or a step, by what stands after it.
    #[tactic(auto, unfolding(crate::specs::ReaderParts::member_or_step, crate::specs::Reading::chain, crate::specs::Reading::on_some))]
    pub(crate) fn member_or_step<'t>(
        &self,
        tree: Box<Expr>,
        tokens: &'t [Token],
    ) -> Option<(Expr, &'t [Token])>
        ensures tree { option_map (λ x. (expr_view x.0, placed x.1.now)) result
            ≡ joined (member_or_step self.now.types.now (expr_view tree.value) (placed tokens.now)) }
        ensures deep { IfSome result (λ x. expr_depth (expr_view x.0) ≡ suc (expr_depth (expr_view tree.value))) }
        ensures shorter { IfSome result (λ x. length x.1.now < length tokens.now) }
    {
        if let Some((pos, after)) = eat(Punct::Dot, tokens) {
            let (name, _, rest) = plain_word(self.types, after)?;
            let node = ExprNode::Dot(tree, name);
            return Some((Expr { pos, node }, rest));
        }
        if let Some((pos, after)) = eat(Punct::Arrow, tokens) {
            let (name, _, rest) = plain_word(self.types, after)?;
            let node = ExprNode::Arrow(tree, name);
            return Some((Expr { pos, node }, rest));
        }
        let (operator, pos, rest) = eat_step(tokens)?;
        let node = ExprNode::Post(operator, tree);
        Some((Expr { pos, node }, rest))
    }
}
