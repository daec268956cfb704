ghost use Rattle.std.specs.Prelude.{suc, length};
ghost use Rattle.pungi_parse.specs.Readers.{readers};
ghost use Rattle.pungi_parse.specs.Reads.{Reads};
ghost use Rattle.pungi_parse.specs.types.TypeReader.{params_at, some_params, param as param_of, param_declr_at};
ghost use Rattle.pungi_parse.specs.types.TypeReader.{param_rest};
ghost use Rattle.pungi_tree.specs.ExprDepth.{params_depth, param_decl_depth, param_declr_depth};
ghost use Rattle.pungi_tree.specs.ExprView.{params_view, param_decl_view, param_declr_view};
ghost use Rattle.pungi_tree.specs.Placed.{placed};

use crate::expr::leaves::close_params;
use crate::parser::{Parser, Read};
use crate::stop::Stop;
use crate::tokens::beginnings::{begins_name, dots_front, plain_word, unused_front, void_front};
use crate::tokens::one_token::eat;
use crate::tokens::words;
use crate::types::nodes;
use pungi_base::{Punct, Token};
use pungi_tree::{ParamDecl, ParamDeclr, Params};

impl Parser<'_> {
    /// The parameters at the front, with their closing parenthesis (C11 6.7.6.3).
    #[cycle(parts)]
    pub(crate) fn params<'t>(&self, tokens: &'t [Token]) -> Read<'t, Params>
        ensures { Reads params_view params_depth self.now.most (length tokens.now) result
            ((readers self.now.types.now self.now.nest self.now.most).params (placed tokens.now)) }
    {
        if self.nest == 0 {
            return Err(Stop::NothingRead);
        }
        let inner = Parser {
            alloc: self.alloc,
            types: self.types,
            nest: self.nest - 1,
            most: self.most,
        };
        inner.params_at(tokens)
    }

    /// Parameters, whose parts may nest as deep as `nest` (C11 6.7.6.3).
    #[tactic(auto, unfolding(crate::specs::types::TypeReader::params_at, crate::specs::Reading::on_some))]
    #[cycle(parts)]
    fn params_at<'t>(&self, tokens: &'t [Token]) -> Read<'t, Params>
        ensures { Reads params_view params_depth self.now.most (length tokens.now) result
            (params_at self.now.types.now (readers self.now.types.now self.now.nest self.now.most)
            (placed tokens.now)) }
    {
        if let Some((_, rest)) = eat(Punct::RightParen, tokens) {
            return Ok((nodes::no_params(self.alloc, false), 0, rest));
        }
        if let Some((_, rest)) = void_front(tokens) {
            return Ok((nodes::no_params(self.alloc, true), 0, rest));
        }
        self.some_params(tokens)
    }

    /// At least one parameter, and the closing parenthesis (C11 6.7.6.3).
    #[tactic(auto, unfolding(crate::specs::types::TypeReader::some_params, crate::specs::Reading::chain))]
    #[cycle(parts)]
    fn some_params<'t>(&self, tokens: &'t [Token]) -> Read<'t, Params>
        ensures { Reads params_view params_depth self.now.most (length tokens.now) result
            (some_params self.now.types.now (readers self.now.types.now self.now.nest self.now.most)
            (placed tokens.now)) }
    {
        let mut list = Vec::new(self.alloc);
        let (first, depth, after) = self.param(tokens)?;
        list.push(first)?;
        let mut deepest = depth;
        let mut rest = after;
        'each: loop {
            if let Some((dots, behind)) = dots_front(rest) {
                return close_params(list, Some(dots), deepest, behind);
            }
            let Some((_, inner)) = eat(Punct::Comma, rest) else {
                return close_params(list, None, deepest, rest);
            };
            let (param, depth, behind) = self.param(inner)?;
            list.push(param)?;
            deepest = deepest.max(depth);
            rest = behind;
        }
    }

    /// A parameter (C11 6.7.6.3).
    #[tactic(auto, unfolding(crate::specs::types::TypeReader::param, crate::specs::Reading::chain))]
    #[cycle(parts)]
    fn param<'t>(&self, tokens: &'t [Token]) -> Read<'t, ParamDecl>
        ensures { Reads param_decl_view param_decl_depth self.now.most (length tokens.now) result
            (param_of self.now.types.now (readers self.now.types.now self.now.nest self.now.most)
            (placed tokens.now)) }
    {
        let (quals, rest) = words::qualifiers(self.alloc, tokens)?;
        let (spec, depth, rest) = self.spec(rest)?;
        let (declr, declr_depth, rest) = self.param_declr(rest)?;
        let param = nodes::param(quals, spec, declr);
        Ok((param, depth.max(declr_depth), rest))
    }

    /// What stands after the type of a parameter (C11 6.7.6.3).
    #[tactic(auto, unfolding(crate::specs::types::TypeReader::param_declr_at, crate::specs::Reading::on_some, crate::specs::Reading::when))]
    #[cycle(parts)]
    fn param_declr<'t>(&self, tokens: &'t [Token]) -> Read<'t, ParamDeclr>
        ensures { Reads param_declr_view param_declr_depth self.now.most (suc (length tokens.now)) result
            (param_declr_at self.now.types.now (readers self.now.types.now self.now.nest self.now.most)
            (placed tokens.now)) }
    {
        let (stars, rest) = words::stars(self.alloc, tokens)?;
        if begins_name(rest) {
            self.param_rest(stars, rest)
        } else {
            Ok((ParamDeclr::Bare(stars), 0, rest))
        }
    }

    /// A named or an unused parameter, after its stars (C11 6.7.6.3).
    #[tactic(auto, unfolding(crate::specs::types::TypeReader::param_rest, crate::specs::Reading::chain, crate::specs::Reading::on_some))]
    #[cycle(parts)]
    fn param_rest<'t>(&self, stars: Vec<u32>, tokens: &'t [Token]) -> Read<'t, ParamDeclr>
        ensures { Reads param_declr_view param_declr_depth self.now.most (length tokens.now) result
            (param_rest self.now.types.now (readers self.now.types.now self.now.nest self.now.most)
            stars.items (placed tokens.now)) }
    {
        let Some((_, _, inner)) = unused_front(self.types, tokens) else {
            let (declr, depth, rest) = self.declr_rest(stars, tokens)?;
            return Ok((ParamDeclr::Named(declr), depth, rest));
        };
        let Some((name, pos, rest)) = plain_word(self.types, inner) else {
            return Err(Stop::NothingRead);
        };
        let Some((_, rest)) = eat(Punct::RightParen, rest) else {
            return Err(Stop::NothingRead);
        };
        Ok((ParamDeclr::Unused { stars, name, pos }, 0, rest))
    }
}
