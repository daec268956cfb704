ghost use Rattle.std.specs.Prelude.{suc, length, map};
ghost use Rattle.pungi_parse.specs.Readers.{readers};
ghost use Rattle.pungi_parse.specs.Reads.{Reads};
ghost use Rattle.pungi_parse.specs.ReaderParts.{size_at, size_depth};
ghost use Rattle.pungi_parse.specs.types.TypeReader.{declrs as declrs_of_tokens, declr_at, declr_rest, function_rest};
ghost use Rattle.pungi_parse.specs.types.TypeReader.{sizes_at};
ghost use Rattle.pungi_tree.specs.ExprDepth.{declr_depth, declrs_depth, sizes_depth};
ghost use Rattle.pungi_tree.specs.ExprView.{declr_view, declrs_of, sizes_of, optional_view};
ghost use Rattle.pungi_tree.specs.Placed.{placed};

use crate::parser::{Parser, Read};
use crate::stop::Stop;
use crate::tokens::beginnings::{function_front, plain_word};
use crate::tokens::one_token::eat;
use crate::tokens::words;
use crate::types::nodes;
use pungi_base::{Punct, Token};
use pungi_tree::{Declr, Expr};

impl Parser<'_> {
    /// The declarators at the front, with commas between them (C11 6.7.6).
    #[tactic(auto, unfolding(crate::specs::types::TypeReader::declrs, crate::specs::Reading::chain))]
    #[cycle(parts)]
    pub(crate) fn declrs<'t>(&self, tokens: &'t [Token]) -> Read<'t, Vec<Declr>>
        ensures { Reads (λ t. declrs_of (map declr_view t.items)) declrs_depth self.now.most (length tokens.now) result
            (declrs_of_tokens self.now.types.now (readers self.now.types.now self.now.nest self.now.most)
            (placed tokens.now)) }
    {
        let mut list = Vec::new(self.alloc);
        let (first, depth, after) = self.declr(tokens)?;
        list.push(first)?;
        let mut deepest = depth;
        let mut rest = after;
        while let Some((_, inner)) = eat(Punct::Comma, rest) {
            let (declr, depth, behind) = self.declr(inner)?;
            list.push(declr)?;
            deepest = deepest.max(depth);
            rest = behind;
        }
        Ok((list, deepest, rest))
    }

    /// The declarator at the front (C11 6.7.6).
    #[tactic(auto, unfolding(crate::specs::types::TypeReader::declr_at))]
    #[cycle(parts)]
    pub(crate) fn declr<'t>(&self, tokens: &'t [Token]) -> Read<'t, Declr>
        ensures { Reads declr_view declr_depth self.now.most (length tokens.now) result
            (declr_at self.now.types.now (readers self.now.types.now self.now.nest self.now.most)
            (placed tokens.now)) }
    {
        let (stars, rest) = words::stars(self.alloc, tokens)?;
        self.declr_rest(stars, rest)
    }

    /// What stands after the stars of a declarator (C11 6.7.6).
    #[tactic(auto, unfolding(crate::specs::types::TypeReader::declr_rest, crate::specs::Reading::chain, crate::specs::Reading::on_some))]
    #[cycle(parts)]
    pub(crate) fn declr_rest<'t>(&self, stars: Vec<u32>, tokens: &'t [Token]) -> Read<'t, Declr>
        ensures { Reads declr_view declr_depth self.now.most (length tokens.now) result
            (declr_rest self.now.types.now (readers self.now.types.now self.now.nest self.now.most)
            stars.items (placed tokens.now)) }
    {
        let Some((name, pos, rest)) = plain_word(self.types, tokens) else {
            return self.function_rest(stars, tokens);
        };
        let (sizes, depth, rest) = self.sizes(rest)?;
        Ok((nodes::array(stars, name, pos, sizes), depth, rest))
    }

    /// A pointer to a function, after its stars (C11 6.7.6.3).
    #[cycle(parts)]
    fn function_rest<'t>(&self, stars: Vec<u32>, tokens: &'t [Token]) -> Read<'t, Declr>
        ensures { Reads declr_view declr_depth self.now.most (length tokens.now) result
            (function_rest self.now.types.now (readers self.now.types.now self.now.nest self.now.most)
            stars.items (placed tokens.now)) }
    {
        let Some((name, pos, inner)) = function_front(self.types, tokens) else {
            return Err(Stop::NothingRead);
        };
        let (params, depth, rest) = self.params(inner)?;
        Ok((nodes::function(stars, name, pos, params), depth, rest))
    }

    /// The brackets of an array (C11 6.7.6.2).
    #[cycle(parts)]
    fn sizes<'t>(&self, tokens: &'t [Token]) -> Read<'t, Vec<Option<Expr>>>
        ensures { Reads (λ t. sizes_of (map optional_view t.items)) sizes_depth self.now.most
            (suc (length tokens.now)) result
            (sizes_at self.now.types.now (readers self.now.types.now self.now.nest self.now.most)
            (placed tokens.now)) }
    {
        let mut list = Vec::new(self.alloc);
        let mut deepest: u32 = 0;
        let mut rest = tokens;
        while let Some((_, inner)) = eat(Punct::LeftBracket, rest) {
            let (size, depth, behind) = self.size(inner)?;
            list.push(size)?;
            deepest = deepest.max(depth);
            rest = behind;
        }
        Ok((list, deepest, rest))
    }

    /// What stands between two brackets, with the closing one (C11 6.7.6.2).
    #[tactic(auto, unfolding(crate::specs::ReaderParts::size_at, crate::specs::Reading::chain, crate::specs::Reading::on_some))]
    #[cycle(parts)]
    fn size<'t>(&self, tokens: &'t [Token]) -> Read<'t, Option<Expr>>
        ensures { Reads optional_view size_depth self.now.most (length tokens.now) result
            (size_at (readers self.now.types.now self.now.nest self.now.most) (placed tokens.now)) }
    {
        if let Some((_, rest)) = eat(Punct::RightBracket, tokens) {
            return Ok((None, 0, rest));
        }
        let (e, depth, rest) = self.expr(0, tokens)?;
        let Some((_, rest)) = eat(Punct::RightBracket, rest) else {
            return Err(Stop::NothingRead);
        };
        Ok((Some(Box::into_inner(e)), depth, rest))
    }
}
