ghost use Rattle.std.specs.Prelude.{suc, length, map};
ghost use Rattle.pungi_parse.specs.Readers.{readers};
ghost use Rattle.pungi_parse.specs.Reads.{Reads};
ghost use Rattle.pungi_parse.specs.types.TypeReader.{type_name_at, spec_at, base_at, aggregate, fields_at};
ghost use Rattle.pungi_parse.specs.types.TypeReader.{fields as fields_of_tokens, field as field_of};
ghost use Rattle.pungi_parse.specs.types.TypeReader.{declrs as declrs_of_tokens};
ghost use Rattle.pungi_tree.specs.ExprDepth.{type_name_depth, spec_depth, base_depth, field_depth, fields_depth};
ghost use Rattle.pungi_tree.specs.ExprDepth.{declrs_depth};
ghost use Rattle.pungi_tree.specs.ExprView.{type_name_view, spec_view, base_view, field_view, fields_of, declr_view};
ghost use Rattle.pungi_tree.specs.ExprView.{declrs_of};
ghost use Rattle.pungi_tree.specs.Placed.{placed};

use crate::parser::{Parser, Read};
use crate::stop::Stop;
use crate::tokens::beginnings::type_word;
use crate::tokens::one_token::{eat, eat_aggregate, eat_base_word, eat_word, first_place};
use crate::tokens::words;
use crate::types::nodes;
use pungi_base::{Key, Name, Pos, Punct, Token};
use pungi_tree::{Base, Declr, Field, Spec, TypeName};

impl Parser<'_> {
    /// The type with its pointers at the front (C11 6.7.7).
    #[tactic(auto, unfolding(crate::specs::types::TypeReader::type_name_at, crate::specs::Reading::chain))]
    #[cycle(parts)]
    pub(crate) fn type_name<'t>(&self, tokens: &'t [Token]) -> Read<'t, Box<TypeName>>
        ensures { Reads (λ t. type_name_view t.value) type_name_depth self.now.most (length tokens.now) result
            (type_name_at (readers self.now.types.now self.now.nest self.now.most) (placed tokens.now)) }
    {
        let (spec, depth, rest) = self.spec(tokens)?;
        let (stars, rest) = words::stars(self.alloc, rest)?;
        let name = nodes::type_name(self.alloc, spec, stars)?;
        Ok((name, depth, rest))
    }

    /// The type without its pointers at the front (C11 6.7.2).
    #[cycle(parts)]
    pub(crate) fn spec<'t>(&self, tokens: &'t [Token]) -> Read<'t, Spec>
        ensures { Reads spec_view spec_depth self.now.most (length tokens.now) result
            ((readers self.now.types.now self.now.nest self.now.most).spec (placed tokens.now)) }
    {
        if self.nest == 0 {
            return Err(Stop::NothingRead);
        }
        let inner = Parser {
            alloc: self.alloc,
            types: self.types,
            nest: self.nest - 1,
            most: self.most,
        };
        inner.spec_at(tokens)
    }

    /// A type without its pointers, whose parts may nest as deep as `nest` (C11 6.7.2).
    #[tactic(auto, unfolding(crate::specs::types::TypeReader::spec_at, crate::specs::Reading::chain))]
    #[cycle(parts)]
    fn spec_at<'t>(&self, tokens: &'t [Token]) -> Read<'t, Spec>
        ensures { Reads spec_view spec_depth self.now.most (length tokens.now) result
            (spec_at self.now.types.now (readers self.now.types.now self.now.nest self.now.most)
            (placed tokens.now)) }
    {
        let Some(pos) = first_place(tokens) else {
            return Err(Stop::NothingRead);
        };
        let (base, depth, rest) = self.base(tokens)?;
        let (consts, rest) = words::consts(rest)?;
        Ok((Spec { pos, base, consts }, depth, rest))
    }

    /// What a type begins with (C11 6.7.2).
    #[tactic(auto, unfolding(crate::specs::types::TypeReader::base_at, crate::specs::Reading::chain, crate::specs::Reading::on_some))]
    #[cycle(parts)]
    fn base<'t>(&self, tokens: &'t [Token]) -> Read<'t, Base>
        ensures { Reads base_view base_depth self.now.most (length tokens.now) result
            (base_at self.now.types.now (readers self.now.types.now self.now.nest self.now.most)
            (placed tokens.now)) }
    {
        if let Some((first, _, rest)) = eat_base_word(tokens) {
            let (keys, rest) = words::base_words(self.alloc, first, rest)?;
            return Ok((Base::Words(keys), 0, rest));
        }
        if let Some((of, _, rest)) = eat_aggregate(tokens) {
            return self.aggregate(of, rest);
        }
        let Some((name, _, rest)) = type_word(self.types, tokens) else {
            return Err(Stop::NothingRead);
        };
        Ok((Base::Alias(name), 0, rest))
    }

    /// A struct or a union, after its keyword (C11 6.7.2.1).
    #[tactic(auto, unfolding(crate::specs::types::TypeReader::aggregate, crate::specs::Reading::chain, crate::specs::Reading::on_some))]
    #[cycle(parts)]
    fn aggregate<'t>(&self, of: Key, tokens: &'t [Token]) -> Read<'t, Base>
        ensures { Reads base_view base_depth self.now.most (length tokens.now) result
            (aggregate self.now.types.now (readers self.now.types.now self.now.nest self.now.most)
            of (placed tokens.now)) }
    {
        if let Some((name, pos, rest)) = type_word(self.types, tokens) {
            return Ok((nodes::tagged(of, name, pos), 0, rest));
        }
        if let Some((name, pos, rest)) = eat_word(tokens) {
            let Some((_, inner)) = eat(Punct::LeftBrace, rest) else {
                return Ok((nodes::tagged(of, name, pos), 0, rest));
            };
            return self.fields_at(of, Some((name, pos)), inner);
        }
        let Some((_, inner)) = eat(Punct::LeftBrace, tokens) else {
            return Err(Stop::NothingRead);
        };
        self.fields_at(of, None, inner)
    }

    /// The fields of a struct or a union, after the brace (C11 6.7.2.1).
    #[tactic(auto, unfolding(crate::specs::types::TypeReader::fields_at, crate::specs::Reading::chain))]
    #[cycle(parts)]
    fn fields_at<'t>(
        &self,
        of: Key,
        tag: Option<(Name, Pos)>,
        tokens: &'t [Token],
    ) -> Read<'t, Base>
        ensures { Reads base_view base_depth self.now.most (length tokens.now) result
            (fields_at self.now.types.now (readers self.now.types.now self.now.nest self.now.most)
            of tag (placed tokens.now)) }
    {
        let (fields, depth, rest) = self.fields(tokens)?;
        let Some((_, rest)) = eat(Punct::RightBrace, rest) else {
            return Err(Stop::NothingRead);
        };
        Ok((nodes::tagged_fields(of, tag, fields), depth, rest))
    }

    /// The lines up to the closing brace, which stays (C11 6.7.2.1).
    #[cycle(parts)]
    fn fields<'t>(&self, tokens: &'t [Token]) -> Read<'t, Vec<Field>>
        ensures { Reads (λ t. fields_of (map field_view t.items)) fields_depth self.now.most
            (suc (length tokens.now)) result
            (fields_of_tokens self.now.types.now (readers self.now.types.now self.now.nest self.now.most)
            (suc (length (placed tokens.now))) (placed tokens.now)) }
    {
        let mut list = Vec::new(self.alloc);
        let mut deepest = 0;
        let mut rest = tokens;
        'each: loop {
            if let Some(_) = eat(Punct::RightBrace, rest) {
                return Ok((list, deepest, rest));
            }
            let (field, depth, behind) = self.field(rest)?;
            list.push(field)?;
            deepest = deepest.max(depth);
            rest = behind;
        }
    }

    /// A line between the braces (C11 6.7.2.1).
    #[tactic(auto, unfolding(crate::specs::types::TypeReader::field, crate::specs::Reading::chain, crate::specs::Reading::on_some))]
    #[cycle(parts)]
    fn field<'t>(&self, tokens: &'t [Token]) -> Read<'t, Field>
        ensures { Reads field_view field_depth self.now.most (length tokens.now) result
            (field_of self.now.types.now (readers self.now.types.now self.now.nest self.now.most)
            (placed tokens.now)) }
    {
        if let Some((_, rest)) = eat(Punct::Semicolon, tokens) {
            return Ok((Field::Empty, 0, rest));
        }
        let (quals, rest) = words::qualifiers(self.alloc, tokens)?;
        let (spec, spec_depth, rest) = self.spec(rest)?;
        let (declrs, declrs_depth, rest) = self.declrs(rest)?;
        let Some((_, rest)) = eat(Punct::Semicolon, rest) else {
            return Err(Stop::NothingRead);
        };
        let field = nodes::members(quals, spec, declrs);
        Ok((field, spec_depth.max(declrs_depth), rest))
    }
}
