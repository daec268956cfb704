ghost use Rattle.std.specs.Prelude.{◌≡◌, ◌<◌, length, option_map, Some, IfOk, IfSome};
ghost use Rattle.pungi_parse.specs.Reading.{chain};
ghost use Rattle.pungi_parse.specs.Readers.{readers};
ghost use Rattle.pungi_parse.specs.Reads.{ReadsFront};
ghost use Rattle.pungi_parse.specs.stmt.StmtReader.{vars_at};
ghost use Rattle.pungi_parse.specs.item.UnitReader.{deepest, doc_front, doc_at, typedef_at, head_front, function_rest};
ghost use Rattle.pungi_parse.specs.item.UnitReader.{declared_at, declaration_at, item_at};
ghost use Rattle.pungi_tree.specs.ExprView.{spec_view};
ghost use Rattle.pungi_tree.specs.Placed.{placed};
ghost use Rattle.pungi_tree.specs.Syntax as plain;
ghost use Rattle.pungi_tree.specs.UnitView.{item_view};

use crate::parser::Parser;
use crate::stmt::decl::Front;
use crate::stop::Stop;
use crate::tokens::beginnings::plain_word;
use crate::tokens::one_token::{eat, eat_key, eat_word};
use crate::tokens::words::{qualifiers, stars, texts};
use crate::types::type_words::TypeWords;
use pungi_base::words::PY_DOC_STRVAR;
use pungi_base::{Key, Memory, Name, Pos, Punct, Token};
use pungi_tree::{Decl, FunctionDef, Head, Item, Spec};
use std::alloc::Global;

/// The greatest number of nodes of expressions and statements on a path of a tree.
const DEEPEST: u32 = 256;

/// What stands before the parenthesis of a function.
#[derive(Drop)]
struct Signature {
    quals: Vec<Key>,
    result: Spec,
    stars: Vec<u32>,
    name: Name,
    pos: Pos,
}

/// What reads the items of a file.
#[derive(Clone, Copy)]
pub(crate) struct ItemParser<'a> {
    pub(crate) alloc: Global,
    /// The type words of the file.
    pub(crate) types: &'a TypeWords,
    /// How many tokens the file has.
    pub(crate) nest: usize,
}

impl ItemParser<'_> {
    /// `PyDoc_STRVAR (`: the place of the parenthesis, and the tokens after it.
    #[tactic(auto, unfolding(crate::specs::item::UnitReader::doc_front, crate::specs::Reading::chain, crate::specs::Reading::when))]
    fn doc_front<'t>(&self, tokens: &'t [Token]) -> Option<(Pos, &'t [Token])>
        ensures token { option_map (λ x. (x.0, placed x.1.now)) result
            ≡ doc_front self.now.types.now (placed tokens.now) }
        ensures shorter { IfSome result (λ x. length x.1.now < length tokens.now) }
    {
        let (name, _, rest) = plain_word(self.types, tokens)?;
        if name.0 == PY_DOC_STRVAR {
            eat(Punct::LeftParen, rest)
        } else {
            None
        }
    }

    /// The documentation of a method after its parenthesis.
    #[tactic(auto, unfolding(crate::specs::item::UnitReader::doc_at, crate::specs::Reading::chain, crate::specs::Reading::unless))]
    fn doc<'t>(&self, tokens: &'t [Token]) -> Front<'t, Item>
        ensures { ReadsFront item_view (length tokens.now) result
            (doc_at self.now.types.now (placed tokens.now)) }
    {
        let Some((name, pos, after)) = plain_word(self.types, tokens) else {
            return Err(Stop::NothingRead);
        };
        let Some((_, behind)) = eat(Punct::Comma, after) else {
            return Err(Stop::NothingRead);
        };
        let (texts, end) = texts(self.alloc, behind)?;
        if texts.is_empty() {
            return Err(Stop::NothingRead);
        }
        let Some((_, rest)) = eat(Punct::RightParen, end) else {
            return Err(Stop::NothingRead);
        };
        Ok((Item::Doc { pos, name, texts }, rest))
    }

    /// What stands after `typedef`.
    #[tactic(auto, unfolding(crate::specs::item::UnitReader::typedef_at, crate::specs::Reading::chain))]
    fn typedef<'t>(&self, tokens: &'t [Token]) -> Front<'t, Item>
        ensures { ReadsFront item_view (length tokens.now) result
            (typedef_at self.now.types.now (readers self.now.types.now self.now.nest deepest) (placed tokens.now)) }
    {
        let parser = Parser {
            alloc: self.alloc,
            types: self.types,
            nest: self.nest,
            most: DEEPEST,
        };

        let (spec, _, after) = parser.spec(tokens)?;
        let (stars, behind) = stars(self.alloc, after)?;
        let Some((name, pos, end)) = eat_word(behind) else {
            return Err(Stop::NothingRead);
        };
        let Some((_, rest)) = eat(Punct::Semicolon, end) else {
            return Err(Stop::NothingRead);
        };
        Ok((
            Item::Typedef {
                spec,
                stars,
                name,
                pos,
            },
            rest,
        ))
    }

    /// The stars, the name and the parenthesis of a function after its type, and the tokens after them.
    #[tactic(auto, unfolding(crate::specs::item::UnitReader::head_front, crate::specs::Reading::chain))]
    fn head_front<'t>(
        &self,
        tokens: &'t [Token],
    ) -> Result<Option<(Vec<u32>, Name, Pos, &'t [Token])>, Memory>
        ensures token { IfOk result (λ o. option_map (λ x. (x.0.items, x.1, x.2, placed x.3.now)) o
            ≡ head_front self.now.types.now (placed tokens.now)) }
        ensures shorter { IfOk result (λ o. IfSome o (λ x. length x.3.now < length tokens.now)) }
    {
        let (stars, after) = stars(self.alloc, tokens)?;
        let Some((name, pos, behind)) = plain_word(self.types, after) else {
            return Ok(None);
        };
        let Some((_, rest)) = eat(Punct::LeftParen, behind) else {
            return Ok(None);
        };
        Ok(Some((stars, name, pos, rest)))
    }

    /// What stands after a function's parenthesis.
    #[tactic(auto, unfolding(crate::specs::item::UnitReader::function_rest, crate::specs::Reading::chain, crate::specs::Reading::on_some))]
    fn function_rest<'t>(&self, front: Signature, tokens: &'t [Token]) -> Front<'t, Item>
        ensures { ReadsFront item_view (length tokens.now) result
            (function_rest self.now.types.now self.now.nest front.quals.items (spec_view front.result)
            front.stars.items front.name front.pos (placed tokens.now)) }
    {
        let parser = Parser {
            alloc: self.alloc,
            types: self.types,
            nest: self.nest,
            most: DEEPEST,
        };

        let (params, _, after) = parser.params(tokens)?;
        let Signature {
            quals,
            result,
            stars,
            name,
            pos,
        } = front;
        if let Some((_, rest)) = eat(Punct::Semicolon, after) {
            let head = Head {
                quals,
                result,
                stars,
                name,
                pos,
                params,
            };
            return Ok((Item::Prototype(head), rest));
        }
        let Some(_) = eat(Punct::LeftBrace, after) else {
            return Err(Stop::NothingRead);
        };
        let (body, rest) = parser.stmt(after)?;
        let function = FunctionDef {
            quals,
            result,
            stars,
            name,
            pos,
            params,
            body: Box::into_inner(body),
        };
        Ok((Item::Function(function), rest))
    }

    /// What stands after the type of a declaration.
    #[tactic(auto, unfolding(crate::specs::item::UnitReader::declared_at, crate::specs::Reading::chain, crate::specs::Reading::on_some))]
    fn declared<'t>(&self, quals: Vec<Key>, spec: Spec, tokens: &'t [Token]) -> Front<'t, Item>
        ensures { ReadsFront item_view (length tokens.now) result
            (declared_at self.now.types.now self.now.nest quals.items (spec_view spec) (placed tokens.now)) }
    {
        if let Some((_, rest)) = eat(Punct::Semicolon, tokens) {
            return Ok((Item::Tag { quals, spec }, rest));
        }
        if let Some((stars, name, pos, rest)) = self.head_front(tokens)? {
            let front = Signature {
                quals,
                result: spec,
                stars,
                name,
                pos,
            };
            return self.function_rest(front, rest);
        }
        self.variables(quals, spec, tokens)
    }

    /// The variables of a declaration.
    #[tactic(auto, unfolding(crate::specs::Reading::chain))]
    fn variables<'t>(&self, quals: Vec<Key>, spec: Spec, tokens: &'t [Token]) -> Front<'t, Item>
        ensures { ReadsFront item_view (length tokens.now) result
            (chain (vars_at self.now.types.now (readers self.now.types.now self.now.nest deepest) (placed tokens.now))
            (λ vs. Some (plain.variables (plain.decl quals.items (spec_view spec) vs.0), vs.1))) }
    {
        let parser = Parser {
            alloc: self.alloc,
            types: self.types,
            nest: self.nest,
            most: DEEPEST,
        };

        let (vars, rest) = parser.vars(tokens)?;
        let decl = Decl {
            quals,
            type_name: spec,
            vars,
        };
        Ok((Item::Vars(decl), rest))
    }

    /// A declaration, a prototype or a function.
    #[tactic(auto, unfolding(crate::specs::item::UnitReader::declaration_at, crate::specs::Reading::chain))]
    fn declaration<'t>(&self, tokens: &'t [Token]) -> Front<'t, Item>
        ensures { ReadsFront item_view (length tokens.now) result
            (declaration_at self.now.types.now self.now.nest (placed tokens.now)) }
    {
        let parser = Parser {
            alloc: self.alloc,
            types: self.types,
            nest: self.nest,
            most: DEEPEST,
        };

        let (quals, after) = qualifiers(self.alloc, tokens)?;
        let (spec, _, rest) = parser.spec(after)?;
        self.declared(quals, spec, rest)
    }

    /// What stands at the front of a file.
    #[tactic(auto, unfolding(crate::specs::item::UnitReader::item_at, crate::specs::Reading::on_some))]
    pub(crate) fn item<'t>(&self, tokens: &'t [Token]) -> Front<'t, Item>
        ensures { ReadsFront item_view (length tokens.now) result
            (item_at self.now.types.now self.now.nest (placed tokens.now)) }
    {
        if let Some((pos, rest)) = eat(Punct::Semicolon, tokens) {
            return Ok((Item::Empty(pos), rest));
        }
        if let Some((_, rest)) = self.doc_front(tokens) {
            return self.doc(rest);
        }
        if let Some((_, rest)) = eat_key(Key::Typedef, tokens) {
            return self.typedef(rest);
        }
        self.declaration(tokens)
    }
}
