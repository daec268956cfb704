ghost use Rattle.std.specs.Prelude.{◌≡◌, ◌≢◌, ◌<◌, length, map, get_or, true, false, Some, None, Ok, Err, IfOk, IfErr};
ghost use Rattle.std.specs.Prelude.{IsTrue, MatchOption, []};
ghost use Rattle.pungi_base.specs.declared.kind.Kind.TheVariants as kind;
ghost use Rattle.pungi_base.specs.declared.punct.Punct.TheVariants as punct;
ghost use Rattle.pungi_lex.specs.declared.macro_fault.MacroFault.TheVariants as fault;
ghost use Rattle.pungi_lex.specs.Directive.{IsHash, IsWord, IsFunctionLike, Redefines, HasNoJointBelow, IsJointAt};
ghost use Rattle.pungi_lex.specs.Directive.{Defines, Obeys, IsInclusion, IsDefinition, IsDefinitionOf, kinds_in};
ghost use Rattle.pungi_lex.specs.MacroFault.{is_want_of_memory};
ghost use Rattle.pungi_lex.specs.Predefined.{is_predefined};

use crate::macro_fault::MacroFault;
use crate::macros::{Body, put_body};
use pungi_base::words::{DEFINE, INCLUDE, KEYWORDS, MACROS};
use pungi_base::{Key, Kind, Pos, Punct, Token};
use std::alloc::{AllocError, Global};

/// Whether a token begins a directive.
pub(crate) fn is_hash(token: &Token) -> bool
    ensures yes { IsTrue result → IsHash token.now }
    ensures other { result ≡ false → IsHash token.now → ⊥ }
{
    match token.kind {
        Kind::Punct(Punct::Hash) => token.first,
        _ => false,
    }
}

fn is_word(number: u32, token: &Token) -> bool
    ensures yes { IsTrue result → IsWord number token.now }
    ensures other { result ≡ false → IsWord number token.now → ⊥ }
{
    match token.kind {
        Kind::Word(name) => name.0 == number,
        _ => false,
    }
}

fn is_function_like(body: &[Token]) -> bool
    ensures yes { IsTrue result → IsFunctionLike body.now }
    ensures other { result ≡ false → IsFunctionLike body.now → ⊥ }
{
    match body {
        [] => false,
        [token, ..] => match token.kind {
            Kind::Punct(Punct::LeftParen) => token.touching,
            _ => false,
        },
    }
}

fn is_predefined(name: u32) -> bool
    ensures { result ≡ is_predefined name }
{
    KEYWORDS <= name && name < KEYWORDS + MACROS
}

fn is_same_key(a: Key, b: Key) -> bool
    ensures yes { IsTrue result → a ≡ b }
    ensures other { result ≡ false → a ≢ b }
{
    a == b
}

fn is_same_punct(a: Punct, b: Punct) -> bool
    ensures yes { IsTrue result → a ≡ b }
    ensures other { result ≡ false → a ≢ b }
{
    a == b
}

fn is_same(a: Kind, b: Kind) -> bool
    ensures yes { IsTrue result → a ≡ b }
    ensures other { result ≡ false → a ≢ b }
{
    match a {
        Kind::Key(x) => match b {
            Kind::Key(y) => is_same_key(x, y),
            _ => false,
        },
        Kind::Word(x) => match b {
            Kind::Word(y) => x.0 == y.0,
            _ => false,
        },
        Kind::Int {
            value,
            long,
            unsigned,
        } => match b {
            Kind::Int {
                value: other_value,
                long: other_long,
                unsigned: other_unsigned,
            } => value == other_value && long == other_long && unsigned == other_unsigned,
            _ => false,
        },
        Kind::Float => match b {
            Kind::Float => true,
            _ => false,
        },
        Kind::Char(x) => match b {
            Kind::Char(y) => x == y,
            _ => false,
        },
        Kind::Text(x) => match b {
            Kind::Text(y) => x.0 == y.0,
            _ => false,
        },
        Kind::Punct(x) => match b {
            Kind::Punct(y) => is_same_punct(x, y),
            _ => false,
        },
        Kind::Header => match b {
            Kind::Header => true,
            _ => false,
        },
    }
}

fn kind_at(kinds: &[Kind], index: usize) -> Kind
    requires { index < length kinds.now }
    ensures { result ≡ get_or kinds.now index result }
{
    kinds[index]
}

fn kind_of(tokens: &[Token], index: usize) -> Kind
    requires { index < length tokens.now }
    ensures { result ≡ get_or (kinds_in tokens.now) index result }
{
    tokens[index].kind
}

/// Whether tokens have these kinds.
fn same_kinds(kinds: &[Kind], tokens: &[Token]) -> bool
    ensures yes { IsTrue result → kinds.now ≡ kinds_in tokens.now }
    ensures other { result ≡ false → kinds.now ≢ kinds_in tokens.now }
{
    if kinds.len() != tokens.len() {
        return false;
    }
    for i in 0..kinds.len() {
        if !is_same(kind_at(kinds, i), kind_of(tokens, i)) {
            return false;
        }
    }
    true
}

/// Whether a body isn't the one that the name has already.
fn redefines(table: &Vec<Option<Body>>, name: u32, body: &[Token]) -> bool
    ensures yes { IsTrue result → Redefines table.now.items name (kinds_in body.now) }
    ensures other { result ≡ false → Redefines table.now.items name (kinds_in body.now) → ⊥ }
{
    if is_predefined(name) {
        return true;
    }
    match table.get(name as usize) {
        Some(Some(old)) => !same_kinds(old.as_slice(), body),
        _ => false,
    }
}

fn is_joint(token: &Token) -> bool
    ensures yes { IsTrue result → token.now.kind ≡ kind.Punct punct.HashHash }
    ensures other { result ≡ false → token.now.kind ≢ kind.Punct punct.HashHash }
{
    match token.kind {
        Kind::Punct(Punct::HashHash) => true,
        _ => false,
    }
}

/// The place of the first `##` of a body.
fn joint_place(body: &[Token]) -> Option<usize>
    ensures { MatchOption result (HasNoJointBelow body.now (length body.now)) (λ i. IsJointAt body.now i) }
{
    for i in 0..body.len() {
        if is_joint(&body[i]) {
            return Some(i);
        }
    }
    None
}

fn kinds_in(alloc: Global, tokens: &[Token]) -> Result<Vec<Kind>, AllocError>
    ensures { IfOk result (λ kinds. kinds.items ≡ kinds_in tokens.now) }
{
    tokens.iter().map(|t| t.kind).collect(alloc)
}

pub(crate) fn token_at(tokens: &[Token], index: usize) -> Token
    requires { index < length tokens.now }
    ensures { result ≡ get_or tokens.now index result }
{
    tokens[index]
}

/// Obeys the definition of a name.
fn define(
    alloc: Global,
    table: &mut Vec<Option<Body>>,
    name: u32,
    at: Pos,
    body: &[Token],
) -> Result<(), MacroFault>
    ensures defined { IfOk result (λ _. Defines table.old.items name at body.now (Ok table.new.items)) }
    ensures fault { IfErr result (λ found. is_want_of_memory found ≡ false
        → Defines table.old.items name at body.now (Err found)) }
{
    if is_function_like(body) {
        return Err(MacroFault::FunctionMacro(at));
    }
    if redefines(table, name, body) {
        return Err(MacroFault::Redefined(at));
    }
    match joint_place(body) {
        Some(i) => {
            let token = token_at(body, i);
            Err(MacroFault::Directive(token.pos))
        }
        None => {
            let kinds = kinds_in(alloc, body)?;
            put_body(table, name, Body::new(kinds));
            Ok(())
        }
    }
}

fn is_inclusion(words: &[Token]) -> bool
    ensures yes { IsTrue result → IsInclusion words.now }
    ensures other { result ≡ false → IsInclusion words.now → ⊥ }
{
    match words {
        [] => false,
        [word, ..] => is_word(INCLUDE, word),
    }
}

/// The defined word and its place.
fn defined_word(words: &[Token]) -> Option<(u32, Pos)>
    ensures { MatchOption result (IsDefinition words.now → ⊥) (λ found. IsDefinitionOf found.0 found.1 words.now) }
{
    match words {
        [] => None,
        [_] => None,
        [word, name, ..] => {
            if !is_word(DEFINE, word) {
                return None;
            }
            match name.kind {
                Kind::Word(number) => Some((number.0, name.pos)),
                _ => None,
            }
        }
    }
}

/// Obeys a directive, of whose tokens the first is given apart.
pub(crate) fn obey(
    alloc: Global,
    table: &mut Vec<Option<Body>>,
    hash: &Token,
    words: &[Token],
) -> Result<(), MacroFault>
    ensures obeyed { IfOk result (λ _. Obeys table.old.items hash.now words.now (Ok table.new.items)) }
    ensures fault { IfErr result (λ found. is_want_of_memory found ≡ false
        → Obeys table.old.items hash.now words.now (Err found)) }
{
    if is_inclusion(words) {
        return Ok(());
    }
    match defined_word(words) {
        None => Err(MacroFault::Directive(hash.pos)),
        Some((name, at)) => {
            let (_, body) = words.split_at(2);
            match define(alloc, table, name, at, body) {
                Ok(()) => Ok(()),
                Err(found) => Err(found),
            }
        }
    }
}
