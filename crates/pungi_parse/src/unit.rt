ghost use Rattle.std.specs.Prelude.{◌≡◌, ◌≤◌, true, List, map, IfOk, None, Some, Err, MatchResult};
ghost use Rattle.pungi_base.specs.declared.pos.Pos.{Pos as ThePos};
ghost use Rattle.pungi_parse.specs.Faults.{HasFault};
ghost use Rattle.pungi_parse.specs.item.UnitReader.{deepest};
ghost use Rattle.pungi_parse.specs.Units.{IsUnit, StopsAt, too_deep};
ghost use Rattle.pungi_tree.specs.Placed.{placed, kinds};
ghost use Rattle.pungi_tree.specs.Syntax.{Item as PlainItem};
ghost use Rattle.pungi_tree.specs.TypeWords.{type_words};
ghost use Rattle.pungi_tree.specs.UnitDepth.{items_depth};
ghost use Rattle.pungi_tree.specs.UnitFlat.{items_flat};
ghost use Rattle.pungi_tree.specs.UnitLevels.{is_levelled};
ghost use Rattle.pungi_tree.specs.UnitView.{item_view, unit_view};

use crate::fault::ParseFault;
use crate::item::item_parser::ItemParser;
use crate::item::typedef_scan::scan;
use crate::stop::Stop;
use crate::types::type_words::TypeWords;
use pungi_base::{Memory, Name, Token};
use pungi_tree::{Item, Unit};
use std::alloc::Global;

/// The one syntax tree of a file with these tokens (C11 6.9), whose expressions and statements have at most 256 nodes
/// on a path. A token after which more than 64 brackets are open is looked for first. Where there is no such tree, the
/// fault is at the first token after the longest front that is one under the type words of all tokens.
pub fn parse(alloc: Global, tokens: &[Token]) -> Result<Unit, ParseFault>
    ensures unit { IfOk result (λ u. IsUnit (unit_view u) (placed tokens.now)) }
    ensures only { (items : List PlainItem) → too_deep 0 (placed tokens.now) ≡ None
        → IsUnit items (placed tokens.now) → MatchResult result (λ u. unit_view u ≡ items)
        (λ e. e ≡ ParseFault.Memory) }
    ensures not_a_unit { (p : ThePos) → result ≡ Err (ParseFault.NotAUnit p) → StopsAt (placed tokens.now) p }
    ensures no_tree { (p : ThePos) → result ≡ Err (ParseFault.NotAUnit p) → (items : List PlainItem)
        → items_flat items ≡ kinds (placed tokens.now) → is_levelled items ≡ true → items_depth items ≤ deepest → ⊥ }
    ensures deep { (p : ThePos) → result ≡ Err (ParseFault.Deep p) → too_deep 0 (placed tokens.now) ≡ Some p }
    ensures first { (p : ThePos) → too_deep 0 (placed tokens.now) ≡ Some p → result ≡ Err (ParseFault.Deep p) }
    ensures flat { IfOk result (λ u. items_flat (unit_view u) ≡ kinds (placed tokens.now)) }
{
    let (deep, words) = scan(alloc, tokens);
    match deep {
        Some(pos) => Err(ParseFault::Deep(pos)),
        None => unit(alloc, words, tokens),
    }
}

/// The file with these tokens, whose type words are these.
fn unit(
    alloc: Global,
    words: Result<Vec<Name>, Memory>,
    tokens: &[Token],
) -> Result<Unit, ParseFault>
    requires { IfOk words (λ w. w.items ≡ type_words (kinds (placed tokens.now))) }
    ensures { MatchResult result (λ u. IsUnit (unit_view u) (placed tokens.now)) (HasFault (placed tokens.now)) }
{
    let types = TypeWords::new(alloc, words?)?;
    let items = items(alloc, &types, tokens)?;
    Ok(Unit { items })
}

/// The items of a file with these tokens, whose type words are these.
fn items(alloc: Global, types: &TypeWords, tokens: &[Token]) -> Result<Vec<Item>, ParseFault>
    requires { types.now ≡ type_words (kinds (placed tokens.now)) }
    ensures { MatchResult result (λ v. IsUnit (map item_view v.items) (placed tokens.now))
        (HasFault (placed tokens.now)) }
{
    let parser = ItemParser {
        alloc,
        types,
        nest: tokens.len(),
    };
    let mut found = Vec::new(alloc);
    let mut rest = tokens;
    'each: while let Some((first, _)) = rest.split_first() {
        match parser.item(rest) {
            Ok((item, after)) => {
                found.push(item)?;
                rest = after;
            }
            Err(Stop::Memory) => return Err(ParseFault::Memory),
            Err(Stop::NothingRead) => return Err(ParseFault::NotAUnit(first.pos)),
        }
    }
    Ok(found)
}
