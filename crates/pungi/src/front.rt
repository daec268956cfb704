ghost use Rattle.std.specs.Prelude.{◌≡◌, ◌≤◌, ◌<◌, ◌^◌, length, List, ℕ, Some, IfOk, IfErr};
ghost use Rattle.pungi_base.specs.declared.pos.Pos.{Pos};
ghost use Rattle.pungi_api.specs.declared.row.Row.{Row};
ghost use Rattle.pungi_api.specs.Terms.{FileTerms};
ghost use Rattle.pungi_base.specs.Words.{BeginWithWords};
ghost use Rattle.pungi_lex.specs.Limits.{token_limit};
ghost use Rattle.pungi_tree.specs.Syntax.{Item};
ghost use Rattle.pungi_tree.specs.UnitFlat.{items_flat};
ghost use Rattle.pungi_tree.specs.UnitView.{unit_view};
ghost use Rattle.pungi.specs.Front.{IsUnitOf, IsNoUnit, IsFaultOf, AreKnownKinds, reason_of};
ghost use Rattle.pungi.specs.Limits.{file_limit};

use crate::file_fault::FileFault;
use pungi_base::Names;
use pungi_lex::{expand, lex};
use pungi_parse::parse;
use pungi_tree::Unit;
use std::alloc::Global;

/// What a text within the limit consists of: its tokens, their macros replaced, as a tree. The names gain its words.
pub(crate) fn unit_of(alloc: Global, names: &mut Names, text: &[u8]) -> Result<Unit, FileFault>
    requires limit { length text.now ≤ file_limit }
    requires words { BeginWithWords names.old }
    requires room { length names.old < 2 ^ 31 }
    ensures unit { IfOk result (λ unit. IsUnitOf names.old text.now names.new (unit_view unit)) }
    ensures only { IfOk result (λ unit. (others : List (List ℕ)) (items : List Item)
        → IsUnitOf names.old text.now others items → items ≡ unit_view unit) }
    ensures known { IfOk result (λ unit. AreKnownKinds names.new (items_flat (unit_view unit))) }
    ensures few { IfOk result (λ unit. length (items_flat (unit_view unit)) ≤ token_limit) }
    ensures fault { (rows : List (ℕ × Row)) (terms : FileTerms) → IfErr result (λ fault. (told : Pos × List ℕ)
        → reason_of fault ≡ Some told
        → IsFaultOf (record { names = names.old; rows = rows; terms = terms }) text.now fault
        × IsNoUnit names.old text.now) }
{
    let tokens = match lex(alloc, names, text) {
        Ok(tokens) => tokens,
        Err(fault) => return Err(FileFault::Lex(fault)),
    };
    let expanded = match expand(alloc, names, &tokens) {
        Ok(expanded) => expanded,
        Err(fault) => return Err(FileFault::Macro(fault)),
    };
    match parse(alloc, &expanded) {
        Ok(unit) => Ok(unit),
        Err(fault) => Err(FileFault::Parse(fault)),
    }
}
