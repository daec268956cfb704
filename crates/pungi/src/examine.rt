ghost use Rattle.std.specs.Prelude.{◌≡◌, ◌≤◌, ◌<◌, ◌^◌, List, ℕ, Some, length, IfOk, IfErr};
ghost use Rattle.std.specs.List.{All, AllZip};
ghost use Rattle.pungi_base.specs.Words.{BeginWithWords};
ghost use Rattle.pungi_base.specs.declared.pos.Pos.{Pos};
ghost use Rattle.pungi_check.specs.Found.{checked_view, IsChecked};
ghost use Rattle.pungi_report.specs.Text.{IsLine};
ghost use Rattle.pungi_tree.specs.UnitFlat.{items_flat};
ghost use Rattle.pungi_types.specs.Files.{definitions};
ghost use Rattle.pungi_verdict.specs.Verdicts.{IsJudged};
ghost use Rattle.pungi.specs.Examine.{AreVerdicts};
ghost use Rattle.pungi.specs.Front.{AreKnownKinds, IsFaultOf, IsNoFile, reason_of};
ghost use Rattle.pungi.specs.Limits.{file_limit};

use crate::file_fault::FileFault;
use crate::front::unit_of;
use pungi_api::{FileTerms, Table};
use pungi_base::{Memory, Name, Names, Verdict};
use pungi_check::{Checked, check};
use pungi_verdict::judge_all;
use std::alloc::Global;

/// The verdicts on the functions of a checked file.
fn verdicts(
    alloc: Global,
    names: &Names,
    checked: &Checked<'_>,
) -> Result<Vec<(Name, Verdict)>, FileFault>
    requires checked { IsChecked checked.now }
    requires known { AreKnownKinds names.now (items_flat (checked_view checked.now).file.items) }
    ensures judged { IfOk result (λ lines. AllZip (IsJudged (checked_view checked.now))
        (definitions (checked_view checked.now).file.items) lines.items) }
    ensures readable { IfOk result (λ lines. All (IsLine names.now) lines.items) }
    ensures memory { IfErr result (λ fault. fault ≡ FileFault.Memory) }
{
    let _ = names;
    match judge_all(alloc, checked) {
        Ok(lines) => Ok(lines),
        Err(Memory) => Err(FileFault::Memory),
    }
}

/// The verdict on each function of the file that a text within the limit is, by its name, in the order of the file, under
/// these terms. The names gain the words of the text.
pub fn examine(
    alloc: Global,
    names: &mut Names,
    rows: &Table,
    terms: &FileTerms,
    text: &[u8],
) -> Result<Vec<(Name, Verdict)>, FileFault>
    requires limit { length text.now ≤ file_limit }
    requires words { BeginWithWords names.old }
    requires room { length names.old < 2 ^ 31 }
    ensures verdicts { IfOk result (λ lines. AreVerdicts IsJudged
        (record { names = names.old; rows = rows.now; terms = terms.now }) text.now names.new lines.items) }
    ensures readable { IfOk result (λ lines. All (IsLine names.new) lines.items) }
    ensures fault { IfErr result (λ fault. (told : Pos × List ℕ) → reason_of fault ≡ Some told
        → IsFaultOf (record { names = names.old; rows = rows.now; terms = terms.now }) text.now fault
        × IsNoFile (record { names = names.old; rows = rows.now; terms = terms.now }) text.now) }
{
    let unit = match unit_of(alloc, names, text) {
        Ok(unit) => unit,
        Err(fault) => return Err(fault),
    };
    match check(alloc, names, &unit, rows, terms) {
        Ok(checked) => verdicts(alloc, names, &checked),
        Err(fault) => Err(FileFault::Unit(fault)),
    }
}
