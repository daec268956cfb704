// What calls of the API take and give.
ghost use Rattle.std.specs.Prelude.{◌≡◌, ◌++◌, ℕ, ◌==◌, ◌∷◌, [], nat_eq, map, option_map, slice_get, Some, None, OnOk};
ghost use Rattle.std.specs.Prelude.{IfOk, if◌then◌else◌};
ghost use Rattle.indexmap.specs.IndexMap.{get, IsEmpty};
ghost use Rattle.std.specs.Option.{option_to_list};
ghost use Rattle.pungi_api.specs.Rows.{row_in};
ghost use Rattle.pungi_names.specs.First.{or_first};
ghost use Rattle.pungi_names.specs.RowsView.{call_view, row_seen, entry_view, fixed_wants};
ghost use Rattle.pungi_types.specs.Formats.{param_want};

use crate::first::keep_first;
use indexmap::IndexMap;
use pungi_api::{Answer, Form, Param, Row, Special, Table};
use pungi_base::{Memory, Name};
use pungi_types::wants::param_want;
use pungi_types::{ValueKind, Want};
use std::alloc::Global;

/// A row, with what each call of it takes, whatever its number of arguments.
#[derive(Drop)]
pub(crate) struct RowCall<'u> {
    pub(crate) row: &'u Row,
    pub(crate) wants: Vec<Want>,
}

fn put_wants(wants: &mut Vec<Want>, params: &[Param]) -> Result<(), Memory>
    ensures { OnOk result (wants.new.items ≡ wants.old.items ++ map param_want params.now) }
{
    for param in params {
        wants.push(param_want(*param))?;
    }
    Ok(())
}

/// What the first arguments of each call of a row are to be, whatever its number of arguments.
fn fixed_wants(alloc: Global, row: &Row) -> Result<Vec<Want>, Memory>
    ensures { IfOk result (λ wants. wants.items ≡ fixed_wants row.now.form row.now.params) }
{
    let mut wants = Vec::new(alloc);
    match row.form {
        Form::Plain => {
            put_wants(&mut wants, row.params.as_slice())?;
        }
        Form::Special(Special::Clear) => wants.push(Want::ObjectPlace)?,
        Form::Special(Special::TuplePack) => {}
        Form::Special(Special::ErrFormat) => {
            wants.push(Want::OfKind(ValueKind::Object(None)))?;
            wants.push(Want::OfKind(ValueKind::Text))?;
        }
        Form::Special(Special::DictNext) => {
            wants.push(Want::OfKind(ValueKind::Object(None)))?;
            wants.push(Want::Position)?;
            wants.push(Want::OptionalOutput(Answer::BorrowedSure))?;
            wants.push(Want::OptionalOutput(Answer::BorrowedSure))?;
        }
        Form::Special(_) => wants.push(Want::OfKind(ValueKind::Object(None)))?,
    }
    Ok(wants)
}

/// Adds the row at a place, if there is one.
fn put_row<'u>(entries: &mut Vec<(Name, &'u Row)>, rows: &'u Table, at: usize) -> Result<(), Memory>
    ensures { OnOk result (map entry_view entries.new.items
        ≡ map entry_view entries.old.items ++ option_to_list (slice_get rows.now at)) }
{
    if let Some(entry) = rows.entry(at) {
        entries.push(entry)?;
    }
    Ok(())
}

/// Adds all rows.
fn put_rows<'u>(entries: &mut Vec<(Name, &'u Row)>, rows: &'u Table) -> Result<(), Memory>
    requires { entries.old.items ≡ [] }
    ensures { OnOk result (map entry_view entries.new.items ≡ rows.now) }
{
    for at in 0..rows.len() {
        put_row(entries, rows, at)?;
    }
    Ok(())
}

#[tactic(auto, using(crate::proofs::ListLemmas::flip))]
fn note_row<'u>(
    alloc: Global,
    calls: &mut IndexMap<u32, RowCall<'u>>,
    entry: &(Name, &'u Row),
) -> Result<(), Memory>
    ensures { OnOk result ((w : ℕ) → option_map call_view (get nat_eq calls.new w)
        ≡ or_first (option_map call_view (get nat_eq calls.old w)) (option_map row_seen
        (if w == entry.now.0.0 then Some entry.now.1.now else None))) }
{
    let row = entry.1;
    let wants = fixed_wants(alloc, row)?;
    keep_first(calls, entry.0.0, RowCall { row, wants })?;
    Ok(())
}

fn note_rows<'u>(
    alloc: Global,
    calls: &mut IndexMap<u32, RowCall<'u>>,
    entries: &Vec<(Name, &'u Row)>,
) -> Result<(), Memory>
    ensures { OnOk result ((w : ℕ) → option_map call_view (get nat_eq calls.new w)
        ≡ or_first (option_map call_view (get nat_eq calls.old w)) (option_map row_seen
        (row_in (map entry_view entries.now.items) w))) }
{
    for entry in entries {
        note_row(alloc, calls, entry)?;
    }
    Ok(())
}

/// Adds the rows to none, by their names.
pub(crate) fn note_row_calls<'u>(
    alloc: Global,
    rows: &'u Table,
    calls: &mut IndexMap<u32, RowCall<'u>>,
) -> Result<(), Memory>
    requires { IsEmpty calls.old }
    ensures { OnOk result ((w : ℕ) → option_map call_view (get nat_eq calls.new w)
        ≡ option_map row_seen (row_in rows.now w)) }
{
    let mut entries = Vec::new(alloc);
    put_rows(&mut entries, rows)?;
    note_rows(alloc, calls, &entries)?;
    Ok(())
}
