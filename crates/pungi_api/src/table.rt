ghost use Rattle.std.specs.Prelude.{◌≡◌, ◌++◌, ◌∷◌, [], length, map, option_map, slice_get, is_none, IfOk, IfSome};
ghost use Rattle.std.specs.Prelude.{OnOk, IsTrue};
ghost use Rattle.std.specs.Option.{option_copied};
ghost use Rattle.indexmap.specs.IndexMap.{get, keys};
ghost use Rattle.pungi_api.specs.Rows.{plain_row, special_row, params_of, takes_of, builtin_rows, row_in, is_row};
ghost use Rattle.pungi_api.specs.Rows.{are_rows, are_plain_rows, named_row, are_new};

use crate::manual::{PLAIN_ROWS, Parameters, PlainRow, SPECIAL_ROWS, SpecialRow};
use crate::{Answer, Form, Param, Row, Take};
use indexmap::IndexMap;
use pungi_base::{Memory, Name, Seq};
use std::alloc::{AllocError, Global};
use std::marker::Model;

/// The rows of the API calls that are known, each under its name.
#[derive(Drop)]
pub struct Table {
    rows: IndexMap<u32, Row>,
}

impl Model for Table {
    ghost use Rattle.std.specs.Prelude.{List, ℕ, IsTrue};
    ghost use Rattle.pungi_api.specs.declared.row.Row.{Row};
    ghost use Rattle.pungi_api.specs.Rows.{are_rows};

    ghost Value = { List (ℕ × Row) };

    ghost view = { λ t. t.rows.entries };

    ghost invariant = { λ t. IsTrue (are_rows t.rows.entries) };
}

fn params_of(alloc: Global, list: Parameters) -> Result<Seq<Param>, Memory>
    ensures { IfOk result (λ params. params ≡ params_of list) }
{
    let mut params = Seq::new(Vec::new(alloc));
    if let Some(param) = list.0 {
        params.push(param)?;
    }
    if let Some(param) = list.1 {
        params.push(param)?;
    }
    if let Some(param) = list.2 {
        params.push(param)?;
    }
    Ok(params)
}

fn items_taken(alloc: Global, count: usize, third: Take) -> Result<Vec<Take>, AllocError>
    ensures { IfOk result (λ takes. takes.items ≡ takes_of count third) }
{
    let all = [Take::Never, Take::Never, third];
    all.iter().take(count).copied().collect(alloc)
}

fn takes_of(alloc: Global, count: usize, third: Take) -> Result<Seq<Take>, Memory>
    ensures { IfOk result (λ takes. takes ≡ takes_of count third) }
{
    Ok(Seq::new(items_taken(alloc, count, third)?))
}

fn row_of_plain(alloc: Global, plain: &PlainRow) -> Result<Row, Memory>
    ensures { IfOk result (λ row. (plain.now.0, row) ≡ plain_row plain.now) }
{
    let params = params_of(alloc, plain.1)?;
    let takes = takes_of(alloc, params.len(), plain.2)?;
    Ok(Row {
        form: Form::Plain,
        params,
        takes,
        answer: plain.3,
    })
}

fn row_of_special(alloc: Global, special: &SpecialRow) -> Row
    ensures { (special.now.0, result) ≡ special_row special.now }
{
    Row {
        form: Form::Special(special.1),
        params: Seq::new(Vec::new(alloc)),
        takes: Seq::new(Vec::new(alloc)),
        answer: Answer::Null,
    }
}

/// Adds a row of a new name at the end.
fn add(rows: &mut IndexMap<u32, Row>, name: u32, row: Row) -> Result<(), Memory>
    requires { IsTrue (is_none (row_in rows.old.entries name)) }
    ensures { OnOk result (rows.new.entries ≡ rows.old.entries ++ (name, row) ∷ []) }
{
    rows.insert(name, row)?;
    Ok(())
}

fn add_plain(alloc: Global, rows: &mut IndexMap<u32, Row>, plain: &[PlainRow]) -> Result<(), Memory>
    requires { IsTrue (are_new rows.old.entries (map plain_row plain.now)) }
    ensures { OnOk result (rows.new.entries ≡ rows.old.entries ++ map plain_row plain.now) }
{
    for row in plain {
        add(rows, row.0, row_of_plain(alloc, row)?)?;
    }
    Ok(())
}

fn add_special(
    alloc: Global,
    rows: &mut IndexMap<u32, Row>,
    special: &[SpecialRow],
) -> Result<(), Memory>
    requires { IsTrue (are_new rows.old.entries (map special_row special.now)) }
    ensures { OnOk result (rows.new.entries ≡ rows.old.entries ++ map special_row special.now) }
{
    for row in special {
        add(rows, row.0, row_of_special(alloc, row))?;
    }
    Ok(())
}

fn add_all(rows: &mut IndexMap<u32, Row>, more: Vec<(Name, Row)>) -> Result<(), Memory>
    requires { IsTrue (are_new rows.old.entries (map named_row more.items)) }
    ensures { OnOk result (rows.new.entries ≡ rows.old.entries ++ map named_row more.items) }
{
    for (name, row) in more {
        add(rows, name.0, row)?;
    }
    Ok(())
}

fn table_of(alloc: Global, plain: &[PlainRow], special: &[SpecialRow]) -> Result<Table, Memory>
    requires plain { IsTrue (are_new [] (map plain_row plain.now)) }
    requires special { IsTrue (are_new (map plain_row plain.now) (map special_row special.now)) }
    requires rows { IsTrue (are_rows (map plain_row plain.now ++ map special_row special.now)) }
    ensures { IfOk result (λ table. table ≡ map plain_row plain.now ++ map special_row special.now) }
{
    let mut rows = IndexMap::new(alloc);
    add_plain(alloc, &mut rows, plain)?;
    add_special(alloc, &mut rows, special)?;
    Ok(Table { rows })
}

impl Table {
    /// The rows of the manual.
    pub fn builtin(alloc: Global) -> Result<Table, Memory>
        ensures { IfOk result (λ table. table ≡ builtin_rows) }
    {
        table_of(alloc, &PLAIN_ROWS, &SPECIAL_ROWS)
    }

    /// Each row of a table is well-formed.
    pub fn rows_are_well_formed(&self)
        ensures { IsTrue (are_rows self.now) }
    {
        let _ = &self.rows;
    }

    /// The row of a name, if there is one.
    pub fn row(&self, name: Name) -> Option<&Row>
        ensures row { option_copied result ≡ row_in self.now name.0 }
        ensures form { IfSome result (λ row. IsTrue (is_row row.now)) }
    {
        self.rows.get(&name.0)
    }

    /// How many rows there are.
    pub fn len(&self) -> usize
        ensures { result ≡ length self.now }
    {
        self.rows.len()
    }

    /// The row at a place, with its name.
    pub fn entry(&self, index: usize) -> Option<(Name, &Row)>
        ensures { option_map (λ e. (e.0.0, e.1.now)) result ≡ slice_get self.now index }
    {
        match self.rows.get_index(index) {
            Some((name, row)) => Some((Name(*name), row)),
            None => None,
        }
    }

    /// The same rows, and these after them. The table is spent where memory runs out.
    pub fn with(self, rows: Vec<(Name, Row)>) -> Result<Table, Memory>
        requires new { IsTrue (are_new self (map named_row rows.items)) }
        requires rows { IsTrue (are_plain_rows (map named_row rows.items)) }
        ensures { IfOk result (λ table. table ≡ self ++ map named_row rows.items) }
    {
        let mut all = self.rows;
        add_all(&mut all, rows)?;
        Ok(Table { rows: all })
    }
}
