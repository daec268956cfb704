//! What a configuration states: the rows that it adds to the table, and the terms under which functions are judged.
ghost use Rattle.std.specs.Prelude.{◌≡◌, ◌≤◌, ◌<◌, ◌+◌, ◌-◌, ◌^◌, ◌++◌, ◌∷◌, [], IfOk, IfErr, IfSome, IsTrue, OnOk};
ghost use Rattle.std.specs.Prelude.{Some, None, Ok, length, map, option_map, option_and_then, codes, not, ◌&&◌};
ghost use Rattle.std.specs.Prelude.{is_none, is_some, slice_get};
ghost use Rattle.std.specs.List.{list_all};
ghost use Rattle.toml.specs.View.{view, table_view};
ghost use Rattle.toml.specs.Data.{as_table, get_member};
ghost use Rattle.pungi_base.specs.CWords.{is_c_word, is_word_byte, is_letter};
ghost use Rattle.pungi_base.specs.Names.{Extends, with_text};
ghost use Rattle.pungi_api.specs.Rows.{are_new, are_plain_rows, named_row, row_in};
ghost use Rattle.pungi_config.specs.Limits.{row_limit, convention_limit, name_limit};
ghost use Rattle.pungi_config.specs.Keys.{has_key};
ghost use Rattle.pungi_config.specs.Configuration.{Answers, is_free, is_free_number, names_after, number_of};
ghost use Rattle.pungi_config.specs.Configuration.{read_function, read_convention, read_declared, read_row, read_rows};
ghost use Rattle.pungi_config.specs.Configuration.{read_members, read_parts, read_terms, read_text, with_names};
ghost use Rattle.pungi_config.specs.Configuration.{is_table_within, is_right_top, wrong_top, profile_in};
ghost use Rattle.pungi_config.specs.Configuration.{IsTextFault, functions_in, conventions_in, names_with};
ghost use Rattle.pungi_config.specs.Configuration.{read_conventions, under_profile};
ghost use Rattle.pungi_config.specs.Wrong.{named_read, value_read, rows_read, terms_read, parts_read, config_read};

use crate::conventions::read_convention_keys;
use crate::keys::read_keys;
use crate::limits::{CONVENTION_LIMIT, ROW_LIMIT};
use crate::words::profile_of;
use crate::wrong::{Wrong, spelled};
use crate::{Config, ConfigFault};
use pungi_api::{Convention, FileTerms, Profile, Row, Table};
use pungi_base::words::OB_BASE;
use pungi_base::{Memory, Name, Names};
use std::alloc::Global;
use toml::{Table as Members, Value};

fn is_letter(b: u8) -> bool
    ensures { result ≡ is_letter b }
{
    (b'A' <= b && b <= b'Z') || (b'a' <= b && b <= b'z') || b == b'_'
}

fn is_word_byte(b: u8) -> bool
    ensures { result ≡ is_word_byte b }
{
    is_letter(b) || (b'0' <= b && b <= b'9')
}

fn are_word_bytes(text: &[u8]) -> bool
    ensures { result ≡ list_all is_word_byte text.now }
{
    for byte in text {
        if !is_word_byte(*byte) {
            return false;
        }
    }
    true
}

fn is_c_word(text: &[u8]) -> bool
    ensures { result ≡ is_c_word text.now }
{
    match text {
        [first, rest @ ..] => is_letter(*first) && are_word_bytes(rest),
        [] => false,
    }
}

fn member<'a>(members: &'a Members, key: &str) -> Option<&'a Value>
    ensures { option_map (λ value. view value.now) result ≡ get_member key.now (table_view members.now) }
{
    members.get(key)
}

/// The row of a function, or the wrong key.
fn read_row<'a>(
    alloc: Global,
    name: &'a str,
    value: &'a Value,
) -> Result<Result<Row, Wrong<'a>>, Memory>
    ensures { IfOk result (λ read. value_read read ≡ read_row name.now (view value.now)) }
{
    match value.as_table() {
        None => Ok(Err(Wrong::Function(name))),
        Some(keys) => {
            if member(keys, "params").is_none() || member(keys, "result").is_none() {
                return Ok(Err(Wrong::Function(name)));
            }
            match read_keys(alloc, keys)? {
                Ok(row) => Ok(Ok(row)),
                Err(key) => Ok(Err(Wrong::FunctionKey(name, key))),
            }
        }
    }
}

/// The convention of a function, or the wrong key.
fn read_declared<'a>(
    alloc: Global,
    name: &'a str,
    value: &'a Value,
) -> Result<Result<Convention, Wrong<'a>>, Memory>
    ensures { IfOk result (λ read. value_read read ≡ read_declared name.now (view value.now)) }
{
    match value.as_table() {
        Some(keys) if !keys.is_empty() => match read_convention_keys(alloc, keys)? {
            Ok(convention) => Ok(Ok(convention)),
            Err(key) => Ok(Err(Wrong::ConventionKey(name, key))),
        },
        _ => Ok(Err(Wrong::Convention(name))),
    }
}

fn is_free_number(table: &Table, number: Name) -> bool
    ensures { result ≡ is_free_number table.now number.0 }
{
    OB_BASE <= number.0 && table.row(number).is_none()
}

/// The number of a name, if it is free for a row.
fn free_number(
    alloc: Global,
    names: &mut Names,
    table: &Table,
    name: &str,
) -> Result<Option<Name>, Memory>
    requires { length names.old < 2 ^ 32 - 1 }
    ensures free { IfOk result (λ number. is_some number ≡ is_free table.now names.old name.now) }
    ensures number { IfOk result (λ number. IfSome number (λ n. n.0 ≡ number_of names.old name.now)) }
    ensures text { IfOk result (λ number. IfSome number (λ n. slice_get names.new n.0 ≡ Some name.now)) }
    ensures names { IfOk result (λ number. IfSome number (λ n. names.new ≡ with_text names.old name.now)) }
    ensures new { IfOk result (λ number. IfSome number (λ n. IsTrue (is_none (row_in table.now n.0)))) }
    ensures grows { Extends names.old names.new }
    ensures room { length names.new ≤ length names.old + 1 }
{
    if !is_c_word(name.as_bytes()) {
        return Ok(None);
    }
    let number = names.number(alloc, name.as_bytes())?;
    if is_free_number(table, number) {
        Ok(Some(number))
    } else {
        Ok(None)
    }
}

/// The row of a function under its number, or the wrong key.
fn read_function<'a>(
    alloc: Global,
    names: &mut Names,
    table: &Table,
    name: &'a str,
    value: &'a Value,
) -> Result<Result<(Name, Row), Wrong<'a>>, Memory>
    requires { length names.old < 2 ^ 32 - 1 }
    ensures row { IfOk result (λ read. named_read read
        ≡ read_function table.now names.old name.now (view value.now)) }
    ensures number { IfOk result (λ read. IfOk read (λ row. row.0.0 ≡ number_of names.old name.now)) }
    ensures text { IfOk result (λ read. IfOk read (λ row. slice_get names.new row.0.0 ≡ Some name.now)) }
    ensures names { IfOk result (λ read. IfOk read (λ row. names.new ≡ with_text names.old name.now)) }
    ensures new { IfOk result (λ read. IfOk read (λ row. IsTrue (is_none (row_in table.now row.0.0)))) }
    ensures grows { Extends names.old names.new }
    ensures room { length names.new ≤ length names.old + 1 }
{
    let Some(number) = free_number(alloc, names, table, name)? else {
        return Ok(Err(Wrong::Function(name)));
    };
    match read_row(alloc, name, value)? {
        Ok(row) => Ok(Ok((number, row))),
        Err(wrong) => Ok(Err(wrong)),
    }
}

/// The rows of functions, or the first wrong key.
fn read_rows<'a>(
    alloc: Global,
    names: &mut Names,
    table: &Table,
    functions: &'a Members,
) -> Result<Result<Vec<(Name, Row)>, Wrong<'a>>, Memory>
    requires few { length functions.now.entries ≤ row_limit }
    requires room { length names.old < 2 ^ 31 + convention_limit }
    ensures rows { IfOk result (λ read. rows_read read ≡ read_rows table.now names.old (table_view functions.now)) }
    ensures names { IfOk result (λ read. IfOk read
        (λ rows. names.new ≡ with_names names.old (table_view functions.now))) }
    ensures new { IfOk result (λ read. IfOk read
        (λ rows. IsTrue (are_new table.now (map named_row rows.items)))) }
    ensures grows { Extends names.old names.new }
    ensures room { length names.new ≤ length names.old + row_limit }
{
    let mut rows = Vec::new(alloc);
    for (name, value) in functions.iter() {
        match read_function(alloc, names, table, name.as_str(), value)? {
            Ok(row) => rows.push(row)?,
            Err(wrong) => return Ok(Err(wrong)),
        }
    }
    Ok(Ok(rows))
}

/// What stands in a table of the whole text.
fn table_in<'a>(members: &'a Members, key: &str) -> Option<&'a Members>
    ensures { option_map (λ t. table_view t.now) result
        ≡ option_and_then as_table (get_member key.now (table_view members.now)) }
{
    match member(members, key) {
        Some(value) => value.as_table(),
        None => None,
    }
}

/// Whether a row is stated for a name.
fn is_function(members: &Members, name: &str) -> bool
    ensures { result ≡ has_key name.now (functions_in (table_view members.now)) }
{
    match table_in(members, "function") {
        Some(functions) => member(functions, name).is_some(),
        None => false,
    }
}

/// The convention of a function under its number, or the wrong key.
fn read_convention<'a>(
    alloc: Global,
    names: &mut Names,
    table: &Table,
    members: &'a Members,
    name: &'a str,
    value: &'a Value,
) -> Result<Result<(Name, Convention), Wrong<'a>>, Memory>
    requires { length names.old < 2 ^ 32 - 1 }
    ensures convention { IfOk result (λ read. named_read read
        ≡ read_convention table.now (functions_in (table_view members.now)) names.old name.now (view value.now)) }
    ensures number { IfOk result (λ read. IfOk read (λ c. c.0.0 ≡ number_of names.old name.now)) }
    ensures text { IfOk result (λ read. IfOk read (λ c. slice_get names.new c.0.0 ≡ Some name.now)) }
    ensures names { IfOk result (λ read. IfOk read (λ c. names.new ≡ with_text names.old name.now)) }
    ensures grows { Extends names.old names.new }
    ensures room { length names.new ≤ length names.old + 1 }
{
    if is_function(members, name) {
        return Ok(Err(Wrong::Convention(name)));
    }
    let Some(number) = free_number(alloc, names, table, name)? else {
        return Ok(Err(Wrong::Convention(name)));
    };
    match read_declared(alloc, name, value)? {
        Ok(convention) => Ok(Ok((number, convention))),
        Err(wrong) => Ok(Err(wrong)),
    }
}

/// Declares the conventions of functions, up to the first wrong key.
fn read_conventions<'a>(
    alloc: Global,
    names: &mut Names,
    table: &Table,
    members: &'a Members,
    conventions: &'a Members,
    terms: &mut FileTerms,
) -> Result<Result<(), Wrong<'a>>, Memory>
    requires few { length conventions.now.entries ≤ convention_limit }
    requires none { terms.old.conventions ≡ [] }
    requires room { length names.old < 2 ^ 31 }
    ensures terms { IfOk result (λ read. terms_read read terms.new ≡ under_profile terms.old.profile
        (read_conventions table.now (functions_in (table_view members.now)) names.old (table_view conventions.now))) }
    ensures names { IfOk result (λ read. IfOk read
        (λ x. names.new ≡ with_names names.old (table_view conventions.now))) }
    ensures grows { Extends names.old names.new }
    ensures room { length names.new ≤ length names.old + convention_limit }
{
    for (name, value) in conventions.iter() {
        match read_convention(alloc, names, table, members, name.as_str(), value)? {
            Ok((number, convention)) => terms.declare(number, convention)?,
            Err(wrong) => return Ok(Err(wrong)),
        }
    }
    Ok(Ok(()))
}

fn is_table_within(limit: usize, value: &Value) -> bool
    ensures { result ≡ is_table_within limit (view value.now) }
{
    match value.as_table() {
        Some(members) => members.len() <= limit,
        None => false,
    }
}

fn is_right_top(key: &str, value: &Value) -> bool
    ensures { result ≡ is_right_top key.now (view value.now) }
{
    if key == "convention" {
        is_table_within(CONVENTION_LIMIT, value)
    } else if key == "function" {
        is_table_within(ROW_LIMIT, value)
    } else if key == "profile" {
        profile_of(value).is_some()
    } else {
        false
    }
}

fn wrong_top<'a>(members: &'a Members) -> Option<&'a str>
    ensures { option_map (λ key. key.now) result ≡ wrong_top (table_view members.now) }
{
    for (key, value) in members {
        if !is_right_top(key.as_str(), value) {
            return Some(key.as_str());
        }
    }
    None
}

fn profile_in(members: &Members) -> Profile
    ensures { result ≡ profile_in (table_view members.now) }
{
    match member(members, "profile") {
        Some(value) => match profile_of(value) {
            Some(profile) => profile,
            None => Profile::Python311,
        },
        None => Profile::Python311,
    }
}

/// The terms of the members of a text, or the first wrong key.
fn read_terms<'a>(
    alloc: Global,
    names: &mut Names,
    table: &Table,
    members: &'a Members,
    terms: &mut FileTerms,
) -> Result<Result<(), Wrong<'a>>, Memory>
    requires right { wrong_top (table_view members.now) ≡ None }
    requires profile { terms.old.profile ≡ profile_in (table_view members.now) }
    requires none { terms.old.conventions ≡ [] }
    requires room { length names.old < 2 ^ 31 }
    ensures terms { IfOk result
        (λ read. terms_read read terms.new ≡ read_terms table.now names.old (table_view members.now)) }
    ensures names { IfOk result (λ read. IfOk read
        (λ x. names.new ≡ with_names names.old (conventions_in (table_view members.now)))) }
    ensures grows { Extends names.old names.new }
    ensures room { length names.new ≤ length names.old + convention_limit }
{
    match table_in(members, "convention") {
        None => Ok(Ok(())),
        Some(conventions) => read_conventions(alloc, names, table, members, conventions, terms),
    }
}

/// The rows of the members of a text, or the first wrong key.
fn read_functions<'a>(
    alloc: Global,
    names: &mut Names,
    table: &Table,
    members: &'a Members,
) -> Result<Result<Vec<(Name, Row)>, Wrong<'a>>, Memory>
    requires right { wrong_top (table_view members.now) ≡ None }
    requires room { length names.old < 2 ^ 31 + convention_limit }
    ensures rows { IfOk result
        (λ read. rows_read read ≡ read_rows table.now names.old (functions_in (table_view members.now))) }
    ensures names { IfOk result (λ read. IfOk read
        (λ rows. names.new ≡ with_names names.old (functions_in (table_view members.now)))) }
    ensures new { IfOk result (λ read. IfOk read
        (λ rows. IsTrue (are_new table.now (map named_row rows.items)))) }
    ensures grows { Extends names.old names.new }
    ensures room { length names.new ≤ length names.old + row_limit }
{
    match table_in(members, "function") {
        None => Ok(Ok(Vec::new(alloc))),
        Some(functions) => read_rows(alloc, names, table, functions),
    }
}

/// The terms, and then the rows, or the first wrong key.
fn read_parts<'a>(
    alloc: Global,
    names: &mut Names,
    table: &Table,
    members: &'a Members,
    terms: &mut FileTerms,
) -> Result<Result<Vec<(Name, Row)>, Wrong<'a>>, Memory>
    requires right { wrong_top (table_view members.now) ≡ None }
    requires profile { terms.old.profile ≡ profile_in (table_view members.now) }
    requires none { terms.old.conventions ≡ [] }
    requires room { length names.old < 2 ^ 31 }
    ensures parts { IfOk result
        (λ read. parts_read read terms.new ≡ read_parts table.now names.old (table_view members.now)) }
    ensures names { IfOk result (λ read. IfOk read
        (λ rows. names.new ≡ names_with names.old (table_view members.now))) }
    ensures new { IfOk result (λ read. IfOk read
        (λ rows. IsTrue (are_new table.now (map named_row rows.items)))) }
    ensures grows { Extends names.old names.new }
    ensures room { length names.new ≤ length names.old + name_limit }
{
    match read_terms(alloc, names, table, members, terms)? {
        Ok(()) => read_functions(alloc, names, table, members),
        Err(wrong) => Ok(Err(wrong)),
    }
}

fn with_terms<'a>(
    read: Result<Vec<(Name, Row)>, Wrong<'a>>,
    terms: FileTerms,
) -> Result<Config, Wrong<'a>>
    ensures read { config_read result ≡ parts_read read.entry terms }
    ensures rows { IfOk result (λ config. read.entry ≡ Ok config.rows) }
{
    match read {
        Ok(rows) => Ok(Config { rows, terms }),
        Err(wrong) => Err(wrong),
    }
}

/// What the members of a text state, or the first wrong key.
fn read_members<'a>(
    alloc: Global,
    names: &mut Names,
    table: &Table,
    members: &'a Members,
) -> Result<Result<Config, Wrong<'a>>, Memory>
    requires room { length names.old < 2 ^ 31 }
    ensures config { IfOk result
        (λ read. config_read read ≡ read_members table.now names.old (table_view members.now)) }
    ensures names { IfOk result (λ read. IfOk read
        (λ config. names.new ≡ names_with names.old (table_view members.now))) }
    ensures new { IfOk result (λ read. IfOk read
        (λ config. IsTrue (are_new table.now (map named_row config.rows.items)))) }
    ensures grows { Extends names.old names.new }
    ensures room { length names.new ≤ length names.old + name_limit }
{
    if let Some(key) = wrong_top(members) {
        return Ok(Err(Wrong::Top(key)));
    }
    let mut terms = FileTerms::under(alloc, profile_in(members));
    match read_parts(alloc, names, table, members, &mut terms) {
        Ok(read) => Ok(with_terms(read, terms)),
        Err(memory) => {
            drop(terms);
            Err(memory)
        }
    }
}

fn read_text(alloc: Global, text: &[u8]) -> Result<Members, ConfigFault>
    ensures ok { IfOk result (λ members. read_text text.now ≡ Some (table_view members)) }
    ensures refused { IfErr result (IsTextFault text.now) }
{
    match toml::table_from_slice(alloc, text) {
        Ok(members) => Ok(members),
        Err(error) => Err(if error.is_memory() {
            ConfigFault::Memory
        } else {
            ConfigFault::Text
        }),
    }
}

/// The rows that a configuration adds to a table, in the order of the bytes of their names, and the terms that it
/// states. The names gain those of the conventions, and then those of the functions; after a refusal, those that were
/// met before it.
pub fn rows(
    alloc: Global,
    names: &mut Names,
    table: &Table,
    text: &[u8],
) -> Result<Config, ConfigFault>
    requires room { length names.old < 2 ^ 31 }
    ensures rows { Answers table.now names.old text.now result }
    ensures names { IfOk result (λ config. names.new ≡ names_after names.old text.now) }
    ensures new { IfOk result (λ config. IsTrue (are_new table.now (map named_row config.rows.items))) }
    ensures plain { IfOk result (λ config. IsTrue (are_plain_rows (map named_row config.rows.items))) }
    ensures grows { Extends names.old names.new }
    ensures room { length names.new ≤ length names.old + name_limit }
{
    let members = match read_text(alloc, text) {
        Ok(members) => members,
        Err(fault) => return Err(fault),
    };
    match read_members(alloc, names, table, &members)? {
        Ok(config) => Ok(config),
        Err(wrong) => match spelled(alloc, wrong) {
            Ok(key) => Err(ConfigFault::Shape(key)),
            Err(_) => Err(ConfigFault::Memory),
        },
    }
}
