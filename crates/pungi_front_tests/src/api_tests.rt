ghost use Rattle.std.specs.Prelude.{◌≡◌, ◌∷◌, [], map, IfOk, IsTrue, is_none};
ghost use Rattle.pungi_api.specs.Rows.{are_plain_rows, named_row, are_new, row_in};

use pungi_api::Param::{Long, ModuleDef, Object, ObjectOrNull, Size, Text};
use pungi_api::Take::{Always, Never, OnSuccess};
use pungi_api::row_words::*;
use pungi_api::{Answer, Form, Param, Row, Special, Table, Take};
use pungi_base::{Memory, Name, Seq, words};
use std::alloc::Global;
use std::test::Fail;

fn is_row(table: &Table, name: u32, params: &[Param], takes: &[Take], answer: Answer) -> bool {
    match table.row(Name(name)) {
        None => false,
        Some(row) => {
            row.form == Form::Plain
                && row.params.as_slice() == params
                && row.takes.as_slice() == takes
                && row.answer == answer
        }
    }
}

fn is_special(table: &Table, name: u32, special: Special) -> bool {
    match table.row(Name(name)) {
        None => false,
        Some(row) => row.form == Form::Special(special),
    }
}

/// Rows with a call that gives back what the manual says: their parameters, what they take over, and what they answer.
const PLAIN: &[(u32, &[Param], &[Take], Answer)] = &[
    (words::PY_LONG_FROM_LONG, &[Long], &[Never], Answer::New),
    (PY_DICT_NEW, &[], &[], Answer::New),
    (
        PY_OBJECT_CALL,
        &[Object, Object, ObjectOrNull],
        &[Never, Never, Never],
        Answer::New,
    ),
    (PY_MODULE_CREATE, &[ModuleDef], &[Never], Answer::New),
    (
        PY_LIST_GET_ITEM,
        &[Object, Size],
        &[Never, Never],
        Answer::Borrowed,
    ),
    (
        PY_LIST_SET_ITEM,
        &[Object, Size, Object],
        &[Never, Never, Always],
        Answer::Status,
    ),
    (
        PY_MODULE_ADD_OBJECT,
        &[Object, Text, Object],
        &[Never, Never, OnSuccess],
        Answer::Status,
    ),
    (PY_ERR_NO_MEMORY, &[], &[], Answer::Null),
];

fn are_plain(table: &Table) -> bool {
    for (name, params, takes, answer) in PLAIN {
        if !is_row(table, *name, params, takes, *answer) {
            return false;
        }
    }
    true
}

#[test]
fn plain_rows(rt: HostRuntime) -> Result<(), Fail> {
    let table = Table::builtin(rt.alloc())?;
    assert!(rt; are_plain(&table));
    Ok(())
}

fn are_special(table: &Table) -> bool {
    is_special(table, words::PY_INCREF, Special::IncRef)
        && is_special(table, words::PY_XNEW_REF, Special::XNewRef)
        && is_special(table, words::PY_CLEAR, Special::Clear)
        && is_special(table, words::PY_TUPLE_PACK, Special::TuplePack)
        && is_special(table, words::PY_ERR_FORMAT, Special::ErrFormat)
        && is_special(table, words::PY_ARG_PARSE_TUPLE, Special::ParseTuple)
        && is_special(table, words::PY_ARG_UNPACK_TUPLE, Special::UnpackTuple)
        && is_special(table, words::PY_DICT_NEXT, Special::DictNext)
        && is_special(table, words::PY_BUILD_VALUE, Special::BuildValue)
        && table.row(Name(words::PY_OBJECT_NEW)).is_none()
        && table.row(Name(words::PY_NONE)).is_none()
}

#[test]
fn special_rows(rt: HostRuntime) -> Result<(), Fail> {
    let table = Table::builtin(rt.alloc())?;
    assert!(rt; are_special(&table));
    Ok(())
}

fn truth_row(alloc: Global, name: u32) -> Result<Vec<(Name, Row)>, Memory>
    ensures rows { IfOk result (λ rows. IsTrue (are_plain_rows (map named_row rows.items))) }
    ensures names { IfOk result (λ rows. map (λ r. r.0.0) rows.items ≡ name ∷ []) }
{
    let mut params = Seq::new(Vec::new(alloc));
    params.push(Param::Object)?;
    let mut takes = Seq::new(Vec::new(alloc));
    takes.push(Take::Never)?;
    let row = Row {
        form: Form::Plain,
        params,
        takes,
        answer: Answer::Truth,
    };
    let mut rows = Vec::new(alloc);
    rows.push((Name(name), row))?;
    Ok(rows)
}

/// Whether a table has this row of one object and a row that it had before.
fn has_both(table: &Table, name: u32) -> bool {
    is_row(table, name, &[Object], &[Never], Answer::Truth)
        && is_special(table, words::PY_INCREF, Special::IncRef)
}

#[test]
fn an_added_row(rt: HostRuntime) -> Result<(), Fail> {
    let name = 200;
    let table = Table::builtin(rt.alloc())?;
    let rows = truth_row(rt.alloc(), name)?;
    let table = table.with(rows)?;
    assert!(rt; has_both(&table, name));
    Ok(())
}
