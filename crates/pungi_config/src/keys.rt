//! The keys that describe one function.
ghost use Rattle.std.specs.Prelude.{◌≡◌, IfOk, option_map};
ghost use Rattle.toml.specs.View.{view, table_view};
ghost use Rattle.pungi_api.specs.Rows.{has_success};
ghost use Rattle.pungi_config.specs.Keys.{plain_row, empty_row, with_key, read_keys, with_takes};
ghost use Rattle.pungi_config.specs.Wrong.{keys_read};
ghost use Rattle.pungi_config.specs.Takes.{takes_of};

use crate::takes::{params_of, takes_of};
use crate::words::answer_of;
use pungi_api::{Answer, Form, Param, Row, Take};
use pungi_base::{Memory, Seq};
use std::alloc::Global;
use toml::{Table, Value};

fn plain_row(alloc: Global, answer: Answer, params: Seq<Param>) -> Result<Row, Memory>
    ensures { IfOk result (λ row. row ≡ plain_row answer params) }
{
    let takes = Seq::new(vec![in alloc; Take::Never; params.len()]?);
    Ok(Row {
        form: Form::Plain,
        params,
        takes,
        answer,
    })
}

fn has_success(answer: Answer) -> bool
    ensures { result ≡ has_success answer }
{
    match answer {
        Answer::New | Answer::Status => true,
        _ => false,
    }
}

fn with_takes(row: Row, take: Take, value: &Value) -> Option<Row>
    ensures { result ≡ option_map (with_takes row) (takes_of row.params take row.takes (view value.now)) }
{
    let Row {
        form,
        params,
        takes,
        answer,
    } = row;
    match takes_of(params.as_slice(), take, takes, value) {
        Some(takes) => Some(Row {
            form,
            params,
            takes,
            answer,
        }),
        None => None,
    }
}

fn with_key(alloc: Global, key: &str, value: &Value, row: Row) -> Result<Option<Row>, Memory>
    ensures { IfOk result (λ next. next ≡ with_key key.now (view value.now) row) }
{
    if key == "params" {
        match params_of(alloc, value)? {
            Some(params) => Ok(Some(plain_row(alloc, row.answer, params)?)),
            None => Ok(None),
        }
    } else if key == "result" {
        match answer_of(value) {
            Some(answer) => Ok(Some(plain_row(alloc, answer, row.params)?)),
            None => Ok(None),
        }
    } else if key == "takes" {
        Ok(with_takes(row, Take::Always, value))
    } else if key == "takes_on_success" && has_success(row.answer) {
        Ok(with_takes(row, Take::OnSuccess, value))
    } else {
        Ok(None)
    }
}

/// The row that the keys of a function describe, or the first wrong key.
pub(crate) fn read_keys<'a>(alloc: Global, keys: &'a Table) -> Result<Result<Row, &'a str>, Memory>
    ensures { IfOk result (λ read. keys_read read ≡ read_keys empty_row (table_view keys.now)) }
{
    let mut row = plain_row(alloc, Answer::Null, Seq::new(Vec::new(alloc)))?;
    for (key, value) in keys {
        match with_key(alloc, key.as_str(), value, row)? {
            Some(next) => row = next,
            None => return Ok(Err(key.as_str())),
        }
    }
    Ok(Ok(row))
}
