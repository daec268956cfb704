// What is called.
ghost use Rattle.std.specs.Prelude.{◌≡◌, ◌==◌, ◌&&◌, not, option_map};
ghost use Rattle.pungi_names.specs.SeenCalls.{wants_seen, row_wants_seen, own_wants_seen, result_seen, is_value_seen};
ghost use Rattle.pungi_names.specs.SeenCalls.{takes_seen, is_unknown_seen, row_of_seen, is_defined_seen};
ghost use Rattle.pungi_names.specs.SeenCalls.{is_refused_seen};
ghost use Rattle.pungi_names.specs.CalledView.{called_view};
ghost use Rattle.pungi_types.specs.Calls.{special_kind, row_kind};
ghost use Rattle.pungi_types.specs.Names.{is_among};
ghost use Rattle.pungi_types.specs.WantsView.{wants_view};

use crate::signature::Signature;
use indexmap::IndexSet;
use pungi_api::{Form, Row, Special};
use pungi_base::Name;
use pungi_types::wants::answer_kind;
use pungi_types::{ValueKind, Want, Wants};

/// What stands before the parenthesis of a call.
#[derive(Clone, Copy)]
pub(crate) enum Called<'n> {
    Value,
    Defined(&'n Signature),
    Row(&'n Row, &'n [Want]),
    Nothing,
}

fn special_kind(special: Special) -> ValueKind
    ensures { result ≡ special_kind special }
{
    match special {
        Special::NewRef
        | Special::XNewRef
        | Special::TuplePack
        | Special::CallFunctionObjArgs
        | Special::ErrFormat
        | Special::BuildValue => ValueKind::Object(None),
        Special::ParseTuple | Special::UnpackTuple | Special::DictNext => ValueKind::Int,
        _ => ValueKind::Void,
    }
}

fn row_kind(row: &Row) -> ValueKind
    ensures { result ≡ row_kind row.now.form row.now.answer }
{
    match row.form {
        Form::Plain => answer_kind(row.answer),
        Form::Special(special) => special_kind(special),
    }
}

/// Whether a function is another one that is refused.
fn is_refused(own: Name, refused: &IndexSet<u32>, name: Name) -> bool
    ensures { result ≡ is_refused_seen own.0 refused.now.keys name.0 }
{
    !(name.0 == own.0) && refused.contains(&name.0)
}

/// What so many arguments of a call of a row with a rule of its own are to be, of which these are wanted of each call.
fn own_wants<'n>(special: Special, fixed: &'n [Want], arguments: usize) -> Wants<'n>
    ensures { wants_view result ≡ own_wants_seen special fixed.now arguments }
{
    match special {
        Special::TuplePack => Wants {
            first: Some(Want::Count(arguments.saturating_sub(1))),
            listed: &[],
            more: arguments.saturating_sub(1),
            further: Want::OfKind(ValueKind::Object(None)),
            last: None,
        },
        Special::CallFunctionObjArgs => Wants {
            first: None,
            listed: fixed,
            more: arguments.saturating_sub(2),
            further: Want::OfKind(ValueKind::Object(None)),
            last: Some(Want::NullConstant),
        },
        Special::ErrFormat => Wants {
            first: None,
            listed: fixed,
            more: arguments.saturating_sub(2),
            further: Want::Anything,
            last: None,
        },
        _ => Wants::listed(fixed),
    }
}

/// What so many arguments of a call of a row are to be, of which these are wanted of each call.
fn row_wants<'n>(row: &Row, fixed: &'n [Want], arguments: usize) -> Wants<'n>
    ensures { wants_view result ≡ row_wants_seen row.now.form fixed.now arguments }
{
    match row.form {
        Form::Plain => Wants::listed(fixed),
        Form::Special(special) => own_wants(special, fixed, arguments),
    }
}

impl<'n> Called<'n> {
    /// What the arguments of a call are to be, where it has so many.
    pub(crate) fn wants(&self, arguments: usize) -> Wants<'n>
        ensures { wants_view result ≡ wants_seen (called_view self.now) arguments }
    {
        match *self {
            Called::Value => Wants::listed(&[]),
            Called::Defined(signature) => Wants::listed(signature.wants.as_slice()),
            Called::Row(row, wants) => row_wants(row, wants, arguments),
            Called::Nothing => Wants::listed(&[]),
        }
    }

    pub(crate) fn result_kind(&self, own: Name, refused: &IndexSet<u32>) -> Option<ValueKind>
        ensures { result ≡ result_seen own.0 refused.now.keys (called_view self.now) }
    {
        match *self {
            Called::Value => None,
            Called::Defined(signature) => {
                if is_refused(own, refused, signature.name) {
                    None
                } else {
                    signature.result_kind
                }
            }
            Called::Row(row, _) => Some(row_kind(row)),
            Called::Nothing => None,
        }
    }

    pub(crate) fn is_value(&self) -> bool
        ensures { result ≡ is_value_seen (called_view self.now) }
    {
        match *self {
            Called::Value => true,
            Called::Defined(_) => false,
            Called::Row(_, _) => false,
            Called::Nothing => false,
        }
    }

    pub(crate) fn takes_arguments(&self) -> bool
        ensures { result ≡ takes_seen (called_view self.now) }
    {
        match *self {
            Called::Value => false,
            Called::Defined(_) => true,
            Called::Row(_, _) => true,
            Called::Nothing => false,
        }
    }

    pub(crate) fn is_unknown(&self, own: Name, refused: &IndexSet<u32>) -> bool
        ensures { result ≡ is_unknown_seen own.0 refused.now.keys (called_view self.now) }
    {
        match *self {
            Called::Value => false,
            Called::Defined(signature) => is_refused(own, refused, signature.name),
            Called::Row(_, _) => false,
            Called::Nothing => true,
        }
    }

    pub(crate) fn row(&self) -> Option<&'n Row>
        ensures { option_map (λ r. r.now) result ≡ row_of_seen (called_view self.now) }
    {
        match *self {
            Called::Value => None,
            Called::Defined(_) => None,
            Called::Row(row, _) => Some(row),
            Called::Nothing => None,
        }
    }

    pub(crate) fn is_defined(&self) -> bool
        ensures { result ≡ is_defined_seen (called_view self.now) }
    {
        match *self {
            Called::Value => false,
            Called::Defined(_) => true,
            Called::Row(_, _) => false,
            Called::Nothing => false,
        }
    }
}
