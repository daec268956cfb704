//! What the arguments of a call are to be.
ghost use Rattle.std.specs.Prelude.{◌≡◌, slice_get};
ghost use Rattle.pungi_types.specs.Calls.{is_count_form, want_met, first_met, wants_module, wants_place, is_done};
ghost use Rattle.pungi_types.specs.Calls.{other_wants, is_limit_form, answer_kind, output_fits, is_output_form};
ghost use Rattle.pungi_types.specs.Calls.{wants_output};
ghost use Rattle.pungi_types.specs.Formats.{an_object, param_want};
ghost use Rattle.pungi_types.specs.WantsView.{wants_view};

use crate::ValueKind;
use crate::operator::{fits, is_object, is_same_kind, is_text, is_void};
use pungi_api::{Answer, Param};

type Known = Option<ValueKind>;

/// What an argument is to be.
#[derive(Clone, Copy)]
pub enum Want {
    Anything,
    OfKind(ValueKind),
    /// `&` of a module table.
    ModuleTable,
    /// A local, a global or a field that holds objects.
    ObjectPlace,
    /// An integer constant of this value.
    Count(usize),
    /// `NULL`, written so.
    NullConstant,
    /// An integer constant from 0 to this value.
    AtMost(usize),
    /// A string literal: a format, without a fault or not.
    Format(bool),
    /// `&` of a local, which gets such a value.
    Output(Answer),
    /// So, or `NULL`.
    OptionalOutput(Answer),
    /// `&` of a local that holds a position, which is read and written.
    Position,
}

/// How an argument is written, as far as a call asks for more than its kind.
#[derive(Clone, Copy)]
pub enum ArgumentForm {
    /// `&` of a module table.
    Module,
    /// `NULL`.
    Null,
    /// An integer constant, by its value.
    Constant(i128),
    /// What may be assigned to.
    Place,
    /// `&` of a local of this kind.
    LocalAddress(Option<ValueKind>),
    Other,
}

/// What the arguments of a call are to be, one after the other.
#[derive(Clone, Copy)]
pub struct Wants<'w> {
    pub first: Option<Want>,
    pub listed: &'w [Want],
    /// Then so many of one sort.
    pub more: usize,
    pub further: Want,
    pub last: Option<Want>,
}

impl<'w> Wants<'w> {
    /// Those of this list.
    pub fn listed(listed: &'w [Want]) -> Self
        ensures { wants_view result ≡ listed.now }
    {
        Wants {
            first: None,
            listed,
            more: 0,
            further: Want::Anything,
            last: None,
        }
    }
}

/// An argument is written as this number.
fn is_count(count: usize, form: ArgumentForm) -> bool
    ensures { result ≡ is_count_form count form }
{
    match form {
        ArgumentForm::Constant(value) => value == count as i128,
        _ => false,
    }
}

/// An argument is written as a number from 0 to this one.
fn is_limit(most: usize, form: ArgumentForm) -> bool
    ensures { result ≡ is_limit_form most form }
{
    match form {
        ArgumentForm::Constant(value) => 0 <= value && value <= most as i128,
        _ => false,
    }
}

/// What a parameter of a row wants.
pub fn param_want(param: Param) -> Want
    ensures { result ≡ param_want param }
{
    match param {
        Param::Object | Param::ObjectOrNull => an_object(),
        Param::Int => Want::OfKind(ValueKind::Int),
        Param::Long => Want::OfKind(ValueKind::Long),
        Param::Size => Want::OfKind(ValueKind::Size),
        Param::Text | Param::TextOrNull => Want::OfKind(ValueKind::Text),
        Param::ModuleDef => Want::ModuleTable,
    }
}

/// A pointer to an object.
pub(crate) fn an_object() -> Want
    ensures { result ≡ an_object }
{
    Want::OfKind(ValueKind::Object(None))
}

/// The kind of what an answer gives.
pub fn answer_kind(answer: Answer) -> ValueKind
    ensures { result ≡ answer_kind answer }
{
    match answer {
        Answer::New | Answer::Borrowed | Answer::BorrowedSure | Answer::Null | Answer::Made =>
            ValueKind::Object(None),
        Answer::Status
        | Answer::Truth
        | Answer::Int
        | Answer::Found
        | Answer::Converted { .. }
        | Answer::Flag => ValueKind::Int,
        Answer::Size | Answer::AnySize => ValueKind::Size,
        Answer::Long => ValueKind::Long,
        Answer::Text | Answer::TextSure => ValueKind::Text,
        Answer::Void => ValueKind::Void,
    }
}

/// A local of this kind may get what is written.
fn output_fits(written: ValueKind, k: Known) -> bool
    ensures { result ≡ output_fits written k }
{
    match written {
        ValueKind::Object(_) => k.is_none() || is_object(k),
        ValueKind::Text => k.is_none() || is_text(k),
        _ => k.is_none() || is_same_kind(Some(written), k),
    }
}

/// An argument that is written so, of this kind, is the address of a local that may get such a value.
fn is_output(answer: Answer, form: ArgumentForm, k: Known) -> bool
    ensures { result ≡ is_output_form answer form k }
{
    match form {
        ArgumentForm::LocalAddress(kind) => output_fits(answer_kind(answer), kind),
        _ => k.is_none(),
    }
}

/// An argument that is written so and of this kind is what is wanted.
fn want_met(want: Want, form: ArgumentForm, k: Known) -> bool
    ensures { result ≡ want_met want form k }
{
    match want {
        Want::Anything => !is_void(k),
        Want::OfKind(kind) => k.is_none() || fits(Some(kind), k),
        Want::ModuleTable => matches!(form, ArgumentForm::Module) || k.is_none(),
        Want::ObjectPlace => {
            k.is_none()
                || (matches!(form, ArgumentForm::Place) && fits(Some(ValueKind::Object(None)), k))
        }
        Want::Count(count) => k.is_none() || is_count(count, form),
        Want::NullConstant => k.is_none() || matches!(form, ArgumentForm::Null),
        Want::AtMost(most) => k.is_none() || is_limit(most, form),
        Want::Format(fine) => fine,
        Want::Output(answer) => is_output(answer, form, k),
        Want::OptionalOutput(answer) => {
            matches!(form, ArgumentForm::Null) || is_output(answer, form, k)
        }
        Want::Position => is_output(Answer::AnySize, form, k),
    }
}

/// The first wanted argument, if there is one.
pub fn first_want(wants: Wants<'_>) -> Option<Want>
    ensures { result ≡ slice_get (wants_view wants.entry) 0 }
{
    if wants.first.is_some() {
        return wants.first;
    }
    match wants.listed {
        [want, ..] => Some(*want),
        [] => {
            if wants.more > 0 {
                Some(wants.further)
            } else {
                wants.last
            }
        }
    }
}

/// The first wanted argument is met by one that is written so and of this kind.
pub fn first_met(wants: Wants<'_>, form: ArgumentForm, k: Known) -> bool
    ensures { result ≡ first_met (wants_view wants.entry) form k }
{
    match first_want(wants) {
        None => false,
        Some(want) => want_met(want, form, k),
    }
}

/// The first wanted argument is a module table.
pub fn wants_module(wants: Wants<'_>) -> bool
    ensures { result ≡ wants_module (wants_view wants.entry) }
{
    matches!(first_want(wants), Some(Want::ModuleTable))
}

/// The first wanted argument is a place of objects.
pub fn wants_place(wants: Wants<'_>) -> bool
    ensures { result ≡ wants_place (wants_view wants.entry) }
{
    matches!(first_want(wants), Some(Want::ObjectPlace))
}

/// The first wanted argument is the address of a local that is written.
pub fn wants_output(wants: Wants<'_>) -> bool
    ensures { result ≡ wants_output (wants_view wants.entry) }
{
    matches!(
        first_want(wants),
        Some(Want::Output(_) | Want::OptionalOutput(_) | Want::Position)
    )
}

/// No argument is wanted.
pub fn is_done(wants: Wants<'_>) -> bool
    ensures { result ≡ is_done (wants_view wants.entry) }
{
    first_want(wants).is_none()
}

/// The wanted arguments after the first.
pub fn other_wants(wants: Wants<'_>) -> Wants<'_>
    ensures { wants_view result ≡ other_wants (wants_view wants.entry) }
{
    if wants.first.is_some() {
        return Wants {
            first: None,
            ..wants
        };
    }
    match wants.listed {
        [_, others @ ..] => Wants {
            listed: others,
            ..wants
        },
        [] => {
            if wants.more > 0 {
                Wants {
                    more: wants.more - 1,
                    ..wants
                }
            } else {
                Wants {
                    last: None,
                    ..wants
                }
            }
        }
    }
}
