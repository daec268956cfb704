//! The words of a configuration.
ghost use Rattle.std.specs.Prelude.{◌≡◌};
ghost use Rattle.toml.specs.View.{view};
ghost use Rattle.pungi_config.specs.Words.{meaning, param_words, answer_words, profile_words, result_words};
ghost use Rattle.pungi_config.specs.Words.{param_of, answer_of, profile_of, borrowed_of};

use pungi_api::{Answer, Param, Profile};
use toml::Value;

fn param_word(text: &str) -> Option<Param>
    ensures { result ≡ meaning param_words text.now }
{
    if text == "object" {
        Some(Param::Object)
    } else if text == "object?" {
        Some(Param::ObjectOrNull)
    } else if text == "int" {
        Some(Param::Int)
    } else if text == "long" {
        Some(Param::Long)
    } else if text == "size" {
        Some(Param::Size)
    } else if text == "text" {
        Some(Param::Text)
    } else if text == "text?" {
        Some(Param::TextOrNull)
    } else {
        None
    }
}

fn answer_word(text: &str) -> Option<Answer>
    ensures { result ≡ meaning answer_words text.now }
{
    if text == "new" {
        Some(Answer::New)
    } else if text == "borrowed" {
        Some(Answer::Borrowed)
    } else if text == "borrowed_sure" {
        Some(Answer::BorrowedSure)
    } else if text == "status" {
        Some(Answer::Status)
    } else if text == "truth" {
        Some(Answer::Truth)
    } else if text == "size" {
        Some(Answer::Size)
    } else if text == "int" {
        Some(Answer::Int)
    } else if text == "long" {
        Some(Answer::Long)
    } else if text == "text" {
        Some(Answer::Text)
    } else if text == "void" {
        Some(Answer::Void)
    } else if text == "null" {
        Some(Answer::Null)
    } else {
        None
    }
}

fn profile_word(text: &str) -> Option<Profile>
    ensures { result ≡ meaning profile_words text.now }
{
    if text == "3.11" {
        Some(Profile::Python311)
    } else if text == "3.12" {
        Some(Profile::Python312)
    } else {
        None
    }
}

fn result_word(text: &str) -> Option<bool>
    ensures { result ≡ meaning result_words text.now }
{
    if text == "new" {
        Some(false)
    } else if text == "borrowed" {
        Some(true)
    } else {
        None
    }
}

/// The parameter that a value means.
pub(crate) fn param_of(value: &Value) -> Option<Param>
    ensures { result ≡ param_of (view value.now) }
{
    match value.as_str() {
        Some(text) => param_word(text),
        None => None,
    }
}

/// What is returned, as a value means it.
pub(crate) fn answer_of(value: &Value) -> Option<Answer>
    ensures { result ≡ answer_of (view value.now) }
{
    match value.as_str() {
        Some(text) => answer_word(text),
        None => None,
    }
}

/// The profile that a value means.
pub(crate) fn profile_of(value: &Value) -> Option<Profile>
    ensures { result ≡ profile_of (view value.now) }
{
    match value.as_str() {
        Some(text) => profile_word(text),
        None => None,
    }
}

/// Whether a result is borrowed, as a value says it.
pub(crate) fn borrowed_of(value: &Value) -> Option<bool>
    ensures { result ≡ borrowed_of (view value.now) }
{
    match value.as_str() {
        Some(text) => result_word(text),
        None => None,
    }
}
