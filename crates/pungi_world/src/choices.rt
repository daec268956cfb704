ghost use Rattle.std.specs.Prelude.{◌≡◌, ◌&&◌, int_le};
ghost use Rattle.pungi_world.specs.Choices.{value_of, is_null, is_text, is_object_choice, is_next, is_between};
ghost use Rattle.pungi_world.specs.Choices.{is_number};
ghost use Rattle.pungi_world.specs.Choices.{is_conversion, is_accepted, choose, answer_of};

use crate::Halt;
use pungi_api::Answer;
use pungi_base::{Choice, Value};

/// The value that a choice stands for.
pub fn value_of(choice: &Choice) -> Value
    ensures { result ≡ value_of choice.now }
{
    match choice {
        Choice::Null => Value::Null,
        Choice::Object(k) => Value::Object(*k),
        Choice::Int(n) => Value::Int(*n),
        Choice::Text => Value::Text,
        Choice::Given(k) => Value::Int(*k as i64),
        Choice::Failed(k) => Value::Int(-1 - *k as i64),
    }
}

/// Whether a choice is `NULL`.
pub fn is_null(choice: &Choice) -> bool
    ensures { result ≡ is_null choice.now }
{
    matches!(choice, Choice::Null)
}

/// Whether a choice is a text.
pub fn is_text(choice: &Choice) -> bool
    ensures { result ≡ is_text choice.now }
{
    matches!(choice, Choice::Text)
}

/// Whether a choice is one of the objects that are there, or the next one.
fn is_object_choice(objects: usize, choice: &Choice) -> bool
    ensures { result ≡ is_object_choice objects choice.now }
{
    match choice {
        Choice::Object(k) => *k as usize <= objects,
        _ => false,
    }
}

/// Whether a choice is the next object.
fn is_next(objects: usize, choice: &Choice) -> bool
    ensures { result ≡ is_next objects choice.now }
{
    match choice {
        Choice::Object(k) => *k as usize == objects,
        _ => false,
    }
}

/// Whether a number is in this range.
pub fn is_between(low: i64, high: i64, number: i64) -> bool
    ensures { result ≡ is_between low high number }
{
    low <= number && number <= high
}

/// Whether a choice is a number in this range.
pub fn is_number(low: i64, high: i64, choice: &Choice) -> bool
    ensures { result ≡ is_number low high choice.now }
{
    match choice {
        Choice::Int(n) => is_between(low, high, *n),
        _ => false,
    }
}

/// Whether a choice is one of the ways in which an argument parser ends.
fn is_conversion(failures: u32, least: u32, most: u32, choice: &Choice) -> bool
    ensures { result ≡ is_conversion failures least most choice.now }
{
    match choice {
        Choice::Given(k) => least <= *k && *k <= most,
        Choice::Failed(k) => *k < failures,
        _ => false,
    }
}

/// Whether a call with this answer accepts a choice, where so many objects are there.
fn is_accepted(objects: usize, answer: Answer, choice: &Choice) -> bool
    ensures { result ≡ is_accepted objects answer choice.now }
{
    match answer {
        Answer::New | Answer::Borrowed => is_null(choice) || is_object_choice(objects, choice),
        Answer::BorrowedSure => is_object_choice(objects, choice),
        Answer::Status => is_number(-1, 0, choice),
        Answer::Truth => is_number(-1, 1, choice),
        Answer::Size => is_number(-1, i64::MAX, choice),
        Answer::Int => is_number(i32::MIN as i64, i32::MAX as i64, choice),
        Answer::Long => is_number(i64::MIN, i64::MAX, choice),
        Answer::Text => is_null(choice) || is_text(choice),
        Answer::Void | Answer::Null => false,
        Answer::Found | Answer::Flag => is_number(0, 1, choice),
        Answer::Converted {
            failures,
            least,
            most,
        } => is_conversion(failures, least, most, choice),
        Answer::AnySize => is_number(i64::MIN, i64::MAX, choice),
        Answer::TextSure => is_text(choice),
        Answer::Made => is_null(choice) || is_next(objects, choice),
    }
}

/// The value that a call returns by a choice.
fn choose(objects: usize, answer: Answer, choices: &[Choice]) -> Result<Value, Halt>
    ensures { result ≡ choose objects answer choices.now }
{
    match choices {
        [choice, ..] => {
            if is_accepted(objects, answer, choice) {
                Ok(value_of(choice))
            } else {
                Err(Halt::NeedsChoice)
            }
        }
        [] => Err(Halt::NeedsChoice),
    }
}

/// What a call returns, and how many choices it uses.
pub fn answer_of(
    objects: usize,
    answer: Answer,
    choices: &[Choice],
) -> Result<(Option<Value>, usize), Halt>
    ensures { result ≡ answer_of objects answer choices.now }
{
    match answer {
        Answer::Void => Ok((None, 0)),
        Answer::Null => Ok((Some(Value::Null), 0)),
        _ => {
            let value = choose(objects, answer, choices)?;
            Ok((Some(value), 1))
        }
    }
}
