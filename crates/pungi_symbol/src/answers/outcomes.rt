// The answers to a question, by their numbers.
ghost use Rattle.std.specs.Prelude.{◌≡◌, ◌∷◌, [], length};
ghost use Rattle.pungi_symbol.specs.states.Terms.{outcomes_of_mark, outcomes_of_answer, conversions, mark_at};
ghost use Rattle.pungi_symbol.specs.answers.KnownAfter.{number_of_outcome, says_same, says_order};

use crate::answers::decision::Decision;
use crate::states::integer_range::IntegerRange;
use crate::states::mark::Mark;
use pungi_api::Answer;
use std::cmp::Ordering;

/// The number of an answer.
pub fn number_of_outcome(d: Decision) -> u32
    ensures { result ≡ number_of_outcome d }
{
    match d {
        Decision::Outcome(k) => k,
        Decision::Quiet => 0,
        Decision::Order(_) => 0,
        Decision::Same(_) => 0,
    }
}

/// Whether an answer says that two pointers are the same.
pub fn says_same(d: Decision) -> bool
    ensures { result ≡ says_same d }
{
    match d {
        Decision::Same(b) => b,
        Decision::Outcome(_) => false,
        Decision::Quiet => false,
        Decision::Order(_) => false,
    }
}

/// How two numbers compare, by an answer.
pub fn says_order(d: Decision) -> Ordering
    ensures { result ≡ says_order d }
{
    match d {
        Decision::Order(o) => o,
        Decision::Outcome(_) => Ordering::Equal,
        Decision::Quiet => Ordering::Equal,
        Decision::Same(_) => Ordering::Equal,
    }
}

fn one_mark(a: Mark, k: u32) -> Mark
    ensures { result ≡ mark_at (a ∷ []) k }
{
    if k == 0 { a } else { Mark::IsNull }
}

fn one_of_two(a: Mark, b: Mark, k: u32) -> Mark
    ensures { result ≡ mark_at (a ∷ b ∷ []) k }
{
    if k == 0 { a } else { one_mark(b, k - 1) }
}

fn one_of_three(a: Mark, b: Mark, c: Mark, k: u32) -> Mark
    ensures { result ≡ mark_at (a ∷ b ∷ c ∷ []) k }
{
    if k == 0 { a } else { one_of_two(b, c, k - 1) }
}

/// What is known of a token after an answer to whether it is `NULL`.
pub fn mark_after(m: Mark, k: u32) -> Mark
    ensures { result ≡ mark_at (outcomes_of_mark m) k }
{
    match m {
        Mark::Pointer => one_of_two(Mark::IsNull, Mark::IsObject, k),
        Mark::TextPointer => one_of_two(Mark::IsNull, Mark::IsText, k),
        Mark::IsNull => Mark::IsNull,
        Mark::IsObject => Mark::IsNull,
        Mark::IsText => Mark::IsNull,
        Mark::IsNumber(_) => Mark::IsNull,
        Mark::IsConverted(_) => Mark::IsNull,
        Mark::Integer(_) => one_mark(m, k),
    }
}

/// How many answers there are to whether a token is `NULL`.
pub fn outcomes_after(m: Mark) -> u64
    ensures { result ≡ length (outcomes_of_mark m) }
{
    match m {
        Mark::Pointer => 2,
        Mark::TextPointer => 2,
        Mark::IsNull => 0,
        Mark::IsObject => 0,
        Mark::IsText => 0,
        Mark::IsNumber(_) => 0,
        Mark::IsConverted(_) => 0,
        Mark::Integer(_) => 1,
    }
}

/// How an argument parser ended, by the number of the outcome: the ways to fail come first.
#[tactic(auto, using(crate::proofs::answers::Conversions::by_number))]
fn mark_of_conversion(failures: u32, least: u32, most: u32, k: u32) -> Mark
    ensures { result ≡ mark_at (conversions failures least most) k }
{
    if k < failures {
        return Mark::IsConverted(-1 - k as i64);
    }
    let units = least as i64 + (k - failures) as i64;
    if units <= most as i64 {
        Mark::IsConverted(units)
    } else {
        Mark::IsNull
    }
}

/// In how many ways an argument parser may end.
#[tactic(auto, using(crate::proofs::answers::Conversions::conversions_long))]
fn conversion_count(failures: u32, least: u32, most: u32) -> u64
    ensures { result ≡ length (conversions failures least most) }
{
    if least <= most {
        failures as u64 + (most - least) as u64 + 1
    } else {
        failures as u64
    }
}

/// What is known of what a call returned.
pub fn mark_of_answer(answer: Answer, k: u32) -> Mark
    ensures { result ≡ mark_at (outcomes_of_answer answer) k }
{
    match answer {
        Answer::New => one_of_two(Mark::IsNull, Mark::IsObject, k),
        Answer::Borrowed => one_of_two(Mark::IsNull, Mark::IsObject, k),
        Answer::BorrowedSure => one_mark(Mark::IsObject, k),
        Answer::Status => one_of_two(Mark::IsNumber(0), Mark::IsNumber(-1), k),
        Answer::Truth => {
            one_of_three(Mark::IsNumber(1), Mark::IsNumber(0), Mark::IsNumber(-1), k)
        }
        Answer::Text => one_of_two(Mark::IsNull, Mark::IsText, k),
        Answer::Size => one_mark(Mark::Integer(IntegerRange::SizeOrError), k),
        Answer::Int => one_mark(Mark::Integer(IntegerRange::Int), k),
        Answer::Long => one_mark(Mark::Integer(IntegerRange::Long), k),
        Answer::Void => Mark::IsNull,
        Answer::Null => Mark::IsNull,
        Answer::Found => one_of_two(Mark::IsNumber(1), Mark::IsNumber(0), k),
        Answer::Converted {
            failures,
            least,
            most,
        } => mark_of_conversion(failures, least, most, k),
        Answer::AnySize => one_mark(Mark::Integer(IntegerRange::Long), k),
        Answer::Flag => one_mark(Mark::Integer(IntegerRange::Flag), k),
        Answer::TextSure => one_mark(Mark::IsText, k),
        Answer::Made => one_of_two(Mark::IsNull, Mark::IsObject, k),
    }
}

/// How many outcomes a call may have.
pub fn outcomes_of_call(answer: Answer) -> u64
    ensures { result ≡ length (outcomes_of_answer answer) }
{
    match answer {
        Answer::New => 2,
        Answer::Borrowed => 2,
        Answer::BorrowedSure => 1,
        Answer::Status => 2,
        Answer::Truth => 3,
        Answer::Text => 2,
        Answer::Size => 1,
        Answer::Int => 1,
        Answer::Long => 1,
        Answer::Void => 0,
        Answer::Null => 0,
        Answer::Found => 2,
        Answer::Converted {
            failures,
            least,
            most,
        } => conversion_count(failures, least, most),
        Answer::AnySize => 1,
        Answer::Flag => 1,
        Answer::TextSure => 1,
        Answer::Made => 2,
    }
}
