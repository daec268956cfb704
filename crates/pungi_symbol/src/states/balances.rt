// What the objects of tokens are owed, and which tokens were merged.
ghost use Rattle.std.specs.Prelude.{◌≡◌, ◌+ℤ◌, slice_set, map, IfOk, OnOk};
ghost use Rattle.std.specs.List.{list_any};
ghost use Rattle.pungi_symbol.specs.answers.SymbolicState.{class_of, balance_at, is_part, are_one, is_among};
ghost use Rattle.pungi_symbol.specs.answers.SymbolicState.{is_of_class, is_new_to, are_other, owed_for};
ghost use Rattle.pungi_symbol.specs.answers.SymbolicState.{owed_for_answer, redirect, gather_at};

use crate::states::known::Known;
use crate::states::mark::Mark;
use crate::states::spot::Touched;
use crate::states::state::Pair;
use crate::states::term::Term;
use pungi_api::Answer;
use pungi_base::{Memory, Seq};
use std::alloc::Global;

/// The token that stands for a token.
pub fn class_at(classes: &[usize], t: usize) -> usize
    ensures { result ≡ class_of classes.now t }
{
    match classes.get(t) {
        Some(c) => *c,
        None => 0,
    }
}

/// What the object of a token is owed.
pub fn balance_at(balances: &[i64], t: usize) -> i64
    ensures { result ≡ balance_at balances.now t }
{
    match balances.get(t) {
        Some(b) => *b,
        None => 0,
    }
}

fn put_balance(balances: &mut Seq<i64>, t: usize, b: i64)
    ensures { balances.new ≡ slice_set balances.old t b }
{
    if t < balances.len() {
        balances.set(t, b);
    }
}

/// A number is added to the balance of a token.
pub fn add(balances: &mut Seq<i64>, t: usize, d: i64) -> Result<(), Memory>
    ensures { OnOk result (balances.new ≡ slice_set balances.old t (balance_at balances.old t +ℤ d)) }
{
    match balance_at(balances.as_slice(), t).checked_add(d) {
        Some(sum) => {
            put_balance(balances, t, sum);
            Ok(())
        }
        None => Err(Memory),
    }
}

/// What stands at one token goes to another.
pub fn gather_at(balances: &mut Seq<i64>, c: usize, d: usize) -> Result<(), Memory>
    ensures { OnOk result (balances.new ≡ gather_at c d balances.old) }
{
    let more = balance_at(balances.as_slice(), d);
    add(balances, c, more)?;
    put_balance(balances, d, 0);
    Ok(())
}

/// What a new object is owed.
pub fn owed_for(m: Mark) -> i64
    ensures { result ≡ owed_for m }
{
    match m {
        Mark::IsObject => 1,
        Mark::Pointer => 0,
        Mark::TextPointer => 0,
        Mark::IsNull => 0,
        Mark::IsText => 0,
        Mark::IsNumber(_) => 0,
        Mark::IsConverted(_) => 0,
        Mark::Integer(_) => 0,
    }
}

/// What the answer of a call is owed.
pub fn owed_for_answer(answer: Answer, m: Mark) -> i64
    ensures { result ≡ owed_for_answer answer m }
{
    match answer {
        Answer::New => owed_for(m),
        Answer::Made => owed_for(m),
        _ => 0,
    }
}

fn is_part(classes: &[usize], c: usize, d: usize, pair: &Pair) -> bool
    ensures { result ≡ is_part classes.now c d pair.now }
{
    let a = class_at(classes, pair.a);
    let b = class_at(classes, pair.b);
    (a == c && b == d) || (a == d && b == c)
}

fn any_part(classes: &[usize], c: usize, d: usize, others: &[Pair]) -> bool
    ensures { result ≡ list_any (is_part classes.now c d) others.now }
{
    others.iter().any(|pair| is_part(classes, c, d, pair))
}

/// Two tokens are noted as one object.
pub fn is_one(classes: &[usize], t: usize, u: usize) -> bool
    ensures { result ≡ are_one classes.now t u }
{
    class_at(classes, t) == class_at(classes, u)
}

fn is_among(tokens: &[usize], t: usize) -> bool
    ensures { result ≡ is_among tokens.now t }
{
    tokens.iter().any(|m| *m == t)
}

fn is_of_class(classes: &[usize], c: usize, x: Term) -> bool
    ensures { result ≡ is_of_class classes.now c x }
{
    match x {
        Term::Token(t) => class_at(classes, t) == c,
        Term::Unset => false,
        Term::Null => false,
        Term::Text => false,
        Term::Number(_) => false,
        Term::Sum(_) => false,
    }
}

/// A slot held such an object at entry.
fn is_content(slots: &[Touched], classes: &[usize], c: usize) -> bool
    ensures { result ≡ list_any (λ s. is_of_class classes.now c s.at_entry) slots.now }
{
    slots.iter().any(|s| is_of_class(classes, c, s.at_entry))
}

/// The object of the second token was made after that of the first was there, or that is what a slot held at entry.
fn is_new_to(known: &Known, classes: &[usize], c: usize, d: usize) -> bool
    ensures { result ≡ is_new_to known.now classes.now c d }
{
    is_among(known.made.as_slice(), d) && (c < d || is_content(known.slots.as_slice(), classes, c))
}

/// Two tokens are noted as different objects.
pub fn is_other(
    statics: u32,
    known: &Known,
    classes: &[usize],
    others: &[Pair],
    t: usize,
    u: usize,
) -> bool
    ensures { result ≡ are_other statics known.now classes.now others.now t u }
{
    let (c, d) = (class_at(classes, t), class_at(classes, u));
    let first = statics as usize;
    if c < first && d < first {
        return true;
    }
    if is_new_to(known, classes, c, d) || is_new_to(known, classes, d, c) {
        return true;
    }
    any_part(classes, c, d, others)
}

fn redirect(c: usize, d: usize, e: usize) -> usize
    ensures { result ≡ redirect c d e }
{
    if e == d { c } else { e }
}

/// The classes after two of them are merged.
pub fn redirected_classes(
    alloc: Global,
    classes: &[usize],
    c: usize,
    d: usize,
) -> Result<Seq<usize>, Memory>
    ensures { IfOk result (λ s. s ≡ map (redirect c d) classes.now) }
{
    let items: Vec<usize> = classes.iter().map(|e| redirect(c, d, *e)).collect(alloc)?;
    Ok(Seq::new(items))
}
