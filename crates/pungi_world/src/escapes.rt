ghost use Rattle.std.specs.Prelude.{◌≡◌, ℕ, ◌<◌, ◌≤◌, ◌-◌, ◌^◌, pos, negsuc, ◌≤ℤ◌, ◌+ℤ◌, ◌-ℤ◌, if◌then◌else◌, length};
ghost use Rattle.std.specs.Prelude.{count_by, IsTrue, ◌↔◌, IfNone, IfSome};
ghost use Rattle.pungi_world.specs.Escapes.{is_this_object, is_returned, holds_object, escaped_of, IsLevel, IsBalanced};
ghost use Rattle.pungi_world.specs.Escapes.{IsCountable, IsCounted, is_argument, owned_result, taken_at_entry};

use crate::{Account, Content, SlotState, World};
use pungi_api::Terms;
use pungi_base::{Entry, Value};

fn is_value_object(value: &Value, object: u32) -> bool
    ensures { result ≡ is_this_object value.now object }
{
    match value {
        Value::Object(k) => *k == object,
        Value::Null | Value::Int(_) | Value::Text => false,
    }
}

fn is_held(content: &Content, object: u32) -> bool
    ensures { result ≡ holds_object content.now object }
{
    match content {
        Content::Unset => false,
        Content::Holds(value) => is_value_object(value, object),
    }
}

/// How often the object is returned.
fn returned_count(returned: Option<Value>, object: u32) -> usize
    ensures count { result ≡ (if is_returned returned object then 1 else 0) }
    ensures once { result ≤ 1 }
{
    match returned {
        None => 0,
        Some(value) => {
            if is_value_object(&value, object) {
                1
            } else {
                0
            }
        }
    }
}

fn count_held(slots: &[SlotState], object: u32) -> usize
    ensures { result ≡ count_by (λ s. holds_object s.held object) slots.now }
{
    slots.iter().filter(|s| is_held(&s.held, object)).count()
}

fn count_held_at_entry(slots: &[SlotState], object: u32) -> usize
    ensures { result ≡ count_by (λ s. holds_object s.at_entry object) slots.now }
{
    slots
        .iter()
        .filter(|s| is_held(&s.at_entry, object))
        .count()
}

/// Whether an account's change is this number.
fn is_change(account: &Account, number: i64) -> bool
    ensures { IsTrue result ↔ (account.now.change ≡ number) }
{
    let change = account.change;
    change == number
}

fn total(handed: i64, returned: usize, now: usize, before: usize, taken: usize) -> i64
    requires once { returned ≤ 1 }
    requires low { negsuc (2 ^ 61 - 1) ≤ℤ handed }
    requires high { handed ≤ℤ pos (2 ^ 61) }
    requires now { now < 2 ^ 60 }
    requires before { before < 2 ^ 60 }
    requires taken { taken < 2 ^ 61 }
    ensures { result ≡ (handed +ℤ pos now -ℤ pos before) +ℤ pos returned -ℤ pos taken }
{
    handed + now as i64 - before as i64 + returned as i64 - taken as i64
}

/// Whether the argument at a place is the object.
fn is_argument(entry: &Entry, object: u32, place: u32) -> bool
    ensures { result ≡ is_argument entry.now object place }
{
    match entry.args.as_slice().get(place as usize) {
        Some(value) => is_value_object(value, object),
        None => false,
    }
}

/// How many parameters whose reference is taken over hold the object at entry.
fn count_taken(terms: &Terms, entry: &Entry, object: u32) -> usize
    ensures count { result ≡ taken_at_entry terms.now entry.now object }
    ensures few { result < 2 ^ 61 }
{
    let taken = terms.convention.taken.as_slice();
    taken
        .iter()
        .filter(|p| is_argument(entry, object, **p))
        .count()
}

/// The value whose reference goes to the caller.
fn owned_result(terms: &Terms, returned: Option<Value>) -> Option<Value>
    ensures { result ≡ owned_result terms.now returned }
{
    if terms.convention.borrowed {
        None
    } else {
        returned
    }
}

impl World {
    /// How many references to the object escaped in a run from this entry, under the terms of its function: it is
    /// returned, was handed over, or slots that were touched hold it more often than at entry; less those that the
    /// function takes over.
    pub fn escaped(&self, terms: &Terms, entry: &Entry, object: u32, returned: Option<Value>) -> i64
        requires object { object < length self.now.accounts }
        requires countable { IsCountable self.now }
        ensures { result ≡ escaped_of terms.now entry.now self.now object returned }
    {
        let slots = self.slots.as_slice();
        let now = count_held(slots, object);
        let before = count_held_at_entry(slots, object);
        let account = self.accounts.as_slice()[object as usize];
        let given = returned_count(owned_result(terms, returned), object);
        let taken = count_taken(terms, entry, object);
        total(account.handed, given, now, before, taken)
    }

    /// The lowest object that is counted and whose count changed by another number than references escaped, if there is
    /// one.
    pub fn unbalanced(&self, terms: &Terms, entry: &Entry, returned: Option<Value>) -> Option<u32>
        requires { IsCountable self.now }
        ensures none { IfNone result (IsBalanced terms.now entry.now self.now returned) }
        ensures within { IfSome result (λ object. object < length self.now.accounts) }
        ensures counted { IfSome result (λ object. IsCounted terms.now object) }
        ensures some { IfSome result (λ object. IsLevel terms.now entry.now self.now returned object → ⊥) }
        ensures lowest { IfSome result (λ object. (k : ℕ) → IsCounted terms.now k → k < object
            → IsLevel terms.now entry.now self.now returned k) }
    {
        let first = terms.profile.immortal_count();
        for object in first..self.accounts.len() as u32 {
            let escaped = self.escaped(terms, entry, object, returned);
            if !is_change(&self.accounts.as_slice()[object as usize], escaped) {
                return Some(object);
            }
        }
        None
    }
}
