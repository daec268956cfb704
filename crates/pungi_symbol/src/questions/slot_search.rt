// Where the slot of an instruction is.
ghost use Rattle.std.specs.Prelude.{◌≡◌, ◌+◌, ◌<◌, nat_lt, IfSome, Some, position, drop, length};
ghost use Rattle.std.specs.Prelude.{if◌then◌else◌};
ghost use Rattle.pungi_symbol.specs.states.Known.{is_global, is_field, base_of, at_place, ask_made, ask_base, seek};
ghost use Rattle.pungi_symbol.specs.states.Known.{find_token, find_field, find, held_in, token_in, spot_of};

use crate::answers::decision::Decision;
use crate::questions::found_slot::Finding;
use crate::questions::question::Question;
use crate::states::known::{Known, touched_at};
use crate::states::mark::Mark;
use crate::states::spot::{Progress, Spot, Touched};
use crate::states::term::Term;
use pungi_base::Name;
use pungi_code::Place;

fn is_this_global(name: Name, spot: Spot) -> bool
    ensures { result ≡ is_global name spot }
{
    match spot {
        Spot::Global(m) => m.0 == name.0,
        Spot::Field(_, _, _) => false,
    }
}

fn is_this_field(tag: Name, field: Name, spot: Spot) -> bool
    ensures { result ≡ is_field tag field spot }
{
    match spot {
        Spot::Global(_) => false,
        Spot::Field(_, u, f) => u.0 == tag.0 && f.0 == field.0,
    }
}

fn base(spot: Spot) -> usize
    ensures { result ≡ base_of spot }
{
    match spot {
        Spot::Global(_) => 0,
        Spot::Field(t, _, _) => t,
    }
}

fn slots_from(slots: &[Touched], from: usize) -> &[Touched]
    ensures { result.now ≡ drop from slots.now }
{
    if from < slots.len() {
        &slots[from..]
    } else {
        &[]
    }
}

fn first_global(slots: &[Touched], name: Name) -> Option<usize>
    ensures { result ≡ position (λ s. is_global name s.spot) slots.now }
{
    slots.iter().position(|s| is_this_global(name, s.spot))
}

fn first_field(slots: &[Touched], tag: Name, field: Name) -> Option<usize>
    ensures is { result ≡ position (λ s. is_field tag field s.spot) slots.now }
    ensures within { IfSome result (λ j. j < length slots.now) }
{
    slots.iter().position(|s| is_this_field(tag, field, s.spot))
}

fn at_place(found: Option<usize>) -> Finding
    ensures { result ≡ at_place found }
{
    match found {
        None => Finding::Nowhere,
        Some(i) => Finding::At(i),
    }
}

fn made_from(t: usize, slots: &[Touched], j: usize, made: &[usize]) -> Finding
    ensures { result ≡ ask_made t (length slots.now) j made.now }
{
    if j < made.len() {
        Finding::Waits(Question::Base(t, made[j], slots.len() + j))
    } else {
        Finding::Nowhere
    }
}

fn base_at(t: usize, c: usize, j: usize, slots: &[Touched], made: &[usize]) -> Finding
    requires within { c + j < length slots.now }
    ensures { result ≡ ask_base t c slots.now made.now (Some j) }
{
    let i = c + j;
    let other = base(touched_at(slots, i).spot);
    Finding::Waits(Question::Base(t, other, i))
}

#[tactic(auto, using(crate::proofs::questions::Places::within_rest))]
fn base_from(
    t: usize,
    c: usize,
    tag: Name,
    field: Name,
    slots: &[Touched],
    made: &[usize],
) -> Finding
    ensures { result ≡ ask_base t c slots.now made.now (position (λ s. is_field tag field s.spot) (drop c slots.now)) }
{
    match first_field(slots_from(slots, c), tag, field) {
        None => made_from(t, slots, c.saturating_sub(slots.len()), made),
        Some(j) => base_at(t, c, j, slots, made),
    }
}

fn found_slot(i: usize, slots: &[Touched]) -> Finding
    ensures { result ≡ (if nat_lt i (length slots.now) then Finding.At i else Finding.OfMade) }
{
    if i < slots.len() {
        Finding::At(i)
    } else {
        Finding::OfMade
    }
}

fn sought(
    progress: Progress,
    t: usize,
    tag: Name,
    field: Name,
    slots: &[Touched],
    made: &[usize],
) -> Finding
    ensures { result ≡ seek progress t tag field slots.now made.now }
{
    match progress {
        Progress::Found(i) => found_slot(i, slots),
        Progress::Looking(c) => base_from(t, c, tag, field, slots, made),
    }
}

/// The token of a term.
fn token_of(x: Term) -> usize
    ensures { result ≡ token_in x }
{
    match x {
        Term::Unset => 0,
        Term::Null => 0,
        Term::Text => 0,
        Term::Number(_) => 0,
        Term::Token(t) => t,
        Term::Sum(_) => 0,
    }
}

impl Known {
    fn seek_token(&self, t: usize, m: Mark, tag: Name, field: Name) -> Finding
        ensures { result ≡ find_token self.now t m tag field }
    {
        match m {
            Mark::Pointer => Finding::Waits(Question::Null(t)),
            Mark::TextPointer => Finding::Waits(Question::Null(t)),
            Mark::IsNull => Finding::Waits(Question::Stops(Decision::Quiet)),
            Mark::IsObject => {
                let (slots, made) = (self.slots.as_slice(), self.made.as_slice());
                sought(self.progress, t, tag, field, slots, made)
            }
            Mark::IsText => Finding::Waits(Question::Stops(Decision::Quiet)),
            Mark::IsNumber(_) => Finding::Waits(Question::Stops(Decision::Quiet)),
            Mark::IsConverted(_) => Finding::Waits(Question::Stops(Decision::Quiet)),
            Mark::Integer(_) => Finding::Waits(Question::Stops(Decision::Quiet)),
        }
    }

    fn seek_field(&self, x: Term, tag: Name, field: Name) -> Finding
        ensures { result ≡ find_field self.now x tag field }
    {
        match x {
            Term::Unset => Finding::Waits(Question::Stops(Decision::Quiet)),
            Term::Null => Finding::Waits(Question::Stops(Decision::Quiet)),
            Term::Text => Finding::Waits(Question::Stops(Decision::Quiet)),
            Term::Number(_) => Finding::Waits(Question::Stops(Decision::Quiet)),
            Term::Token(t) => self.seek_token(t, self.mark_of(t), tag, field),
            Term::Sum(_) => Finding::Waits(Question::Stops(Decision::Quiet)),
        }
    }

    /// Where the slot of an instruction is.
    pub fn seek(&self, place: Place) -> Finding
        ensures { result ≡ find self.now place }
    {
        match place {
            Place::Global(name, _) => at_place(first_global(self.slots.as_slice(), name)),
            Place::Field(base, tag, field, _) => self.seek_field(self.term(base), tag, field),
        }
    }

    /// What the slot that was found holds.
    pub fn held(&self, f: Finding) -> Term
        ensures { result ≡ held_in self.now f }
    {
        match f {
            Finding::Waits(_) => Term::Unset,
            Finding::At(i) => self.slot(i).held,
            Finding::OfMade => Term::Unset,
            Finding::Nowhere => Term::Unset,
        }
    }

    /// The slot as an instruction reaches it.
    pub fn spot(&self, place: Place) -> Spot
        ensures { result ≡ spot_of self.now place }
    {
        match place {
            Place::Global(name, _) => Spot::Global(name),
            Place::Field(base, tag, field, _) => {
                Spot::Field(token_of(self.term(base)), tag, field)
            }
        }
    }
}
