//! What can be read and assigned to.
ghost use Rattle.std.specs.Prelude.{◌≡◌, IfOk, true};
ghost use Rattle.pungi_types.specs.Operators.{struct_part};
ghost use Rattle.pungi_types.specs.Names.{meaning_of};
ghost use Rattle.pungi_resolve.specs.Exprs.{read_as, word_place, field_of};
ghost use Rattle.pungi_resolve.specs.Sound.{is_sound, is_sound_place};
ghost use Rattle.pungi_resolved.specs.ValueView.{boxed_view, place_view};

use crate::typed::Typed;
use pungi_base::{Memory, Name, Pos};
use pungi_resolved::{Place, ValueNode};
use pungi_types::operator::struct_part;
use pungi_types::{Lookup, Standing, ValueKind};
use std::alloc::Global;

/// The value that is read at a place.
pub(crate) fn read_as(
    alloc: Global,
    pos: Pos,
    kind: Option<ValueKind>,
    place: Place,
) -> Result<Typed, Memory>
    requires { is_sound (read_as pos kind (place_view place)) ≡ true }
    ensures value { IfOk result (λ x. boxed_view x.value ≡ read_as pos kind (place_view place)) }
    ensures kind { IfOk result (λ x. x.kind ≡ kind) }
{
    match kind {
        None => unreachable!(),
        Some(known) => Typed::new(alloc, pos, ValueNode::Read(known, place), kind),
    }
}

/// The place of a word.
pub(crate) fn word_place<N: Lookup>(names: &N, pos: Pos, name: Name) -> Place
    requires { is_sound_place (word_place pos (meaning_of (N.env names.now) name.0) name) ≡ true }
    ensures { place_view result ≡ word_place pos (meaning_of (N.env names.now) name.0) name }
{
    match names.standing(name) {
        Standing::Local(number) => Place::Local(pos, number),
        Standing::Global => Place::Global(pos, name),
        Standing::Static(_) | Standing::Other => unreachable!(),
    }
}

/// The place of a field, reached through a pointer.
pub(crate) fn field_of(pos: Pos, base: Typed, field: Name) -> Place
    requires { is_sound_place (field_of pos (boxed_view base.value) (struct_part base.kind) field) ≡ true }
    ensures { place_view result ≡ field_of pos (boxed_view base.value) (struct_part base.kind) field }
{
    match struct_part(base.kind) {
        None => unreachable!(),
        Some(tag) => Place::Field(pos, base.value, tag, field),
    }
}
