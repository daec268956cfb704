ghost use Rattle.std.specs.Prelude.{◌≡◌, ◌∷◌, ◌+◌, ◌-◌, length, drop, OnOk};

use crate::labels::Labels;
use crate::{LocalNames, NextLocal};
use pungi_base::{Memory, Name};
use pungi_types::{Finding, Local, ValueKind};
use std::alloc::Global;

/// What surrounds a statement, besides the names in force.
#[derive(Clone, Copy)]
pub(crate) struct Around<'a> {
    pub(crate) alloc: Global,
    /// The kind of the function's result.
    pub(crate) result: Option<ValueKind>,
    pub(crate) labels: Labels<'a>,
    /// In a loop or a `switch`.
    pub(crate) breaks: bool,
    /// In a loop.
    pub(crate) continues: bool,
    /// Directly in the block of a `switch`.
    pub(crate) cases: bool,
    /// The body of a `switch`.
    pub(crate) switched: bool,
}

/// What is known at a place of a walk through a function.
#[derive(Drop)]
pub(crate) struct Walk {
    /// The locals in force.
    pub(crate) locals: LocalNames,
    /// The number of the next local.
    pub(crate) next: NextLocal,
    /// The earliest of what holds so far.
    pub(crate) first: Option<Finding>,
}

impl Walk {
    /// A local comes into force.
    pub(crate) fn declare(&mut self, name: Name, kind: Option<ValueKind>) -> Result<(), Memory>
        ensures { OnOk result (self.new ≡ record self.old {
          locals = record {
            name = name;
            number = self.old.next;
            kind = kind;
          } ∷ self.old.locals;
          next = self.old.next + 1;
        }) }
    {
        let number = self.next.number();
        self.locals.push(Local { name, number, kind })?;
        self.next.pass(kind)
    }

    /// A local without a name is counted.
    pub(crate) fn skip(&mut self, kind: Option<ValueKind>) -> Result<(), Memory>
        ensures { OnOk result (self.new ≡ record self.old { next = self.old.next + 1 }) }
    {
        self.next.pass(kind)
    }

    /// The latest locals go out of force, until no more than so many are left.
    pub(crate) fn leave(&mut self, count: usize)
        ensures { self.new ≡ record self.old { locals = drop (length self.old.locals - count) self.old.locals } }
    {
        self.locals.truncate(count);
    }
}
