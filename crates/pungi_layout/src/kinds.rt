// What the layout makes of functions whose parts are of the kinds that they need.
ghost use Rattle.pungi_resolved.specs.ActionView.{function_view};
ghost use Rattle.pungi_layout.specs.kinds.Laws.{IsWellFormedIfTyped, AgreeIfTyped};

use pungi_resolved::Function;

/// The law of kinds: each instruction names variables and places that are there, and of the kind that it needs.
pub fn layout_is_well_formed(f: &Function)
    ensures { IsWellFormedIfTyped (function_view f.now) }
{}

/// The law of slots: two functions of one file read and write each global and each field with one kind.
pub fn layouts_agree(f: &Function, g: &Function)
    ensures { AgreeIfTyped (function_view f.now) (function_view g.now) }
{}
