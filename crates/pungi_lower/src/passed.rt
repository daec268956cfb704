// What the layout makes of the functions of a file in which no rule holds.
ghost use Rattle.pungi_resolved.specs.ActionView.{function_view};
ghost use Rattle.pungi_lower.specs.TypedLaws.{IsSoundIfPassed, IsSmallIfPassed, IsWellFormedIfPassed, AgreeIfPassed};

use pungi_resolved::Function;

/// The law of what the layout requires of a function: each in which no rule holds meets it.
pub fn passed_is_sound(f: &Function)
    ensures { IsSoundIfPassed (function_view f.now) }
{}

/// The law of sizes: the code has at most four instructions for a node of the text, and tree and code are within the
/// limits.
pub fn passed_is_small(f: &Function)
    ensures { IsSmallIfPassed (function_view f.now) }
{}

/// The law of kinds: the code of a function is well-formed among those of its file, and returns what its result is.
pub fn passed_is_well_formed(f: &Function)
    ensures { IsWellFormedIfPassed (function_view f.now) }
{}

/// The law of slots: two functions of one file read and write each global and each field with one kind.
pub fn passed_agree(f: &Function, g: &Function)
    ensures { AgreeIfPassed (function_view f.now) (function_view g.now) }
{}
