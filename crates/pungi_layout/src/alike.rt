// What the layout of a function promises.
ghost use Rattle.pungi_resolved.specs.ActionView.{function_view};
ghost use Rattle.pungi_layout.specs.code.StmtCode.{body_code};
ghost use Rattle.pungi_layout.specs.code.Sound.{IsStmtSound};
ghost use Rattle.pungi_layout.specs.alike.Correct.{IsAlikeIfLaidOut};
ghost use Rattle.pungi_layout.specs.liveness.Boundaries.{KeepsNothing};
ghost use Rattle.pungi_layout.specs.code.Heads.{heads_of};

use pungi_resolved::Function;

/// The law of the layout: from any entry and with any choices, the run of a function and the run of the code that is
/// laid out for it are alike, through all calls of functions of its file, where each of these is laid out too.
pub fn layout_is_alike(f: &Function)
    ensures { IsAlikeIfLaidOut (function_view f.now) }
{}

/// The law of its temporaries: where one instruction leads to another, and no statement has own nodes at the places of
/// both, and at each loop's head, no path reads a temporary before it writes it.
pub fn layout_keeps_nothing(f: &Function)
    requires { IsStmtSound (function_view f.now).locals (function_view f.now).body }
    ensures { KeepsNothing (function_view f.now) (body_code (function_view f.now)) (heads_of (function_view f.now))
        (function_view f.now).locals }
{}
