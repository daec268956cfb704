ghost use Rattle.pungi_shape.specs.Callables.{CallsFitPrograms};
ghost use Rattle.pungi_shape.specs.Reaching.{CalleesAreCalled, FunctionsAreReached};

/// The functions that a function calls are those that its instructions call.
pub fn callees_are_called()
    ensures { CalleesAreCalled }
{}

/// What a function reaches by calls is itself, and what a function that it calls reaches.
pub fn functions_are_reached()
    ensures { FunctionsAreReached }
{}

/// A call of an affine program leaves by an exit class of each program of the called function.
pub fn calls_fit_programs()
    ensures { CallsFitPrograms }
{}
