// How many instructions come after the arguments of a call that returns `NULL` where one of them is missing, and of one
// that writes variables. Each function returns the place after its part, which begins at `from`.
ghost use Rattle.std.specs.Prelude.{◌≡◌, ◌+◌, ◌≤◌, ◌∷◌, [], map};
ghost use Rattle.pungi_code.specs.Limits.{most_instructions};
ghost use Rattle.pungi_resolved.specs.ValueView.{value_view, values_of};
ghost use Rattle.pungi_meaning.specs.Todo.{listed_values};
ghost use Rattle.pungi_layout.specs.code.Sizes.{missing_size, outputs_size};
ghost use Rattle.pungi_emit.specs.expr.Outputs.{front_missing};

use crate::expr::temporary::tail;
use pungi_api::{BoxedSignature, Param};
use pungi_resolved::{OutputStep, Value as Node};

/// The branch on an argument of the first of these parameters.
fn front_missing(params: &[Param]) -> u32
    ensures size { result ≡ front_missing params.now }
    ensures low { result ≤ 1 }
{
    match params {
        [Param::ObjectOrNull, ..] => 1,
        _ => 0,
    }
}

/// The branches on arguments that may be `NULL`.
pub fn after_missing(from: u32, params: &[Param], args: &[Node]) -> u32
    requires { from + missing_size params.now (map value_view args.now) ≤ most_instructions }
    ensures { result ≡ from + missing_size params.now (map value_view args.now) }
{
    let mut place = from;
    let mut left = params;
    for _arg in args {
        place = place + front_missing(left);
        left = tail(left);
    }
    place
}

/// What comes after the arguments of a call that returns `NULL` where one of them is missing.
#[tactic(auto, using(crate::proofs::expr::ExprCode::as_listed))]
pub fn after_unless_null(from: u32, signature: &BoxedSignature, args: &[Node]) -> u32
    requires { from + (missing_size signature.now.params (listed_values (values_of (map value_view args.now))) + 3)
        ≤ most_instructions }
    ensures { result ≡ from + (missing_size signature.now.params (listed_values (values_of (map value_view args.now)))
        + 3) }
{
    after_missing(from, signature.get().params.as_slice(), args) + 3
}

/// A step after a call that writes variables.
fn after_output(from: u32, step: OutputStep) -> u32
    requires { from + outputs_size (step ∷ []) ≤ most_instructions }
    ensures { result ≡ from + outputs_size (step ∷ []) }
{
    match step {
        OutputStep::Ends(_, _) => from + 2,
        OutputStep::Writes(_, _) => from + 1,
    }
}

/// The steps after a call that writes variables.
pub fn after_outputs(from: u32, steps: &[OutputStep]) -> u32
    requires { from + outputs_size steps.now ≤ most_instructions }
    ensures { result ≡ from + outputs_size steps.now }
{
    let mut place = from;
    for step in steps {
        place = after_output(place, *step);
    }
    place
}
