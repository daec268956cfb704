// The codes of functions that may be refused.
ghost use Rattle.std.specs.Prelude.{◌≡◌, map, option_map, IfOk};
ghost use Rattle.std.specs.List.{All};
ghost use Rattle.pungi_resolved.specs.ActionView.{function_view};
ghost use Rattle.pungi_emit.specs.function.Limits.{IsWithinAny};
ghost use Rattle.pungi_layout.specs.code.Codes.{code_for};

use crate::function::function_code::lower_function;
use pungi_base::{Memory, Seq};
use pungi_code::Code;
use pungi_resolved::Function;
use std::alloc::Global;

/// The code of a function that may be refused.
fn lower_one(alloc: Global, f: &Option<Function>) -> Result<Option<Code>, Memory>
    requires { IsWithinAny (option_map function_view f.now) }
    ensures { IfOk result (λ code. code ≡ code_for (option_map function_view f.now)) }
{
    match f {
        Some(f) => {
            let code = lower_function(alloc, f)?;
            Ok(Some(code))
        }
        None => Ok(None),
    }
}

/// The codes of the functions of a file. A function that is refused has no code.
pub fn lower_functions(
    alloc: Global,
    functions: &[Option<Function>],
) -> Result<Seq<Option<Code>>, Memory>
    requires { All (λ f. IsWithinAny (option_map function_view f)) functions.now }
    ensures { IfOk result (λ codes. codes ≡ map code_for (map (option_map function_view) functions.now)) }
{
    let mut codes = Seq::new(Vec::new(alloc));
    for f in functions {
        let code = lower_one(alloc, f)?;
        codes.push(code)?;
    }
    Ok(codes)
}
