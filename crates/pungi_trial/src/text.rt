ghost use Rattle.std.specs.Prelude.{◌≡◌, IfOk};
ghost use Rattle.pungi_trial.specs.Text.{trial_text};

use crate::line::push_line;
use pungi_base::Memory;
use std::alloc::Global;

/// The text of a trial of `n` functions: an include line, and a line for each function.
pub fn trial_text(alloc: Global, n: u32) -> Result<Vec<u8>, Memory>
    ensures { IfOk result (λ text. text.items ≡ trial_text n) }
{
    let mut text = String::from_str(alloc, "#include <Python.h>\n")?;
    for k in 0..n {
        push_line(&mut text, k + 1)?;
    }
    Ok(text.into_bytes())
}
