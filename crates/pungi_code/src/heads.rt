ghost use Rattle.std.specs.Prelude.{◌≡◌, IfOk, map};
ghost use Rattle.pungi_code.specs.Run.{label_of};

use crate::{Code, Label};
use pungi_base::Memory;
use std::alloc::Global;

/// The labels of a code's loop heads, in order.
pub fn loop_heads(alloc: Global, code: &Code) -> Result<Vec<Label>, Memory>
    ensures { IfOk result (λ labels. labels.items ≡ map label_of code.now.heads) }
{
    let mut labels = Vec::new(alloc);
    for head in code.heads.as_slice() {
        labels.push(head.label)?;
    }
    Ok(labels)
}
