// The places of the parts of a code.
ghost use Rattle.std.specs.Prelude.{◌≡◌, ◌+◌, ◌<◌, ◌^◌, IfOk};
ghost use Rattle.pungi_inline.specs.Moved.{moved_label};
ghost use Rattle.pungi_inline.specs.Places.{place_in};
ghost use Rattle.pungi_inline.specs.Sites.{total, place_from};

use pungi_base::Memory;
use pungi_code::Label;
use std::alloc::Global;

/// Where each part of a code begins, and where the last one ends.
#[derive(Drop)]
pub struct Places {
    pub starts: Vec<u32>,
}

/// The places of parts of these sizes, where the first begins at this one.
pub fn places_from(alloc: Global, start: u32, sizes: &[u32]) -> Result<Places, Memory>
    requires { start + total sizes.now < 2 ^ 32 }
    ensures { IfOk result (λ p. place_in p.starts.items ≡ place_from start sizes.now) }
{
    let mut starts = Vec::new(alloc);
    let mut at = start;
    starts.push(at)?;
    for size in sizes {
        at += *size;
        starts.push(at)?;
    }
    Ok(Places { starts })
}

impl Places {
    /// The label of what was a label of these parts.
    pub fn label(&self, l: Label) -> Label
        ensures { result ≡ moved_label (place_in self.now.starts.items) l }
    {
        let starts = self.starts.as_slice();
        let last = starts.len().saturating_sub(1);
        let place = (l.0 as usize).min(last);
        Label(starts.get(place).copied().unwrap_or(0))
    }
}
