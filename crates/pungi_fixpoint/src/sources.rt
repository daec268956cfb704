ghost use Rattle.std.specs.Prelude.{◌≡◌, ◌<◌, [], replicate, IfOk};
ghost use Rattle.std.specs.List.{All};
ghost use Rattle.pungi_fixpoint.specs.Turns.{IsIndex};

use pungi_base::{Memory, Seq};
use pungi_domain::AffineEdge;
use std::alloc::Global;

/// Lists of no numbers.
fn empty_lists(alloc: Global, count: usize) -> Result<Vec<Seq<usize>>, Memory>
    ensures { IfOk result (λ lists. lists.items ≡ replicate count []) }
{
    let mut lists = Vec::new(alloc);
    for _ in 0..count {
        lists.push(Seq::new(Vec::new(alloc)))?;
    }
    Ok(lists)
}

/// For each place the numbers of the edges that leave it.
pub(crate) fn edges_by_source(
    alloc: Global,
    edges: &[AffineEdge],
    places: usize,
) -> Result<Vec<Seq<usize>>, Memory>
    requires { All (λ e. e.from < places) edges.now }
    ensures { IfOk result (λ lists. IsIndex edges.now places lists.items) }
{
    let mut lists = empty_lists(alloc, places)?;
    for i in 0..edges.len() {
        let from = edges[i].from as usize;
        lists[from].push(i)?;
    }
    Ok(lists)
}
