// The order of edges of one source: by their targets, guards, actions and duties.
ghost use Rattle.std.specs.Prelude.{◌≡◌, ◌≤◌, length, insert, if◌then◌else◌, OnOk};
ghost use Rattle.pungi_shape.specs.EdgeOrder.{put_edge};
ghost use Rattle.std.specs.Cmp.Lexicographic.{slice_cmp};
ghost use Rattle.pungi_shape.specs.Programs.{pair_cmp, rows_cmp, equations_cmp, action_cmp, target_cmp, edge_cmp};

use pungi_base::{Memory, Seq};
use pungi_domain::{Action, AffineEdge, Equation, Target};
use std::cmp::Ordering;

fn compare_targets(a: Target, b: Target) -> Ordering
    ensures { result ≡ target_cmp a b }
{
    match a {
        Target::Place(k) => match b {
            Target::Place(l) => k.cmp(&l),
            Target::Exit(_) => Ordering::Less,
        },
        Target::Exit(k) => match b {
            Target::Place(_) => Ordering::Greater,
            Target::Exit(l) => k.cmp(&l),
        },
    }
}

fn compare_equations(a: &[Equation], b: &[Equation]) -> Ordering
    ensures { result ≡ equations_cmp a.now b.now }
{
    for i in 0..a.len().min(b.len()) {
        match a[i]
            .coefficients
            .as_slice()
            .cmp(b[i].coefficients.as_slice())
        {
            Ordering::Less => return Ordering::Less,
            Ordering::Equal => {}
            Ordering::Greater => return Ordering::Greater,
        }
    }
    a.len().cmp(&b.len())
}

fn compare_pairs(a: &[(u32, i64)], b: &[(u32, i64)]) -> Ordering
    ensures { result ≡ slice_cmp pair_cmp a.now b.now }
{
    a.cmp(b)
}

fn compare_rows(a: &[Seq<(u32, i64)>], b: &[Seq<(u32, i64)>]) -> Ordering
    ensures { result ≡ rows_cmp a.now b.now }
{
    for i in 0..a.len().min(b.len()) {
        match compare_pairs(a[i].as_slice(), b[i].as_slice()) {
            Ordering::Less => return Ordering::Less,
            Ordering::Equal => {}
            Ordering::Greater => return Ordering::Greater,
        }
    }
    a.len().cmp(&b.len())
}

fn compare_actions(a: &Action, b: &Action) -> Ordering
    ensures { result ≡ action_cmp a.now b.now }
{
    match a {
        Action::Map(m) => match b {
            Action::Map(n) => compare_rows(m.rows.as_slice(), n.rows.as_slice()),
            Action::Free(_) | Action::Call { .. } => Ordering::Less,
        },
        Action::Free(c) => match b {
            Action::Map(_) => Ordering::Greater,
            Action::Free(d) => c.cmp(d),
            Action::Call { .. } => Ordering::Less,
        },
        Action::Call {
            callee,
            class,
            onto,
        } => match b {
            Action::Map(_) | Action::Free(_) => Ordering::Greater,
            Action::Call {
                callee: other_callee,
                class: other_class,
                onto: other_onto,
            } => callee
                .cmp(other_callee)
                .then(class.cmp(other_class))
                .then(onto.as_slice().cmp(other_onto.as_slice())),
        },
    }
}

/// Edges of one source, in their order.
fn compare_edges(a: &AffineEdge, b: &AffineEdge) -> Ordering
    ensures { result ≡ edge_cmp a.now b.now }
{
    compare_targets(a.to, b.to)
        .then(compare_equations(a.guard.as_slice(), b.guard.as_slice()))
        .then(compare_actions(&a.action, &b.action))
        .then(compare_equations(a.duties.as_slice(), b.duties.as_slice()))
}

/// The place of an edge in a list of edges in order: that of the first that is not before it, and whether it is there.
fn find_edge(list: &[AffineEdge], edge: &AffineEdge) -> (usize, bool)
    ensures within { result.0 ≤ length list.now }
    ensures place { put_edge edge.now list.now ≡ (if result.1 then list.now else insert list.now result.0 edge.now) }
{
    for i in 0..list.len() {
        match compare_edges(edge, &list[i]) {
            Ordering::Less => return (i, false),
            Ordering::Equal => return (i, true),
            Ordering::Greater => {}
        }
    }
    (list.len(), false)
}

/// Puts an edge into a list of edges in order, unless it is there.
pub(crate) fn put_edge(list: &mut Vec<AffineEdge>, edge: AffineEdge) -> Result<(), Memory>
    ensures { OnOk result (list.new.items ≡ put_edge edge list.old.items) }
{
    let (at, is_there) = find_edge(list.as_slice(), &edge);
    if is_there {
        return Ok(());
    }
    list.insert(at, edge)?;
    Ok(())
}
