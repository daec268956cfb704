// Coefficients other than 0, each with its coordinate, in order.
ghost use Rattle.std.specs.Prelude.{◌≡◌, ℕ, pos, ◌+ℤ◌, ◌*ℤ◌, ◌≤◌, ◌++◌, ◌∷◌, [], drop, length, true, IfOk, OnOk};
ghost use Rattle.pungi_shape.specs.Forms.{AreFactors, IsFactor, IsSparse, IsSum, coefficient, dense, factor_at, scale};

use pungi_base::{Memory, Seq};
use std::alloc::Global;

/// Adds a coefficient at the end, unless it is 0.
pub(crate) fn push_factor(out: &mut Seq<(u32, i64)>, k: u32, c: i64) -> Result<(), Memory>
    ensures { OnOk result (out.new ≡ out.old ++ factor_at k c) }
{
    if c == 0 {
        return Ok(());
    }
    out.push((k, c))
}

/// Whether the only one is 1, at this coordinate.
pub(crate) fn is_one(fs: &[(u32, i64)], k: u32) -> bool
    ensures yes { result ≡ true → fs.now ≡ (k, pos 1) ∷ [] }
    ensures no { fs.now ≡ (k, pos 1) ∷ [] → result ≡ true }
{
    if fs.len() != 1 {
        return false;
    }
    let (j, n) = fs[0];
    if n != 1 {
        return false;
    }
    j == k
}

/// Adds those from a place on.
fn push_rest(out: &mut Seq<(u32, i64)>, fs: &[(u32, i64)], from: usize) -> Result<(), Memory>
    requires { from ≤ length fs.now }
    ensures { OnOk result (out.new ≡ out.old ++ drop from fs.now) }
{
    for i in from..fs.len() {
        out.push(fs[i])?;
    }
    Ok(())
}

/// The sums of two lists of coefficients.
pub(crate) fn sum(
    alloc: Global,
    fs: &[(u32, i64)],
    gs: &[(u32, i64)],
) -> Result<Seq<(u32, i64)>, Memory>
    requires left { AreFactors 0 fs.now }
    requires right { AreFactors 0 gs.now }
    requires storable { (k : ℕ) → IsFactor (coefficient fs.now k +ℤ coefficient gs.now k) }
    ensures { IfOk result (λ hs. IsSum fs.now gs.now hs) }
{
    let mut out = Seq::new(Vec::new(alloc));
    let mut i = 0;
    let mut j = 0;
    while i < fs.len() && j < gs.len() {
        let (p, q) = (fs[i], gs[j]);
        if p.0 < q.0 {
            out.push(p)?;
            i += 1;
        } else if q.0 < p.0 {
            out.push(q)?;
            j += 1;
        } else {
            push_factor(&mut out, p.0, p.1 + q.1)?;
            i += 1;
            j += 1;
        }
    }
    push_rest(&mut out, fs, i)?;
    push_rest(&mut out, gs, j)?;
    Ok(out)
}

/// The multiples of coefficients.
pub(crate) fn scaled(alloc: Global, n: i64, fs: &[(u32, i64)]) -> Result<Seq<(u32, i64)>, Memory>
    requires sorted { AreFactors 0 fs.now }
    requires storable { (k : ℕ) → IsFactor (n *ℤ coefficient fs.now k) }
    ensures { IfOk result (λ hs. hs ≡ scale n fs.now) }
{
    let mut out = Seq::new(Vec::new(alloc));
    for p in fs {
        out.push((p.0, n * p.1))?;
    }
    Ok(out)
}

/// One coefficient a coordinate.
pub(crate) fn spread(alloc: Global, width: u32, fs: &[(u32, i64)]) -> Result<Seq<i64>, Memory>
    requires { IsSparse width fs.now }
    ensures { IfOk result (λ cs. cs ≡ dense width fs.now) }
{
    let mut out = Seq::new(Vec::new(alloc));
    let mut i = 0;
    for k in 0..width {
        if i < fs.len() && fs[i].0 == k {
            out.push(fs[i].1)?;
            i += 1;
        } else {
            out.push(0)?;
        }
    }
    Ok(out)
}
