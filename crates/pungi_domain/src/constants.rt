//! Lists of known constants, one a coordinate.
ghost use Rattle.std.specs.Prelude.{◌≡◌, ◌⊎◌, ℕ, ◌+◌, ◌<◌, ◌≤◌, ◌^◌, ℤ, pos, ◌+ℤ◌, ◌*ℤ◌, true, false, length, IfOk};
ghost use Rattle.std.specs.Prelude.{IfSome, None, Some, IsSome, count_by, is_none};
ghost use Rattle.pungi_domain.specs.Vectors.{Vector, image, at, IsWithin, dot, row_sum, IsMatrix};
ghost use Rattle.std.specs.List.{All};
ghost use Rattle.pungi_domain.specs.Flat.{MeetsConstants, constant_at, value_at, IsSmall, AreConstants};
ghost use Rattle.pungi_domain.specs.Constants.{IsUnsettled, Tells, IsSettled, IsOpen, IsRowTerm, IsRowConstant};
ghost use Rattle.pungi_domain.specs.Constants.{IsRelated, IsImageConstant, AreImages, IsJoinedAt, AreJoined};

use crate::DomainFault;
use pungi_base::{Memory, Seq};
use std::alloc::Global;

/// The absolute value up to which a constant is kept.
const CONSTANT_LIMIT: i64 = 0x8000_0000;

/// No coordinate but the leading one has a constant.
pub(crate) fn all_free(alloc: Global, width: u32) -> Result<Seq<Option<i64>>, Memory>
    requires { width ≤ 256 }
    ensures { IfOk result (λ cs. AreConstants width cs × ((i : ℕ) → 0 < i → constant_at cs i ≡ None)) }
{
    let mut constants = vec![in alloc; None; width as usize]?;
    if width > 0 {
        constants[0] = Some(1);
    }
    Ok(Seq::new(constants))
}

/// Each coordinate but the leading one is 0.
pub(crate) fn all_zero(alloc: Global, width: u32) -> Result<Seq<Option<i64>>, Memory>
    requires { width ≤ 256 }
    ensures { IfOk result (λ cs. AreConstants width cs
        × ((i : ℕ) → 0 < i → i < width → constant_at cs i ≡ Some (pos 0))) }
{
    let mut constants = vec![in alloc; Some(0); width as usize]?;
    if width > 0 {
        constants[0] = Some(1);
    }
    Ok(Seq::new(constants))
}

/// A number times a constant.
fn product(a: i64, b: i64) -> i128
    requires { IsWithin (2 ^ 31) b }
    ensures value { result ≡ a *ℤ b }
    ensures within { IsWithin (2 ^ 94) result }
{
    i128::from(a) * i128::from(b)
}

/// A coefficient times the known constant.
fn term(constants: &[Option<i64>], coefficients: &[i64], i: usize) -> i128
    requires within { (i < length coefficients.now) × (i < length constants.now) }
    requires small { IsSmall (constant_at constants.now i) }
    ensures value { result ≡ at coefficients.now i *ℤ value_at constants.now i }
    ensures within { IsWithin (2 ^ 94) result }
{
    match constants[i] {
        Some(constant) => product(coefficients[i], constant),
        None => 0,
    }
}

/// The coefficients times the known constants, summed up.
pub(crate) fn known_sum(constants: &[Option<i64>], coefficients: &[i64]) -> i128
    requires width { length coefficients.now ≡ length constants.now }
    requires narrow { length constants.now ≤ 256 }
    requires small { (i : ℕ) → i < length constants.now → IsSmall (constant_at constants.now i) }
    ensures value { result ≡ dot coefficients.now (value_at constants.now) }
    ensures within { IsWithin (2 ^ 102) result }
{
    let mut sum = 0i128;
    for i in 0..constants.len() {
        sum += term(constants, coefficients, i);
    }
    sum
}

/// Where an equation has a coefficient other than 0 at a coordinate without a known constant.
#[derive(Clone, Copy)]
pub(crate) enum Unsettled {
    Nowhere,
    At(usize),
    Several,
}

/// Whether what the coefficients make of a coordinate is known.
fn is_settled(constants: &[Option<i64>], coefficients: &[i64], i: usize) -> bool
    requires within { (i < length coefficients.now) × (i < length constants.now) }
    ensures yes { result ≡ true → IsSettled coefficients.now constants.now i }
    ensures no { result ≡ false → IsOpen coefficients.now constants.now i }
{
    coefficients[i] == 0 || constants[i].is_some()
}

/// Where the equation is not settled by the constants.
pub(crate) fn find_unsettled(constants: &[Option<i64>], coefficients: &[i64]) -> Unsettled
    requires { length coefficients.now ≡ length constants.now }
    ensures { IsUnsettled coefficients.now constants.now result }
{
    let mut found: Option<usize> = None;
    for i in 0..constants.len() {
        if !is_settled(constants, coefficients, i) {
            if found.is_some() {
                return Unsettled::Several;
            }
            found = Some(i);
        }
    }
    match found {
        None => Unsettled::Nowhere,
        Some(i) => Unsettled::At(i),
    }
}

/// Whether a constant can be kept.
fn is_kept(constant: i64) -> bool
    ensures { result ≡ true → IsWithin (2 ^ 31) constant }
{
    if constant > CONSTANT_LIMIT {
        return false;
    }
    if constant < -CONSTANT_LIMIT {
        return false;
    }
    true
}

/// Whether a constant solves `coefficient * constant + sum = 0`.
fn is_solution(coefficient: i64, constant: i64, sum: i128) -> bool
    requires constant { IsWithin (2 ^ 31) constant }
    requires sum { IsWithin (2 ^ 102) sum }
    ensures { result ≡ true → (coefficient *ℤ constant) +ℤ sum ≡ pos 0 }
{
    if product(coefficient, constant) + sum != 0 {
        return false;
    }
    true
}

/// The constant that solves `coefficient * constant + sum = 0`, where it can be kept.
pub(crate) fn solution(coefficient: i64, sum: i128) -> Option<i64>
    requires { IsWithin (2 ^ 102) sum }
    ensures { IfSome result (λ c. IsWithin (2 ^ 31) c × ((coefficient *ℤ c) +ℤ sum ≡ pos 0)) }
{
    let ratio = sum.checked_div(i128::from(coefficient))?;
    let constant = i64::try_from(ratio).ok()?.checked_neg()?;
    if is_kept(constant) && is_solution(coefficient, constant, sum) {
        return Some(constant);
    }
    None
}

/// A coordinate without a known constant, and the one that an equation gives for it.
#[derive(Clone, Copy)]
pub(crate) struct Told {
    place: usize,
    constant: i64,
}

/// What an equation gives.
fn tell(constants: &[Option<i64>], coefficients: &[i64]) -> Option<Told>
    requires constants { AreConstants (length constants.now) constants.now }
    requires width { length coefficients.now ≡ length constants.now }
    ensures { IfSome result (λ t. Tells constants.now coefficients.now t.place t.constant) }
{
    let Unsettled::At(place) = find_unsettled(constants, coefficients) else {
        return None;
    };
    let sum = known_sum(constants, coefficients);
    let constant = solution(coefficients[place], sum)?;
    Some(Told { place, constant })
}

/// The constants, and what an equation gives for one more coordinate.
pub(crate) fn meet_constants(
    alloc: Global,
    constants: &Seq<Option<i64>>,
    coefficients: &[i64],
) -> Result<Seq<Option<i64>>, Memory>
    requires constants { AreConstants (length constants.now) constants.now }
    requires width { length coefficients.now ≡ length constants.now }
    ensures constants { IfOk result (AreConstants (length constants.now)) }
    ensures members { IfOk result (λ new. (v : Vector) → MeetsConstants (length constants.now) constants.now v
        → dot coefficients.now v ≡ pos 0 → MeetsConstants (length constants.now) new v) }
{
    let mut met = constants.copy(alloc)?;
    let Some(told) = tell(constants.as_slice(), coefficients) else {
        return Ok(met);
    };
    met.set(told.place, Some(told.constant));
    Ok(met)
}

/// Whether the known constants, with 0 elsewhere, meet an equation.
fn meets_constants(constants: &[Option<i64>], coefficients: &[i64]) -> bool
    requires constants { AreConstants (length constants.now) constants.now }
    requires width { length coefficients.now ≡ length constants.now }
    ensures yes { result ≡ true → dot coefficients.now (value_at constants.now) ≡ pos 0 }
    ensures no { result ≡ false → dot coefficients.now (value_at constants.now) ≡ pos 0 → ⊥ }
{
    if known_sum(constants, coefficients) != 0 {
        return false;
    }
    true
}

/// Whether all vectors with these constants meet an equation.
pub(crate) fn constants_hold(constants: &[Option<i64>], coefficients: &[i64]) -> bool
    requires constants { AreConstants (length constants.now) constants.now }
    requires width { length coefficients.now ≡ length constants.now }
    ensures yes { result ≡ true → (v : Vector) → MeetsConstants (length constants.now) constants.now v
        → dot coefficients.now v ≡ pos 0 }
    ensures no { result ≡ false → (v : Vector) × MeetsConstants (length constants.now) constants.now v
        × (dot coefficients.now v ≡ pos 0 → ⊥) }
{
    match find_unsettled(constants, coefficients) {
        Unsettled::Nowhere => meets_constants(constants, coefficients),
        Unsettled::At(_) => false,
        Unsettled::Several => false,
    }
}

/// A factor of a row times the known constant of its source.
fn row_term(constants: &[Option<i64>], row: &[(u32, i64)], k: usize) -> Option<i128>
    requires k { k < length row.now }
    requires within { All (λ p. p.0 < length constants.now) row.now }
    requires small { (i : ℕ) → i < length constants.now → IsSmall (constant_at constants.now i) }
    ensures { IfSome result (IsRowTerm constants.now row.now k) }
{
    let (source, factor) = row[k];
    let constant = constants[source as usize]?;
    Some(product(factor, constant))
}

/// The constant that a row makes of those of its sources, where all are known and it can be kept.
fn row_constant(constants: &[Option<i64>], row: &[(u32, i64)]) -> Option<i64>
    requires within { All (λ p. p.0 < length constants.now) row.now }
    requires small { (i : ℕ) → i < length constants.now → IsSmall (constant_at constants.now i) }
    ensures { IfSome result (IsRowConstant constants.now row.now) }
{
    let mut sum = 0i128;
    for k in 0..row.len() {
        sum = sum.checked_add(row_term(constants, row, k)?)?;
    }
    let constant = i64::try_from(sum).ok()?;
    if is_kept(constant) {
        return Some(constant);
    }
    None
}

/// The constant of a row's image in terms of the leading row's: where the latter isn't 1, only 0 is known to be one.
fn related_constant(
    constants: &[Option<i64>],
    leading: &[(u32, i64)],
    row: &[(u32, i64)],
) -> Option<i64>
    requires leading { All (λ p. p.0 < length constants.now) leading.now }
    requires row { All (λ p. p.0 < length constants.now) row.now }
    requires small { (i : ℕ) → i < length constants.now → IsSmall (constant_at constants.now i) }
    ensures { IfSome result (IsRelated constants.now leading.now row.now) }
{
    let constant = row_constant(constants, row)?;
    if constant == 0 {
        return Some(0);
    }
    if let Some(1) = row_constant(constants, leading) {
        return Some(constant);
    }
    None
}

/// The constant of a coordinate of the image.
fn image_constant(constants: &[Option<i64>], rows: &[Seq<(u32, i64)>], i: usize) -> Option<i64>
    requires i { i < length rows.now }
    requires within { All (λ row. All (λ p. p.0 < length constants.now) row) rows.now }
    requires small { (k : ℕ) → k < length constants.now → IsSmall (constant_at constants.now k) }
    ensures { IsImageConstant constants.now rows.now i result }
{
    if i == 0 {
        return Some(1);
    }
    related_constant(constants, rows[0].as_slice(), rows[i].as_slice())
}

/// The constants of the images, in terms of the leading coordinate of the image.
pub(crate) fn image_constants(
    alloc: Global,
    constants: &[Option<i64>],
    rows: &[Seq<(u32, i64)>],
) -> Result<Seq<Option<i64>>, Memory>
    requires narrow { length rows.now ≤ 256 }
    requires within { All (λ row. All (λ p. p.0 < length constants.now) row) rows.now }
    requires small { (i : ℕ) → i < length constants.now → IsSmall (constant_at constants.now i) }
    ensures constants { IfOk result (AreConstants (length rows.now)) }
    ensures members { IfOk result (λ images. (v : Vector) → MeetsConstants (length constants.now) constants.now v
        → MeetsConstants (length rows.now) images (image rows.now v)) }
{
    let mut images = Vec::with_capacity(alloc, rows.len())?;
    for i in 0..rows.len() {
        images.push(image_constant(constants, rows, i))?;
    }
    Ok(Seq::new(images))
}

/// Whether the second one knows all that the first one knows.
fn agrees(constant: Option<i64>, other: Option<i64>) -> bool
    ensures yes { result ≡ true → (constant ≡ None) ⊎ (constant ≡ other) }
    ensures no { result ≡ false → IsSome constant × (constant ≡ other → ⊥) }
{
    match (constant, other) {
        (None, _) => true,
        (Some(_), None) => false,
        (Some(a), Some(b)) => a == b,
    }
}

/// Drops the constant of a coordinate where the others don't have it, and returns whether that was so.
fn join_at(constants: &mut Seq<Option<i64>>, others: &[Option<i64>], i: usize) -> bool
    requires within { (i < length constants.old) × (i < length others.now) }
    ensures { IsJoinedAt constants.old others.now i constants.new result }
{
    if agrees(constants.as_slice()[i], others[i]) {
        return false;
    }
    constants.set(i, None);
    true
}

/// Keeps the constants on which both agree, and returns whether one was lost.
pub(crate) fn join(constants: &mut Seq<Option<i64>>, others: &[Option<i64>]) -> bool
    requires { length others.now ≡ length constants.old }
    ensures joined { AreJoined constants.old others.now constants.new result }
    ensures kept { (v : Vector) → MeetsConstants (length constants.old) constants.old v
        → MeetsConstants (length constants.old) constants.new v }
    ensures taken { (v : Vector) → MeetsConstants (length constants.old) others.now v
        → MeetsConstants (length constants.old) constants.new v }
{
    let mut changed = false;
    for i in 0..others.len() {
        if join_at(constants, others, i) {
            changed = true;
        }
    }
    changed
}
