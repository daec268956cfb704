// The code of a function, and parts of lists.
ghost use Rattle.std.specs.Prelude.{◌≡◌, option_map, drop, take, length, min};
ghost use Rattle.pungi_code.specs.Run.{code_at};
ghost use Rattle.pungi_symbol.specs.Promises.{lines_of};

use pungi_code::{Code, Codes, Line};

/// The elements from a place on.
pub fn rest<T>(items: &[T], from: usize) -> &[T]
    ensures { result.now ≡ drop from items.now }
{
    if from < items.len() {
        &items[from..]
    } else {
        &[]
    }
}

/// The first so many elements, or all where there are fewer.
pub fn front<T>(items: &[T], n: usize) -> &[T]
    ensures { result.now ≡ take n items.now }
{
    if n < items.len() { &items[..n] } else { items }
}

/// The code of a function, if it has one.
pub fn code_of(codes: &Codes, f: usize) -> Option<&Code>
    ensures { option_map (λ c. c.now) result ≡ code_at codes.now f }
{
    if f < codes.codes.len() {
        codes.codes.as_slice()[f].as_ref()
    } else {
        None
    }
}

/// The instructions of a function. A function with no code has none.
pub fn lines(codes: &Codes, f: usize) -> &[Line]
    ensures { result.now ≡ lines_of codes.now f }
{
    match code_of(codes, f) {
        Some(code) => code.instrs.as_slice(),
        None => &[],
    }
}
