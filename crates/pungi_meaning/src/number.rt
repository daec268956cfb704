ghost use Rattle.std.specs.Prelude.{◌≡◌};
ghost use Rattle.pungi_meaning.specs.Values.{fits, wide, arithmetic, in_range};

use crate::Op;
use pungi_types::ValueKind;

/// Whether a number is in the range of an integer kind: `int` has 32 bits, `long` and `Py_ssize_t` have 64
/// (C11 5.2.4.2.1, 6.3.1.3).
pub fn fits(kind: ValueKind, number: i64) -> bool
    ensures { result ≡ fits kind number }
{
    match kind {
        ValueKind::Int => i32::MIN as i64 <= number && number <= i32::MAX as i64,
        _ => true,
    }
}

/// The kind in which a value of this kind and an `int` are counted (C11 6.3.1.8).
pub fn wide(kind: ValueKind) -> ValueKind
    ensures { result ≡ wide kind }
{
    match kind {
        ValueKind::Int => ValueKind::Int,
        _ => ValueKind::Long,
    }
}

fn in_range(kind: ValueKind, number: i64) -> Option<i64>
    ensures { result ≡ in_range kind number }
{
    if fits(kind, number) {
        Some(number)
    } else {
        None
    }
}

/// What an operator gives in a kind. There is no result past the kind's range, and none of a division by 0
/// (C11 6.5, 6.5.5). `/` cuts towards 0. `%` of the least number by -1, which C11 leaves undefined, is 0 here.
pub fn arithmetic(op: Op, kind: ValueKind, left: i64, right: i64) -> Option<i64>
    ensures { result ≡ arithmetic op kind left right }
{
    match op {
        Op::Add => in_range(kind, left.checked_add(right)?),
        Op::Sub => in_range(kind, left.checked_sub(right)?),
        Op::Mul => in_range(kind, left.checked_mul(right)?),
        Op::Div => in_range(kind, left.checked_div(right)?),
        Op::Rem => {
            if right == -1 {
                Some(0)
            } else {
                in_range(kind, left.checked_rem(right)?)
            }
        }
    }
}
