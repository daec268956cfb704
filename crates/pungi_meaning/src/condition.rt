ghost use Rattle.std.specs.Prelude.{◌≡◌};
ghost use Rattle.pungi_meaning.specs.Values.{is_true, truth};

use pungi_base::Value;

/// Whether a condition holds: a number that isn't 0, or a pointer that isn't `NULL` (C11 6.8.4.1).
pub fn is_true(value: Value) -> bool
    ensures { result ≡ is_true value }
{
    match value {
        Value::Int(n) => n != 0,
        Value::Null => false,
        Value::Object(_) | Value::Text => true,
    }
}

/// The `int` that says whether something holds (C11 6.5.8, 6.5.9, 6.5.13).
pub fn truth(holds: bool) -> Value
    ensures { result ≡ truth holds }
{
    if holds { Value::Int(1) } else { Value::Int(0) }
}
