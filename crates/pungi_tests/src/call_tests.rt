//! Functions that call others of their file, and their codes.

use crate::lower_tests::{Ending, ending_of, entry};
use crate::source::{codes_of, functions_of};
use pungi_base::Memory;
use pungi_code::{Codes, code_run};
use pungi_meaning::run;
use pungi_resolved::Function;
use std::alloc::Global;
use std::test::Fail;

/// How a run of the last function of a list from a number ends.
fn ending_of_last(alloc: Global, functions: &[Option<Function>], n: i64) -> Result<Ending, Memory> {
    match functions.last() {
        Some(Some(f)) => {
            let entry = entry(alloc, n)?;
            let outcome = run(alloc, functions, f, &entry, &[], 1000)?;
            Ok(ending_of(&outcome))
        }
        _ => Ok(Ending::Else),
    }
}

/// How a run of the last code of a file from a number ends.
fn ending_of_last_code(alloc: Global, codes: &Codes, n: i64) -> Result<Ending, Memory> {
    let last = codes.codes.len().saturating_sub(1);
    let entry = entry(alloc, n)?;
    let outcome = code_run(alloc, codes, last, &entry, &[], 1000)?;
    Ok(ending_of(&outcome))
}

fn ending_of_text(alloc: Global, text: &str, n: i64) -> Result<Ending, Fail> {
    let functions = functions_of(alloc, text)?;
    Ok(ending_of_last(alloc, functions.as_slice(), n)?)
}

fn ending_of_text_code(alloc: Global, text: &str, n: i64) -> Result<Ending, Fail> {
    let codes = codes_of(alloc, text)?;
    Ok(ending_of_last_code(alloc, &codes, n)?)
}

const EVEN_AND_ODD: &str = concat!(
    "int odd(int n); int even(int n) { if (n == 0) return 1; return odd(n - 1); } ",
    "int odd(int n) { if (n == 0) return 0; return even(n - 1); }",
);

const GUARDED: &str = "int g(int a) { return 1 / a; } int f(int n) { return n > 2 && g(n - 3); }";

/// Texts, the number that their last function is entered with, and how its run and that of its code end, worked out by
/// hand from C11 6.5.2.2, 6.8.6.4 and 6.9.1.
const RUNS: &[(&str, i64, Ending)] = &[
    // A value that is used twice.
    (
        "int g(int a) { return a + 1; } int f(int n) { return g(n) * g(n + 2); }",
        3,
        Ending::Returns(24, 47),
    ),
    // A function that calls itself.
    (
        "int f(int n) { if (n < 2) return 1; return n * f(n - 1); }",
        5,
        Ending::Returns(120, 37),
    ),
    // Two that call each other.
    (EVEN_AND_ODD, 7, Ending::Returns(1, 117)),
    (EVEN_AND_ODD, 6, Ending::Returns(0, 117)),
    // Locals of its own.
    (
        "int g(int a) { int s = 7; a = a + s; return a; } int f(int n) { int s = 1; int r = g(n); return s + r + n; }",
        2,
        Ending::Returns(12, 90),
    ),
    // Operands from left to right.
    (
        "int g(int a) { return a * 10; } int f(int n) { int i = n; return g(i++) + i; }",
        4,
        Ending::Returns(45, 59),
    ),
    // Values that wait while a call is made.
    (
        "int g(int a) { return a - 1; } int f(int n) { return n * 100 + (n + g(g(n)) * 2); }",
        4,
        Ending::Returns(408, 47),
    ),
    // A conversion at the call, and one at the return.
    (
        "long g(long a) { return a + a; } int f(int n) { return g(n) + 1; }",
        8,
        Ending::Returns(17, 49),
    ),
    // A loop in it.
    (
        concat!(
            "int sum(int k) { int s = 0; while (k) { s = s + k; k = k - 1; } return s; } ",
            "int f(int n) { return sum(n) + sum(n + 1); }",
        ),
        3,
        Ending::Returns(16, 92),
    ),
    // A value that is not used.
    (
        "int g(int a) { return a; } int f(int n) { g(n + 1); return n; }",
        9,
        Ending::Returns(9, 53),
    ),
    // A call that is passed over.
    (GUARDED, 2, Ending::Returns(0, 47)),
    (GUARDED, 4, Ending::Returns(1, 47)),
    // A void function.
    (
        "void g(int a) { if (a) return; } int f(int n) { g(n); g(0); return n; }",
        1,
        Ending::Returns(1, 61),
    ),
    // A function that stops.
    (GUARDED, 3, Ending::Else),
    // One that falls off its end.
    (
        "int g(int a) { if (a) return 1; } int f(int n) { return g(n); }",
        0,
        Ending::Else,
    ),
    // A call without an end.
    ("int f(int n) { return f(n); }", 1, Ending::Spent),
];

#[test]
fn functions_that_call_others_and_their_codes_run_alike(rt: HostRuntime) -> Result<(), Fail> {
    for (text, n, ending) in RUNS {
        assert!(rt;
            ending_of_text(rt.alloc(), text, *n)? == *ending,
            "{text} from {n}"
        );
        assert!(rt;
            ending_of_text_code(rt.alloc(), text, *n)? == *ending,
            "{text} from {n}"
        );
    }
    Ok(())
}
