//! The sizes of functions: how many locals and nodes each may have, and how many instructions of one with a loop are
//! followed.

use crate::tests::is_told;
use pungi_base::Memory;
use std::alloc::Global;
use std::test::Fail;

/// A function with this many statements in front of a last one, after these declarations.
fn long_function(
    alloc: Global,
    declared: &str,
    statements: usize,
    last: &str,
) -> Result<String, Memory> {
    let mut text = String::from_str(alloc, "int f(int n) { ")?;
    text.push_str(declared)?;
    for _ in 0..statements {
        text.push_str("n = 1; ")?;
    }
    text.push_str(last)?;
    text.push_str(" }")?;
    Ok(text)
}

const SOME: &str = "int a, b, c, d, e, g, h, i, j, k, l, m, o, p, q, r; ";

const MOST: &str =
    "int a, b, c, d, e, g, h, i, j, k, l, m, o, p, q, r; { int a, b, c, d, e, g, h, i, j, k, l, m, o, p, q; } ";

const OVER: &str =
    "int a, b, c, d, e, g, h, i, j, k, l, m, o, p, q, r; { int a, b, c, d, e, g, h, i, j, k, l, m, o, p, q, r; } ";

/// The statements after `b` are done once more for each of the labels in front of it.
const FIVE_TIMES: &str = "int k = 0; goto b; l1: goto b; l2: goto b; l3: goto b; l4: goto b; b: ";

const BACK_FOUR: &str =
    "k++; if (k == 1) goto l1; if (k == 2) goto l2; if (k == 3) goto l3; if (k == 4) goto l4; return n;";

const SIX_TIMES: &str =
    "int k = 0; goto b; l1: goto b; l2: goto b; l3: goto b; l4: goto b; l5: goto b; b: ";

const BACK_FIVE: &str =
    "k++; if (k == 1) goto l1; if (k == 2) goto l2; if (k == 3) goto l3; if (k == 4) goto l4; if (k == 5) goto l5; return n;";

/// The sizes of a function: at most 32 locals with its parameters, and at most 4,096 nodes. A statement here has four;
/// a declared variable is one. A statement takes three instructions. Where there is a loop, 16,384 instructions are
/// followed, so a thousand statements are done five times, but not to the end of the sixth. With `k` known to be 0, known
/// to be 1 and not known they stand at more than 8,192 places, so that no equations are looked for.
const SIZES: &[(&str, usize, &str, u8, &str)] = &[
    (SOME, 0, "return n;", 0, "clean f\n"),
    (MOST, 0, "return n;", 0, "clean f\n"),
    (OVER, 0, "return n;", 2, "refused f 1:5 N15\n"),
    (OVER, 0, "return n & 1;", 2, "refused f 1:133 N2\n"),
    (SOME, 1000, "return n;", 0, "clean f\n"),
    ("", 1023, "return n;", 0, "clean f\n"),
    ("int a; ", 1023, "return n;", 2, "refused f 1:5 N16\n"),
    (SOME, 1100, "return n;", 2, "refused f 1:5 N16\n"),
    (FIVE_TIMES, 1000, BACK_FOUR, 0, "clean f\n"),
    (SIX_TIMES, 1000, BACK_FIVE, 2, "unknown f shapes\n"),
    (OVER, 1100, "return n;", 2, "refused f 1:5 N15\n"),
    ("", 1100, "return n & 1;", 2, "refused f 1:7725 N2\n"),
];

#[test]
fn sizes(rt: HostRuntime) -> Result<(), Fail> {
    for (declared, statements, last, status, line) in SIZES {
        let text = long_function(rt.alloc(), declared, *statements, last)?;
        assert!(rt;
            is_told(rt.alloc(), &text, *status, line)?,
            "{statements} statements, {line}"
        );
    }
    Ok(())
}
