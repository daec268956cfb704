//! Trials. The kinds of their functions come by turns. Of five in a row the first is clean and the second leaks. The
//! third owes nothing after each turn of its loop, so it is clean. The fourth is unknown: its two loops have as many
//! turns, but no equation says so. The fifth calls through a field (rule 3).

use crate::tests::{judged, words};
use pungi_base::Memory;
use pungi_in_memory::SureSink;
use std::alloc::Global;
use std::test::Fail;

const TRIALS: &[(&str, u8, &str)] = &[
    ("1", 0, "trial 1 clean 1 faulty 0 unknown 0 refused 0\n"),
    ("10", 1, "trial 10 clean 4 faulty 2 unknown 2 refused 2\n"),
    (
        "1000",
        1,
        "trial 1000 clean 400 faulty 200 unknown 200 refused 200\n",
    ),
    (
        "2000",
        1,
        "trial 2000 clean 800 faulty 400 unknown 400 refused 400\n",
    ),
];

fn is_told(alloc: Global, number: &str, status: u8, line: &str) -> Result<bool, Memory> {
    let words = words(alloc, &["pungi", "--trial", number])?;
    let out = SureSink::new(alloc, 128)?;
    let (found, out) = judged(alloc, &words, Vec::new(alloc), out);
    Ok(found == status && out.bytes() == line.as_bytes())
}

#[test]
fn trials(rt: HostRuntime) -> Result<(), Fail> {
    for (number, status, line) in TRIALS {
        assert!(rt; is_told(rt.alloc(), number, *status, line)?, "at {number}");
    }
    Ok(())
}
