// What codes are that call no function of their file.
ghost use Rattle.pungi_code.specs.Alone.{RunsAlone, StandsAlone};

use crate::{Code, Codes};

/// The law of runs: a code that calls no function of the file runs among any codes as it runs alone.
pub fn runs_alone(codes: &Codes, code: &Code)
    ensures { RunsAlone codes.now.codes code.now.instrs }
{}

/// The law of well-formed codes: in a file of such, a function that calls none of the file is well-formed alone.
pub fn stands_alone(codes: &Codes, f: usize)
    ensures { StandsAlone codes.now f }
{}
