//! Judges the functions of one C file of a Python extension module.
#![tactic(auto)]

mod answer;
mod config;
mod examine;
mod file;
mod file_fault;
mod folder_shelf;
mod front;
mod limits;
mod lines;
mod load;
mod out_sink;
mod read;
mod refusal;
mod status;
mod top;
mod trial;
mod write;

use crate::folder_shelf::FolderShelf;
use crate::out_sink::OutSink;
use crate::status::MEMORY_WANTED;
pub use crate::top::pungi;
use pungi_base::Memory;
use std::env;
use std::io::ErrorKind;
use std::process::ExitCode;

#[cfg(test)]
mod call_tests;
#[cfg(test)]
mod config_tests;
#[cfg(test)]
mod format_tests;
#[cfg(test)]
mod made_tests;
#[cfg(test)]
mod number_tests;
#[cfg(test)]
mod recursion_tests;
#[cfg(test)]
mod row_tests;
#[cfg(test)]
mod rule_tests;
#[cfg(test)]
mod size_tests;
#[cfg(test)]
mod terms_tests;
#[cfg(test)]
mod test_modules;
#[cfg(test)]
mod tests;
#[cfg(test)]
mod trial_tests;
#[cfg(test)]
mod verdict_tests;
#[cfg(test)]
mod whole_tests;

/// The words of the command: an empty list where the system refuses them for another cause than memory.
fn words_of(rt: &HostRuntime) -> Result<Vec<String>, Memory> {
    match env::args(rt) {
        Ok(words) => Ok(words.collect(rt.alloc())?),
        Err(error) => {
            if error.kind() == ErrorKind::OutOfMemory {
                Err(Memory)
            } else {
                Ok(Vec::new(rt.alloc()))
            }
        }
    }
}

fn main(rt: HostRuntime) -> ExitCode {
    let words = match words_of(&rt) {
        Ok(words) => words,
        Err(Memory) => return ExitCode::from(MEMORY_WANTED),
    };
    let mut shelf = FolderShelf::new(&rt);
    let mut out = OutSink::new(rt.stdout());
    ExitCode::from(pungi(rt.alloc(), &words, &mut shelf, &mut out))
}
