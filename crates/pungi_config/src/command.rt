//! The words of a call.
ghost use Rattle.std.specs.Prelude.{◌≡◌, IfOk, IfSome, None, Some, map, option_map, string_bytes};
ghost use Rattle.clap.specs.Words.{app_of};
ghost use Rattle.pungi_config.specs.Command.{command, trial_of, Answers, AnswersAsked, IsFaultOf, asked};

use crate::limits::TRIAL_LIMIT;
use crate::{Settings, WordsFault};
use clap::error::ErrorKind;
use clap::{Arg, Command};
use std::alloc::{AllocError, Global};

/// The command, as `clap` has it.
fn described<'a>(alloc: Global) -> Result<Command<'a>, AllocError>
    ensures { IfOk result (λ c. app_of c ≡ command) }
{
    let config = Arg::new(alloc, "config").long("config");
    let trial = Arg::new(alloc, "trial").long("trial");
    let file = Arg::new(alloc, "file");
    let described = Command::new(alloc, "pungi")
        .arg(config)?
        .arg(trial)?
        .arg(file)?;
    Ok(described)
}

/// The number of a trial, if these digits write one.
fn trial_number(text: &[u8]) -> Option<u32>
    ensures { result ≡ trial_of text.now }
{
    if text.is_empty() || text.len() > 4 || text[0] == b'0' {
        return None;
    }
    let mut number = 0u32;
    for digit in text {
        if !(b'0' <= *digit && *digit <= b'9') {
            return None;
        }
        number = 10 * number + u32::from(*digit - b'0');
    }
    if number <= TRIAL_LIMIT {
        Some(number)
    } else {
        None
    }
}

fn owned(alloc: Global, text: &str) -> Option<String>
    ensures { IfSome result (λ s. string_bytes s ≡ text.now) }
{
    match String::from_str(alloc, text) {
        Ok(text) => Some(text),
        Err(_) => None,
    }
}

fn with_file(alloc: Global, file: &str, config: Option<&str>) -> Result<Settings, WordsFault>
    ensures { AnswersAsked (asked (Some file.now) None (option_map (λ s. s.now) config.entry)) result }
{
    let Some(file) = owned(alloc, file) else {
        return Err(WordsFault::Memory);
    };
    match config {
        None => Ok(Settings::File { file, config: None }),
        Some(config) => match owned(alloc, config) {
            Some(config) => Ok(Settings::File {
                file,
                config: Some(config),
            }),
            None => Err(WordsFault::Memory),
        },
    }
}

/// The settings where these are given.
fn asked(
    alloc: Global,
    file: Option<&str>,
    trial: Option<&str>,
    config: Option<&str>,
) -> Result<Settings, WordsFault>
    ensures { AnswersAsked (asked (option_map (λ s. s.now) file.entry) (option_map (λ s. s.now) trial.entry)
        (option_map (λ s. s.now) config.entry)) result }
{
    match file {
        Some(file) => match trial {
            Some(_) => Err(WordsFault::Words),
            None => with_file(alloc, file, config),
        },
        None => match trial {
            None => Err(WordsFault::Words),
            Some(trial) => match config {
                Some(_) => Err(WordsFault::Words),
                None => match trial_number(trial.as_bytes()) {
                    Some(number) => Ok(Settings::Trial(number)),
                    None => Err(WordsFault::Words),
                },
            },
        },
    }
}

fn fault(kind: ErrorKind) -> WordsFault
    ensures { IsFaultOf kind result }
{
    match kind {
        ErrorKind::OutOfMemory => WordsFault::Memory,
        _ => WordsFault::Words,
    }
}

/// What the words of a call ask for, the name of the program first: `pungi [--config FILE] FILE.c`, or
/// `pungi --trial N`.
pub fn settings<'a>(alloc: Global, words: &'a [String]) -> Result<Settings, WordsFault>
    ensures { Answers (map (λ s. string_bytes s) words.now) result }
{
    let command: Command<'a> = match described(alloc) {
        Ok(command) => command,
        Err(_) => return Err(WordsFault::Memory),
    };
    match command.try_get_matches_from(words) {
        Ok(matches) => asked(
            alloc,
            matches.get_str("file"),
            matches.get_str("trial"),
            matches.get_str("config"),
        ),
        Err(error) => Err(fault(error.kind())),
    }
}
