//! The answer on a file that is read, over the API of the manual or that of a configuration.
ghost use Rattle.std.specs.Prelude.{◌≡◌, ◌⊎◌, ◌≤◌, ◌<◌, ◌^◌, ◌∷◌, [], ◌++◌, ℕ, List, length, map, IfOk, OnOk, OnErr};
ghost use Rattle.std.specs.Prelude.{IsTrue};
ghost use Rattle.std.specs.Prelude.{None, Some};
ghost use Rattle.pungi_api.specs.Rows.{are_new, are_plain_rows, named_row};
ghost use Rattle.pungi_base.specs.Words.{BeginWithWords};
ghost use Rattle.pungi_config.specs.Limits.{config_limit};
ghost use Rattle.pungi.specs.Answer.{Answers, IsOpened, asked_file};
ghost use Rattle.pungi.specs.Api.{Api, IsConfigured, IsWrong, builtin_api, wrong_text};
ghost use Rattle.pungi.specs.Examine.{IsReport};
ghost use Rattle.pungi.specs.File.{IsFileAnswer, IsConfigAnswer, IsGiven};
ghost use Rattle.pungi.specs.Front.{IsRefusedAs};
ghost use Rattle.pungi.specs.Limits.{file_limit};
ghost use Rattle.pungi.specs.Shelves.{stand_of};
ghost use Rattle.pungi.specs.Status.{some_open, file_refused, memory_wanted};

use crate::answer::{Answer, message};
use crate::config::{config_answer, wrong_answer};
use crate::examine::examine;
use crate::limits::FILE_LIMIT;
use crate::lines::report_answer;
use crate::load::{Loaded, load};
use crate::refusal::refusal_answer;
use crate::status::FILE_REFUSED;
use pungi_api::{FileTerms, Row, Table};
use pungi_base::{Memory, Name, Names};
use pungi_config::{CONFIG_LIMIT, limits_are_those_stated, rows};
use pungi_io::Shelf;
use std::alloc::Global;

/// The answer to a text within the limit: the report on its functions, or why it is refused.
fn answer_to(
    alloc: Global,
    names: &mut Names,
    rows: &Table,
    terms: &FileTerms,
    text: &[u8],
) -> Result<Answer, Memory>
    requires limit { length text.now ≤ file_limit }
    requires words { BeginWithWords names.old }
    requires room { length names.old < 2 ^ 31 }
    ensures { IfOk result (λ a. ((a.status ≤ some_open)
        × IsReport (record { names = names.old; rows = rows.now; terms = terms.now }) text.now a.status a.text.items)
        ⊎ ((a.status ≡ file_refused)
        × IsRefusedAs (record { names = names.old; rows = rows.now; terms = terms.now }) text.now a.text.items)) }
{
    match examine(alloc, names, rows, terms, text) {
        Ok(lines) => report_answer(alloc, names, &lines),
        Err(fault) => refusal_answer(alloc, &fault),
    }
}

/// The answer on the file of a name, over what is known of the API.
fn answer_on<F: Shelf>(
    alloc: Global,
    shelf: &mut F,
    names: &mut Names,
    rows: &Table,
    terms: &FileTerms,
    file: &str,
) -> Result<Answer, Memory>
    requires words { BeginWithWords names.old }
    requires room { length names.old < 2 ^ 31 }
    ensures answer { IfOk result (λ a. let at = stand_of F.texts F.opened F.names_opened F.faults in
        IsFileAnswer (record { names = names.old; rows = rows.now; terms = terms.now }) file.now (at shelf.old)
        (at shelf.new) a.status a.text.items) }
    ensures names_opened { OnOk result (F.names_opened shelf.new ≡ F.names_opened shelf.old ++ file.now ∷ []) }
    ensures memory { OnErr result (IsGiven (F.names_opened shelf.old) file.now (F.names_opened shelf.new)) }
    ensures steady { OnErr result (F.faults shelf.new ≡ F.faults shelf.old) }
    ensures texts { F.texts shelf.new ≡ F.texts shelf.old }
{
    match load(alloc, shelf, file, FILE_LIMIT)? {
        Loaded::Text(text) => answer_to(alloc, names, rows, terms, &text),
        Loaded::Long => message(alloc, FILE_REFUSED, "file refused over 1048576 bytes"),
        Loaded::Unread(answer) => Ok(answer),
    }
}

/// The answer on the file of a name, over the API of the manual.
pub(crate) fn plain<F: Shelf>(alloc: Global, shelf: &mut F, file: &str) -> Result<Answer, Memory>
    ensures answer { IfOk result (λ a. let at = stand_of F.texts F.opened F.names_opened F.faults in
        Answers (at shelf.old) (at shelf.new) (asked_file file.now None) a.status a.text.items) }
    ensures asked { IfOk result (λ a. IsOpened (asked_file file.now None) a.status (F.names_opened shelf.old)
        (F.names_opened shelf.new)) }
    ensures unasked { OnErr result (IsOpened (asked_file file.now None) memory_wanted (F.names_opened shelf.old)
        (F.names_opened shelf.new)) }
    ensures steady { OnErr result (F.faults shelf.new ≡ F.faults shelf.old) }
    ensures texts { F.texts shelf.new ≡ F.texts shelf.old }
{
    let table = Table::builtin(alloc)?;
    let mut names = Names::builtin(alloc)?;
    let terms = FileTerms::manual(alloc);
    answer_on(alloc, shelf, &mut names, &table, &terms, file)
}

/// The answer on the file of a name under these terms, where these rows stand after those of a table.
fn with_rows<F: Shelf>(
    alloc: Global,
    shelf: &mut F,
    names: &mut Names,
    table: Table,
    more: Vec<(Name, Row)>,
    terms: &FileTerms,
    file: &str,
) -> Result<Answer, Memory>
    requires words { BeginWithWords names.old }
    requires room { length names.old < 2 ^ 31 }
    requires new { IsTrue (are_new table (map named_row more.items)) }
    requires rows { IsTrue (are_plain_rows (map named_row more.items)) }
    ensures answer { IfOk result (λ a. let at = stand_of F.texts F.opened F.names_opened F.faults in
        IsFileAnswer (record { names = names.old; rows = table ++ map named_row more.items; terms = terms.now })
        file.now (at shelf.old) (at shelf.new) a.status a.text.items) }
    ensures names_opened { OnOk result (F.names_opened shelf.new ≡ F.names_opened shelf.old ++ file.now ∷ []) }
    ensures memory { OnErr result (IsGiven (F.names_opened shelf.old) file.now (F.names_opened shelf.new)) }
    ensures steady { OnErr result (F.faults shelf.new ≡ F.faults shelf.old) }
    ensures texts { F.texts shelf.new ≡ F.texts shelf.old }
{
    let table = table.with(more)?;
    answer_on(alloc, shelf, names, &table, terms, file)
}

/// The answer on the file of a name, over the API of a configuration with this text.
fn with_config<F: Shelf>(
    alloc: Global,
    shelf: &mut F,
    text: &[u8],
    file: &str,
) -> Result<Answer, Memory>
    ensures answer { IfOk result (λ a. let at = stand_of F.texts F.opened F.names_opened F.faults in
        IsConfigAnswer text.now file.now (at shelf.old) (at shelf.new) a.status a.text.items) }
    ensures memory { OnErr result (IsGiven (F.names_opened shelf.old) file.now (F.names_opened shelf.new)) }
    ensures steady { OnErr result (F.faults shelf.new ≡ F.faults shelf.old) }
    ensures texts { F.texts shelf.new ≡ F.texts shelf.old }
{
    let table = Table::builtin(alloc)?;
    let mut names = Names::builtin(alloc)?;
    match rows(alloc, &mut names, &table, text) {
        Ok(config) => with_rows(
            alloc,
            shelf,
            &mut names,
            table,
            config.rows,
            &config.terms,
            file,
        ),
        Err(fault) => config_answer(alloc, &fault),
    }
}

/// The answer on the file of a name, over the API of the configuration of a name.
pub(crate) fn configured<F: Shelf>(
    alloc: Global,
    shelf: &mut F,
    config: &str,
    file: &str,
) -> Result<Answer, Memory>
    ensures answer { IfOk result (λ a. let at = stand_of F.texts F.opened F.names_opened F.faults in
        Answers (at shelf.old) (at shelf.new) (asked_file file.now (Some config.now)) a.status a.text.items) }
    ensures asked { IfOk result (λ a. IsOpened (asked_file file.now (Some config.now)) a.status (F.names_opened shelf.old)
        (F.names_opened shelf.new)) }
    ensures unasked { OnErr result (IsOpened (asked_file file.now (Some config.now)) memory_wanted
        (F.names_opened shelf.old) (F.names_opened shelf.new)) }
    ensures steady { OnErr result (F.faults shelf.new ≡ F.faults shelf.old) }
    ensures texts { F.texts shelf.new ≡ F.texts shelf.old }
{
    limits_are_those_stated();
    match load(alloc, shelf, config, CONFIG_LIMIT)? {
        Loaded::Text(text) => with_config(alloc, shelf, &text, file),
        Loaded::Long => wrong_answer(alloc, "over 65536 bytes"),
        Loaded::Unread(answer) => Ok(answer),
    }
}
