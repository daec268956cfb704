ghost use Rattle.std.specs.Prelude.{◌≡◌, ◌≢◌, ℕ, ◌≤◌, ◌<◌, ◌++◌, List, None, length, map, string_bytes, IfOk, OnErr};
ghost use Rattle.pungi_io.specs.OpenedText.{Opened};
ghost use Rattle.pungi_io.specs.Shelf.{Rose};
ghost use Rattle.pungi_config.specs.Command.{asked_of};
ghost use Rattle.pungi_tree.specs.Syntax.{Item};
ghost use Rattle.pungi_verdict.specs.Sound.{IsSound};
ghost use Rattle.pungi.specs.Answer.{Answers, IsOpened, IsReported, IsReportFor};
ghost use Rattle.pungi.specs.Api.{Api};
ghost use Rattle.pungi.specs.Causes.{IsApiText, IsConfigText, IsFileText, IsRefusedConfig, IsRefusedText};
ghost use Rattle.pungi.specs.Front.{IsFile};
ghost use Rattle.pungi.specs.Limits.{file_limit};
ghost use Rattle.pungi.specs.Shelves.{stand_of};
ghost use Rattle.pungi.specs.Status.{words_refused, file_unread, answer_cut, file_refused, config_refused};
ghost use Rattle.pungi.specs.Status.{memory_wanted};

use crate::answer::{Answer, message};
use crate::file::{configured, plain};
use crate::status::{ANSWER_CUT, MEMORY_WANTED, WORDS_REFUSED};
use crate::trial::trial;
use crate::write::write_all;
use pungi_base::Memory;
use pungi_config::{Settings, WordsFault, settings};
use pungi_io::{Shelf, Sink};
use std::alloc::Global;

/// What the program returns.
fn decide<F: Shelf>(alloc: Global, words: &[String], shelf: &mut F) -> Result<Answer, Memory>
    ensures answer { IfOk result (λ a. let at = stand_of F.texts F.opened F.names_opened F.faults in
        Answers (at shelf.old) (at shelf.new) (asked_of (map string_bytes words.now)) a.status a.text.items) }
    ensures asked { IfOk result (λ a. IsOpened (asked_of (map string_bytes words.now)) a.status (F.names_opened shelf.old)
        (F.names_opened shelf.new)) }
    ensures unasked { OnErr result (IsOpened (asked_of (map string_bytes words.now)) memory_wanted
        (F.names_opened shelf.old) (F.names_opened shelf.new)) }
    ensures steady { OnErr result (F.faults shelf.new ≡ F.faults shelf.old) }
    ensures texts { F.texts shelf.new ≡ F.texts shelf.old }
{
    match settings(alloc, words) {
        Ok(Settings::File { file, config }) => match &config {
            None => plain(alloc, shelf, file.as_str()),
            Some(config) => configured(alloc, shelf, config.as_str(), file.as_str()),
        },
        Ok(Settings::Trial(n)) => trial(alloc, n),
        Err(WordsFault::Words) => message(
            alloc,
            WORDS_REFUSED,
            "usage: pungi [--config FILE] FILE.c, or pungi --trial N",
        ),
        Err(WordsFault::Memory) => Err(Memory),
    }
}

/// Judges the functions of the file that the words name, and writes the report; or those of a trial, and writes how
/// many have which verdict. `words[0]` is the program's name. It returns the status with which the program ends (see
/// `status`).
///
/// The claim: where the report calls a function clean, then in every run of the subset's meaning on the file's own
/// text, for any arguments, API results and failures, the count of every object that is counted has at each return
/// changed by exactly the references that escaped. Where it calls one faulty, the printed run is a run of that meaning
/// that returns, and the printed object is the lowest counted one whose change there differs from its escapes. What
/// API calls do is what their rows say: those of the manual, and those of the configuration. Which objects are counted,
/// and which references a function takes over or lends, is what the configuration states.
pub fn pungi<F: Shelf, O: Sink>(alloc: Global, words: &[String], shelf: &mut F, out: &mut O) -> u8
    // Safety: of a function that the report calls clean or faulty it is true.
    ensures sound { IsReported result → let at = stand_of F.texts F.opened F.names_opened F.faults in
        (text : List ℕ)
        × IsReportFor IsSound (at shelf.old) (at shelf.new) (asked_of (map string_bytes words.now)) result text
        × (O.bytes_written out.new ≡ O.bytes_written out.old ++ text) }

    // The status has its cause, and the text that goes with it was written whole.
    ensures answer { result ≢ answer_cut → result ≢ memory_wanted →
        let at = stand_of F.texts F.opened F.names_opened F.faults in
        (text : List ℕ) × Answers (at shelf.old) (at shelf.new) (asked_of (map string_bytes words.now)) result text
        × (O.bytes_written out.new ≡ O.bytes_written out.old ++ text) }

    // A write failed: the sink's count rose, and a front of the text was taken.
    ensures cut { result ≡ answer_cut → Rose (O.faults out.old) (O.faults out.new)
        × (let at = stand_of F.texts F.opened F.names_opened F.faults in
        (status : ℕ) × (front : List ℕ) × (rest : List ℕ)
        × Answers (at shelf.old) (at shelf.new) (asked_of (map string_bytes words.now)) status (front ++ rest)
        × (0 < length rest) × (O.bytes_written out.new ≡ O.bytes_written out.old ++ front)) }

    // No write failed otherwise.
    ensures uncut { result ≢ answer_cut → O.faults out.new ≡ O.faults out.old }

    // For want of memory nothing was written, and no call on the shelf failed.
    ensures memory { result ≡ memory_wanted → (O.bytes_written out.new ≡ O.bytes_written out.old)
        × (F.faults shelf.new ≡ F.faults shelf.old) }

    // No file was opened but those that the words name, in their order, each once.
    ensures asked { IsOpened (asked_of (map string_bytes words.now)) result (F.names_opened shelf.old) (F.names_opened shelf.new) }

    // Where a cause holds, its status comes, unless a call failed or memory ran out. The texts are those that the shelf
    // shows, or else those that its reads gave of what was opened.
    ensures words { asked_of (map string_bytes words.now) ≡ None → result ≢ answer_cut → result ≢ memory_wanted
        → result ≡ words_refused }
    ensures config { (opened : List Opened) → F.opened shelf.new ≡ F.opened shelf.old ++ opened → (text : List ℕ)
        → IsConfigText (asked_of (map string_bytes words.now)) (F.texts shelf.old) opened text → IsRefusedConfig text
        → result ≢ file_unread → result ≢ answer_cut → result ≢ memory_wanted → result ≡ config_refused }
    ensures file { (opened : List Opened) → F.opened shelf.new ≡ F.opened shelf.old ++ opened → (api : Api)
        → IsApiText (asked_of (map string_bytes words.now)) (F.texts shelf.old) opened api → (text : List ℕ)
        → IsFileText (asked_of (map string_bytes words.now)) (F.texts shelf.old) opened text → IsRefusedText api text
        → result ≢ file_unread → result ≢ answer_cut → result ≢ memory_wanted → result ≡ file_refused }
    ensures judged { (opened : List Opened) → F.opened shelf.new ≡ F.opened shelf.old ++ opened → (api : Api)
        → IsApiText (asked_of (map string_bytes words.now)) (F.texts shelf.old) opened api → (text : List ℕ)
        → IsFileText (asked_of (map string_bytes words.now)) (F.texts shelf.old) opened text
        → length text ≤ file_limit → (names : List (List ℕ)) → (items : List Item) → IsFile api text names items
        → result ≢ file_unread → result ≢ answer_cut → result ≢ memory_wanted → IsReported result }

    ensures texts { F.texts shelf.new ≡ F.texts shelf.old }
{
    match decide(alloc, words, shelf) {
        Err(Memory) => MEMORY_WANTED,
        Ok(answer) => match write_all(out, &answer.text) {
            Ok(()) => answer.status,
            Err(_) => ANSWER_CUT,
        },
    }
}
