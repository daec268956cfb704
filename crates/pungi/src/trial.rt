ghost use Rattle.std.specs.Prelude.{◌≡◌, ◌⊎◌, ◌≤◌, length, IfOk};
ghost use Rattle.pungi_trial.specs.Text.{trial_text};
ghost use Rattle.pungi_verdict.specs.Verdicts.{IsJudged};
ghost use Rattle.pungi.specs.Answer.{IsTextRefusal};
ghost use Rattle.pungi.specs.Api.{builtin_api};
ghost use Rattle.pungi.specs.Examine.{IsTrialOf};
ghost use Rattle.pungi.specs.Limits.{file_limit};
ghost use Rattle.pungi.specs.Status.{some_open, file_refused};

use crate::answer::{Answer, message};
use crate::examine::examine;
use crate::limits::FILE_LIMIT;
use crate::lines::trial_answer;
use crate::refusal::refusal_answer;
use crate::status::FILE_REFUSED;
use pungi_api::{FileTerms, Table};
use pungi_base::{Memory, Names};
use pungi_trial::trial_text;
use std::alloc::Global;

/// The answer on the text of a trial of so many functions.
pub(crate) fn trial(alloc: Global, n: u32) -> Result<Answer, Memory>
    ensures { IfOk result (λ a. ((a.status ≤ some_open) × (length (trial_text n) ≤ file_limit)
        × IsTrialOf IsJudged n a.status a.text.items)
        ⊎ ((a.status ≡ file_refused) × IsTextRefusal builtin_api (trial_text n) a.text.items)) }
{
    let text = trial_text(alloc, n)?;
    if text.len() > FILE_LIMIT {
        return message(alloc, FILE_REFUSED, "file refused over 1048576 bytes");
    }
    let rows = Table::builtin(alloc)?;
    let mut names = Names::builtin(alloc)?;
    let terms = FileTerms::manual(alloc);
    match examine(alloc, &mut names, &rows, &terms, &text) {
        Ok(lines) => trial_answer(alloc, n, &lines),
        Err(fault) => refusal_answer(alloc, &fault),
    }
}
