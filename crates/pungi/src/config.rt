ghost use Rattle.std.specs.Prelude.{◌≡◌, ◌++◌, IfOk, List, ℕ, Some};
ghost use Rattle.pungi.specs.Api.{fault_reason, wrong_text};
ghost use Rattle.pungi.specs.Status.{config_refused};

use crate::answer::Answer;
use crate::status::CONFIG_REFUSED;
use pungi_base::Memory;
use pungi_config::ConfigFault;
use std::alloc::Global;

/// That a configuration is refused for this reason.
pub(crate) fn wrong_answer(alloc: Global, reason: &str) -> Result<Answer, Memory>
    ensures { IfOk result (λ a. (a.status ≡ config_refused) × (a.text.items ≡ wrong_text reason.now)) }
{
    let mut text = Vec::from_slice(alloc, b"configuration refused: ")?;
    text.extend_from_slice(reason.as_bytes())?;
    text.push(b'\n')?;
    Ok(Answer {
        status: CONFIG_REFUSED,
        text,
    })
}

/// That a configuration is refused, and why.
pub(crate) fn config_answer(alloc: Global, fault: &ConfigFault) -> Result<Answer, Memory>
    ensures { IfOk result (λ a. (a.status ≡ config_refused) × ((reason : List ℕ)
        × (fault_reason fault.now ≡ Some reason) × (a.text.items ≡ wrong_text reason))) }
{
    match fault {
        ConfigFault::Text => wrong_answer(alloc, "not TOML"),
        ConfigFault::Shape(key) => wrong_answer(alloc, key.as_str()),
        ConfigFault::Memory => Err(Memory),
    }
}
