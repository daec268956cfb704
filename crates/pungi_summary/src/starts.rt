ghost use Rattle.std.specs.Prelude.{◌≡◌, is_none, length, map, IfOk};
ghost use Rattle.pungi_summary.specs.Outcomes.{is_large, is_unsafe};

use crate::outcome::Outcome;
use pungi_base::Memory;
use pungi_domain::AffineProgram;
use std::alloc::Global;

/// Which functions have no program.
pub(crate) fn without_program(
    alloc: Global,
    programs: &[Option<AffineProgram>],
) -> Result<Vec<bool>, Memory>
    ensures { IfOk result (λ v. v.items ≡ map is_none programs.now) }
{
    let mut starts = Vec::new(alloc);
    for program in programs {
        starts.push(program.is_none())?;
    }
    Ok(starts)
}

/// In which functions a step was large.
pub(crate) fn with_large_step(alloc: Global, outcomes: &[Outcome]) -> Result<Vec<bool>, Memory>
    ensures { IfOk result (λ v. v.items ≡ map is_large outcomes.now) }
{
    let mut starts = Vec::new(alloc);
    for outcome in outcomes {
        starts.push(outcome.is_large())?;
    }
    Ok(starts)
}

/// In which functions a duty of an edge to a place fails.
pub(crate) fn with_failing_duty(alloc: Global, outcomes: &[Outcome]) -> Result<Vec<bool>, Memory>
    ensures { IfOk result (λ v. v.items ≡ map is_unsafe outcomes.now) }
{
    let mut starts = Vec::new(alloc);
    for outcome in outcomes {
        starts.push(outcome.is_unsafe())?;
    }
    Ok(starts)
}
