//! Who takes over, and whose the record is that a run leaves.
ghost use Rattle.std.specs.Prelude.{◌≡◌};
ghost use Rattle.definitions.specs.After.{next_record};
ghost use Rattle.definitions.specs.Claims.{heirs_of};
ghost use Rattle.plan_executor.specs.Naming.{listed};
ghost use Rattle.plan_executor.specs.Refusals.{HasPlan};

use kernel_model::Kernel;
use service_state::{Record, next_image};
use vocabulary::{Report, Target};

/// The image of the master that takes over: the new one of an upgrade.
pub fn heir_of(state: &Record, target: &Target) -> Option<u32>
    requires { HasPlan state.now target.now }
    ensures { listed result ≡ heirs_of state.now target.now }
{
    match target {
        Target::Upgrade(_) | Target::Attended(_) => next_image(state.generation).map(
            |generation| generation.image,
        ),
        _ => None,
    }
}

/// The record that a report leaves to the master that reigns then: it has that master's process number.
pub fn record_left(
    state: &Record,
    target: &Target,
    report: &Report,
    kernel: &Kernel,
) -> Option<Record>
    ensures { result ≡ next_record state.now target.now report.now kernel.now.table }
{
    let image = state.image_after(target, &report.outcome)?;
    let pid = kernel.master(image)?;
    state.after(target, report, pid)
}
