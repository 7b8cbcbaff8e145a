//! How the runs of targets end.
ghost use Rattle.vocabulary.specs.Settings.{IsInRange};
ghost use Rattle.service_state.specs.Targets.{IsTarget};
ghost use Rattle.plan_executor.specs.Enacted.{EndsSo};
ghost use Rattle.plan_executor.specs.Range.{HasRange};

use vocabulary::{Settings, Target};

/// Whatever fails and whoever exits but an executing master, and whatever turns two masters take, the run of a target that
/// can be carried out ends as it reports, keeps what it has to, and is a merge of what each master does. Nothing is done
/// for it.
pub fn ends_as_reported(target: &Target)
    requires { IsTarget target.now }
    ensures { EndsSo target.now }
{
    read_settings(target);
    theorems::plans_end_as_reported();
    theorems::parts_are_walked();
}

/// A target's settings are in range, which only a reading of them tells.
fn read_settings(target: &Target)
    ensures { HasRange target.now }
{
    match target {
        Target::Reload(settings) => {
            let _workers = workers_of(settings);
        }
        Target::Upgrade(settings) | Target::Attended(settings) => {
            let _workers = workers_of(settings);
        }
        _ => (),
    }
}

fn workers_of(settings: &Settings) -> u32
    ensures { IsInRange settings.now }
{
    settings.workers
}
