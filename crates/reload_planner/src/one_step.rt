//! Where a step may start any number of workers there is one step.
ghost use Rattle.reload_planner.specs.OneStep.{NoStepsIsOneStep};

/// With 0 new workers in a step there is one step: all new workers start, and all old ones are left for it.
pub fn no_steps_are_one_step()
    ensures { NoStepsIsOneStep }
{}
