//! What is so of a reload in one step: it waits for no old worker, so all of them stay if it comes back. Each function has an
//! empty body: its contract is the theorem.
#![tactic(auto)]

ghost use Rattle.reload_theorems.specs.OneStep.{ReloadsInOneStepLeaveAll, ReloadsInOneStepWaitForNobody};

/// A reload in one step waits for no worker to be gone, whatever fails and from any table.
pub fn reloads_in_one_step_wait_for_nobody()
    ensures { ReloadsInOneStepWaitForNobody }
{}

/// A reload in one step that ends on the old side leaves each worker that was ready at first, but for those that exited by
/// themselves.
pub fn reloads_in_one_step_leave_all()
    ensures { ReloadsInOneStepLeaveAll }
{}
