//! What each call of a master can be answered and can change, over the definitions alone. The
//! function has an empty body: its contract is the law.
#![tactic(auto)]

ghost use Rattle.call_laws.specs.Aside.{CallsLeaveAlone};

/// Apart from the exits before it, a call by which a master builds or mends changes no process,
/// hold or file of another master or of its workers.
pub fn calls_leave_others_alone()
    ensures { CallsLeaveAlone }
{}
