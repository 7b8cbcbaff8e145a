//! What many runs leave, one after another, and what a start on the leftovers of a dead master comes to. Each function
//! has an empty body: its contract is the theorem.
#![tactic(auto)]

ghost use Rattle.lives.specs.Deaths.{DeathsAreSurvived, KeepersCanBeLent, LivesOutliveMasters, LivesWithDeaths};
ghost use Rattle.lives.specs.Lives.{LivesKeepTheirPromise, StartsStand};
ghost use Rattle.lives.specs.WorkedLives.{WorkedLives};

/// From every running state, as each start is one, whatever tasks are carried out one after another and whatever fails in
/// each: the record stays true, what all services name stays open, one quiet tick heals, and what is
/// lacking is accounted for.
pub fn lives_keep_their_promise()
    ensures lives { LivesKeepTheirPromise }
    ensures starts { StartsStand }
{}

/// Whatever a run has come to, also where the executing master exits: where somebody else keeps the
/// sockets, a master that is started then takes them, and one quiet tick brings the service in full.
pub fn deaths_are_survived()
    ensures all { DeathsAreSurvived }
    ensures lent { KeepersCanBeLent }
    ensures lives { LivesOutliveMasters }
    ensures deaths { LivesWithDeaths }
{}

/// A life and a death on a small table, task by task.
pub fn worked_lives_hold()
    ensures { WorkedLives }
{}
