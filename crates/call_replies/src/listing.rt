//! Which replies a call can have.
ghost use Rattle.std.specs.Prelude.{◌≡◌, ◌++◌, ◌∷◌, []};
ghost use Rattle.vocabulary.specs.declared.calls.Reply.TheVariants.{MasterGone};
ghost use Rattle.call_laws.specs.Pieces as pieces;
ghost use Rattle.definitions.specs.Plans as plans;
ghost use Rattle.definitions.specs.Run as tree;
ghost use Rattle.call_replies.specs.Replies.{order_replies};

use vocabulary::{Call, Order, Reply};

const OPENING: [Reply; 6] = [
    Reply::Opened,
    Reply::InUse,
    Reply::TooMany,
    Reply::Denied,
    Reply::NoMemory,
    Reply::MasterGone,
];

const FORKING: [Reply; 4] = [
    Reply::Forked,
    Reply::Again,
    Reply::NoMemory,
    Reply::MasterGone,
];

const AWAITING: [Reply; 4] = [Reply::IsReady, Reply::Gone, Reply::Late, Reply::MasterGone];

const DONE: [Reply; 2] = [Reply::Fine, Reply::MasterGone];

const COUNTING: [Reply; 3] = [Reply::Full, Reply::Short, Reply::MasterGone];

const ENDING: [Reply; 3] = [Reply::Gone, Reply::Late, Reply::MasterGone];

const SPAWNING: [Reply; 5] = [
    Reply::Spawned,
    Reply::Again,
    Reply::NoMemory,
    Reply::NoImage,
    Reply::MasterGone,
];

const ADOPTING: [Reply; 3] = [Reply::Adopted, Reply::Refused, Reply::MasterGone];

const FILING: [Reply; 3] = [Reply::Fine, Reply::IoFault, Reply::MasterGone];

const ASKING: [Reply; 3] = [Reply::Go, Reply::Back, Reply::MasterGone];

const LIVING: [Reply; 3] = [Reply::IsAlive, Reply::Gone, Reply::MasterGone];

/// The replies to a call, the plain one first and that the master is gone last.
pub fn replies_to(call: &Call) -> &'static [Reply]
    ensures { result.now ≡ pieces.replies_to call.now ++ MasterGone ∷ [] }
{
    match call {
        Call::OpenAt(_) => &OPENING,
        Call::Fork(..) => &FORKING,
        Call::AwaitReady(..) => &AWAITING,
        Call::Census(_) => &COUNTING,
        Call::AwaitGone(..) => &ENDING,
        Call::SpawnMaster(_) => &SPAWNING,
        Call::Adopt => &ADOPTING,
        Call::WritePid(_) | Call::MovePid(..) | Call::RemovePid(_) => &FILING,
        Call::Alive(_) => &LIVING,
        Call::Ask(_) => &ASKING,
        Call::CloseAt(_)
        | Call::Quit(..)
        | Call::Kill(..)
        | Call::Leave
        | Call::Usr1(..)
        | Call::TermMaster(_) => &DONE,
    }
}

/// The replies to what a step asks for, the plain one first and that the master is gone last.
pub fn replies_of(order: &Order) -> &'static [Reply]
    ensures { result.now ≡ order_replies order.now ++ MasterGone ∷ [] }
{
    match order {
        Order::Make(call) => replies_to(call),
        Order::ForkLacking(_) => &FORKING,
        Order::AwaitLacking(_) => &AWAITING,
        Order::KillLacking(_) => &DONE,
    }
}

/// The reply that counts as no fault; of a census, that it is full.
pub fn plain_reply(call: &Call) -> Reply
    ensures { result ≡ tree.plain_reply call.now }
{
    replies_to(call)[0]
}

/// The plain reply to a call, alone.
pub fn plain_replies(call: &Call) -> &'static [Reply]
    ensures { result.now ≡ tree.plain_reply call.now ∷ [] }
{
    &replies_to(call)[..1]
}

/// The other replies to a call, and last that the master is gone.
pub fn other_replies(call: &Call) -> &'static [Reply]
    ensures { result.now ≡ plans.failed_replies call.now ++ MasterGone ∷ [] }
{
    &replies_to(call)[1..]
}

/// The other replies to a call, while its master lives.
pub fn failed_replies(call: &Call) -> &'static [Reply]
    ensures { result.now ≡ plans.failed_replies call.now }
{
    let others = other_replies(call);
    &others[..others.len() - 1]
}

/// All replies to a call, while its master lives.
pub fn all_replies(call: &Call) -> &'static [Reply]
    ensures { result.now ≡ pieces.replies_to call.now }
{
    let replies = replies_to(call);
    &replies[..replies.len() - 1]
}
