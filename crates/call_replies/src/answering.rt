//! What an edge tells apart of an answer.
ghost use Rattle.std.specs.Prelude.{◌≡◌};
ghost use Rattle.call_laws.specs.Pieces as pieces;
ghost use Rattle.definitions.specs.Run as tree;

use listener_set::Numbers;
use vocabulary::{Answer, Reply};

/// The reply that an answer is to a step whose census must contain the set.
pub fn reply_to(answer: &Answer, set: &Numbers) -> Reply
    ensures { result ≡ tree.reply_of set.now answer.now }
{
    match answer {
        Answer::Opened(_) => Reply::Opened,
        Answer::InUse => Reply::InUse,
        Answer::TooMany => Reply::TooMany,
        Answer::Denied => Reply::Denied,
        Answer::NoMemory => Reply::NoMemory,
        Answer::Fine => Reply::Fine,
        Answer::Forked => Reply::Forked,
        Answer::Again => Reply::Again,
        Answer::IsReady => Reply::IsReady,
        Answer::Gone => Reply::Gone,
        Answer::Late => Reply::Late,
        Answer::Counted(counted) => full_or_short(&set.minus(counted)),
        Answer::Spawned => Reply::Spawned,
        Answer::NoImage => Reply::NoImage,
        Answer::Adopted => Reply::Adopted,
        Answer::Refused => Reply::Refused,
        Answer::IoFault => Reply::IoFault,
        Answer::IsAlive => Reply::IsAlive,
        Answer::Go => Reply::Go,
        Answer::Back => Reply::Back,
        Answer::MasterGone => Reply::MasterGone,
    }
}

/// A census that lacks nothing of its set is full.
fn full_or_short(lacking: &Numbers) -> Reply
    ensures { result ≡ pieces.full_or_short lacking.now }
{
    match lacking.lowest() {
        None => Reply::Full,
        Some(_) => Reply::Short,
    }
}
