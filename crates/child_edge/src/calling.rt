//! Calls, made by the edge itself or passed on.
ghost use Rattle.std.specs.Prelude.{◌≡◌, ◌≤◌, ◌<◌, ◌-◌, ◌+◌, IsTrue, vec_len, vec_capacity};
ghost use Rattle.call_replies.specs.Replies.{is_listed};
ghost use Rattle.child_edge.specs.State.{state_of};
ghost use Rattle.child_edge.specs.Table.{answers, adopted_or_refused, turn_of};
ghost use Rattle.child_edge.specs.Turns.{GoesOn};

use crate::state::EdgeState;
use crate::{files, listening, masters, passing, starting, workers};
use child_family::Family;
use vocabulary::{Actor, Answer, Call};

fn adopt(adopted: bool) -> Answer
    ensures { result ≡ adopted_or_refused adopted }
{
    if adopted {
        Answer::Adopted
    } else {
        Answer::Refused
    }
}

/// Makes a call: of the edge's own image, or by its child master.
pub(crate) fn make<F: Family>(
    family: &mut F,
    state: &mut EdgeState,
    by: Actor,
    call: &Call,
) -> Answer
    requires { vec_len state.old.workers < vec_capacity state.old.workers }
    ensures turn { GoesOn (F.told family.old) (F.told family.new) (turn_of (state_of state.old) by call.now) (answers (state_of state.new) result) }
    ensures listed { IsTrue (is_listed call.now result) }
    ensures spare { vec_capacity state.old.workers - vec_len state.old.workers ≤ (vec_capacity state.new.workers - vec_len state.new.workers) + 1 }
{
    if by.0 != state.image {
        return passing::pass(family, state, by, call);
    }
    if state.left {
        return Answer::MasterGone;
    }
    match call {
        Call::OpenAt(address) => listening::open(state, address),
        Call::CloseAt(address) => listening::close(family, state, address),
        Call::Fork(generation, nr, descriptors) => {
            starting::fork(family, state, *generation, *nr, *descriptors)
        }
        Call::AwaitReady(generation, nr) => starting::await_ready(family, state, *generation, *nr),
        Call::Quit(generation, nr) => workers::quit(family, state, *generation, *nr),
        Call::Kill(generation, nr) => workers::kill(family, state, *generation, *nr),
        Call::Census(generation) => workers::census(family, state, *generation),
        Call::AwaitGone(generation, nr) => workers::await_gone(family, state, *generation, *nr),
        Call::SpawnMaster(image) => masters::spawn(family, state, *image),
        Call::Adopt => adopt(state.adopted),
        Call::WritePid(path) => files::write_pid(family, state, path),
        Call::MovePid(from, to) => files::move_pid(family, state, from, to),
        Call::RemovePid(path) => files::remove_pid(family, state, path),
        Call::Alive(image) => masters::alive(family, state, *image),
        Call::Leave => workers::leave(family, state),
        Call::Usr1(generation, nr) => workers::usr1(family, state, *generation, *nr),
        Call::TermMaster(image) => masters::terminate(family, state, *image),
        Call::Ask(_) => Answer::Back,
    }
}
