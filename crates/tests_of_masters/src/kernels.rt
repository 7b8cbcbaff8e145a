//! Calls on a modelled kernel that a program makes no plan for, and what its table has afterwards.
use kernel_model::{BootRefusal, Kernel, Moment, ReserveRefusal, Row};
use listener_set::{Address, DescriptorSet, FilePath, Generation, Numbers};
use std::alloc::Global;
use std::test::Fail;
use vocabulary::{Actor, Answer, Call, Fate, Limits, Name, Settings, Stance};

const FIRST: Generation = Generation {
    image: 1,
    config: 1,
};

const NEXT: Generation = Generation {
    image: 1,
    config: 2,
};

const BY: Actor = Actor(1);

const SECOND: Actor = Actor(2);

const QUIET: Moment<'static> = Moment {
    exits: &[],
    fate: None,
};

fn failing(fate: Fate) -> Moment<'static> {
    Moment {
        exits: &[],
        fate: Some(fate),
    }
}

/// Makes a call that is handed this text, if there is room for it.
fn ask_with(
    kernel: &mut Kernel,
    by: Actor,
    call: &Call,
    text: &[u8],
    moment: &Moment<'_>,
) -> Option<Answer> {
    if kernel.room() == 0 {
        return None;
    }
    Some(kernel.call(by, call, text, moment))
}

/// Whether the first master's call is answered so at that moment.
fn is_answered(kernel: &mut Kernel, call: &Call, moment: &Moment<'_>, answer: Answer) -> bool {
    ask_with(kernel, BY, call, &[], moment) == Some(answer)
}

/// Whether the first master's calls are answered so, one after another.
fn are_answered(kernel: &mut Kernel, calls: &[(Call, Answer)]) -> bool {
    for (call, answer) in calls {
        if !is_answered(kernel, call, &QUIET, *answer) {
            return false;
        }
    }
    true
}

/// Whether the second master's call, which is handed this text, is answered so.
fn is_second_answered(kernel: &mut Kernel, call: &Call, text: &[u8], answer: Answer) -> bool {
    ask_with(kernel, SECOND, call, text, &QUIET) == Some(answer)
}

/// The address with this text.
fn address(text: &[u8]) -> Result<Address, Fail> {
    Ok(Address::read(text)?)
}

/// An address that no master has at first.
fn other() -> Result<Address, Fail> {
    address(b"127.0.0.1:9090")
}

/// The path with this text.
fn file_path(text: &[u8]) -> Result<FilePath, Fail> {
    Ok(FilePath::read(text)?)
}

/// The path of the pid file.
fn path() -> Result<FilePath, Fail> {
    file_path(b"/run/app.pid")
}

/// A kernel with the listener 0.0.0.0:8080 and a pid file.
fn started(alloc: Global, workers: u32, processes: u32) -> Result<Kernel, Fail> {
    let limits = Limits {
        processes,
        descriptors: 2,
    };
    let path = path()?;
    if 100 < path.bytes().len() {
        return Err(Fail::from("the path has no room for a suffix"));
    }
    let settings = Settings {
        pid: Some(path),
        ..Settings::plain()
    };
    Ok(Kernel::boot(alloc, &settings, workers, limits)?)
}

/// The same with room for that many calls, and for as many processes as there can be.
fn roomy(alloc: Global, workers: u32, calls: u32) -> Result<Kernel, Fail> {
    let mut kernel = started(alloc, workers, 65_535)?;
    kernel.reserve(calls)?;
    Ok(kernel)
}

fn worker(number: u32, generation: Generation, nr: u32, stance: Stance) -> Option<Row> {
    Some(Row::Worker {
        number,
        parent: 100,
        generation,
        nr,
        stance,
    })
}

/// Whether the hold at the place is of that process, descriptor and socket.
fn is_hold(kernel: &Kernel, place: usize, process: u32, descriptor: u32, socket: u32) -> bool {
    match kernel.hold(place) {
        Some(hold) => (hold.process, hold.descriptor, hold.socket) == (process, descriptor, socket),
        None => false,
    }
}

/// Whether the file at the place has that path and is the first master's.
fn is_file(kernel: &Kernel, place: usize, path: &[u8]) -> bool {
    match kernel.file(place) {
        Some(file) => file.path.bytes() == path && file.owner == 100,
        None => false,
    }
}

#[test]
fn a_start_has_the_rows_of_a_master_and_of_ready_workers(rt: HostRuntime) -> Result<(), Fail> {
    let kernel = started(rt.alloc(), 2, 3)?;
    let master = Row::Master {
        number: 100,
        parent: 1,
        image: 1,
        live: true,
    };
    let rows = [
        Some(master),
        worker(101, FIRST, 0, Stance::Ready),
        worker(102, FIRST, 1, Stance::Ready),
        None,
    ];
    for (place, row) in rows.iter().enumerate() {
        assert!(rt; kernel.row(place) == *row, "row {place}");
    }
    Ok(())
}

/// Whether a start with that many workers is refused for its limits.
fn is_start_refused(alloc: Global, workers: u32, processes: u32, descriptors: u32) -> bool {
    let limits = Limits {
        processes,
        descriptors,
    };
    let refused = Kernel::boot(alloc, &Settings::plain(), workers, limits);
    matches!(&refused, Err(BootRefusal::BadLimits))
}

#[test]
fn limits_are_refused(rt: HostRuntime) {
    for (workers, processes, descriptors) in [
        (2, 2, 64),
        (2, 3, 0),
        (0, 65_536, 64),
        (0, 1, 65),
        (1025, 65_535, 64),
    ] {
        assert!(rt;
            is_start_refused(rt.alloc(), workers, processes, descriptors),
            "{workers} workers"
        );
    }
}

#[test]
fn the_room_is_the_most_that_was_reserved(rt: HostRuntime) -> Result<(), Fail> {
    let mut kernel = started(rt.alloc(), 2, 3)?;
    assert!(rt; kernel.reserve(4_294_967_295) == Err(ReserveRefusal::NoNumbers));
    assert!(rt; kernel.reserve(8).is_ok());
    assert!(rt; kernel.reserve(4).is_ok());
    assert!(rt; kernel.room() == 8);
    Ok(())
}

#[test]
fn no_more_processes_start_than_the_limit(rt: HostRuntime) -> Result<(), Fail> {
    let mut kernel = started(rt.alloc(), 2, 3)?;
    kernel.reserve(4)?;
    let calls = [
        (Call::Fork(FIRST, 2, None), Answer::Again),
        (Call::Kill(FIRST, 1), Answer::Fine),
        (Call::Fork(FIRST, 0, None), Answer::Again),
        (Call::Fork(FIRST, 1, None), Answer::Forked),
    ];
    assert!(rt; are_answered(&mut kernel, &calls));
    assert!(rt; kernel.room() == 0);
    assert!(rt; kernel.row(2) == worker(103, FIRST, 1, Stance::Starting));
    Ok(())
}

/// Whether addresses are opened as long as a descriptor is free, and by the lowest one.
fn are_opened(kernel: &mut Kernel) -> Result<bool, Fail> {
    let plain = Address::plain();
    let third = address(b"/run/app")?;
    let calls = [
        (Call::OpenAt(plain), Answer::InUse),
        (Call::OpenAt(other()?), Answer::Opened(4)),
        (Call::OpenAt(third), Answer::TooMany),
        (Call::CloseAt(plain), Answer::Fine),
        (Call::OpenAt(plain), Answer::Opened(3)),
    ];
    Ok(are_answered(kernel, &calls))
}

#[test]
fn a_socket_gets_the_lowest_free_descriptor(rt: HostRuntime) -> Result<(), Fail> {
    let mut kernel = roomy(rt.alloc(), 1, 5)?;
    assert!(rt; are_opened(&mut kernel)?);
    assert!(rt; is_hold(&kernel, 0, 100, 3, 3));
    assert!(rt; is_hold(&kernel, 1, 100, 4, 2));
    assert!(rt; kernel.hold(2).is_none(), "the worker's hold is closed");
    Ok(())
}

/// Whether the master opens another address, and forks a worker that gets it alone.
fn is_forked_with_the_other(kernel: &mut Kernel) -> Result<bool, Fail> {
    let mut shared = DescriptorSet::none();
    shared.add(4);
    shared.add(66);
    let calls = [
        (Call::OpenAt(other()?), Answer::Opened(4)),
        (Call::Fork(FIRST, 0, Some(shared)), Answer::Forked),
    ];
    Ok(are_answered(kernel, &calls))
}

/// A kernel with room for three calls, whose master has two addresses, and whose worker the second of them.
fn sharing_one(alloc: Global) -> Result<Kernel, Fail> {
    let mut kernel = roomy(alloc, 0, 5)?;
    if !is_forked_with_the_other(&mut kernel)? {
        return Err(Fail::from("the worker is not forked"));
    }
    Ok(kernel)
}

#[test]
fn a_worker_that_is_forked_with_a_set_holds_what_it_shares(rt: HostRuntime) -> Result<(), Fail> {
    let kernel = sharing_one(rt.alloc())?;
    assert!(rt; is_hold(&kernel, 0, 100, 3, 1));
    assert!(rt; is_hold(&kernel, 1, 100, 4, 2));
    assert!(rt; is_hold(&kernel, 2, 101, 4, 2));
    assert!(rt;
        kernel.hold(3).is_none(),
        "the other socket is the master's alone"
    );
    Ok(())
}

/// Whether the first of two workers is ready, whatever the wait's fate, and the second is asked to quit.
fn is_one_quitting(kernel: &mut Kernel) -> bool {
    let awaited = Call::AwaitReady(FIRST, 0);
    is_answered(kernel, &awaited, &failing(Fate::Late), Answer::IsReady)
        && are_answered(kernel, &[(Call::Quit(FIRST, 1), Answer::Fine)])
}

/// Whether the first of them is gone once both have exited.
fn is_one_gone(kernel: &mut Kernel) -> bool {
    let leaving = Moment {
        exits: &[
            Name::Draining(FIRST, 1),
            Name::Worker(FIRST, 0),
            Name::Worker(NEXT, 0),
        ],
        fate: None,
    };
    is_answered(kernel, &Call::AwaitReady(FIRST, 0), &leaving, Answer::Gone)
}

#[test]
fn a_worker_that_exits_is_gone_once_it_is_awaited_or_counted(rt: HostRuntime) -> Result<(), Fail> {
    let mut kernel = roomy(rt.alloc(), 2, 4)?;
    assert!(rt; is_one_quitting(&mut kernel) && is_one_gone(&mut kernel));
    assert!(rt; kernel.row(1) == worker(102, FIRST, 1, Stance::Exited));
    let counted = [(Call::Census(NEXT), Answer::Counted(Numbers::none()))];
    assert!(rt; are_answered(&mut kernel, &counted));
    assert!(rt; kernel.row(1).is_none());
    Ok(())
}

/// What a new master is told by the one that `started` gives.
const HANDED: &[u8] =
    b"handover 1\nold-pid 100\ngeneration 2 1\nlistener 3 0.0.0.0:8080\nwant 0.0.0.0:8080\nworkers 1\nend\n";

/// Whether the second master is alive once it is spawned from its image, and not before.
fn is_second_found(kernel: &mut Kernel) -> bool {
    let spawn = Call::SpawnMaster(2);
    let calls = [
        (Call::Alive(2), Answer::Gone),
        (spawn, Answer::Spawned),
        (Call::Alive(2), Answer::IsAlive),
    ];
    is_answered(kernel, &spawn, &failing(Fate::NoImage), Answer::NoImage)
        && are_answered(kernel, &calls)
}

#[test]
fn a_second_master_is_started_found_and_adopts_its_own_handover(
    rt: HostRuntime,
) -> Result<(), Fail> {
    let mut kernel = roomy(rt.alloc(), 1, 7)?;
    assert!(rt; is_second_answered(&mut kernel, &Call::Leave, &[], Answer::MasterGone));
    assert!(rt; is_second_found(&mut kernel));
    assert!(rt; kernel.master(2) == Some(102));
    assert!(rt; is_second_answered(&mut kernel, &Call::Adopt, &[], Answer::Refused));
    assert!(rt; kernel.room() == 1);
    assert!(rt; is_second_answered(&mut kernel, &Call::Adopt, HANDED, Answer::Adopted));
    Ok(())
}

#[test]
fn a_master_is_gone_once_it_is_ended_or_leaves(rt: HostRuntime) -> Result<(), Fail> {
    let mut kernel = roomy(rt.alloc(), 1, 3)?;
    assert!(rt; are_answered(&mut kernel, &[(Call::SpawnMaster(2), Answer::Spawned)]));
    assert!(rt; is_second_answered(&mut kernel, &Call::TermMaster(1), &[], Answer::Fine));
    assert!(rt; kernel.master(1).is_none());
    assert!(rt; kernel.row(1).is_none());
    assert!(rt; is_second_answered(&mut kernel, &Call::Leave, &[], Answer::Fine));
    assert!(rt; kernel.row(0).is_none());
    Ok(())
}

/// The path that it is moved to.
fn beside() -> Result<FilePath, Fail> {
    file_path(b"/run/app.pid.oldbin")
}

/// Whether the file that is there is moved, and no other.
fn is_moved(kernel: &mut Kernel) -> Result<bool, Fail> {
    let path = path()?;
    let beside = beside()?;
    let calls = [
        (Call::MovePid(beside, path), Answer::IoFault),
        (Call::MovePid(path, beside), Answer::Fine),
    ];
    Ok(are_answered(kernel, &calls))
}

#[test]
fn a_pid_file_is_moved(rt: HostRuntime) -> Result<(), Fail> {
    let mut kernel = roomy(rt.alloc(), 0, 4)?;
    assert!(rt; is_moved(&mut kernel)?);
    assert!(rt; is_file(&kernel, 0, b"/run/app.pid.oldbin"));
    Ok(())
}
