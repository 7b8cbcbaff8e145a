//! What a master knows of itself after plans.
ghost use Rattle.std.specs.Prelude.{◌≤◌};

use listener_set::{Address, FilePath, Generation, ListenerSet, Numbers};
use service_state::{Listeners, Record};
use std::test::Fail;
use vocabulary::{Listener, Outcome, PidNote, Report, Settings, Target};
use worker_groups::{Group, Groups};

/// The settings with one group of so many workers.
pub(crate) fn with_workers(settings: &Settings, workers: u32) -> Settings
    requires { workers ≤ 1024 }
{
    Settings {
        workers,
        groups: Groups::one(settings.listeners.len() as u32, workers),
        ..*settings
    }
}

/// The settings with two groups of one worker each, the second of which has the last address.
pub(crate) fn in_two_groups(settings: &Settings) -> Result<Settings, Fail> {
    let addresses = settings.listeners.len() as u32;
    if addresses < 2 {
        return Err(Fail::from("two groups have two addresses"));
    }
    let mut groups = Groups::one(addresses - 1, 1);
    groups.add(Group {
        addresses: 1,
        workers: 1,
    })?;
    Ok(Settings {
        workers: 2,
        groups,
        ..*settings
    })
}

/// The addresses as a configuration lists them.
fn listeners_of(addresses: &[&str]) -> Result<ListenerSet, Fail> {
    let mut listeners = ListenerSet::new();
    for address in addresses {
        listeners.add(&Address::read(address.as_bytes())?)?;
    }
    Ok(listeners)
}

/// Plain settings that listen at these addresses, where there are any.
fn listening_at(listeners: ListenerSet) -> Settings {
    let mut settings = Settings::plain();
    if listeners.len() >= 1 {
        settings.groups = Groups::one(listeners.len() as u32, 1);
        settings.listeners = listeners;
    }
    settings
}

/// Plain settings with these addresses, where there are any, and a pid file.
pub(crate) fn settings_of(addresses: &[&str]) -> Result<Settings, Fail> {
    let mut settings = listening_at(listeners_of(addresses)?);
    settings.pid = Some(FilePath::read(b"/run/a.pid")?);
    Ok(settings)
}

/// The settings with these addresses, a pid file, two workers, and values of their own for the rest.
fn settings(addresses: &[&str]) -> Result<Settings, Fail> {
    let mut settings = with_workers(&settings_of(addresses)?, 2);
    settings.retries = 5;
    settings.timeout = 7;
    Ok(settings)
}

/// A running master with that many workers.
fn running(addresses: &[&str]) -> Result<Record, Fail> {
    Ok(Record::start(&settings(addresses)?, 2, &Numbers::below(2), 100))
}

/// What is heard where a target was reached and two workers are ready.
fn reached() -> Report {
    Report {
        outcome: Outcome::Done,
        cause: None,
        note: PidNote::AtOldbin,
        ready: Numbers::below(2),
    }
}

/// Whether a listener stands where a row of a table says.
fn stands_at(listener: &Listener, (descriptor, address): &(u32, &str)) -> bool {
    listener.descriptor == *descriptor && listener.address.bytes() == address.as_bytes()
}

/// Descriptors and addresses, as a table shows them.
fn is_listening(listeners: &Listeners, expected: &[(u32, &str)]) -> bool {
    let listeners = listeners.as_slice();
    if listeners.len() != expected.len() {
        return false;
    }
    for (listener, row) in listeners.iter().zip(expected) {
        if !stands_at(listener, row) {
            return false;
        }
    }
    true
}

/// What a master knows after a target was reached, as a process of this number.
fn known_after(record: &Record, target: &Target, pid: u32) -> Result<Record, Fail> {
    Ok(record.after(target, &reached(), pid).ok_or("no record")?)
}

/// What a master knows after a reload to settings with these addresses.
fn reloaded(record: &Record, addresses: &[&str]) -> Result<Record, Fail> {
    known_after(record, &Target::Reload(settings(addresses)?), 100)
}

/// The numbers of a master's image and configuration.
fn generation_of(record: &Record) -> (u32, u32) {
    (record.generation.image, record.generation.config)
}

#[test]
fn a_reload_opens_first_and_closes_at_its_end(rt: HostRuntime) -> Result<(), Fail> {
    let first = reloaded(&running(&["0.0.0.0:8080"])?, &["0.0.0.0:9090"])?;
    assert!(rt; is_listening(&first.listeners, &[(4, "0.0.0.0:9090")]));
    assert_eq!(rt; generation_of(&first), (1, 2));
    let second = reloaded(&first, &["0.0.0.0:7070", "0.0.0.0:9090", "0.0.0.0:6060"])?;
    let expected = [
        (3, "0.0.0.0:7070"),
        (4, "0.0.0.0:9090"),
        (5, "0.0.0.0:6060"),
    ];
    assert!(rt; is_listening(&second.listeners, &expected));
    assert_eq!(rt; second.generation.config, 3);
    Ok(())
}

/// What a master knows as process 102 after an upgrade to other addresses.
fn upgraded() -> Result<Record, Fail> {
    let start = running(&["0.0.0.0:8080", "0.0.0.0:7070"])?;
    let target = Target::Upgrade(settings(&["0.0.0.0:9090", "0.0.0.0:7070"])?);
    known_after(&start, &target, 102)
}

#[test]
fn an_upgrade_closes_first_and_then_opens(rt: HostRuntime) -> Result<(), Fail> {
    let record = upgraded()?;
    let expected = [(3, "0.0.0.0:9090"), (4, "0.0.0.0:7070")];
    assert!(rt; is_listening(&record.listeners, &expected));
    Ok(())
}
