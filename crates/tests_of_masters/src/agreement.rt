//! Records that are true of a kernel, and such as are not.
ghost use Rattle.std.specs.Prelude.{◌≤◌};

use kernel_model::{Kernel, WIDEST_LIMITS};
use listener_set::{Address, FilePath, Numbers};
use plan_executor::agrees;
use service_state::Record;
use std::alloc::Global;
use std::test::Fail;
use vocabulary::Settings;
use worker_groups::Groups;

/// Settings with two listeners and a pid file.
fn with_a_file() -> Result<Settings, Fail> {
    let mut settings = Settings::plain();
    settings.groups = Groups::one(2, 1);
    settings.listeners.add(&Address::read(b"0.0.0.0:9090")?)?;
    settings.pid = Some(FilePath::read(b"/run/a.pid")?);
    Ok(settings)
}

/// What a master of these settings knows whose process number is 100, and of which two workers are ready.
fn known(settings: &Settings) -> Record {
    Record::start(settings, 2, &Numbers::below(2), 100)
}

/// Whether a record agrees with the kernel of such a master.
fn is_true_of(alloc: Global, record: &Record, settings: &Settings) -> Result<bool, Fail> {
    let kernel = Kernel::boot(alloc, settings, 2, WIDEST_LIMITS)?;
    Ok(agrees(record, &kernel))
}

#[test]
fn a_record_agrees_with_a_kernel_that_was_started_so(rt: HostRuntime) -> Result<(), Fail> {
    let settings = with_a_file()?;
    assert!(rt; is_true_of(rt.alloc(), &known(&settings), &settings)?);
    Ok(())
}

#[test]
fn a_record_of_other_workers_or_another_process_disagrees(rt: HostRuntime) -> Result<(), Fail> {
    let settings = with_a_file()?;
    let fewer = Record::start(&settings, 2, &Numbers::below(1), 100);
    assert!(rt; !is_true_of(rt.alloc(), &fewer, &settings)?);
    let other = Record::start(&settings, 2, &Numbers::below(2), 101);
    assert!(rt; !is_true_of(rt.alloc(), &other, &settings)?);
    Ok(())
}

#[test]
fn a_record_of_other_settings_disagrees(rt: HostRuntime) -> Result<(), Fail> {
    let settings = with_a_file()?;
    let plain = known(&Settings::plain());
    assert!(rt; !is_true_of(rt.alloc(), &plain, &settings)?);
    let fileless = Settings {
        pid: None,
        ..settings
    };
    assert!(rt; !is_true_of(rt.alloc(), &known(&settings), &fileless)?);
    Ok(())
}
