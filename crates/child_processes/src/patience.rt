//! Waits that end.
use libc::net::{POLLIN, POLLOUT};
use libc::types::pollfd;
use std::io;
use std::process::{Child, OpenProcess};
use std::time::{Clock, Duration};

/// No wait for a descriptor is longer, in milliseconds.
const SLICE: u64 = 100;

/// The first pause between two looks at a process, in microseconds, and the longest.
const FIRST_PAUSE: u64 = 100;

const LONGEST_PAUSE: u64 = 10_000;

/// How long a master goes on waiting for one child.
///
/// Its clock counts waits for children alone, each for at most twice as long as it was to be: while the whole machine was
/// stopped, no child owes anything.
#[derive(Drop)]
pub(crate) struct Patience<'a, R> {
    rt: &'a R,
    /// How long the master has waited for its children so far.
    waited: &'a mut Duration,
    /// The wait ends once it has waited for so long.
    end: Duration,
}

/// What a wait for a descriptor is for.
#[derive(Clone, Copy)]
pub(crate) enum Wait {
    /// Something to read, or the end.
    ToRead(i32),
    /// Room for a write, or a fault of it.
    ToWrite(i32),
}

/// What says how long something is waited for.
pub(crate) trait Waits {
    /// Waits until there is something; false where it takes too long.
    fn lasts(&mut self) -> bool;
}

/// A wait that takes as long as it takes.
#[derive(Drop)]
pub(crate) struct Forever;

impl Waits for Forever {
    fn lasts(&mut self) -> bool {
        true
    }
}

/// A wait for a descriptor, while the patience for it lasts.
#[derive(Drop)]
pub(crate) struct Awaited<'a, R> {
    patience: Patience<'a, R>,
    wait: Wait,
}

impl<R: Clock> Waits for Awaited<'_, R> {
    fn lasts(&mut self) -> bool {
        self.patience.lasts(self.wait)
    }
}

impl<'a, R: Clock> Patience<'a, R> {
    /// It ends once the master has waited for so long.
    pub(crate) fn new(rt: &'a R, waited: &'a mut Duration, end: Duration) -> Patience<'a, R> {
        Patience { rt, waited, end }
    }

    /// The wait for a descriptor, for as long as this lasts.
    pub(crate) fn awaiting(self, wait: Wait) -> Awaited<'a, R> {
        Awaited {
            patience: self,
            wait,
        }
    }

    /// How much of it is left.
    fn left(&self) -> Duration {
        self.end.saturating_sub(*self.waited)
    }

    /// Waits for a descriptor; false where it takes too long. Without time it looks once.
    pub(crate) fn lasts(&mut self, wait: Wait) -> bool {
        for _ in 0..u64::MAX {
            let left = self.left();
            let before = self.rt.monotonic();
            let is_ready = is_ready(wait, slice_of(left));
            self.count(before, Duration::from_millis(SLICE));
            if is_ready || left.is_zero() {
                return is_ready;
            }
        }
        false
    }

    /// Waits for the end of a process; false where it takes too long. One that cannot be looked at counts as ended.
    pub(crate) fn sees_end<P: OpenProcess>(&mut self, child: &mut Child<P>) -> bool {
        let mut pause = FIRST_PAUSE;
        for _ in 0..u64::MAX {
            if !matches!(child.try_wait(), Ok(None)) {
                return true;
            }
            if self.left().is_zero() {
                return false;
            }
            let before = self.rt.monotonic();
            self.rt.sleep(Duration::from_micros(pause));
            self.count(before, Duration::from_micros(pause));
            pause = pause.saturating_mul(2).min(LONGEST_PAUSE);
        }
        false
    }

    /// Counts a wait that began then, and was to take at most so long. Where the clock fails it counts as that.
    fn count(&mut self, before: io::Result<Duration>, planned: Duration) {
        let took = match (before, self.rt.monotonic()) {
            (Ok(before), Ok(after)) => after.saturating_sub(before),
            _ => planned,
        };
        let counted = took.min(planned.saturating_mul(2));
        *self.waited = self.waited.saturating_add(counted);
    }
}

/// How long to wait for a descriptor, in milliseconds, where so much time is left.
fn slice_of(left: Duration) -> i32 {
    if left.is_zero() {
        return 0;
    }
    let millis = left.min(Duration::from_millis(SLICE)).as_millis();
    i32::try_from(millis).unwrap_or(0).max(1)
}

/// Waits for a descriptor, at most so many milliseconds. One that cannot be waited for is not ready.
fn is_ready(wait: Wait, millis: i32) -> bool {
    let (fd, events) = match wait {
        Wait::ToRead(fd) => (fd, POLLIN),
        Wait::ToWrite(fd) => (fd, POLLOUT),
    };
    let mut asked = [pollfd {
        fd,
        events,
        revents: 0,
    }];
    libc::net::poll(&mut asked, millis) > 0
}
