//! What is said to a child and heard of it, with a limit for each wait.
use crate::limits::{ChildLimits, Debt, RoleText, owed};
use crate::patience::{Forever, Patience, Wait};
use crate::reader::LineReader;
use crate::writing::{whole_line, write_in_time};
use child_family::{Heard, Role};
use log::{Log, info};
use plain_text::{LINE_BYTES, Line};
use std::io::{ErrorKind, Write};
use std::process::{Child, OpenProcess};
use std::time::{Clock, Duration};

/// A child, with what is read of it.
#[derive(Drop)]
pub(crate) struct Open<P: OpenProcess + Drop> {
    pub(crate) child: Child<P>,
    pub(crate) role: Role,
    pub(crate) heard: LineReader<P::Stdout>,
    pub(crate) told_to_quit: bool,
    pub(crate) has_spoken: bool,
    /// Whether it was killed for its silence.
    pub(crate) is_killed: bool,
    /// The descriptors of its output and its input.
    pub(crate) said_at: i32,
    pub(crate) told_at: i32,
    /// How long the master had waited when it last told the child a line.
    pub(crate) asked: Duration,
}

impl<P: OpenProcess + Drop> Open<P> {
    /// What it owes that is heard.
    fn debt(&self) -> Debt {
        let is_master = matches!(self.role, Role::Master { .. });
        owed(is_master, self.has_spoken, self.told_to_quit)
    }
}

/// What a child owes whose end is waited for. A master ends its own children first.
fn last_debt(role: &Role) -> Debt {
    match role {
        Role::Worker { .. } => Debt::End,
        Role::Master { .. } => Debt::Call,
    }
}

/// A master's waits for its children. Time that it waits for one counts for all: several that hang share one limit.
#[derive(Drop)]
pub(crate) struct Watch<R: Drop, L: Drop> {
    pub(crate) rt: R,
    pub(crate) limits: ChildLimits,
    /// Each child that is ended for its silence is a line of it.
    pub(crate) log: L,
    /// How long it has waited so far.
    pub(crate) waited: Duration,
}

impl<R: Clock + Drop, L: Log + Drop> Watch<R, L> {
    /// How long it waits for what a child owes since then, where that has a limit.
    fn patience(&mut self, debt: Debt, since: Duration) -> Option<Patience<'_, R>> {
        let seconds = self.limits.seconds(debt);
        if seconds == 0 {
            return None;
        }
        let end = since.saturating_add(Duration::from_secs(seconds));
        Some(Patience::new(&self.rt, &mut self.waited, end))
    }

    /// Kills a child, and logs why.
    fn kill<P: OpenProcess>(&self, child: &mut Child<P>, role: Role, debt: Debt) {
        let (number, seconds) = (child.id(), self.limits.seconds(debt));
        info!(&self.log; target: "prefork", "killed {}, process {number}: {debt} within {seconds} s", RoleText(role));
        let _ = child.kill();
    }

    /// Kills a child, unless it was killed already.
    fn give_up<P: OpenProcess + Drop>(&self, open: &mut Open<P>, debt: Debt) {
        if !open.is_killed {
            open.is_killed = true;
            self.kill(&mut open.child, open.role, debt);
        }
    }

    /// Says a line to a child; false where it cannot be said. One whose input stays full is killed.
    pub(crate) fn say<P: OpenProcess + Drop>(&mut self, open: &mut Open<P>, line: &[u8]) -> bool {
        let (wait, since) = (Wait::ToWrite(open.told_at), self.waited);
        let Some(stdin) = open.child.stdin.as_mut() else {
            return false;
        };
        let mut room = [0u8; LINE_BYTES + 1];
        let Ok(whole) = whole_line(&mut room, line) else {
            return false;
        };
        let is_said = match self.patience(Debt::Room, since) {
            Some(patience) => write_in_time(stdin, whole, &mut patience.awaiting(wait)),
            None => stdin.write_all(whole),
        };
        open.asked = self.waited;
        match is_said {
            Ok(()) => true,
            Err(error) => {
                if error.kind() == ErrorKind::WouldBlock {
                    self.give_up(open, Debt::Room);
                }
                false
            }
        }
    }

    /// Hears the next line of a child. One that owes it for too long is killed, and has ended.
    pub(crate) fn hear<P: OpenProcess + Drop>(
        &mut self,
        open: &mut Open<P>,
        line: &mut Line,
    ) -> Heard {
        let debt = open.debt();
        let wait = Wait::ToRead(open.said_at);
        let heard = match self.patience(debt, open.asked) {
            Some(patience) => open.heard.hear_within(line, &mut patience.awaiting(wait)),
            None => open.heard.hear_within(line, &mut Forever),
        };
        open.has_spoken = true;
        match heard {
            Ok(heard) => heard,
            Err(error) => {
                if error.kind() == ErrorKind::TimedOut {
                    self.give_up(open, debt);
                }
                Heard::Ended
            }
        }
    }

    /// Waits for the end of a child that was told to quit, or was killed. False where it cannot be waited for.
    pub(crate) fn gone<P: OpenProcess + Drop>(&mut self, open: &mut Open<P>) -> bool {
        if open.is_killed {
            return open.child.wait().is_ok();
        }
        self.await_end(&mut open.child, open.role, open.asked)
    }

    /// Waits for the end of a child, since it was told of it. One that takes too long is killed. False where it cannot be
    /// waited for.
    pub(crate) fn await_end<P: OpenProcess>(
        &mut self,
        child: &mut Child<P>,
        role: Role,
        since: Duration,
    ) -> bool {
        let debt = last_debt(&role);
        child.stdin = None;
        let is_late = match self.patience(debt, since) {
            Some(mut patience) => !patience.sees_end(child),
            None => false,
        };
        if is_late {
            self.kill(child, role, debt);
        }
        child.wait().is_ok()
    }
}
