//! The sentences about what is no code.

use crate::Explanation;

/// What is no code: answers of calls, outcomes of words, and what else is in a block.
pub fn answer_pages() -> &'static [Explanation] {
    &ANSWERS
}

const ANSWERS: [Explanation; 33] = [
    Explanation {
        code: "opened",
        meaning: "the address is open",
        remedy: "The plain answer of 'open', with the descriptor, 3 to 66. Nothing to do.",
    },
    Explanation {
        code: "in-use",
        meaning: "the address is already in use",
        remedy: "\
An answer of 'open': another process, or the master itself, listens there.
The word is rolled back. Find that process (ss -ltnp, or ss -lxp for a path)
and stop it, or choose another address. Under `prefork-serve` a worker that
cannot have the socket ends instead: the answer of 'await-ready' is `gone`.",
    },
    Explanation {
        code: "too-many",
        meaning: "the master has as many descriptors as it may have",
        remedy: "\
An answer of 'open': a master listens at 64 addresses at most, and a reload
opens the added ones before it closes the dropped ones. The word is rolled
back. Drop addresses first, by a reload of its own, and then add the others.",
    },
    Explanation {
        code: "denied",
        meaning: "the address may not be opened",
        remedy: "\
An answer of 'open': the system does not permit it, for example a port below
1024 without the privilege, or a folder that may not be written. The word is
rolled back. Choose another address or grant the permission. In a rehearsal
only a pattern, 'N fail denied', gives this answer.",
    },
    Explanation {
        code: "no-memory",
        meaning: "the system has no memory for this",
        remedy: "\
An answer of 'open', 'fork' and 'spawn-master'. The plan goes back, or on
with fewer workers. Free memory or ask for fewer workers, and try again.",
    },
    Explanation {
        code: "ok",
        meaning: "the call was made",
        remedy: "\
The plain answer of calls that only tell or change something: nothing to do.
After 'quit' a worker still finishes its requests.",
    },
    Explanation {
        code: "forked",
        meaning: "the worker was started",
        remedy: "\
The plain answer of 'fork': nothing to do. The worker is not ready yet;
'await-ready' waits for that.",
    },
    Explanation {
        code: "again",
        meaning: "no process could be started",
        remedy: "\
An answer of 'fork' and 'spawn-master'. Either a limit of processes or
descriptors is reached (ulimit -u, ulimit -n), or the program of a worker is
missing, or a program is not executable, or there is a new master already.
Try the command by hand as the user of the service, correct what is wrong,
and send the word again.",
    },
    Explanation {
        code: "ready",
        meaning: "the worker is ready",
        remedy: "\
The plain answer of 'await-ready': the worker accepts connections. Nothing
to do.",
    },
    Explanation {
        code: "gone",
        meaning: "the process has ended",
        remedy: "\
After 'await-gone' this is the plain answer. After 'await-ready' the worker
ended before it was ready: a fault of the application, or a port in use by
another process; its messages are on the standard error of the service.
After 'alive' the new master has ended. Correct the cause and try again.",
    },
    Explanation {
        code: "late",
        meaning: "the worker was not ready, or had not ended, in time",
        remedy: "\
An answer of 'await-ready' and 'await-gone'; the worker is killed. A real
worker is late if its next line is not 'ready', or 'gone'. Its standard
output is for the master alone, so let the program print to standard error.
One that says nothing is gone, once `--answer-within` has ended it.",
    },
    Explanation {
        code: "counted",
        meaning: "these workers are ready",
        remedy: "\
The answer of 'census', with their numbers. If one is missing that should be
there, the plan goes back, or starts it again at most 'retries' times and
then ends degraded. See on standard error why the missing worker ended.",
    },
    Explanation {
        code: "spawned",
        meaning: "the new master was started",
        remedy: "\
The plain answer of 'spawn-master': nothing to do. 'adopt' says whether it
takes over.",
    },
    Explanation {
        code: "no-image",
        meaning: "the executable of the new master is not there",
        remedy: "\
An answer of 'spawn-master'; the upgrade is rolled back and the old service
goes on. Put the new executable at the path of --program, and send USR2
again.",
    },
    Explanation {
        code: "adopted",
        meaning: "the new master has taken over the listeners",
        remedy: "The plain answer of 'adopt': nothing to do.",
    },
    Explanation {
        code: "refused",
        meaning: "a word or a handover was refused",
        remedy: "\
'refused CODE' after a word: nothing was changed, and `prefork explain CODE`
says why. As the answer of 'adopt': the new master cannot use the handover
(H1 to H5, or another image or other addresses), and the old service goes
on. Check which executable is at the path of --program, and send USR2 again.",
    },
    Explanation {
        code: "io-fault",
        meaning: "the pid file could not be written, renamed or removed",
        remedy: "\
An answer of 'write-pid', 'move-pid' and 'remove-pid'. Check that its folder
exists and may be written, that the disk is not full, and that nothing else
moves the file. The note at the end of the report says where it is.",
    },
    Explanation {
        code: "alive",
        meaning: "the new master is alive",
        remedy: "The plain answer of 'alive': nothing to do.",
    },
    Explanation {
        code: "go",
        meaning: "the operator goes on with the upgrade",
        remedy: "The plain answer of 'ask'. Under `supervise` it is the next WINCH or QUIT.",
    },
    Explanation {
        code: "back",
        meaning: "the operator goes back to the old service",
        remedy: "\
An answer of 'ask': not a failure, but the cause in the report. In a pattern
it is 'N fail back'. Under `supervise` it is the next HUP, the end of the
input, a failed read, or 64 lines that wait. To upgrade after all, send
'USR2 attended' again and answer WINCH.",
    },
    Explanation {
        code: "master-gone",
        meaning: "the master that should make the call is gone",
        remedy: "\
It ended, was killed, or gave an invalid answer. A plan goes back if it can;
otherwise the word is lost. Look at its messages on standard error for why
it ended, then send the word again.",
    },
    Explanation {
        code: "done",
        meaning: "the service that was asked for runs",
        remedy: "\
The outcome of a word: nothing to do. A cause other than 'none' is a call
that failed, whose failure the plan made up for.",
    },
    Explanation {
        code: "rolled-back",
        meaning: "the service that ran before runs again",
        remedy: "\
The outcome of a word that failed. The service is as it was before the word:
workers that were missing then still are. The cause is the number of the
call that failed: its answer in the block says why. Correct that and send
the word again. Until then restore files that you replaced: workers that are
started later use what is on the disk.",
    },
    Explanation {
        code: "degraded",
        meaning: "the service runs, but workers are missing",
        remedy: "\
The side follows, 'old' or 'target', and how many are missing in each group.
Workers could not be started, or ended, more often than 'retries' allows. A
tick starts missing ones again. The cause names the first call that failed;
if workers go on ending, see their messages on standard error.",
    },
    Explanation {
        code: "lost",
        meaning: "the master that carried out the word is gone",
        remedy: "\
The outcome of a word after which the plan has no way on; what runs is not
known. Look whether a master runs (the pid file has its number). If none
does, start the service anew; workers end with their master.",
    },
    Explanation {
        code: "nothing",
        meaning: "the word needed no calls",
        remedy: "The service is already as the word asks, or a beat was noted. Nothing to do.",
    },
    Explanation {
        code: "unread",
        meaning: "a line is not a control word",
        remedy: "\
W1 or W2 follows and says why. `supervise` prints it for a line of its input
and goes on with the next. Correct the program that writes the lines.",
    },
    Explanation {
        code: "cause",
        meaning: "the first call that failed, by its number in the block",
        remedy: "\
It is the first that was not answered plainly, or whose census lacked a
worker; or 'none'. Look at that line of the block, and explain its answer.",
    },
    Explanation {
        code: "in-place",
        meaning: "the pid file is at its path",
        remedy: "And no file with the suffix .oldbin is there. Nothing to do.",
    },
    Explanation {
        code: "at-oldbin",
        meaning: "the pid file is at its path with the suffix .oldbin",
        remedy: "\
An upgrade was rolled back, and the file could not be moved back (io-fault).
Remove the cause and move the file back by hand: mv PATH.oldbin PATH",
    },
    Explanation {
        code: "oldbin-left",
        meaning: "a file with the suffix .oldbin is left beside the pid file",
        remedy: "\
The upgrade could not remove it (io-fault). Remove it by hand; the master
does not use it.",
    },
    Explanation {
        code: "left",
        meaning: "the pid file is left, and no master runs",
        remedy: "\
The stop could not remove it (io-fault). Remove it by hand, since its number
may soon be that of another process.",
    },
    Explanation {
        code: "no-file",
        meaning: "there is no pid file",
        remedy: "\
The configuration names none, or a stop has removed it. To have one, set the
key pid and start anew: a running master does not change its pid file.",
    },
];
