//! The words that a master takes and the calls that it makes, each with what it is for.

use crate::Explanation;

/// The words of a master, and the calls of its plans. The letters of some differ alone by their size: `QUIT` and `quit`.
pub fn name_pages() -> &'static [Explanation] {
    &NAMES
}

const NAMES: [Explanation; 29] = [
    Explanation {
        code: "HUP",
        meaning: "reload",
        remedy: "\
The workers and addresses of the next configuration start beside the old
ones, which quit once the new ones are ready. If one of these is not
ready, they are taken back, and the old ones serve on.",
    },
    Explanation {
        code: "USR1",
        meaning: "reopen the logs",
        remedy: "\
The pid file is written anew if it is missing, and each ready worker is
told to reopen its logs.",
    },
    Explanation {
        code: "USR2",
        meaning: "upgrade",
        remedy: "\
A new master of the new executable starts beside the old one, with workers
of the next configuration. `USR2 attended` asks the operator twice whether
to go on.",
    },
    Explanation {
        code: "WINCH",
        meaning: "no workers",
        remedy: "\
All workers finish and quit. Master and addresses stay; TTIN or HUP brings
workers back. At a question of an attended upgrade it means: go on.",
    },
    Explanation {
        code: "QUIT",
        meaning: "stop, once the workers have finished",
        remedy: "At a question of an attended upgrade it means: go on.",
    },
    Explanation {
        code: "INT",
        meaning: "stop at once",
        remedy: "Workers are told to quit, and killed without waiting for what they serve.",
    },
    Explanation {
        code: "TERM",
        meaning: "stop at once",
        remedy: "Workers are told to quit, and killed without waiting for what they serve.",
    },
    Explanation {
        code: "TTIN",
        meaning: "one worker more",
        remedy: "Until the next reload: that brings the configuration's number.",
    },
    Explanation {
        code: "TTOU",
        meaning: "one worker less",
        remedy: "Until the next reload: that brings the configuration's number.",
    },
    Explanation {
        code: "beat",
        meaning: "note that a worker is alive",
        remedy: "`beat K NOW`: worker K was alive at NOW, in seconds.",
    },
    Explanation {
        code: "tick",
        meaning: "look after the workers",
        remedy: "\
`tick NOW`: workers whose last beat is older than the timeout are killed,
and missing workers are started.",
    },
    Explanation {
        code: "open",
        meaning: "call: open a listening socket",
        remedy: "Answers: opened and the descriptor; in-use, too-many, denied, no-memory.",
    },
    Explanation {
        code: "close",
        meaning: "call: close a listening socket",
        remedy: "\
Connections that wait there are lost, so a plan closes only addresses that
the next service does not name.",
    },
    Explanation {
        code: "fork",
        meaning: "call: start a worker",
        remedy: "\
`fork I.C K`: executable I, configuration C, number K. Answers: forked;
again, no-memory.",
    },
    Explanation {
        code: "await-ready",
        meaning: "call: wait until a worker is ready",
        remedy: "Answers: ready; gone if it has ended, late if it was not ready in time.",
    },
    Explanation {
        code: "kill",
        meaning: "call: end a worker at once",
        remedy: "\
Its requests are lost. A plan kills only workers that are overdue, and at
INT and TERM.",
    },
    Explanation {
        code: "quit",
        meaning: "call: tell a worker to finish and quit",
        remedy: "\
It accepts no more connections and finishes its requests. The word of the
same name is QUIT.",
    },
    Explanation {
        code: "usr1",
        meaning: "call: tell a worker to reopen its logs",
        remedy: "Only ready workers are told. The word of the same name is USR1.",
    },
    Explanation {
        code: "census",
        meaning: "call: count the ready workers of a generation",
        remedy: "The answer has their numbers: counted 0-2. A report rests on the last one.",
    },
    Explanation {
        code: "await-gone",
        meaning: "call: wait until a worker that was told to quit has ended",
        remedy: "Answers: gone; late if it has not ended in time.",
    },
    Explanation {
        code: "spawn-master",
        meaning: "call: start a new master",
        remedy: "\
`spawn-master I`: of executable I. Answers: spawned; again, no-memory, no-
image.",
    },
    Explanation {
        code: "adopt",
        meaning: "call: the new master takes over what the old one hands to it",
        remedy: "Answers: adopted; refused.",
    },
    Explanation {
        code: "write-pid",
        meaning: "call: write the pid file",
        remedy: "Answers: ok; io-fault.",
    },
    Explanation {
        code: "move-pid",
        meaning: "call: rename the pid file",
        remedy: "Answers: ok; io-fault.",
    },
    Explanation {
        code: "remove-pid",
        meaning: "call: remove the pid file",
        remedy: "Answers: ok; io-fault.",
    },
    Explanation {
        code: "alive",
        meaning: "call: does the new master run?",
        remedy: "Answers: alive; gone.",
    },
    Explanation {
        code: "leave",
        meaning: "call: the master ends",
        remedy: "Its workers have ended, or are the next master's.",
    },
    Explanation {
        code: "term-master",
        meaning: "call: end the new master",
        remedy: "An upgrade that goes back ends it, with its workers.",
    },
    Explanation {
        code: "ask",
        meaning: "call: ask the operator whether to go on",
        remedy: "Answers: go; back. Only of an attended upgrade.",
    },
];
