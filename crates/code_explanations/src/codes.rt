//! The sentences about the other codes.

use crate::Explanation;

/// The other codes: those of plans, words, workers and texts.
pub fn word_pages() -> &'static [Explanation] {
    &WORDS
}

const WORDS: [Explanation; 23] = [
    Explanation {
        code: "P1",
        meaning: "the plan would have more than 65536 steps",
        remedy: "\
No configuration that is accepted leads to such a plan, so the program never
prints this.",
    },
    Explanation {
        code: "P2",
        meaning: "this planner makes no plan for an upgrade",
        remedy: "An upgrade has a planner of its own, so the program never prints this.",
    },
    Explanation {
        code: "P3",
        meaning: "the configuration or image number would pass 4294967295",
        remedy: "\
Each HUP takes a configuration number; each USR2, attended or not, takes a
configuration and an image number. Stop the master and start it anew.",
    },
    Explanation {
        code: "W1",
        meaning: "no such control word",
        remedy: "\
The words are HUP, QUIT, INT, TERM, USR1, USR2, 'USR2 attended', WINCH,
TTIN, TTOU, 'beat K NOW' and 'tick NOW'. Write them exactly like this: with
these capitals, with single spaces, and without SIG.",
    },
    Explanation {
        code: "W2",
        meaning: "invalid numbers after 'beat' or 'tick'",
        remedy: "\
In 'beat K NOW' K is a worker's number, 0 to 1023; in 'beat K NOW' and 'tick
NOW' NOW is a moment, 0 to 18446744073709551615. Write them in decimal,
without leading zeros, after single spaces, and nothing after them.",
    },
    Explanation {
        code: "W3",
        meaning: "there are 1024 workers already",
        remedy: "\
TTIN asks for one more, and no master has more than 1024. Nothing was
changed. Start a second master with other addresses if you need more.",
    },
    Explanation {
        code: "W4",
        meaning: "the configuration of --to could not be read",
        remedy: "\
HUP, USR2 and 'USR2 attended' read it anew. Check that the file exists and
may be read (without --to it is the file of --from), and send the word
again. Nothing was changed; the running service goes on.",
    },
    Explanation {
        code: "W5",
        meaning: "the configuration names another pid file than the one in use",
        remedy: "\
Or only one of the two names one. A running master keeps its pid file: take
the change of pid back, or stop the master and start it anew. Nothing was
changed.",
    },
    Explanation {
        code: "T1",
        meaning: "the worker is in the table already",
        remedy: "No word adds a worker twice, so the program never prints this.",
    },
    Explanation {
        code: "T2",
        meaning: "the worker's number is above 1023",
        remedy: "Such a number is refused as W2 before, so the program never prints this.",
    },
    Explanation {
        code: "T3",
        meaning: "the beat is of a worker that is not ready",
        remedy: "\
It has ended, was killed or told to quit, or was never started. Nothing was
changed. Send beats only for workers of the last census.",
    },
    Explanation {
        code: "T4",
        meaning: "the beat's moment is before the worker's last beat",
        remedy: "\
The moments of a worker may not go back. Nothing was changed. Take them from
a clock that is never set back, such as CLOCK_MONOTONIC.",
    },
    Explanation {
        code: "E2",
        meaning: "the master's record does not agree with the kernel",
        remedy: "\
Nothing was changed. This is checked before each plan; no command line is
known to print it. If you see it, keep the command line and the input.",
    },
    Explanation {
        code: "E3",
        meaning: "there is no plan",
        remedy: "\
The reason follows the code: P3. Nothing was changed; the running service
goes on. Stop the master and start it anew.",
    },
    Explanation {
        code: "E4",
        meaning: "the pattern kills the master that carries out the plan",
        remedy: "\
The number of the call follows the code. Up to its 'leave' the old master
may not exit, nor from then on the new one; nobody could go on. Before that
the new one may. Take the line 'N exit mI' out. Nothing was changed.",
    },
    Explanation {
        code: "E5",
        meaning: "too few process or socket numbers are left for the plan",
        remedy: "\
Numbers end at 4294967295, and none is used twice. Nothing was changed. Stop
the master and start it anew. No command line is known to print this.",
    },
    Explanation {
        code: "V1",
        meaning: "the master has stopped",
        remedy: "\
An earlier word was QUIT, INT or TERM, or it was lost, so nothing is left to
act on. Give the word before the stop, or start a master anew.",
    },
    Explanation {
        code: "X1",
        meaning: "the line has none of the allowed forms",
        remedy: "\
Its number, counted from 1 through the whole input, follows the code. A
pattern has lines 'N exit NAME', 'N fail FATE' and 'next'; its first one may
be 'turns TEXT', TEXT being letters n and o. Blocks have the lines that
`prefork enact` prints. Numbers have no leading zeros, spaces are single. If
the input ends inside a block, the number is one more than its lines. FATE
is one of in-use, too-many, denied, no-memory, again, late, no-image,
refused, io-fault and back; the call must be able to fail so.",
    },
    Explanation {
        code: "X2",
        meaning: "the line is in the wrong place",
        remedy: "\
Its number follows the code. In a pattern the numbers of calls do not fall,
'fail' is the last line of its call, and 'turns' the first one of a pattern.
In a block calls are numbered 1, 2, 3 and so on. Move or correct the line.",
    },
    Explanation {
        code: "Y1",
        meaning: "an entry is not what the plan and the kernel allow there",
        remedy: "\
The number of the entry follows the code. It is another call than the next
one of the plan, a call after the plan's end, or an answer that the plan has
no way on from or that the kernel cannot give, whichever process exits and
whichever call fails just then. An exit is put at the entry that shows it.
Compare the entry with the plan of `prefork plan`, and check the options.",
    },
    Explanation {
        code: "Y2",
        meaning: "the report is not that of the calls",
        remedy: "\
The calls are a whole run of the plan, but the outcome, shortfall, cause or
pid note is not the one that they lead to. Compare it with the plan of
`prefork plan`. If the options are right and the line was not edited, the
master reported wrongly.",
    },
    Explanation {
        code: "Y3",
        meaning: "the block ends before the plan does",
        remedy: "\
Or it says 'nothing' of a word that has a plan. If the options are right and
no line was cut off, the master stopped before the plan's end.",
    },
    Explanation {
        code: "Y4",
        meaning: "the word could not have been carried out",
        remedy: "\
The master's record does not agree with the kernel, or there is no plan, or
too few numbers are left. Check the options, and that no block before this
one is missing.",
    },
];
