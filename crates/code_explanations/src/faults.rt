//! The sentences about the codes that the program prints.

use crate::Explanation;

/// The codes that the program prints: those that begin its faults, and those of addresses, starts, configurations and
/// handovers.
pub fn fault_pages() -> &'static [Explanation] {
    &FAULTS
}

const FAULTS: [Explanation; 48] = [
    Explanation {
        code: "usage",
        meaning: "invalid command line",
        remedy: "\
An argument is unknown, missing or given twice, or its value is not allowed.
N and K are decimal numbers up to 4294967295 without leading zeros; --events
is 1 or 2, --turns is 'all' or letters n and o, --forbid is 'degraded',
--require is 'done'. `prefork --help` has the subcommands, and
`prefork enact --help` the options of one.",
    },
    Explanation {
        code: "word",
        meaning: "an argument is not a control word",
        remedy: "\
The number is that of the argument, counted from 1 among the words; W1 or W2
says what is wrong. Quote a word with spaces: 'beat 0 60', 'USR2 attended'.
Correct the word; no word was carried out.",
    },
    Explanation {
        code: "config",
        meaning: "a configuration file is refused",
        remedy: "\
It is the file of --from or, if that one is accepted, the file of --to. The
code after it, C1 to C15, is the first rule that the file breaks. Correct
the file and try again; nothing was started.",
    },
    Explanation {
        code: "boot",
        meaning: "a master cannot start like this",
        remedy: "B1 follows: --workers is above 1024. Give a number from 0 to 1024.",
    },
    Explanation {
        code: "held",
        meaning: "the address of --held cannot be held by another process",
        remedy: "\
A1 to A5 follow if it is not an address, B2 if the master listens on it
itself, B3 if no number is left for the other process. Correct the address
or leave --held out; no word was carried out.",
    },
    Explanation {
        code: "pattern",
        meaning: "standard input is not a list of patterns",
        remedy: "\
X1 or X2 and the number of the first faulty line follow; no word was carried
out. Correct the line. To inject no faults, redirect from /dev/null.",
    },
    Explanation {
        code: "transcript",
        meaning: "standard input is not a list of blocks",
        remedy: "\
X1 or X2 and the number of the first faulty line follow; no block was
compared. Give the output of `enact` or `supervise` unchanged, from its
first block on.",
    },
    Explanation {
        code: "certify",
        meaning: "a block is not what the master would have done",
        remedy: "\
The number of the block, counted from 1, and the difference follow: Y1 to
Y4. First check that --from, --to, --workers, --bare and --held are those of
the master that wrote the blocks (--bare for `supervise`), and that the
input begins with that master's first block. If its words went over to
several configurations, give a --to for each HUP and USR2, in their order.",
    },
    Explanation {
        code: "file",
        meaning: "a file could not be read or written, or an argument is not UTF-8",
        remedy: "\
The file is a configuration, standard input, standard output (its reader may
be gone), or the pid file of `supervise`. Check that the path exists, that
it is a file in a folder that you may use, and that the disk is not full.
Blocks that were written before are whole.",
    },
    Explanation {
        code: "memory",
        meaning: "out of memory",
        remedy: "\
Blocks of words that were carried out before are written. Each word takes
its memory before its first call, so no word was left half done. Free some
memory or raise the limit (ulimit -v), then try again.",
    },
    Explanation {
        code: "code",
        meaning: "explain does not know this code",
        remedy: "\
`prefork explain` lists every code, answer and outcome. Give one of them,
as it is written there and without what follows it: Y1, and not 'Y1 9'.",
    },
    Explanation {
        code: "orders",
        meaning: "the upgrade has more than 5000 orders of turns",
        remedy: "\
`explore --turns all` tries each order of the calls of the two masters. Two
things make them many: the workers of the new master, and --events 2. Take
configurations with fewer workers, or single events, or give one order with
--turns and letters n and o.",
    },
    Explanation {
        code: "running",
        meaning: "the pid file has the number of another process that runs",
        remedy: "\
That number follows. Nothing was started, and the file is as it was. If the
process is a master of this configuration, stop it first; if it is that of
another one, name another `pid`. If it is no master, as after a restart of
the machine, remove the file. A number of no process is taken over.",
    },
    Explanation {
        code: "A1",
        meaning: "the address is empty",
        remedy: "Write a host and a port, 127.0.0.1:8080, or a path that begins with '/'.",
    },
    Explanation {
        code: "A2",
        meaning: "invalid host",
        remedy: "\
A host is four numbers from 0 to 255 joined by dots, without leading zeros,
or an IPv6 address in brackets as RFC 5952 writes it: small letters, no
leading zeros, the longest run of zeros as '::', no zone, not mapped from
IPv4. A colon follows. Names and a bare :8080 are not allowed. For every
address of the machine write 0.0.0.0:8080 or [::]:8080. A path must begin
with '/'.",
    },
    Explanation {
        code: "A3",
        meaning: "missing or invalid port",
        remedy: "\
A port is a number from 1 to 65535 without a leading zero, after the first
colon or the brackets. Write for example 127.0.0.1:8080 or [::1]:8080.",
    },
    Explanation {
        code: "A4",
        meaning: "the path of a Unix socket is too long",
        remedy: "At most 107 bytes are allowed. Use a shorter path.",
    },
    Explanation {
        code: "A5",
        meaning: "the path of a Unix socket has an invalid byte",
        remedy: "Only printable ASCII without spaces is allowed. Rename the path.",
    },
    Explanation {
        code: "B1",
        meaning: "more than 1024 workers are asked for",
        remedy: "A master has 0 to 1024 workers. Give a smaller number with --workers.",
    },
    Explanation {
        code: "B2",
        meaning: "the master listens on this address itself",
        remedy: "\
Another process cannot hold it. With --held name an address that the master
does not start with, for example one that only the file of --to has.",
    },
    Explanation {
        code: "B3",
        meaning: "no process or socket number is left",
        remedy: "\
Numbers end at 4294967295, and none is used twice. A master that has just
started has some left, so no command line is known to print this.",
    },
    Explanation {
        code: "C1",
        meaning: "the file is not TOML",
        remedy: "\
Or it is not UTF-8, repeats a key, or has an integer of more than 64 bits.
Write one 'key = value' on each line, texts in quotes, and lists in brackets
with commas. --why names the line and what is wrong there.",
    },
    Explanation {
        code: "C2",
        meaning: "unknown key",
        remedy: "\
The keys are command, groups, listeners, pid, retries, service, sockets,
surge, timeout and workers; a group has only listeners and workers. Correct
or remove the key. Capitals count, and a key after a [[groups]] heading
belongs to that group.",
    },
    Explanation {
        code: "C3",
        meaning: "a value is of the wrong kind",
        remedy: "\
The key follows the code. retries, surge, timeout and workers are whole
numbers without quotes; pid is a text in quotes; listeners and command are
lists of texts, also for a single one: [\"0.0.0.0:80\"]; groups is a list of
tables.",
    },
    Explanation {
        code: "C4",
        meaning: "a number is out of range",
        remedy: "\
The key follows the code. Allowed are workers and surge 0 to 1024, retries 0
to 8, timeout 1 to 86400, at most 64 listeners, and 1 to 16 groups. The
listeners and workers of all groups are counted together.",
    },
    Explanation {
        code: "C5",
        meaning: "a listener is not an address",
        remedy: "\
Its index in the list, counted from 0, follows the code, and then the rule
that it breaks, A1 to A5. Write a host and a port, \"0.0.0.0:8080\", or a
path, \"/run/site.sock\".",
    },
    Explanation {
        code: "C6",
        meaning: "a listener is named twice",
        remedy: "\
The index of the second one, counted from 0, follows the code. In a group it
is the index in that group's list, and an earlier group may have the first.
Remove one. Addresses are compared as texts.",
    },
    Explanation {
        code: "C7",
        meaning: "there is no listener",
        remedy: "\
The list is empty, or a group has no key listeners. Name at least one
address. Without groups you may leave the key out: it is 0.0.0.0:8080 then.",
    },
    Explanation {
        code: "C8",
        meaning: "invalid path of the pid file",
        remedy: "\
The path begins with '/' and has at most 100 bytes of printable ASCII
without spaces. Correct it, or leave the key pid out for no pid file.",
    },
    Explanation {
        code: "C9",
        meaning: "invalid command",
        remedy: "\
It is a list of 1 to 16 texts, the program and its arguments. Each has 1 to
255 bytes and no byte 0. Put long arguments into a script and start that.",
    },
    Explanation {
        code: "C10",
        meaning: "listeners or workers beside groups",
        remedy: "\
Each group has its own. Move the keys listeners and workers into a group, or
remove groups.",
    },
    Explanation {
        code: "C11",
        meaning: "a group is refused",
        remedy: "\
Its index, counted from 0, follows the code, and then the first rule that it
breaks, C2 to C7. A group has listeners, 1 or more, and workers, 1 if the
key is missing. All groups together have at most 64 listeners, all
different, and at most 1024 workers.",
    },
    Explanation {
        code: "C12",
        meaning: "service is no table",
        remedy: "\
Its keys are for the service, `prefork-serve`; a master does not read them.
Put them below a line '[service]', or remove the key.",
    },
    Explanation {
        code: "C13",
        meaning: "sockets is no table",
        remedy: "\
A listener has its options below a line '[sockets.\"ADDRESS\"]'. Put them
there, or remove the key.",
    },
    Explanation {
        code: "C14",
        meaning: "sockets has an address that no listener has",
        remedy: "\
Options are for a listener of this configuration, by the text that it has
there: '[sockets.\"0.0.0.0:8080\"]'. Correct the address, add it to the
listeners, or remove its options.",
    },
    Explanation {
        code: "C15",
        meaning: "the options of a listener are refused",
        remedy: "\
The index of the listener, counted from 0 over all groups, follows the code,
and then the first rule that its options break, S1 to S7. The service,
`prefork-serve`, uses them; a master only checks them.",
    },
    Explanation {
        code: "S1",
        meaning: "the options of a listener are no table",
        remedy: "Write '[sockets.\"ADDRESS\"]' on a line of its own, and the options below it.",
    },
    Explanation {
        code: "S2",
        meaning: "no option of this listener",
        remedy: "\
A path, \"/run/site.sock\", has backlog, group, mode and owner; an address
with a port has backlog and defer_accept. Correct or remove the key.",
    },
    Explanation {
        code: "S3",
        meaning: "invalid backlog",
        remedy: "\
It is a whole number from 1 to 65535 without quotes: how many connections
may wait. Without the key they are as many as the system allows.",
    },
    Explanation {
        code: "S4",
        meaning: "invalid defer_accept",
        remedy: "Write true or false, without quotes.",
    },
    Explanation {
        code: "S5",
        meaning: "invalid group of a path",
        remedy: "\
A name or a number as a text of 1 to 255 bytes without a byte 0. Write
group = \"www-data\", or remove the key.",
    },
    Explanation {
        code: "S6",
        meaning: "invalid mode of a path",
        remedy: "It is a text of three octal digits, or of a 0 and three: mode = \"660\".",
    },
    Explanation {
        code: "S7",
        meaning: "invalid owner of a path",
        remedy: "\
A name or a number as a text of 1 to 255 bytes without a byte 0. Write
owner = \"www-data\", or remove the key.",
    },
    Explanation {
        code: "H1",
        meaning: "the handover is of an unknown version",
        remedy: "\
Its first line must be 'handover 1' or 'handover 2'. `adopt` names no code:
it answers `refused`, and the old service goes on. Upgrade to an executable
that reads the version that the old master writes.",
    },
    Explanation {
        code: "H2",
        meaning: "a line of the handover is invalid or in the wrong place",
        remedy: "\
The line's number, counted from 1, follows the code. Its form is wrong or a
value is out of range. `adopt` names no code: it answers `refused`, and the
old service goes on. Check that only prefork writes to the input of `adopt`.",
    },
    Explanation {
        code: "H3",
        meaning: "the descriptors of a handover do not ascend",
        remedy: "\
The line's number follows the code: its descriptor is not above that of the
line before. `adopt` names no code: it answers `refused`, and the old
service goes on. Check that only prefork writes to the input of `adopt`.",
    },
    Explanation {
        code: "H4",
        meaning: "the handover has no line 'end'",
        remedy: "\
A line without its newline does not count. The old master died, or the pipe
was closed. `adopt` names no code: if it is still asked, it answers
`refused`. Check that a master still runs, and ask for the upgrade again.",
    },
    Explanation {
        code: "H5",
        meaning: "something follows the line 'end' of the handover",
        remedy: "\
A handover ends with this line. `adopt` reads no further than it, so the
program never prints this code.",
    },
];
