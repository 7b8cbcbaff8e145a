//! What `--help` says: the man pages in one screen.

/// Below the program's subcommands.
pub(crate) const PROGRAM_NOTES: &str = "\
Example: what a master with two workers does on TTIN, if nothing goes wrong:
  prefork enact --workers 2 TTIN </dev/null

`prefork COMMAND --help` says more, and `man prefork` has all of it.";

pub(crate) const FROM_HELP: &str = "Start with FILE [default: 1 worker at 0.0.0.0:8080]";

pub(crate) const TO_HELP: &str = "HUP and USR2 go over to FILE [default: as --from]";

pub(crate) const GOALS_HELP: &str = "\
HUP and USR2 go over to FILE [default: as --from]; of
several, each word that is done goes over to the next";

pub(crate) const PROGRAM_HELP: &str = "The executable of workers and of the next master";

pub(crate) const ADOPT_HELP: &str = "\
The executable of workers and of the next master
[default: this one]";

pub(crate) const VERBOSE_HELP: &str = "Log each word with its outcome to standard error";

pub(crate) const ANSWER_HELP: &str = "Kill a child that owes an answer for S seconds";

pub(crate) const READY_HELP: &str = "As long for start and end [default: 8 times S]";

pub(crate) const WORKERS_HELP: &str = "Workers at the start, 0 to 1024 [default: as configured]";

pub(crate) const WHY_HELP: &str = "Explain errors and refusals [default: at a terminal]";

pub(crate) const JSON_HELP: &str = "Print the answer as JSON";

pub(crate) const CODE_HELP: &str = "A code, an answer, a word or a call: C4, late, HUP, fork";

pub(crate) const FILES_HELP: &str = "A configuration, a TOML file";

pub(crate) const BARE_HELP: &str = "Start without workers, however many are wanted";

pub(crate) const HELD_HELP: &str = "Pretend that another process listens on ADDRESS";

pub(crate) const LIFE_HELP: &str = "Print last what holds of all blocks together";

pub(crate) const STATE_HELP: &str = "Print processes, files and service after the last block";

pub(crate) const EVENTS_HELP: &str = "At most K events in a run, 1 or 2 [default: 1]";

pub(crate) const TURNS_HELP: &str = "Whose call is next in an upgrade: n and o, or 'all'";

pub(crate) const LIMIT_HELP: &str = "Stop after N runs, and say 'cut' if runs are left";

pub(crate) const FORBID_HELP: &str = "With 'degraded': status 4 if a run ended so";

pub(crate) const REQUIRE_HELP: &str = "With 'done': status 6 if no run was done";

pub(crate) const LEAST_HELP: &str = "Status 4 if an address had fewer ready workers";

pub(crate) const LIST_HELP: &str = "Print each run before the counts";

pub(crate) const PROGRESS_HELP: &str = "Print the number of runs so far to standard error";

pub(crate) const DEATHS_HELP: &str = "Count what follows if the master dies at each call";

pub(crate) const DOT_HELP: &str = "Write the plan as input of dot(1)";

pub(crate) const WORDS_HELP: &str = "\
Control words, carried out in order:
HUP              reload to the configuration of --to
USR2             upgrade to a new master, with that configuration
'USR2 attended'  the same; the operator is asked twice: go or back?
QUIT             stop once requests are finished
INT, TERM        stop at once
USR1             reopen the logs
TTIN, TTOU       start one worker more; stop one
WINCH            stop all workers; the master stays
'beat K NOW'     worker K is alive at the moment NOW
'tick NOW'       replace overdue workers, and start missing ones";

pub(crate) const WORD_HELP: &str = "A control word; `prefork enact --help` lists them";

pub(crate) const ENACT_NOTES: &str = "\
Standard input says what goes wrong; redirect it from /dev/null for no faults:
  2 fail late     call 2 is answered 'late', if it can be
  2 exit w1.1.0   worker 0 of generation 1.1 exits just before call 2
  next            the pattern of the next word begins
For each word it prints the calls with their answers, and how the word ended:
done, rolled-back, degraded (workers are missing), nothing, or refused.
Status: 0 done, 1 refused or lost, 2 usage, 3 rolled back, 4 degraded.

Example: a reload whose second new worker is not ready in time:
  echo '5 fail late' | prefork enact --from a.toml --to b.toml HUP";

pub(crate) const CERTIFY_NOTES: &str = "\
Standard input has blocks as enact and supervise print them. The options say how
that master started; after supervise, give --bare. Each block is compared with
the plan of its word and with the modelled kernel.
It prints the patterns that explain the blocks, separated by 'next', or the
number of the first block that is wrong, with a code.
Status: 0 accepted, 1 nothing could be compared, 2 usage, 5 a block is wrong.

Example: what enact prints is accepted:
  prefork enact --workers 2 TTIN </dev/null | prefork certify --workers 2";

pub(crate) const CHECK_NOTES: &str = "\
Nothing is started. All files are read, and each has a line:
  b.toml: ok
  b.toml:3: C4 workers: a number is out of range (allowed: ..): workers = 2000
that is the file, the line if one is at fault, the code of the rule that the
file breaks, what it means, what is allowed, and what was found. A file that
cannot be read has the code 'file'. `prefork explain C4` says what to do.

Exit status: 0 each file would be read, 1 one would not, 2 usage.

Example: before a configuration is deployed:
  prefork check b.toml && echo deploy";

pub(crate) const SUPERVISE_NOTES: &str = "\
Standard input has a word on each line, without quotes; `prefork enact --help`
lists them. The end of the input means QUIT. HUP and USR2 read --to anew.
While 'USR2 attended' asks, WINCH or QUIT goes on, and HUP goes back.
For each word it prints a block, which `prefork certify --bare` checks.
A worker is started as PROGRAM child, or as the command of the configuration.
prefork-serve adds sockets and signals, and is what most services run.
Status: 0 all done, 1 refused, unread or lost, 2 usage, 3 rolled back,
4 degraded.

Example: a tick, a reload and a stop:
  printf 'tick 1\\nHUP\\nQUIT\\n' | prefork supervise --program prefork";

pub(crate) const ADOPT_NOTES: &str = "\
On USR2 the old master starts PROGRAM adopt. Standard input has the handover,
and then a call or a tick on each line, which is answered on standard output.
At the end of the input the new master stops its children and ends.
Status: 0 the input has ended, 1 a line or memory was refused, 2 usage.

Example: a script that wraps prefork passes its own name on:
  exec prefork adopt --program \"$0\"";

pub(crate) const CHILD_NOTES: &str = "\
It shows how a worker behaves; prefork-child(1) has the lines. A master starts
it as PROGRAM child if its configuration has no command.
Status: 0 it was told to quit or its input has ended, 1 a line was refused.";

pub(crate) const EXPLAIN_NOTES: &str = "\
Status: 0, or 2 if there is no such code.

Example: an error line ends with C4 workers:
  prefork explain C4 (or 'C4 workers', or c4)";

pub(crate) const EXPLORE_NOTES: &str = "\
It carries out WORD under no event, each event and, with --events 2, each pair:
a call that fails, a question that is answered back, the exit of a worker or of
the new master; with --deaths, of the master alone. The turns of --turns say
whose call is next in an upgrade, n the new master's, o the old one's, and then
the new one's; 'all' tries each order, unless there are more than 5000.
Status: 0 counted, 1 refused, 2 usage, 4 degraded with --forbid degraded or too
few workers with --least, 6 not known: no run was done with --require done, no
address stays with --least, or --limit left runs out with any of the three.

Example: what is left if any one thing goes wrong during a reload:
  prefork explore --from a.toml --to b.toml HUP

Example: whether a pipeline may deploy a configuration:
  prefork explore --to b.toml --forbid degraded --require done --least 1 HUP";

pub(crate) const PLAN_NOTES: &str = "\
Each line has a step: its number, the master that makes the call, the call, and
for each answer the next step or how the plan ends. The line 'nothing' means
that no calls are needed.
Missing workers are started again as often as the retries of the configuration
that runs say, on HUP and USR2 too.
Status: 0 a plan or nothing, 1 refused, 2 usage.

Example: the plan of a reload:
  prefork plan --from a.toml --to b.toml HUP";
