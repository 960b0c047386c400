//! The texts of `--help` after the list of options, and of `--version`.

/// The version that `-V` prints.
pub const VERSION: &str = "1.0";

/// The version that `--version` prints.
pub const LONG_VERSION: &str = "\
1.0
It reads logs of versions 1, 2 and 3, and writes version 2. The file BUILT
beside it names its commit and its kit. In the repository, ./exprun --version
does so.";

/// The help of the program.
pub const PROGRAM: &str = "\
A script is a file of Expect commands (spawn, send, expect, ..) in a subset of
Tcl. It starts programs, sends input to them, and waits for their output.

run starts the programs and runs the scripts with them. Once all scripts have
ended, it prints one report per script: how it ended, and its transcript, which
is what an operator would have seen. With --record it also writes a log of
what the programs did.

script runs one script as a command, as expect(1) does: with arguments, the
environment, and an exit status of its own. It prints what the script shows as
it appears, and no report.

replay starts no programs. It reads such a log instead, and prints the reports
of the scripts. An unchanged script has the same report as in the run. A changed
script runs with the same events.

show prints a log in readable form, one line per event.

explain prints what scripts did at each event of a log, and what they then
waited for. Use it to see why an expect went on waiting.

plan writes a log for one script, from a timeline of its programs' output. It
inserts each answer when the script requests it.

check finds errors in scripts without running them. It prints one line per
finding.

Up to 64 scripts run side by side. No script affects another.

Exit status: 0 if every script ended with exit:0, or if check found nothing;
1 otherwise; 2 on an error, which is a line on standard error. With script, it
is that of the script. A run stopped by a signal has 128 plus the signal's
number. If the reader of standard output has closed it, exprun ends with status
141 and prints no error.

Each command has its own help, with an example. `exprun run --help` describes
how programs are run, `exprun script --help` scripts as commands, `exprun replay
--help` logs and reports, `exprun show --help` how a log is shown, `exprun
explain --help` how scripts are explained, `exprun plan --help` timelines, and
`exprun check --help` findings.";

/// The help of `replay`.
pub const REPLAY: &str = "\
LOG comes before FILE. /dev/stdin as LOG is standard input.

A log lists what happened to the children of the scripts, one event per line:
the event, the script, its child (numbered by spawns, from 1), and the moment in
milliseconds.

    exprun-log 2         first line: the version of the log
    ok 1 1 5             a request of script 1 to its child 1 succeeded
    bad 1 1 5 broken     it failed: notfound, denied, broken, memory or other
    out 1 1 20 68690a    the child wrote these bytes, in hexadecimal, - for none
    end 1 1 30           the child's output has ended
    fail 1 1 30 other    reading the child's output failed
    exit 1 1 31 0        the child exited with this status
    killed 1 1 31        a signal ended the child
    tick 10031           the time is 10031 ms, for all scripts
    total 8              last line: the number of events

There are no comments and no empty lines. One space separates two fields, and
none comes before the first or after the last. Each line ends with LF and no CR,
the last one too. Version 1, which has neither the first line nor the last, is
read too. Version 3 begins with `exprun-log 3`, and its children are 0 to 999.

If a log has an error, no script runs and the status is 2. The first bad line is
printed as `exprun: log fault F at line L`, where F is

    1  an unknown word or cause, a field too many or too few, or no newline
    2  no number, one with a leading 0, or one that is too great
    3  bytes that aren't pairs of lower-case hexadecimal digits
    4  a script outside 1 to 64
    5  a child outside 1 to 16, in version 3 outside 0 to 999
    6  more than 8,219 bytes in a line, in version 3 8,220, or more than 8,192
       digits in an out
    8  a total that is wrong, is missing, or has a line after it
    9  a first line exprun-log that isn't `exprun-log 2` or `exprun-log 3`

Fault 8 after the last line means that the log was cut off, as in the FILE.part
of a run that was killed. --cut reads such a log up to its last complete line.
Scripts that were running then are reported as waiting. Fault 7, refused memory,
is printed as `exprun: out of memory`.

A report is a line with the script's ending and counts, followed by its
transcript. The endings are exit:N, error (its text follows the transcript),
steplimit, timelimit, memory, and waiting, for an event that the log doesn't
contain.

With --summary a report is only its first line, followed by the script's file.
The last line has counts: of scripts, of those that ended with exit:0 (well),
and of each ending. --format json is for programs: an array with one object per
report, each on its own line. --format jsonl prints only the objects, one per
line. A run then prints each object when its script ends. --format tap is for
prove(1): one test per script, which passes if the script ended with exit:0.

--escape escapes characters in program output that affect a terminal. In
transcripts and error texts a control character is written as \\x and two
hexadecimal digits, a carriage return as \\r, and a backslash as two. A byte that
isn't UTF-8 is written as \\x and digits too. Tabs and ends of lines are kept,
with their carriage returns. Counts are those of the unescaped bytes.

--set, --secret, --env, --env-all and --each set variables: see `exprun run
--help`.

--transcripts also writes each transcript, unescaped, to a file DIR/N-NAME. N is
the script's number, NAME the last part of its file's name. DIR is created if it
doesn't exist. If a file can't be written, an error is printed and the status is
2. The other files and the reports are written anyway.

Example: cat.exp is

    spawn cat
    send \"hi\\r\"
    expect \"hi\\r\\nhi\\r\\n\"

and the file log is

    exprun-log 2
    ok 1 1 5
    ok 1 1 10
    out 1 1 20 68690a
    total 3

Then `exprun replay log cat.exp` prints

    script 1 end=exit:0 steps=3 sent=3 transcript=19
    spawn cat
    hi
    hi

The terminal showed the first hi when it was sent, and cat wrote the second.";

/// The help of `run`.
pub const RUN: &str = "\
Each script spawns its own programs, over pipes. A program is looked up in PATH,
and sees pipes instead of a terminal. Its standard error is that of exprun;
`spawn sh -c {exec 2>&1; ..}` joins it to the dialogue. With --stderr label each
program has its own standard error. exprun then prints its lines on standard
error, after its script's number.

`spawn -tty` runs a program on a terminal of the system, by setsid(1), script(1)
and stty(1), as ssh and sudo need. With --host every spawn without -notty does.
The terminal joins standard error to the output, and stty_init may have any
words of stty(1). The status of a program that a signal ended is 128 plus the
signal's number.

The scripts run side by side, and no script affects another. --workers shares
them among threads in turn: of two workers, the first runs scripts 1, 3, .. A
script that computes for a long time delays only the scripts of its own worker.

No program outlives the run. When a script ends, the input of its programs ends,
and exprun drops their further output. A program that goes on is hung up after S
seconds (--grace S, 2 by default): it and all processes that it started get
SIGHUP, and SIGKILL a second later. A process that left its session, as a daemon
does, is left alone once its parent has ended. `close` ends a program's input;
with --hangup the program is also hung up S seconds after it. With --guard
programs are hung up even if exprun itself is killed. Each program has a session
of its own, so it can't reach your terminal.

Ctrl-C, SIGTERM and SIGHUP stop a run that was started with these signals
blocked, as ./exprun starts it. Scripts that have not ended are reported as
`waiting`, the record and all other files are written, and the programs are hung
up at once. The status is 128 plus the signal's number. A script that computes
without waiting gets three seconds; then the run is killed.

--record writes the log to FILE.part during the run, usually at most 0.2 seconds
late, and sends it to the disk about once a second. Once it is complete, it is
renamed to FILE, and replaces an existing file. After a run that was killed,
`exprun replay --cut FILE.part` reads it. A pipe or a device, such as
/dev/stdout, is written under its own name.

--follow also prints on standard error what the scripts show, as it appears. For
a single script on a terminal it is unchanged, otherwise it is escaped. For
several scripts it is printed by lines, after each script's number. The reports
are unchanged, with one exception. If standard output is a terminal too, the
report of a single script has no transcript, which was printed before. --format
text prints it anyway.

--set sets a variable before each script starts, as `--set host=gate`. NAME is
neither env nor an element. --env sets an element of the array env, which is
empty otherwise: `--env TO=ada@gate` to this value, `--env USER` to exprun's
own, if it has one. --env-all first sets env to all of exprun's own environment.
Programs have the environment of exprun in any case. A log contains no
variables, so give replay the same options.

--secret NAME=FILE sets the variable NAME to the bytes of FILE, without a newline
at their end. In all that exprun prints and writes, NAME then stands in place of
these bytes. Only the record is unchanged.

--each runs each FILE once per row of LIST, a file of comma-separated values
(CSV). Its first line names variables, and each later line, a row, has their
values:

    device,password
    sw001,\"s3,same\"

--each sets them after --set and --secret. A report then names its script
FILE:VALUE, with the row's first value. LIST has at most 64 rows, or fewer for
several FILEs.

--explain writes to FILE, once all scripts have ended, what each script did
at each event and what it then waited for: see `exprun explain --help`. If FILE
can't be written, an error is printed and the status is 2. The reports are
printed anyway.

--summary, --format and --escape choose the form of the reports, and
--transcripts writes files: see `exprun replay --help`. --format jsonl prints
each report when its script ends, so a killed run has printed the reports of all
scripts that had ended.

Example: cat.exp is

    spawn cat
    send \"hi\\r\"
    expect \"hi\\r\\nhi\\r\\n\"

Then `exprun run cat.exp` prints

    script 1 end=exit:0 steps=3 sent=3 transcript=19
    spawn cat
    hi
    hi

The terminal showed the first hi when it was sent, and cat wrote the second.
With `--record log` the run writes a log, and `exprun replay log cat.exp` prints
the same report again.";

/// The help of `script`.
pub const SCRIPT: &str = "\
All words after FILE belong to the script, even if they begin with -. The
variable argv0 is FILE, argv the list of the ARGs, and argc their number. The
array env is exprun's own environment. With --env or --env-none it is only what
--env sets. --set and --secret come last, so they may replace argv.

What the script shows is printed on standard output as it appears, byte for
byte, and nothing else is. Programs are run on terminals, as by `run --host`:
see `exprun run --help`. With --no-host they are run over pipes.

The exit status is that of `exit`. If an error ends the script, its message is
printed on standard error, and the status is 1. If a limit ends it, standard
error says `exprun: timelimit`, `exprun: steplimit` or `exprun: memory`, and the
status is 1. If FILE can't be read or a file can't be written, the status is 2.
After Ctrl-C, SIGTERM or SIGHUP it is 128 plus the signal's number.

An executable file whose first line is `#!/usr/bin/env -S exprun script` is a
command.

--record writes a log of the run, as run does. --replay prints the same bytes
over this log, with the same status. Give it the same options, FILE and ARGs: a
log contains no variables. If the log ends before the script does, standard
error says `exprun: waiting`, and the status is 1.

Example: hello.exp is

    puts \"hello, [lindex $argv 0]\"
    exit 3

Then `exprun script hello.exp Ada` prints

    hello, Ada

and ends with status 3.";

/// The help of `show`.
pub const SHOW: &str = "\
/dev/stdin as LOG is standard input. `exprun replay --help` describes logs.

Each line is an event: its moment in milliseconds, its script, its child
(numbered by spawns, from 1), and what happened:

    wrote \"..\"            the child wrote these bytes
    output ended          the child's output has ended
    output lost: CAUSE    reading the child's output failed
    request done          a request of the script to it succeeded
    request failed: CAUSE it failed: notfound, denied, broken, memory or other
    ended with status N   the child exited with this status
    ended by a signal     a signal ended the child

A tick is only a moment: the time, for all scripts. It has no script, and
--script N shows it too.

The text between quotes is UTF-8. There \\\\ is a backslash, \\\" a quote, \\n a
newline, \\r a carriage return, and \\t a tab. \\x with two hexadecimal digits is
any other byte: of a control character, or of what isn't UTF-8. A line therefore
has no effect on a terminal, and the bytes can be read from it.

If the log has an error, nothing is shown and the status is 2. The first bad
line is printed, as by replay.

Example: the file log is

    exprun-log 2
    ok 1 1 5
    ok 1 1 10
    out 1 1 20 68690a
    tick 10031
    total 4

Then `exprun show log` prints

           5 ms  script 1  child 1  request done
          10 ms  script 1  child 1  request done
          20 ms  script 1  child 1  wrote \"hi\\n\"
       10031 ms  tick";

/// The help of `explain`.
pub const EXPLAIN: &str = "\
LOG comes before FILE. /dev/stdin as LOG is standard input. `exprun replay
--help` describes logs, and `exprun show --help` how events are shown.

For each script, its events are printed in order. `output closed by exprun`
replaces `output lost: CAUSE` if the script had asked to close that child, or
had ended: a run then closes the output itself. These lines may follow an event:

    asks child C: ..      a request to a child: spawn, write, end, close or wait
    waits for the answer of child C
                          it continues once the answer has arrived
    waits for the start of child C
                          the same, for the first newline on a terminal
    waits for output until M ms
                          an expect waits, until that moment at the latest
    child C has N bytes, the last are ..
                          output of the child that no pattern has taken
    -ex, -gl, -re ..  no  a pattern of the expect, which doesn't match there
    ..  no, only FRONT    the longest front of the pattern that matches there
    ..  no, nothing of it no front of it does
    .. was met by child C
                          what ended a wait; below it, the new expect_out

A pattern is printed as it can be written, so a pattern made from variables
shows their values. No line follows a tick that doesn't concern the script. The
last lines are the script's ending, with the text of its error.

--script N prints only script N. The status is 0, whatever the endings of the
scripts are, and 2 on an error, which is a line on standard error.

Example: ask.exp is

    spawn cat
    expect -ex {name: }
    send bob\\r

and the file log is

    exprun-log 2
    ok 1 1 5
    out 1 1 20 4e616d653a20
    total 2

Then `exprun explain log ask.exp` prints

    script 1
                 asks child 1: spawn \"cat\"
                 waits for the answer of child 1
           5 ms  script 1  child 1  request done
                 waits for output until 10005 ms
                   child 1 has 0 bytes, the last are \"\"
                     -ex \"name: \"  no
          20 ms  script 1  child 1  wrote \"Name: \"
                 waits for output until 10005 ms
                   child 1 has 6 bytes, the last are \"Name: \"
                     -ex \"name: \"  no, nothing of it
    script 1 end=waiting steps=2 sent=0 transcript=17";

/// The help of `plan`.
pub const PLAN: &str = "\
FILE comes before TIMELINE. The log is written to standard output, for replay as
script 1. plan runs the script over the timeline, and answers each request to a
child at once. A start, a write and a close succeed, and a wait is answered with
the end of the child.

A line of a timeline is one of these, with spaces or tabs between its words:

    MOMENT \"TEXT\"         the child writes this
    MOMENT end            the child's output ends
    MOMENT fail CAUSE     reading the child's output fails: notfound, denied,
                          broken, memory or other
    MOMENT tick           only the time passes, as for a timeout after the last
                          of the other lines
    exit N                the answer to a wait for the child: its status N, or
                          killed; 0 if there is no such line

MOMENT is in milliseconds, and never falls. +N is N milliseconds after the
previous line. For another child than the first, write `child N` (numbered by
spawns, from 1) after MOMENT, and before exit. Empty lines and lines that begin
with # are ignored.

In TEXT \\\\ is a backslash, \\\" a quote, \\n a newline, \\r a carriage return, \\t a
tab, and \\x with two hexadecimal digits any byte, as show prints them.

TIMELINE may also be a recording of a terminal: a cast of asciinema (version 2
or 3), or a typescript of script(1). --timing gives the times of a typescript,
classic or advanced. Without it the typescript is shown all at once. What a
recording shows is the output of child 1, which ends with it. It contains the
terminal's echo and carriage returns, so the script needs
`set stty_init {-echo -onlcr}`.

If a line is bad, nothing is written and the status is 2. The first bad line is
printed, as in `exprun: plan: TIMELINE:3: no moment`. It is also an error if the
script makes more than 100,000 requests while the timeline stands still.

Example: cat.exp is

    spawn cat
    send \"hi\\r\"
    expect \"hi\\r\\nhi\\r\\n\"

and the file timeline is

    # cat writes what it reads
    20 \"hi\\n\"

Then `exprun plan cat.exp timeline` prints

    exprun-log 2
    ok 1 1 0
    ok 1 1 0
    out 1 1 20 68690a
    total 3";

/// The help of `check`.
pub const CHECK: &str = "\
Each script is read as a whole, with the scripts in its words, and none is run.
check prints one line per finding:

    FILE:LINE: TEXT

LINE is the line on which the command begins, counted from 1. TEXT is the error
that a run would end with. check finds

    malformed commands
    words that name neither a command nor a procedure of the file, with advice
        what to use instead, if there is any
    wrong numbers of arguments
    flags and options that a command doesn't have
    malformed regular patterns and expressions

in words without $ and [. The value of other words is known only when the script
runs, and so are the words after {*}.

The status is 0 if nothing is found, 1 if something is, and 2 on an error.

Example: bad.exp is

    spawn cat
    expct hi
    while {1} {incr}

Then `exprun check bad.exp` prints

    bad.exp:2: invalid command name \"expct\"
    bad.exp:3: wrong # args for \"incr\"";
