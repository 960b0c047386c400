//! A process that ends children if this one is killed.

use std::alloc::Global;
use std::io::{PipeWriter, Write};
use std::process::{Child, SystemProcess};

/// The script of a guard, for sh(1). It reads `+N` when a child is started, and `-N` once none of
/// its processes is left. If its input ends while some are left, it sends SIGHUP to all processes
/// that they started, and SIGKILL a second later. `grow` adds to `k` the processes in the sessions
/// of those in `k`, and their children.
pub(crate) const GUARD: &str = r#"
trap '' INT TERM HUP QUIT
k=' '
while read -r l; do
    n=${l#?}
    case $l in
        +*) k="$k$n " ;;
        -*) k="${k%% $n *} ${k#* $n }" ;;
    esac
done
grow() {
    old=
    while [ "$old" != "$k" ]; do
        old=$k
        for f in /proc/[0-9]*/stat; do
            read -r l <"$f" || continue
            n=${f#/proc/}
            n=${n%/stat}
            set -- ${l##*) }
            case $k in
                *" $n "*) ;;
                *" $2 "* | *" $4 "*) k="$k$n " ;;
            esac
        done
    done
}
case $k in
    *[0-9]*)
        grow
        kill -s HUP $k
        sleep 1
        grow
        kill -s KILL $k
        ;;
esac
"#;

/// A guard that was started.
#[derive(Drop)]
pub struct Guard {
    input: PipeWriter,
    /// The process ends once its input is closed.
    _process: Child<SystemProcess>,
}

impl Guard {
    pub(crate) fn new(input: PipeWriter, process: Child<SystemProcess>) -> Guard {
        Guard {
            input,
            _process: process,
        }
    }

    /// Notifies the guard of a child: `+` when it is started, `-` once none of its processes is
    /// left.
    pub(crate) fn tell(&mut self, alloc: Global, mark: char, id: u32) {
        if let Ok(line) = format!(in alloc; "{mark}{id}\n") {
            drop(self.input.write_all(line.as_bytes()));
        }
    }
}
