//! The requests of scripts.

use child_events::read_log;
use dialogue_sched::{Reports, Script, run_all};
use session::{Act, Pairs, Request, Settings};
use std::alloc::{AllocError, Global};
use std::test::Fail;
use tcl_words::Text;

fn push_act(text: &mut Text, act: &Act) -> Result<(), AllocError> {
    match act {
        Act::Spawn(words) => {
            text.extend(b" spawn")?;
            for word in words.as_slice() {
                text.push(b' ')?;
                text.extend(word.as_slice())?;
            }
            Ok(())
        }
        Act::Write(bytes) => {
            text.extend(b" write ")?;
            text.extend(bytes.as_slice())
        }
        Act::End => text.extend(b" end"),
        Act::Close => text.extend(b" close"),
        Act::Wait => text.extend(b" wait"),
    }
}

fn asked(alloc: Global, requests: &[Request]) -> Result<Text, AllocError> {
    let mut text = Text::new(alloc);
    for request in requests {
        text.push(b'0' + request.child % 10)?;
        push_act(&mut text, &request.act)?;
        text.push(b';')?;
    }
    Ok(text)
}

fn reports(alloc: Global, source: &[u8], log: &[u8]) -> Result<Reports, Fail> {
    let script = Script {
        source: Text::from_slice(alloc, source)?,
        settings: Settings {
            steps: 1_000_000,
            limit_ms: None,
            vars: Pairs::new(alloc),
            host: false,
            tells_vars: true,
        },
    };
    let mut scripts = Vec::new(alloc);
    scripts.push(script)?;
    let events = read_log(alloc, log).ok().ok_or("the log has a fault")?;
    match run_all(alloc, scripts, events.as_slice()) {
        Ok(reports) => Ok(reports),
        Err(_) => Err(Fail::from("there are no reports")),
    }
}

/// A script, its log, and its requests as text, with the numbers of their children.
type Row = (&'static [u8], &'static [u8], &'static [u8]);

static ROWS: [Row; 23] = [
    (
        b"spawn p; send \"a\\n\"; expect -ex b; puts done",
        b"ok 1 1 1\nok 1 1 2\nout 1 1 3 620a\n",
        b"1 spawn p;1 write a\n;",
    ),
    (
        b"spawn cat; send \"hi\\r\"; expect \"hi\\r\\nhi\\r\\n\"",
        b"ok 1 1 5\nok 1 1 10\nout 1 1 20 68690a\n",
        b"1 spawn cat;1 write hi\n;",
    ),
    (
        b"spawn p; send \"abc\\004\"; send \"\\177\\r\"; send \"\\004\"; send \"x\\r\"; expect -ex \"x\\r\\n\"",
        b"ok 1 1 0\nok 1 1 1\nok 1 1 2\nok 1 1 3\n",
        b"1 spawn p;1 write abc;1 write \n;1 end;",
    ),
    (
        b"set stty_init {raw -echo}; spawn p; send \"a\\r\\n\"; expect -ex b",
        b"ok 1 1 1\nok 1 1 2\nout 1 1 3 620a\n",
        b"1 spawn p;1 write a\r\n;",
    ),
    (
        b"spawn p; set a $spawn_id; spawn q; send -i $a x; puts $spawn_id",
        b"ok 1 1 0\nok 1 2 1\n",
        b"1 spawn p;2 spawn q;",
    ),
    (
        b"proc start {} {spawn p}; start; send x",
        b"ok 1 1 0\n",
        b"1 spawn p;",
    ),
    (
        b"proc start {} {global spawn_id; spawn p}; start; send x",
        b"ok 1 1 0\n",
        b"1 spawn p;",
    ),
    (
        b"spawn cat; expect eof",
        b"ok 1 1 1\nend 1 1 2\nok 1 1 3\n",
        b"1 spawn cat;1 close;",
    ),
    (
        b"spawn p; expect \"cd\"; puts <$expect_out(buffer)>; expect \"*\"; puts <$expect_out(0,string)>",
        b"ok 1 1 0\nout 1 1 1 61626364656667680a\n",
        b"1 spawn p;",
    ),
    (
        b"spawn p; expect -indices -re \"b(b*).*(k+)\"; puts \"$expect_out(0,start) $expect_out(0,end) $expect_out(1,start) $expect_out(1,end) $expect_out(2,start) $expect_out(2,end)\"",
        b"ok 1 1 0\nout 1 1 1 616262626361626b6b6b6b610a\n",
        b"1 spawn p;",
    ),
    (
        b"spawn p; expect login:; puts <$expect_out(0,string)>",
        b"ok 1 1 0\nout 1 1 1 6c6f67\nout 1 1 2 696e3a\n",
        b"1 spawn p;",
    ),
    (
        b"spawn p; match_max 5; expect full_buffer {puts $expect_out(buffer)}",
        b"ok 1 1 0\nout 1 1 1 61626364656667\n",
        b"1 spawn p;",
    ),
    (
        b"spawn p; match_max 5; expect cdefgh {puts $expect_out(buffer)}",
        b"ok 1 1 0\nout 1 1 1 61626364656667\nout 1 1 2 68\n",
        b"1 spawn p;",
    ),
    (
        b"spawn p; set timeout 1; expect a exp_continue timeout {puts late} b {puts done}",
        b"ok 1 1 0\nout 1 1 900 61\nout 1 1 1800 61\nout 1 1 2700 61\nout 1 1 3600 62\n",
        b"1 spawn p;",
    ),
    (
        b"spawn p; set timeout 1; expect a {exp_continue -continue_timer} timeout {puts late} b {puts done}",
        b"ok 1 1 0\nout 1 1 900 61\nout 1 1 1800 61\nout 1 1 2700 61\nout 1 1 3600 62\n",
        b"1 spawn p;",
    ),
    (
        b"spawn p; expect a* {puts gl} -re b {puts re}",
        b"ok 1 1 0\nout 1 1 1 6162\n",
        b"1 spawn p;",
    ),
    (
        b"spawn p; expect {\n-ex a {puts A}\ntimeout {puts T}\n}",
        b"ok 1 1 0\nout 1 1 1 61\n",
        b"1 spawn p;",
    ),
    (
        b"log_user 0; spawn p; expect -ex a; puts [log_user -info]",
        b"ok 1 1 0\nout 1 1 1 61\n",
        b"1 spawn p;",
    ),
    (
        b"spawn p; expect -timeout 1 -ex x {puts got} timeout {puts late}",
        b"ok 1 1 100\nout 1 1 1101 78\n",
        b"1 spawn p;",
    ),
    (
        b"if {[catch {spawn nosuch} m]} {puts $m}",
        b"bad 1 1 3 notfound\n",
        b"1 spawn nosuch;",
    ),
    (
        b"spawn p; puts [wait]; spawn q; puts [wait]; catch {wait} m; puts $m",
        b"ok 1 1 1\nexit 1 1 2 3\nok 1 2 3\nkilled 1 2 4\n",
        b"1 spawn p;1 wait;2 spawn q;2 wait;",
    ),
    (
        b"spawn p; if {[catch {expect x} m]} {puts $m}",
        b"ok 1 1 0\nfail 1 1 5 other\nok 1 1 6\n",
        b"1 spawn p;1 close;",
    ),
    (
        b"spawn p; close; send x",
        b"ok 1 1 0\nok 1 1 1\n",
        b"1 spawn p;1 close;",
    ),
];

#[test]
fn scripts_ask(rt: HostRuntime) -> Result<(), Fail> {
    for row in &ROWS {
        let (source, log, wanted) = row;
        let reports = reports(rt.alloc(), source, log)?;
        let [report] = reports.as_slice() else {
            return Err(Fail::from("no report"));
        };
        let asked = asked(rt.alloc(), report.requests.as_slice())?;
        assert_eq!(rt; asked.as_slice(), *wanted, "in {source:?}");
    }
    Ok(())
}
