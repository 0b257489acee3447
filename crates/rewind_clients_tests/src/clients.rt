//! Runs of several clients.

use nd_history::{Gate, OpenGate};
use nd_testing::Sign;
use rewind_clients::{debug_clients, debug_clients_within};
use rewind_lines::{Sink, Unwritten};
use rewind_options::{DebugFault, Options};
use rewind_testing::{
    HELD, LINE, LINE_REPLY, NEVER, Newlines, Pieces, Taken, empty_sink, pieces_of,
};
use std::alloc::{AllocError, Global};
use std::rt::Clock;
use std::sync::Wait;
use std::test::Fail;
use std::thread::Threads;

static TWO: Options = Options {
    processors: 1,
    clients: 2,
};

/// Two clients of two processors.
static FOUR: Options = Options {
    processors: 2,
    clients: 2,
};

const FEED: &str = r#"{"client":0,"do":"feed","next":"next","p":0,"values":[],"vertex":"a"}"#;

const FEED_REPLY: &str =
    "{\"client\":0,\"number\":0,\"reply\":{\"at\":1,\"kept\":1,\"ok\":true}}\n";

/// Holds client 0 before each of its commands until client 1 comes to one.
#[derive(Drop)]
struct Held<'a, R: Clock>(Sign<'a, R>);

impl<R: Clock + Sync> Gate for Held<'_, R> {
    fn call(&self, who: u64, _number: u64) {
        if who == 1 {
            self.0.give();
        } else {
            self.0.wait();
        }
    }
}

#[test]
fn clients_at_the_same_time(rt: HostRuntime) -> Result<(), Fail> {
    let alloc = rt.alloc();
    let script = format!(in alloc;
        "{LINE}\n{{\"client\":0,\"do\":\"back\"}}\n{{\"client\":1,\"do\":\"back\"}}\n"
    )?;
    let gate = Held(Sign::new(&rt));
    let mut source = pieces_of(script.as_bytes(), 1000, NEVER);
    let mut sink = empty_sink(alloc, 1000, NEVER, false);
    let ended = debug_clients(&rt, alloc, &mut source, &mut sink, &TWO, &gate);
    assert!(rt; ended == Ok(()));
    assert!(rt; gate.0.came());
    let first = "{\"client\":0,\"number\":0,\"reply\":{\"code\":20,\"error\":\"AtStart\"}}\n";
    let second = "{\"client\":1,\"number\":0,\"reply\":{\"code\":20,\"error\":\"AtStart\"}}\n";
    let one_way = format!(in alloc; "{LINE_REPLY}{first}{second}")?;
    let other_way = format!(in alloc; "{LINE_REPLY}{second}{first}")?;
    let wrote = sink.bytes.as_slice();
    assert!(rt; wrote == one_way.as_bytes() || wrote == other_way.as_bytes());
    Ok(())
}

/// A sink that gives a sign once something is written.
#[derive(Drop)]
struct Signed<'a, R: Clock> {
    taken: Taken,
    written: &'a Sign<'a, R>,
}

impl<R: Clock> Sink for Signed<'_, R> {
    ghost failed = { λ s. s.taken.has_failed };

    fn write(&mut self, bytes: &[u8]) -> Result<usize, Unwritten> {
        let n = self.taken.write(bytes)?;
        self.written.give();
        Ok(n)
    }
}

/// Gives a sign if a client comes to a command before anything is written.
#[derive(Drop)]
struct Early<'a, R: Clock> {
    written: &'a Sign<'a, R>,
    early: Sign<'a, R>,
}

impl<R: Clock + Sync> Gate for Early<'_, R> {
    fn call(&self, _who: u64, _number: u64) {
        if !self.written.came() {
            self.early.give();
        }
    }
}

/// Checks that the reply to the graph's line is written before the clients begin.
#[test]
fn clients_begin_after_the_opening(rt: HostRuntime) -> Result<(), Fail> {
    let alloc = rt.alloc();
    let script = feed_of(alloc)?;
    let written = Sign::new(&rt);
    let gate = Early {
        written: &written,
        early: Sign::new(&rt),
    };
    let mut source = pieces_of(script.as_slice(), 1000, NEVER);
    let mut sink = Signed {
        taken: empty_sink(alloc, 1000, NEVER, false),
        written: &written,
    };
    let ended = debug_clients(&rt, alloc, &mut source, &mut sink, &TWO, &gate);
    assert!(rt; ended == Ok(()));
    assert!(rt; written.came() && !gate.early.came());
    let wrote = sink.taken.bytes.as_slice();
    assert!(rt; wrote.starts_with(LINE_REPLY.as_bytes()));
    Ok(())
}

/// Holds client 1 before its first command until client 0 comes to its second, and client 0 there until client 1 comes to
/// its third.
#[derive(Drop)]
struct Between<'a, R: Clock> {
    first: Sign<'a, R>,
    second: Sign<'a, R>,
}

impl<R: Clock + Sync> Gate for Between<'_, R> {
    fn call(&self, who: u64, number: u64) {
        match (who, number) {
            (0, 1) => {
                self.first.give();
                self.second.wait();
            }
            (1, 0) => self.first.wait(),
            (1, 2) => self.second.give(),
            _ => {}
        }
    }
}

/// Checks that the gate is called before a command is executed: while the gate holds client 0, the log gets the commands of
/// client 1 but not the second command of client 0.
#[test]
fn clients_in_turn(rt: HostRuntime) -> Result<(), Fail> {
    let alloc = rt.alloc();
    let zero = "{\"client\":0,\"do\":\"back\"}\n";
    let one = "{\"client\":1,\"do\":\"back\"}\n";
    let script = format!(in alloc; "{LINE}\n{zero}{zero}{one}{one}{one}")?;
    let gate = Between {
        first: Sign::new(&rt),
        second: Sign::new(&rt),
    };
    let mut source = pieces_of(script.as_bytes(), 1000, NEVER);
    let mut sink = empty_sink(alloc, 1000, NEVER, false);
    let ended = debug_clients(&rt, alloc, &mut source, &mut sink, &TWO, &gate);
    assert!(rt; ended == Ok(()));
    assert!(rt; gate.first.came() && gate.second.came());
    let reply = "\"reply\":{\"code\":20,\"error\":\"AtStart\"}}\n";
    let firsts = format!(in alloc;
        "{LINE_REPLY}{{\"client\":0,\"number\":0,{reply}{{\"client\":1,\"number\":0,{reply}{{\"client\":1,\"number\":1,{reply}"
    )?;
    assert!(rt; sink.bytes.as_slice().starts_with(firsts.as_bytes()));
    Ok(())
}

/// The lines of two clients on *held*, each with its reply, in the order that the gate gives them: the second client runs
/// the first processor alone, and moves the capability; then the first runs both.
static TURNS: [(&str, &str); 5] = [
    (
        r#"{"client":0,"do":"feed","next":"close","p":0,"values":[7],"vertex":"a"}"#,
        r#"{"client":0,"number":0,"reply":{"at":1,"kept":1,"ok":true}}"#,
    ),
    (
        r#"{"client":1,"do":"run","limit":50,"only":[0]}"#,
        r#"{"client":1,"number":0,"reply":{"at":5,"kept":5,"ok":true,"ran":4,"stop":"idle"}}"#,
    ),
    (
        r#"{"client":1,"do":"release","p":0,"time":[0],"to":[2],"vertex":"h"}"#,
        r#"{"client":1,"number":1,"reply":{"at":6,"kept":6,"ok":true}}"#,
    ),
    (
        r#"{"client":0,"do":"run","limit":50,"only":[1,0]}"#,
        r#"{"client":0,"number":1,"reply":{"at":10,"kept":10,"ok":true,"ran":4,"stop":"idle"}}"#,
    ),
    (
        r#"{"client":1,"do":"unbreak","id":0}"#,
        r#"{"client":1,"number":2,"reply":{"code":25,"error":"NoBreak"}}"#,
    ),
];

/// Checks releases and runs of some processors by several clients. The last two commands may change places.
#[test]
fn clients_release_and_run_some(rt: HostRuntime) -> Result<(), Fail> {
    let alloc = rt.alloc();
    let [first, second, third, fourth, last] = TURNS.map(|turn| turn.0);
    let script = format!(in alloc;
        "{FIFTH}{HELD}\n{first}\n{second}\n{third}\n{fourth}\n{last}\n"
    )?;
    let gate = Between {
        first: Sign::new(&rt),
        second: Sign::new(&rt),
    };
    let mut source = pieces_of(script.as_bytes(), 1000, NEVER);
    let mut sink = empty_sink(alloc, 1000, NEVER, false);
    let ended = debug_clients(&rt, alloc, &mut source, &mut sink, &FOUR, &gate);
    assert!(rt; ended == Ok(()));
    assert!(rt; gate.first.came() && gate.second.came());
    let [first, second, third, fourth, last] = TURNS.map(|turn| turn.1);
    let begun = format!(in alloc; "{FIFTH_REPLY}{HELD_REPLY}{first}\n{second}\n{third}\n")?;
    let one_way = format!(in alloc; "{begun}{fourth}\n{last}\n")?;
    let other_way = format!(in alloc; "{begun}{last}\n{fourth}\n")?;
    let wrote = sink.bytes.as_slice();
    assert!(rt; wrote == one_way.as_bytes() || wrote == other_way.as_bytes());
    Ok(())
}

/// Returns a script of a graph and a feed, whose last line has no newline.
fn feed_of(alloc: Global) -> Result<Vec<u8>, AllocError> {
    let mut text = Vec::new(alloc);
    for line in [LINE, "\n", FEED] {
        text.extend_from_slice(line.as_bytes())?;
    }
    Ok(text)
}

#[test]
fn clients_of_a_source_that_fails(rt: HostRuntime) -> Result<(), Fail> {
    let script = feed_of(rt.alloc())?;
    for fails_at in 0..=script.len().div_ceil(9) {
        let mut source: Pieces = pieces_of(script.as_slice(), 9, fails_at);
        let mut sink = empty_sink(rt.alloc(), 100, NEVER, false);
        let ended = debug_clients(&rt, rt.alloc(), &mut source, &mut sink, &TWO, &OpenGate);
        assert!(rt; ended == Err(DebugFault::Read));
        assert!(rt; sink.bytes.is_empty(), "at {fails_at}");
    }
    Ok(())
}

#[test]
fn clients_of_a_sink_that_fails(rt: HostRuntime) -> Result<(), Fail> {
    let script = feed_of(rt.alloc())?;
    let want = format!(in rt.alloc(); "{LINE_REPLY}{FEED_REPLY}")?;
    for fails_at in 0..want.len().div_ceil(5) {
        for takes_none in [false, true] {
            let mut source = pieces_of(script.as_slice(), 100, NEVER);
            let mut sink: Taken = empty_sink(rt.alloc(), 5, fails_at, takes_none);
            let ended = debug_clients(&rt, rt.alloc(), &mut source, &mut sink, &TWO, &OpenGate);
            assert!(rt; ended == Err(DebugFault::Write));
            assert!(rt; want.as_bytes().starts_with(sink.bytes.as_slice()));
            assert!(rt; sink.bytes.len() <= fails_at.saturating_mul(5));
        }
    }
    Ok(())
}

#[test]
fn clients_stop_at_their_limit(rt: HostRuntime) -> Result<(), Fail> {
    let alloc = rt.alloc();
    for limit in [0, 10_000, 70_000] {
        let mut source = Newlines { given: 0 };
        let mut sink = empty_sink(alloc, 100, NEVER, false);
        let ended = debug_clients_within(
            &rt,
            alloc,
            &mut source,
            &mut sink,
            &TWO,
            &OpenGate,
            limit,
        );
        assert!(rt; ended == Err(DebugFault::TooLong));
        assert!(rt; source.given == (limit as u64).saturating_add(1));
        assert!(rt; sink.bytes.is_empty());
    }
    let script = feed_of(alloc)?;
    for (limit, want) in [
        (script.len(), Ok(())),
        (script.len().saturating_sub(1), Err(DebugFault::TooLong)),
    ] {
        let mut source = pieces_of(script.as_slice(), 100, NEVER);
        let mut sink = empty_sink(alloc, 100, NEVER, false);
        let ended = debug_clients_within(
            &rt,
            alloc,
            &mut source,
            &mut sink,
            &TWO,
            &OpenGate,
            limit,
        );
        assert!(rt; ended == want);
        assert!(rt; sink.bytes.is_empty() == want.is_err());
    }
    Ok(())
}

/// Returns the replies to a script of two clients, and how it ends.
fn run_of<R: AllocGlobal + Threads + Wait + Sync>(
    rt: &R,
    parts: &[&str],
) -> Result<(Vec<u8>, Result<(), DebugFault>), AllocError> {
    let mut script = Vec::new(rt.alloc());
    for part in parts {
        script.extend_from_slice(part.as_bytes())?;
    }
    let mut source = pieces_of(script.as_slice(), 1000, NEVER);
    let mut sink = empty_sink(rt.alloc(), 1000, NEVER, false);
    let ended = debug_clients(rt, rt.alloc(), &mut source, &mut sink, &TWO, &OpenGate);
    Ok((sink.bytes, ended))
}

const SECOND: &str = "{\"version\":2}\n";

const SECOND_REPLY: &str = "{\"ok\":true,\"version\":2}\n";

const THIRD: &str = "{\"version\":3}\n";

const FOURTH: &str = "{\"version\":4}\n";

const FIFTH: &str = "{\"version\":5}\n";

const FIFTH_REPLY: &str = "{\"ok\":true,\"version\":5}\n";

const HELD_REPLY: &str = "{\"locations\":5,\"ok\":true,\"processors\":2}\n";

#[test]
fn clients_of_a_later_version(rt: HostRuntime) -> Result<(), Fail> {
    let (wrote, ended) = run_of(&rt, &[" \n", SECOND, "\n"])?;
    assert!(rt; ended == Ok(()));
    assert!(rt; wrote.as_slice() == SECOND_REPLY.as_bytes());
    let (wrote, ended) = run_of(&rt, &[SECOND, LINE, "\n\n", FEED])?;
    let want = format!(in rt.alloc(); "{SECOND_REPLY}{LINE_REPLY}{FEED_REPLY}")?;
    assert!(rt; ended == Ok(()));
    assert!(rt; wrote.as_slice() == want.as_bytes());
    Ok(())
}

/// The lines after a version line or none, up to the graph's, and the error that is the only reply.
static FAULTS: [(&str, &str, &str); 10] = [
    (
        "",
        r#"{"client":0,"do":"export"}"#,
        "{\"code\":31,\"error\":\"BadShape\",\"line\":2}\n",
    ),
    (
        SECOND,
        r#"{"client":0,"do":"export"}"#,
        "{\"code\":36,\"error\":\"OneClientOnly\",\"line\":3}\n",
    ),
    (
        SECOND,
        r#"{"at":"none","client":0,"do":"why","q":0,"time":[0]}"#,
        "{\"code\":31,\"error\":\"BadShape\",\"line\":3}\n",
    ),
    (
        THIRD,
        r#"{"at":"none","client":0,"do":"why","q":0,"time":[0]}"#,
        "{\"code\":36,\"error\":\"OneClientOnly\",\"line\":3}\n",
    ),
    (
        THIRD,
        r#"{"client":0,"do":"candidates"}"#,
        "{\"code\":31,\"error\":\"BadShape\",\"line\":3}\n",
    ),
    (
        FOURTH,
        r#"{"client":0,"do":"candidates"}"#,
        "{\"code\":36,\"error\":\"OneClientOnly\",\"line\":3}\n",
    ),
    (
        FOURTH,
        r#"{"client":0,"do":"release","p":0,"time":[0],"vertex":"a"}"#,
        "{\"code\":31,\"error\":\"BadShape\",\"line\":3}\n",
    ),
    (
        FOURTH,
        r#"{"client":0,"do":"run","limit":1,"only":[0]}"#,
        "{\"code\":31,\"error\":\"BadShape\",\"line\":3}\n",
    ),
    (
        FIFTH,
        r#"{"client":0,"do":"run","limit":1,"only":[]}"#,
        "{\"code\":31,\"error\":\"BadShape\",\"line\":3}\n",
    ),
    (
        FIFTH,
        r#"{"client":2,"do":"release","p":0,"time":[0],"vertex":"a"}"#,
        "{\"code\":35,\"error\":\"BadClient\",\"line\":3}\n",
    ),
];

#[test]
fn faults_behind_a_version_line(rt: HostRuntime) -> Result<(), Fail> {
    for (first, line, fault) in FAULTS {
        let (wrote, ended) = run_of(&rt, &[first, LINE, "\n", line])?;
        assert!(rt; ended == Err(DebugFault::Script));
        assert!(rt; wrote.as_slice() == fault.as_bytes(), "{line}");
    }
    for (line, fault) in [
        ("{", "{\"code\":30,\"error\":\"BadLine\",\"line\":2}\n"),
        (SECOND, "{\"code\":40,\"error\":\"Shape\"}\n"),
        (HELD, "{\"code\":40,\"error\":\"Shape\"}\n"),
    ] {
        let (wrote, ended) = run_of(&rt, &[SECOND, line])?;
        assert!(rt; ended == Err(DebugFault::Graph));
        assert!(rt; wrote.as_slice() == fault.as_bytes(), "{line}");
    }
    Ok(())
}
