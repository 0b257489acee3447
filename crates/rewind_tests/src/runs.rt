//! Runs of one client.

use rewind_lines::{ReadSource, WriteSink};
use rewind_options::{DebugFault, Options};
use rewind_run::{debug, debug_within};
use rewind_testing::{
    Asks, LINE, LINE_REPLY, NEVER, Newlines, Spills, Stumbles, Told, empty_sink, pieces_of,
};
use std::alloc::{AllocError, Global};
use std::cell::Cell;
use std::io::ErrorKind;
use std::test::Fail;
use std::thread::Threads;

/// The graph of an input, an opaque vertex, and a sink at each of its two ports.
pub const TRACED: &str =
    r#"{"vertices":[{"name":"a","op":"input","depth":0},{"name":"x","op":"opaque","depth":0,"ports":2},{"name":"y","op":"sink","depth":0},{"name":"z","op":"sink","depth":0}],"edges":[{"name":"ax","from":"a","port":0,"to":"x","route":"local"},{"name":"xy","from":"x","port":0,"to":"y","route":"local"},{"name":"xz","from":"x","port":1,"to":"z","route":"local"}]}"#;

/// A script's lines, each with its reply. The last has no newline.
static LINES: [(&str, &str); 8] = [
    (" \r", ""),
    (LINE, LINE_REPLY),
    (
        r#"{"do":"feed","p":0,"vertex":"a","values":[5],"next":"next"}"#,
        "{\"at\":1,\"kept\":1,\"ok\":true}\n",
    ),
    ("", ""),
    (
        r#"{"value":6,"time":[0],"edge":"az","p":0,"do":"take"}"#,
        "{\"code\":8,\"error\":\"NoRecord\"}\n",
    ),
    (
        r#"{"do":"ba"#,
        "{\"code\":30,\"error\":\"BadLine\",\"line\":6}\n",
    ),
    (
        r#"{"do":"count","at":"az","time":[0.0]}"#,
        "{\"code\":31,\"error\":\"BadShape\",\"line\":7}\n",
    ),
    (
        r#"{"do":"count","at":"az","time":[0]}"#,
        "{\"count\":1,\"ok\":true}\n",
    ),
];

pub static ONE: Options = Options {
    processors: 1,
    clients: 1,
};

/// Returns the script of these lines.
fn script(alloc: Global) -> Result<Vec<u8>, AllocError> {
    let mut text = Vec::new(alloc);
    for (i, (line, _)) in LINES.iter().enumerate() {
        if i != 0 {
            text.push(b'\n')?;
        }
        text.extend_from_slice(line.as_bytes())?;
    }
    Ok(text)
}

/// Returns the replies to the lines that end within the first bytes.
fn replies(alloc: Global, read: usize) -> Result<Vec<u8>, AllocError> {
    let mut text = Vec::new(alloc);
    let mut end = 0usize;
    for (line, reply) in LINES.iter() {
        end = end.saturating_add(line.len()).saturating_add(1);
        if end <= read {
            text.extend_from_slice(reply.as_bytes())?;
        }
    }
    Ok(text)
}

#[test]
fn answers_in_any_pieces(rt: HostRuntime) -> Result<(), Fail> {
    let script = script(rt.alloc())?;
    let want = replies(rt.alloc(), NEVER)?;
    for step in [1, 2, 7, 5000] {
        let mut source = pieces_of(script.as_slice(), step, NEVER);
        let mut sink = empty_sink(rt.alloc(), step, NEVER, false);
        assert!(rt; debug(&rt, rt.alloc(), &mut source, &mut sink, &ONE)? == 6);
        assert!(rt; sink.bytes.as_slice() == want.as_slice(), "by {step}");
        assert!(rt; source.has_ended && !source.has_failed && !sink.has_failed);
        assert!(rt;
            source.calls == script.len().div_ceil(step).saturating_add(1),
            "by {step}"
        );
    }
    Ok(())
}

#[test]
fn fails_with_its_source(rt: HostRuntime) -> Result<(), Fail> {
    let script = script(rt.alloc())?;
    for fails_at in 0..=script.len() {
        let mut source = pieces_of(script.as_slice(), 1, fails_at);
        let mut sink = empty_sink(rt.alloc(), 100, NEVER, false);
        let ended = debug(&rt, rt.alloc(), &mut source, &mut sink, &ONE);
        assert!(rt; ended == Err(DebugFault::Read));
        let want = replies(rt.alloc(), fails_at)?;
        assert!(rt; sink.bytes.as_slice() == want.as_slice(), "at {fails_at}");
    }
    Ok(())
}

#[test]
fn fails_with_its_sink(rt: HostRuntime) -> Result<(), Fail> {
    let script = script(rt.alloc())?;
    let want = replies(rt.alloc(), NEVER)?;
    for fails_at in 0..want.len() {
        for takes_none in [false, true] {
            let mut source = pieces_of(script.as_slice(), 100, NEVER);
            let mut sink = empty_sink(rt.alloc(), 1, fails_at, takes_none);
            let ended = debug(&rt, rt.alloc(), &mut source, &mut sink, &ONE);
            assert!(rt; ended == Err(DebugFault::Write));
            assert!(rt; sink.bytes.as_slice() == &want.as_slice()[..fails_at]);
        }
    }
    Ok(())
}

#[test]
fn gathers_its_replies(rt: HostRuntime) -> Result<(), Fail> {
    let script = script(rt.alloc())?;
    let want = replies(rt.alloc(), NEVER)?;
    let mut source = pieces_of(script.as_slice(), 5000, NEVER);
    let mut sink = empty_sink(rt.alloc(), 5000, NEVER, false);
    assert!(rt; debug(&rt, rt.alloc(), &mut source, &mut sink, &ONE)? == 6);
    assert!(rt; sink.bytes.as_slice() == want.as_slice());
    // What was read at once is answered at once, and then the last line, which has no newline.
    assert!(rt; sink.calls == 2);
    Ok(())
}

/// The reply with the state of a start on *line*.
const STATE_REPLY: &str =
    "{\"ok\":true,\"state\":{\"processors\":[{\"items\":[],\"records\":[],\"requests\":[],\"sinks\":[],\"tokens\":[[\"a\",0]],\"unsent\":[],\"view\":[[\"a\",[0],1]]}],\"queues\":[[[]]]}}\n";

/// Returns a script that asks for the state on *line* `times` times.
fn asks_states(alloc: Global, times: usize) -> Result<Vec<u8>, AllocError> {
    let mut script = Vec::new(alloc);
    script.extend_from_slice(LINE.as_bytes())?;
    for _ in 0..times {
        script.extend_from_slice(b"\n{\"do\":\"state\"}")?;
    }
    Ok(script)
}

#[test]
fn writes_before_much_waits(rt: HostRuntime) -> Result<(), Fail> {
    let script = asks_states(rt.alloc(), 2000)?;
    let mut source = pieces_of(script.as_slice(), NEVER, NEVER);
    let mut sink = empty_sink(rt.alloc(), NEVER, NEVER, false);
    assert!(rt; debug(&rt, rt.alloc(), &mut source, &mut sink, &ONE)? == 2001);
    // The first read gives the complete script, and the second its end.
    assert!(rt; source.calls == 2);
    assert!(rt; sink.bytes.as_slice().ends_with(STATE_REPLY.as_bytes()));
    assert!(rt; sink.bytes.len() > 4 * 65_536);
    assert!(rt; sink.most < 65_536 + STATE_REPLY.len());
    Ok(())
}

#[test]
fn answers_before_it_reads_on(rt: HostRuntime) -> Result<(), Fail> {
    let script = script(rt.alloc())?;
    let written = Cell::new(0);
    let mut source = Asks {
        pieces: pieces_of(script.as_slice(), 1, NEVER),
        written: &written,
        seen: Vec::new(rt.alloc()),
    };
    let mut sink = Told {
        taken: empty_sink(rt.alloc(), 7, NEVER, false),
        written: &written,
    };
    assert!(rt; debug(&rt, rt.alloc(), &mut source, &mut sink, &ONE)? == 6);
    for (read, seen) in source.seen.iter().enumerate() {
        let want = replies(rt.alloc(), read)?;
        assert!(rt; *seen == want.len(), "before the byte {read}");
    }
    Ok(())
}

#[test]
fn stops_at_its_limit(rt: HostRuntime) -> Result<(), Fail> {
    for limit in [0, 10_000, 65_536, 65_537, 200_000] {
        let mut source = Newlines { given: 0 };
        let mut sink = empty_sink(rt.alloc(), 100, NEVER, false);
        let ended = debug_within(&rt, rt.alloc(), &mut source, &mut sink, &ONE, limit);
        assert!(rt; ended == Err(DebugFault::TooLong));
        assert!(rt; source.given == (limit as u64).saturating_add(1));
        assert!(rt; sink.bytes.is_empty());
    }
    let script = b"{\"vertices\":[],\"edges\":[]}\n{\"do\":\"back\"}\n";
    let first = "{\"locations\":0,\"ok\":true,\"processors\":1}\n";
    let second = "{\"code\":20,\"error\":\"AtStart\"}\n";
    for (limit, want, replies) in [
        (41, Ok(2), [first, second]),
        (40, Err(DebugFault::TooLong), [first, ""]),
    ] {
        let mut source = pieces_of(script.as_slice(), 5, NEVER);
        let mut sink = empty_sink(rt.alloc(), 100, NEVER, false);
        let ended = debug_within(&rt, rt.alloc(), &mut source, &mut sink, &ONE, limit);
        assert!(rt; ended == want);
        let [first, second] = replies;
        let text = format!(in rt.alloc(); "{first}{second}")?;
        assert!(rt; sink.bytes.as_slice() == text.as_bytes(), "within {limit}");
    }
    Ok(())
}

#[test]
fn reads_no_more_of_a_reader_that_failed(rt: HostRuntime) -> Result<(), Fail> {
    for kind in [
        ErrorKind::Interrupted,
        ErrorKind::WouldBlock,
        ErrorKind::Other,
    ] {
        for fails_at in 0..4 {
            let reader = Stumbles {
                bytes: b"\n\n\n",
                calls: 0,
                fails_at,
                kind,
            };
            let mut source = ReadSource::new(reader);
            let mut sink = empty_sink(rt.alloc(), 100, NEVER, false);
            let ended = debug(&rt, rt.alloc(), &mut source, &mut sink, &ONE);
            assert!(rt; ended == Err(DebugFault::Read), "at {fails_at}");
            assert!(rt; source.reader.calls == fails_at.saturating_add(1));
            assert!(rt; source.has_failed);
        }
    }
    Ok(())
}

#[test]
fn writes_no_more_to_a_writer_that_failed(rt: HostRuntime) -> Result<(), Fail> {
    let script = script(rt.alloc())?;
    let want = replies(rt.alloc(), NEVER)?;
    for kind in [
        ErrorKind::Interrupted,
        ErrorKind::WouldBlock,
        ErrorKind::Other,
    ] {
        for takes_none in [false, true] {
            for fails_at in [0, 1, 30, 60] {
                let writer = Spills {
                    bytes: Vec::new(rt.alloc()),
                    calls: 0,
                    fails_at,
                    takes_none,
                    kind,
                };
                let mut source = pieces_of(script.as_slice(), 100, NEVER);
                let mut sink = WriteSink::new(writer);
                let ended = debug(&rt, rt.alloc(), &mut source, &mut sink, &ONE);
                assert!(rt; ended == Err(DebugFault::Write), "at {fails_at}");
                assert!(rt; sink.writer.calls == fails_at.saturating_add(1));
                assert!(rt; sink.has_failed);
                assert!(rt; sink.writer.bytes.len() == fails_at);
                assert!(rt; want.starts_with(sink.writer.bytes.as_slice()));
            }
        }
    }
    Ok(())
}

#[test]
fn passes_over_a_long_line(rt: HostRuntime) -> Result<(), Fail> {
    let mut script = Vec::new(rt.alloc());
    script.extend_from_slice(b"{\"vertices\":[],\"edges\":[]}\n")?;
    script.resize(70_000, b' ')?;
    script.extend_from_slice(b"\n")?;
    script.resize(140_000, b' ')?;
    script.extend_from_slice(b"1\n\xff\n{\"do\":\"back\"}")?;
    let mut source = ReadSource::new(script.as_slice());
    let mut sink = WriteSink::new(Vec::new(rt.alloc()));
    assert!(rt; debug(&rt, rt.alloc(), &mut source, &mut sink, &ONE)? == 4);
    let want =
        "{\"locations\":0,\"ok\":true,\"processors\":1}\n{\"code\":33,\"error\":\"LineTooLong\",\"line\":3}\n{\"code\":30,\"error\":\"BadLine\",\"line\":4}\n{\"code\":20,\"error\":\"AtStart\"}\n";
    assert!(rt; sink.writer.as_slice() == want.as_bytes());
    Ok(())
}

/// Returns what a run of the script writes, and how it ends.
pub fn run<R: Threads + Sync>(
    rt: &R,
    alloc: Global,
    options: &Options,
    script: &[u8],
) -> Result<(Vec<u8>, Result<u64, DebugFault>), AllocError> {
    let mut source = pieces_of(script, 4000, NEVER);
    let mut sink = empty_sink(alloc, 1000, NEVER, false);
    let ended = debug(rt, alloc, &mut source, &mut sink, options);
    Ok((sink.bytes, ended))
}

/// Numbers of processors that no words ask for, each with a graph. They are counted before the loops are judged.
static COUNTS: [(&str, u8, &str); 4] = [
    ("no-processors", 0, LINE),
    ("nine-processors", 9, LINE),
    (
        "nine-processors-of-nothing",
        9,
        r#"{"vertices":[],"edges":[]}"#,
    ),
    (
        "nine-processors-of-a-loop",
        9,
        r#"{"vertices":[{"name":"m","op":"add","depth":0,"k":0}],"edges":[{"name":"mm","from":"m","port":0,"to":"m","route":"local"}]}"#,
    ),
];

#[test]
fn refuses_counts_of_processors(rt: HostRuntime) -> Result<(), Fail> {
    for (name, processors, graph) in COUNTS.iter() {
        let options = Options {
            processors: *processors,
            clients: 1,
        };
        let (bytes, ended) = run(&rt, rt.alloc(), &options, graph.as_bytes())?;
        assert!(rt; ended == Err(DebugFault::Graph), "at {name}");
        let want = "{\"code\":48,\"error\":\"BadCount\"}\n";
        assert!(rt; bytes.as_slice() == want.as_bytes(), "at {name}");
    }
    Ok(())
}

/// Checks graph lines of many digits: with more than 65,536 the line is too long, otherwise the number is out of
/// range.
#[test]
fn refuses_long_graph_lines(rt: HostRuntime) -> Result<(), Fail> {
    for (length, reply) in [
        (65_536, "{\"code\":30,\"error\":\"BadLine\",\"line\":1}\n"),
        (
            65_537,
            "{\"code\":33,\"error\":\"LineTooLong\",\"line\":1}\n",
        ),
    ] {
        let mut script = Vec::new(rt.alloc());
        script.resize(length, b'1')?;
        let (bytes, ended) = run(&rt, rt.alloc(), &ONE, script.as_slice())?;
        assert!(rt; ended == Err(DebugFault::Graph));
        assert!(rt; bytes.as_slice() == reply.as_bytes(), "at {length}");
    }
    Ok(())
}

/// Returns the graph of a line, `times` feeds that keep the epoch open, and as many steps back.
fn there_and_back(alloc: Global, times: usize) -> Result<Vec<u8>, AllocError> {
    let feed = "\n{\"do\":\"feed\",\"p\":0,\"vertex\":\"a\",\"values\":[5],\"next\":\"stay\"}";
    let mut script = Vec::new(alloc);
    script.extend_from_slice(LINE.as_bytes())?;
    for _ in 0..times {
        script.extend_from_slice(feed.as_bytes())?;
    }
    for _ in 0..times {
        script.extend_from_slice("\n{\"do\":\"back\"}".as_bytes())?;
    }
    Ok(script)
}

#[test]
fn thousands_of_lines(rt: HostRuntime) -> Result<(), Fail> {
    let script = there_and_back(rt.alloc(), 5000)?;
    let (bytes, ended) = run(&rt, rt.alloc(), &ONE, script.as_slice())?;
    let last = "{\"at\":0,\"kept\":5000,\"ok\":true}\n".as_bytes();
    assert!(rt; ended == Ok(10_001));
    assert!(rt; bytes.as_slice().ends_with(last));
    Ok(())
}

/// Checks the message and the status of the error that no run reaches.
#[test]
fn tells_a_log_mismatch(rt: HostRuntime) -> Result<(), Fail> {
    let told = format!(in rt.alloc(); "{}", DebugFault::Close)?;
    assert!(rt; told.as_str() == "log mismatch");
    assert!(rt; DebugFault::Close.status() == 5);
    Ok(())
}
