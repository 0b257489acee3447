//! `rewind`: reads a script from standard input, and writes one reply per line to standard output.
//!
//! The exit status is 0 after a complete run or help, and 1 if the arguments are invalid. Otherwise it is the status of the
//! error that ended the run, which is reported on standard error.
#![tactic(auto)]

use nd_history::OpenGate;
use rewind_clients::debug_clients;
use rewind_lines::{ReadSource, WriteSink};
use rewind_options::{DebugFault, Options, WordsFault, options_of};
use rewind_run::debug;
use std::io::ErrorKind;
use std::process::ExitCode;
use std::sync::Wait;
use std::thread::Threads;
use std::{env, io};

/// The exit status for invalid arguments.
const REFUSED: u8 = 1;

/// Reports the error on standard error, and returns its exit status.
fn report(rt: &impl Eprint, fault: DebugFault) -> u8 {
    let _ = rt.eprintln(format_args!("rewind: {fault}"));
    fault.status()
}

/// Runs the script of one client, or of several clients, who wait only for each other.
fn run<R: Input + Print + Eprint + AllocGlobal + Threads + Wait + Sync>(
    rt: &R,
    options: &Options,
) -> u8 {
    let mut source = ReadSource::new(rt.reader());
    let mut sink = WriteSink::new(io::writer(rt));
    let ended = if options.clients == 1 {
        debug(rt, rt.alloc(), &mut source, &mut sink, options).map(|_| ())
    } else {
        debug_clients(rt, rt.alloc(), &mut source, &mut sink, options, &OpenGate)
    };
    match ended {
        Ok(()) => 0,
        Err(fault) => report(rt, fault),
    }
}

/// Reports why the arguments are not options of a run, and returns the exit status.
fn refuse<R: Print + Eprint>(rt: &R, fault: &WordsFault) -> u8 {
    match fault {
        WordsFault::Help(text) => match rt.print(text.as_str()) {
            Ok(()) => 0,
            Err(_) => report(rt, DebugFault::Write),
        },
        WordsFault::Refused(text) => {
            let _ = rt.eprint(text.as_str());
            REFUSED
        }
        WordsFault::Memory => report(rt, DebugFault::Memory),
    }
}

/// Reports that the arguments cannot be read from the system, and returns the exit status.
fn refuse_unread<R: Eprint>(rt: &R, error: &io::Error) -> u8 {
    if error.kind() == ErrorKind::OutOfMemory {
        return report(rt, DebugFault::Memory);
    }
    let _ = rt.eprintln("rewind: cannot read the command-line arguments");
    REFUSED
}

fn main(rt: HostRuntime) -> ExitCode {
    let args = match env::args(&rt) {
        Ok(args) => args,
        Err(error) => return ExitCode::from(refuse_unread(&rt, &error)),
    };
    let Ok(words) = args.collect::<Vec<String>>(rt.alloc()) else {
        return ExitCode::from(report(&rt, DebugFault::Memory));
    };
    let status = match options_of(rt.alloc(), words.as_slice()) {
        Ok(options) => run(&rt, &options),
        Err(fault) => refuse(&rt, &fault),
    };
    ExitCode::from(status)
}
