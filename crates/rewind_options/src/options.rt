//! The command line.
ghost use Rattle.std.specs.Prelude.{◌≡◌, ◌≢◌, ◌≤◌, [], map, codes, false, IfOk, IfErr, OnOk};
ghost use Rattle.std.specs.Prelude.{Some, pos};
ghost use Rattle.clap.specs.Facts.{args_of, groups_of};
ghost use Rattle.clap.specs.Simple.{app_of, new_app};
ghost use Rattle.clap.specs.Walk.{rule_of};
ghost use Rattle.clap.specs.Values.{kind_of};
ghost use Rattle.clap.specs.Built.{FitsChain};
ghost use Rattle.clap.specs.declared.builder.value_parser.ValueParser.TheVariants as vp;
ghost use Rattle.clap.specs.declared.builder.command.Command.TheViews.{out-Command};
ghost use Rattle.nd_time.specs.Limits.{max_clients, max_processors};
ghost use Rattle.rewind_options.specs.Options.{given, number_or_one, number_rule, refusals, AreRefused, AskHelp, IsHelp, IsRefused};

use clap::error::ErrorKind;
use clap::{Arg, ArgAction, Command, value_parser};
use nd_time::limits::{MAX_CLIENTS, MAX_PROCESSORS};
use std::alloc::Global;
use std::convert::AsStr;
use thiserror::Error;

/// What the program does, as its help says it.
const ABOUT: &str =
    "Runs a script of JSON lines on a model of Naiad's progress protocol, forwards and backwards";

/// A script, as the help shows it.
const EXAMPLE: &str = concat!(
    "The script is read from standard input: a graph, then one command or query per line.\n",
    "A first line {\"version\":n}, with n from 2 to 9, chooses its version, which is 1 without it;\n",
    "more than 8 processors belong to versions 2 to 9, and more than 16 to version 9.\n\n",
    "Example:\n",
    "  {\"vertices\":[{\"name\":\"a\",\"op\":\"input\",\"depth\":0}],\"edges\":[]}\n",
    "  {\"do\":\"feed\",\"p\":0,\"vertex\":\"a\",\"values\":[],\"next\":\"next\"}\n",
    "  {\"do\":\"back\"}",
);

/// How many processors and clients a run has.
#[derive(Clone, Copy, Debug, Drop, PartialEq, Eq)]
pub struct Options {
    pub processors: u8,
    pub clients: u8,
}

/// Why the words gave no options. The texts are the parser's.
#[derive(Debug, Drop, Error)]
pub enum WordsFault {
    /// Help was asked for, and this is it.
    #[error("{0}")]
    Help(String),
    /// The words were refused, and this says why.
    #[error("{0}")]
    Refused(String),
    /// Memory ran out.
    #[error("out of memory")]
    Memory,
}

fn processors_argument(alloc: Global) -> Arg<'static>
    ensures rule { rule_of result ≡ number_rule (codes "processors") max_processors }
    ensures plain { FitsChain result }
    ensures parser { result.value_parser ≡ Some (vp.Signed (pos 1) (pos max_processors)) }
{
    Arg::new(alloc, "processors")
        .long("processors")
        .action(ArgAction::Set)
        .value_parser(value_parser!(u8).range(1..=MAX_PROCESSORS as i64))
        .help("Number of processors in the modelled cluster, 1 to 64 (1 if not given)")
}

fn clients_argument(alloc: Global) -> Arg<'static>
    ensures rule { rule_of result ≡ number_rule (codes "clients") max_clients }
    ensures plain { FitsChain result }
    ensures parser { result.value_parser ≡ Some (vp.Signed (pos 1) (pos max_clients)) }
{
    Arg::new(alloc, "clients")
        .long("clients")
        .action(ArgAction::Set)
        .value_parser(value_parser!(u8).range(1..=MAX_CLIENTS as i64))
        .help("Number of clients in the script, 1 to 64 (1 if not given)")
}

/// Returns the command before its arguments.
fn empty_command<'a>(alloc: Global) -> Command<'a>
    ensures app { app_of result ≡ new_app (codes "rewind") }
    ensures args { args_of result ≡ [] }
    ensures groups { groups_of result ≡ [] }
    ensures local { (out-Command result).has_globals ≡ false }
{
    Command::new(alloc, "rewind")
        .about(ABOUT)
        .after_help(EXAMPLE)
}

fn fault_of(alloc: Global, error: &clap::Error) -> WordsFault
    ensures help { IsHelp result → kind_of error.now ≡ ErrorKind.DisplayHelp }
    ensures refused { IsRefused result → (kind_of error.now ≢ ErrorKind.DisplayHelp)
        × (kind_of error.now ≢ ErrorKind.OutOfMemory) }
{
    if error.kind() == ErrorKind::OutOfMemory {
        return WordsFault::Memory;
    }
    let Ok(text) = error.to_string(alloc) else {
        return WordsFault::Memory;
    };
    if error.kind() == ErrorKind::DisplayHelp {
        WordsFault::Help(text)
    } else {
        WordsFault::Refused(text)
    }
}

/// Reads the words, of which the first is the program's name.
pub fn options_of<S: AsStr>(alloc: Global, words: &[S]) -> Result<Options, WordsFault>
    ensures processors { IfOk result (λ o. o.processors
        ≡ number_or_one (given (codes "processors") (map S.text words.now))) }
    ensures clients { IfOk result (λ o. o.clients
        ≡ number_or_one (given (codes "clients") (map S.text words.now))) }
    ensures range { IfOk result (λ o. (1 ≤ o.processors) × (o.processors ≤ max_processors)
        × (1 ≤ o.clients) × (o.clients ≤ max_clients)) }
    ensures taken { OnOk result (refusals (map S.text words.now) ≡ []) }
    ensures help { IfErr result (λ e. IsHelp e → AskHelp (refusals (map S.text words.now))) }
    ensures refused { IfErr result (λ e.
        IsRefused e → AreRefused (refusals (map S.text words.now))) }
{
    let processors = processors_argument(alloc);
    let clients = clients_argument(alloc);
    let command = match empty_command(alloc).arg(processors) {
        Ok(command) => command,
        Err(_) => return Err(WordsFault::Memory),
    };
    let command = match command.arg(clients) {
        Ok(command) => command,
        Err(_) => return Err(WordsFault::Memory),
    };
    match command.try_get_matches_from(words) {
        Ok(matches) => Ok(Options {
            processors: matches.get_one::<u8>("processors").unwrap_or(1),
            clients: matches.get_one::<u8>("clients").unwrap_or(1),
        }),
        Err(error) => Err(fault_of(alloc, &error)),
    }
}
