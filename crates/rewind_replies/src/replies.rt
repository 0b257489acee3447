//! The replies to commands, and the errors.
ghost use Rattle.std.specs.Prelude.{◌≡◌, refl};
ghost use Rattle.rewind_replies.specs.Errors.{error_data};
ghost use Rattle.rewind_replies.specs.NoFloats.{no_float-error, no_float-refused, no_float-reply, no_float-step_refused, no_float-stop};
ghost use Rattle.rewind_replies.specs.Replies.{fault, refused, reply_data, step_refused, stop, graph as graph_data};

use crate::object;
use crate::shown::{Names, Shown};
use nd_protocol::Refusal;
use nd_replies::{Fault, Reply, Stop};
use nd_time::Code;
use serde::Serializer;

/// An error's number and name.
impl Shown for Code {
    ghost shown = { λ g code. fault code };

    ghost exact = { λ g code. refl };

    fn send<S: Serializer, N: Names>(&self, out: &mut S, names: &N) -> Result<(), S::Error> {
        object! {"code": self.number(), "error": self.name()}.send(out, names)
    }
}

/// The reply to a graph: the numbers of its locations and of the processors.
#[derive(Drop)]
pub struct GraphReply {
    pub locations: usize,
    pub processors: u8,
}

impl Shown for GraphReply {
    ghost shown = { λ g r. graph_data r.locations r.processors };

    ghost exact = { λ g r. refl };

    fn send<S: Serializer, N: Names>(&self, out: &mut S, names: &N) -> Result<(), S::Error> {
        let processors = u32::from(self.processors);
        object! {"locations": self.locations, "ok": true, "processors": processors}.send(out, names)
    }
}

/// The reply that ends a script before its first command: an error, and where it is.
#[derive(Drop)]
pub enum ErrorReply {
    /// The error alone.
    Plain(Code),
    /// At the line of this number.
    Line(Code, u64),
    /// At the location of this name.
    Location(Code, String),
}

impl Shown for ErrorReply {
    ghost shown = { λ g e. error_data e };

    ghost exact = { λ g e. no_float-error e };

    fn send<S: Serializer, N: Names>(&self, out: &mut S, names: &N) -> Result<(), S::Error> {
        match self {
            ErrorReply::Plain(code) => code.send(out, names),
            ErrorReply::Line(code, line) => {
                object! {
                    "code": code.number(),
                    "error": code.name(),
                    "line": *line
                }
                .send(out, names)
            }
            ErrorReply::Location(code, name) => {
                let name = name.as_str();
                object! {
                    "code": code.number(),
                    "error": code.name(),
                    "location": name
                }
                .send(out, names)
            }
        }
    }
}

/// The reply to a step that the cluster refused.
impl Shown for Refusal {
    ghost shown = { step_refused };

    ghost exact = { no_float-step_refused };

    fn send<S: Serializer, N: Names>(&self, out: &mut S, names: &N) -> Result<(), S::Error> {
        let code = self.code();
        match self {
            Refusal::NotYet { blocker: point } | Refusal::NotAdmissible { point } => {
                object! {
                    "code": code.number(),
                    "error": code.name(),
                    "point": point
                }
                .send(out, names)
            }
            _ => code.send(out, names),
        }
    }
}

/// The reply to a command that was refused.
impl Shown for Fault {
    ghost shown = { refused };

    ghost exact = { no_float-refused };

    fn send<S: Serializer, N: Names>(&self, out: &mut S, names: &N) -> Result<(), S::Error> {
        let code = self.code();
        match self {
            Fault::Step(refusal) => refusal.send(out, names),
            Fault::Memory { at } => {
                object! {"at": *at, "code": code.number(), "error": code.name()}.send(out, names)
            }
            _ => code.send(out, names),
        }
    }
}

/// Why a run stopped.
impl Shown for Stop {
    ghost shown = { λ g end. stop end };

    ghost exact = { λ g end. no_float-stop end };

    fn send<S: Serializer, N: Names>(&self, out: &mut S, names: &N) -> Result<(), S::Error> {
        match self {
            Stop::Limit => out.str("limit"),
            Stop::Idle => out.str("idle"),
            Stop::Break(id) => object! {"break": u32::from(*id)}.send(out, names),
        }
    }
}

/// The reply to a command.
impl Shown for Reply {
    ghost shown = { reply_data };

    ghost exact = { no_float-reply };

    fn send<S: Serializer, N: Names>(&self, out: &mut S, names: &N) -> Result<(), S::Error> {
        match self {
            Reply::Moved { at, kept } => {
                object! {"at": *at, "kept": *kept, "ok": true}.send(out, names)
            }
            Reply::Ran {
                at,
                kept,
                ran,
                stop,
            } => {
                object! {
                    "at": *at,
                    "kept": *kept,
                    "ok": true,
                    "ran": *ran,
                    "stop": *stop
                }
                .send(out, names)
            }
            Reply::Set { id } => object! {"id": u32::from(*id), "ok": true}.send(out, names),
            Reply::Cleared => object! {"ok": true}.send(out, names),
            Reply::Refused(fault) => fault.send(out, names),
        }
    }
}
