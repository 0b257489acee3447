//! The debugger machine: a timeline, and breakpoints by id.
ghost use Rattle.std.specs.Prelude.{◌≡◌, IfOk};
ghost use Rattle.nd_machine.specs.Moves.{Moves, without_breaks};
ghost use Rattle.nd_timeline.specs.Moves.{moved_reply};

use crate::run;
use nd_breaks::Breaks;
use nd_commands::Command;
use nd_replies::{Fault, Ran, Reply};
use nd_timeline::Timeline;
use std::alloc::{AllocError, Allocator, Global};
use std::marker::Model;

/// A timeline, and breakpoints.
pub struct Machine<A: Allocator + Copy = Global> {
    timeline: Timeline<A>,
    breaks: Breaks<A>,
}

impl<A: Allocator + Copy> Model for Machine<A> {
    ghost use Rattle.nd_machine.specs.Moves.{MachineValue};
    ghost use Rattle.nd_machine.specs.Codes.{machine_code};

    ghost Value = { MachineValue A };

    ghost coded = { machine_code A };

    ghost view = { λ a. record { timeline = a.timeline; breaks = a.breaks } };
}

impl<A: Allocator + Copy> Drop for Machine<A> {
    fn drop(self) {
        let Machine {
            timeline: _,
            breaks: _,
        } = self;
    }
}

impl<A: Allocator + Copy> Machine<A> {
    /// Creates a machine without breakpoints, and allocates the memory for all that can be set.
    pub fn new(alloc: A, timeline: Timeline<A>) -> Result<Machine<A>, AllocError>
        ensures { IfOk result (λ m. m ≡ without_breaks timeline) }
    {
        let breaks = Breaks::new(alloc)?;
        Ok(Machine { timeline, breaks })
    }

    /// Returns the timeline.
    pub fn timeline(&self) -> &Timeline<A>
        ensures { result.now ≡ self.now.timeline }
    {
        &self.timeline
    }

    /// Returns the breakpoints.
    pub fn breaks(&self) -> &Breaks<A>
        ensures { result.now ≡ self.now.breaks }
    {
        &self.breaks
    }

    /// Returns the timeline and the breakpoints.
    pub fn into_parts(self) -> (Timeline<A>, Breaks<A>)
        ensures timeline { result.0 ≡ self.timeline }
        ensures breaks { result.1 ≡ self.breaks }
    {
        let Machine { timeline, breaks } = self;
        (timeline, breaks)
    }

    // Returns the reply to a command that moves the cursor.
    fn moved(&self, moved: Result<(), Fault>) -> Reply
        ensures { result ≡ moved_reply moved self.now.timeline }
    {
        match moved {
            Ok(()) => Reply::Moved {
                at: self.timeline.at(),
                kept: self.timeline.kept(),
            },
            Err(fault) => Reply::Refused(fault),
        }
    }

    /// Executes a command, and returns the reply to it.
    pub fn apply(&mut self, command: &Command<A>) -> Reply
        ensures { Moves self.old command.now result self.new }
    {
        match command {
            Command::Forward(step) => {
                let moved = self.timeline.forward(step);
                self.moved(moved)
            }
            Command::Back => {
                let moved = self.timeline.back();
                self.moved(moved)
            }
            Command::Redo => {
                let moved = self.timeline.redo();
                self.moved(moved)
            }
            Command::Jump(n) => {
                let moved = self.timeline.jump(*n);
                self.moved(moved)
            }
            Command::Run { limit, only, seed } => {
                let timeline = &mut self.timeline;
                match run(timeline, *limit, only.as_ref(), *seed, &self.breaks) {
                    Ok(Ran { ran, stop }) => Reply::Ran {
                        at: self.timeline.at(),
                        kept: self.timeline.kept(),
                        ran,
                        stop,
                    },
                    Err(fault) => Reply::Refused(fault),
                }
            }
            Command::SetBreak(b) => match self.breaks.set(b.get().copy()) {
                Ok(id) => Reply::Set { id },
                Err(_) => Reply::Refused(Fault::TooManyBreaks),
            },
            Command::ClearBreak(id) => match self.breaks.clear(*id) {
                Ok(()) => Reply::Cleared,
                Err(_) => Reply::Refused(Fault::NoBreak),
            },
        }
    }
}
