//! Commands to the debugger machine.
ghost use Rattle.std.specs.Prelude.{◌≡◌, ◌≢◌, IfOk, MatchBool};

use nd_breaks::BoxedCondition;
use nd_protocol::{Processors, Step};
use std::alloc::{AllocError, Allocator, Global};

/// A command to the debugger machine.
#[derive(Drop)]
pub enum Command<A: Allocator = Global> {
    /// Executes a step, and keeps it in place of all steps after the cursor.
    Forward(Step<A>),
    /// Undoes the step before the cursor. The step is still kept.
    Back,
    /// Executes the kept step after the cursor again.
    Redo,
    /// Moves the cursor to a position.
    Jump(u64),
    /// Executes at most `limit` steps, each time the first enabled one, until a breakpoint holds. If
    /// processors are listed, the run skips all others. With a seed the run begins each time with a
    /// candidate that the seed and the cursor determine.
    Run {
        limit: u64,
        only: Option<Processors<A>>,
        seed: Option<u64>,
    },
    /// Sets the condition as a breakpoint.
    SetBreak(BoxedCondition<A>),
    /// Clears the breakpoint with this id.
    ClearBreak(u64),
}

// Returns an equal list of processors, if there is one.
fn copied_processors<A: Allocator>(
    alloc: A,
    only: &Option<Processors<A>>,
) -> Result<Option<Processors<A>>, AllocError>
    ensures { IfOk result (λ o. o ≡ only.now) }
{
    match only {
        Some(listed) => Ok(Some(listed.copy(alloc)?)),
        None => Ok(None),
    }
}

// Returns whether the two lists of processors are equal, if there are any.
fn same_processors<A: Allocator>(
    only: &Option<Processors<A>>,
    other: &Option<Processors<A>>,
) -> bool
    ensures { MatchBool result (only.now ≡ other.now) (only.now ≢ other.now) }
{
    match (only, other) {
        (Some(listed), Some(others)) => listed.same(others),
        (None, None) => true,
        _ => false,
    }
}

impl<A: Allocator> Command<A> {
    /// Returns an equal command.
    pub fn copy(&self, alloc: A) -> Result<Command<A>, AllocError>
    where
        A: Copy,
        ensures { IfOk result (λ c. c ≡ self.now) }
    {
        match self {
            Command::Forward(step) => Ok(Command::Forward(step.copy(alloc)?)),
            Command::Back => Ok(Command::Back),
            Command::Redo => Ok(Command::Redo),
            Command::Jump(n) => Ok(Command::Jump(*n)),
            Command::Run { limit, only, seed } => Ok(Command::Run {
                limit: *limit,
                only: copied_processors(alloc, only)?,
                seed: *seed,
            }),
            Command::SetBreak(b) => Ok(Command::SetBreak(b.copy(alloc)?)),
            Command::ClearBreak(id) => Ok(Command::ClearBreak(*id)),
        }
    }

    /// Returns whether the two commands are equal.
    pub fn same(&self, other: &Command<A>) -> bool
        ensures { MatchBool result (self.now ≡ other.now) (self.now ≢ other.now) }
    {
        match (self, other) {
            (Command::Forward(step), Command::Forward(another)) => step.same(another),
            (Command::Back, Command::Back) => true,
            (Command::Redo, Command::Redo) => true,
            (Command::Jump(n), Command::Jump(m)) => *n == *m,
            (
                Command::Run { limit, only, seed },
                Command::Run {
                    limit: most,
                    only: others,
                    seed: another,
                },
            ) => *limit == *most && same_processors(only, others) && *seed == *another,
            (Command::SetBreak(b), Command::SetBreak(another)) => b.get().same(another.get()),
            (Command::ClearBreak(id), Command::ClearBreak(another)) => *id == *another,
            _ => false,
        }
    }
}
