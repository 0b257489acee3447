//! The reply to a line that is neither a command nor a query.
ghost use Rattle.std.specs.Prelude.{◌≡◌, Some, IfOk};
ghost use Rattle.serde_json.specs.Written.{compact_text};
ghost use Rattle.rewind_replies.specs.Replies.{faulty as faulty_data, IsReply};
ghost use Rattle.rewind_answers.specs.FaultyLines.{line_fault as line_fault_data};

use nd_time::Code;
use rewind_forms::LineFault;
use rewind_replies::{NoNames, object, text_of};
use std::alloc::{AllocError, Global};

// Returns the text of an error of the line with this number.
fn faulty(alloc: Global, code: Code, line: u64) -> Result<Vec<u8>, AllocError>
    ensures reply { IfOk result (λ t. t.items ≡ compact_text (faulty_data code line)) }
{
    let reply = object! {"code": code.number(), "error": code.name(), "line": line};
    text_of(alloc, &NoNames, &reply)
}

/// Returns the text of the reply to a faulty line. Its number is counted from 1.
///
/// Out of memory has no reply: it is returned as the error.
pub(crate) fn line_fault(alloc: Global, fault: LineFault, line: u64) -> Result<Vec<u8>, AllocError>
    ensures reply { IfOk result (λ t.
        IsReply (λ reply. Some reply ≡ line_fault_data fault line) t.items) }
{
    match fault {
        LineFault::Memory => Err(AllocError),
        other => faulty(alloc, other.code(), line),
    }
}
