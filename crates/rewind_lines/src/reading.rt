//! What a line contains.
ghost use Rattle.std.specs.Prelude.{◌≡◌, option_map, IfOk};
ghost use Rattle.serde_json.specs.View.{view};
ghost use Rattle.rewind_lines.specs.Lines.{json_of};

use serde_json::Value;
use std::alloc::{AllocError, Global};

/// What a line contains.
#[derive(Drop)]
pub enum Reading {
    /// Only spaces, tabs and carriage returns, any number of them.
    Blank,
    /// More bytes than a line may have.
    TooLong,
    /// Something that is not JSON.
    NoJson,
    /// A JSON value.
    Json(Value),
}

/// Parses `line` as one JSON value. Returns `None` if `line` is not JSON.
pub fn parse(alloc: Global, line: &[u8]) -> Result<Option<Value>, AllocError>
    ensures { IfOk result (λ o. option_map view o ≡ json_of line.now) }
{
    match Value::from_slice(alloc, line) {
        Ok(value) => Ok(Some(value)),
        Err(error) if error.is_memory() => Err(AllocError),
        Err(_) => Ok(None),
    }
}
