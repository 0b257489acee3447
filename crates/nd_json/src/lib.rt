//! Reads JSON values of an exact form, objects by their keys and members by their types.
#![tactic(auto)]

mod element;
mod object;

pub use element::{boolean, integer, list, small, text, whole};
pub use object::{
    boolean_at, has_keys, has_text, integer_at, list_at, small_at, text_at, whole_at,
};
