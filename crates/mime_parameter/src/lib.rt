// The pieces that a non-ASCII parameter value becomes, by RFC 2231.
#![tactic(auto)]

mod bytes;
mod label;
mod pieces;

pub use bytes::{add_value_text, is_token_byte};
pub use pieces::{add_parameter, has_room};
