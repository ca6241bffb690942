// Structured fields: whether one is held, and what comments with non-ASCII become.
#![tactic(auto)]

mod held;
mod rule;
mod writer;

pub use held::{ascii_outside_comments, is_clear};
pub use rule::{ValueRule, add_named, all_clear};
pub use writer::{add_comment, add_field};
