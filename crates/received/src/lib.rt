// Received fields: FOR clauses with non-ASCII addresses are removed.
#![tactic(auto)]

mod held;
mod lines;
mod writer;

pub use held::passes;
pub use writer::add_field;
