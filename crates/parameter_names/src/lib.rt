// The names of parameters: whether none is shared.
#![tactic(auto)]

mod keys;
mod names;

pub use names::names_differ;
