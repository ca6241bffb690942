// What becomes of the fields of a header: the first that is held, and what is written for the others.
#![tactic(auto)]

mod held;
mod writer;

ghost use Rattle.std.specs.Prelude.{◌≡◌};
ghost use Rattle.outgoing_field.specs.Fate.{limited};

pub use held::first_held;
pub use writer::{add_field, add_fields};

// The most bytes that a header has, and so a field.
const LIMIT: usize = 32768;

// A held field: the number of its first line, and the byte where it starts.
#[derive(Clone, Copy, Debug, PartialEq, Eq)]
pub struct HeldField {
    pub line: usize,
    pub at: usize,
}

// A header or a field; one over the limit counts as empty.
fn limited(s: &[u8]) -> &[u8]
    ensures { result.now ≡ limited s.now }
{
    if s.len() <= LIMIT { s } else { &s[..0] }
}
