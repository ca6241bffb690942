// Whether a structured field is held.
ghost use Rattle.std.specs.Prelude.{◌≡◌};
ghost use Rattle.structured_field.specs.StructuredField.{clear, ascii_outside_comments};

use crate::rule::all_clear;
use crate::writer::Structured;
use structured_token::Kind;

// Whether a token may stand in a field that is not held.
#[tactic(auto, unfolding(crate::specs::StructuredField::clear))]
pub fn is_clear(kind: Kind, token: &[u8]) -> bool
    ensures { result ≡ clear kind token.now }
{
    structured_token::is_comment(kind) || utf8::is_ascii(token)
}

// Whether no non-ASCII stands outside the comments of a value.
#[tactic(auto, unfolding(crate::specs::StructuredField::ascii_outside_comments))]
pub fn ascii_outside_comments(value: &[u8]) -> bool
    ensures { result ≡ ascii_outside_comments value.now }
{
    all_clear::<Structured>(value, &mut [])
}
