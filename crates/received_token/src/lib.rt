// The tokens of a Received field's value: those of other structured fields, and each for with the white space before it.
#![tactic(auto)]

mod clause;

ghost use Rattle.std.specs.Prelude.{cond, ◌≡◌};
ghost use Rattle.received_token.specs.Tokens.{kind_in, Took, goes_on};

use crate::clause::{clause_len, is_for};
use structured_token::{Kind, Token};

// A for is a clause where an address follows it.
#[derive(Clone, Copy, Debug, PartialEq, Eq)]
pub enum ReceivedKind {
    Comment,
    Clause,
    BareFor,
    Open,
    Other,
}

impl From<Kind> for ReceivedKind {
    ghost from_gives = { λ kind result. result ≡ kind_in kind };

    fn from(kind: Kind) -> Self {
        match kind {
            Kind::Comment => ReceivedKind::Comment,
            Kind::Open => ReceivedKind::Open,
            _ => ReceivedKind::Other,
        }
    }
}

// Where a word can start: after the white space that ends at `end`, or at `at` where no white space stands there.
fn word_at(white: bool, at: usize, end: usize) -> usize
    ensures { result ≡ cond white end at }
{
    if white { end } else { at }
}

// The token at a place of a value.
pub fn token_at(value: &[u8], at: usize, comments: bool) -> Token<ReceivedKind>
    ensures { Took comments value.now at result.kind result.end }
{
    let Token { kind, end } = structured_token::token_at(value, at, comments);
    let other = ReceivedKind::from(kind);
    let white = structured_token::is_white_space(kind);
    if !(white | (at == 0)) {
        return Token { kind: other, end };
    }
    let word = word_at(white, at, end);
    if !is_for(value, word) {
        return Token { kind: other, end };
    }
    match clause_len(&value[at..]) {
        Some(n) => Token {
            kind: ReceivedKind::Clause,
            end: at + n,
        },
        None => Token {
            kind: ReceivedKind::BareFor,
            end: word + 4,
        },
    }
}

// Whether a comment may start after a token.
pub fn goes_on(comments: bool, kind: ReceivedKind) -> bool
    ensures { result ≡ goes_on comments kind }
{
    comments & !matches!(kind, ReceivedKind::Open)
}
