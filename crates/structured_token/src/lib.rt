// The tokens of a structured field's value: comments, quoted strings, white space, semicolons, parentheses that nothing closes, and
// the runs of other bytes between them.
#![tactic(auto)]

mod ends;

ghost use Rattle.std.specs.Prelude.{◌≡◌, ◌<◌, length, get_or};
ghost use Rattle.structured_token.specs.Tokens.{Took, comment_kind, open_kind, white_kind, goes_on};

use crate::ends::{Plain, is_plain, string_end};
pub use ends::{White, calm_end, is_white};

#[derive(Clone, Copy, Debug, PartialEq, Eq)]
pub enum Kind {
    Comment,
    Quoted,
    White,
    Open,
    Semicolon,
    Plain,
    End,
}

// What stands at a place of a value, and where it ends. Each kind of field has kinds of tokens of its own.
#[derive(Clone, Copy)]
pub struct Token<K> {
    pub kind: K,
    pub end: usize,
}

// A parenthesis: a comment, where one may start and it is closed.
fn opened(value: &[u8], at: usize, comments: bool) -> Token<Kind>
    requires { (at < length value.now) × (get_or value.now at 0 ≡ 40) }
    ensures { Took comments value.now at result.kind result.end }
{
    let open = Token {
        kind: Kind::Open,
        end: at + 1,
    };
    if !comments {
        return open;
    }
    match comment::comment_end(value, at) {
        Some(end) => {
            let kind = Kind::Comment;
            Token { kind, end }
        }
        None => open,
    }
}

// The token at a place of a value. A parenthesis that nothing closes is a token by itself, `Open`: "nothing after it is a comment", so
// the caller goes on with `comments` false.
pub fn token_at(value: &[u8], at: usize, comments: bool) -> Token<Kind>
    ensures { Took comments value.now at result.kind result.end }
{
    if value.len() <= at {
        let kind = Kind::End;
        return Token { kind, end: at };
    }
    let b = value[at];
    if is_plain(b) {
        let kind = Kind::Plain;
        let end = byte_class::run_end::<Plain>(value, at);
        return Token { kind, end };
    }
    if is_white(b) {
        let kind = Kind::White;
        let end = byte_class::run_end::<White>(value, at);
        return Token { kind, end };
    }
    if b == b'"' {
        let kind = Kind::Quoted;
        let end = string_end(value, at);
        return Token { kind, end };
    }
    if b == b';' {
        let kind = Kind::Semicolon;
        let end = at + 1;
        return Token { kind, end };
    }
    opened(value, at, comments)
}

pub fn is_comment(kind: Kind) -> bool
    ensures { result ≡ comment_kind kind }
{
    matches!(kind, Kind::Comment)
}

pub fn is_open(kind: Kind) -> bool
    ensures { result ≡ open_kind kind }
{
    matches!(kind, Kind::Open)
}

pub fn is_white_space(kind: Kind) -> bool
    ensures { result ≡ white_kind kind }
{
    matches!(kind, Kind::White)
}

// Whether a comment may start after a token.
pub fn goes_on(comments: bool, kind: Kind) -> bool
    ensures { result ≡ goes_on comments kind }
{
    comments & !is_open(kind)
}
