// Parameters of a field's value, by position.
#![tactic(auto)]

ghost use Rattle.std.specs.Prelude.{◌≡◌, false, ◌+◌, ◌≤◌, IfSome, length, take, drop};
ghost use Rattle.lists.specs.Run.{run};
ghost use Rattle.comment.specs.Comment.{end_of, run_to};
ghost use Rattle.structured_token.specs.Tokens.{is_quote};
ghost use Rattle.mime_parameter.specs.Extended.{is_token_byte};
ghost use Rattle.field_parameter.specs.Parameter.{is_value_byte, value_len, ends_value, parameter_len, is_converted, converted_next};

use byte_class::Class;
use structured_token::Kind;

// The bytes of tokens of RFC 2045.
struct TokenByte;

impl Class for TokenByte {
    ghost member = { is_token_byte };

    fn holds(b: u8) -> bool {
        mime_parameter::is_token_byte(b)
    }
}

// The bytes of values without quotes: token bytes and those of non-ASCII characters.
struct ValueByte;

impl Class for ValueByte {
    ghost member = { is_value_byte };

    fn holds(b: u8) -> bool {
        mime_parameter::is_token_byte(b) | (128 <= b)
    }
}

// Where the token of RFC 2045 at a place ends.
pub fn token_end(s: &[u8], at: usize) -> usize
    ensures { result ≡ at + run is_token_byte (drop at s.now) }
{
    byte_class::run_end::<TokenByte>(s, at)
}

// Where the next quote stands that is not escaped.
fn quote_at(s: &[u8], at: usize) -> usize
    requires { at ≤ length s.now }
    ensures { result ≡ at + run_to is_quote false (drop at s.now) }
{
    let mut escaped = false;
    for i in at..s.len() {
        let b = s[i];
        if (b == b'"') & !escaped {
            return i;
        }
        escaped = unquote::escapes(escaped, b);
    }
    s.len()
}

// Where the value at a place ends.
fn value_end(s: &[u8], at: usize) -> Option<usize>
    ensures { result ≡ end_of at (value_len (drop at s.now)) }
{
    if s.len() <= at {
        return None;
    }
    if s[at] != b'"' {
        let end = byte_class::run_end::<ValueByte>(s, at);
        return if at < end { Some(end) } else { None };
    }
    let end = quote_at(s, at + 1);
    if s.len() <= end {
        return None;
    }
    Some(end + 1)
}

fn ends_value(kind: Kind) -> bool
    ensures { result ≡ ends_value kind }
{
    matches!(
        kind,
        Kind::Comment | Kind::White | Kind::Semicolon | Kind::End
    )
}

// Where the parameter at a place ends.
pub fn parameter_end(s: &[u8], at: usize, comments: bool) -> Option<usize>
    ensures is { result ≡ end_of at (parameter_len comments (drop at s.now)) }
    ensures within { IfSome result (λ end. at ≤ length s.now → end ≤ length s.now) }
{
    let name = token_end(s, at);
    if name == at {
        return None;
    }
    if s.len() <= name {
        return None;
    }
    if s[name] != b'=' {
        return None;
    }
    let end = value_end(s, name + 1)?;
    let token = structured_token::token_at(s, end, comments);
    if !ends_value(token.kind) {
        return None;
    }
    Some(end)
}

// Whether the value of a parameter is not ASCII.
pub fn is_converted(parameter: &[u8]) -> bool
    ensures { result ≡ is_converted parameter.now }
{
    let name = token_end(parameter, 0);
    if parameter.len() <= name {
        return false;
    }
    !utf8::is_ascii(&parameter[name + 1..])
}

// Whether a converted parameter stands at a place.
pub fn converted_next(s: &[u8], at: usize, comments: bool) -> bool
    ensures { result ≡ converted_next comments (drop at s.now) }
{
    if s.len() <= at {
        return false;
    }
    match parameter_end(s, at, comments) {
        Some(end) => is_converted(&s[at..end]),
        None => false,
    }
}
