// Where tokens end.
ghost use Rattle.std.specs.Prelude.{◌≡◌, ◌+◌, ◌<◌, length, drop, get_or};
ghost use Rattle.comment.specs.Comment.{is_text};
ghost use Rattle.structured_token.specs.Tokens.{is_white, is_quote, is_plain, is_plain_ascii, ends_space, is_calm, calm_len, string_len};

use byte_class::Class;

// Whether a byte is a space, a TAB or of a fold.
pub fn is_white(b: u8) -> bool
    ensures { result ≡ is_white b }
{
    (b == 32) | (b == 9) | (b == 13) | (b == 10)
}

// Spaces, TABs and the bytes of folds.
pub struct White;

impl Class for White {
    ghost member = { is_white };

    fn holds(b: u8) -> bool {
        is_white(b)
    }
}

pub(crate) fn is_plain(b: u8) -> bool
    ensures { result ≡ is_plain b }
{
    !((b == 32) | (b == 9) | (b == 13) | (b == 10) | (b == 34) | (b == 40) | (b == 59))
}

// The bytes of plain runs.
pub(crate) struct Plain;

impl Class for Plain {
    ghost member = { is_plain };

    fn holds(b: u8) -> bool {
        is_plain(b)
    }
}

// The bytes of a quoted string that neither close it nor escape the next.
struct QuotedText;

impl Class for QuotedText {
    ghost member = { is_text is_quote };

    fn holds(b: u8) -> bool {
        !((b == 34) | (b == 92))
    }
}

// Where the quoted string ends whose first quote stands at `at`.
pub(crate) fn string_end(s: &[u8], at: usize) -> usize
    requires { at < length s.now }
    ensures { result ≡ at + string_len (drop at s.now) }
{
    let mut i = at + 1;
    while i < s.len() {
        let p = byte_class::run_end::<QuotedText>(s, i);
        if s.len() <= p {
            return s.len();
        }
        if s[p] == b'"' {
            return p + 1;
        }
        i = p + 2;
    }
    s.len()
}

fn is_plain_ascii(b: u8) -> bool
    ensures { result ≡ is_plain_ascii b }
{
    !((b == 32) | (b == 9) | (b == 13) | (b == 10) | (b == 34) | (b == 40)) & (b < 128)
}

fn ends_space(b: u8) -> bool
    ensures { result ≡ ends_space b }
{
    !((b == 32) | (b == 9) | (b == 13) | (b == 10) | (b == 102) | (b == 70))
}

// Whether the byte at a place stays as it came.
fn is_calm(s: &[u8], at: usize) -> bool
    requires { at < length s.now }
    ensures { result ≡ is_calm (get_or s.now at 0) (get_or s.now (at + 1) 0) }
{
    let b = s[at];
    if is_plain_ascii(b) {
        return true;
    }
    (b == 32) & ends_space(line::byte_at(s, at + 1))
}

// Where the bytes from a place on end that stay as they came.
pub fn calm_end(s: &[u8], at: usize) -> usize
    ensures { result ≡ at + calm_len (drop at s.now) }
{
    if s.len() <= at {
        return at;
    }
    for i in at..s.len() {
        if !is_calm(s, i) {
            return i;
        }
    }
    s.len()
}
