// The lines of what is written.
ghost use Rattle.std.specs.Prelude.{◌≡◌, map};
ghost use Rattle.lists.specs.Lists.{joined};
ghost use Rattle.encoded_word.specs.Segments.{rendered};
ghost use Rattle.comment.specs.Parts.{parts};
ghost use Rattle.structured_field.specs.StructuredField.{part_segments};
ghost use Rattle.received.specs.Received.{becomes, value_segments, received_field, column_next, column_after, lines_fit};

use received_token::ReceivedKind;
use structured_token::Token;

fn column_next(column: usize, b: u8) -> usize
    ensures { result ≡ column_next column b }
{
    if 999 < column {
        return column;
    }
    if b == b'\n' {
        return 0;
    }
    column + 1
}

fn column_after(column: usize, s: &[u8]) -> usize
    ensures { result ≡ column_after column s.now }
{
    let mut at = column;
    for b in s {
        at = column_next(at, *b);
    }
    at
}

// After a parenthesis or a run of a comment: no line of a row of encoded words is long.
fn part_column(column: usize, part: &[u8]) -> usize
    ensures { result ≡ column_after column (rendered (part_segments part.now)) }
{
    if utf8::is_ascii(part) {
        return column_after(column, part);
    }
    column_after(column, b"\r\n ")
}

fn comment_column(column: usize, comment: &[u8]) -> usize
    ensures { result ≡ column_after column (rendered (joined (map part_segments (parts comment.now)))) }
{
    let mut at = column;
    let mut i = 0;
    while i < comment.len() {
        let e = comment::part_end(comment, i);
        at = part_column(at, &comment[i..e]);
        i = e;
    }
    at
}

// After what becomes of a token.
fn token_column(column: usize, kind: ReceivedKind, token: &[u8]) -> usize
    ensures { result ≡ column_after column (rendered (becomes kind token.now)) }
{
    match kind {
        ReceivedKind::Comment => comment_column(column, token),
        ReceivedKind::Clause => {
            if utf8::is_ascii(token) {
                column_after(column, token)
            } else {
                column
            }
        }
        ReceivedKind::BareFor | ReceivedKind::Open | ReceivedKind::Other => {
            column_after(column, token)
        }
    }
}

// After what becomes of a value.
fn value_column(column: usize, value: &[u8]) -> usize
    ensures { result ≡ column_after column (rendered (value_segments value.now)) }
{
    let mut at = column;
    let mut comments = true;
    let mut i: usize = 0;
    while i < value.len() {
        let Token { kind, end } = received_token::token_at(value, i, comments);
        at = token_column(at, kind, &value[i..end]);
        comments = received_token::goes_on(comments, kind);
        i = end;
    }
    at
}

// Whether no line of what a field becomes is long.
pub(crate) fn lines_fit(name: &[u8], value: &[u8]) -> bool
    ensures { result ≡ lines_fit (rendered (received_field name.now value.now)) }
{
    let colon = column_after(column_after(0, name), b":");
    column_after(value_column(colon, value), b"\r\n") <= 999
}
