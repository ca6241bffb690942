// The text of a field: its value with each CRLF before a continuation removed, then without leading spaces and TABs.
#![tactic(auto)]

ghost use Rattle.std.specs.Prelude.{◌≡◌, ◌≤◌, ◌<◌, length, drop};
ghost use Rattle.buffer.specs.Buffer.{Wrote};
ghost use Rattle.header.specs.Fields.{fold, unfolded_after, trimmed, text_of};
ghost use Rattle.field_text.specs.TextPlace.{text_place};
ghost use Rattle.field_text.specs.TextLaws.{BlankStep, TextStart, PieceEnd};

use line::is_blank;

// Where the text of a field stands in one part: from a place in the field up to another.
#[derive(Clone, Copy, Debug, PartialEq, Eq)]
pub struct TextPlace {
    pub from: usize,
    pub to: usize,
}

// Whether a fold stands at i: CRLF before a space or TAB.
fn fold_at(s: &[u8], i: usize) -> bool
    requires { i ≤ length s.now }
    ensures { result ≡ fold (drop i s.now) }
{
    if s.len() - i < 3 {
        return false;
    }
    (s[i] == 13) & (s[i + 1] == 10) & is_blank(s[i + 2])
}

// How many bytes before the text stand at i: 1 for a blank, 2 for a fold; none where the text starts.
fn blank_size(s: &[u8], i: usize) -> Option<usize>
    requires { i ≤ length s.now }
    ensures { BlankStep s.now i result }
{
    let b = *s.get(i)?;
    if is_blank(b) {
        return Some(1);
    }
    if fold_at(s, i) {
        return Some(2);
    }
    None
}

// Where the text of a value starts.
fn text_start(value: &[u8]) -> usize
    ensures { TextStart value.now result }
{
    let mut i = 0;
    while let Some(n) = blank_size(value, i) {
        i += n;
    }
    i
}

// Where the next fold from `at` stands; the end where there is none.
fn next_fold(s: &[u8], at: usize) -> usize
    requires { at ≤ length s.now }
    ensures { PieceEnd s.now at result }
{
    let mut i = line::next_cr(s, at);
    while i < s.len() {
        if fold_at(s, i) {
            return i;
        }
        i = line::next_cr(s, i + 1);
    }
    i
}

// Writes some bytes without the CRLF of their folds, piece by piece.
fn put_unfolded(out: &mut [u8], s: &[u8]) -> usize
    ensures { Wrote (unfolded_after 0 s.now) out.old out.new result }
{
    let mut at: usize = 0;
    let mut i = 0;
    while i < s.len() {
        let e = next_fold(s, i);
        at = buffer::add_slice(out, at, &s[i..e]);
        i = e + 2;
    }
    at
}

// Writes the text of a value.
fn put_value_text(out: &mut [u8], value: &[u8]) -> usize
    ensures { Wrote (trimmed (unfolded_after 0 value.now)) out.old out.new result }
{
    let start = text_start(value);
    put_unfolded(out, &value[start..])
}

// Writes the text of a field to the front of out, as far as it fits; answers the length of all of it.
pub fn put(out: &mut [u8], field: &[u8]) -> usize
    ensures { Wrote (text_of field.now) out.old out.new result }
{
    let n = header_line::name_len(field);
    if field.len() - n < 3 {
        return 0;
    }
    let from = n + 1;
    let to = field.len() - 2;
    put_value_text(out, &field[from..to])
}

// Where the text of a field stands in it; nowhere in one part where the value has a CR, as a fold does.
pub fn place(field: &[u8]) -> Option<TextPlace>
    ensures { result ≡ text_place field.now }
{
    let n = header_line::name_len(field);
    if field.len() - n < 3 {
        return Some(TextPlace { from: n, to: n });
    }
    let from = n + 1;
    let to = field.len() - 2;
    if line::next_cr(&field[..to], from) < to {
        return None;
    }
    Some(TextPlace {
        from: line::blanks_end(&field[..to], from),
        to,
    })
}
