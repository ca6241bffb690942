// What a structured field becomes, written part by part.
ghost use Rattle.std.specs.Prelude.{◌≡◌, true, refl, ⊤, map, ◌≤◌, length, drop};
ghost use Rattle.lists.specs.Lists.{joined};
ghost use Rattle.buffer.specs.Buffer.{AppendedCapped};
ghost use Rattle.encoded_word.specs.Segments.{rendered};
ghost use Rattle.comment.specs.Parts.{parts};
ghost use Rattle.piece.specs.Piece.{fitting};
ghost use Rattle.structured_token.specs.Tokens.{goes_on, calm_len, Took};
ghost use Rattle.structured_token.specs.Walk.{clear_all, becoming};
ghost use Rattle.structured_field.specs.StructuredField.{part_segments, clear, becomes, structured_front, structured_field};
ghost use Rattle.structured_field.specs.WritingLaws.{outside_none, outside_step, value_none, value_step_lem, value_calm};

use crate::held::is_clear;
use crate::rule::{ValueRule, add_named};
use structured_token::{Kind, Token};

// A parenthesis or a run of a comment. The text of a run is made in the scratch.
fn add_part(out: &mut [u8], at: usize, part: &[u8], scratch: &mut [u8]) -> usize
    requires { (length part.now ≤ 32768) × (length part.now ≤ length scratch.old) }
    ensures { AppendedCapped (rendered (part_segments part.now)) at out.old out.new result }
{
    if utf8::is_ascii(part) {
        return buffer::add_slice(out, at, part);
    }
    let n = comment::add_run_text(scratch, 0, part);
    let end = encoded_word::add(out, at, &scratch[..n]);
    buffer::add_slice(out, end, b"\r\n ")
}

fn add_parts(out: &mut [u8], at: usize, comment: &[u8], scratch: &mut [u8]) -> usize
    requires { (length comment.now ≤ 32768) × (length comment.now ≤ length scratch.old) }
    ensures { AppendedCapped (rendered (joined (map part_segments (parts comment.now)))) at out.old out.new result }
{
    let mut next = at;
    let mut i = 0;
    while i < comment.len() {
        let e = comment::part_end(comment, i);
        next = add_part(out, next, &comment[i..e], scratch);
        i = e;
    }
    next
}

fn add_token(out: &mut [u8], at: usize, kind: Kind, token: &[u8], scratch: &mut [u8]) -> usize
    requires { (length token.now ≤ 32768) × (length token.now ≤ length scratch.old) }
    ensures { AppendedCapped (rendered (becomes kind token.now)) at out.old out.new result }
{
    if structured_token::is_comment(kind) {
        return add_parts(out, at, token, scratch);
    }
    buffer::add_slice(out, at, token)
}

// The rule of structured fields. The state is whether a comment may start.
pub(crate) struct Structured;

impl ValueRule for Structured {
    type State = bool;

    type Kind = Kind;

    ghost begun = { true };

    ghost next = { goes_on };

    ghost took = { Took };

    ghost passed = { calm_len };

    ghost fits = { λ _ _. ⊤ };

    ghost clear = { clear };

    ghost clear_from = { λ comments s i. clear_all structured_front comments (drop i s) };

    ghost can_test = { λ _ _. ⊤ };

    ghost tested = { λ n _. n };

    ghost bytes = { λ _ kind token _. rendered (becomes kind token) };

    ghost segments_from = { λ comments s i. becoming structured_front comments (drop i s) };

    fn begin() -> bool {
        true
    }

    fn next_state(comments: bool, kind: Kind) -> bool {
        structured_token::goes_on(comments, kind)
    }

    fn part_at(value: &[u8], at: usize, comments: bool) -> Token<Kind> {
        structured_token::token_at(value, at, comments)
    }

    fn passed_end(value: &[u8], at: usize) -> usize {
        structured_token::calm_end(value, at)
    }

    fn tested_len(n: usize, _room: usize) -> usize {
        n
    }

    fn is_clear(kind: Kind, token: &[u8], _scratch: &mut [u8]) -> bool {
        is_clear(kind, token)
    }

    fn add_part(
        out: &mut [u8],
        at: usize,
        _comments: bool,
        kind: Kind,
        token: &[u8],
        _after: &[u8],
        scratch: &mut [u8],
    ) -> usize {
        let n = piece::fitting_len(scratch.len(), token.len());
        add_token(out, at, kind, &token[..n], scratch)
    }

    ghost fits_part = { λ _ _ _ _ _ _ _. tt };

    ghost tested_all = { λ _ _ _. refl };

    ghost can_less = { λ _ _ _ _ _. tt };

    ghost clear_none = { outside_none };

    ghost clear_step = { λ comments s i kind e k h t q. outside_step h t refl k q refl };

    ghost bytes_none = { value_none };

    ghost bytes_step = { λ comments s i kind e h t. value_step_lem h t refl };

    ghost bytes_passed = { λ comments s i kind e k h t q. value_calm h t refl k q };
}

// Writes what a structured field becomes from a place on, as far as it fits; answers the place after it. The scratch is where the text
// of a run is made: where it is shorter than twice the value, or the value longer than 32,768 bytes, the value counts
// as empty.
pub fn add_field(out: &mut [u8], at: usize, name: &[u8], value: &[u8], scratch: &mut [u8]) -> usize
    ensures { AppendedCapped (rendered (structured_field name.now (fitting (length scratch.old) value.now))) at out.old out.new result }
{
    add_named::<Structured>(out, at, name, value, scratch)
}

// Writes what a comment becomes from a place on, as far as it fits; answers the place after it. The scratch is as for a field: a comment
// that it cannot serve counts as empty.
pub fn add_comment(out: &mut [u8], at: usize, comment: &[u8], scratch: &mut [u8]) -> usize
    ensures { AppendedCapped (rendered (joined (map part_segments (parts (fitting (length scratch.old) comment.now))))) at out.old out.new result }
{
    let end = piece::fitting_len(scratch.len(), comment.len());
    add_parts(out, at, &comment[..end], scratch)
}
