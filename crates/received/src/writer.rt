// What a Received field becomes, written token by token.
ghost use Rattle.std.specs.Prelude.{◌≡◌, true, refl, ⊤, ◌*◌, ◌≤◌, eqb, length, drop};
ghost use Rattle.buffer.specs.Buffer.{AppendedCapped};
ghost use Rattle.encoded_word.specs.Segments.{rendered};
ghost use Rattle.piece.specs.Piece.{fitting};
ghost use Rattle.structured_token.specs.Tokens.{calm_len};
ghost use Rattle.structured_token.specs.Walk.{clear_all, becoming};
ghost use Rattle.received_token.specs.Tokens.{goes_on, Took};
ghost use Rattle.received.specs.Received.{clear, becomes, received_front, received_field};
ghost use Rattle.received.specs.Received.Place.{place};
ghost use Rattle.received.specs.TokenLaws.{clear_none as received_clear_none, clear_step as received_clear_step, bytes_none as received_bytes_none, bytes_step as received_bytes_step, bytes_calm};

use crate::held::is_clear;
use received_token::ReceivedKind;
use structured_field::{ValueRule, add_named};
use structured_token::Token;

fn add_token(
    out: &mut [u8],
    at: usize,
    kind: ReceivedKind,
    token: &[u8],
    scratch: &mut [u8],
) -> usize
    requires { (length token.now ≤ 32768) × (2 * length token.now ≤ length scratch.old) }
    ensures { AppendedCapped (rendered (becomes kind token.now)) at out.old out.new result }
{
    match kind {
        ReceivedKind::Comment => structured_field::add_comment(out, at, token, scratch),
        ReceivedKind::Clause => {
            if utf8::is_ascii(token) {
                buffer::add_slice(out, at, token)
            } else {
                at
            }
        }
        ReceivedKind::BareFor | ReceivedKind::Open | ReceivedKind::Other => {
            buffer::add_slice(out, at, token)
        }
    }
}

// The rule of Received fields. The state is whether a comment may start.
pub(crate) struct Received;

impl ValueRule for Received {
    type State = bool;

    type Kind = ReceivedKind;

    ghost begun = { true };

    ghost next = { goes_on };

    ghost took = { Took };

    ghost passed = { calm_len };

    ghost fits = { λ _ _. ⊤ };

    ghost clear = { clear };

    ghost clear_from = { λ comments s i. clear_all received_front (place comments (eqb i 0)) (drop i s) };

    ghost can_test = { λ _ _. ⊤ };

    ghost tested = { λ n _. n };

    ghost bytes = { λ _ kind token _. rendered (becomes kind token) };

    ghost segments_from = { λ comments s i. becoming received_front (place comments (eqb i 0)) (drop i s) };

    fn begin() -> bool {
        true
    }

    fn next_state(comments: bool, kind: ReceivedKind) -> bool {
        received_token::goes_on(comments, kind)
    }

    fn part_at(value: &[u8], at: usize, comments: bool) -> Token<ReceivedKind> {
        received_token::token_at(value, at, comments)
    }

    fn passed_end(value: &[u8], at: usize) -> usize {
        structured_token::calm_end(value, at)
    }

    fn tested_len(n: usize, _room: usize) -> usize {
        n
    }

    fn is_clear(kind: ReceivedKind, token: &[u8], _scratch: &mut [u8]) -> bool {
        is_clear(kind, token)
    }

    fn add_part(
        out: &mut [u8],
        at: usize,
        _comments: bool,
        kind: ReceivedKind,
        token: &[u8],
        _after: &[u8],
        scratch: &mut [u8],
    ) -> usize {
        let n = piece::fitting_len(scratch.len(), token.len());
        add_token(out, at, kind, &token[..n], scratch)
    }

    ghost fits_part = { λ _ _ _ _ _ _ _. tt };

    ghost tested_all = { λ _ _ _. refl };

    ghost can_less = { λ _ _ _ _ _. tt };

    ghost clear_none = { λ comments s i h. received_clear_none (place comments (eqb i 0)) s i h };

    ghost clear_step = { λ comments s i kind e k h t q. received_clear_step h t refl k q refl };

    ghost bytes_none = { λ comments s i h. received_bytes_none (place comments (eqb i 0)) s i h };

    ghost bytes_step = { λ comments s i kind e h t. received_bytes_step h t refl };

    ghost bytes_passed = { λ comments s i kind e k h t q. bytes_calm h t refl k q };
}

// Writes what a Received field becomes from a place on, as far as it fits; answers the place after it. The scratch is where the text of a
// run of a comment is made: where it is shorter than twice the value, or the value longer than 32,768 bytes, the value counts as empty.
pub fn add_field(out: &mut [u8], at: usize, name: &[u8], value: &[u8], scratch: &mut [u8]) -> usize
    ensures { AppendedCapped (rendered (received_field name.now (fitting (length scratch.old) value.now))) at out.old out.new result }
{
    add_named::<Received>(out, at, name, value, scratch)
}
