// Whether a Received field is not held.
ghost use Rattle.std.specs.Prelude.{◌≡◌};
ghost use Rattle.received.specs.Received.{clear, passes};

use crate::lines::lines_fit;
use crate::writer::Received;
use received_token::ReceivedKind;
use structured_field::all_clear;

// Whether a token may stand in a field that is not held.
#[tactic(auto, unfolding(crate::specs::Received::clear))]
pub(crate) fn is_clear(kind: ReceivedKind, token: &[u8]) -> bool
    ensures { result ≡ clear kind token.now }
{
    match kind {
        ReceivedKind::Comment | ReceivedKind::Clause => true,
        ReceivedKind::BareFor => false,
        ReceivedKind::Open | ReceivedKind::Other => utf8::is_ascii(token),
    }
}

// Whether a Received field whose value is not ASCII passes. Of a short one no line is long.
pub fn passes(name: &[u8], value: &[u8]) -> bool
    ensures { result ≡ passes name.now value.now }
{
    if !all_clear::<Received>(value, &mut []) {
        return false;
    }
    if (name.len() <= 100) & (value.len() <= 800) {
        return true;
    }
    lines_fit(name, value)
}
