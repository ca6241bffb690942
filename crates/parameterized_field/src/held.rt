// Whether a field with parameters is not held.
ghost use Rattle.std.specs.Prelude.{◌≡◌, true, ◌*◌, ◌≤◌, length};
ghost use Rattle.piece.specs.Piece.{fitting};
ghost use Rattle.field_parameter.specs.Parameter.{no_star, is_converted, parameter_clear};
ghost use Rattle.parameterized_field.specs.Part.{is_parameter, converts, token_kind};
ghost use Rattle.parameterized_field.specs.Value.{passes};
ghost use Rattle.parameterized_field.specs.StepLaws.{part_clear};

use crate::names::names_differ;
use crate::part::{PartKind, make_text};
use crate::rule::Parameterized;
use byte_class::Class;
use structured_field::all_clear;

// All bytes but `*`.
struct NoStar;

impl Class for NoStar {
    ghost member = { no_star };

    fn holds(b: u8) -> bool {
        b != b'*'
    }
}

// Whether a parameter does not hold the field. The text of its value is made in the scratch.
fn parameter_clear(parameter: &[u8], converted: bool, scratch: &mut [u8]) -> bool
    requires { (length parameter.now ≤ 32768) × (length parameter.now ≤ length scratch.old) }
    ensures { converted ≡ is_converted parameter.now → result ≡ parameter_clear parameter.now }
{
    let name = field_parameter::token_end(parameter, 0);
    if !byte_class::are_all::<NoStar>(&parameter[..name]) {
        return false;
    }
    if !converted {
        return true;
    }
    let n = make_text(scratch, parameter);
    mime_parameter::has_room(&parameter[..name], &scratch[..n])
}

// Whether a part does not hold the field.
#[tactic(auto, unfolding(crate::specs::StepLaws::part_clear))]
pub(crate) fn part_clear(kind: PartKind, part: &[u8], scratch: &mut [u8]) -> bool
    requires { (length part.now ≤ 32768) × (length part.now ≤ length scratch.old) }
    ensures { (is_parameter kind ≡ true → converts kind ≡ is_converted part.now) →
        result ≡ part_clear (is_parameter kind) (token_kind kind) part.now }
{
    match kind {
        PartKind::Converted => parameter_clear(part, true, scratch),
        PartKind::Stays => parameter_clear(part, false, scratch),
        PartKind::Token(kind) => structured_field::is_clear(kind, part),
    }
}

fn fitting_passes(value: &[u8], scratch: &mut [u8]) -> bool
    requires { (length value.now ≤ 32768) × (2 * length value.now ≤ length scratch.old) }
    ensures { result ≡ passes value.now }
{
    if !all_clear::<Parameterized>(value, scratch) {
        return false;
    }
    names_differ(value, scratch)
}

// Whether a field with parameters whose value is not ASCII passes. A value of more than 32,768 bytes counts as empty.
pub fn passes(value: &[u8]) -> bool
    ensures { result ≡ passes (fitting 65536 value.now) }
{
    let mut scratch = [0u8; 65536];
    let end = piece::fitting_len(65536, value.len());
    fitting_passes(&value[..end], &mut scratch)
}
