// What a field with parameters becomes, written part by part.
ghost use Rattle.std.specs.Prelude.{◌≡◌, true, false, map, ◌++◌, ◌*◌, ◌≤◌, length};
ghost use Rattle.lists.specs.Lists.{joined};
ghost use Rattle.buffer.specs.Buffer.{AppendedCapped};
ghost use Rattle.encoded_word.specs.Segments.{rendered};
ghost use Rattle.piece.specs.Piece.{fitting};
ghost use Rattle.mime_parameter.specs.Pieces.{value_text, parameter_lines};
ghost use Rattle.field_parameter.specs.Parameter.{name_of, value_of, is_converted};
ghost use Rattle.structured_field.specs.StructuredField.{becomes};
ghost use Rattle.parameterized_field.specs.Part.{is_parameter, converts, token_kind};
ghost use Rattle.parameterized_field.specs.Value.{item_segments, parameterized_field};
ghost use Rattle.parameterized_field.specs.StepLaws.{part_items};
ghost use Rattle.parameterized_field.specs.WritingLaws.{line_start, parameter_bytes};

use crate::State;
use crate::part::{PartKind, is_dropped, is_semicolon, make_text};
use crate::rule::Parameterized;
use structured_field::add_named;
use structured_token::Kind;

fn add_new_line(out: &mut [u8], at: usize, fresh: bool) -> usize
    ensures { AppendedCapped (line_start fresh) at out.old out.new result }
{
    if fresh {
        return buffer::add_slice(out, at, b"\r\n ");
    }
    at
}

// A converted parameter. The text of its value is made in the scratch.
fn add_converted(out: &mut [u8], at: usize, parameter: &[u8], scratch: &mut [u8]) -> usize
    requires { (length parameter.now ≤ 32768) × (length parameter.now ≤ length scratch.old) }
    ensures { AppendedCapped (parameter_lines (name_of parameter.now) (value_text (value_of parameter.now))) at out.old out.new result }
{
    let name = field_parameter::token_end(parameter, 0);
    let n = make_text(scratch, parameter);
    mime_parameter::add_parameter(out, at, &parameter[..name], &scratch[..n])
}

// A token, on a new line or not.
fn add_token(
    out: &mut [u8],
    at: usize,
    token: &[u8],
    kind: Kind,
    fresh: bool,
    scratch: &mut [u8],
) -> usize
    requires { (length token.now ≤ 32768) × (2 * length token.now ≤ length scratch.old) }
    ensures { AppendedCapped (line_start fresh ++ rendered (becomes kind token.now)) at out.old out.new result }
{
    let next = add_new_line(out, at, fresh);
    if structured_token::is_comment(kind) {
        return structured_field::add_comment(out, next, token, scratch);
    }
    buffer::add_slice(out, next, token)
}

// A token before what follows it, by the state before it.
fn add_token_part(
    out: &mut [u8],
    at: usize,
    state: State,
    kind: Kind,
    token: &[u8],
    after: &[u8],
    scratch: &mut [u8],
) -> usize
    requires { (length token.now ≤ 32768) × (2 * length token.now ≤ length scratch.old) }
    ensures { AppendedCapped (rendered (joined (map item_segments (part_items state false kind token.now after.now)))) at out.old out.new result }
{
    if is_dropped(state, kind, after) {
        return at;
    }
    let line = state.fresh & !(is_semicolon(kind) & state.own);
    add_token(out, at, token, kind, line, scratch)
}

// A parameter that stays as it came.
fn add_parameter(out: &mut [u8], at: usize, parameter: &[u8], fresh: bool) -> usize
    ensures { false ≡ is_converted parameter.now → AppendedCapped (parameter_bytes fresh parameter.now) at out.old out.new result }
{
    let next = add_new_line(out, at, fresh);
    buffer::add_slice(out, next, parameter)
}

// A part before what follows it, by the state before it.
pub(crate) fn add_part(
    out: &mut [u8],
    at: usize,
    state: State,
    kind: PartKind,
    part: &[u8],
    after: &[u8],
    scratch: &mut [u8],
) -> usize
    requires small { length part.now ≤ 32768 }
    requires room { 2 * length part.now ≤ length scratch.old }
    ensures { (is_parameter kind ≡ true → converts kind ≡ is_converted part.now) →
        AppendedCapped (rendered (joined (map item_segments (part_items state (is_parameter kind) (token_kind kind) part.now after.now))))
        at out.old out.new result }
{
    match kind {
        PartKind::Converted => add_converted(out, at, part, scratch),
        PartKind::Stays => add_parameter(out, at, part, state.fresh),
        PartKind::Token(kind) => add_token_part(out, at, state, kind, part, after, scratch),
    }
}

// Writes what a field with parameters becomes from a place on, as far as it fits; answers the place after it. The scratch is where texts
// are made: where it is shorter than twice the value, or the value longer than 32,768 bytes, the value counts as empty.
pub fn add_field(out: &mut [u8], at: usize, name: &[u8], value: &[u8], scratch: &mut [u8]) -> usize
    ensures { AppendedCapped (rendered (parameterized_field name.now (fitting (length scratch.old) value.now))) at out.old out.new result }
{
    add_named::<Parameterized>(out, at, name, value, scratch)
}
