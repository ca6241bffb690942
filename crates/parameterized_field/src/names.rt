// Whether no name is shared by two parameters.
ghost use Rattle.std.specs.Prelude.{◌≡◌, ◌*◌, ◌≤◌, length};
ghost use Rattle.buffer.specs.Buffer.{AppendedCapped};
ghost use Rattle.parameter_names.specs.Names.{distinct, marked};
ghost use Rattle.parameterized_field.specs.Part.{is_parameter};
ghost use Rattle.parameterized_field.specs.Value.{start as at_start, names_from};
ghost use Rattle.parameterized_field.specs.NamesLaws.{part_names};

use crate::part::{PartKind, next_state, part_at, start};
use structured_token::Token;

// The name of a parameter and a `=`; nothing for another part.
fn add_name(out: &mut [u8], at: usize, part: &[u8], kind: PartKind) -> usize
    ensures { AppendedCapped (marked (part_names (is_parameter kind) part.now)) at out.old out.new result }
{
    match kind {
        PartKind::Token(_) => at,
        PartKind::Converted | PartKind::Stays => {
            let name = field_parameter::token_end(part, 0);
            let next = buffer::add_slice(out, at, &part[..name]);
            buffer::add_byte(out, next, b'=')
        }
    }
}

// The names of all parameters, each with a `=`, at the front of a buffer.
fn add_names(out: &mut [u8], s: &[u8]) -> usize
    requires { length s.now ≤ 32768 }
    ensures { AppendedCapped (marked (names_from at_start s.now)) 0 out.old out.new result × (result ≤ 2 * length s.now) }
{
    let mut next: usize = 0;
    let mut state = start();
    let mut i: usize = 0;
    while i < s.len() {
        let Token { kind, end } = part_at(s, i, state);
        next = add_name(out, next, &s[i..end], kind);
        state = next_state(state, kind);
        i = end;
    }
    next
}

// Whether the names of a value's parameters differ. They are gathered in the scratch.
pub(crate) fn names_differ(value: &[u8], scratch: &mut [u8]) -> bool
    requires { (length value.now ≤ 32768) × (2 * length value.now ≤ length scratch.old) }
    ensures { result ≡ distinct (names_from at_start value.now) }
{
    let n = add_names(scratch, value);
    parameter_names::names_differ(&scratch[..n])
}
