// Address fields, rewritten piece by piece.
#![tactic(auto)]

mod address_piece;
mod part;
mod phrase_pieces;
mod turn;

ghost use Rattle.std.specs.Prelude.{◌*◌, ◌≤◌, length};
ghost use Rattle.buffer.specs.Buffer.{AppendedCapped};
ghost use Rattle.encoded_word.specs.Segments.{rendered};
ghost use Rattle.address_list.specs.declared.Examined.TheVariants.{Changed};
ghost use Rattle.address_pieces.specs.AddressField.{rewritten_field, copy_of, field_by, address_field, fitting};

use address_list::Examined;
use rules::Rules;

// The field with its value rewritten.
fn add_rewritten(
    out: &mut [u8],
    at: usize,
    rules: Rules,
    name: &[u8],
    text: &[u8],
    scratch: &mut [u8],
) -> usize
    requires { (length text.now ≤ 32768) × (2 * length text.now ≤ length scratch.old) }
    ensures { AppendedCapped (rendered (rewritten_field rules name.now text.now)) at out.old out.new result }
{
    let colon = buffer::add_slice(out, at, name);
    let value = buffer::add_byte(out, colon, b':');
    let end = turn::add_turns(out, value, rules, text, scratch);
    buffer::add_slice(out, end, b"\r\n")
}

// The field with its original text encoded, where the rules add such a copy.
fn add_copy(out: &mut [u8], at: usize, rules: Rules, name: &[u8], text: &[u8]) -> usize
    requires { length text.now ≤ 32768 }
    ensures { AppendedCapped (rendered (copy_of rules name.now text.now)) at out.old out.new result }
{
    match rules {
        Rules::Spool | Rules::Current => field::add_encoded(out, at, name, text, true),
        Rules::Mailbox => at,
    }
}

// The rewritten field, and the copy after it.
fn add_with_copy(
    out: &mut [u8],
    at: usize,
    rules: Rules,
    name: &[u8],
    text: &[u8],
    scratch: &mut [u8],
) -> usize
    requires { (length text.now ≤ 32768) × (2 * length text.now ≤ length scratch.old) }
    ensures { AppendedCapped (rendered (field_by Changed rules name.now text.now)) at out.old out.new result }
{
    let next = add_rewritten(out, at, rules, name, text, scratch);
    add_copy(out, next, rules, name, text)
}

// The field by what its text is found to be.
fn add_by_text(
    out: &mut [u8],
    at: usize,
    rules: Rules,
    name: &[u8],
    text: &[u8],
    scratch: &mut [u8],
) -> usize
    requires { (length text.now ≤ 32768) × (2 * length text.now ≤ length scratch.old) }
    ensures { AppendedCapped (rendered (address_field rules name.now text.now)) at out.old out.new result }
{
    match address_list::examine(text, rules) {
        Examined::DoesNotFit => field::add_encoded(out, at, name, text, true),
        Examined::Kept => add_rewritten(out, at, rules, name, text, scratch),
        Examined::Changed => add_with_copy(out, at, rules, name, text, scratch),
    }
}

// Writes what an address field becomes by the rules from a place on, as far as it fits; answers the place after it. The scratch is
// where the text of a phrase or of a run of a comment is made: where it is shorter than twice the text, or the text longer than 32,768 bytes, the text counts
// as empty.
pub fn add_field(
    out: &mut [u8],
    at: usize,
    rules: Rules,
    name: &[u8],
    text: &[u8],
    scratch: &mut [u8],
) -> usize
    ensures { AppendedCapped (rendered (address_field rules name.now (fitting (length scratch.old) text.now))) at out.old out.new result }
{
    let end = piece::fitting_len(scratch.len(), text.len());
    add_by_text(out, at, rules, name, &text[..end], scratch)
}
