// Fields whose text is written in encoded words.
#![tactic(auto)]

ghost use Rattle.std.specs.Prelude.{◌≡◌, [], ◌∷◌, ◌++◌};
ghost use Rattle.buffer.specs.Buffer.{AppendedCapped};
ghost use Rattle.row.specs.Row.{row_after, bounded};
ghost use Rattle.encoded_word.specs.Segments.{rendered};
ghost use Rattle.field.specs.Field.{labelled_field, prefix, encoded_field};

// The encoded words of a text, after a label of `column` characters, and CRLF.
fn add_after_label(out: &mut [u8], at: usize, column: usize, text: &[u8]) -> usize
    ensures { AppendedCapped (row_after column (bounded text.now) ++ (13 ∷ 10 ∷ [])) at out.old out.new result }
{
    let end = encoded_word::add_after(out, at, column, text);
    buffer::add_slice(out, end, b"\r\n")
}

// Writes a label and a text in encoded words from a place on, as far as they fit; answers the place after them.
pub fn add_labelled(out: &mut [u8], at: usize, label: &[u8], text: &[u8]) -> usize
    ensures { AppendedCapped (rendered (labelled_field label.now (bounded text.now))) at out.old out.new result }
{
    let words = buffer::add_slice(out, at, label);
    add_after_label(out, words, label.len(), text)
}

// `Downgraded-`, or nothing.
#[tactic(auto, unfolding(crate::specs::Field::prefix, letter_case::specs::LetterCase::bytes))]
fn prefix(downgraded: bool) -> &'static [u8]
    ensures { result.now ≡ prefix downgraded }
{
    if downgraded { b"Downgraded-" } else { b"" }
}

// Writes a field with its text in encoded words, and with or without `Downgraded-` before its name, from a place on, as far as it
// fits; answers the place after it. A name of more than 63 characters counts as 63, since its line has no room for a word either way.
pub fn add_encoded(out: &mut [u8], at: usize, name: &[u8], text: &[u8], downgraded: bool) -> usize
    ensures { AppendedCapped (rendered (encoded_field downgraded name.now (bounded text.now))) at out.old out.new result }
{
    let before = prefix(downgraded);
    let start = buffer::add_slice(out, at, before);
    let colon = buffer::add_slice(out, start, name);
    let words = buffer::add_byte(out, colon, b':');
    let column = before.len() + (name.len().min(63) + 1);
    add_after_label(out, words, column, text)
}
