// The new first fields of the header, which hold `<old <new>>` of a path that was replaced.
ghost use Rattle.std.specs.Prelude.{◌≤◌, length};
ghost use Rattle.buffer.specs.Buffer.{AppendedCapped};
ghost use Rattle.encoded_word.specs.Segments.{rendered};
ghost use Rattle.call.specs.OutgoingHeader.{new_field};

// Writes a field with this label from a place on, as far as it fits; answers the place after it. Nothing for no text.
pub(crate) fn add_new_field(out: &mut [u8], at: usize, label: &[u8], text: &[u8]) -> usize
    requires { length text.now ≤ 2048 }
    ensures { AppendedCapped (rendered (new_field label.now text.now)) at out.old out.new result }
{
    if text.len() == 0 {
        return at;
    }
    field::add_labelled(out, at, label, text)
}
