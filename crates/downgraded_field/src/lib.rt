// A Downgraded field read: whether its lines are well formed, whether its words can be read, and the text that it is shown as.
#![tactic(auto)]

mod refusal;
mod text;
mod turn;

ghost use Rattle.std.specs.Prelude.{◌≡◌};
ghost use Rattle.buffer.specs.Buffer.{Wrote};
ghost use Rattle.downgraded_field.specs.FieldFaults.{of_word};
ghost use Rattle.downgraded_field.specs.Shown.{is_formed, field_read, field_text};

use word_reader::WordFault;

// Why a field has no text: its lines, or a word that is malformed, of another charset, or not UTF-8. The lowest that holds is answered.
#[derive(Clone, Copy, Debug, PartialEq, Eq, PartialOrd, Ord)]
pub enum FieldFault {
    Malformed,
    Word,
    Charset,
    NotUtf8,
}

impl From<WordFault> for FieldFault {
    ghost from_gives = { λ fault result. result ≡ of_word fault };

    fn from(fault: WordFault) -> FieldFault {
        match fault {
            WordFault::Malformed => FieldFault::Word,
            WordFault::Charset => FieldFault::Charset,
        }
    }
}

// Whether the lines of a field are well formed, with names of at most 87 bytes.
fn is_formed(field: &[u8]) -> bool
    ensures { result ≡ is_formed field.now }
{
    let Some(mut at) = header_line::line_after(field, 0, true, 87) else {
        return false;
    };
    while at < field.len() {
        if !line::is_blank(field[at]) {
            return false;
        }
        let Some(next) = header_line::line_after(field, at, false, 87) else {
            return false;
        };
        at = next;
    }
    true
}

// The length of the text that a field is shown as, or why it has none.
pub fn check(field: &[u8]) -> Result<usize, FieldFault>
    ensures { result ≡ field_read field.now }
{
    if !is_formed(field) {
        return Err(FieldFault::Malformed);
    }
    refusal::check_turns(turn::text_of(field))
}

// Writes the text of a field to the front of out, as far as it fits; answers the length of all of it.
pub fn put(out: &mut [u8], field: &[u8]) -> usize
    ensures { Wrote (field_text field.now) out.old out.new result }
{
    text::put_turns(out, turn::text_of(field))
}
