// The reader of Downgraded fields: the first field of a header from a place on, as its text or a reason.
#![tactic(auto)]

ghost use Rattle.std.specs.Prelude.{◌≡◌, ◌<◌, length, drop};
ghost use Rattle.downgraded_field.specs.Shown.{field_read, field_text};
ghost use Rattle.downgraded_field.specs.FieldFaults.{number_of as fault_number};
ghost use Rattle.downgraded_reader.specs.ReaderLaws.{NumberedBy};
ghost use Rattle.downgraded_reader.specs.Reader.{is_downgraded, first_line, field_start, fitting, text_left, text_number, text_size, reading, buffer_after, outcome, observed};
ghost use Rattle.downgraded_reader.specs.declared.Unread.TheVariants.{Fault};

use downgraded_field::FieldFault;

// Why a field has no text: its fault, or the length that the buffer is too short for.
#[derive(Clone, Copy, Debug, PartialEq, Eq)]
pub enum Unread {
    Fault(FieldFault),
    Room(usize),
}

impl From<FieldFault> for Unread {
    ghost from_gives = { λ fault result. result ≡ Fault fault };

    fn from(fault: FieldFault) -> Unread {
        Unread::Fault(fault)
    }
}

// A field that a call finds: its start, the place after it, and the length of its text, which is written, or why it has none.
#[derive(Clone, Copy, Debug, PartialEq, Eq)]
pub struct Found {
    pub start: usize,
    pub next: usize,
    pub text: Result<usize, Unread>,
}

// The answer of the exported call.
#[repr(C)]
#[derive(Clone, Copy)]
pub struct ReadAnswer {
    pub number: u32,
    pub start: usize,
    pub next: usize,
    pub length: usize,
}

// Where the first line begins from a place on.
fn first_line(h: &[u8], place: usize) -> usize
    requires { place < length h.now }
    ensures { result ≡ first_line h.now place }
{
    if place == 0 {
        return 0;
    }
    let from = place - buffer::clip(place, 2);
    line::line_end(h, from) + 2
}

fn is_downgraded(h: &[u8], at: usize) -> bool
    requires { at < length h.now }
    ensures { result ≡ is_downgraded (drop at h.now) }
{
    letter_case::same_any_case(line::part(h, at, at + 11), b"Downgraded-")
}

// Where the first field begins from a place on; past the header where there is none.
fn field_start(h: &[u8], place: usize) -> usize
    requires { place < length h.now }
    ensures { result ≡ field_start h.now place }
{
    let mut at = first_line(h, place);
    while at < h.len() {
        if is_downgraded(h, at) {
            return at;
        }
        at = line::line_end(h, at) + 2;
    }
    at
}

// Writes the text of a field, where it has one that fits.
fn read_text(field: &[u8], buffer: &mut [u8]) -> Result<usize, Unread>
    ensures { (result ≡ fitting (length buffer.old) (field_read field.now)) × (buffer.new ≡ text_left result (field_text field.now) buffer.old) }
{
    let size = downgraded_field::check(field)?;
    if buffer.len() < size {
        return Err(Unread::Room(size));
    }
    downgraded_field::put(buffer, field);
    Ok(size)
}

// Reads the first Downgraded field that begins at a place or later.
pub fn read(header: &[u8], place: usize, buffer: &mut [u8]) -> Option<Found>
    ensures { (result ≡ reading header.now place (length buffer.old)) × (buffer.new ≡ buffer_after header.now place buffer.old) }
{
    if header.len() <= place {
        return None;
    }
    let start = field_start(header, place);
    if header.len() <= start {
        return None;
    }
    let next = header::field_end(header, start);
    let text = read_text(&header[start..next], buffer);
    Some(Found { start, next, text })
}

fn fault_number(fault: FieldFault) -> u32
    ensures { result ≡ fault_number fault }
{
    match fault {
        FieldFault::Malformed => 1,
        FieldFault::Word => 2,
        FieldFault::Charset => 3,
        FieldFault::NotUtf8 => 4,
    }
}

#[tactic(auto, unfolding(crate::specs::Reader::text_number))]
fn number_of(text: Result<usize, Unread>) -> u32
    ensures { result ≡ text_number text }
{
    match text {
        Ok(_) => 0,
        Err(Unread::Fault(fault)) => fault_number(fault),
        Err(Unread::Room(_)) => 5,
    }
}

// The length of a text, written or needed.
#[tactic(auto, unfolding(crate::specs::Reader::text_size))]
fn length_of(text: Result<usize, Unread>) -> usize
    ensures { result ≡ text_size text }
{
    match text {
        Ok(size) | Err(Unread::Room(size)) => size,
        Err(Unread::Fault(_)) => 0,
    }
}

// What is found, by its numbers; where there is no field, its places are the header's end.
#[tactic(auto, unfolding(crate::specs::Reader::number_of, crate::specs::Reader::start_of, crate::specs::Reader::next_of, crate::specs::Reader::length_of))]
fn numbered(found: Option<Found>, end: usize) -> ReadAnswer
    ensures { NumberedBy end found result }
{
    match found {
        None => ReadAnswer {
            number: 6,
            start: end,
            next: end,
            length: 0,
        },
        Some(field) => ReadAnswer {
            number: number_of(field.text),
            start: field.start,
            next: field.next,
            length: length_of(field.text),
        },
    }
}

// The same, answered by numbers, as the exported call answers.
pub fn answer(header: &[u8], place: usize, buffer: &mut [u8]) -> ReadAnswer
    ensures { observed result buffer.new ≡ outcome header.now place buffer.old }
{
    let found = read(header, place, buffer);
    numbered(found, header.len())
}
