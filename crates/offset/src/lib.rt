// The byte that a refusal points to.
#![tactic(auto)]

ghost use Rattle.std.specs.Prelude.{◌≡◌, drop};
ghost use Rattle.envelope.specs.Envelope.{line_text};
ghost use Rattle.offset.specs.Offset.{front_line, line_start, path_byte, alt_value_byte, orcpt_byte, line_at, fault_byte, checked_offset, orcpt_offset, header_line_offset, field_offset};

use envelope_line::Fault;
use line::part;
use parameter::{alt_place, keyword_len, param_end};

// The line at a place, with its CRLF.
#[tactic(auto, using(crate::specs::OffsetLaws::front_part))]
fn front_line(s: &[u8], at: usize) -> &[u8]
    ensures { result.now ≡ front_line (drop at s.now) }
{
    part(s, at, buffer::place_after(line::line_end(s, at), 2))
}

// Where line n starts; the end where there is no such line.
fn line_start(s: &[u8], n: usize) -> usize
    ensures { result ≡ line_start n s.now }
{
    let mut i: usize = 0;
    for _ in 0..n {
        i += front_line(s, i).len();
    }
    i
}

// Where the path of an envelope line starts.
#[tactic(auto, using(crate::specs::OffsetLaws::path_byte_lem))]
fn path_byte(line: &[u8], mail: bool) -> usize
    ensures { result ≡ path_byte mail line.now }
{
    buffer::clip(envelope_line::path_start(mail), line.len())
}

// Where the value of its ALT-ADDRESS starts.
fn alt_value_byte(line: &[u8], mail: bool) -> usize
    ensures { result ≡ alt_value_byte mail line.now }
{
    let Some(place) = alt_place(line, envelope_line::tail_start(line, mail)) else {
        return line.len();
    };
    let start = place + 1;
    let size = keyword_len(part(line, start, param_end(line, start)));
    buffer::clip(
        buffer::place_after(buffer::place_after(start, size), 1),
        line.len(),
    )
}

// Its first byte past the path that is not ASCII: one of an ORCPT value.
#[tactic(auto, using(crate::specs::OffsetLaws::orcpt_byte_lem), unfolding(utf8::specs::Utf8::ascii_run))]
fn orcpt_byte(line: &[u8], mail: bool) -> usize
    ensures { result ≡ orcpt_byte mail line.now }
{
    buffer::clip(
        utf8::ascii_end(line, envelope_line::tail_start(line, mail)),
        line.len(),
    )
}

// A line without its CRLF.
#[tactic(auto, using(crate::specs::OffsetLaws::text_part))]
fn line_text(line: &[u8]) -> &[u8]
    ensures { result.now ≡ line_text line.now }
{
    part(line, 0, line::line_end(line, 0))
}

// The byte of line n, with its CRLF, that tells of a fault.
#[tactic(auto, unfolding(crate::specs::Offset::fault_byte))]
fn fault_byte(line: &[u8], fault: Fault, n: usize) -> usize
    ensures { result ≡ fault_byte fault n line.now }
{
    match fault {
        Fault::Malformed => envelope_stop::stop(line, 0, n),
        Fault::NoAlternative => path_byte(line_text(line), n == 0),
        Fault::BadAlternative => alt_value_byte(line_text(line), n == 0),
        Fault::RetiredAlternative => alt_value_byte(line_text(line), n == 0),
    }
}

// The byte that a check of line n of an envelope points to: that of 2, 3, 4 or 10, or its first where it has no fault.
#[tactic(auto, using(crate::specs::OffsetLaws::fault_inside, crate::specs::OffsetLaws::fault_offset_lem), unfolding(crate::specs::Offset::checked_offset))]
pub fn of_fault(envelope: &[u8], checked: Result<(), Fault>, n: usize) -> usize
    ensures { result ≡ checked_offset envelope.now checked n }
{
    let at = line_start(envelope, n);
    match checked {
        Ok(()) => at,
        Err(fault) => at + fault_byte(front_line(envelope, at), fault, n),
    }
}

// The byte that 6 points to, at line n of an envelope.
#[tactic(auto, using(crate::specs::OffsetLaws::orcpt_inside, crate::specs::OffsetLaws::orcpt_offset_lem))]
pub fn of_orcpt(envelope: &[u8], n: usize) -> usize
    ensures { result ≡ orcpt_offset envelope.now n }
{
    let at = line_start(envelope, n);
    at + orcpt_byte(line_text(front_line(envelope, at)), n == 0)
}

// The byte that 5 points to, at line n of a header, which starts at `at`.
#[tactic(auto, using(crate::specs::OffsetLaws::header_line_offset_lem, crate::specs::OffsetLaws::header_line_fits))]
pub fn of_header_line(header: &[u8], n: usize, at: usize) -> usize
    ensures { result ≡ header_line_offset header.now n at }
{
    at + header_stop::stop(front_line(header, at), 0, n == 0)
}

// The byte that 6 points to, in the field of a header that starts at `at`.
#[tactic(auto, unfolding(crate::specs::Offset::field_offset, utf8::specs::Utf8::ascii_run))]
pub fn of_field(header: &[u8], at: usize) -> usize
    ensures { result ≡ field_offset header.now at }
{
    utf8::ascii_end(header, at)
}
