// The downgrade call: an envelope and a header section to ASCII, or a refusal.
#![tactic(auto)]

mod new_fields;
mod output;
mod refusals;

ghost use Rattle.std.specs.Prelude.{◌≡◌};
ghost use Rattle.call.specs.Outcome.{observed, outcome};
ghost use Rattle.call.specs.OutputLaws.{Ready};

use envelope_line::Fault;
use outgoing_header::HeaderRefusal;
use refusals::refused;
use rules::Rules;

// Why a call is refused, with the paper's place: of the envelope a line, and the byte that tells why, or the length needed; of the header
// a refusal of its own.
#[derive(Clone, Copy, Debug, PartialEq, Eq)]
pub enum Refusal {
    EnvelopeOver,
    EnvelopeLine(Fault, usize, usize),
    OrcptLine(usize, usize),
    EnvelopeNeeds(usize),
    Header(HeaderRefusal),
}

// What a call answers: the paper's number, which input it is about (1 the envelope, 2 the header, 0 neither), the paper's place and
// offset, and the lengths of what was written.
#[repr(C)]
#[derive(Clone, Copy)]
pub struct Answer {
    pub number: u32,
    pub input: u32,
    pub place: usize,
    pub offset: usize,
    pub envelope_len: usize,
    pub header_len: usize,
}

// An envelope that passes the check, its RCPT lines at `starts`.
fn downgrade_checked(
    rules: Rules,
    envelope: &[u8],
    header: &[u8],
    starts: &[usize; 100],
    count: usize,
    envelope_buffer: &mut [u8],
    header_buffer: &mut [u8],
) -> Answer
    requires { Ready rules envelope.now header.now starts.now count }
    ensures { observed result envelope_buffer.new header_buffer.new ≡ outcome rules envelope.now header.now envelope_buffer.old header_buffer.old }
{
    match refusals::of_content(rules, envelope, header) {
        Err(refusal) => refused(refusal),
        Ok(most) => {
            output::fill(
                rules,
                envelope,
                header,
                most,
                starts,
                count,
                envelope_buffer,
                header_buffer,
            )
        }
    }
}

// Downgrades an envelope and a header by these rules into two buffers, or refuses them by number, place and offset.
pub fn downgrade(
    rules: Rules,
    envelope: &[u8],
    header: &[u8],
    envelope_buffer: &mut [u8],
    header_buffer: &mut [u8],
) -> Answer
    ensures { observed result envelope_buffer.new header_buffer.new ≡ outcome rules envelope.now header.now envelope_buffer.old header_buffer.old }
{
    if 16384 < envelope.len() {
        return refused(Refusal::EnvelopeOver);
    }
    if 32768 < header.len() {
        return refused(Refusal::Header(HeaderRefusal::Over));
    }
    let mut starts = [0usize; 100];
    match envelope::check(rules, envelope, &mut starts) {
        Err(at) => {
            let offset = offset::of_fault(envelope, Err(at.fault), at.line);
            refused(Refusal::EnvelopeLine(at.fault, at.line, offset))
        }
        Ok(count) => {
            downgrade_checked(
                rules,
                envelope,
                header,
                &starts,
                count,
                envelope_buffer,
                header_buffer,
            )
        }
    }
}
