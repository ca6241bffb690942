// A header on its own: its refusals, and what is written for it.
#![tactic(auto)]

mod refusals;

ghost use Rattle.std.specs.Prelude.{◌≡◌, length};
ghost use Rattle.buffer.specs.Buffer.{Wrote};
ghost use Rattle.outgoing_header.specs.HeaderOutcome.{header_out, header_observed, header_outcome};
ghost use Rattle.outgoing_field.specs.Most.{most_of};
ghost use Rattle.outgoing_header.specs.HeaderOutcomeLaws.{Needed, Passed};

pub use refusals::{of_held, of_lines};
use refusals::{of_content, refused};
use rules::Rules;

// Why a header is refused, with the paper's place: a line, and the byte in the header that tells why, or the length needed.
#[derive(Clone, Copy, Debug, PartialEq, Eq)]
pub enum HeaderRefusal {
    Over,
    Line(usize, usize),
    Held(usize, usize),
    Needs(usize),
}

// What a call with a header is answered: the paper's number, place and offset, and the length of what was written.
#[repr(C)]
#[derive(Clone, Copy)]
pub struct HeaderAnswer {
    pub number: u32,
    pub place: usize,
    pub offset: usize,
    pub length: usize,
}

// Writes what becomes of the header to the front of out, as far as it fits; answers its whole length.
fn put(out: &mut [u8], rules: Rules, header: &[u8]) -> usize
    requires { Passed rules header.now }
    ensures { Wrote (header_out rules header.now) out.old out.new result }
{
    outgoing_field::add_fields(out, 0, rules, header)
}

fn out_len(rules: Rules, header: &[u8]) -> usize
    requires { Passed rules header.now }
    ensures { result ≡ length (header_out rules header.now) }
{
    let mut none = [0u8; 0];
    put(&mut none, rules, header)
}

// The length of what is written; or 0 where the room holds the most, and the length need not be measured.
fn needs(rules: Rules, header: &[u8], most: usize, room: usize) -> usize
    requires { Passed rules header.now × (most ≡ most_of rules header.now) }
    ensures { Needed (length (header_out rules header.now)) room result }
{
    if most <= room {
        return 0;
    }
    out_len(rules, header)
}

// Writes a header that passes, or refuses it where it does not fit.
fn fill(rules: Rules, header: &[u8], most: usize, buffer: &mut [u8]) -> HeaderAnswer
    requires { Passed rules header.now × (most ≡ most_of rules header.now) }
    ensures { header_observed result buffer.new ≡ header_outcome rules header.now buffer.old }
{
    let n = needs(rules, header, most, buffer.len());
    if buffer.len() < n {
        return refused(HeaderRefusal::Needs(n));
    }
    HeaderAnswer {
        number: 0,
        place: 0,
        offset: 0,
        length: put(buffer, rules, header),
    }
}

// Downgrades a header by these rules into a buffer, or refuses it by number, place and offset.
pub fn downgrade(rules: Rules, header: &[u8], buffer: &mut [u8]) -> HeaderAnswer
    ensures { header_observed result buffer.new ≡ header_outcome rules header.now buffer.old }
{
    match of_content(rules, header) {
        Err(refusal) => refused(refusal),
        Ok(most) => fill(rules, header, most, buffer),
    }
}
