// Refusals by what stands in the header, and by non-ASCII in an ORCPT; and what a refused call answers.
ghost use Rattle.std.specs.Prelude.{◌≡◌, [], ◌∷◌, ◌≤◌, length};
ghost use Rattle.envelope.specs.Envelope.{fault_number, orcpt_line};
ghost use Rattle.header_line.specs.Lines.{checked_lines};
ghost use Rattle.outgoing_field.specs.Fate.{held_of};
ghost use Rattle.outgoing_field.specs.Most.{most_of};
ghost use Rattle.outgoing_header.specs.HeaderOutcome.{of_lines, of_held};
ghost use Rattle.call.specs.Outcome.{number_of, place_of, offset_of, input_of, first_of, of_header, of_orcpt};
ghost use Rattle.call.specs.OutcomeLaws.{RefusedBy, with_most};
ghost use Rattle.call.specs.declared.Refusal.TheVariants.{Header};

use crate::{Answer, Refusal};
use envelope_line::Fault;
use outgoing_header::HeaderRefusal;
use rules::Rules;

#[tactic(auto, unfolding(envelope::specs::Envelope::fault_number))]
fn fault_number(fault: Fault) -> u32
    ensures { result ≡ fault_number fault }
{
    match fault {
        Fault::Malformed => 2,
        Fault::NoAlternative => 3,
        Fault::BadAlternative => 4,
        Fault::RetiredAlternative => 10,
    }
}

impl From<HeaderRefusal> for Refusal {
    ghost from_gives = { λ refusal result. result ≡ Header refusal };

    fn from(refusal: HeaderRefusal) -> Refusal {
        Refusal::Header(refusal)
    }
}

impl Refusal {
    #[tactic(auto, unfolding(crate::specs::Outcome::number_of))]
    fn number(self) -> u32
        ensures { result ≡ number_of self }
    {
        match self {
            Refusal::EnvelopeOver => 1,
            Refusal::EnvelopeLine(fault, _, _) => fault_number(fault),
            Refusal::OrcptLine(_, _) => 6,
            Refusal::EnvelopeNeeds(_) => 7,
            Refusal::Header(refusal) => refusal.number(),
        }
    }

    #[tactic(auto, unfolding(crate::specs::Outcome::place_of))]
    fn place(self) -> usize
        ensures { result ≡ place_of self }
    {
        match self {
            Refusal::EnvelopeOver => 0,
            Refusal::EnvelopeLine(_, line, _) => line,
            Refusal::OrcptLine(line, _) => line,
            Refusal::EnvelopeNeeds(size) => size,
            Refusal::Header(refusal) => refusal.place(),
        }
    }

    // The byte that it points to.
    #[tactic(auto, unfolding(crate::specs::Outcome::offset_of))]
    fn offset(self) -> usize
        ensures { result ≡ offset_of self }
    {
        match self {
            Refusal::EnvelopeOver => 0,
            Refusal::EnvelopeLine(_, _, offset) => offset,
            Refusal::OrcptLine(_, offset) => offset,
            Refusal::EnvelopeNeeds(_) => 0,
            Refusal::Header(refusal) => refusal.offset(),
        }
    }

    // Which input it is about.
    #[tactic(auto, unfolding(crate::specs::Outcome::input_of))]
    fn input(self) -> u32
        ensures { result ≡ input_of self }
    {
        match self {
            Refusal::EnvelopeOver => 1,
            Refusal::EnvelopeLine(_, _, _) => 1,
            Refusal::OrcptLine(_, _) => 1,
            Refusal::EnvelopeNeeds(_) => 1,
            Refusal::Header(_) => 2,
        }
    }
}

// What a refused call answers.
pub(crate) fn refused(refusal: Refusal) -> Answer
    ensures { RefusedBy refusal result }
{
    Answer {
        number: refusal.number(),
        input: refusal.input(),
        place: refusal.place(),
        offset: refusal.offset(),
        envelope_len: 0,
        header_len: 0,
    }
}

// Non-ASCII in an ORCPT, or else in a held field.
fn non_ascii(rules: Rules, envelope: &[u8], header: &[u8]) -> Result<usize, Refusal>
    requires { length header.now ≤ 32768 }
    ensures { result ≡ with_most (first_of (of_orcpt envelope.now (orcpt_line envelope.now) ∷ of_header (of_held header.now (held_of rules header.now)) ∷ [])) (most_of rules header.now) }
{
    if let Some(line) = envelope::orcpt_line(envelope) {
        return Err(Refusal::OrcptLine(line, offset::of_orcpt(envelope, line)));
    }
    Ok(outgoing_header::of_held(rules, header)?)
}

// A malformed header line, or else non-ASCII that cannot be passed on; where there is none, the most bytes that are written for the header.
pub(crate) fn of_content(rules: Rules, envelope: &[u8], header: &[u8]) -> Result<usize, Refusal>
    requires { length header.now ≤ 32768 }
    ensures { result ≡ with_most (first_of (of_header (of_lines header.now (checked_lines header.now)) ∷ of_orcpt envelope.now (orcpt_line envelope.now) ∷ of_header (of_held header.now (held_of rules header.now)) ∷ [])) (most_of rules header.now) }
{
    outgoing_header::of_lines(header)?;
    non_ascii(rules, envelope, header)
}
