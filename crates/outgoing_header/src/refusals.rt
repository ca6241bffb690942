// The refusals of a header, and what a refused header is answered.
ghost use Rattle.std.specs.Prelude.{◌≡◌, [], ◌∷◌};
ghost use Rattle.header_line.specs.Lines.{checked_lines};
ghost use Rattle.outgoing_field.specs.Fate.{limited, held_of};
ghost use Rattle.outgoing_header.specs.HeaderOutcome.{number_of, place_of, offset_of, of_size, of_lines, of_held, first_of};
ghost use Rattle.outgoing_field.specs.Most.{most_of};
ghost use Rattle.outgoing_header.specs.HeaderContent.{with_most};
ghost use Rattle.outgoing_header.specs.HeaderOutcomeLaws.{RefusedBy};

use crate::{HeaderAnswer, HeaderRefusal};
use header_line::MalformedLine;
use outgoing_field::HeldField;
use rules::Rules;

impl HeaderRefusal {
    // The paper's number.
    #[tactic(auto, unfolding(crate::specs::HeaderOutcome::number_of))]
    pub fn number(self) -> u32
        ensures { result ≡ number_of self }
    {
        match self {
            HeaderRefusal::Over => 1,
            HeaderRefusal::Line(_, _) => 5,
            HeaderRefusal::Held(_, _) => 6,
            HeaderRefusal::Needs(_) => 8,
        }
    }

    // Its place.
    #[tactic(auto, unfolding(crate::specs::HeaderOutcome::place_of))]
    pub fn place(self) -> usize
        ensures { result ≡ place_of self }
    {
        match self {
            HeaderRefusal::Over => 1,
            HeaderRefusal::Line(line, _) => line,
            HeaderRefusal::Held(line, _) => line,
            HeaderRefusal::Needs(size) => size,
        }
    }

    // The byte that it points to.
    #[tactic(auto, unfolding(crate::specs::HeaderOutcome::offset_of))]
    pub fn offset(self) -> usize
        ensures { result ≡ offset_of self }
    {
        match self {
            HeaderRefusal::Over => 0,
            HeaderRefusal::Line(_, offset) => offset,
            HeaderRefusal::Held(_, offset) => offset,
            HeaderRefusal::Needs(_) => 0,
        }
    }
}

// What a refused header is answered.
pub(crate) fn refused(refusal: HeaderRefusal) -> HeaderAnswer
    ensures { RefusedBy refusal result }
{
    HeaderAnswer {
        number: refusal.number(),
        place: refusal.place(),
        offset: refusal.offset(),
        length: 0,
    }
}

// A malformed line.
#[tactic(auto, unfolding(crate::specs::HeaderOutcome::of_lines))]
pub fn of_lines(header: &[u8]) -> Result<(), HeaderRefusal>
    ensures { result ≡ of_lines header.now (checked_lines header.now) }
{
    match header_line::check(header) {
        Ok(()) => Ok(()),
        Err(MalformedLine { line, at }) => {
            let offset = offset::of_header_line(header, line, at);
            Err(HeaderRefusal::Line(line, offset))
        }
    }
}

// The most bytes that are written for a header, or its first held field. A header of more than 32,768 bytes has none.
pub fn of_held(rules: Rules, header: &[u8]) -> Result<usize, HeaderRefusal>
    ensures { result ≡ with_most (of_held header.now (held_of rules (limited header.now))) (most_of rules (limited header.now)) }
{
    match outgoing_field::first_held(rules, header) {
        Ok(most) => Ok(most),
        Err(HeldField { line, at }) => {
            Err(HeaderRefusal::Held(line, offset::of_field(header, at)))
        }
    }
}

// The refusals that the buffer does not decide; where there is none, the most bytes that are written.
pub(crate) fn of_content(rules: Rules, header: &[u8]) -> Result<usize, HeaderRefusal>
    ensures { result ≡ with_most (first_of (of_size header.now ∷ of_lines header.now (checked_lines header.now) ∷ of_held header.now (held_of rules header.now) ∷ [])) (most_of rules (limited header.now)) }
{
    if 32768 < header.len() {
        return Err(HeaderRefusal::Over);
    }
    of_lines(header)?;
    of_held(rules, header)
}
