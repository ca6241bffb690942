// A batch: envelopes and headers that lie in one input buffer, downgraded one after another by the single call. Nine numbers make a
// record: start and length of its envelope, start and length of its header; then number, place, offset, and the lengths of both outputs.
#![tactic(auto)]

ghost use Rattle.std.specs.Prelude.{◌≡◌, ◌≤◌, length};
ghost use Rattle.call.specs.Outcome.{observed};
ghost use Rattle.batch.specs.Batch.{past_end, range, range_outcome, batch, afterwards};
ghost use Rattle.std.proofs.lemmas.List.Edits.{sets};
ghost use Rattle.batch.specs.BatchLaws.{Fits, five, Recorded};

use call::Answer;
use rules::Rules;

// Whether a start plus its length lies past the end of the input buffer.
fn is_past_end(input: &[u8], start: u32, len: u32) -> bool
    ensures { result ≡ past_end input.now start len }
{
    input.len() < start as usize + len as usize
}

// So many bytes of the input buffer from a start on, as far as they are there.
fn range_of(input: &[u8], start: u32, len: u32) -> &[u8]
    ensures { result.now ≡ range input.now start len }
{
    let from = start as usize;
    line::part(input, from, from + len as usize)
}

// The single call with an envelope and a header that lie in the input buffer; 9 where one of them does not.
fn downgrade_ranges(
    rules: Rules,
    input: &[u8],
    envelope_start: u32,
    envelope_len: u32,
    header_start: u32,
    header_len: u32,
    envelope_buffer: &mut [u8],
    header_buffer: &mut [u8],
) -> Answer
    ensures { observed result envelope_buffer.new header_buffer.new ≡ range_outcome rules input.now envelope_start envelope_len header_start header_len envelope_buffer.old header_buffer.old }
{
    if is_past_end(input, envelope_start, envelope_len)
        | is_past_end(input, header_start, header_len)
    {
        return Answer {
            number: 9,
            input: 0,
            place: 0,
            offset: 0,
            envelope_len: 0,
            header_len: 0,
        };
    }
    call::downgrade(
        rules,
        range_of(input, envelope_start, envelope_len),
        range_of(input, header_start, header_len),
        envelope_buffer,
        header_buffer,
    )
}

// Fills the last five numbers of the record at the front.
fn store(numbers: &mut [u32], answer: Answer)
    requires { Fits numbers.old answer }
    ensures { numbers.new ≡ sets numbers.old 4 (five answer) }
{
    numbers[4] = answer.number;
    numbers[5] = answer.place as u32;
    numbers[6] = answer.offset as u32;
    numbers[7] = answer.envelope_len as u32;
    numbers[8] = answer.header_len as u32;
}

// Downgrades the record at the front into the room that is left, and fills its last five numbers.
fn downgrade_record(
    rules: Rules,
    input: &[u8],
    numbers: &mut [u32],
    envelope_buffer: &mut [u8],
    header_buffer: &mut [u8],
) -> Answer
    requires { 9 ≤ length numbers.old }
    ensures { Recorded rules input.now numbers.old numbers.new envelope_buffer.old envelope_buffer.new header_buffer.old header_buffer.new result }
{
    let answer = downgrade_ranges(
        rules,
        input,
        numbers[0],
        numbers[1],
        numbers[2],
        numbers[3],
        envelope_buffer,
        header_buffer,
    );
    store(numbers, answer);
    answer
}

// Downgrades each record, in order, into the room that the ones before it left. A last part of fewer than nine numbers is not touched.
pub fn downgrade(
    rules: Rules,
    input: &[u8],
    records: &mut [u32],
    envelope_buffer: &mut [u8],
    header_buffer: &mut [u8],
)
    ensures { afterwards records.new envelope_buffer.new header_buffer.new ≡ batch rules input.now records.old envelope_buffer.old header_buffer.old }
{
    let mut envelope_at: usize = 0;
    let mut header_at: usize = 0;
    for k in 0..records.len() / 9 {
        let answer = downgrade_record(
            rules,
            input,
            &mut records[9 * k..],
            &mut envelope_buffer[envelope_at..],
            &mut header_buffer[header_at..],
        );
        envelope_at += answer.envelope_len;
        header_at += answer.header_len;
    }
}
