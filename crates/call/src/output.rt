// The envelope and the header written, where both fit their buffers.
ghost use Rattle.std.specs.Prelude.{◌≡◌, length};
ghost use Rattle.buffer.specs.Buffer.{Wrote};
ghost use Rattle.envelope.specs.Envelope.{written};
ghost use Rattle.call.specs.Outcome.{observed, outcome};
ghost use Rattle.outgoing_field.specs.Most.{most_of};
ghost use Rattle.outgoing_header.specs.HeaderOutcomeLaws.{Needed, Passed};
ghost use Rattle.call.specs.OutputLaws.{Short, header_of, Ready, StartsOf, Accepted, Texts};

use crate::new_fields::add_new_field;
use crate::refusals::refused;
use crate::{Answer, Refusal};
use outgoing_header::HeaderRefusal;
use rules::Rules;

// The text of a new first field has at most 2,001 bytes: two addresses of lines of 998, in `< < >>`.
const ROOM: usize = 2048;

// The most bytes of both new first fields.
const NEW_FIELDS_MOST: usize = 20600;

// Writes the outgoing header to the front of out, as far as it fits; answers its whole length. `mail` and `rcpt` are the texts of
// the new first fields.
fn put_header(out: &mut [u8], rules: Rules, mail: &[u8], rcpt: &[u8], header: &[u8]) -> usize
    requires { Short mail.now rcpt.now × Passed rules header.now }
    ensures { Wrote (header_of rules mail.now rcpt.now header.now) out.old out.new result }
{
    let mail_end = add_new_field(out, 0, b"Downgraded-Mail-From:", mail);
    let rcpt_end = add_new_field(out, mail_end, b"Downgraded-Rcpt-To:", rcpt);
    outgoing_field::add_fields(out, rcpt_end, rules, header)
}

fn header_len(rules: Rules, mail: &[u8], rcpt: &[u8], header: &[u8]) -> usize
    requires { Short mail.now rcpt.now × Passed rules header.now }
    ensures { result ≡ length (header_of rules mail.now rcpt.now header.now) }
{
    let mut none = [0u8; 0];
    put_header(&mut none, rules, mail, rcpt, header)
}

// The length of the outgoing header; or 0 where the room holds the most that it can be, and it need not be measured.
fn header_needs(
    rules: Rules,
    mail: &[u8],
    rcpt: &[u8],
    header: &[u8],
    most: usize,
    room: usize,
) -> usize
    requires { Short mail.now rcpt.now × Passed rules header.now × (most ≡ most_of rules header.now) }
    ensures { Needed (length (header_of rules mail.now rcpt.now header.now)) room result }
{
    if most + NEW_FIELDS_MOST <= room {
        return 0;
    }
    header_len(rules, mail, rcpt, header)
}

fn envelope_len(envelope: &[u8], starts: &[usize; 100], count: usize) -> usize
    requires { StartsOf envelope.now starts.now count }
    ensures { result ≡ length (written envelope.now) }
{
    let mut none = [0u8; 0];
    envelope::put(&mut none, envelope, starts, count)
}

// Writes both, or refuses where one does not fit. Nothing is written before both are known to fit.
fn fill_with(
    rules: Rules,
    envelope: &[u8],
    header: &[u8],
    most: usize,
    starts: &[usize; 100],
    count: usize,
    mail: &[u8],
    rcpt: &[u8],
    envelope_buffer: &mut [u8],
    header_buffer: &mut [u8],
) -> Answer
    requires { Ready rules envelope.now header.now starts.now count × Accepted rules envelope.now header.now most × Texts envelope.now mail.now rcpt.now }
    ensures { observed result envelope_buffer.new header_buffer.new ≡ outcome rules envelope.now header.now envelope_buffer.old header_buffer.old }
{
    let n = envelope_len(envelope, starts, count);
    if envelope_buffer.len() < n {
        return refused(Refusal::EnvelopeNeeds(n));
    }
    let m = header_needs(rules, mail, rcpt, header, most, header_buffer.len());
    if header_buffer.len() < m {
        return refused(Refusal::Header(HeaderRefusal::Needs(m)));
    }
    Answer {
        number: 0,
        input: 0,
        place: 0,
        offset: 0,
        envelope_len: envelope::put(envelope_buffer, envelope, starts, count),
        header_len: put_header(header_buffer, rules, mail, rcpt, header),
    }
}

// The same, with the texts of the new first fields still to be made.
pub(crate) fn fill(
    rules: Rules,
    envelope: &[u8],
    header: &[u8],
    most: usize,
    starts: &[usize; 100],
    count: usize,
    envelope_buffer: &mut [u8],
    header_buffer: &mut [u8],
) -> Answer
    requires { Ready rules envelope.now header.now starts.now count × Accepted rules envelope.now header.now most }
    ensures { observed result envelope_buffer.new header_buffer.new ≡ outcome rules envelope.now header.now envelope_buffer.old header_buffer.old }
{
    let mut mail = [0u8; ROOM];
    let n = envelope::put_mail_replacement(&mut mail, envelope);
    let mut rcpt = [0u8; ROOM];
    let m = envelope::put_rcpt_replacement(&mut rcpt, envelope, starts, count);
    fill_with(
        rules,
        envelope,
        header,
        most,
        starts,
        count,
        &mail[..n],
        &rcpt[..m],
        envelope_buffer,
        header_buffer,
    )
}
