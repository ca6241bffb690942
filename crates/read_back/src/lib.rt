// What the reader shows: reader_grammar has the rules for any header, and specs/ReadBack.antt states of a header that a call of ours wrote that
// the reader shows what we encoded. Here the exported calls are checked against both.
#![tactic(auto)]

ghost use Rattle.rules.specs.Rules.{setting_rules};
ghost use Rattle.demands.specs.Demands.{Demands};
ghost use Rattle.demands.specs.MailboxDemands.{MailboxDemands};
ghost use Rattle.downgraded_reader.specs.Reader.{observed};
ghost use Rattle.reader_grammar.specs.ReaderGrammar.{Reads};
ghost use Rattle.read_back.specs.ReadBack.{CallReadsBack, MailboxReadsBack};

mod numbered;

use call::Answer;
use downgraded_reader::ReadAnswer;
use outgoing_header::HeaderAnswer;
use reader::hennelaku_read_downgraded_slices as read;

// The exported call of the reader: what it answers and leaves is what the rules give.
pub fn read_downgraded(header: &[u8], place: usize, text: &mut [u8]) -> ReadAnswer
    ensures { Reads header.now place text.old (observed result text.new) }
{
    read(header, place, text)
}

// What the call and the reader answer.
#[derive(Clone, Copy)]
pub struct Answers {
    pub downgraded: Answer,
    pub read: ReadAnswer,
}

#[derive(Clone, Copy)]
pub struct MailboxAnswers {
    pub downgraded: HeaderAnswer,
    pub read: ReadAnswer,
}

// The exported call, then call number k of the reader over the header that it wrote.
pub fn downgrade_and_read(
    setting: u64,
    envelope: &[u8],
    header: &[u8],
    envelope_buffer: &mut [u8],
    header_buffer: &mut [u8],
    k: usize,
    text: &mut [u8],
) -> Answers
    ensures demands { Demands (setting_rules setting) envelope.now header.now envelope_buffer.old header_buffer.old result.downgraded envelope_buffer.new header_buffer.new }
    ensures call_reads_back { CallReadsBack (setting_rules setting) envelope.now header.now result.downgraded envelope_buffer.new k text.old result.read text.new }
{
    let downgraded = hennelaku::hennelaku_downgrade_slices(
        setting,
        envelope,
        header,
        envelope_buffer,
        header_buffer,
    );
    let n = downgraded.header_len;
    let read = numbered::read_number(&header_buffer[..n], k, text);
    Answers { downgraded, read }
}

// The same of the exported call for a mailbox.
pub fn downgrade_mailbox_and_read(
    header: &[u8],
    buffer: &mut [u8],
    k: usize,
    text: &mut [u8],
) -> MailboxAnswers
    ensures mailbox_demands { MailboxDemands header.now buffer.old result.downgraded buffer.new }
    ensures mailbox_reads_back { MailboxReadsBack header.now result.downgraded k text.old result.read text.new }
{
    let downgraded = hennelaku::hennelaku_downgrade_mailbox_slices(header, buffer);
    let n = downgraded.length;
    let read = numbered::read_number(&buffer[..n], k, text);
    MailboxAnswers { downgraded, read }
}
