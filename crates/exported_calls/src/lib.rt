// The exported calls, checked against the demands: crates/demands/specs/Demands.antt, BatchDemands.antt and MailboxDemands.antt state them.
#![tactic(auto)]

ghost use Rattle.rules.specs.Rules.{setting_rules};
ghost use Rattle.demands.specs.Demands.{Demands};
ghost use Rattle.demands.specs.BatchDemands.{BatchDemands};
ghost use Rattle.demands.specs.MailboxDemands.{MailboxDemands};

use call::Answer;
use outgoing_header::HeaderAnswer;

// The exported call: what it answers and leaves meets the three demands, by the rules of its setting.
pub fn downgrade(
    setting: u64,
    envelope: &[u8],
    header: &[u8],
    envelope_buffer: &mut [u8],
    header_buffer: &mut [u8],
) -> Answer
    ensures { Demands (setting_rules setting) envelope.now header.now envelope_buffer.old header_buffer.old result envelope_buffer.new header_buffer.new }
{
    hennelaku::hennelaku_downgrade_slices(setting, envelope, header, envelope_buffer, header_buffer)
}

// The exported call for a batch: what it leaves meets the demands on a batch, by the rules of its one setting.
pub fn downgrade_batch(
    setting: u64,
    input: &[u8],
    records: &mut [u32],
    envelope_buffer: &mut [u8],
    header_buffer: &mut [u8],
)
    ensures { BatchDemands (setting_rules setting) input.now records.old envelope_buffer.old header_buffer.old records.new envelope_buffer.new header_buffer.new }
{
    hennelaku::hennelaku_downgrade_batch_slices(
        setting,
        input,
        records,
        envelope_buffer,
        header_buffer,
    )
}

// The exported call for a mailbox: what it answers and leaves meets the demands on a mailbox.
pub fn downgrade_mailbox(header: &[u8], buffer: &mut [u8]) -> HeaderAnswer
    ensures { MailboxDemands header.now buffer.old result buffer.new }
{
    hennelaku::hennelaku_downgrade_mailbox_slices(header, buffer)
}
