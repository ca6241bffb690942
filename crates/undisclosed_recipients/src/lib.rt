// That no recipient learns of another: specs/UndisclosedRecipients.antt states it of what meets the demands, and here the exported calls are
// checked against both.
#![tactic(auto)]

ghost use Rattle.rules.specs.Rules.{setting_rules};
ghost use Rattle.demands.specs.Demands.{Demands};
ghost use Rattle.demands.specs.BatchDemands.{BatchDemands};
ghost use Rattle.batch.specs.Batch.{afterwards};
ghost use Rattle.undisclosed_recipients.specs.UndisclosedRecipients.{Undisclosed, UndisclosedRecords};

use call::Answer;
use hennelaku::hennelaku_downgrade_slices as downgrade;

// What two calls answer.
#[derive(Clone, Copy)]
pub struct Answers {
    pub first: Answer,
    pub second: Answer,
}

// The exported call for two envelopes with one header and one setting, each into buffers of its own.
pub fn downgrade_both(
    setting: u64,
    first: &[u8],
    second: &[u8],
    header: &[u8],
    first_envelope: &mut [u8],
    first_header: &mut [u8],
    second_envelope: &mut [u8],
    second_header: &mut [u8],
) -> Answers
    ensures demands { Demands (setting_rules setting) first.now header.now first_envelope.old first_header.old result.first first_envelope.new first_header.new }
    ensures demands_2 { Demands (setting_rules setting) second.now header.now second_envelope.old second_header.old result.second second_envelope.new second_header.new }
    ensures undisclosed { Undisclosed first.now second.now result.first first_header.new result.second second_header.new }
{
    Answers {
        first: downgrade(setting, first, header, first_envelope, first_header),
        second: downgrade(setting, second, header, second_envelope, second_header),
    }
}

// The exported call for a batch, of which any two records may be taken.
pub fn downgrade_batch(
    setting: u64,
    input: &[u8],
    records: &mut [u32],
    envelope_buffer: &mut [u8],
    header_buffer: &mut [u8],
)
    ensures batch_demands { BatchDemands (setting_rules setting) input.now records.old envelope_buffer.old header_buffer.old records.new envelope_buffer.new header_buffer.new }
    ensures undisclosed_records { UndisclosedRecords input.now records.old (afterwards records.new envelope_buffer.new header_buffer.new) input.now records.old (afterwards records.new envelope_buffer.new header_buffer.new) }
{
    hennelaku::hennelaku_downgrade_batch_slices(
        setting,
        input,
        records,
        envelope_buffer,
        header_buffer,
    )
}
