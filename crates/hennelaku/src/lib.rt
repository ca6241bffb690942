// The library's exported calls. For C, hennelaku_c exports each by its name.
#![tactic(auto)]

ghost use Rattle.std.specs.Prelude.{◌≡◌};
ghost use Rattle.call.specs.Outcome.{observed, outcome};
ghost use Rattle.rules.specs.declared.Rules.TheVariants.{Mailbox};
ghost use Rattle.rules.specs.Rules.{setting_rules};
ghost use Rattle.outgoing_header.specs.HeaderOutcome.{header_observed, header_outcome};
ghost use Rattle.batch.specs.Batch.{batch, afterwards};
ghost use Rattle.hennelaku.specs.Version.{version};

use call::Answer;
use outgoing_header::HeaderAnswer;
use rules::Rules;

// Downgrades an envelope and a header into two buffers, or refuses them by number, place and offset. The setting is 0 for a message from
// the spool and any other number for a current one.
#[unsafe(no_mangle)]
pub extern "C" fn hennelaku_downgrade_slices(
    setting: u64,
    envelope: &[u8],
    header: &[u8],
    envelope_buffer: &mut [u8],
    header_buffer: &mut [u8],
) -> Answer
    ensures { observed result envelope_buffer.new header_buffer.new ≡ outcome (setting_rules setting) envelope.now header.now envelope_buffer.old header_buffer.old }
{
    let rules = rules::of_setting(setting);
    call::downgrade(rules, envelope, header, envelope_buffer, header_buffer)
}

// Downgrades the envelopes and headers of a batch, one after another: `records` has nine numbers for each, start and length of its
// envelope and of its header in the input, and five that are filled: number, place, offset, and the lengths of its outputs, which stand
// one after another in the two buffers. One setting serves them all.
#[unsafe(no_mangle)]
pub extern "C" fn hennelaku_downgrade_batch_slices(
    setting: u64,
    input: &[u8],
    records: &mut [u32],
    envelope_buffer: &mut [u8],
    header_buffer: &mut [u8],
)
    ensures { afterwards records.new envelope_buffer.new header_buffer.new ≡ batch (setting_rules setting) input.now records.old envelope_buffer.old header_buffer.old }
{
    batch::downgrade(
        rules::of_setting(setting),
        input,
        records,
        envelope_buffer,
        header_buffer,
    )
}

// Downgrades the header of a stored message into a buffer for a program that knows only ASCII, or refuses it by number, place and offset.
#[unsafe(no_mangle)]
pub extern "C" fn hennelaku_downgrade_mailbox_slices(
    header: &[u8],
    buffer: &mut [u8],
) -> HeaderAnswer
    ensures { header_observed result buffer.new ≡ header_outcome Mailbox header.now buffer.old }
{
    outgoing_header::downgrade(Rules::Mailbox, header, buffer)
}

// The version of the library.
#[unsafe(no_mangle)]
pub extern "C" fn hennelaku_version() -> u32
    ensures { result ≡ version }
{
    400
}
