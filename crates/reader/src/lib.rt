// The exported call of the reader. For C, hennelaku_c exports it by its name.
#![tactic(auto)]

ghost use Rattle.std.specs.Prelude.{◌≡◌};
ghost use Rattle.downgraded_reader.specs.Reader.{observed, outcome};

use downgraded_reader::ReadAnswer;

// Reads the first Downgraded field of a header that begins at a place or later into a buffer, or refuses it by number.
#[unsafe(no_mangle)]
pub extern "C" fn hennelaku_read_downgraded_slices(
    header: &[u8],
    place: usize,
    buffer: &mut [u8],
) -> ReadAnswer
    ensures { observed result buffer.new ≡ outcome header.now place buffer.old }
{
    downgraded_reader::answer(header, place, buffer)
}
