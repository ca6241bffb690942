// The reader's calls by number.
ghost use Rattle.std.specs.Prelude.{◌≡◌};
ghost use Rattle.downgraded_reader.specs.Reader.{observed};
ghost use Rattle.read_back.specs.Calls.{outcome_after};

use downgraded_reader::ReadAnswer;
use reader::hennelaku_read_downgraded_slices as read;

// Call number k of the reader, from 0 on: the first is at the header's start, each other at the place after the field before.
pub(crate) fn read_number(header: &[u8], k: usize, text: &mut [u8]) -> ReadAnswer
    ensures { observed result text.new ≡ outcome_after header.now 0 text.old k }
{
    let mut place = 0;
    for _ in 0..k {
        let r = read(header, place, text);
        place = r.next;
    }
    read(header, place, text)
}
