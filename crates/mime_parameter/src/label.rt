// What stands before the value in a piece.
ghost use Rattle.std.specs.Prelude.{◌≡◌, ◌++◌, ◌+◌, ◌≤◌, length};
ghost use Rattle.buffer.specs.Buffer.{AppendedCapped};
ghost use Rattle.mime_parameter.specs.Number.{decimal};
ghost use Rattle.mime_parameter.specs.Pieces.{alone_label, part_label};

// A number in decimal digits.
fn add_number(out: &mut [u8], at: usize, n: usize) -> usize
    ensures { AppendedCapped (decimal n) at out.old out.new result }
{
    let last = (n % 10) as u8 + 48;
    if n < 10 {
        return buffer::add_byte(out, at, last);
    }
    let next = add_number(out, at, n / 10);
    buffer::add_byte(out, next, last)
}

pub(crate) fn add_alone_label(out: &mut [u8], at: usize, name: &[u8]) -> usize
    ensures { AppendedCapped (alone_label name.now) at out.old out.new result }
{
    let next = buffer::add_slice(out, at, name);
    buffer::add_slice(out, next, b"*=UTF-8''")
}

pub(crate) fn add_part_label(out: &mut [u8], at: usize, name: &[u8], k: usize) -> usize
    ensures { AppendedCapped (part_label name.now k) at out.old out.new result }
{
    let mark = buffer::add_slice(out, at, name);
    let number = buffer::add_byte(out, mark, b'*');
    let next = add_number(out, number, k);
    if k == 0 {
        return buffer::add_slice(out, next, b"*=UTF-8''");
    }
    buffer::add_slice(out, next, b"*=")
}

// The length of a part's label: it is written into an empty buffer.
pub(crate) fn part_label_len(name: &[u8], k: usize) -> usize
    requires { (length name.now ≤ 32768) × (k ≤ 32768) }
    ensures { result ≡ length (part_label name.now k) }
{
    let mut none = [0u8; 0];
    add_part_label(&mut none, 0, name, k)
}
