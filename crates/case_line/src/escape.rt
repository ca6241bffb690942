// Escapes undone.
ghost use Rattle.std.specs.Prelude.{◌<◌};

// A byte, and how many bytes of the text say it.
#[derive(Clone, Copy)]
struct Said {
    byte: u8,
    size: usize,
}

// What \ and a letter say, in a turn of a repeated text; another byte after \ stands for itself.
fn escaped(text: &[u8], at: usize, turn: usize) -> Said
    ensures { 0 < result.size }
{
    let b = line::byte_at(text, at);
    match b {
        b'r' => Said { byte: 13, size: 2 },
        b'n' => Said { byte: 10, size: 2 },
        b't' => Said { byte: 9, size: 2 },
        b'd' => Said {
            byte: 48 + (turn % 10) as u8,
            size: 2,
        },
        b'D' => Said {
            byte: 48 + (turn / 10 % 10) as u8,
            size: 2,
        },
        b'x' => Said {
            byte: hex_byte(text, at),
            size: 4,
        },
        _ => Said { byte: b, size: 2 },
    }
}

// The byte that the two hex digits after a place say; another byte there counts as 0.
fn hex_byte(text: &[u8], at: usize) -> u8 {
    let high = hex_digit::value(line::byte_at(text, buffer::place_after(at, 1)));
    let low = hex_digit::value(line::byte_at(text, buffer::place_after(at, 2)));
    high % 16 * 16 + low % 16
}

// The byte that a text says at a place.
fn byte_said(text: &[u8], at: usize, turn: usize) -> Said
    ensures { 0 < result.size }
{
    let b = line::byte_at(text, at);
    if b == b'\\' {
        return escaped(text, buffer::place_after(at, 1), turn);
    }
    Said { byte: b, size: 1 }
}

// Writes a turn of a repeated text from a place on, as far as it fits; answers the place after it.
pub(crate) fn add_turn(out: &mut [u8], at: usize, text: &[u8], turn: usize) -> usize {
    let mut n = at;
    let mut i = 0;
    while i < text.len() {
        let s = byte_said(text, i, turn);
        n = buffer::add_byte(out, n, s.byte);
        i = buffer::place_after(i, s.size);
    }
    n
}

// The same for each of some turns.
pub(crate) fn add_turns(out: &mut [u8], at: usize, text: &[u8], times: usize) -> usize {
    let mut n = at;
    for turn in 0..times {
        n = add_turn(out, n, text, turn);
    }
    n
}
