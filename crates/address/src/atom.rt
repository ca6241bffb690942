// Dot-atoms.
ghost use Rattle.std.specs.Prelude.{◌≡◌, drop};
ghost use Rattle.address.specs.Address.{later, is_atom_byte, dot_atom_end, dot_atom_scan};
ghost use Rattle.address.specs.AtomBits.{bits_of};

// The bits of the 64 bytes among which an ASCII byte is: set where one is atext.
fn bits(b: u8) -> u64
    ensures { result ≡ bits_of b }
{
    if b < 64 {
        11817354136985272320
    } else {
        9223372035915251710
    }
}

// Whether a byte is atext or not ASCII. By one bit of a number.
pub fn is_atom_byte(b: u8) -> bool
    ensures { result ≡ is_atom_byte b }
{
    let row = bits(b);
    ((row >> (b % 64)) % 2 == 1) | (128 <= b)
}

// The end of a dot-atom at a place; where an atom is due there is none.
fn ended(due: bool, at: usize) -> Result<usize, usize>
    ensures { result ≡ later at (dot_atom_end due) }
{
    if due { Err(at) } else { Ok(at) }
}

// The dot-atom at a place. An atom is due at the start and after a dot.
pub fn dot_atom(s: &[u8], at: usize) -> Result<usize, usize>
    ensures { result ≡ later at (dot_atom_scan (drop at s.now)) }
{
    if s.len() <= at {
        return Err(at);
    }
    let mut due = true;
    for i in at..s.len() {
        let b = s[i];
        let dot = (b == b'.') & !due;
        if !(is_atom_byte(b) | dot) {
            return ended(due, i);
        }
        due = dot;
    }
    ended(due, s.len())
}
