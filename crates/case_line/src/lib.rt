// Cases as lines: a case program reads its cases from standard input, a line for each, and shows what becomes of them.
//
// A line that starts with # is a comment. The columns of a case are parted by `|`. A text stands in its column as it is, in UTF-8, but for
//   \r \n \t \\     CR, LF, TAB and the backslash
//   \xC3            the byte with these two hex digits: a control byte, a byte that is not UTF-8, one of `|`, `{` and `}`
//   {76*a text}     a text 76 times; in it \d is the last digit of the turn's number, from 0 on, and \D the digit before it
#![tactic(auto)]

mod escape;

ghost use Rattle.std.specs.Prelude.{◌≡◌, true, ◌+◌, min, length, drop};
ghost use Rattle.lists.specs.Lists.{all};
ghost use Rattle.lists.specs.Run.{run};
ghost use Rattle.case_line.specs.CaseLine.{is_case, other, column_of, decimal, is_filler, Holds, IsPrefixLen};

use byte_class::Class;

// The place of the first byte `mark` from `at` on; where there is none, the length, or `at` where that lies past it.
pub fn find(s: &[u8], at: usize, mark: u8) -> usize
    ensures { result ≡ at + run (other mark) (drop at s.now) }
{
    if s.len() <= at {
        return at;
    }
    for i in at..s.len() {
        if s[i] == mark {
            return i;
        }
    }
    s.len()
}

// Whether a line is a case: it is not empty, and no comment after #.
pub fn is_case(line: &[u8]) -> bool
    ensures { result ≡ is_case line.now }
{
    let b = line::byte_at(line, 0);
    !(b == 0) & !(b == b'#')
}

// A column of a line, the first by 0; empty past the last.
pub fn column(line: &[u8], n: usize) -> &[u8]
    ensures { result.now ≡ column_of n line.now }
{
    let mut from = 0;
    for k in 0..n {
        from = buffer::place_after(find(line, from, b'|'), 1);
    }
    line::part(line, from, find(line, from, b'|'))
}

// The number that decimal digits say, at most 999,999.
pub fn number(digits: &[u8]) -> usize
    ensures { result ≡ decimal 0 digits.now }
{
    let mut n: usize = 0;
    for i in 0..digits.len() {
        n = buffer::clip(n * 10 + usize::from(hex_digit::value(digits[i])), 999999);
    }
    n
}

// Writes a text with its escapes undone to the front of out, as far as it fits; answers how many bytes were written.
pub fn undo(out: &mut [u8], text: &[u8]) -> usize
    ensures { IsPrefixLen result out.new }
{
    let mut n = 0;
    let mut i = 0;
    while i < text.len() {
        let open = find(text, i, b'{');
        let star = find(text, open, b'*');
        let close = find(text, star, b'}');
        let times = number(line::part(text, buffer::place_after(open, 1), star));
        n = escape::add_turn(out, n, line::part(text, i, open), 0);
        n = escape::add_turns(
            out,
            n,
            line::part(text, buffer::place_after(star, 1), close),
            times,
        );
        i = buffer::place_after(close, 1);
    }
    room(n, out)
}

// How many of n bytes a buffer has room for.
pub fn room(n: usize, buffer: &[u8]) -> usize
    ensures prefix_len { IsPrefixLen result buffer.now }
    ensures value { result ≡ min n (length buffer.now) }
{
    buffer::clip(n, buffer.len())
}

struct Filler;

impl Class for Filler {
    ghost member = { is_filler };

    fn holds(b: u8) -> bool {
        b == b'#'
    }
}

// Whether all bytes are #, with which a program fills a buffer before a call.
pub fn is_untouched(bytes: &[u8]) -> bool
    ensures { result ≡ all is_filler bytes.now }
{
    byte_class::are_all::<Filler>(bytes)
}

// Whether a buffer that was full of # holds as much of a text as `size` bytes take, and # after it.
pub fn holds(buffer: &[u8], text: &[u8], size: usize) -> bool
    ensures { result ≡ true → Holds buffer.now text.now size }
{
    let end = buffer::clip(size, text.len());
    if line::part(buffer, 0, end) != line::part(text, 0, end) {
        return false;
    }
    is_untouched(line::part(buffer, end, buffer.len()))
}
