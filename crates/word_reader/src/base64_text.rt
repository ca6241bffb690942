// A text in base64, read strictly: groups of four digits, `=` only as padding at the end, spare bits zero.
ghost use Rattle.std.specs.Prelude.{◌≡◌, ◌<◌, is_some};
ghost use Rattle.std.specs.Option.{unwrap_or};
ghost use Rattle.buffer.specs.Buffer.{AppendedCapped};
ghost use Rattle.base64_digits.specs.Reading.{is_digit64, value64};
ghost use Rattle.word_reader.specs.Word.{first_of, second_of, third_of, b_text, b_ok};
ghost use Rattle.word_reader.specs.WordLaws.{ok_of_quad, text_of_quad, ok_of_last, text_of_last};

use crate::Added;

// Kept: two functions without an Option of the value, whose test and value share a chain of branches: it takes a quarter longer for a field.
#[tactic(auto, unfolding(base64_digits::specs::Reading::is_digit64))]
fn is_digit(b: u8) -> bool
    ensures { result ≡ is_digit64 b }
{
    (65 <= b) & (b <= 90) | (97 <= b) & (b <= 122) | (48 <= b) & (b <= 57) | (b == 43) | (b == 47)
}

// The value of a digit; of any other byte 63, since a text with a fault adds bytes too.
#[tactic(auto, unfolding(base64_digits::specs::Reading::value64))]
fn value(b: u8) -> u8
    ensures { (result ≡ value64 b) × (result < 64) }
{
    if (65 <= b) & (b <= 90) {
        return b - 65;
    }
    if (97 <= b) & (b <= 122) {
        return b - 97 + 26;
    }
    if (48 <= b) & (b <= 57) {
        return b - 48 + 52;
    }
    if b == 43 { 62 } else { 63 }
}

#[tactic(auto, unfolding(crate::specs::Word::first_of))]
fn first_of(w: u8, x: u8) -> u8
    ensures { result ≡ first_of w x }
{
    value(w) * 4 + value(x) / 16
}

#[tactic(auto, unfolding(crate::specs::Word::second_of))]
fn second_of(x: u8, y: u8) -> u8
    ensures { result ≡ second_of x y }
{
    value(x) % 16 * 16 + value(y) / 4
}

#[tactic(auto, unfolding(crate::specs::Word::third_of))]
fn third_of(y: u8, z: u8) -> u8
    ensures { result ≡ third_of y z }
{
    value(y) % 4 * 64 + value(z)
}

#[tactic(auto, unfolding(crate::specs::Word::quad_ok))]
fn is_quad(quad: &[u8; 4]) -> bool
    ensures { result ≡ ok_of_quad quad.now }
{
    is_digit(quad[0]) & is_digit(quad[1]) & is_digit(quad[2]) & is_digit(quad[3])
}

fn add_quad(out: &mut [u8], at: usize, quad: &[u8; 4]) -> usize
    ensures { AppendedCapped (text_of_quad quad.now) at out.old out.new result }
{
    let second = buffer::add_byte(out, at, first_of(quad[0], quad[1]));
    let third = buffer::add_byte(out, second, second_of(quad[1], quad[2]));
    buffer::add_byte(out, third, third_of(quad[2], quad[3]))
}

// The last group, which alone may have padding.
fn add_last(out: &mut [u8], at: usize, quad: &[u8; 4]) -> Added
    ensures { (result.ok ≡ ok_of_last quad.now) × AppendedCapped (text_of_last quad.now) at out.old out.new result.next }
{
    let w = quad[0];
    let x = quad[1];
    let y = quad[2];
    if quad[3] == 61 {
        let second = buffer::add_byte(out, at, first_of(w, x));
        if y == 61 {
            return Added {
                ok: is_digit(w) & is_digit(x) & (value(x) % 16 == 0),
                next: second,
            };
        }
        return Added {
            ok: is_digit(w) & is_digit(x) & is_digit(y) & (value(y) % 4 == 0),
            next: buffer::add_byte(out, second, second_of(x, y)),
        };
    }
    Added {
        ok: is_quad(quad),
        next: add_quad(out, at, quad),
    }
}

pub(crate) fn add(out: &mut [u8], at: usize, s: &[u8]) -> Added
    ensures { (result.ok ≡ b_ok s.now) × AppendedCapped (b_text s.now) at out.old out.new result.next }
{
    let mut good = true;
    let mut place = at;
    let mut rest = s;
    while let Some((quad, more)) = rest.split_first_chunk::<4>() {
        if more.is_empty() {
            let last = add_last(out, place, quad);
            return Added {
                ok: good & last.ok,
                next: last.next,
            };
        }
        good = good & is_quad(quad);
        place = add_quad(out, place, quad);
        rest = more;
    }
    Added {
        ok: good & rest.is_empty(),
        next: place,
    }
}
