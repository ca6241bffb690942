// The next characters of a text, by what they take in Q: where they end, and how many characters of a word they take.
ghost use Rattle.std.specs.Prelude.{◌≡◌, ◌≤◌, ◌<◌, length, get_or};
ghost use Rattle.word_choice.specs.EndInQLaws.{Stepped};

use word_spelling::{Taken, cost_at, cost_of, high_size};

// A character that is not ASCII: a whole one, or one of any length, cut at the end of the text. Lengths are constants, so that the loop need
// not wait for size.
fn high(s: &[u8], i: usize, left: usize) -> Taken
    requires { i < length s.now }
    ensures { Stepped s.now i left result.end result.cost }
{
    match high_size(s, i) {
        Some(2) => Taken {
            end: i + 2,
            cost: 6,
        },
        Some(3) => Taken {
            end: i + 3,
            cost: 9,
        },
        Some(4) => Taken {
            end: i + 4,
            cost: 12,
        },
        _ => cost_at(s, i),
    }
}

// An ASCII character, or four where what is left holds any four, so that the loop need not wait for what they take.
fn ascii(s: &[u8], i: usize, left: usize) -> Taken
    requires { (i < length s.now) × (get_or s.now i 0 < 128) }
    ensures { Stepped s.now i left result.end result.cost }
{
    let m1 = cost_of(s[i]);
    let j = i + 1;
    if (12 <= left) & (4 <= s.len() - i) {
        let k = j + 1;
        let l = k + 1;
        if (s[j] < 128) & (s[k] < 128) & (s[l] < 128) {
            let m = m1 + cost_of(s[j]) + cost_of(s[k]) + cost_of(s[l]);
            return Taken {
                end: l + 1,
                cost: m,
            };
        }
    }
    Taken { end: j, cost: m1 }
}

// The next character, or characters.
pub(crate) fn next(s: &[u8], i: usize, left: usize) -> Taken
    requires { i < length s.now }
    ensures { Stepped s.now i left result.end result.cost }
{
    if s[i] < 128 {
        return ascii(s, i, left);
    }
    high(s, i, left)
}
