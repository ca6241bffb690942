// The characters of a word in Q, written into an output buffer.
ghost use Rattle.std.specs.Prelude.{MatchOption, [], ◌∷◌, ◌+◌, ◌≤◌, ◌<◌, length, get_or};
ghost use Rattle.buffer.specs.Buffer.{Appended};
ghost use Rattle.word_spelling.specs.HighChar.{HighChar};
ghost use Rattle.encoded_word.specs.Writing.{PutTurn, PutInQ};

use crate::spelling::{put_byte, put_char, put_escape, put_escapes};
use word_spelling::{cost_at, cost_of, first_of, high_size};

// A place in the text, the room that is left in the word, and a place in the output.
#[derive(Clone, Copy, Debug, PartialEq, Eq)]
struct Spot {
    i: usize,
    left: usize,
    at: usize,
}

// A place in the text, and one in the output.
#[derive(Clone, Copy, Debug, PartialEq, Eq)]
pub(crate) struct Put {
    pub end: usize,
    pub at: usize,
}

// A character of any length, cut at the end of the text, where what is left holds it.
fn put_any(out: &mut [u8], at: usize, left: usize, s: &[u8], i: usize) -> Option<Spot>
    requires { (i < length s.now) × (at + left + 2 ≤ length out.old) }
    ensures { MatchOption result (PutTurn s.now i left at out.old out.new i left at) (λ r. (i < r.i) × PutTurn s.now i left at out.old out.new r.i r.left r.at) }
{
    let c = cost_at(s, i);
    let e = c.end;
    let m = c.cost;
    if left < m {
        return None;
    }
    let after = put_char(out, at, &s[i..e]);
    Some(Spot {
        i: e,
        left: left - m,
        at: after,
    })
}

// Four characters. Kept: as `put_escape`.
fn put_alone(out: &mut [u8], at: usize, a: u8, b: u8, c: u8, d: u8) -> usize
    requires { at + 4 ≤ length out.old }
    ensures { Appended (a ∷ b ∷ c ∷ d ∷ []) at out.old out.new result }
{
    let second = at + 1;
    let third = second + 1;
    let fourth = third + 1;
    out[at] = a;
    out[second] = b;
    out[third] = c;
    out[fourth] = d;
    fourth + 1
}

// An ASCII character, or four that take one character each, where what is left holds them.
fn put_ascii(out: &mut [u8], at: usize, left: usize, s: &[u8], i: usize) -> Option<Spot>
    requires { (i < length s.now) × (at + left + 2 ≤ length out.old) × (get_or s.now i 0 < 128) }
    ensures { MatchOption result (PutTurn s.now i left at out.old out.new i left at) (λ r. (i < r.i) × PutTurn s.now i left at out.old out.new r.i r.left r.at) }
{
    let j = i + 1;
    if (4 <= left) & (4 <= s.len() - i) {
        let k = j + 1;
        let l = k + 1;
        let a = first_of(s[i]);
        let b = first_of(s[j]);
        let c = first_of(s[k]);
        let d = first_of(s[l]);
        if (a != 61) & (b != 61) & (c != 61) & (d != 61) {
            let after = put_alone(out, at, a, b, c, d);
            let next = l + 1;
            let rest = left - 4;
            return Some(Spot {
                i: next,
                left: rest,
                at: after,
            });
        }
    }
    let b = s[i];
    let m = cost_of(b);
    if left < m {
        return None;
    }
    let after = put_byte(out, at, b);
    Some(Spot {
        i: j,
        left: left - m,
        at: after,
    })
}

// A character of n bytes, 2 to 4, none of them ASCII, where what is left holds it.
fn put_whole(out: &mut [u8], at: usize, left: usize, s: &[u8], i: usize, n: usize) -> Option<Spot>
    requires { (2 ≤ n) × (n ≤ 4) × (i + n ≤ length s.now) × (at + left + 2 ≤ length out.old) × HighChar s.now i n }
    ensures { MatchOption result (PutTurn s.now i left at out.old out.new i left at) (λ r. (i < r.i) × PutTurn s.now i left at out.old out.new r.i r.left r.at) }
{
    let m = 3 * n;
    if left < m {
        return None;
    }
    let rest = left - m;
    let next = i + n;
    let j = i + 1;
    let a = s[i];
    let b = s[j];
    let third = put_escapes(out, at, a, b);
    if n == 2 {
        return Some(Spot {
            i: next,
            left: rest,
            at: third,
        });
    }
    let k = j + 1;
    let fourth = put_escape(out, third, s[k]);
    if n == 3 {
        return Some(Spot {
            i: next,
            left: rest,
            at: fourth,
        });
    }
    let l = k + 1;
    let after = put_escape(out, fourth, s[l]);
    Some(Spot {
        i: next,
        left: rest,
        at: after,
    })
}

// A character that is not ASCII. Lengths are constants, so that the loop need not wait for size.
fn put_high(out: &mut [u8], at: usize, left: usize, s: &[u8], i: usize) -> Option<Spot>
    requires { (i < length s.now) × (at + left + 2 ≤ length out.old) }
    ensures { MatchOption result (PutTurn s.now i left at out.old out.new i left at) (λ r. (i < r.i) × PutTurn s.now i left at out.old out.new r.i r.left r.at) }
{
    match high_size(s, i) {
        Some(2) => put_whole(out, at, left, s, i, 2),
        Some(3) => put_whole(out, at, left, s, i, 3),
        Some(4) => put_whole(out, at, left, s, i, 4),
        _ => put_any(out, at, left, s, i),
    }
}

// The next character, or characters; none where what is left does not hold the next.
fn put_next(out: &mut [u8], at: usize, left: usize, s: &[u8], i: usize) -> Option<Spot>
    requires { (i < length s.now) × (at + left + 2 ≤ length out.old) }
    ensures { MatchOption result (PutTurn s.now i left at out.old out.new i left at) (λ r. (i < r.i) × PutTurn s.now i left at out.old out.new r.i r.left r.at) }
{
    if s[i] < 128 {
        return put_ascii(out, at, left, s, i);
    }
    put_high(out, at, left, s, i)
}

// As many characters from the start of the text on as a word in Q holds.
pub(crate) fn put_in_q(out: &mut [u8], start: usize, room: usize, s: &[u8]) -> Put
    requires { start + room + 2 ≤ length out.old }
    ensures { PutInQ room s.now start out.old out.new result.end result.at }
{
    let mut i = 0;
    let mut left = room;
    let mut at = start;
    while i < s.len() {
        let Some(next) = put_next(out, at, left, s, i) else {
            return Put { end: i, at };
        };
        i = next.i;
        left = next.left;
        at = next.at;
    }
    Put { end: i, at }
}
