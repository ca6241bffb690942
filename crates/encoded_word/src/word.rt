// One word, in Q or in B.
ghost use Rattle.std.specs.Prelude.{◌+◌, ◌≤◌, length};
ghost use Rattle.buffer.specs.Buffer.{Appended};
ghost use Rattle.row.specs.Word.{word};
ghost use Rattle.row.specs.declared.Encoding.TheVariants.{B};
ghost use Rattle.encoded_word.specs.Writing.{PutWordInQ, PutWord, PutLine};

use crate::character::{Put, put_in_q};
use crate::spelling::put_bytes;
use word_choice::Choice;

// A word in Q, of as many characters as it holds.
fn put_word_in_q(out: &mut [u8], at: usize, room: usize, s: &[u8]) -> Put
    requires { (room ≤ 63) × (at + 75 ≤ length out.old) }
    ensures { PutWordInQ room s.now at out.old out.new result.end result.at }
{
    let started = put_bytes(out, at, b"=?UTF-8?Q?");
    let r = put_in_q(out, started, room, s);
    let e = r.end;
    let here = r.at;
    let after = put_bytes(out, here, b"?=");
    Put { end: e, at: after }
}

// A word in B.
fn put_word_in_b(out: &mut [u8], at: usize, bytes: &[u8]) -> usize
    requires { (length bytes.now ≤ 45) × (at + 75 ≤ length out.old) }
    ensures { Appended (word B bytes.now) at out.old out.new result }
{
    let started = put_bytes(out, at, b"=?UTF-8?B?");
    let after = base64_digits::add(out, started, bytes);
    put_bytes(out, after, b"?=")
}

// The word at the front of a text, which is lent anew to be handed on (docs/ARCHITECTURE.md, Speed).
pub(crate) fn put_word(out: &mut [u8], at: usize, room: usize, s: &[u8]) -> Put
    requires { (room ≤ 63) × (at + 75 ≤ length out.old) }
    ensures { PutWord room s.now at out.old out.new result.end result.at }
{
    if word_choice::surely_in_q(&s[..], room) {
        return put_word_in_q(out, at, room, &s[..]);
    }
    let choice = word_choice::choose(&s[..], room);
    match choice {
        Choice::InQ => put_word_in_q(out, at, room, &s[..]),
        Choice::InB(e) => Put {
            end: e,
            at: put_word_in_b(out, at, &s[0..e]),
        },
    }
}

// The word on a line of its own, after CRLF and one space.
pub(crate) fn put_line(out: &mut [u8], at: usize, s: &[u8]) -> Put
    requires { at + 78 ≤ length out.old }
    ensures { PutLine s.now at out.old out.new result.end result.at }
{
    let started = put_bytes(out, at, b"\r\n ");
    put_word(out, started, 63, s)
}
