// Which encoding the word at the front of a text takes (RFC 2047, Q or B): the one that holds more whole characters in its room, Q when
// equal.
#![tactic(auto)]

mod block;

ghost use Rattle.std.specs.Prelude.{◌≡◌, true, ◌≤◌, min, length};
ghost use Rattle.word_spelling.specs.Cost.{cost};
ghost use Rattle.word_choice.specs.Choice.{Chosen, choice_of};
ghost use Rattle.word_choice.specs.Block.{surely_in_q};
ghost use Rattle.word_choice.specs.declared.Choice.TheVariants.{InQ};
ghost use Rattle.word_choice.specs.ChoiceLaws.{bytes_in_b, FullInB};

use block::{Escaped, High, count, others, regular, step_back};

// The encoding of a word, and in B the place where it ends. In Q it ends where the next character does not fit.
#[derive(Clone, Copy, Debug, PartialEq, Eq)]
pub enum Choice {
    InQ,
    InB(usize),
}

// How many characters of a word a text takes in Q.
fn costs(text: &[u8]) -> usize
    requires { length text.now ≤ 45 }
    ensures { result ≡ cost text.now }
{
    text.len() + 2 * count::<Escaped>(text)
}

// A text that a word in B holds whole.
fn whole(text: &[u8], room: usize) -> Choice
    requires { (room ≤ 63) × (length text.now ≤ bytes_in_b room) }
    ensures { Chosen room text.now result }
{
    if 3 * text.len() <= room {
        return Choice::InQ;
    }
    if room < text.len() + 2 * count::<High>(text) {
        return Choice::InB(text.len());
    }
    if costs(text) <= room {
        return Choice::InQ;
    }
    Choice::InB(text.len())
}

// Where as many characters as a word in B holds end, which is `limit` bytes.
fn b_end(text: &[u8], limit: usize) -> usize
    requires { limit ≤ 45 }
    ensures { FullInB limit text.now result }
{
    let mut e = 0;
    while e < text.len() {
        let next = word_spelling::char_end(text, e);
        if limit < next {
            return e;
        }
        e = next;
    }
    e
}

// By the characters of the text.
fn by_characters(text: &[u8], room: usize) -> Choice
    requires { room ≤ 63 }
    ensures { Chosen room text.now result }
{
    let e = b_end(text, room / 4 * 3);
    if costs(&text[0..e]) <= room {
        return Choice::InQ;
    }
    Choice::InB(e)
}

// By the first bytes of the text, where they tell: 32 of which many are not ASCII take more than the room in Q; 48 of which few are
// neither letters, digits nor spaces take less.
fn by_block(text: &[u8], room: usize) -> Choice
    requires { (room ≤ 63) × (50 ≤ length text.now) }
    ensures { Chosen room text.now result }
{
    let limit = room / 4 * 3;
    if room < 32 + 2 * count::<High>(&text[..32]) {
        if 34 <= limit {
            if regular(text) {
                return Choice::InB(step_back(text, limit));
            }
        }
        return by_characters(text, room);
    }
    if limit + 2 * others(text) <= room {
        return Choice::InQ;
    }
    by_characters(text, room)
}

// Whether Q is surely chosen for the word at the front of a text, in a room of so many characters, at most 63: its first byte is ASCII, and
// few of its first bytes are neither letters, digits nor spaces. A short test, for callers to make first.
pub fn surely_in_q(text: &[u8], width: usize) -> bool
    ensures { (result ≡ surely_in_q (min width 63) text.now) × (result ≡ true → Chosen (min width 63) text.now InQ) }
{
    if text.len() < 48 {
        return false;
    }
    if 128 <= text[0] {
        return false;
    }
    let room = buffer::clip(width, 63);
    room / 4 * 3 + 2 * others(text) <= room
}

// The choice for the word at the front of a text, in a room of so many characters, at most 63.
pub fn choose(text: &[u8], width: usize) -> Choice
    ensures { (result ≡ choice_of (min width 63) text.now) × Chosen (min width 63) text.now result }
{
    let room = buffer::clip(width, 63);
    if text.len() <= room / 4 * 3 {
        return whole(text, room);
    }
    if 50 <= text.len() {
        return by_block(text, room);
    }
    by_characters(text, room)
}
