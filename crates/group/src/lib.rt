// Groups of an address field: where one ends, and whether it loses a member. A field is written by turns: a part, or a whole group that
// loses one.
#![tactic(auto)]

mod mark;
mod member;
mod text;

ghost use Rattle.std.specs.Prelude.{◌≡◌, ◌≤◌, ◌<◌, length};
ghost use Rattle.group.specs.Group.{LostAt, NextAt, NextFrom, next_of, parts_at};

use crate::mark::{is_colon, is_semicolon};
use crate::member::is_lost;
use address_list::{PartKind, part_from};
use rules::Rules;
pub use text::trimmed;

// A group: where its semicolon stands, and the place after it.
#[derive(Clone, Copy)]
struct Group {
    pub end: usize,
    pub next: usize,
}

// What is written at a turn: a part, or a group that loses a member.
#[derive(Clone, Copy, Debug, PartialEq, Eq)]
pub enum TurnKind {
    OnePart(PartKind),
    LostGroup,
}

// A turn: the place of its part, or of what stands between its group's colon and semicolon; and the place after it.
#[derive(Clone, Copy, Debug, PartialEq, Eq)]
pub struct Next {
    pub kind: TurnKind,
    pub start: usize,
    pub end: usize,
    pub next: usize,
}

// The group whose colon stands before a place, where it loses a member.
fn lost_group(s: &[u8], at: usize, rules: Rules) -> Option<Group>
    requires { at ≤ length s.now }
    ensures { LostAt rules s.now at result }
{
    let mut lost = false;
    let mut i = at;
    while i < s.len() {
        let f = part_from(s, i, rules);
        let kind = f.kind;
        let e = i + f.size;
        if is_semicolon(kind) {
            return lost.then_some(Group { end: i, next: e });
        }
        lost = lost | is_lost(&s[i..e], kind);
        i = e;
    }
    lost.then_some(Group { end: i, next: i })
}

// The turn at a place inside a text.
fn next_at(s: &[u8], at: usize, rules: Rules) -> Next
    requires { at < length s.now }
    ensures { NextAt rules s.now at result }
{
    let f = part_from(s, at, rules);
    let kind = f.kind;
    let e = at + f.size;
    if is_colon(kind) {
        if let Some(g) = lost_group(s, e, rules) {
            return Next {
                kind: TurnKind::LostGroup,
                start: e,
                end: g.end,
                next: g.next,
            };
        }
    }
    Next {
        kind: TurnKind::OnePart(kind),
        start: at,
        end: e,
        next: e,
    }
}

// The turn at a place of a text; past its end an empty one.
pub fn next_from(s: &[u8], at: usize, rules: Rules) -> Next
    ensures { (result ≡ next_of at (parts_at rules s.now at)) × NextFrom rules s.now at result }
{
    if s.len() <= at {
        return Next {
            kind: TurnKind::OnePart(PartKind::Stray),
            start: at,
            end: at,
            next: at,
        };
    }
    next_at(s, at, rules)
}
