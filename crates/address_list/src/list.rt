// Whether a text is a comma list of mailboxes or groups, by a walk over its parts.
ghost use Rattle.std.specs.Prelude.{◌≡◌, cond, ◌≤◌, length};
ghost use Rattle.address_list.specs.Parts.{inner_end, changes};
ghost use Rattle.address_list.specs.Table.{after, is_done, is_unfit, examined};
ghost use Rattle.address_list.specs.declared.Examined.TheVariants.{DoesNotFit, Kept, Changed};

use crate::part::part_from;
use crate::{Examined, PartKind, State};
use rules::Rules;

// Where a part leads from a state.
#[tactic(auto, unfolding(crate::specs::Table::after))]
fn after(state: State, kind: PartKind) -> State
    ensures { result ≡ after state kind }
{
    match (state, kind) {
        (_, PartKind::Blank | PartKind::Comment) => state,
        (State::ItemDue, PartKind::Phrase) => State::ItemNamed,
        (State::ItemDue, PartKind::Address) => State::ItemDone,
        (State::ItemDue | State::ItemNamed, PartKind::Angled(_, _) | PartKind::Alternative(_, _)) =>
            State::ItemDone,
        (State::ItemNamed, PartKind::Colon) => State::GroupOpen,
        (State::ItemDone, PartKind::Comma) => State::ItemDue,
        (State::GroupOpen | State::MemberDue, PartKind::Phrase) => State::MemberNamed,
        (State::GroupOpen | State::MemberDue, PartKind::Address) => State::MemberDone,
        (
            State::GroupOpen | State::MemberDue | State::MemberNamed,
            PartKind::Angled(_, _) | PartKind::Alternative(_, _),
        ) => State::MemberDone,
        (State::MemberDone, PartKind::Comma) => State::MemberDue,
        (State::GroupOpen | State::MemberDone, PartKind::Semicolon) => State::ItemDone,
        _ => State::Unfit,
    }
}

// Whether a text may end here.
fn is_done(state: State) -> bool
    ensures { result ≡ is_done state }
{
    matches!(state, State::ItemDone)
}

fn is_unfit(state: State) -> bool
    ensures { result ≡ is_unfit state }
{
    matches!(state, State::Unfit)
}

// Whether the address in a part is replaced or removed.
#[tactic(auto, unfolding(crate::specs::Parts::changes))]
fn changes(t: &[u8], kind: PartKind) -> bool
    requires { inner_end kind ≤ length t.now }
    ensures { result ≡ changes kind t.now }
{
    match kind {
        PartKind::Address => !utf8::is_ascii(t),
        PartKind::Angled(start, size) => {
            let end = start + size;
            !utf8::is_ascii(&t[start..end])
        }
        PartKind::Alternative(_, _) => true,
        _ => false,
    }
}

// The answer at the end of a text.
fn ended(state: State, changed: bool) -> Examined
    ensures { result ≡ cond (is_done state) (cond changed Changed Kept) DoesNotFit }
{
    if !is_done(state) {
        return Examined::DoesNotFit;
    }
    if changed {
        return Examined::Changed;
    }
    Examined::Kept
}

// Whether the text of an address field fits; and then whether any address is replaced or removed. The walk ends at the first part
// that does not fit.
pub fn examine(s: &[u8], rules: Rules) -> Examined
    ensures { result ≡ examined rules s.now }
{
    let mut state = State::ItemDue;
    let mut changed = false;
    let mut i = 0;
    while i < s.len() {
        let f = part_from(s, i, rules);
        let kind = f.kind;
        let e = i + f.size;
        state = after(state, kind);
        if is_unfit(state) {
            return Examined::DoesNotFit;
        }
        changed = changed | changes(&s[i..e], kind);
        i = e;
    }
    ended(state, changed)
}
