// Address fields: the parts of a text, and whether it is a comma list of mailboxes or groups.
#![tactic(auto)]

mod list;
mod part;

pub use list::examine;
pub use part::part_from;

// A part of an address field's text.
#[derive(Clone, Copy, Debug, PartialEq, Eq)]
pub enum PartKind {
    Blank,
    Comment,
    Comma,
    Colon,
    Semicolon,
    Phrase,
    Address,
    // `<address>`: where the address starts in the part, and its length.
    Angled(usize, usize),
    // `<address <alternative>>`: the same of the alternative.
    Alternative(usize, usize),
    // A byte that no part begins with.
    Stray,
}

// The part at the front of a text, with its length.
#[derive(Clone, Copy, Debug, PartialEq, Eq)]
pub struct Front {
    pub kind: PartKind,
    pub size: usize,
}

// The state of a walk over the parts: what is due, or what stands before.
#[derive(Clone, Copy, Debug, PartialEq, Eq)]
pub enum State {
    ItemDue,
    ItemNamed,
    ItemDone,
    GroupOpen,
    MemberDue,
    MemberNamed,
    MemberDone,
    Unfit,
}

// Whether a text fits; and then whether each address is kept, or any is replaced or removed.
#[derive(Clone, Copy, Debug, PartialEq, Eq)]
pub enum Examined {
    DoesNotFit,
    Kept,
    Changed,
}
