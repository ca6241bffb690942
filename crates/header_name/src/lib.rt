// The names of fields: a constant table of the 32 named fields with their kinds, in which names are looked up without regard to
// letter case, and three names besides.
#![tactic(auto)]

ghost use Rattle.std.specs.Prelude.{◌≡◌, map};
ghost use Rattle.header_name.specs.Names.{other_kind, kind_of};
ghost use Rattle.header_name.specs.NameTable.{has_name, kind_in};

// The grammar of a field's value, by its name: an address list; plain text; a Received field; one with comments; identifiers with comments; one
// with parameters; one that is always held. `OtherCommented`: comments too, under a name that is not in the table.
#[derive(Clone, Copy, Debug, PartialEq, Eq)]
pub enum Kind {
    Address,
    PlainText,
    Received,
    Commented,
    MessageId,
    Parameterized,
    Held,
    OtherCommented,
    Other,
}

static NAMES: [(&[u8], Kind); 32] = [
    (b"From", Kind::Address),
    (b"Sender", Kind::Address),
    (b"Reply-To", Kind::Address),
    (b"To", Kind::Address),
    (b"Cc", Kind::Address),
    (b"Bcc", Kind::Address),
    (b"Resent-From", Kind::Address),
    (b"Resent-Sender", Kind::Address),
    (b"Resent-Reply-To", Kind::Address),
    (b"Resent-To", Kind::Address),
    (b"Resent-Cc", Kind::Address),
    (b"Resent-Bcc", Kind::Address),
    (b"Return-Path", Kind::Address),
    (b"Disposition-Notification-To", Kind::Address),
    (b"Subject", Kind::PlainText),
    (b"Comments", Kind::PlainText),
    (b"Content-Description", Kind::PlainText),
    (b"Received", Kind::Received),
    (b"Date", Kind::Commented),
    (b"Resent-Date", Kind::Commented),
    (b"Message-ID", Kind::MessageId),
    (b"Resent-Message-ID", Kind::MessageId),
    (b"In-Reply-To", Kind::MessageId),
    (b"References", Kind::MessageId),
    (b"MIME-Version", Kind::Commented),
    (b"Content-ID", Kind::Commented),
    (b"Content-Transfer-Encoding", Kind::Commented),
    (b"Content-Type", Kind::Parameterized),
    (b"Content-Disposition", Kind::Parameterized),
    (b"Original-Recipient", Kind::Held),
    (b"Final-Recipient", Kind::Held),
    (b"Keywords", Kind::Held),
];

// Names that are not in the table, of fields with comments.
static COMMENTED: [&[u8]; 3] = [b"Content-Language", b"Accept-Language", b"Auto-Submitted"];

fn has_name(names: &[&[u8]], name: &[u8]) -> bool
    ensures { result ≡ has_name (map (λ n. n.now) names.now) name.now }
{
    for n in names {
        if letter_case::same_any_case(*n, name) {
            return true;
        }
    }
    false
}

// The kind of a name that is not in the table.
fn other_kind(name: &[u8]) -> Kind
    ensures { result ≡ other_kind name.now }
{
    if has_name(&COMMENTED, name) {
        Kind::OtherCommented
    } else {
        Kind::Other
    }
}

fn kind_in(table: &[(&[u8], Kind)], name: &[u8]) -> Kind
    ensures { result ≡ kind_in (map (λ e. (e.0.now, e.1)) table.now) name.now }
{
    for (n, kind) in table {
        if letter_case::same_any_case(*n, name) {
            return *kind;
        }
    }
    other_kind(name)
}

// The kind of a name.
pub fn kind_of(name: &[u8]) -> Kind
    ensures { result ≡ kind_of name.now }
{
    kind_in(&NAMES, name)
}
