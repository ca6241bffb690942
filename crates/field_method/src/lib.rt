// How a field whose value is not ASCII is downgraded: by the rules and the kind of its name.
#![tactic(auto)]

ghost use Rattle.std.specs.Prelude.{◌≡◌};
ghost use Rattle.field_method.specs.FieldMethod.{by_profile, method_of};

use header_name::Kind;
use rules::Rules;

// What is written for such a field: the pieces of an address list; encoded words of its text under its own name, or under `Downgraded-`
// and its name; a Received field; its comments encoded, and held or encapsulated where non-ASCII stands outside them; its parameters
// converted; or it is held.
#[derive(Clone, Copy, Debug, PartialEq, Eq)]
pub enum Method {
    Pieces,
    PlainText,
    Encapsulated,
    Received,
    CommentsOrHeld,
    CommentsOrEncapsulated,
    Parameters,
    Held,
}

// The first in the relay, the second in a mailbox.
fn by_profile(rules: Rules, relay: Method, mailbox: Method) -> Method
    ensures { result ≡ by_profile rules relay mailbox }
{
    match rules {
        Rules::Spool | Rules::Current => relay,
        Rules::Mailbox => mailbox,
    }
}

// The method for a field of a kind.
#[tactic(auto, unfolding(crate::specs::FieldMethod::method_of))]
pub fn method_of(rules: Rules, kind: Kind) -> Method
    ensures { result ≡ method_of rules kind }
{
    match kind {
        Kind::Address => Method::Pieces,
        Kind::PlainText => Method::PlainText,
        Kind::Received => Method::Received,
        Kind::Commented => Method::CommentsOrHeld,
        Kind::MessageId => by_profile(
            rules,
            Method::CommentsOrHeld,
            Method::CommentsOrEncapsulated,
        ),
        Kind::Parameterized => Method::Parameters,
        Kind::Held => Method::Held,
        Kind::OtherCommented => by_profile(rules, Method::Encapsulated, Method::CommentsOrHeld),
        Kind::Other => by_profile(rules, Method::Encapsulated, Method::PlainText),
    }
}
