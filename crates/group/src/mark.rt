// The marks of a group.
ghost use Rattle.std.specs.Prelude.{◌≡◌};
ghost use Rattle.group.specs.Group.{is_colon, is_semicolon};

use address_list::PartKind;

// Whether a part is a group's colon.
pub(crate) fn is_colon(kind: PartKind) -> bool
    ensures { result ≡ is_colon kind }
{
    matches!(kind, PartKind::Colon)
}

// Whether it is a group's semicolon.
pub(crate) fn is_semicolon(kind: PartKind) -> bool
    ensures { result ≡ is_semicolon kind }
{
    matches!(kind, PartKind::Semicolon)
}
