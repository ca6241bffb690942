// A member of a group that is lost.
ghost use Rattle.std.specs.Prelude.{◌≡◌, ◌≤◌, length};
ghost use Rattle.address_list.specs.Parts.{inner_end};
ghost use Rattle.group.specs.Group.{is_lost};

use address_list::PartKind;

// Kept: `changes` of address_list but for an arm: a public function for both could not require that the address lies in the part.
// Whether a part is an address that is not ASCII, without an alternative.
#[tactic(auto, unfolding(crate::specs::Group::is_lost))]
pub(crate) fn is_lost(t: &[u8], kind: PartKind) -> bool
    requires { inner_end kind ≤ length t.now }
    ensures { result ≡ is_lost kind t.now }
{
    match kind {
        PartKind::Address => !utf8::is_ascii(t),
        PartKind::Angled(start, size) => {
            let end = start + size;
            !utf8::is_ascii(&t[start..end])
        }
        _ => false,
    }
}
