// Texts compared without regard to letter case.
#![tactic(auto)]

ghost use Rattle.std.specs.Prelude.{◌≡◌};
ghost use Rattle.letter_case.specs.LetterCase.{lower as lowered, same_any_case};

// A capital letter's small one; any other byte itself.
pub fn lower(b: u8) -> u8
    ensures { result ≡ lowered b }
{
    b.to_ascii_lowercase()
}

// Whether two texts are the same but for the case of letters.
pub fn same_any_case(a: &[u8], b: &[u8]) -> bool
    ensures { result ≡ same_any_case a.now b.now }
{
    a.eq_ignore_ascii_case(b)
}
