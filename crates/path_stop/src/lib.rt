// The path of an envelope line and its `>` by one byte at a time.
#![tactic(auto)]

ghost use Rattle.std.specs.Prelude.{◌≡◌, ◌≤◌};
ghost use Rattle.path_stop.specs.PathStop.{end_step, atoms_step, quoted_step, literal_step, domain_step, local_step, word_step, start_step, path_step, is_closed, path_live, word_need, atoms_need, path_need, path};

use line_stop::LineForm;

// Where a path stands.
#[derive(Clone, Copy)]
pub enum PathForm {
    // Nothing has come; whether it is the MAIL line's.
    Start(bool),
    // So many bytes have come, which `Postmaster>` begins with.
    Word(usize),
    // In a dot-atom: whether it is the domain, and whether an atom is due.
    Atoms(bool, bool),
    // In a quoted string: whether a backslash has come.
    Quoted(bool),
    // After a quoted string, or after a literal domain: whether it is the domain.
    End(bool),
    // After the `@`.
    Domain,
    // In a literal domain.
    Literal,
    // After the `>`.
    Closed,
    // No byte helps.
    Off,
}

#[tactic(auto, unfolding(crate::specs::PathStop::end_step))]
fn end_step(domain: bool, b: u8) -> PathForm
    ensures { result ≡ end_step domain b }
{
    if domain {
        if b == 62 {
            return PathForm::Closed;
        }
        return PathForm::Off;
    }
    if b == 64 {
        return PathForm::Domain;
    }
    PathForm::Off
}

#[tactic(auto, unfolding(crate::specs::PathStop::atoms_step))]
fn atoms_step(domain: bool, due: bool, b: u8) -> PathForm
    ensures { result ≡ atoms_step domain due b }
{
    if address::atom::is_atom_byte(b) {
        return PathForm::Atoms(domain, false);
    }
    if due {
        return PathForm::Off;
    }
    if b == 46 {
        return PathForm::Atoms(domain, true);
    }
    end_step(domain, b)
}

#[tactic(auto, unfolding(crate::specs::PathStop::quoted_step, address::specs::Address::is_quoted_byte))]
fn quoted_step(escaped: bool, b: u8) -> PathForm
    ensures { result ≡ quoted_step escaped b }
{
    if escaped {
        if (32 <= b) & (b <= 126) {
            return PathForm::Quoted(false);
        }
        return PathForm::Off;
    }
    if b == 34 {
        return PathForm::End(false);
    }
    if ((32 <= b) & (b <= 126)) | (128 <= b) {
        return PathForm::Quoted(b == 92);
    }
    PathForm::Off
}

#[tactic(auto, unfolding(crate::specs::PathStop::literal_step, address::specs::Address::is_literal_byte))]
fn literal_step(b: u8) -> PathForm
    ensures { result ≡ literal_step b }
{
    if ((33 <= b) & (b <= 90)) | ((94 <= b) & (b <= 126)) {
        return PathForm::Literal;
    }
    if b == 93 {
        return PathForm::End(true);
    }
    PathForm::Off
}

#[tactic(auto, unfolding(crate::specs::PathStop::domain_step))]
fn domain_step(b: u8) -> PathForm
    ensures { result ≡ domain_step b }
{
    if b == 91 {
        return PathForm::Literal;
    }
    atoms_step(true, true, b)
}

#[tactic(auto, unfolding(crate::specs::PathStop::local_step))]
fn local_step(b: u8) -> PathForm
    ensures { result ≡ local_step b }
{
    if b == 34 {
        return PathForm::Quoted(false);
    }
    atoms_step(false, true, b)
}

#[tactic(auto, using(line_stop::proofs::WordLaws::next_within), unfolding(crate::specs::PathStop::word_step, letter_case::specs::LetterCase::bytes))]
fn word_step(n: usize, b: u8) -> PathForm
    ensures { result ≡ word_step n b }
{
    if line_stop::is_next(b"Postmaster>", n, b) {
        if n == 10 {
            return PathForm::Closed;
        }
        return PathForm::Word(n + 1);
    }
    atoms_step(false, false, b)
}

#[tactic(auto, unfolding(crate::specs::PathStop::start_step, letter_case::specs::LetterCase::bytes))]
fn start_step(mail: bool, b: u8) -> PathForm
    ensures { result ≡ start_step mail b }
{
    if mail {
        if b == 62 {
            return PathForm::Closed;
        }
        return local_step(b);
    }
    if line_stop::is_next(b"Postmaster>", 0, b) {
        return PathForm::Word(1);
    }
    local_step(b)
}

// How many bytes a path needs that has begun as `Postmaster>` does.
#[tactic(auto, unfolding(crate::specs::PathStop::word_need))]
fn word_need(n: usize) -> usize
    ensures { (result ≡ word_need n) × (result ≤ 5) }
{
    if n == 9 {
        return 2;
    }
    if n == 10 {
        return 1;
    }
    3
}

// How many bytes a dot-atom needs, with what must follow it.
#[tactic(auto, unfolding(crate::specs::PathStop::atoms_need))]
fn atoms_need(domain: bool, due: bool) -> usize
    ensures { (result ≡ atoms_need domain due) × (result ≤ 5) }
{
    if due {
        if domain {
            return 2;
        }
        return 4;
    }
    if domain {
        return 1;
    }
    3
}

impl LineForm for PathForm {
    ghost form = { path };

    fn step(self, b: u8) -> PathForm
        ensures { result ≡ path_step self b }
    {
        match self {
            PathForm::Start(mail) => start_step(mail, b),
            PathForm::Word(n) => word_step(n, b),
            PathForm::Atoms(domain, due) => atoms_step(domain, due, b),
            PathForm::Quoted(escaped) => quoted_step(escaped, b),
            PathForm::End(domain) => end_step(domain, b),
            PathForm::Domain => domain_step(b),
            PathForm::Literal => literal_step(b),
            PathForm::Closed | PathForm::Off => PathForm::Off,
        }
    }

    // Whether the path is closed.
    fn is_done(self) -> bool
        ensures { result ≡ is_closed self }
    {
        matches!(self, PathForm::Closed)
    }

    fn is_live(self) -> bool
        ensures { result ≡ path_live self }
    {
        !matches!(self, PathForm::Off)
    }

    fn need(self) -> usize
        ensures { (result ≡ path_need self) × (result ≤ 5) }
    {
        match self {
            PathForm::Start(mail) => if mail { 1 } else { 4 },
            PathForm::Word(n) => word_need(n),
            PathForm::Atoms(domain, due) => atoms_need(domain, due),
            PathForm::Quoted(escaped) => if escaped { 5 } else { 4 },
            PathForm::End(domain) => atoms_need(domain, false),
            PathForm::Domain => 2,
            PathForm::Literal => 2,
            PathForm::Closed | PathForm::Off => 0,
        }
    }
}
