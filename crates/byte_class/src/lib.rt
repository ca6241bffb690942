// Classes of bytes, and what is scanned by a class: the end of a run, all bytes of a text, blocks of bytes.
#![tactic(auto)]

ghost use Rattle.std.specs.Prelude.{◌≡◌, ◌≤◌, ◌+◌, ◌<◌, ℕ, Bool, length, drop, count_by};
ghost use Rattle.lists.specs.Lists.{all};
ghost use Rattle.lists.specs.Run.{run};

// A class of bytes, by the test for its members.
pub trait Class {
    ghost member: { ℕ → Bool };

    fn holds(b: u8) -> bool
        ensures { result ≡ member b };
}

// Whether all bytes of a text are of a class.
pub fn are_all<C: Class>(s: &[u8]) -> bool
    ensures { result ≡ all C.member s.now }
{
    for b in s {
        if !C::holds(*b) {
            return false;
        }
    }
    true
}

// The same as `are_all`, without an early exit, so that it is compiled to vector instructions: faster where most texts are of
// the class to their end, and on a block.
pub fn long_are_all<C: Class>(s: &[u8]) -> bool
    ensures { result ≡ all C.member s.now }
{
    let mut ok = true;
    for b in s {
        ok = ok & C::holds(*b);
    }
    ok
}

// Where the run of bytes of a class from `at` on ends.
pub fn run_end<C: Class>(s: &[u8], at: usize) -> usize
    ensures { result ≡ at + run C.member (drop at s.now) }
{
    if s.len() <= at {
        return at;
    }
    for i in at..s.len() {
        if !C::holds(s[i]) {
            return i;
        }
    }
    s.len()
}

// The end of the blocks of bytes of a class at the front of a text: a place in the run of such bytes at the front, or its end.
fn blocks_end<C: Class>(s: &[u8]) -> usize
    ensures { (result ≤ length s.now) × (run C.member s.now ≡ result + run C.member (drop result s.now)) }
{
    let mut rest = s;
    while let Some((block, more)) = rest.split_first_chunk::<32>() {
        if !long_are_all::<C>(block) {
            break;
        }
        rest = more;
    }
    s.len() - rest.len()
}

// The same as `run_end`, by blocks: faster where runs are long.
pub fn long_run_end<C: Class>(s: &[u8], at: usize) -> usize
    ensures { result ≡ at + run C.member (drop at s.now) }
{
    if s.len() <= at {
        return at;
    }
    run_end::<C>(s, at + blocks_end::<C>(&s[at..]))
}

// How many bytes of a text are of a class.
pub fn count<C: Class>(s: &[u8]) -> usize
    ensures { result ≡ count_by C.member s.now }
{
    s.iter().filter(|b| C::holds(**b)).count()
}
