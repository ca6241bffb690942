// Keys of names: the same names have the same key, whatever the case of their letters. Most others are told apart by them.
ghost use Rattle.std.specs.Prelude.{◌≡◌, ◌≤◌, IfSome, length, take};
ghost use Rattle.parameter_names.specs.KeysLaws.{key_of, absent_in, KeysAt};

use crate::names::marked_end;

fn key_of(name: &[u8]) -> u32
    ensures { result ≡ key_of name.now }
{
    let mut k: u64 = 0;
    for b in name {
        k = (k * 8191 + u64::from(letter_case::lower(*b))) % 4294967291;
    }
    k as u32
}

// How many keys are filled by the names that stand one after another, each with its `=`; none where there is no room for all.
pub(crate) fn fill_keys(keys: &mut [u32; 8192], s: &[u8]) -> Option<usize>
    requires { length keys.old ≡ 8192 }
    ensures { IfSome result (λ n. (n ≤ length keys.new) × KeysAt s.now 0 (take n keys.new)) }
{
    let mut n: usize = 0;
    let mut i: usize = 0;
    while i < s.len() {
        if n == 8192 {
            return None;
        }
        let end = marked_end(s, i);
        keys[n] = key_of(&s[i..end]);
        n += 1;
        i = end;
    }
    Some(n)
}

// Whether a key is none of these. All are looked at, so that many are compared at once.
pub(crate) fn is_absent(keys: &[u32], key: u32) -> bool
    ensures { result ≡ absent_in keys.now key }
{
    let mut absent = true;
    for other in keys {
        absent = absent & (*other != key);
    }
    absent
}
