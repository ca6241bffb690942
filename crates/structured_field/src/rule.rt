// The rule of a kind of field: how its value is read part by part, and what becomes of each part. The test of a value and its writing are
// the same for all kinds.
ghost use Rattle.std.specs.Prelude.{◌≡◌, ◌≤◌, ◌<◌, ◌+◌, ◌-◌, ◌*◌, ◌&&◌, ◌++◌, true, [], Bool, List, ℕ, length, take, drop};
ghost use Rattle.buffer.specs.Buffer.{AppendedCapped};
ghost use Rattle.encoded_word.specs.Segments.{Segment, rendered};
ghost use Rattle.field.specs.Field.{named};
ghost use Rattle.piece.specs.Piece.{fitting};

use structured_token::Token;

pub trait ValueRule {
    type State: Copy;

    type Kind: Copy;

    // The state in which a value is begun, and the state after a part.
    ghost begun: { Self.State };

    ghost next: { Self.State → Self.Kind → Self.State };

    // What a part is that was found at a place, and how many bytes after it stay as they came.
    ghost took: { Self.State → List ℕ → ℕ → Self.Kind → ℕ → Type 0 };

    ghost passed: { List ℕ → ℕ };

    // What a part of a kind is; whether it may stand in a field that is not held, and whether all parts from a place on may; the lengths
    // of a part and of a scratch for that test.
    ghost fits: { Self.Kind → List ℕ → Type 0 };

    ghost clear: { Self.Kind → List ℕ → Bool };

    ghost clear_from: { Self.State → List ℕ → ℕ → Bool };

    ghost can_test: { ℕ → ℕ → Type 0 };

    // How many bytes of a value are tested, by its length and that of the scratch: all, where they can be.
    ghost tested: { ℕ → ℕ → ℕ };

    // What becomes of a part before what follows it, and of all parts from a place on.
    ghost bytes: { Self.State → Self.Kind → List ℕ → List ℕ → List ℕ };

    ghost segments_from: { Self.State → List ℕ → ℕ → List Segment };

    fn begin() -> Self::State
        ensures { result ≡ begun };

    fn next_state(state: Self::State, kind: Self::Kind) -> Self::State
        ensures { result ≡ next state kind };

    // Where no byte stands at the place, none is taken.
    fn part_at(value: &[u8], at: usize, state: Self::State) -> Token<Self::Kind>
        ensures what { at < length value.now → took state value.now at result.kind result.end }
        ensures some { at < length value.now → at < result.end }
        ensures none { length value.now ≤ at → result.end ≡ at }
        ensures within { at ≤ length value.now → result.end ≤ length value.now };

    fn passed_end(value: &[u8], at: usize) -> usize
        ensures is { result ≡ at + passed (drop at value.now) }
        ensures within { at ≤ length value.now → result ≤ length value.now };

    fn tested_len(n: usize, room: usize) -> usize
        ensures is { result ≡ tested n room }
        ensures can { can_test result room }
        ensures within { result ≤ n };

    // A part that cannot be tested with the scratch counts as the rule says.
    fn is_clear(kind: Self::Kind, part: &[u8], scratch: &mut [u8]) -> bool
        ensures is { let counted = take (tested (length part.now) (length scratch.old)) part.now in
            fits kind counted → result ≡ clear kind counted }
        ensures kept { length scratch.new ≡ length scratch.old };

    // Writes what becomes of a part, as far as it fits; answers the place after it. A part that the scratch cannot serve counts as empty.
    fn add_part(
        out: &mut [u8],
        at: usize,
        state: Self::State,
        kind: Self::Kind,
        part: &[u8],
        after: &[u8],
        scratch: &mut [u8],
    ) -> usize
        ensures is { let served = fitting (length scratch.old) part.now in
            fits kind served → AppendedCapped (bytes state kind served after.now) at out.old out.new result }
        ensures kept { length scratch.new ≡ length scratch.old };

    ghost fits_part: { (state : Self.State) (s : List ℕ) (i : ℕ) (kind : Self.Kind) (e : ℕ) → i < length s → took state s i kind e → fits kind (take (e - i) (drop i s)) };

    ghost tested_all: { (n room : ℕ) → can_test n room → tested n room ≡ n };

    ghost can_less: { (m n room : ℕ) → m ≤ n → can_test n room → can_test m room };

    ghost clear_none: { (state : Self.State) (s : List ℕ) (i : ℕ) → length s ≤ i → clear_from state s i ≡ true };

    ghost clear_step: { (state : Self.State) (s : List ℕ) (i : ℕ) (kind : Self.Kind) (e k : ℕ) → i < length s → took state s i kind e → k ≡ e + passed (drop e s) → clear_from state s i ≡ clear kind (take (e - i) (drop i s)) && clear_from (next state kind) s k };

    ghost bytes_none: { (state : Self.State) (s : List ℕ) (i : ℕ) → length s ≤ i → rendered (segments_from state s i) ≡ [] };

    ghost bytes_step: { (state : Self.State) (s : List ℕ) (i : ℕ) (kind : Self.Kind) (e : ℕ) → i < length s → took state s i kind e → rendered (segments_from state s i) ≡ bytes state kind (take (e - i) (drop i s)) (drop e s) ++ rendered (segments_from (next state kind) s e) };

    ghost bytes_passed: { (state : Self.State) (s : List ℕ) (i : ℕ) (kind : Self.Kind) (e k : ℕ) → i < length s → took state s i kind e → k ≡ e + passed (drop e s) → rendered (segments_from (next state kind) s e) ≡ take (k - e) (drop e s) ++ rendered (segments_from (next state kind) s k) };
}

fn parts_clear<R: ValueRule>(value: &[u8], scratch: &mut [u8]) -> bool
    requires { R.can_test (length value.now) (length scratch.old) }
    ensures is { result ≡ R.clear_from R.begun value.now 0 }
    ensures kept { length scratch.new ≡ length scratch.old }
{
    let mut state = R::begin();
    let mut i: usize = 0;
    while i < value.len() {
        let Token { kind, end } = R::part_at(value, i, state);
        if !R::is_clear(kind, &value[i..end], scratch) {
            return false;
        }
        i = R::passed_end(value, end);
        state = R::next_state(state, kind);
    }
    true
}

// Whether all parts of a value may stand in a field that is not held. Where the scratch is too short for the test, the value counts as the
// rule says.
pub fn all_clear<R: ValueRule>(value: &[u8], scratch: &mut [u8]) -> bool
    ensures is { result ≡ R.clear_from R.begun (take (R.tested (length value.now) (length scratch.old)) value.now) 0 }
    ensures kept { length scratch.new ≡ length scratch.old }
{
    let end = R::tested_len(value.len(), scratch.len());
    parts_clear::<R>(&value[..end], scratch)
}

// What becomes of a value, written part by part.
fn add_value<R: ValueRule>(out: &mut [u8], at: usize, value: &[u8], scratch: &mut [u8]) -> usize
    requires { (length value.now ≤ 32768) × (2 * length value.now ≤ length scratch.old) }
    ensures { AppendedCapped (rendered (R.segments_from R.begun value.now 0)) at out.old out.new result }
{
    let mut next = at;
    let mut state = R::begin();
    let mut i: usize = 0;
    while i < value.len() {
        let Token { kind, end } = R::part_at(value, i, state);
        let passed = R::passed_end(value, end);
        let begun = R::add_part(
            out,
            next,
            state,
            kind,
            &value[i..end],
            &value[end..],
            scratch,
        );
        next = buffer::add_slice(out, begun, &value[end..passed]);
        state = R::next_state(state, kind);
        i = passed;
    }
    next
}

fn add_fitting<R: ValueRule>(
    out: &mut [u8],
    at: usize,
    name: &[u8],
    value: &[u8],
    scratch: &mut [u8],
) -> usize
    requires { (length value.now ≤ 32768) × (2 * length value.now ≤ length scratch.old) }
    ensures { AppendedCapped (rendered (named name.now (R.segments_from R.begun value.now 0))) at out.old out.new result }
{
    let colon = buffer::add_slice(out, at, name);
    let start = buffer::add_byte(out, colon, b':');
    let end = add_value::<R>(out, start, value, scratch);
    buffer::add_slice(out, end, b"\r\n")
}

// Writes what a field becomes from a place on, as far as it fits; answers the place after it. The scratch is where texts are made: where
// it is shorter than twice the value, or the value longer than 32,768 bytes, the value counts as empty.
pub fn add_named<R: ValueRule>(
    out: &mut [u8],
    at: usize,
    name: &[u8],
    value: &[u8],
    scratch: &mut [u8],
) -> usize
    ensures { AppendedCapped (rendered (named name.now (R.segments_from R.begun (fitting (length scratch.old) value.now) 0))) at out.old out.new result }
{
    let end = piece::fitting_len(scratch.len(), value.len());
    add_fitting::<R>(out, at, name, &value[..end], scratch)
}
