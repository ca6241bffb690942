// White space, and the runs between it. A CR or LF is white space: in a well-formed field it belongs to a fold.
ghost use Rattle.std.specs.Prelude.{◌≡◌, length, MatchOption};
ghost use Rattle.word_reader.specs.Word.{is_word};
ghost use Rattle.downgraded_field.specs.Shown.{spacing, solid};
ghost use Rattle.downgraded_field.specs.ShownLaws.{text_part, Split};

use byte_class::{Class, run_end};

struct Spacing;

impl Class for Spacing {
    ghost member = { spacing };

    #[tactic(auto, unfolding(crate::specs::Shown::spacing, line::specs::Line::blank))]
    fn holds(b: u8) -> bool {
        (b == 32) | (b == 9) | (b == 13) | (b == 10)
    }
}

struct Solid;

impl Class for Solid {
    ghost member = { solid };

    fn holds(b: u8) -> bool {
        !Spacing::holds(b)
    }
}

// White space, maybe none, and the run after it, which is empty only at the end.
#[derive(Clone, Copy)]
pub(crate) struct Turn<'a> {
    pub gap: &'a [u8],
    pub run: &'a [u8],
}

impl Turn<'_> {
    pub(crate) fn is_word(self) -> bool
        ensures { result ≡ is_word self.entry.run.now }
    {
        word_reader::is_word(self.run)
    }
}

// The turn at the front of a text, and what is left after it.
pub(crate) fn split_turn(s: &[u8]) -> Option<(Turn<'_>, &[u8])>
    ensures { MatchOption result (length s.now ≡ 0) (λ p. Split s.now p.0.gap.now p.0.run.now p.1.now) }
{
    if s.len() == 0 {
        return None;
    }
    let (gap, after) = s.split_at(run_end::<Spacing>(s, 0));
    let (run, rest) = after.split_at(run_end::<Solid>(after, 0));
    Some((Turn { gap, run }, rest))
}

// The text of a field: its value without the white space before it.
pub(crate) fn text_of(field: &[u8]) -> &[u8]
    ensures { result.now ≡ text_part field.now }
{
    let value = header::value(field);
    &value[run_end::<Spacing>(value, 0)..]
}
