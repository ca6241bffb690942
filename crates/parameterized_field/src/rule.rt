// The rule of fields with parameters.
ghost use Rattle.std.specs.Prelude.{◌≡◌, true, map, ◌≤◌, drop};
ghost use Rattle.lists.specs.Lists.{joined};
ghost use Rattle.encoded_word.specs.Segments.{rendered};
ghost use Rattle.field_parameter.specs.Parameter.{is_converted};
ghost use Rattle.parameterized_field.specs.Part.{is_parameter, converts, token_kind};
ghost use Rattle.parameterized_field.specs.Value.{start as at_start, clear_from, item_segments, segments_from};
ghost use Rattle.parameterized_field.specs.StepLaws.{TookPart, part_clear, part_items, part_next, segments_step, segments_end};
ghost use Rattle.parameterized_field.specs.RuleLaws.{tested, tested_all, less_served, none_clear, clear_passed, none_passed};

use crate::State;
use crate::held::part_clear;
use crate::part::{PartKind, next_state, part_at, start};
use crate::writer::add_part;
use structured_field::ValueRule;
use structured_token::{Kind, Token};

pub(crate) struct Parameterized;

impl ValueRule for Parameterized {
    type State = State;

    type Kind = PartKind;

    ghost begun = { at_start };

    ghost next = { λ state kind. part_next state (is_parameter kind) (converts kind) (token_kind kind) };

    ghost took = { λ state s i kind e. TookPart state s i (is_parameter kind) (converts kind) (token_kind kind) e };

    ghost passed = { λ _. 0 };

    ghost fits = { λ kind part. is_parameter kind ≡ true → converts kind ≡ is_converted part };

    ghost clear = { λ kind part. part_clear (is_parameter kind) (token_kind kind) part };

    ghost clear_from = { λ state s i. clear_from state (drop i s) };

    ghost can_test = { λ n room. (n ≤ 32768) × (n ≤ room) };

    ghost tested = { tested };

    ghost bytes = { λ state kind part after. rendered (joined (map item_segments (part_items state (is_parameter kind) (token_kind kind) part after))) };

    ghost segments_from = { λ state s i. segments_from state (drop i s) };

    fn begin() -> State {
        start()
    }

    // This and the next are inlined into the loops over a value: where they are called, a value of many small tokens takes a
    // quarter more time.
    #[inline(always)]
    fn next_state(state: State, kind: PartKind) -> State {
        next_state(state, kind)
    }

    #[inline(always)]
    fn part_at(value: &[u8], at: usize, state: State) -> Token<PartKind> {
        if value.len() <= at {
            let kind = PartKind::Token(Kind::End);
            return Token { kind, end: at };
        }
        part_at(value, at, state)
    }

    fn passed_end(_value: &[u8], at: usize) -> usize {
        at
    }

    fn tested_len(n: usize, room: usize) -> usize {
        if (n <= 32768) & (n <= room) { n } else { 0 }
    }

    fn is_clear(kind: PartKind, part: &[u8], scratch: &mut [u8]) -> bool {
        let n = Self::tested_len(part.len(), scratch.len());
        part_clear(kind, &part[..n], scratch)
    }

    fn add_part(
        out: &mut [u8],
        at: usize,
        state: State,
        kind: PartKind,
        part: &[u8],
        after: &[u8],
        scratch: &mut [u8],
    ) -> usize {
        let n = piece::fitting_len(scratch.len(), part.len());
        add_part(out, at, state, kind, &part[..n], after, scratch)
    }

    ghost fits_part = { λ state s i kind e h t. t.conv };

    ghost tested_all = { λ n room h. tested_all n room h.0 h.1 };

    ghost can_less = { less_served };

    ghost clear_none = { none_clear };

    ghost clear_step = { λ state s i kind e j h t q. clear_passed t j q };

    ghost bytes_none = { segments_end };

    ghost bytes_step = { λ state s i kind e h t. segments_step t };

    ghost bytes_passed = { λ state s i kind e j h t q. none_passed t j q (part_next state (is_parameter kind) (converts kind) (token_kind kind)) };
}
