// Comments in parentheses, by position in a text.
#![tactic(auto)]

mod parts;

ghost use Rattle.std.specs.Prelude.{◌≡◌, drop};
ghost use Rattle.lists.specs.Lists.{nonzero};
ghost use Rattle.comment.specs.Comment.{comment_len, end_of};
ghost use Rattle.comment.specs.CommentLaws.{close_at};

pub use parts::{add_run_text, is_blank_run, part_end, parts_fit, run_end};

// How many comments inside comments have a call of their own. Each takes 64 bytes of stack.
const LEVELS: usize = 256;

// Where the comment ends whose inside goes on at `at`: by counting the parentheses that are open.
fn counted(s: &[u8], at: usize) -> Option<usize>
    ensures { result ≡ nonzero (close_at 0 s.now at) }
{
    let mut deeper: usize = 0;
    let mut i = at;
    while i < s.len() {
        let p = run_end(s, i);
        if s.len() <= p {
            return None;
        }
        if s[p] == b')' {
            if deeper == 0 {
                return Some(p + 1);
            }
            deeper -= 1;
        } else {
            deeper += 1;
        }
        i = p + 1;
    }
    None
}

// The same by a call for each comment inside, for which less of the text remains. Where `levels` are used up they are counted, so
// that the stack is bounded whatever the text.
fn inside(s: &[u8], at: usize, levels: usize) -> Option<usize>
    ensures { result ≡ nonzero (close_at 0 s.now at) }
{
    if levels == 0 {
        return counted(s, at);
    }
    let mut i = at;
    while i < s.len() {
        let p = run_end(s, i);
        if s.len() <= p {
            return None;
        }
        if s[p] == b')' {
            return Some(p + 1);
        }
        i = inside(s, p + 1, levels - 1)?;
    }
    None
}

// Where the comment at `at` ends; none where none starts there or it is unclosed.
pub fn comment_end(s: &[u8], at: usize) -> Option<usize>
    ensures { result ≡ end_of at (comment_len (drop at s.now)) }
{
    if s.len() <= at {
        return None;
    }
    if s[at] != b'(' {
        return None;
    }
    inside(s, at + 1, LEVELS)
}
