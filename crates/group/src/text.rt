// A text without the blanks at its ends.
ghost use Rattle.std.specs.Prelude.{◌≡◌, take};
ghost use Rattle.group.specs.Trimmed.{content_len, trimmed};

// A text without the blanks at its end.
fn content(t: &[u8]) -> &[u8]
    ensures { result.now ≡ take (content_len t.now) t.now }
{
    let mut rest = t;
    while let Some((last, front)) = rest.split_last() {
        if !line::is_blank(*last) {
            return rest;
        }
        rest = front;
    }
    rest
}

// A text without the blanks at its ends.
pub fn trimmed(t: &[u8]) -> &[u8]
    ensures { result.now ≡ trimmed t.now }
{
    let start = line::blanks_end(t, 0);
    let rest = line::part(t, start, t.len());
    content(rest)
}
