// The row of encoded words of a text (RFC 2047, charset UTF-8, encodings Q and B), how a row is read back, and demand 3: definitions and
// laws (specs/), and the enum of the encodings.
#![tactic(auto)]

// The encoding of a word. RFC 2047, section 4: "Legal values for "encoding" are "Q" and "B"."
#[derive(Clone, Copy, Debug, PartialEq, Eq)]
pub enum Encoding {
    Q,
    B,
}
