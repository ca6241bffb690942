// Words, phrases and addresses of an address field, by position in its text; the text of a phrase.
#![tactic(auto)]

mod text;
mod word;

pub use text::{add_text, word_end};
pub use word::{address_len, phrase_len};
