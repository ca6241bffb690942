// Fields whose values have parameters: Content-Type and Content-Disposition.
#![tactic(auto)]

mod held;
mod names;
mod part;
mod rule;
mod writer;

pub use held::passes;
pub use writer::add_field;

// Where a walk through a value stands.
#[derive(Clone, Copy)]
pub struct State {
    // Whether a comment may start.
    pub comments: bool,
    // Whether a `;` is the last thing but white space, folds and comments.
    pub after: bool,
    // Whether a converted piece is the last thing but white space, folds and its `;`.
    pub fresh: bool,
    // Whether that `;` may still come.
    pub own: bool,
}
