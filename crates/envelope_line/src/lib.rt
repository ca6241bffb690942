// One line of an envelope, without its CRLF.
#![tactic(auto)]

mod faults;
mod orcpt;
mod output;
mod path;

pub use faults::line_fault;
pub use orcpt::orcpt_fault;
pub use output::{add_line, add_replacement};
pub use path::{path_start, tail_start};

// The fault of a line. Malformed: refusal 2. NoAlternative: 3. BadAlternative: 4. RetiredAlternative: 10.
#[derive(Clone, Copy, Debug, PartialEq, Eq)]
pub enum Fault {
    Malformed,
    NoAlternative,
    BadAlternative,
    RetiredAlternative,
}
