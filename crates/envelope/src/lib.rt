// Envelopes: one MAIL line, then 1 to 100 RCPT lines.
#![tactic(auto)]

mod faults;
mod orcpts;
mod output;

use envelope_line::Fault;
pub use faults::check;
pub use orcpts::orcpt_line;
pub use output::{put, put_mail_replacement, put_rcpt_replacement};

// A fault, and the number of its line.
#[derive(Clone, Copy, Debug, PartialEq, Eq)]
pub struct FaultAt {
    pub fault: Fault,
    pub line: usize,
}
