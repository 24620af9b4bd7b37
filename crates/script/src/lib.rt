// The lines of a script: fields with bars between them, numbers and bytes in hexadecimal digits. The programs that run one read it by these.
// Every public function takes any input, and promises an equation for what it returns and what it leaves.
#![tactic(auto)]

mod digits;
mod fields;

pub use digits::{byte, bytes, number};
pub use fields::{field, line_size, rest, runnable};
