// What the programs `vectors` and `trials` share: standard input line by line, the fields of a line, and text on standard output. No function
// asks anything of its caller. What the system's calls read and write no contract can say.
#![tactic(auto)]

mod fields;
mod lines;
mod show;

pub use fields::{Fields, bytes};
pub use lines::{Input, Lines};
pub use show::{Row, Text};
