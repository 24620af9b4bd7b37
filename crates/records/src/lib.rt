// What the bench program does, as far as it can be proved: records of a log in, lines of text out (document 01, 'Bench program'). The
// log comes in parts of any size and the text leaves in parts, so neither has to fit into memory.
#![tactic(auto)]

mod bench;
mod log;
mod record;
mod text;

pub use bench::{Bench, Stage, start};
pub use log::{Ran, run};
pub use record::{Item, NoRecord, read_record};
