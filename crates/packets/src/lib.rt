// Layer 2, packets: what bytes mean, read and written. Nothing here knows of a unit. Every public function takes any input, and promises
// an equation for what it returns and what it leaves.
#![tactic(auto)]

mod ccsds;
mod header;
mod instruction;
mod path;
mod places;
mod reading;
mod reply;
mod time;

pub use ccsds::{Unsent, ccsds_number, read_ccsds, space_packet, write_ccsds};
pub use header::Header;
pub use instruction::{Instruction, Kind};
pub use path::Path;
pub use reading::{Command, End, Packet, Refusal, bare, read_packet};
pub use reply::{Data, Reply};
pub use time::{Time, When, read_time, time_number};
