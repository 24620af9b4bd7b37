// Layer 3, the unit: an RMAP target, a plug-and-play target and a CUC time receiver in one. It stands on the promises of packets and
// octets alone. A call takes the unit by value and answers the unit after it; memory and reply buffer are lent. Every public function
// takes any input, and promises an equation for what it answers and what it leaves.
//
// A packet's way: it is judged as it is read (packets::bare), then done. judging says what it comes to and touches nothing; where it is a command, decide makes the
// plan. calls follows that: act writes the reply, stores, and has what changes in the unit; memory has the two functions that touch lent memory.
#![tactic(auto)]

mod act;
mod calls;
mod clock;
mod counters;
mod decide;
mod fate;
mod fields;
mod judging;
mod memory;
mod owner;
mod unit;
mod windows;

pub use calls::{Answer, take_packet, take_ticks, take_time_code};
pub use clock::{Clock, Elapsed};
pub use decide::{Action, Plan};
pub use fate::{Fate, Offence, Status, status_byte};
pub use fields::Fields;
pub use judging::{Ruling, Sizes, judge};
pub use owner::Owner;
pub use unit::Unit;
pub use windows::{Window, Windows};
