// Time packets.
use console::say;
use packets::{End, Time, When};

// The logical address and the time number of the unit that reads them.
const ADDRESS: u8 = 0x43;

const NUMBER: u8 = 0xf0;

// A packet, read as a time packet: its number, and what it says of the time.
pub(crate) fn read(name: &[u8], packet: &[u8], end: End) {
    answer(name, packets::read_time(packet, end, ADDRESS, NUMBER));
}

fn answer(name: &[u8], read: Option<Time>) {
    say!(name; ": {}", packets::time_number(read));
    match read {
        Some(t) => say!(
            ", epoch {:02x}, {}, {:014x}\n",
            t.epoch,
            when(t.when),
            t.value
        ),
        None => say!("\n"),
    }
}

fn when(w: When) -> &'static str {
    match w {
        When::AtOnce => "at once",
        When::AtWrap => "at the wrap",
    }
}
