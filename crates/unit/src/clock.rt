// The time (document 01, 'Time'; 004).
ghost use Rattle.std.specs.Prelude.{◌≡◌, ◌+◌, ◌%◌, ◌^◌, ◌<◌};
ghost use Rattle.unit.specs.Clock.{time_code_written, after_code, after_ticks, after_time, at_wrap, fraction_set, nearest_second as Clock·nearest_second};

use packets::{Time, When};

// A time, seconds in 32 bits and their fraction in 24, with its epoch code.
#[derive(Clone, Copy, Default)]
pub struct Elapsed {
    pub value: u64,
    pub epoch: u8,
}

// The last Time-Code, ET, and a value that waits for the Time-Code's wrap, if one does.
#[derive(Clone, Copy, Default)]
pub struct Clock {
    pub last: u8,
    pub elapsed: Elapsed,
    pub waiting: Option<Elapsed>,
}

// In ticks of ET: a second, half of one, and a step of the Time-Code, 64 of which are a second. Then how many values ET has.
const SECOND: u64 = 0x100_0000;

const HALF: u64 = 0x80_0000;

const CODE: u64 = 0x4_0000;

pub(crate) const TIMES: u64 = 0x100_0000_0000_0000;

impl Clock {
    // A time packet: at once, or waiting from now on.
    pub(crate) fn set_time(self, time: Time) -> Clock
        ensures { result ≡ after_time self time }
    {
        let sent = Elapsed {
            value: time.value,
            epoch: time.epoch,
        };
        match time.when {
            When::AtWrap => Clock {
                waiting: Some(sent),
                ..self
            },
            When::AtOnce => Clock {
                elapsed: sent,
                waiting: None,
                ..self
            },
        }
    }

    // A Time-Code, of which the low six bits count.
    pub(crate) fn take_code(self, byte: u8) -> Clock
        ensures { result ≡ after_code self (byte % 2 ^ 6) }
    {
        let v = byte % 64;
        if (self.last == 63) & (v == 0) {
            return Clock {
                last: v,
                elapsed: self.elapsed.wrapped(self.waiting),
                waiting: None,
            };
        }
        if v as u32 == self.last as u32 + 1 {
            return Clock {
                last: v,
                elapsed: self.elapsed.with_fraction(v),
                ..self
            };
        }
        Clock { last: v, ..self }
    }

    pub(crate) fn add_ticks(self, ticks: u32) -> Clock
        ensures { result ≡ after_ticks self ticks }
    {
        let elapsed = Elapsed {
            value: sum56(self.elapsed.value, ticks),
            ..self.elapsed
        };
        Clock { elapsed, ..self }
    }

    // A write to the Time-Code counter: a whole word of 0 resets it.
    pub(crate) fn write_time_code(self, word: u32) -> Clock
        ensures { result ≡ time_code_written self word }
    {
        if word != 0 {
            return self;
        }
        Clock { last: 0, ..self }
    }
}

impl Elapsed {
    // A value that waits becomes ET; else ET goes to the nearest second.
    fn wrapped(self, waiting: Option<Elapsed>) -> Elapsed
        ensures { result ≡ at_wrap self waiting }
    {
        waiting.unwrap_or(Elapsed {
            value: nearest_second(self.value),
            ..self
        })
    }

    // The top six bits of the fraction become v and the rest 0.
    fn with_fraction(self, v: u8) -> Elapsed
        requires { v < 2 ^ 6 }
        ensures { result ≡ fraction_set self v }
    {
        Elapsed {
            value: self.value / SECOND * SECOND + v as u64 * CODE,
            ..self
        }
    }
}

// A second that is half over is taken to end with the wrap, since the oscillator is slow; one that is not, to begin with it, since the oscillator is fast.
fn nearest_second(et: u64) -> u64
    ensures { result ≡ Clock·nearest_second et }
{
    let seconds = et / SECOND;
    if et % SECOND < HALF {
        return seconds * SECOND;
    }
    (seconds + 1) % 0x1_0000_0000 * SECOND
}

// Modulo 2^56.
fn sum56(value: u64, ticks: u32) -> u64
    ensures { result ≡ (value + ticks) % 2 ^ 56 }
{
    (value % TIMES + ticks as u64) % TIMES
}
