// The bench: document 01's unit, and how far a log has got (document 01, 'Bench program').
ghost use Rattle.std.specs.Prelude.{◌≡◌};
ghost use Rattle.records.specs.Log.{bench_unit as Log·bench_unit, start_bench};
ghost use Rattle.records.specs.Run.{is_over};

use unit::{Clock, Fields, Owner, Unit, Window, Windows};

// How far the text has got: nothing printed, the heading printed, all printed.
#[derive(Clone, Copy, PartialEq, Eq)]
pub enum Stage {
    Fresh,
    Running,
    Over,
}

// Kept: a function that only says `==`. `bench` ends by it, and docs/PROMISES.md and `RecordsDetermined` (demands) name its promise.
impl Stage {
    pub fn is_over(self) -> bool
        ensures { result ≡ is_over self }
    {
        self == Stage::Over
    }
}

// What goes from part to part: how far the text has got, the unit, the number of records so far and of the bytes that they took.
#[derive(Clone, Copy)]
pub struct Bench {
    pub stage: Stage,
    pub unit: Unit,
    pub items: u64,
    pub offset: u64,
}

// A bench before its first record.
pub fn start() -> Bench
    ensures { result ≡ start_bench }
{
    Bench {
        stage: Stage::Fresh,
        unit: bench_unit(),
        items: 0,
        offset: 0,
    }
}

// The bench's unit.
fn bench_unit() -> Unit
    ensures { result ≡ Log·bench_unit }
{
    let mut table = [Window::default(); 16];
    table[0] = Window {
        start: 0,
        end: 4096,
        read: true,
        write: true,
    };
    Unit {
        logical: 0x43,
        key: 0x2A,
        number: 0xF0,
        links: 4,
        windows: Windows { table, count: 1 },
        fields: Fields::default(),
        owner: Owner::default(),
        clock: Clock::default(),
        counters: [0; 11],
    }
}
