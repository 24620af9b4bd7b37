// The eleven counters (document 01, 'Numbers a caller gets'): places 0 to 9 count the fates 11 to 20, place 10 their total.
ghost use Rattle.std.specs.Prelude.{◌≡◌, ◌<◌};
ghost use Rattle.unit.specs.Counters.{bumped_at, counted_for};

use crate::fate::Fate;

pub(crate) fn counted(counters: [u32; 11], fate: Fate) -> [u32; 11]
    ensures { result ≡ counted_for fate counters }
{
    match fate.number().checked_sub(11) {
        None => counters,
        Some(place) => bumped(bumped(counters, place as usize), 10),
    }
}

// Modulo 2^32: 4,294,967,295 rolls over to 0.
fn bumped(mut counters: [u32; 11], place: usize) -> [u32; 11]
    requires { place < 11 }
    ensures { result ≡ bumped_at place counters }
{
    counters[place] = counters[place].wrapping_add(1);
    counters
}
