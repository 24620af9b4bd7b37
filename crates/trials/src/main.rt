// Units of every kind, driven from line to line by the file `stdin` beside this folder. Each line that is printed tells what came out; the file
// `stdout` holds what must, by what the papers say.
#![tactic(auto)]

mod lines;
mod units;

use console::{Input, read_on};
use units::Trial;

fn main() {
    let mut trial = Trial::new();
    let mut input = Input::new();
    // A proved loop has to end: it counts its turns, up to a number that no run uses up.
    for _ in 0..u64::MAX {
        read_on!(input);
        let mut lines = input.lines();
        // Each line takes a byte at least.
        for _ in 0..input.whole {
            let Some(line) = lines.next() else {
                break;
            };
            trial.run(line);
        }
        if input.last || input.whole == 0 {
            return;
        }
    }
}
