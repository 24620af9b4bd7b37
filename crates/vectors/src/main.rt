// Outside vectors and edge cases, run through `octets` and `packets`. Most are lines of the file `stdin` beside this folder. Each line that is
// printed tells what came out; the file `stdout` holds what must: for the vectors what the papers say, for the edges what the definitions do.
#![tactic(auto)]

mod annex;
mod commands;
mod edges;
mod instructions;
mod lines;
mod times;

use console::{Input, read_on};

fn main() {
    annex::no_bytes();
    annex::table();
    edges::numbers_of_bytes();
    edges::bytes_of_numbers();
    let mut input = Input::new();
    // A proved loop has to end: it counts its turns, up to a number that no run uses up.
    for _ in 0..u64::MAX {
        read_on!(input);
        lines::each(input.lines().left);
        if input.last || input.whole == 0 {
            return;
        }
    }
}
