// The bench program (document 01, 'Bench program'): records on standard input, lines of text on standard output. What is printed is made by the
// crate records, which promises it; here bytes are moved between the system and two buffers of 64 KiB, whatever the log's length. Before the
// program waits for input it has written the line of every record that came whole. A log that can't be read on, or a text that can't be
// written, ends it with a word on standard error, and without a last line.
#![tactic(auto)]

ghost use Rattle.std.specs.Prelude.{◌≡◌};
ghost use Rattle.records.specs.Log.{start_held};

use log::Log;
use std::fmt;

mod log;

// The number under which the system knows standard output.
const STDOUT: i32 = 1;

// What ends the program before the log does.
#[derive(Clone, Copy)]
enum Broken {
    Input,
    Output,
}

impl fmt::Display for Broken {
    fn fmt<W: fmt::Write>(&self, f: &mut fmt::Formatter<W>) -> fmt::Result {
        f.write_str(match self {
            Broken::Input => "standard input can't be read",
            Broken::Output => "standard output can't be written",
        })
    }
}

fn main(rt: HostRuntime) {
    let mut memory = [0u8; 4096];
    let mut reply = [0u8; 8192];
    if let Err(broken) = all(&rt, &mut memory, &mut reply) {
        let _ = eprintln!(rt; "bench: {broken}");
    }
}

// Runs what is there of the log and writes the text. Where there is none, more of the log is wanted (NoStandstill, in records). A proved loop
// has to end, and nothing says that a log does. So it counts its turns, up to a number that no run uses up.
fn all(rt: &HostRuntime, memory: &mut [u8], reply: &mut [u8]) -> Result<(), Broken>
    requires { (memory.old ≡ start_held.memory) × (reply.old ≡ start_held.reply) }
{
    let mut log = Log::new();
    let mut out = io::large_buffer();
    let mut bench = records::start();
    for _ in 0..u64::MAX {
        let ran = records::run(bench, log.part(), log.last, memory, reply, &mut out);
        bench = ran.bench;
        if ran.written == 0 {
            log.read_on(rt).map_err(|_| Broken::Input)?;
        } else {
            log.pass(ran.used);
            if !io::write_all(STDOUT, &out[..ran.written]) {
                return Err(Broken::Output);
            }
            if bench.stage.is_over() {
                return Ok(());
            }
        }
    }
    Ok(())
}
