// A program of your own: it hands one packet to the unit of the bench, and prints its fate and the length of the reply.
#![tactic(auto)]

use packets::End;

fn main(rt: HostRuntime) {
    let bench = records::start();
    let mut memory = [0u8; 4096];
    let mut reply = [0u8; 64];
    // A read of four bytes at address 0, from initiator 67, which came on link 1.
    let packet = b"\x43\x01\x4C\x2A\x67\x00\x01\x00\x00\x00\x00\x00\x00\x00\x04\x40";
    let answer = unit::take_packet(bench.unit, packet, End::Eop, 1, &mut memory, &mut reply);
    let _ = println!(rt; "{} {}", answer.fate.number(), answer.length);
}
