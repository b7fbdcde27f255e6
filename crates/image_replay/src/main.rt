// Replays the vectors for the image checker, and every truncation and every change of one byte of a few small images.
#![tactic(auto)]

use std::io;
use vectors::Kind;

fn main(rt: HostRuntime) -> io::Result<()> {
    vectors::run(&rt, Kind::Images)
}
