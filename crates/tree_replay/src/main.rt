// Replays the vectors for the tree reader, and every truncation and every change of one byte of two trees.
#![tactic(auto)]

use std::io;
use vectors::Kind;

fn main(rt: HostRuntime) -> io::Result<()> {
    vectors::run(&rt, Kind::Trees)
}
