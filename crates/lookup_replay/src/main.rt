// Replays the lookup of a function's code. Standard input has images: how many lookups, how many bytes, and the bytes. Written is for each image a
// digest of the answers to that many function numbers from 0 on, through its directory where it has one; tests/rust has made what is expected.
#![tactic(auto)]

use rules::Answer;
use std::io;
use std::io::Read;

// Where the directory stands, if there is one: the answer then has its place, which is not 0.
fn directory_at(bytes: &[u8]) -> Option<usize> {
    let a = image::directory_of(bytes);
    if a.at == 0 {
        return None;
    }
    Some(a.at as usize)
}

fn lookup(bytes: &[u8], directory: Option<usize>, k: usize) -> Answer {
    match directory {
        Some(place) => image_directory::code_through(bytes, place, k),
        None => image::code_part(bytes, k),
    }
}

fn fold_answer(sum: u64, bytes: &[u8], directory: Option<usize>, k: usize) -> u64 {
    let a = lookup(bytes, directory, k);
    vectors::fold_all(sum, &[a.number, a.at, a.end])
}

fn line(rt: &impl Print, size: u32, count: u32, sum: u64) -> io::Result<()> {
    println!(rt; "{size} bytes, {count} lookups, digest {sum}")
}

// One image and its line; false where there is none.
fn replay<R: Read>(rt: &impl Print, input: &mut R, space: &mut [u8]) -> io::Result<bool> {
    let Some(count) = vectors::next(input)? else {
        return Ok(false);
    };
    let size = vectors::bytes_next(input, space)?;
    let n = space.len().min(size as usize);
    let bytes = &space[..n];
    let directory = directory_at(bytes);
    let sum = (0..count as usize).fold(0, |sum, k| fold_answer(sum, bytes, directory, k));
    line(rt, size, count, sum)?;
    Ok(true)
}

fn main(rt: HostRuntime) -> io::Result<()> {
    let mut space = [0u8; 1024];
    let mut input = rt.reader();
    vectors::each(1000, || replay(&rt, &mut input, &mut space))
}
