// Replays the search for a global. Standard input has images: how many names, how many bytes, and the bytes. Written is for each image a digest of the
// answers to that many name numbers from 0 on; tests/rust has made what is expected.
#![tactic(auto)]

use std::io;
use std::io::Read;

fn fold_answer(sum: u64, bytes: &[u8], name: u16) -> u64 {
    let a = image_touch::touch(bytes, name);
    vectors::fold_all(sum, &[a.number, a.at, a.end, a.name, a.length])
}

fn line(rt: &impl Print, size: u32, count: u16, sum: u64) -> io::Result<()> {
    println!(rt; "{size} bytes, {count} names, digest {sum}")
}

// One image and its line; false where there is none.
fn replay<R: Read>(rt: &impl Print, input: &mut R, space: &mut [u8]) -> io::Result<bool> {
    let Some(count) = vectors::next(input)? else {
        return Ok(false);
    };
    // No image is asked for more names than a name's number can tell apart.
    let Ok(count) = u16::try_from(count) else {
        return Ok(false);
    };
    let size = vectors::bytes_next(input, space)?;
    let n = space.len().min(size as usize);
    let bytes = &space[..n];
    let sum = (0..count).fold(0, |sum, name| fold_answer(sum, bytes, name));
    line(rt, size, count, sum)?;
    Ok(true)
}

fn main(rt: HostRuntime) -> io::Result<()> {
    let mut space = [0u8; 1024];
    let mut input = rt.reader();
    vectors::each(1000, || replay(&rt, &mut input, &mut space))
}
