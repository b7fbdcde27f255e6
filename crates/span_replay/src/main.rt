// Replays the lookup of a span. Standard input has lists of runs: how many words, how many offsets, and the words (start, end and count of each run
// in turn). Written is for each list a digest of the answers to that many offsets from 0 on; tests/rust has made what is expected.
#![tactic(auto)]

use std::io;
use std::io::Read;

fn fill<R: Read>(input: &mut R, words: &mut [u32]) -> io::Result<()> {
    for word in words.iter_mut() {
        *word = vectors::next_u32(input)?;
    }
    Ok(())
}

fn fold_answer(sum: u64, words: &[u32], offset: usize) -> u64 {
    let a = spans::span_of_words(words, offset);
    vectors::fold_all(sum, &[a.number, a.at, a.end])
}

fn line(rt: &impl Print, size: u32, offsets: u32, sum: u64) -> io::Result<()> {
    println!(rt; "{size} words, {offsets} offsets, digest {sum}")
}

// One list and its line; false where there is none.
fn replay<R: Read>(rt: &impl Print, input: &mut R, words: &mut [u32]) -> io::Result<bool> {
    let size = vectors::next_u32(input)?;
    let offsets = vectors::next_u32(input)?;
    if offsets == 0 {
        return Ok(false);
    }
    // As many words as there is room for.
    let n = words.len().min(size as usize);
    fill(input, &mut words[..n])?;
    let part = &words[..n];
    let sum = (0..offsets as usize).fold(0, |sum, offset| fold_answer(sum, part, offset));
    line(rt, size, offsets, sum)?;
    Ok(true)
}

fn main(rt: HostRuntime) -> io::Result<()> {
    let mut words = [0u32; 3072];
    let mut input = rt.reader();
    vectors::each(1000, || replay(&rt, &mut input, &mut words))
}
