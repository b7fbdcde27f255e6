// Every truncation and every change of one byte of a small file, and a digest of the answers.
ghost use Rattle.std.specs.Prelude.{◌≤◌, length};

use crate::Kind;
use std::io;
use std::io::Read;

fn fold(sum: u64, value: u64) -> u64 {
    (sum % 4294967291 * 65599 + value % 4294967291) % 4294967291
}

// What a digest has: numbers folded one after the other.
pub fn fold_all(start: u64, values: &[u64]) -> u64 {
    let mut sum = start;
    for value in values {
        sum = fold(sum, *value);
    }
    sum
}

fn fold_answer(kind: Kind, sum: u64, bytes: &[u8]) -> u64 {
    let a = crate::answer(kind, bytes);
    fold_all(sum, &[a.number, a.at, a.length])
}

fn add_one(bytes: &mut [u8], at: usize) {
    if let Some(b) = bytes.get_mut(at) {
        *b = b.wrapping_add(1);
    }
}

// At the first change of a place: the place before has had 255, and one more takes it back to what it was.
fn restore(bytes: &mut [u8], at: usize, more: usize) {
    if more != 0 {
        return;
    }
    if at == 0 {
        return;
    }
    add_one(bytes, at - 1);
}

// From variant `k` - 1 to variant `k`, and how long it is. First come the truncations, the shortest first; then at each place, the first one
// first, the byte plus 1 to 255.
fn step(bytes: &mut [u8], k: usize) -> usize
    ensures { result ≤ length bytes.new }
{
    let size = bytes.len();
    if k < size {
        return k;
    }
    let at = (k - size) / 255;
    restore(bytes, at, (k - size) % 255);
    add_one(bytes, at);
    bytes.len()
}

// How many variants a file has. None of a file that is not small is made.
fn variants(size: usize) -> usize
    ensures { result ≤ 16777216 }
{
    if size <= 65536 {
        return 256 * size;
    }
    0
}

fn digest(kind: Kind, bytes: &mut [u8]) -> u64 {
    let most = variants(bytes.len());
    let mut sum: u64 = 0;
    for k in 0..most {
        let size = step(bytes, k);
        sum = fold_answer(kind, sum, &bytes[..size]);
    }
    sum
}

fn line(rt: &impl Print, size: u32, sum: u64) -> io::Result<()> {
    let variants = (size as u64) * 256;
    println!(rt; "{size} bytes, {variants} variants, digest {sum}")
}

// One file and its line; false where there is none.
fn vary<R: Read>(rt: &impl Print, input: &mut R, kind: Kind, space: &mut [u8]) -> io::Result<bool> {
    let size = crate::input::bytes_next(input, space)?;
    if size == 0 {
        return Ok(false);
    }
    let n = space.len().min(size as usize);
    line(rt, size, digest(kind, &mut space[..n]))?;
    Ok(true)
}

pub fn vary_all<R: Read>(
    rt: &impl Print,
    input: &mut R,
    kind: Kind,
    space: &mut [u8; 1024],
) -> io::Result<()> {
    crate::each(100, || vary(rt, input, kind, space))
}
