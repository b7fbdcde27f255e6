// The packed vectors, one after the other.
use crate::Kind;
use reading::read_full;
use std::io;
use std::io::Read;

// What a vector has for an answer: its number, and the place (of a tree) or the count (of an image).
#[derive(Clone, Copy)]
struct Told {
    number: u32,
    second: u32,
}

// The length of the next vector's file. A case has what is lent before it, three numbers that nobody needs here.
fn length_next<R: Read>(input: &mut R, kind: Kind) -> io::Result<Option<u32>> {
    match kind {
        Kind::Trees => {
            let mut lent = [0u8; 12];
            read_full(input, &mut lent)?;
            crate::input::next(input)
        }
        Kind::Images => crate::input::next(input),
    }
}

// A case's answer has four more numbers and an image, which nobody needs here either.
fn told_next<R: Read>(input: &mut R, kind: Kind, packed: &mut [u8]) -> io::Result<Told> {
    let number = crate::input::next_u32(input)?;
    let second = crate::input::next_u32(input)?;
    match kind {
        Kind::Trees => {
            let mut rest = [0u8; 16];
            read_full(input, &mut rest)?;
            crate::input::bytes_next(input, packed)?;
            Ok(Told { number, second })
        }
        Kind::Images => Ok(Told { number, second }),
    }
}

// A case's own answer is the whole compiler's: the reader gives 2 to 5 where it does, and else reads the file.
fn tree_agrees(bytes: &[u8], told: Told) -> bool {
    let a = crate::answer(Kind::Trees, bytes);
    if told.number < 2 || 5 < told.number {
        return a.number == 0;
    }
    a.number == told.number as u64 && a.at == told.second as u64
}

fn image_agrees(bytes: &[u8], told: Told) -> bool {
    let a = crate::answer(Kind::Images, bytes);
    a.number == told.number as u64 && a.length == told.second as u64
}

fn agrees(kind: Kind, bytes: &[u8], told: Told) -> bool {
    match kind {
        Kind::Trees => tree_agrees(bytes, told),
        Kind::Images => image_agrees(bytes, told),
    }
}

// One vector: whether it agrees, None where there is none.
fn replay<R: Read>(
    input: &mut R,
    kind: Kind,
    packed: &mut [u8],
    space: &mut [u8],
) -> io::Result<Option<bool>> {
    let Some(length) = length_next(input, kind)? else {
        return Ok(None);
    };
    let n = space.len().min(length as usize);
    let bytes = &mut space[..n];
    let size = crate::input::bytes_next(input, packed)?;
    let m = packed.len().min(size as usize);
    let whole = crate::pack::unpack(&packed[..m], bytes);
    let told = told_next(input, kind, packed)?;
    Ok(Some(whole && agrees(kind, bytes, told)))
}

// Vectors until there are no more: how many agree, and how many differ.
pub fn count<F: FnMut() -> io::Result<Option<bool>>>(
    rt: &impl Print,
    mut replay: F,
) -> io::Result<()>
    requires { (f : _) → F.pre f }
{
    let mut same: u64 = 0;
    let mut other: u64 = 0;
    for k in 0..100000u64 {
        let Some(agrees) = replay()? else {
            break;
        };
        if agrees {
            same += 1;
        } else {
            other += 1;
        }
    }
    println!(rt; "{same} vectors agree")?;
    if 0 < other {
        println!(rt; "{other} differ")?;
    }
    Ok(())
}

// Up to `most` turns of a replay, which answers false where nothing is left.
pub fn each<F: FnMut() -> io::Result<bool>>(most: usize, mut replay: F) -> io::Result<()>
    requires { (f : _) → F.pre f }
{
    for _ in 0..most {
        if !replay()? {
            break;
        }
    }
    Ok(())
}

pub fn replay_all<R: Read>(
    rt: &impl Print,
    input: &mut R,
    kind: Kind,
    packed: &mut [u8; 524288],
    space: &mut [u8; 1048577],
) -> io::Result<()> {
    count(rt, || replay(input, kind, packed, space))
}
