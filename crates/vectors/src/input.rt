// Numbers and bytes from a reader.
use reading::read_full;
use std::io;
use std::io::Read;

// None at the end of the input.
pub fn next<R: Read>(input: &mut R) -> io::Result<Option<u32>> {
    let mut b = [0u8; 4];
    if read_full(input, &mut b)? < 4 {
        return Ok(None);
    }
    Ok(Some(fields::u32_at(&b, 0)))
}

// 0 at the end of the input.
pub fn next_u32<R: Read>(input: &mut R) -> io::Result<u32> {
    Ok(next(input)?.unwrap_or(0))
}

// A length and that many bytes, into the front of a space; how many they are said to be.
pub fn bytes_next<R: Read>(input: &mut R, space: &mut [u8]) -> io::Result<u32> {
    let size = next_u32(input)?;
    let n = space.len().min(size as usize);
    read_full(input, &mut space[..n])?;
    Ok(size)
}
