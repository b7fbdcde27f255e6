// Replays the vectors for the compiler (tests/vectors/README.md has their form): each tree is compiled with what its vector asks for and lends, and
// the answer's seven numbers and every byte of the output are compared with the vector's. Written is how many agree; tests/rust has made what is
// expected.
#![tactic(auto)]

use rules::Answer;
use state::Table;
use std::io;
use std::io::Read;

// What a vector asks for, and what it lends: more than there is here means plenty, and all that is here.
#[derive(Clone, Copy)]
struct Lent {
    options: u32,
    code: u32,
    spans: u32,
    output: u32,
}

fn lent_next<R: Read>(input: &mut R) -> io::Result<Option<Lent>> {
    let Some(options) = vectors::next(input)? else {
        return Ok(None);
    };
    let code = vectors::next_u32(input)?;
    let spans = vectors::next_u32(input)?;
    let output = vectors::next_u32(input)?;
    Ok(Some(Lent {
        options,
        code,
        spans,
        output,
    }))
}

// The answer's seven numbers, in the order of its fields.
fn told_next<R: Read>(input: &mut R) -> io::Result<[u64; 7]> {
    let mut told = [0u64; 7];
    for number in told.iter_mut() {
        *number = vectors::next_u32(input)? as u64;
    }
    Ok(told)
}

fn numbers(a: Answer) -> [u64; 7] {
    [
        a.number, a.at, a.end, a.name, a.length, a.function, a.around,
    ]
}

// A tree or an image, unpacked into the front of a space, and how long it is; None where it is not whole.
fn file_next<R: Read>(
    input: &mut R,
    packed: &mut [u8],
    space: &mut [u8],
) -> io::Result<Option<usize>> {
    let length = vectors::next_u32(input)? as usize;
    let n = space.len().min(length);
    let size = vectors::bytes_next(input, packed)?;
    let m = packed.len().min(size as usize);
    if !vectors::unpack(&packed[..m], &mut space[..n]) || n < length {
        return Ok(None);
    }
    Ok(Some(length))
}

// The output has the image and then zeros.
fn same_output(out: &[u8], image: &[u8]) -> bool {
    if out.len() < image.len() {
        return false;
    }
    let (front, rest) = out.split_at(image.len());
    if front != image {
        return false;
    }
    // a plain loop: the library's `all` takes nearly twice the time
    for b in rest {
        if *b != 0 {
            return false;
        }
    }
    true
}

// A tree, compiled in what is lent: whether the answer is what is told, and the output the image. The areas stay parameters: of a struct of them,
// which was tried, one field cannot be lent while another is.
fn agrees(
    lent: Lent,
    told: [u64; 7],
    tree: &[u8],
    image: &[u8],
    out: &mut [u8],
    table: &mut [u64],
    code: &mut [u8],
    spans: &mut [u32],
) -> bool {
    let output_bytes = out.len().min(lent.output as usize);
    let code_bytes = code.len().min(lent.code as usize);
    let span_words = spans.len().min(lent.spans as usize);
    let out = &mut out[..output_bytes];
    let code = &mut code[..code_bytes];
    let spans = &mut spans[..span_words];
    let a = entry::compile(tree, lent.options, out, table, code, spans);
    numbers(a) == told && same_output(out, image)
}

// One vector: whether it agrees, None where there is none. It differs where one of its files is not whole.
fn replay<R: Read>(
    input: &mut R,
    packed: &mut [u8],
    tree: &mut [u8],
    image: &mut [u8],
    out: &mut [u8],
    table: &mut [u64],
    code: &mut [u8],
    spans: &mut [u32],
) -> io::Result<Option<bool>> {
    let Some(lent) = lent_next(input)? else {
        return Ok(None);
    };
    let read = file_next(input, packed, tree)?;
    let told = told_next(input)?;
    let made = file_next(input, packed, image)?;
    let Some(length) = read else {
        return Ok(Some(false));
    };
    let Some(size) = made else {
        return Ok(Some(false));
    };
    let tree = &tree[..length.min(tree.len())];
    let image = &image[..size.min(image.len())];
    Ok(Some(agrees(lent, told, tree, image, out, table, code, spans)))
}

fn main(rt: HostRuntime) -> io::Result<()> {
    let mut packed = [0u8; 524288];
    let mut tree = [0u8; 1048577];
    let mut image = [0u8; 524288];
    let mut out = [0u8; 524288];
    let mut table = [0u64; Table::WORDS];
    let mut code = [0u8; 262144];
    let mut spans = [0u32; 786432];
    let mut input = rt.reader();
    vectors::count(&rt, || {
        replay(
            &mut input,
            &mut packed,
            &mut tree,
            &mut image,
            &mut out,
            &mut table,
            &mut code,
            &mut spans,
        )
    })
}
