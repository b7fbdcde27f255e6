// The image checker, the lookup of a function's code, and where the directory stands.
#![tactic(auto)]

ghost use Rattle.std.specs.Prelude.{◌≡◌, ◌+◌};
ghost use Rattle.rules.specs.Checker.{image_of, code_place, code_answer, code_part, directory_of};
ghost use Rattle.rules.specs.Checker as Checker;
ghost use Rattle.image.specs.Counted.{counted_in, Lies};

use answers::{accepted, refused};
use fields::Mark;
use image_records::Header;
use rules::{Answer, Refusal};

// How many instructions an image has, and where its functions end.
fn count_of(image: &[u8]) -> Option<(usize, usize)>
    ensures { result ≡ counted_in (image_of image.now) }
{
    if !fields::has(image, 0, Header::FIRST) {
        return None;
    }
    if fields::mark_at(image, 0) != Mark::IMAGE {
        return None;
    }
    let count = fields::u32_at(image, 2) as usize;
    if count == 0 {
        return None;
    }
    let (n, end) = image_functions::judge(image, count)?;
    if !image_directory::behind(image, count, end) {
        return None;
    }
    if !image_naming::all_named_once(image, count) {
        return None;
    }
    Some((n, end))
}

// 0 with the number of instructions in `length`, or 40.
pub fn check(image: &[u8]) -> Answer
    ensures { result ≡ Checker.check image.now }
{
    let Some((n, end)) = count_of(image) else {
        return refused(Refusal::ImageRefused);
    };
    accepted(n)
}

// Where the code of function `k` stands: 0 with its place in `at`, its end in `end` and its length in `length`; 40 where the bytes are no image,
// else 41 where it has no function `k`. The refusal below 41 never comes: an image that was checked can be read.
pub fn code_part(image: &[u8], k: usize) -> Answer
    ensures value { result ≡ code_part image.now k }
    ensures lies { Lies image.now k }
{
    let Some((n, end)) = count_of(image) else {
        return refused(Refusal::ImageRefused);
    };
    if k >= fields::u32_at(image, 2) as usize {
        return refused(Refusal::NoSuchFunction);
    }
    let Some(at) = image_records::function_place(image, k) else {
        return refused(Refusal::ImageRefused);
    };
    image_directory::record_part(image, at)
}

// The code of function `k`: that very stretch of the image, or an empty part where the lookup is refused.
pub fn code_of(image: &[u8], k: usize) -> &[u8]
    ensures result_value { result.now ≡ Checker.code_of image.now k }
    ensures ref_ptr_value { (result.ref_ptr.0 ≡ image.entry.ref_ptr.0) × (result.ref_ptr.1 ≡ code_place image.now k + image.entry.ref_ptr.1) }
{
    let part = code_part(image, k);
    let first = part.at as usize;
    let end = part.end as usize;
    &image[first..end]
}

// The lookup's number: 0, 40 where the bytes are no image, or 41 where it has no function `k`.
pub fn code_answer(image: &[u8], k: usize) -> Answer
    ensures { result ≡ code_answer image.now k }
{
    let part = code_part(image, k);
    Answer {
        number: part.number,
        at: 0,
        end: 0,
        name: 0,
        length: 0,
        function: 0,
        around: 0,
    }
}

// Where the directory of an image stands: 0 with its place in `at`, its end in `end` and the number of functions in `length`; 0 and zeros where there
// is none; 40 where the bytes are no image.
pub fn directory_of(image: &[u8]) -> Answer
    ensures { result ≡ directory_of image.now }
{
    let Some((n, at)) = count_of(image) else {
        return refused(Refusal::ImageRefused);
    };
    if at == image.len() {
        return accepted(0);
    }
    Answer {
        number: 0,
        at: at as u64,
        end: image.len() as u64,
        name: 0,
        length: fields::u32_at(image, 2) as u64,
        function: 0,
        around: 0,
    }
}

// The lookup through the directory at `place`, for an image that was checked: what is told is what `code_part` tells, at the cost of the
// function's record alone.
pub fn code_through(image: &[u8], place: usize, k: usize) -> Answer
    ensures { result ≡ Checker.code_through image.now place k }
{
    image_directory::code_through(image, place, k)
}
