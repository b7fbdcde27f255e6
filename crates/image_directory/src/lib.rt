// The directory behind the functions of an image: whether it is theirs, and the lookup of one function through it.
#![tactic(auto)]

ghost use Rattle.std.specs.Prelude.{Some, ◌≡◌, ◌+◌, ◌*◌, length};
ghost use Rattle.rules.specs.Reader.{many};
ghost use Rattle.rules.specs.ImageFile.{read_function};
ghost use Rattle.rules.specs.Checker.{record_part, code_through};
ghost use Rattle.image_records.specs.Told.{place_told};
ghost use Rattle.image_directory.specs.Behind.{offsets_right, behind_right, EntriesTold};

use answers::refused;
use fields::Mark;
use image_records::Header;
use rules::{Answer, Refusal};

// A directory's mark and count.
const HEAD: usize = 6;

// How many entries the directory at `place` says it has, where it ends with them at the last byte; None where no such directory stands there.
fn entry_count(image: &[u8], place: usize) -> Option<usize>
    ensures { EntriesTold image.now place result }
{
    if !fields::has(image, place, HEAD) {
        return None;
    }
    if fields::mark_at(image, place) != Mark::DIRECTORY {
        return None;
    }
    let count = fields::u32_at(image, place + 2) as usize;
    if image.len() - (place + HEAD) != 4 * count {
        return None;
    }
    Some(count)
}

// Whether the entries from `first` on, to the last byte, are where the `count` functions stand. A place is compared as a number: no entry has one
// that needs more than four bytes.
fn offsets(image: &[u8], first: usize, count: usize) -> bool
    requires { first + 4 * count ≡ length image.now }
    ensures { result ≡ offsets_right image.now 6 first (many count (read_function image.now) 6) }
{
    let mut at: usize = Header::FIRST;
    for i in 0..count {
        if fields::u32_at(image, first + 4 * i) as usize != at {
            return false;
        }
        let Some(next) = image_records::skip_function(image, at) else {
            return false;
        };
        at = next;
    }
    true
}

// Whether nothing stands behind the `count` functions, which end at `at`, or their directory to the last byte.
pub fn behind(image: &[u8], count: usize, at: usize) -> bool
    requires { Some at ≡ place_told (many count (read_function image.now) 6) }
    ensures { result ≡ behind_right image.now (many count (read_function image.now) 6) }
{
    if at == image.len() {
        return true;
    }
    let Some(said) = entry_count(image, at) else {
        return false;
    };
    if said != count {
        return false;
    }
    offsets(image, at + HEAD, count)
}

// What is told of the function at `at`: 0 with the place of its code in `at`, its end in `end` and its length in `length`; 40 where none stands there.
pub fn record_part(image: &[u8], at: usize) -> Answer
    ensures { result ≡ record_part image.now (read_function image.now at) }
{
    let Some(h) = image_records::head_of(image, at) else {
        return refused(Refusal::ImageRefused);
    };
    let Some(next) = image_records::skip_function(image, at) else {
        return refused(Refusal::ImageRefused);
    };
    let size = h.code as u64;
    let end = next as u64;
    Answer {
        number: 0,
        at: end - size,
        end,
        name: 0,
        length: size,
        function: 0,
        around: 0,
    }
}

// The lookup of function `k` through the directory at `place`, whatever stands there: the cost is that of its record alone.
pub fn code_through(image: &[u8], place: usize, k: usize) -> Answer
    ensures { result ≡ code_through image.now place k }
{
    let Some(count) = entry_count(image, place) else {
        return refused(Refusal::ImageRefused);
    };
    if k >= count {
        return refused(Refusal::NoSuchFunction);
    }
    record_part(image, fields::u32_at(image, place + HEAD + 4 * k) as usize)
}
