// What C and Rust programs call: include/puffbramble.h says the same for them. A slice comes as a pointer and a number of elements, and an
// answer goes back as a struct of seven numbers. Nothing is decided here: each function hands on to the one that is proved against the rules.
#![tactic(auto)]

ghost use Rattle.std.specs.Prelude.{◌≡◌, length};
ghost use Rattle.rules.specs.Entry as rules;
ghost use Rattle.rules.specs.Checker.{check, code_answer, code_part, directory_of, code_through, span_of};
ghost use Rattle.rules.specs.Touch as touches;
ghost use Rattle.spans.specs.Words.{runs_of};
ghost use Rattle.tree.specs.Read.{read_answer};

use rules::Answer;

// 0 with the image's length in `length`, or a refusal; 10 to 30 name the function that it is in, in `function` and `around`. The output has the
// image and then zeros, or only zeros; the work areas end all zero.
// Of `options` the bit 2 says something: the image ends in a directory.
#[unsafe(no_mangle)]
pub extern "C" fn puffbramble_compile(
    tree: &[u8],
    options: u32,
    out: &mut [u8],
    table: &mut [u64],
    code: &mut [u8],
    spans: &mut [u32],
) -> Answer
    ensures { record { answer = result; output = out.new; table = table.new; code = code.new; spans = spans.new } ≡ rules.compile tree.now (record { options = options; table_words = length table.old; code_bytes = length code.old; span_words = length spans.old; output_bytes = length out.old }) }
{
    entry::compile(tree, options, out, table, code, spans)
}

// 0, or 2 to 5 with the place in `at`.
#[unsafe(no_mangle)]
pub extern "C" fn puffbramble_read(tree: &[u8]) -> Answer
    ensures { result ≡ read_answer tree.now }
{
    tree::answer(tree)
}

// 0 with the number of instructions in `length`, or 40.
#[unsafe(no_mangle)]
pub extern "C" fn puffbramble_check(image: &[u8]) -> Answer
    ensures { result ≡ check image.now }
{
    image::check(image)
}

// The lookup's number: 0, 40 or 41.
#[unsafe(no_mangle)]
pub extern "C" fn puffbramble_code_answer(image: &[u8], k: usize) -> Answer
    ensures { result ≡ code_answer image.now k }
{
    image::code_answer(image, k)
}

// Where the code of function `k` stands in the image: 0 with its place in `at`, its end in `end` and its length in `length`; 40 or 41.
#[unsafe(no_mangle)]
pub extern "C" fn puffbramble_code_of(image: &[u8], k: usize) -> Answer
    ensures { result ≡ code_part image.now k }
{
    image::code_part(image, k)
}

// Where the directory of an image stands: 0 with its place in `at`, its end in `end` and the number of functions in `length`; 0 and zeros where there
// is none; 40.
#[unsafe(no_mangle)]
pub extern "C" fn puffbramble_directory_of(image: &[u8]) -> Answer
    ensures { result ≡ directory_of image.now }
{
    image::directory_of(image)
}

// The lookup of function `k` through the directory at `place`, in the time of its record: for an image that was checked, at the place that
// `puffbramble_directory_of` gave. The fields are those of `puffbramble_code_of`; 40 or 41.
#[unsafe(no_mangle)]
pub extern "C" fn puffbramble_code_through(image: &[u8], place: usize, k: usize) -> Answer
    ensures { result ≡ code_through image.now place k }
{
    image::code_through(image, place, k)
}

// The first place that names a global: 0 with its offset in `at`, the offset behind it in `end`, its function in `name` and how many instructions were
// read in `length`; 0 with `length` alone, the number of all, where no place names it; 40.
#[unsafe(no_mangle)]
pub extern "C" fn puffbramble_touch(image: &[u8], name: u16) -> Answer
    ensures { result ≡ touches.touch image.now name }
{
    image_touch::touch(image, name)
}

// 0 with the span in `at` and `end`, or 42.
#[unsafe(no_mangle)]
pub extern "C" fn puffbramble_span_of(words: &[u32], offset: usize) -> Answer
    ensures { result ≡ span_of (runs_of words.now) offset }
{
    spans::span_of_words(words, offset)
}
