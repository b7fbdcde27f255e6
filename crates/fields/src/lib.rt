// The fields of the files: what stands at a place, and the marks of their records. The tree reader, the compiler and the image checker read by
// these.
#![tactic(auto)]

ghost use Rattle.std.specs.Prelude.{◌≡◌, ℕ, ◌+◌, ◌<◌, ◌≤◌, length, leb};
ghost use Rattle.fields.specs.Words.{word8, word16, word32, word64, letters, span_of};

use rules::Span;

// There are `size` bytes from `at` on. Sums that could wrap are not made.
pub fn has(bytes: &[u8], at: usize, size: usize) -> bool
    ensures { result ≡ leb (at + size) (length bytes.now) }
{
    if bytes.len() < size {
        return false;
    }
    if bytes.len() - size < at {
        return false;
    }
    true
}

pub fn u8_at(bytes: &[u8], at: usize) -> u8
    requires { at + 1 ≤ length bytes.now }
    ensures { result ≡ word8 bytes.now at }
{
    bytes[at]
}

pub fn u16_at(bytes: &[u8], at: usize) -> u16
    requires { at + 2 ≤ length bytes.now }
    ensures { result ≡ word16 bytes.now at }
{
    let lo = u8_at(bytes, at);
    let hi = u8_at(bytes, at + 1);
    lo as u16 + 256 * (hi as u16)
}

pub fn u32_at(bytes: &[u8], at: usize) -> u32
    requires { at + 4 ≤ length bytes.now }
    ensures { result ≡ word32 bytes.now at }
{
    let lo = u16_at(bytes, at);
    let hi = u16_at(bytes, at + 2);
    lo as u32 + 65536 * (hi as u32)
}

pub fn u64_at(bytes: &[u8], at: usize) -> u64
    requires { at + 8 ≤ length bytes.now }
    ensures { result ≡ word64 bytes.now at }
{
    let lo = u32_at(bytes, at);
    let hi = u32_at(bytes, at + 4);
    lo as u64 + 4294967296 * (hi as u64)
}

// Two letters, the first times 256 plus the second, so that the digits read as the letters do.
pub fn mark_at(bytes: &[u8], at: usize) -> u16
    requires { at + 2 ≤ length bytes.now }
    ensures { result ≡ letters bytes.now at }
{
    let first = u8_at(bytes, at);
    let second = u8_at(bytes, at + 1);
    256 * (first as u16) + second as u16
}

pub fn span_at(bytes: &[u8], at: usize) -> Span
    requires { at + 8 ≤ length bytes.now }
    ensures { result ≡ span_of bytes.now at }
{
    let start = u32_at(bytes, at);
    let end = u32_at(bytes, at + 4);
    Span { start, end }
}

// The marks of the files' records, as `mark_at` reads them. The rules have the same numbers where they read the record; for the tree's,
// specs/Marks.antt has them under their letters.
#[derive(Drop)]
pub struct Mark {
    pub letters: u16,
}

impl Mark {
    // TR, NM: `read_file`, `read_name`
    pub const TREE: u16 = 0x5452;

    pub const NAME: u16 = 0x4E4D;

    // SB, SC, SE, SF, SI, SO, SP, SR, SV, SW: `stmt_marks`
    pub const BLOCK: u16 = 0x5342;

    pub const CLASS: u16 = 0x5343;

    pub const EXPRESSION: u16 = 0x5345;

    pub const FUN: u16 = 0x5346;

    pub const IF: u16 = 0x5349;

    pub const FOR: u16 = 0x534F;

    pub const PRINT: u16 = 0x5350;

    pub const RETURN: u16 = 0x5352;

    pub const VAR: u16 = 0x5356;

    pub const WHILE: u16 = 0x5357;

    // EA, EC, EG, EI, EL, EP, ES, EU, EV: `expr_marks`
    pub const ASSIGN: u16 = 0x4541;

    pub const CALL: u16 = 0x4543;

    pub const GET: u16 = 0x4547;

    pub const INFIX: u16 = 0x4549;

    pub const LITERAL: u16 = 0x454C;

    pub const PREFIX: u16 = 0x4550;

    pub const SET: u16 = 0x4553;

    pub const SUPER: u16 = 0x4555;

    pub const VARIABLE: u16 = 0x4556;

    // IM: `read_functions`
    pub const IMAGE: u16 = 0x494D;

    // FN: `read_function`
    pub const FUNCTION: u16 = 0x464E;

    // CN, CS, CF: `constant_marks`
    pub const NUMBER_CONSTANT: u16 = 0x434E;

    pub const STRING_CONSTANT: u16 = 0x4353;

    pub const FUNCTION_CONSTANT: u16 = 0x4346;

    // RU: `read_run`
    pub const RUN: u16 = 0x5255;

    // CD: behind the runs, in `read_function`
    pub const CODE: u16 = 0x4344;

    // DX: `read_directory`
    pub const DIRECTORY: u16 = 0x4458;
}
