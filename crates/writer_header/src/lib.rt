// The header, before all records.
#![tactic(auto)]

ghost use Rattle.std.specs.Prelude.{◌≤◌, length};
ghost use Rattle.writer_header.specs.Header.{Headed};

use fields::Mark;
use writer_bytes::{put_le, put_mark};

// The image's mark and how many functions it has, where the records stand behind six zeros.
pub fn put_header(out: &mut [u8], count: u64)
    requires { 6 ≤ length out.old }
    ensures { Headed count out.old out.new }
{
    let head = &mut out[..6];
    let next = put_mark(head, 0, Mark::IMAGE);
    put_le(head, next, count, 4);
}
