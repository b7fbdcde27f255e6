// Scans of a level's words. They leave by `break` with the place found, a rule of the project (docs/DECISIONS.md): so each is a `loop`, not `position`.
#![tactic(auto)]

ghost use Rattle.std.specs.Prelude.{◌≡◌, ◌+◌, ◌≤◌, false, length};
ghost use Rattle.state.specs.Meaning.{Topmost, Without, First};

// The place of the topmost local of this name.
pub fn topmost(locals: &[u64], name: u64) -> Option<usize>
    ensures { Topmost locals.now name result }
{
    let mut i = locals.len();
    let place = loop {
        if i == 0 {
            break None;
        }
        i -= 1;
        if locals[i] % 65536 == name {
            break Some(i);
        }
    };
    place
}

// Whether one of the eight words from `at` on is w.
fn among(t: &[u64], at: usize, w: u64) -> bool
    requires { at + 8 ≤ length t.now }
    ensures { result ≡ false → Without t.now at 8 w }
{
    t[at] == w
        || t[at + 1] == w
        || t[at + 2] == w
        || t[at + 3] == w
        || t[at + 4] == w
        || t[at + 5] == w
        || t[at + 6] == w
        || t[at + 7] == w
}

// A place before which no word is w, found eight words at a time, since up to 256 are looked at for each constant and each upvalue.
fn skip(words: &[u64], w: u64) -> usize
    ensures { (result ≤ length words.now) × (Without words.now 0 result w) }
{
    let mut i = 0;
    let place = loop {
        if words.len() - i < 8 {
            break i;
        }
        if among(words, i, w) {
            break i;
        }
        i += 8;
    };
    place
}

// The place of the first word that is w.
pub fn first(words: &[u64], w: u64) -> Option<usize>
    ensures { First words.now w result }
{
    let mut i = skip(words, w);
    let place = loop {
        if i == words.len() {
            break None;
        }
        if words[i] == w {
            break Some(i);
        }
        i += 1;
    };
    place
}
