// The constants of one function of an image: that no two are equal, that each function among them is an earlier one, and what kind each is.
#![tactic(auto)]

ghost use Rattle.std.specs.Prelude.{◌≡◌, ℕ, ◌+◌, ◌*◌, ◌%◌, ◌<◌, ◌≤◌, ◌↔◌, length, get_or, true, Contains};
ghost use Rattle.rules.specs.Reader.{got, many};
ghost use Rattle.rules.specs.ImageFile.{read_function};
ghost use Rattle.rules.specs.Chunk.{ObjectFunction};
ghost use Rattle.rules.specs.Checker.{distinct};
ghost use Rattle.image_code.specs.declared.Kind.TheVariants.{Missing};
ghost use Rattle.image_constants.specs.Words.{constant_of, constants_of, Gathered, stamps_least, slot_in};
ghost use Rattle.image_constants.specs.Earlier.{earlier, is_got, upvalues_at, kind_word, Kinds};

use image_code::Kind;

// The constants from `begin` on, as many as there are words for, each as one word; and where they end.
pub fn gather(s: &[u8], begin: usize, words: &mut [u64]) -> Option<usize>
    ensures { Gathered s.now begin (length words.old) result words.new }
{
    let mut at = begin;
    for word in words.iter_mut() {
        let (value, next) = image_records::constant(s, at)?;
        *word = value;
        at = next;
    }
    Some(at)
}

// Where a word's stamp stands among `size` stamps. By primes that are written out: to divide by the size itself would cost more.
fn slot_of(word: u64, size: usize) -> usize
    requires { stamps_least ≤ size }
    ensures { (result ≡ slot_in size word) × (result < size) }
{
    if size < 4096 {
        return (word % 509) as usize;
    }
    if size < 65536 {
        return (word % 4093) as usize;
    }
    (word % 65521) as usize
}

// Whether one of the words is this one. By a plain loop: where the compiler knows their table it compares two words a step, and by the library's
// `contains` one.
fn holds(words: &[u64], word: u64) -> bool
    ensures { (result ≡ true) ↔ Contains words.now word }
{
    for other in words {
        if *other == word {
            return true;
        }
    }
    false
}

// Whether no two constants are equal. A word whose slot has not this function's mark is new; the others are looked for among the words before.
// A mark that was left there by another function costs time and nothing else, so nobody clears the stamps.
pub fn all_new(words: &[u64], mark: u32, stamps: &mut [u32]) -> bool
    requires { stamps_least ≤ length stamps.old }
    ensures { result ≡ distinct (constants_of (length words.now) words.now) }
{
    for (i, word) in words.iter().enumerate() {
        let slot = slot_of(*word, stamps.len());
        if stamps[slot] != mark {
            stamps[slot] = mark;
        } else if holds(&words[..i], *word) {
            return false;
        }
    }
    true
}

// How many variables function `j` captures, by going to it.
fn upvalues_by_walk(s: &[u8], j: usize) -> u16
    ensures { (k : ℕ) → j < k → is_got (many k (read_function s.now) 6) ≡ true → result ≡ upvalues_at (earlier s.now k) j }
{
    let Some(at) = image_records::function_place(s, j) else {
        return 0;
    };
    let Some(h) = image_records::head_of(s, at) else {
        return 0;
    };
    h.upvalues
}

// What is known where function `k` is judged: `k` functions were read, and the table has how many variables each of them captures, as far as it goes.
// In a proof a field's type does not say that a byte is one.
#[derive(Clone, Copy)]
pub struct Earlier<'a> {
    pub s: &'a [u8],
    pub k: usize,
    pub counts: &'a [u16],
    pub ghost bytes: { (i : ℕ) → get_or s.now i 0 < 256 },
    pub ghost there: { is_got (many k (read_function s.now) 6) ≡ true },
    pub ghost known: { (j : ℕ) → j < k → j < length counts.now → get_or counts.now j 0 ≡ upvalues_at (earlier s.now k) j },
}

impl<'a> Earlier<'a> {
    fn upvalues_of(&self, j: usize) -> u16
        requires { j < self.now.k }
        ensures { result ≡ upvalues_at (earlier self.now.s.now self.now.k) j }
    {
        if j < self.counts.len() {
            return self.counts[j];
        }
        upvalues_by_walk(self.s, j)
    }

    // The kind of a constant, by its word.
    fn kind_of(&self, word: u64) -> Kind
        ensures { result ≡ kind_word (earlier self.now.s.now self.now.k) self.now.k (constant_of word) }
    {
        if word % 2 == 0 {
            return Kind::Number;
        }
        if word % 4 == 1 {
            return Kind::Text;
        }
        let number = (word / 4) as usize;
        if number < self.k {
            return Kind::Function(self.upvalues_of(number));
        }
        Kind::Missing
    }

    // The kinds of the constants, in a table that had none. False where one names no earlier function, or is a function that no CLOSURE can name.
    pub fn kinds_of(&self, words: &[u64], kinds: &mut [Kind; 256]) -> bool
        requires { (length kinds.old ≡ 256) × ((p : ℕ) → get_or kinds.old p Missing ≡ Missing) }
        ensures { Kinds (earlier self.now.s.now self.now.k) self.now.k (constants_of (length words.now) words.now) result kinds.new }
    {
        for (i, word) in words.iter().enumerate() {
            let kind = self.kind_of(*word);
            if let Kind::Missing = kind {
                return false;
            }
            if i < 256 {
                kinds[i] = kind;
            } else if let Kind::Function(_) = kind {
                return false;
            }
        }
        true
    }
}
