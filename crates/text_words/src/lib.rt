// A line of a policy's text: its words, and the numbers and sets that they are. A word is told by its places in the line.
#![tactic(auto)]

ghost use Rattle.std.specs.Prelude.{◌≡◌, ◌≤◌, ◌<◌, IfSome, length, drop};
ghost use Rattle.actions.specs.Sets.{EMPTY};
ghost use Rattle.spec_text.specs.Words.{mark, same_bytes, words};
ghost use Rattle.spec_text.specs.Numerals.{numeral};
ghost use Rattle.spec_text.specs.Forms.{number, actions};
ghost use Rattle.spec_text.specs.Reading.{members, taken};
ghost use Rattle.text_words.specs.Scanned.{mark_of, Run, word_and, value_of, taken_of};

use actions::{ActionSet, LAST_ACTION};

// ---- words

// What a byte is to a line.
#[derive(Clone, Copy, PartialEq, Eq)]
enum Mark {
    Blank,
    Brace,
    Hash,
    Letter,
}

fn byte_mark(b: u8) -> Mark
    ensures { mark_of result ≡ mark b }
{
    match b {
        b'\t' | b'\r' | b' ' => Mark::Blank,
        b'{' | b'}' => Mark::Brace,
        b'#' => Mark::Hash,
        _ => Mark::Letter,
    }
}

// Where the run of such bytes that begins at `at` ends.
fn run_end(line: &[u8], at: usize, kind: Mark) -> usize
    requires { at ≤ length line.now }
    ensures { Run line.now (mark_of kind) at result }
{
    for i in at..line.len() {
        if byte_mark(line[i]) != kind {
            return i;
        }
    }
    line.len()
}

#[derive(Clone, Copy)]
pub struct Word {
    pub start: usize,
    pub end: usize,
}

// The next word from `at` on, if there is one.
pub fn next_word(line: &[u8], at: usize) -> Option<Word>
    requires { at ≤ length line.now }
    ensures is { words (drop at line.now) ≡ word_and line.now result }
    ensures inside { IfSome result (λ w. (at ≤ w.start) × (w.start < w.end) × (w.end ≤ length line.now)) }
{
    let start = run_end(line, at, Mark::Blank);
    if start == line.len() {
        return None;
    }
    match byte_mark(line[start]) {
        Mark::Brace => Some(Word {
            start,
            end: start + 1,
        }),
        Mark::Letter => Some(Word {
            start,
            end: run_end(line, start, Mark::Letter),
        }),
        // No blank stands here.
        Mark::Hash | Mark::Blank => None,
    }
}

// ---- what they are

// The number that a word is, if it is at most `most`.
pub fn numeral(word: &[u8], most: u64) -> Option<u64>
    requires { most ≤ 4294967295 }
    ensures { value_of result ≡ numeral most word.now }
{
    let mut n: u64 = 0;
    for b in word {
        if !b.is_ascii_digit() {
            return None;
        }
        n = n * 10 + u64::from(*b - b'0');
        if n > most {
            return None;
        }
    }
    Some(n)
}

// ---- what stands after a line's first word

// A value, and where its words end.
#[derive(Clone, Copy)]
pub struct Taken {
    pub value: u64,
    pub end: usize,
}

// A number.
pub fn number(line: &[u8], at: usize, most: u64) -> Option<Taken>
    requires { (at ≤ length line.now) × (most ≤ 4294967295) }
    ensures is { taken_of line.now result ≡ taken (number 0 most) (words (drop at line.now)) }
    ensures inside { IfSome result (λ t. t.end ≤ length line.now) }
{
    let word = next_word(line, at)?;
    let value = numeral(&line[word.start..word.end], most)?;
    Some(Taken {
        value,
        end: word.end,
    })
}

const MOST_ACTION: u64 = LAST_ACTION as u64;

// The actions listed from `at` on up to the closing brace.
fn members(line: &[u8], at: usize) -> Option<Taken>
    requires { at ≤ length line.now }
    ensures is { taken_of line.now result ≡ members EMPTY (words (drop at line.now)) }
    ensures inside { IfSome result (λ t. t.end ≤ length line.now) }
{
    let mut set = ActionSet::EMPTY;
    let mut i = at;
    while let Some(word) = next_word(line, i) {
        let spelt = &line[word.start..word.end];
        if spelt == b"}".as_slice() {
            return Some(Taken {
                value: set.bits,
                end: word.end,
            });
        }
        let action = numeral(spelt, MOST_ACTION)?;
        set = set.union(ActionSet::single(action as u8));
        i = word.end;
    }
    None
}

// A set.
pub fn set(line: &[u8], at: usize) -> Option<Taken>
    requires { at ≤ length line.now }
    ensures is { taken_of line.now result ≡ taken (actions 0) (words (drop at line.now)) }
    ensures inside { IfSome result (λ t. t.end ≤ length line.now) }
{
    let word = next_word(line, at)?;
    if &line[word.start..word.end] == b"{".as_slice() {
        members(line, word.end)
    } else {
        None
    }
}
