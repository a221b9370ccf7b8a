// The memory of a call, lent down the turn as one array. A node's cell is one word, its record of the state as a big-endian number; then
// come the inserts that were let out, and the tables. One array is one pointer: a slice is two words in every frame of the turn.
#![tactic(auto)]

ghost use Rattle.std.specs.Prelude.{◌≡◌, ◌<◌, length, get_or, set};
ghost use Rattle.turn_memory.specs.Words.{word_count, status_in, offset_in, mark_in, counter_in, packed, pushed};

use file_records::MOST_NODES;

// What one in each field of a cell makes of its word.
const STATUS: u64 = 72057594037927936;

const OFFSET: u64 = 281474976710656;

const MARK: u64 = 1099511627776;

const COUNTERS: u64 = 4294967296;

pub const BYTES: u64 = 256;

// Where things stand: the nodes' cells come first; then the number of inserts, and the inserts, eight a word; then three tables.
pub const TOLD_COUNT: usize = MOST_NODES;

pub const TOLD: usize = 32;

pub const SETS: usize = 64;

pub const ABOVE: usize = SETS + MOST_NODES;

pub const LINKS: usize = ABOVE + MOST_NODES;

pub const WORDS: usize = LINKS + MOST_NODES;

// A cell's mark: the node was asked before the verdict and still runs.
pub const MARKED: u8 = 1;

pub const UNMARKED: u8 = 0;

// A phase is a number: below 64 the action that it is about, before its verdict.
pub const AFTER: u8 = 64;

pub const CLOSING: u8 = 65;

fn wide(x: u8) -> u64
    ensures { (result ≡ x) × (result < 256) }
{
    x as u64
}

// A cell as one word.
pub fn cell(status: u8, offset: u8, mark: u8, counter: u64) -> u64
    requires { counter < 4294967296 }
    ensures { result ≡ packed status offset mark counter }
{
    wide(status) * STATUS + (wide(offset) * OFFSET + (wide(mark) * MARK + counter))
}

pub fn status_at(mem: &[u64; WORDS], node: usize) -> u8
    requires { node < word_count }
    ensures { result ≡ status_in (get_or mem.now node 0) }
{
    (mem[node] / STATUS % BYTES) as u8
}

pub fn offset_at(mem: &[u64; WORDS], node: usize) -> u8
    requires { node < word_count }
    ensures { result ≡ offset_in (get_or mem.now node 0) }
{
    (mem[node] / OFFSET % BYTES) as u8
}

pub fn mark_at(mem: &[u64; WORDS], node: usize) -> u8
    requires { node < word_count }
    ensures { result ≡ mark_in (get_or mem.now node 0) }
{
    (mem[node] / MARK % BYTES) as u8
}

pub fn counter_at(mem: &[u64; WORDS], node: usize) -> u64
    requires { node < word_count }
    ensures { (result ≡ counter_in (get_or mem.now node 0)) × (result < 4294967296) }
{
    mem[node] % COUNTERS
}

pub fn put(mem: &mut [u64; WORDS], node: usize, status: u8, offset: u8, mark: u8, counter: u64)
    requires { (node < word_count) × (counter < 4294967296) }
    ensures { mem.new ≡ set mem.old node (packed status offset mark counter) }
{
    mem[node] = cell(status, offset, mark, counter);
}

// An insert is let out. The count is kept as a byte, so that neither it nor its place can pass the words that are there.
pub fn let_out(mem: &mut [u64; WORDS], b: u8)
    requires { length mem.old ≡ word_count }
    ensures { mem.new ≡ pushed mem.old b }
{
    let n = mem[TOLD_COUNT] % BYTES;
    let at = TOLD + (n / 8) as usize;
    mem[at] = mem[at] % STATUS * BYTES + wide(b);
    mem[TOLD_COUNT] = n + 1;
}
