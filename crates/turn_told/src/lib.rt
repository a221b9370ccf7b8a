// The inserts that a phase let out, told as events: they wait in the call's memory until the phase has ended.
#![tactic(auto)]

ghost use Rattle.std.specs.Prelude.{◌≡◌, List, ◌+◌, ◌*◌, ◌≤◌, length, get_or};
ghost use Rattle.actions.specs.Sets.{Action};
ghost use Rattle.turn_memory.specs.Words.{count_place, word_count};
ghost use Rattle.turn_memory.specs.Told.{Tells};
ghost use Rattle.turn_told.specs.Sent.{Kept, Sent};

use turn_memory::{BYTES, TOLD, TOLD_COUNT, WORDS};

// The least room for events that a call takes: refusal 11.
pub const EVENT_ROOM: usize = 512;

// "Events are two bytes: 1 accepted, 2 suppressed, 3 inserted; then the action."
pub const EVENT_ACCEPTED: u8 = 1;

pub const EVENT_SUPPRESSED: u8 = 2;

pub const EVENT_INSERTED: u8 = 3;

// Writes the inserts that were told as events, after so many, and takes them out of the memory. Gives the number of all. The last insert stands
// lowest in its word, so that they are taken from the last to the first: then every word is left empty.
pub fn tell(mem: &mut [u64; WORDS], events: &mut [u8], count: usize) -> usize
    requires mem_len { (length mem.old ≡ word_count) × (get_or mem.old count_place 0 ≤ 255) }
    requires count_place_in_bounds { 2 * (count + get_or mem.old count_place 0) ≤ length events.old }
    ensures kept { Kept mem.old mem.new }
    ensures sent { (es : List Action) → Tells mem.old es
        → Sent es mem.new events.old events.new count result }
{
    let n = mem[TOLD_COUNT] as usize;
    for k in (0..n).rev() {
        let at = TOLD + k / 8;
        let word = mem[at];
        let place = 2 * (count + k);
        events[place] = EVENT_INSERTED;
        events[place + 1] = (word % BYTES) as u8;
        mem[at] = word / BYTES;
    }
    mem[TOLD_COUNT] = 0;
    count + n
}
