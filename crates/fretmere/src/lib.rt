// The static library for C: the four entry points, the writer, and the count of running leaves, on the caller's buffers, each answer in one word.
#![tactic(auto)]

ghost use Rattle.std.specs.Prelude.{◌≡◌};
ghost use Rattle.spec_check.specs.Check.{check};
ghost use Rattle.spec_turns.specs.Entries.{Reply, opens, offers, closes};
ghost use Rattle.call_answer.specs.Replies.{spoken};
ghost use Rattle.spec_writer.specs.Writing as writing;
ghost use Rattle.file_writer.specs.Replies as replies;
ghost use Rattle.fretmere.specs.Words.{Says, Few, word, Gave, count_word, size_word, Produced};

use call_answer::Answer;
use check_policy::check;
use faults::{Refusal, fault_word};
use file_writer::{Written, write};
use guard::{close, offer, open};
use turn_state::{STATE_SIZE, saved_count};

// Zero, and the two sets written; or a refusal, and nothing written.
#[unsafe(no_mangle)]
pub extern "C" fn fretmere_check(policy: &[u8], regulated: &mut u64, effects: &mut u64) -> u32
    ensures { Says (check policy.now) result regulated.old effects.old regulated.new effects.new }
{
    match check(policy) {
        Ok(sets) => {
            *regulated = sets.regulated.bits;
            *effects = sets.effects.bits;
            0
        }
        Err(fault) => fault_word(fault),
    }
}

// What one in the byte below the highest of a word counts.
const STATUS_BYTE: u32 = 1 << 16;

// An answer in one word: a refusal, or the status in the byte below the highest and the number of events in the rest.
fn packed(answer: Answer) -> u32
    requires { Few answer }
    ensures { (x : Reply) → answer ≡ spoken x → result ≡ word x }
{
    match answer {
        Ok(answered) => u32::from(answered.status) * STATUS_BYTE + answered.events as u32,
        Err(fault) => fault_word(fault),
    }
}

#[unsafe(no_mangle)]
pub extern "C" fn fretmere_open(policy: &[u8], state: &mut [u8], events: &mut [u8]) -> u32
    ensures { Gave (opens policy.now state.old events.old) result state.new events.new }
{
    packed(open(policy, state, events))
}

#[unsafe(no_mangle)]
pub extern "C" fn fretmere_offer(
    policy: &[u8],
    state: &mut [u8],
    events: &mut [u8],
    action: u8,
) -> u32
    ensures { Gave (offers policy.now state.old events.old action) result state.new events.new }
{
    packed(offer(policy, state, events, action))
}

#[unsafe(no_mangle)]
pub extern "C" fn fretmere_close(policy: &[u8], state: &mut [u8], events: &mut [u8]) -> u32
    ensures { Gave (closes policy.now state.old events.old) result state.new events.new }
{
    packed(close(policy, state, events))
}

// The count that a state holds, for who would count its running leaves after every call. It is read, not tested: whether it is true is rule 12's,
// and every answered call leaves it true.
#[unsafe(no_mangle)]
pub extern "C" fn fretmere_running_leaves(state: &[u8]) -> u32
    ensures { result ≡ count_word state.now }
{
    if state.len() != STATE_SIZE {
        return fault_word(Refusal::Buffers.bare());
    }
    u32::from(saved_count(state))
}

// The writer's answer in one word: a refusal, or the length of the file.
fn packed_size(written: Written) -> u32
    ensures { (x : writing.Reply) → written ≡ replies.spoken x → result ≡ size_word x }
{
    match written {
        Ok(length) => u32::from(length),
        Err(fault) => fault_word(fault),
    }
}

#[unsafe(no_mangle)]
pub extern "C" fn fretmere_write(nodes: &[u8], steps: &[u8], out: &mut [u8]) -> u32
    ensures { Produced (writing.writes nodes.now steps.now out.old) result out.new }
{
    packed_size(write(nodes, steps, out))
}
