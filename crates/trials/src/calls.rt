// A call of a batch: where its parts lie among the bytes read so far, or how many bytes to read.
ghost use Rattle.std.specs.Prelude.{◌≡◌, ◌+◌, ◌≤◌, length};
ghost use Rattle.trials.specs.Calls.{field_end, Found};

use file_records::{byte, word16};

// What a call asks for, by its entry number: the check's answer, a call of the guard, a file of the writer, or a trace run.
pub const CHECK: u8 = 0;

pub const OPEN: u8 = 1;

pub const OFFER: u8 = 2;

pub const CLOSE: u8 = 3;

pub const WRITE: u8 = 4;

pub const TRACE: u8 = 5;

// A field's length stands in two bytes before it; the first, behind the entry, is the policy's.
pub const LENGTH_SIZE: usize = 2;

const FIRST_AT: usize = 1;

pub const POLICY_AT: usize = FIRST_AT + LENGTH_SIZE;

// Where the policy, the state and the event buffer end. The policy begins at POLICY_AT, the others LENGTH_SIZE behind the end of the one before.
#[derive(Clone, Copy)]
pub struct Parts {
    pub entry: u8,
    pub policy: usize,
    pub state: usize,
    pub events: usize,
    pub action: u8,
}

// The call has at least so many bytes.
#[derive(Clone, Copy)]
pub struct Short {
    pub wanted: usize,
}

pub type Call = Result<Parts, Short>;

// Where a field ends whose length stands at `at`.
fn field_end(batch: &[u8], at: usize) -> usize
    requires { at + 2 ≤ length batch.now }
    ensures { (result ≡ field_end batch.now at) × (result ≤ at + 65537) }
{
    at + LENGTH_SIZE + word16(batch, at) as usize
}

// The call at the start of batch, of which `have` bytes have been read.
pub fn find(batch: &[u8], have: usize) -> Call
    requires { have ≤ length batch.now }
    ensures { Found batch.now have result }
{
    if have < POLICY_AT {
        return Err(Short { wanted: POLICY_AT });
    }
    let policy_end = field_end(batch, FIRST_AT);
    if have < policy_end + LENGTH_SIZE {
        return Err(Short {
            wanted: policy_end + LENGTH_SIZE,
        });
    }
    let state_end = field_end(batch, policy_end);
    if have < state_end + LENGTH_SIZE {
        return Err(Short {
            wanted: state_end + LENGTH_SIZE,
        });
    }
    let events_end = field_end(batch, state_end);
    if have < events_end + 1 {
        return Err(Short {
            wanted: events_end + 1,
        });
    }
    Ok(Parts {
        entry: byte(batch, 0),
        policy: policy_end,
        state: state_end,
        events: events_end,
        action: byte(batch, events_end),
    })
}
