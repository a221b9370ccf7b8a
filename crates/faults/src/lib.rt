// What a refusal tells: its number, and the record that breaks the rule, if the rule is about records. Every entry point, the writer and the programs
// hand it on as the check has found it.
#![tactic(auto)]

ghost use Rattle.std.specs.Prelude.{◌≡◌, ◌≤◌, ◌<◌};
ghost use Rattle.spec_policy.specs.Spots.{bare_fault, on_record};
ghost use Rattle.faults.specs.Meaning.{spot_of, fault_of, spot_code, fault_word, number_of};

// Why a file or a call is refused, in the order of the numbers.
#[derive(Clone, Copy, Debug, PartialEq, Eq)]
pub enum Refusal {
    Length = 1,
    Version = 2,
    Counts = 3,
    Fields = 4,
    Children = 5,
    Targets = 6,
    Modes = 7,
    Branches = 8,
    Interference = 9,
    Spread = 10,
    Buffers = 11,
    State = 12,
    Action = 13,
    Halted = 14,
    Room = 15,
}

impl Refusal {
    pub fn number(self) -> u8
        ensures { result ≡ number_of self }
    {
        self as u8
    }

    // The refusal where no record is to blame.
    #[tactic(auto, unfolding(crate::specs::Meaning::spot_of))]
    pub fn bare(self) -> Fault
        ensures { fault_of result ≡ bare_fault (number_of self) }
    {
        bare_fault(self.number())
    }

    // The refusal with its record, if it has one.
    pub fn at(self, spot: Option<u16>) -> Fault
        ensures { fault_of result ≡ record { number = number_of self; spot = spot_of spot } }
    {
        fault_at(self.number(), spot)
    }
}

// Which record is to blame: a node's or a step's number. There is none where a rule is about the whole file, or about what comes with it. A file has
// 31 nodes and 512 steps at most, so the number fits. No other code makes it small.
pub fn on_record(p: usize) -> Option<u16>
    requires { p < 65536 }
    ensures { spot_of result ≡ on_record p }
{
    Some(p as u16)
}

// The number is a byte and no `Refusal`: what prints a refusal, or packs it for C, promises it for every number.
#[derive(Clone, Copy, Debug, PartialEq, Eq)]
pub struct Fault {
    pub number: u8,
    pub spot: Option<u16>,
}

pub fn bare_fault(number: u8) -> Fault
    ensures { fault_of result ≡ bare_fault number }
{
    Fault { number, spot: None }
}

pub fn fault_at(number: u8, spot: Option<u16>) -> Fault
    ensures { fault_of result ≡ record { number = number; spot = spot_of spot } }
{
    Fault { number, spot }
}

// The spot as one number, for who has no option.
pub fn spot_code(spot: Option<u16>) -> u32
    ensures { (result ≡ spot_code (spot_of spot)) × (result ≤ 65536) }
{
    match spot {
        None => 0,
        Some(p) => u32::from(p) + 1,
    }
}

// What one in the highest byte of a word counts.
const HIGHEST_BYTE: u32 = 1 << 24;

// A refusal as one word, which the libraries for C return.
pub fn fault_word(fault: Fault) -> u32
    ensures { result ≡ fault_word (fault_of fault) }
{
    u32::from(fault.number) * HIGHEST_BYTE + spot_code(fault.spot)
}
