// The action sets, and each operation on them against its definition in specs/Sets, for all arguments.
#![tactic(auto)]

ghost use Rattle.std.specs.Prelude.{◌≡◌};
ghost use Rattle.actions.specs.Sets.{single, union, common, difference, has, is_empty, within, meets};

// The greatest action.
pub const LAST_ACTION: u8 = 63;

#[derive(Clone, Copy)]
pub struct ActionSet {
    pub bits: u64,
}

impl ActionSet {
    pub const EMPTY: ActionSet = ActionSet { bits: 0 };

    pub fn single(a: u8) -> ActionSet
        ensures { result.bits ≡ single a }
    {
        if a <= LAST_ACTION {
            ActionSet { bits: 1u64 << a }
        } else {
            ActionSet::EMPTY
        }
    }

    pub fn union(self, t: ActionSet) -> ActionSet
        ensures { result.bits ≡ union self.bits t.bits }
    {
        ActionSet {
            bits: self.bits | t.bits,
        }
    }

    pub fn common(self, t: ActionSet) -> ActionSet
        ensures { result.bits ≡ common self.bits t.bits }
    {
        ActionSet {
            bits: self.bits & t.bits,
        }
    }

    pub fn difference(self, t: ActionSet) -> ActionSet
        ensures { result.bits ≡ difference self.bits t.bits }
    {
        ActionSet {
            bits: self.bits ^ (self.bits & t.bits),
        }
    }

    pub fn has(self, a: u8) -> bool
        ensures { result ≡ has self.bits a }
    {
        a <= LAST_ACTION && (self.bits >> a) % 2 == 1
    }

    pub fn is_empty(self) -> bool
        ensures { result ≡ is_empty self.bits }
    {
        self.bits == 0
    }

    pub fn within(self, t: ActionSet) -> bool
        ensures { result ≡ within self.bits t.bits }
    {
        self.bits & t.bits == self.bits
    }

    pub fn meets(self, t: ActionSet) -> bool
        ensures { result ≡ meets self.bits t.bits }
    {
        self.bits & t.bits != 0
    }
}
