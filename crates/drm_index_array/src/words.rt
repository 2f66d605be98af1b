//! Words of 64 bits, one for each slot of a node.

ghost use Rattle.std.specs.Prelude.{◌≡◌, ℕ, ◌<◌, ◌==◌, ◌≤◌, if◌then◌else◌, not, true, false};
ghost use Rattle.drm_index_array.specs.declared.marks.Mark.{Mark};
ghost use Rattle.drm_index_array.specs.declared.words.Sought.TheVariants.{Taken, Vacant, Marked};
ghost use Rattle.drm_index_array.specs.Least.{least};
ghost use Rattle.drm_index_array.specs.Word.{has_bit, tells_of, AreWords};

use crate::marks::Mark;

/// What a search is for.
#[derive(Clone, Copy, Debug)]
pub enum Sought {
    /// An index that has an entry.
    Taken,
    /// An index that has none.
    Vacant,
    /// An index whose entry carries the mark.
    Marked(Mark),
}

/// What lies below each slot of a node: a bit for each slot.
#[derive(Clone, Copy, Debug)]
pub struct Words {
    /// Some index below the slot has an entry.
    pub present: u64,
    /// No index below the slot is vacant.
    pub full: u64,
    /// Some index below the slot carries the first mark.
    pub m0: u64,
    /// The same of the second.
    pub m1: u64,
    /// The same of the third.
    pub m2: u64,
}

/// Five facts of what lies below a slot.
impl Words {
    /// Returns the words of a node with no entry.
    pub fn none() -> Self
        ensures { result ≡ record { present = 0; full = 0; m0 = 0; m1 = 0; m2 = 0 } }
    {
        Words {
            present: 0,
            full: 0,
            m0: 0,
            m1: 0,
            m2: 0,
        }
    }

    /// Notes an entry with no mark below a slot that had one index more vacant, and whether the slot is full.
    pub fn add(&mut self, at: usize, full: bool)
        requires words { AreWords self.old }
        requires slot { at < 64 }
        ensures words { AreWords self.new }
        ensures taken { (i : ℕ) → i < 64 → tells_of self.new Taken i ≡ (if i == at then true else tells_of self.old Taken i) }
        ensures vacant { (i : ℕ) → i < 64 → tells_of self.new Vacant i ≡ (if i == at then not full else tells_of self.old Vacant i) }
        ensures marked { (m : Mark) (i : ℕ) → tells_of self.new (Marked m) i ≡ tells_of self.old (Marked m) i }
    {
        self.present = with_bit(self.present, at, true);
        self.full = with_bit(self.full, at, full);
    }

    /// Notes an entry less, with no mark, below a slot, and whether some entry is left there.
    pub fn remove(&mut self, at: usize, is_used: bool)
        requires words { AreWords self.old }
        requires slot { at < 64 }
        ensures words { AreWords self.new }
        ensures taken { (i : ℕ) → i < 64 → tells_of self.new Taken i ≡ (if i == at then is_used else tells_of self.old Taken i) }
        ensures vacant { (i : ℕ) → i < 64 → tells_of self.new Vacant i ≡ (if i == at then true else tells_of self.old Vacant i) }
        ensures marked { (m : Mark) (i : ℕ) → tells_of self.new (Marked m) i ≡ tells_of self.old (Marked m) i }
    {
        self.present = with_bit(self.present, at, is_used);
        self.full = with_bit(self.full, at, false);
    }

    /// Returns whether some entry below the node carries a mark.
    pub fn has_marks(&self) -> bool
        ensures { result ≡ false → (m : Mark) (i : ℕ) → tells_of self.now (Marked m) i ≡ false }
    {
        self.m0 | self.m1 | self.m2 != 0
    }

    /// Returns the number of slots before the first with a vacant index below it.
    pub fn full_slots(&self) -> usize
        requires { AreWords self.now }
        ensures few { result ≤ 64 }
        ensures full { (i : ℕ) → i < result → tells_of self.now Vacant i ≡ false }
    {
        match first_one(self.word(Sought::Vacant), 0) {
            Some(at) => at as usize,
            None => 64,
        }
    }

    /// Returns the word whose bits describe what is sought.
    pub fn word(&self, sought: Sought) -> u64
        requires { AreWords self.now }
        ensures { (i : ℕ) → i < 64 → has_bit result i ≡ tells_of self.now sought i }
    {
        match sought {
            Sought::Taken => self.present,
            Sought::Vacant => !self.full,
            Sought::Marked(Mark::M0) => self.m0,
            Sought::Marked(Mark::M1) => self.m1,
            Sought::Marked(Mark::M2) => self.m2,
        }
    }
}

/// Returns the place of the lowest 1 of a word, from a place on.
pub fn first_one(word: u64, from: u32) -> Option<u32>
    requires { from < 64 }
    ensures { result ≡ least (has_bit word) from 63 }
{
    let rest = word & (u64::MAX << from);
    if rest == 0 {
        return None;
    }
    Some(rest.trailing_zeros())
}

/// Returns the word with the bit of one place written.
pub fn with_bit(word: u64, at: usize, on: bool) -> u64
    requires { at < 64 }
    ensures { (i : ℕ) → i < 64 → has_bit result i ≡ (if i == at then on else has_bit word i) }
{
    if on {
        word | (1 << at)
    } else {
        word & !(1 << at)
    }
}
