//! Sets of instructions, kept coarsely: by what they do to shared numbers, and whether they print or drop a clock.

ghost use Rattle.std.specs.Prelude.{◌≡◌, IsTrue};
ghost use Rattle.xk_closed_sets.specs.Footprint.{Covers, has, is_apart, is_set, joined, stores_in};
ghost use Rattle.xk_closed_sets.specs.Places.{nothing};

use xk_types::Instr;

/// What instructions may do to shared numbers, and whether they may print or drop a clock. In a word one bit stands for all shared
/// numbers that leave the same rest by 64.
#[derive(Clone, Copy, Debug, PartialEq, Eq)]
pub struct Footprint {
    /// The numbers that they read.
    pub reads: u64,
    /// The numbers that they write.
    pub puts: u64,
    /// The numbers to which they add.
    pub adds: u64,
    /// Whether one prints.
    pub prints: bool,
    /// Whether one drops a clock.
    pub drops: bool,
}

/// Whether the bit of a shared number is set.
fn is_set(word: u64, s: u16) -> bool
    ensures { result ≡ is_set word s }
{
    word >> (s % 64) & 1 == 1
}

/// The word in which the bit of a shared number alone is set.
fn bit(s: u16) -> u64 {
    1 << (s % 64)
}

impl Footprint {
    /// Of no instruction.
    pub(crate) fn nothing() -> Footprint
        ensures { result ≡ nothing }
    {
        Footprint {
            reads: 0,
            puts: 0,
            adds: 0,
            prints: false,
            drops: false,
        }
    }

    /// Of one instruction.
    pub(crate) fn of(instr: &Instr) -> Footprint {
        let mut footprint = Footprint::nothing();
        match instr {
            Instr::Get { s, .. } => footprint.reads = bit(*s),
            Instr::Put { s, .. } => footprint.puts = bit(*s),
            Instr::AddTo { s, .. } => footprint.adds = bit(*s),
            Instr::Print(_) => footprint.prints = true,
            Instr::Drop(_) => footprint.drops = true,
            _ => {}
        }
        footprint
    }

    /// Whether the instruction is in it.
    pub(crate) fn has(&self, instr: &Instr) -> bool
        ensures { result ≡ has self.now instr.now }
    {
        match instr {
            Instr::Get { s, .. } => is_set(self.reads, *s),
            Instr::Put { s, .. } => is_set(self.puts, *s),
            Instr::AddTo { s, .. } => is_set(self.adds, *s),
            Instr::Print(_) => self.prints,
            Instr::Drop(_) => self.drops,
            _ => true,
        }
    }

    /// Whether one of its instructions writes the shared number, or adds to it.
    fn stores(&self, s: u16) -> bool
        ensures { result ≡ stores_in self.now s }
    {
        is_set(self.puts, s) || is_set(self.adds, s)
    }

    /// Whether none of its instructions conflicts with this one on a shared number, nor do both print.
    pub(crate) fn is_apart(&self, instr: &Instr) -> bool
        ensures { result ≡ is_apart self.now instr.now }
    {
        match instr {
            Instr::Get { s, .. } => !self.stores(*s),
            Instr::Put { s, .. } => !(is_set(self.reads, *s) || self.stores(*s)),
            Instr::AddTo { s, .. } => !(is_set(self.reads, *s) || is_set(self.puts, *s)),
            Instr::Print(_) => !self.prints,
            _ => true,
        }
    }

    /// What is in one or in the other.
    pub(crate) fn joined(&self, other: &Footprint) -> Footprint
        ensures { result ≡ joined self.now other.now }
    {
        Footprint {
            reads: self.reads | other.reads,
            puts: self.puts | other.puts,
            adds: self.adds | other.adds,
            prints: self.prints || other.prints,
            drops: self.drops || other.drops,
        }
    }

    /// Whether they are the same.
    fn is_same(&self, other: &Footprint) -> bool
        ensures reads { IsTrue result → self.now.reads ≡ other.now.reads }
        ensures puts { IsTrue result → self.now.puts ≡ other.now.puts }
        ensures adds { IsTrue result → self.now.adds ≡ other.now.adds }
        ensures prints { IsTrue result → self.now.prints ≡ other.now.prints }
        ensures drops { IsTrue result → self.now.drops ≡ other.now.drops }
    {
        self.reads == other.reads
            && self.puts == other.puts
            && self.adds == other.adds
            && self.prints == other.prints
            && self.drops == other.drops
    }

    /// Whether all that is in the other is in it.
    #[tactic(auto, using(crate::proofs::FootprintLemmas::covers_by))]
    pub(crate) fn covers(&self, other: &Footprint) -> bool
        ensures { IsTrue result → Covers self.now other.now }
    {
        self.joined(other).is_same(self)
    }

    /// Whether an instruction in it may conflict with one in the other on a shared number, or both print.
    pub(crate) fn meets(&self, other: &Footprint) -> bool {
        let stores = self.puts | self.adds;
        let others = other.puts | other.adds;
        let read = stores & other.reads | others & self.reads;
        let put = self.puts & others | other.puts & stores;
        read | put != 0 || self.prints && other.prints
    }
}
