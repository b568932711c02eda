//! The bytecode's instructions.

ghost use Rattle.std.specs.Prelude.{◌≡◌, ◌==◌, length};
ghost use Rattle.std.proofs.Common.{rules};
ghost use Rattle.std.specs.Cmp.Lexicographic.{pointwise};
ghost use Rattle.std.specs.Cmp.Rules.{comparing};
ghost use Rattle.xk_types.specs.Code.{arguments_of, compares};

use std::marker::Model;

/// The slots whose values a unit is given: where the verifier accepts the module, one for each of its parameters and in their
/// order.
#[derive(Drop)]
pub struct Args {
    slots: Vec<u16>,
}

impl Model for Args {
    ghost use Rattle.std.specs.Prelude.{ℕ, List};

    ghost Value = { List ℕ };

    ghost view = { λ a. a.slots.items };
}

impl PartialEq for Args {
    ghost eq = { pointwise ◌==◌ };

    ghost laws = { Prim.search (comparing, rules) };

    /// The same slots in the same order.
    fn eq(&self, other: &Args) -> bool {
        self.slots() == other.slots()
    }
}

impl Args {
    /// The arguments that these slots hold, in this order.
    pub fn new(slots: Vec<u16>) -> Args
        ensures { result ≡ slots.items }
    {
        Args { slots }
    }

    /// The slots, in order.
    pub fn slots(&self) -> &[u16]
        ensures { result.now ≡ self.now }
    {
        &self.slots
    }

    /// How many there are.
    pub fn count(&self) -> usize
        ensures { result ≡ length self.now }
    {
        self.slots.len()
    }
}

/// How `unless` compares two numbers.
#[derive(Clone, Copy, Debug, PartialEq, Eq)]
pub enum Comparison {
    /// They are equal.
    Eq,
    /// They differ.
    Ne,
    /// The first is less.
    Lt,
    /// The first is less, or they are equal.
    Le,
    /// The first is greater.
    Gt,
    /// The first is greater, or they are equal.
    Ge,
}

impl Comparison {
    /// Whether the two numbers compare so.
    pub fn holds(self, a: i64, b: i64) -> bool
        ensures { result ≡ compares self a b }
    {
        match self {
            Comparison::Eq => a == b,
            Comparison::Ne => a != b,
            Comparison::Lt => a < b,
            Comparison::Le => a <= b,
            Comparison::Gt => a > b,
            Comparison::Ge => a >= b,
        }
    }
}

/// One instruction of a unit's code. Slots, units and places in the code are named by number, from 0; an instruction goes on
/// to the next, where nothing else is said.
#[derive(PartialEq, Drop)]
pub enum Instr {
    /// `lit d n`: slot d becomes the number n.
    Lit {
        d: u16,
        n: i64,
    },
    /// `copy d a`: slot d becomes the number in a.
    Copy {
        d: u16,
        a: u16,
    },
    /// `add d a b`: slot d becomes the sum of the numbers in a and b, wrapped to 64 bits.
    Add {
        d: u16,
        a: u16,
        b: u16,
    },
    /// `sub d a b`: slot d becomes the number in a less the one in b, wrapped to 64 bits.
    Sub {
        d: u16,
        a: u16,
        b: u16,
    },
    /// `mul d a b`: slot d becomes the product of the numbers in a and b, wrapped to 64 bits.
    Mul {
        d: u16,
        a: u16,
        b: u16,
    },
    /// `unless op a b t`: goes to place t, unless the numbers in a and b compare so.
    Unless {
        op: Comparison,
        a: u16,
        b: u16,
        t: u16,
    },
    /// `jump t`: goes to place t.
    Jump(u16),
    /// `forto k lo x hi e`: begins a loop whose `next` stands at place e, and which goes no further up than the number in x and
    /// than hi: where lo is no more than the lesser of them slot k becomes lo; else it goes to place e + 1.
    ForTo {
        k: u16,
        lo: i64,
        x: u16,
        hi: i64,
        e: u16,
    },
    /// `for k lo hi e`: begins a loop whose `next` stands at place e: slot k becomes lo.
    For {
        k: u16,
        lo: i64,
        hi: i64,
        e: u16,
    },
    /// `next b`: ends a turn of the loop whose `for` or `forto` stands at place b. Where its slot is less than its upper bound, for
    /// a `forto` the lesser one, it becomes one more, and the loop goes round again from place b + 1.
    Next(u16),
    /// `finish e`: opens a finish, whose `endfinish` stands at place e. It governs what the activity starts while it is the
    /// innermost that the activity has open.
    Finish(u16),
    /// `endfinish b`: waits until every activity under the innermost finish that the activity has open has ended, and closes it.
    /// Where the verifier accepts the module, it is the one that the `finish` at place b opened.
    EndFinish(u16),
    /// `get d s`: slot d becomes shared number s.
    Get {
        d: u16,
        s: u16,
    },
    /// `put s a`: shared number s becomes the number in a.
    Put {
        s: u16,
        a: u16,
    },
    /// `addto s a`: shared number s becomes its sum with the number in a, wrapped to 64 bits: one step reads and writes it.
    AddTo {
        s: u16,
        a: u16,
    },
    /// `print a`: prints the number in a.
    Print(u16),
    /// `make k`: makes a clock, registers the activity on it, and puts its name into slot k.
    Make(u16),
    /// `resume k`: the activity has done its work in the phase of the clock in k.
    Resume(u16),
    /// `drop k`: ends the activity's registration on the clock in k.
    Drop(u16),
    /// `advance`: resumes every clock of the activity, then waits until all of them have advanced. Two steps.
    Advance,
    /// `call u args`: runs unit u, a method, with these arguments, and goes on when it returns. The method borrows the clocks
    /// among them.
    Call {
        unit: u16,
        args: Args,
    },
    /// `spawn u args`: starts a new activity that runs unit u with these arguments. It is registered on the clocks among
    /// them, and stands on each where its starter stands.
    Spawn {
        unit: u16,
        args: Args,
    },
    /// `ret`: in a method, back behind the `call` that runs it; else the activity ends. Goes nowhere.
    Ret,
}

impl Instr {
    /// How many arguments the instruction hands to a unit.
    pub fn argument_count(&self) -> usize
        ensures { result ≡ length (arguments_of self.now) }
    {
        match self {
            Instr::Call { args, .. } | Instr::Spawn { args, .. } => args.count(),
            _ => 0,
        }
    }
}
