//! Trees. They keep where in the text their names, numbers, types, parentheses, `-`, `finish` and `}` stand, as offsets in bytes.

ghost use Rattle.std.specs.Prelude.{◌≡◌};
ghost use Rattle.xk_tree.specs.Tree.{bound, has_turns, program_value, top};
ghost use Rattle.xk_tree.specs.AsyncOffsets.{HasBodiesApart};

use xk_types::{Comparison, ParamKind};

/// A name, and where it stands.
#[derive(Clone, Copy, Debug)]
pub struct Name<'t> {
    /// The offset of its first byte.
    pub at: usize,
    /// Its letters, digits and `_`, in ASCII; or spaces, where it stands for what the text has no name for.
    pub text: &'t [u8],
}

/// A whole number of 64 bits, as it is written.
#[derive(Clone, Copy, Debug, PartialEq, Eq)]
pub struct Number {
    /// The offset of the `-` before its digits, if there is one.
    pub minus: Option<usize>,
    /// The offset of its first digit.
    pub at: usize,
    /// What it is worth.
    pub value: i64,
}

/// What joins two expressions.
#[derive(Clone, Copy, Debug, PartialEq, Eq)]
pub enum Operator {
    /// `+`, a sum that wraps.
    Plus,
    /// `-`, a difference that wraps.
    Minus,
    /// `*`, a product that wraps.
    Times,
}

/// An expression. Its value is a number of 64 bits.
#[derive(Drop)]
pub enum Expr<'t> {
    /// A number.
    Number(Number),
    /// A name.
    Name(Name<'t>),
    /// `( e )`, with the offset of its `(`.
    Paren(usize, Box<Expr<'t>>),
    /// `- e`, with the offset of its `-`.
    Negation(usize, Box<Expr<'t>>),
    /// Two expressions with an operator between them, and the operator's offset.
    Binary(Operator, Box<Expr<'t>>, usize, Box<Expr<'t>>),
}

/// The name of a type: `Long`, a number, or `Clock`.
#[derive(Clone, Copy, Debug, PartialEq, Eq)]
pub struct TypeName {
    /// The offset of its first byte.
    pub at: usize,
    /// Which of the two it is.
    pub kind: ParamKind,
}

/// A word that says what is done, as `resume`, and the `(` behind it.
#[derive(Clone, Copy, Debug, PartialEq, Eq)]
pub struct Verb {
    /// The offset of the word.
    pub at: usize,
    /// The offset of the `(`.
    pub paren: usize,
}

/// Whether what a name stands for may change.
#[derive(Clone, Copy, Debug, PartialEq, Eq)]
pub enum Binding {
    /// `val`: it stays.
    Val,
    /// `var`: it may be assigned to.
    Var,
    /// The clock of a `clocked finish`, which has no name in the text: it stays.
    Hidden,
}

/// What stands behind the `=` of a declaration.
#[derive(Drop)]
pub enum Right<'t> {
    /// `Clock.make()`, with the offset of `Clock`.
    Make(usize, Verb),
    /// An expression, or a shared number alone.
    Expr(Expr<'t>),
}

/// How far a loop goes.
#[derive(Drop)]
pub enum Bound<'t> {
    /// A number.
    UpTo(Number),
    /// `Math.min(e, n)`: with a name that no text has, which stands where `Math` does; the word `min`; the expression, and the number.
    Least(Name<'t>, Verb, Expr<'t>, Number),
}

impl Bound<'_> {
    /// The number of the text that the loop goes no further than, whatever the expression comes to.
    pub fn top(&self) -> i64
        ensures { result ≡ top (bound self.now) }
    {
        match self {
            Bound::UpTo(n) => n.value,
            Bound::Least(_, _, _, n) => n.value,
        }
    }

    /// Whether a loop that begins with `lo` has a turn, unless the expression comes to too little.
    pub fn has_turns(&self, lo: Number) -> bool
        ensures { result ≡ has_turns lo (bound self.now) }
    {
        lo.value <= self.top()
    }
}

/// How the clocks of an `async` are written.
#[derive(Clone, Copy, Debug, PartialEq, Eq)]
pub enum Written {
    /// By name: `async clocked (c, ..)`, with the offsets of `clocked` and of the `(`.
    Listed(usize, usize),
    /// `clocked async`, with the offset of `clocked`: the clock that is hidden there.
    Ahead(usize),
}

/// The clocks that an `async` registers its activity on.
#[derive(Drop)]
pub struct ClockList<'t> {
    /// How they are written.
    pub written: Written,
    /// At least one. Of `clocked async` the one that is hidden there, at the word `clocked`; a name without letters where none is.
    pub names: Vec<Name<'t>>,
}

/// A statement.
#[derive(Drop)]
pub enum Stmt<'t> {
    /// `{ .. }`, with the offset of its `}`.
    Block(usize, Vec<Stmt<'t>>),
    /// `;`
    Empty,
    /// `val x: T = r;` or `var x: T = r;`. The type may be left out.
    Declare(Binding, Name<'t>, Option<TypeName>, Right<'t>),
    /// `x = e;`
    Assign(Name<'t>, Expr<'t>),
    /// `atomic x = y + e;`, with the offset of its `+`.
    Atomic(Name<'t>, Name<'t>, usize, Expr<'t>),
    /// `if (l op r) s`, with the offset of its `(`.
    If(usize, Expr<'t>, Comparison, Expr<'t>, Box<Stmt<'t>>),
    /// `if (l op r) s else t`, with the offset of its `(`.
    IfElse(usize, Expr<'t>, Comparison, Expr<'t>, Box<Stmt<'t>>, Box<Stmt<'t>>),
    /// `for (i in a..b) s`, with the offset of its `(`.
    For(usize, Name<'t>, Number, Bound<'t>, Box<Stmt<'t>>),
    /// `async s`, `async clocked (c, ..) s` or `clocked async s`, with the offset of `async`.
    Async(usize, Option<ClockList<'t>>, Box<Stmt<'t>>),
    /// `finish s`, with the offset of `finish`; and `clocked finish s`, which stands for `finish { val h = Clock.make(); s h.drop(); }` with
    /// a name h that no text has. The block there has no `}` in the text: its offset is that of `finish` too.
    Finish(usize, Box<Stmt<'t>>),
    /// `f(e, ..);`, with the offset of its `(`.
    Call(Name<'t>, usize, Vec<Expr<'t>>),
    /// `c.resume();`
    Resume(Name<'t>, Verb),
    /// `c.drop();`
    Drop(Name<'t>, Verb),
    /// `Clock.advanceAll();`, with the offset of `Clock`.
    AdvanceAll(usize, Verb),
    /// `Console.OUT.println(e);`, with the offset of `OUT`.
    Print(usize, Verb, Expr<'t>),
}

/// A parameter: `x: T`.
#[derive(Clone, Copy, Debug)]
pub struct Param<'t> {
    /// Its name.
    pub name: Name<'t>,
    /// What it takes.
    pub takes: TypeName,
}

/// A shared number: `shared s = n;`.
#[derive(Clone, Copy, Debug)]
pub struct Shared<'t> {
    /// Its name.
    pub name: Name<'t>,
    /// What it is at the start.
    pub start: Number,
}

/// A method: `def f(x: T, ..) { .. }`.
#[derive(Drop)]
pub struct Method<'t> {
    /// Its name.
    pub name: Name<'t>,
    /// The offset of its `(`.
    pub paren: usize,
    /// Its parameters.
    pub params: Vec<Param<'t>>,
    /// The statements of its body.
    pub body: Vec<Stmt<'t>>,
    /// The offset of the `}` of its body.
    pub close: usize,
}

/// A program: its shared numbers and its methods, in the order of the text.
#[derive(Drop)]
pub struct Tree<'t> {
    /// The shared numbers.
    pub shared: Vec<Shared<'t>>,
    /// The methods; the program begins with the one called `main`.
    pub methods: Vec<Method<'t>>,
    /// The offsets of the words `async` in them rise, so that each body of an `async` is told by its offset.
    pub ghost apart: { HasBodiesApart (program_value shared.items methods.items) },
}
