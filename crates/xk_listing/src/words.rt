//! Instructions in words.

ghost use Rattle.std.specs.Prelude.{◌≡◌, ◌++◌, IfOk, OnOk, decimal, flat_map};
ghost use Rattle.xk_listing.specs.Words.{arguments, comparison_name, for_loop, forto_loop, lit, next_argument, one, run_words, three, two, unless, words};

use crate::fields::push_text;
use std::alloc::{AllocError, Global};
use xk_types::{Comparison, Instr};

/// Adds a name, and an operand.
#[tactic(auto, unfolding(crate::specs::Words::one))]
fn push_one(alloc: Global, out: &mut Vec<u8>, name: &str, a: u16) -> Result<(), AllocError>
    ensures { OnOk result (out.new.items ≡ out.old.items ++ one name.now a) }
{
    push_text(out, format!(in alloc; "{name} {a}")?.as_str())
}

/// Adds a name, and two operands.
#[tactic(auto, unfolding(crate::specs::Words::two))]
fn push_two(alloc: Global, out: &mut Vec<u8>, name: &str, a: u16, b: u16) -> Result<(), AllocError>
    ensures { OnOk result (out.new.items ≡ out.old.items ++ two name.now a b) }
{
    push_text(out, format!(in alloc; "{name} {a} {b}")?.as_str())
}

/// Adds a name, and three operands.
#[tactic(auto, unfolding(crate::specs::Words::three))]
fn push_three(
    alloc: Global,
    out: &mut Vec<u8>,
    name: &str,
    a: u16,
    b: u16,
    c: u16,
) -> Result<(), AllocError>
    ensures { OnOk result (out.new.items ≡ out.old.items ++ three name.now a b c) }
{
    push_text(out, format!(in alloc; "{name} {a} {b} {c}")?.as_str())
}

/// Adds `lit 0 -5`.
#[tactic(auto, unfolding(crate::specs::Words::lit))]
fn push_lit(alloc: Global, out: &mut Vec<u8>, d: u16, n: i64) -> Result<(), AllocError>
    ensures { OnOk result (out.new.items ≡ out.old.items ++ lit d n) }
{
    push_text(out, format!(in alloc; "lit {d} {n}")?.as_str())
}

/// How two numbers are compared: `le` where the first is to be no greater.
fn comparison_name(op: Comparison) -> &'static str
    ensures { result.now ≡ comparison_name op }
{
    match op {
        Comparison::Eq => "eq",
        Comparison::Ne => "ne",
        Comparison::Lt => "lt",
        Comparison::Le => "le",
        Comparison::Gt => "gt",
        Comparison::Ge => "ge",
    }
}

/// Adds `unless le 2 1 4`.
#[tactic(auto, unfolding(crate::specs::Words::unless))]
fn push_unless(
    alloc: Global,
    out: &mut Vec<u8>,
    op: Comparison,
    a: u16,
    b: u16,
    t: u16,
) -> Result<(), AllocError>
    ensures { OnOk result (out.new.items ≡ out.old.items ++ unless op a b t) }
{
    push_text(out, "unless ")?;
    push_three(alloc, out, comparison_name(op), a, b, t)
}

/// Adds `for 2 1 3 5`.
#[tactic(auto, unfolding(crate::specs::Words::for_loop))]
fn push_for_loop(
    alloc: Global,
    out: &mut Vec<u8>,
    k: u16,
    lo: i64,
    hi: i64,
    e: u16,
) -> Result<(), AllocError>
    ensures { OnOk result (out.new.items ≡ out.old.items ++ for_loop k lo hi e) }
{
    push_text(out, format!(in alloc; "for {k} {lo} {hi} {e}")?.as_str())
}

/// Adds `forto 2 1 3 8 5`.
#[tactic(auto, unfolding(crate::specs::Words::forto_loop))]
fn push_forto_loop(
    alloc: Global,
    out: &mut Vec<u8>,
    k: u16,
    lo: i64,
    x: u16,
    hi: i64,
    e: u16,
) -> Result<(), AllocError>
    ensures { OnOk result (out.new.items ≡ out.old.items ++ forto_loop k lo x hi e) }
{
    push_text(
        out,
        format!(in alloc; "forto {k} {lo} {x} {hi} {e}")?.as_str(),
    )
}

/// Adds a number.
fn push_number(alloc: Global, out: &mut Vec<u8>, x: u16) -> Result<(), AllocError>
    ensures { OnOk result (out.new.items ≡ out.old.items ++ decimal x) }
{
    push_text(out, format!(in alloc; "{x}")?.as_str())
}

/// Adds an argument behind another one.
#[tactic(auto, unfolding(crate::specs::Words::next_argument))]
fn push_next(alloc: Global, out: &mut Vec<u8>, x: u16) -> Result<(), AllocError>
    ensures { OnOk result (out.new.items ≡ out.old.items ++ next_argument x) }
{
    push_text(out, format!(in alloc; " {x}")?.as_str())
}

/// Adds arguments behind another one.
fn push_next_arguments(alloc: Global, out: &mut Vec<u8>, args: &[u16]) -> Result<(), AllocError>
    ensures { OnOk result (out.new.items ≡ out.old.items ++ flat_map next_argument args.now) }
{
    for x in args {
        push_next(alloc, out, *x)?;
    }
    Ok(())
}

/// Adds a list of slots.
fn push_arguments(alloc: Global, out: &mut Vec<u8>, args: &[u16]) -> Result<(), AllocError>
    ensures { OnOk result (out.new.items ≡ out.old.items ++ arguments args.now) }
{
    let [first, rest @ ..] = args else {
        return Ok(());
    };
    push_number(alloc, out, *first)?;
    push_next_arguments(alloc, out, rest)
}

/// Adds `spawn 1 (0 1 2)`.
fn push_run(
    alloc: Global,
    out: &mut Vec<u8>,
    name: &str,
    unit: u16,
    args: &[u16],
) -> Result<(), AllocError>
    ensures { OnOk result (out.new.items ≡ out.old.items ++ run_words name.now unit args.now) }
{
    push_one(alloc, out, name, unit)?;
    push_text(out, " (")?;
    push_arguments(alloc, out, args)?;
    push_text(out, ")")
}

/// Adds an instruction in words.
fn push_words(alloc: Global, out: &mut Vec<u8>, instr: &Instr) -> Result<(), AllocError>
    ensures { OnOk result (out.new.items ≡ out.old.items ++ words instr.now) }
{
    match instr {
        Instr::Lit { d, n } => push_lit(alloc, out, *d, *n),
        Instr::Copy { d, a } => push_two(alloc, out, "copy", *d, *a),
        Instr::Add { d, a, b } => push_three(alloc, out, "add", *d, *a, *b),
        Instr::Sub { d, a, b } => push_three(alloc, out, "sub", *d, *a, *b),
        Instr::Mul { d, a, b } => push_three(alloc, out, "mul", *d, *a, *b),
        Instr::Unless { op, a, b, t } => push_unless(alloc, out, *op, *a, *b, *t),
        Instr::Jump(t) => push_one(alloc, out, "jump", *t),
        Instr::ForTo { k, lo, x, hi, e } => push_forto_loop(alloc, out, *k, *lo, *x, *hi, *e),
        Instr::For { k, lo, hi, e } => push_for_loop(alloc, out, *k, *lo, *hi, *e),
        Instr::Next(b) => push_one(alloc, out, "next", *b),
        Instr::Finish(e) => push_one(alloc, out, "finish", *e),
        Instr::EndFinish(b) => push_one(alloc, out, "endfinish", *b),
        Instr::Get { d, s } => push_two(alloc, out, "get", *d, *s),
        Instr::Put { s, a } => push_two(alloc, out, "put", *s, *a),
        Instr::AddTo { s, a } => push_two(alloc, out, "addto", *s, *a),
        Instr::Print(a) => push_one(alloc, out, "print", *a),
        Instr::Make(k) => push_one(alloc, out, "make", *k),
        Instr::Resume(k) => push_one(alloc, out, "resume", *k),
        Instr::Drop(k) => push_one(alloc, out, "drop", *k),
        Instr::Advance => push_text(out, "advance"),
        Instr::Call { unit, args } => push_run(alloc, out, "call", *unit, args.slots()),
        Instr::Spawn { unit, args } => push_run(alloc, out, "spawn", *unit, args.slots()),
        Instr::Ret => push_text(out, "ret"),
    }
}

/// An instruction in words.
pub(crate) fn words(alloc: Global, instr: &Instr) -> Result<Vec<u8>, AllocError>
    ensures { IfOk result (λ v. v.items ≡ words instr.now) }
{
    let mut out = Vec::new(alloc);
    push_words(alloc, &mut out, instr)?;
    Ok(out)
}
