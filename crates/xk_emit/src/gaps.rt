//! Instructions for which a gap is left until the code behind them is known.

ghost use Rattle.std.specs.Prelude.{◌≡◌, ◌+◌, ◌<◌, ◌≤◌, List, [], ◌∷◌, ◌++◌, length, OnOk, IfOk, IfErr, ⊤};
ghost use Rattle.xk_types.specs.declared.instr.Instr.{Instr as Instruction};
ghost use Rattle.xk_types.specs.declared.instr.Instr.TheVariants as instr;
ghost use Rattle.xk_emit.specs.Room.{Denies};

use crate::error::CodeError;
use crate::expressions::push;
use xk_types::{Comparison, Instr, MAX_CODE};

/// The place of the next instruction.
pub(crate) fn place(code: &Vec<Instr>) -> Result<u16, CodeError>
    ensures place { IfOk result (λ p. p ≡ length code.now.items) }
    ensures refused { IfErr result (λ e. Denies e ⊤ (length code.now.items ≤ 4096)) }
{
    let n = code.len();
    if n <= MAX_CODE {
        Ok(n as u16)
    } else {
        Err(CodeError::Table)
    }
}

/// Puts an instruction where a gap was left for it.
pub(crate) fn patch(code: &mut Vec<Instr>, at: usize, instr: Instr)
    ensures code { (front rest : List Instruction) (gap : Instruction)
        → code.old.items ≡ front ++ gap ∷ rest → at ≡ length front
        → code.new.items ≡ front ++ instr ∷ rest }
    ensures size { length code.new.items ≡ length code.old.items }
{
    if at < code.len() {
        code[at] = instr;
    }
}

/// Leaves a gap for an instruction, and says where.
pub(crate) fn gap(code: &mut Vec<Instr>) -> Result<u16, CodeError>
    ensures place { IfOk result (λ at. at ≡ length code.old.items) }
    ensures code { OnOk result (code.new.items ≡ code.old.items ++ instr.Jump 0 ∷ []) }
    ensures refused { IfErr result (λ e. Denies e ⊤ (length code.old.items < 4096)) }
{
    let at = place(code)?;
    push(code, Instr::Jump(0))?;
    Ok(at)
}

/// A comparison for which a gap was left, and the slots of what it compares.
#[derive(Clone, Copy, Debug)]
pub(crate) struct Test {
    pub(crate) at: u16,
    pub(crate) op: Comparison,
    pub(crate) x: u16,
    pub(crate) y: u16,
}

/// Fills the gap of a comparison that goes behind the code that followed the gap.
pub(crate) fn close_test(code: &mut Vec<Instr>, test: Test) -> Result<(), CodeError>
    ensures code { OnOk result ((front body : List Instruction) (old : Instruction)
        → code.old.items ≡ front ++ old ∷ body → test.at ≡ length front
        → code.new.items
        ≡ front ++ instr.Unless test.op test.x test.y (length front + 1 + length body) ∷ body) }
    ensures size { OnOk result (length code.new.items ≡ length code.old.items) }
    ensures refused { IfErr result (λ e. Denies e ⊤ (length code.old.items ≤ 4096)) }
{
    let end = place(code)?;
    patch(
        code,
        test.at as usize,
        Instr::Unless {
            op: test.op,
            a: test.x,
            b: test.y,
            t: end,
        },
    );
    Ok(())
}

/// The same where an `else` follows: leaves a gap for the jump over it, and says where.
pub(crate) fn begin_else(code: &mut Vec<Instr>, test: Test) -> Result<u16, CodeError>
    ensures place { IfOk result (λ at. at ≡ length code.old.items) }
    ensures code { OnOk result ((front body : List Instruction) (old : Instruction)
        → code.old.items ≡ front ++ old ∷ body → test.at ≡ length front
        → code.new.items
        ≡ front ++ instr.Unless test.op test.x test.y (length front + 1 + length body + 1)
        ∷ (body ++ instr.Jump 0 ∷ [])) }
    ensures size { OnOk result (length code.new.items ≡ length code.old.items + 1) }
    ensures refused { IfErr result (λ e. Denies e ⊤ (length code.old.items < 4096)) }
{
    let at = gap(code)?;
    close_test(code, test)?;
    Ok(at)
}

/// Fills the gap of a jump that goes behind the code that followed the gap.
pub(crate) fn close_else(code: &mut Vec<Instr>, at: u16) -> Result<(), CodeError>
    ensures code { OnOk result ((front body : List Instruction) (old : Instruction)
        → code.old.items ≡ front ++ old ∷ body → at ≡ length front
        → code.new.items ≡ front ++ instr.Jump (length front + 1 + length body) ∷ body) }
    ensures refused { IfErr result (λ e. Denies e ⊤ (length code.old.items ≤ 4096)) }
{
    let end = place(code)?;
    patch(code, at as usize, Instr::Jump(end));
    Ok(())
}

/// Ends a finish, for which a gap was left.
pub(crate) fn close_finish(code: &mut Vec<Instr>, at: u16) -> Result<(), CodeError>
    ensures code { OnOk result ((front body : List Instruction) (old : Instruction)
        → code.old.items ≡ front ++ old ∷ body → at ≡ length front
        → code.new.items ≡ front ++ instr.Finish (length front + 1 + length body)
        ∷ (body ++ instr.EndFinish (length front) ∷ [])) }
    ensures refused { IfErr result (λ e. Denies e ⊤ (length code.old.items < 4096)) }
{
    let end = place(code)?;
    push(code, Instr::EndFinish(at))?;
    patch(code, at as usize, Instr::Finish(end));
    Ok(())
}
