//! Reading no further than is wanted.

ghost use Rattle.std.specs.Prelude.{◌≡◌, ◌≤◌, length, take, IfOk, IfErr, IfSome, OnOk};
ghost use Rattle.xk_program.specs.Bytes.{FailsRead, IsReadToLimit, LosesAtMost, kept};

use crate::fault::Fault;
use crate::program_loader::{LONGEST_MODULE, LONGEST_SOURCE};
use std::alloc::Global;
use xk_jobs::Form;
use xk_types::Source;

/// How many bytes one read asks for.
const PIECE: usize = 4096;

/// The first bytes that the source has left, so many at most, and no others are read, however it goes. The only faults are `Device`, where a read
/// failed, and `OutOfMemory`. The memory that it takes is in proportion to what was read.
pub fn read_front<R: Source>(alloc: Global, source: &mut R, most: usize) -> Result<Vec<u8>, Fault>
    ensures front { IfOk result (λ bytes.
        IfSome (R.remaining source.old) (λ known. bytes.items ≡ take most known)) }
    ensures few { IfOk result (λ bytes. length bytes.items ≤ most) }
    ensures no_more { LosesAtMost most (R.remaining source.old) (R.remaining source.new) }
    ensures no_fault { OnOk result (R.fault_count source.new ≡ R.fault_count source.old) }
    ensures failed { IfErr result
        (FailsRead (R.fault_count source.old) (R.fault_count source.new)) }
{
    let mut found = Vec::new(alloc);
    let mut piece = [0u8; PIECE];
    while found.len() < most {
        let wanted = PIECE.min(most - found.len());
        let read = source.read(&mut piece[..wanted])?;
        if read == 0 {
            return Ok(found);
        }
        found.extend_from_slice(&piece[..read])?;
    }
    Ok(found)
}

/// All that counts of the bytes in FILE: one byte more than its text may have, at most, and no others are read then.
pub fn read_program<P: Source>(alloc: Global, form: Form, program: &mut P) -> Result<Vec<u8>, Fault>
    ensures kept { IfOk result (λ bytes.
        IfSome (P.remaining program.old) (λ known. bytes.items ≡ kept form known)) }
    ensures no_further { IsReadToLimit form (P.remaining program.old) (P.remaining program.new) }
    ensures no_fault { OnOk result (P.fault_count program.new ≡ P.fault_count program.old) }
    ensures failed { IfErr result
        (FailsRead (P.fault_count program.old) (P.fault_count program.new)) }
{
    match form {
        Form::Module => read_front(alloc, program, LONGEST_MODULE + 1),
        Form::Source => read_front(alloc, program, LONGEST_SOURCE + 1),
    }
}
