//! Writing numbers.

ghost use Rattle.std.specs.Prelude.{◌≡◌, ◌+◌, ◌≤◌, ◌++◌, OnOk, OnErr, length, codes};
ghost use Rattle.std.specs.Fmt.{signed_decimal};
ghost use Rattle.std.specs.Io.KnownBytes.{Appends};
ghost use Rattle.xk_types.specs.Device.{Rose};
ghost use Rattle.xk_io.specs.Writing.{AppendsBeginning};
ghost use Rattle.xk_io.specs.Lines.{number_lines};

use crate::device::{Device, write_all};
use crate::page::Page;
use xk_types::Sink;

/// How many bytes a page of numbers has room for.
const PAGE: usize = 8192;

/// How many numbers are written at a time: their lines fit a page.
const AT_A_TIME: usize = 390;

/// Writes each number on a line of its own, some hundreds at a time, and takes no memory. Where a write fails, a beginning of the lines was
/// written.
pub fn write_numbers<W: Sink>(numbers: &[i64], sink: &mut W) -> Result<(), Device>
    ensures all { OnOk result
        (Appends (W.contents sink.old) (W.contents sink.new) (number_lines numbers.now)) }
    ensures beginning { AppendsBeginning
        (W.contents sink.old) (W.contents sink.new) (number_lines numbers.now) }
    ensures no_fault { OnOk result (W.fault_count sink.new ≡ W.fault_count sink.old) }
    ensures failed { OnErr result (Rose (W.fault_count sink.old) (W.fault_count sink.new)) }
{
    let mut done = 0;
    while done < numbers.len() {
        let next = numbers.len().min(done + AT_A_TIME);
        write_some(sink, &numbers[done..next])?;
        done = next;
    }
    Ok(())
}

/// Writes the lines of some numbers.
fn write_some<W: Sink>(sink: &mut W, numbers: &[i64]) -> Result<(), Device>
    requires { length numbers.now ≤ 390 }
    ensures all { OnOk result
        (Appends (W.contents sink.old) (W.contents sink.new) (number_lines numbers.now)) }
    ensures beginning { AppendsBeginning
        (W.contents sink.old) (W.contents sink.new) (number_lines numbers.now) }
    ensures no_fault { OnOk result (W.fault_count sink.new ≡ W.fault_count sink.old) }
    ensures failed { OnErr result (Rose (W.fault_count sink.old) (W.fault_count sink.new)) }
{
    let mut page = Page::new();
    for number in numbers {
        put_line(&mut page, *number);
    }
    write_all(sink, page.text())
}

/// Puts the line of a number behind the bytes of a page.
fn put_line(page: &mut Page<PAGE>, number: i64)
    requires { length page.old + 21 ≤ 8192 }
    ensures text { page.new ≡ page.old ++ (signed_decimal number ++ codes "\n") }
    ensures grown { length page.new ≤ length page.old + 21 }
{
    page.put_number(number);
    page.put(b"\n");
}
