//! Writing a log.

ghost use Rattle.std.specs.Prelude.{◌≡◌, ◌+◌, ◌≤◌, ◌++◌, OnOk, OnErr, length};
ghost use Rattle.std.specs.Io.KnownBytes.{Appends};
ghost use Rattle.xk_types.specs.Device.{Rose};
ghost use Rattle.xk_io.specs.Writing.{AppendsBeginning};
ghost use Rattle.xk_log.specs.LogText.{ended, entry_line, end_line, entry_lines, log_text};

use xk_io::{Device, Page, write_all};
use xk_types::{Entry, Sink};

/// How many bytes a page of a log has room for.
const PAGE: usize = 4096;

/// How many entries are written at a time: their lines fit a page.
const AT_A_TIME: usize = 90;

/// Writes the text of the log of these entries. Where a write fails, a beginning of it was written.
pub fn write_entries<W: Sink>(entries: &[Entry], sink: &mut W) -> Result<(), Device>
    ensures all { OnOk result
        (Appends (W.contents sink.old) (W.contents sink.new) (log_text entries.now)) }
    ensures beginning { AppendsBeginning
        (W.contents sink.old) (W.contents sink.new) (log_text entries.now) }
    ensures no_fault { OnOk result (W.fault_count sink.new ≡ W.fault_count sink.old) }
    ensures failed { OnErr result (Rose (W.fault_count sink.old) (W.fault_count sink.new)) }
{
    write_all(sink, b"x10log 1\n")?;
    let mut done = 0;
    while done < entries.len() {
        let next = entries.len().min(done + AT_A_TIME);
        write_some(sink, &entries[done..next])?;
        done = next;
    }
    write_end(sink, entries.len() as u64)
}

/// Writes the lines of some entries.
fn write_some<W: Sink>(sink: &mut W, entries: &[Entry]) -> Result<(), Device>
    requires { length entries.now ≤ 90 }
    ensures all { OnOk result
        (Appends (W.contents sink.old) (W.contents sink.new) (entry_lines entries.now)) }
    ensures beginning { AppendsBeginning
        (W.contents sink.old) (W.contents sink.new) (entry_lines entries.now) }
    ensures no_fault { OnOk result (W.fault_count sink.new ≡ W.fault_count sink.old) }
    ensures failed { OnErr result (Rose (W.fault_count sink.old) (W.fault_count sink.new)) }
{
    let mut page = Page::new();
    for entry in entries {
        put_entry(&mut page, *entry);
    }
    write_all(sink, page.text())
}

/// Writes the last line of a log of so many entries.
fn write_end<W: Sink>(sink: &mut W, entries: u64) -> Result<(), Device>
    ensures all { OnOk result
        (Appends (W.contents sink.old) (W.contents sink.new) (ended (end_line entries))) }
    ensures beginning { AppendsBeginning
        (W.contents sink.old) (W.contents sink.new) (ended (end_line entries)) }
    ensures no_fault { OnOk result (W.fault_count sink.new ≡ W.fault_count sink.old) }
    ensures failed { OnErr result (Rose (W.fault_count sink.old) (W.fault_count sink.new)) }
{
    let mut page = Page::new();
    put_end(&mut page, entries);
    write_all(sink, page.text())
}

/// Puts the line of an entry behind the bytes of a page.
fn put_entry(page: &mut Page<PAGE>, entry: Entry)
    requires { length page.old + 42 ≤ 4096 }
    ensures text { page.new ≡ page.old ++ ended (entry_line entry) }
    ensures grown { length page.new ≤ length page.old + 42 }
{
    page.put_number(u64::from(entry.act));
    page.put(b" ");
    page.put_number(u64::from(entry.steps));
    page.put(b"\n");
}

/// Puts the last line of a log of so many entries behind them.
fn put_end(page: &mut Page<PAGE>, entries: u64)
    requires { length page.old + 25 ≤ 4096 }
    ensures { page.new ≡ page.old ++ ended (end_line entries) }
{
    page.put(b"end ");
    page.put_number(entries);
    page.put(b"\n");
}
