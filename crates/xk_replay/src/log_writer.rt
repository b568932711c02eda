//! The log of a run, written.

ghost use Rattle.std.specs.Prelude.{◌≡◌, ◌++◌, ℕ, List, OnOk, OnErr};
ghost use Rattle.std.specs.Io.KnownBytes.{Appends};
ghost use Rattle.xk_types.specs.declared.world.Entry.{Entry};
ghost use Rattle.xk_types.specs.Device.{Rose};
ghost use Rattle.xk_io.specs.Writing.{AppendsBeginning};
ghost use Rattle.xk_log.specs.LogText.{log_text, IsLog};

use xk_io::Device;
use xk_log::write_entries;
use xk_scheduler::Ended;
use xk_types::Sink;

/// Writes the text of a run's log. Where a write fails, a beginning of it was written. It takes no memory.
pub fn write_log<W: Sink>(ended: &Ended<'_>, sink: &mut W) -> Result<(), Device>
    ensures all { OnOk result
        (Appends (W.contents sink.old) (W.contents sink.new) (log_text ended.now.log.items)) }
    ensures beginning { AppendsBeginning
        (W.contents sink.old) (W.contents sink.new) (log_text ended.now.log.items) }
    ensures no_fault { OnOk result (W.fault_count sink.new ≡ W.fault_count sink.old) }
    ensures failed { OnErr result (Rose (W.fault_count sink.old) (W.fault_count sink.new)) }
    // The text is that of a log, and begins the text of no other.
    ensures is_log { IsLog ended.now.log.items }
    ensures alone { (es : List Entry) (more : List ℕ) → IsLog es
        → log_text ended.now.log.items ++ more ≡ log_text es → es ≡ ended.now.log.items }
{
    // Every core is where a legal schedule of an accepted module leads.
    let _there = ended.core.activities();
    write_entries(&ended.log, sink)
}
