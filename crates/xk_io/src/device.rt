//! A device that failed, and a whole text for a device.

ghost use Rattle.std.specs.Prelude.{◌≡◌, OnOk, OnErr};
ghost use Rattle.std.specs.Io.KnownBytes.{Appends};
ghost use Rattle.xk_types.specs.Device.{Rose};
ghost use Rattle.xk_io.specs.Writing.{AppendsBeginning};

use thiserror::Error;
use xk_types::{Failed, Sink};

/// A device failed.
#[derive(Clone, Copy, Debug, PartialEq, Eq, Error)]
#[error("a device failed")]
pub struct Device;

impl From<Failed> for Device {
    ghost from_gives = { λ _ _. Unit {0} };

    /// There is one way to fail, so nothing is lost.
    fn from(_e: Failed) -> Device {
        Device
    }
}

/// Writes the whole text, or, where a write fails, a beginning of it.
pub fn write_all<W: Sink>(sink: &mut W, text: &[u8]) -> Result<(), Device>
    ensures all { OnOk result (Appends (W.contents sink.old) (W.contents sink.new) text.now) }
    ensures beginning { AppendsBeginning (W.contents sink.old) (W.contents sink.new) text.now }
    ensures no_fault { OnOk result (W.fault_count sink.new ≡ W.fault_count sink.old) }
    ensures failed { OnErr result (Rose (W.fault_count sink.old) (W.fault_count sink.new)) }
{
    let mut written = 0;
    while written < text.len() {
        written += sink.write(&text[written..])?;
    }
    Ok(())
}
