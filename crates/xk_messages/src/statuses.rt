//! The statuses of faults.

ghost use Rattle.std.specs.Prelude.{◌≡◌};
ghost use Rattle.xk_module.specs.Faults.{fault_label};
ghost use Rattle.xk_messages.specs.Lines.{label_status, refusal_status};

use xk_bounds::Refusal;
use xk_jobs::status;
use xk_module::ModuleFault;

/// The status of a fault of the module text.
pub fn label_status(fault: ModuleFault) -> u8
    ensures { result ≡ label_status (fault_label fault) }
{
    match fault.label() {
        Some(_) => status::PROGRAM,
        None => status::MEMORY,
    }
}

/// The status of a refusal.
pub fn refusal_status(refusal: &Refusal) -> u8
    ensures { result ≡ refusal_status refusal.now }
{
    match refusal {
        Refusal::Shape(_) | Refusal::Kind(_) | Refusal::Bound(_) => status::PROGRAM,
        Refusal::OutOfMemory => status::MEMORY,
    }
}
