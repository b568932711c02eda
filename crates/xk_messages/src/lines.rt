//! Programs, runs and faults, a line each.

ghost use Rattle.std.specs.Prelude.{◌≡◌, IfOk, string_bytes};
ghost use Rattle.xk_module.specs.Faults.{fault_label};
ghost use Rattle.xk_messages.specs.Lines.{accepted_line, arguments_line, bound_text, ended_line, front_text, grammar_line, kind_text, label_line, line, local_line, log_end_line, no_outcome_line, not_enabled_line, place_text, refusal_line, rounds_line, rule_text, walk_text};

use std::alloc::{AllocError, Global};
use xk_bounds::{BoundFault, KindFault, Refusal};
use xk_module::ModuleFault;
use xk_tree::FrontFault;
use xk_types::{Rule, Visit};

/// The line of want of memory.
pub const MEMORY_LINE: &str = "x10clock: out of memory\n";

/// A line of the program's own. Err where memory was refused.
pub fn line(alloc: Global, text: &str) -> Result<String, AllocError>
    ensures { IfOk result (λ whole. string_bytes whole ≡ line text.now) }
{
    format!(in alloc; "x10clock: {text}\n")
}

/// `F10 Recursive at 10`. Err where memory was refused.
pub fn front_text(alloc: Global, fault: FrontFault) -> Result<String, AllocError>
    ensures { IfOk result (λ text. string_bytes text ≡ front_text fault) }
{
    let number = fault.number();
    let name = fault.name();
    let at = fault.offset();
    format!(in alloc; "F{number} {name} at {at}")
}

/// The line of a fault of the module text. Err where memory was refused.
pub fn label_line(alloc: Global, fault: ModuleFault) -> Result<String, AllocError>
    ensures { IfOk result (λ text. string_bytes text ≡ label_line (fault_label fault)) }
{
    match fault.label() {
        Some(label) => line(alloc, label),
        None => String::from_str(alloc, MEMORY_LINE),
    }
}

/// The line of a refusal. Err where memory was refused.
pub fn refusal_line(alloc: Global, refusal: &Refusal) -> Result<String, AllocError>
    ensures { IfOk result (λ text. string_bytes text ≡ refusal_line refusal.now) }
{
    match refusal {
        Refusal::Shape(fault) => {
            let text = place_text(alloc, fault.rule, fault.unit, fault.at)?;
            line(alloc, text.as_str())
        }
        Refusal::Kind(fault) => line(alloc, kind_text(alloc, fault)?.as_str()),
        Refusal::Bound(fault) => line(alloc, bound_text(alloc, fault)?.as_str()),
        Refusal::OutOfMemory => String::from_str(alloc, MEMORY_LINE),
    }
}

/// `A1 Arguments wants 1 has 0`. Err where memory was refused.
pub fn arguments_line(alloc: Global, wants: u32, has: usize) -> Result<String, AllocError>
    ensures { IfOk result (λ text. string_bytes text ≡ arguments_line wants has) }
{
    line(
        alloc,
        format!(in alloc; "A1 Arguments wants {wants} has {has}")?.as_str(),
    )
}

/// `L1 Grammar line 2`. Err where memory was refused.
pub fn grammar_line(alloc: Global, number: u64) -> Result<String, AllocError>
    ensures { IfOk result (λ text. string_bytes text ≡ grammar_line number) }
{
    line(
        alloc,
        format!(in alloc; "L1 Grammar line {number}")?.as_str(),
    )
}

/// `L6 NoOutcome line 3`. Err where memory was refused.
pub fn no_outcome_line(alloc: Global, number: u64) -> Result<String, AllocError>
    ensures { IfOk result (λ text. string_bytes text ≡ no_outcome_line number) }
{
    line(
        alloc,
        format!(in alloc; "L6 NoOutcome line {number}")?.as_str(),
    )
}

/// `L4 NotEnabled entry 3`. Err where memory was refused.
pub fn not_enabled_line(alloc: Global, entry: u64) -> Result<String, AllocError>
    ensures { IfOk result (λ text. string_bytes text ≡ not_enabled_line entry) }
{
    line(
        alloc,
        format!(in alloc; "L4 NotEnabled entry {entry}")?.as_str(),
    )
}

/// `V9 Registers`.
fn rule_text(alloc: Global, rule: Rule) -> Result<String, AllocError>
    ensures { IfOk result (λ text. string_bytes text ≡ rule_text rule) }
{
    let number = rule.number();
    let name = rule.name();
    format!(in alloc; "V{number} {name}")
}

/// `V9 Registers unit 0 at 2`.
fn place_text(alloc: Global, rule: Rule, unit: u16, at: u16) -> Result<String, AllocError>
    ensures { IfOk result (λ text. string_bytes text ≡ place_text rule unit at) }
{
    let rule = rule_text(alloc, rule)?;
    format!(in alloc; "{rule} unit {unit} at {at}")
}

/// `V12 Held unit 0 at 3 slot 0 live walk 0 1 2 3`.
fn kind_text(alloc: Global, fault: &KindFault) -> Result<String, AllocError>
    ensures { IfOk result (λ text. string_bytes text ≡ kind_text fault.now) }
{
    let place = place_text(alloc, fault.rule, fault.unit, fault.at)?;
    let slot = fault.slot;
    let kind = fault.kind.name();
    let walk = walk_text(alloc, &fault.walk)?;
    format!(in alloc; "{place} slot {slot} {kind} walk{walk}")
}

/// The instructions of a walk, each after a blank.
fn walk_text(alloc: Global, walk: &[Visit]) -> Result<String, AllocError>
    ensures { IfOk result (λ text. string_bytes text ≡ walk_text walk.now) }
{
    let mut text = String::new(alloc);
    for visit in walk {
        let at = visit.at;
        text.push_str(format!(in alloc; " {at}")?.as_str())?;
    }
    Ok(text)
}

/// `V14 Steps over 1000000000`.
fn bound_text(alloc: Global, fault: &BoundFault) -> Result<String, AllocError>
    ensures { IfOk result (λ text. string_bytes text ≡ bound_text fault.now) }
{
    let rule = rule_text(alloc, fault.rule)?;
    let limit = fault.limit;
    format!(in alloc; "{rule} over {limit}")
}

/// `accepted steps 8 activities 1 clocks 1`. Err where memory was refused.
pub fn accepted_line(
    alloc: Global,
    steps: u64,
    activities: u32,
    clocks: u32,
) -> Result<String, AllocError>
    ensures { IfOk result (λ text. string_bytes text ≡ accepted_line steps activities clocks) }
{
    format!(in alloc; "accepted steps {steps} activities {activities} clocks {clocks}\n")
}

/// `ended steps 8`. Err where memory was refused.
pub fn ended_line(alloc: Global, steps: u64) -> Result<String, AllocError>
    ensures { IfOk result (λ text. string_bytes text ≡ ended_line steps) }
{
    format!(in alloc; "ended steps {steps}\n")
}

/// `ended steps 8 rounds 3`. Err where memory was refused.
pub fn rounds_line(alloc: Global, steps: u64, rounds: u64) -> Result<String, AllocError>
    ensures { IfOk result (λ text. string_bytes text ≡ rounds_line steps rounds) }
{
    format!(in alloc; "ended steps {steps} rounds {rounds}\n")
}

/// `the log ends after step 8`. Err where memory was refused.
pub fn log_end_line(alloc: Global, steps: u64) -> Result<String, AllocError>
    ensures { IfOk result (λ text. string_bytes text ≡ log_end_line steps) }
{
    format!(in alloc; "the log ends after step {steps}\n")
}

/// `no other activity can see step 3: see events`. Err where memory was refused.
pub fn local_line(alloc: Global, step: u64) -> Result<String, AllocError>
    ensures { IfOk result (λ text. string_bytes text ≡ local_line step) }
{
    format!(in alloc; "no other activity can see step {step}: see events\n")
}
