//! Groups of members that several values have.

ghost use Rattle.std.specs.Prelude.{[], ◌∷◌, ◌≤◌, codes, length, OnOk};
ghost use Rattle.serde_json.specs.Data.{boolean};
ghost use Rattle.xk_explain_json.specs.Explanations.{end_members, front_repair_member, instruction_members, limit_member, place_members};
ghost use Rattle.xk_explain_json.specs.Explanations.{position_members};
ghost use Rattle.xk_explain_json.specs.Explanations.{refused, refused_by, refused_by_front, refused_by_module, slot_members};
ghost use Rattle.xk_json.specs.Objects.{Gains};

use serde_json::Value;
use std::alloc::{AllocError, Global};
use xk_explain::{
    ModuleRule, Note, SourceText, front_message, kind_message, module_message, module_repair,
    repair_of, rule_repair, shown_at,
};
use xk_json::Object;
use xk_lines::Position;
use xk_tree::FrontFault;
use xk_types::{Kind, Rule};

/// Adds whether the program is accepted.
pub(crate) fn put_accepted(
    alloc: Global,
    object: &mut Object,
    accepted: bool,
) -> Result<(), AllocError>
    ensures { OnOk result
        (Gains ((codes "accepted", boolean accepted) ∷ []) object.old object.new) }
{
    object.put(alloc, "accepted", Value::from(accepted))
}

/// Adds a refusal: by which rule, and what is wrong.
fn put_refused(
    alloc: Global,
    object: &mut Object,
    file: &str,
    rule: &str,
    name: &str,
    message: &str,
) -> Result<(), AllocError>
    ensures { OnOk result
        (Gains (refused file.now rule.now name.now message.now) object.old object.new) }
{
    put_accepted(alloc, object, false)?;
    object.put_text(alloc, "file", file)?;
    object.put_text(alloc, "message", message)?;
    object.put_text(alloc, "name", name)?;
    object.put_text(alloc, "rule", rule)
}

/// Adds a fault of a source text.
pub(crate) fn put_refused_by_front(
    alloc: Global,
    object: &mut Object,
    file: &str,
    fault: FrontFault,
) -> Result<(), AllocError>
    ensures { OnOk result (Gains (refused_by_front file.now fault) object.old object.new) }
{
    let rule = fault.rule;
    let number = rule.number();
    let title = format!(in alloc; "F{number}")?;
    put_refused(
        alloc,
        object,
        file,
        title.as_str(),
        rule.name(),
        front_message(rule),
    )
}

/// Adds the repair of a fault of a source text, with these notes.
pub(crate) fn put_front_repair(
    alloc: Global,
    object: &mut Object,
    text: &[u8],
    fault: FrontFault,
    notes: &[Note],
) -> Result<(), AllocError>
    ensures { OnOk result
        (Gains (front_repair_member text.now fault notes.now) object.old object.new) }
{
    let repair = repair_of(alloc, text, fault.rule, shown_at(text, fault), notes)?;
    object.put_bytes(alloc, "repair", repair)
}

/// Adds a refusal by a rule on module texts.
pub(crate) fn put_refused_by_module(
    alloc: Global,
    object: &mut Object,
    file: &str,
    rule: ModuleRule,
) -> Result<(), AllocError>
    ensures { OnOk result (Gains (refused_by_module file.now rule) object.old object.new) }
{
    let number = rule.number();
    let title = format!(in alloc; "M{number}")?;
    put_refused(
        alloc,
        object,
        file,
        title.as_str(),
        rule.name(),
        module_message(rule),
    )?;
    object.put_text(alloc, "repair", module_repair(rule))
}

/// Adds a refusal by a rule of the verifier, with what is wrong.
pub(crate) fn put_refused_by(
    alloc: Global,
    object: &mut Object,
    file: &str,
    rule: Rule,
    message: &str,
) -> Result<(), AllocError>
    ensures { OnOk result
        (Gains (refused_by file.now rule message.now) object.old object.new) }
{
    let number = rule.number();
    let title = format!(in alloc; "V{number}")?;
    put_refused(alloc, object, file, title.as_str(), rule.name(), message)?;
    object.put_text(alloc, "repair", rule_repair(rule))
}

/// Adds a line and a column.
pub(crate) fn put_position(
    alloc: Global,
    object: &mut Object,
    position: Position,
) -> Result<(), AllocError>
    ensures { OnOk result (Gains (position_members position) object.old object.new) }
{
    object.put_number(alloc, "column", position.column as u64)?;
    object.put_number(alloc, "line", position.line as u64)
}

/// Adds where what is marked ends.
fn put_end(alloc: Global, object: &mut Object, position: Position) -> Result<(), AllocError>
    ensures { OnOk result (Gains (end_members position) object.old object.new) }
{
    object.put_number(alloc, "end_column", position.column as u64)?;
    object.put_number(alloc, "end_line", position.line as u64)
}

/// Adds where an offset of a text lies, and where that ends which carets mark from there on.
pub(crate) fn put_place(
    alloc: Global,
    object: &mut Object,
    source: &SourceText<'_>,
    at: usize,
) -> Result<(), AllocError>
    requires { at ≤ length source.now }
    ensures { OnOk result (Gains (place_members source.now at) object.old object.new) }
{
    put_position(alloc, object, source.lines().position(at))?;
    put_end(alloc, object, source.lines().position(source.mark_end(at)))
}

/// Adds an instruction, by its unit and place.
pub(crate) fn put_instruction(
    alloc: Global,
    object: &mut Object,
    unit: u16,
    at: u16,
) -> Result<(), AllocError>
    ensures { OnOk result (Gains (instruction_members unit at) object.old object.new) }
{
    object.put_number(alloc, "place", at as u64)?;
    object.put_number(alloc, "unit", unit as u64)
}

/// Adds a slot, and what it may hold.
pub(crate) fn put_slot(
    alloc: Global,
    object: &mut Object,
    slot: u16,
    kind: Kind,
) -> Result<(), AllocError>
    ensures { OnOk result (Gains (slot_members slot kind) object.old object.new) }
{
    object.put_text(alloc, "holds", kind_message(kind))?;
    object.put_text(alloc, "kind", kind.name())?;
    object.put_number(alloc, "slot", slot as u64)
}

/// Adds the most that a rule on sums allows.
pub(crate) fn put_limit(alloc: Global, object: &mut Object, limit: u64) -> Result<(), AllocError>
    ensures { OnOk result (Gains (limit_member limit) object.old object.new) }
{
    object.put_number(alloc, "limit", limit)
}
