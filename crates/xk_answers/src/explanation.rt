//! What is told of a program on standard output: of a fault beside its line on standard error, of one that is accepted, and its listing.

ghost use Rattle.std.specs.Prelude.{◌≡◌, ℕ, List, [], ◌∷◌, ◌++◌, true, None, Some, option_map, IfOk, OnErr, OnOk};
ghost use Rattle.std.specs.Option.{option_map_or};
ghost use Rattle.xk_types.specs.Acceptance.{IsAccepted};
ghost use Rattle.xk_tree.specs.Program.{tree_value};
ghost use Rattle.xk_explain.specs.Messages.{module_rule};
ghost use Rattle.xk_explain_bounds.specs.Notes.{accepted_notes, module_notes, refusal_notes};
ghost use Rattle.xk_answers.specs.Explanation.{IsProgramListed, accepted_said, acceptance_said, fault_said, front_said, hint_note};
ghost use Rattle.xk_answers.specs.Explanation.{lines_of, module_said, plain_said, refusal_said, source_said, with_hints};
ghost use Rattle.xk_jobs.specs.declared.job.Form.{Form as FormValue};
ghost use Rattle.xk_program.specs.Origins.{IsFrom};
ghost use Rattle.xk_program.specs.declared.fault.Fault.TheVariants as found;

use std::alloc::{AllocError, Global};
use xk_bounds::{Refusal, Verified};
use xk_explain::{
    ModuleRule, Note, SourceText, explain_front, explain_module, explain_refusal, explain_source,
    note_lines, plain_lines,
};
use xk_explain_bounds::{accepted_notes, module_notes, refusal_notes};
use xk_explain_expected::expected_notes;
use xk_explain_faults::{explain_faults, faults_json};
use xk_explain_json::{accepted_json, front_json, module_json, refusal_json, source_json};
use xk_hints::Hint;
use xk_listing::{list_module, list_source};
use xk_messages::accepted_line;
use xk_module::ModuleFault;
use xk_program::{Fault, Program};
use xk_tree::{FrontFault, Tree};
use xk_types::Module;
use xk_unit_origins::{Origins, UnitOrigins};

/// What stands against a job, and what is said of it on standard output.
#[derive(Drop)]
pub struct Refused {
    /// What stands against it.
    pub fault: Fault,
    /// What goes to standard output.
    pub said: Vec<u8>,
}

/// What is known of a program beside its module: where its instructions come from, if it has a text, and the hints on that.
#[derive(Drop)]
pub(crate) struct Reading<'t> {
    /// Where they come from.
    pub(crate) origins: Option<Origins<'t>>,
    /// The hints; none where there is no text.
    pub(crate) hints: Vec<Hint>,
}

/// A fault of which nothing is said on standard output.
pub fn unsaid(alloc: Global, fault: Fault) -> Refused
    ensures fault { result.fault ≡ fault }
    ensures said { result.said.items ≡ [] }
{
    Refused {
        fault,
        said: Vec::new(alloc),
    }
}

/// A fault with what is said of it; or, where memory was refused for that, want of memory.
pub(crate) fn told(alloc: Global, fault: Fault, said: Result<Vec<u8>, AllocError>) -> Refused
    ensures told { IfOk said
        (λ text. (result.fault ≡ fault) × (result.said.items ≡ text.items)) }
    ensures memory { OnErr said
        ((result.fault ≡ found.OutOfMemory) × (result.said.items ≡ [])) }
{
    match said {
        Ok(said) => Refused { fault, said },
        Err(_) => unsaid(alloc, Fault::OutOfMemory),
    }
}

/// What `explain` says of a file that is no module text: as a text, or as a JSON value. Of want of memory nothing is said.
pub(crate) fn module_said(
    alloc: Global,
    json: bool,
    file: &str,
    fault: ModuleFault,
) -> Result<Vec<u8>, AllocError>
    ensures { IfOk result (λ said. said.items
        ≡ option_map_or (module_said json file.now) (module_rule fault) []) }
{
    let Some(rule) = ModuleRule::of(fault) else {
        return Ok(Vec::new(alloc));
    };
    if json {
        return module_json(alloc, file, rule);
    }
    explain_module(alloc, file, rule)
}

/// What it says of a text that spells no tree: with what could stand at the fault.
pub(crate) fn fault_of_text(
    alloc: Global,
    json: bool,
    file: &str,
    bytes: &[u8],
    fault: FrontFault,
) -> Result<Vec<u8>, AllocError>
    ensures { IfOk result
        (λ said. said.items ≡ fault_said json file.now bytes.now fault None) }
{
    let notes = expected_notes(alloc, bytes, fault)?;
    front_said(alloc, json, file, bytes, fault, &notes)
}

/// The same of a text that spells this tree: with what it declares by the name that stands there, and with the faults of names behind.
pub(crate) fn fault_of_tree(
    alloc: Global,
    json: bool,
    file: &str,
    bytes: &[u8],
    tree: &Tree<'_>,
    fault: FrontFault,
) -> Result<Vec<u8>, AllocError>
    ensures { IfOk result (λ said. said.items ≡ fault_said json file.now bytes.now fault
        (Some (tree_value tree.now))) }
{
    if json {
        return faults_json(alloc, file, bytes, tree, fault);
    }
    explain_faults(alloc, file, bytes, tree, fault)
}

/// The same with these notes.
fn front_said(
    alloc: Global,
    json: bool,
    file: &str,
    bytes: &[u8],
    fault: FrontFault,
    notes: &[Note],
) -> Result<Vec<u8>, AllocError>
    ensures { IfOk result
        (λ said. said.items ≡ front_said json file.now bytes.now fault notes.now) }
{
    if json {
        return front_json(alloc, file, bytes, fault, notes);
    }
    explain_front(alloc, file, bytes, fault, notes)
}

/// What it says of a module that the verifier refuses, with where its instructions come from, if that is known.
pub(crate) fn refusal_of_module(
    alloc: Global,
    json: bool,
    file: &str,
    bytes: &[u8],
    m: &Module,
    reading: &Reading<'_>,
    refusal: &Refusal,
) -> Result<Vec<u8>, AllocError>
    ensures { IfOk result (λ said. said.items ≡ refusal_said json file.now bytes.now refusal.now
        (Some (m.now, reading.now.origins))) }
{
    match &reading.origins {
        Some(origins) => refusal_in_source(alloc, json, file, bytes, m, origins, refusal),
        None => refusal_in_module(alloc, json, file, m, refusal),
    }
}

/// The same of a module whose instructions have these origins in a source text.
fn refusal_in_source(
    alloc: Global,
    json: bool,
    file: &str,
    bytes: &[u8],
    m: &Module,
    origins: &Origins<'_>,
    refusal: &Refusal,
) -> Result<Vec<u8>, AllocError>
    ensures { IfOk result (λ said. said.items ≡ source_said json file.now bytes.now refusal.now
        origins.now (refusal_notes m.now origins.now refusal.now)) }
{
    let notes = refusal_notes(alloc, m, origins.units(), refusal)?;
    if json {
        return source_json(alloc, file, bytes, origins.units(), refusal, &notes);
    }
    explain_source(alloc, file, bytes, origins.units(), refusal, &notes)
}

/// The same of a module that has no source text, by units and places.
fn refusal_in_module(
    alloc: Global,
    json: bool,
    file: &str,
    m: &Module,
    refusal: &Refusal,
) -> Result<Vec<u8>, AllocError>
    ensures { IfOk result (λ said. said.items
        ≡ plain_said json file.now refusal.now (module_notes m.now refusal.now)) }
{
    let notes = module_notes(alloc, m, refusal)?;
    if json {
        return refusal_json(alloc, file, refusal, &notes);
    }
    explain_refusal(alloc, file, refusal, &notes)
}

/// Adds a hint as a note.
fn push_hint(alloc: Global, notes: &mut Vec<Note>, hint: &Hint) -> Result<(), AllocError>
    ensures { OnOk result (notes.new.items ≡ notes.old.items ++ hint_note hint.now ∷ []) }
{
    let at = Some(hint.at);
    let text = Vec::from_slice(alloc, &hint.text)?;
    notes.push(Note {
        at,
        text,
        repair: None,
    })?;
    Ok(())
}

/// The notes on an accepted module: what its bounds are made of, and these hints.
fn noted(
    alloc: Global,
    verified: &Verified,
    origins: &[UnitOrigins<'_>],
    hints: &[Hint],
) -> Result<Vec<Note>, AllocError>
    ensures { IfOk result (λ v. v.items
        ≡ with_hints (accepted_notes verified.now origins.now) hints.now) }
{
    let mut notes = accepted_notes(alloc, verified.module(), origins)?;
    for hint in hints {
        push_hint(alloc, &mut notes, hint)?;
    }
    Ok(notes)
}

/// What it says of an accepted module: its bounds, what they are made of, and hints, in the text where its instructions come from, if that is known.
pub(crate) fn acceptance(
    alloc: Global,
    json: bool,
    file: &str,
    bytes: &[u8],
    verified: &Verified,
    reading: &Reading<'_>,
) -> Result<Vec<u8>, AllocError>
    requires { IsAccepted verified.now }
    ensures { IfOk result (λ said. said.items ≡ accepted_said json file.now bytes.now verified.now
        reading.now.hints.items reading.now.origins) }
{
    match &reading.origins {
        Some(origins) => {
            let notes = noted(alloc, verified, origins.units(), &reading.hints)?;
            accepted_said(alloc, json, file, Some(bytes), verified, &notes)
        }
        None => {
            let notes = noted(alloc, verified, &[], &reading.hints)?;
            accepted_said(alloc, json, file, None, verified, &notes)
        }
    }
}

/// The same with these notes, which have their places in this text, if there is one.
fn accepted_said(
    alloc: Global,
    json: bool,
    file: &str,
    text: Option<&[u8]>,
    verified: &Verified,
    notes: &[Note],
) -> Result<Vec<u8>, AllocError>
    requires { IsAccepted verified.now }
    ensures { IfOk result (λ said. said.items ≡ acceptance_said json file.now
        (option_map (λ t. t.now) text.entry) verified.now notes.now) }
{
    if json {
        return accepted_json(
            alloc,
            file,
            text,
            verified.steps(),
            verified.activities(),
            verified.clocks(),
            notes,
        );
    }
    let line = accepted_line(
        alloc,
        verified.steps(),
        verified.activities(),
        verified.clocks(),
    )?;
    let mut said = line.into_bytes();
    said.extend_from_slice(&lines_of(alloc, text, notes)?)?;
    Ok(said)
}

/// The lines of notes, which have their places in this text, if there is one.
fn lines_of(alloc: Global, text: Option<&[u8]>, notes: &[Note]) -> Result<Vec<u8>, AllocError>
    ensures { IfOk result
        (λ said. said.items ≡ lines_of (option_map (λ t. t.now) text.entry) notes.now) }
{
    match text {
        Some(text) => note_lines(alloc, &SourceText::new(alloc, text)?, notes),
        None => plain_lines(alloc, notes),
    }
}

/// The listing of a program.
pub fn listing(alloc: Global, program: Program<'_>) -> Result<Vec<u8>, AllocError>
    ensures { (form : FormValue) (bytes : List ℕ) → IsFrom true form bytes program.entry.from
        → IfOk result (λ said. IsProgramListed form bytes program.entry.module said.items) }
{
    let module = program.module;
    match &program.from.origins {
        Some(origins) => list_source(alloc, program.from.text, origins.units(), module),
        None => list_module(alloc, module),
    }
}
