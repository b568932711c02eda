//! What `explain` comes to. A source text is read once and compiled once: its tree tells what it declares, and where its instructions come from.

ghost use Rattle.std.specs.Prelude.{ℕ, ℤ, List, Some, IfOk, IfErr};
ghost use Rattle.xk_types.specs.Code.{ModuleValue};
ghost use Rattle.xk_tree.specs.Program.{tree_value};
ghost use Rattle.xk_jobs.specs.declared.job.Form.{Form as FormValue};
ghost use Rattle.xk_jobs.specs.declared.job.Form.TheVariants as form;
ghost use Rattle.xk_answers.specs.Results.{Explain, IsTelling, IsText};
ghost use Rattle.xk_program.specs.Refusals.{IsRefusal};
ghost use Rattle.xk_answers.specs.Refusals.{IsUnaccepted};
ghost use Rattle.xk_program.specs.Origins.{GiveProgram, HaveOrigins};
ghost use Rattle.xk_answers.specs.Explanation.{HaveHints, IsExplanation};
ghost use Rattle.xk_program.specs.Faults.{GivesNoModule};
ghost use Rattle.xk_program.specs.Programs.{Gives, IsSource};

use crate::explanation::{
    Reading, Refused, acceptance, fault_of_text, fault_of_tree, module_said, refusal_of_module,
    told, unsaid,
};
use crate::job_result::Done;
use std::alloc::{AllocError, Global};
use xk_bounds::verify;
use xk_codegen::compile;
use xk_hints::hints;
use xk_jobs::Form;
use xk_origins::origins;
use xk_program::{Fault, module_of, tree_of};
use xk_tree::{FrontError, Tree};
use xk_types::Module;
use xk_unit_origins::Origins;

/// What `explain` says, as a text or as a JSON value, of an accepted module that these bytes give, which are such a text. Else what stands against
/// that: a fault of the text (F1 to F15, M1 to M3) or of its module (V1 to V17), with what is said of it, or want of memory.
pub fn explained(
    alloc: Global,
    json: bool,
    form: Form,
    file: &str,
    bytes: &[u8],
) -> Result<Done, Refused>
    ensures done { (args : List ℤ) (logged : List ℕ) → IfOk result
        (λ d. (m : ModuleValue) × Gives form bytes.now m
        × IsText (IsTelling (Explain json) form file.now bytes.now m args logged) d) }
    ensures fault { IfErr result (λ r. IsUnaccepted form bytes.now r.fault) }
    ensures said { IfErr result
        (λ r. IsExplanation json form file.now bytes.now r.fault r.said.items) }
{
    match program_by(alloc, json, form, file, bytes) {
        Ok((m, reading)) => verdict_on(alloc, json, file, bytes, m, &reading),
        Err(refused) => Err(refused),
    }
}

/// The program that these bytes give, which are such a text: its module, and of a source text where its instructions come from, and hints.
fn program_by<'t>(
    alloc: Global,
    json: bool,
    form: Form,
    file: &str,
    bytes: &'t [u8],
) -> Result<(Module, Reading<'t>), Refused>
    ensures program { IfOk result (λ p. GiveProgram form bytes.now (Some (p.0, p.1.origins))) }
    ensures hints { IfOk result (λ p. HaveHints form bytes.now p.1.hints.items) }
    ensures fault { IfErr result (λ r. GivesNoModule form bytes.now r.fault) }
    ensures said { IfErr result
        (λ r. IsExplanation json form file.now bytes.now r.fault r.said.items) }
{
    match form {
        Form::Module => match module_of(alloc, bytes) {
            Ok(m) => {
                let hints = Vec::new(alloc);
                let reading = Reading {
                    origins: None,
                    hints,
                };
                Ok((m, reading))
            }
            Err(fault) => {
                let said = module_said(alloc, json, file, fault);
                Err(told(alloc, Fault::from(fault), said))
            }
        },
        Form::Source => program_of_text(alloc, json, file, bytes),
    }
}

/// The program of a source text. Nothing is kept of its tree.
fn program_of_text<'t>(
    alloc: Global,
    json: bool,
    file: &str,
    bytes: &'t [u8],
) -> Result<(Module, Reading<'t>), Refused>
    ensures module { IfOk result (λ p. Gives form.Source bytes.now p.0) }
    ensures origins { IfOk result (λ p. HaveOrigins form.Source bytes.now p.1.origins) }
    ensures hints { IfOk result (λ p. HaveHints form.Source bytes.now p.1.hints.items) }
    ensures fault { IfErr result (λ r. GivesNoModule form.Source bytes.now r.fault) }
    ensures said { IfErr result
        (λ r. IsExplanation json form.Source file.now bytes.now r.fault r.said.items) }
{
    match tree_of(alloc, bytes) {
        Ok(tree) => program_of_tree(alloc, json, file, bytes, &tree),
        Err(FrontError::Fault(fault)) => {
            let said = fault_of_text(alloc, json, file, bytes, fault);
            Err(told(alloc, Fault::Front(fault), said))
        }
        Err(FrontError::OutOfMemory) => Err(unsaid(alloc, Fault::OutOfMemory)),
    }
}

/// The same of the tree of a source text.
fn program_of_tree<'t>(
    alloc: Global,
    json: bool,
    file: &str,
    bytes: &[u8],
    tree: &Tree<'t>,
) -> Result<(Module, Reading<'t>), Refused>
    requires source { IsSource bytes.now (tree_value tree.now) }
    ensures module { IfOk result (λ p. Gives form.Source bytes.now p.0) }
    ensures origins { IfOk result (λ p. HaveOrigins form.Source bytes.now p.1.origins) }
    ensures hints { IfOk result (λ p. HaveHints form.Source bytes.now p.1.hints.items) }
    ensures fault { IfErr result (λ r. GivesNoModule form.Source bytes.now r.fault) }
    ensures said { IfErr result
        (λ r. IsExplanation json form.Source file.now bytes.now r.fault r.said.items) }
{
    match compile(alloc, tree) {
        Ok(m) => match origins(alloc, tree) {
            Ok(origins) => match reading_of(alloc, bytes, tree, origins) {
                Ok(reading) => Ok((m, reading)),
                Err(_) => Err(unsaid(alloc, Fault::OutOfMemory)),
            },
            Err(_) => Err(unsaid(alloc, Fault::OutOfMemory)),
        },
        Err(FrontError::Fault(fault)) => {
            let said = fault_of_tree(alloc, json, file, bytes, tree, fault);
            Err(told(alloc, Fault::Front(fault), said))
        }
        Err(FrontError::OutOfMemory) => Err(unsaid(alloc, Fault::OutOfMemory)),
    }
}

/// What is known of a source text beside its module, where its instructions come from there, and hints on its tree.
fn reading_of<'t>(
    alloc: Global,
    bytes: &[u8],
    tree: &Tree<'t>,
    origins: Origins<'t>,
) -> Result<Reading<'t>, AllocError>
    requires source { IsSource bytes.now (tree_value tree.now) }
    requires origins { HaveOrigins form.Source bytes.now (Some origins) }
    ensures origins { IfOk result (λ r. HaveOrigins form.Source bytes.now r.origins) }
    ensures hints { IfOk result (λ r. HaveHints form.Source bytes.now r.hints.items) }
{
    let hints = hints(alloc, tree)?;
    let origins = Some(origins);
    Ok(Reading { origins, hints })
}

/// What `explain` says of this program, if it is accepted.
fn verdict_on(
    alloc: Global,
    json: bool,
    file: &str,
    bytes: &[u8],
    m: Module,
    reading: &Reading<'_>,
) -> Result<Done, Refused>
    ensures done { (kind : FormValue) (args : List ℤ) (logged : List ℕ)
        → HaveOrigins kind bytes.now reading.now.origins
        → HaveHints kind bytes.now reading.now.hints.items → IfOk result
        (IsText (IsTelling (Explain json) kind file.now bytes.now m args logged)) }
    ensures fault { IfErr result (λ r. IsRefusal m r.fault) }
    ensures said { (kind : FormValue)
        → GiveProgram kind bytes.now (Some (m, reading.now.origins))
        → IfErr result (λ r. IsExplanation json kind file.now bytes.now r.fault r.said.items) }
{
    match verify(alloc, m) {
        Ok(verified) => match acceptance(alloc, json, file, bytes, &verified, reading) {
            Ok(text) => Ok(Done::Told { text, whole: true }),
            Err(_) => Err(unsaid(alloc, Fault::OutOfMemory)),
        },
        Err((m, refusal)) => {
            let said = refusal_of_module(alloc, json, file, bytes, &m, reading, &refusal);
            Err(told(alloc, Fault::from((m, refusal)), said))
        }
    }
}
