//! From the bytes of FILE to a program: a module, and where it comes from.

ghost use Rattle.std.specs.Prelude.{◌≡◌, ◌≤◌, Bool, true, length, map, IfOk, OnOk, IfErr, IsUtf8};
ghost use Rattle.xk_names.specs.WellScoped.{IsScoped};
ghost use Rattle.xk_numbering.specs.Recursion.{IsFalling};
ghost use Rattle.xk_program.specs.Faults.{GivesNoModule};
ghost use Rattle.xk_program.specs.Origins.{HaveOrigins, HaveSharedNames, IsFrom};
ghost use Rattle.xk_program.specs.Programs.{Gives, IsNoText, IsSource, IsUnfit, IsUnfitModule, IsUnspelled, longest_source};
ghost use Rattle.xk_tree.specs.Program.{tree_value};
ghost use Rattle.xk_jobs.specs.declared.job.Form.TheVariants as form;

use crate::fault::Fault;
use crate::shared_names::shared_names;
use std::alloc::{AllocError, Global};
use xk_codegen::compile;
use xk_jobs::Form;
use xk_module::{ModuleFault, read_module};
use xk_origins::origins;
use xk_syntax::parse;
use xk_tree::{FrontError, FrontFault, FrontRule, Tree};
use xk_types::Module;
use xk_unit_origins::Origins;

/// The most bytes that a source text has.
pub(crate) const LONGEST_SOURCE: usize = 1_048_576;

/// The most bytes that a module's text has: more than twice what the greatest module's text has without white space.
pub(crate) const LONGEST_MODULE: usize = 268_435_456;

/// Where a module comes from: its text, and the origins of its instructions in it and the names of its shared numbers,
/// if they were asked for. A module text says nothing of these.
#[derive(Drop)]
pub struct Provenance<'t> {
    /// The bytes of FILE.
    pub text: &'t [u8],
    /// The origins, unit by unit.
    pub origins: Option<Origins<'t>>,
    /// The names of shared numbers, in their order.
    pub shared: Vec<&'t [u8]>,
}

/// A program.
#[derive(Drop)]
pub struct Program<'t> {
    /// The module that the bytes of FILE give.
    pub module: Module,
    /// Where it comes from.
    pub from: Provenance<'t>,
}

/// The program that these bytes give, as a source text or as a module text, with its origins where they are asked for: the text is read and compiled
/// once for both. Err with what stands against it where they give none, or where memory was refused.
pub fn program_by<'t>(
    alloc: Global,
    form: Form,
    has_origins: bool,
    bytes: &'t [u8],
) -> Result<Program<'t>, Fault>
    ensures module { IfOk result (λ p. Gives form bytes.now p.module) }
    ensures from { IfOk result (λ p. IsFrom has_origins form bytes.now p.from) }
    ensures fault { IfErr result (GivesNoModule form bytes.now) }
{
    match form {
        Form::Module => Ok(module_program(alloc, bytes)?),
        Form::Source => Ok(source_program(alloc, has_origins, bytes)?),
    }
}

/// The program of a module text.
fn module_program(alloc: Global, bytes: &[u8]) -> Result<Program<'_>, ModuleFault>
    ensures module { IfOk result (λ p. Gives form.Module bytes.now p.module) }
    ensures from { (has_origins : Bool)
        → IfOk result (λ p. IsFrom has_origins form.Module bytes.now p.from) }
    ensures fault { IfErr result (IsUnfitModule bytes.now) }
{
    let module = module_of(alloc, bytes)?;
    Ok(Program {
        module,
        from: Provenance {
            text: bytes,
            origins: None,
            shared: Vec::new(alloc),
        },
    })
}

/// The module of a module text. Bytes that are too many count as beyond the limits.
pub fn module_of(alloc: Global, bytes: &[u8]) -> Result<Module, ModuleFault>
    ensures module { IfOk result (Gives form.Module bytes.now) }
    ensures fault { IfErr result (IsUnfitModule bytes.now) }
{
    if bytes.len() > LONGEST_MODULE {
        return Err(ModuleFault::Limit);
    }
    read_module(alloc, bytes)
}

/// The program of a source text.
fn source_program(alloc: Global, has_origins: bool, bytes: &[u8]) -> Result<Program<'_>, FrontError>
    ensures module { IfOk result (λ p. Gives form.Source bytes.now p.module) }
    ensures from { IfOk result (λ p. IsFrom has_origins form.Source bytes.now p.from) }
    ensures fault { IfErr result (IsUnfit bytes.now) }
{
    match tree_of(alloc, bytes) {
        Ok(tree) => tree_program(alloc, has_origins, bytes, &tree),
        Err(e) => Err(e),
    }
}

/// The program that goes with the tree of a source text. Nothing is kept of the tree.
fn tree_program<'t>(
    alloc: Global,
    has_origins: bool,
    bytes: &'t [u8],
    tree: &Tree<'t>,
) -> Result<Program<'t>, FrontError>
    requires source { IsSource bytes.now (tree_value tree.now) }
    ensures module { IfOk result (λ p. Gives form.Source bytes.now p.module) }
    ensures from { IfOk result (λ p. IsFrom has_origins form.Source bytes.now p.from) }
    ensures fault { IfErr result (IsUnfit bytes.now) }
{
    let module = compile(alloc, tree)?;
    let origins = origins_if(alloc, has_origins, bytes, tree)?;
    let shared = shared_names_if(alloc, has_origins, bytes, tree)?;
    Ok(Program {
        module,
        from: Provenance {
            text: bytes,
            origins,
            shared,
        },
    })
}

/// The origins of the instructions that the tree of these bytes is compiled to, where they are asked for.
fn origins_if<'t>(
    alloc: Global,
    has_origins: bool,
    bytes: &[u8],
    tree: &Tree<'t>,
) -> Result<Option<Origins<'t>>, AllocError>
    requires source { IsSource bytes.now (tree_value tree.now) }
    requires scoped { IsScoped (tree_value tree.now) }
    requires falls { IsFalling (tree_value tree.now) }
    ensures { has_origins ≡ true → IfOk result (HaveOrigins form.Source bytes.now) }
{
    // For the clauses alone, which say that the tree is that of these bytes.
    let _bytes = bytes;
    if has_origins {
        return Ok(Some(origins(alloc, tree)?));
    }
    Ok(None)
}

/// The names of the shared numbers of the tree of these bytes, where they are asked for.
fn shared_names_if<'t>(
    alloc: Global,
    has_origins: bool,
    bytes: &[u8],
    tree: &Tree<'t>,
) -> Result<Vec<&'t [u8]>, AllocError>
    requires source { IsSource bytes.now (tree_value tree.now) }
    ensures { has_origins ≡ true → IfOk result
        (λ v. HaveSharedNames form.Source bytes.now (map (λ x. x.now) v.items)) }
{
    // For the clauses alone, which say that the tree is that of these bytes.
    let _bytes = bytes;
    if !has_origins {
        return Ok(Vec::new(alloc));
    }
    shared_names(alloc, &tree.shared)
}

/// The tree of a source text.
pub fn tree_of(alloc: Global, bytes: &[u8]) -> Result<Tree<'_>, FrontError>
    ensures tree { IfOk result (λ tree. IsSource bytes.now (tree_value tree)) }
    ensures fault { IfErr result (IsUnspelled bytes.now) }
{
    let text = text_of(bytes)?;
    parse(alloc, text)
}

/// The bytes as text: they are UTF-8, and not too many.
fn text_of(bytes: &[u8]) -> Result<&str, FrontFault>
    ensures text { IfOk result (λ text. text.now ≡ bytes.now) }
    ensures short { OnOk result (length bytes.now ≤ longest_source) }
    ensures utf8 { OnOk result (IsUtf8 bytes.now) }
    ensures fault { IfErr result (IsNoText bytes.now) }
{
    if bytes.len() > LONGEST_SOURCE {
        return Err(FrontFault {
            rule: FrontRule::TooLong,
            at: 0,
        });
    }
    match str::from_utf8(bytes) {
        Ok(text) => Ok(text),
        Err(e) => Err(FrontFault {
            rule: FrontRule::Token,
            at: e.valid_up_to(),
        }),
    }
}
