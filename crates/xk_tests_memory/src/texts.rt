//! Source texts are parsed, compiled and written as modules; each call tried again where memory was refused.

use crate::modules::{Wrong, holds};
use std::alloc::{AllocError, Global};
use xk_codegen::compile;
use xk_module::write_module;
use xk_syntax::parse;
use xk_tree::{FrontError, Tree};
use xk_types::Module;

/// The tree that a text spells, at the second try where memory was refused.
fn parsed<'t>(alloc: Global, text: &'t str) -> Result<Tree<'t>, FrontError> {
    match parse(alloc, text) {
        Err(FrontError::OutOfMemory) => parse(alloc, text),
        answer => answer,
    }
}

/// The module that a tree is compiled to, at the second try where memory was refused.
fn compiled(alloc: Global, tree: &Tree<'_>) -> Result<Module, FrontError> {
    match compile(alloc, tree) {
        Err(FrontError::OutOfMemory) => compile(alloc, tree),
        answer => answer,
    }
}

/// The text of a module, at the second try where memory was refused.
fn written(alloc: Global, program: &Module) -> Result<String, AllocError> {
    match write_module(alloc, program) {
        Err(_) => write_module(alloc, program),
        answer => answer,
    }
}

/// A text was refused for a rule that it breaks.
fn is_refused(fault: FrontError, has_module: bool) -> Result<(), Wrong> {
    holds(
        !has_module && fault != FrontError::OutOfMemory,
        "a text isn't compiled at the second try",
    )
}

/// A text was compiled, and its module is written; or it was refused.
fn is_right(
    alloc: Global,
    answer: &Result<Module, FrontError>,
    has_module: bool,
) -> Result<(), Wrong> {
    match answer {
        Ok(program) => {
            holds(has_module, "a text is compiled that breaks a rule")?;
            holds(
                written(alloc, program).is_ok(),
                "a module isn't written at the second try",
            )
        }
        Err(fault) => is_refused(*fault, has_module),
    }
}

/// A tree is compiled, and its module written; or it is refused.
fn is_tree_compiled(alloc: Global, tree: &Tree<'_>, has_module: bool) -> Result<(), Wrong> {
    let answer = compiled(alloc, tree);
    is_right(alloc, &answer, has_module)
}

/// A text is parsed, compiled, and its module written; or it is refused for a rule that it breaks.
pub fn is_compiled(alloc: Global, text: &str, has_module: bool) -> Result<(), Wrong> {
    match parsed(alloc, text) {
        Ok(tree) => is_tree_compiled(alloc, &tree, has_module),
        Err(fault) => is_refused(fault, has_module),
    }
}
