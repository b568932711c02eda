//! The page on the rule of a code.

ghost use Rattle.std.specs.Prelude.{◌≡◌, option_map};
ghost use Rattle.xk_rules.specs.Pages.{page_text, rule_text};

use crate::module::module_page;
use crate::page::{RulePage, page_named};
use crate::run::run_page;
use crate::source::source_page;
use crate::verifier::verifier_page;

/// The page on the rule of this code, as `V9`, letter for letter: its code and its name on a line, what it means, a program
/// that it refuses, and one that is accepted. None of any other text.
pub fn rule_text(code: &str) -> Option<&'static str>
    ensures { option_map (λ text. text.now) result ≡ rule_text code.now }
{
    let page = page_named(code)?;
    Some(page_text(page))
}

/// The page on a rule.
fn page_text(page: RulePage) -> &'static str
    ensures { result.now ≡ page_text page }
{
    let run = run_page(page, "");
    let verifier = verifier_page(page, run);
    let module = module_page(page, verifier);
    source_page(page, module)
}
