//! The words of a call.

ghost use Rattle.std.specs.Prelude.{◌≡◌, ◌==◌, IfOk};
ghost use Rattle.std.specs.List.{slice_split};
ghost use Rattle.xk_cli.specs.CommandLine.{texts};
ghost use Rattle.x10clock_c.specs.Words.{words_of};

use std::alloc::{AllocError, Global};

/// The program's name, the first word of a command line.
const NAME: &str = "x10clock";

/// The words of a command line: the program's name, and then those in the text, each of which a zero ends. What stands
/// behind the last zero is no word.
pub(crate) fn words_in<'a>(alloc: Global, text: &'a str) -> Result<Vec<&'a str>, AllocError>
    ensures { IfOk result (λ words. texts words.items ≡ words_of text.now) }
{
    let mut words = pieces(alloc, text)?;
    // What stands behind the last zero.
    let _behind = words.pop();
    words.insert(0, NAME)?;
    Ok(words)
}

/// What stands between the zeros of a text.
fn pieces<'a>(alloc: Global, text: &'a str) -> Result<Vec<&'a str>, AllocError>
    ensures { IfOk result (λ found. texts found.items ≡ slice_split (λ b. b == 0) text.now) }
{
    text.split('\0').collect(alloc)
}
