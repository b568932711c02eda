//! Hints in words.

ghost use Rattle.std.specs.Prelude.{◌≡◌, [], ◌∷◌, ◌++◌, map, IfOk, OnOk};
ghost use Rattle.xk_tree.specs.Program.{tree_value};
ghost use Rattle.xk_hints.specs.Hints.{remark_value, remarks_here};
ghost use Rattle.xk_hints.specs.Words.{closing, done, hint, hints, opening, unordered, words};

use crate::access::Act;
use crate::remark::{Matter, Remark};
use crate::remarks::remarks;
use std::alloc::{AllocError, Global};
use std::marker::Model;
use xk_explain_words::push_name;
use xk_tree::Tree;

/// What is so in a program, and is seldom meant, with its place in the text.
#[derive(Drop)]
pub struct Hint {
    /// The offset of what it speaks of.
    pub at: usize,
    /// Its words, without a line feed.
    pub text: Vec<u8>,
}

impl Model for Hint {
    ghost use Rattle.xk_hints.specs.Words.{HintValue};

    ghost Value = { HintValue };

    ghost view = { λ h. record {
      at = h.at;
      text = h.text.items;
    } };
}

/// What stands before a name.
fn opening(matter: Matter) -> &'static str
    ensures { result.now ≡ opening matter }
{
    match matter {
        Matter::Turnless => "hint: this loop has no turn: it goes up, and begins above its end",
        Matter::UnjoinedFinish => {
            "hint: nobody joins the clock of this `clocked finish`; `clocked async` starts an activity on it"
        }
        Matter::Beside => {
            "hint: this activity isn't on the clock of the `clocked finish` around it: no advance of that clock waits for it"
        }
        Matter::Clockless => "hint: this advanceAll waits for nobody: its activity is on no clock",
        Matter::Unused => "hint: `",
        Matter::Unread => "hint: `",
        Matter::Unwritten => "hint: `",
        Matter::Uncalled => "hint: `",
        Matter::Unjoined => "hint: `",
        Matter::Unawaited => "hint: `",
        Matter::Overwritten => "hint: `",
        Matter::Unordered(..) => "hint: `",
        Matter::Resumed => {
            "hint: the advanceAll behind this resumes all clocks, and waits for all: to resume `"
        }
    }
}

/// Adds a text.
fn push_text(out: &mut Vec<u8>, text: &str) -> Result<(), AllocError>
    ensures { OnOk result (out.new.items ≡ out.old.items ++ text.now) }
{
    out.extend_from_slice(text.as_bytes())
}

/// What is done with a number, in a word.
fn done(act: Act) -> &'static str
    ensures { result.now ≡ done act }
{
    match act {
        Act::Read => "read",
        Act::Write => "written",
        Act::Add => "added to",
    }
}

/// Adds what is said of what the schedule alone orders.
fn push_unordered(out: &mut Vec<u8>, here: Act, there: Act) -> Result<(), AllocError>
    ensures { OnOk result (out.new.items ≡ out.old.items ++ unordered here there) }
{
    push_text(out, "` is ")?;
    push_text(out, done(here))?;
    push_text(out, " here, and ")?;
    push_text(out, done(there))?;
    push_text(
        out,
        " in an `async` before this one: only the schedule orders the two",
    )
}

/// Adds what stands behind a name.
fn push_closing(out: &mut Vec<u8>, matter: Matter) -> Result<(), AllocError>
    ensures { OnOk result (out.new.items ≡ out.old.items ++ closing matter) }
{
    match matter {
        Matter::Unordered(here, there) => push_unordered(out, here, there),
        Matter::Unused => push_text(out, "` is never used"),
        Matter::Unread => push_text(out, "` is written, and never read"),
        Matter::Unwritten => push_text(out, "` is read, and never written"),
        Matter::Uncalled => push_text(out, "` is never called"),
        Matter::Unjoined => push_text(
            out,
            "` is given to no activity and to no method: nobody is on it but its maker",
        ),
        Matter::Unawaited => push_text(
            out,
            "` is read here, and nothing has waited for the end of the `async` that writes it",
        ),
        Matter::Overwritten => push_text(
            out,
            "` is read here, and written back later: what the `async` of another turn writes in between is lost; `atomic` adds in one step",
        ),
        Matter::Resumed => push_text(out, "` first gains nothing"),
        Matter::Turnless => Ok(()),
        Matter::UnjoinedFinish => Ok(()),
        Matter::Beside => Ok(()),
        Matter::Clockless => Ok(()),
    }
}

/// The words of a remark, with no more than 60 letters of its name.
#[tactic(auto, unfolding(crate::specs::Words::words))]
fn words(alloc: Global, remark: Remark<'_>) -> Result<Vec<u8>, AllocError>
    ensures { IfOk result (λ v. v.items ≡ words (remark_value remark.entry)) }
{
    let mut out = Vec::new(alloc);
    push_text(&mut out, opening(remark.matter))?;
    push_name(&mut out, remark.name.text)?;
    push_closing(&mut out, remark.matter)?;
    Ok(out)
}

/// Adds the hint of a remark.
fn push_hint(alloc: Global, out: &mut Vec<Hint>, remark: Remark<'_>) -> Result<(), AllocError>
    ensures { OnOk result (out.new.items
        ≡ out.old.items ++ hint (remark_value remark.entry) ∷ []) }
{
    let text = words(alloc, remark)?;
    let at = remark.name.at;
    out.push(Hint { at, text })?;
    Ok(())
}

/// The hints of remarks.
fn hints_of(alloc: Global, remarks: &[Remark<'_>]) -> Result<Vec<Hint>, AllocError>
    ensures { IfOk result (λ v. v.items ≡ map hint (remarks_here remarks.now)) }
{
    let mut out = Vec::new(alloc);
    for remark in remarks {
        push_hint(alloc, &mut out, *remark)?;
    }
    Ok(out)
}

/// The hints on a tree, in the order of the text: names, shared numbers and methods that are never used, loops without a turn, clocks
/// that nobody joins, activities beside the clock of a `clocked finish`, each `advanceAll` of an activity on no clock, clocks that are
/// resumed right before one, and shared numbers that are read before anything has waited for who writes them, that the activities of a
/// loop read and write back, or in which activities meet that the schedule alone orders. A tree with a method that ends behind 65,536
/// bytes has none. Err where memory was refused.
pub fn hints(alloc: Global, tree: &Tree<'_>) -> Result<Vec<Hint>, AllocError>
    ensures { IfOk result (λ v. v.items ≡ hints (tree_value tree.now)) }
{
    let found = remarks(alloc, tree)?;
    hints_of(alloc, &found)
}
