//! What could stand at a place, as it is told: a statement, an expression, a number or a name in one, and tokens one by one.

ghost use Rattle.std.specs.Prelude.{◌≡◌, ◌++◌, flat_map, IfOk, OnOk};
ghost use Rattle.xk_explain_expected.specs.Grammar.{is_name};
ghost use Rattle.xk_explain_expected.specs.Expected.{begins_expression, begins_number, begins_statement, behind_comma, besides};
ghost use Rattle.xk_explain_expected.specs.Expected.{besides_one, choice_text, choices, choices_text, group_by, group_choices, group_of};
ghost use Rattle.xk_explain_expected.specs.Expected.{group_text, is_besides, is_within, listed, told_alone};

use crate::grammar::{Symbol, is_name};
use crate::machine::takes;
use crate::terminal::{Terminal, terminal_text};
use std::alloc::{AllocError, Global};

/// What is told in one.
#[derive(Clone, Copy, Debug)]
pub(crate) enum Group {
    Statement,
    Expression,
    Number,
    Name,
    /// Nothing: tokens are told one by one.
    Alone,
}

/// What could stand at a place.
#[derive(Clone, Copy, Debug)]
pub(crate) enum Choice {
    /// Anything of this group.
    Any(Group),
    /// This token.
    One(Terminal),
}

/// The group, by whether a `val`, digits and any name can stand here.
fn group_by(statement: bool, digits: bool, name: bool) -> Group
    ensures { result ≡ group_by statement digits name }
{
    if statement {
        Group::Statement
    } else if digits {
        if name {
            Group::Expression
        } else {
            Group::Number
        }
    } else {
        if name { Group::Name } else { Group::Alone }
    }
}

/// The group of what can stand here.
fn group_of(stack: &[Symbol]) -> Group
    ensures { result ≡ group_of stack.now }
{
    group_by(
        takes(stack, Terminal::Binding),
        takes(stack, Terminal::Digits),
        takes(stack, Terminal::Name),
    )
}

/// Whether a statement can begin so.
fn begins_statement(t: Terminal) -> bool
    ensures { result ≡ begins_statement t }
{
    match t {
        Terminal::LeftBrace
        | Terminal::Semicolon
        | Terminal::Binding
        | Terminal::If
        | Terminal::For
        | Terminal::Async
        | Terminal::Clocked
        | Terminal::Finish
        | Terminal::Atomic
        | Terminal::Clock
        | Terminal::Console => true,
        _ => is_name(t),
    }
}

/// Whether a number can begin so.
fn begins_number(t: Terminal) -> bool
    ensures { result ≡ begins_number t }
{
    match t {
        Terminal::Minus | Terminal::Digits => true,
        _ => false,
    }
}

/// Whether an expression can begin so.
fn begins_expression(t: Terminal) -> bool
    ensures { result ≡ begins_expression t }
{
    match t {
        Terminal::LeftParen | Terminal::Minus | Terminal::Digits => true,
        _ => is_name(t),
    }
}

/// Whether a token is told with the group.
fn is_within(group: Group, t: Terminal) -> bool
    ensures { result ≡ is_within group t }
{
    match group {
        Group::Statement => begins_statement(t),
        Group::Expression => begins_expression(t),
        Group::Number => begins_number(t),
        Group::Name => is_name(t),
        Group::Alone => false,
    }
}

/// What is told one by one, in this order.
pub(crate) fn told_alone() -> &'static [Terminal]
    ensures { result.now ≡ told_alone }
{
    &[
        Terminal::Semicolon,
        Terminal::Comma,
        Terminal::RightParen,
        Terminal::RightBrace,
        Terminal::LeftParen,
        Terminal::LeftBrace,
        Terminal::Assign,
        Terminal::Colon,
        Terminal::Dot,
        Terminal::DotDot,
        Terminal::Plus,
        Terminal::Minus,
        Terminal::Star,
        Terminal::Comparison,
        Terminal::Shared,
        Terminal::Def,
        Terminal::Else,
        Terminal::In,
        Terminal::Async,
        Terminal::Finish,
        Terminal::Clock,
        Terminal::Long,
        Terminal::Math,
        Terminal::Min,
        Terminal::Make,
        Terminal::Verb,
        Terminal::AdvanceAll,
        Terminal::Out,
        Terminal::Println,
        Terminal::End,
    ]
}

/// The group, if there is one.
fn group_choices(alloc: Global, group: Group) -> Result<Vec<Choice>, AllocError>
    ensures { IfOk result (λ v. v.items ≡ group_choices group) }
{
    let mut found = Vec::new(alloc);
    match group {
        Group::Alone => {}
        Group::Statement => found.push(Choice::Any(Group::Statement))?,
        Group::Expression => found.push(Choice::Any(Group::Expression))?,
        Group::Number => found.push(Choice::Any(Group::Number))?,
        Group::Name => found.push(Choice::Any(Group::Name))?,
    }
    Ok(found)
}

/// Whether a token can stand here and isn't told with the group.
fn is_besides(stack: &[Symbol], group: Group, t: Terminal) -> bool
    ensures { result ≡ is_besides stack.now group t }
{
    takes(stack, t) && !is_within(group, t)
}

/// Adds a token, if it can stand here and isn't told with the group.
fn push_besides_one(
    found: &mut Vec<Choice>,
    stack: &[Symbol],
    group: Group,
    t: Terminal,
) -> Result<(), AllocError>
    ensures { OnOk result (found.new.items
        ≡ found.old.items ++ besides_one stack.now group t) }
{
    if is_besides(stack, group, t) {
        found.push(Choice::One(t))?;
    }
    Ok(())
}

/// The same of each of these tokens.
fn push_besides(
    found: &mut Vec<Choice>,
    stack: &[Symbol],
    group: Group,
    told: &[Terminal],
) -> Result<(), AllocError>
    ensures { OnOk result (found.new.items
        ≡ found.old.items ++ besides stack.now group told.now) }
{
    for t in told {
        push_besides_one(found, stack, group, *t)?;
    }
    Ok(())
}

/// What can stand here: the group, and tokens besides. Err where memory was refused.
pub(crate) fn choices(alloc: Global, stack: &[Symbol]) -> Result<Vec<Choice>, AllocError>
    ensures { IfOk result (λ v. v.items ≡ choices stack.now) }
{
    let group = group_of(stack);
    let mut found = group_choices(alloc, group)?;
    push_besides(&mut found, stack, group, told_alone())?;
    Ok(found)
}

/// How a group is told.
fn group_text(group: Group) -> &'static str
    ensures { result.now ≡ group_text group }
{
    match group {
        Group::Statement => "a statement",
        Group::Expression => "an expression",
        Group::Number => "a number",
        Group::Name => "a name",
        Group::Alone => "nothing",
    }
}

/// How a choice is told.
fn choice_text(choice: Choice) -> &'static str
    ensures { result.now ≡ choice_text choice }
{
    match choice {
        Choice::Any(group) => group_text(group),
        Choice::One(t) => terminal_text(t),
    }
}

/// Adds a text.
fn push_text(out: &mut Vec<u8>, text: &str) -> Result<(), AllocError>
    ensures { OnOk result (out.new.items ≡ out.old.items ++ text.now) }
{
    out.extend_from_slice(text.as_bytes())
}

/// Adds a choice behind a comma.
fn push_behind_comma(out: &mut Vec<u8>, choice: Choice) -> Result<(), AllocError>
    ensures { OnOk result (out.new.items ≡ out.old.items ++ behind_comma choice) }
{
    push_text(out, ", ")?;
    push_text(out, choice_text(choice))
}

/// Adds choices, each behind a comma.
fn push_all(out: &mut Vec<u8>, choices: &[Choice]) -> Result<(), AllocError>
    ensures { OnOk result (out.new.items ≡ out.old.items ++ flat_map behind_comma choices.now) }
{
    for choice in choices {
        push_behind_comma(out, *choice)?;
    }
    Ok(())
}

/// Adds choices, with commas between them.
fn push_listed(out: &mut Vec<u8>, choices: &[Choice]) -> Result<(), AllocError>
    ensures { OnOk result (out.new.items ≡ out.old.items ++ listed choices.now) }
{
    match choices {
        [] => Ok(()),
        [first, rest @ ..] => {
            push_text(out, choice_text(*first))?;
            push_all(out, rest)
        }
    }
}

/// `` could stand here: a statement, `}` ``. Err where memory was refused.
#[tactic(auto, unfolding(crate::specs::Expected::choices_text))]
pub(crate) fn choices_text(alloc: Global, choices: &[Choice]) -> Result<Vec<u8>, AllocError>
    ensures { IfOk result (λ v. v.items ≡ choices_text choices.now) }
{
    let mut out = Vec::new(alloc);
    push_text(&mut out, "could stand here: ")?;
    push_listed(&mut out, choices)?;
    Ok(out)
}
