//! Methods, shared numbers and programs.

ghost use Rattle.std.specs.Prelude.{◌≡◌, ◌<◌, [], length, map, IfOk};
ghost use Rattle.xk_lexer.specs.declared.token.Keyword.TheVariants as words;
ghost use Rattle.xk_tree.specs.declared.fault.FrontRule.TheVariants as rule;
ghost use Rattle.xk_tree.specs.declared.fault.FrontFault.{FrontFault as Fault};
ghost use Rattle.xk_tree.specs.declared.fault.FrontError.TheVariants as error;
ghost use Rattle.xk_tree.specs.Tree.{method_value, program_value, shared_value};
ghost use Rattle.xk_tree.specs.Program.{tree_value};
ghost use Rattle.xk_exprs.specs.Marks.{marks};
ghost use Rattle.xk_exprs.specs.ReaderCombinators.{Gives};
ghost use Rattle.xk_syntax.specs.Spelling.{SpellsTree};
ghost use Rattle.xk_syntax.specs.Faults.{IsRefused, IsTextRule};
ghost use Rattle.xk_syntax.specs.Readers.{keyword_at, more_at, method_at, shared_at, program_at};

use crate::lists::params;
use crate::statements::read_stmts;
use crate::token_readers::{after_keyword, name, need_open, need_sign};
use std::alloc::Global;
use xk_exprs::token_readers::unexpected;
use xk_exprs::{SyntaxError, read_number};
use xk_lexer::{Keyword, Sign, Token, tokens};
use xk_tree::{FrontError, FrontFault, FrontRule, Method, Shared, Tree};

/// The longest text, in bytes.
const MAX_TEXT: usize = 1_048_576;

/// How many statements, parentheses and negations may stand in one another.
const MAX_LEVELS: u32 = 64;

/// A shared number, behind that word.
#[tactic(auto, unfolding(crate::specs::Readers::bind, crate::specs::Readers::shared_at))]
fn shared_number<'s, 't>(
    tokens: &'s [Token<'t>],
    end: usize,
) -> Result<(Shared<'t>, &'s [Token<'t>]), SyntaxError>
    ensures { Gives (λ x. (shared_value x.0, marks x.1.now)) result
        (shared_at (marks tokens.now)) }
{
    let (name, rest) = name(tokens, end)?;
    let rest = need_sign(Sign::Assign, rest, end)?;
    let (start, rest) = read_number(rest, end)?;
    let rest = need_sign(Sign::Semicolon, rest, end)?;
    Ok((Shared { name, start }, rest))
}

/// No shared numbers yet, and all tokens.
fn no_shared<'s, 't>(alloc: Global, tokens: &'s [Token<'t>]) -> (Vec<Shared<'t>>, &'s [Token<'t>])
    ensures none { result.0.items ≡ [] }
    ensures all { result.1.now ≡ tokens.now }
{
    (Vec::new(alloc), tokens)
}

/// The shared numbers.
fn shared_numbers<'s, 't>(
    alloc: Global,
    tokens: &'s [Token<'t>],
    end: usize,
) -> Result<(Vec<Shared<'t>>, &'s [Token<'t>]), SyntaxError>
    ensures { Gives (λ x. (map shared_value x.0.items, marks x.1.now)) result
        (more_at (keyword_at words.Shared) shared_at [] (marks tokens.now)) }
{
    let (mut numbers, mut rest) = no_shared(alloc, tokens);
    while let Some(after) = after_keyword(Keyword::Shared, rest) {
        let (number, left) = shared_number(after, end)?;
        numbers.push(number)?;
        rest = left;
    }
    Ok((numbers, rest))
}

/// A method, behind its `def`.
#[tactic(auto, unfolding(crate::specs::Readers::bind, crate::specs::Readers::method_at))]
fn method<'s, 't>(
    alloc: Global,
    tokens: &'s [Token<'t>],
    end: usize,
) -> Result<(Method<'t>, &'s [Token<'t>]), SyntaxError>
    ensures { Gives (λ x. (method_value x.0, marks x.1.now)) result
        (method_at (marks tokens.now)) }
{
    let (name, rest) = name(tokens, end)?;
    let (paren, rest) = need_open(rest, end)?;
    let (params, rest) = params(alloc, rest, end)?;
    let rest = need_sign(Sign::LeftBrace, rest, end)?;
    let ((body, close), rest) = read_stmts(alloc, MAX_LEVELS, &[], rest, end)?;
    Ok((
        Method {
            name,
            paren,
            params,
            body,
            close,
        },
        rest,
    ))
}

/// No methods yet, and all tokens.
fn no_methods<'s, 't>(alloc: Global, tokens: &'s [Token<'t>]) -> (Vec<Method<'t>>, &'s [Token<'t>])
    ensures none { result.0.items ≡ [] }
    ensures all { result.1.now ≡ tokens.now }
{
    (Vec::new(alloc), tokens)
}

/// The methods.
fn methods<'s, 't>(
    alloc: Global,
    tokens: &'s [Token<'t>],
    end: usize,
) -> Result<(Vec<Method<'t>>, &'s [Token<'t>]), SyntaxError>
    ensures { Gives (λ x. (map method_value x.0.items, marks x.1.now)) result
        (more_at (keyword_at words.Def) method_at [] (marks tokens.now)) }
{
    let (mut methods, mut rest) = no_methods(alloc, tokens);
    while let Some(after) = after_keyword(Keyword::Def, rest) {
        let (method, left) = method(alloc, after, end)?;
        methods.push(method)?;
        rest = left;
    }
    Ok((methods, rest))
}

/// The shared numbers and the methods of a program, which takes all the tokens.
#[tactic(auto, unfolding(crate::specs::Readers::bind, crate::specs::Readers::program_at))]
fn program<'t>(
    alloc: Global,
    tokens: &[Token<'t>],
    end: usize,
) -> Result<(Vec<Shared<'t>>, Vec<Method<'t>>), SyntaxError>
    ensures { Gives (λ x. program_value x.0.items x.1.items) result
        (program_at (marks tokens.now)) }
{
    let (shared, rest) = shared_numbers(alloc, tokens, end)?;
    let (methods, rest) = methods(alloc, rest, end)?;
    match rest {
        [] => Ok((shared, methods)),
        [..] => Err(SyntaxError::Fault(unexpected(rest, end))),
    }
}

/// The tree that a text spells, within the limits.
///
/// A fault means that the text spells no tree. Its rule is one of F1 to F4 and F13 of `docs/LANGUAGE.md`, rules that are this project's own; it is
/// F4 exactly where the text has more than 1,048,576 bytes. Which of the others is told, and at which offset, no clause says. `OutOfMemory` tells
/// nothing of the text.
pub fn parse<'t>(alloc: Global, text: &'t str) -> Result<Tree<'t>, FrontError>
    ensures spelled { IfOk result (λ tree. SpellsTree text.now (tree_value tree)) }
    ensures none_spelled { IsRefused text.now result }
    ensures of_texts { (f : Fault) → result ≡ Err (error.Fault f) → IsTextRule f.rule }
    ensures too_long { 1048576 < length text.now
        → result ≡ Err (error.Fault (record { rule = rule.TooLong; at = 0 })) }
    ensures only_too_long { (f : Fault) → result ≡ Err (error.Fault f)
        → f.rule ≡ rule.TooLong → 1048576 < length text.now }
{
    let bytes = text.as_bytes();
    if bytes.len() > MAX_TEXT {
        return Err(FrontError::Fault(FrontFault {
            rule: FrontRule::TooLong,
            at: 0,
        }));
    }
    let tokens = tokens(alloc, bytes)?;
    let (shared, methods) = program(alloc, &tokens, bytes.len())?;
    Ok(Tree { shared, methods })
}
