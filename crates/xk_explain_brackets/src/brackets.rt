//! Brackets that are open at a place of a text.

ghost use Rattle.std.specs.Prelude.{◌≡◌, ◌≤◌, ◌++◌, [], None, drop, length, map, option_map, take, IfOk, OnOk};
ghost use Rattle.std.specs.List.{prefix_len, suffix_len};
ghost use Rattle.xk_lexer.specs.Tokens.{token_value};
ghost use Rattle.xk_lines.specs.Lines.{is_blank, isnt_line_feed, line_start};
ghost use Rattle.xk_explain_brackets.specs.Brackets.{bracket_notes, closes, closes_nothing, ends_all, indent, is_brace_at, is_left_of};
ghost use Rattle.xk_explain_brackets.specs.Brackets.{is_paren, last_open, left_after, left_before, left_by, open_after, open_before, opens};
ghost use Rattle.xk_explain_brackets.specs.Brackets.{bracket_repair, first_back, missing_before, missing_by, missing_notes};
ghost use Rattle.xk_explain_brackets.specs.Brackets.{missing_text, stands_back, unclosed, unclosed_note, unclosed_notes, unclosed_text};

use std::alloc::{AllocError, Global};
use xk_explain::{Note, SourceText, place_title};
use xk_explain_words::{begins, first_word, is_spelled};
use xk_lexer::Token;

/// What a text goes on with from an offset.
fn from(text: &[u8], at: usize) -> &[u8]
    ensures { result.now ≡ drop at text.now }
{
    match text.get(at..) {
        Some(rest) => rest,
        None => b"",
    }
}

/// Whether a bracket opens there.
fn opens(rest: &[u8]) -> bool
    ensures { result ≡ opens rest.now }
{
    begins(rest, b"(") || begins(rest, b"{")
}

/// Whether one closes there.
fn closes(rest: &[u8]) -> bool
    ensures { result ≡ closes rest.now }
{
    begins(rest, b")") || begins(rest, b"}")
}

/// Opens or closes what a token opens or closes, which the text goes on with from its offset.
fn step(opened: &mut Vec<usize>, rest: &[u8], at: usize) -> Result<(), AllocError>
    ensures { OnOk result (opened.new.items ≡ open_after rest.now opened.old.items at) }
{
    if opens(rest) {
        opened.push(at)?;
    } else if closes(rest) {
        drop(opened.pop());
    }
    Ok(())
}

/// The offsets of those that are open behind the tokens that stand before an offset.
fn open_before(
    alloc: Global,
    text: &[u8],
    at: usize,
    tokens: &[Token<'_>],
) -> Result<Vec<usize>, AllocError>
    ensures { IfOk result
        (λ v. v.items ≡ open_before text.now at [] (map token_value tokens.now)) }
{
    let mut opened = Vec::new(alloc);
    for token in tokens {
        if token.at >= at {
            break;
        }
        step(&mut opened, from(text, token.at), token.at)?;
    }
    Ok(opened)
}

/// The last one that is open.
fn last_open(opened: &[usize]) -> Option<usize>
    ensures { result ≡ last_open opened.now }
{
    opened.get(opened.len().saturating_sub(1)).copied()
}

/// How many bytes of the line of an offset stand before it.
fn len_before(before: &[u8]) -> usize
    ensures count { result ≡ suffix_len isnt_line_feed before.now }
    ensures within { result ≤ length before.now }
{
    before.iter().rev().take_while(|&&b| b != b'\n').count()
}

/// What stands before an offset.
fn before(text: &[u8], at: usize) -> &[u8]
    ensures { result.now ≡ take at text.now }
{
    &text[..text.len().min(at)]
}

/// Where the line of an offset begins.
fn line_start(text: &[u8], at: usize) -> usize
    ensures { result ≡ line_start text.now at }
{
    at.saturating_sub(len_before(before(text, at)))
}

/// How many blanks stand at the front of a text.
fn blanks(text: &[u8]) -> usize
    ensures { result ≡ prefix_len is_blank text.now }
{
    text.iter()
        .take_while(|&&b| b == b' ' || b == b'\t')
        .count()
}

/// With how many blanks the line of an offset begins.
fn indent(text: &[u8], at: usize) -> usize
    ensures { result ≡ indent text.now at }
{
    blanks(from(text, line_start(text, at)))
}

/// Whether the line of an offset begins further left than that of what is open.
fn is_left_of(text: &[u8], at: usize, opened: Option<usize>) -> bool
    ensures { result ≡ is_left_of text.now at opened }
{
    match opened {
        None => false,
        Some(opened) => indent(text, at) < indent(text, opened),
    }
}

/// What is open, if a `}` closes it whose line begins further left.
fn left_by(text: &[u8], opened: Option<usize>, at: usize) -> Option<usize>
    ensures { result ≡ left_by text.now opened at }
{
    if begins(from(text, at), b"}") && is_left_of(text, at, opened) {
        return opened;
    }
    None
}

/// The first such bracket, behind a token.
fn left_after(text: &[u8], left: Option<usize>, opened: &[usize], at: usize) -> Option<usize>
    ensures { result ≡ left_after text.now left opened.now at }
{
    match left {
        Some(left) => Some(left),
        None => left_by(text, last_open(opened), at),
    }
}

/// The same behind the tokens that stand before an offset.
fn left_before(
    alloc: Global,
    text: &[u8],
    at: usize,
    tokens: &[Token<'_>],
) -> Result<Option<usize>, AllocError>
    ensures { IfOk result
        (λ left. left ≡ left_before text.now at None [] (map token_value tokens.now)) }
{
    let mut opened = Vec::new(alloc);
    let mut left = None;
    for token in tokens {
        if token.at >= at {
            break;
        }
        left = left_after(text, left, &opened, token.at);
        step(&mut opened, from(text, token.at), token.at)?;
    }
    Ok(left)
}

/// Whether the text ends there, or goes on with a method.
#[tactic(auto, unfolding(crate::specs::Brackets::ends_all))]
fn ends_all(rest: &[u8]) -> bool
    ensures { result ≡ ends_all rest.now }
{
    match rest {
        [] => true,
        [_, ..] => is_spelled(first_word(rest), b"def"),
    }
}

/// Whether a `{` stands there.
fn is_brace_at(text: &[u8], at: usize) -> bool
    ensures { result ≡ is_brace_at text.now at }
{
    begins(from(text, at), b"{")
}

/// The bracket that isn't closed.
fn unclosed(text: &[u8], left: Option<usize>, opened: Option<usize>) -> Option<usize>
    ensures { result ≡ unclosed text.now left opened }
{
    match opened {
        None => None,
        Some(opened) => {
            if is_brace_at(text, opened) {
                Some(left.unwrap_or(opened))
            } else {
                Some(opened)
            }
        }
    }
}

/// What is told of it.
fn unclosed_text(text: &[u8], at: usize) -> &'static str
    ensures { result.now ≡ unclosed_text text.now at }
{
    if is_brace_at(text, at) {
        return "this `{` is not closed";
    }
    "this `(` is not closed"
}

/// Adds the note on it, if there is one.
fn push_unclosed(
    alloc: Global,
    notes: &mut Vec<Note>,
    text: &[u8],
    bracket: Option<usize>,
) -> Result<(), AllocError>
    ensures { OnOk result
        (notes.new.items ≡ notes.old.items ++ unclosed_note text.now bracket) }
{
    if let Some(at) = bracket {
        let words = unclosed_text(text, at).as_bytes().to_vec(alloc)?;
        notes.push(Note {
            at: Some(at),
            text: words,
            repair: None,
        })?;
    }
    Ok(())
}

/// Whether a line begins behind an offset, and no further right than the line of that.
fn stands_back(text: &[u8], opened: usize, at: usize) -> bool
    ensures { result ≡ stands_back text.now opened at }
{
    opened < line_start(text, at) && indent(text, at) <= indent(text, opened)
}

/// The first token of the first such line.
fn first_back(text: &[u8], opened: usize, tokens: &[Token<'_>]) -> Option<usize>
    ensures { result ≡ first_back text.now opened (map token_value tokens.now) }
{
    for token in tokens {
        if stands_back(text, opened, token.at) {
            return Some(token.at);
        }
    }
    None
}

/// Before what a `}` is missing, where this `{` has its `}` further left, and this bracket is the last that is open.
fn missing_by(
    text: &[u8],
    tokens: &[Token<'_>],
    left: Option<usize>,
    opened: Option<usize>,
) -> Option<usize>
    ensures { result ≡ missing_by text.now (map token_value tokens.now) left opened }
{
    let left = left?;
    let opened = opened?;
    if is_brace_at(text, opened) {
        return first_back(text, left, tokens);
    }
    None
}

/// The same at an offset of a text.
fn missing_before(
    alloc: Global,
    text: &[u8],
    at: usize,
    tokens: &[Token<'_>],
) -> Result<Option<usize>, AllocError>
    ensures { IfOk result (λ o. o ≡ missing_before text.now at (map token_value tokens.now)) }
{
    if !ends_all(from(text, at)) {
        return Ok(None);
    }
    let opened = open_before(alloc, text, at, tokens)?;
    let left = left_before(alloc, text, at, tokens)?;
    Ok(missing_by(text, tokens, left, last_open(&opened)))
}

/// Adds the note on where a `}` is missing, if that is known.
fn push_missing(
    alloc: Global,
    notes: &mut Vec<Note>,
    missing: Option<usize>,
) -> Result<(), AllocError>
    ensures { OnOk result (notes.new.items ≡ notes.old.items ++ missing_notes missing) }
{
    if let Some(at) = missing {
        let words = "its `}` is missing before this line, which begins no further right";
        notes.push(Note {
            at: Some(at),
            text: words.as_bytes().to_vec(alloc)?,
            repair: None,
        })?;
    }
    Ok(())
}

/// The repair where it is missing before an offset.
#[tactic(auto, unfolding(crate::specs::Brackets::missing_text))]
fn missing_text(alloc: Global, text: &[u8], at: usize) -> Result<Vec<u8>, AllocError>
    ensures { IfOk result (λ v. v.items ≡ missing_text text.now at) }
{
    let source = SourceText::new(alloc, text)?;
    let place = place_title(alloc, source.nearest(at))?;
    let mut out = "write `}` before ".as_bytes().to_vec(alloc)?;
    out.extend_from_slice(place.as_bytes())?;
    Ok(out)
}

/// The repair of a fault at an offset of a text, where these are the tokens, if it is known where a `}` is missing.
/// Err where memory was refused.
pub fn bracket_repair(
    alloc: Global,
    text: &[u8],
    at: usize,
    tokens: &[Token<'_>],
) -> Result<Option<Vec<u8>>, AllocError>
    ensures { IfOk result (λ o. option_map (λ v. v.items) o
        ≡ bracket_repair text.now at (map token_value tokens.now)) }
{
    match missing_before(alloc, text, at, tokens)? {
        Some(missing) => Ok(Some(missing_text(alloc, text, missing)?)),
        None => Ok(None),
    }
}

/// Adds the note on the bracket that isn't closed.
fn push_open(
    alloc: Global,
    notes: &mut Vec<Note>,
    text: &[u8],
    at: usize,
    tokens: &[Token<'_>],
) -> Result<(), AllocError>
    ensures { OnOk result (notes.new.items ≡ notes.old.items
        ++ unclosed_notes text.now at (map token_value tokens.now)) }
{
    if !ends_all(from(text, at)) {
        return Ok(());
    }
    let opened = open_before(alloc, text, at, tokens)?;
    let left = left_before(alloc, text, at, tokens)?;
    push_unclosed(alloc, notes, text, unclosed(text, left, last_open(&opened)))
}

/// Adds the notes beside a fault at an offset of a text, where these are the tokens: the bracket that isn't closed, and
/// where its `}` is missing. Err where memory was refused.
pub fn push_bracket(
    alloc: Global,
    notes: &mut Vec<Note>,
    text: &[u8],
    at: usize,
    tokens: &[Token<'_>],
) -> Result<(), AllocError>
    ensures { OnOk result (notes.new.items ≡ notes.old.items
        ++ bracket_notes text.now at (map token_value tokens.now)) }
{
    push_open(alloc, notes, text, at, tokens)?;
    let missing = missing_before(alloc, text, at, tokens)?;
    push_missing(alloc, notes, missing)
}

/// Whether what is open is a `(`.
fn is_paren(text: &[u8], opened: Option<usize>) -> bool
    ensures { result ≡ is_paren text.now opened }
{
    match opened {
        None => false,
        Some(opened) => begins(from(text, opened), b"("),
    }
}

/// Whether a `)` stands where no `(` is open. Err where memory was refused.
pub fn closes_nothing(
    alloc: Global,
    text: &[u8],
    at: usize,
    tokens: &[Token<'_>],
) -> Result<bool, AllocError>
    ensures { IfOk result
        (λ is. is ≡ closes_nothing text.now at (map token_value tokens.now)) }
{
    if !begins(from(text, at), b")") {
        return Ok(false);
    }
    let opened = open_before(alloc, text, at, tokens)?;
    Ok(!is_paren(text, last_open(&opened)))
}
