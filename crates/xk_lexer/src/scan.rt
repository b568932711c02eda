//! From bytes to tokens, the longest that fits each time.

ghost use Rattle.std.specs.Prelude.{◌≡◌, ◌+◌, ◌<◌, ◌≤◌, [], ◌++◌, length, map, option_map, IfOk, OnOk, IfSome};
ghost use Rattle.std.specs.List.{prefix_len};
ghost use Rattle.std.specs.Str.{bytes_eq};
ghost use Rattle.xk_lexer.specs.Tokens.{keyword_of, lexeme, token_value};
ghost use Rattle.xk_lexer.specs.Pieces.{IsReadAs, is_blank, is_letter, is_digit, is_word_byte, isnt_line_feed, word_of, number_of, with_token};
ghost use Rattle.xk_lexer.specs.Lexing.{closing, comment_at, front_at, lexed, piece_at, sign_at, sign_of_one, sign_of_two, value_of};
ghost use Rattle.xk_lexer.specs.Views.{piece_value};

use crate::token::{Keyword, Sign, Token, TokenKind};
use std::alloc::{AllocError, Global};

fn is_blank(b: u8) -> bool
    ensures { result ≡ is_blank b }
{
    b == b' ' || b == b'\t' || b == b'\n' || b == b'\r'
}

fn is_letter(b: u8) -> bool
    ensures { result ≡ is_letter b }
{
    b >= b'a' && b <= b'z' || b >= b'A' && b <= b'Z' || b == b'_'
}

fn is_digit(b: u8) -> bool
    ensures { result ≡ is_digit b }
{
    b >= b'0' && b <= b'9'
}

fn is_word_byte(b: u8) -> bool
    ensures { result ≡ is_word_byte b }
{
    is_letter(b) || is_digit(b)
}

/// How many word bytes the text begins with.
fn word_len(text: &[u8]) -> usize
    ensures count { result ≡ prefix_len is_word_byte text.now }
    ensures within { result ≤ length text.now }
{
    text.iter().take_while(|&&b| is_word_byte(b)).count()
}

/// How many digits the text begins with.
fn digits_len(text: &[u8]) -> usize
    ensures count { result ≡ prefix_len is_digit text.now }
    ensures within { result ≤ length text.now }
{
    text.iter().take_while(|&&b| is_digit(b)).count()
}

/// How many bytes stand before the line's end.
fn line_len(text: &[u8]) -> usize
    ensures count { result ≡ prefix_len isnt_line_feed text.now }
    ensures within { result ≤ length text.now }
{
    text.iter().take_while(|&&b| b != b'\n').count()
}

/// How many bytes stand before the next `*/`.
fn closing_at(text: &[u8]) -> Option<usize>
    ensures place { result ≡ closing text.now }
    ensures within { IfSome result (λ n. n + 2 ≤ length text.now) }
{
    let mut len = 0;
    let mut rest = text;
    while let [_, after @ ..] = rest {
        if let [b'*', b'/', ..] = rest {
            return Some(len);
        }
        len += 1;
        rest = after;
    }
    None
}

/// The greatest number that a digit run stands for.
const GREATEST: u64 = 1 << 63;

/// The value of digits, if it isn't above the greatest.
fn value(digits: &[u8]) -> Option<u64>
    ensures { result ≡ value_of digits.now }
{
    let mut value: u64 = 0;
    let mut rest = digits;
    while let [d, after @ ..] = rest {
        if value > GREATEST / 10 {
            return None;
        }
        value = value * 10 + u64::from(d.saturating_sub(b'0'));
        rest = after;
    }
    if value > GREATEST {
        return None;
    }
    Some(value)
}

/// What a digit run is.
#[tactic(auto, unfolding(crate::specs::Pieces::number_of))]
fn number(digits: &[u8]) -> TokenKind<'_>
    ensures { lexeme result ≡ number_of digits.now }
{
    if let [b'0', _, ..] = digits {
        return TokenKind::BadNumber;
    }
    match value(digits) {
        Some(n) => TokenKind::Number(n),
        None => TokenKind::BadNumber,
    }
}

fn text_is(text: &[u8], word: &[u8]) -> bool
    ensures { result ≡ bytes_eq text.now word.now }
{
    text == word
}

/// The reserved word of this spelling, if it is one.
#[tactic(auto, unfolding(crate::specs::Tokens::keyword_of))]
fn keyword(text: &[u8]) -> Option<Keyword>
    ensures { result ≡ keyword_of text.now }
{
    if text_is(text, b"shared") {
        Some(Keyword::Shared)
    } else if text_is(text, b"def") {
        Some(Keyword::Def)
    } else if text_is(text, b"val") {
        Some(Keyword::Val)
    } else if text_is(text, b"var") {
        Some(Keyword::Var)
    } else if text_is(text, b"if") {
        Some(Keyword::If)
    } else if text_is(text, b"else") {
        Some(Keyword::Else)
    } else if text_is(text, b"for") {
        Some(Keyword::For)
    } else if text_is(text, b"in") {
        Some(Keyword::In)
    } else if text_is(text, b"async") {
        Some(Keyword::Async)
    } else if text_is(text, b"clocked") {
        Some(Keyword::Clocked)
    } else if text_is(text, b"finish") {
        Some(Keyword::Finish)
    } else if text_is(text, b"atomic") {
        Some(Keyword::Atomic)
    } else if text_is(text, b"Clock") {
        Some(Keyword::Clock)
    } else if text_is(text, b"Long") {
        Some(Keyword::Long)
    } else if text_is(text, b"Console") {
        Some(Keyword::Console)
    } else {
        None
    }
}

/// What a word is.
fn word(text: &[u8]) -> TokenKind<'_>
    ensures { lexeme result ≡ word_of text.now }
{
    match keyword(text) {
        Some(k) => TokenKind::Keyword(k),
        None => TokenKind::Name(text),
    }
}

/// The sign of this one byte, if it is one.
#[tactic(auto, unfolding(crate::specs::Lexing::sign_of_one))]
fn sign_of_one(a: u8) -> Option<Sign>
    ensures { result ≡ sign_of_one a }
{
    match a {
        b'(' => Some(Sign::LeftParen),
        b')' => Some(Sign::RightParen),
        b'{' => Some(Sign::LeftBrace),
        b'}' => Some(Sign::RightBrace),
        b',' => Some(Sign::Comma),
        b';' => Some(Sign::Semicolon),
        b':' => Some(Sign::Colon),
        b'=' => Some(Sign::Assign),
        b'+' => Some(Sign::Plus),
        b'-' => Some(Sign::Minus),
        b'*' => Some(Sign::Star),
        b'.' => Some(Sign::Dot),
        b'<' => Some(Sign::Less),
        b'>' => Some(Sign::Greater),
        _ => None,
    }
}

/// The sign of these two bytes, if they are one.
#[tactic(auto, unfolding(crate::specs::Lexing::sign_of_two))]
fn sign_of_two(a: u8, b: u8) -> Option<Sign>
    ensures { result ≡ sign_of_two a b }
{
    match (a, b) {
        (b'=', b'=') => Some(Sign::Equal),
        (b'!', b'=') => Some(Sign::NotEqual),
        (b'<', b'=') => Some(Sign::LessEqual),
        (b'>', b'=') => Some(Sign::GreaterEqual),
        (b'.', b'.') => Some(Sign::DotDot),
        _ => None,
    }
}

/// What stands at the front of a text: a token, or a blank or a comment, and how many bytes it takes.
#[derive(Clone, Copy)]
struct Piece<'t> {
    kind: Option<TokenKind<'t>>,
    len: usize,
}

/// The sign at the front; where none is, the whole text as a stray token.
#[tactic(auto, unfolding(crate::specs::Lexing::sign_at))]
fn sign<'t>(text: &'t [u8]) -> Piece<'t>
    ensures { piece_value result ≡ sign_at text.now }
{
    if let [a, b, ..] = text
        && let Some(s) = sign_of_two(*a, *b)
    {
        return Piece {
            kind: Some(TokenKind::Sign(s)),
            len: 2,
        };
    }
    if let [a, ..] = text
        && let Some(s) = sign_of_one(*a)
    {
        return Piece {
            kind: Some(TokenKind::Sign(s)),
            len: 1,
        };
    }
    Piece {
        kind: Some(TokenKind::Stray),
        len: text.len(),
    }
}

/// The comment that begins at the front, if one does; one that isn't closed is a stray token.
#[tactic(auto, unfolding(crate::specs::Lexing::comment_at))]
fn comment<'t>(text: &'t [u8]) -> Option<Piece<'t>>
    ensures { option_map piece_value result ≡ comment_at text.now }
{
    match text {
        [b'/', b'/', after @ ..] => Some(Piece {
            kind: None,
            len: line_len(after) + 2,
        }),
        [b'/', b'*', after @ ..] => match closing_at(after) {
            Some(n) => Some(Piece {
                kind: None,
                len: n + 4,
            }),
            None => Some(Piece {
                kind: Some(TokenKind::Stray),
                len: text.len(),
            }),
        },
        _ => None,
    }
}

/// What stands at the front of a text that begins with this byte.
#[tactic(auto, unfolding(crate::specs::Lexing::piece_at))]
fn piece_from<'t>(first: u8, text: &'t [u8]) -> Piece<'t>
    ensures { piece_value result ≡ piece_at first text.now }
{
    if is_blank(first) {
        return Piece { kind: None, len: 1 };
    }
    if is_letter(first) {
        let len = word_len(text);
        return Piece {
            kind: Some(word(&text[..len])),
            len,
        };
    }
    if is_digit(first) {
        let len = digits_len(text);
        return Piece {
            kind: Some(number(&text[..len])),
            len,
        };
    }
    match comment(text) {
        Some(piece) => piece,
        None => sign(text),
    }
}

/// What stands at the front of a text, where it isn't at its end.
fn front<'t>(text: &'t [u8]) -> Option<Piece<'t>>
    ensures { option_map piece_value result ≡ front_at text.now }
{
    match text {
        [] => None,
        [first, ..] => Some(piece_from(*first, text)),
    }
}

/// Adds a token of this kind and offset, if there is a kind.
fn push_token<'t>(
    tokens: &mut Vec<Token<'t>>,
    at: usize,
    kind: Option<TokenKind<'t>>,
) -> Result<(), AllocError>
    ensures { OnOk result (map token_value tokens.new.items
        ≡ map token_value tokens.old.items ++ with_token at (option_map lexeme kind.entry) []) }
{
    match kind {
        Some(kind) => {
            tokens.push(Token { at, kind })?;
            Ok(())
        }
        None => Ok(()),
    }
}

/// The tokens of a text, in order. Where no token, blank or comment begins, the rest of the text is one stray token.
pub fn tokens<'t>(alloc: Global, text: &'t [u8]) -> Result<Vec<Token<'t>>, AllocError>
    ensures read { IfOk result (λ v. map token_value v.items ≡ lexed text.now) }
    ensures spelled { IfOk result (λ v. IsReadAs text.now (map token_value v.items)) }
{
    let mut tokens = Vec::new(alloc);
    let mut rest = text;
    while let Some(piece) = front(rest) {
        push_token(&mut tokens, text.len() - rest.len(), piece.kind)?;
        let (_, after) = rest.split_at(piece.len);
        rest = after;
    }
    Ok(tokens)
}
