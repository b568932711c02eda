//! Tokens one by one.

ghost use Rattle.std.specs.Prelude.{◌≡◌, option_map};
ghost use Rattle.std.specs.Str.{bytes_eq};
ghost use Rattle.xk_tree.specs.Tree.{word};
ghost use Rattle.xk_exprs.specs.Marks.{marks};
ghost use Rattle.xk_exprs.specs.ReaderCombinators.{Gives};
ghost use Rattle.xk_syntax.specs.Readers.{sign_at, keyword_at, open_at, close_at, plus_at, clock_at, word_at, this_word_at, comparison_of, comparison_at, type_at, ahead_at};

use xk_exprs::SyntaxError;
use xk_exprs::token_readers::{next, unexpected};
use xk_lexer::{Keyword, Sign, Token, TokenKind};
use xk_tree::{Name, TypeName};
use xk_types::{Comparison, ParamKind};

/// Past this sign, if it comes.
#[tactic(auto, using(crate::proofs::TokenLemmas::sign_mark_is), unfolding(crate::specs::Readers::sign_at))]
pub(crate) fn after_sign<'s, 't>(sign: Sign, tokens: &'s [Token<'t>]) -> Option<&'s [Token<'t>]>
    ensures { option_map (λ x. marks x.now) result ≡ sign_at sign (marks tokens.now) }
{
    let (token, rest) = next(tokens)?;
    match token.kind {
        TokenKind::Sign(found) => { if found == sign { Some(rest) } else { None } }
        _ => None,
    }
}

/// Past this sign, which has to come.
pub(crate) fn need_sign<'s, 't>(
    sign: Sign,
    tokens: &'s [Token<'t>],
    end: usize,
) -> Result<&'s [Token<'t>], SyntaxError>
    ensures { Gives (λ x. marks x.now) result (sign_at sign (marks tokens.now)) }
{
    match after_sign(sign, tokens) {
        Some(rest) => Ok(rest),
        None => Err(SyntaxError::Fault(unexpected(tokens, end))),
    }
}

/// Past this reserved word, if it comes.
#[tactic(auto, using(crate::proofs::TokenLemmas::keyword_mark_is), unfolding(crate::specs::Readers::keyword_at))]
pub(crate) fn after_keyword<'s, 't>(
    keyword: Keyword,
    tokens: &'s [Token<'t>],
) -> Option<&'s [Token<'t>]>
    ensures { option_map (λ x. marks x.now) result ≡ keyword_at keyword (marks tokens.now) }
{
    let (token, rest) = next(tokens)?;
    match token.kind {
        TokenKind::Keyword(found) => { if found == keyword { Some(rest) } else { None } }
        _ => None,
    }
}

/// Past this reserved word, which has to come.
pub(crate) fn need_keyword<'s, 't>(
    keyword: Keyword,
    tokens: &'s [Token<'t>],
    end: usize,
) -> Result<&'s [Token<'t>], SyntaxError>
    ensures { Gives (λ x. marks x.now) result (keyword_at keyword (marks tokens.now)) }
{
    match after_keyword(keyword, tokens) {
        Some(rest) => Ok(rest),
        None => Err(SyntaxError::Fault(unexpected(tokens, end))),
    }
}

/// A `(`, if it comes, and its offset.
#[tactic(auto, unfolding(crate::specs::Readers::open_at))]
pub(crate) fn open_paren<'s, 't>(tokens: &'s [Token<'t>]) -> Option<(usize, &'s [Token<'t>])>
    ensures { option_map (λ x. (x.0, marks x.1.now)) result ≡ open_at (marks tokens.now) }
{
    let (token, rest) = next(tokens)?;
    match token.kind {
        TokenKind::Sign(sign) => match sign {
            Sign::LeftParen => Some((token.at, rest)),
            _ => None,
        },
        _ => None,
    }
}

/// A `(`, which has to come, and its offset.
pub(crate) fn need_open<'s, 't>(
    tokens: &'s [Token<'t>],
    end: usize,
) -> Result<(usize, &'s [Token<'t>]), SyntaxError>
    ensures { Gives (λ x. (x.0, marks x.1.now)) result (open_at (marks tokens.now)) }
{
    match open_paren(tokens) {
        Some(open) => Ok(open),
        None => Err(SyntaxError::Fault(unexpected(tokens, end))),
    }
}

/// A `}`, if it comes, and its offset.
#[tactic(auto, unfolding(crate::specs::Readers::close_at))]
fn close_brace<'s, 't>(tokens: &'s [Token<'t>]) -> Option<(usize, &'s [Token<'t>])>
    ensures { option_map (λ x. (x.0, marks x.1.now)) result ≡ close_at (marks tokens.now) }
{
    let (token, rest) = next(tokens)?;
    match token.kind {
        TokenKind::Sign(sign) => match sign {
            Sign::RightBrace => Some((token.at, rest)),
            _ => None,
        },
        _ => None,
    }
}

/// A `}`, which has to come, and its offset.
pub(crate) fn need_close<'s, 't>(
    tokens: &'s [Token<'t>],
    end: usize,
) -> Result<(usize, &'s [Token<'t>]), SyntaxError>
    ensures { Gives (λ x. (x.0, marks x.1.now)) result (close_at (marks tokens.now)) }
{
    match close_brace(tokens) {
        Some(close) => Ok(close),
        None => Err(SyntaxError::Fault(unexpected(tokens, end))),
    }
}

/// A `+`, which has to come, and its offset.
#[tactic(auto, unfolding(crate::specs::Readers::plus_at))]
pub(crate) fn need_plus<'s, 't>(
    tokens: &'s [Token<'t>],
    end: usize,
) -> Result<(usize, &'s [Token<'t>]), SyntaxError>
    ensures { Gives (λ x. (x.0, marks x.1.now)) result (plus_at (marks tokens.now)) }
{
    let Some((token, rest)) = next(tokens) else {
        return Err(SyntaxError::Fault(unexpected(tokens, end)));
    };
    match token.kind {
        TokenKind::Sign(sign) => match sign {
            Sign::Plus => Ok((token.at, rest)),
            _ => Err(SyntaxError::Fault(unexpected(tokens, end))),
        },
        _ => Err(SyntaxError::Fault(unexpected(tokens, end))),
    }
}

/// A `Clock`, if it comes, and its offset.
#[tactic(auto, unfolding(crate::specs::Readers::clock_at))]
pub(crate) fn clock_word<'s, 't>(tokens: &'s [Token<'t>]) -> Option<(usize, &'s [Token<'t>])>
    ensures { option_map (λ x. (x.0, marks x.1.now)) result ≡ clock_at (marks tokens.now) }
{
    let (token, rest) = next(tokens)?;
    match token.kind {
        TokenKind::Keyword(word) => match word {
            Keyword::Clock => Some((token.at, rest)),
            _ => None,
        },
        _ => None,
    }
}

/// The tokens, unless a `}` comes.
#[tactic(auto, unfolding(crate::specs::Readers::ahead_at))]
pub(crate) fn ahead<'s, 't>(tokens: &'s [Token<'t>]) -> Option<&'s [Token<'t>]>
    ensures { option_map (λ x. marks x.now) result ≡ ahead_at (marks tokens.now) }
{
    match close_brace(tokens) {
        None => Some(tokens),
        Some(_) => None,
    }
}

/// A name.
#[tactic(auto, unfolding(crate::specs::Readers::word_at))]
pub(crate) fn name<'s, 't>(
    tokens: &'s [Token<'t>],
    end: usize,
) -> Result<(Name<'t>, &'s [Token<'t>]), SyntaxError>
    ensures { Gives (λ x. (word x.0, marks x.1.now)) result (word_at (marks tokens.now)) }
{
    let Some((token, rest)) = next(tokens) else {
        return Err(SyntaxError::Fault(unexpected(tokens, end)));
    };
    match token.kind {
        TokenKind::Name(text) => Ok((Name { at: token.at, text }, rest)),
        _ => Err(SyntaxError::Fault(unexpected(tokens, end))),
    }
}

fn text_is(text: &[u8], word: &[u8]) -> bool
    ensures { result ≡ bytes_eq text.now word.now }
{
    text == word
}

/// The name of these letters, if it comes, and its offset.
#[tactic(auto, unfolding(crate::specs::Readers::bind, crate::specs::Readers::word_at, crate::specs::Readers::this_word_at))]
pub(crate) fn this_word<'s, 't>(
    text: &[u8],
    tokens: &'s [Token<'t>],
) -> Option<(usize, &'s [Token<'t>])>
    ensures { option_map (λ x. (x.0, marks x.1.now)) result
        ≡ this_word_at text.now (marks tokens.now) }
{
    let (token, rest) = next(tokens)?;
    match token.kind {
        TokenKind::Name(found) => {
            if text_is(found, text) {
                Some((token.at, rest))
            } else {
                None
            }
        }
        _ => None,
    }
}

/// The name of these letters, which has to come, and its offset.
pub(crate) fn need_word<'s, 't>(
    text: &[u8],
    tokens: &'s [Token<'t>],
    end: usize,
) -> Result<(usize, &'s [Token<'t>]), SyntaxError>
    ensures { Gives (λ x. (x.0, marks x.1.now)) result (this_word_at text.now (marks tokens.now)) }
{
    match this_word(text, tokens) {
        Some(word) => Ok(word),
        None => Err(SyntaxError::Fault(unexpected(tokens, end))),
    }
}

fn comparison_of(sign: Sign) -> Option<Comparison>
    ensures { result ≡ comparison_of sign }
{
    match sign {
        Sign::Equal => Some(Comparison::Eq),
        Sign::NotEqual => Some(Comparison::Ne),
        Sign::Less => Some(Comparison::Lt),
        Sign::LessEqual => Some(Comparison::Le),
        Sign::Greater => Some(Comparison::Gt),
        Sign::GreaterEqual => Some(Comparison::Ge),
        _ => None,
    }
}

/// How two numbers are compared.
#[tactic(auto, using(crate::proofs::TokenLemmas::comparison_mark_is), unfolding(crate::specs::Readers::bind, crate::specs::Readers::comparison_at))]
pub(crate) fn comparison<'s, 't>(
    tokens: &'s [Token<'t>],
    end: usize,
) -> Result<(Comparison, &'s [Token<'t>]), SyntaxError>
    ensures { Gives (λ x. (x.0, marks x.1.now)) result (comparison_at (marks tokens.now)) }
{
    let Some((token, rest)) = next(tokens) else {
        return Err(SyntaxError::Fault(unexpected(tokens, end)));
    };
    match token.kind {
        TokenKind::Sign(sign) => match comparison_of(sign) {
            Some(comparison) => Ok((comparison, rest)),
            None => Err(SyntaxError::Fault(unexpected(tokens, end))),
        },
        _ => Err(SyntaxError::Fault(unexpected(tokens, end))),
    }
}

/// The name of a type.
#[tactic(auto, unfolding(crate::specs::Readers::type_at))]
pub(crate) fn type_name<'s, 't>(
    tokens: &'s [Token<'t>],
    end: usize,
) -> Result<(TypeName, &'s [Token<'t>]), SyntaxError>
    ensures { Gives (λ x. (x.0, marks x.1.now)) result (type_at (marks tokens.now)) }
{
    let Some((token, rest)) = next(tokens) else {
        return Err(SyntaxError::Fault(unexpected(tokens, end)));
    };
    let at = token.at;
    match token.kind {
        TokenKind::Keyword(word) => match word {
            Keyword::Clock => Ok((
                TypeName {
                    at,
                    kind: ParamKind::Clock,
                },
                rest,
            )),
            Keyword::Long => Ok((
                TypeName {
                    at,
                    kind: ParamKind::Number,
                },
                rest,
            )),
            _ => Err(SyntaxError::Fault(unexpected(tokens, end))),
        },
        _ => Err(SyntaxError::Fault(unexpected(tokens, end))),
    }
}
