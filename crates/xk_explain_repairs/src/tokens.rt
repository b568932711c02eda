//! What is advised where no token begins.

ghost use Rattle.std.specs.Prelude.{◌≡◌};
ghost use Rattle.xk_explain_repairs.specs.Repairs.{advice_at_foreign, advice_at_hash, advice_at_stray, token_advice};

use crate::advice::Advice;
use xk_explain_parts::is_foreign;
use xk_explain_words::{
    begins, is_comparison_sign, is_dash, is_other_blank, is_quote, is_wide, is_without_width,
};

/// By a sign that begins no token.
#[tactic(auto, unfolding(crate::specs::Repairs::advice_at_stray))]
fn advice_at_stray(rest: &[u8], other: Advice) -> Advice
    ensures { result ≡ advice_at_stray rest.now other }
{
    if begins(rest, b"/*") {
        Advice::CloseComment
    } else if begins(rest, b"%") {
        Advice::NoRemainder
    } else if begins(rest, b"/") {
        Advice::NoDivision
    } else if begins(rest, b"^") {
        Advice::NoPower
    } else if begins(rest, b"[") {
        Advice::NoArrays
    } else if begins(rest, b"\"") || begins(rest, b"'") {
        Advice::NoTexts
    } else if begins(rest, b"&") {
        Advice::BothConditions
    } else if begins(rest, b"|") {
        Advice::EitherCondition
    } else if begins(rest, b"!") {
        Advice::NoNegation
    } else if begins(rest, b"?") {
        Advice::NoChoice
    } else if begins(rest, b"@") {
        Advice::NoAnnotations
    } else if begins(rest, b"#") {
        Advice::CommentSign
    } else {
        other
    }
}

/// By a line for the preprocessor of C.
#[tactic(auto, unfolding(crate::specs::Repairs::advice_at_hash))]
fn advice_at_hash(rest: &[u8], other: Advice) -> Advice
    ensures { result ≡ advice_at_hash rest.now other }
{
    if begins(rest, b"#pragma") {
        Advice::Parallel
    } else if begins(rest, b"#include")
        || begins(rest, b"#define")
        || begins(rest, b"#import")
        || begins(rest, b"#using")
    {
        Advice::Program
    } else {
        other
    }
}

/// By a sign that isn't of ASCII; the text may begin with a byte order mark.
#[tactic(auto, unfolding(crate::specs::Repairs::advice_at_foreign))]
fn advice_at_foreign(at: usize, rest: &[u8]) -> Advice
    ensures { result ≡ advice_at_foreign at rest.now }
{
    if at == 0 && begins(rest, &[239, 187, 191]) {
        Advice::ByteOrderMark
    } else if begins(rest, &[194, 160]) {
        Advice::NoBreakSpace
    } else if is_quote(rest) {
        Advice::TypographicQuote
    } else if is_dash(rest) {
        Advice::Dash
    } else if is_wide(rest) {
        Advice::WideSign
    } else if is_other_blank(rest) {
        Advice::OtherBlank
    } else if is_without_width(rest) {
        Advice::NoWidth
    } else if is_comparison_sign(rest) {
        Advice::ComparisonSign
    } else if begins(rest, &[195, 151]) {
        Advice::MultiplicationSign
    } else if begins(rest, &[226, 128, 166]) {
        Advice::TwoPoints
    } else {
        Advice::AsciiNames
    }
}

/// Where no token begins.
pub(crate) fn token_advice(at: usize, rest: &[u8]) -> Advice
    ensures { result ≡ token_advice at rest.now }
{
    if is_foreign(rest) {
        return advice_at_foreign(at, rest);
    }
    advice_at_hash(rest, advice_at_stray(rest, Advice::Usual))
}
