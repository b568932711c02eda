//! What stands before and behind a place of a text: names alone, declarations, heads of methods, words of the language and of others.

ghost use Rattle.std.specs.Prelude.{◌≡◌, ◌≤◌, length, not};
ghost use Rattle.std.specs.List.{prefix_len};
ghost use Rattle.xk_explain_parts.specs.Parts.{before_word, behind_first, behind_head, ends_head, ends_part, ends_value, goes_on};
ghost use Rattle.xk_explain_parts.specs.Parts.{has_line_feed, has_paren, head_text, is_alone, is_barrier, is_before_def, is_begun};
ghost use Rattle.xk_explain_parts.specs.Parts.{is_binder, is_binding, is_clock_word, is_comparison, is_declared, is_equality, is_foreign};
ghost use Rattle.xk_explain_parts.specs.Parts.{is_method_head, is_number, is_number_head, is_number_type, is_outside, is_pair, is_reserved};
ghost use Rattle.xk_explain_parts.specs.Parts.{is_listed, is_second, is_statement, is_type, is_typed, is_word, wants_name, wants_value};

use xk_explain_words::{
    begins, ends, first_word, from_sign, is_digit, is_spelled, is_word_byte, last_word, to_sign,
};

/// Whether a sign that isn't of ASCII stands there.
pub fn is_foreign(rest: &[u8]) -> bool
    ensures { result ≡ is_foreign rest.now }
{
    match rest {
        [] => false,
        [b, ..] => *b >= 128,
    }
}

/// Whether a declaration of other languages begins so.
#[tactic(auto, unfolding(crate::specs::Parts::is_binder))]
fn is_binder(word: &[u8]) -> bool
    ensures { result ≡ is_binder word.now }
{
    is_spelled(word, b"let")
        || is_spelled(word, b"const")
        || is_spelled(word, b"final")
        || is_spelled(word, b"mut")
        || is_spelled(word, b"auto")
}

/// Whether a type of numbers has this name elsewhere.
#[tactic(auto, unfolding(crate::specs::Parts::is_number_type))]
fn is_number_type(word: &[u8]) -> bool
    ensures { result ≡ is_number_type word.now }
{
    is_spelled(word, b"int")
        || is_spelled(word, b"long")
        || is_spelled(word, b"Int")
        || is_spelled(word, b"bool")
        || is_spelled(word, b"boolean")
        || is_spelled(word, b"float")
        || is_spelled(word, b"double")
        || is_spelled(word, b"unsigned")
        || is_spelled(word, b"short")
}

/// Whether a number is declared so in other languages.
pub fn is_type(word: &[u8]) -> bool
    ensures { result ≡ is_type word.now }
{
    is_binder(word) || is_number_type(word)
}

/// Whether it is a word of the language.
#[tactic(auto, unfolding(crate::specs::Parts::is_reserved))]
pub fn is_reserved(word: &[u8]) -> bool
    ensures { result ≡ is_reserved word.now }
{
    is_spelled(word, b"shared")
        || is_spelled(word, b"def")
        || is_spelled(word, b"val")
        || is_spelled(word, b"var")
        || is_spelled(word, b"if")
        || is_spelled(word, b"else")
        || is_spelled(word, b"for")
        || is_spelled(word, b"in")
        || is_spelled(word, b"async")
        || is_spelled(word, b"clocked")
        || is_spelled(word, b"finish")
        || is_spelled(word, b"atomic")
        || is_spelled(word, b"Clock")
        || is_spelled(word, b"Long")
        || is_spelled(word, b"Console")
}

/// Whether a name is wanted behind it.
#[tactic(auto, unfolding(crate::specs::Parts::wants_name))]
pub fn wants_name(word: &[u8]) -> bool
    ensures { result ≡ wants_name word.now }
{
    is_spelled(word, b"def") || is_spelled(word, b"val") || is_spelled(word, b"var")
}

/// Whether there is a word.
pub fn is_word(word: &[u8]) -> bool
    ensures { result ≡ is_word word.now }
{
    match word {
        [] => false,
        [_, ..] => true,
    }
}

/// Whether a word is a number.
pub fn is_number(word: &[u8]) -> bool
    ensures { result ≡ is_number word.now }
{
    match word {
        [] => false,
        [b, ..] => is_digit(*b),
    }
}

/// Whether a letter, a digit or a point stands there.
pub fn goes_on(rest: &[u8]) -> bool
    ensures { result ≡ goes_on rest.now }
{
    match rest {
        [] => false,
        [b, ..] => is_word_byte(*b) || *b == b'.',
    }
}

/// Whether it is `Clock`, or written for it.
pub fn is_clock_word(word: &[u8]) -> bool
    ensures { result ≡ is_clock_word word.now }
{
    is_spelled(word, b"Clock") || is_spelled(word, b"clock")
}

/// Whether a value is wanted behind it.
#[tactic(auto, unfolding(crate::specs::Parts::wants_value))]
pub fn wants_value(before: &[u8]) -> bool
    ensures { result ≡ wants_value before.now }
{
    ends(before, b"+")
        || ends(before, b"-")
        || ends(before, b"*")
        || ends(before, b"=")
        || ends(before, b",")
}

/// Whether a value ends before it.
#[tactic(auto, unfolding(crate::specs::Parts::ends_value))]
pub fn ends_value(rest: &[u8]) -> bool
    ensures { result ≡ ends_value rest.now }
{
    begins(rest, b";") || begins(rest, b")") || begins(rest, b",")
}

/// Whether the fault stands between these two signs.
pub fn is_pair(before: &[u8], rest: &[u8], first: &[u8], second: &[u8]) -> bool
    ensures { result ≡ is_pair before.now rest.now first.now second.now }
{
    ends(before, first) && begins(rest, second)
}

/// Whether a statement may begin behind it.
fn is_begun(before: &[u8]) -> bool
    ensures { result ≡ is_begun before.now }
{
    ends(before, b";") || ends(before, b"{") || ends(before, b"}") || ends(before, b")")
}

/// What stands before the word that a text ends with.
fn before_word(before: &[u8]) -> &[u8]
    ensures { result.now ≡ before_word before.now }
{
    let word = last_word(before);
    to_sign(&before[..before.len() - word.len()])
}

/// Whether a name alone stands between the end of a statement and the fault.
pub fn is_alone(before: &[u8]) -> bool
    ensures { result ≡ is_alone before.now }
{
    let word = last_word(before);
    is_word(word) && !(is_reserved(word) || is_number(word)) && is_begun(before_word(before))
}

/// Whether a declaration begins so.
pub fn is_binding(word: &[u8]) -> bool
    ensures { result ≡ is_binding word.now }
{
    is_spelled(word, b"val") || is_spelled(word, b"var")
}

/// Whether a `val` or a `var` of this name begins there.
pub fn is_declared(before: &[u8]) -> bool
    ensures { result ≡ is_declared before.now }
{
    is_word(last_word(before)) && is_binding(last_word(before_word(before)))
}

/// Whether a `==` stands there.
pub fn is_equality(rest: &[u8]) -> bool
    ensures { result ≡ is_equality rest.now }
{
    begins(rest, b"==")
}

/// Whether two things are compared there.
#[tactic(auto, unfolding(crate::specs::Parts::is_comparison))]
pub fn is_comparison(rest: &[u8]) -> bool
    ensures { result ≡ is_comparison rest.now }
{
    is_equality(rest) || begins(rest, b"!=") || begins(rest, b"<") || begins(rest, b">")
}

/// Whether a type stands at the end.
pub fn is_typed(before: &[u8]) -> bool
    ensures { result ≡ is_typed before.now }
{
    ends(before_word(before), b":")
}

/// Whether a name stands at the end, as a parameter's without a type.
pub fn is_listed(before: &[u8]) -> bool
    ensures { result ≡ is_listed before.now }
{
    let kept = before_word(before);
    is_word(last_word(before)) && (ends(kept, b"(") || ends(kept, b","))
}

/// Whether a statement, or a part of one, may end so.
pub fn ends_part(before: &[u8]) -> bool
    ensures { result ≡ ends_part before.now }
{
    is_word(last_word(before)) || ends(before, b")")
}

/// Whether there is the end of a line.
pub fn has_line_feed(text: &[u8]) -> bool
    ensures { result ≡ has_line_feed text.now }
{
    text.iter().any(|b| *b == b'\n')
}

/// Whether the head of a method, or what stands before a value, ends there.
#[tactic(auto, unfolding(crate::specs::Parts::ends_head))]
fn ends_head(b: u8) -> bool
    ensures { result ≡ ends_head b }
{
    b == b'{' || b == b';' || b == b'='
}

/// How many bytes stand before that.
fn head_len(rest: &[u8]) -> usize
    ensures count { result ≡ prefix_len (λ b. not (ends_head b)) rest.now }
    ensures within { result ≤ length rest.now }
{
    rest.iter().take_while(|&&b| !ends_head(b)).count()
}

/// What stands before that.
fn head_text(rest: &[u8]) -> &[u8]
    ensures { result.now ≡ head_text rest.now }
{
    &rest[..head_len(rest)]
}

/// What the text goes on with there.
fn behind_head(rest: &[u8]) -> &[u8]
    ensures { result.now ≡ behind_head rest.now }
{
    &rest[head_len(rest)..]
}

/// Whether a `(` is in there.
fn has_paren(text: &[u8]) -> bool
    ensures { result ≡ has_paren text.now }
{
    text.iter().any(|b| *b == b'(')
}

/// Whether a statement begins so.
#[tactic(auto, unfolding(crate::specs::Parts::is_statement))]
fn is_statement(word: &[u8]) -> bool
    ensures { result ≡ is_statement word.now }
{
    is_spelled(word, b"if")
        || is_spelled(word, b"for")
        || is_spelled(word, b"while")
        || is_spelled(word, b"finish")
        || is_spelled(word, b"async")
        || is_spelled(word, b"clocked")
        || is_spelled(word, b"atomic")
        || is_spelled(word, b"Console")
        || is_spelled(word, b"System")
        || is_spelled(word, b"Clock")
}

/// Whether the text goes on with the head of a method, without a `def`.
#[tactic(auto, unfolding(crate::specs::Parts::is_method_head))]
pub fn is_method_head(rest: &[u8]) -> bool
    ensures { result ≡ is_method_head rest.now }
{
    has_paren(head_text(rest)) && begins(behind_head(rest), b"{") && !is_statement(first_word(rest))
}

/// Whether it goes on with what stands before a number's value.
#[tactic(auto, unfolding(crate::specs::Parts::is_number_head))]
pub fn is_number_head(rest: &[u8]) -> bool
    ensures { result ≡ is_number_head rest.now }
{
    is_word(first_word(rest)) && !has_paren(head_text(rest)) && begins(behind_head(rest), b"=")
}

/// What stands behind the first word.
pub fn behind_first(rest: &[u8]) -> &[u8]
    ensures { result.now ≡ behind_first rest.now }
{
    from_sign(&rest[first_word(rest).len()..])
}

/// Whether a word stands before a `def`.
#[tactic(auto, unfolding(crate::specs::Parts::is_before_def))]
pub fn is_before_def(rest: &[u8]) -> bool
    ensures { result ≡ is_before_def rest.now }
{
    is_word(first_word(rest)) && is_spelled(first_word(behind_first(rest)), b"def")
}

/// Whether nothing stands before, or a shared number may.
pub fn is_outside(before: &[u8]) -> bool
    ensures { result ≡ is_outside before.now }
{
    match before {
        [] => true,
        [_, ..] => ends(before, b";"),
    }
}

/// Whether a barrier is called so elsewhere.
#[tactic(auto, unfolding(crate::specs::Parts::is_barrier))]
pub fn is_barrier(word: &[u8]) -> bool
    ensures { result ≡ is_barrier word.now }
{
    is_spelled(word, b"next") || is_spelled(word, b"advance") || is_spelled(word, b"barrier")
}

/// Whether the second name of an `atomic` stands behind its `=`.
pub fn is_second(before: &[u8]) -> bool
    ensures { result ≡ is_second before.now }
{
    let kept = to_sign(&before[..before.len().saturating_sub(1)]);
    ends(before, b"=") && is_spelled(last_word(before_word(kept)), b"atomic")
}
