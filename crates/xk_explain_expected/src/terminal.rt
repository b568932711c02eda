//! Tokens as the grammar tells them apart.

ghost use Rattle.std.specs.Prelude.{◌≡◌};
ghost use Rattle.std.specs.Str.{bytes_eq};
ghost use Rattle.xk_lexer.specs.Tokens.{lexeme};
ghost use Rattle.xk_explain_expected.specs.Grammar.{is_same, keyword_terminal, name_terminal, sign_terminal, terminal_of, terminal_text};

use xk_lexer::{Keyword, Sign, TokenKind};

/// What a token is in the grammar: signs and words that stand in the same places are one.
#[derive(Clone, Copy, Debug)]
pub(crate) enum Terminal {
    LeftParen,
    RightParen,
    LeftBrace,
    RightBrace,
    Comma,
    Semicolon,
    Colon,
    Assign,
    Plus,
    Minus,
    Star,
    Dot,
    DotDot,
    /// `==`, `!=`, `<`, `<=`, `>` or `>=`.
    Comparison,
    Shared,
    Def,
    /// `val` or `var`.
    Binding,
    If,
    Else,
    For,
    In,
    Async,
    Clocked,
    Finish,
    Atomic,
    Clock,
    Long,
    Console,
    Math,
    Min,
    Make,
    /// `resume` or `drop`.
    Verb,
    AdvanceAll,
    Out,
    Println,
    /// A name that the grammar doesn't speak of.
    Name,
    Digits,
    /// The end of the text.
    End,
    /// What no number or token is.
    Unfit,
}

/// How a terminal is told.
pub(crate) fn terminal_text(t: Terminal) -> &'static str
    ensures { result.now ≡ terminal_text t }
{
    match t {
        Terminal::LeftParen => "`(`",
        Terminal::RightParen => "`)`",
        Terminal::LeftBrace => "`{`",
        Terminal::RightBrace => "`}`",
        Terminal::Comma => "`,`",
        Terminal::Semicolon => "`;`",
        Terminal::Colon => "`:`",
        Terminal::Assign => "`=`",
        Terminal::Plus => "`+`",
        Terminal::Minus => "`-`",
        Terminal::Star => "`*`",
        Terminal::Dot => "`.`",
        Terminal::DotDot => "`..`",
        Terminal::Comparison => "`==`, `!=`, `<`, `<=`, `>`, `>=`",
        Terminal::Shared => "`shared`",
        Terminal::Def => "`def`",
        Terminal::Binding => "`val`, `var`",
        Terminal::If => "`if`",
        Terminal::Else => "`else`",
        Terminal::For => "`for`",
        Terminal::In => "`in`",
        Terminal::Async => "`async`",
        Terminal::Clocked => "`clocked`",
        Terminal::Finish => "`finish`",
        Terminal::Atomic => "`atomic`",
        Terminal::Clock => "`Clock`",
        Terminal::Long => "`Long`",
        Terminal::Console => "`Console`",
        Terminal::Math => "`Math`",
        Terminal::Min => "`min`",
        Terminal::Make => "`make`",
        Terminal::Verb => "`resume`, `drop`",
        Terminal::AdvanceAll => "`advanceAll`",
        Terminal::Out => "`OUT`",
        Terminal::Println => "`println`",
        Terminal::Name => "a name",
        Terminal::Digits => "a number",
        Terminal::End => "the end of the text",
        Terminal::Unfit => "no token",
    }
}

/// Whether two texts are the same.
fn is_spelled(text: &[u8], word: &[u8]) -> bool
    ensures { result ≡ bytes_eq text.now word.now }
{
    text == word
}

/// Whether two terminals are the same: they are told alike.
pub(crate) fn is_same(a: Terminal, b: Terminal) -> bool
    ensures { result ≡ is_same a b }
{
    is_spelled(terminal_text(a).as_bytes(), terminal_text(b).as_bytes())
}

/// The terminal of a sign.
fn sign_terminal(sign: Sign) -> Terminal
    ensures { result ≡ sign_terminal sign }
{
    match sign {
        Sign::LeftParen => Terminal::LeftParen,
        Sign::RightParen => Terminal::RightParen,
        Sign::LeftBrace => Terminal::LeftBrace,
        Sign::RightBrace => Terminal::RightBrace,
        Sign::Comma => Terminal::Comma,
        Sign::Semicolon => Terminal::Semicolon,
        Sign::Colon => Terminal::Colon,
        Sign::Assign => Terminal::Assign,
        Sign::Plus => Terminal::Plus,
        Sign::Minus => Terminal::Minus,
        Sign::Star => Terminal::Star,
        Sign::Dot => Terminal::Dot,
        Sign::DotDot => Terminal::DotDot,
        Sign::Equal => Terminal::Comparison,
        Sign::NotEqual => Terminal::Comparison,
        Sign::Less => Terminal::Comparison,
        Sign::LessEqual => Terminal::Comparison,
        Sign::Greater => Terminal::Comparison,
        Sign::GreaterEqual => Terminal::Comparison,
    }
}

/// The terminal of a reserved word.
fn keyword_terminal(word: Keyword) -> Terminal
    ensures { result ≡ keyword_terminal word }
{
    match word {
        Keyword::Shared => Terminal::Shared,
        Keyword::Def => Terminal::Def,
        Keyword::Val => Terminal::Binding,
        Keyword::Var => Terminal::Binding,
        Keyword::If => Terminal::If,
        Keyword::Else => Terminal::Else,
        Keyword::For => Terminal::For,
        Keyword::In => Terminal::In,
        Keyword::Async => Terminal::Async,
        Keyword::Clocked => Terminal::Clocked,
        Keyword::Finish => Terminal::Finish,
        Keyword::Atomic => Terminal::Atomic,
        Keyword::Clock => Terminal::Clock,
        Keyword::Long => Terminal::Long,
        Keyword::Console => Terminal::Console,
    }
}

/// The terminal of a name: some names are words of the grammar in their places.
#[tactic(auto, unfolding(crate::specs::Grammar::name_terminal))]
fn name_terminal(name: &[u8]) -> Terminal
    ensures { result ≡ name_terminal name.now }
{
    if is_spelled(name, b"Math") {
        Terminal::Math
    } else if is_spelled(name, b"min") {
        Terminal::Min
    } else if is_spelled(name, b"make") {
        Terminal::Make
    } else if is_spelled(name, b"resume") || is_spelled(name, b"drop") {
        Terminal::Verb
    } else if is_spelled(name, b"advanceAll") {
        Terminal::AdvanceAll
    } else if is_spelled(name, b"OUT") {
        Terminal::Out
    } else if is_spelled(name, b"println") {
        Terminal::Println
    } else {
        Terminal::Name
    }
}

/// The terminal of a token.
pub(crate) fn terminal_of(kind: TokenKind<'_>) -> Terminal
    ensures { result ≡ terminal_of (lexeme kind.entry) }
{
    match kind {
        TokenKind::Name(text) => name_terminal(text),
        TokenKind::Keyword(word) => keyword_terminal(word),
        TokenKind::Number(_) => Terminal::Digits,
        TokenKind::BadNumber => Terminal::Unfit,
        TokenKind::Sign(sign) => sign_terminal(sign),
        TokenKind::Stray => Terminal::Unfit,
    }
}
