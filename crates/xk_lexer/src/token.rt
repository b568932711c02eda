//! Tokens: names, reserved words, numbers and signs, each with the offset of its first byte.

/// A sign.
#[derive(Clone, Copy, Debug, PartialEq, Eq)]
pub enum Sign {
    LeftParen,
    RightParen,
    LeftBrace,
    RightBrace,
    Comma,
    Semicolon,
    Colon,
    Assign,
    Plus,
    Minus,
    Star,
    Dot,
    DotDot,
    Equal,
    NotEqual,
    Less,
    LessEqual,
    Greater,
    GreaterEqual,
}

/// A reserved word: it is never a name.
#[derive(Clone, Copy, Debug, PartialEq, Eq)]
pub enum Keyword {
    Shared,
    Def,
    Val,
    Var,
    If,
    Else,
    For,
    In,
    Async,
    Clocked,
    Finish,
    Atomic,
    Clock,
    Long,
    Console,
}

/// What a token is.
#[derive(Clone, Copy)]
pub enum TokenKind<'t> {
    /// A word that isn't reserved.
    Name(&'t [u8]),
    Keyword(Keyword),
    /// A digit run of a value up to 2 to the 63rd.
    Number(u64),
    /// A digit run that begins with a needless 0, or has a greater value.
    BadNumber,
    Sign(Sign),
    /// The rest of a text, where no token begins: another character, or a `/*` that isn't closed.
    Stray,
}

/// A token, and the offset of its first byte in the text.
#[derive(Clone, Copy)]
pub struct Token<'t> {
    pub at: usize,
    pub kind: TokenKind<'t>,
}
