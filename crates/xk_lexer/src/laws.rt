//! What it means that a text is read as tokens: nothing here is computed.

ghost use Rattle.std.specs.Prelude.{◌≡◌, ◌<◌, ◌↔◌, ℕ, List, length, All, IsTrue, IsFalse};
ghost use Rattle.std.specs.List.Sorted.{IsStrictlyIncreasing};
ghost use Rattle.xk_lexer.specs.Tokens.{TokenValue};
ghost use Rattle.xk_lexer.specs.Pieces.{IsReadAs, SpellsTokens, Strays, has_stray, offsets};
ghost use Rattle.xk_lexer.specs.Lexing.{lexed};

/// Every text is read as tokens, in one way: as `lexed` gives them.
pub fn readings()
    ensures { (text : List ℕ) (tokens : List TokenValue)
        → IsReadAs text tokens ↔ (lexed text ≡ tokens) }
{}

/// A text that spells tokens is read as these, without a stray one. So it spells at most one list.
pub fn spelled_tokens()
    ensures again { (text : List ℕ) (tokens : List TokenValue)
        → SpellsTokens text tokens → lexed text ≡ tokens }
    ensures none_stray { (text : List ℕ) (tokens : List TokenValue)
        → SpellsTokens text tokens → IsFalse (has_stray tokens) }
    ensures one_list { (text : List ℕ) (a b : List TokenValue)
        → SpellsTokens text a → SpellsTokens text b → a ≡ b }
{}

/// A text that is read without a stray token spells the tokens. One that is read with a stray token spells none: the
/// stray one is the last, and no piece begins at its offset.
pub fn stray_tokens()
    ensures none { (text : List ℕ)
        → IsFalse (has_stray (lexed text)) → SpellsTokens text (lexed text) }
    ensures one { (text : List ℕ)
        → IsTrue (has_stray (lexed text)) → Strays text (lexed text) }
    ensures spells_none { (text : List ℕ) (tokens : List TokenValue)
        → IsTrue (has_stray (lexed text)) → ¬ SpellsTokens text tokens }
{}

/// Offsets of tokens rise, and lie in the text.
pub fn token_offsets()
    ensures rising { (text : List ℕ) → IsStrictlyIncreasing (offsets (lexed text)) }
    ensures within { (text : List ℕ) → All (λ at. at < length text) (offsets (lexed text)) }
{}
