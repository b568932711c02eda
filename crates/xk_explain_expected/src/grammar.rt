//! The grammar as a table: what a symbol on the stack begins with, and what comes behind that.

ghost use Rattle.std.specs.Prelude.{◌≡◌, option_map};
ghost use Rattle.xk_explain_expected.specs.Grammar.{addition, advance, after_async, after_async_clocked, after_clocked, after_name};
ghost use Rattle.xk_explain_expected.specs.Grammar.{arguments, begun, bound, condition, declaration, factor, is_name, methods};
ghost use Rattle.xk_explain_expected.specs.Grammar.{more_arguments, more_clocks, more_factors, more_params, more_terms, number};
ghost use Rattle.xk_explain_expected.specs.Grammar.{optional_else, optional_type, params, print, produced, program, range, right};
ghost use Rattle.xk_explain_expected.specs.Grammar.{statement, statements, taken_if, type_name};
ghost use Rattle.xk_explain_expected.specs.Views.{entry_value};

use crate::terminal::{Terminal, is_same};

/// A part of a program that has yet to come.
#[derive(Clone, Copy, Debug)]
pub(crate) enum Symbol {
    /// This terminal alone.
    Takes(Terminal),
    /// Any name.
    Name,
    /// A number, with its `-`.
    Number,
    /// Shared numbers and methods, and the end of the text.
    Program,
    /// Methods, and the end of the text.
    Methods,
    /// The parameters of a method, behind its `(`.
    Params,
    /// The same behind the first one.
    MoreParams,
    /// `Clock` or `Long`.
    TypeName,
    /// A `:` and a type, or nothing.
    OptionalType,
    /// A statement.
    Statement,
    /// Statements up to a `}`.
    Statements,
    /// What stands behind `val` or `var`.
    Declaration,
    /// What stands behind `atomic`.
    Addition,
    /// What stands behind `if`.
    Condition,
    /// What stands behind `for`.
    Range,
    /// What stands behind `Clock`, where a statement begins with it.
    Advance,
    /// What stands behind `Console`.
    Print,
    /// What stands behind the `=` of a `val` or a `var`.
    Right,
    /// A statement behind the name that it begins with, up to its `;`.
    AfterName,
    /// The arguments of a call, behind its `(`.
    Arguments,
    /// The same behind the first one.
    MoreArguments,
    /// An `else` and its statement, or nothing.
    OptionalElse,
    /// What stands behind an `async`.
    AfterAsync,
    /// What stands behind `async clocked`.
    AfterAsyncClocked,
    /// What stands behind the `clocked` that a statement begins with.
    AfterClocked,
    /// The clocks of a list behind the first one.
    MoreClocks,
    /// How far a loop goes.
    Bound,
    /// An expression.
    Expression,
    /// The terms behind the first one.
    MoreTerms,
    /// A term.
    Term,
    /// The factors behind the first one.
    MoreFactors,
    /// A factor.
    Factor,
}

/// What the table has for a symbol and a terminal.
#[derive(Clone, Copy, Debug)]
pub(crate) enum Entry {
    /// Nothing.
    Refused,
    /// The symbol stands for no token here: the next one on the stack is asked.
    Skipped,
    /// The symbol begins with this terminal, and these come behind that.
    Behind(&'static [Symbol], &'static [Symbol]),
}

/// A part that may begin with the terminal, and more behind it.
fn begun(part: Option<&'static [Symbol]>, more: &'static [Symbol]) -> Entry
    ensures { entry_value result ≡ begun (option_map (λ row. row.now) part.entry) more.now }
{
    match part {
        None => Entry::Refused,
        Some(row) => Entry::Behind(row, more),
    }
}

/// Whether a terminal is a name: those that are words of the grammar elsewhere are.
pub(crate) fn is_name(t: Terminal) -> bool
    ensures { result ≡ is_name t }
{
    match t {
        Terminal::Name
        | Terminal::Math
        | Terminal::Min
        | Terminal::Make
        | Terminal::Verb
        | Terminal::AdvanceAll
        | Terminal::Out
        | Terminal::Println => true,
        _ => false,
    }
}

/// The terminal is taken, with nothing behind it, or refused.
fn taken_if(fits: bool) -> Entry
    ensures { entry_value result ≡ taken_if fits }
{
    if fits {
        Entry::Behind(&[], &[])
    } else {
        Entry::Refused
    }
}

/// A number: `[ "-" ] DIGITS`.
fn number(t: Terminal) -> Entry
    ensures { entry_value result ≡ number t }
{
    match t {
        Terminal::Minus => Entry::Behind(&[Symbol::Takes(Terminal::Digits)], &[]),
        Terminal::Digits => Entry::Behind(&[], &[]),
        _ => Entry::Refused,
    }
}

/// The program: `{ shared } { method }`, with `"shared" NAME "=" number ";"` for each shared number.
fn program(t: Terminal) -> Entry
    ensures { entry_value result ≡ program t }
{
    match t {
        Terminal::Shared => Entry::Behind(
            &[
                Symbol::Name,
                Symbol::Takes(Terminal::Assign),
                Symbol::Number,
                Symbol::Takes(Terminal::Semicolon),
                Symbol::Program,
            ],
            &[],
        ),
        Terminal::Def => Entry::Behind(
            &[
                Symbol::Name,
                Symbol::Takes(Terminal::LeftParen),
                Symbol::Params,
                Symbol::Takes(Terminal::LeftBrace),
                Symbol::Statements,
                Symbol::Methods,
            ],
            &[],
        ),
        Terminal::End => Entry::Behind(&[], &[]),
        _ => Entry::Refused,
    }
}

/// Methods: `"def" NAME "(" [ param { "," param } ] ")" block` each, up to the end of the text.
fn methods(t: Terminal) -> Entry
    ensures { entry_value result ≡ methods t }
{
    match t {
        Terminal::Def => Entry::Behind(
            &[
                Symbol::Name,
                Symbol::Takes(Terminal::LeftParen),
                Symbol::Params,
                Symbol::Takes(Terminal::LeftBrace),
                Symbol::Statements,
                Symbol::Methods,
            ],
            &[],
        ),
        Terminal::End => Entry::Behind(&[], &[]),
        _ => Entry::Refused,
    }
}

/// Parameters: `[ param { "," param } ] ")"`, with `NAME ":" type` for each.
fn params(t: Terminal) -> Entry
    ensures { entry_value result ≡ params t }
{
    match t {
        Terminal::RightParen => Entry::Behind(&[], &[]),
        _ => if is_name(t) {
            Entry::Behind(
                &[
                    Symbol::Takes(Terminal::Colon),
                    Symbol::TypeName,
                    Symbol::MoreParams,
                ],
                &[],
            )
        } else {
            Entry::Refused
        },
    }
}

/// Further parameters: `{ "," param } ")"`.
fn more_params(t: Terminal) -> Entry
    ensures { entry_value result ≡ more_params t }
{
    match t {
        Terminal::Comma => Entry::Behind(
            &[
                Symbol::Name,
                Symbol::Takes(Terminal::Colon),
                Symbol::TypeName,
                Symbol::MoreParams,
            ],
            &[],
        ),
        Terminal::RightParen => Entry::Behind(&[], &[]),
        _ => Entry::Refused,
    }
}

/// A type: `"Clock" | "Long"`.
fn type_name(t: Terminal) -> Entry
    ensures { entry_value result ≡ type_name t }
{
    match t {
        Terminal::Clock => Entry::Behind(&[], &[]),
        Terminal::Long => Entry::Behind(&[], &[]),
        _ => Entry::Refused,
    }
}

/// A type that may be left out: `[ ":" type ]`.
fn optional_type(t: Terminal) -> Entry
    ensures { entry_value result ≡ optional_type t }
{
    match t {
        Terminal::Colon => Entry::Behind(&[Symbol::TypeName], &[]),
        _ => Entry::Skipped,
    }
}

/// A factor: `number | NAME | "(" expr ")" | "-" factor`. A `-` before digits is a factor's too.
fn factor(t: Terminal) -> Option<&'static [Symbol]>
    ensures { option_map (λ row. row.now) result ≡ factor t }
{
    match t {
        Terminal::Digits => Some(&[]),
        Terminal::LeftParen => Some(&[Symbol::Expression, Symbol::Takes(Terminal::RightParen)]),
        Terminal::Minus => Some(&[Symbol::Factor]),
        _ => if is_name(t) { Some(&[]) } else { None },
    }
}

/// Further factors: `{ "*" factor }`.
fn more_factors(t: Terminal) -> Entry
    ensures { entry_value result ≡ more_factors t }
{
    match t {
        Terminal::Star => Entry::Behind(&[Symbol::Factor, Symbol::MoreFactors], &[]),
        _ => Entry::Skipped,
    }
}

/// Further terms: `{ ( "+" | "-" ) term }`.
fn more_terms(t: Terminal) -> Entry
    ensures { entry_value result ≡ more_terms t }
{
    match t {
        Terminal::Plus => Entry::Behind(&[Symbol::Term, Symbol::MoreTerms], &[]),
        Terminal::Minus => Entry::Behind(&[Symbol::Term, Symbol::MoreTerms], &[]),
        _ => Entry::Skipped,
    }
}

/// Behind `val` or `var`: `NAME [ ":" type ] "=" right ";"`.
fn declaration(t: Terminal) -> Entry
    ensures { entry_value result ≡ declaration t }
{
    if is_name(t) {
        Entry::Behind(
            &[
                Symbol::OptionalType,
                Symbol::Takes(Terminal::Assign),
                Symbol::Right,
                Symbol::Takes(Terminal::Semicolon),
            ],
            &[],
        )
    } else {
        Entry::Refused
    }
}

/// Behind `atomic`: `NAME "=" NAME "+" term ";"`.
fn addition(t: Terminal) -> Entry
    ensures { entry_value result ≡ addition t }
{
    if is_name(t) {
        Entry::Behind(
            &[
                Symbol::Takes(Terminal::Assign),
                Symbol::Name,
                Symbol::Takes(Terminal::Plus),
                Symbol::Term,
                Symbol::Takes(Terminal::Semicolon),
            ],
            &[],
        )
    } else {
        Entry::Refused
    }
}

/// Behind `if`: `"(" expr cmp expr ")" stmt [ "else" stmt ]`.
fn condition(t: Terminal) -> Entry
    ensures { entry_value result ≡ condition t }
{
    match t {
        Terminal::LeftParen => Entry::Behind(
            &[
                Symbol::Expression,
                Symbol::Takes(Terminal::Comparison),
                Symbol::Expression,
                Symbol::Takes(Terminal::RightParen),
                Symbol::Statement,
                Symbol::OptionalElse,
            ],
            &[],
        ),
        _ => Entry::Refused,
    }
}

/// Behind `for`: `"(" NAME "in" number ".." bound ")" stmt`.
fn range(t: Terminal) -> Entry
    ensures { entry_value result ≡ range t }
{
    match t {
        Terminal::LeftParen => Entry::Behind(
            &[
                Symbol::Name,
                Symbol::Takes(Terminal::In),
                Symbol::Number,
                Symbol::Takes(Terminal::DotDot),
                Symbol::Bound,
                Symbol::Takes(Terminal::RightParen),
                Symbol::Statement,
            ],
            &[],
        ),
        _ => Entry::Refused,
    }
}

/// Behind `Clock`: `"." "advanceAll" "(" ")" ";"`.
fn advance(t: Terminal) -> Entry
    ensures { entry_value result ≡ advance t }
{
    match t {
        Terminal::Dot => Entry::Behind(
            &[
                Symbol::Takes(Terminal::AdvanceAll),
                Symbol::Takes(Terminal::LeftParen),
                Symbol::Takes(Terminal::RightParen),
                Symbol::Takes(Terminal::Semicolon),
            ],
            &[],
        ),
        _ => Entry::Refused,
    }
}

/// Behind `Console`: `"." "OUT" "." "println" "(" expr ")" ";"`.
fn print(t: Terminal) -> Entry
    ensures { entry_value result ≡ print t }
{
    match t {
        Terminal::Dot => Entry::Behind(
            &[
                Symbol::Takes(Terminal::Out),
                Symbol::Takes(Terminal::Dot),
                Symbol::Takes(Terminal::Println),
                Symbol::Takes(Terminal::LeftParen),
                Symbol::Expression,
                Symbol::Takes(Terminal::RightParen),
                Symbol::Takes(Terminal::Semicolon),
            ],
            &[],
        ),
        _ => Entry::Refused,
    }
}

/// A statement, by the token that it begins with.
fn statement(t: Terminal) -> Option<&'static [Symbol]>
    ensures { option_map (λ row. row.now) result ≡ statement t }
{
    match t {
        Terminal::LeftBrace => Some(&[Symbol::Statements]),
        Terminal::Semicolon => Some(&[]),
        Terminal::Binding => Some(&[Symbol::Declaration]),
        Terminal::Atomic => Some(&[Symbol::Addition]),
        Terminal::If => Some(&[Symbol::Condition]),
        Terminal::For => Some(&[Symbol::Range]),
        Terminal::Async => Some(&[Symbol::AfterAsync]),
        Terminal::Finish => Some(&[Symbol::Statement]),
        Terminal::Clocked => Some(&[Symbol::AfterClocked]),
        Terminal::Clock => Some(&[Symbol::Advance]),
        Terminal::Console => Some(&[Symbol::Print]),
        _ => if is_name(t) {
            Some(&[Symbol::AfterName, Symbol::Takes(Terminal::Semicolon)])
        } else {
            None
        },
    }
}

/// The rest of a block: `{ stmt } "}"`.
fn statements(t: Terminal) -> Entry
    ensures { entry_value result ≡ statements t }
{
    match t {
        Terminal::RightBrace => Entry::Behind(&[], &[]),
        _ => begun(statement(t), &[Symbol::Statements]),
    }
}

/// Behind the `=` of a `val` or a `var`: `"Clock" "." "make" "(" ")" | expr`.
fn right(t: Terminal) -> Entry
    ensures { entry_value result ≡ right t }
{
    match t {
        Terminal::Clock => Entry::Behind(
            &[
                Symbol::Takes(Terminal::Dot),
                Symbol::Takes(Terminal::Make),
                Symbol::Takes(Terminal::LeftParen),
                Symbol::Takes(Terminal::RightParen),
            ],
            &[],
        ),
        _ => begun(factor(t), &[Symbol::MoreFactors, Symbol::MoreTerms]),
    }
}

/// What goes on behind the name that a statement begins with, up to its `;`.
fn after_name(t: Terminal) -> Entry
    ensures { entry_value result ≡ after_name t }
{
    match t {
        Terminal::Assign => Entry::Behind(&[Symbol::Expression], &[]),
        Terminal::LeftParen => Entry::Behind(&[Symbol::Arguments], &[]),
        Terminal::Dot => Entry::Behind(
            &[
                Symbol::Takes(Terminal::Verb),
                Symbol::Takes(Terminal::LeftParen),
                Symbol::Takes(Terminal::RightParen),
            ],
            &[],
        ),
        _ => Entry::Refused,
    }
}

/// Arguments: `[ expr { "," expr } ] ")"`.
fn arguments(t: Terminal) -> Entry
    ensures { entry_value result ≡ arguments t }
{
    match t {
        Terminal::RightParen => Entry::Behind(&[], &[]),
        _ => begun(
            factor(t),
            &[
                Symbol::MoreFactors,
                Symbol::MoreTerms,
                Symbol::MoreArguments,
            ],
        ),
    }
}

/// Further arguments: `{ "," expr } ")"`.
fn more_arguments(t: Terminal) -> Entry
    ensures { entry_value result ≡ more_arguments t }
{
    match t {
        Terminal::Comma => Entry::Behind(&[Symbol::Expression, Symbol::MoreArguments], &[]),
        Terminal::RightParen => Entry::Behind(&[], &[]),
        _ => Entry::Refused,
    }
}

/// An `else` that may be left out: `[ "else" stmt ]`. It is taken where it can be, and so belongs to the nearest `if`.
fn optional_else(t: Terminal) -> Entry
    ensures { entry_value result ≡ optional_else t }
{
    match t {
        Terminal::Else => Entry::Behind(&[Symbol::Statement], &[]),
        _ => Entry::Skipped,
    }
}

/// Behind `async`: `[ "clocked" "(" NAME { "," NAME } ")" ] stmt`, where the statement may begin with `clocked` too.
fn after_async(t: Terminal) -> Entry
    ensures { entry_value result ≡ after_async t }
{
    match t {
        Terminal::Clocked => Entry::Behind(&[Symbol::AfterAsyncClocked], &[]),
        _ => begun(statement(t), &[]),
    }
}

/// Behind `async clocked`: a list of clocks and a statement, or what a statement has behind its `clocked`.
fn after_async_clocked(t: Terminal) -> Entry
    ensures { entry_value result ≡ after_async_clocked t }
{
    match t {
        Terminal::LeftParen => Entry::Behind(
            &[Symbol::Name, Symbol::MoreClocks, Symbol::Statement],
            &[],
        ),
        Terminal::Finish => Entry::Behind(&[Symbol::Statement], &[]),
        Terminal::Async => Entry::Behind(&[Symbol::Statement], &[]),
        _ => Entry::Refused,
    }
}

/// Behind the `clocked` of a statement: `( "finish" | "async" ) stmt`.
fn after_clocked(t: Terminal) -> Entry
    ensures { entry_value result ≡ after_clocked t }
{
    match t {
        Terminal::Finish => Entry::Behind(&[Symbol::Statement], &[]),
        Terminal::Async => Entry::Behind(&[Symbol::Statement], &[]),
        _ => Entry::Refused,
    }
}

/// Further clocks: `{ "," NAME } ")"`.
fn more_clocks(t: Terminal) -> Entry
    ensures { entry_value result ≡ more_clocks t }
{
    match t {
        Terminal::Comma => Entry::Behind(&[Symbol::Name, Symbol::MoreClocks], &[]),
        Terminal::RightParen => Entry::Behind(&[], &[]),
        _ => Entry::Refused,
    }
}

/// How far a loop goes: `number | "Math" "." "min" "(" expr "," number ")"`.
fn bound(t: Terminal) -> Entry
    ensures { entry_value result ≡ bound t }
{
    match t {
        Terminal::Minus => Entry::Behind(&[Symbol::Takes(Terminal::Digits)], &[]),
        Terminal::Digits => Entry::Behind(&[], &[]),
        Terminal::Math => Entry::Behind(
            &[
                Symbol::Takes(Terminal::Dot),
                Symbol::Takes(Terminal::Min),
                Symbol::Takes(Terminal::LeftParen),
                Symbol::Expression,
                Symbol::Takes(Terminal::Comma),
                Symbol::Number,
                Symbol::Takes(Terminal::RightParen),
            ],
            &[],
        ),
        _ => Entry::Refused,
    }
}

/// What the table has.
pub(crate) fn produced(symbol: Symbol, t: Terminal) -> Entry
    ensures { entry_value result ≡ produced symbol t }
{
    match symbol {
        Symbol::Takes(wanted) => taken_if(is_same(wanted, t)),
        Symbol::Name => taken_if(is_name(t)),
        Symbol::Number => number(t),
        Symbol::Program => program(t),
        Symbol::Methods => methods(t),
        Symbol::Params => params(t),
        Symbol::MoreParams => more_params(t),
        Symbol::TypeName => type_name(t),
        Symbol::OptionalType => optional_type(t),
        Symbol::Statement => begun(statement(t), &[]),
        Symbol::Statements => statements(t),
        Symbol::Declaration => declaration(t),
        Symbol::Addition => addition(t),
        Symbol::Condition => condition(t),
        Symbol::Range => range(t),
        Symbol::Advance => advance(t),
        Symbol::Print => print(t),
        Symbol::Right => right(t),
        Symbol::AfterName => after_name(t),
        Symbol::Arguments => arguments(t),
        Symbol::MoreArguments => more_arguments(t),
        Symbol::OptionalElse => optional_else(t),
        Symbol::AfterAsync => after_async(t),
        Symbol::AfterAsyncClocked => after_async_clocked(t),
        Symbol::AfterClocked => after_clocked(t),
        Symbol::MoreClocks => more_clocks(t),
        Symbol::Bound => bound(t),
        Symbol::Expression => begun(factor(t), &[Symbol::MoreFactors, Symbol::MoreTerms]),
        Symbol::MoreTerms => more_terms(t),
        Symbol::Term => begun(factor(t), &[Symbol::MoreFactors]),
        Symbol::MoreFactors => more_factors(t),
        Symbol::Factor => begun(factor(t), &[]),
    }
}
