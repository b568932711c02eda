//! What is told where a name is used as what it isn't.

ghost use Rattle.std.specs.Prelude.{◌≡◌, ◌≤◌, ◌++◌, codes, drop, length, option_map, IfOk};
ghost use Rattle.std.specs.List.{list_all, list_any, prefix_len};
ghost use Rattle.xk_tree.specs.Tree.{method_value};
ghost use Rattle.xk_explain_words.specs.Words.{is_word_byte};
ghost use Rattle.xk_explain_kinds.specs.Declarations.{declared, declared_here};
ghost use Rattle.xk_explain_kinds.specs.Kinds.{added_text, addend, assigned, clock_stays_text, clock_text, ends_here, is_assigned};
ghost use Rattle.xk_explain_kinds.specs.Kinds.{is_empty, is_method, is_plain, is_seen, is_shared, is_shown, is_sign, is_visible};
ghost use Rattle.xk_explain_kinds.specs.Kinds.{is_written_back, isnt_semicolon, kind_repair, kind_text, loop_stays_text, misused_text};
ghost use Rattle.xk_explain_kinds.specs.Kinds.{number_text, one_step_text, other_kind_text, param_stays_text, read_apart_text};
ghost use Rattle.xk_explain_kinds.specs.Kinds.{read_into_text, read_text, shared_text};
ghost use Rattle.xk_explain_kinds.specs.Kinds.{stays_text, sum_text, term, term_added, term_behind, term_of, val_text, value_len};
ghost use Rattle.xk_explain_kinds.specs.Kinds.{value_text, visible, wanted_text};

use crate::calls::order_text;
use crate::declaration::{Declaration, Role};
use crate::free_names::val_of;
use crate::texts::{around, around_name, around_twice, push_text};
use std::alloc::{AllocError, Global};
use xk_explain_words::{begins, from_sign, is_same, is_word_byte, last_word, to_sign};
use xk_tree::Method;

/// How many signs of a sum are written out at most.
const MOST: usize = 60;

/// Whether a name is that of a method.
pub fn is_method(role: Role) -> bool
    ensures { result ≡ is_method role }
{
    match role {
        Role::Method(_) => true,
        Role::Shared
        | Role::NumberParam
        | Role::ClockParam
        | Role::Val
        | Role::Var
        | Role::Clock
        | Role::Loop => false,
    }
}

/// Whether a name is that of a shared number.
fn is_shared(role: Role) -> bool
    ensures { result ≡ is_shared role }
{
    match role {
        Role::Shared => true,
        Role::Method(_)
        | Role::NumberParam
        | Role::ClockParam
        | Role::Val
        | Role::Var
        | Role::Clock
        | Role::Loop => false,
    }
}

/// Whether a number or a clock is visible at an offset.
pub fn is_visible(at: usize, d: &Declaration<'_>) -> bool
    ensures { result ≡ is_visible at (declared d.now) }
{
    !is_method(d.role) && (is_shared(d.role) || (d.behind < at && at <= d.until))
}

/// Whether it has this name.
fn is_seen(name: &[u8], at: usize, d: &Declaration<'_>) -> bool
    ensures { result ≡ is_seen name.now at (declared d.now) }
{
    is_same(d.name.text, name) && is_visible(at, d)
}

/// The declaration of a name that is visible at an offset, if one is.
pub fn visible<'t>(name: &[u8], at: usize, all: &[Declaration<'t>]) -> Option<Declaration<'t>>
    ensures { option_map (λ d. declared d) result ≡ visible name.now at (declared_here all.now) }
{
    let mut found = None;
    for d in all {
        if is_seen(name, at, d) {
            found = Some(*d);
        }
    }
    found
}

/// How many bytes stand behind the last `=` before a place.
fn value_len(before: &[u8]) -> usize
    ensures count { result ≡ value_len before.now }
    ensures within { result ≤ length before.now }
{
    before.iter().rev().take_while(|&&b| b != b'=').count()
}

/// What stands behind the last `=` before a place.
fn value_text(before: &[u8]) -> &[u8]
    ensures { result.now ≡ value_text before.now }
{
    &before[before.len() - value_len(before)..]
}

/// The name before that `=`.
fn assigned(before: &[u8]) -> &[u8]
    ensures { result.now ≡ assigned before.now }
{
    let behind = before.len() - value_len(before);
    last_word(to_sign(&before[..behind.saturating_sub(1)]))
}

/// Whether a statement ends or begins.
fn ends_here(b: u8) -> bool
    ensures { result ≡ ends_here b }
{
    b == b';' || (b == b'{' || b == b'}')
}

/// Whether a statement ends or begins in there.
fn has_end(text: &[u8]) -> bool
    ensures { result ≡ list_any ends_here text.now }
{
    text.iter().any(|b| ends_here(*b))
}

/// Whether the statement writes to the number that it reads behind this.
fn is_written_back(name: &[u8], before: &[u8]) -> bool
    ensures { result ≡ is_written_back name.now before.now }
{
    is_same(assigned(before), name) && !has_end(value_text(before))
}

/// How many bytes stand before the next `;`.
fn statement_len(rest: &[u8]) -> usize
    ensures count { result ≡ prefix_len isnt_semicolon rest.now }
    ensures within { result ≤ length rest.now }
{
    rest.iter().take_while(|&&b| b != b';').count()
}

/// Up to the end of the statement, without blanks around.
fn addend(rest: &[u8]) -> &[u8]
    ensures { result.now ≡ addend rest.now }
{
    to_sign(from_sign(&rest[..statement_len(rest)]))
}

/// Whether a byte is shown as it is, and begins no comment.
fn is_shown(b: u8) -> bool
    ensures { result ≡ is_shown b }
{
    (b >= 32 && b <= 126) && b != b'/'
}

/// Whether all bytes are shown as they are.
fn are_shown(e: &[u8]) -> bool
    ensures { result ≡ list_all is_shown e.now }
{
    e.iter().all(|b| is_shown(*b))
}

/// Whether something stands there that can be written out: on one line, without a comment, and in 60 signs.
fn is_plain(e: &[u8]) -> bool
    ensures { result ≡ is_plain e.now }
{
    match e {
        [] => false,
        [_, ..] => e.len() <= MOST && are_shown(e),
    }
}

/// Whether a byte is a `+` or a `-`.
fn is_sign(b: u8) -> bool
    ensures { result ≡ is_sign b }
{
    b == b'+' || b == b'-'
}

/// Whether a sum or a difference is in there.
fn has_sign(e: &[u8]) -> bool
    ensures { result ≡ list_any is_sign e.now }
{
    e.iter().any(|b| is_sign(*b))
}

/// Whether it is a word alone.
fn is_one_word(e: &[u8]) -> bool
    ensures { result ≡ list_all is_word_byte e.now }
{
    e.iter().all(|b| is_word_byte(*b))
}

/// In parentheses, if it is more than a word.
fn term(alloc: Global, e: &[u8]) -> Result<Vec<u8>, AllocError>
    ensures { IfOk result (λ v. v.items ≡ term e.now) }
{
    if is_one_word(e) {
        return e.to_vec(alloc);
    }
    around(alloc, "(", e, ")")
}

/// With a `-` before it.
fn negated(alloc: Global, e: &[u8]) -> Result<Vec<u8>, AllocError>
    ensures { IfOk result (λ v. v.items ≡ codes "-" ++ term e.now) }
{
    let inner = term(alloc, e)?;
    let mut out = Vec::new(alloc);
    push_text(&mut out, "-")?;
    out.extend_from_slice(&inner)?;
    Ok(out)
}

/// What a number is added by, where this sign and this stand behind its name.
fn term_of(alloc: Global, sign: &[u8], e: &[u8]) -> Result<Option<Vec<u8>>, AllocError>
    ensures { IfOk result (λ o. option_map (λ v. v.items) o ≡ term_of sign.now e.now) }
{
    if begins(sign, b"+") && is_plain(e) {
        return Ok(Some(term(alloc, e)?));
    }
    if begins(sign, b"-") && is_plain(e) && !has_sign(e) {
        return Ok(Some(negated(alloc, e)?));
    }
    Ok(None)
}

/// The same where the text goes on so.
fn term_behind(alloc: Global, sign: &[u8]) -> Result<Option<Vec<u8>>, AllocError>
    ensures { IfOk result (λ o. option_map (λ v. v.items) o ≡ term_behind sign.now) }
{
    match sign {
        [] => term_of(alloc, sign, addend(sign)),
        [_, rest @ ..] => term_of(alloc, sign, addend(rest)),
    }
}

/// Whether nothing stands there.
fn is_empty(text: &[u8]) -> bool
    ensures { result ≡ is_empty text.now }
{
    match text {
        [] => true,
        [_, ..] => false,
    }
}

/// What the text goes on with behind a name.
pub fn behind<'r>(name: &[u8], rest: &'r [u8]) -> &'r [u8]
    ensures { result.now ≡ drop (length name.now) rest.now }
{
    match rest.get(name.len()..) {
        Some(behind) => behind,
        None => b"",
    }
}

/// What a number is added by, whose name stands between these.
fn term_added(
    alloc: Global,
    name: &[u8],
    before: &[u8],
    rest: &[u8],
) -> Result<Option<Vec<u8>>, AllocError>
    ensures { IfOk result (λ o. option_map (λ v. v.items) o
        ≡ term_added name.now before.now rest.now) }
{
    if is_empty(to_sign(value_text(before))) {
        return term_behind(alloc, from_sign(behind(name, rest)));
    }
    Ok(None)
}

/// The sum as one step.
#[tactic(auto, unfolding(crate::specs::Kinds::added_text))]
fn added_text(alloc: Global, name: &[u8], e: &[u8]) -> Result<Vec<u8>, AllocError>
    ensures { IfOk result (λ v. v.items ≡ added_text name.now e.now) }
{
    let mut out = around_twice(alloc, "write `atomic ", name, " = ", " + ")?;
    out.extend_from_slice(e)?;
    push_text(&mut out, ";`: it adds in one step")?;
    Ok(out)
}

/// One step, where it isn't known what is added.
#[tactic(auto, unfolding(crate::specs::Kinds::one_step_text))]
fn one_step_text(alloc: Global, name: &[u8]) -> Result<Vec<u8>, AllocError>
    ensures { IfOk result (λ v. v.items ≡ one_step_text name.now) }
{
    around_twice(
        alloc,
        "add in one step, as by `atomic ",
        name,
        " = ",
        " + 1;`: between a read and a write another activity may write",
    )
}

/// A number that is read into a `val` of this name.
#[tactic(auto, unfolding(crate::specs::Kinds::read_into_text))]
fn read_into_text(alloc: Global, name: &[u8], new: &[u8]) -> Result<Vec<u8>, AllocError>
    ensures { IfOk result (λ v. v.items ≡ read_into_text name.now new.now) }
{
    let kept = val_of(alloc, new, name)?;
    let mut out = around_name(alloc, "read `", name, "` first, which is shared: ")?;
    out.extend_from_slice(&kept)?;
    Ok(out)
}

/// A number that is read into one of a name that is to be found.
#[tactic(auto, unfolding(crate::specs::Kinds::read_apart_text))]
fn read_apart_text(alloc: Global, name: &[u8]) -> Result<Vec<u8>, AllocError>
    ensures { IfOk result (λ v. v.items ≡ read_apart_text name.now) }
{
    around_name(
        alloc,
        "read `",
        name,
        "` first, which is shared, into a `val` of another name",
    )
}

/// A number that is read, where this name is free.
fn read_text(alloc: Global, name: &[u8], new: Option<&[u8]>) -> Result<Vec<u8>, AllocError>
    ensures { IfOk result
        (λ v. v.items ≡ read_text name.now (option_map (λ n. n.now) new.entry)) }
{
    match new {
        Some(new) => read_into_text(alloc, name, new),
        None => read_apart_text(alloc, name),
    }
}

/// A shared number whose name stands between these.
fn shared_text(
    alloc: Global,
    name: &[u8],
    before: &[u8],
    rest: &[u8],
    new: Option<&[u8]>,
) -> Result<Vec<u8>, AllocError>
    ensures { IfOk result (λ v. v.items ≡ shared_text name.now before.now rest.now
        (option_map (λ n. n.now) new.entry)) }
{
    if !is_written_back(name, before) {
        return read_text(alloc, name, new);
    }
    match term_added(alloc, name, before, rest)? {
        Some(e) => added_text(alloc, name, &e),
        None => one_step_text(alloc, name),
    }
}

/// A clock where a number is wanted.
#[tactic(auto, unfolding(crate::specs::Kinds::clock_text))]
fn clock_text(alloc: Global, name: &[u8]) -> Result<Vec<u8>, AllocError>
    ensures { IfOk result (λ v. v.items ≡ clock_text name.now) }
{
    around_name(
        alloc,
        "give a number in place of `",
        name,
        "`, which is a clock",
    )
}

/// A number where a clock is wanted.
#[tactic(auto, unfolding(crate::specs::Kinds::number_text))]
fn number_text(alloc: Global, name: &[u8]) -> Result<Vec<u8>, AllocError>
    ensures { IfOk result (λ v. v.items ≡ number_text name.now) }
{
    around_name(
        alloc,
        "give a clock in place of `",
        name,
        "`, which is a number",
    )
}

/// A `val` that is assigned to.
#[tactic(auto, unfolding(crate::specs::Kinds::val_text))]
fn val_text(alloc: Global, name: &[u8]) -> Result<Vec<u8>, AllocError>
    ensures { IfOk result (λ v. v.items ≡ val_text name.now) }
{
    around_name(
        alloc,
        "`",
        name,
        "` is a `val`, which stays: declare it by `var`",
    )
}

/// A parameter that is assigned to.
#[tactic(auto, unfolding(crate::specs::Kinds::param_stays_text))]
fn param_stays_text(alloc: Global, name: &[u8]) -> Result<Vec<u8>, AllocError>
    ensures { IfOk result (λ v. v.items ≡ param_stays_text name.now) }
{
    around_name(
        alloc,
        "`",
        name,
        "` is a parameter, which stays: keep it in a `var` of another name, and assign to that",
    )
}

/// The number of a loop that is assigned to.
#[tactic(auto, unfolding(crate::specs::Kinds::loop_stays_text))]
fn loop_stays_text(alloc: Global, name: &[u8]) -> Result<Vec<u8>, AllocError>
    ensures { IfOk result (λ v. v.items ≡ loop_stays_text name.now) }
{
    around_name(
        alloc,
        "`",
        name,
        "` is the number of a loop, which goes on by itself: assign to a `var`",
    )
}

/// A clock that is assigned to.
#[tactic(auto, unfolding(crate::specs::Kinds::clock_stays_text))]
fn clock_stays_text(alloc: Global, name: &[u8]) -> Result<Vec<u8>, AllocError>
    ensures { IfOk result (λ v. v.items ≡ clock_stays_text name.now) }
{
    around_name(
        alloc,
        "`",
        name,
        "` is a clock, which stays: make another one, by a `val` of another name",
    )
}

/// What stays, and is assigned to.
fn stays_text(alloc: Global, name: &[u8], role: Role) -> Result<Vec<u8>, AllocError>
    ensures { IfOk result (λ v. v.items ≡ stays_text name.now role) }
{
    match role {
        Role::Clock => clock_stays_text(alloc, name),
        Role::ClockParam => clock_stays_text(alloc, name),
        Role::NumberParam => param_stays_text(alloc, name),
        Role::Loop => loop_stays_text(alloc, name),
        Role::Shared => val_text(alloc, name),
        Role::Method(_) => val_text(alloc, name),
        Role::Val => val_text(alloc, name),
        Role::Var => val_text(alloc, name),
    }
}

/// Whether a `=` stands behind the name.
pub fn is_assigned(name: &[u8], rest: &[u8]) -> bool
    ensures { result ≡ is_assigned name.now rest.now }
{
    let next = from_sign(behind(name, rest));
    begins(next, b"=") && !begins(next, b"==")
}

/// What is used as what it isn't.
fn misused_text(alloc: Global, name: &[u8], role: Role) -> Result<Vec<u8>, AllocError>
    ensures { IfOk result (λ v. v.items ≡ misused_text name.now role) }
{
    match role {
        Role::Clock => clock_text(alloc, name),
        Role::ClockParam => clock_text(alloc, name),
        Role::Shared => number_text(alloc, name),
        Role::Method(_) => number_text(alloc, name),
        Role::NumberParam => number_text(alloc, name),
        Role::Val => number_text(alloc, name),
        Role::Var => number_text(alloc, name),
        Role::Loop => number_text(alloc, name),
    }
}

/// The same, or what the method takes whose argument it is.
fn wanted_text(
    alloc: Global,
    name: &[u8],
    role: Role,
    method: Option<&Method<'_>>,
) -> Result<Vec<u8>, AllocError>
    ensures { IfOk result (λ v. v.items
        ≡ wanted_text name.now role (option_map (λ m. method_value m.now) method.entry)) }
{
    match method {
        Some(method) => order_text(alloc, method),
        None => misused_text(alloc, name, role),
    }
}

/// The same, or what stays and is assigned to.
fn other_kind_text(
    alloc: Global,
    name: &[u8],
    rest: &[u8],
    role: Role,
    method: Option<&Method<'_>>,
) -> Result<Vec<u8>, AllocError>
    ensures { IfOk result (λ v. v.items ≡ other_kind_text name.now rest.now role
        (option_map (λ m. method_value m.now) method.entry)) }
{
    if is_assigned(name, rest) {
        return stays_text(alloc, name, role);
    }
    wanted_text(alloc, name, role, method)
}

/// The repair of a name that is declared so, between what stands before it and what the text goes on with.
fn kind_text(
    alloc: Global,
    name: &[u8],
    before: &[u8],
    rest: &[u8],
    role: Role,
    method: Option<&Method<'_>>,
    new: Option<&[u8]>,
) -> Result<Vec<u8>, AllocError>
    ensures { IfOk result (λ v. v.items ≡ kind_text name.now before.now rest.now role
        (option_map (λ m. method_value m.now) method.entry)
        (option_map (λ n. n.now) new.entry)) }
{
    match role {
        Role::Shared => shared_text(alloc, name, before, rest, new),
        Role::Clock => other_kind_text(alloc, name, rest, role, method),
        Role::ClockParam => other_kind_text(alloc, name, rest, role, method),
        Role::Method(_) => other_kind_text(alloc, name, rest, role, method),
        Role::NumberParam => other_kind_text(alloc, name, rest, role, method),
        Role::Val => other_kind_text(alloc, name, rest, role, method),
        Role::Var => other_kind_text(alloc, name, rest, role, method),
        Role::Loop => other_kind_text(alloc, name, rest, role, method),
    }
}

/// The same, if the name is declared. Err where memory was refused.
pub fn kind_repair(
    alloc: Global,
    name: &[u8],
    before: &[u8],
    rest: &[u8],
    method: Option<&Method<'_>>,
    new: Option<&[u8]>,
    d: Option<Declaration<'_>>,
) -> Result<Option<Vec<u8>>, AllocError>
    ensures { IfOk result (λ o. option_map (λ v. v.items) o ≡ kind_repair name.now before.now
        rest.now (option_map (λ m. method_value m.now) method.entry)
        (option_map (λ n. n.now) new.entry) (option_map (λ d. declared d) d.entry)) }
{
    match d {
        Some(d) => {
            let role = d.role;
            Ok(Some(kind_text(alloc, name, before, rest, role, method, new)?))
        }
        None => Ok(None),
    }
}
