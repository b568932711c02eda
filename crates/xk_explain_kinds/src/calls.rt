//! The method whose argument a name is, and its parameters.

ghost use Rattle.std.specs.Prelude.{◌≡◌, ◌++◌, ◌≤◌, length, map, option_map, IfOk, OnOk};
ghost use Rattle.std.specs.List.{list_any};
ghost use Rattle.xk_tree.specs.Tree.{method_value, param_value};
ghost use Rattle.xk_explain_kinds.specs.Calls.{arguments_len, arguments_text, called, callee, count_repair, count_text, ends_call};
ghost use Rattle.xk_explain_kinds.specs.Calls.{method_named, order_text, param_text, params_listed, params_text, type_text};

use crate::texts::push_text;
use std::alloc::{AllocError, Global};
use xk_explain_words::{is_same, last_word, to_sign, told_name};
use xk_tree::{Method, Param};
use xk_types::ParamKind;

/// How many bytes stand behind the last `(` before a place.
fn arguments_len(before: &[u8]) -> usize
    ensures count { result ≡ arguments_len before.now }
    ensures within { result ≤ length before.now }
{
    before.iter().rev().take_while(|&&b| b != b'(').count()
}

/// What stands there.
fn arguments_text(before: &[u8]) -> &[u8]
    ensures { result.now ≡ arguments_text before.now }
{
    &before[before.len() - arguments_len(before)..]
}

/// The name before that `(`.
fn called(before: &[u8]) -> &[u8]
    ensures { result.now ≡ called before.now }
{
    let behind = before.len() - arguments_len(before);
    last_word(to_sign(&before[..behind.saturating_sub(1)]))
}

/// Whether the arguments end there, or a statement does.
fn ends_call(b: u8) -> bool
    ensures { result ≡ ends_call b }
{
    b == b')' || (b == b';' || (b == b'{' || b == b'}'))
}

/// Whether they end in there.
fn has_end(text: &[u8]) -> bool
    ensures { result ≡ list_any ends_call text.now }
{
    text.iter().any(|b| ends_call(*b))
}

/// The first method of a name.
pub fn method_named<'m, 't>(name: &[u8], methods: &'m [Method<'t>]) -> Option<&'m Method<'t>>
    ensures { option_map (λ m. method_value m.now) result
        ≡ method_named name.now (map method_value methods.now) }
{
    for method in methods {
        if is_same(method.name.text, name) {
            return Some(method);
        }
    }
    None
}

/// The method among whose arguments a place is, behind no other parenthesis.
pub fn callee<'m, 't>(before: &[u8], methods: &'m [Method<'t>]) -> Option<&'m Method<'t>>
    ensures { option_map (λ m. method_value m.now) result
        ≡ callee before.now (map method_value methods.now) }
{
    if has_end(arguments_text(before)) {
        return None;
    }
    method_named(called(before), methods)
}

/// What stands behind the name of a parameter.
fn type_text(kind: ParamKind) -> &'static str
    ensures { result.now ≡ type_text kind }
{
    match kind {
        ParamKind::Number => ": Long, ",
        ParamKind::Clock => ": Clock, ",
    }
}

/// Adds a parameter.
fn push_param(alloc: Global, out: &mut Vec<u8>, param: &Param<'_>) -> Result<(), AllocError>
    ensures { OnOk result (out.new.items
        ≡ out.old.items ++ param_text (param_value param.now)) }
{
    let told = told_name(alloc, param.name.text)?;
    out.extend_from_slice(&told)?;
    push_text(out, type_text(param.takes.kind))
}

/// The parameters, each with a comma behind it.
pub fn params_text(alloc: Global, params: &[Param<'_>]) -> Result<Vec<u8>, AllocError>
    ensures { IfOk result (λ v. v.items ≡ params_text (map param_value params.now)) }
{
    let mut out = Vec::new(alloc);
    for param in params {
        push_param(alloc, &mut out, param)?;
    }
    Ok(out)
}

/// The same without the last comma.
fn params_listed(alloc: Global, params: &[Param<'_>]) -> Result<Vec<u8>, AllocError>
    ensures { IfOk result (λ v. v.items ≡ params_listed (map param_value params.now)) }
{
    let text = params_text(alloc, params)?;
    text[..text.len().saturating_sub(2)].to_vec(alloc)
}

/// What a method takes, kind by kind.
#[tactic(auto, unfolding(crate::specs::Calls::order_text))]
pub(crate) fn order_text(alloc: Global, method: &Method<'_>) -> Result<Vec<u8>, AllocError>
    ensures { IfOk result (λ v. v.items ≡ order_text (method_value method.now)) }
{
    let told = told_name(alloc, method.name.text)?;
    let params = params_listed(alloc, &method.params)?;
    let mut out = Vec::new(alloc);
    push_text(&mut out, "give `")?;
    out.extend_from_slice(&told)?;
    push_text(
        &mut out,
        "` a number for each `Long` and a clock for each `Clock`, in the order of `(",
    )?;
    out.extend_from_slice(&params)?;
    push_text(&mut out, ")`")?;
    Ok(out)
}

/// How many arguments it takes.
#[tactic(auto, unfolding(crate::specs::Calls::count_text))]
fn count_text(alloc: Global, method: &Method<'_>) -> Result<Vec<u8>, AllocError>
    ensures { IfOk result (λ v. v.items ≡ count_text (method_value method.now)) }
{
    let told = told_name(alloc, method.name.text)?;
    let params = params_listed(alloc, &method.params)?;
    let mut out = Vec::new(alloc);
    push_text(&mut out, "give `")?;
    out.extend_from_slice(&told)?;
    push_text(&mut out, "` one argument for each of `(")?;
    out.extend_from_slice(&params)?;
    push_text(&mut out, ")`, in this order")?;
    Ok(out)
}

/// The same, if there is such a method.
pub fn count_repair(
    alloc: Global,
    method: Option<&Method<'_>>,
) -> Result<Option<Vec<u8>>, AllocError>
    ensures { IfOk result (λ o. option_map (λ v. v.items) o
        ≡ count_repair (option_map (λ m. method_value m.now) method.entry)) }
{
    match method {
        Some(method) => Ok(Some(count_text(alloc, method)?)),
        None => Ok(None),
    }
}
