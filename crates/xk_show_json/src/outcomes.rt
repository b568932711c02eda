//! What a program can print, as a value.

ghost use Rattle.std.specs.Prelude.{◌≡◌, IfOk, OnOk, map};
ghost use Rattle.serde_json.specs.View.{view};
ghost use Rattle.xk_json.specs.Objects.{IsReadBack, array_of, integers_value, json_line};
ghost use Rattle.xk_show_json.specs.Outcomes.{held_value, outcomes_value, without_feed};

use serde_json::Value;
use std::alloc::{AllocError, Global};
use xk_json::{Object, integers};

/// What each outcome prints, and whether these are all: a JSON object on one line,
/// `{"complete":true,"outcomes":[[10,21],[21,10]]}`. Err where memory was refused.
pub fn outcomes_json(alloc: Global, lists: &[&[i64]], complete: bool) -> Result<Vec<u8>, AllocError>
    ensures text { IfOk result (λ v. v.items
        ≡ json_line (outcomes_value (map (λ x. x.now) lists.now) complete)) }
    ensures reads_back { OnOk result
        (IsReadBack (outcomes_value (map (λ x. x.now) lists.now) complete)) }
{
    let arrays = arrays_of(alloc, lists)?;
    let mut object = Object::new(alloc);
    object.put_truth(alloc, "complete", complete)?;
    object.put(alloc, "outcomes", arrays)?;
    object.line(alloc)
}

/// An array for each list.
fn arrays_of(alloc: Global, lists: &[&[i64]]) -> Result<Value, AllocError>
    ensures { IfOk result
        (λ v. view v ≡ array_of integers_value (map (λ x. x.now) lists.now)) }
{
    let mut values = Vec::new(alloc);
    for list in lists {
        values.push(integers(alloc, list)?)?;
    }
    Ok(Value::from(values))
}

/// What is said of a list that outcomes are held against, by the line that tells it, and the verdict in a word: a JSON object
/// on one line, `{"text":"outcome 2 prints 21 10","verdict":"refuted"}`. Err where memory was refused.
pub fn held_json(alloc: Global, line: &[u8], verdict: &str) -> Result<Vec<u8>, AllocError>
    ensures text { IfOk result (λ v. v.items ≡ json_line (held_value line.now verdict.now)) }
    ensures reads_back { OnOk result (IsReadBack (held_value line.now verdict.now)) }
{
    let mut object = Object::new(alloc);
    object.put_bytes(alloc, "text", without_feed(line))?;
    object.put_text(alloc, "verdict", verdict)?;
    object.line(alloc)
}

/// A line without its line feed.
fn without_feed(line: &[u8]) -> &[u8]
    ensures { result.now ≡ without_feed line.now }
{
    &line[..line.len().saturating_sub(1)]
}
