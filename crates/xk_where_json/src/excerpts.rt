//! Lists of activities as members of a value.

ghost use Rattle.std.specs.Prelude.{◌≡◌, IfOk, OnOk};
ghost use Rattle.serde_json.specs.View.{view};
ghost use Rattle.xk_json.specs.Objects.{Gains, array_of, number_value};
ghost use Rattle.xk_where_json.specs.Standings.{excerpt_members};

use serde_json::Value as Json;
use std::alloc::{AllocError, Global};
use xk_json::Object;
use xk_show_where::Excerpt;

/// A list of activities.
fn acts_value(alloc: Global, acts: &[u32]) -> Result<Json, AllocError>
    ensures { IfOk result (λ v. view v ≡ array_of number_value acts.now) }
{
    let mut values = Vec::new(alloc);
    for act in acts {
        values.push(Json::from(*act as u64))?;
    }
    Ok(Json::from(values))
}

/// Adds the first of some activities, and how many there are, under these keys.
pub(crate) fn put_excerpt(
    alloc: Global,
    object: &mut Object,
    key: &str,
    count: &str,
    excerpt: &Excerpt,
) -> Result<(), AllocError>
    ensures { OnOk result
        (Gains (excerpt_members key.now count.now excerpt.now) object.old object.new) }
{
    let acts = acts_value(alloc, excerpt.first())?;
    object.put(alloc, key, acts)?;
    object.put_number(alloc, count, excerpt.count() as u64)
}
