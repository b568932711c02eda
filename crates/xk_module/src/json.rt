//! Parts of JSON values: numbers, arrays, and objects whose keys are known. To read one takes no memory.

ghost use Rattle.std.specs.Prelude.{◌≡◌, option_map};
ghost use Rattle.serde_json.specs.View.{view};
ghost use Rattle.xk_module.specs.ModuleReader.{views, member_views, array_at, object_at, field_at, end_at, word_at, long_at};

use serde_json::Value;
use std::collections::btree_map::Iter;

/// The members of an object that are still to be read, in the order of their keys.
pub(crate) type Members<'a> = Iter<'a, String, Value>;

/// The elements of an array.
#[tactic(auto, using(crate::proofs::JsonListLemmas::array_views))]
pub(crate) fn array(value: &Value) -> Option<&[Value]>
    ensures { option_map (λ values. views values.now) result ≡ array_at (view value.now) }
{
    match value.as_array() {
        Some(values) => Some(values.as_slice()),
        None => None,
    }
}

/// The members of an object.
#[tactic(auto, using(crate::proofs::JsonListLemmas::object_views))]
pub(crate) fn object(value: &Value) -> Option<Members<'_>>
    ensures { option_map (λ members. member_views members) result ≡ object_at (view value.now) }
{
    match value.as_object() {
        Some(members) => Some(members.iter()),
        None => None,
    }
}

/// The value of the next member, which has to have this key.
pub(crate) fn field<'a>(members: &mut Members<'a>, key: &str) -> Option<&'a Value>
    ensures { option_map (λ value. (view value.now, member_views members.new)) result ≡
        field_at key.now (member_views members.old) }
{
    match members.next() {
        Some((name, value)) if name.as_str() == key => Some(value),
        _ => None,
    }
}

/// No member is left.
pub(crate) fn end(mut members: Members<'_>) -> Option<()>
    ensures { result ≡ end_at (member_views members.entry) }
{
    match members.next() {
        None => Some(()),
        Some(_) => None,
    }
}

/// A whole number from 0 to 65,535.
#[tactic(auto, unfolding(crate::specs::ModuleReader::word_at))]
pub(crate) fn word(value: &Value) -> Option<u16>
    ensures { result ≡ word_at (view value.now) }
{
    match value.as_u64() {
        Some(n) if n < 1 << 16 => Some(n as u16),
        _ => None,
    }
}

/// A whole number of 64 bits, signed.
#[tactic(auto, unfolding(crate::specs::ModuleReader::long_at))]
pub(crate) fn long(value: &Value) -> Option<i64>
    ensures { result ≡ long_at (view value.now) }
{
    if let Some(n) = value.as_u64() {
        return i64::try_from(n).ok();
    }
    match value.as_i64() {
        Some(n) if n < 0 => Some(n),
        _ => None,
    }
}
