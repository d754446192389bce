//! The members of an object, by the kind of their keys.

ghost use Rattle.serde_json.specs.View.{view, items_view};
ghost use Rattle.hg_json.specs.Reading as spec;
ghost use Rattle.hg_json.specs.code.Found.{Finds};

use serde_json::Value;

/// The text at a key.
pub fn text_at<'v>(value: &'v Value, key: &str) -> Option<&'v str>
    ensures { Finds (λ text. text.now) result (spec.text_at key.now (view value.now)) }
{
    value.get(key)?.as_str()
}

/// The whole number at a key.
pub fn natural_at(value: &Value, key: &str) -> Option<u64>
    ensures { Finds (λ n. n) result (spec.natural_at key.now (view value.now)) }
{
    value.get(key)?.as_u64()
}

/// The items of the list at a key.
pub fn items_at<'v>(value: &'v Value, key: &str) -> Option<&'v Vec<Value>>
    ensures { Finds (λ items. items_view items.now.items) result
        (spec.items_at key.now (view value.now)) }
{
    value.get(key)?.as_array()
}

/// The whole number with a sign at a key.
pub fn integer_at(value: &Value, key: &str) -> Option<i64>
    ensures { Finds (λ n. n) result (spec.integer_at key.now (view value.now)) }
{
    value.get(key)?.as_i64()
}
