//! JSON objects in the making.

ghost use Rattle.serde_json.specs.View.{members_view};
ghost use Rattle.xk_json.specs.Plain.{ArePlain};

use crate::numbers::integers;
use serde_json::{Map, Value};
use std::alloc::{AllocError, Global};

/// An object in the making. Its members stand in the order of their keys, by the alphabet.
#[derive(Drop)]
pub struct Object {
    members: Map<String, Value>,
    ghost plain: { ArePlain 4 (members_view members.entries) },
}

impl Object {
    ghost use Rattle.std.specs.Prelude.{◌≡◌, IfOk, OnOk};
    ghost use Rattle.serde_json.specs.Data.{boolean, no_members, object, put, string};
    ghost use Rattle.serde_json.specs.View.{view};
    ghost use Rattle.xk_json.specs.Plain.{IsPlain};
    ghost use Rattle.xk_json.specs.Objects.{bytes_value, integer_value, integers_value, json_line, members_of, number_value, IsReadBack};

    /// The object with no member.
    pub fn new(alloc: Global) -> Object
        ensures { members_of result ≡ no_members }
    {
        Object {
            members: Map::new(alloc),
        }
    }

    /// Adds a member.
    pub fn put(&mut self, alloc: Global, key: &str, value: Value) -> Result<(), AllocError>
        requires { IsPlain 4 (view value) }
        ensures { OnOk result
            (members_of self.new ≡ put key.now (view value) (members_of self.old)) }
    {
        serde_json::put(&mut self.members, alloc, key, value)
    }

    /// Adds a text.
    pub fn put_text(&mut self, alloc: Global, key: &str, text: &str) -> Result<(), AllocError>
        ensures { OnOk result
            (members_of self.new ≡ put key.now (string text.now) (members_of self.old)) }
    {
        let value = Value::try_from_str(alloc, text)?;
        self.put(alloc, key, value)
    }

    /// Adds bytes as a text; what is no UTF-8 among them is told by U+FFFD.
    pub fn put_bytes(&mut self, alloc: Global, key: &str, bytes: &[u8]) -> Result<(), AllocError>
        ensures { OnOk result
            (members_of self.new ≡ put key.now (bytes_value bytes.now) (members_of self.old)) }
    {
        let text = String::from_utf8_lossy(alloc, bytes)?;
        self.put(alloc, key, Value::from(text))
    }

    /// Adds a number.
    pub fn put_number(&mut self, alloc: Global, key: &str, number: u64) -> Result<(), AllocError>
        ensures { OnOk result
            (members_of self.new ≡ put key.now (number_value number) (members_of self.old)) }
    {
        self.put(alloc, key, Value::from(number))
    }

    /// Adds a number that may be less than 0.
    pub fn put_integer(&mut self, alloc: Global, key: &str, number: i64) -> Result<(), AllocError>
        ensures { OnOk result
            (members_of self.new ≡ put key.now (integer_value number) (members_of self.old)) }
    {
        self.put(alloc, key, Value::from(number))
    }

    /// Adds a list of numbers.
    pub fn put_integers(
        &mut self,
        alloc: Global,
        key: &str,
        numbers: &[i64],
    ) -> Result<(), AllocError>
        ensures { OnOk result
            (members_of self.new ≡ put key.now (integers_value numbers.now) (members_of self.old)) }
    {
        let list = integers(alloc, numbers)?;
        self.put(alloc, key, list)
    }

    /// Adds whether something is so.
    pub fn put_truth(&mut self, alloc: Global, key: &str, truth: bool) -> Result<(), AllocError>
        ensures { OnOk result
            (members_of self.new ≡ put key.now (boolean truth) (members_of self.old)) }
    {
        self.put(alloc, key, Value::from(truth))
    }

    /// The object as a value.
    pub fn into_value(self) -> Value
        ensures { view result ≡ object (members_of self) }
    {
        Value::from(self.members)
    }

    /// The object in one line, with its line feed.
    pub fn line(self, alloc: Global) -> Result<Vec<u8>, AllocError>
        ensures text { IfOk result (λ v. v.items ≡ json_line (object (members_of self))) }
        ensures reads_back { OnOk result (IsReadBack (object (members_of self))) }
    {
        let value = self.into_value();
        let mut line = value.to_vec(alloc)?;
        line.push(b'\n')?;
        Ok(line)
    }
}
