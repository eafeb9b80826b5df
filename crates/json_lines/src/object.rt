//! Making a JSON object key by key, and writing it as a line.
ghost use Rattle.std.specs.Prelude.{◌≡◌, IfOk, OnErr, OnOk, false};
ghost use Rattle.serde_json.specs.Data.{no_members, null, object as object_data};
ghost use Rattle.serde_json.specs.View.{members_view, view};
ghost use Rattle.serde_json.specs.Written.{has_float, members_have_float};

use serde_json::{Map, Value};
use std::alloc::{AllocError, Global};

/// An object that is being made. It holds no number with a fraction, so that its text is known.
///
/// Each `set` puts a value at a key, in place of one that stood there. Keys stand in byte order,
/// whatever the order of the calls. Where memory is wanting the object stays as it was.
#[derive(Drop)]
pub struct Object {
    alloc: Global,
    map: Map<String, Value>,
    ghost plain: { members_have_float (members_view map.entries) ≡ false },
}

impl Object {
    ghost use Rattle.json_lines.specs.Object.{ReadsAs, line_of, members_of, optional, with_flag, with_member, with_number, with_text};

    /// An object with no keys.
    pub fn new(alloc: Global) -> Object
        ensures { members_of result ≡ no_members }
    {
        Object {
            alloc,
            map: Map::new(alloc),
        }
    }

    /// Where the object takes its memory.
    pub fn alloc(&self) -> Global {
        self.alloc
    }

    /// Puts a value in, which has no number with a fraction.
    #[tactic(auto, using(crate::proofs::Plain::with_member_plain), unfolding(crate::specs::Object::with_member))]
    pub fn set(&mut self, key: &str, value: Value) -> Result<(), AllocError>
        requires { has_float (view value) ≡ false }
        ensures ok { OnOk result (members_of self.new ≡ with_member key.now (view value) (members_of self.old)) }
        ensures err { OnErr result (members_of self.new ≡ members_of self.old) }
    {
        serde_json::put(&mut self.map, self.alloc, key, value)
    }

    /// Puts a whole number in.
    pub fn set_number(&mut self, key: &str, n: u64) -> Result<(), AllocError>
        ensures ok { OnOk result (members_of self.new ≡ with_number key.now n (members_of self.old)) }
        ensures err { OnErr result (members_of self.new ≡ members_of self.old) }
    {
        self.set(key, Value::from(n))
    }

    /// Puts a text in.
    pub fn set_text(&mut self, key: &str, text: &str) -> Result<(), AllocError>
        ensures ok { OnOk result (members_of self.new ≡ with_text key.now text.now (members_of self.old)) }
        ensures err { OnErr result (members_of self.new ≡ members_of self.old) }
    {
        let value = Value::try_from_str(self.alloc, text)?;
        self.set(key, value)
    }

    /// Puts `true` or `false` in.
    pub fn set_bool(&mut self, key: &str, flag: bool) -> Result<(), AllocError>
        ensures ok { OnOk result (members_of self.new ≡ with_flag key.now flag (members_of self.old)) }
        ensures err { OnErr result (members_of self.new ≡ members_of self.old) }
    {
        self.set(key, Value::Bool(flag))
    }

    /// Puts `null` in.
    pub fn set_null(&mut self, key: &str) -> Result<(), AllocError>
        ensures ok { OnOk result (members_of self.new ≡ with_member key.now null (members_of self.old)) }
        ensures err { OnErr result (members_of self.new ≡ members_of self.old) }
    {
        self.set(key, Value::Null)
    }

    /// Puts a whole number in, or `null` where there is none.
    pub fn set_optional(&mut self, key: &str, n: Option<u64>) -> Result<(), AllocError>
        ensures ok { OnOk result (members_of self.new ≡ with_member key.now (optional n) (members_of self.old)) }
        ensures err { OnErr result (members_of self.new ≡ members_of self.old) }
    {
        match n {
            Some(n) => self.set_number(key, n),
            None => self.set_null(key),
        }
    }

    /// The object as a value.
    pub fn value(self) -> Value
        ensures data { view result ≡ object_data (members_of self) }
        ensures plain { has_float (view result) ≡ false }
    {
        let Object { map, .. } = self;
        Value::Object(map)
    }

    /// The object's compact text and a line feed.
    pub fn line(self) -> Result<Vec<u8>, AllocError>
        ensures text { IfOk result (λ bytes. bytes.items ≡ line_of (members_of self)) }
        ensures reads { IfOk result (λ _. ReadsAs (members_of self)) }
    {
        let alloc = self.alloc;
        let mut bytes = self.value().to_vec(alloc)?;
        bytes.push(b'\n')?;
        Ok(bytes)
    }
}
