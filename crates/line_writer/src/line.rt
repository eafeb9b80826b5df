//! An object on a line of its own, written member by member.
ghost use Rattle.std.specs.Prelude.{◌≡◌, ◌++◌, [], ◌∷◌, map, IfOk, OnOk};
ghost use Rattle.json.specs.Token.{key as key_token, begin_object, begin_array, end_array, end_object};
ghost use Rattle.serde_json.specs.Data.{Members, array, boolean, item, member, no_members, null as null_data, number as number_data, string, unsigned};
ghost use Rattle.json_lines.specs.Object.{line_of, optional as optional_data};
ghost use Rattle.line_writer.specs.Puts.{Puts, PutsElements, elements_before, members_closed};
ghost use Rattle.serde_json.specs.View.{items_of};

use json::Writer;
use std::alloc::AllocError;
use std::marker::Model;

/// A line that is being written, behind what its buffer holds. Members are put in byte order of their
/// keys, each key once. The only error of a call is want of memory; a line is dropped after it.
#[derive(Drop)]
pub struct LineWriter {
    out: Writer,
}

impl Model for LineWriter {
    ghost use Rattle.json.specs.Written.{Written, written_code};

    ghost Value = { Written };

    ghost coded = { written_code };

    ghost view = { λ line. line.out };
}

impl LineWriter {
    /// Opens an object behind what `bytes` holds.
    pub fn begin(bytes: Vec<u8>) -> Result<LineWriter, AllocError>
        ensures { IfOk result (λ line. (line.before ≡ bytes.items) × (line.tokens ≡ begin_object ∷ [])) }
    {
        let mut out = Writer::new(bytes);
        out.begin_object()?;
        Ok(LineWriter { out })
    }

    /// Closes the object and ends the line. What is written is the line of those members that were put.
    pub fn finish(self) -> Result<Vec<u8>, AllocError>
        ensures { IfOk result (λ bytes. (ms : Members) → self.tokens ++ members_closed no_members ≡ begin_object ∷ members_closed ms
            → bytes.items ≡ self.before ++ line_of ms) }
    {
        let LineWriter { mut out } = self;
        out.end_object()?;
        let mut bytes = out.into_inner();
        bytes.push(b'\n')?;
        Ok(bytes)
    }

    /// Names the member whose value is put next, as an array that is opened then.
    pub fn key(&mut self, name: &str) -> Result<(), AllocError>
        ensures { OnOk result ((self.new.before ≡ self.old.before) × (self.new.tokens ≡ self.old.tokens ++ key_token name.now ∷ [])) }
    {
        self.out.key(name)
    }

    /// Puts a whole number in.
    pub fn number(&mut self, key: &str, n: u64) -> Result<(), AllocError>
        ensures { OnOk result (Puts self.old self.new (member key.now (number_data (unsigned n)))) }
    {
        self.out.key(key)?;
        self.out.u64(n)
    }

    /// Puts a text in.
    pub fn text(&mut self, key: &str, text: &str) -> Result<(), AllocError>
        ensures { OnOk result (Puts self.old self.new (member key.now (string text.now))) }
    {
        self.out.key(key)?;
        self.out.string(text)
    }

    /// Puts `true` or `false` in.
    pub fn flag(&mut self, key: &str, flag: bool) -> Result<(), AllocError>
        ensures { OnOk result (Puts self.old self.new (member key.now (boolean flag))) }
    {
        self.out.key(key)?;
        self.out.boolean(flag)
    }

    /// Puts `null` in.
    pub fn null(&mut self, key: &str) -> Result<(), AllocError>
        ensures { OnOk result (Puts self.old self.new (member key.now null_data)) }
    {
        self.out.key(key)?;
        self.out.null()
    }

    /// Puts a whole number in, or `null` where there is none.
    pub fn optional(&mut self, key: &str, n: Option<u64>) -> Result<(), AllocError>
        ensures { OnOk result (Puts self.old self.new (member key.now (optional_data n))) }
    {
        match n {
            Some(n) => self.number(key, n),
            None => self.null(key),
        }
    }

    /// Opens an array.
    pub fn open_array(&mut self) -> Result<(), AllocError>
        ensures { OnOk result ((self.new.before ≡ self.old.before) × (self.new.tokens ≡ self.old.tokens ++ begin_array ∷ [])) }
    {
        self.out.begin_array()
    }

    /// Closes an array.
    pub fn close_array(&mut self) -> Result<(), AllocError>
        ensures { OnOk result ((self.new.before ≡ self.old.before) × (self.new.tokens ≡ self.old.tokens ++ end_array ∷ [])) }
    {
        self.out.end_array()
    }

    /// Opens an object as an element.
    pub fn open_object(&mut self) -> Result<(), AllocError>
        ensures { OnOk result ((self.new.before ≡ self.old.before) × (self.new.tokens ≡ self.old.tokens ++ begin_object ∷ [])) }
    {
        self.out.begin_object()
    }

    /// Closes an object that is an element.
    pub fn close_object(&mut self) -> Result<(), AllocError>
        ensures { OnOk result ((self.new.before ≡ self.old.before) × (self.new.tokens ≡ self.old.tokens ++ end_object ∷ [])) }
    {
        self.out.end_object()
    }

    /// Puts a whole number in as an element.
    pub fn element(&mut self, n: u64) -> Result<(), AllocError>
        ensures { OnOk result (PutsElements self.old self.new (item (number_data (unsigned n)))) }
    {
        self.out.u64(n)
    }

    /// Puts a list of whole numbers in.
    pub fn numbers(&mut self, key: &str, numbers: &[u64]) -> Result<(), AllocError>
        ensures { OnOk result (Puts self.old self.new (member key.now (array (items_of (map (λ n. number_data (unsigned n)) numbers.now))))) }
    {
        self.key(key)?;
        self.open_array()?;
        self.elements(numbers)?;
        self.close_array()
    }

    fn elements(&mut self, numbers: &[u64]) -> Result<(), AllocError>
        ensures { OnOk result (PutsElements self.old self.new (elements_before (map (λ n. number_data (unsigned n)) numbers.now))) }
    {
        for n in numbers {
            self.element(*n)?;
        }
        Ok(())
    }
}
