//! Scripts in which clients type at random.

ghost use Rattle.std.specs.Prelude.{◌<◌};

use std::alloc::Global;
use std::test::Fail;

/// How many clients type.
pub(crate) const CLIENTS: u64 = 8;

/// The text that the document begins with.
pub(crate) const FIRST: &str = "the quick brown fox jumps over the lazy dog";

// How many lines a script has behind its joins.
const LINES: u32 = 160;

// The first of the letters that stand for one keystroke each.
const FIRST_LETTER: u32 = 0x4E00;

// Edits reach no further than this many units into a text, so that most of them are within it.
const REACH: u64 = 24;

// Numbers that look random, each from the one before.
#[derive(Drop)]
struct Random {
    state: u64,
}

impl Random {
    // A number below `n`, which isn't 0.
    fn below(&mut self, n: u64) -> u64
        requires { 0 < n }
        ensures { result < n }
    {
        self.state = self
            .state
            .wrapping_mul(6364136223846793005)
            .wrapping_add(1442695040888963407);
        (self.state >> 33) % n
    }
}

// The lines of a script, with `'` for a quotation mark.
#[derive(Drop)]
struct Lines {
    alloc: Global,
    text: String,
}

impl Lines {
    fn put(&mut self, part: &str) -> Result<(), Fail> {
        for c in part.chars() {
            self.text.push(if c == '\'' { '"' } else { c })?;
        }
        Ok(())
    }

    fn put_number(&mut self, n: u64) -> Result<(), Fail> {
        let digits = n.to_string(self.alloc)?;
        self.put(digits.as_str())
    }

    // A line of a client, up to what the command has besides.
    fn begin(&mut self, command: &str, client: u64) -> Result<(), Fail> {
        self.put("{'do':'")?;
        self.put(command)?;
        self.put("','as':'c")?;
        self.put_number(client)?;
        self.put("'")
    }

    fn put_field(&mut self, key: &str, n: u64) -> Result<(), Fail> {
        self.put(",'")?;
        self.put(key)?;
        self.put("':")?;
        self.put_number(n)
    }

    fn end(&mut self) -> Result<(), Fail> {
        self.put("}\n")
    }

    fn simple(&mut self, command: &str, client: u64) -> Result<(), Fail> {
        self.begin(command, client)?;
        self.end()
    }

    // A document, and clients that join it.
    fn begin_script(&mut self) -> Result<(), Fail> {
        self.put("{'do':'doc','doc':'a','project':'p','text':'")?;
        self.put(FIRST)?;
        self.put("'}\n")?;
        for client in 0..CLIENTS {
            self.begin("join", client)?;
            self.put(",'doc':'a','user':'u'")?;
            self.end()?;
        }
        Ok(())
    }

    fn insert(&mut self, client: u64, at: u64, text: &str) -> Result<(), Fail> {
        self.begin("ins", client)?;
        self.put_field("p", at)?;
        self.put(",'s':'")?;
        self.put(text)?;
        self.put("'")?;
        self.end()
    }

    fn delete(&mut self, client: u64, at: u64, len: u64) -> Result<(), Fail> {
        self.begin("del", client)?;
        self.put_field("p", at)?;
        self.put_field("n", len)?;
        self.end()
    }

    fn comment(&mut self, client: u64, at: u64, len: u64, thread: u64) -> Result<(), Fail> {
        self.begin("com", client)?;
        self.put_field("p", at)?;
        self.put_field("n", len)?;
        self.put_field("t", thread)?;
        self.end()
    }

    // A line of some client, by chance.
    fn type_once(&mut self, random: &mut Random) -> Result<(), Fail> {
        let client = random.below(CLIENTS);
        let at = random.below(REACH);
        match random.below(10) {
            0 => self.insert(client, at, "X"),
            1 => self.insert(client, at, "yz"),
            2 => self.insert(client, at, "Wort"),
            3 | 4 => self.delete(client, at, 1 + random.below(4)),
            5 => self.comment(client, at, random.below(5), random.below(3)),
            6 | 7 => self.simple("send", client),
            8 => self.simple("recv", client),
            _ => self.simple("sync", client),
        }
    }

    // A client types a letter that no other keystroke has.
    fn keystroke(&mut self, client: u64, at: u64, number: u32) -> Result<(), Fail>
        requires { number < 1000 }
    {
        let Some(letter) = char::from_u32(FIRST_LETTER + number) else {
            return Err(Fail::new("no letter"));
        };
        let mut text = String::new(self.alloc);
        text.push(letter)?;
        self.insert(client, at, text.as_str())
    }

    // A line of some client, by chance: it types, or it sends, leaves or comes back.
    fn come_and_go(&mut self, random: &mut Random, number: u32) -> Result<(), Fail>
        requires { number < 1000 }
    {
        let client = random.below(CLIENTS);
        let at = random.below(REACH);
        match random.below(12) {
            0..=3 => self.keystroke(client, at, number),
            4 | 5 => self.simple("send", client),
            6 => self.simple("resend", client),
            7 => self.simple("recv", client),
            8 => self.simple("leave", client),
            9 | 10 => self.simple("rejoin", client),
            _ => self.simple("sync", client),
        }
    }
}

/// A script in which eight clients edit one document, send, receive and sync at random.
pub(crate) fn typing_script(alloc: Global, seed: u64) -> Result<String, Fail> {
    let mut random = Random { state: seed };
    let mut lines = Lines {
        alloc,
        text: String::new(alloc),
    };
    lines.begin_script()?;
    for _line in 0..LINES {
        lines.type_once(&mut random)?;
    }
    Ok(lines.text)
}

/// A script in which eight clients type letters that stand for one keystroke each, send them, send them
/// again, leave and come back at random, and come back at last.
pub(crate) fn returning_script(alloc: Global, seed: u64) -> Result<String, Fail> {
    let mut random = Random { state: seed };
    let mut lines = Lines {
        alloc,
        text: String::new(alloc),
    };
    lines.begin_script()?;
    for number in 0..LINES {
        lines.come_and_go(&mut random, number)?;
    }
    for client in 0..CLIENTS {
        lines.simple("rejoin", client)?;
    }
    Ok(lines.text)
}
