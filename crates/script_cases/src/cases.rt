//! The cases of a table, each run and compared.

use std::alloc::{AllocError, Global};
use std::test::Fail;

/// What a run comes to: its status, and the bytes that it wrote.
#[derive(Drop)]
pub struct Ran {
    pub status: u8,
    pub output: Vec<u8>,
}

// One run, as far as its lines have told it.
#[derive(Drop)]
struct Case {
    name: String,
    words: Vec<String>,
    input: String,
    output: String,
    status: String,
}

/// Does each case of a table by `run`, which is given the words and the input.
///
/// A line of a table begins with a sign and a space: `#` with a case's name, `$` with its words, `<` with a line of its
/// input, `>` with a line that it must write, and `=` with its status, which is 0 where none is told.
pub fn check_cases<F: Fn(&[String], &[u8]) -> Result<Ran, Fail>>(
    alloc: Global,
    table: &str,
    run: F,
) -> Result<(), Fail>
    requires { F.IsAlwaysCallable run }
{
    let mut case = Case::new(alloc);
    for line in table.lines() {
        if line.starts_with('#') {
            case.check(&run)?;
            case = Case::new(alloc);
        }
        case.add(alloc, line)?;
    }
    case.check(&run)
}

impl Case {
    fn new(alloc: Global) -> Case {
        Case {
            name: String::new(alloc),
            words: Vec::new(alloc),
            input: String::new(alloc),
            output: String::new(alloc),
            status: String::new(alloc),
        }
    }

    // What a line of the table tells.
    fn add(&mut self, alloc: Global, line: &str) -> Result<(), AllocError> {
        match line.split_once(' ') {
            Some(("#", name)) => self.name.push_str(name),
            Some(("$", words)) => self.add_words(alloc, words),
            Some(("<", input)) => add_line(&mut self.input, input),
            Some((">", output)) => add_line(&mut self.output, output),
            Some(("=", status)) => self.status.push_str(status),
            _ => Ok(()),
        }
    }

    fn add_words(&mut self, alloc: Global, words: &str) -> Result<(), AllocError> {
        for word in words.split_whitespace() {
            self.words.push(String::from_str(alloc, word)?)?;
        }
        Ok(())
    }

    // Runs the case and compares; what stands before the first name is none.
    fn check<F: Fn(&[String], &[u8]) -> Result<Ran, Fail>>(&self, run: &F) -> Result<(), Fail>
        requires { F.IsAlwaysCallable run.now }
    {
        if self.name.is_empty() {
            return Ok(());
        }
        let ran = run(&self.words, self.input.as_str().as_bytes())?;
        if ran.output.as_slice() != self.output.as_str().as_bytes() {
            return Err(Fail::new("a case with another output"));
        }
        if ran.status != self.status.as_str().parse::<u8>().unwrap_or(0) {
            return Err(Fail::new("a case with another status"));
        }
        Ok(())
    }
}

fn add_line(text: &mut String, line: &str) -> Result<(), AllocError> {
    text.push_str(line)?;
    text.push('\n')
}
