//! The rows of tables.

use anyhow::{Context, Result, bail};

/// Whose calls fail.
#[derive(Clone, Copy)]
pub enum Port {
    Desk,
    Out,
    Err,
}

/// A row, as the head of `main.rt` says it.
#[derive(Clone, Copy)]
pub struct Row<'a> {
    pub name: &'a str,
    pub words: &'a str,
    pub input: &'a str,
    pub file: &'a str,
    pub reads: usize,
    pub writes: usize,
    pub room: usize,
    pub fails: Port,
    /// How many calls fail, one in each run; none where it is 0.
    pub calls: u64,
    pub says: &'a str,
    pub then: &'a str,
}

impl<'a> Row<'a> {
    /// The row of a line, where it has one.
    pub fn read(line: &'a str) -> Result<Option<Self>> {
        if line.is_empty() || line.starts_with('#') {
            return Ok(None);
        }
        let mut row = Self {
            name: "",
            words: "",
            input: "",
            file: "",
            reads: 1,
            writes: 1,
            room: 4096,
            fails: Port::Out,
            calls: 0,
            says: "",
            then: "",
        };
        for (place, field) in line.split('|').enumerate() {
            let field = field.trim();
            match place {
                0 => row.name = field,
                1 => row.words = field,
                2 => row.input = field,
                _ => row.set(field).context(line)?,
            }
        }
        Ok(Some(row))
    }

    // Takes an option.
    fn set(&mut self, option: &'a str) -> Result<()> {
        let (word, value) = option.split_once(' ').context("an option has a value")?;
        match word {
            "file" => self.file = value,
            "says" => self.says = value,
            "then" => self.then = value,
            "reads" => self.reads = value.parse::<usize>()?,
            "writes" => self.writes = value.parse::<usize>()?,
            "room" => self.room = value.parse::<usize>()?,
            "desk" => (self.fails, self.calls) = (Port::Desk, value.parse::<u64>()?),
            "out" => (self.fails, self.calls) = (Port::Out, value.parse::<u64>()?),
            "err" => (self.fails, self.calls) = (Port::Err, value.parse::<u64>()?),
            _ => bail!("no option: {word}"),
        }
        Ok(())
    }
}
