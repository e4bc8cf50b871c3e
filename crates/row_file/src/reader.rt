use crate::rows::Row;
use mesh_base::memory::Memory;
use std::alloc::{AllocError, AllocFailed, Global};
use std::fmt;

const MARK: &str = "----";

/// What is wrong with a file.
#[derive(Clone, Copy, Debug, PartialEq, Eq)]
pub enum Problem {
    /// A line outside of rows that is no name, no definition and not empty.
    Line,
    /// A definition without ` = `.
    Definition,
    /// A name that an earlier row of the file has, or an earlier definition that holds here.
    RepeatedName,
    /// A line `$NAME` without a definition above it.
    UnknownName,
    /// The file ends before the row does.
    Unfinished,
    Memory,
}

impl fmt::Display for Problem {
    fn fmt<W: fmt::Write>(&self, f: &mut fmt::Formatter<W>) -> fmt::Result {
        let text = match self {
            Problem::Line => "neither a row nor a definition",
            Problem::Definition => "a definition is `let NAME = TEXT`",
            Problem::RepeatedName => "the name is not the first of its kind",
            Problem::UnknownName => "no definition above has this name",
            Problem::Unfinished => "the row does not end",
            Problem::Memory => "out of memory",
        };
        write!(f, "{text}")
    }
}

impl From<AllocError> for Problem {
    fn from(_e: AllocError) -> Problem {
        Problem::Memory
    }
}

impl From<Memory> for Problem {
    fn from(_e: Memory) -> Problem {
        Problem::Memory
    }
}

impl<T: Drop> From<AllocFailed<T>> for Problem {
    fn from(_e: AllocFailed<T>) -> Problem {
        Problem::Memory
    }
}

/// A problem and the number of its line, from 1.
#[derive(Clone, Copy, Debug, PartialEq, Eq)]
pub struct FileFault {
    pub line: u64,
    pub problem: Problem,
}

// Where the next line stands.
#[derive(Clone, Copy, Debug, PartialEq, Eq)]
enum Place {
    Between,
    // After a name, before the words.
    Head,
    Input,
    // Directly after the input.
    Start,
    Expected,
    // In an expected output that may have empty lines.
    Block,
    // After one line `----` of such an output.
    BlockEnd,
}

#[derive(Debug, Drop)]
struct Definition {
    name: String,
    text: String,
}

/// Reads files one after the other into rows.
#[derive(Debug, Drop)]
pub struct RowReader {
    alloc: Global,
    definitions: Vec<Definition>,
    place: Place,
    line: u64,
}

// Returns an empty row with a name.
fn named(alloc: Global, name: &str, line: u64) -> Result<Row, Problem> {
    Ok(Row {
        name: String::from_str(alloc, name)?,
        words: String::new(alloc),
        input: String::new(alloc),
        expected: String::new(alloc),
        line,
    })
}

// Appends a line.
fn push_line(text: &mut String, line: &str) -> Result<(), Problem> {
    text.push_str(line)?;
    text.push('\n')?;
    Ok(())
}

fn has_name(rows: &[Row], name: &str) -> bool {
    rows.iter().any(|row| row.name.as_str() == name)
}

impl RowReader {
    pub fn new(alloc: Global) -> RowReader {
        RowReader {
            alloc,
            definitions: Vec::new(alloc),
            place: Place::Between,
            line: 0,
        }
    }

    /// Returns the rows of a file.
    pub fn read(&mut self, text: &str) -> Result<Vec<Row>, FileFault> {
        let kept = self.definitions.len();
        self.place = Place::Between;
        self.line = 0;
        match self.rows(text) {
            Ok(rows) => {
                if !rows.is_empty() {
                    self.definitions.truncate(kept);
                }
                Ok(rows)
            }
            Err(problem) => Err(FileFault {
                line: self.line,
                problem,
            }),
        }
    }

    fn rows(&mut self, text: &str) -> Result<Vec<Row>, Problem> {
        let mut rows = Vec::new(self.alloc);
        let mut row = named(self.alloc, "", 0)?;
        for line in text.split('\n') {
            self.line = self.line.saturating_add(1);
            if self.step(&mut row, &rows, line)? {
                rows.push(row)?;
                row = named(self.alloc, "", 0)?;
            }
        }
        // After its last line feed, a text has one more line, which is empty.
        match self.place {
            Place::Between | Place::Head => Ok(rows),
            Place::Start | Place::Expected => {
                rows.push(row)?;
                Ok(rows)
            }
            _ => Err(Problem::Unfinished),
        }
    }

    // Reads a line, and returns whether it ends the row.
    fn step(&mut self, row: &mut Row, rows: &[Row], line: &str) -> Result<bool, Problem> {
        match self.place {
            Place::Between => self.outside(row, rows, line)?,
            Place::Head => self.head(row, rows, line)?,
            Place::Input if line == MARK => self.place = Place::Start,
            Place::Input => self.push(&mut row.input, line)?,
            Place::Start if line == MARK => self.place = Place::Block,
            Place::Start | Place::Expected => return self.expected(row, line),
            Place::Block if line == MARK => self.place = Place::BlockEnd,
            Place::Block => self.push(&mut row.expected, line)?,
            Place::BlockEnd => return self.block_end(row, line),
        }
        Ok(false)
    }

    fn outside(&mut self, row: &mut Row, rows: &[Row], line: &str) -> Result<(), Problem> {
        if let Some(definition) = line.strip_prefix("let ") {
            self.place = Place::Between;
            return self.define(definition);
        }
        if line.is_empty() {
            self.place = Place::Between;
            return Ok(());
        }
        let Some(name) = line.strip_prefix("# ") else {
            return Err(Problem::Line);
        };
        if has_name(rows, name) {
            return Err(Problem::RepeatedName);
        }
        *row = named(self.alloc, name, self.line)?;
        self.place = Place::Head;
        Ok(())
    }

    fn head(&mut self, row: &mut Row, rows: &[Row], line: &str) -> Result<(), Problem> {
        if line.starts_with('#') {
            return Ok(());
        }
        if line.is_empty() || line.starts_with("let ") {
            return self.outside(row, rows, line);
        }
        row.words.push_str(line)?;
        self.place = Place::Input;
        Ok(())
    }

    fn expected(&mut self, row: &mut Row, line: &str) -> Result<bool, Problem> {
        if line.is_empty() {
            self.place = Place::Between;
            return Ok(true);
        }
        self.place = Place::Expected;
        self.push(&mut row.expected, line)?;
        Ok(false)
    }

    fn block_end(&mut self, row: &mut Row, line: &str) -> Result<bool, Problem> {
        if line == MARK {
            self.place = Place::Between;
            return Ok(true);
        }
        self.place = Place::Block;
        push_line(&mut row.expected, MARK)?;
        self.push(&mut row.expected, line)?;
        Ok(false)
    }

    fn define(&mut self, definition: &str) -> Result<(), Problem> {
        let Some((name, text)) = definition.split_once(" = ") else {
            return Err(Problem::Definition);
        };
        if self.text_of(name).is_some() {
            return Err(Problem::RepeatedName);
        }
        self.definitions.push(Definition {
            name: String::from_str(self.alloc, name)?,
            text: String::from_str(self.alloc, text)?,
        })?;
        Ok(())
    }

    fn text_of(&self, name: &str) -> Option<&str> {
        for definition in self.definitions.iter() {
            if definition.name.as_str() == name {
                return Some(definition.text.as_str());
            }
        }
        None
    }

    // Appends a line, or the text that it stands for.
    fn push(&self, to: &mut String, line: &str) -> Result<(), Problem> {
        let Some(name) = line.strip_prefix('$') else {
            return push_line(to, line);
        };
        match self.text_of(name) {
            Some(text) => push_line(to, text),
            None => Err(Problem::UnknownName),
        }
    }
}
