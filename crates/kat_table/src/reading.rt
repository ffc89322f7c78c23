//! Row files: a kind, named texts, and rows of keys with texts.
use crate::errors::RowError;
use crate::escapes::expand;
use std::alloc::Global;

/// A line `KEY TEXT`, or `KEY NAME TEXT` for the one key that takes a name.
pub struct Entry {
    pub key: String,
    pub name: String,
    pub text: Vec<u8>,
}

impl Drop for Entry {
    fn drop(self) {
        let Self {
            key: _,
            name: _,
            text: _,
        } = self;
    }
}

/// A row, with the number of its first line.
pub struct Row {
    pub line: usize,
    pub title: String,
    pub entries: Vec<Entry>,
}

impl Drop for Row {
    fn drop(self) {
        let Self {
            line: _,
            title: _,
            entries: _,
        } = self;
    }
}

/// What a row file says.
pub struct Table {
    pub kind: String,
    /// The entries before the first row, which count for every row.
    pub head: Vec<Entry>,
    pub rows: Vec<Row>,
}

impl Drop for Table {
    fn drop(self) {
        let Self {
            kind: _,
            head: _,
            rows: _,
        } = self;
    }
}

/// The line at which a file is damaged, and why.
#[derive(Clone, Copy)]
pub struct Damage {
    pub line: usize,
    pub error: RowError,
}

/// Where the texts of the lines that begin with `|` go.
#[derive(Clone, Copy)]
enum Block {
    Nowhere,
    Text,
    Entry,
}

/// A table that is being read.
#[derive(Drop)]
struct Reader {
    table: Table,
    /// The named texts, each under its name as the key.
    named: Vec<Entry>,
    block: Block,
    /// The key of what comes before ` => ` in rows of one line.
    column: String,
    is_whole: bool,
}

impl Reader {
    /// Takes the next line.
    fn take(&mut self, alloc: Global, number: usize, line: &str) -> Result<(), RowError> {
        if line.is_empty() || line.starts_with('#') {
            return Ok(());
        }
        if self.is_whole {
            return Err(RowError::Damaged("a line is behind the number of rows"));
        }
        if let Some(said) = more_in(line) {
            return self.take_more(alloc, said);
        }
        if let Some(said) = line.strip_prefix("- ") {
            return self.take_short(alloc, number, said);
        }
        let (key, rest) = line.split_once(' ').unwrap_or((line, ""));
        self.take_key(alloc, number, key, rest)
    }

    /// Takes a line that begins with a key.
    fn take_key(
        &mut self,
        alloc: Global,
        number: usize,
        key: &str,
        rest: &str,
    ) -> Result<(), RowError> {
        if self.table.kind.is_empty() != (key == "table") {
            return Err(RowError::Damaged("the first line, and no other, is the table's"));
        }
        match key {
            "table" => set(&mut self.table.kind, rest),
            "column" => set(&mut self.column, rest),
            "rows" => self.take_count(rest),
            _ => self.take_part(alloc, number, key, rest),
        }
    }

    /// Takes a named text, the first line of a row, or an entry.
    fn take_part(
        &mut self,
        alloc: Global,
        number: usize,
        key: &str,
        rest: &str,
    ) -> Result<(), RowError> {
        match key {
            "let" => self.take_let(alloc, rest),
            "row" => self.take_row(alloc, number, rest),
            "file" => {
                let (name, said) = rest.split_once(' ').unwrap_or((rest, ""));
                self.take_entry(alloc, key, name, said)
            }
            _ => self.take_entry(alloc, key, "", rest),
        }
    }

    /// Takes a line of a text that has several.
    fn take_more(&mut self, alloc: Global, said: &str) -> Result<(), RowError> {
        let more = expanded(alloc, said, &self.named)?;
        match self.open_entry() {
            Some(entry) => Ok(entry.text.extend_from_slice(&more)?),
            None => Err(RowError::Damaged("a line of a text is behind no key")),
        }
    }

    /// The entry whose text goes on.
    fn open_entry(&mut self) -> Option<&mut Entry> {
        match self.block {
            Block::Nowhere => None,
            Block::Text => self.named.last_mut(),
            Block::Entry => entries_of(&mut self.table).last_mut(),
        }
    }

    /// Takes a named text.
    fn take_let(&mut self, alloc: Global, rest: &str) -> Result<(), RowError> {
        let (name, said) = rest.split_once(' ').unwrap_or((rest, ""));
        if find(&self.named, name).is_some() {
            return Err(RowError::Damaged("two texts have one name"));
        }
        self.block = block_of(said, Block::Text);
        let entry = entry_of(alloc, name, "", said, &self.named)?;
        Ok(self.named.push(entry)?)
    }

    /// Begins a row.
    fn take_row(&mut self, alloc: Global, line: usize, title: &str) -> Result<(), RowError> {
        self.block = Block::Nowhere;
        let row = Row {
            line,
            title: String::from_str(alloc, title)?,
            entries: Vec::new(alloc),
        };
        self.table.rows.push(row)?;
        Ok(())
    }

    /// Takes a row of one line.
    fn take_short(&mut self, alloc: Global, line: usize, said: &str) -> Result<(), RowError> {
        if self.column.is_empty() {
            return Err(RowError::Damaged("a row of one line is in a table without a column"));
        }
        let Some((left, right)) = said.split_once(" => ") else {
            return Err(RowError::Damaged("a row of one line has no arrow"));
        };
        self.take_row(alloc, line, left)?;
        let entries = entries_of(&mut self.table);
        add_entry(alloc, entries, self.column.as_str(), "", left, &self.named)?;
        self.take_entry(alloc, "gives", "", right)
    }

    /// Takes the last line, which says how many rows there are.
    fn take_count(&mut self, rest: &str) -> Result<(), RowError> {
        self.is_whole = true;
        if rest.parse::<usize>() == Ok(self.table.rows.len()) {
            Ok(())
        } else {
            Err(RowError::Damaged("there are more rows, or fewer, than the file says"))
        }
    }

    /// Takes an entry of the head or of a row.
    fn take_entry(
        &mut self,
        alloc: Global,
        key: &str,
        name: &str,
        said: &str,
    ) -> Result<(), RowError> {
        self.block = block_of(said, Block::Entry);
        let entries = entries_of(&mut self.table);
        add_entry(alloc, entries, key, name, said, &self.named)
    }
}

/// Replaces a text.
fn set(text: &mut String, said: &str) -> Result<(), RowError> {
    text.clear();
    Ok(text.push_str(said)?)
}

/// Adds an entry.
fn add_entry(
    alloc: Global,
    entries: &mut Vec<Entry>,
    key: &str,
    name: &str,
    said: &str,
    named: &[Entry],
) -> Result<(), RowError> {
    let entry = entry_of(alloc, key, name, said, named)?;
    Ok(entries.push(entry)?)
}

/// Where the lines after a text go: nowhere, unless the text is empty.
fn block_of(said: &str, open: Block) -> Block {
    if said.is_empty() {
        open
    } else {
        Block::Nowhere
    }
}

/// An entry with what its text stands for.
fn entry_of(
    alloc: Global,
    key: &str,
    name: &str,
    said: &str,
    named: &[Entry],
) -> Result<Entry, RowError> {
    let mut entry = Entry {
        key: String::from_str(alloc, key)?,
        name: String::from_str(alloc, name)?,
        text: Vec::new(alloc),
    };
    expand(said, named, &mut entry.text)?;
    Ok(entry)
}

/// What a line of a text that has several stands for, with its newline.
fn expanded(alloc: Global, said: &str, named: &[Entry]) -> Result<Vec<u8>, RowError> {
    let mut text = Vec::new(alloc);
    expand(unended(said), named, &mut text)?;
    if !is_unended(said) {
        text.push(b'\n')?;
    }
    Ok(text)
}

/// The text of the first entry with a key.
pub(crate) fn find<'a>(entries: &'a [Entry], key: &str) -> Option<&'a [u8]> {
    for entry in entries {
        if entry.key.as_str() == key {
            return Some(entry.text.as_slice());
        }
    }
    None
}

/// What a line says that goes on with a text.
fn more_in(line: &str) -> Option<&str> {
    if line == "|" {
        Some("")
    } else {
        line.strip_prefix("| ")
    }
}

/// Whether a line of a text ends without a newline: by one backslash.
fn is_unended(said: &str) -> bool {
    said.ends_with('\\') && !said.ends_with("\\\\")
}

/// A line of a text without the backslash at its end.
fn unended(said: &str) -> &str {
    if is_unended(said) {
        said.strip_suffix('\\').unwrap_or(said)
    } else {
        said
    }
}

/// The entries of the last row, or of the head if there is no row.
fn entries_of(table: &mut Table) -> &mut Vec<Entry> {
    match table.rows.last_mut() {
        Some(row) => &mut row.entries,
        None => &mut table.head,
    }
}

/// Reads a row file. It is whole: its last line says how many rows it has.
pub fn read_table(alloc: Global, text: &str) -> Result<Table, Damage> {
    let mut reader = Reader {
        table: Table {
            kind: String::new(alloc),
            head: Vec::new(alloc),
            rows: Vec::new(alloc),
        },
        named: Vec::new(alloc),
        block: Block::Nowhere,
        column: String::new(alloc),
        is_whole: false,
    };
    let mut number: usize = 0;
    for line in text.lines() {
        number = number.saturating_add(1);
        if let Err(error) = reader.take(alloc, number, line) {
            return Err(Damage {
                line: number,
                error,
            });
        }
    }
    if reader.is_whole {
        Ok(reader.table)
    } else {
        Err(Damage {
            line: number,
            error: RowError::Damaged("the file is cut off: it doesn't say how many rows it has"),
        })
    }
}
