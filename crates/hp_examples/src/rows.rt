//! Rows of commands: words, an input, and the status and the output that are to come of them.
//!
//! A file of rows has these lines:
//!
//! - `row NAME` begins a row;
//! - `hp WORDS` are the words of the command;
//! - `<TEXT` is a line of the input, and `(TEXT` its last one, which no newline ends;
//! - `status N` is the status that is wanted, and each `>TEXT` behind it a line of the output;
//! - `accepted` wants the status 0, whatever the output;
//! - `ends` wants the status 0, and that the output ends with the lines behind it, each as `>TEXT`;
//! - `summary` wants the same, and that the output, replayed, gives those lines;
//! - `played` wants the status 0, and that the output is a script of which, played, the same is so;
//! - any line that begins with the word of a way in which an input is changed wants that of the input so far, as
//!   [`crate::changes`] says;
//! - an empty line, or one that begins with `#`, says nothing.

use crate::changes::is_said;
use crate::command::run;
use hp_edge::DONE;
use std::alloc::{AllocError, Global};

/// What is wanted of a row's command.
#[derive(Clone, Copy)]
enum Wanted {
    /// Nothing was said of it.
    Nothing,
    /// The status 0.
    Accepted,
    /// The status 0, and that the output ends with that of the row.
    End,
    /// The same, and that the output is a journal with this summary.
    Summary,
    /// The status 0, and that the output is a script whose journal has this summary.
    Played,
    /// The status, and the output of the row.
    Status(u8),
}

/// A row, as far as it is read.
#[derive(Drop)]
struct Row<'a> {
    name: &'a str,
    words: &'a str,
    input: String,
    wanted: Wanted,
    output: String,
    /// The first line of a change that came out otherwise.
    wrong: Option<&'a str>,
}

/// Appends a line.
fn push_line(text: &mut String, line: &str) -> Result<(), AllocError> {
    text.push_str(line)?;
    text.push('\n')
}

/// Whether an output ends with these lines.
fn ends_with_lines(output: &[u8], lines: &[u8]) -> bool {
    match output.strip_suffix(lines) {
        Some(front) => front.is_empty() || front.ends_with(b"\n".as_slice()),
        None => false,
    }
}

/// Whether an output is a journal that, replayed, gives this summary.
fn is_journal_of(alloc: Global, output: &[u8], summary: &[u8]) -> Result<bool, AllocError> {
    let (status, found) = run(alloc, "replay", output)?;
    Ok(status == DONE && found.as_slice() == summary)
}

/// Whether an output is a script that is played to a journal with this summary, which is written behind it.
fn is_script_of(alloc: Global, output: &[u8], summary: &[u8]) -> Result<bool, AllocError> {
    let (status, text) = run(alloc, "play", output)?;
    Ok(
        status == DONE
            && ends_with_lines(text.as_slice(), summary)
            && is_journal_of(alloc, text.as_slice(), summary)?,
    )
}

impl<'a> Row<'a> {
    /// The row of these lines, the first of which is its name.
    fn read(alloc: Global, text: &'a str) -> Result<Self, AllocError> {
        let mut lines = text.split('\n');
        let mut row = Self {
            name: lines.next().unwrap_or(""),
            words: "",
            input: String::new(alloc),
            wanted: Wanted::Nothing,
            output: String::new(alloc),
            wrong: None,
        };
        for line in lines {
            row.take(alloc, line)?;
        }
        Ok(row)
    }

    /// Takes a line of the row.
    fn take(&mut self, alloc: Global, line: &'a str) -> Result<(), AllocError> {
        if let Some(text) = line.strip_prefix('<') {
            push_line(&mut self.input, text)?;
        } else if let Some(text) = line.strip_prefix('(') {
            self.input.push_str(text)?;
        } else if let Some(text) = line.strip_prefix('>') {
            push_line(&mut self.output, text)?;
        } else if let Some(words) = line.strip_prefix("hp ") {
            self.words = words;
        } else if let Some(status) = line.strip_prefix("status ") {
            self.wanted = status.parse().map_or(Wanted::Nothing, Wanted::Status);
        } else if line == "accepted" {
            self.wanted = Wanted::Accepted;
        } else if line == "ends" {
            self.wanted = Wanted::End;
        } else if line == "summary" {
            self.wanted = Wanted::Summary;
        } else if line == "played" {
            self.wanted = Wanted::Played;
        } else if !line.is_empty() && !line.starts_with('#') {
            self.take_change(alloc, line)?;
        }
        Ok(())
    }

    /// Takes a line of a change.
    fn take_change(&mut self, alloc: Global, line: &'a str) -> Result<(), AllocError> {
        if self.wrong.is_none() && !is_said(alloc, self.words, self.input.as_str(), line)? {
            self.wrong = Some(line);
        }
        Ok(())
    }

    /// Whether the command comes out as is wanted.
    fn is_as_stored(&self, alloc: Global) -> Result<bool, AllocError> {
        let (status, output) = run(alloc, self.words, self.input.as_bytes())?;
        let (found, lines) = (output.as_slice(), self.output.as_bytes());
        let ends = status == DONE && ends_with_lines(found, lines);
        Ok(match self.wanted {
            Wanted::Nothing => false,
            Wanted::Accepted => status == DONE,
            Wanted::End => ends,
            Wanted::Summary => ends && is_journal_of(alloc, found, lines)?,
            Wanted::Played => status == DONE && is_script_of(alloc, found, lines)?,
            Wanted::Status(wanted) => status == wanted && found == lines,
        })
    }
}

/// What is said of the rows of a file: how many they are, or the first that comes out otherwise.
pub fn said(alloc: Global, text: &str) -> Result<String, AllocError> {
    let mut rows = 0u32;
    for part in text.split("\nrow ").skip(1) {
        let row = Row::read(alloc, part)?;
        if let Some(change) = row.wrong {
            return format!(in alloc; "row \"{}\" comes out otherwise with: {change}", row.name);
        }
        if !row.is_as_stored(alloc)? {
            return format!(in alloc; "row \"{}\" comes out otherwise", row.name);
        }
        rows = rows.saturating_add(1);
    }
    format!(in alloc; "rows as stored: {rows}")
}
