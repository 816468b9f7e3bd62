//! Where a bracket is missing, or is one too many, by the indentation of lines.
use crate::lists::is_in_comment;
use lc_base::OutOfMemory;
use std::alloc::Global;

/// A list that is open.
#[derive(Clone, Copy)]
pub(crate) struct Opened {
    /// Where it begins.
    pub offset: usize,
    /// How far the line is indented in which it begins.
    indent: usize,
    /// Whether it is the first in its line.
    is_first: bool,
}

/// What the indentation of lines says of brackets.
#[derive(Clone, Copy)]
pub(crate) enum Suspect {
    /// A list is still open where a line begins that is not indented further.
    StillOpen {
        list: Opened,
        line: usize,
    },
    /// A bracket closes a list, and a line after it is indented as a part of that.
    ClosedEarly {
        list: Opened,
        bracket: usize,
        line: usize,
    },
}

/// A list that was closed, and by which bracket.
#[derive(Clone, Copy)]
struct Closed {
    list: Opened,
    bracket: usize,
}

/// How far the lines are looked through.
struct Layout {
    open: Vec<Opened>,
    /// The outermost list that was closed since the last line began with a list.
    closed: Option<Closed>,
    /// How far the line is indented.
    indent: usize,
    /// Whether nothing but blanks came in the line.
    is_start: bool,
    in_comment: bool,
}

impl Drop for Layout {
    fn drop(self) {
        let Layout {
            open: _,
            closed: _,
            indent: _,
            is_start: _,
            in_comment: _,
        } = self;
    }
}

impl Layout {
    /// What is wrong where a line begins with a list at an offset.
    fn suspect_at(&self, offset: usize) -> Option<Suspect> {
        for list in self.open.iter().rev() {
            if list.is_first {
                if self.indent <= list.indent {
                    return Some(Suspect::StillOpen {
                        list: *list,
                        line: offset,
                    });
                }
                break;
            }
        }
        match self.closed {
            Some(Closed { list, bracket }) if list.is_first && list.indent < self.indent => {
                Some(Suspect::ClosedEarly {
                    list,
                    bracket,
                    line: offset,
                })
            }
            _ => None,
        }
    }

    /// A list begins at an offset.
    fn open_list(&mut self, offset: usize) -> Result<(), OutOfMemory> {
        self.open.push(Opened {
            offset,
            indent: self.indent,
            is_first: self.is_start,
        })?;
        if self.is_start {
            self.closed = None;
        }
        Ok(())
    }

    /// A bracket at an offset closes a list.
    fn close_list(&mut self, bracket: usize) {
        if let Some(list) = self.open.pop() {
            self.closed = Some(Closed { list, bracket });
        }
    }

    /// Looks at the byte at an offset; returns what is wrong there, if anything is.
    fn look_at(&mut self, offset: usize, byte: u8) -> Result<Option<Suspect>, OutOfMemory> {
        if byte == b'\n' {
            self.indent = 0;
            self.is_start = true;
            self.in_comment = false;
            return Ok(None);
        }
        self.in_comment = is_in_comment(byte, self.in_comment);
        if self.in_comment {
            return Ok(None);
        }
        if self.is_start && byte.is_ascii_whitespace() {
            self.indent = self.indent.saturating_add(1);
            return Ok(None);
        }
        let mut suspect = None;
        if byte == b'(' {
            if self.is_start {
                suspect = self.suspect_at(offset);
            }
            self.open_list(offset)?;
        }
        if byte == b')' {
            self.close_list(offset);
        }
        self.is_start = false;
        Ok(suspect)
    }
}

/// The first place at which brackets and the indentation of lines do not go together.
pub(crate) fn first_suspect(alloc: Global, bytes: &[u8]) -> Result<Option<Suspect>, OutOfMemory> {
    let mut layout = Layout {
        open: Vec::new(alloc),
        closed: None,
        indent: 0,
        is_start: true,
        in_comment: false,
    };
    for (offset, byte) in bytes.iter().copied().enumerate() {
        if let Some(suspect) = layout.look_at(offset, byte)? {
            return Ok(Some(suspect));
        }
    }
    Ok(None)
}
