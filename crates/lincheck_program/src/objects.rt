//! What is said on standard error, as JSON: `--json` after the words of a command that reads files. Each sentence is an object in a line.
use serde_json::{Value, json};
use std::alloc::{AllocError, Global};
use std::io::Write;
use std::str;

/// A sentence of a place, as it is printed: PATH:LINE:COLUMN: SEVERITY: MESSAGE.
#[derive(Clone, Copy)]
struct Head<'a> {
    path: &'a str,
    line: u64,
    column: u64,
    severity: &'static str,
    message: &'a str,
}

/// A sentence, and what is printed below it.
struct Saying<'a> {
    head: Option<Head<'a>>,
    /// The whole line, if it has no place.
    line: &'a str,
    /// How many characters are marked.
    marked: u64,
    notes: Vec<&'a str>,
}

impl Drop for Saying<'_> {
    fn drop(self) {
        let Saying {
            head: _,
            line: _,
            marked: _,
            notes: _,
        } = self;
    }
}

/// The head that a line is, if `mark` parts its place from its message.
fn head_with<'a>(line: &'a str, mark: &'static str, severity: &'static str) -> Option<Head<'a>> {
    let (position, message) = line.split_once(mark)?;
    let (rest, column) = position.rsplit_once(':')?;
    let (path, number) = rest.rsplit_once(':')?;
    Some(Head {
        path,
        line: number.parse().ok()?,
        column: column.parse().ok()?,
        severity,
        message,
    })
}

/// The head that a line is, if it is one.
fn head_of(line: &str) -> Option<Head<'_>> {
    match head_with(line, ": error: ", "error") {
        Some(head) => Some(head),
        None => head_with(line, ": note: ", "note"),
    }
}

/// How many marks are in a line of marks.
fn marks_in(line: &str) -> u64 {
    let mut count = 0u64;
    for byte in line.as_bytes() {
        if *byte == b'^' {
            count = count.saturating_add(1);
        }
    }
    count
}

/// How many lines the excerpt of a place has: that of the file, and that of the marks.
const EXCERPT: u32 = 2;

/// What is said, sentence by sentence.
struct Sayings<'a> {
    alloc: Global,
    all: Vec<Saying<'a>>,
    /// How many lines of an excerpt come next.
    excerpt: u32,
}

impl Drop for Sayings<'_> {
    fn drop(self) {
        let Sayings {
            alloc: _,
            all: _,
            excerpt: _,
        } = self;
    }
}

impl<'a> Sayings<'a> {
    /// A sentence begins.
    fn begin(&mut self, line: &'a str, head: Option<Head<'a>>) -> Result<(), AllocError> {
        self.all.push(Saying {
            head,
            line,
            marked: 0,
            notes: Vec::new(self.alloc),
        })?;
        Ok(())
    }

    /// Takes the next line.
    fn take(&mut self, line: &'a str) -> Result<(), AllocError> {
        if self.excerpt > 0 {
            self.excerpt = self.excerpt.saturating_sub(1);
            if let Some(last) = self.all.last_mut() {
                last.marked = marks_in(line);
            }
            return Ok(());
        }
        let head = head_of(line);
        if head.is_some() {
            self.excerpt = EXCERPT;
            return self.begin(line, head);
        }
        if line.starts_with("  ") {
            if let Some(last) = self.all.last_mut() {
                last.notes.push(line)?;
                return Ok(());
            }
        }
        self.begin(line, None)
    }
}

/// The sentences of a text.
fn sayings_in<'a>(alloc: Global, text: &'a str) -> Result<Sayings<'a>, AllocError> {
    let mut sayings = Sayings {
        alloc,
        all: Vec::new(alloc),
        excerpt: 0,
    };
    for line in text.lines() {
        sayings.take(line)?;
    }
    Ok(sayings)
}

/// The lines below a sentence, as an array.
fn notes_value(alloc: Global, notes: &[&str]) -> Result<Value, AllocError> {
    let mut values = Vec::new(alloc);
    for note in notes {
        values.push(Value::try_from_str(alloc, note)?)?;
    }
    Ok(Value::from(values))
}

/// What a sentence without a place is: an error if the program says it of itself.
fn severity_of(line: &str) -> &'static str {
    if line.starts_with("lincheck: ") || line.starts_with("error: ") {
        "error"
    } else {
        "note"
    }
}

/// The object of a sentence; `code` is the answer that it explains.
fn object_of(alloc: Global, saying: &Saying<'_>, code: &str) -> Result<Value, AllocError> {
    let notes = notes_value(alloc, &saying.notes)?;
    let Some(head) = saying.head else {
        let (severity, message) = (severity_of(saying.line), saying.line);
        return json!(in alloc; {"severity": severity, "code": code, "message": message, "notes": notes});
    };
    let Head {
        path,
        line,
        column,
        severity,
        message,
    } = head;
    let end = column.saturating_add(saying.marked);
    json!(in alloc; {"path": path, "line": line, "column": column, "end": end, "severity": severity, "code": code, "message": message, "notes": notes})
}

/// The first line of an answer that is a refusal.
fn code_in(status: u8, out: &[u8]) -> &str {
    if status != lincheck::REFUSED {
        return "";
    }
    match str::from_utf8(out) {
        Ok(text) => text.lines().next().unwrap_or(""),
        Err(_) => "",
    }
}

/// The objects of what is said, a line each.
fn objects_text(alloc: Global, said: &str, code: &str) -> Result<String, AllocError> {
    let mut text = String::new(alloc);
    let sayings = sayings_in(alloc, said)?;
    for saying in &sayings.all {
        let object = object_of(alloc, saying, code)?.to_string(alloc)?;
        text.push_str(&object)?;
        text.push_str("\n")?;
    }
    Ok(text)
}

/// Writes what is said, as objects, a line each; as it is, if it is no text or memory runs out. A fault of writing changes nothing.
pub fn write_objects<E: Write>(alloc: Global, status: u8, out: &[u8], said: &[u8], err: &mut E) {
    if let Ok(text) = str::from_utf8(said)
        && let Ok(objects) = objects_text(alloc, text, code_in(status, out))
    {
        let _ = err.write_all(objects.as_bytes());
        return;
    }
    let _ = err.write_all(said);
}
