//! The words of the command line, and what this program reads in them beside what `execute` does: `-o FILE`, `--certificate FILE` and `--json`, and
//! whether standard error is a terminal.
use std::io::IsTerminal;
use std::{env, io};

/// What the program calls itself, however it was called.
const NAME: &str = "lincheck";

/// A file that something is to be put into.
#[derive(Drop)]
pub enum Put {
    /// The answer of `prove` or `carry`, if it is a certificate.
    Answer(String),
    /// A certificate of what `complete` answers.
    Certificate(String),
}

/// The words of the command line, what is to be put into a file, if anything is, and whether what is said is said by objects of JSON.
pub struct Given {
    pub words: Vec<String>,
    pub put: Option<Put>,
    pub is_json: bool,
}

impl Drop for Given {
    fn drop(self) {
        let Given {
            words: _,
            put: _,
            is_json: _,
        } = self;
    }
}

/// Whether a command reads files, so that one of them may be refused.
fn reads_files(command: &str) -> bool {
    matches!(
        command,
        "formula"
            | "judge"
            | "draw"
            | "order"
            | "complete"
            | "show"
            | "conditions"
            | "check"
            | "prove"
            | "carry"
            | "run"
    )
}

/// Whether the words are those of a command that reads files.
fn is_of_files(words: &[String]) -> bool {
    match words.get(1) {
        Some(command) => reads_files(command.as_str()),
        None => false,
    }
}

/// Whether one of the words is this one.
fn has_word(words: &[String], wanted: &str) -> bool {
    words.iter().any(|word| word.as_str() == wanted)
}

/// Whether refusals are explained though the words do not say so: to an editor, and on a terminal, unless they ask for quiet.
fn is_explained(rt: &HostRuntime, words: &[String], is_json: bool) -> bool {
    if !is_of_files(words) || has_word(words, "--explain") {
        return false;
    }
    is_json || (!has_word(words, "--quiet") && rt.stderr().is_terminal())
}

/// The option of a command before the name of a file that something is put into, if it has one.
fn put_option(words: &[String]) -> Option<&'static str> {
    match words.get(1)?.as_str() {
        "prove" | "carry" => Some("-o"),
        "complete" => Some("--certificate"),
        _ => None,
    }
}

/// What is put into a file after this option.
fn put_of(option: &str, path: String) -> Put {
    if option == "-o" {
        Put::Answer(path)
    } else {
        Put::Certificate(path)
    }
}

/// The words without the option that puts something into a file, and what it puts there. An option that is last stays among the words, which
/// are wrong then.
fn without_put(rt: &HostRuntime, words: Vec<String>, is_json: bool) -> io::Result<Given> {
    let wanted = put_option(words.as_slice()).unwrap_or("");
    let mut given = Given {
        words: Vec::new(rt.alloc()),
        put: None,
        is_json,
    };
    let mut option = None;
    for word in words {
        if option.is_some() {
            option = None;
            given.put = Some(put_of(wanted, word));
        } else if given.put.is_none() && !wanted.is_empty() && word.as_str() == wanted {
            option = Some(word);
        } else {
            given.words.push(word)?;
        }
    }
    if let Some(word) = option {
        given.words.push(word)?;
    }
    Ok(given)
}

/// The words of the command line, in which the program has its own name, and `--explain` is written for the user. They are a `Vec`,
/// since they are looked through more than once.
pub fn words_of(rt: &HostRuntime) -> io::Result<Given> {
    let said: Vec<String> = env::args(rt)?.collect(rt.alloc())?;
    let is_json = is_of_files(said.as_slice()) && has_word(said.as_slice(), "--json");
    let is_explained = is_explained(rt, said.as_slice(), is_json);
    let mut words = Vec::new(rt.alloc());
    words.push(String::from_str(rt.alloc(), NAME)?)?;
    for (place, word) in said.into_iter().enumerate().skip(1) {
        if is_json && word.as_str() == "--json" {
            continue;
        }
        words.push(word)?;
        if place == 1 && is_explained {
            words.push(String::from_str(rt.alloc(), "--explain")?)?;
        }
    }
    without_put(rt, words, is_json)
}
