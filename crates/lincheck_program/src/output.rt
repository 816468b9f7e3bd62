//! What is put into a file: by `-o FILE` after the words of `prove` and `carry`, and by `--certificate FILE` after those of `complete`.
use lincheck::{INPUT_OR_OUTPUT_FAULT, SUCCESS};
use std::io::Write;
use std::{fs, io};

/// What a certificate begins with, before its name.
const CERTIFICATE: &[u8] = b"(certificate ";

/// What each proof in it begins with, and no other list.
const PROOF: &[u8] = b"(proof ";

/// The name of a certificate, as it is printed; nothing of any other text.
fn name_in(text: &[u8]) -> Option<&[u8]> {
    let rest = text.strip_prefix(CERTIFICATE)?;
    let mut length = 0usize;
    for byte in rest {
        if matches!(*byte, b'\n' | b')' | b' ') {
            break;
        }
        length = length.saturating_add(1);
    }
    rest.get(..length)
}

/// How many proofs a certificate has, as it is printed.
fn proof_count(text: &[u8]) -> u64 {
    let mut count = 0u64;
    for place in 0..text.len() {
        if let Some(rest) = text.get(place..)
            && rest.starts_with(PROOF)
        {
            count = count.saturating_add(1);
        }
    }
    count
}

/// Puts a text into a file, which has all of it afterwards, or stays as it was; but what is no file, as a terminal, is written to.
fn put_file(rt: &HostRuntime, path: &str, text: &[u8]) -> io::Result<()> {
    if let Ok(found) = fs::metadata(rt, path)
        && !found.is_file()
    {
        return fs::write(rt, path, text);
    }
    let part = format!(in rt.alloc(); "{path}.part")?;
    if let Err(error) = fs::write(rt, part.as_str(), text) {
        let _ = fs::remove_file(rt, part.as_str());
        return Err(error);
    }
    fs::rename(rt, part.as_str(), path)
}

/// Prints the name of a certificate, and how many proofs it has.
fn print_found(rt: &HostRuntime, name: &[u8], count: u64) -> io::Result<()> {
    let mut out = rt.stdout();
    out.write_all(b"found ")?;
    out.write_all(name)?;
    writeln!(out, " {count}")?;
    out.flush()
}

/// Prints an answer that is no certificate.
fn print_answer(rt: &HostRuntime, text: &[u8]) -> io::Result<()> {
    let mut out = rt.stdout();
    out.write_all(text)?;
    out.flush()
}

/// Puts a certificate into a file, and says so; prints every other answer.
fn hand_out(rt: &HostRuntime, path: &str, status: u8, text: &[u8]) -> io::Result<u8> {
    match name_in(text) {
        Some(name) if status == SUCCESS => {
            put_file(rt, path, text)?;
            print_found(rt, name, proof_count(text))?;
        }
        _ => print_answer(rt, text)?,
    }
    Ok(status)
}

/// Puts the answer of this status into the file at a path, if it is a certificate, and prints every other; returns the status, and says
/// why if that cannot be done.
pub fn put_answer<E: Write>(
    rt: &HostRuntime,
    path: &str,
    status: u8,
    text: &[u8],
    err: &mut E,
) -> u8 {
    match hand_out(rt, path, status, text) {
        Ok(status) => status,
        Err(error) => cannot_write(path, &error, err),
    }
}

/// Puts a certificate into the file at a path. Returns the status, and says why if that cannot be done; the file stays as it was then.
pub fn put_certificate<E: Write>(
    rt: &HostRuntime,
    path: &str,
    certificate: &[u8],
    err: &mut E,
) -> u8 {
    match put_file(rt, path, certificate) {
        Ok(()) => SUCCESS,
        Err(error) => cannot_write(path, &error, err),
    }
}

/// Says that a file cannot be written, and why.
fn cannot_write<E: Write>(path: &str, error: &io::Error, err: &mut E) -> u8 {
    let _ = writeln!(err, "lincheck: cannot write {path}\n  {error}");
    INPUT_OR_OUTPUT_FAULT
}

/// Prints an answer of this status; returns the status, and says if it cannot be printed.
pub fn print_whole<E: Write>(rt: &HostRuntime, status: u8, text: &[u8], err: &mut E) -> u8 {
    match print_answer(rt, text) {
        Ok(()) => status,
        Err(_) => {
            let _ = writeln!(err, "lincheck: cannot write");
            INPUT_OR_OUTPUT_FAULT
        }
    }
}
