//! Tests of the program on files at their limits, and when memory or a stream fails.
use crate::memory::{End, Ended, Everywhere, File, Folder, Full, run, words_of};
use lincheck::execute;
use std::alloc::{AllocError, Global};
use std::sync::Wait;
use std::test::Fail;
use std::thread::Threads;

const FIRST: &str =
    "(formula (vars x y) (cols) (hyps (<= x y) (<= y x)) (goal (= x y)) (proof (trich 2 (sum (1 1) (3 1)) (sum (0 1) (3 1)))))";

const COUNTER: &str =
    "(spec counter (abstract (v 0 0)) (op inc () 1 (branch (and) ((v 0 (+ (rd v 0) 1))) ((rd v 0)))))";

const FORMULA: [&str; 3] = ["lincheck", "formula", "a"];

const PROVE: [&str; 3] = ["lincheck", "prove", "a"];

const JUDGE: [&str; 4] = ["lincheck", "judge", "a", "b"];

const EXPLAINED: [&str; 5] = ["lincheck", "judge", "a", "b", "--explain"];

/// What `formula` answers to `count` spaces.
fn check_spaces<R: Threads + Wait + Sync>(
    rt: &R,
    alloc: Global,
    count: usize,
) -> Result<Ended, AllocError> {
    let spaces = vec![in alloc; b' '; count]?;
    let mut files = Everywhere {
        bytes: spaces.as_slice(),
    };
    run(rt, alloc, FORMULA.as_slice(), &mut files)
}

/// A file of 16,777,216 bytes is read, and one byte more is one too many.
fn limit_is_kept<R: Threads + Wait + Sync>(rt: &R, alloc: Global) -> Result<bool, AllocError> {
    let longest = check_spaces(rt, alloc, 16_777_216)?;
    let too_long = check_spaces(rt, alloc, 16_777_217)?;
    Ok(longest.is(1, "refused 2 0\n", "") & too_long.is(1, "refused 1 16777216\n", ""))
}

#[test]
fn files_at_the_limit(rt: HostRuntime) -> Result<(), Fail> {
    assert!(rt; limit_is_kept(&rt, rt.alloc())?);
    Ok(())
}

/// What `formula` answers to a file.
fn check_file<R: Threads + Wait + Sync>(
    rt: &R,
    alloc: Global,
    file: File<'_>,
) -> Result<Ended, AllocError> {
    run(rt, alloc, FORMULA.as_slice(), &mut Folder::of(Some(file)))
}

/// A read may fail in the middle of a text, or after a text that has its answer already: the reason comes after the line. Or it is
/// interrupted for ever, for no reason.
fn failed_reads_are_told<R: Threads + Wait + Sync>(
    rt: &R,
    alloc: Global,
) -> Result<bool, AllocError> {
    let failed = "lincheck: cannot read a\n  other error\n";
    let in_the_middle = check_file(rt, alloc, File::new("(formula (", End::Fails))?;
    let at_the_end = check_file(rt, alloc, File::new(FIRST, End::Fails))?;
    let for_ever = check_file(rt, alloc, File::new(FIRST, End::IsInterrupted))?;
    Ok(
        in_the_middle.is(3, "", failed)
            & at_the_end.is(3, "", failed)
            & for_ever.is(3, "", "lincheck: cannot read a\n"),
    )
}

#[test]
fn reads_that_fail(rt: HostRuntime) -> Result<(), Fail> {
    assert!(rt; failed_reads_are_told(&rt, rt.alloc())?);
    Ok(())
}

/// A read that is interrupted is tried again.
#[test]
fn reads_that_are_interrupted(rt: HostRuntime) -> Result<(), Fail> {
    let mut file = File::new(FIRST, End::Ends);
    file.interruptions = 1000;
    let ended = check_file(&rt, rt.alloc(), file)?;
    assert!(rt; ended.is(0, "proved\n", ""));
    Ok(())
}

/// After a development that is refused, the history is not opened.
fn history_stays_closed<R: Threads + Wait + Sync>(
    rt: &R,
    alloc: Global,
) -> Result<bool, AllocError> {
    let mut files = Folder::of(Some(File::new("(object)", End::Ends)));
    let ended = run(rt, alloc, JUDGE.as_slice(), &mut files)?;
    Ok(ended.is(1, "refused 2 0\n", "") & (files.opened == 1))
}

fn missing_history_is_told<R: Threads + Wait + Sync>(
    rt: &R,
    alloc: Global,
) -> Result<bool, AllocError> {
    let mut files = Folder::of(Some(File::new(COUNTER, End::Ends)));
    let ended = run(rt, alloc, JUDGE.as_slice(), &mut files)?;
    Ok(ended.is(3, "", "lincheck: cannot read b\n  entity not found\n") & (files.opened == 2))
}

/// What is said of a refusal is said of what was read: no file is opened once more.
fn refusals_are_explained_as_read<R: Threads + Wait + Sync>(
    rt: &R,
    alloc: Global,
) -> Result<bool, AllocError> {
    let mut files = Folder::of(Some(File::new("(object)", End::Ends)));
    let ended = run(rt, alloc, EXPLAINED.as_slice(), &mut files)?;
    let first = b"a:1:1: error: ".as_slice();
    Ok((ended.status == 1) & ended.err.as_slice().starts_with(first) & (files.opened == 1))
}

#[test]
fn files_that_are_opened(rt: HostRuntime) -> Result<(), Fail> {
    assert!(rt; history_stays_closed(&rt, rt.alloc())? & missing_history_is_told(&rt, rt.alloc())?);
    assert!(rt; refusals_are_explained_as_read(&rt, rt.alloc())?);
    Ok(())
}

/// If standard output takes nothing, the status is 3 for an answer, and for help too.
fn full_output_is_told<R: Threads + Wait + Sync>(
    rt: &R,
    alloc: Global,
    words: &[&str],
    bytes: &[u8],
) -> Result<bool, AllocError> {
    let words = words_of(alloc, words)?;
    let mut files = Everywhere { bytes };
    let mut err = Vec::new(alloc);
    let status = execute(rt, alloc, words.as_slice(), &mut files, &mut Full, &mut err);
    Ok((status == 3) & (err.as_slice() == b"lincheck: cannot write\n".as_slice()))
}

/// A certificate that is found for an object of the library is not taken either.
fn full_output_ends_prove<R: Threads + Wait + Sync>(
    rt: &R,
    alloc: Global,
) -> Result<bool, AllocError> {
    let words = ["lincheck", "library", "counter"];
    let counter = run(rt, alloc, words.as_slice(), &mut Folder::of(None))?;
    full_output_is_told(rt, alloc, PROVE.as_slice(), counter.out.as_slice())
}

/// A fault of standard error changes no status.
fn full_error_output_is_let_be<R: Threads + Wait + Sync>(
    rt: &R,
    alloc: Global,
    words: &[&str],
    wanted: u8,
) -> Result<bool, AllocError> {
    let words = words_of(alloc, words)?;
    let mut files = Folder::of(None);
    let mut out = Vec::new(alloc);
    let status = execute(rt, alloc, words.as_slice(), &mut files, &mut out, &mut Full);
    Ok((status == wanted) & out.is_empty())
}

#[test]
fn streams_that_are_full(rt: HostRuntime) -> Result<(), Fail> {
    let answer = full_output_is_told(&rt, rt.alloc(), FORMULA.as_slice(), FIRST.as_bytes())?;
    let help = full_output_is_told(&rt, rt.alloc(), ["lincheck", "--help"].as_slice(), b"")?;
    let proof = full_output_ends_prove(&rt, rt.alloc())?;
    let missing = full_error_output_is_let_be(&rt, rt.alloc(), FORMULA.as_slice(), 3)?;
    let no_command = full_error_output_is_let_be(&rt, rt.alloc(), ["lincheck"].as_slice(), 2)?;
    assert!(rt; answer & help & proof & missing & no_command);
    Ok(())
}

/// Whether this is the answer with ample memory, or that memory ran out.
pub fn is_answer_or_want(status: u8, answer: &str, out: &[u8], err: &[u8]) -> bool {
    if status == 4 {
        out.starts_with(b"\0".as_slice()) & err.starts_with(b"lincheck: out of memory\n".as_slice())
    } else {
        (status == 0) & out.starts_with(answer.as_bytes()) & err.starts_with(b"\0".as_slice())
    }
}

/// With any one allocation refused, the answer is that memory ran out, or the one with ample memory.
#[test]
fn memory_refused(rt: HostRuntime) {
    let Ok(words) = words_of(rt.alloc(), FORMULA.as_slice()) else {
        return;
    };
    let mut out = [0u8; 64];
    let mut err = [0u8; 64];
    let mut files = Everywhere {
        bytes: FIRST.as_bytes(),
    };
    let status = execute(
        &rt,
        rt.alloc(),
        words.as_slice(),
        &mut files,
        &mut out.as_mut_slice(),
        &mut err.as_mut_slice(),
    );
    assert!(rt; is_answer_or_want(status, "proved\n", out.as_slice(), err.as_slice()));
}
