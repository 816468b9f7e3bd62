//! Tests of s-expressions that are laid out over lines.
use lc_base::{Fault, OutOfMemory};
use lc_layout::lay_out;
use lc_sexp::Forms;
use std::alloc::Global;
use std::test::Fail;

/// What a text reads as, laid out.
fn laid(alloc: Global, text: &[u8]) -> Result<Vec<u8>, Fault> {
    let forms = Forms::read(alloc, text)?;
    Ok(lay_out(alloc, forms.cursor())?)
}

fn is_laid(alloc: Global, text: &[u8], over_lines: &[u8]) -> Result<bool, Fault> {
    let again = laid(alloc, over_lines)?.as_slice() == over_lines;
    Ok((laid(alloc, text)?.as_slice() == over_lines) & again)
}

#[test]
fn short_forms(rt: HostRuntime) -> Result<(), Fail> {
    assert!(rt; is_laid(rt.alloc(), b"", b"")?);
    assert!(rt; is_laid(rt.alloc(), b"a() ; none\n(b\n c(d))", b"a\n()\n(b c (d))\n")?);
    Ok(())
}

#[test]
fn a_specification(rt: HostRuntime) -> Result<(), Fail> {
    let text =
        b"(spec counter (abstract (v 0 0)) (op inc () 1 (branch (and) ((v 0 (+ (rd v 0) 1))) ((rd v 0)))) (op get () 1 (branch (and) () ((rd v 0)))))";
    let over_lines = b"(spec counter
  (abstract (v 0 0))
  (op inc () 1 (branch (and) ((v 0 (+ (rd v 0) 1))) ((rd v 0))))
  (op get () 1 (branch (and) () ((rd v 0)))))
";
    assert!(rt; is_laid(rt.alloc(), text, over_lines)?);
    Ok(())
}

#[test]
fn parameters_and_lists_of_lists(rt: HostRuntime) -> Result<(), Fail> {
    let action =
        b"(action push (n) (and (= (rd owner n) (+ self 1)) (= (rd next n) (rd head 0))) (size 0 (+ (rd size 0) 1)) (pend self 2))";
    let over_lines = b"(action push (n)
  (and (= (rd owner n) (+ self 1)) (= (rd next n) (rd head 0)))
  (size 0 (+ (rd size 0) 1))
  (pend self 2))
";
    assert!(rt; is_laid(rt.alloc(), action, over_lines)?);
    let updates =
        b"((item (+ (rd size 0) 1) (rd val n)) (size 0 (+ (rd size 0) 1)) (none (+ (rd size 0) 1) 0) (spare 0 0))";
    let below = b"((item (+ (rd size 0) 1) (rd val n))
 (size 0 (+ (rd size 0) 1))
 (none (+ (rd size 0) 1) 0)
 (spare 0 0))
";
    assert!(rt; is_laid(rt.alloc(), updates, below)?);
    Ok(())
}

/// Whether no line has more columns than these.
fn are_lines_within(text: &[u8], columns: usize) -> bool {
    let mut left = columns;
    for byte in text {
        if *byte == b'\n' {
            left = columns;
            continue;
        }
        if left == 0 {
            return false;
        }
        left -= 1;
    }
    true
}

/// `depth` lists, each in the one before, which begin so.
fn nested(alloc: Global, begins: &[u8], depth: usize) -> Result<Vec<u8>, OutOfMemory> {
    let mut text = Vec::new(alloc);
    for _ in 0..depth {
        text.extend_from_slice(begins)?;
    }
    for _ in 0..depth {
        text.push(b')')?;
    }
    Ok(text)
}

fn is_laid_within(alloc: Global, begins: &[u8], depth: usize) -> Result<bool, Fault> {
    let once = laid(alloc, &nested(alloc, begins, depth)?)?;
    let again = laid(alloc, &once)?.as_slice() == once.as_slice();
    Ok(again & are_lines_within(&once, 100))
}

#[test]
fn deep_nesting(rt: HostRuntime) -> Result<(), Fail> {
    let brackets = is_laid_within(rt.alloc(), b"(", 1000)?;
    let words = is_laid_within(rt.alloc(), b"(split 4 ", 1000)?;
    let mixed = is_laid_within(rt.alloc(), b"((a b) (c) d ", 999)?;
    assert!(rt; brackets & words & mixed);
    Ok(())
}
