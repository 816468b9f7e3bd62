//! Tests that native objects follow their specifications in text.
use crate::behind::{Made, shadow_behind};
use lc_lib_texts::{Lib, development};
use lc_native::{NatCounter, NatLock, NatPoolStack, NatQueue, NatSnapshot, NatStack};
use lc_seq::{Pick, SeqFault, SeqObject, Shadows, TextSpec};
use lc_spec_text::spec_of;
use std::alloc::Global;
use std::test::Fail;

const COUNTER: &str = "(spec c (abstract (n 0 0))
  (op up () 1 (branch (and) ((n 0 (+ (rd n 0) 1))) ((rd n 0))))
  (op tell () 1 (branch (and) () ((rd n 0)))))";

const STACK: &str = "(spec s (abstract (count 0 0) (cell 0 0))
  (op put (n) 0
    (branch (and) ((cell (+ (rd count 0) 1) n) (count 0 (+ (rd count 0) 1))) ()))
  (op take () 2
    (branch (<= 1 (rd count 0)) ((count 0 (- (rd count 0) 1))) (1 (rd cell (rd count 0))))
    (branch (and) () (0 0))))";

const REGISTER: &str = "(spec reg (abstract (r 0 0))
  (op get () 1 (branch (and) () ((rd r 0)))))";

/// Whether a native object follows the specification of this text.
fn fits<S: Shadows<TextSpec>>(alloc: Global, native: &S, text: &[u8]) -> Result<bool, Fail> {
    let spec = spec_of(alloc, text)?;
    Ok(native.fits(alloc, &spec)?)
}

/// Whether a native object follows the specification of an object of the library.
fn fits_lib<S: Shadows<TextSpec>>(alloc: Global, native: &S, lib: Lib) -> Result<bool, Fail> {
    fits(alloc, native, development(lib))
}

#[test]
fn objects_with_numbers_follow_the_library(rt: HostRuntime) -> Result<(), Fail> {
    let alloc = rt.alloc();
    let counter = fits_lib(alloc, &NatCounter, Lib::Counter)?;
    let combining = fits_lib(alloc, &NatCounter, Lib::Combining)?;
    let lock = fits_lib(alloc, &NatLock, Lib::Lock)?;
    let snapshot = fits_lib(alloc, &NatSnapshot, Lib::Snapshot)?;
    assert!(rt; counter & combining & lock & snapshot);
    Ok(())
}

#[test]
fn objects_with_lists_follow_the_library(rt: HostRuntime) -> Result<(), Fail> {
    let alloc = rt.alloc();
    let stack = fits_lib(alloc, &NatStack, Lib::Stack)?;
    let pool = fits_lib(alloc, &NatPoolStack, Lib::PoolStack)?;
    assert!(rt; stack & pool & fits_lib(alloc, &NatQueue, Lib::Queue)?);
    Ok(())
}

#[test]
fn a_specification_is_followed_whatever_it_names(rt: HostRuntime) -> Result<(), Fail> {
    let alloc = rt.alloc();
    let counter = fits(alloc, &NatCounter, COUNTER.as_bytes())?;
    assert!(rt; counter & fits(alloc, &NatStack, STACK.as_bytes())?);
    Ok(())
}

#[test]
fn another_specification_is_not_followed(rt: HostRuntime) -> Result<(), Fail> {
    let alloc = rt.alloc();
    let register = REGISTER.as_bytes();
    let stack = fits(alloc, &NatStack, register)? | fits_lib(alloc, &NatStack, Lib::PoolStack)?;
    assert!(rt; !stack & !fits(alloc, &NatCounter, register)?);
    Ok(())
}

#[test]
fn a_stack_of_five(rt: HostRuntime) -> Result<(), Fail> {
    let alloc = rt.alloc();
    let spec = spec_of(alloc, development(Lib::Stack))?;
    assert!(rt; NatStack.fits(alloc, &spec)?);
    let call = spec.call_of(alloc, 0, &[5])?.ok_or("a call")?;
    let push = Made {
        client: 0,
        call,
        choice: Pick::First,
    };
    let calls = Vec::from_array(alloc, [push])?;
    let own = shadow_behind(alloc, &NatStack, &spec, &calls)?.ok_or("an answer")?;
    assert_eq!(rt; own.as_slice(), [5].as_slice());
    Ok(())
}

/// The numbers of the native stack that stands for a stack in text after a push of 5; none if not even that is read.
fn numbers_behind(alloc: Global) -> Result<Option<Vec<i64>>, SeqFault> {
    let Ok(spec) = spec_of(alloc, STACK.as_bytes()) else {
        return Ok(None);
    };
    let Some(call) = spec.call_of(alloc, 0, &[5])? else {
        return Ok(None);
    };
    if !NatStack.fits(alloc, &spec)? {
        return Ok(None);
    }
    let push = Made {
        client: 0,
        call,
        choice: Pick::First,
    };
    let calls = Vec::from_array(alloc, [push])?;
    shadow_behind(alloc, &NatStack, &spec, &calls)
}

/// With any one allocation refused: `OutOfMemory`, or the state with ample memory.
#[test]
fn memory_refused(rt: HostRuntime) {
    let is_right = match numbers_behind(rt.alloc()) {
        Ok(Some(numbers)) => numbers.as_slice() == [5].as_slice(),
        Ok(None) => true,
        Err(fault) => fault == SeqFault::OutOfMemory,
    };
    assert!(rt; is_right);
}
