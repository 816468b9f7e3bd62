//! The objects of the library, step by step: a call returns, and what one client is answered is what it did before.
use lc_base::OpId;
use lc_lib_texts::{Lib, development};
use lc_machine::{Bare, Moved};
use lc_object_text::object_of;
use lc_sexp::read;
use std::alloc::Global;
use std::test::Fail;

/// More steps than a call takes if no other one comes between.
const STEPS: u32 = 64;

/// Whether the call of a client returns these numbers, if only this client goes on.
fn returns(bare: &mut Bare<'_>, client: u32, numbers: &[i64]) -> bool {
    for _ in 0..STEPS {
        match bare.advance(client) {
            Ok(Moved::Went { .. }) => {}
            Ok(Moved::Returned(reply)) => return reply.as_slice() == numbers,
            Err(_) => return false,
        }
    }
    false
}

/// Whether a call of the first client, with these numbers, returns those.
fn answers(bare: &mut Bare<'_>, operation: u32, given: &[i64], numbers: &[i64]) -> bool {
    bare.invoke(0, OpId(operation), given) == Ok(()) && returns(bare, 0, numbers)
}

fn counts(bare: &mut Bare<'_>) -> bool {
    answers(bare, 0, &[], &[0]) & answers(bare, 0, &[], &[1])
}

/// What was put in is taken out, once.
fn gives_back(bare: &mut Bare<'_>) -> bool {
    answers(bare, 0, &[5], &[]) & answers(bare, 1, &[], &[1, 5]) & answers(bare, 1, &[], &[0, 0])
}

fn locks(bare: &mut Bare<'_>) -> bool {
    answers(bare, 0, &[], &[]) & answers(bare, 1, &[], &[1]) & answers(bare, 1, &[], &[0])
}

fn scans(bare: &mut Bare<'_>) -> bool {
    answers(bare, 0, &[3], &[]) & answers(bare, 2, &[], &[3, 0])
}

/// A client that has raised its flag lets the other one go on.
fn meet(bare: &mut Bare<'_>) -> bool {
    let first = bare.invoke(0, OpId(0), &[0]) == Ok(());
    let second = bare.invoke(1, OpId(0), &[1]) == Ok(());
    let raised = bare.advance(1).is_ok();
    first & second & raised & returns(bare, 0, &[1]) & returns(bare, 1, &[1])
}

/// Eight numbers are pushed, and a ninth is refused.
fn fills(bare: &mut Bare<'_>) -> bool {
    for number in 1..9 {
        if !answers(bare, 0, &[number], &[1]) {
            return false;
        }
    }
    answers(bare, 0, &[9], &[0]) & answers(bare, 1, &[], &[1, 8]) & answers(bare, 0, &[9], &[1])
}

/// Whether an object of the library works.
fn works(alloc: Global, lib: Lib) -> Result<bool, Fail> {
    let forms = read(alloc, development(lib))?;
    let object = object_of(alloc, &forms)?;
    let mut bare = Bare::new(alloc, &object, 2)?;
    Ok(match lib {
        Lib::Counter | Lib::Combining => counts(&mut bare),
        Lib::Stack | Lib::Queue => gives_back(&mut bare),
        Lib::Lock => locks(&mut bare),
        Lib::Snapshot => scans(&mut bare),
        Lib::Rendezvous => meet(&mut bare),
        Lib::PoolStack => fills(&mut bare),
    })
}

#[test]
fn objects_of_the_library_work(rt: HostRuntime) -> Result<(), Fail> {
    for lib in [
        Lib::Counter,
        Lib::Stack,
        Lib::Lock,
        Lib::Snapshot,
        Lib::Combining,
        Lib::Rendezvous,
        Lib::Queue,
        Lib::PoolStack,
    ] {
        assert!(rt; works(rt.alloc(), lib)?);
    }
    Ok(())
}
