//! Tests of `check` by many workers, over files in memory.
use crate::faults::is_answer_or_want;
use crate::memory::{End, File, Folder, run, words_of};
use lincheck::execute;
use std::alloc::{AllocError, Global};
use std::sync::Wait;
use std::test::Fail;
use std::thread::Threads;

/// An object whose one operation does nothing.
const DEVELOPMENT: &str = "\
(spec rest (abstract) (op stay () 0 (branch (and) () ()))) \
(object rest (aux) (action done () (= (rd pend self) 1) (pend self 2) (pend self 0)) \
(invariant) (idle) (body stay () (point p (return) (assert (= (rd pend self) 1)) (on next (done) (lin)))))";

const CERTIFICATE: &str = "\
(certificate rest\n\
(proof 0 (written pend ?1 1 ?1 (cases 4 (split 5 (opposite 7 3)) (split 5 (trich 6 (sum (8 1)) (sum (8 1)))))))\n\
(proof 1 (opposite 5 6))\n\
(proof 2 (push 6 (split 7 (cases 8))))\n\
(proof 3 (push 7 (split 8 (cases 9 (written pend ?1 2 ?1 (cases 12 (split 13 (opposite 15 11)) (split 13 (trich 14 (sum (16 1)) (sum (16 1))))))))))\n\
(proof 4 (opposite 5 7))\n\
(proof 5 (push 7 (fresh 8 (trich 9 (sum (10 1)) (sum (10 1))))))\n\
(proof 6 (written (store pend ?2 2) ?2 0 ?1 (cases 11 (split 12 (trich 4 (sum (15 1) (13 1)) (sum (15 1) (13 -1)))) (split 12 (written pend ?2 2 ?1 (cases 15 (split 16 (trich 4 (sum (19 1) (17 1)) (sum (19 1) (17 -1)))) (split 16 (trich 10 (sum (19 1) (18 -1) (14 -1) (8 -1)) (sum (19 1) (18 1) (14 1) (8 1))))))))))\n\
(proof 7 (written pend ?2 1 ?1 (cases 11 (split 12 (trich 4 (sum (15 1) (13 1)) (sum (15 1) (13 -1)))) (split 12 (trich 10 (sum (15 1) (14 -1) (8 -1)) (sum (15 1) (14 1) (8 1)))))))\n\
(proof 8 (written pend ?2 0 ?1 (cases 11 (split 12 (trich 4 (sum (15 1) (13 1)) (sum (15 1) (13 -1)))) (split 12 (trich 10 (sum (15 1) (14 -1) (8 -1)) (sum (15 1) (14 1) (8 1))))))))";

const ACCEPTED: &str = "accepted rest 9\n";

fn check_by(workers: &str) -> [&str; 6] {
    ["lincheck", "check", "a", "b", "--workers", workers]
}

fn files<'a>() -> Folder<'a> {
    Folder {
        first: Some(File::new(DEVELOPMENT, End::Ends)),
        second: Some(File::new(CERTIFICATE, End::Ends)),
        opened: 0,
    }
}

fn is_accepted_by<R: Threads + Wait + Sync>(
    rt: &R,
    alloc: Global,
    workers: &str,
) -> Result<bool, AllocError> {
    let ended = run(rt, alloc, check_by(workers).as_slice(), &mut files())?;
    Ok(ended.is(0, ACCEPTED, ""))
}

#[test]
fn numbers_of_workers(rt: HostRuntime) -> Result<(), Fail> {
    for workers in ["1", "2", "7", "64"] {
        assert!(rt; is_accepted_by(&rt, rt.alloc(), workers)?);
    }
    Ok(())
}

/// With any one allocation refused, whoever asks for it, the answer is that memory ran out, or the one with ample memory.
#[test]
fn memory_refused_by_workers(rt: HostRuntime) {
    let Ok(words) = words_of(rt.alloc(), check_by("2").as_slice()) else {
        return;
    };
    let mut out = [0u8; 64];
    let mut err = [0u8; 64];
    let status = execute(
        &rt,
        rt.alloc(),
        words.as_slice(),
        &mut files(),
        &mut out.as_mut_slice(),
        &mut err.as_mut_slice(),
    );
    assert!(rt; is_answer_or_want(status, ACCEPTED, out.as_slice(), err.as_slice()));
}
