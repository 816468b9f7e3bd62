//! The command `new`: a short development to begin with.
ghost use Rattle.std.specs.Prelude.{◌≡◌, IfOk};
ghost use Rattle.lincheck.specs.New.{AnswersNew, template_of};

use crate::answer::{Answer, SUCCESS, told_fault};
use lc_base::OutOfMemory;
use lc_short::short_of;
use std::alloc::{AllocError, Global};

/// The text up to the name of the specification.
const HEAD: &[u8] = b"\
; A short development: what an object does for one client at a time, its code, and what is claimed
; of the code. This one is a cell that clients put a number into and get it from. Change each part
; into yours. Then, of this file S,
;     lincheck complete S > F   makes it whole: actions and assertions are inferred
;     lincheck show F           says whether it is a development, or where it is wrong
;     lincheck prove F > C      looks for the proofs, a certificate C
;     lincheck check F C        accepts it: the object is linearizable
(spec ";

/// The text between the names of the specification and of the object.
const MIDDLE: &[u8] = b"
  ; What the object has: columns of numbers. (NAME a b) has a * i + b in its cell i at first.
  (abstract (value 0 0))
  ; Its operations: the arguments, how many numbers a call replies, and branches. A branch has a
  ; guard, updates (COLUMN CELL TERM) and replies. A call does the first whose guard holds.
  (op put (x) 0 (branch (and) ((value 0 x)) ()))
  (op get () 1 (branch (and) () ((rd value 0)))))
(object ";

/// The text after the name of the object.
const TAIL: &[u8] = b"
  ; What the code has: arrays. A row of one is read or written in one step.
  (array cell (content 0 0))
  ; What holds between any two steps: the cell has what the specification has.
  (invariant (tied (= (rd content 0) (rd value 0))))
  ; The code of each operation, with its locals. A point has an instruction; at the edge that is
  ; marked (lin) the call has its effect. Where `complete` says that more is needed, say what holds
  ; at the point: (point q1 (return y) (assert (<= 0 y))).
  (body put ()
    (point p0 (store cell 0 (x) p1) (on next (lin)))
    (point p1 (return)))
  (body get (y)
    (point q0 (load cell 0 (y) q1) (on next (lin)))
    (point q1 (return y))))
";

/// The text of the short development of this name.
fn template(alloc: Global, name: &str) -> Result<Vec<u8>, AllocError>
    ensures { IfOk result (λ text. text.items ≡ template_of name.now) }
{
    let name = name.as_bytes();
    let mut text = Vec::new(alloc);
    text.extend_from_slice(HEAD)?;
    text.extend_from_slice(name)?;
    text.extend_from_slice(MIDDLE)?;
    text.extend_from_slice(name)?;
    text.extend_from_slice(TAIL)?;
    Ok(text)
}

/// The answer of the command `new`: a short development of this name, with a comment at each part. It is read before it is printed, so
/// a name that no development may have is refused.
pub fn answer_new(alloc: Global, name: &str) -> Result<Answer, OutOfMemory>
    ensures { IfOk result (λ answer. AnswersNew name.now answer.text.items answer.status) }
{
    let text = template(alloc, name)?;
    match short_of(alloc, &text) {
        Ok(_) => Ok(Answer {
            text,
            status: SUCCESS,
            why: None,
        }),
        Err(fault) => told_fault(alloc, fault),
    }
}
