//! The texts of the counter, as they stand in `examples/library`: change those, and then run `bench/library`.

/// `examples/library/counter.lc`
pub(crate) const DEVELOPMENT: &[u8] =
    b"; A counter in one cell. `inc` loads the cell and tries to replace what it saw by one more; where another
; client was faster it starts again. `get` is one load.
;
; How to read a development: `spec` says what each operation does in one step. `object` says what the
; code does, instruction by instruction, and where in it that one step happens (a mark). The rest is the
; proof's: actions bound what a step may change, the invariant and the assertions hold between all steps.
(spec counter (abstract (v 0 0))
  (op inc () 1 (branch (and) ((v 0 (+ (rd v 0) 1))) ((rd v 0))))
  (op get () 1 (branch (and) () ((rd v 0)))))
(object counter (array cell (c 0 0)) (aux)
  ; what the successful `cas` of inc does: to the cell, to the abstract number v, and, as it marks the
  ; call, to the client's own columns pend (2: its step has been taken) and rep1 (its reply)
  (action add () (and (= (rd pend self) 1) (= (rd op self) 0))
    (c 0 (+ (rd c 0) 1)) (v 0 (+ (rd v 0) 1))
    (pend self 2) (rep1 self (rd v 0)))
  ; what the load of get does: it changes no cell and marks the call
  (action look () (= (rd pend self) 1)
    (pend self 2) (rep1 self (rd v 0)))
  ; the cell holds the abstract number
  (invariant (tied (= (rd c 0) (rd v 0))))
  ; nothing is to be said of a client that is in no call
  (idle)
  ; Until its mark a call asserts that its step is still to come (pend is 1), and behind it that the step
  ; was taken (pend is 2) with the reply that it is about to return.
  (body inc (x)
    (point p0 (load cell 0 (x) p1) (assert (= (rd pend self) 1)))
    ; where the cell still holds x it becomes x + 1: there the call takes its step (`lin`). Else p0 again.
    (point p1 (cas cell 0 (x) ((+ x 1)) p2 p0)
      (assert (= (rd pend self) 1)) (on then (add) (lin)))
    (point p2 (return x)
      (assert (= (rd pend self) 2) (= (rd rep1 self) x))))
  (body get (y)
    ; a load is one access, so get takes its step here
    (point q0 (load cell 0 (y) q1) (assert (= (rd pend self) 1))
      (on next (look) (lin)))
    (point q1 (return y)
      (assert (= (rd pend self) 2) (= (rd rep1 self) y)))))
";

/// `examples/library/counter.hints`
pub(crate) const HINTS: &[u8] = b"(hints
(by 0 (trich 1 (sum (2 1)) (sum (2 1))))
(by 1 (opposite 3 4))
(by 2 (written pend ?1 1 ?1 (cases 5 (split 6 (opposite 8 4)) (split 6 (trich 7 (sum (9 1)) (sum (9 1)))))))
(by 3 (opposite 3 4))
(by 4 (written pend ?1 1 ?1 (cases 5 (split 6 (opposite 8 4)) (split 6 (trich 7 (sum (9 1)) (sum (9 1)))))))
(by 5 (opposite 5 7))
(by 6 (opposite 6 7))
(by 7 (opposite 6 8))
(by 8 (push 8 (split 9 (cases 10))))
(by 9 (written v 0 (+ (rd v 0) 1) 0 (written c 0 (+ ?2 1) 0 (cases 11 (trich 9 (cases 10 (split 14 (split 12 (sum (16 1) (13 1) (18 -1) (5 -1) (7 1)))) (split 14 (trich 15 (sum (17 1)) (sum (17 1))))) (cases 10 (split 14 (split 12 (sum (5 1) (7 -1) (13 1) (16 -1) (18 1)))) (split 14 (trich 15 (sum (17 1)) (sum (17 1)))))) (split 12 (trich 13 (sum (15 1)) (sum (15 1))))))))
(by 10 (written pend ?1 2 ?1 (cases 10 (split 11 (opposite 13 9)) (split 11 (trich 12 (sum (14 1)) (sum (14 1)))))))
(by 11 (written rep1 ?1 (rd v 0) ?1 (trich 9 (cases 10 (split 12 (sum (5 1) (11 1) (7 -1) (14 -1))) (split 12 (trich 13 (sum (15 1)) (sum (15 1))))) (cases 10 (split 12 (sum (11 1) (14 1) (7 1) (5 -1))) (split 12 (trich 13 (sum (15 1)) (sum (15 1))))))))
(by 12 (cases 9 (opposite 6 10) (opposite 4 10)))
(by 13 (push 9 (fresh 10 (trich 11 (sum (12 1)) (sum (12 1))))))
(by 14 (push 9 (fresh 10 (written c 0 (+ (rd c 0) 1) ?3 (written c 0 (+ ?2 1) ?3 (trich 11 (cases 12 (cases 13 (split 15 (split 16 (sum (7 1) (18 1) (20 -1) (14 1)))) (split 15 (split 16 (opposite 17 19)))) (cases 13 (split 16 (split 15 (opposite 17 19))) (split 16 (split 15 (sum (14 1) (18 -1) (20 1)))))) (cases 12 (cases 13 (split 16 (split 15 (sum (18 1) (20 -1) (7 -1) (14 1)))) (split 15 (split 16 (opposite 17 19)))) (cases 13 (split 16 (split 15 (opposite 17 19))) (split 16 (split 15 (sum (18 1) (14 1) (20 -1))))))))))))
(by 15 (push 9 (fresh 10 (trich 11 (sum (12 1)) (sum (12 1))))))
(by 16 (push 9 (fresh 10 (trich 11 (sum (12 1)) (sum (12 1))))))
(by 17 (opposite 5 8))
(by 18 (opposite 6 8))
(by 19 (push 8 (split 9 (cases 10 (opposite 6 12) (opposite 7 12)))))
(by 20 (opposite 5 8))
(by 21 (opposite 6 7))
(by 22 (push 7 (split 8 (cases 9))))
(by 23 (opposite 5 8))
(by 24 (written pend ?1 2 ?1 (cases 9 (split 10 (opposite 12 8)) (split 10 (trich 11 (sum (13 1)) (sum (13 1)))))))
(by 25 (written rep1 ?1 (rd v 0) ?1 (trich 8 (cases 9 (split 11 (sum (13 -1) (5 1) (10 1))) (split 11 (trich 12 (sum (14 1)) (sum (14 1))))) (cases 9 (split 11 (sum (10 1) (13 1) (5 -1))) (split 11 (trich 12 (sum (14 1)) (sum (14 1))))))))
(by 26 (opposite 6 8))
(by 27 (push 8 (fresh 9 (trich 10 (sum (11 1)) (sum (11 1))))))
(by 28 (push 8 (fresh 9 (trich 10 (sum (11 1)) (sum (11 1))))))
(by 29 (push 8 (split 9 (cases 10 (opposite 6 12) (opposite 7 12)))))
(by 30 (opposite 5 8))
(by 31 (written pend ?3 2 ?1 (cases 13 (trich 4 (split 14 (sum (15 1) (16 1))) (split 14 (sum (16 -1) (15 1)))) (trich 12 (split 14 (sum (15 1) (17 -1) (9 -1))) (split 14 (sum (9 1) (17 1) (15 1)))))))
(by 32 (written pend ?3 2 ?1 (cases 13 (trich 4 (split 14 (sum (15 1) (16 1))) (split 14 (sum (16 -1) (15 1)))) (trich 12 (split 14 (sum (15 1) (17 -1) (9 -1))) (split 14 (sum (17 1) (9 1) (15 1)))))))
(by 33 (written pend ?3 1 ?1 (cases 13 (split 14 (opposite 16 12)) (trich 12 (split 14 (sum (15 1) (9 -1) (17 -1))) (split 14 (sum (15 1) (9 1) (17 1)))))))
(by 34 (written pend ?3 0 ?1 (cases 13 (trich 4 (split 14 (sum (15 1) (16 1))) (split 14 (sum (16 -1) (15 1)))) (trich 12 (split 14 (sum (9 -1) (15 1) (17 -1))) (split 14 (sum (15 1) (17 1) (9 1)))))))
(by 35 (written pend ?3 2 ?1 (cases 13 (trich 4 (split 14 (sum (15 1) (16 1))) (split 14 (sum (15 1) (16 -1)))) (trich 12 (split 14 (sum (17 -1) (9 -1) (15 1))) (split 14 (sum (9 1) (15 1) (17 1)))))))
(by 36 (written pend ?3 2 ?1 (cases 13 (trich 4 (split 14 (sum (15 1) (16 1))) (split 14 (sum (16 -1) (15 1)))) (trich 12 (split 14 (sum (15 1) (17 -1) (9 -1))) (split 14 (sum (15 1) (9 1) (17 1)))))))
(by 37 (written pend ?3 1 ?1 (cases 13 (split 14 (opposite 16 12)) (trich 12 (split 14 (sum (17 -1) (9 -1) (15 1))) (split 14 (sum (17 1) (9 1) (15 1)))))))
(by 38 (written pend ?3 0 ?1 (cases 13 (trich 4 (split 14 (sum (15 1) (16 1))) (split 14 (sum (16 -1) (15 1)))) (trich 12 (split 14 (sum (15 1) (9 -1) (17 -1))) (split 14 (sum (17 1) (9 1) (15 1)))))))
(by 39 (written pend ?3 2 ?1 (cases 14 (split 15 (opposite 17 13)) (trich 13 (split 15 (sum (9 -1) (18 -1) (16 1))) (split 15 (sum (18 1) (9 1) (16 1)))))))
(by 40 (written pend ?3 2 ?1 (cases 14 (split 15 (opposite 17 13)) (trich 13 (split 15 (sum (9 -1) (18 -1) (16 1))) (split 15 (sum (16 1) (18 1) (9 1)))))))
(by 41 (written pend ?3 1 ?1 (cases 14 (trich 4 (split 15 (sum (16 1) (17 1))) (split 15 (sum (16 1) (17 -1)))) (trich 13 (split 15 (sum (9 -1) (16 1) (18 -1))) (split 15 (sum (9 1) (18 1) (16 1)))))))
(by 42 (written pend ?3 0 ?1 (cases 14 (trich 4 (split 15 (sum (17 1) (16 1))) (split 15 (sum (16 1) (17 -1)))) (trich 13 (split 15 (sum (9 -1) (16 1) (18 -1))) (split 15 (sum (9 1) (18 1) (16 1)))))))
(by 43 (written rep1 ?3 (rd v 0) ?1 (cases 14 (trich 4 (split 15 (sum (16 1) (17 1))) (split 15 (sum (16 1) (17 -1)))) (trich 13 (split 15 (sum (16 1) (10 -1) (18 -1))) (split 15 (sum (16 1) (18 1) (10 1)))))))
(by 44 (written rep1 ?3 (rd v 0) ?1 (cases 14 (trich 4 (split 15 (sum (17 1) (16 1))) (split 15 (sum (17 -1) (16 1)))) (trich 13 (split 15 (sum (10 -1) (18 -1) (16 1))) (split 15 (sum (18 1) (10 1) (16 1)))))))
(by 45 (opposite 10 13))
(by 46 (opposite 10 13))
(by 47 (written pend ?3 2 ?1 (cases 13 (trich 4 (split 14 (sum (15 1) (16 1))) (split 14 (sum (15 1) (16 -1)))) (trich 12 (split 14 (sum (9 -1) (15 1) (17 -1))) (split 14 (sum (15 1) (9 1) (17 1)))))))
(by 48 (written pend ?3 2 ?1 (cases 13 (trich 4 (split 14 (sum (15 1) (16 1))) (split 14 (sum (15 1) (16 -1)))) (trich 12 (split 14 (sum (9 -1) (17 -1) (15 1))) (split 14 (sum (9 1) (15 1) (17 1)))))))
(by 49 (written pend ?3 1 ?1 (cases 13 (split 14 (opposite 16 12)) (trich 12 (split 14 (sum (9 -1) (15 1) (17 -1))) (split 14 (sum (17 1) (15 1) (9 1)))))))
(by 50 (written pend ?3 0 ?1 (cases 13 (trich 4 (split 14 (sum (15 1) (16 1))) (split 14 (sum (16 -1) (15 1)))) (trich 12 (split 14 (sum (9 -1) (17 -1) (15 1))) (split 14 (sum (17 1) (9 1) (15 1)))))))
(by 51 (written pend ?3 2 ?1 (cases 14 (split 15 (opposite 17 13)) (trich 13 (split 15 (sum (9 -1) (16 1) (18 -1))) (split 15 (sum (18 1) (16 1) (9 1)))))))
(by 52 (written pend ?3 2 ?1 (cases 14 (split 15 (opposite 17 13)) (trich 13 (split 15 (sum (9 -1) (16 1) (18 -1))) (split 15 (sum (9 1) (16 1) (18 1)))))))
(by 53 (written pend ?3 1 ?1 (cases 14 (trich 4 (split 15 (sum (16 1) (17 1))) (split 15 (sum (16 1) (17 -1)))) (trich 13 (split 15 (sum (16 1) (18 -1) (9 -1))) (split 15 (sum (16 1) (18 1) (9 1)))))))
(by 54 (written pend ?3 0 ?1 (cases 14 (trich 4 (split 15 (sum (17 1) (16 1))) (split 15 (sum (16 1) (17 -1)))) (trich 13 (split 15 (sum (16 1) (9 -1) (18 -1))) (split 15 (sum (9 1) (18 1) (16 1)))))))
(by 55 (written rep1 ?3 (rd v 0) ?1 (cases 14 (trich 4 (split 15 (sum (17 1) (16 1))) (split 15 (sum (16 1) (17 -1)))) (trich 13 (split 15 (sum (18 -1) (10 -1) (16 1))) (split 15 (sum (16 1) (18 1) (10 1)))))))
(by 56 (written rep1 ?3 (rd v 0) ?1 (cases 14 (trich 4 (split 15 (sum (17 1) (16 1))) (split 15 (sum (16 1) (17 -1)))) (trich 13 (split 15 (sum (18 -1) (10 -1) (16 1))) (split 15 (sum (16 1) (10 1) (18 1)))))))
(by 57 (opposite 10 13))
(by 58 (opposite 10 13)))
";
