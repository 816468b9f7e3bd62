//! The texts of the rendezvous, as they stand in `examples/library`: change those, and then run `bench/library`.

/// `examples/library/rendezvous.lc`
pub(crate) const DEVELOPMENT: &[u8] =
    b"; Two clients wait for each other: `meet i` raises flag i and waits until flag 1 - i is raised.
;
; The call takes its step already where it raises its own flag: the reply is always 1, so nothing that
; comes later can change it. A call that waits for ever has thus taken its step, too. That a call returns
; is not promised, and need not be proved.
(spec rendezvous (abstract)
  (op meet (i) 1 (branch (and) () (1))))
(object rendezvous (array flag (raised 0 0)) (aux)
  ; the flag is raised, and the call is marked with reply 1
  (action arrive (i) (= (rd pend self) 1)
    (raised i 1) (pend self 2) (rep1 self 1))
  ; nothing need be said of the flags: no reply depends on them
  (invariant)
  (idle)
  (body meet (f)
    (point m0 (store flag i (1) m1) (assert (= (rd pend self) 1))
      (on next (arrive i) (lin)))
    ; wait for the other flag
    (point m1 (load flag (- 1 i) (f) m2)
      (assert (= (rd pend self) 2) (= (rd rep1 self) 1)))
    (point m2 (if (= f 1) m3 m1)
      (assert (= (rd pend self) 2) (= (rd rep1 self) 1)))
    (point m3 (return 1)
      (assert (= (rd pend self) 2) (= (rd rep1 self) 1)))))
";

/// `examples/library/rendezvous.hints`
pub(crate) const HINTS: &[u8] = b"(hints
(by 0 (written pend ?1 1 ?1 (cases 4 (split 5 (opposite 7 3)) (split 5 (trich 6 (sum (8 1)) (sum (8 1)))))))
(by 1 (opposite 6 7))
(by 2 (push 7 (split 8 (cases 9))))
(by 3 (written pend ?1 2 ?1 (cases 9 (split 10 (opposite 12 8)) (split 10 (trich 11 (sum (13 1)) (sum (13 1)))))))
(by 4 (written rep1 ?1 1 ?1 (cases 9 (split 10 (opposite 12 8)) (split 10 (trich 11 (sum (13 1)) (sum (13 1)))))))
(by 5 (opposite 6 8))
(by 6 (push 8 (fresh 9 (trich 10 (sum (11 1)) (sum (11 1))))))
(by 7 (push 8 (fresh 9 (trich 10 (sum (11 1)) (sum (11 1))))))
(by 8 (push 8 (fresh 9 (trich 10 (sum (11 1)) (sum (11 1))))))
(by 9 (opposite 6 8))
(by 10 (opposite 7 8))
(by 11 (opposite 6 9))
(by 12 (opposite 7 9))
(by 13 (opposite 6 9))
(by 14 (opposite 7 9))
(by 15 (push 8 (split 9 (cases 10 (opposite 6 12) (opposite 7 12)))))
(by 16 (written pend ?4 2 ?1 (cases 12 (trich 4 (split 13 (sum (14 1) (15 1))) (split 13 (sum (15 -1) (14 1)))) (trich 11 (split 13 (sum (16 -1) (14 1) (9 -1))) (split 13 (sum (9 1) (16 1) (14 1)))))))
(by 17 (written pend ?4 1 ?1 (cases 12 (split 13 (opposite 15 11)) (trich 11 (split 13 (sum (9 -1) (16 -1) (14 1))) (split 13 (sum (9 1) (14 1) (16 1)))))))
(by 18 (written pend ?4 0 ?1 (cases 12 (trich 4 (split 13 (sum (14 1) (15 1))) (split 13 (sum (14 1) (15 -1)))) (trich 11 (split 13 (sum (14 1) (9 -1) (16 -1))) (split 13 (sum (16 1) (9 1) (14 1)))))))
(by 19 (written pend ?4 2 ?1 (cases 13 (split 14 (opposite 16 12)) (trich 12 (split 14 (sum (17 -1) (15 1) (9 -1))) (split 14 (sum (17 1) (9 1) (15 1)))))))
(by 20 (written pend ?4 1 ?1 (cases 13 (trich 4 (split 14 (sum (15 1) (16 1))) (split 14 (sum (16 -1) (15 1)))) (trich 12 (split 14 (sum (17 -1) (15 1) (9 -1))) (split 14 (sum (17 1) (15 1) (9 1)))))))
(by 21 (written pend ?4 0 ?1 (cases 13 (trich 4 (split 14 (sum (15 1) (16 1))) (split 14 (sum (16 -1) (15 1)))) (trich 12 (split 14 (sum (15 1) (17 -1) (9 -1))) (split 14 (sum (17 1) (15 1) (9 1)))))))
(by 22 (written rep1 ?4 1 ?1 (cases 13 (split 14 (opposite 16 12)) (trich 12 (split 14 (sum (15 1) (10 -1) (17 -1))) (split 14 (sum (10 1) (15 1) (17 1)))))))
(by 23 (opposite 10 12))
(by 24 (opposite 10 12))
(by 25 (written pend ?4 2 ?1 (cases 13 (split 14 (opposite 16 12)) (trich 12 (split 14 (sum (15 1) (17 -1) (9 -1))) (split 14 (sum (17 1) (15 1) (9 1)))))))
(by 26 (written pend ?4 1 ?1 (cases 13 (trich 4 (split 14 (sum (16 1) (15 1))) (split 14 (sum (16 -1) (15 1)))) (trich 12 (split 14 (sum (9 -1) (17 -1) (15 1))) (split 14 (sum (17 1) (9 1) (15 1)))))))
(by 27 (written pend ?4 0 ?1 (cases 13 (trich 4 (split 14 (sum (15 1) (16 1))) (split 14 (sum (16 -1) (15 1)))) (trich 12 (split 14 (sum (17 -1) (9 -1) (15 1))) (split 14 (sum (15 1) (17 1) (9 1)))))))
(by 28 (written rep1 ?4 1 ?1 (cases 13 (split 14 (opposite 16 12)) (trich 12 (split 14 (sum (15 1) (10 -1) (17 -1))) (split 14 (sum (10 1) (15 1) (17 1)))))))
(by 29 (opposite 10 12))
(by 30 (opposite 10 12))
(by 31 (written pend ?4 2 ?1 (cases 13 (split 14 (opposite 16 12)) (trich 12 (split 14 (sum (9 -1) (17 -1) (15 1))) (split 14 (sum (17 1) (15 1) (9 1)))))))
(by 32 (written pend ?4 1 ?1 (cases 13 (trich 4 (split 14 (sum (15 1) (16 1))) (split 14 (sum (15 1) (16 -1)))) (trich 12 (split 14 (sum (17 -1) (9 -1) (15 1))) (split 14 (sum (9 1) (15 1) (17 1)))))))
(by 33 (written pend ?4 0 ?1 (cases 13 (trich 4 (split 14 (sum (16 1) (15 1))) (split 14 (sum (15 1) (16 -1)))) (trich 12 (split 14 (sum (9 -1) (15 1) (17 -1))) (split 14 (sum (17 1) (15 1) (9 1)))))))
(by 34 (written rep1 ?4 1 ?1 (cases 13 (split 14 (opposite 16 12)) (trich 12 (split 14 (sum (15 1) (10 -1) (17 -1))) (split 14 (sum (10 1) (15 1) (17 1)))))))
(by 35 (opposite 10 12))
(by 36 (opposite 10 12)))
";
