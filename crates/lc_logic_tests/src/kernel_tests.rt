//! The answers of steps, the axioms that steps take and the refusals of files are cases of the program `lc_cases`.
ghost use Rattle.lc_proof_text.specs.Files.{AreEntered};

use lc_base::OutOfMemory;
use lc_copy::formula_tree;
use lc_kernel::{Multiple, Proof, ProofFault, Reason, Step, laws, prove};
use lc_proof_text::{FormulaFile, formula_of, laws as text_laws};
use lc_term::{Formula, Term};
use std::alloc::Global;
use std::test::Fail;

/// A proof that is nested as deep as the text of a file may be.
fn deep_proof(alloc: Global) -> Result<Proof, OutOfMemory> {
    let mut proof = Proof {
        step: Step::Open,
        branches: Vec::new(alloc),
    };
    for _ in 0..1000 {
        proof = Proof {
            step: Step::Push { hypothesis: 0 },
            branches: Vec::from_array(alloc, [proof])?,
        };
    }
    Ok(proof)
}

#[test]
fn a_proof_as_deep_as_a_file_may_be(rt: HostRuntime) -> Result<(), Fail> {
    assert!(rt; deep_proof(rt.alloc())?.step_count() == 1001);
    Ok(())
}

#[test]
fn faults_say_what_is_wrong(rt: HostRuntime) -> Result<(), Fail> {
    let bad = ProofFault::Bad {
        step: 3,
        reason: Reason::IsOpen,
    };
    let text = format!(in rt.alloc(); "{bad}")?;
    assert!(rt; text.as_str() == "step 3 does not hold: the branch is left open");
    Ok(())
}

#[test]
fn laws_have_no_effect() {
    laws::derivations_are_valid();
    laws::a_step_comes_to_one_outcome();
    laws::branches_have_proofs();
    laws::a_proof_derives_or_fails();
    laws::a_proof_has_one_first_flaw();
    text_laws::a_file_is_read_or_refused();
}

/// Whether a file asks for `(= ?0 ?1)` from two hypotheses.
fn asks_for_equality(alloc: Global, file: &FormulaFile) -> Result<bool, OutOfMemory>
    requires { AreEntered file.now }
{
    let counts = (file.goal.vars == 2) & (file.goal.hypotheses.as_slice().len() == 2);
    let goal = formula_tree(&file.terms, alloc, file.goal.goal)?;
    Ok(counts & matches!(&goal, Formula::Eq(Term::Variable(0), Term::Variable(1))))
}

/// Whether a proof takes two cases of hypothesis 2, the second of which adds hypotheses 0 and 3.
fn takes_cases(proof: &Proof) -> bool {
    let multiples = [
        Multiple {
            hypothesis: 0,
            multiplier: 1,
        },
        Multiple {
            hypothesis: 3,
            multiplier: 1,
        },
    ];
    let adds = match proof.branches.get(1) {
        Some(
            Proof {
                step: Step::Sum { multiples: read },
                ..
            },
        ) => read.as_slice() == multiples.as_slice(),
        _ => false,
    };
    adds & (proof.branches.len() == 2) & matches!(&proof.step, Step::Trichotomy { hypothesis: 2 })
}

#[test]
fn what_a_file_says(rt: HostRuntime) -> Result<(), Fail> {
    let text =
        "(formula (vars x y) (cols) (hyps (<= x y) (<= y x)) (goal (= x y)) (proof (trich 2 (sum (1 1) (3 1)) (sum (0 1) (3 1)))))";
    let mut file = formula_of(rt.alloc(), text.as_bytes())?;
    let is_read = asks_for_equality(rt.alloc(), &file)? & takes_cases(&file.proof);
    assert!(rt; is_read & file.goal.uses_its_variables(rt.alloc(), &file.terms)?);
    let entries = file.terms.len();
    let answer = prove(&mut file.terms, rt.alloc(), &file.goal, &file.proof);
    assert!(rt; (answer == Ok(())) & (file.terms.len() > entries));
    Ok(())
}
