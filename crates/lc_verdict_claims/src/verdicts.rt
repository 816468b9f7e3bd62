//! Verdicts on whole files and in pieces, and the proofs of one condition after another.
ghost use Rattle.std.specs.Prelude.{◌≡◌, ◌≤◌, ◌++◌, ℕ, List, Ok, true, IfOk, OnOk, is_err};
ghost use Rattle.lc_base.specs.Limits.{file_limit};
ghost use Rattle.lc_cert.specs.Certificates.{Entry as Proved};
ghost use Rattle.lc_check.specs.Answers.{IsBounded, ProvesOne};
ghost use Rattle.lc_check.specs.Stages.{IsFedOn, is_spent_on};
ghost use Rattle.lc_check.specs.VerdictView.{development_in, IfAccepted, IsCountOn, IsVerdict, IsVerdictOn};
ghost use Rattle.lc_check.specs.Walking.{HasNext, IsInTurn, IsProvenOn};
ghost use Rattle.lc_cond.specs.ConditionView.{condition_in, IsCondition};
ghost use Rattle.lc_kernel.specs.Proofs.{size};
ghost use Rattle.lc_kernel.specs.View.{proof_of};
ghost use Rattle.lc_outline.specs.Development.{Development as Shown};
ghost use Rattle.lc_outline.specs.DevelopmentView.{development_view};
ghost use Rattle.lc_outline_text.specs.Developments.{file_reading};
ghost use Rattle.lc_reading.specs.Files.{Says};
ghost use Rattle.lc_sound.specs.Linearizable.{IsLinearizableObject};
ghost use Rattle.lc_table.specs.Tables.{Keeps};

use lc_base::{Fault, OutOfMemory};
use lc_check::{
    Accepted, Alone, CertificateSession, Prover, Verdict, Walk, check, prove_one, proven_count,
};
use lc_cond::Condition;
use lc_kernel::Proof;
use lc_outline::Development;
use lc_table::Terms;
use std::alloc::Global;

/// Two files have exactly one verdict, and the object of what is accepted is linearizable.
pub fn checking(alloc: Global, dev: &[u8], cert: &[u8]) -> Result<Verdict, OutOfMemory>
    ensures exactly { IfOk result (IsVerdict dev.now cert.now) }
    ensures linearizable { IfAccepted result (λ D. Says file_reading dev.now D × IsLinearizableObject D.specification D.object) }
{
    check(alloc, dev, cert)
}

/// For a certificate file, the number of conditions that it proves is returned, or its first refusal.
pub fn counting(alloc: Global, development: &Development, cert: &[u8]) -> Result<u64, Fault>
    ensures { IsCountOn (development_view development.now) cert.now result }
{
    proven_count(alloc, development, cert)
}

/// A development each of whose conditions a certificate file proves is accepted, and its object is linearizable.
pub fn accepting(development: Development, count: u64) -> Accepted
    requires { (cert : List ℕ) × IsCountOn (development_view development) cert (Ok count) }
    ensures shown { development_in result ≡ development_view development }
    ensures linearizable { IsLinearizableObject (development_view development).specification (development_view development).object }
{
    Accepted::proven(development, count)
}

/// A piece of a certificate is taken after those that were fed before. After `OutOfMemory` no piece is taken.
pub fn feeding(session: &mut CertificateSession, piece: &[u8]) -> Result<(), OutOfMemory>
    ensures fed { OnOk result ((D : Shown) → (fed : List ℕ) → IsFedOn D fed session.old → IsFedOn D (fed ++ piece.now) session.new) }
    ensures spent { is_spent_on session.new ≡ is_err result }
    ensures never_again { is_spent_on session.old ≡ true → is_err result ≡ true }
{
    session.feed(piece)
}

/// The verdict on the pieces that were fed is that on the file which they make together.
pub fn finishing(session: CertificateSession) -> Result<Verdict, OutOfMemory>
    ensures exactly { (D : Shown) → (cert : List ℕ) → IsFedOn D cert session → IfOk result (IsVerdictOn D cert) }
    ensures linearizable { IfAccepted result (λ D. IsLinearizableObject D.specification D.object) }
    ensures never_again { is_spent_on session ≡ true → is_err result ≡ true }
{
    session.finish()
}

/// A proof derives condition `number`, or is refused with its first step that does not hold.
pub fn proving(
    alloc: Global,
    terms: &mut Terms,
    number: u64,
    condition: &Condition,
    proof: &Proof,
) -> Result<(), Fault>
    requires known { IsCondition terms.old condition.now }
    requires bounded { IsBounded (condition_in terms.old condition.now) }
    requires steps { size (proof_of proof.now) ≤ file_limit }
    ensures exactly { ProvesOne number (condition_in terms.old condition.now) (proof_of proof.now) result }
    ensures kept { Keeps terms.old terms.new }
{
    prove_one(alloc, terms, number, condition, proof)
}

/// A prover answers as `prove_one` does.
pub fn proving_alone(
    prover: &mut Alone,
    alloc: Global,
    development: &Development,
    terms: &mut Terms,
    number: u64,
    condition: &Condition,
    proof: &Proof,
) -> Result<(), Fault>
    requires known { IsCondition terms.old condition.now }
    requires bounded { IsBounded (condition_in terms.old condition.now) }
    requires steps { size (proof_of proof.now) ≤ file_limit }
    ensures exactly { ProvesOne number (condition_in terms.old condition.now) (proof_of proof.now) result }
    ensures kept { Keeps terms.old terms.new }
{
    prover.prove(alloc, development, terms, number, condition, proof)
}

/// A proof proves the next condition, and the one after it is next; or it is refused, and the same condition is next.
pub fn proving_the_next(
    walk: &mut Walk,
    alloc: Global,
    development: &Development,
    proof: &Proof,
) -> Result<(), Fault>
    requires in_turn { (taken : List Proved) × IsInTurn (development_view development.now) taken walk.old }
    requires next { HasNext walk.old }
    requires steps { size (proof_of proof.now) ≤ file_limit }
    ensures { IsProvenOn (development_view development.now) (proof_of proof.now) walk.old walk.new result }
{
    walk.prove_next(alloc, development, proof)
}
