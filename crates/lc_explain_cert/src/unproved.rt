//! The conditions that a certificate does not prove, a line each.
ghost use Rattle.std.specs.Prelude.{◌≤◌, map, IfSome};
ghost use Rattle.lc_base.specs.Limits.{file_limit};
ghost use Rattle.lc_cert.specs.Certificates.{HaveFewSteps};
ghost use Rattle.lc_cert.specs.CertificateView.{entries_in};
ghost use Rattle.lc_check.specs.Answers.{IsBounded};
ghost use Rattle.lc_cond.specs.ConditionView.{condition_in, AreConditions, IsCondition};
ghost use Rattle.lc_cond.specs.Numbering.{IsNumbering};
ghost use Rattle.lc_kernel.specs.Proofs.{size};
ghost use Rattle.lc_kernel.specs.View.{proof_of};
ghost use Rattle.lc_outline.specs.DevelopmentView.{development_view};
ghost use Rattle.lc_table.specs.Tables.{Keeps};
ghost use Rattle.lc_term.specs.Lists.{Every};

use crate::certificate::sentence_of;
use crate::condition::condition_words;
use crate::sentence::Sentence;
use lc_base::{Fault, OutOfMemory, Refusal};
use lc_cert::laws::a_certificate_is_read_or_refused;
use lc_cert::{Certificate, certificate_of};
use lc_check::prove_one;
use lc_cond::laws::{conditions_have_few_variables, conditions_use_their_variables};
use lc_cond::{Condition, NumberedPart, Numbering};
use lc_kernel::Proof;
use lc_outline::Development;
use lc_table::Terms;
use std::alloc::Global;

/// Why a condition is not proved by a proof, or by none.
fn refusal_of(
    alloc: Global,
    terms: &mut Terms,
    number: u64,
    condition: &Condition,
    proof: Option<&Proof>,
) -> Result<Option<Refusal>, OutOfMemory>
    requires known { IsCondition terms.old condition.now }
    requires bounded { IsBounded (condition_in terms.old condition.now) }
    requires steps { IfSome proof (λ p. size (proof_of p.now) ≤ file_limit) }
    ensures kept { Keeps terms.old terms.new }
{
    let Some(proof) = proof else {
        return Ok(Some(Refusal::Missing(number)));
    };
    match prove_one(alloc, terms, number, condition, proof) {
        Ok(()) => Ok(None),
        Err(Fault::Refused(refusal)) => Ok(Some(refusal)),
        Err(Fault::OutOfMemory) => Err(OutOfMemory),
    }
}

/// Appends a sentence, in a line of its own.
fn push_sentence(text: &mut String, sentence: Sentence<'_>) -> Result<(), OutOfMemory> {
    writeln!(text, "{sentence}")?;
    Ok(())
}

/// Says of a condition why it is not proved.
fn push_unproved(
    text: &mut String,
    development: &Development,
    number: u64,
    condition: &Condition,
    refusal: &Refusal,
) -> Result<(), OutOfMemory> {
    let words = condition_words(*text.allocator(), development, condition)?;
    push_sentence(text, sentence_of(number, refusal, &words))
}

/// Says of each condition of a part that is not proved why it is not.
fn push_part(
    alloc: Global,
    text: &mut String,
    development: &Development,
    certificate: &Certificate,
    terms: &mut Terms,
    part: &NumberedPart,
) -> Result<(), OutOfMemory>
    requires known { AreConditions terms.old part.now.conditions.items }
    requires bounded { Every IsBounded (map (condition_in terms.old) part.now.conditions.items) }
    requires steps { HaveFewSteps (entries_in certificate.now) }
{
    for place in 0..part.conditions.len() {
        let condition = &part.conditions[place];
        let number = part.first.saturating_add(place as u64);
        let proof = certificate.proof(number);
        if let Some(refusal) = refusal_of(alloc, terms, number, condition, proof)? {
            push_unproved(text, development, number, condition, &refusal)?;
        }
    }
    Ok(())
}

/// Says of each condition that is not proved by a certificate why it is not.
fn push_all(
    alloc: Global,
    text: &mut String,
    development: &Development,
    certificate: &Certificate,
    numbering: &Numbering,
) -> Result<(), OutOfMemory>
    requires steps { HaveFewSteps (entries_in certificate.now) }
    requires numbering { IsNumbering (development_view development.now) numbering.now }
{
    let count = numbering.count();
    let mut number = 0;
    while number < count {
        let mut terms = Terms::new(alloc);
        let part = numbering.part_with(alloc, development, &mut terms, number)?;
        conditions_use_their_variables(development);
        conditions_have_few_variables(development);
        push_part(alloc, text, development, certificate, &mut terms, &part)?;
        let behind = part.first.saturating_add(part.conditions.len() as u64);
        if behind <= number {
            return Ok(());
        }
        number = behind;
    }
    Ok(())
}

/// What is said where most of the lines that may be said are: the certificate is that of another version of the development.
const OF_ANOTHER: &str =
    "most of its proofs do not hold: if it is the certificate of another version of the development, \
    `lincheck carry OLD CERT NEW` takes over the proofs that still serve\n";

/// How many lines a text has.
fn line_count(text: &str) -> u64 {
    let mut count = 0u64;
    for byte in text.as_bytes() {
        if *byte == b'\n' {
            count = count.saturating_add(1);
        }
    }
    count
}

/// Says of each condition of a development that is not proved by a certificate file why it is not, and of each proof for a number that
/// no condition has; a line each. Nothing is said of a file that is no certificate.
pub fn unproved_conditions(
    alloc: Global,
    development: &Development,
    bytes: &[u8],
) -> Result<String, OutOfMemory> {
    a_certificate_is_read_or_refused();
    let mut text = String::new(alloc);
    let certificate = match certificate_of(alloc, development, bytes) {
        Ok(certificate) => certificate,
        Err(Fault::Refused(_)) => return Ok(text),
        Err(Fault::OutOfMemory) => return Err(OutOfMemory),
    };
    let numbering = Numbering::new(alloc, development)?;
    push_all(alloc, &mut text, development, &certificate, &numbering)?;
    let count = numbering.count();
    for entry in certificate.entries() {
        if count <= entry.number {
            push_sentence(&mut text, Sentence::Extra(entry.number))?;
        }
    }
    if count < line_count(&text).saturating_mul(2) {
        text.push_str(OF_ANOTHER)?;
    }
    Ok(text)
}
