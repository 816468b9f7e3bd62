//! The proofs that are carried to the conditions of a new development.
ghost use Rattle.std.specs.Prelude.{◌≡◌, ◌++◌, OnOk, IfOk, map, option_map};
ghost use Rattle.lc_carry.specs.Carried.{carried, carried_from, entry_for};
ghost use Rattle.lc_carry.specs.OldProofs.{proof_for};
ghost use Rattle.lc_cert.specs.Certificates.{HaveFewSteps};
ghost use Rattle.lc_cert.specs.CertificateView.{entries_in};
ghost use Rattle.lc_cert.specs.EntryView.{entries_of};
ghost use Rattle.lc_cond.specs.ConditionView.{condition_in, IsCondition, AreConditions};
ghost use Rattle.lc_cond_text.specs.ConditionText.{spelled, statement_text};
ghost use Rattle.lc_cond_text.specs.Recalled.{Recalls};
ghost use Rattle.lc_kernel.specs.View.{proof_of};
ghost use Rattle.lc_outline.specs.DevelopmentView.{development_view};

use crate::old_proofs::OldProofs;
use lc_base::OutOfMemory;
use lc_cert::{Certificate, Entry};
use lc_cond::{Condition, ConditionStream};
use lc_cond_text::{FormulaTexts, no_texts, push_statement};
use lc_kernel::Proof;
use lc_outline::Development;
use lc_table::Terms;
use std::alloc::Global;

/// Appends the entry of a proof, if there is one, to the others.
fn push_entry(
    entries: &mut Vec<Entry>,
    number: u64,
    proof: Option<Proof>,
) -> Result<(), OutOfMemory>
    ensures { OnOk result (entries_of entries.new.items ≡ entries_of entries.old.items ++ entry_for number (option_map proof_of proof)) }
{
    if let Some(proof) = proof {
        entries.push(Entry { number, proof })?;
    }
    Ok(())
}

/// Appends the proof that is carried to a condition, if there is one, to the others.
fn push_carried(
    entries: &mut Vec<Entry>,
    proofs: &OldProofs<'_>,
    development: &Development,
    terms: &Terms,
    texts: &mut FormulaTexts,
    number: u64,
    condition: &Condition,
) -> Result<(), OutOfMemory>
    requires condition { IsCondition terms.now condition.now }
    requires recalls { Recalls (spelled (development_view development.now)) terms.now texts.old }
    ensures entries { let E = development_view development.now in
        OnOk result (entries_of entries.new.items ≡ entries_of entries.old.items ++ entry_for number (proof_for proofs.now (statement_text E (condition_in terms.now condition.now)))) }
    ensures recalls { OnOk result (Recalls (spelled (development_view development.now)) terms.now texts.new) }
{
    let alloc = *entries.allocator();
    let mut text = Vec::new(alloc);
    push_statement(&mut text, texts, terms, development, condition)?;
    let proof = proofs.proof(alloc, &text)?;
    push_entry(entries, number, proof)
}

/// Appends the proofs that are carried to the conditions of a part, from this number on, to the others.
fn push_part(
    entries: &mut Vec<Entry>,
    proofs: &OldProofs<'_>,
    development: &Development,
    terms: &Terms,
    first: u64,
    part: &[Condition],
) -> Result<(), OutOfMemory>
    requires { AreConditions terms.now part.now }
    ensures { let E = development_view development.now in
        OnOk result (entries_of entries.new.items ≡ entries_of entries.old.items ++ carried_from E (proof_for proofs.now) first (map (condition_in terms.now) part.now)) }
{
    let mut texts = no_texts(*entries.allocator());
    let mut number = first;
    for condition in part {
        push_carried(
            entries,
            proofs,
            development,
            terms,
            &mut texts,
            number,
            condition,
        )?;
        number = number.checked_add(1).ok_or(OutOfMemory)?;
    }
    Ok(())
}

/// The proofs that are carried from an old development, whose certificate this is, to a new one.
pub fn carried_entries(
    alloc: Global,
    old: &Development,
    certificate: &Certificate,
    development: &Development,
) -> Result<Vec<Entry>, OutOfMemory>
    ensures exactly { IfOk result (λ entries. entries_of entries.items ≡ carried (development_view old.now) (entries_in certificate.now) (development_view development.now)) }
    ensures few { HaveFewSteps (entries_in certificate.now) → IfOk result (λ entries. HaveFewSteps (entries_of entries.items)) }
{
    let proofs = OldProofs::new(alloc, old, certificate, development)?;
    let mut entries = Vec::new(alloc);
    let mut stream = ConditionStream::new(alloc, development)?;
    'parts: loop {
        let first = stream.first_number();
        let mut terms = Terms::new(alloc);
        let Some(part) = stream.next_part(development, &mut terms)? else {
            return Ok(entries);
        };
        push_part(&mut entries, &proofs, development, &terms, first, &part)?;
    }
}
