//! By what conditions of the old development say, the least number of one whose proof can be carried.
ghost use Rattle.std.specs.Prelude.{◌≡◌, ℕ, List, OnOk, IfOk, map};
ghost use Rattle.std.specs.Option.{option_or};
ghost use Rattle.lc_carry.specs.Carried.{can_carry, number_here, least_number};
ghost use Rattle.lc_carry.specs.TextNumbers.{number_of};
ghost use Rattle.lc_cert.specs.Certificates.{proof_at};
ghost use Rattle.lc_cert.specs.CertificateView.{entries_in};
ghost use Rattle.lc_cond.specs.Conditions.{conditions};
ghost use Rattle.lc_cond.specs.ConditionView.{condition_in, IsCondition, AreConditions};
ghost use Rattle.lc_cond_text.specs.ConditionText.{spelled};
ghost use Rattle.lc_cond_text.specs.Recalled.{Recalls};
ghost use Rattle.lc_outline.specs.DevelopmentView.{development_view};
ghost use Rattle.lc_carry.specs.Renaming.{column_for};

use crate::proof::is_covered;
use crate::text_numbers::TextNumbers;
use lc_base::{ColId, OutOfMemory};
use lc_cert::Certificate;
use lc_cond::{Condition, ConditionStream};
use lc_cond_text::{FormulaTexts, no_texts, push_statement};
use lc_outline::Development;
use lc_table::Terms;
use std::alloc::Global;

/// An old development with its certificate, and the new columns in place of its own.
#[derive(Clone, Copy)]
pub(crate) struct Old<'a> {
    pub development: &'a Development,
    pub certificate: &'a Certificate,
    pub columns: &'a [Option<ColId>],
}

/// Whether the certificate has a proof of this number that can be carried.
fn has_carried(old: &Old<'_>, number: u64) -> bool
    ensures { result ≡ can_carry (column_for old.now.columns.now) (proof_at (entries_in old.now.certificate.now) number) }
{
    match old.certificate.proof(number) {
        Some(proof) => is_covered(old.columns, proof),
        None => false,
    }
}

/// Notes the number of a condition, if its proof can be carried.
fn note_condition(
    numbers: &mut TextNumbers,
    old: &Old<'_>,
    terms: &Terms,
    texts: &mut FormulaTexts,
    number: u64,
    condition: &Condition,
) -> Result<(), OutOfMemory>
    requires condition { IsCondition terms.now condition.now }
    requires recalls { Recalls (spelled (development_view old.now.development.now)) terms.now texts.old }
    ensures noted { let D = development_view old.now.development.now in
        OnOk result ((t : List ℕ) → number_of numbers.new t ≡ option_or (number_of numbers.old t)
        (number_here D (entries_in old.now.certificate.now) (column_for old.now.columns.now) t number (condition_in terms.now condition.now))) }
    ensures recalls { OnOk result (Recalls (spelled (development_view old.now.development.now)) terms.now texts.new) }
{
    if !has_carried(old, number) {
        return Ok(());
    }
    let mut text = Vec::new(numbers.allocator());
    push_statement(&mut text, texts, terms, old.development, condition)?;
    numbers.note(&text, number)
}

/// Notes the numbers of the conditions of a part, from this number on.
fn note_part(
    numbers: &mut TextNumbers,
    old: &Old<'_>,
    terms: &Terms,
    first: u64,
    part: &[Condition],
) -> Result<(), OutOfMemory>
    requires { AreConditions terms.now part.now }
    ensures { let D = development_view old.now.development.now in
        OnOk result ((t : List ℕ) → number_of numbers.new t ≡ option_or (number_of numbers.old t)
        (least_number D (entries_in old.now.certificate.now) (column_for old.now.columns.now) t first (map (condition_in terms.now) part.now))) }
{
    let mut texts = no_texts(numbers.allocator());
    let mut number = first;
    for condition in part {
        note_condition(numbers, old, terms, &mut texts, number, condition)?;
        number = number.checked_add(1).ok_or(OutOfMemory)?;
    }
    Ok(())
}

/// The numbers of the conditions of the old development whose proofs can be carried, by what they say; of those that say the
/// same the least.
pub(crate) fn numbers_of(alloc: Global, old: &Old<'_>) -> Result<TextNumbers, OutOfMemory>
    ensures { let D = development_view old.now.development.now in
        IfOk result (λ numbers. (t : List ℕ) → number_of numbers t ≡ least_number D (entries_in old.now.certificate.now) (column_for old.now.columns.now) t 0 (conditions D)) }
{
    let mut numbers = TextNumbers::new(alloc);
    let mut stream = ConditionStream::new(alloc, old.development)?;
    'parts: loop {
        let first = stream.first_number();
        let mut terms = Terms::new(alloc);
        let Some(part) = stream.next_part(old.development, &mut terms)? else {
            return Ok(numbers);
        };
        note_part(&mut numbers, old, &terms, first, &part)?;
    }
}
