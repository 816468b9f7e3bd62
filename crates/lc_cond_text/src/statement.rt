//! What a condition says, without where it is.
ghost use Rattle.std.specs.Prelude.{◌≡◌, ◌++◌, OnOk};
ghost use Rattle.lc_cond.specs.ConditionView.{condition_in, IsCondition};
ghost use Rattle.lc_cond_text.specs.ConditionText.{spelled, statement_text};
ghost use Rattle.lc_cond_text.specs.Recalled.{Recalls};
ghost use Rattle.lc_outline.specs.DevelopmentView.{development_view};

use crate::text::{push_claim, push_known};
use crate::texts::FormulaTexts;
use lc_base::OutOfMemory;
use lc_cond::Condition;
use lc_outline::Development;
use lc_table::Terms;

/// Appends what a condition says: ` (vars V) (hyps F ..) (goal F))`, with which its line ends. Texts of formulas
/// are those of this development and this table.
pub fn push_statement(
    out: &mut Vec<u8>,
    texts: &mut FormulaTexts,
    terms: &Terms,
    development: &Development,
    condition: &Condition,
) -> Result<(), OutOfMemory>
    requires condition { IsCondition terms.now condition.now }
    requires recalls { Recalls (spelled (development_view development.now)) terms.now texts.old }
    ensures text { OnOk result (out.new.items ≡ out.old.items ++ statement_text (development_view development.now) (condition_in terms.now condition.now)) }
    ensures recalls { OnOk result (Recalls (spelled (development_view development.now)) terms.now texts.new) }
{
    push_known(out, texts, terms, development, &condition.goal)?;
    push_claim(out, texts, terms, development, condition.goal.goal)
}
