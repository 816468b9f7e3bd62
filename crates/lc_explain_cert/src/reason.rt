//! Why a step does not hold, with its numbers and the hypotheses that it is about.
use crate::names::Names;
use lc_base::OutOfMemory;
use lc_kernel::{Multiple, Reason, Step};
use lc_proof_state::Standing;
use lc_term::Formula;
use lc_text::write_formula;
use std::alloc::Global;

/// The word of a step.
fn word_of(step: &Step) -> &'static str {
    match step {
        Step::Split { .. } => "split",
        Step::Cases { .. } => "cases",
        Step::Push { .. } => "push",
        Step::Instantiate { .. } => "inst",
        Step::Fresh { .. } => "fresh",
        Step::Cut { .. } => "cut",
        Step::Written { .. } => "written",
        Step::Same { .. } => "same",
        Step::Affine { .. } => "affine",
        Step::Trichotomy { .. } => "trich",
        Step::Divide { .. } => "divide",
        Step::Sum { .. } => "sum",
        Step::Opposite { .. } => "opposite",
        Step::Open => "open",
    }
}

/// The number of the hypothesis that a step takes apart.
fn taken_by(step: &Step) -> Option<i64> {
    match step {
        Step::Split { hypothesis }
        | Step::Cases { hypothesis }
        | Step::Push { hypothesis }
        | Step::Fresh { hypothesis }
        | Step::Trichotomy { hypothesis } => Some(*hypothesis),
        Step::Instantiate { hypothesis, .. } | Step::Divide { hypothesis, .. } => Some(*hypothesis),
        _ => None,
    }
}

/// How a hypothesis is written that a step can take apart.
fn form_for(step: &Step) -> &'static str {
    match step {
        Step::Split { .. } => "(and F ..)",
        Step::Cases { .. } => "(or F ..), (=> F F) or (not (and F ..))",
        Step::Push { .. } => "(not F) where F begins with not, <=, or, =>, forall or exists",
        Step::Instantiate { .. } => "(forall NAME F)",
        Step::Fresh { .. } => "(exists NAME F)",
        Step::Trichotomy { .. } => "(not (= T T))",
        Step::Divide { .. } => "(<= T T)",
        _ => "(<= T T) or (= T T)",
    }
}

/// Whether a formula is written so.
fn fits(step: &Step, formula: &Formula) -> bool {
    match (step, formula) {
        (Step::Split { .. }, Formula::And(_)) => true,
        (Step::Cases { .. }, Formula::Or(_) | Formula::Implies(_, _)) => true,
        (Step::Cases { .. }, Formula::Not(inner)) => matches!(&**inner, Formula::And(_)),
        (Step::Push { .. }, Formula::Not(inner)) => {
            !matches!(&**inner, Formula::Eq(_, _) | Formula::And(_))
        }
        (Step::Instantiate { .. }, Formula::Forall(_)) => true,
        (Step::Fresh { .. }, Formula::Exists(_)) => true,
        (Step::Trichotomy { .. }, Formula::Not(inner)) => matches!(&**inner, Formula::Eq(_, _)),
        (Step::Divide { .. }, Formula::Le(_, _)) => true,
        _ => false,
    }
}

/// How many branches a step opens, of a hypothesis that fits it.
fn branch_count(step: &Step, formula: Option<&Formula>) -> usize {
    match (step, formula) {
        (Step::Cases { .. }, Some(Formula::Or(parts))) => parts.len(),
        (Step::Cases { .. }, Some(Formula::Not(inner))) => match &**inner {
            Formula::And(parts) => parts.len(),
            _ => 1,
        },
        (Step::Cases { .. } | Step::Cut { .. } | Step::Trichotomy { .. }, _) => 2,
        (Step::Sum { .. } | Step::Opposite { .. } | Step::Open, _) => 0,
        _ => 1,
    }
}

/// What is said of a step, in lines.
struct Saying<'a> {
    names: &'a Names<'a>,
    standing: &'a Standing<'a>,
    text: String,
}

impl Drop for Saying<'_> {
    fn drop(self) {
        let Saying {
            names: _,
            standing: _,
            text: _,
        } = self;
    }
}

impl Saying<'_> {
    /// What was said.
    fn into_text(self) -> String {
        let Saying {
            names: _,
            standing: _,
            text,
        } = self;
        text
    }

    /// The hypothesis of a number.
    fn hypothesis(&self, number: i64) -> Option<&Formula> {
        let place = usize::try_from(number).ok()?;
        self.standing.hypotheses.get(place)
    }

    /// Says which formula a hypothesis is, if there is one of this number.
    fn say_hypothesis(&mut self, number: i64) -> Result<(), OutOfMemory> {
        let Ok(place) = usize::try_from(number) else {
            return Ok(());
        };
        let Some(formula) = self.standing.hypotheses.get(place) else {
            return Ok(());
        };
        write!(self.text, "  hypothesis {number} is ")?;
        write_formula(&mut self.text, self.names, 0, formula)?;
        Ok(())
    }

    /// Says the same in a line of its own.
    fn say_line(&mut self, number: i64) -> Result<(), OutOfMemory> {
        self.say_hypothesis(number)?;
        self.text.push_str("\n")?;
        Ok(())
    }

    /// Says that there is no hypothesis of a number, if there is none; returns whether that is said.
    fn say_unknown(&mut self, number: i64) -> Result<bool, OutOfMemory> {
        if self.hypothesis(number).is_some() {
            return Ok(false);
        }
        let count = self.standing.hypotheses.len();
        match count.checked_sub(1) {
            Some(last) => writeln!(
                self.text,
                "  hypothesis {number} is asked for, and they are numbered from 0 to {last}"
            )?,
            None => writeln!(
                self.text,
                "  hypothesis {number} is asked for, and there is none"
            )?,
        }
        Ok(true)
    }

    /// Says which hypothesis is asked for that is not there.
    fn say_no_hypothesis(&mut self, step: &Step) -> Result<(), OutOfMemory> {
        match step {
            Step::Sum { multiples } => {
                for multiple in multiples {
                    if self.say_unknown(multiple.hypothesis)? {
                        return Ok(());
                    }
                }
            }
            Step::Opposite {
                hypothesis,
                negation,
            } => {
                if !self.say_unknown(*hypothesis)? {
                    self.say_unknown(*negation)?;
                }
            }
            _ => {
                if let Some(number) = taken_by(step) {
                    self.say_unknown(number)?;
                }
            }
        }
        Ok(())
    }

    /// Says that a hypothesis has another form than the step takes apart.
    fn say_form(&mut self, step: &Step, number: i64) -> Result<(), OutOfMemory> {
        let word = word_of(step);
        let form = form_for(step);
        self.say_hypothesis(number)?;
        writeln!(self.text, ", and `{word}` needs {form}")?;
        Ok(())
    }

    /// Says how many proofs are below the step, and how many branches it opens.
    fn say_branches(&mut self, step: &Step, number: Option<i64>) -> Result<(), OutOfMemory> {
        let word = word_of(step);
        let formula = number.and_then(|it| self.hypothesis(it));
        let due = branch_count(step, formula);
        let count = self.standing.proof.branches.len();
        writeln!(
            self.text,
            "  branches that `{word}` opens here: {due}; proofs that stand below it: {count}"
        )?;
        Ok(())
    }

    /// The number of the first hypothesis of a sum that is no comparison.
    fn no_comparison(&self, multiples: &[Multiple]) -> Option<i64> {
        for multiple in multiples {
            match self.hypothesis(multiple.hypothesis) {
                Some(Formula::Le(_, _) | Formula::Eq(_, _)) => {}
                _ => return Some(multiple.hypothesis),
            }
        }
        None
    }

    /// Says what has another form, or is there in another number.
    fn say_wrong_form(&mut self, step: &Step) -> Result<(), OutOfMemory> {
        let wrong = match step {
            Step::Sum { multiples } => self.no_comparison(multiples),
            _ => match taken_by(step) {
                Some(number) if !self.takes(step, number) => Some(number),
                _ => None,
            },
        };
        match wrong {
            Some(number) => self.say_form(step, number),
            None => self.say_branches(step, taken_by(step)),
        }
    }

    /// Whether the hypothesis of a number is one that the step takes apart.
    fn takes(&self, step: &Step, number: i64) -> bool {
        match self.hypothesis(number) {
            Some(formula) => fits(step, formula),
            None => false,
        }
    }

    /// Says which variables are in use.
    fn say_variables(&mut self) -> Result<(), OutOfMemory> {
        match self.standing.variables.checked_sub(1) {
            Some(last) => writeln!(self.text, "  the variables in use here are ?0 to ?{last}")?,
            None => self.text.push_str("  no variable is in use here\n")?,
        }
        Ok(())
    }

    /// What is said of a factor that its hypothesis does not take.
    fn note_of(&self, multiple: Multiple) -> &'static str {
        match self.hypothesis(multiple.hypothesis) {
            Some(Formula::Le(_, _)) if multiple.multiplier < 0 => ", and a <= takes none below 0",
            _ => "",
        }
    }

    /// Says by what a hypothesis is divided, and which formula is given for the quotient.
    fn say_quotient(&mut self, divisor: i64, quotient: &Formula) -> Result<(), OutOfMemory> {
        write!(
            self.text,
            "  the divisor is {divisor}, and the formula that is given is "
        )?;
        write_formula(&mut self.text, self.names, 0, quotient)?;
        self.text.push_str("\n")?;
        Ok(())
    }

    /// Says which hypotheses the step names.
    fn say_named(&mut self, step: &Step) -> Result<(), OutOfMemory> {
        match step {
            Step::Sum { multiples } => {
                for multiple in multiples {
                    let factor = multiple.multiplier;
                    self.say_hypothesis(multiple.hypothesis)?;
                    let note = self.note_of(*multiple);
                    writeln!(self.text, ", with the factor {factor}{note}")?;
                }
            }
            Step::Opposite {
                hypothesis,
                negation,
            } => {
                self.say_line(*hypothesis)?;
                self.say_line(*negation)?;
            }
            Step::Divide {
                hypothesis,
                divisor,
                quotient,
            } => {
                self.say_line(*hypothesis)?;
                self.say_quotient(*divisor, quotient)?;
            }
            _ => {}
        }
        Ok(())
    }
}

/// What is said of a step that does not hold for a reason, or whose arithmetic leaves 128 bits: the hypotheses that it is about, and
/// what it needs.
pub(crate) fn reason_text(
    alloc: Global,
    names: &Names<'_>,
    standing: &Standing<'_>,
    reason: Option<Reason>,
) -> Result<String, OutOfMemory> {
    let mut saying = Saying {
        names,
        standing,
        text: String::new(alloc),
    };
    let step = &standing.proof.step;
    match reason {
        Some(Reason::NoHypothesis) => saying.say_no_hypothesis(step)?,
        Some(Reason::WrongForm) => saying.say_wrong_form(step)?,
        Some(Reason::VariableNotInUse) => saying.say_variables()?,
        Some(Reason::IsOpen) => {}
        Some(
            Reason::DoesNotClose
            | Reason::NotDivisible
            | Reason::NotOpposite
            | Reason::WrongQuotient,
        )
        | None => saying.say_named(step)?,
    }
    Ok(saying.into_text())
}
