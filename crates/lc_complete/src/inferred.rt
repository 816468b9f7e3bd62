//! The lines of a text on which something inferred begins. Nothing is promised of them.
use lc_base::OutOfMemory;
use lc_fill::Plan;
use lc_houdini::written_actions;
use lc_sexp::Forms;
use std::alloc::Global;

/// What is inferred, and how far a text was looked at.
#[derive(Drop)]
struct Look<'a> {
    plan: &'a Plan,
    /// How many actions are the user's. They come first.
    written: usize,
    /// How many actions and points came.
    actions: usize,
    points: usize,
}

impl Look<'_> {
    /// Whether an action begins here that is inferred.
    fn takes_action(&mut self) -> bool {
        let is_inferred = self.written <= self.actions;
        self.actions = self.actions.saturating_add(1);
        is_inferred
    }

    /// Whether facts are inferred at the point that came last.
    fn has_facts(&self) -> bool {
        let Some(point) = self.points.checked_sub(1) else {
            return false;
        };
        match self.plan.asserts.get(point) {
            Some(planned) => !planned.items.cursor().is_empty(),
            None => false,
        }
    }

    /// Whether something inferred begins where a list does, which begins with a word.
    fn takes_list(&mut self, word: &str) -> bool {
        match word {
            "action" => self.takes_action(),
            "point" => {
                self.points = self.points.saturating_add(1);
                false
            }
            "assert" => self.has_facts(),
            _ => false,
        }
    }

    /// Whether something inferred begins on a line.
    fn takes_line(&mut self, line: &str) -> bool {
        let mut is_inferred = false;
        for list in line.split('(').skip(1) {
            let word = list.split(' ').next().unwrap_or("");
            is_inferred |= self.takes_list(word);
        }
        is_inferred
    }
}

/// A mark for each line of the text to which forms were completed by a plan.
pub(crate) fn inferred_lines(
    alloc: Global,
    text: &[u8],
    forms: &Forms,
    plan: &Plan,
) -> Result<Vec<bool>, OutOfMemory> {
    let mut marks = Vec::new(alloc);
    let Ok(text) = str::from_utf8(text) else {
        return Ok(marks);
    };
    let mut look = Look {
        plan,
        written: written_actions(forms),
        actions: 0,
        points: 0,
    };
    for line in text.split('\n') {
        marks.push(look.takes_line(line))?;
    }
    Ok(marks)
}
