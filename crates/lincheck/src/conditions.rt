//! The command `conditions`. The lines of all conditions are printed as they are made.
ghost use Rattle.std.specs.Prelude.{◌≡◌, IsErr};
ghost use Rattle.lc_cond_text.specs.ConditionText.{conditions_text};
ghost use Rattle.lc_outline.specs.DevelopmentView.{development_view};
ghost use Rattle.lc_words.specs.Tasks.{ListConditions, ShowCondition, chosen_task, listing, path_in};
ghost use Rattle.lincheck.specs.Execution.{AnswersTask};
ghost use Rattle.lincheck.specs.Printing.{Leaves, PrintsText};

use crate::answer::{Failure, SUCCESS, Why};
use crate::check::open_development;
use crate::condition::{answer_chosen, answer_condition};
use crate::files::Files;
use crate::printing::{finish, print_told};
use lc_cond_text::ConditionLines;
use lc_outline::Development;
use lc_words::Chosen;
use std::alloc::Global;
use std::io::Write;

/// Prints the lines of a development's conditions, in pieces, each as soon as it is made.
fn print_conditions<'a, O: Write>(
    alloc: Global,
    out: &mut O,
    development: &Development,
) -> Result<(), Failure<'a>>
    ensures { PrintsText (O.contents out.old) (O.contents out.new) (conditions_text (development_view development.now)) result }
{
    let mut lines = ConditionLines::new(alloc, development)?;
    'pieces: loop {
        let Some(piece) = lines.next_piece()? else {
            return finish(out);
        };
        if out.write_all(&piece).is_err() {
            return Err(Failure::CannotWrite);
        }
    }
}

/// Prints all conditions of the development in the file at a path, or its refusal, and returns the status.
fn list_conditions<'a, F: Files, O: Write>(
    alloc: Global,
    files: &mut F,
    path: &'a str,
    out: &mut O,
    why: &mut Option<Why>,
) -> Result<u8, Failure<'a>>
    ensures unread { F.CannotOpen files.old path.now → IsErr result × (out.new ≡ out.old) }
    ensures leaves { Leaves (ListConditions path.now) (AnswersTask (F.bytes_at files.old) (ListConditions path.now)) (O.contents out.old) (O.contents out.new) result }
{
    match open_development(alloc, files, path)? {
        Ok(development) => {
            print_conditions(alloc, out, &development)?;
            Ok(SUCCESS)
        }
        Err(answer) => print_told(out, why, &answer),
    }
}

/// Prints the condition of a number, laid out over lines, or its refusal, and returns the status.
fn show_condition<'a, F: Files, O: Write>(
    alloc: Global,
    files: &mut F,
    path: &'a str,
    number: u64,
    out: &mut O,
    why: &mut Option<Why>,
) -> Result<u8, Failure<'a>>
    ensures unread { F.CannotOpen files.old path.now → IsErr result × (out.new ≡ out.old) }
    ensures leaves { let task = ShowCondition path.now number in Leaves task (AnswersTask (F.bytes_at files.old) task) (O.contents out.old) (O.contents out.new) result }
{
    let answer = answer_condition(alloc, files, path, number)?;
    print_told(out, why, &answer)
}

/// Prints the lines of a development's conditions that have a point and a kind, if these are named, and returns the status.
fn list_chosen<'a, F: Files, O: Write>(
    alloc: Global,
    files: &mut F,
    path: &'a str,
    point: Option<&'a str>,
    kind: Option<&'a str>,
    out: &mut O,
    why: &mut Option<Why>,
) -> Result<u8, Failure<'a>>
    ensures unread { F.CannotOpen files.old path.now → IsErr result × (out.new ≡ out.old) }
    ensures leaves { let task = listing path.now (path_in point.entry) (path_in kind.entry) in Leaves task (AnswersTask (F.bytes_at files.old) task) (O.contents out.old) (O.contents out.new) result }
{
    let answer = answer_chosen(alloc, files, path, point, kind)?;
    print_told(out, why, &answer)
}

/// Prints the answer of the command `conditions` to the file at a path, and returns its status.
pub fn answer_conditions<'a, F: Files, O: Write>(
    alloc: Global,
    files: &mut F,
    path: &'a str,
    chosen: Chosen<'a>,
    out: &mut O,
    why: &mut Option<Why>,
) -> Result<u8, Failure<'a>>
    ensures unread { F.CannotOpen files.old path.now → IsErr result × (out.new ≡ out.old) }
    ensures leaves { let task = chosen_task path.now chosen.entry in Leaves task (AnswersTask (F.bytes_at files.old) task) (O.contents out.old) (O.contents out.new) result }
{
    match chosen {
        Chosen::Number(number) => show_condition(alloc, files, path, number, out, why),
        Chosen::Those {
            point: None,
            kind: None,
        } => list_conditions(alloc, files, path, out, why),
        Chosen::Those { point, kind } => list_chosen(alloc, files, path, point, kind, out, why),
    }
}
