//! The command `show`.
ghost use Rattle.std.specs.Prelude.{IfOk, IsErr};
ghost use Rattle.lc_outline_print.specs.Developments.{development_printed};
ghost use Rattle.lc_words.specs.Tasks.{showing};
ghost use Rattle.lincheck.specs.Check.{AnswersDevelopment};
ghost use Rattle.lincheck.specs.Execution.{AnswersTask, IsUnread};
ghost use Rattle.lincheck.specs.Reading.{OfFile};

use crate::answer::{Answer, Failure, SUCCESS};
use crate::check::open_development;
use crate::files::Files;
use crate::lines::answer_lines;
use lc_outline_print::development_text;
use std::alloc::Global;

/// The text of the development that the file at a path says.
fn answer_printed<'a, F: Files>(
    alloc: Global,
    files: &mut F,
    path: &'a str,
) -> Result<Answer, Failure<'a>>
    ensures unread { F.CannotOpen files.old path.now → IsErr result }
    ensures answers { IfOk result (λ answer. OfFile (F.bytes_at files.old path.now) (λ file. AnswersDevelopment development_printed file answer.text.items answer.status)) }
{
    match open_development(alloc, files, path)? {
        Ok(development) => Ok(Answer {
            text: development_text(alloc, &development)?,
            status: SUCCESS,
            why: None,
        }),
        Err(answer) => Ok(answer),
    }
}

/// The answer of the command `show` to the file at a path: the text of the development that it says, on two lines or laid out.
pub fn answer_show<'a, F: Files>(
    alloc: Global,
    files: &mut F,
    path: &'a str,
    lines: bool,
) -> Result<Answer, Failure<'a>>
    ensures unread { IsUnread (F.CannotOpen files.old) (F.bytes_at files.old) (showing path.now lines) → IsErr result }
    ensures answers { IfOk result (λ answer. AnswersTask (F.bytes_at files.old) (showing path.now lines) answer.text.items answer.status) }
{
    if lines {
        answer_lines(alloc, files, path)
    } else {
        answer_printed(alloc, files, path)
    }
}
