//! Cases of terms, columns and formulas at a place with names of each kind.
use anyhow::{Context, bail};
use lc_base::{ColId, OutOfMemory};
use lc_reading::{NameTable, Part, Pass, ReadFault, next_part, read_name};
use lc_sexp::Forms;
use lc_text::{
    ColumnUse, Extra, Scope, Spelling, read_column, read_formula, read_number, read_term,
    write_column, write_formula, write_term,
};
use std::alloc::Global;

/// A place with the variable `x` and one whose name is too long, and the columns `c`, `m`, which is misplaced, and `h`,
/// which is hidden.
#[derive(Clone, Copy)]
pub struct Place {
    /// Whether quantifiers, built columns and variables `?k` are allowed.
    pub everything: bool,
}

impl Scope for Place {
    ghost use Rattle.std.specs.Prelude.{codes, Some, None, if◌then◌else◌};
    ghost use Rattle.lc_reading.specs.Words.{is};
    ghost use Rattle.lc_text.specs.declared.scope.ColumnUse.TheVariants.{Usable, Misplaced, Hidden, Undeclared};

    ghost names = { λ place. record {
      variable = λ w. (if is w (codes "x") then Some 0
          else (if is w (codes "ppppppppppppppppppppppppppppppppppppppppppppppppppppppppppppppppp") then Some 1 else None));
      column = λ w. (if is w (codes "c") then Usable (record { 0 = 0 })
          else (if is w (codes "m") then Misplaced else (if is w (codes "h") then Hidden else Undeclared)));
      allows = λ _. place.everything;
    } };

    fn variable(&self, name: &str) -> Option<u32> {
        if name == "x" {
            Some(0)
        } else if name == "ppppppppppppppppppppppppppppppppppppppppppppppppppppppppppppppppp" {
            Some(1)
        } else {
            None
        }
    }

    fn column(&self, name: &str) -> ColumnUse {
        if name == "c" {
            ColumnUse::Usable(ColId(0))
        } else if name == "m" {
            ColumnUse::Misplaced
        } else if name == "h" {
            ColumnUse::Hidden
        } else {
            ColumnUse::Undeclared
        }
    }

    fn allows(&self, _: Extra) -> bool {
        self.everything
    }
}

/// Variables as `?k`, and columns by a letter and their numbers.
#[derive(Clone, Copy)]
struct Numbers;

impl Spelling for Numbers {
    ghost use Rattle.std.specs.Prelude.{codes, ◌++◌};
    ghost use Rattle.std.specs.Fmt.{decimal};

    ghost spelled = { λ _. record {
      variable = λ k. codes "?" ++ decimal k;
      column = λ c. codes "c" ++ decimal c;
    } };

    fn variable(&self, out: &mut String, number: u32) -> Result<(), OutOfMemory> {
        write!(out, "?{number}")?;
        Ok(())
    }

    fn column(&self, out: &mut String, column: ColId) -> Result<(), OutOfMemory> {
        let number = column.0;
        write!(out, "c{number}")?;
        Ok(())
    }
}

/// What is expected where an item is.
#[derive(Clone, Copy)]
enum Kind {
    Term,
    Column,
    Formula,
    Number,
    Binder,
}

fn kind_of(word: &str) -> Option<Kind> {
    match word {
        "term" => Some(Kind::Term),
        "column" => Some(Kind::Column),
        "formula" => Some(Kind::Formula),
        "number" => Some(Kind::Number),
        "binder" => Some(Kind::Binder),
        _ => None,
    }
}

fn pass_of(word: &str) -> Option<Pass> {
    match word {
        "shape" => Some(Pass::Shape),
        "unknown" => Some(Pass::Unknown),
        "repeated" => Some(Pass::Repeated),
        "auxiliary" => Some(Pass::Auxiliary),
        "bound" => Some(Pass::Bound),
        _ => None,
    }
}

/// The print of what an item reads as.
fn reprint(alloc: Global, place: Place, kind: Kind, part: Part<'_>) -> Result<String, ReadFault> {
    let mut out = String::new(alloc);
    match kind {
        Kind::Term => write_term(&mut out, &Numbers, 0, &read_term(alloc, &place, part)?)?,
        Kind::Column => {
            let column = read_column(alloc, &place, part.number(), part)?;
            write_column(&mut out, &Numbers, 0, &column)?
        }
        Kind::Formula => write_formula(&mut out, &Numbers, 0, &read_formula(alloc, &place, part)?)?,
        Kind::Number => {
            let number = read_number(part)?;
            write!(out, "{number}")?
        }
        Kind::Binder => {
            let name = read_name(None, &NameTable::new(alloc), part)?;
            write!(out, "{name}")?
        }
    }
    Ok(out)
}

/// Prints what an item reads as, printed again; or the first item in it that is wrong, if it is wrong in a pass.
fn answer_item(
    rt: &HostRuntime,
    place: Place,
    name: &str,
    task: &str,
    kind: Kind,
    part: Part<'_>,
) -> anyhow::Result<()> {
    let read = reprint(rt.alloc(), place, kind, part);
    if task == "read" {
        match read {
            Ok(text) => println!(rt; "{name}: {text}")?,
            Err(ReadFault::Flawed(_)) => println!(rt; "{name}: reads as nothing")?,
            Err(ReadFault::OutOfMemory) => bail!("out of memory"),
        }
        return Ok(());
    }
    let pass = pass_of(task).context("a task is `read` or a pass")?;
    match read {
        Err(ReadFault::Flawed(flaw)) if flaw.pass == pass => {
            let number = flaw.item;
            println!(rt; "{name}: {task} {number}")?
        }
        Err(ReadFault::OutOfMemory) => bail!("out of memory"),
        _ => println!(rt; "{name}: nothing")?,
    }
    Ok(())
}

/// Answers a text of a task, a kind, and an item of that kind.
pub fn answer_term(rt: &HostRuntime, place: Place, name: &str, text: &str) -> anyhow::Result<()> {
    let (task, rest) = text.split_once(' ').context("a task stands first")?;
    let (word, item) = rest.split_once(' ').context("a kind stands second")?;
    let kind = kind_of(word).context("a kind is that of an item")?;
    let forms = Forms::read(rt.alloc(), item.as_bytes())?;
    let mut cursor = forms.cursor();
    match next_part(&mut cursor) {
        Ok(part) => answer_item(rt, place, name, task, kind, part),
        Err(_) => bail!("an item stands third"),
    }
}
