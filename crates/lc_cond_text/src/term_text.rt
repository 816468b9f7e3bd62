//! The text of a table's terms, from their nodes. What comes after the part that is being written waits in a list, so that
//! a deep term takes nothing of the stack.
ghost use Rattle.std.specs.Prelude.{◌≡◌, ◌++◌, ℕ, true, false, IfOk, OnOk, codes, [], ◌∷◌};
ghost use Rattle.std.specs.Fmt.{signed_decimal};
ghost use Rattle.lc_table.specs.Tables.{term_in, column_in, IsTerm, IsColumn};
ghost use Rattle.lc_table.specs.NodeTables.{Table};
ghost use Rattle.lc_text.specs.Spelling.{Spelled};
ghost use Rattle.lc_text.specs.Spelled.{spaced, spelled_term, spelled_column};
ghost use Rattle.lc_outline.specs.DevelopmentView.{development_view};
ghost use Rattle.lc_cond_text.specs.ConditionText.{spelled};
ghost use Rattle.lc_outline.specs.Development.{Development as Shown};
ghost use Rattle.lc_table.specs.declared.node.ColExprId.{ColExprId};
ghost use Rattle.lc_cond_text.specs.declared.term_text.Waiting.TheVariants.{Column};
ghost use Rattle.lc_cond_text.specs.Waiting.{is_simple, IsWaiting, AreWaiting, stored_text, waiting_text, GoesOn};

use crate::naming::column_name;
use crate::nodes::{
    push_affine, push_binder, push_end, push_integer, push_space, push_text, push_variable,
};
use lc_base::OutOfMemory;
use lc_outline::Development;
use lc_table::{ColExprId, TermId, TermNode, Terms};

// What is still to be written, after what waits above it.
#[derive(Clone, Copy)]
pub(crate) enum Waiting {
    Term(TermId),
    // A term after a space.
    Spaced(TermId),
    Column(ColExprId),
    // The index and the value of a store, each after a space, and the bracket that ends it.
    Stored(TermId, TermId),
    // The bracket that ends a part.
    End,
}

// Writes a term that has no parts; whether it has none.
fn push_simple(
    out: &mut Vec<u8>,
    terms: &Terms,
    depth: u64,
    term: TermId,
) -> Result<bool, OutOfMemory>
    requires { IsTerm terms.now term }
    ensures simple { IfOk result (λ simple. simple ≡ is_simple (term_in terms.now term)) }
    ensures written { (d : Shown) → IfOk result (λ simple. simple ≡ true → out.new.items ≡ out.old.items ++ spelled_term (spelled d) depth (term_in terms.now term)) }
    ensures nothing { IfOk result (λ simple. simple ≡ false → out.new.items ≡ out.old.items) }
{
    match terms.term_node(term) {
        TermNode::Number(number) => push_integer(out, number)?,
        TermNode::Variable(number) => push_variable(out, number)?,
        TermNode::Bound(number) => {
            let binder = depth.saturating_sub(1).saturating_sub(u64::from(number));
            push_binder(out, binder)?;
        }
        _ => return Ok(false),
    }
    Ok(true)
}

// Writes a term that has parts as far as its first part, and has its parts wait.
fn begin_parts(
    out: &mut Vec<u8>,
    waiting: &mut Vec<Waiting>,
    terms: &Terms,
    term: TermId,
) -> Result<(), OutOfMemory>
    requires term { IsTerm terms.now term }
    requires parts { is_simple (term_in terms.now term) ≡ false }
    requires waiting { AreWaiting terms.now waiting.old.items }
    ensures { (by : Spelled) (d : ℕ) → OnOk result (GoesOn by d terms.now out.old.items waiting.old.items (spelled_term by d (term_in terms.now term)) out.new.items waiting.new.items) }
{
    match terms.term_node(term) {
        TermNode::Add(left, right) => begin_pair(out, waiting, "(+ ", left, right),
        TermNode::Subtract(left, right) => begin_pair(out, waiting, "(- ", left, right),
        TermNode::Multiply(factor, term) => begin_product(out, waiting, factor, term),
        TermNode::Read(column, index) => begin_read(out, waiting, column, index),
        _ => unreachable!(),
    }
}

// Writes a term as far as its first part, and has its parts wait.
fn begin_term(
    out: &mut Vec<u8>,
    waiting: &mut Vec<Waiting>,
    terms: &Terms,
    depth: u64,
    term: TermId,
) -> Result<(), OutOfMemory>
    requires term { IsTerm terms.now term }
    requires waiting { AreWaiting terms.now waiting.old.items }
    ensures { (d : Shown) → OnOk result (GoesOn (spelled d) depth terms.now out.old.items waiting.old.items (spelled_term (spelled d) depth (term_in terms.now term)) out.new.items waiting.new.items) }
{
    if push_simple(out, terms, depth, term)? {
        return Ok(());
    }
    begin_parts(out, waiting, terms, term)
}

// Two terms in brackets, after a word.
fn begin_pair(
    out: &mut Vec<u8>,
    waiting: &mut Vec<Waiting>,
    word: &str,
    left: TermId,
    right: TermId,
) -> Result<(), OutOfMemory>
    ensures { (by : Spelled) (d : ℕ) (ts : Table) → IsTerm ts left → IsTerm ts right → AreWaiting ts waiting.old.items →
        OnOk result (GoesOn by d ts out.old.items waiting.old.items
        (word.now ++ spelled_term by d (term_in ts left) ++ spaced (spelled_term by d (term_in ts right)) ++ codes ")") out.new.items waiting.new.items) }
{
    push_text(out, word)?;
    waiting.extend_from_slice(&[Waiting::End, Waiting::Spaced(right), Waiting::Term(left)])?;
    Ok(())
}

// A number times a term.
fn begin_product(
    out: &mut Vec<u8>,
    waiting: &mut Vec<Waiting>,
    factor: i64,
    term: TermId,
) -> Result<(), OutOfMemory>
    ensures { (by : Spelled) (d : ℕ) (ts : Table) → IsTerm ts term → AreWaiting ts waiting.old.items →
        OnOk result (GoesOn by d ts out.old.items waiting.old.items
        (codes "(* " ++ signed_decimal factor ++ spaced (spelled_term by d (term_in ts term)) ++ codes ")") out.new.items waiting.new.items) }
{
    push_text(out, "(* ")?;
    push_integer(out, factor)?;
    waiting.extend_from_slice(&[Waiting::End, Waiting::Spaced(term)])?;
    Ok(())
}

// What a column expression has at an index.
fn begin_read(
    out: &mut Vec<u8>,
    waiting: &mut Vec<Waiting>,
    column: ColExprId,
    index: TermId,
) -> Result<(), OutOfMemory>
    ensures { (by : Spelled) (d : ℕ) (ts : Table) → IsColumn ts column → IsTerm ts index → AreWaiting ts waiting.old.items →
        OnOk result (GoesOn by d ts out.old.items waiting.old.items
        (codes "(rd " ++ spelled_column by d (column_in ts column) ++ spaced (spelled_term by d (term_in ts index)) ++ codes ")") out.new.items waiting.new.items) }
{
    push_text(out, "(rd ")?;
    waiting.extend_from_slice(&[
        Waiting::End,
        Waiting::Spaced(index),
        Waiting::Column(column),
    ])?;
    Ok(())
}

// A column expression with a value stored at an index: what is stored to is written next.
fn begin_store(
    out: &mut Vec<u8>,
    waiting: &mut Vec<Waiting>,
    index: TermId,
    value: TermId,
) -> Result<(), OutOfMemory>
    ensures { OnOk result ((by : Spelled) (d : ℕ) (ts : Table) (below : ColExprId) → IsTerm ts index → IsTerm ts value → IsColumn ts below → AreWaiting ts waiting.old.items →
        GoesOn by d ts out.old.items waiting.old.items
        (codes "(store " ++ spelled_column by d (column_in ts below) ++ spaced (spelled_term by d (term_in ts index)) ++ spaced (spelled_term by d (term_in ts value)) ++ codes ")")
        out.new.items (waiting.new.items ++ Column below ∷ [])) }
{
    push_text(out, "(store ")?;
    waiting.push(Waiting::Stored(index, value))?;
    Ok(())
}

// Writes the index and the value of a store, as far as they have no parts.
fn begin_stored(
    out: &mut Vec<u8>,
    waiting: &mut Vec<Waiting>,
    terms: &Terms,
    depth: u64,
    index: TermId,
    value: TermId,
) -> Result<(), OutOfMemory>
    requires index { IsTerm terms.now index }
    requires value { IsTerm terms.now value }
    requires waiting { AreWaiting terms.now waiting.old.items }
    ensures { (d : Shown) → OnOk result (GoesOn (spelled d) depth terms.now out.old.items waiting.old.items (stored_text (spelled d) depth terms.now index value) out.new.items waiting.new.items) }
{
    push_space(out)?;
    if !push_simple(out, terms, depth, index)? {
        waiting.extend_from_slice(&[Waiting::End, Waiting::Spaced(value), Waiting::Term(index)])?;
        return Ok(());
    }
    push_space(out)?;
    if !push_simple(out, terms, depth, value)? {
        waiting.extend_from_slice(&[Waiting::End, Waiting::Term(value)])?;
        return Ok(());
    }
    push_end(out)
}

// Writes a column expression down to what is below all its stores. What they store waits.
fn begin_column(
    out: &mut Vec<u8>,
    waiting: &mut Vec<Waiting>,
    terms: &Terms,
    development: &Development,
    column: ColExprId,
) -> Result<(), OutOfMemory>
    requires column { IsColumn terms.now column }
    requires waiting { AreWaiting terms.now waiting.old.items }
    ensures { let by = spelled (development_view development.now) in
        (d : ℕ) → OnOk result (GoesOn by d terms.now out.old.items waiting.old.items (spelled_column by d (column_in terms.now column)) out.new.items waiting.new.items) }
{
    let mut below = column;
    'stores: loop {
        match terms.column_node(below) {
            TermNode::Base(column) => return push_text(out, column_name(development, column)),
            TermNode::Affine(slope, start) => return push_affine(out, slope, start),
            TermNode::Store(stored_to, index, value) => {
                begin_store(out, waiting, index, value)?;
                below = stored_to;
            }
            _ => unreachable!(),
        }
    }
}

// Writes what waited above all.
fn go_on(
    out: &mut Vec<u8>,
    waiting: &mut Vec<Waiting>,
    terms: &Terms,
    development: &Development,
    depth: u64,
    next: Waiting,
) -> Result<(), OutOfMemory>
    requires next { IsWaiting terms.now next }
    requires waiting { AreWaiting terms.now waiting.old.items }
    ensures { let by = spelled (development_view development.now) in
        OnOk result (GoesOn by depth terms.now out.old.items waiting.old.items (waiting_text by depth terms.now (next ∷ [])) out.new.items waiting.new.items) }
{
    match next {
        Waiting::Term(term) => begin_term(out, waiting, terms, depth, term),
        Waiting::Spaced(term) => {
            push_space(out)?;
            begin_term(out, waiting, terms, depth, term)
        }
        Waiting::Column(column) => begin_column(out, waiting, terms, development, column),
        Waiting::Stored(index, value) => { begin_stored(out, waiting, terms, depth, index, value) }
        Waiting::End => push_end(out),
    }
}

// Whether a term has no parts.
fn is_simple(terms: &Terms, term: TermId) -> bool
    requires { IsTerm terms.now term }
    ensures { result ≡ is_simple (term_in terms.now term) }
{
    matches!(
        terms.term_node(term),
        TermNode::Number(_) | TermNode::Variable(_) | TermNode::Bound(_)
    )
}

// Writes a term that is what a column has at an index without parts, as most reads are; whether it is.
fn push_read(
    out: &mut Vec<u8>,
    terms: &Terms,
    development: &Development,
    depth: u64,
    term: TermId,
) -> Result<bool, OutOfMemory>
    requires { IsTerm terms.now term }
    ensures written { IfOk result (λ read. read ≡ true → out.new.items ≡ out.old.items ++ spelled_term (spelled (development_view development.now)) depth (term_in terms.now term)) }
    ensures nothing { IfOk result (λ read. read ≡ false → out.new.items ≡ out.old.items) }
{
    let TermNode::Read(column, index) = terms.term_node(term) else {
        return Ok(false);
    };
    let TermNode::Base(base) = terms.column_node(column) else {
        return Ok(false);
    };
    if !is_simple(terms, index) {
        return Ok(false);
    }
    push_text(out, "(rd ")?;
    push_text(out, column_name(development, base))?;
    push_space(out)?;
    push_simple(out, terms, depth, index)?;
    push_end(out)?;
    Ok(true)
}

// A term. No list of what waits is made if it has no parts, or is read of a column.
fn push_term(
    out: &mut Vec<u8>,
    terms: &Terms,
    development: &Development,
    depth: u64,
    term: TermId,
) -> Result<(), OutOfMemory>
    requires { IsTerm terms.now term }
    ensures { OnOk result (out.new.items ≡ out.old.items ++ spelled_term (spelled (development_view development.now)) depth (term_in terms.now term)) }
{
    if push_simple(out, terms, depth, term)? {
        return Ok(());
    }
    if push_read(out, terms, development, depth, term)? {
        return Ok(());
    }
    let mut waiting = Vec::new(*out.allocator());
    begin_parts(out, &mut waiting, terms, term)?;
    for _ in 0..u64::MAX {
        let Some(next) = waiting.pop() else {
            return Ok(());
        };
        go_on(out, &mut waiting, terms, development, depth, next)?;
    }
    Err(OutOfMemory)
}

/// Two terms in brackets, after a word.
pub(crate) fn push_pair(
    out: &mut Vec<u8>,
    terms: &Terms,
    development: &Development,
    depth: u64,
    word: &str,
    left: TermId,
    right: TermId,
) -> Result<(), OutOfMemory>
    requires left { IsTerm terms.now left }
    requires right { IsTerm terms.now right }
    ensures { let by = spelled (development_view development.now) in
        OnOk result (out.new.items ≡ out.old.items ++ (word.now ++ spelled_term by depth (term_in terms.now left) ++ spaced (spelled_term by depth (term_in terms.now right)) ++ codes ")")) }
{
    push_text(out, word)?;
    push_term(out, terms, development, depth, left)?;
    push_space(out)?;
    push_term(out, terms, development, depth, right)?;
    push_end(out)
}
