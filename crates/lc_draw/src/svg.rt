//! The elements of a drawing, as SVG text.
ghost use Rattle.std.specs.Prelude.{◌≡◌, ◌++◌, ◌∷◌, [], ℕ, List, Option, Some, true, OnOk, codes, length, map, option_map, string_bytes};
ghost use Rattle.std.specs.List.{flat_map};
ghost use Rattle.lc_history.specs.History.{count};
ghost use Rattle.lc_draw.specs.Drawings.{opening_text};
ghost use Rattle.lc_draw.specs.Elements.{HasWritten, IsWellFormed, are_plain, element_text};
ghost use Rattle.lc_draw.specs.Shapes as S;
ghost use Rattle.lc_draw.specs.Shapes.{bar_elements, bar_label, bar_line, bar_path, caption_element, class_of, close_of, cut_elements, cut_label, cut_line, lane_elements, lane_line, lane_name, mark_elements, mark_line, mark_place, order_element, point_text, sheet_element, style_element};

use crate::picture::{Judged, is_at_fault};
use crate::places::{Bar, Cut, Mark, is_held};
use crate::texts::Plain;
use indexmap::IndexMap;
use lc_base::OutOfMemory;
use std::alloc::Global;

/// The room left of all bars, for the names of the clients.
const LEFT: u64 = 96;

/// The room right of them.
const RIGHT: u64 = 24;

/// The room above the first lane, and below the last.
const ABOVE: u64 = 24;

const BELOW: u64 = 48;

/// The height of a lane, and of a bar, and where a bar begins in its lane.
const LANE: u64 = 56;

const BAR: u64 = 24;

const BAR_FROM: u64 = 18;

/// The least width of a drawing, so that what is said below it has room.
const LEAST: u64 = 640;

/// How far a drawing goes.
#[derive(Clone, Copy)]
pub(crate) struct Sheet {
    /// Where lanes end.
    until: u64,
    pub(crate) width: u64,
    pub(crate) height: u64,
}

/// Where a place is, this far to the right.
fn across_of(across: u64) -> u64 {
    across.saturating_add(LEFT)
}

/// Where a lane begins, from above.
fn top_of(lane: usize) -> u64 {
    (lane as u64).saturating_mul(LANE).saturating_add(ABOVE)
}

/// Where the bars of a lane begin, from above.
fn bar_top_of(lane: usize) -> u64 {
    top_of(lane).saturating_add(BAR_FROM)
}

/// The middle of the bars of a lane.
fn middle_of(lane: usize) -> u64 {
    bar_top_of(lane).saturating_add(BAR / 2)
}

impl Sheet {
    /// A sheet for so many lanes that go so far.
    pub(crate) fn new(across: u64, lanes: usize) -> Sheet {
        let until = across_of(across);
        Sheet {
            until,
            width: until.saturating_add(RIGHT).max(LEAST),
            height: top_of(lanes).saturating_add(BELOW),
        }
    }
}

/// Writes what comes before all elements.
pub(crate) fn begin_sheet(out: &mut String, width: u64, height: u64) -> Result<(), OutOfMemory>
    ensures { OnOk result (string_bytes out.new ≡ string_bytes out.old ++ opening_text width height) }
{
    write!(
        out,
        "<svg xmlns=\"http://www.w3.org/2000/svg\" width=\"{width}\" height=\"{height}\" viewBox=\"0 0 {width} {height}\">\n"
    )?;
    Ok(())
}

/// Colours that can be distinguished also by those who see no red or green; what is at fault has another line, too.
fn style() -> &'static str
    ensures { are_plain result.now ≡ true }
{
    ".sheet{fill:#ffffff}\
.lane{stroke:#999999;stroke-width:1}\
.bar{fill:#e1eef8;stroke:#0072b2;stroke-width:1.5}\
.fault{fill:#fdeadd;stroke:#d55e00;stroke-width:3;stroke-dasharray:7 3}\
.order{fill:none;stroke:#000000;stroke-width:1;stroke-dasharray:2 3}\
.mark{stroke:#000000;stroke-width:2}\
text{font-family:monospace;font-size:13px;fill:#000000}\
.place{font-size:11px;text-anchor:middle}"
}

fn write_style(out: &mut String, style: &str) -> Result<(), OutOfMemory>
    requires plain { are_plain style.now ≡ true }
    ensures text { OnOk result (string_bytes out.new ≡ string_bytes out.old ++ element_text (style_element style.now)) }
    ensures formed { OnOk result (IsWellFormed (style_element style.now)) }
{
    write!(out, "<style>{style}</style>\n")?;
    Ok(())
}

/// Writes how the classes of elements look.
pub(crate) fn push_style(out: &mut String) -> Result<(), OutOfMemory>
    ensures { OnOk result ((style : List ℕ) × HasWritten (style_element style ∷ []) (string_bytes out.old) (string_bytes out.new)) }
{
    write_style(out, style())?;
    Ok(())
}

/// Writes the sheet.
pub(crate) fn push_sheet(out: &mut String, width: u64, height: u64) -> Result<(), OutOfMemory>
    ensures text { OnOk result (string_bytes out.new ≡ string_bytes out.old ++ element_text (sheet_element width height)) }
    ensures formed { OnOk result (IsWellFormed (sheet_element width height)) }
{
    write!(
        out,
        "<rect class=\"sheet\" width=\"{width}\" height=\"{height}\"/>\n"
    )?;
    Ok(())
}

fn write_lane_name(out: &mut String, client: u32, under: u64) -> Result<(), OutOfMemory>
    ensures text { OnOk result (string_bytes out.new ≡ string_bytes out.old ++ element_text (lane_name client under)) }
    ensures formed { OnOk result (IsWellFormed (lane_name client under)) }
{
    write!(out, "<text x=\"8\" y=\"{under}\">client {client}</text>\n")?;
    Ok(())
}

fn write_lane_line(out: &mut String, middle: u64, until: u64) -> Result<(), OutOfMemory>
    ensures text { OnOk result (string_bytes out.new ≡ string_bytes out.old ++ element_text (lane_line middle until)) }
    ensures formed { OnOk result (IsWellFormed (lane_line middle until)) }
{
    write!(
        out,
        "<path class=\"lane\" d=\"M{LEFT} {middle}H{until}\"/>\n"
    )?;
    Ok(())
}

// Writes the lane of a client.
fn push_lane(out: &mut String, sheet: Sheet, lane: usize, client: u32) -> Result<(), OutOfMemory>
    ensures { OnOk result ((l : S.Lane) × HasWritten (lane_elements l) (string_bytes out.old) (string_bytes out.new)) }
{
    let middle = middle_of(lane);
    write_lane_name(out, client, middle.saturating_add(4))?;
    write_lane_line(out, middle, sheet.until)?;
    Ok(())
}

/// Writes the lanes of clients.
pub(crate) fn push_lanes(
    out: &mut String,
    sheet: Sheet,
    clients: &IndexMap<u32, u64>,
) -> Result<(), OutOfMemory>
    ensures { OnOk result ((ls : List S.Lane) × HasWritten (flat_map lane_elements ls) (string_bytes out.old) (string_bytes out.new)) }
{
    for lane in 0..clients.len() {
        let Some((client, _)) = clients.get_index(lane) else {
            return Ok(());
        };
        push_lane(out, sheet, lane, *client)?;
    }
    Ok(())
}

fn class_of(is_at_fault: bool) -> &'static str
    ensures is { result.now ≡ class_of is_at_fault }
    ensures plain { are_plain result.now ≡ true }
{
    if is_at_fault { "fault" } else { "bar" }
}

// A bar that is open goes round three sides.
fn close_of(is_closed: bool) -> &'static str
    ensures is { result.now ≡ close_of is_closed }
    ensures plain { are_plain result.now ≡ true }
{
    if is_closed { "z" } else { "" }
}

fn write_bar_path(
    out: &mut String,
    class: &str,
    close: &str,
    begins: u64,
    ends: u64,
    top: u64,
) -> Result<(), OutOfMemory>
    requires class { are_plain class.now ≡ true }
    requires close { are_plain close.now ≡ true }
    ensures text { OnOk result (string_bytes out.new ≡ string_bytes out.old ++ element_text (bar_path class.now close.now begins ends top)) }
    ensures formed { OnOk result (IsWellFormed (bar_path class.now close.now begins ends top)) }
{
    write!(out, "<path class=\"{class}\" d=\"M{ends} {top}")?;
    write!(out, "H{begins}v{BAR}")?;
    write!(out, "H{ends}{close}\"/>\n")?;
    Ok(())
}

fn write_bar_line(
    out: &mut String,
    is_at_fault: bool,
    is_closed: bool,
    begins: u64,
    ends: u64,
    top: u64,
) -> Result<(), OutOfMemory>
    ensures text { OnOk result (string_bytes out.new ≡ string_bytes out.old ++ element_text (bar_line is_at_fault is_closed begins ends top)) }
    ensures formed { OnOk result (IsWellFormed (bar_line is_at_fault is_closed begins ends top)) }
{
    let class = class_of(is_at_fault);
    let close = close_of(is_closed);
    write_bar_path(out, class, close, begins, ends, top)?;
    Ok(())
}

fn write_bar_label(out: &mut String, from: u64, under: u64, text: &str) -> Result<(), OutOfMemory>
    requires plain { are_plain text.now ≡ true }
    ensures text { OnOk result (string_bytes out.new ≡ string_bytes out.old ++ element_text (bar_label from under text.now)) }
    ensures formed { OnOk result (IsWellFormed (bar_label from under text.now)) }
{
    write!(out, "<text x=\"{from}\" y=\"{under}\">{text}</text>\n")?;
    Ok(())
}

// Writes the bar of a call.
fn push_bar(out: &mut String, bar: &Bar, is_at_fault: bool) -> Result<(), OutOfMemory>
    ensures { OnOk result ((b : S.Bar) × HasWritten (bar_elements b) (string_bytes out.old) (string_bytes out.new)) }
{
    let begins = across_of(bar.begins);
    let ends = across_of(bar.ends);
    let top = bar_top_of(bar.lane);
    let is_closed = bar.returned_at.is_some();
    write_bar_line(out, is_at_fault, is_closed, begins, ends, top)?;
    write_bar_label(
        out,
        begins.saturating_add(6),
        top.saturating_add(16),
        bar.text.as_str(),
    )?;
    Ok(())
}

/// Writes the bars that are held. What is at fault is by where the fault is.
pub(crate) fn push_bars(
    out: &mut String,
    bars: &[Bar],
    held: &[bool],
    judged: Judged,
    from: usize,
) -> Result<(), OutOfMemory>
    requires { length bars.now ≡ length held.now }
    ensures { OnOk result ((bs : List S.Bar) × (length bs ≡ count (λ is. is) held.now) × HasWritten (flat_map bar_elements bs) (string_bytes out.old) (string_bytes out.new)) }
{
    for (number, bar) in bars.iter().enumerate() {
        if is_held(held, number) {
            push_bar(out, bar, is_at_fault(bar, judged, from))?;
        }
    }
    Ok(())
}

fn write_mark_line(out: &mut String, across: u64, top: u64) -> Result<(), OutOfMemory>
    ensures text { OnOk result (string_bytes out.new ≡ string_bytes out.old ++ element_text (mark_line across top)) }
    ensures formed { OnOk result (IsWellFormed (mark_line across top)) }
{
    write!(out, "<path class=\"mark\" d=\"M{across} {top}v10\"/>\n")?;
    Ok(())
}

fn write_mark_place(
    out: &mut String,
    place: usize,
    across: u64,
    over: u64,
) -> Result<(), OutOfMemory>
    ensures text { OnOk result (string_bytes out.new ≡ string_bytes out.old ++ element_text (mark_place place across over)) }
    ensures formed { OnOk result (IsWellFormed (mark_place place across over)) }
{
    write!(
        out,
        "<text class=\"place\" x=\"{across}\" y=\"{over}\">{place}</text>\n"
    )?;
    Ok(())
}

// Writes the mark of an entry. It reaches into the bar from above, so far that it crosses no text.
fn push_mark(out: &mut String, mark: Mark) -> Result<(), OutOfMemory>
    ensures { OnOk result ((m : S.Mark) × (m.place ≡ mark.place) × HasWritten (mark_elements m) (string_bytes out.old) (string_bytes out.new)) }
{
    let across = across_of(mark.across);
    let top = bar_top_of(mark.lane).saturating_sub(6);
    write_mark_line(out, across, top)?;
    write_mark_place(out, mark.place, across, top.saturating_sub(2))?;
    Ok(())
}

fn write_point(out: &mut String, across: u64, top: u64) -> Result<(), OutOfMemory>
    ensures text { OnOk result (string_bytes out.new ≡ string_bytes out.old ++ point_text (across, top)) }
    ensures plain { OnOk result (are_plain (point_text (across, top)) ≡ true) }
{
    write!(out, "{across},{top} ")?;
    Ok(())
}

// Writes where marks are.
fn push_points(out: &mut String, marks: &[Mark]) -> Result<(), OutOfMemory>
    ensures { OnOk result ((points : List (ℕ × ℕ)) × (string_bytes out.new ≡ string_bytes out.old ++ flat_map point_text points) × (are_plain (flat_map point_text points) ≡ true)) }
{
    for mark in marks {
        write_point(out, across_of(mark.across), bar_top_of(mark.lane))?;
    }
    Ok(())
}

/// Writes the line from mark to mark.
pub(crate) fn push_order(out: &mut String, marks: &[Mark]) -> Result<(), OutOfMemory>
    ensures { OnOk result ((points : List (ℕ × ℕ)) × HasWritten (order_element points ∷ []) (string_bytes out.old) (string_bytes out.new)) }
{
    out.push_str("<polyline class=\"order\" points=\"")?;
    push_points(out, marks)?;
    out.push_str("\"/>\n")?;
    Ok(())
}

/// Writes the marks of all entries.
pub(crate) fn push_marks(out: &mut String, marks: &[Mark]) -> Result<(), OutOfMemory>
    ensures { OnOk result ((ms : List S.Mark) × (map (λ (m : S.Mark). m.place) ms ≡ map (λ mark. mark.place) marks.now) × HasWritten (flat_map mark_elements ms) (string_bytes out.old) (string_bytes out.new)) }
{
    for mark in marks {
        push_mark(out, *mark)?;
    }
    Ok(())
}

fn write_cut_line(out: &mut String, across: u64, top: u64, until: u64) -> Result<(), OutOfMemory>
    ensures text { OnOk result (string_bytes out.new ≡ string_bytes out.old ++ element_text (cut_line across top until)) }
    ensures formed { OnOk result (IsWellFormed (cut_line across top until)) }
{
    write!(
        out,
        "<path class=\"fault\" d=\"M{across} {top}V{until}\"/>\n"
    )?;
    Ok(())
}

fn write_cut_label(
    out: &mut String,
    number: usize,
    across: u64,
    over: u64,
) -> Result<(), OutOfMemory>
    ensures text { OnOk result (string_bytes out.new ≡ string_bytes out.old ++ element_text (cut_label number across over)) }
    ensures formed { OnOk result (IsWellFormed (cut_label number across over)) }
{
    write!(
        out,
        "<text class=\"place\" x=\"{across}\" y=\"{over}\">event {number}</text>\n"
    )?;
    Ok(())
}

// Writes the line behind an event, through all lanes, and the number of the event over it.
fn write_cut(out: &mut String, sheet: Sheet, cut: Cut) -> Result<(), OutOfMemory>
    ensures { OnOk result ((c : S.Cut) × (c.number ≡ cut.number) × HasWritten (cut_elements (Some c)) (string_bytes out.old) (string_bytes out.new)) }
{
    let across = across_of(cut.across);
    let until = sheet.height.saturating_sub(BELOW);
    let over = ABOVE.saturating_sub(6);
    write_cut_line(out, across, ABOVE, until)?;
    write_cut_label(out, cut.number, across, over)?;
    Ok(())
}

/// Writes the line behind an event, if there is one.
pub(crate) fn push_cut(out: &mut String, sheet: Sheet, cut: Option<Cut>) -> Result<(), OutOfMemory>
    ensures { OnOk result ((c : Option S.Cut) × (option_map (λ (its : S.Cut). its.number) c ≡ option_map (λ its. its.number) cut) × HasWritten (cut_elements c) (string_bytes out.old) (string_bytes out.new)) }
{
    let Some(its) = cut else {
        return Ok(());
    };
    write_cut(out, sheet, its)?;
    Ok(())
}

fn write_caption(out: &mut String, above: u64, text: &str) -> Result<(), OutOfMemory>
    requires plain { are_plain text.now ≡ true }
    ensures text { OnOk result (string_bytes out.new ≡ string_bytes out.old ++ element_text (caption_element above text.now)) }
    ensures formed { OnOk result (IsWellFormed (caption_element above text.now)) }
{
    write!(out, "<text x=\"8\" y=\"{above}\">{text}</text>\n")?;
    Ok(())
}

// What is said of the order.
fn caption(alloc: Global, judged: Judged) -> Result<Plain, OutOfMemory> {
    let text = Plain::new(alloc);
    match judged {
        Judged::Linearizes => {
            text.word("linearizable: each call takes place at its mark, in the order of the marks")
        }
        Judged::Fails { place, reason } => {
            let said = format!(in alloc; "not linearized at place {place}: {reason}")?;
            text.word(said.as_str())
        }
        Judged::Unordered(number) => {
            let said = format!(in alloc;
                "not linearizable: no order linearizes the first {number} events"
            )?;
            text.word(said.as_str())
        }
        Judged::Orderless => text.word("nothing is said: no order is known"),
        Judged::LeavesNumbers => {
            text.word("nothing is said: a number that the specification reaches leaves 64 bits")
        }
    }
}

/// Writes below the lanes what is said of the order.
pub(crate) fn push_caption(
    alloc: Global,
    out: &mut String,
    sheet: Sheet,
    judged: Judged,
) -> Result<(), OutOfMemory>
    ensures { OnOk result ((above : ℕ) × (text : List ℕ) × HasWritten (caption_element above text ∷ []) (string_bytes out.old) (string_bytes out.new)) }
{
    let text = caption(alloc, judged)?;
    write_caption(out, sheet.height.saturating_sub(20), text.as_str())?;
    Ok(())
}

/// Writes what comes after all elements.
pub(crate) fn end_sheet(out: &mut String) -> Result<(), OutOfMemory>
    ensures { OnOk result (string_bytes out.new ≡ string_bytes out.old ++ codes "</svg>\n") }
{
    out.push_str("</svg>\n")?;
    Ok(())
}
