//! The end of a page of a trace, with its script.

/// What stands behind the lines of a trace: what draws them, and what it answers to.
pub(crate) const STEPS_TAIL: &[u8] = b"</script>
<script>
'use strict';
(() => {
const by = id => document.getElementById(id);
// numbers beyond 2^53 stay text, so that none is rounded
const exact = line => JSON.parse(line.replace(/([,:[])(-?[0-9]{16,})(?=[,\\x5d}])/g, (all, before, digits) => before + JSON.stringify(digits)));
const said = by('data').textContent.split('\\n').filter(line => line !== '');
const steps = said.filter(line => line[0] === '[').map(exact), notes = said.filter(line => line[0] !== '[');

// ---- steps, lanes and marks

const kindOf = step => step.length > 5 ? 'call' : Array.isArray(step[2]) ? 'return' : 'step';
const marksOf = step => step[step.length - 2], cellsOf = step => step[step.length - 1];
const entryOf = mark => mark[0] === 'note' ? mark[1] : mark;
const clients = [...new Set(steps.map(step => step[0]).concat(steps.flatMap(step => marksOf(step).map(mark => entryOf(mark)[0]))))].sort((a, b) => a - b);
const rowOf = new Map(clients.map((client, row) => [client, row]));
// the steps of each client, and for each step the call that it is of
const lanes = new Map(clients.map(client => [client, []])), callOf = [], callNow = new Map();
// each mark with its step and its entry; a note comes into the order if it is the last of a call that returns without a mark
const marks = [], noted = new Map();
for (let at = 0; at < steps.length; at += 1) {
  const step = steps[at], client = step[0], kind = kindOf(step);
  lanes.get(client).push(at);
  if (kind === 'call') { callNow.set(client, { client, name: step[2], args: step[3], begin: at, end: null }); noted.delete(client); }
  const call = callNow.get(client) || null;
  callOf.push(call);
  for (const mark of marksOf(step)) {
    const isNote = mark[0] === 'note', one = { at, entry: entryOf(mark), isNote, counts: !isNote, place: null };
    marks.push(one);
    if (!isNote || !noted.has(one.entry[0]) || noted.get(one.entry[0]).isNote) noted.set(one.entry[0], one);
  }
  if (kind === 'return') {
    if (call) call.end = at;
    if (noted.has(client)) noted.get(client).counts = true;
    callNow.delete(client);
    noted.delete(client);
  }
}
const order = marks.filter(mark => mark.counts);
order.forEach((mark, place) => { mark.place = place; });
const calls = [...new Set(callOf.filter(call => call !== null))];
const marksAt = new Map();
for (const mark of marks) { if (!marksAt.has(mark.at)) marksAt.set(mark.at, []); marksAt.get(mark.at).push(mark); }

// ---- the cells

const cells = new Map(), undone = [];
let reached = 0;
function moveTo(at) {
  while (reached < at) {
    const old = [];
    for (const [column, index, value] of cellsOf(steps[reached])) {
      const key = column + '[' + index + ']';
      old.push([key, cells.get(key)]);
      cells.set(key, String(value));
    }
    undone[reached] = old;
    reached += 1;
  }
  while (reached > at) {
    reached -= 1;
    for (const [key, value] of undone[reached].reverse()) { if (value === undefined) cells.delete(key); else cells.set(key, value); }
  }
}

// ---- texts

const numbers = ns => ns.join(', ');
const head = call => call.name + '(' + numbers(call.args) + ')';
function label(at) {
  const step = steps[at], kind = kindOf(step);
  return kind === 'call' ? head(callOf[at]) : kind === 'return' ? 'returns ' + (step[2].length ? numbers(step[2]) : '') : step[1] + ' ' + step[2];
}
function told(at) {
  const step = steps[at], kind = kindOf(step), call = callOf[at], lines = ['step ' + at + ', client ' + step[0]];
  lines.push(kind === 'call' ? 'calls ' + head(call) : kind === 'return' ? 'returns ' + (step[2].length ? numbers(step[2]) : 'no number') : 'at ' + step[1] + ' the edge ' + step[2]);
  if (call && kind !== 'call') lines.push('of ' + head(call) + ', called at step ' + call.begin);
  for (const mark of marksAt.get(at) || []) {
    const entry = mark.entry;
    lines.push((mark.place === null ? 'a note without a place in the order' : (mark.isNote ? 'noted, ' : '') + 'place ' + mark.place + ' of the order') + ': client ' + entry[0] + ', ' + entry[1] + '(' + numbers(entry[2]) + ')' + (entry[3].length ? ' = ' + numbers(entry[3]) : '')
      + (entry.length > 4 ? ' by ' + entry[4][0] + '(' + numbers(entry[4][1]) + ')' : ''));
  }
  return lines.join('\\n');
}
document.title = 'Trace';
by('verdict').textContent = notes.join(', ');
by('verdict').className = notes.length && notes[0].startsWith('linearizable') ? 'good' : '';
by('counts').textContent = clients.length + ' clients, ' + calls.length + ' calls, ' + steps.length + ' steps, ' + order.length + ' entries';
by('fault').style.display = 'none';
by('pending').textContent = 'next mark';
by('pending').title = 'm';
by('pending').disabled = marks.length === 0;
by('last').textContent = 'last step';
by('next').textContent = 'next step';

// ---- drawing: what is in view alone

const NAMES = 92, TOP = 26, LANE = 58, BAR = 24, scroll = by('scroll'), screen = by('screen'), size = by('size'), pen = screen.getContext('2d');
let unit = Math.max(0.02, Math.min(90, 1100 / Math.max(1, steps.length))), chosen = null, asked = false, drawn = 0;
if (steps.length <= 2000) unit = Math.max(unit, 60);
const styles = getComputedStyle(document.documentElement), colour = name => styles.getPropertyValue('--' + name);
const across = at => NAMES + at * unit - scroll.scrollLeft;
const topOf = row => TOP + row * LANE + 24 - scroll.scrollTop;
function resize() {
  size.style.width = NAMES + (steps.length + 1) * unit + 'px';
  size.style.height = TOP + clients.length * LANE + 12 + 'px';
  const wide = scroll.clientWidth, high = scroll.clientHeight, dense = window.devicePixelRatio || 1;
  screen.width = wide * dense;
  screen.height = high * dense;
  screen.style.width = wide + 'px';
  screen.style.height = high + 'px';
  pen.setTransform(dense, 0, 0, dense, 0, 0);
  ask();
}
// the first of a sorted list of which a test holds
function first(list, test) {
  let low = 0, high = list.length;
  while (low < high) { const half = low + high >> 1; if (test(list[half])) high = half; else low = half + 1; }
  return low;
}
function words(text, x, y, ink) {
  pen.lineWidth = 3;
  pen.strokeStyle = colour('paper');
  pen.strokeText(text, x, y);
  pen.fillStyle = ink;
  pen.fillText(text, x, y);
}
function fitted(text, room) {
  if (pen.measureText(text).width <= room) return text;
  const kept = Math.floor(room / 7) - 1;
  return kept < 1 ? '' : text.slice(0, kept) + '\\u2026';
}
function drawLane(row, left, right, wide, texts) {
  const lane = lanes.get(clients[row]), top = topOf(row);
  pen.strokeStyle = colour('line');
  pen.lineWidth = 1;
  pen.beginPath();
  pen.moveTo(NAMES, top + BAR / 2);
  pen.lineTo(wide, top + BAR / 2);
  pen.stroke();
  let filled = -1;
  for (let n = first(lane, at => at + 1 >= left); n < lane.length && lane[n] <= right; n += 1) {
    const at = lane[n], from = across(at), to = across(at + 1), own = chosen === at, kind = kindOf(steps[at]);
    if (to - filled < 1 && !own) continue;
    filled = to;
    drawn += 1;
    pen.fillStyle = colour(own ? 'chosen' : kind === 'step' ? 'bar' : 'panel');
    pen.strokeStyle = colour('edge');
    pen.lineWidth = 1;
    pen.fillRect(from, top, Math.max(1, to - from), BAR);
    if (to - from > 3) pen.strokeRect(from + 0.5, top + 0.5, to - from - 1, BAR - 1);
    const start = Math.max(from, NAMES), room = Math.min(to, wide) - start - 8;
    if (room > 12) texts.push([label(at), start + 4, top + BAR - 7, room]);
  }
}
// a mark is in the lane of the client of its entry, in the middle of its step
function drawMarks(left, right, texts) {
  for (let n = first(marks, mark => mark.at + 1 >= left); n < marks.length && marks[n].at <= right; n += 1) {
    const mark = marks[n], own = mark.at === chosen, x = across(mark.at + 0.5), y = topOf(rowOf.get(mark.entry[0]));
    if (unit < 4 && !own) continue;
    pen.strokeStyle = colour(mark.place === null ? 'soft' : 'order');
    pen.lineWidth = own ? 4 : 2;
    pen.beginPath();
    pen.moveTo(x, y - 5);
    pen.lineTo(x, y + 5);
    pen.stroke();
    if (mark.place !== null && (unit >= 8 || own)) texts.push([String(mark.place), x, y - 8]);
  }
}
function draw() {
  asked = false;
  drawn = 0;
  const wide = scroll.clientWidth, high = scroll.clientHeight;
  pen.clearRect(0, 0, wide, high);
  pen.font = '12px system-ui, sans-serif';
  const left = scroll.scrollLeft / unit - 1, right = (scroll.scrollLeft + wide - NAMES) / unit + 1;
  const rowFrom = Math.max(0, Math.floor((scroll.scrollTop - TOP) / LANE)), rowTo = Math.min(clients.length, Math.ceil((scroll.scrollTop + high) / LANE) + 1);
  pen.save();
  pen.beginPath();
  pen.rect(NAMES, TOP, wide - NAMES, high - TOP);
  pen.clip();
  const texts = [], places = [];
  for (let row = rowFrom; row < rowTo; row += 1) drawLane(row, left, right, wide, texts);
  drawMarks(left, right, places);
  pen.textAlign = 'left';
  for (const [text, x, y, room] of texts) { const shown = fitted(text, room); if (shown) words(shown, x, y, colour('ink')); }
  pen.textAlign = 'center';
  const until = new Map();
  for (const [text, x, y] of places) {
    const half = pen.measureText(text).width / 2 + 2;
    if ((until.get(y) ?? -1e9) > x - half) continue;
    until.set(y, x + half);
    words(text, x, y, colour('order'));
  }
  pen.restore();
  pen.textAlign = 'left';
  pen.fillStyle = colour('panel');
  pen.fillRect(0, 0, NAMES - 6, high);
  pen.fillStyle = colour('ink');
  for (let row = rowFrom; row < rowTo; row += 1) if (topOf(row) + BAR > TOP) pen.fillText('client ' + clients[row], 10, topOf(row) + BAR - 7);
  pen.fillStyle = colour('panel');
  pen.fillRect(0, 0, wide, TOP - 4);
  pen.fillStyle = colour('soft');
  const apart = [1, 2, 5, 10, 20, 50, 100, 200, 500, 1000, 2000, 5000, 10000, 20000, 50000].find(n => n * unit >= 70) || 100000;
  for (let at = Math.max(0, Math.ceil(left / apart) * apart); at <= right && at < steps.length; at += apart) if (across(at) >= NAMES - 1) pen.fillText(String(at), across(at), TOP - 10);
  pen.fillText('step', 10, TOP - 10);
}
function inView() {
  const left = scroll.scrollLeft / unit - 1, right = (scroll.scrollLeft + scroll.clientWidth - NAMES) / unit + 1;
  return steps.filter((step, at) => at + 1 >= left && at <= right).length;
}
function ask() { if (!asked) { asked = true; requestAnimationFrame(draw); } }

// ---- what is chosen

function row(table, texts, name, kind) {
  const line = document.createElement('tr');
  for (const text of texts) { const cell = document.createElement(kind || 'td'); cell.textContent = text; line.append(cell); }
  if (name) line.className = name;
  table.append(line);
}
function showPanel() {
  const panel = by('panel');
  panel.replaceChildren();
  by('place').textContent = chosen === null ? 'no step' : 'step ' + chosen;
  const about = document.createElement('p');
  if (chosen === null) {
    about.className = 'soft';
    about.textContent = 'A click on a step, or the arrow keys, choose a step: what it is, which entries of the order its marks make, and which cells it changes. '
      + 'm leads to the next mark, Home and End to the first and last step, + and - zoom.';
    panel.append(about);
    return;
  }
  about.style.whiteSpace = 'pre-line';
  about.textContent = told(chosen);
  panel.append(about);
  const table = document.createElement('table'), changed = new Map();
  row(table, ['cell', 'before', 'after'], '', 'th');
  moveTo(chosen);
  const before = new Map(cells);
  for (const [column, index, value] of cellsOf(steps[chosen])) changed.set(column + '[' + index + ']', String(value));
  const keys = [...new Set([...changed.keys(), ...before.keys()])], near = keys.slice(0, 300);
  for (const key of near) { const old = before.has(key) ? before.get(key) : 'as at the start'; row(table, [key, old, changed.has(key) ? changed.get(key) : old], changed.has(key) ? 'changed' : ''); }
  panel.append(table);
  const note = document.createElement('p');
  note.className = 'soft';
  note.textContent = (near.length < keys.length ? keys.length - near.length + ' more cells. ' : '') + 'Cells that no step has changed so far are left out.';
  panel.append(note);
}
function bring(at) {
  const x = NAMES + at * unit, y = TOP + rowOf.get(steps[at][0]) * LANE, wide = scroll.clientWidth, high = scroll.clientHeight;
  if (x < scroll.scrollLeft + NAMES + 20 || x > scroll.scrollLeft + wide - 60) scroll.scrollLeft = x - wide / 2;
  if (y < scroll.scrollTop + TOP || y + LANE > scroll.scrollTop + high) scroll.scrollTop = y - high / 2;
}
function choose(at) {
  if (steps.length === 0) return;
  chosen = Math.max(0, Math.min(steps.length - 1, at));
  bring(chosen);
  showPanel();
  ask();
}
function nextMark() { if (marks.length) { const next = first(marks, mark => mark.at > (chosen === null ? -1 : chosen)); choose(marks[next < marks.length ? next : 0].at); } }
function zoom(by, at) {
  const x = at === undefined ? (scroll.clientWidth + NAMES) / 2 : at, here = (scroll.scrollLeft + x - NAMES) / unit;
  unit = Math.max(0.005, Math.min(400, 8000000 / Math.max(1, steps.length), unit * by));
  resize();
  scroll.scrollLeft = here * unit - x + NAMES;
}
const move = by => choose(chosen === null ? (by > 0 ? 0 : steps.length - 1) : chosen + by);
by('next').onclick = () => move(1);
by('last').onclick = () => move(-1);
by('pending').onclick = nextMark;
by('in').onclick = () => zoom(1.5);
by('out').onclick = () => zoom(1 / 1.5);
document.addEventListener('keydown', event => {
  const keys = { ArrowRight: () => move(1), ArrowLeft: () => move(-1), n: () => move(1), p: () => move(-1), Home: () => choose(0), End: () => choose(steps.length - 1),
    m: nextMark, '+': () => zoom(1.5), '=': () => zoom(1.5), '-': () => zoom(1 / 1.5) };
  if (event.ctrlKey || event.metaKey || event.altKey || !keys[event.key]) return;
  event.preventDefault();
  keys[event.key]();
});
function stepAt(event) {
  const box = scroll.getBoundingClientRect(), x = event.clientX - box.left, y = event.clientY - box.top + scroll.scrollTop - TOP;
  const client = clients[Math.floor(y / LANE)], at = Math.floor((x + scroll.scrollLeft - NAMES) / unit);
  return x >= NAMES && event.clientY - box.top >= TOP && at >= 0 && at < steps.length && steps[at][0] === client ? at : null;
}
scroll.addEventListener('mousemove', event => {
  const at = stepAt(event), tip = by('tip');
  tip.style.display = at === null ? 'none' : 'block';
  if (at === null) return;
  tip.textContent = told(at);
  tip.style.left = Math.min(event.clientX + 14, window.innerWidth - tip.offsetWidth - 8) + 'px';
  tip.style.top = Math.min(event.clientY + 14, window.innerHeight - tip.offsetHeight - 8) + 'px';
});
scroll.addEventListener('mouseleave', () => { by('tip').style.display = 'none'; });
scroll.addEventListener('click', event => { const at = stepAt(event); if (at !== null) choose(at); });
scroll.addEventListener('scroll', ask);
scroll.addEventListener('wheel', event => { if (event.ctrlKey) { event.preventDefault(); zoom(event.deltaY < 0 ? 1.2 : 1 / 1.2, event.offsetX); } }, { passive: false });
window.addEventListener('resize', resize);
// for those who test the page
window.lincheck = { choose, zoom, draw, told, steps, marks, order, across, topOf, rowOf, drawn: () => drawn, inView, stateAt: at => { moveTo(at); return new Map(cells); } };
resize();
showPanel();
draw();
document.body.dataset.took = Math.round(performance.now());
})();
</script>
</body>
</html>
";
