//! The end of a page, with its script.

/// What stands behind the data: what draws it, and what it answers to.
pub(crate) const TAIL: &[u8] = b"</script>
<script>
'use strict';
(() => {
const by = id => document.getElementById(id);
// numbers beyond 2^53 stay text, so that none is rounded
const data = JSON.parse(by('data').textContent.replace(/([,:[])(-?[0-9]{16,})(?=[,\\x5d}])/g, (all, before, digits) => before + JSON.stringify(digits)));
const events = data.history.events, order = data.history.order, columns = data.columns, steps = data.steps;
const [code, place] = data.judged, isRefused = code >= 1 && code <= 5, faultAt = isRefused ? place : -1;
const reasons = ['', 'the entry is not its client\\u2019s call of this number', 'the call returned another reply', 'a call that returned has no entry',
  'the object does not give this reply here', 'the call of a later entry precedes this one'];

// ---- calls, lanes and marks

const lanes = new Map(), calls = [];
for (let at = 0; at < events.length; at += 1) {
  const [client, what] = events[at];
  if (!lanes.has(client)) lanes.set(client, []);
  const lane = lanes.get(client);
  if (what === 'call') {
    const call = { number: calls.length, client, name: events[at][2], args: events[at][3], begin: at, end: null, reply: null, place: null };
    calls.push(call);
    lane.push(call);
  } else {
    const call = lane[lane.length - 1];
    call.end = at;
    call.reply = events[at][2];
  }
}
const clients = [...lanes.keys()].sort((a, b) => a - b);
const rowOf = new Map(clients.map((client, row) => [client, row]));
const taken = new Map(), callOf = [];
for (let place = 0; place < order.length; place += 1) {
  const client = order[place][0], turn = taken.get(client) || 0, call = (lanes.get(client) || [])[turn];
  taken.set(client, turn + 1);
  callOf.push(call || null);
  if (call) call.place = place;
}
const untilOf = call => call.end === null ? events.length : call.end;
// A mark is between two events, not before the mark of the entry before it as long as its call goes so far.
const slots = [], spots = [];
let slot = 0;
for (const call of callOf) {
  if (call) slot = Math.min(Math.max(slot, call.begin), Math.max(call.begin, untilOf(call) - 1));
  slots.push(slot);
}
for (let from = 0; from < slots.length;) {
  let to = from;
  while (to < slots.length && slots[to] === slots[from]) to += 1;
  for (let place = from; place < to; place += 1) spots.push(slots[from] + (place - from + 1) / (to - from + 1));
  from = to;
}
const pending = calls.filter(call => call.end === null);
const missing = calls.find(call => call.end !== null && call.place === null);
const preceded = code === 5 && callOf[faultAt] ? callOf[faultAt].begin : 0;
const isAtFault = call => isRefused
  && (call.place === null ? code === 3 && call.end !== null : call.place === faultAt || call.place > faultAt && call.end !== null && call.end < preceded);

// ---- the state of the specification

const initial = (column, index) => String(BigInt(columns[column][1]) * BigInt(index) + BigInt(columns[column][2]));
const cells = new Map(), undone = [];
let reached = 0;
function moveTo(place) {
  while (reached < place) {
    const old = [];
    for (const [column, index, value] of steps[reached]) {
      const key = column + ':' + index;
      old.push([key, cells.get(key)]);
      cells.set(key, String(value));
    }
    undone[reached] = old;
    reached += 1;
  }
  while (reached > place) {
    reached -= 1;
    for (const [key, value] of undone[reached].reverse()) { if (value === undefined) cells.delete(key); else cells.set(key, value); }
  }
}
const cellText = key => { const [column, index] = key.split(':'); return columns[column][0] + '[' + index + ']'; };
const numberIn = key => cells.has(key) ? cells.get(key) : initial(...key.split(':'));

// ---- texts

const numbers = ns => ns.join(', ');
const head = call => call.name + '(' + numbers(call.args) + ')';
const label = call => head(call) + (call.reply && call.reply.length ? ' = ' + numbers(call.reply) : '');
function told(call) {
  const lines = ['client ' + call.client + ': ' + head(call), 'begins at event ' + call.begin];
  lines.push(call.end === null ? 'has not returned' : 'returns ' + (call.reply.length ? numbers(call.reply) : 'no number') + ' at event ' + call.end);
  lines.push(call.place === null ? 'has no place in the order' : 'place ' + call.place + ' of the order');
  if (call.place !== null && order[call.place].length > 4) lines.push('by ' + order[call.place][4][0] + '(' + numbers(order[call.place][4][1]) + ')');
  return lines.join('\\n');
}
const verdict = code === 0 ? 'linearizable' : code === 6 ? 'a number leaves 64 bits' : 'no linearization, at place ' + faultAt + ': ' + reasons[code];
by('verdict').textContent = verdict;
by('verdict').className = code === 0 ? 'good' : 'bad';
by('counts').textContent = clients.length + ' clients, ' + calls.length + ' calls, ' + events.length + ' events, ' + order.length + ' entries';
by('pending').textContent = pending.length + ' pending';
by('pending').disabled = pending.length === 0;
by('fault').disabled = !isRefused;

// ---- drawing: what is in view alone

const NAMES = 92, TOP = 26, LANE = 58, BAR = 24, scroll = by('scroll'), screen = by('screen'), size = by('size'), pen = screen.getContext('2d');
let unit = Math.max(0.02, Math.min(48, 1100 / Math.max(1, events.length))), chosen = null, asked = false, drawn = 0;
if (events.length <= 2000) unit = Math.max(unit, 34);
const styles = getComputedStyle(document.documentElement), colour = name => styles.getPropertyValue('--' + name);
const across = at => NAMES + at * unit - scroll.scrollLeft;
const topOf = row => TOP + row * LANE + 24 - scroll.scrollTop;
function resize() {
  size.style.width = NAMES + (events.length + 1) * unit + 'px';
  size.style.height = TOP + clients.length * LANE + 12 + 'px';
  const wide = scroll.clientWidth, high = scroll.clientHeight, dense = window.devicePixelRatio || 1;
  screen.width = wide * dense;
  screen.height = high * dense;
  screen.style.width = wide + 'px';
  screen.style.height = high + 'px';
  pen.setTransform(dense, 0, 0, dense, 0, 0);
  ask();
}
// the first of a sorted list of which a test holds
function first(list, test) {
  let low = 0, high = list.length;
  while (low < high) { const half = low + high >> 1; if (test(list[half])) high = half; else low = half + 1; }
  return low;
}
function words(text, x, y, ink) {
  pen.lineWidth = 3;
  pen.strokeStyle = colour('paper');
  pen.strokeText(text, x, y);
  pen.fillStyle = ink;
  pen.fillText(text, x, y);
}
function fitted(text, room) {
  if (pen.measureText(text).width <= room) return text;
  const kept = Math.floor(room / 7) - 1;
  return kept < 1 ? '' : text.slice(0, kept) + '\\u2026';
}
function drawLane(row, left, right, wide, texts) {
  const lane = lanes.get(clients[row]), top = topOf(row);
  pen.strokeStyle = colour('line');
  pen.lineWidth = 1;
  pen.beginPath();
  pen.moveTo(NAMES, top + BAR / 2);
  pen.lineTo(wide, top + BAR / 2);
  pen.stroke();
  let filled = -1;
  for (let n = first(lane, call => untilOf(call) >= left); n < lane.length && lane[n].begin <= right; n += 1) {
    const call = lane[n], from = across(call.begin), to = across(untilOf(call)), bad = isAtFault(call), own = chosen !== null && callOf[chosen] === call;
    if (to - filled < 1 && !bad && !own) continue;
    filled = to;
    drawn += 1;
    pen.fillStyle = colour(own ? 'chosen' : bad ? 'fault' : 'bar');
    pen.strokeStyle = colour(bad ? 'red' : 'edge');
    pen.fillRect(from, top, Math.max(1, to - from), BAR);
    if (to - from > 3) {
      pen.beginPath();
      pen.moveTo(to, top);
      pen.lineTo(from, top);
      pen.lineTo(from, top + BAR);
      pen.lineTo(to, top + BAR);
      if (call.end !== null) pen.closePath();
      pen.stroke();
    }
    const start = Math.max(from, NAMES), room = Math.min(to, wide) - start - 10;
    if (room > 12) texts.push([call, start + 5, top + BAR - 7, room]);
  }
}
function drawMarks(left, right, wide, high, texts) {
  let low = 0, past = spots.length;
  if (code !== 5) { low = Math.max(0, first(slots, s => s >= left - 1) - 1); past = Math.min(spots.length, first(slots, s => s > right) + 1); }
  pen.strokeStyle = colour('order');
  pen.lineWidth = 1.5;
  pen.beginPath();
  // so many lines that they are no picture are left out
  for (let place = low, began = false; unit >= 4 && place < past; place += 1) {
    const call = callOf[place];
    if (!call) continue;
    const x = across(spots[place]), y = topOf(rowOf.get(call.client));
    if (began) pen.lineTo(x, y); else pen.moveTo(x, y);
    began = true;
  }
  pen.stroke();
  for (let place = low; place < past; place += 1) {
    const call = callOf[place];
    if (!call) continue;
    const x = across(spots[place]), y = topOf(rowOf.get(call.client));
    if (x < NAMES || x > wide || unit < 4 && place !== chosen && place !== faultAt) continue;
    pen.strokeStyle = colour(place === faultAt ? 'red' : 'order');
    pen.lineWidth = place === chosen ? 4 : 2;
    pen.beginPath();
    pen.moveTo(x, y - 5);
    pen.lineTo(x, y + 5);
    pen.stroke();
    if (unit >= 8 || place === chosen || place === faultAt) texts.push([String(place), x, y - 8]);
  }
}
function draw() {
  asked = false;
  drawn = 0;
  const wide = scroll.clientWidth, high = scroll.clientHeight;
  pen.clearRect(0, 0, wide, high);
  pen.font = '12px system-ui, sans-serif';
  const left = scroll.scrollLeft / unit - 1, right = (scroll.scrollLeft + wide - NAMES) / unit + 1;
  const rowFrom = Math.max(0, Math.floor((scroll.scrollTop - TOP) / LANE)), rowTo = Math.min(clients.length, Math.ceil((scroll.scrollTop + high) / LANE) + 1);
  pen.save();
  pen.beginPath();
  pen.rect(NAMES, TOP, wide - NAMES, high - TOP);
  pen.clip();
  const texts = [], places = [];
  for (let row = rowFrom; row < rowTo; row += 1) drawLane(row, left, right, wide, texts);
  drawMarks(left, right, wide, high, places);
  pen.textAlign = 'left';
  for (const [call, x, y, room] of texts) { const text = fitted(label(call), room); if (text) words(text, x, y, colour('ink')); }
  pen.textAlign = 'center';
  const until = new Map();
  for (const [text, x, y] of places) {
    const half = pen.measureText(text).width / 2 + 2;
    if ((until.get(y) ?? -1e9) > x - half) continue;
    until.set(y, x + half);
    words(text, x, y, colour('order'));
  }
  pen.restore();
  pen.textAlign = 'left';
  pen.fillStyle = colour('panel');
  pen.fillRect(0, 0, NAMES - 6, high);
  pen.fillRect(0, 0, wide, TOP - 4);
  pen.fillStyle = colour('ink');
  for (let row = rowFrom; row < rowTo; row += 1) if (topOf(row) + BAR > TOP) pen.fillText('client ' + clients[row], 10, topOf(row) + BAR - 7);
  pen.fillStyle = colour('panel');
  pen.fillRect(0, 0, wide, TOP - 4);
  pen.fillStyle = colour('soft');
  const apart = [1, 2, 5, 10, 20, 50, 100, 200, 500, 1000, 2000, 5000, 10000, 20000, 50000].find(n => n * unit >= 70) || 100000;
  for (let at = Math.max(0, Math.ceil(left / apart) * apart); at <= right && at <= events.length; at += apart) if (across(at) >= NAMES - 1) pen.fillText(String(at), across(at), TOP - 10);
  pen.fillText('event', 10, TOP - 10);
}
function inView() {
  const left = scroll.scrollLeft / unit - 1, right = (scroll.scrollLeft + scroll.clientWidth - NAMES) / unit + 1;
  return calls.filter(call => untilOf(call) >= left && call.begin <= right).length;
}
function ask() { if (!asked) { asked = true; requestAnimationFrame(draw); } }

// ---- what is chosen

function row(table, texts, name, kind) {
  const line = document.createElement('tr');
  for (const text of texts) { const cell = document.createElement(kind || 'td'); cell.textContent = text; line.append(cell); }
  if (name) line.className = name;
  table.append(line);
}
function showPanel() {
  const panel = by('panel');
  panel.replaceChildren();
  by('place').textContent = chosen === null ? 'no entry' : 'place ' + chosen;
  const about = document.createElement('p');
  if (chosen === null) {
    about.className = 'soft';
    about.textContent = 'A click on a call, or the arrow keys, choose an entry of the order: what it is, and what it changes in the state of the specification. '
      + 'f leads to the first fault, u to the next pending call, Home and End to the first and last entry, + and - zoom.';
    panel.append(about);
    return;
  }
  about.style.whiteSpace = 'pre-line';
  about.textContent = callOf[chosen] ? told(callOf[chosen]) : 'place ' + chosen + ' of the order: client ' + order[chosen][0] + ', of which the history has no such call';
  panel.append(about);
  const table = document.createElement('table'), changed = new Map();
  row(table, ['cell', 'before', 'after'], '', 'th');
  moveTo(Math.min(chosen, steps.length));
  const before = new Map(cells);
  if (chosen < steps.length) for (const [column, index, value] of steps[chosen]) changed.set(column + ':' + index, String(value));
  const keys = new Set([...columns.keys()].map(column => column + ':0'));
  for (const key of before.keys()) keys.add(key);
  for (const key of changed.keys()) keys.add(key);
  const sorted = [...keys].map(key => key.split(':').map(BigInt)).sort((a, b) => a[0] !== b[0] ? (a[0] < b[0] ? -1 : 1) : a[1] < b[1] ? -1 : a[1] > b[1] ? 1 : 0).map(pair => pair.join(':'));
  const near = sorted.length <= 300 ? sorted : sorted.filter((key, at) => at < 200 || changed.has(key));
  for (const key of near) { const old = numberIn(key), now = changed.has(key) ? changed.get(key) : old; row(table, [cellText(key), old, chosen < steps.length ? now : ''], old === now ? '' : 'changed'); }
  panel.append(table);
  const note = document.createElement('p');
  note.className = 'soft';
  note.textContent = chosen >= steps.length ? 'The specification takes no step here, or none was tried behind its first fault.' : near.length < sorted.length ? (sorted.length - near.length) + ' more cells' : '';
  panel.append(note);
}
function bring(call) {
  const x = NAMES + (call.place === null ? call.begin : spots[call.place]) * unit, y = TOP + rowOf.get(call.client) * LANE;
  const wide = scroll.clientWidth, high = scroll.clientHeight;
  if (x < scroll.scrollLeft + NAMES + 20 || x > scroll.scrollLeft + wide - 60) scroll.scrollLeft = x - wide / 2;
  if (y < scroll.scrollTop + TOP || y + LANE > scroll.scrollTop + high) scroll.scrollTop = y - high / 2;
}
function choose(place) {
  if (order.length === 0) return;
  chosen = Math.max(0, Math.min(order.length - 1, place));
  if (callOf[chosen]) bring(callOf[chosen]);
  showPanel();
  ask();
}
let waiting = -1;
function nextPending() { if (pending.length) { waiting = (waiting + 1) % pending.length; const call = pending[waiting]; if (call.place !== null) choose(call.place); bring(call); ask(); } }
function firstFault() { if (code === 3 && missing) { bring(missing); ask(); } else if (isRefused) choose(faultAt); }
function zoom(by, at) {
  const x = at === undefined ? (scroll.clientWidth + NAMES) / 2 : at, here = (scroll.scrollLeft + x - NAMES) / unit;
  unit = Math.max(0.005, Math.min(400, 8000000 / Math.max(1, events.length), unit * by));
  resize();
  scroll.scrollLeft = here * unit - x + NAMES;
}
const step = by => choose(chosen === null ? (by > 0 ? 0 : order.length - 1) : chosen + by);
by('next').onclick = () => step(1);
by('last').onclick = () => step(-1);
by('fault').onclick = firstFault;
by('pending').onclick = nextPending;
by('in').onclick = () => zoom(1.5);
by('out').onclick = () => zoom(1 / 1.5);
document.addEventListener('keydown', event => {
  const keys = { ArrowRight: () => step(1), ArrowLeft: () => step(-1), n: () => step(1), p: () => step(-1), Home: () => choose(0), End: () => choose(order.length - 1),
    f: firstFault, u: nextPending, '+': () => zoom(1.5), '=': () => zoom(1.5), '-': () => zoom(1 / 1.5) };
  if (event.ctrlKey || event.metaKey || event.altKey || !keys[event.key]) return;
  event.preventDefault();
  keys[event.key]();
});
function callAt(event) {
  const box = scroll.getBoundingClientRect(), x = event.clientX - box.left, y = event.clientY - box.top + scroll.scrollTop - TOP;
  const lane = lanes.get(clients[Math.floor(y / LANE)]), at = (x + scroll.scrollLeft - NAMES) / unit;
  if (!lane || x < NAMES || event.clientY - box.top < TOP) return null;
  const call = lane[first(lane, one => untilOf(one) >= at)];
  return call && call.begin <= at ? call : null;
}
scroll.addEventListener('mousemove', event => {
  const call = callAt(event), tip = by('tip');
  tip.style.display = call ? 'block' : 'none';
  if (!call) return;
  tip.textContent = told(call);
  tip.style.left = Math.min(event.clientX + 14, window.innerWidth - tip.offsetWidth - 8) + 'px';
  tip.style.top = Math.min(event.clientY + 14, window.innerHeight - tip.offsetHeight - 8) + 'px';
});
scroll.addEventListener('mouseleave', () => { by('tip').style.display = 'none'; });
scroll.addEventListener('click', event => { const call = callAt(event); if (call && call.place !== null) choose(call.place); });
scroll.addEventListener('scroll', ask);
scroll.addEventListener('wheel', event => { if (event.ctrlKey) { event.preventDefault(); zoom(event.deltaY < 0 ? 1.2 : 1 / 1.2, event.offsetX); } }, { passive: false });
window.addEventListener('resize', resize);
// for those who test the page
window.lincheck = { choose, zoom, draw, told, calls, callOf, spots, across, topOf, rowOf, drawn: () => drawn, inView,
  stateAt: place => { moveTo(Math.min(place, steps.length)); return new Map(cells); } };
resize();
showPanel();
if (isRefused) firstFault();
draw();
document.body.dataset.took = Math.round(performance.now());
})();
</script>
</body>
</html>
";
