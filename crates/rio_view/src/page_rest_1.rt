//! The page of a trace: the script that shows them. Made from `share/page.html` by
//! `tests/view/embed.py --write`.

pub(crate) const REST_1: &[u8] = b"<script>
'use strict';
const ROW = 22;
const view = { trace: null, times: null, shown: null, top: 0, chosen: 0, links: null,
  way: new Set(), rows: 0 };
const at = (id) => document.getElementById(id);
const escaped = (text) => text.replace(/[&<>\"']/g, (c) => `&#${c.charCodeAt(0)};`);

function shownCount() { return view.shown ? view.shown.length : view.trace.count; }
function shownAt(place) { return view.shown ? view.shown[place] : place; }

// The place of the first record that is shown and is not before this one.
function placeOf(i) {
  if (!view.shown) return i;
  let low = 0;
  let high = view.shown.length;
  while (low < high) {
    const middle = low + high >> 1;
    if (view.shown[middle] < i) low = middle + 1;
    else high = middle;
  }
  return low;
}

// The record of a line number, or the next one.
function recordOf(number) {
  let low = 0;
  let high = view.trace.count;
  while (low < high) {
    const middle = low + high >> 1;
    if (view.trace.number[middle] < number) low = middle + 1;
    else high = middle;
  }
  return Math.min(low, view.trace.count - 1);
}

function shownLinks() {
  return view.trace.fabric.links.map((it, link) => link)
    .filter((link) => !view.links || view.links.has(link));
}

// Where the lifelines are, by their ports, and how wide the ladder is.
function lanes() {
  const links = shownLinks().slice(0, 12);
  const room = Math.max(340, at('pane').clientWidth * 0.55);
  const each = Math.max(160, Math.min(560, room / Math.max(1, links.length)));
  const margin = links.length > 1 ? 44 : 76;
  const x = {};
  links.forEach((link, place) => {
    const [a, b] = view.trace.fabric.links[link];
    x[a] = [place * each + margin, -1];
    x[b] = [(place + 1) * each - margin, 1];
  });
  return { x, wide: Math.max(1, links.length) * each };
}

// As much of a label as there is room for: a packet's words, or its ackID alone, or less.
function cut(whole, room) {
  const most = Math.max(3, Math.floor(room / 5.6));
  const text = whole.length > most ? whole.split(/[:,]/)[0].replace(/^(packet|link)-/, '') : whole;
  return escaped(text.length > most ? text.slice(0, most - 2) + '..' : text);
}

function markSvg(lane, y, label, cls) {
  const end = lane[1] < 0;
  const x = lane[0] + (end ? -7 : 7);
  return `<g class='${cls}'><circle cx='${lane[0]}' cy='${y}' r='3.5'/><text x='${x}' y='${y + 4}'`
    + ` class='${end ? 'end' : ''}'>${cut(label, 60)}</text></g>`;
}

function arrowSvg(from, to, y, label, cls) {
  const way = to > from ? 1 : -1;
  const room = Math.abs(to - from) - 8;
  const tip = to - way;
  const back = to - 8 * way;
  return `<g class='${cls}'><path d='M${from} ${y}H${tip}'/>`
    + `<path class='tip' d='M${back} ${y - 4}L${tip} ${y}L${back} ${y + 4}'/>`
    + `<text class='middle' x='${(from + to) / 2}' y='${y - 3}'>`
    + `${cut(label, room)}</text></g>`;
}

const CLASSES = { p: 'packet', r: 'retry', n: 'fault', b: 'fault', s: 'symbol', o: 'symbol' };

function rowSvg(i, place, where) {
  const trace = view.trace;
  const kind = kindOf(trace, i);
  const y = place * ROW + ROW - 8;
  const lane = where.x[trace.port[i]];
  const way = view.way.has(i) ? ' way' : '';
  const fault = trace.mark[i] === 33 ? ' fault' : '';
  if (kind === '>' || kind === 'k') {
    return `<g class='${fault}'><rect class='bandrect' y='${place * ROW + 2}' width='${where.wide}'`
      + ` height='${ROW - 4}'/><text x='6' y='${y}'>`
      + `${cut(record(trace, i).slice(2), where.wide)}</text></g>`;
  }
  if (!lane && kind !== 'm') return '';
  if (kind === 's') return sentSvg(i, y, lane, where, way);
  if (kind === 'g') return gotSvg(i, y - 4, lane, where, way);
  if (kind === 'm') return movedSvg(i, y - 2, lane, where, way);
  const label = kind === 'x' ? 'time-out' : kind === 'u' ? 'undetected' : NAMES[kind];
  return kind === 'e' ? '' : markSvg(lane, y - 4, label, fault + way);
}

function sentSvg(i, y, lane, where, way) {
  const to = where.x[view.trace.peer[view.trace.port[i]]];
  const all = told(view.trace, i);
  if (!to || all.length === 0) return '';
  const more = all.length > 1 ? ` +${all.length - 1}` : '';
  const worst = all.find((it) => 'nb'.includes(it[0])) || all[0];
  return arrowSvg(lane[0], to[0], y, worst[1] + more, CLASSES[worst[0]] + way);
}

function gotSvg(i, y, lane, where, way) {
  if (isSame(view.trace, i)) {
    return `<g class='got${way}'><circle cx='${lane[0]}' cy='${y}' r='3.5'/></g>`;
  }
  const all = told(view.trace, i);
  const worst = all.find((it) => it[0] === 'b') || all[0] || ['o', '..'];
  const label = 'got ' + worst[1];
  // Towards its peer, unless the other side alone has room.
  const room = [lane[0] - 12, where.wide - lane[0] - 12];
  let end = lane[1] > 0;
  if (room[end ? 0 : 1] < label.length * 5.6) end = room[0] > room[1];
  return `<g class='${CLASSES[worst[0]] || ''}${way}'><circle cx='${lane[0]}' cy='${y}' r='3.5'/>`
    + `<text class='${end ? 'end' : ''}' x='${lane[0] + (end ? -8 : 8)}' y='${y + 4}'>`
    + `${cut(label, room[end ? 0 : 1])}</text></g>`;
}

function movedSvg(i, y, lane, where, way) {
  const to = where.x[Number(fields(view.trace, i)[0])];
  if (lane && to && lane !== to) return arrowSvg(lane[0], to[0], y, 'move', 'inside' + way);
  return lane || to ? markSvg(lane || to, y - 2, 'move', way) : '';
}

function rowHtml(i) {
  const trace = view.trace;
  const mark = String.fromCharCode(trace.mark[i]);
  const usual = kindOf(trace, i) === '>' ? 'event' : '';
  const cls = mark === '!' ? 'fault' : mark === '~' ? 'retry' : usual;
  const words = wordsOf(trace, i);
  const name = (i === view.chosen ? 'chosen' : '') + (view.way.has(i) ? ' way' : '');
  const current = i === view.chosen ? ' aria-current=true' : '';
  return `<tr class='${name}' data-record='${i}'${current}>`
    + `<th scope='row'>${trace.number[i]}</th><td class='mark ${cls}'>${mark.trim()}</td>`
    + `<td class='${cls}' title='${escaped(words)}'>${escaped(words)}</td></tr>`;
}

// Draws the rows in sight, or so many.
function draw(many) {
  const rows = many || Math.max(3, Math.floor((at('pane').clientHeight - 24) / ROW));
  if (!many) view.rows = rows;
  view.top = Math.max(0, Math.min(view.top, shownCount() - Math.min(rows, shownCount())));
  const where = lanes();
  const high = rows * ROW + 24;
  let svg = '';
  let html = '';
  for (const port of Object.keys(where.x)) {
    const x = where.x[port][0];
    svg += `<line class='life' x1='${x}' x2='${x}' y1='22' y2='${high}'/>`
      + `<text class='head' x='${x}' y='15'>${escaped(view.trace.fabric.ports[port])}</text>`;
  }
  svg += \"<g transform='translate(0 24)'>\";
  for (let place = 0; place < rows && view.top + place < shownCount(); place++) {
    const i = shownAt(view.top + place);
    if (i === view.chosen) {
      svg += `<rect class='chosenrect' y='${place * ROW}' width='${where.wide}' height='${ROW}'/>`;
    }
    svg += rowSvg(i, place, where);
    html += rowHtml(i);
  }
  at('ladder').setAttribute('width', where.wide);
  at('ladder').setAttribute('height', high);
  at('ladder').innerHTML = svg + '</g>';
  at('words').tBodies[0].innerHTML = html;
  drawBar();
}

// The whole trace: where faults and retries are, and what is in sight.
function drawBar() {
  const bar = at('bar');
  const high = Math.max(50, bar.parentNode.clientHeight);
  bar.height = high;
  const style = getComputedStyle(document.documentElement);
  const pen = bar.getContext('2d');
  pen.fillStyle = style.getPropertyValue('--band');
  pen.fillRect(0, 0, 26, high);
  if (!view.marks || view.marks.high !== high || view.marks.of !== view.shown) markBar(high);
  view.marks.worst.forEach((worst, y) => {
    if (worst) {
      pen.fillStyle = style.getPropertyValue(worst === 2 ? '--fault' : '--retry');
      pen.fillRect(worst === 2 ? 4 : 12, y, worst === 2 ? 20 : 8, 2);
    }
  });
  const count = Math.max(1, shownCount());
  pen.strokeStyle = style.getPropertyValue('--text');
  pen.lineWidth = 2;
  pen.strokeRect(1, view.top / count * high, 24, Math.max(5, view.rows / count * high));
}

function markBar(high) {
  const worst = new Uint8Array(high);
  const count = shownCount();
  for (let place = 0; place < count; place++) {
    const mark = view.trace.mark[shownAt(place)];
    if (mark !== 32) {
      const y = Math.floor(place / count * high);
      worst[y] = Math.max(worst[y], mark === 33 ? 2 : 1);
    }
  }
  view.marks = { high, of: view.shown, worst };
}

function choose(i, isNew) {
  view.chosen = i;
  const place = placeOf(i);
  if (place < view.top || place >= view.top + view.rows) {
    view.top = place - Math.floor(view.rows / 3);
  }
  draw();
  if (isNew) showRecord();
}

function stateHtml(state) {
  return `<td class='${state === 'OK' ? '' : 'fault'}'>${state}</td>`;
}

// When a line happened, if a capture's times are in the page.
function timeOf(number) {
  const time = view.times && view.times.lines[number];
  return time ? `, at ${escaped(String(time))} ${escaped(view.times.unit)}` : '';
}

function showRecord() {
  const trace = view.trace;
  const i = view.chosen;
  if (trace.count === 0) return;
  at('detail').innerHTML = `<h2>Line ${trace.number[i]}${timeOf(trace.number[i])}</h2>`
    + `<p>${escaped(wordsOf(trace, i))}</p>`
    + `<p><code>${escaped(lineText(trace, i))}</code></p>`;
  const links = shownLinks();
  const wanted = new Set(links.slice(0, 12).flatMap((link) => trace.fabric.links[link]));
  portsOf(trace, i).forEach((port) => wanted.add(port));
  const rows = statesAt(trace, i).filter((it, port) => wanted.has(port) && trace.link[port] >= 0)
    .map((it) => `<tr><th scope='row'>${escaped(it.name)}</th>${stateHtml(it.output)}`
      + `${stateHtml(it.input)}<td>${it.outstanding}</td><td>${it.held}</td></tr>`);
  at('states').innerHTML = `<h2 id='after'>Ports after line ${trace.number[i]}</h2>`
    + \"<table id='ports' aria-labelledby='after'><tr>\"
    + \"<th scope='col'>port</th><th scope='col'>output</th><th scope='col'>input</th>\"
    + `<th scope='col'>outstanding</th><th scope='col'>held</th></tr>${rows.join('')}</table>`;
  history.replaceState(null, '', '#' + trace.number[i]);
}

function showWay() {
  const way = wayOf(view.trace, view.chosen);
  view.way = new Set(way);
  const items = way.map((i) => `<li><button type='button' data-record='${i}'>`
    + `${view.trace.number[i]}: ${escaped(wordsOf(view.trace, i))}</button></li>`);
  at('way').innerHTML = '<h2>The way of the packet</h2>' + (way.length === 0
    ? '<p>Click a line with a packet.</p>' : `<ol>${items.join('')}</ol>`);
  draw();
}

function say(text) { at('status').textContent = text; }

function filter() {
  const all = [...at('links').options];
  const chosen = all.filter((it) => it.selected).map((it) => Number(it.value));
  view.links = chosen.length === 0 || chosen.length === all.length ? null : new Set(chosen);
  view.shown = chosenRecords(view.trace, view.links, at('faults').checked, at('same').checked);
  say(`${shownCount().toLocaleString('en')} of ${view.trace.count.toLocaleString('en')} lines`
    + (shownLinks().length > 12 ? '; the ladder has the first 12 links' : ''));
  view.top = placeOf(view.chosen) - Math.floor(view.rows / 3);
  draw();
  showRecord();
}

// Shows the rows from a place on. If the chosen line is not among them, the first of them is.
function scroll(top) {
  view.top = Math.floor(top);
  draw();
  const place = placeOf(view.chosen);
  if (shownCount() > 0 && (place < view.top || place >= view.top + view.rows)) {
    view.chosen = shownAt(view.top);
    draw();
    showRecord();
  }
}

function move(by) {
  if (shownCount() === 0) return;
  const place = Math.max(0, Math.min(shownCount() - 1, placeOf(view.chosen) + by));
  choose(shownAt(place), true);
}

function jump(number) { choose(recordOf(number), true); }

// The next record in a direction that is wanted, in pieces, so that the page stays alive.
async function seek(way, isWanted, name) {
  const count = shownCount();
  const from = placeOf(view.chosen);
  for (let n = 1; n <= count; n++) {
    const i = shownAt(((from + way * n) % count + count) % count);
    if (isWanted(i)) {
      say(`${name}: line ${view.trace.number[i]}`);
      choose(i, true);
      return true;
    }
    if (n % 20000 === 0) {
      say(`${name}: ${n.toLocaleString('en')} lines looked at`);
      await new Promise((done) => setTimeout(done, 0));
    }
  }
  say(`${name}: nothing found`);
  return false;
}

function find(way) {
  const text = at('find').value;
  const query = queryOf(text);
  return text ? seek(way, (i) => matches(view.trace, i, query), `Find \"${text}\"`)
    : Promise.resolve(false);
}

function fault(way) { return seek(way, (i) => view.trace.mark[i] === 33, 'Fault'); }

const KEYS = {
  ArrowDown: () => move(1), ArrowUp: () => move(-1), PageDown: () => move(view.rows - 1),
  PageUp: () => move(1 - view.rows), Home: () => move(-Infinity), End: () => move(Infinity),
  Enter: showWay, f: () => fault(1), F: () => fault(-1), n: () => find(1), N: () => find(-1),
  g: () => at('line').focus(), '/': () => at('find').focus(),
};

function listen() {
  document.addEventListener('keydown', (event) => {
    const isTyped = ['INPUT', 'SELECT', 'BUTTON'].includes(event.target.tagName);
    if (isTyped || event.ctrlKey || event.metaKey || event.altKey || !KEYS[event.key]) return;
    event.preventDefault();
    KEYS[event.key]();
  });
  at('pane').addEventListener('wheel', (event) => {
    event.preventDefault();
    scroll(view.top + Math.sign(event.deltaY) * 3);
  }, { passive: false });
  const pick = (event) => {
    const row = event.target.closest('[data-record]');
    if (row) {
      choose(Number(row.dataset.record), true);
      if (event.currentTarget !== at('way')) showWay();
    }
  };
  at('words').addEventListener('click', pick);
  at('way').addEventListener('click', pick);
  at('ladder').addEventListener('click', (event) => {
    const y = event.clientY - at('ladder').getBoundingClientRect().top - 24;
    const place = view.top + Math.floor(y / ROW);
    if (y >= 0 && place < shownCount()) {
      choose(shownAt(place), true);
      showWay();
    }
  });
  const drag = (event) => {
    if (event.buttons !== 1) return;
    const box = at('bar').getBoundingClientRect();
    scroll((event.clientY - box.top) / box.height * shownCount() - view.rows / 2);
  };
  at('bar').addEventListener('mousedown', drag);
  at('bar').addEventListener('mousemove', drag);
  const entered = (id, act) => at(id).addEventListener('keydown', (event) => {
    if (event.key === 'Enter') act();
  });
  entered('line', () => jump(Number(at('line').value)));
  entered('find', () => find(1));
  at('go').addEventListener('click', () => jump(Number(at('line').value)));
  at('next').addEventListener('click', () => find(1));
  at('before').addEventListener('click', () => find(-1));
  at('nextfault').addEventListener('click', () => fault(1));
  at('lastfault').addEventListener('click', () => fault(-1));
  for (const id of ['links', 'faults', 'same']) at(id).addEventListener('change', filter);
  window.addEventListener('resize', () => draw());
  window.addEventListener('hashchange', () => jump(Number(location.hash.slice(1)) || 1));
  window.addEventListener('beforeprint', () => draw(Math.min(400, shownCount())));
  window.addEventListener('afterprint', () => draw());
  matchMedia('(prefers-color-scheme: dark)').addEventListener('change', () => draw());
}
";
