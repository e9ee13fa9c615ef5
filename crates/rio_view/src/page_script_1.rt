//! The page of a trace: the script that reads records. Made from `share/page.html` by
//! `tests/view/embed.py --write`.

pub(crate) const SCRIPT_1: &[u8] = b"</script>
<script>
'use strict';
// The page of a trace. The first half reads the records that the program wrote, and knows nothing
// of a document; the second half shows them. A record is described in src/page.rt of rio_view.

const EVERY = 4096;
const STEPS = 'tlhfdma';
const LETTERS = { O: 0, R: 1, E: 2 };
const STATES = ['OK', 'retry-stopped', 'error-stopped'];
const NAMES = { t: 'take', l: 'leave', h: 'hold', f: 'free', d: 'drop', m: 'move', a: 'answer' };

// The trace of a text: where each record begins, its kind, mark, first port and line number, and
// every 4,096 lines the states of all ports before that line.
function readTrace(text, fabric) {
  let most = 0;
  for (let at = text.indexOf('\\n'); at >= 0; at = text.indexOf('\\n', at + 1)) most++;
  const trace = {
    text, fabric, count: 0, most: most + 1, begin: new Uint32Array(most + 2),
    kind: new Uint8Array(most + 1), mark: new Uint8Array(most + 1),
    port: new Uint16Array(most + 1), number: new Uint32Array(most + 1),
    snapshots: [], peer: new Int32Array(fabric.ports.length).fill(-1),
    link: new Int32Array(fabric.ports.length).fill(-1), next: null,
  };
  fabric.links.forEach(([a, b], link) => {
    trace.peer[a] = b;
    trace.peer[b] = a;
    trace.link[a] = trace.link[b] = link;
  });
  readRecords(trace);
  return trace;
}

function readRecords(trace) {
  const { text, fabric } = trace;
  const ports = { state: new Uint16Array(fabric.ports.length),
    held: new Int32Array(fabric.ports.length) };
  let number = fabric.first;
  for (let at = 0; at < text.length;) {
    let end = text.indexOf('\\n', at);
    if (end < 0) end = text.length;
    if (text[at] === '#') {
      number = Number(text.slice(at + 1, end));
    } else if (end > at) {
      const i = trace.count++;
      if (i % EVERY === 0) {
        trace.snapshots.push({ state: ports.state.slice(), held: ports.held.slice() });
      }
      trace.begin[i] = at;
      trace.kind[i] = text.charCodeAt(at);
      trace.mark[i] = text.charCodeAt(at + 1);
      trace.number[i] = number++;
      trace.port[i] = readPort(text, at + 2);
      changeStates(trace, i, ports);
    }
    at = end + 1;
  }
  trace.begin[trace.count] = text.length + 1;
}

function readPort(text, at) {
  let port = 0;
  for (let c = text.charCodeAt(at); c >= 48 && c <= 57; c = text.charCodeAt(++at)) {
    port = port * 10 + c - 48;
  }
  return port;
}

// What a record changes of the states of its port.
function changeStates(trace, i, ports) {
  const kind = String.fromCharCode(trace.kind[i]);
  const port = trace.port[i];
  if (kind === 'h') ports.held[port]++;
  else if (kind === 'm' || kind === 'l' || kind === 'd' || kind === 'a') ports.held[port]--;
  else if (kind === 's' || kind === 'g' || kind === 'x') {
    let at = trace.begin[i] + 2;
    while (trace.text.charCodeAt(at) >= 48 && trace.text.charCodeAt(at) <= 57) at++;
    if (trace.text[at] === ':') {
      const output = LETTERS[trace.text[at + 1]];
      const input = LETTERS[trace.text[at + 2]];
      ports.state[port] = output + 4 * input + 16 * readPort(trace.text, at + 3);
    }
  }
}

// The states of all ports after a record.
function statesAt(trace, i) {
  const from = trace.snapshots[Math.floor(i / EVERY)];
  const ports = { state: from.state.slice(), held: from.held.slice() };
  for (let k = i - i % EVERY; k <= i; k++) changeStates(trace, k, ports);
  return trace.fabric.ports.map((name, port) => ({
    name,
    output: STATES[ports.state[port] & 3],
    input: STATES[ports.state[port] >> 2 & 3],
    outstanding: ports.state[port] >> 4,
    held: ports.held[port],
  }));
}

function kindOf(trace, i) { return String.fromCharCode(trace.kind[i]); }

function record(trace, i) {
  return trace.text.slice(trace.begin[i], trace.text.indexOf('\\n', trace.begin[i]));
}

// The fields of a record after its head, with what stands for others in full.
function fields(trace, i) {
  const all = record(trace, i).split('\\t').slice(1);
  const kind = kindOf(trace, i);
  const place = kind === 'm' ? 1 : 0;
  if (all[place] !== '=') return all;
  let k = i - 1;
  if (kind === 'g') {
    const peer = trace.peer[trace.port[i]];
    while (k >= 0 && !(kindOf(trace, k) === 's' && trace.port[k] === peer)) k--;
    return k < 0 ? ['', ''] : fields(trace, k);
  }
  while (k >= 0 && !STEPS.includes(kindOf(trace, k))) k--;
  const from = k < 0 ? [] : fields(trace, k);
  const other = k >= 0 && kindOf(trace, k) === 'm' ? from.slice(1) : from;
  return [...all.slice(0, place), ...other];
}

// 'k7c80' as 'k7c d80'
function longChars(short) {
  return (short.match(/k..|i|../g) || [])
    .map((it) => (it === 'i' ? 'inv' : it.length === 3 ? it : 'd' + it)).join(' ');
}

function nodeOf(name) { return name.slice(0, name.indexOf('.')); }

// The line of the trace.
function lineText(trace, i) {
  const kind = kindOf(trace, i);
  const name = trace.fabric.ports[trace.port[i]];
  const all = fields(trace, i);
  if (kind === '>') return '> ' + record(trace, i).slice(2);
  if (kind === 'k') return record(trace, i).slice(2);
  if (kind === 'e') return 'end';
  if (kind === 'u') return all[0];
  if (kind === 'x') return 'fire ' + name;
  if (kind === 's' || kind === 'g') {
    return `${kind === 's' ? 'sent' : 'got'} ${name} ${longChars(all[0])}`;
  }
  if (kind === 'm') return `move ${name} ${trace.fabric.ports[Number(all[0])]} ${all[1]}`;
  if (kind === 'a') return `answer ${name} ${all[0]} ${all[2]}`;
  return `${NAMES[kind]} ${kind === 't' || kind === 'l' ? nodeOf(name) : name} ${all[0]}`;
}

// What a record says: of characters a list, each with its letter, and of a packet its words.
function told(trace, i) {
  const kind = kindOf(trace, i);
  const all = fields(trace, i);
  if (kind === 's' || kind === 'g') {
    return (all[1] || '').split('|').filter((it) => it).map((it) => [it[0], it.slice(1)]);
  }
  if (kind === 'm') return [['w', all[2] || '']];
  if (kind === 'a') return [['w', `${all[1]} -> ${all[3]}`]];
  if (kind === 'u') return [['b', 'undetected: ' + all[1]]];
  if (kind === 'x') return [['n', 'time-out']];
  if (kind === '>' || kind === 'k' || kind === 'e') return [];
  return [['w', all[1] || '']];
}

// One line of words, as the list shows it.
function wordsOf(trace, i) {
  const kind = kindOf(trace, i);
  const name = trace.fabric.ports[trace.port[i]];
  if (kind === '>' || kind === 'k' || kind === 'e') return lineText(trace, i);
  const words = told(trace, i).map((it) => it[1]).join('; ');
  if (kind === 's') return `${name} sends ${words}`;
  if (kind === 'g') {
    return record(trace, i).endsWith('\\t=') ? `${name} got it` : `${name} got ${words}`;
  }
  if (kind === 'x' || kind === 'u') return `${name}: ${words}`;
  if (kind === 'm') {
    return `move ${name} to ${trace.fabric.ports[Number(fields(trace, i)[0])]}: ${words}`;
  }
  return `${NAMES[kind]} ${name}: ${words}`;
}

// What is looked for: words, and if they are characters, these as records have them.
function queryOf(text) {
  const words = text.toLowerCase();
  const isChars = words.split(' ').every((it) => /^(k..|d..|inv)$/.test(it));
  const short = words.split(' ').map((it) => (it === 'inv' ? 'i' : it.replace(/^d/, ''))).join('');
  return { words, short: isChars ? short : '' };
}

// Whether a record has these words or characters. What came as it was sent has them where it was
// sent.
function matches(trace, i, query) {
  const kind = kindOf(trace, i);
  const text = record(trace, i);
  const rest = text.slice(text.indexOf('\\t') + 1);
  const name = trace.fabric.ports[trace.port[i]];
  if (kind === 's' || kind === 'g') {
    const head = kind === 's' ? `sent ${name} sends ` : `got ${name} got `;
    return rest.toLowerCase().includes(query.short || query.words)
      || head.toLowerCase().includes(query.words);
  }
  if (!STEPS.includes(kind) || kind === 'm' || kind === 'a') {
    return (wordsOf(trace, i) + '\\n' + lineText(trace, i)).toLowerCase().includes(query.words);
  }
  const [form, words] = rest === '=' ? fields(trace, i) : rest.split('\\t');
  const node = kind === 't' || kind === 'l' ? nodeOf(name) : name;
  return `${NAMES[kind]} ${node} ${form}\\n${NAMES[kind]} ${name}: ${words}`.toLowerCase()
    .includes(query.words);
}

// The ports that a record names.
function portsOf(trace, i) {
  const kind = kindOf(trace, i);
  if (kind === 'k' || kind === 'e') return [];
  if (kind === '>') {
    const word = record(trace, i).slice(2).split(' ')[1] || '';
    const at = trace.fabric.ports.indexOf(word.includes('.') ? word : word + '.0');
    return at < 0 ? [] : [at];
  }
  return kind === 'm' ? [trace.port[i], Number(fields(trace, i)[0])] : [trace.port[i]];
}

// The records that are shown, or null if all are.
function chosenRecords(trace, links, onlyFaults, hideSame) {
  if (!links && !onlyFaults && !hideSame) return null;
  const found = new Uint32Array(trace.count);
  let count = 0;
  for (let i = 0; i < trace.count; i++) {
    if (onlyFaults && trace.mark[i] === 32) continue;
    if (hideSame && isSame(trace, i)) continue;
    if (links && !portsOf(trace, i).some((port) => links.has(trace.link[port]))) continue;
    found[count++] = i;
  }
  return found.slice(0, count);
}

function isSame(trace, i) {
  return trace.kind[i] === 103
    && trace.text[trace.text.indexOf('\\n', trace.begin[i]) - 1] === '=';
}

// What of a packet stays the same on its way: of a maintenance packet all but hop count and CRC.
function packetKey(form) {
  if (parseInt(form[3], 16) !== 8) return form;
  const wide = (parseInt(form[2], 16) & 3) === 1;
  const hop = wide ? 16 : 12;
  return form.slice(0, hop) + form.slice(hop + 2, form.length - (wide ? 8 : 4));
}

// The packet of characters, in its link form, or nothing.
function formOfChars(short) {
  const runs = short.split(/k7c....../).filter((it) => it.length >= 16 && !it.includes('k'));
  if (runs.length === 0) return '';
  const first = parseInt(runs[0].slice(0, 2), 16) & 3;
  return '0' + first.toString(16) + runs[0].slice(2);
}

// Which step of a packet follows which: found once, when the first way is asked for.
function findSteps(trace) {
  trace.next = new Int32Array(trace.count).fill(-1);
  trace.before = new Int32Array(trace.count).fill(-1);
  trace.freed = new Int32Array(trace.count).fill(-1);
  const queues = { waiting: new Map(), unfreed: new Map(), held: new Map() };
  let form = '';
  for (let i = 0; i < trace.count; i++) {
    const kind = kindOf(trace, i);
    if (!STEPS.includes(kind)) continue;
    const all = record(trace, i).split('\\t').slice(1);
    const place = kind === 'm' ? 1 : 0;
    if (all[place] !== '=') form = all[place];
    joinStep(trace, i, kind, packetKey(form), all, queues);
  }
}

function joinStep(trace, i, kind, key, all, queues) {
  const port = trace.port[i];
  const peer = trace.peer[port];
  if (kind === 't') put(queues.waiting, port, key, i);
  else if (kind === 'f') {
    const held = get(queues.unfreed, port, key);
    if (held >= 0) trace.freed[held] = i;
  } else {
    const from = kind === 'h' ? get(queues.waiting, peer, key) : get(queues.held, port, key);
    if (from >= 0) {
      trace.before[i] = from;
      trace.next[from] = i;
    }
    if (kind === 'h') {
      put(queues.held, port, key, i);
      put(queues.unfreed, peer, key, i);
    }
    if (kind === 'm') put(queues.waiting, Number(all[0]), key, i);
    if (kind === 'a') put(queues.waiting, port, packetKey(all[2]), i);
  }
}

function put(queue, port, key, i) {
  const name = port + ' ' + key;
  if (queue.has(name)) queue.get(name).push(i);
  else queue.set(name, [i]);
}

function get(queue, port, key) {
  const list = queue.get(port + ' ' + key);
  if (!list) return -1;
  const first = list.shift();
  if (list.length === 0) queue.delete(port + ' ' + key);
  return first;
}

// The records of a packet's way, from its take or the answer that made it to its end.
function wayOf(trace, i) {
  if (!trace.next) findSteps(trace);
  let at = stepOf(trace, i);
  if (at < 0) return [];
  while (trace.before[at] >= 0 && kindOf(trace, at) !== 'a') at = trace.before[at];
  const way = [];
  for (; at >= 0; at = trace.next[at]) {
    if (kindOf(trace, at) === 'h') way.push(...sendsBefore(trace, at));
    way.push(at);
    if (trace.freed[at] >= 0) way.push(trace.freed[at]);
  }
  return [...new Set(way)].sort((a, b) => a - b);
}

// The step of a packet nearest to a record: itself, or that of the packet that is sent or came.
function stepOf(trace, i) {
  const kind = kindOf(trace, i);
  if (kind === 'f') {
    for (let k = i - 1; k >= 0; k--) if (trace.freed[k] === i) return k;
    return -1;
  }
  if (STEPS.includes(kind)) return i;
  if (kind !== 's' && kind !== 'g') return -1;
  const form = formOfChars(fields(trace, i)[0]);
  if (!form) return -1;
  const port = kind === 's' ? trace.peer[trace.port[i]] : trace.port[i];
  for (let k = i + 1; k < Math.min(trace.count, i + 5000); k++) {
    if (trace.port[k] === port && kindOf(trace, k) === 'h'
      && packetKey(fields(trace, k)[0]) === packetKey(form)) return k;
  }
  return -1;
}

// The lines in which the packet that a port holds was sent to it.
function sendsBefore(trace, held) {
  const peer = trace.peer[trace.port[held]];
  const key = packetKey(fields(trace, held)[0]);
  const found = [];
  const first = Math.max(trace.before[held] + 1, held - 20000, 0);
  for (let k = held - 1; k >= first; k--) {
    if (trace.port[k] === peer && kindOf(trace, k) === 's'
      && packetKey(formOfChars(fields(trace, k)[0])) === key) found.unshift(k);
  }
  return found;
}

if (typeof module !== 'undefined') {
  module.exports = { readTrace, lineText, wordsOf, told, statesAt, chosenRecords, wayOf, matches,
    queryOf, longChars, packetKey, formOfChars };
}
</script>
";
