//! The tail of a page, with its script: what it does is tested in a browser.

/// What comes after the data.
pub(crate) const TAIL: &str = r##"<header id="top" hidden>
<span class="outcome" id="outcome" role="status"></span>
<div class="tools" role="toolbar" aria-label="Steps">
<button id="first">First</button><button id="back">Back</button><button id="forward">Forward</button><button
id="last">Last</button><button id="failing">Failing event</button>
<output id="place" aria-live="polite"></output>
<label>Find <input id="find" type="search" size="20" aria-describedby="found"></label>
<label><input id="only" type="checkbox" checked> only what matches</label>
<output id="found" aria-live="polite"></output>
<label><input id="deliveries" type="checkbox"> deliveries</label>
<label><input id="waits" type="checkbox" checked> waits</label>
<details><summary>Keys</summary><kbd>&darr;</kbd> <kbd>j</kbd> forward, <kbd>&uarr;</kbd> <kbd>k</kbd> back,
<kbd>Home</kbd> first, <kbd>End</kbd> last, <kbd>Page Down</kbd> <kbd>Page Up</kbd> ten on or back,
<kbd>f</kbd> failing event, <kbd>c</kbd> cause of the event, <kbd>/</kbd> find, <kbd>n</kbd> <kbd>p</kbd> next or
previous match, <kbd>d</kbd> deliveries, <kbd>w</kbd> waits, <kbd>h</kbd> hide the process of the event,
<kbd>a</kbd> show all processes, <kbd>r</kbd> the other run</details>
</div>
<fieldset class="tools" id="processes"><legend>Processes</legend></fieldset>
</header>
<main id="main" hidden>
<aside aria-label="Status">
<section id="event" class="box" aria-label="Event"></section>
<section class="box" aria-label="Processes"><table id="status"><caption></caption></table></section>
<h2 id="title">Source</h2>
<div class="source" id="lines" tabindex="0" role="region" aria-labelledby="title"></div>
</aside>
</main>
<script>
'use strict';
const byId = id => document.getElementById(id);
const make = (tag, text, className) => {
  const it = document.createElement(tag);
  if (text !== undefined) it.textContent = text;
  if (className) it.className = className;
  return it;
};
const pid = p => '<' + p + '>';
const ROW = 22, GUTTER = 52;
const root = document.querySelector('h1').textContent;
const names = [...document.querySelectorAll('#names li')].map(li => li.textContent);
const nameOf = p => names[p] || '';
const titled = p => pid(p) + (nameOf(p) ? ' ' + nameOf(p) : '');
const hidden = new Set();

// ---- the data: events, what caused each, and what each does to mailboxes

// An event as its item says it; `put` is the message that comes into the mailbox, `taken` are the deliveries whose
// messages leave it, and `cause` is the event that sent or spawned, or the delivery of the message that is taken.
function eventOf(li, number) {
  const data = li.dataset, [code, samp, small] = li.children;
  const label = code.textContent, carried = samp.textContent, words = label.split(' ');
  const event = {
    li, number, label, carried, words, process: +data.process, sender: +data.sender, choice: +data.choice,
    count: +data.count, line: +data.line, name: small.textContent, delivers: words[0] === 'deliver',
    put: null, taken: [], cause: null, before: null, ends: null,
  };
  if (words[0] === 'end') event.ends = label.slice(4);
  if (event.delivers && words[2] === 'ends') event.ends = label.split(' ends ')[1];
  event.quiet = event.delivers && words.length === 2;
  event.bad = event.ends !== null && event.ends !== 'normal';
  return event;
}

// The process to which an event sends a signal, and of which kind; null where it sends none that its label shows.
function signalOf(event, watched) {
  const [kind, first, second] = event.words;
  const to = text => +text.slice(1, -1);
  if (event.delivers) return null;
  if (kind === 'send') return ['message', to(first)];
  if (kind === 'exit' || kind === 'link' || kind === 'unlink') return [kind, to(first)];
  if (kind === 'monitor') return watched.set(first, to(second)) && [kind, to(second)];
  if (kind === 'demonitor' && watched.has(first)) return [kind, watched.get(first)];
  return null;
}

// The message that a delivery puts into the mailbox, if it does.
function messageOf(event) {
  const kind = event.words[1], suffix = event.words[2];
  if (kind === 'message' && !suffix) return event.carried;
  if (kind === 'exit' && suffix === 'message') return "{'EXIT'," + pid(event.sender) + ',' + event.carried + '}';
  if (kind !== 'down' || suffix) return null;
  const gap = event.carried.indexOf(' ');
  return "{'DOWN'," + event.carried.slice(0, gap) + ',process,' + pid(event.sender) + ',' +
    event.carried.slice(gap + 1) + '}';
}

// Takes the oldest message out that has this text, or, where the reason was too large for it, this beginning.
function take(event, box) {
  const text = event.label.slice(8);
  let at = box.findIndex(m => m.put === text);
  if (at < 0) at = box.findIndex(m => m.put.startsWith("{'") && text.startsWith(m.put.split(pid(m.sender))[0]));
  if (at < 0) return;
  event.cause = box[at].number;
  event.taken = [box[at].number];
  box.splice(at, 1);
}

function link(events) {
  const ways = new Map(), boxes = new Map(), last = new Map(), watched = new Map();
  const listIn = (map, key) => map.get(key) || map.set(key, []).get(key);
  for (const event of events) {
    const box = listIn(boxes, event.process), word = event.words[0];
    event.before = last.has(event.process) ? last.get(event.process) : null;
    if (event.delivers) {
      const way = listIn(ways, event.sender + '>' + event.process + event.words[1]);
      event.cause = way.length ? way.shift() : last.has(event.sender) ? last.get(event.sender) : null;
      event.put = messageOf(event);
      if (event.put !== null) box.push(event);
    }
    const signal = signalOf(event, watched);
    if (signal) listIn(ways, event.process + '>' + signal[1] + signal[0]).push(event.number);
    if (word === 'receive') take(event, box);
    if (word === 'demonitor' && event.words[2] === 'flush') {
      const at = box.findIndex(m => m.put.startsWith("{'DOWN'," + event.words[1] + ','));
      if (at >= 0) event.taken = [box.splice(at, 1)[0].number];
    }
    last.set(event.process, event.number);
    if (word.startsWith('spawn')) last.set(+event.words[1].slice(1, -1), event.number);
  }
}

// What each process is and has after the event of this number.
function statusAfter(events, number) {
  const status = new Map();
  const at = p => status.get(p) || status.set(p, { where: 'begins', name: nameOf(p), line: 0, box: [] }).get(p);
  at(0);
  for (let i = 0; i <= number; i++) {
    const event = events[i], it = at(event.process);
    if (event.put !== null) {
      it.box.push(event);
      if (it.waits) it.where = 'can go on', it.waits = false;
    }
    if (event.taken.length) it.box = it.box.filter(m => !event.taken.includes(m.number));
    if (event.words[0].startsWith('spawn')) at(+event.words[1].slice(1, -1));
    if (event.ends !== null) it.where = 'ended: ' + event.ends, it.ended = true, it.waits = false, it.box = [];
    if (event.delivers) continue;
    if (event.name) it.name = event.name;
    it.line = event.line;
    if (it.ended) continue;
    it.waits = event.words[0] === 'wait';
    it.where = it.waits ? 'waits for a message' : 'runs';
  }
  return status;
}

// The event in which a run fails, where the data don't name it.
function failingOf(events, outcome) {
  const last = test => events.reduce((found, event) => test(event) ? event.number : found, -1);
  const end = outcome.startsWith('ended') ? last(e => e.process === 0 && e.bad) : last(e => e.bad);
  return end >= 0 && !outcome.startsWith('deadlock') ? end : events.length - 1;
}

// ---- a run as a chart

class Run {
  constructor(section, title) {
    const list = section.querySelector('ol');
    this.events = [...list.children].map(eventOf);
    link(this.events);
    this.outcome = section.querySelector('b').textContent;
    this.verdict = section.querySelector('i').textContent;
    this.holds = this.verdict === 'property holds';
    this.failing = this.holds ? -1 : +section.dataset.failing > 0 ? section.dataset.failing - 1
      : failingOf(this.events, this.outcome);
    this.now = this.failing >= 0 ? this.failing : 0;
    this.processes = [...new Set(this.events.flatMap(e => [e.process, e.sender]))].sort((a, b) => a - b);
    this.lit = new Map();
    this.build(section, list, title);
  }

  build(section, list, title) {
    this.list = list;
    this.box = make('section', undefined, 'run');
    this.heading = make('h2', title + ': ' + this.outcome + ', ' + this.verdict);
    this.chart = make('div', undefined, 'chart');
    this.heads = make('div', undefined, 'heads');
    this.heads.setAttribute('aria-hidden', 'true');
    this.svg = document.createElementNS('http://www.w3.org/2000/svg', 'svg');
    this.svg.setAttribute('aria-hidden', 'true');
    list.setAttribute('role', 'listbox');
    list.setAttribute('aria-label', title + ', events');
    list.tabIndex = 0;
    for (const event of this.events) this.name(event, title);
    this.chart.append(this.heads, this.svg, list);
    this.box.append(this.heading, this.chart);
    section.remove();
  }

  name(event, title) {
    const li = event.li, line = event.line ? ', line ' + event.line : '';
    const who = event.delivers && event.sender !== event.process ? pid(event.sender) + ' to ' + pid(event.process)
      : titled(event.process);
    li.id = title.charAt(0) + event.number;
    li.dataset.number = event.number + 1;
    li.setAttribute('role', 'option');
    li.setAttribute('aria-selected', 'false');
    li.setAttribute('aria-label', 'Event ' + (event.number + 1) + ', ' + who + line + ': ' + event.label + ' ' +
      event.carried + (event.number === this.failing ? '. The run fails here.' : ''));
    li.title = event.label + (event.carried ? '\n' + event.carried : '');
    event.text = (who + ' ' + event.label + ' ' + event.carried + ' ' + event.name).toLowerCase();
    li.classList.toggle('bad', event.bad);
    li.classList.toggle('fails', event.number === this.failing);
  }

  shows(event) {
    if (hidden.has(event.process)) return false;
    if (event.number === this.failing || event.number === this.difference) return true;
    if (!byId('deliveries').checked && event.quiet) return false;
    if (!byId('waits').checked && event.label === 'wait') return false;
    return !sought || !byId('only').checked || event.text.includes(sought);
  }

  draw() {
    this.rows = this.events.filter(event => this.shows(event));
    this.columns = this.processes.filter(p => !hidden.has(p));
    const room = Math.max(300, this.chart.clientWidth - GUTTER - 180);
    this.width = Math.max(64, Math.min(200, room / Math.max(1, this.columns.length)));
    this.place = new Map(this.rows.map((event, row) => [event.number, row * ROW + ROW / 2]));
    const at = new Map(this.columns.map((p, column) => [p, GUTTER + 20 + column * this.width]));
    this.x = p => at.get(p);
    for (const event of this.events) {
      event.li.hidden = !this.place.has(event.number);
      event.li.classList.toggle('match', !!sought && event.text.includes(sought));
      event.li.style.paddingLeft = (this.x(event.process) || 0) + 8 + 'px';
    }
    const width = GUTTER + 320 + (this.columns.length - 1) * this.width;
    this.list.style.width = Math.max(this.chart.clientWidth, width) + 'px';
    this.drawHeads();
    this.drawArrows();
    this.mark(this.now);
  }

  drawHeads() {
    this.heads.style.width = this.list.style.width;
    this.heads.replaceChildren(...this.columns.map(p => {
      const head = make('span');
      head.style.left = this.x(p) - 16 + 'px';
      head.style.maxWidth = this.width - 4 + 'px';
      head.append(make('b', pid(p)), nameOf(p));
      head.title = titled(p);
      return head;
    }));
  }

  // The event from which the arrow comes that ends in this one: where deliveries aren't shown, the send of what is
  // taken.
  origin(event) {
    let from = event.cause === null ? null : this.events[event.cause];
    if (from && from.delivers && !event.delivers && !this.place.has(from.number)) from = this.events[from.cause];
    return from && from.process !== event.process && this.place.has(from.number) ? from : null;
  }

  drawArrows() {
    const height = this.rows.length * ROW, parts = [];
    for (const x of this.columns.map(this.x)) {
      parts.push(`<line class="life" x1="${x}" x2="${x}" y1="0" y2="${height}"/>`);
    }
    for (const event of this.rows) {
      const y = this.place.get(event.number), x = this.x(event.process);
      const kind = event.bad ? ' bad' : event.words[0] === 'receive' ? ' receive' : '';
      parts.push(`<circle class="mark${kind}" cx="${x}" cy="${y}" r="4"/>`);
      const from = this.origin(event);
      if (from) {
        const sort = event.delivers && event.words[1] !== 'message' ? ' other' : '';
        const end = event.words[2] === 'dropped' ? ' lost' : '';
        parts.push(`<path class="arrow${sort}${end}" data-to="${event.number}" data-from="${from.number}"` +
          ` d="M${this.x(from.process)} ${this.place.get(from.number)}L${x} ${y}"/>`);
      }
      const child = event.words[0].startsWith('spawn') ? +event.words[1].slice(1, -1) : -1;
      if (this.x(child)) parts.push(`<path class="arrow spawn" d="M${x} ${y}L${this.x(child)} ${y}"/>`);
    }
    this.svg.setAttribute('width', parseFloat(this.list.style.width));
    this.svg.setAttribute('height', height);
    this.svg.innerHTML = '<defs><marker id="head" viewBox="0 0 6 6" refX="6" refY="3" markerWidth="6"' +
      ' markerHeight="6" orient="auto"><path d="M0 0L6 3L0 6z"/></marker></defs>' + parts.join('');
    this.arrows = new Map([...this.svg.querySelectorAll('[data-to]')].map(path => [+path.dataset.to, path]));
  }

  // Lights the causes of an event: strongly the way back from it, by signals where it has them and else by what its
  // process did before; weakly all that went before it as processes see it. Only what changes is touched.
  mark(number) {
    const past = new Set([number]), way = new Set();
    for (let i = number; i >= 0; i--) {
      if (!past.has(i)) continue;
      const { before, cause } = this.events[i];
      for (const earlier of [before, cause]) if (earlier !== null) past.add(earlier);
    }
    for (let i = number; i !== null; i = this.events[i].cause === null ? this.events[i].before : this.events[i].cause) {
      way.add(i);
    }
    this.light('lit', way, i => this.arrows.get(i));
    past.delete(number), way.delete(number);
    this.light('past', past, i => this.events[i].li);
    this.light('cause', way, i => this.events[i].li);
  }

  light(name, numbers, elementOf) {
    const old = this.lit.get(name) || new Map(), lit = new Map();
    for (const i of numbers) {
      const it = elementOf(i);
      if (!it) continue;
      lit.set(it, true);
      if (!old.delete(it)) it.classList.add(name);
    }
    for (const it of old.keys()) it.classList.remove(name);
    this.lit.set(name, lit);
  }

  go(number) {
    if (!this.events[number]) return;
    const old = this.events[this.now].li, li = this.events[number].li;
    old.classList.remove('now');
    old.setAttribute('aria-selected', 'false');
    this.now = number;
    li.classList.add('now');
    li.setAttribute('aria-selected', 'true');
    this.list.setAttribute('aria-activedescendant', li.id);
    this.mark(number);
    this.reveal();
  }

  reveal() {
    if (!this.place.has(this.now)) return;
    const y = this.place.get(this.now), top = this.chart.scrollTop, height = this.chart.clientHeight - 36;
    if (y < top + ROW || y > top + height - ROW) this.chart.scrollTop = y - height / 2;
    const x = this.x(this.events[this.now].process), left = this.chart.scrollLeft;
    const width = this.chart.clientWidth;
    if (x < left + GUTTER || x > left + width - 120) this.chart.scrollLeft = x - width / 2;
  }

  // The event that is so many shown ones on from the present one.
  step(by) {
    const numbers = this.rows.map(event => event.number);
    if (!numbers.length) return;
    let at = numbers.findIndex(number => number >= this.now);
    if (at < 0) at = numbers.length;
    if (by > 0 && numbers[at] !== this.now) at--;
    show(numbers[Math.max(0, Math.min(numbers.length - 1, at + by))]);
  }
}

// ---- what is beside the charts

let sought = '', shown = null;

function textOfSource() {
  const text = byId('source').textContent;
  const high = '\u20AC\x81\u201A\u0192\u201E\u2026\u2020\u2021\u02C6\u2030\u0160\u2039\u0152\x8D\u017D\x8F' +
    '\x90\u2018\u2019\u201C\u201D\u2022\u2013\u2014\u02DC\u2122\u0161\u203A\u0153\x9D\u017E\u0178';
  const bytes = Uint8Array.from(text, c => high.includes(c) ? 128 + high.indexOf(c) : c.charCodeAt(0));
  try {
    return new TextDecoder('utf-8', { fatal: true }).decode(bytes);
  } catch (_) {
    return text;
  }
}

const sourceLines = textOfSource().replace(/\n$/, '').split('\n').map((text, i) => {
  const line = make('div', text || ' ');
  line.dataset.line = i + 1;
  return line;
});
byId('lines').append(...sourceLines);
byId('source').remove();

function showSource(line, status) {
  for (const it of byId('lines').querySelectorAll('.lit, [data-at]')) {
    it.classList.remove('lit');
    it.removeAttribute('aria-current');
    delete it.dataset.at;
  }
  for (const [p, it] of status) {
    const where = sourceLines[it.line - 1];
    if (where && !it.ended) where.dataset.at = (where.dataset.at || '') + pid(p);
  }
  const lit = sourceLines[line - 1];
  if (!lit) return;
  lit.classList.add('lit');
  lit.setAttribute('aria-current', 'true');
  byId('lines').scrollTop = lit.offsetTop - byId('lines').offsetTop - byId('lines').clientHeight / 2;
}

function showEvent(event) {
  const box = byId('event'), events = shown.events;
  const said = number => number === null ? 'none' : (number + 1) + ': ' + titled(events[number].process) + ' ' +
    events[number].label;
  box.replaceChildren(
    make('h2', 'Event ' + (event.number + 1) + ' of ' + events.length + ': ' + (event.delivers
      ? pid(event.sender) + ' to ' + titled(event.process) : titled(event.process))),
    make('pre', event.label + (event.carried ? '\n' + event.carried : '')),
    make('div', (event.line ? 'in ' + event.name + ', line ' + event.line + '; ' : '') + 'choice ' + event.choice +
      '/' + event.count),
    make('div', 'Caused by event ' + said(event.cause === null ? event.before : event.cause)));
}

function showStatus(status) {
  const table = byId('status'), now = shown.events[shown.now];
  const head = make('tr');
  head.append(...['Process', 'Where', 'Status', 'Mailbox'].map(text => make('th', text)));
  for (const cell of head.children) cell.scope = 'col';
  const rows = [...status].sort((a, b) => a[0] - b[0]).map(([p, it]) => {
    const row = make('tr'), name = make('th', pid(p)), where = make('td'), box = make('td');
    name.scope = 'row';
    row.dataset.process = p;
    if (p === now.process) row.className = 'now';
    where.append(it.name + (it.line ? ', line ' + it.line : ''));
    const list = make('ol');
    for (const message of it.box) list.append(make('li'));
    it.box.forEach((message, i) => list.children[i].append(make('code', message.put)));
    box.append(it.box.length ? list : 'empty');
    row.append(name, where, make('td', it.where), box);
    return row;
  });
  table.replaceChildren(make('caption', 'After event ' + (shown.now + 1)), head, ...rows);
}

function showPlace() {
  const row = shown.rows.findIndex(event => event.number === shown.now);
  byId('place').textContent = 'Event ' + (shown.now + 1) + ' of ' + shown.events.length + ', ' + shown.rows.length +
    ' shown' + (row < 0 ? ', this one not' : '');
}

// Goes to the event of this number of the run that is looked at.
function show(number) {
  shown.go(number);
  const event = shown.events[shown.now];
  if (!event) return;
  const status = statusAfter(shown.events, shown.now);
  showEvent(event);
  showStatus(status);
  showSource(event.line || status.get(event.process).line, status);
  showPlace();
}

function redraw() {
  sought = byId('find').value.trim().toLowerCase();
  for (const run of runs) run.draw();
  const found = shown.events.filter(event => sought && event.text.includes(sought)).length;
  byId('found').textContent = sought ? found + ' of ' + shown.events.length + ' match' : '';
  show(shown.now);
}

// The next match, or the one before, round the end.
function match(by) {
  const found = shown.rows.filter(event => !sought || event.text.includes(sought)).map(event => event.number);
  if (!found.length) return;
  const next = by > 0 ? found.find(number => number > shown.now) : found.findLast(number => number < shown.now);
  show(next === undefined ? found[by > 0 ? 0 : found.length - 1] : next);
}

function hide(process, gone) {
  gone ? hidden.add(process) : hidden.delete(process);
  for (const box of byId('processes').querySelectorAll('input')) box.checked = !hidden.has(+box.value);
  redraw();
}

// ---- the start

const runs = [...document.querySelectorAll('body > section')]
  .map((section, i) => new Run(section, i ? 'Nearest run that holds' : 'Run'));
shown = runs[0];
for (const run of runs) byId('main').insertBefore(run.box, document.querySelector('aside'));
runs[0].heading.hidden = runs.length < 2;
if (runs.length > 1) {
  const [a, b] = runs.map(run => run.events);
  const same = (x, y) => ['label', 'carried', 'process', 'sender'].every(key => x[key] === y[key]);
  let i = 0;
  while (i < Math.min(a.length, b.length) && same(a[i], b[i])) i++;
  for (const run of runs) {
    const event = run.events[i];
    if (!event) continue;
    run.difference = i;
    event.li.classList.add('differs');
    event.li.setAttribute('aria-label', event.li.getAttribute('aria-label') + '. The runs differ from here on.');
  }
  runs[1].now = Math.min(i, b.length - 1);
  runs[1].heading.textContent += '. The runs differ from event ' + (i + 1) + ' on.';
}
document.body.className = 'live';
byId('top').hidden = byId('main').hidden = false;
document.title = 'Run of ' + root + ': ' + shown.outcome;
document.querySelector('h1').textContent = 'Run of ' + root;
byId('top').prepend(document.querySelector('h1'));
byId('names').remove();
byId('outcome').textContent = shown.outcome + ', ' + shown.verdict;
byId('outcome').classList.toggle('fails', !shown.holds);
byId('failing').disabled = shown.failing < 0;
for (const p of [...new Set(runs.flatMap(run => run.processes))].sort((a, b) => a - b)) {
  const label = make('label'), box = make('input');
  box.type = 'checkbox';
  box.checked = true;
  box.value = p;
  box.onchange = () => hide(p, !box.checked);
  label.append(box, ' ' + titled(p));
  byId('processes').append(label);
}

const focusList = () => shown.list.focus({ preventScroll: true });
const other = () => {
  shown = runs[(runs.indexOf(shown) + 1) % runs.length];
  focusList();
  show(shown.now);
};
const toggle = id => {
  byId(id).checked = !byId(id).checked;
  redraw();
};
const keys = {
  ArrowDown: () => shown.step(1), j: () => shown.step(1), ArrowRight: () => shown.step(1),
  ArrowUp: () => shown.step(-1), k: () => shown.step(-1), ArrowLeft: () => shown.step(-1),
  PageDown: () => shown.step(10), PageUp: () => shown.step(-10),
  Home: () => shown.step(-shown.events.length), End: () => shown.step(shown.events.length),
  f: () => shown.failing >= 0 && show(shown.failing), n: () => match(1), p: () => match(-1),
  c: () => shown.events[shown.now].cause !== null && show(shown.events[shown.now].cause),
  d: () => toggle('deliveries'), w: () => toggle('waits'), r: other,
  h: () => hide(shown.events[shown.now].process, true),
  a: () => { hidden.clear(); hide(-1, false); },
  '/': () => byId('find').focus(),
};
document.addEventListener('keydown', event => {
  const inField = event.target.matches('input[type=search]');
  if (event.ctrlKey || event.altKey || event.metaKey) return;
  if (inField && event.key === 'Enter') return match(event.shiftKey ? -1 : 1);
  if (inField && event.key === 'Escape') return event.preventDefault(), focusList();
  const isWalk = event.key.length > 1 && event.target.closest('#lines, button, input, summary');
  if (inField || isWalk || !keys[event.key]) return;
  event.preventDefault();
  keys[event.key]();
});
byId('first').onclick = keys.Home;
byId('back').onclick = keys.k;
byId('forward').onclick = keys.j;
byId('last').onclick = keys.End;
byId('failing').onclick = keys.f;
byId('deliveries').onchange = byId('waits').onchange = byId('only').onchange = byId('find').oninput = redraw;
for (const run of runs) {
  const eventAt = target => {
    const li = target.closest('li');
    return li && run.events[li.dataset.number - 1];
  };
  run.list.addEventListener('click', click => {
    const event = eventAt(click.target);
    shown = run;
    if (event) show(event.number);
  });
  run.list.addEventListener('focus', () => {
    if (shown === run) return;
    shown = run;
    show(run.now);
  });
  run.list.addEventListener('mouseover', over => {
    const event = eventAt(over.target);
    if (event && shown === run) run.mark(event.number), showEvent(event);
  });
  run.list.addEventListener('mouseleave', () => {
    if (!run.events.length) return;
    run.mark(run.now);
    if (shown === run) showEvent(run.events[run.now]);
  });
}
addEventListener('resize', redraw);
redraw();
for (const run of runs) if (run.events.length) run.go(run.now);
focusList();
</script>
</body>
</html>
"##;
