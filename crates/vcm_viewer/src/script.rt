//! The script of the page: tools/make_viewer.py makes this file from viewer/.

/// Part 1 of the script.
pub(crate) fn script_1() -> &'static [u8] {
    b"
\"use strict\";
// The data block of a page, read: what stood at the start, the steps, and what each of them changed. Every value that changes in a run is a
// list of the steps that changed it, so the state behind any step is found by bisection, forwards and back alike.

const bytesOfText = new TextDecoder(\"utf-8\");

// A text as it is shown: % and two digits is a byte; control and direction characters are made visible.
function shownText(text) {
  if (text.includes(\"%\")) {
    const bytes = [];
    for (let i = 0; i < text.length; i++) {
      if (text[i] === \"%\") {
        bytes.push(parseInt(text.substr(i + 1, 2), 16));
        i += 2;
      } else bytes.push(text.charCodeAt(i));
    }
    text = bytesOfText.decode(Uint8Array.from(bytes));
  }
  return text
    .replace(/[\\u0000-\\u0008\\u000b-\\u001f]/g, (c) => String.fromCharCode(0x2400 + c.charCodeAt(0)))
    .replace(/[\\u007f-\\u009f\\u061c\\u200b-\\u200f\\u2028-\\u202e\\u2060-\\u2069\\ufeff]/g, (c) => \"[U+\" + c.charCodeAt(0).toString(16).toUpperCase().padStart(4, \"0\") + \"]\");
}

// Values that a step sets, in the order of steps.
class Changes {
  constructor(first) {
    this.steps = [];
    this.values = [];
    this.first = first;
  }
  add(step, value) {
    this.steps.push(step);
    this.values.push(value);
  }
  // how many of them are at or before a step
  count(step) {
    let low = 0, high = this.steps.length;
    while (low < high) {
      const middle = (low + high) >> 1;
      if (this.steps[middle] <= step) low = middle + 1; else high = middle;
    }
    return low;
  }
  at(step) {
    const n = this.count(step);
    return n ? this.values[n - 1] : this.first;
  }
  // the step that set the value, or null where it is from the start
  setAt(step) {
    const n = this.count(step);
    return n ? this.steps[n - 1] : null;
  }
}

// A list of numbers that grows.
class Numbers {
  constructor(kind) {
    this.all = new kind(1024);
    this.length = 0;
  }
  push(x) {
    if (this.length === this.all.length) {
"
}

/// Part 2 of the script.
pub(crate) fn script_2() -> &'static [u8] {
    b"      const more = new this.all.constructor(2 * this.length);
      more.set(this.all);
      this.all = more;
    }
    this.all[this.length++] = x;
  }
  done() {
    return this.all.subarray(0, this.length);
  }
}

const micrometres = (text) => Number(text.replace(\".\", \"\"));
// a whole number of micrometres as millimetres, by its digits: an aim may be longer than a number of a script holds
function millimetresOf(text) {
  const digits = text.replace(\"-\", \"\").padStart(4, \"0\");
  return (text[0] === \"-\" ? \"-\" : \"\") + digits.slice(0, -3) + \".\" + digits.slice(-3);
}
// A frame of its name, which that of the first shown state has not, the point of its origin and the machine axes of its own.
function frameOf(name, words) {
  return { name, origin: words.slice(0, 3).map(Number), axes: words.slice(3, 6) };
}

// Whether a variable or a frame is one that no text names: it carries what is known of a whole program.
const isCarried = (name) => Number(name.split(\"#\")[1] || 0) > 2147483647 || /^(0|_{16}$)/.test(name);

// Whether part coordinates are the machine's.
const isMachine = (frame) => frame.origin.every((x) => x === 0) && frame.axes.join() === \"+X,+Y,+Z\";

// What is told of a step that sets a variable which no text names.
const CARRIED = \"carries what is known\";

// The run of a data block.
function readRun(text) {
  const run = {
    low: null, high: null, home: null, tip: 0, blocks: [], names: new Map(), lines: [], code: [], notices: [], from: 0, listed: null, aims: new Map(),
    variables: new Map(), settings: new Map(), nominal: new Map(), actual: new Map(), frame: new Changes(null),
    output: new Changes(null), touches: [], contact: null, stop: null, open: null, counts: new Map(), boxes: [], probes: null, turns: new Map(), metSteps: new Map(), beyond: [], lost: null, untried: null, adapted: null, why: null,
  };
  const statement = new Numbers(Uint32Array), line = new Numbers(Uint32Array), position = new Numbers(Float64Array);
  const done = [\"\"], pieceFrom = new Numbers(Uint32Array);
"
}

/// Part 3 of the script.
pub(crate) fn script_3() -> &'static [u8] {
    b"  const ends = new Numbers(Float64Array), kinds = [], pieceStep = new Numbers(Uint32Array);
  let step = 0, last = null, before = null, word = \"\";
  const piece = (kind, to) => {
    for (const x of last) ends.push(x);
    for (const x of to) ends.push(x);
    kinds.push(kind);
    pieceStep.push(step);
    last = to;
  };
  const rows = text.split(\"\\n\");
  if (rows[0] !== \"\" || rows[1] !== \"vcm-view 1\") throw new Error(\"the data is not of this version\");
  for (let i = 2; i < rows.length; i++) {
    const row = rows[i];
    const key = row.charCodeAt(0);
    if (key >= 48 && key <= 57) {
      const fields = row.split(\",\");
      const at = [micrometres(fields[4]), micrometres(fields[5]), micrometres(fields[6])];
      if (fields[7].startsWith(\"no stop after\")) {
        run.open = { statement: Number(fields[1]), line: Number(fields[2]), text: fields[7] };
        continue;
      }
      step++;
      word = fields[3];
      statement.push(Number(fields[1]));
      line.push(Number(fields[2]));
      for (const x of at) position.push(x);
      done.push(fields[7]);
      pieceFrom.push(kinds.length);
      last = before;
      before = at;
      const said = fields[7];
      if (said === \"moved\") piece(\"m\", at);
      else if (said.startsWith(\"stop \")) run.stop = { step, text: said };
      else if (said.includes(\"=\")) {
        const [name, value] = said.split(\" \")[0].split(\"=\");
        const map = word === \"SNSET\" ? run.settings : run.variables;
        if (map.has(name)) map.get(name).changes.add(step, value); else done[step] = CARRIED;
      }
      continue;
    }
    if (row === \"\") continue;
    const rest = row.slice(2);
    const words = rest.split(\" \");
    switch (row[0]) {
      case \"P\": run.low = words.slice(0, 3).map(Number); run.high = words.slice(3, 6).map(Number); break;
      case \"H\": run.home = words.map(Number); break;
      case \"T\": run.tip = Number(rest); break;
      case \"B\": run.blocks.push(words.map(Number)); break;
"
}

/// Part 4 of the script.
pub(crate) fn script_4() -> &'static [u8] {
    b"      case \"L\": run.lines.push(shownText(rest).replace(/\\u240d$/, \"\")); break;
      case \"I\": run.listed = Number(rest); break;
      case \"C\": run.code.push({ line: Number(words[0]), word: words[1] }); break;
      case \"V\": if (!isCarried(words[0])) run.variables.set(words[0], { kind: words[1], changes: new Changes(words[2]) }); break;
      case \"S\": run.settings.set(words[0], { changes: new Changes(words[1]) }); break;
      case \"N\": run.notices.push({ line: Number(words[0]), word: words[1] }); break;
      case \"D\": run.frame.first = frameOf(null, words); break;
      case \"F\": case \"f\": {
        const found = /^(FA?)\\((\\w+)\\)=FEAT\\/POINT,CART,(.*)$/.exec(rest);
        const map = found[1] === \"F\" ? run.nominal : run.actual;
        const value = found[3].split(\",\");
        if (!map.has(found[2])) map.set(found[2], new Changes(null));
        if (row[0] === \"F\") map.get(found[2]).first = value; else map.get(found[2]).add(step, value);
        break;
      }
      case \"K\": run.from = Number(words[0]); before = words.slice(1, 4).map(Number); for (const x of before) position.push(x); statement.push(0); line.push(0); pieceFrom.push(0); break;
      case \"m\": case \"a\": case \"s\": case \"r\": case \"x\":
        if (words.length > 3) run.aims.set(kinds.length, words.slice(3).map(millimetresOf));
        piece(row[0], words.slice(0, 3).map(Number));
        break;
      case \"t\": run.touches.push({ step, at: words.slice(0, 3).map(Number), name: words[3] }); break;
      case \"c\": run.contact = { step, at: words.slice(0, 3).map(Number), block: Number(words[3]) }; break;
      case \"d\": run.frame.add(step, frameOf(isCarried(words[0]) ? null : words[0], words.slice(1))); break;
      case \"o\": run.output.add(step, shownText(rest)); break;
      default: throw new Error(\"row \" + (i + 1) + \" of the data has an unknown key\");
    }
  }
  run.length = step;
  run.statement = statement.done();
  run.line = line.done();
  run.position = position.done();
  run.done = done;
  pieceFrom.push(kinds.length);
"
}

/// Part 5 of the script.
pub(crate) fn script_5() -> &'static [u8] {
    b"  run.pieceFrom = pieceFrom.done();
  run.kinds = kinds;
  run.ends = ends.done();
  run.pieceStep = pieceStep.done();
  run.touchSteps = new Changes(null);
  for (const touch of run.touches) run.touchSteps.add(touch.step, touch);
  countSteps(run, () => true);
  const title = run.lines.map((it) => /^\\s*DMISMN\\s*\\/\\s*'([^']*)'/i.exec(it)).find((it) => it);
  run.title = title ? title[1] : \"Run of an image\";
  return run;
}

// For each line the steps at which it is carried out.
function countSteps(run, isOne) {
  run.counts.clear();
  for (let k = 1; k <= run.length; k++) {
    const row = rowAt(run, k), list = run.counts.get(row);
    if (!isOne(k)) continue;
    if (list) list.push(k); else run.counts.set(row, [k]);
  }
}

// What is known of the machine behind a step: the frame, the mode, the table and the place of the probe.
const knownThings = [\"Frame\", \"Mode\", \"Table\", \"Place\"];

// What of a whole program wasn't tried, from lines `W WORDS` of the head, `U LINE COUNT WORDS`, `M STEP NUMBER` with the number of such a line, `E STEP` of a way that
// begins elsewhere, and `Y STEP FRAME MODE TABLE PLACE` where something else is known. A line of the text is put as several statements: it is carried out once
// however many of them are. The end of what it is put as may stand behind other lines.
function readUntried(run, text) {
  const found = (run.untried = { told: [], lines: new Map(), steps: new Map(), known: new Changes([true, true, true, true]) }), rows = [];
  for (const row of text.split(\"\\n\")) {
    const words = row.split(\" \"), step = Number(words[1]) - run.from;
    if (row[0] === \"W\") found.told.push(shownText(row.slice(2)));
    else if (row[0] === \"U\") {
      const line = Number(words[1]), it = { count: Number(words[2]), text: shownText(words.slice(3).join(\" \")) };
      rows.push(it);
      found.lines.set(line, [...(found.lines.get(line) || []), it]);
    } else if (row[0] === \"M\") found.steps.set(step, rows[Number(words[2])].text);
"
}

/// Part 6 of the script.
pub(crate) fn script_6() -> &'static [u8] {
    b"    else if (row[0] === \"E\" && step > 0) beginElsewhere(run, step);
    else if (row[0] === \"Y\") {
      const known = words.slice(2).map((it) => it === \"1\");
      if (step > 0) found.known.add(step, known); else found.known.first = known;
    }
  }
  const words = new Map();
  for (let i = run.code.length - 1; i >= 0; i--) words.set(rowOf(run, i), run.code[i].word);
  const isEnd = (k) => /^(ELSE|END(IF|DO|CAS|SEL))$/.test(run.code[run.statement[k]].word) && run.code[run.statement[k]].word !== words.get(rowAt(run, k));
  countSteps(run, (k) => (k === 1 || rowAt(run, k) !== rowAt(run, k - 1) || run.statement[k] <= run.statement[k - 1]) && !isEnd(k));
}

// Whether a text is one that `vcm adapt` wrote: behind `$$- ` stands what the producer's text had in a line. How many such lines there are, and on which of them a statement is left out that
// moves the probe, or leads to one that may.
const MOVING = /^\\s*\\$\\$- (.*=\\s*)?(GOTO|GOHOME|PTMEAS|PAMEAS|RMEAS|ROTAB|ROTATE|CALL|EXTFIL|SNSLCT)\\b/i;
function readAdapted(run) {
  const count = run.lines.filter((it) => it.includes(\"$$- \")).length;
  if (run.untried === null && count) run.adapted = { count, lines: run.lines.flatMap((it, i) => (MOVING.test(it) ? [i + 1] : [])) };
}

// The first piece of a step begins elsewhere.
function beginElsewhere(run, step) {
  const i = run.pieceFrom[step];
  if (i < run.pieceFrom[step + 1] && run.kinds[i] !== \"x\") run.kinds[i] = \"e\";
}

// The names of blocks, from lines `K NUMBER NAME`.
function readNames(run, text) {
  for (const row of text.split(\"\\n\")) {
    const words = row.split(\" \");
    if (words[0] === \"K\") run.names.set(Number(words[1]), shownText(words.slice(2).join(\" \")));
  }
}

// ---- what is asked of a run

// a block by its number, and its name where it has one
const blockText = (run, number) => \"block \" + number + (run.names.has(number) ? ` \"${run.names.get(number)}\"` : \"\");

// the line of the shown text that a statement stands on: of a program its source line, of a listing its own
"
}

/// Part 7 of the script.
pub(crate) fn script_7() -> &'static [u8] {
    b"const rowOf = (run, statement) => run.listed === null ? (run.code[statement] ? run.code[statement].line : 0) : run.listed + statement + 1;
const rowAt = (run, k) => rowOf(run, run.statement[k]);

const positionAt = (run, k) => [run.position[3 * k], run.position[3 * k + 1], run.position[3 * k + 2]];

// the statement that is next behind a step, or null behind the last one
function nextAt(run, k) {
  if (k < run.length) return { statement: run.statement[k + 1], line: run.line[k + 1] };
  return run.open;
}

// a machine point in the coordinates of a frame
function inFrame(frame, at) {
  return frame.axes.map((axis) => {
    const k = \"XYZ\".indexOf(axis[1]);
    const x = at[k] - frame.origin[k];
    return axis[0] === \"-\" ? 0 - x : x;
  });
}

// micrometres as millimetres with three decimals
function millimetres(x) {
  const size = Math.abs(x);
  return (x < 0 ? \"-\" : \"\") + Math.floor(size / 1000) + \".\" + String(size % 1000).padStart(3, \"0\");
}

// steps that move the probe or print
function isEvent(run, k) {
  return run.pieceFrom[k + 1] > run.pieceFrom[k] || turnIn(run, k) !== undefined || /^(output|stop) /.test(run.done[k]);
}

// What hangs on the machine: the boxes of one probe, or of several of which a variable of the program chooses one, where they meet blocks, and the turns of the head between them.

// Lines `Q NAME LOW HIGH` are boxes of a probe, counted from the centre of its tip; boxes of one name are one body. Of several probes each has a group, which `U NAME NUMBER`
// begins, with `D NAME HALF` for half the width of its tip and `G NAME PLACE` for the pivot, counted from the tip; lines `V NAME LOW HIGH` are what turns, counted from the pivot,
// and `X NAME` names the variable. The lines of `vcm clearance` follow: contacts, and how much room is left.
function readBoxes(run, text) {
  const bodies = new Map(), probes = new Map();
  let variable = null, probe = null;
  const part = (name, owner, numbers) => {
    const short = owner ? name.slice(owner.name.length + 1) : name;
"
}

/// Part 8 of the script.
pub(crate) fn script_8() -> &'static [u8] {
    b"    const own = bodies.get(name) || { name, short, title: owner ? `${short} of ${owner.name}` : name, probe: owner, isSwing: false, parts: [], contacts: [], room: null };
    own.parts.push({ low: numbers.slice(0, 3), high: numbers.slice(3, 6) });
    bodies.set(name, own);
    return own;
  };
  for (const row of text.split(\"\\n\")) {
    const words = row.split(\" \"), numbers = words.slice(2).map(Number);
    switch (words[0]) {
      case \"X\": variable = words[1].toUpperCase(); break;
      case \"U\": probe = { name: words[1], number: numbers[0], tip: run.tip, pivot: [0, 0, 0], ways: null }; probes.set(probe.number, probe); break;
      case \"D\": probe.tip = numbers[0]; break;
      case \"G\": probe.pivot = numbers; break;
      case \"Q\": part(words[1], probe, numbers); break;
      case \"V\": part(words[1], null, numbers).isSwing = true; break;
      case \"probe\": for (const it of probes.values()) if (it.name === words[1]) it.ways = words[2] === \"ways\" ? Number(words[3]) : 0; break;
      case \"box\": case \"swing\": if (words[2] === \"clear\") bodies.get(words[1]).room = Number(words[3]); break;
      case \"contact\": readContact(run, bodies.get(words[1]), words); break;
      case \"beyond\": if (words.length > 2) run.beyond.push({ kind: words[1], line: Number(words[5]), step: Number(words[7]) - run.from, at: words.slice(9, 12).map(micrometres) }); break;
      case \"no\": if (words[1] === \"probe\") run.lost = { value: words[2], line: Number(words[6]), step: Number(words[8]) - run.from }; break;
    }
  }
  run.boxes = [...bodies.values()];
  if (probes.size) readTurns(run, variable, probes);
}
function readContact(run, body, words) {
  const [, name, kind, , block, , permille, , , , line, , step, , x, y, z] = words;
  const contact = { name, kind, block: Number(block), permille: Number(permille), line: Number(line), step: Number(step) - run.from, at: [x, y, z].map(micrometres) };
  body.contacts.push(contact);
  run.metSteps.set(contact.step, [...(run.metSteps.get(contact.step) || []), { box: body, contact }]);
"
}

/// Part 9 of the script.
pub(crate) fn script_9() -> &'static [u8] {
    b"  if (!run.firstMet || contact.step < run.firstMet.step) run.firstMet = contact;
}

// The probe that is on behind each step: the last one whose number the variable had. Where another one hung there before, the head turns: the pivot stays, and the tip is put.
function readTurns(run, variable, probes) {
  const own = run.variables.get(variable), of = (value) => probes.get(Number(value));
  run.probes = { all: [...probes.values()], variable, on: new Changes(own && of(own.changes.first) ? of(own.changes.first) : null) };
  if (!own) return;
  own.changes.steps.forEach((step, i) => {
    const before = run.probes.on.at(step), now = of(own.changes.values[i]);
    if (!now || now === before) return;
    run.probes.on.add(step, now);
    if (before === null) return;
    const from = positionAt(run, step - 1), pivot = from.map((x, k) => x + before.pivot[k]), to = pivot.map((x, k) => x - now.pivot[k]);
    run.turns.set(step, { step, before, now, from, pivot, to });
  });
}

// ---- what is asked of it

const NONE = [];

// the probe that is on behind a step, of several; null where none is on, or there is one alone
const probeAt = (run, k) => (run.probes ? run.probes.on.at(k) : null);
// half the width of the tip behind a step
const tipAt = (run, k) => (probeAt(run, k) || run).tip;
// the turn of the head in a step, or nothing
const turnIn = (run, k) => run.turns.get(k);
// the bodies that hang on the machine behind a step
const bodiesAt = (run, k) => (run.probes ? run.boxes.filter((it) => !it.isSwing && it.probe === probeAt(run, k)) : run.boxes);

// the contacts of bodies in a step, each with its body
const contactsIn = (run, k) => run.metSteps.get(k) || NONE;

// the blocks that are met in a step, by the tip or by a body
const metIn = (run, k) => [...new Set([...(run.contact && run.contact.step === k ? [run.contact.block] : []), ...contactsIn(run, k).map((it) => it.contact.block)])];

// where the tip is shown behind a step: where it, or a body that is fixed to it, met a block first; behind a turn where it was put
"
}

/// Part 10 of the script.
pub(crate) fn script_10() -> &'static [u8] {
    b"function shownAt(run, k) {
  const met = contactsIn(run, k).find((it) => !it.box.isSwing), turn = turnIn(run, k);
  return met ? met.contact.at : run.contact && run.contact.step === k ? run.contact.at : turn ? turn.to : positionAt(run, k);
}

// The way of the tip in a turn, as points about the pivot.
const PLACES_OF_TURN = 16;
function arcOf({ from, to, pivot }) {
  const [a, b] = [from, to].map((at) => at.map((x, k) => x - pivot[k])), [p, q] = [a, b].map((it) => Math.hypot(...it) || 1);
  const angle = Math.acos(Math.max(-1, Math.min(1, a.reduce((sum, x, k) => sum + (x / p) * (b[k] / q), 0)))), sine = Math.sin(angle);
  return Array.from({ length: PLACES_OF_TURN + 1 }, (_, i) => {
    const t = i / PLACES_OF_TURN, far = p + t * (q - p);
    // directions that are equal or opposed have no one turn between them: there the way is straight
    if (sine < 1e-6) return pivot.map((x, k) => x + a[k] + t * (b[k] - a[k]));
    return pivot.map((x, k) => x + far * ((Math.sin((1 - t) * angle) / sine) * (a[k] / p) + (Math.sin(t * angle) / sine) * (b[k] / q)));
  });
}

// What is said of a run in words: how it ended, what a step did, how wide the tip is, how far a point is off.

const stopWords = { TRAVEL: \"Outside the limits\", MISSED: \"Touched nothing\" };
const countText = (n, one, more) => n.toLocaleString(\"en\") + \" \" + (n === 1 ? one : more);
const tipText = (run, k = 0) => (tipAt(run, k) ? `tip \\u2300 ${millimetres(2 * tipAt(run, k))} mm` : \"tip a point\");
const frameText = (frame) => (frame.name ? frame.name + \": \" : \"\") + \"origin \" + frame.origin.map(millimetres).join(\" \") + \", X \" + frame.axes[0] + \", Y \" + frame.axes[1] + \", Z \" + frame.axes[2];
const metText = (run, box, contact) => `${box.isSwing ? \"in its turn the head (\" + box.name + \")\" : box.title} meets ${blockText(run, contact.block)}`;

// The line on which the run stopped before its end, or 0.
const stopLineOf = (run) => (run.stop && !run.stop.text.startsWith(\"stop ENDED\") ? rowAt(run, run.stop.step) : 0);

"
}

/// Part 11 of the script.
pub(crate) fn script_11() -> &'static [u8] {
    b"// How the run ended, which hangs on the tip alone.
function endingOf(run) {
  const line = run.stop ? run.stop.text.slice(5) : run.open ? run.open.text : \"\";
  const word = line.split(\" \")[0];
  const place = /at (\\d+) line (\\d+)$/.exec(line);
  const hit = /block (\\d+) permille (\\d+)/.exec(line);
  let text, kind = \"bad\";
  if (run.lost) text = `No probe has the number ${run.lost.value} on line ${run.lost.line}`;
  else if (word === \"ENDED\") [kind, text] = [\"ok\", \"Came to its end, no collision\"];
  else if (!run.stop) [kind, text] = [\"warn\", \"Not at its end: \" + line];
  else if (hit) text = `Collision with ${blockText(run, Number(hit[1]))} on line ${place[2]}${callText(run)}, ${wayText(run, line.split(\" \")[1].toLowerCase(), hit[2])}`;
  else text = (stopWords[word] || \"Stopped: \" + word) + (word === \"TRAVEL\" ? \" (\" + line.split(\" \")[1].toLowerCase() + \")\" : \"\") + (place ? \" on line \" + place[2] + callText(run) : \"\");
  return { kind, text, line };
}

// The call that the line of the stop comes from, where the page says why it stops.
function callText(run) {
  const call = run.why && run.why.lines.find((it) => it.call);
  return call ? `, in ${call.call} called from line ${call.line}` : \"\";
}

// How far the probe came on the way to a contact, in millimetres; in thousandths where the way isn't in the page.
function wayText(run, kind, permille) {
  const i = run.kinds.lastIndexOf(\"x\"), { contact } = run;
  if (i < 0 || !contact || run.pieceStep[i] !== contact.step) return `after ${permille} thousandths of the ${kind}`;
  // of the way that is stopped the piece up to the contact stands before that which isn't reached
  const before = run.ends.subarray(i > run.pieceFrom[contact.step] ? 6 * (i - 1) : 6 * i);
  const aim = run.aims.has(i) ? run.aims.get(i).map((it) => 1000 * Number(it)) : run.ends.subarray(6 * i + 3);
  const far = (to) => (Math.hypot(...contact.at.map((_, k) => to[k] - before[k])) / 1000).toFixed(1);
"
}

/// Part 12 of the script.
pub(crate) fn script_12() -> &'static [u8] {
    b"  return `${far(contact.at)} mm into ${kind === \"approach\" ? \"an\" : \"a\"} ${kind} of ${far(aim)} mm`;
}

// Whether something of the text wasn't tried, as a page of `--whole` knows it.
const isPartly = (run) => run.untried !== null && run.untried.told.length > 0;

// The verdict of the page: what the boxes of the probe meet is told first, and then how the run ended.
function verdictOf(run) {
  const told = endingOf(run), first = run.firstMet, more = run.boxes.filter((it) => it.contacts.length).length - 1;
  if (!first && run.beyond.length) return { ...told, kind: \"bad\", text: `The pivot of the head goes beyond its limits on line ${run.beyond[0].line}; ${told.text}` };
  if (!first) return told;
  const text = `${metText(run, run.boxes.find((it) => it.name === first.name), first).replace(/^in/, \"In\")} on line ${first.line}` + (more > 0 ? `, and ${more} more of the boxes meet blocks` : \"\");
  return { ...told, kind: \"bad\", text: told.kind === \"ok\" ? `${text}; the tip itself meets nothing` : `${text}; ${told.text}` };
}

// The verdict with what wasn't tried: what ended well is no more than that, and no run is green of which something wasn't tried.
function verdictWithUntried(run) {
  const told = verdictOf(run);
  if (run.adapted) {
    const { count, lines } = run.adapted, most = lines.slice(0, 8).join(\" \") + (lines.length > 8 ? \" ..\" : \"\");
    const text = `${told.text}; ${countText(count, \"line was\", \"lines were\")} put otherwise or left out by vcm adapt` + (lines.length ? `, with what may move on ${lines.length === 1 ? \"line\" : \"lines\"} ${most}` : \"\");
    return told.kind === \"ok\" ? { ...told, kind: \"warn\", sign: \"?\", text } : { ...told, text };
  }
  if (!isPartly(run)) return told;
  const text = `${told.text}; not all of it was tried`;
  return told.kind === \"ok\" ? { ...told, kind: \"warn\", sign: \"?\", text } : { ...told, text };
}

// What a page is about, in numbers.
function factsOf(run) {
"
}

/// Part 13 of the script.
pub(crate) fn script_13() -> &'static [u8] {
    b"  const facts = [countText(run.length + run.from, \"step\", \"steps\"), countText(run.blocks.length, \"block\", \"blocks\"), run.probes ? countText(run.probes.all.length, \"probe\", \"probes\") : tipText(run)];
  if (run.touches.length) facts.push(countText(run.touches.length, \"measured point\", \"measured points\"));
  if (run.boxes.length && !run.probes) facts.push(countText(run.boxes.length, \"box of the probe\", \"boxes of the probe\"));
  if (run.turns.size) facts.push(countText(run.turns.size, \"turn of the head\", \"turns of the head\"));
  if (run.notices.length) facts.push(countText(run.notices.length, \"notice\", \"notices\"));
  return facts.join(\" \\u00b7 \") + (run.from ? ` \\u00b7 shown: the last ${run.length.toLocaleString(\"en\")} steps` : \"\");
}

// The word of a step's statement, but of one that carries what is known.
const wordAt = (run, k) => (run.done[k] === CARRIED ? \"\" : run.code[run.statement[k]].word);

// What a step did, for a reader.
function doneText(run, k) {
  if (k === 0) return run.from ? \"the steps before this are not in this page\" : \"the start\";
  if (run.untried && run.untried.steps.has(k)) return run.untried.steps.get(k);
  const said = run.done[k], next = /(?:^| )next (\\d+)$/.exec(said);
  const where = next && run.code[Number(next[1])] ? \"on to line \" + run.code[Number(next[1])].line : \"\";
  if (said === CARRIED) return CARRIED;
  if (said === \"moved\") return \"to \" + positionAt(run, k).map(millimetres).join(\" \");
  if (said.startsWith(\"stop \")) return said;
  if (said.startsWith(\"FA(\")) return said.replace(/^FA\\((\\w+)\\) /, \"$1 touched at \");
  if (/^output /.test(said)) return run.output.at(k);
  if (/^F\\(/.test(said)) return \"declares \" + said;
  if (/^D\\(/.test(said)) return frameText(run.frame.at(k));
  if (said.includes(\"=\")) return said.split(\" \")[0].replace(\"=\", \" = \") + (where ? \", \" + where : \"\") + turnText(run, k);
  return where;
}

// What of a probe is changed in a step, behind the value that chooses it.
function turnText(run, k) {
  const turn = turnIn(run, k), now = probeAt(run, k);
"
}

/// Part 14 of the script.
pub(crate) fn script_14() -> &'static [u8] {
    b"  if (turn) return `; ${turn.before.name} is changed for ${turn.now.name}, the tip is put at ${turn.to.map(millimetres).join(\" \")}`;
  return now && now !== probeAt(run, k - 1) ? `; ${now.name} is on` : \"\";
}

// Whether two frames are the same: their origin and their axes.
const isSameFrame = (one, other) => one.origin.join() === other.origin.join() && one.axes.join() === other.axes.join();

// How far a point that a step measured lies from its nominal one along its direction, in micrometres; null where its FEAT isn't known to have been carried out in the frame of the measurement.
function deviationOf(run, name, step) {
  const nominal = run.nominal.get(name), actual = run.actual.get(name), declared = nominal ? nominal.setAt(step) : null;
  const n = nominal && nominal.at(step), a = actual && actual.at(step);
  if (!n || !a || declared === null || !isSameFrame(run.frame.at(declared), run.frame.at(step))) return null;
  return [0, 1, 2].reduce((sum, k) => sum + (micrometres(a[k]) - micrometres(n[k])) * Number(a[3 + k]), 0);
}

// Elements of the page: made with texts as texts, and lists of which only what changes is made anew.

const $ = (id) => document.getElementById(id);

function element(tag, text, className) {
  const it = document.createElement(tag);
  if (text !== undefined) it.textContent = text;
  if (className) it.className = className;
  return it;
}
const cell = (text, className) => element(\"td\", text, className);
function rowHead(name) {
  const head = element(\"th\", name);
  head.scope = \"row\";
  return head;
}

// A list of which the rows in view are made, and those of a few pieces beside them; the other pieces are as high as they were, or as so many rows are.
const ROWS_OF_PIECE = 25;
class Rows {
  // `box` scrolls, `holder` takes the pieces, which are elements of this tag; `make` makes the row of a number, and `update` sets what of it hangs on the step.
  constructor(box, holder, tag, high, make, update) {
"
}

/// Part 15 of the script.
pub(crate) fn script_15() -> &'static [u8] {
    b"    Object.assign(this, { box, holder, tag, high, make, update, count: 0, pieces: [], isOnPaper: false });
    this.watch = new IntersectionObserver((seen) => { for (const it of seen) this.seen(it.target, it.isIntersecting); }, { root: box, rootMargin: \"150px\" });
  }
  // So many rows, as they are behind a step. Where there are more or fewer than before, the last ones are in view.
  show(count, k, isGrowing = false) {
    this.k = k;
    const isOther = count !== this.count;
    this.count = count;
    while (this.pieces.length * ROWS_OF_PIECE < count) this.add();
    while ((this.pieces.length - 1) * ROWS_OF_PIECE >= count && this.pieces.length) this.drop();
    this.pieces.forEach((it, i) => {
      if (it.isSeen || this.isOnPaper || i === 0 || (isGrowing && i >= this.pieces.length - 2)) this.fill(it); else this.empty(it);
    });
    if (isGrowing && isOther) this.box.scrollTop = 1e9;
  }
  // All rows are other ones.
  forget() {
    while (this.pieces.length) this.drop();
    this.count = 0;
  }
  add() {
    const place = document.createElement(this.tag), piece = { place, from: this.pieces.length * ROWS_OF_PIECE, rows: null, high: 0, isSeen: false };
    place.piece = piece;
    this.pieces.push(piece);
    this.holder.append(place);
    this.watch.observe(place);
  }
  drop() {
    const { place } = this.pieces.pop();
    this.watch.unobserve(place);
    place.remove();
  }
  seen({ piece }, isIn) {
    if (isIn === piece.isSeen) return;
    piece.isSeen = isIn;
    if (isIn) this.fill(piece);
  }
  fill(piece) {
    const { rows = [] } = piece, wanted = Math.min(ROWS_OF_PIECE, this.count - piece.from), own = rows || [];
    if (rows === null) piece.place.replaceChildren();
    while (own.length > wanted) own.pop().remove();
    while (own.length < wanted) {
      own.push(this.make(piece.from + own.length));
      piece.place.append(own[own.length - 1]);
    }
    piece.rows = own;
    own.forEach((row, i) => this.update(row, piece.from + i, this.k));
  }
  empty(piece) {
"
}

/// Part 16 of the script.
pub(crate) fn script_16() -> &'static [u8] {
    b"    const wanted = Math.min(ROWS_OF_PIECE, this.count - piece.from), high = wanted * this.high;
    if (piece.rows === null && piece.high === high) return;
    const room = document.createElement(this.tag === \"tbody\" ? \"tr\" : \"li\");
    room.style.height = high + \"px\";
    room.className = \"room\";
    piece.rows = null;
    piece.high = high;
    piece.place.replaceChildren(room);
  }
  forPaper(is) {
    this.isOnPaper = is && this.count <= 2000;
  }
}

// Sets a text or a class where it is another one than stands there.
function setText(it, text) {
  if (it.textContent !== text) it.textContent = text;
}
function setClass(it, className) {
  if (it.className !== className) it.className = className;
}

// The three views, on plain canvases: blocks, the way, touched points, home, the tip and the contact. All three have one centre and one
// scale, so that they stay in line with each other.

const sheets = {
  top: { right: 0, up: 1, name: \"Top view\", order: (a, b) => a[5] - b[5], near: (b) => b[5] },
  front: { right: 0, up: 2, name: \"Front view\", order: (a, b) => b[1] - a[1], near: (b) => -b[1] },
  side: { right: 1, up: 2, name: \"Right side view\", order: (a, b) => a[3] - b[3], near: (b) => b[3] },
};
const kindNames = { m: \"move\", a: \"approach\", s: \"search\", r: \"retract\", x: \"not reached\", e: \"begins elsewhere\" };
const dashes = { m: [], a: [7, 4], s: [], r: [2, 4], x: [5, 5], e: [11, 6] };
const widths = { m: 1.6, a: 1.6, s: 2.6, r: 1.8, x: 1.2, e: 1.6 };

// The colours of the scheme that is shown, as the style sheet has them.
function readColours() {
  const style = getComputedStyle(document.documentElement);
  const get = (name) => style.getPropertyValue(\"--\" + name).trim();
  const names = [\"paper\", \"ink\", \"muted\", \"grid\", \"block\", \"block-high\", \"block-line\", \"hit\", \"hit-line\", \"m\", \"a\", \"s\", \"r\", \"x\", \"e\", \"probe\", \"accent\", \"danger\"];
  return Object.fromEntries(names.map((name) => [name, get(name)]));
}

// Colours between two, as #rrggbb.
function between(one, two, t) {
"
}

/// Part 17 of the script.
pub(crate) fn script_17() -> &'static [u8] {
    b"  const of = (c, i) => parseInt(c.slice(1 + 2 * i, 3 + 2 * i), 16);
  return \"#\" + [0, 1, 2].map((i) => Math.round(of(one, i) + t * (of(two, i) - of(one, i))).toString(16).padStart(2, \"0\")).join(\"\");
}

// A step of 1, 2 or 5 times a power of ten micrometres that is at least so long.
function niceStep(least) {
  const power = 10 ** Math.floor(Math.log10(Math.max(least, 1)));
  return [1, 2, 5, 10].map((x) => x * power).find((x) => x >= least);
}

// Whether a way has so many pieces that they would cover the workpiece. Of such a one the last part up to a step is drawn strongly, from the piece that is answered on.
const isDense = (run) => run.kinds.length > 2000;
const strongFrom = (run, k) => (isDense(run) ? Math.max(0, run.pieceFrom[k] - 400) : 0);

// How large the dots of touched points are: of many they are small, and cover little of what lies below.
const dotSize = (run) => (run.touches.length > 1000 ? 1.2 : run.touches.length > 100 ? 1.8 : 3.5);

// The turns of the head up to a step, of many the last ones.
const MOST_TURNS = 200;
const turnsUpTo = (run, k) => (run.turns.size ? [...run.turns.values()].filter((it) => it.step <= k).slice(-MOST_TURNS) : NONE);

// The least box around points.
function boxOf(points) {
  const low = [Infinity, Infinity, Infinity], high = [-Infinity, -Infinity, -Infinity];
  for (const p of points) for (let k = 0; k < 3; k++) {
    low[k] = Math.min(low[k], p[k]);
    high[k] = Math.max(high[k], p[k]);
  }
  return { low, high };
}

function* pointsOfPart(run) {
  for (const b of run.blocks) for (let n = 0; n < 8; n++) yield [b[n & 1 ? 3 : 0], b[n & 2 ? 4 : 1], b[n & 4 ? 5 : 2]];
}
function* pointsOfWhole(run) {
  yield run.home;
  yield* pointsOfPart(run);
  for (let i = 0; i < run.ends.length; i += 3) yield [run.ends[i], run.ends[i + 1], run.ends[i + 2]];
}

// Names at points, each at the first of four places where it meets none that stands already, or left out.
class Labels {
  constructor(g, colours, width, height) {
"
}

/// Part 18 of the script.
pub(crate) fn script_18() -> &'static [u8] {
    b"    Object.assign(this, { g, colours, width, height, taken: [], points: [] });
  }
  put(text, x, y, colour, always = false, away = 10) {
    const g = this.g;
    if (this.points.some((it) => it[0] === text && Math.hypot(it[1] - x, it[2] - y) < 8)) return;
    this.points.push([text, x, y]);
    g.font = \"600 11px system-ui, sans-serif\";
    const w = g.measureText(text).width;
    for (const [left, top] of [[x + away, y - 17], [x + away, y + 4], [x - away - w, y - 17], [x - away - w, y + 4]]) {
      const box = [left - 2, top, left + w + 2, top + 14];
      const inside = left >= 2 && left + w <= this.width - 2 && top >= 2 && top + 14 <= this.height - 2;
      const free = this.taken.every((it) => box[0] > it[2] || box[2] < it[0] || box[1] > it[3] || box[3] < it[1]);
      if (!always && !(inside && free)) continue;
      if (always && !inside && left === x + away) continue;
      this.taken.push(box);
      g.lineJoin = \"round\";
      g.strokeStyle = this.colours.paper;
      g.lineWidth = 3.5;
      g.strokeText(text, left, top + 11);
      g.fillStyle = colour;
      g.fillText(text, left, top + 11);
      return;
    }
  }
  // keeps names away from a mark
  keep(x, y, half) { this.taken.push([x - half, y - half, x + half, y + half]); }
}

class Sheet {
  constructor(run, canvas, key, camera) {
    this.run = run;
    this.canvas = canvas;
    this.key = key;
    this.sheet = sheets[key];
    this.camera = camera;
    this.fixed = document.createElement(\"canvas\");
    this.fixedFor = \"\";
    this.sorted = run.blocks.map((b, i) => ({ b, number: i + 1 })).sort((p, q) => this.sheet.order(p.b, q.b) || q.number - p.number);
    const nears = run.blocks.map(this.sheet.near);
    this.least = nears.reduce((a, b) => Math.min(a, b), Infinity);
    this.most = nears.reduce((a, b) => Math.max(a, b), -Infinity);
  }

  size(ratio) {
    this.width = this.canvas.clientWidth;
    this.height = this.canvas.clientHeight;
    this.ratio = ratio;
"
}

/// Part 19 of the script.
pub(crate) fn script_19() -> &'static [u8] {
    b"    const w = Math.round(this.width * ratio), h = Math.round(this.height * ratio);
    if (this.canvas.width !== w || this.canvas.height !== h) {
      this.canvas.width = w;
      this.canvas.height = h;
      this.fixedFor = \"\";
    }
    return w > 0 && h > 0;
  }

  x(p) { return this.width / 2 + (p - this.camera.centre[this.sheet.right]) * this.camera.scale; }
  y(p) { return this.height / 2 - (p - this.camera.centre[this.sheet.up]) * this.camera.scale; }
  place(at) { return [this.x(at[this.sheet.right]), this.y(at[this.sheet.up])]; }

  // Lines, blocks and, faintly, the whole way (of a very long run each of so many pieces): what stays from step to step.
  drawFixed(colours, met) {
    const c = this.camera;
    const wanted = [met.join(), c.centre.join(), c.scale, this.canvas.width, this.canvas.height, colours.paper].join(\";\");
    if (this.fixedFor === wanted) return;
    this.fixedFor = wanted;
    this.fixed.width = this.canvas.width;
    this.fixed.height = this.canvas.height;
    const g = this.fixed.getContext(\"2d\");
    g.scale(this.ratio, this.ratio);
    g.fillStyle = colours.paper;
    g.fillRect(0, 0, this.width, this.height);
    this.drawGrid(g, colours);
    this.drawBlocks(g, colours, met);
    g.globalAlpha = isDense(this.run) ? 0.1 : 0.28;
    this.drawPieces(g, colours, 0, this.run.kinds.length, 0.8);
    g.globalAlpha = 1;
    this.drawScale(g, colours);
  }

  drawGrid(g, colours) {
    const { right, up } = this.sheet, { centre, scale } = this.camera;
    const step = niceStep(44 / scale);
    g.strokeStyle = colours.grid;
    g.lineWidth = 1;
    g.beginPath();
    const half = this.width / 2 / scale, high = this.height / 2 / scale;
    for (let x = Math.ceil((centre[right] - half) / step) * step; x <= centre[right] + half; x += step) { g.moveTo(this.x(x), 0); g.lineTo(this.x(x), this.height); }
    for (let y = Math.ceil((centre[up] - high) / step) * step; y <= centre[up] + high; y += step) { g.moveTo(0, this.y(y)); g.lineTo(this.width, this.y(y)); }
    g.stroke();
"
}

/// Part 20 of the script.
pub(crate) fn script_20() -> &'static [u8] {
    b"    const run = this.run;
    g.setLineDash([9, 3, 2, 3]);
    g.strokeStyle = colours.muted;
    g.strokeRect(this.x(run.low[right]), this.y(run.high[up]), (run.high[right] - run.low[right]) * scale, (run.high[up] - run.low[up]) * scale);
    g.setLineDash([]);
  }

  drawScale(g, colours) {
    const step = niceStep(44 / this.camera.scale), long = step * this.camera.scale, text = step < 1000 ? step + \" \\u00b5m\" : step / 1000 + \" mm\";
    g.font = \"11px system-ui, sans-serif\";
    for (const [colour, wide] of [[colours.paper, 4], [colours.ink, 1]]) {
      g.strokeStyle = colour;
      g.lineWidth = wide;
      g.beginPath();
      g.moveTo(8.5, this.height - 13); g.lineTo(8.5, this.height - 8.5); g.lineTo(8.5 + long, this.height - 8.5); g.lineTo(8.5 + long, this.height - 13);
      g.stroke();
      if (wide > 1) g.strokeText(text, 14, this.height - 14);
    }
    g.fillStyle = colours.ink;
    g.fillText(text, 14, this.height - 14);
  }

  drawBlocks(g, colours, met) {
    const { right, up, near } = this.sheet, scale = this.camera.scale;
    const many = this.sorted.length > 500;
    const span = this.most - this.least;
    for (const { b, number } of this.sorted) {
      const x = this.x(b[right]), y = this.y(b[up + 3]), w = (b[right + 3] - b[right]) * scale, h = (b[up + 3] - b[up]) * scale;
      if (x > this.width || y > this.height || x + w < 0 || y + h < 0) continue;
      const isHit = met.includes(number);
      g.fillStyle = isHit ? colours.hit : between(colours.block, colours[\"block-high\"], span ? (near(b) - this.least) / span : 1);
      g.fillRect(x, y, w, h);
      g.strokeStyle = isHit ? colours[\"hit-line\"] : colours[\"block-line\"];
      g.lineWidth = isHit ? 2 : many ? 0.5 : 1;
      g.strokeRect(x, y, w, h);
      const text = String(number);
      if (w > 8 + 7 * text.length && h > 16) {
        g.font = \"11px system-ui, sans-serif\";
        g.fillStyle = isHit ? colours[\"hit-line\"] : colours.muted;
        g.fillText(text, x + 4, y + 12);
      }
    }
  }

"
}

/// Part 21 of the script.
pub(crate) fn script_21() -> &'static [u8] {
    b"  // Pieces from one number up to another, those of a kind in one go.
  drawPieces(g, colours, from, to, wide) {
    const { right, up } = this.sheet, ends = this.run.ends, kinds = this.run.kinds;
    const thin = isDense(this.run) ? 0.6 : 1;
    for (const kind of \"meaxrs\") {
      g.strokeStyle = colours[kind];
      g.lineWidth = widths[kind] * wide * thin;
      g.setLineDash(to - from > 20000 ? [] : dashes[kind]);
      // a stroke of very many pieces that lie over each other is slow: so few in one go, and none that would not be seen
      let held = 0, lastX = NaN, lastY = NaN;
      g.beginPath();
      for (let i = from; i < to; i++) {
        if (kinds[i] !== kind) continue;
        const x = this.x(ends[6 * i + right]), y = this.y(ends[6 * i + up]), p = this.x(ends[6 * i + 3 + right]), q = this.y(ends[6 * i + 3 + up]);
        if (Math.max(x, p) < 0 || Math.min(x, p) > this.width || Math.max(y, q) < 0 || Math.min(y, q) > this.height) continue;
        if (to - from > 5000 && Math.abs(p - x) + Math.abs(q - y) < 0.4) continue;
        if (x !== lastX || y !== lastY) g.moveTo(x, y);
        g.lineTo(p, q);
        lastX = p;
        lastY = q;
        if (++held === 200) { g.stroke(); g.beginPath(); held = 0; lastX = NaN; }
      }
      if (held) g.stroke();
    }
    g.setLineDash([]);
  }

  draw(colours, k, probe) {
    const run = this.run;
    this.drawFixed(colours, metIn(run, k));
    const g = this.canvas.getContext(\"2d\");
    g.setTransform(1, 0, 0, 1, 0, 0);
    g.drawImage(this.fixed, 0, 0);
    g.setTransform(this.ratio, 0, 0, this.ratio, 0, 0);
    g.lineCap = \"round\";
    const now = run.pieceFrom[k], end = k ? run.pieceFrom[k + 1] : 0;
    this.drawPieces(g, colours, strongFrom(run, k), now, 1);
    for (let i = now; i < end; i++) this.drawCurrent(g, colours, i);
    const touched = run.touchSteps.count(k);
    for (let i = Math.max(0, touched - 2500); i < touched; i++) this.dot(g, colours, run.touches[i].at, colours.s, dotSize(run));
"
}

/// Part 22 of the script.
pub(crate) fn script_22() -> &'static [u8] {
    b"    this.labels = new Labels(g, colours, this.width, this.height);
    this.labels.keep(...this.place(probe), 7);
    if (run.contact && run.contact.step === k) this.labels.put(blockText(run, run.contact.block), ...this.place(run.contact.at), colours.danger, true, Math.max(10, tipAt(run, k) * this.camera.scale + 5));
    this.mark(g, colours, run.home, \"home\", colours.muted);
    for (const turn of turnsUpTo(run, k)) this.drawTurn(g, colours, turn, turn.step === k);
    this.drawBoxes(g, colours, k, probe);
    this.drawProbe(g, colours, probe, tipAt(run, k));
    if (run.contact && run.contact.step === k) this.drawContact(g, colours, run.contact);
    if (run.touches.length <= 200) this.names(touched, colours.ink);
  }

  drawCurrent(g, colours, i) {
    const { right, up } = this.sheet, ends = this.run.ends, kind = this.run.kinds[i];
    const x = this.x(ends[6 * i + right]), y = this.y(ends[6 * i + up]), p = this.x(ends[6 * i + 3 + right]), q = this.y(ends[6 * i + 3 + up]);
    g.strokeStyle = colours.paper;
    g.lineWidth = widths[kind] * 2.2 + 3;
    g.beginPath(); g.moveTo(x, y); g.lineTo(p, q); g.stroke();
    g.strokeStyle = colours[kind];
    g.lineWidth = widths[kind] * 2.2;
    g.setLineDash(dashes[kind].map((d) => d * 1.3));
    g.beginPath(); g.moveTo(x, y); g.lineTo(p, q); g.stroke();
    g.setLineDash([]);
    const long = Math.hypot(p - x, q - y);
    if (long < 26 || kind === \"x\") return;
    const u = (p - x) / long, v = (q - y) / long, m = x + (p - x) * 0.6, n = y + (q - y) * 0.6;
    g.fillStyle = colours[kind];
    g.beginPath(); g.moveTo(m + 8 * u, n + 8 * v); g.lineTo(m - 5 * u - 5 * v, n - 5 * v + 5 * u); g.lineTo(m - 5 * u + 5 * v, n - 5 * v - 5 * u); g.fill();
  }

  dot(g, colours, at, colour, size) {
    const [x, y] = this.place(at);
    g.fillStyle = colour;
    g.strokeStyle = colours.paper;
    g.lineWidth = 1;
    g.beginPath(); g.arc(x, y, size, 0, 7); g.fill();
    if (size > 2) g.stroke();
  }

  mark(g, colours, at, text, colour) {
    const [x, y] = this.place(at);
"
}

/// Part 23 of the script.
pub(crate) fn script_23() -> &'static [u8] {
    b"    g.strokeStyle = colour;
    g.lineWidth = 1.5;
    g.strokeRect(x - 4, y - 4, 8, 8);
    this.labels.put(text, x, y, colour);
  }

  names(touched, colour) {
    for (let i = touched - 1; i >= 0; i--) this.labels.put(this.run.touches[i].name, ...this.place(this.run.touches[i].at), colour);
  }

  drawProbe(g, colours, at, tip) {
    const [x, y] = this.place(at), half = tip * this.camera.scale;
    g.strokeStyle = colours.probe;
    g.fillStyle = colours.probe;
    g.lineWidth = 2;
    if (half > 4) {
      g.globalAlpha = 0.25;
      g.fillRect(x - half, y - half, 2 * half, 2 * half);
      g.globalAlpha = 1;
      g.strokeRect(x - half, y - half, 2 * half, 2 * half);
    } else {
      g.beginPath(); g.arc(x, y, 7, 0, 7); g.stroke();
    }
    g.beginPath(); g.arc(x, y, 2, 0, 7); g.fill();
  }

  // The bodies that are fixed to the tip; one that enters a block in this step stands there too.
  drawBoxes(g, colours, k, probe) {
    for (const box of bodiesAt(this.run, k)) this.outline(g, box, probe, colours.probe, 1);
    for (const { box, contact } of contactsIn(this.run, k)) {
      this.outline(g, box, contact.at, colours.danger, 2);
      this.labels.put(box.short + \", \" + blockText(this.run, contact.block), ...this.place(contact.at), colours.danger);
    }
  }

  // A body of many boxes is drawn thinner, so that its shape is seen and not its boxes.
  outline(g, body, at, colour, width) {
    const { right, up } = this.sheet;
    g.strokeStyle = colour;
    g.lineWidth = body.parts.length > 3 ? width / 2 : width;
    for (const { low, high } of body.parts) {
      const x = this.x(at[right] + low[right]), y = this.y(at[up] + high[up]);
      g.strokeRect(x, y, this.x(at[right] + high[right]) - x, this.y(at[up] + low[up]) - y);
    }
  }

  // A turn of the head: the tip goes round the pivot. In its step the pivot stands there, with what turns.
  drawTurn(g, colours, turn, isNow) {
    g.strokeStyle = isNow ? colours.ink : colours.muted;
    g.lineWidth = 1;
    g.setLineDash([1, 4]);
    g.beginPath();
"
}

/// Part 24 of the script.
pub(crate) fn script_24() -> &'static [u8] {
    b"    arcOf(turn).forEach((at, i) => (i ? g.lineTo(...this.place(at)) : g.moveTo(...this.place(at))));
    if (isNow) for (const end of [turn.from, turn.to]) { g.moveTo(...this.place(turn.pivot)); g.lineTo(...this.place(end)); }
    g.stroke();
    g.setLineDash([]);
    if (!isNow) return;
    for (const body of this.run.boxes) if (body.isSwing) this.outline(g, body, turn.pivot, colours.muted, 0.5);
    const [x, y] = this.place(turn.pivot);
    g.strokeStyle = colours.ink;
    g.lineWidth = 1.5;
    g.beginPath(); g.arc(x, y, 4, 0, 7); g.moveTo(x - 7, y); g.lineTo(x + 7, y); g.moveTo(x, y - 7); g.lineTo(x, y + 7); g.stroke();
    this.labels.put(\"pivot\", x, y, colours.ink);
  }

  drawContact(g, colours, contact) {
    const [x, y] = this.place(contact.at);
    for (const [colour, width] of [[colours.paper, 6], [colours.danger, 2.6]]) {
      g.strokeStyle = colour;
      g.lineWidth = width;
      g.beginPath(); g.moveTo(x - 7, y - 7); g.lineTo(x + 7, y + 7); g.moveTo(x + 7, y - 7); g.lineTo(x - 7, y + 7); g.stroke();
    }
  }

  // The piece, or else the block, at a place of the view.
  find(x, y) {
    const { right, up } = this.sheet, ends = this.run.ends;
    let best = 8, found = -1;
    for (let i = 0; i < this.run.kinds.length; i++) {
      const away = distance(x, y, this.x(ends[6 * i + right]), this.y(ends[6 * i + up]), this.x(ends[6 * i + 3 + right]), this.y(ends[6 * i + 3 + up]));
      if (away < best) { best = away; found = i; }
    }
    if (found >= 0) return { piece: found };
    for (let n = this.sorted.length - 1; n >= 0; n--) {
      const b = this.sorted[n].b;
      if (x >= this.x(b[right]) && x <= this.x(b[right + 3]) && y <= this.y(b[up]) && y >= this.y(b[up + 3])) return { block: this.sorted[n].number };
    }
    return null;
  }
}

// The distance of a place from a line between two.
function distance(x, y, a, b, c, d) {
  const u = c - a, v = d - b, long = u * u + v * v;
  const t = long ? Math.max(0, Math.min(1, ((x - a) * u + (y - b) * v) / long)) : 0;
"
}

/// Part 25 of the script.
pub(crate) fn script_25() -> &'static [u8] {
    b"  return Math.hypot(x - a - t * u, y - b - t * v);
}

// The view in space, by WebGL: blocks with their depths, the way in front of and, faintly, behind them.

const blockShader = [
  `attribute vec3 at; attribute vec3 face; uniform mat4 look; uniform vec3 tone, high; varying vec3 shown;
   void main() { gl_Position = look * vec4(at, 1.0); float light = face.z > 0.5 ? 1.0 : face.z < -0.5 ? 0.35 : abs(face.x) > 0.5 ? 0.62 : 0.8;
     shown = mix(tone, high, light) * (0.72 + 0.28 * light); }`,
  `precision mediump float; varying vec3 shown; void main() { gl_FragColor = vec4(shown, 1.0); }`,
];
const lineShader = [
  `attribute vec3 at; uniform mat4 look; uniform float lift; void main() { gl_Position = look * vec4(at, 1.0); gl_Position.z -= lift; }`,
  `precision mediump float; uniform vec4 colour; void main() { gl_FragColor = colour; }`,
];
// A piece is two triangles that are as wide on the screen as they should; those behind this step are faint, as are those long before it where there are many, and those of it are wider.
const wayShader = [
  `attribute vec3 from, to; attribute vec2 corner; attribute vec2 piece; uniform mat4 look; uniform vec2 size; uniform float now; uniform vec4 colours[6]; uniform float faint, wide, since, pale;
   varying vec4 shown; varying float along; varying float kind;
   void main() { vec4 a = look * vec4(from, 1.0), b = look * vec4(to, 1.0); vec2 way = (b.xy - a.xy) * size; float len = max(length(way), 0.001);
     vec2 across = vec2(-way.y, way.x) / len; float w = (piece.x == now ? 2.2 : 1.0) * wide * (piece.y > 2.5 && piece.y < 3.5 ? 1.5 : 1.0);
     vec4 p = mix(a, b, corner.x); p.xy += across * corner.y * w / size; p.z -= 0.0006; gl_Position = p;
     int n = int(piece.y + 0.5); shown = n == 0 ? colours[0] : n == 1 ? colours[1] : n == 2 ? colours[2] : n == 3 ? colours[3] : n == 4 ? colours[4] : colours[5];
     shown.a *= faint * (piece.x > now || piece.x < since ? pale : 1.0); along = corner.x * len; kind = piece.y; }`,
"
}

/// Part 26 of the script.
pub(crate) fn script_26() -> &'static [u8] {
    b"  `precision mediump float; varying vec4 shown; varying float along, kind;
   void main() { float n = floor(kind + 0.5); if ((n == 1.0 || n == 4.0) && mod(along, 11.0) > 7.0) discard; if (n == 5.0 && mod(along, 17.0) > 11.0) discard; if (n == 2.0 && mod(along, 6.0) > 2.5) discard; gl_FragColor = vec4(shown.rgb * shown.a, shown.a); }`,
];
const wayKinds = \"marsxe\";

class Solid {
  constructor(run, canvas, over, camera) {
    this.run = run;
    this.canvas = canvas;
    this.over = over;
    this.camera = camera;
    this.azimuth = -0.62;
    this.elevation = 0.5;
    this.offset = [0, 0, 0];
    this.frames = 0;
    this.isSlow = false;
    this.gl = canvas.getContext(\"webgl\", { antialias: run.blocks.length < 1000 && run.kinds.length < 5000, alpha: false, preserveDrawingBuffer: true });
    if (!this.gl) return;
    this.blockProgram = this.program(blockShader);
    this.lineProgram = this.program(lineShader);
    this.wayProgram = this.program(wayShader);
    // places are kept as millimetres from the middle of the workpiece: small numbers, which 32 bits hold well
    const box = boxOf(pointsOfWhole(run));
    this.middle = box.low.map((x, k) => (x + box.high[k]) / 2);
    this.floor = Math.min(box.low[2], ...(run.blocks.length < 5000 ? run.blocks.map((b) => b[2]) : []));
    this.box = box;
    this.makeBlocks();
    this.makeWay();
    this.makeFloor();
  }

  program([vertex, fragment]) {
    const gl = this.gl, program = gl.createProgram();
    for (const [kind, text] of [[gl.VERTEX_SHADER, vertex], [gl.FRAGMENT_SHADER, fragment]]) {
      const shader = gl.createShader(kind);
      gl.shaderSource(shader, text);
      gl.compileShader(shader);
      if (!gl.getShaderParameter(shader, gl.COMPILE_STATUS)) throw new Error(gl.getShaderInfoLog(shader));
      gl.attachShader(program, shader);
    }
    gl.linkProgram(program);
    return program;
  }

  buffer(numbers) {
    const gl = this.gl, buffer = gl.createBuffer();
    gl.bindBuffer(gl.ARRAY_BUFFER, buffer);
"
}

/// Part 27 of the script.
pub(crate) fn script_27() -> &'static [u8] {
    b"    gl.bufferData(gl.ARRAY_BUFFER, numbers, gl.STATIC_DRAW);
    return buffer;
  }

  local(p) { return [(p[0] - this.middle[0]) / 1000, (p[1] - this.middle[1]) / 1000, (p[2] - this.middle[2]) / 1000]; }

  makeBlocks() {
    const n = this.run.blocks.length, faces = new Float32Array(n * 36 * 6), lines = new Float32Array(n * 24 * 3);
    const sides = [[0, 2, 6, 4, -1, 0, 0], [1, 3, 7, 5, 1, 0, 0], [0, 1, 5, 4, 0, -1, 0], [2, 3, 7, 6, 0, 1, 0], [0, 1, 3, 2, 0, 0, -1], [4, 5, 7, 6, 0, 0, 1]];
    const edges = [0, 1, 0, 2, 0, 4, 1, 3, 1, 5, 2, 3, 2, 6, 3, 7, 4, 5, 4, 6, 5, 7, 6, 7];
    let f = 0, e = 0;
    this.run.blocks.forEach((b) => {
      const low = this.local(b), high = this.local(b.slice(3));
      const corner = (list, at, c) => { list[at] = c & 1 ? high[0] : low[0]; list[at + 1] = c & 2 ? high[1] : low[1]; list[at + 2] = c & 4 ? high[2] : low[2]; };
      for (const [p, q, r, t, x, y, z] of sides) for (const c of [p, q, r, p, r, t]) {
        corner(faces, f, c);
        faces[f + 3] = x; faces[f + 4] = y; faces[f + 5] = z;
        f += 6;
      }
      for (const c of edges) { corner(lines, e, c); e += 3; }
    });
    this.faces = { buffer: this.buffer(faces), count: n * 36 };
    this.edges = { buffer: this.buffer(lines), count: n * 24 };
  }

  makeWay() {
    const run = this.run, n = run.kinds.length, numbers = new Float32Array(n * 6 * 10);
    let o = 0;
    for (let i = 0; i < n; i++) {
      const a = this.local(run.ends.subarray(6 * i, 6 * i + 3)), b = this.local(run.ends.subarray(6 * i + 3, 6 * i + 6));
      for (const [t, s] of [[0, -1], [1, -1], [1, 1], [0, -1], [1, 1], [0, 1]]) {
        numbers.set(a, o); numbers.set(b, o + 3);
        numbers[o + 6] = t; numbers[o + 7] = s; numbers[o + 8] = run.pieceStep[i]; numbers[o + 9] = wayKinds.indexOf(run.kinds[i]);
        o += 10;
      }
    }
    this.way = { buffer: this.buffer(numbers), count: n * 6 };
  }

  makeFloor() {
"
}

/// Part 28 of the script.
pub(crate) fn script_28() -> &'static [u8] {
    b"    const { low, high } = this.box, span = Math.max(high[0] - low[0], high[1] - low[1], 1000), step = niceStep(span / 9), lines = [];
    const from = [0, 1].map((k) => Math.floor((low[k] - step / 2) / step) * step), to = [0, 1].map((k) => Math.ceil((high[k] + step / 2) / step) * step);
    for (let x = from[0]; x <= to[0]; x += step) lines.push(...this.local([x, from[1], this.floor]), ...this.local([x, to[1], this.floor]));
    for (let y = from[1]; y <= to[1]; y += step) lines.push(...this.local([from[0], y, this.floor]), ...this.local([to[0], y, this.floor]));
    this.ground = { buffer: this.buffer(new Float32Array(lines)), count: lines.length / 3 };
  }

  // Where a point stands on the screen: right, up and depth, as pixels from the middle.
  seen(p) {
    const c = this.centre(), sa = Math.sin(this.azimuth), ca = Math.cos(this.azimuth), se = Math.sin(this.elevation), ce = Math.cos(this.elevation);
    const x = p[0] - c[0], y = p[1] - c[1], z = p[2] - c[2], s = this.scale();
    const right = ca * x + sa * y, away = -sa * x + ca * y;
    return [right * s, (away * se + z * ce) * s, (away * ce - z * se) * s];
  }
  scale() { return this.camera.scale * (this.camera.solid || 1); }
  place(p) { const [x, y] = this.seen(p); return [this.width / 2 + x, this.height / 2 - y]; }

  centre() { return this.camera.centre.map((x, k) => x + this.offset[k]); }

  // The greatest scale with which points are in view, in the middle of which the view is put.
  fit(points, width, height) {
    const sa = Math.sin(this.azimuth), ca = Math.cos(this.azimuth), se = Math.sin(this.elevation), ce = Math.cos(this.elevation), c = this.camera.centre;
    let left = Infinity, right = -Infinity, low = Infinity, high = -Infinity;
    for (const p of points) {
      const x = p[0] - c[0], y = p[1] - c[1], z = p[2] - c[2], u = ca * x + sa * y, v = (ca * y - sa * x) * se + z * ce;
      left = Math.min(left, u); right = Math.max(right, u); low = Math.min(low, v); high = Math.max(high, v);
    }
"
}

/// Part 29 of the script.
pub(crate) fn script_29() -> &'static [u8] {
    b"    const u = (left + right) / 2, v = (low + high) / 2;
    this.offset = [ca * u - sa * se * v, sa * u + ca * se * v, ce * v];
    return Math.min(width / Math.max(right - left, 2000), height / Math.max(high - low, 2000));
  }

  matrix() {
    const sa = Math.sin(this.azimuth), ca = Math.cos(this.azimuth), se = Math.sin(this.elevation), ce = Math.cos(this.elevation), s = this.scale() * 1000;
    const u = (2 * s) / this.width, v = (2 * s) / this.height, d = 1 / this.depth;
    const c = this.local(this.centre());
    const rows = [[ca * u, sa * u, 0], [-sa * se * v, ca * se * v, ce * v], [-sa * ce * d, ca * ce * d, -se * d]];
    const m = new Float32Array(16);
    rows.forEach((row, r) => {
      for (let k = 0; k < 3; k++) m[4 * k + r] = row[k];
      m[12 + r] = -(row[0] * c[0] + row[1] * c[1] + row[2] * c[2]);
    });
    m[15] = 1;
    return m;
  }

  draw(colours, k, probe, ratio) {
    if (!this.gl) return;
    const began = performance.now();
    this.width = this.canvas.clientWidth;
    this.height = this.canvas.clientHeight;
    if (!this.width || !this.height) return;
    for (const canvas of [this.canvas, this.over]) {
      const w = Math.round(this.width * ratio), h = Math.round(this.height * ratio);
      if (canvas.width !== w || canvas.height !== h) { canvas.width = w; canvas.height = h; }
    }
    const { low, high } = this.box, c = this.centre();
    this.depth = (Math.hypot(...low.map((x, i) => Math.max(high[i] - c[i], c[i] - x, 1))) * 1.5) / 1000 + 1;
    const gl = this.gl, look = this.matrix(), rgb = (name) => [0, 1, 2].map((i) => parseInt(colours[name].slice(1 + 2 * i, 3 + 2 * i), 16) / 255);
    gl.viewport(0, 0, this.canvas.width, this.canvas.height);
    gl.clearColor(...rgb(\"paper\"), 1);
    gl.clear(gl.COLOR_BUFFER_BIT | gl.DEPTH_BUFFER_BIT);
    gl.enable(gl.DEPTH_TEST);
    gl.enable(gl.BLEND);
    gl.blendFunc(gl.ONE, gl.ONE_MINUS_SRC_ALPHA);
    const begin = (program) => { gl.useProgram(program); gl.uniformMatrix4fv(gl.getUniformLocation(program, \"look\"), false, look); };
"
}

/// Part 30 of the script.
pub(crate) fn script_30() -> &'static [u8] {
    b"    const attribute = (program, name, size, stride, offset) => {
      const at = gl.getAttribLocation(program, name);
      gl.enableVertexAttribArray(at);
      gl.vertexAttribPointer(at, size, gl.FLOAT, false, 4 * stride, 4 * offset);
    };
    const lines = (what, colour, alpha, lift) => {
      begin(this.lineProgram);
      gl.bindBuffer(gl.ARRAY_BUFFER, what.buffer);
      attribute(this.lineProgram, \"at\", 3, 3, 0);
      gl.uniform4f(gl.getUniformLocation(this.lineProgram, \"colour\"), ...rgb(colour).map((x) => x * alpha), alpha);
      gl.uniform1f(gl.getUniformLocation(this.lineProgram, \"lift\"), lift);
      gl.drawArrays(gl.LINES, 0, what.count);
    };
    lines(this.ground, \"grid\", 1, 0);
    begin(this.blockProgram);
    gl.bindBuffer(gl.ARRAY_BUFFER, this.faces.buffer);
    attribute(this.blockProgram, \"at\", 3, 6, 0);
    attribute(this.blockProgram, \"face\", 3, 6, 3);
    const tones = (low, high) => { for (const [name, colour] of [[\"tone\", low], [\"high\", high]]) gl.uniform3f(gl.getUniformLocation(this.blockProgram, name), ...rgb(colour)); };
    tones(\"block\", \"block-high\");
    gl.drawArrays(gl.TRIANGLES, 0, this.faces.count);
    // a block that is met in this step is drawn once more, over itself
    gl.depthFunc(gl.LEQUAL);
    tones(\"hit\", \"hit\");
    for (const number of metIn(this.run, k)) gl.drawArrays(gl.TRIANGLES, 36 * (number - 1), 36);
    if (!this.isSlow || this.run.blocks.length <= 500) lines(this.edges, \"block-line\", this.run.blocks.length > 500 ? 0.45 : 1, 0.0004);
    const way = this.wayProgram;
    begin(way);
    gl.bindBuffer(gl.ARRAY_BUFFER, this.way.buffer);
    attribute(way, \"from\", 3, 10, 0);
    attribute(way, \"to\", 3, 10, 3);
    attribute(way, \"corner\", 2, 10, 6);
    attribute(way, \"piece\", 2, 10, 8);
    gl.uniform2f(gl.getUniformLocation(way, \"size\"), this.width / 2, this.height / 2);
    gl.uniform1f(gl.getUniformLocation(way, \"now\"), k);
"
}

/// Part 31 of the script.
pub(crate) fn script_31() -> &'static [u8] {
    b"    gl.uniform1f(gl.getUniformLocation(way, \"since\"), strongFrom(this.run, k) ? this.run.pieceStep[strongFrom(this.run, k)] : -1);
    gl.uniform1f(gl.getUniformLocation(way, \"pale\"), isDense(this.run) ? 0.08 : 0.22);
    gl.uniform1f(gl.getUniformLocation(way, \"wide\"), this.run.kinds.length > 2000 ? 0.6 : 1);
    gl.uniform4fv(gl.getUniformLocation(way, \"colours\"), [...wayKinds].flatMap((kind) => [...rgb(kind), 1]));
    // where a frame takes long, of the way what is near this step
    const pieces = this.run.kinds.length, at = this.run.pieceFrom[k], from = this.isSlow ? Math.max(0, at - 2500) : 0, to = this.isSlow ? Math.min(pieces, at + 2500) : pieces;
    gl.depthMask(false);
    gl.uniform1f(gl.getUniformLocation(way, \"faint\"), 1);
    gl.drawArrays(gl.TRIANGLES, 6 * from, 6 * (to - from));
    if (pieces <= 5000) {
      gl.disable(gl.DEPTH_TEST);
      gl.uniform1f(gl.getUniformLocation(way, \"faint\"), 0.22);
      gl.drawArrays(gl.TRIANGLES, 6 * from, 6 * (to - from));
    }
    gl.depthMask(true);
    this.drawOver(colours, k, probe, ratio);
    // how long a frame takes, waited for at the first ones: without a graphics processor it may be long
    if (this.frames < 3) {
      gl.readPixels(0, 0, 1, 1, gl.RGBA, gl.UNSIGNED_BYTE, new Uint8Array(4));
      if (this.frames > 0) this.isSlow = performance.now() - began > 60;
      this.frames++;
    }
  }

  // What has no depth: the tip with its plumb line, touched points, home, the contact, the axes.
  drawOver(colours, k, probe, ratio) {
    const g = this.over.getContext(\"2d\"), run = this.run;
    g.setTransform(ratio, 0, 0, ratio, 0, 0);
    g.clearRect(0, 0, this.width, this.height);
    const touched = run.touchSteps.count(k), labels = new Labels(g, colours, this.width, this.height);
    for (let i = Math.max(0, touched - 2500); i < touched; i++) {
      const [x, y] = this.place(run.touches[i].at);
      g.fillStyle = colours.s; g.strokeStyle = colours.paper; g.lineWidth = 1;
      g.beginPath(); g.arc(x, y, dotSize(run), 0, 7); g.fill();
"
}

/// Part 32 of the script.
pub(crate) fn script_32() -> &'static [u8] {
    b"      if (dotSize(run) > 2) g.stroke();
    }
    const [hx, hy] = this.place(run.home);
    g.strokeStyle = colours.muted; g.lineWidth = 1.5;
    g.strokeRect(hx - 4, hy - 4, 8, 8);
    const [x, y] = this.place(probe), [fx, fy] = this.place([probe[0], probe[1], this.floor]);
    g.strokeStyle = colours.muted; g.lineWidth = 1; g.setLineDash([3, 3]);
    g.beginPath(); g.moveTo(x, y); g.lineTo(fx, fy); g.stroke(); g.setLineDash([]);
    g.beginPath(); g.ellipse(fx, fy, 5, 5 * Math.max(0.15, Math.sin(this.elevation)), 0, 0, 7); g.stroke();
    g.strokeStyle = colours.probe; g.fillStyle = colours.probe; g.lineWidth = 2;
    const tip = tipAt(run, k);
    if (tip * this.scale() > 4) this.wire(g, probe.map((p) => p - tip), probe.map((p) => p + tip), 1.5); else { g.beginPath(); g.arc(x, y, 7, 0, 7); g.stroke(); }
    g.beginPath(); g.arc(x, y, 2, 0, 7); g.fill();
    if (run.contact && run.contact.step === k) {
      const [cx, cy] = this.place(run.contact.at);
      for (const [colour, width] of [[colours.paper, 6], [colours.danger, 2.6]]) {
        g.strokeStyle = colour; g.lineWidth = width;
        g.beginPath(); g.moveTo(cx - 7, cy - 7); g.lineTo(cx + 7, cy + 7); g.moveTo(cx + 7, cy - 7); g.lineTo(cx - 7, cy + 7); g.stroke();
      }
    }
    for (const body of bodiesAt(run, k)) this.wires(g, body, probe, 1);
    for (const turn of turnsUpTo(run, k)) this.drawTurn(g, colours, turn, turn.step === k, labels);
    for (const { box, contact } of contactsIn(run, k)) {
      g.strokeStyle = colours.danger;
      this.wires(g, box, contact.at, 2);
      labels.put(box.short + \", \" + blockText(run, contact.block), ...this.place(contact.at), colours.danger);
    }
    labels.keep(x, y, 7);
    if (run.contact && run.contact.step === k) labels.put(blockText(run, run.contact.block), ...this.place(run.contact.at), colours.danger, true, Math.max(10, 1.4 * tip * this.scale() + 5));
    labels.put(\"home\", hx, hy, colours.muted);
"
}

/// Part 33 of the script.
pub(crate) fn script_33() -> &'static [u8] {
    b"    if (run.touches.length <= 200) for (let i = touched - 1; i >= 0; i--) labels.put(run.touches[i].name, ...this.place(run.touches[i].at), colours.ink);
    const ox = 26, oy = this.height - 30;
    g.font = \"600 10px system-ui, sans-serif\";
    [\"X\", \"Y\", \"Z\"].forEach((name, i) => {
      const unit = [0, 0, 0]; unit[i] = 1;
      const c = this.centre(), [u, v] = this.seen([c[0] + unit[0], c[1] + unit[1], c[2] + unit[2]]), long = 18 / this.scale();
      g.strokeStyle = colours.ink; g.fillStyle = colours.ink; g.lineWidth = 1.5;
      g.beginPath(); g.moveTo(ox, oy); g.lineTo(ox + u * long, oy - v * long); g.stroke();
      g.fillText(name, ox + u * long * 1.45 - 3, oy - v * long * 1.45 + 4);
    });
  }

  // The edges of a body at a place.
  wires(g, body, at, width) {
    for (const { low, high } of body.parts) this.wire(g, low.map((x, i) => at[i] + x), high.map((x, i) => at[i] + x), body.parts.length > 3 ? width / 2 : width);
  }

  // A turn of the head, as in the three views.
  drawTurn(g, colours, turn, isNow, labels) {
    g.strokeStyle = isNow ? colours.ink : colours.muted; g.lineWidth = 1; g.setLineDash([1, 4]);
    g.beginPath();
    arcOf(turn).forEach((at, i) => (i ? g.lineTo(...this.place(at)) : g.moveTo(...this.place(at))));
    if (isNow) for (const end of [turn.from, turn.to]) { g.moveTo(...this.place(turn.pivot)); g.lineTo(...this.place(end)); }
    g.stroke(); g.setLineDash([]);
    if (!isNow) return;
    g.strokeStyle = colours.muted; g.globalAlpha = 0.35;
    for (const body of this.run.boxes) if (body.isSwing) this.wires(g, body, turn.pivot, 0.5);
    g.globalAlpha = 1;
    const [x, y] = this.place(turn.pivot);
    g.strokeStyle = colours.ink; g.lineWidth = 1.5;
    g.beginPath(); g.arc(x, y, 4, 0, 7); g.moveTo(x - 7, y); g.lineTo(x + 7, y); g.moveTo(x, y - 7); g.lineTo(x, y + 7); g.stroke();
    labels.put(\"pivot\", x, y, colours.ink);
  }

  // The edges of a box between two corners.
  wire(g, low, high, width) {
"
}

/// Part 34 of the script.
pub(crate) fn script_34() -> &'static [u8] {
    b"    const p = [0, 1, 2, 3, 4, 5, 6, 7].map((n) => this.place([n & 1 ? high[0] : low[0], n & 2 ? high[1] : low[1], n & 4 ? high[2] : low[2]]));
    g.beginPath();
    for (const [a, b] of [[0, 1], [0, 2], [0, 4], [1, 3], [1, 5], [2, 3], [2, 6], [3, 7], [4, 5], [4, 6], [5, 7], [6, 7]]) { g.moveTo(...p[a]); g.lineTo(...p[b]); }
    g.lineWidth = width;
    g.stroke();
  }

  // The whole view as one picture, for paper, on which browsers leave out what WebGL drew: that is put below what has no depth.
  drawAsPicture(colours, k, probe, ratio) {
    this.draw(colours, k, probe, ratio);
    const g = this.over.getContext(\"2d\");
    g.setTransform(1, 0, 0, 1, 0, 0);
    g.globalCompositeOperation = \"destination-over\";
    g.drawImage(this.canvas, 0, 0);
    g.globalCompositeOperation = \"source-over\";
  }

  turn(x, y) {
    this.azimuth -= x;
    this.elevation = Math.max(0.02, Math.min(Math.PI / 2, this.elevation + y));
  }

  find(x, y) {
    let best = 8, found = -1;
    const ends = this.run.ends;
    for (let i = 0; i < this.run.kinds.length; i++) {
      const [a, b] = this.place(ends.subarray(6 * i, 6 * i + 3)), [c, d] = this.place(ends.subarray(6 * i + 3, 6 * i + 6));
      const away = distance(x, y, a, b, c, d);
      if (away < best) { best = away; found = i; }
    }
    return found >= 0 ? { piece: found } : null;
  }
}

// The time line: how high the probe is behind each step, with what happens. What stays is drawn once; a step draws how far it has come, and its mark.

class Profile {
  constructor(run, canvas) {
    this.run = run;
    this.canvas = canvas;
    this.drawnFor = \"\";
    this.layers = [\"all\", \"past\"].map(() => document.createElement(\"canvas\"));
  }
  x(k) {
    const pad = 8;
    return pad + (this.run.length ? ((this.width - 2 * pad) * k) / this.run.length : 0);
  }
  drawFixed(colours, ratio) {
    const wanted = [this.width, this.height, ratio, colours.paper].join();
    if (this.drawnFor === wanted) return;
    this.drawnFor = wanted;
    this.layers.forEach((layer, i) => {
"
}

/// Part 35 of the script.
pub(crate) fn script_35() -> &'static [u8] {
    b"      layer.width = this.canvas.width = Math.round(this.width * ratio);
      layer.height = this.canvas.height = Math.round(this.height * ratio);
      const g = layer.getContext(\"2d\");
      g.scale(ratio, ratio);
      g.globalAlpha = i ? 0.75 : 0.28;
      this.drawHeights(g, i ? colours.m : colours.muted);
    });
    const marks = (this.marks = document.createElement(\"canvas\"));
    [marks.width, marks.height] = [this.canvas.width, this.canvas.height];
    const g = marks.getContext(\"2d\");
    g.scale(ratio, ratio);
    this.drawMarks(g, colours);
  }
  drawHeights(g, colour) {
    const { run, width: w, height: h } = this, n = run.length, inner = w - 16;
    let low = Infinity, high = -Infinity;
    for (let k = 0; k <= n; k++) {
      const z = run.position[3 * k + 2];
      if (z < low) low = z;
      if (z > high) high = z;
    }
    const y = (z) => h - 7 - (high > low ? ((z - low) / (high - low)) * (h - 16) : (h - 16) / 2), step = Math.max(1, n / (2 * inner));
    g.beginPath();
    g.moveTo(this.x(0), h - 4);
    for (let k = 0; k < n; k += step) {
      const a = Math.round(k), b = Math.min(n, Math.round(k + step));
      let least = Infinity, most = -Infinity;
      for (let i = a; i < Math.max(b, a + 1); i++) {
        const z = run.position[3 * i + 2];
        if (z < least) least = z;
        if (z > most) most = z;
      }
      g.lineTo(this.x(a), y(most));
      if (step > 1) g.lineTo(this.x(a), y(least));
    }
    g.lineTo(this.x(n), y(run.position[3 * n + 2]));
    g.lineTo(this.x(n), h - 4);
    g.closePath();
    g.fillStyle = colour;
    g.fill();
  }
  drawMarks(g, colours) {
    const { run, height: h } = this, many = run.touches.length > 400, stopLine = stopLineOf(run);
    g.fillStyle = colours.s;
    for (const touch of run.touches) {
      if (many) g.fillRect(this.x(touch.step) - 0.5, 1, 1, 3);
      else {
        g.beginPath();
        g.arc(this.x(touch.step), 4, 2.5, 0, 7);
        g.fill();
      }
    }
    g.fillStyle = colours.ink;
"
}

/// Part 36 of the script.
pub(crate) fn script_36() -> &'static [u8] {
    b"    for (const k of run.output.steps) g.fillRect(this.x(k) - 0.5, h - 4, 1, 4);
    g.strokeStyle = g.fillStyle = colours.danger;
    for (const box of run.boxes) for (const contact of box.contacts) if (contact.step > 0) g.fillRect(this.x(contact.step) - 2, 0, 4, 5);
    if (stopLine) {
      const x = this.x(run.stop.step);
      g.lineWidth = 2.4;
      g.beginPath(); g.moveTo(x - 4, 3); g.lineTo(x + 4, 11); g.moveTo(x + 4, 3); g.lineTo(x - 4, 11); g.stroke();
    }
  }
  draw(colours, k, ratio) {
    this.width = this.canvas.clientWidth;
    this.height = this.canvas.clientHeight;
    if (!this.width || !this.height) return;
    this.drawFixed(colours, ratio);
    const g = this.canvas.getContext(\"2d\"), { width: w, height: h } = this.canvas, to = Math.round(this.x(k) * ratio);
    g.setTransform(1, 0, 0, 1, 0, 0);
    g.clearRect(0, 0, w, h);
    g.drawImage(this.layers[0], 0, 0);
    if (to > 0) g.drawImage(this.layers[1], 0, 0, to, h, 0, 0, to, h);
    g.drawImage(this.marks, 0, 0);
    g.setTransform(ratio, 0, 0, ratio, 0, 0);
    g.fillStyle = colours.ink;
    g.fillRect(this.x(k) - 0.75, 0, 1.5, this.height);
  }
}

// The text of the program: a hundred lines in one piece, plain where they are out of view, and with their signs and counts where they are in view.

const LINES_OF_PIECE = 100;

class Listing {
  constructor(run, box) {
    this.run = run;
    this.box = box;
    this.stopLine = stopLineOf(run);
    this.stated = new Set(run.code.map((_, i) => rowOf(run, i)));
    this.noticed = new Map(run.notices.map((it) => [it.line, it.word]));
    // lines of which something wasn't tried, each with what
    this.untried = new Map([...(run.untried ? run.untried.lines : [])].map(([line, all]) => [line, all.map((it) => it.text + (it.count > 1 ? `, ${it.count} times` : \"\")).join(\"; \")]));
    for (const line of run.adapted ? run.adapted.lines : []) this.untried.set(line, \"left out by vcm adapt: not tried\");
    this.touching = new Set(run.touches.map((it) => rowAt(run, it.step)));
"
}

/// Part 37 of the script.
pub(crate) fn script_37() -> &'static [u8] {
    b"    // lines in which a box of the probe meets a block, each with what it meets
    this.meeting = new Map(run.boxes.flatMap((own) => own.contacts.filter((it) => it.step > 0).map((it) => [rowAt(run, it.step), metText(run, own, it)])).reverse());
    this.rows = new Map();
    this.pointed = 0;
    this.marked = [];
    this.pieces = [];
    const longest = run.lines.reduce((most, it) => Math.max(most, it.length), 0), all = document.createDocumentFragment();
    for (let from = 0; from < run.lines.length; from += LINES_OF_PIECE) {
      const piece = element(\"div\", undefined, \"piece\"), lines = Math.min(LINES_OF_PIECE, run.lines.length - from);
      piece.style.setProperty(\"--lines\", lines);
      piece.style.setProperty(\"--longest\", Math.min(longest, 2000) + 30);
      piece.dataset.from = from;
      this.pieces.push(piece);
      all.append(piece);
      this.plain(piece);
    }
    box.append(all);
    this.inView = new Set();
    this.watch = new IntersectionObserver((seen) => { for (const it of seen) this.seen(it.target, it.isIntersecting); }, { root: box, rootMargin: \"400px\" });
    for (const it of this.pieces) this.watch.observe(it);
  }
  seen(piece, isInView) {
    if (isInView) {
      this.inView.add(piece);
      this.full(piece);
    } else {
      this.inView.delete(piece);
      this.plain(piece);
    }
  }
  linesOf(piece) {
    const from = Number(piece.dataset.from);
    return [from, Math.min(from + LINES_OF_PIECE, this.run.lines.length)];
  }
  // A piece as a text alone; the one with a line that is marked stays.
  plain(piece) {
    const [from, to] = this.linesOf(piece);
    if (piece.dataset.is === \"plain\" || this.marked.some((it) => it.parentElement === piece)) return;
    for (let i = from; i < to; i++) this.rows.delete(i + 1);
    piece.dataset.is = \"plain\";
    piece.replaceChildren(element(\"pre\", this.run.lines.slice(from, to).join(\"\\n\"), \"plain\"));
  }
  full(piece) {
    if (piece.dataset.is === \"full\") return;
    const [from, to] = this.linesOf(piece), rows = [];
"
}

/// Part 38 of the script.
pub(crate) fn script_38() -> &'static [u8] {
    b"    for (let i = from; i < to; i++) {
      const row = this.row(i + 1);
      this.rows.set(i + 1, row);
      rows.push(row);
    }
    piece.dataset.is = \"full\";
    piece.replaceChildren(...rows);
  }
  row(n) {
    const { run } = this, row = element(\"div\", undefined, \"line\"), times = run.counts.get(n), isStop = n === this.stopLine || this.meeting.has(n);
    row.dataset.line = n;
    if (n === this.pointed) row.classList.add(\"pointed\");
    const [text, kind, title] = isStop ? [\"\\u2715\", \" stop\", n === this.stopLine ? run.stop.text : this.meeting.get(n)] : this.untried.has(n) ? [\"?\", \" untried\", this.untried.get(n)] : this.touching.has(n) ? [\"\\u25cf\", \" touch\", \"measures\"] : this.noticed.has(n) ? [\"!\", \" notice\", this.noticed.get(n) + \" has no effect\"] : [\"\", \"\", \"\"];
    const sign = element(\"span\", text, \"sign\" + kind);
    if (title) sign.title = title;
    if (times) row.classList.add(\"ran\");
    else if (this.stated.has(n)) {
      row.classList.add(\"idle\");
      row.title = \"not carried out in this run\";
    }
    if (this.untried.has(n)) row.classList.add(\"untried\");
    row.append(element(\"span\", String(n), \"number\"), sign, this.coloured(run.lines[n - 1]));
    if (times && times.length > 1) {
      const count = element(\"span\", \"\\u00d7\" + times.length.toLocaleString(\"en\"), \"times\");
      count.title = \"carried out \" + times.length + \" times\";
      row.append(count);
    }
    row.append(element(\"span\", \"\", \"done\"));
    return row;
  }
  coloured(text) {
    const row = element(\"code\");
    if (/^\\s*\\$\\$/.test(text)) {
      row.append(element(\"i\", text));
      return row;
    }
    for (const piece of text.split(/('[^']*')/)) row.append(piece[0] === \"'\" ? element(\"q\", piece) : piece);
    return row;
  }
  rowOfLine(n) {
    const piece = this.pieces[Math.floor((n - 1) / LINES_OF_PIECE)];
    if (!piece || n < 1) return undefined;
    this.full(piece);
    return this.rows.get(n);
  }
  // Marks the line of a step, and that of the next one.
  show(k) {
"
}

/// Part 39 of the script.
pub(crate) fn script_39() -> &'static [u8] {
    b"    const { run } = this, next = nextAt(run, k), line = k ? rowAt(run, k) : 0, after = next ? rowOf(run, next.statement) : 0;
    this.unpoint();
    const before = new Set(this.marked.map((it) => it.parentElement));
    for (const row of this.marked) {
      row.classList.remove(\"now\", \"next\", \"bad\");
      row.removeAttribute(\"aria-current\");
      setText(row.lastChild, \"\");
    }
    this.marked = [];
    const now = line ? this.rowOfLine(line) : undefined, then = after && after !== line ? this.rowOfLine(after) : undefined;
    if (then) {
      then.classList.add(\"next\");
      this.marked.push(then);
    }
    if (now) {
      const met = contactsIn(run, k);
      now.classList.add(\"now\");
      if ((run.stop && k === run.stop.step && this.stopLine) || met.length) now.classList.add(\"bad\");
      now.setAttribute(\"aria-current\", \"step\");
      now.lastChild.textContent = met.map(({ box, contact }) => metText(run, box, contact) + \", then \").join(\"\") + doneText(run, k).replace(/^stop (.*?)( at \\d+ line \\d+)?$/, \"$1\").replace(/ permille \\d+$/, \"\");
      this.marked.push(now);
    }
    for (const piece of before) if (piece && !this.inView.has(piece)) this.plain(piece);
    if (now || then) this.intoView(now ? line : after);
  }
  // Shows a line that is asked for, until the next step.
  point(n) {
    const row = this.rowOfLine(n);
    this.unpoint();
    if (!row) return;
    this.pointed = n;
    row.classList.add(\"pointed\");
    this.intoView(n);
  }
  unpoint() {
    const row = this.rows.get(this.pointed);
    if (row) row.classList.remove(\"pointed\");
    this.pointed = 0;
  }
  // Lines are equally high, so where one stands is known without asking for it.
  intoView(n) {
    const high = this.box.clientHeight, top = 6 + 20.5 * (n - 1);
    if (high === 0) return;
    const at = this.box.scrollTop;
    if (top - at < 24 || top - at > high - 60) this.box.scrollTop = top - high / 2.4;
  }
  // On paper stand all lines.
  forPaper(is) {
"
}

/// Part 40 of the script.
pub(crate) fn script_40() -> &'static [u8] {
    b"    for (const it of this.pieces) if (is) this.full(it); else if (!this.inView.has(it)) this.plain(it);
  }
}

// Why the run stops: the lines of `vcm why`, as the first card of the state. Lines of the text are links.

// The card, from the text of `vcm why`: lines of the program with what stands there, where a way is free, and what else is told. Where the run has no stop before its end there is no card.
function readWhy(run, text) {
  const rows = text.split(\"\\n\").map(shownText).filter((it) => it !== \"\");
  if (!rows.length || !rows[0].startsWith(\"stop \") || rows[0].startsWith(\"stop ENDED\")) return;
  const why = (run.why = { lines: [], free: \"\", others: [] });
  for (const row of rows.slice(1)) {
    let it;
    if ((it = /^line (\\d+): (.*)$/.exec(row))) why.lines.push({ line: Number(it[1]), text: \"\", code: it[2] });
    else if ((it = /^in (M\\(\\w+\\)) from line (\\d+): (.*)$/.exec(row))) why.lines.push({ line: Number(it[2]), text: `in ${it[1]} by `, code: it[3], call: it[1] });
    else if ((it = /^round (\\d+) of DO line (\\d+), (.*)$/.exec(row))) why.lines.push({ line: Number(it[2]), text: `round ${it[1]} of DO, `, code: it[3] });
    else if (row.startsWith(\"free \")) why.free = row.slice(5).replace(/\\b[xyz](?= -?\\d)/g, (c) => c.toUpperCase());
    // the way, the contact and the block's name stand in the table of places below
    else if (!/^(way |contact of |block \\d+ is )/.test(row)) why.others.push(row);
  }
}

class WhyCard {
  constructor(run, whenLine) {
    this.run = run;
    this.card = $(\"why-card\");
    this.whenLine = whenLine;
    this.card.hidden = run.why === null;
    if (run.why === null) return;
    const { lines, free, others } = run.why, block = run.contact ? `${blockText(run, run.contact.block)} ` : \"\";
    $(\"why-lines\").replaceChildren(...lines.map((it) => {
      const item = element(\"li\"), told = element(\"span\", it.text);
      told.append(element(\"code\", it.code));
      item.append(this.link(it.line), told);
      return item;
    }));
    $(\"why-free\").hidden = free === \"\";
"
}

/// Part 41 of the script.
pub(crate) fn script_41() -> &'static [u8] {
    b"    $(\"why-free\").textContent = \"Free \" + free.replace(\"it \", block || \"it \");
    $(\"why-others\").replaceChildren(...others.map((it) => this.linked(it)));
  }
  link(line) {
    const it = element(\"button\", \"line \" + line, \"jump\");
    it.type = \"button\";
    it.onclick = () => this.whenLine(line);
    return it;
  }
  // A text of which `line N` is a link.
  linked(text) {
    const item = element(\"p\");
    for (const piece of text.split(/(\\bline \\d+\\b)/)) item.append(/^line \\d+$/.test(piece) ? this.link(Number(piece.slice(5))) : piece);
    return item;
  }
  // At the stop all of it, elsewhere a line that leads there.
  show(k) {
    if (this.run.why === null || !this.run.stop) return;
    const { run } = this, isHere = k === run.stop.step;
    setClass(this.card, isHere ? \"why\" : \"why away\");
    setText($(\"why-title\"), isHere ? \"Why it stops here\" : \"Why it stops\");
    $(\"why-to\").hidden = isHere;
    $(\"why-to\").dataset.step = run.stop.step;
    setText($(\"why-to\"), \"at step \" + (run.stop.step + run.from).toLocaleString(\"en\"));
  }
}

// The state behind a step: what the step did, where the probe is, variables, measured points, boxes, output and settings. Only what changes is made anew.

class Panel {
  // `whenLine` is called with a line of the text that is asked for.
  constructor(run, whenLine) {
    this.run = run;
    this.why = new WhyCard(run, whenLine);
    this.ending = endingOf(run);
    this.stopLine = stopLineOf(run);
    this.names = [...run.variables.keys()];
    this.variables = new Rows($(\"variables-list\"), $(\"variables\"), \"tbody\", 24, (i) => this.variableRow(this.names[i]), (row, i, k) => this.updateVariable(row, this.names[i], k));
    this.points = new Rows($(\"points-list\"), $(\"points\"), \"tbody\", 38, (i) => this.pointRow(run.touches[i]), (row, i, k) => setClass(row, run.touches[i].step === k ? \"changed\" : \"\"));
    this.output = new Rows($(\"output\"), $(\"output\"), \"ol\", 38, (i) => this.outputRow(i), (row, i, k) => setClass(row, run.output.steps[i] === k ? \"changed\" : \"\"));
"
}

/// Part 42 of the script.
pub(crate) fn script_42() -> &'static [u8] {
    b"    this.settings = [...run.settings].map(([name, it]) => {
      const value = element(\"dd\", \"\", \"mono\");
      $(\"settings\").append(element(\"dt\", name), value);
      return { it, value };
    });
    this.told = this.boxRows();
    this.boxes = new Rows($(\"boxes-list\"), $(\"boxes\"), \"tbody\", 26, (i) => this.boxRow(this.told[i]), (row, i, k) => setClass(row, this.told[i].contact && this.told[i].contact.step === k && k ? \"changed\" : \"\"));
    for (const [id, has] of [[\"variables-section\", run.variables.size], [\"points-section\", run.touches.length], [\"boxes-section\", this.told.length], [\"output-section\", run.output.steps.length], [\"notices-section\", run.notices.length]]) $(id).hidden = has === 0;
    $(\"variables-filter\").hidden = run.variables.size <= 20;
    for (const it of run.notices.slice(0, 200)) $(\"notices\").append(element(\"li\", `line ${it.line}: ${it.word} has no effect`));
  }
  jump(step, text) {
    const it = element(\"button\", text || String(step + this.run.from), \"jump\");
    it.type = \"button\";
    it.dataset.step = step;
    it.title = \"to step \" + (step + this.run.from);
    return it;
  }

  show(k) {
    this.why.show(k);
    this.showStep(k);
    this.showProbe(k);
    this.showVariables(k);
    this.showPoints(k);
    this.boxes.show(this.told.length, k);
    this.showOutput(k);
    for (const { it, value } of this.settings) {
      setText(value, it.changes.at(k) + \" mm\");
      setClass(value, \"mono\" + (it.changes.setAt(k) === k && k ? \" changed\" : \"\"));
    }
  }
  showStep(k) {
    const { run } = this, stops = k > 0 && run.stop !== null && k === run.stop.step, fails = stops && this.stopLine > 0;
    const met = contactsIn(run, k).map(({ box, contact }) => `${metText(run, box, contact)} at ${contact.at.map(millimetres).join(\" \")}, in its ${contact.kind.toLowerCase()}`);
    for (const it of run.beyond) if (it.step === k && k) met.push(`the pivot goes beyond its limits, at ${it.at.map(millimetres).join(\" \")}`);
    const untried = run.untried && run.untried.steps.has(k);
"
}

/// Part 43 of the script.
pub(crate) fn script_43() -> &'static [u8] {
    b"    const ended = fails ? this.ending.text + \". The probe stays where it was.\" : stops ? \"the run has come to its end\" + (isPartly(run) ? \"; not all of it was tried\" : run.adapted ? \"; not all of the producer's text stands in it\" : \"\") : doneText(run, k);
    setText($(\"step-title\"), k === 0 ? (run.from ? \"Behind step \" + run.from : \"Start\") : \"Step \" + (k + run.from) + \" \\u00b7 line \" + run.line[k] + (wordAt(run, k) ? \" \\u00b7 \" + wordAt(run, k) : \"\"));
    setText($(\"step-done\"), [...met, ...(met.length && ended ? [\"then \" + ended] : [ended])].join(\"; \"));
    setText($(\"step-line\"), fails ? run.done[k] : \"\");
    setClass($(\"step-done\"), \"done\" + (fails || met.length ? \" bad\" : untried || (stops && (isPartly(run) || run.adapted)) ? \" warn\" : stops && !run.firstMet ? \" ok\" : \"\"));
  }
  showProbe(k) {
    const { run } = this, at = positionAt(run, k), frame = run.frame.at(k), next = nextAt(run, k), places = [[\"Machine\", at]], entries = [], add = (name, value) => entries.push(element(\"dt\", name), typeof value === \"string\" ? element(\"dd\", value) : value);
    if (!isMachine(frame)) {
      const set = run.frame.setAt(k), value = element(\"dd\", frame.name ? frame.name + \" \" : \"from before the first step shown\");
      places.push([\"Part\", inFrame(frame, at)], [\"Origin\", frame.origin]);
      if (set !== null) value.append(this.jump(set, \"set at step \" + (set + run.from)));
      add(\"Frame\", value);
      if (frame.axes.join() !== \"+X,+Y,+Z\") add(\"Axes\", \"X along \" + frame.axes[0] + \", Y \" + frame.axes[1] + \", Z \" + frame.axes[2]);
    }
    const probe = probeAt(run, k), turn = turnIn(run, k);
    if (run.probes) add(\"Probe\", probe ? `${probe.name}, number ${probe.number}, ${tipText(run, k)}` : \"none is on yet\");
    if (turn) places.push([\"From\", turn.from], [\"Pivot\", turn.pivot], [\"To\", turn.to]);
    if (run.contact !== null && run.contact.step === k) places.push([\"Contact\", run.contact.at, \"bad\"]);
"
}

/// Part 44 of the script.
pub(crate) fn script_44() -> &'static [u8] {
    b"    for (const { box, contact } of contactsIn(run, k)) places.push([box.isSwing ? \"Pivot\" : box.short, contact.at, \"bad\"]);
    for (let i = k ? run.pieceFrom[k] : 0; i < (k ? run.pieceFrom[k + 1] : 0); i++) if (run.kinds[i] === \"x\") places.push([\"Aim\", run.aims.get(i) || [...run.ends.subarray(6 * i + 3, 6 * i + 6)]]);
    for (const number of metIn(run, k)) {
      const block = run.blocks[number - 1];
      if (run.names.has(number)) add(\"Block \" + number, run.names.get(number));
      places.push([\"Block \" + number, block.slice(0, 3)], [\"\", block.slice(3)]);
    }
    if (run.untried) add(\"Known\", this.knownValue(run.untried.known.at(k)));
    add(\"Next\", next ? \"line \" + next.line + \" \" + (run.code[next.statement] ? run.code[next.statement].word : \"\") : \"nothing: the run has stopped\");
    $(\"probe\").replaceChildren(...entries);
    this.showPlaces(places);
  }
  // What is known of the machine, and what isn't.
  knownValue(known) {
    const value = element(\"dd\"), lost = knownThings.filter((_, i) => !known[i]).map((it) => it.toLowerCase());
    value.append(knownThings.filter((_, i) => known[i]).join(\", \").toLowerCase() || \"nothing\");
    if (lost.length) value.append(element(\"span\", \"not known: \" + lost.join(\", \"), \"lost\"));
    return value;
  }
  // Points as rows of three numbers, below each other. Where numbers are wide the name stands above them, and where they are very wide each has a line of its own.
  showPlaces(places) {
    let longest = 0, isLong = false;
    const rows = places.map(([name, at, className]) => {
      isLong = isLong || name.length > 10;
      const row = element(\"tr\", undefined, className);
      row.append(rowHead(name), ...at.map((x, i) => {
        const it = cell(typeof x === \"string\" ? x : millimetres(x), \"n\");
        it.dataset.axis = \"XYZ\"[i];
        longest = Math.max(longest, it.textContent.length);
        return it;
      }));
      return row;
    });
    $(\"places\").tBodies[0].replaceChildren(...rows);
"
}

/// Part 45 of the script.
pub(crate) fn script_45() -> &'static [u8] {
    b"    setClass($(\"places\"), longest > 12 ? \"tall\" : longest > 8 || isLong ? \"wide\" : \"\");
  }
  variableRow(name) {
    const row = element(\"tr\"), value = cell(\"\", \"n mono\"), set = cell(\"\", \"n\");
    row.append(rowHead(name), value, set);
    return row;
  }
  showVariables(k) {
    this.variables.show(this.names.length, k);
  }
  // The variables whose names hold what is looked for.
  findVariables(text, k) {
    const wanted = text.trim().toUpperCase();
    this.names = [...this.run.variables.keys()].filter((it) => it.toUpperCase().includes(wanted));
    this.variables.forget();
    this.showVariables(k);
  }
  updateVariable(row, name, k) {
    const { changes } = this.run.variables.get(name), set = changes.setAt(k);
    setText(row.children[1], changes.at(k));
    setClass(row, set === k && k ? \"changed\" : \"\");
    if (row.dataset.set === String(set)) return;
    row.dataset.set = String(set);
    row.lastChild.replaceChildren(set === null ? element(\"span\", \"\\u2013\", \"quietly\") : this.jump(set));
  }
  pointRow(touch) {
    const { run } = this, actual = run.actual.get(touch.name), value = actual && actual.setAt(touch.step) === touch.step ? actual.at(touch.step) : null;
    const row = element(\"tr\"), off = value ? deviationOf(run, touch.name, touch.step) : null, step = cell(\"\", \"n\");
    step.append(this.jump(touch.step));
    row.append(rowHead(touch.name), ...(value ? value.slice(0, 3) : touch.at.map(millimetres)).map((x) => cell(x, \"n mono\")), cell(off === null ? \"\" : (off > 0 ? \"+\" : \"\") + millimetres(off), \"n mono off\"), step);
    return row;
  }
  showPoints(k) {
    const { run } = this, touched = run.touchSteps.count(k);
    if ($(\"points\").hidden !== (touched === 0)) $(\"points\").hidden = touched === 0;
    this.points.show(touched, k, true);
    setText($(\"points-count\"), `${touched.toLocaleString(\"en\")} of ${run.touches.length.toLocaleString(\"en\")}`);
  }
"
}

/// Part 46 of the script.
pub(crate) fn script_46() -> &'static [u8] {
    b"  // What is told of the bodies of the probe, or of each of several probes and of what turns: contacts, and how much room is left. A row has a name, a text and its contact, or is a head.
  boxRows() {
    const { run } = this;
    if (!run.probes) return run.boxes.flatMap((it) => this.bodyRows(it));
    const rows = run.probes.all.flatMap((probe) => [{ head: `${probe.name} \\u00b7 ${probe.ways ? countText(probe.ways, \"way\", \"ways\") : \"not used\"}` }, ...(probe.ways ? run.boxes.filter((it) => it.probe === probe && !it.isSwing).flatMap((it) => this.bodyRows(it)) : [])]);
    const swing = run.boxes.filter((it) => it.isSwing && (it.contacts.length || it.room !== null));
    if (swing.length) rows.push({ head: \"What turns\" }, ...swing.flatMap((it) => this.bodyRows(it)));
    if (run.beyond.length) rows.push({ head: \"The pivot, beyond its limits\" }, ...run.beyond.map((it) => ({ name: \"\", text: `${it.kind} at ${it.at.map(millimetres).join(\" \")}`, contact: it })));
    return rows;
  }
  bodyRows({ short, contacts, room }) {
    const { run } = this;
    if (contacts.length) return contacts.map((it, i) => ({ name: i ? \"\" : short, text: `${it.kind} ${blockText(run, it.block)} at ${it.at.map(millimetres).join(\" \")}`, contact: it }));
    return room === null ? [] : [{ name: short, text: `clear by ${millimetres(room)} mm${room < 50000 ? \"\" : \" or more\"}${isPartly(run) ? \", on the ways that were tried\" : \"\"}`, contact: null }];
  }
  boxRow({ head, name, text, contact }) {
    const row = element(\"tr\"), step = cell(\"\", \"n\"), first = rowHead(head || name);
    if (head) {
      first.colSpan = 3;
      first.className = \"group\";
      row.append(first);
      return row;
    }
    if (contact && contact.step > 0) step.append(this.jump(contact.step));
    row.append(first, cell(text, contact ? \"bad\" : \"\"), step);
    return row;
  }
  outputRow(i) {
    const { run } = this, item = element(\"li\"), text = this.jump(run.output.steps[i], \" \");
"
}

/// Part 47 of the script.
pub(crate) fn script_47() -> &'static [u8] {
    b"    text.replaceChildren(...run.output.values[i].split(/(?<=,)/).flatMap((it) => [it, document.createElement(\"wbr\")]));
    item.append(element(\"span\", String(i + 1), \"quietly\"), text);
    return item;
  }
  showOutput(k) {
    const { run } = this, printed = run.output.count(k);
    this.output.show(printed, k, true);
    setText($(\"output-count\"), `${printed.toLocaleString(\"en\")} of ${run.output.steps.length.toLocaleString(\"en\")}`);
  }
  // On paper stand all rows, unless there are very many.
  forPaper(is, k) {
    for (const it of [this.variables, this.points, this.boxes, this.output]) it.forPaper(is);
    this.show(k);
  }
}

// The four views beside each other: what is in view, how near, and what a pointer does on them.

class Stage {
  // `whenStepped` is called with the step of a piece that is clicked.
  constructor(run, whenStepped) {
    this.run = run;
    this.whenStepped = whenStepped;
    this.camera = { centre: [0, 0, 0], scale: 0.001, solid: 1 };
    this.colours = readColours();
    this.fitting = \"all\";
    this.step = 0;
    this.probe = run.home;
    this.isWaiting = false;
    this.later = 0;
    this.isOnPaper = false;
    this.flat = [\"top\", \"front\", \"side\"].map((key) => new Sheet(run, this.canvasOf(key), key, this.camera));
    this.profile = new Profile(run, $(\"profile\"));
    this.solid = null;
    try {
      const solid = new Solid(run, document.querySelector(\"canvas.gl\"), document.querySelector(\"canvas.over\"), this.camera);
      if (solid.gl) this.solid = solid;
    } catch (fault) { /* the other three views show the same */ }
    if (!this.solid) document.querySelector(\"[data-sheet=solid]\").classList.add(\"none\");
    const whole = boxOf(pointsOfWhole(run));
    this.boxes = { all: whole, part: run.blocks.length ? boxOf(pointsOfPart(run)) : whole };
    this.makeLegend();
    for (const sheet of [...this.flat, ...(this.solid ? [this.solid] : [])]) this.listenTo(sheet);
    for (const it of document.getElementsByName(\"view\")) it.onchange = () => this.setView(it.value);
"
}

/// Part 48 of the script.
pub(crate) fn script_48() -> &'static [u8] {
    b"    for (const it of document.getElementsByName(\"fit\")) it.onchange = () => this.fit(it.value);
    for (const it of document.querySelectorAll(\"[data-turn]\")) it.onclick = () => {
      const [x, y] = { left: [-0.2, 0], right: [0.2, 0], up: [0, 0.15], down: [0, -0.15] }[it.dataset.turn];
      if (this.solid) this.solid.turn(x, y);
      this.draw();
    };
    new ResizeObserver(() => this.fitting ? this.fitNow() : this.draw()).observe(document.querySelector(\".sheets\"));
    new ResizeObserver(() => this.draw()).observe($(\"profile\"));
    matchMedia(\"(prefers-color-scheme: dark)\").addEventListener(\"change\", () => this.recolour());
  }
  canvasOf(key) {
    return document.querySelector(`[data-sheet=${key}] canvas:not(.gl)`);
  }
  makeLegend() {
    const { run } = this, legend = $(\"legend\"), kinds = new Set(run.kinds);
    for (const kind of \"measrx\") if (kinds.has(kind)) legend.append(element(\"span\", kindNames[kind], \"key \" + kind), \" \");
    if (run.turns.size) legend.append(element(\"span\", \"turn of the head\", \"key turn\"), \" \");
    if (run.touches.length) legend.append(element(\"span\", \"touched\", \"key dot\"), \" \");
    legend.append(element(\"span\", \"probe\", \"key ring\"));
  }

  // ---- what is in view

  setView(view) {
    $(\"views\").dataset.view = view;
    for (const it of document.getElementsByName(\"view\")) it.checked = it.value === view;
    this.fitNow();
    this.draw();
  }
  fit(what) {
    this.fitting = what;
    for (const it of document.getElementsByName(\"fit\")) it.checked = it.value === what;
    this.fitNow();
  }
  fitNow() {
    const { camera, fitting, run, solid } = this;
    if (!fitting) return;
    let box = this.boxes[fitting];
    if (fitting === \"probe\") {
      const reach = Math.max(8000, 6 * tipAt(run, this.step));
      box = { low: this.probe.map((x) => x - reach), high: this.probe.map((x) => x + reach) };
    }
    camera.centre = box.low.map((x, k) => (x + box.high[k]) / 2);
    const size = box.high.map((x, k) => Math.max(x - box.low[k], 2000));
    let scale = Infinity;
"
}

/// Part 49 of the script.
pub(crate) fn script_49() -> &'static [u8] {
    b"    for (const sheet of this.flat) {
      const w = sheet.canvas.clientWidth, h = sheet.canvas.clientHeight;
      if (!w || !h) continue;
      scale = Math.min(scale, (0.8 * w) / size[sheet.sheet.right], (0.74 * h) / size[sheet.sheet.up]);
    }
    const over = this.canvasOf(\"solid\");
    if (solid && over.clientWidth) {
      const corners = [0, 1, 2, 3, 4, 5, 6, 7].map((n) => camera.centre.map((x, k) => x + (n & (1 << k) ? 0.5 : -0.5) * size[k]));
      const own = solid.fit(fitting === \"all\" ? pointsOfWhole(run) : fitting === \"part\" && run.blocks.length ? pointsOfPart(run) : corners, 0.84 * over.clientWidth, 0.76 * over.clientHeight);
      if (scale === Infinity) scale = own;
      camera.solid = own / scale;
    }
    if (scale < Infinity) camera.scale = scale;
    this.draw();
  }
  zoom(by, sheet, x, y) {
    const most = 0.5, least = 1e-7, { camera } = this, scale = Math.max(least, Math.min(most, camera.scale * by));
    if (sheet && sheet.sheet) {
      const { right, up } = sheet.sheet, grown = 1 / camera.scale - 1 / scale;
      camera.centre[right] += (x - sheet.width / 2) * grown;
      camera.centre[up] -= (y - sheet.height / 2) * grown;
    }
    camera.scale = scale;
    this.loose();
    this.draw();
  }
  loose() {
    this.fitting = null;
    for (const it of document.getElementsByName(\"fit\")) it.checked = false;
  }

  // ---- drawing

  show(k, probe) {
    this.step = k;
    this.probe = probe;
    if (this.fitting === \"probe\") this.fitNow(); else this.draw();
  }
  recolour() {
    this.colours = readColours();
    this.draw();
  }
  draw() {
    if (this.isWaiting) return;
    this.isWaiting = true;
    requestAnimationFrame(() => {
      this.isWaiting = false;
      this.drawNow(this.isOnPaper ? 3 : devicePixelRatio || 1);
    });
  }
  drawNow(ratio) {
    for (const sheet of this.flat) if (sheet.size(ratio)) sheet.draw(this.colours, this.step, this.probe);
    if (this.solid) this.drawSolid(ratio);
    this.profile.draw(this.colours, this.step, ratio);
  }
"
}

/// Part 50 of the script.
pub(crate) fn script_50() -> &'static [u8] {
    b"  // Where a frame in space takes long, it is drawn once nothing has changed for a while.
  drawSolid(ratio) {
    clearTimeout(this.later);
    if (this.isOnPaper) return this.solid.drawAsPicture(this.colours, this.step, this.probe, ratio);
    const now = () => this.solid.draw(this.colours, this.step, this.probe, ratio);
    if (this.solid.isSlow) this.later = setTimeout(now, 250); else now();
  }
  forPaper(is) {
    document.documentElement.classList.toggle(\"paper\", is);
    this.colours = readColours();
    this.isOnPaper = is;
    if (is) {
      this.before = $(\"views\").dataset.view;
      this.setView(\"all\");
      this.drawNow(3);
    } else this.setView(this.before);
  }

  // ---- pointers

  tipOf(found) {
    const { run } = this, text = (from) => [from, from + 1, from + 2].map((i) => millimetres(run.ends[i])).join(\" \");
    if (found.piece !== undefined) {
      const i = found.piece, k = run.pieceStep[i];
      return `step ${k + run.from}, line ${run.line[k]}: ${kindNames[run.kinds[i]]} ${text(6 * i)} to ${text(6 * i + 3)}`;
    }
    const b = run.blocks[found.block - 1];
    return `${blockText(run, found.block)}: ${b.slice(0, 3).map(millimetres).join(\" \")} to ${b.slice(3).map(millimetres).join(\" \")}`;
  }
  point(sheet, canvas, event) {
    const box = canvas.getBoundingClientRect(), found = sheet.find(event.clientX - box.left, event.clientY - box.top), tip = $(\"tip\");
    canvas.classList.toggle(\"found\", !!(found && found.piece !== undefined));
    tip.hidden = !found;
    if (!found) return;
    const own = $(\"views\").getBoundingClientRect();
    tip.textContent = this.tipOf(found);
    tip.style.left = Math.min(event.clientX - own.left + 12, own.width - tip.offsetWidth - 4) + \"px\";
    tip.style.top = event.clientY - own.top + 16 + \"px\";
  }
  drag(sheet, dx, dy) {
    if (sheet.sheet) {
      this.camera.centre[sheet.sheet.right] -= dx / this.camera.scale;
      this.camera.centre[sheet.sheet.up] += dy / this.camera.scale;
      this.loose();
"
}

/// Part 51 of the script.
pub(crate) fn script_51() -> &'static [u8] {
    b"    } else this.solid.turn(-dx * 0.01, dy * 0.008);
    this.draw();
  }
  listenTo(sheet) {
    const canvas = sheet.sheet ? sheet.canvas : sheet.over, pointers = new Map();
    let travelled = 0, apart = 0;
    canvas.addEventListener(\"pointerdown\", (event) => {
      pointers.set(event.pointerId, [event.clientX, event.clientY]);
      if (pointers.size === 1) travelled = 0;
      apart = 0;
      canvas.setPointerCapture(event.pointerId);
    });
    canvas.addEventListener(\"pointermove\", (event) => {
      const old = pointers.get(event.pointerId);
      if (!old) return this.point(sheet, canvas, event);
      const dx = event.clientX - old[0], dy = event.clientY - old[1], box = canvas.getBoundingClientRect();
      travelled += Math.abs(dx) + Math.abs(dy);
      pointers.set(event.pointerId, [event.clientX, event.clientY]);
      $(\"tip\").hidden = true;
      if (pointers.size === 2) {
        const [[a, b], [c, d]] = [...pointers.values()], long = Math.hypot(c - a, d - b);
        if (apart) this.zoom(long / apart, sheet, (a + c) / 2 - box.left, (b + d) / 2 - box.top);
        apart = long;
      } else if (travelled > 4) this.drag(sheet, dx, dy);
    });
    const end = (event) => { pointers.delete(event.pointerId); };
    canvas.addEventListener(\"pointerup\", (event) => {
      if (pointers.size === 1 && travelled < 5) {
        const box = canvas.getBoundingClientRect(), found = sheet.find(event.clientX - box.left, event.clientY - box.top);
        if (found && found.piece !== undefined) this.whenStepped(this.run.pieceStep[found.piece]);
      }
      end(event);
    });
    canvas.addEventListener(\"pointercancel\", end);
    canvas.addEventListener(\"pointerleave\", () => { $(\"tip\").hidden = true; });
    canvas.addEventListener(\"wheel\", (event) => {
      event.preventDefault();
      const box = canvas.getBoundingClientRect();
      this.zoom(Math.exp(-event.deltaY * 0.0015), sheet, event.clientX - box.left, event.clientY - box.top);
    }, { passive: false });
  }
}

"
}

/// Part 52 of the script.
pub(crate) fn script_52() -> &'static [u8] {
    b"// The page: from step to step by keys, buttons, lines and playing. Texts of the run go into the page as text alone.

(() => {
  let run;
  try {
    run = readRun($(\"run\").textContent);
    if ($(\"block-names\")) readNames(run, $(\"block-names\").textContent);
    if ($(\"untried\")) readUntried(run, $(\"untried\").textContent);
    readAdapted(run);
    if ($(\"probe-boxes\")) readBoxes(run, $(\"probe-boxes\").textContent);
    if ($(\"why\")) readWhy(run, $(\"why\").textContent);
  } catch (fault) {
    $(\"fault\").hidden = false;
    $(\"fault\").textContent = \"The run in this page cannot be read: \" + fault.message + \".\";
    return;
  }

  const calm = matchMedia(\"(prefers-reduced-motion: reduce)\"), narrow = matchMedia(\"(max-width: 900px)\");
  // in the page for browsers, whose editor has the program and whose head has the verdict, the page of a run has the steps alone
  const isFramed = document.documentElement.classList.contains(\"framed\");
  let now = 0, playing = false, lettersWork = true;

  // ---- the head

  const told = verdictWithUntried(run);
  $(\"title\").textContent = run.title;
  document.title = run.title + \" \\u2013 \" + told.text;
  $(\"verdict\").className = \"verdict \" + told.kind;
  $(\"verdict\").append(element(\"span\", told.sign || { ok: \"\\u2713\", bad: \"\\u2715\", warn: \"\\u2026\" }[told.kind], \"sign\"), \" \" + told.text);
  $(\"verdict\").title = run.stop ? run.stop.text : told.line;
  $(\"facts\").textContent = factsOf(run);
  $(\"not-tried\").hidden = !isPartly(run);
  if (isPartly(run)) $(\"not-tried\").replaceChildren(...run.untried.told.map((it) => element(\"li\", it)));

  const listing = isFramed ? null : new Listing(run, $(\"program\"));
  const panel = new Panel(run, showLine);
  const stage = new Stage(run, (k) => stepTo(k));
  // whether the state is in view: where it isn't, it is made once it is
  const isStateShown = () => $(\"state\").clientHeight > 0;

  // Shows a line of the text, here or, in the page for browsers, in its editor.
  function showLine(line) {
"
}

/// Part 53 of the script.
pub(crate) fn script_53() -> &'static [u8] {
    b"    document.dispatchEvent(new CustomEvent(\"line\", { detail: line }));
    if (!listing) return;
    if (document.body.dataset.panel === \"state\" && narrow.matches) document.querySelector('.tabs [data-panel=\"program\"]').click();
    listing.point(line);
  }

  // ---- from step to step

  // The first contact, of a box or of the tip, or else the stop before the end: the page opens there, or at the end.
  const met = run.firstMet && run.firstMet.step > 0 ? run.firstMet.step : stopLineOf(run) ? run.stop.step : 0, first = met || run.length;
  $(\"to-met\").hidden = met === 0;
  $(\"to-met\").textContent = \"\\u2715 \" + (run.firstMet || run.contact ? \"First contact\" : \"Stop\");
  document.documentElement.dataset.first = first;

  function goTo(k, speaks = true) {
    k = Math.max(0, Math.min(run.length, Math.round(k) || 0));
    now = k;
    const probe = shownAt(run, k), slider = $(\"slider\");
    slider.value = k;
    slider.setAttribute(\"aria-valuetext\", k ? `step ${k + run.from}, line ${run.line[k]}, ${wordAt(run, k)} ${doneText(run, k)}` : \"the start\");
    $(\"number\").value = k + run.from;
    document.documentElement.dataset.line = k ? rowAt(run, k) : 0;
    document.documentElement.dataset.step = k;
    if (listing) listing.show(k);
    if (isStateShown()) panel.show(k);
    if (isFramed) showHere(k, probe);
    for (const id of [\"to-start\", \"step-back\"]) $(id).disabled = k === 0;
    for (const id of [\"to-end\", \"step-on\"]) $(id).disabled = k === run.length;
    for (const sheet of stage.flat) sheet.canvas.setAttribute(\"aria-label\", `${sheet.sheet.name}: the probe is at ${probe.map(millimetres).join(\" \")}`);
    stage.canvasOf(\"solid\").setAttribute(\"aria-label\", \"View in space\");
    if (speaks && !playing) $(\"said\").textContent = slider.getAttribute(\"aria-valuetext\");
    stage.show(k, probe);
  }
  function showHere(k, probe) {
    const count = (n) => n.toLocaleString(\"en\"), where = element(\"b\", k ? `Step ${count(k + run.from)} of ${count(run.length + run.from)}` : \"Start\", metIn(run, k).length ? \"bad\" : \"\");
"
}

/// Part 54 of the script.
pub(crate) fn script_54() -> &'static [u8] {
    b"    $(\"here\").replaceChildren(where, ` \\u00b7 ${tipText(run, k)} \\u00b7 line ${k ? run.line[k] : \"\\u2013\"}`, element(\"br\"), element(\"span\", probe.map(millimetres).join(\"  \"), \"mono\"));
  }

  $(\"slider\").max = run.length;
  $(\"number\").min = run.from;
  $(\"number\").max = run.length + run.from;
  $(\"number\").style.width = Math.max(5, String(run.length + run.from).length + 2) * 0.62 + 1.9 + \"em\";
  $(\"of\").textContent = \"of \" + (run.length + run.from).toLocaleString(\"en\");

  // Playing: a step takes the time of its way, so that the probe goes evenly; with reduced motion it goes from step to step.
  let began = 0;
  function play(on) {
    playing = on;
    $(\"play\").textContent = on ? \"\\u275a\\u275a\" : \"\\u25b6\";
    $(\"play\").setAttribute(\"aria-label\", on ? \"Stop playing\" : \"Play\");
    if (!on) {
      stage.show(now, shownAt(run, now));
      return;
    }
    if (now === run.length) goTo(0);
    began = performance.now();
    requestAnimationFrame(frame);
  }
  const whole = Math.hypot(...stage.boxes.all.low.map((x, k) => stage.boxes.all.high[k] - x)) || 1;
  const long = ([a, b]) => Math.hypot(b[0] - a[0], b[1] - a[1], b[2] - a[2]);
  function wayOf(k) {
    const places = [];
    for (let i = run.pieceFrom[k]; i < run.pieceFrom[k + 1]; i++) if (run.kinds[i] !== \"x\") places.push([run.ends.subarray(6 * i, 6 * i + 3), run.ends.subarray(6 * i + 3, 6 * i + 6)]);
    return places;
  }
  function time(k) {
    return Math.max(run.untried && !isEvent(run, k) ? 20 : 140, Math.min(1600, (2200 * wayOf(k).reduce((sum, it) => sum + long(it), 0)) / whole)) / Number($(\"speed\").value);
  }
  function frame(t) {
    if (!playing) return;
    let moved = false;
    while (now < run.length) {
      const takes = calm.matches ? Math.max(400 / Number($(\"speed\").value), 60) : time(now + 1);
      if (t - began < takes) break;
      began += takes;
      now++;
      moved = true;
    }
    if (moved) goTo(now, false);
    if (now >= run.length) {
      play(false);
      return;
    }
"
}

/// Part 55 of the script.
pub(crate) fn script_55() -> &'static [u8] {
    b"    if (!calm.matches) glide(wayOf(now + 1), Math.min(1, (t - began) / time(now + 1)));
    requestAnimationFrame(frame);
  }
  // The probe on its way, so far along pieces.
  function glide(pieces, share) {
    let left = share * pieces.reduce((sum, it) => sum + long(it), 0);
    for (let i = 0; i < pieces.length; i++) {
      const [a, b] = pieces[i], own = long(pieces[i]);
      if (left <= own || i === pieces.length - 1) {
        const part = own ? Math.min(1, left / own) : 1;
        stage.show(now, [0, 1, 2].map((c) => a[c] + part * (b[c] - a[c])));
        return;
      }
      left -= own;
    }
  }
  function stepTo(k) {
    if (playing) play(false);
    goTo(k);
  }
  function toEvent(by) {
    let k = now + by;
    while (k > 0 && k < run.length && !isEvent(run, k)) k += by;
    stepTo(k);
  }
  function toSame(by, line = rowAt(run, now)) {
    const list = run.counts.get(line);
    if (!list) return;
    const k = by > 0 ? list.find((it) => it > now) : list.filter((it) => it < now).pop();
    stepTo(k !== undefined ? k : by > 0 ? list[0] : list[list.length - 1]);
  }

  $(\"to-start\").onclick = () => stepTo(0);
  $(\"to-end\").onclick = () => stepTo(run.length);
  $(\"to-met\").onclick = () => stepTo(met);
  $(\"step-back\").onclick = () => stepTo(now - 1);
  $(\"step-on\").onclick = () => stepTo(now + 1);
  $(\"play\").onclick = () => play(!playing);
  $(\"slider\").oninput = () => stepTo(Number($(\"slider\").value));
  $(\"number\").onchange = () => stepTo(Number($(\"number\").value) - run.from);
  $(\"variables-filter\").oninput = () => panel.findVariables($(\"variables-filter\").value, now);
  document.addEventListener(\"click\", (event) => {
    const to = event.target.closest(\"[data-step]\");
    if (to && to.tagName === \"BUTTON\") stepTo(Number(to.dataset.step));
    const row = event.target.closest(\".line\");
    if (row && !String(getSelection())) toSame(event.shiftKey ? -1 : 1, Number(row.dataset.line));
  });
  $(\"profile\").addEventListener(\"pointerdown\", (event) => {
    const to = (e) => {
"
}

/// Part 56 of the script.
pub(crate) fn script_56() -> &'static [u8] {
    b"      const box = $(\"profile\").getBoundingClientRect();
      stepTo(((e.clientX - box.left - 8) / (box.width - 16)) * run.length);
    };
    to(event);
    $(\"profile\").setPointerCapture(event.pointerId);
    $(\"profile\").onpointermove = to;
    $(\"profile\").onpointerup = $(\"profile\").onpointercancel = () => { $(\"profile\").onpointermove = null; };
  });
  for (const it of document.querySelectorAll(\".tabs button\")) it.onclick = () => {
    document.body.dataset.panel = it.dataset.panel;
    for (const other of document.querySelectorAll(\".tabs button\")) other.setAttribute(\"aria-pressed\", String(other === it));
    $(\"state-open\").setAttribute(\"aria-pressed\", String(it.dataset.panel === \"state\"));
    if (listing) listing.show(now);
    if (isStateShown()) panel.show(now);
  };
  $(\"state-open\").onclick = () => document.querySelector(`.tabs [data-panel=\"${document.body.dataset.panel === \"state\" ? \"program\" : \"state\"}\"]`).click();
  let stateWasShown = isStateShown();
  new ResizeObserver(() => {
    if (isStateShown() && !stateWasShown) panel.show(now);
    stateWasShown = isStateShown();
  }).observe($(\"state\"));

  // ---- keys

  $(\"keys-open\").onclick = () => $(\"keys\").showModal();
  $(\"letters\").onchange = () => { lettersWork = $(\"letters\").checked; };
  const views = [\"all\", \"solid\", \"top\", \"front\", \"side\"];
  const letters = {
    \"[\": () => toSame(-1), \"]\": () => toSame(1), w: () => stage.fit(\"all\"), p: () => stage.fit(\"part\"), f: () => stage.fit(\"probe\"),
    \"+\": () => stage.zoom(1.3), \"-\": () => stage.zoom(1 / 1.3), \"?\": () => $(\"keys\").showModal(),
    ...Object.fromEntries(views.map((it, i) => [i + 1, () => stage.setView(it)])),
  };
  document.addEventListener(\"keydown\", (event) => {
    const on = event.target, tag = on.tagName;
    if (event.ctrlKey || event.metaKey || event.altKey || $(\"keys\").open) return;
    if (tag === \"SELECT\" || (tag === \"INPUT\" && (on.type === \"number\" || on.type === \"search\"))) return;
    const radio = tag === \"INPUT\" && on.type === \"radio\";
    let used = true;
"
}

/// Part 57 of the script.
pub(crate) fn script_57() -> &'static [u8] {
    b"    if (event.key === \"ArrowLeft\" && !radio) event.shiftKey ? toEvent(-1) : stepTo(now - 1);
    else if (event.key === \"ArrowRight\" && !radio) event.shiftKey ? toEvent(1) : stepTo(now + 1);
    else if (event.key === \"Home\") stepTo(0);
    else if (event.key === \"End\") stepTo(run.length);
    else if (event.key === \" \" && tag !== \"BUTTON\") play(!playing);
    else if (lettersWork && Object.hasOwn(letters, event.key)) letters[event.key]();
    else used = false;
    if (used) event.preventDefault();
  });

  // ---- paper, and the step to begin with

  addEventListener(\"beforeprint\", () => {
    if (listing) listing.forPaper(true);
    panel.forPaper(true, now);
    stage.forPaper(true);
  });
  addEventListener(\"afterprint\", () => {
    if (listing) listing.forPaper(false);
    panel.forPaper(false, now);
    stage.forPaper(false);
  });
  if (narrow.matches || isFramed) stage.setView(stage.solid ? \"solid\" : \"top\");
  const asked = () => /^#step=(\\d+)$/.exec(location.hash);
  addEventListener(\"hashchange\", () => { if (asked()) stepTo(Number(asked()[1]) - run.from); });
  goTo(asked() ? Number(asked()[1]) - run.from : first, false);
  stage.fitNow();
})();
"
}
