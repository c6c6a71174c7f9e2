//! What stands after the data lines of each page: page/literals makes this file.

/// What stands after the data lines of each page.
pub const TAIL: &str = r##"</script>
</head>
<body>
<header>
<h1>netsim <span id="window"></span></h1>
<nav aria-label="Ways to look at it">
<span class="group" role="group" aria-label="Next and previous">
<span class="pair"><button data-go="previous collision" title="previous collision (Shift+C)">&#9664;</button><button data-go="next collision" title="next collision (C)">collision &#9654;</button></span>
<span class="pair"><button data-go="previous drop" title="previous drop (Shift+D)">&#9664;</button><button data-go="next drop" title="next drop (D)">drop &#9654;</button></span>
<span class="pair"><button data-go="previous late" title="previous late hit (Shift+L)">&#9664;</button><button data-go="next late" title="next late hit (L)">late hit &#9654;</button></span>
<span class="pair"><button data-go="previous given_up" title="previous frame given up (Shift+G)">&#9664;</button><button data-go="next given_up" title="next frame given up (G)">given up &#9654;</button></span>
<span class="pair"><button data-go="previous closed" title="previous port closed (Shift+P)">&#9664;</button><button data-go="next closed" title="next port closed (P)">port closed &#9654;</button></span>
</span>
<span class="group" role="group" aria-label="Time">
<button id="play" title="play or stop (space)">play</button>
<button data-do="slower" title="slower ([)">&#8722;</button><output id="speed" title="half bits a second"></output><button data-do="faster" title="faster (])">+</button>
<button data-do="back" title="one half bit back (left arrow)">&#9665;</button><button data-do="on" title="one half bit on (right arrow)">&#9655;</button>
</span>
<span class="group" role="group" aria-label="View">
<button data-do="out" title="zoom out (-)">out</button><button data-do="in" title="zoom in (+)">in</button><button data-do="fit" title="the whole window (0)">fit</button>
<button data-do="unit" title="half bits, microseconds or metres of cable (U)" id="unit">half bits</button>
<button data-do="text" title="size of text (T)">text</button><button data-do="theme" title="dark or light (B)">dark</button>
<button data-do="svg" title="save the view as SVG (S)">SVG</button><button data-do="png" title="save the view as PNG (Shift+S)">PNG</button>
</span>
</nav>
</header>
<main>
<section id="pictures" aria-label="Pictures">
<canvas id="plot" tabindex="0" role="img" aria-label="Space-time diagram: time to the right, the taps of each cable from top to bottom. The lines of the log are below."></canvas>
<canvas id="legend" role="img" aria-label="The marks: start of a frame, sent, collision heard, late hit, given up, received, dropped, clash, port closed, port opened, port halted"></canvas>
<h2 id="cables-title">The cables at the cursor</h2>
<canvas id="cables" role="img" aria-labelledby="cables-title"></canvas>
</section>
<section id="facts" aria-label="At the cursor" tabindex="0">
<h2>At <span id="now"></span></h2>
<div id="frame" hidden></div>
<table id="states"><caption>What each station does</caption><tbody></tbody></table>
<table id="shares"><caption>Share of the channel since the window's begin (hatched: lost)</caption><tbody></tbody></table>
<table id="counters"><caption>Counted since the window's begin</caption><thead></thead><tbody></tbody></table>
<table id="repeaters"><thead></thead><tbody></tbody></table>
</section>
<section id="log" aria-label="The log">
<h2>The log about the cursor</h2>
<p id="said" role="status" aria-live="polite">C goes to the next collision, the space bar plays, and the arrow keys step.</p>
<ol id="lines"></ol>
<details id="help"><summary>Keys</summary>
<p>C, D, L, G, P: next collision, drop, late hit, frame given up, port closed; with Shift the previous one. Up and down:
the log's lines one by one. Left and right: one half bit, with Shift a twentieth of the view. Space: play; [ and ]:
slower and faster. + and -: zoom about the cursor; Page Up and Page Down: a half of the view; Home and End: begin and
end; 0: all of it. Enter: the frame of the line at the cursor; Escape: no frame. U: unit; T: size of text; B: dark or
light; S: SVG, with Shift PNG. The wheel zooms about the pointer, with Shift it moves the cables, with Alt it spreads
them; drag to move, click for the cursor, or for a frame on one. The address keeps the view: a copy of it opens it.</p>
</details>
</section>
</main>
<div id="hint" hidden></div>
<script>
"use strict";
// The page of a run: it reads the data lines, draws them, and answers questions about them (window.netsimPage).
// A tap is a station or a repeater's port on a segment. A band is a stretch in which a tap emits, on its way along the
// cable. A sending is one attempt at a frame, as a row of the log tells it. All times are half bits.

const SLOT_TIME = 1024, HEADER = 128, LONGEST_WAIT = 10, HALF_BITS_A_MICROSECOND = 20, METRES_A_HALF_BIT = 11.5;
const COLOURS = ["#0072b2", "#e69f00", "#009e73", "#cc79a7", "#56b4e9", "#d55e00", "#f0e442"];
const MOST_MARKS = 2000, LEAST_SPREAD = 0.005, MOST_BANDS = 2500, MOST_ROWS_TOLD = 40, LINES_TOLD = 11;
const SENDINGS = new Set(["sent", "collided", "given_up", "cut"]);
const errors = [];
addEventListener("error", event => errors.push(String(event.message)));
addEventListener("unhandledrejection", event => errors.push(String(event.reason)));
document.addEventListener("securitypolicyviolation", event => errors.push("refused: " + event.blockedURI));

// ---- The data

/** What the data lines say: segments with their taps and bands, stations with their sendings, repeaters, and rows. */
function readNet(text) {
  const net = { from: 0, to: 1, halfBits: 1, segments: [], stations: [], repeaters: [], bands: [], rows: [] };
  const readers = readersOf(net);
  for (const line of text.split("\n")) {
    if (line === "") continue;
    const words = line.split(" "), read = readers[words[0]];
    if (read) read(words, line);
    else errors.push("no data line: " + line);
  }
  net.segments.forEach(finishSegment);
  net.stations.forEach(station => station.sendings.sort((a, b) => a.start - b.start));
  return net;
}

/** By its first word what reads a data line. */
function readersOf(net) {
  const segments = new Map(), taps = new Map(), stations = new Map(), repeaters = new Map();
  const addTap = (tap, name) => {
    taps.set(tap.name, Object.assign(tap, { segment: segments.get(name), number: taps.size, bands: [] }));
    tap.segment.taps.push(tap);
    return tap;
  };
  const add = (list, map, item) => {
    map.set(item.name, item);
    list.push(item);
    return item;
  };
  return {
    window: words => { [net.from, net.to] = [+words[1], +words[2]]; },
    run: words => { net.halfBits = +words[1]; },
    segment: words => add(net.segments, segments, { name: words[1], taps: [], bands: [] }),
    station: words => {
      const colour = COLOURS[net.stations.length % COLOURS.length];
      const station = add(net.stations, stations, { name: words[1], colour, sendings: [] });
      station.tap = addTap({ name: words[1], place: +words[3], station }, words[2]);
    },
    repeater: words => add(net.repeaters, repeaters, { name: words[1], delay: +words[2], ports: [], tap: null }),
    port: words => {
      const repeater = repeaters.get(words[1]), name = `${words[1]}:${words[2]}`;
      repeater.ports.push(addTap({ name, place: +words[4], repeater }, words[3]));
    },
    signal: (words, line) => addBand(net, taps.get(words[1]), words, line),
    row: (words, line) => addRow(net, (words[2] === "repeater" ? repeaters : stations).get(words[3]), words, line),
  };
}

function addBand(net, tap, words, line) {
  const band = { line, tap, start: +words[2], end: +words[3], kind: words[4], port: +(words[5] || 0) };
  net.bands.push(band);
  tap.bands.push(band);
  tap.segment.bands.push(band);
}

function addRow(net, device, words, line) {
  const t = +words[1], row = {
    line: line.slice(4), index: net.rows.length, t, at: t, device, what: words[4], tap: null,
    frame: 0, start: 0, end: t, attempt: 16, hit: null, draw: 0, octets: 0, port: 0, why: "", halves: 0,
  };
  if (row.what === "dropped") {
    row.why = words[5];
    row.halves = +words[7];
  } else for (let i = 5; i + 1 < words.length; i += 2) row[words[i]] = words[i + 1] === "none" ? null : +words[i + 1];
  if (SENDINGS.has(row.what)) {
    if (row.hit !== null) row.at = row.start + row.hit;
    device.sendings.push(row);
  }
  row.tap = device.tap || device.ports[Math.max(row.port, 1) - 1];
  net.rows.push(row);
}

function finishSegment(segment) {
  segment.taps.sort((a, b) => a.place - b.place);
  segment.bands.sort((a, b) => a.start - b.start);
  const places = segment.taps.map(tap => tap.place);
  segment.low = places.length ? places[0] : 0;
  segment.span = places.length ? places[places.length - 1] - places[0] : 0;
  let latest = 0;
  segment.latest = segment.bands.map(band => (latest = Math.max(latest, band.end)));
}

/** How many items of a sorted list have a key below a bound. */
function countBelow(list, bound, key) {
  let low = 0, high = list.length;
  while (low < high) {
    const middle = (low + high) >> 1;
    if (key(list[middle]) < bound) low = middle + 1;
    else high = middle;
  }
  return low;
}

// ---- Questions: who hears whom, what a station does, what was counted

const away = (band, tap) => Math.abs(band.tap.place - tap.place);

/** The bands of a segment that may be somewhere on it from one half bit to below another, in order of their starts. */
function bandsNear(segment, from, to) {
  const found = [], { bands, latest, span } = segment;
  for (let i = countBelow(bands, to, band => band.start) - 1; i >= 0 && latest[i] + span > from; i--) {
    if (bands[i].end + span > from) found.push(bands[i]);
  }
  return found.reverse();
}

/** The bands that a tap hears in a half bit, or in some half bit from it to below another. */
function heardBy(tap, from, to = from + 1) {
  return bandsNear(tap.segment, from, to).filter(band => {
    const later = away(band, tap);
    return band.tap !== tap && band.start + later < to && band.end + later > from;
  });
}

function sendingAt(station, t) {
  const sending = station.sendings[countBelow(station.sendings, t + 1, one => one.start) - 1];
  return sending && t < sending.end ? sending : null;
}

/** Where a band comes from: a station with its sending (null where no row tells it), or a repeater, and the repeaters
    that it came through. */
function sourceOf(band) {
  if (band.source === undefined) band.source = findSource(band);
  return band.source;
}

function findSource(band) {
  const { station, repeater } = band.tap;
  if (station) return { station, sending: sendingAt(station, band.start), through: [] };
  for (const t of band.kind === "repeat" ? [band.start, band.end - 1] : []) {
    const heard = heardBy(repeater.ports[band.port - 1], t - repeater.delay);
    if (heard.length !== 1) continue;
    const source = sourceOf(heard[0]);
    return { ...source, through: [...source.through, repeater.name] };
  }
  return { station: null, repeater, sending: null, through: [] };
}

function nameOfBand(band) {
  const source = sourceOf(band);
  const ways = source.through.length > 2 ? `${source.through.length} repeaters` : source.through.join(" and ");
  const through = ways && ` through ${ways}`;
  if (source.station) return source.station.name + through;
  return `${source.repeater.name}'s ${{ jam: "jam", extend: "extension" }[band.kind] || "signal"}${through}`;
}

function namesOf(bands) {
  const names = [...new Set(bands.map(nameOfBand))];
  if (names.length > 4) names.splice(3, names.length, `${names.length - 3} others`);
  return names.length > 1 ? `${names.slice(0, -1).join(", ")} and ${names[names.length - 1]}` : names[0] || "a signal";
}

/** The bands that a station's row of a reception is about. */
function bandsOfRow(row) {
  return heardBy(row.device.tap, row.what === "dropped" ? row.t - row.halves : row.t - 1, row.t);
}

function jamBegin(sending) {
  if (sending.hit === null) return Infinity;
  return sending.start + (sending.hit < HEADER ? HEADER : 2 * (Math.floor(sending.hit / 2) + 1));
}

/** Whether a station that hears these bands is deaf: what it hears began before the end of a sending of its own. */
function isDeaf(station, t, heard) {
  const before = station.sendings[countBelow(station.sendings, t + 1, one => one.start) - 1];
  if (!before) return false;
  let since = t;
  while (heard.length && since > before.end) {
    since = Math.min(...heard.map(band => band.start + away(band, station.tap)));
    heard = heardBy(station.tap, since - 1);
  }
  return since <= before.end;
}

/** What a station does in a half bit, with the words for it. */
function stateAt(station, t) {
  const state = { station: station.name, halfBit: t, sending: null, until: null, hears: [], words: "" };
  const own = sendingAt(station, t);
  if (own) {
    state.sending = own;
    state.doing = t >= jamBegin(own) ? "jams" : "sends";
    const heard = state.doing === "sends" && own.hit !== null && t >= own.at ? "; heard a collision" : "";
    state.words = `${state.doing === "jams" ? "jams for" : "sends"} frame ${own.frame}, attempt ${own.attempt}${heard}`;
    return state;
  }
  const said = [], heard = heardBy(station.tap, t);
  state.hears = heard;
  const last = station.sendings[countBelow(station.sendings, t + 1, one => one.start) - 1];
  if (last && last.what === "collided") {
    state.until = last.end + SLOT_TIME * last.draw;
    state.doing = t < state.until ? "backs off" : "waits";
    const turn = `waits for its turn with frame ${last.frame}`;
    said.push(t < state.until ? `backs off until ${toldTime(state.until)}` : turn);
  }
  if (heard.length === 1) {
    const verb = isDeaf(station, t, heard) ? "is deaf to" : said.length ? "hears" : "receives from";
    said.push(`${verb} ${nameOfBand(heard[0])}`);
  } else if (heard.length > 1) said.push(`hears a collision of ${namesOf(heard)}`);
  state.doing = state.doing || (heard.length ? "receives" : "silent");
  state.words = said.join("; ") || "silent";
  return state;
}

const STATION_COUNTS = ["sent", "collided", "late", "given_up", "cut", "received", "dropped"];
const REPEATER_COUNTS = ["clash", "closed", "opened", "halted"], COUNTED = [...STATION_COUNTS, ...REPEATER_COUNTS];
const newCounters = () => Object.fromEntries(COUNTED.map(word => [word, 0]));

/** What the rows from the window's begin to a half bit, this one too, count: by device, and in all. */
function countersAt(t) {
  const { kept } = countersAt, counted = kept && kept.t <= t ? kept : { next: 0, all: newCounters(), by: new Map() };
  for (; counted.next < net.rows.length && net.rows[counted.next].t <= t; counted.next++) {
    const row = net.rows[counted.next];
    if (row.t < net.from) continue;
    if (!counted.by.has(row.device)) counted.by.set(row.device, newCounters());
    for (const counters of [counted.all, counted.by.get(row.device)]) {
      counters[row.what]++;
      if (row.what === "given_up") counters.collided++;
      if (isLate(row)) counters.late++;
    }
  }
  counted.t = t;
  countersAt.kept = counted;
  return counted;
}

/** How many half bits from the window's begin to below t a station sent for, in frames that were sent and others. */
function sharesAt(station, t) {
  const shares = { sent: 0, lost: 0 };
  for (const sending of station.sendings) {
    if (sending.start >= t) break;
    const told = sending.what === "sent" ? "sent" : "lost";
    shares[told] += Math.max(0, Math.min(sending.end, t) - Math.max(sending.start, net.from));
  }
  return shares;
}

const isCollision = row => row.what === "collided" || row.what === "given_up";
const isLate = row => isCollision(row) && row.hit >= SLOT_TIME;
const KINDS = {
  collision: isCollision, drop: row => row.what === "dropped", late: isLate,
  given_up: row => row.what === "given_up", closed: row => row.what === "closed", row: () => true,
};

/** The rows of a kind whose half bit, that of the hit for a collision, lies in the window, in order of it. */
function rowsOfKind(kind) {
  const kept = rowsOfKind.kept || (rowsOfKind.kept = {});
  if (!kept[kind]) {
    const rows = net.rows.filter(row => KINDS[kind](row) && row.at >= net.from && row.at < net.to);
    kept[kind] = rows.sort((a, b) => a.at - b.at);
  }
  return kept[kind];
}

function next(kind, t) {
  const rows = rowsOfKind(kind);
  return rows[countBelow(rows, Math.floor(t) + 1, row => row.at)] || null;
}

function previous(kind, t) {
  const rows = rowsOfKind(kind), count = countBelow(rows, Math.floor(t), row => row.at);
  return count ? rows[countBelow(rows, rows[count - 1].at, row => row.at)] : null;
}

// ---- Words

const group = number => number.toLocaleString("en-US");
const counted = (number, noun) => `${group(number)} ${noun}${number === 1 ? "" : "s"}`;
const microseconds = halfBits => `${group(halfBits / HALF_BITS_A_MICROSECOND)}\u00a0\u00b5s`;
const UNITS = [
  { name: "half bits", short: "half bits", halfBits: 1 },
  { name: "microseconds", short: "\u00b5s", halfBits: HALF_BITS_A_MICROSECOND },
  { name: "metres of cable", short: "m of cable", halfBits: 1 / METRES_A_HALF_BIT },
];

function toldTime(halfBits) {
  if (look.unit === 0) return counted(Math.round(halfBits), "half bit");
  const unit = UNITS[look.unit], digits = look.unit === 1 ? 2 : 0;
  return `${(halfBits / unit.halfBits).toLocaleString("en-US", { maximumFractionDigits: digits })} ${unit.short}`;
}

function drawWords(row) {
  const most = 2 ** Math.min(row.attempt, LONGEST_WAIT) - 1;
  const wait = row.draw ? `waits ${microseconds(SLOT_TIME * row.draw)}` : "may try again at once";
  return `drew ${row.draw} of 0 to ${group(most)}: ${wait}`;
}

const SENTENCES = {
  sent: row => `${row.device.name} sent frame ${row.frame} at attempt ${row.attempt}, ` +
    `in ${microseconds(row.t - row.start)}`,
  collided: row => `${row.device.name} heard ${heardAtHit(row)}, jammed, ${drawWords(row)}`,
  given_up: row => `${row.device.name} heard ${heardAtHit(row)} at attempt 16, jammed, and gave frame ${row.frame} up`,
  cut: row => `the run ended while ${row.device.name} was sending frame ${row.frame}, attempt ${row.attempt}`,
  received: row => `${row.device.name} received ${counted(row.octets, "octet")} from ${namesOf(bandsOfRow(row))}`,
  dropped: row => `${row.device.name} dropped ${counted(row.halves, "half bit")} ${WHYS[row.why]}: ` +
    `it heard ${namesOf(bandsOfRow(row))}`,
  clash: row => `${row.device.name} hears a collision and jams all its ports`,
  closed: row => `${row.device.name} closed port ${row.port}: nothing comes in by it until it opens again`,
  opened: row => `${row.device.name} opened port ${row.port} again`,
  halted: row => `${row.device.name} halts port ${row.port} after 100,000 half bits of output, for 192`,
};
const WHYS = {
  fragment: "as a fragment", too_long: "as too long", fcs: "for a wrong check sequence", align: "as not aligned",
  damaged: "as damaged",
};

function heardAtHit(row) {
  const late = isLate(row) ? ", past the slot time" : "";
  return `${namesOf(heardBy(row.device.tap, row.at))} after ${counted(row.hit, "half bit")}${late}`;
}

const sentence = row => SENTENCES[row.what](row);

function bandWords(band) {
  const source = sourceOf(band), sending = source.sending;
  const frame = sending ? ` frame ${sending.frame}, attempt ${sending.attempt}` : "";
  if (band.tap.station) return `${band.tap.name} ${band.kind === "jam" ? "jams for" : "sends"}${frame || " a frame"}`;
  const what = { repeat: `repeats ${source.station ? source.station.name + (frame && ":" + frame) : "a signal"}`,
    extend: "extends a fragment", jam: "jams" }[band.kind];
  return `${band.tap.name} ${what}`;
}

const net = readNet(document.getElementById("data").textContent);
</script>
<script>
"use strict";
// What of the run is shown, in which colours, and where on the canvas.

const root = document.documentElement, element = id => document.getElementById(id);
const plot = element("plot"), cables = element("cables"), legend = element("legend");
const look = {
  from: net.from, to: net.to, spread: 1, down: 0, at: net.from, row: null, frame: null,
  isSpread: false, unit: 0, text: 0, dark: false, speed: 0,
};
const place = { left: 100, top: 30, right: 800, bottom: 400, em: 14 };
const drawn = { bands: [], marks: [], pictures: 0, isDense: false, rows: true };
let theme = {};

function setTheme() {
  root.classList.toggle("dark", look.dark);
  root.style.fontSize = `${[16, 20, 25, 32][look.text]}px`;
  const style = getComputedStyle(root), names = ["back", "fore", "dim", "line", "panel", "mark"];
  theme = Object.fromEntries(names.map(name => [name, style.getPropertyValue("--" + name).trim()]));
  theme.bad = look.dark ? "#ff7b72" : "#b3001b";
  theme.strength = look.dark ? 0.55 : 0.42;
  theme.repeater = look.dark ? "#8b97a5" : "#7a8590";
  theme.hatch = makePattern(8, g => [-8, 0, 8].forEach(x => line(g, [[x, 8], [x + 8, 0]], theme.fore, 1.3)));
  theme.stripes = makePattern(5, g => line(g, [[2.5, 0], [2.5, 5]], theme.fore, 1));
  place.em = 14 * [1, 1.25, 1.6, 2][look.text];
  layOutLanes();
}

function makePattern(size, draw) {
  const scale = 2, canvas = document.createElement("canvas");
  canvas.width = canvas.height = size * scale;
  const g = canvas.getContext("2d");
  g.scale(scale, scale);
  draw(g);
  const pattern = g.createPattern(canvas, "repeat");
  pattern.setTransform(new DOMMatrix().scale(1 / scale));
  return { pattern };
}

/** Puts the lanes of all taps one below the other: as far apart as the taps are, but at least a line of text. */
function layOutLanes() {
  const row = 2 * place.em;
  let top = 0;
  place.gap = 4 * place.em;
  for (const segment of net.segments) {
    segment.top = top;
    let y = top + row;
    const scale = Math.min(place.em, (18 * place.em) / Math.max(segment.span, 1));
    segment.taps.forEach((tap, i) => {
      const wanted = segment.top + 1.6 * row + scale * (tap.place - segment.low);
      tap.y = i ? Math.max(y + row, wanted) : wanted;
      if (i) place.gap = Math.min(place.gap, tap.y - y);
      y = tap.y;
    });
    segment.bottom = y + 0.9 * row;
    top = segment.bottom + 0.3 * row;
  }
  place.height = top;
}

const xOf = t => place.left + ((t - look.from) / (look.to - look.from)) * (place.right - place.left);
const timeOf = x => look.from + ((x - place.left) / (place.right - place.left)) * (look.to - look.from);
const laneHeight = () => place.gap * look.spread;
const yOf = y => place.top + (y - look.down) * look.spread;

/** The places of a segment at which its fronts may bend, each with its height: none where they go on straight. */
function bendsOf(segment) {
  const { taps, low, span } = segment, bends = [], edge = Math.min(0.7 * place.em, 0.4 * laneHeight());
  if (!taps.length) return bends;
  taps.forEach((tap, i) => {
    const y = yOf(tap.y), last = bends[bends.length - 1], after = taps[i + 1];
    const part = last && after ? (tap.place - last.place) / (after.place - last.place) : 0;
    if (!part || Math.abs(last.y + (yOf(after.y) - last.y) * part - y) > 0.3) bends.push({ place: tap.place, y });
  });
  return [{ place: low, y: bends[0].y - edge }, ...bends, { place: low + span, y: bends[bends.length - 1].y + edge }];
}

/** The place on a segment of a height on the canvas. */
function placeOf(segment, y) {
  const taps = segment.taps;
  let i = taps.findIndex(tap => yOf(tap.y) > y);
  if (i === 0) return segment.low;
  if (i < 0) return segment.low + segment.span;
  const [a, b] = [taps[i - 1], taps[i]];
  return a.place + ((y - yOf(a.y)) / (yOf(b.y) - yOf(a.y))) * (b.place - a.place);
}

function fit() {
  [look.from, look.to] = [net.from, net.to];
  fitLanes();
}

function fitLanes() {
  look.down = 0;
  look.isSpread = false;
  look.spread = Math.min(1.5, Math.max(LEAST_SPREAD, (place.bottom - place.top) / place.height));
}

/** Shows so many half bits, with the half bit at `t` staying where it is; within the window. */
function zoom(factor, t) {
  const wide = Math.min(Math.max((look.to - look.from) * factor, 4), net.to - net.from);
  const part = (t - look.from) / (look.to - look.from);
  look.from = t - part * wide;
  look.to = look.from + wide;
  pan(0);
}

function pan(halfBits) {
  const wide = look.to - look.from;
  look.from = Math.min(Math.max(look.from + halfBits, net.from), net.to - wide);
  look.to = look.from + wide;
  changed();
}

function scrollDown(pixels) {
  const room = Math.max(0, place.height - (place.bottom - place.top) / look.spread);
  look.down = Math.min(Math.max(look.down + pixels / look.spread, 0), room);
  changed();
}

function spreadLanes(factor, y) {
  const kept = look.down + (y - place.top) / look.spread;
  look.spread = Math.min(4, Math.max(LEAST_SPREAD, look.spread * factor));
  look.down = kept - (y - place.top) / look.spread;
  look.isSpread = true;
  scrollDown(0);
}
</script>
<script>
"use strict";
// How the run is drawn: `g` is a canvas's context, or a pen that writes an SVG (pen.js).

function line(g, points, colour, width = 1) {
  path(g, points);
  g.strokeStyle = colour;
  g.lineWidth = width;
  g.stroke();
}

function path(g, points) {
  g.beginPath();
  points.forEach(([x, y], i) => (i ? g.lineTo(x, y) : g.moveTo(x, y)));
}

function setFont(g, size, isBold = false) {
  g.font = `${isBold ? "bold " : ""}${(size * place.em).toFixed(1)}px "DejaVu Sans", "Segoe UI", sans-serif`;
}

function write(g, text, x, y, { colour = theme.fore, size = 1, align = "left", bold = false, halo = false } = {}) {
  setFont(g, size, bold);
  g.textAlign = align;
  g.textBaseline = "middle";
  if (halo) {
    g.strokeStyle = theme.back;
    g.lineWidth = 3;
    g.strokeText(text, x, y);
  }
  g.fillStyle = colour;
  g.fillText(text, x, y);
}

/** Whether a sending is one of the frame that was chosen; all are where none was. */
function isLit(sending) {
  const { frame } = look;
  return !frame || (sending !== null && sending.device.name === frame.station && sending.frame === frame.frame);
}

const colourOf = source => (source.station ? source.station.colour : theme.repeater);
const isPale = colour => ["#e69f00", "#cc79a7", "#56b4e9", "#f0e442"].includes(colour);

/** The outline of a band: both fronts start at its tap and go both ways along the cable. */
function outlineOf(band, bends) {
  const own = { place: band.tap.place, y: yOf(band.tap.y) }, at = bends.findIndex(bend => bend.place > own.place);
  const all = at > 0 ? [...bends.slice(0, at), own, ...bends.slice(at)] : bends;
  const front = t => all.map(bend => [xOf(t + Math.abs(bend.place - own.place)), bend.y]);
  return front(band.start).concat(front(band.end).reverse());
}

/** The segments that are in view, each with its bends and the bands that may be seen on it. */
function segmentsInView() {
  const shown = net.segments.filter(segment => yOf(segment.bottom) > place.top && yOf(segment.top) < place.bottom);
  const [from, to] = [Math.floor(look.from), Math.ceil(look.to)];
  return shown.map(segment => ({ segment, bends: bendsOf(segment), bands: bandsNear(segment, from, to) }));
}

function drawBands(g, { bends, bands }) {
  for (const band of bands) {
    const source = sourceOf(band);
    g.globalAlpha = isLit(source.sending) ? theme.strength : 0.07;
    path(g, outlineOf(band, bends));
    g.closePath();
    g.fillStyle = colourOf(source);
    g.fill();
    if (xOf(band.end) - xOf(band.start) < 4) continue;
    g.globalAlpha = isLit(source.sending) ? 0.8 : 0.15;
    g.strokeStyle = colourOf(source);
    g.lineWidth = 1;
    g.stroke();
  }
  g.globalAlpha = 1;
}

/** Whether two bands of a segment lie on top of each other somewhere on the cable. */
function doMeet(a, b) {
  const apart = Math.abs(a.tap.place - b.tap.place);
  return a.tap !== b.tap && b.start - a.end < apart && b.end - a.start > -apart;
}

function drawOverlaps(g, { segment, bends, bands }) {
  g.fillStyle = theme.hatch.pattern;
  for (let i = 0; i < bands.length; i++) {
    const others = [];
    for (let j = i + 1; j < bands.length && bands[j].start < bands[i].end + segment.span && others.length < 60; j++) {
      if (doMeet(bands[i], bands[j])) others.push(bands[j]);
    }
    if (!others.length) continue;
    g.save();
    path(g, outlineOf(bands[i], bends));
    g.clip();
    g.globalAlpha = look.frame && ![bands[i], ...others].some(band => isLit(sourceOf(band).sending)) ? 0.12 : 0.75;
    for (const band of others) {
      path(g, outlineOf(band, bends));
      g.closePath();
      g.fill();
    }
    g.restore();
  }
}

/** The bars on the lanes of the taps that emit, with words in them where there is room. */
function drawBars(g, bands, thick) {
  for (const band of bands) {
    const source = sourceOf(band), y = yOf(band.tap.y), left = Math.max(xOf(band.start), place.left - 5);
    const right = Math.min(xOf(band.end), place.right + 5), colour = colourOf(source);
    drawn.bands.push({ line: band.line, left: xOf(band.start), right: xOf(band.end), y });
    if (right < place.left || left > place.right) continue;
    g.globalAlpha = isLit(source.sending) ? 1 : 0.18;
    g.fillStyle = colour;
    g.fillRect(left, y - thick / 2, right - left, thick);
    if (band.kind === "jam") {
      g.fillStyle = theme.stripes.pattern;
      g.fillRect(left, y - thick / 2, right - left, thick);
    }
    if (thick < 6) continue;
    g.strokeStyle = theme.fore;
    g.lineWidth = band.tap.station ? 1.2 : 0.8;
    g.setLineDash(band.tap.station ? [] : [4, 3]);
    g.strokeRect(left, y - thick / 2, right - left, thick);
    g.setLineDash([]);
    if (thick > 0.9 * place.em) writeInBar(g, band, left, right, y);
  }
  g.globalAlpha = 1;
}

/** What a bar may say, the longest first. */
function barWords(band) {
  const source = sourceOf(band);
  const told = source.sending ? `frame ${source.sending.frame}` : "frame";
  const attempt = source.sending && source.sending.attempt > 1 ? `, attempt ${source.sending.attempt}` : "";
  if (band.kind === "extend") return ["extends"];
  if (band.kind === "jam") return [band.tap.station ? "jam" : "jams"];
  if (band.kind === "frame") return [`${band.tap.name}: ${told}${attempt}`, told + attempt, told, told.slice(6)];
  const name = source.station ? source.station.name : "a signal";
  return [`repeats ${name}: ${told}`, `repeats ${name}`, "repeats"];
}

function writeInBar(g, band, left, right, y) {
  const x = Math.max(left, place.left) + 4, room = Math.min(right, place.right) - x - 2;
  const isDark = !isPale(colourOf(sourceOf(band)));
  setFont(g, 0.85);
  const text = barWords(band).find(one => g.measureText(one).width < room);
  if (!text) return;
  if (band.kind === "jam") {
    g.fillStyle = isDark ? "#000000cc" : "#ffffffcc";
    g.fillRect(x - 2, y - 0.45 * place.em, g.measureText(text).width + 4, 0.9 * place.em);
  }
  write(g, text, x, y, { colour: isDark ? "#ffffff" : "#000000", size: 0.85 });
}

/** Thin lines from where a repeater hears what it repeats to where it emits it. */
function drawRepeating(g, bands) {
  g.setLineDash([2, 3]);
  for (const band of bands.filter(one => one.kind === "repeat")) {
    const from = band.tap.repeater.ports[band.port - 1], later = band.tap.repeater.delay;
    g.globalAlpha = isLit(sourceOf(band).sending) ? 0.9 : 0.15;
    for (const t of [band.start, band.end]) {
      line(g, [[xOf(t - later), yOf(from.y)], [xOf(t), yOf(band.tap.y)]], theme.fore, 1);
    }
  }
  g.setLineDash([]);
  g.globalAlpha = 1;
}

// ---- Marks: what the log's rows tell

const MARKS = {
  start: { isAbove: true, shape: [[0, -1.4], [0, -2.7], [1.3, -2.05]], fill: "fore", says: "starts" },
  sent: { isAbove: true, shape: [[-1.3, -2.2], [-0.8, -1.6], [0.1, -2.9]], isOpen: true, says: "sent" },
  hit: { isAbove: true, shape: [[-0.9, -2.9], [0.9, -2.9], [0, -1.3]], fill: "fore", says: "hears a collision" },
  late: { isAbove: true, shape: [[-0.9, -2.9], [0.9, -2.9], [0, -1.3]], fill: "bad", word: "late", says: "late hit" },
  given_up: { ring: 0.85, fill: "bad", lines: [[-0.5, 0, 0.5, 0]], says: "given up" },
  cut: { shape: [[0, -1.2], [-0.4, -0.6], [0.4, 0], [-0.4, 0.6], [0, 1.2]], isOpen: true, says: "cut by the end" },
  received: { ring: 0.6, fill: "fore", says: "received" },
  dropped: { lines: [[-0.65, -0.65, 0.65, 0.65], [-0.65, 0.65, 0.65, -0.65]], colour: "bad", says: "dropped" },
  clash: { shape: star(), fill: "mark", says: "repeater begins to jam" },
  closed: { shape: [[-0.7, -0.7], [0.7, -0.7], [0.7, 0.7], [-0.7, 0.7]], fill: "bad", says: "port closed" },
  opened: { shape: [[-0.7, -0.7], [0.7, -0.7], [0.7, 0.7], [-0.7, 0.7]], fill: "back", says: "port opened" },
  halted: { shape: [[0, -0.95], [0.95, 0], [0, 0.95], [-0.95, 0]], fill: "bad", says: "port halted (jabber)" },
};

function star() {
  return Array.from({ length: 12 }, (_, i) => {
    const angle = (i * Math.PI) / 6, r = i % 2 ? 0.55 : 1.1;
    return [r * Math.sin(angle), r * Math.cos(angle)];
  });
}

function drawMark(g, kind, x, y, r) {
  const mark = MARKS[kind], colour = theme[mark.colour || "fore"];
  if (mark.ring) {
    g.beginPath();
    g.arc(x, y, mark.ring * r, 0, 2 * Math.PI);
  } else if (mark.shape) {
    path(g, mark.shape.map(([a, b]) => [x + a * r, y + b * r]));
    if (!mark.isOpen) g.closePath();
  }
  if (mark.fill) {
    g.fillStyle = theme[mark.fill];
    g.fill();
  }
  if (mark.shape || mark.ring) {
    g.strokeStyle = mark.isOpen || mark.fill === "mark" || mark.fill === "back" ? theme.fore : theme.back;
    g.lineWidth = mark.isOpen ? 2 : 1;
    g.stroke();
  }
  const pen = mark.fill === "bad" ? theme.back : colour;
  for (const [a, b, c, d] of mark.lines || []) {
    line(g, [[x + a * r, y + b * r], [x + c * r, y + d * r]], pen, Math.max(2, r / 3));
  }
  const style = { colour: theme.bad, size: 0.8, bold: true, halo: true };
  if (mark.word) write(g, mark.word, x + 1.3 * r, y - 2.2 * r, style);
}

/** The marks of a row: the kind, the half bit and the tap of each. */
function marksOf(row) {
  const tap = row.tap;
  if (row.what === "clash") return row.device.ports.map(port => ["clash", row.t, port]);
  if (!SENDINGS.has(row.what)) return [[row.what, row.t, tap]];
  const hit = row.hit === null ? [] : [[isLate(row) ? "late" : "hit", row.at, tap]];
  return [["start", row.start, tap], ...hit, ...(row.what === "collided" ? [] : [[row.what, row.t, tap]])];
}

/** The rows some of whose marks may be in view, or null where they are too many to be told apart. */
function rowsInView() {
  const from = countBelow(net.rows, look.from, row => row.t), to = countBelow(net.rows, look.to, row => row.t);
  if (to - from > MOST_MARKS || laneHeight() < 9) return null;
  const rows = net.rows.slice(from, to);
  for (const station of net.stations) {
    const last = countBelow(station.sendings, look.to, sending => sending.start) - 1;
    for (let i = last; i >= 0 && station.sendings[i].end >= look.to; i--) rows.push(station.sendings[i]);
  }
  return rows;
}

function drawMarks(g, rows) {
  const r = 0.42 * place.em * Math.min(1, Math.max(0.5, laneHeight() / (1.8 * place.em)));
  const lit = look.frame ? new Set(frameFacts(look.frame).rows) : null;
  for (const row of rows) {
    g.globalAlpha = lit && !lit.has(row) ? 0.15 : 1;
    for (const [kind, t, tap] of marksOf(row)) {
      const x = xOf(t), y = yOf(tap.y);
      if (x < place.left - r || x > place.right + r || y < place.top || y > place.bottom) continue;
      drawMark(g, kind, x, y, r);
      drawn.marks.push({ x, y, row });
    }
  }
  g.globalAlpha = 1;
}

/** Dotted lines from a collision's end to the end of its backoff, and on to the next attempt. */
function drawWaits(g, stations) {
  for (const station of stations) {
    const y = yOf(station.tap.y), list = station.sendings;
    const first = Math.max(0, countBelow(list, look.from, one => one.start) - 1);
    for (let i = first; i < list.length && list[i].end < look.to; i++) {
      if (list[i].what !== "collided") continue;
      const until = list[i].end + SLOT_TIME * list[i].draw, after = list[i + 1] ? list[i + 1].start : net.to;
      g.globalAlpha = isLit(list[i]) ? 1 : 0.15;
      g.setLineDash([2, 4]);
      line(g, [[xOf(list[i].end), y], [xOf(Math.min(until, after)), y]], station.colour, 3);
      g.setLineDash([]);
      line(g, [[xOf(Math.min(until, after)), y], [xOf(after), y]], station.colour, 1.5);
    }
  }
  g.globalAlpha = 1;
}

// ---- Density, where bands and marks are too many to be told apart

/** For each segment the stretches of half bits in which something, and in which several signals, are in its middle. */
function coverOf(segment) {
  if (segment.cover) return segment.cover;
  const middle = segment.low + segment.span / 2, steps = [];
  for (const band of segment.bands) {
    const later = Math.abs(band.tap.place - middle);
    steps.push([band.start + later, 1], [band.end + later, -1]);
  }
  steps.sort((a, b) => a[0] - b[0] || a[1] - b[1]);
  const cover = [[], []], since = [0, 0];
  let many = 0;
  for (const [t, step] of steps) {
    const before = many;
    many += step;
    for (const level of [0, 1]) {
      if (before <= level && many > level) since[level] = t;
      if (before > level && many <= level && t > since[level]) cover[level].push([since[level], t]);
    }
  }
  return (segment.cover = cover);
}

/** Of each column of the plot the part that stretches cover. */
function coverage(stretches, columns) {
  const parts = new Float32Array(columns), scale = columns / (look.to - look.from);
  const first = countBelow(stretches, look.from, one => one[1]);
  for (let i = first; i < stretches.length && stretches[i][0] < look.to; i++) {
    const [start, end] = stretches[i].map(t => (t - look.from) * scale);
    const from = Math.max(0, start), to = Math.min(columns, end);
    for (let k = Math.floor(from); k < to; k++) parts[k] += Math.min(to, k + 1) - Math.max(from, k);
  }
  return parts;
}

/** The red, green and blue of a colour's name, as the low octets of a dot. */
function dotOf(name) {
  const [red, green, blue] = [1, 3, 5].map(i => parseInt(name.slice(i, i + 2), 16));
  return red | (green << 8) | (blue << 16);
}

/** An image of cells, each a dot that a function tells by its number; its strength is from 0 to 1. */
function cells(columns, rows, tell) {
  const canvas = cells[rows > 2] || (cells[rows > 2] = document.createElement("canvas"));
  if (canvas.width !== columns || canvas.height !== rows) [canvas.width, canvas.height] = [columns, rows];
  const g = canvas.getContext("2d"), image = g.createImageData(columns, rows);
  const dots = new Uint32Array(image.data.buffer);
  for (let i = 0; i < dots.length; i++) dots[i] = tell(i);
  g.putImageData(image, 0, 0);
  return canvas;
}

const dotWith = (colour, strength) => (colour | (Math.round(255 * Math.min(1, strength)) << 24)) >>> 0;

function drawDenseBands(g, segment) {
  const wide = place.right - place.left, columns = Math.max(1, Math.round(wide));
  const [some, several] = coverOf(segment).map(one => coverage(one, columns));
  const calm = dotOf(COLOURS[0]), bad = dotOf(theme.bad);
  const top = yOf(segment.taps[0] ? segment.taps[0].y : segment.top) - 4, bottom = yOf(segment.bottom) - 4;
  const tell = i => (i < columns ? dotWith(calm, 0.75 * some[i]) : dotWith(bad, 3 * several[i - columns]));
  const image = cells(columns, 2, tell);
  const height = Math.max(3, bottom - top), split = several.some(part => part > 0) ? 0.8 : 1;
  g.imageSmoothingEnabled = false;
  g.drawImage(image, 0, 0, columns, 1, place.left, top, wide, height * split);
  if (split < 1) g.drawImage(image, 0, 1, columns, 1, place.left, top + height * split, wide, height * (1 - split));
}

const BAD_ROWS = new Set(["collided", "given_up", "dropped", "clash", "closed", "halted"]);

/** How many rows lie in each cell of the plot, in two lists: good ones, and bad ones. */
function countCells(columns, rows, wide, high) {
  const counts = [new Float32Array(columns * rows), new Float32Array(columns * rows)], lanes = [];
  for (const tap of net.segments.flatMap(segment => segment.taps)) {
    lanes[tap.number] = Math.floor((yOf(tap.y) - place.top) / high);
  }
  const to = countBelow(net.rows, look.to, row => row.t), scale = (xOf(look.from + 1) - xOf(look.from)) / wide;
  for (let i = countBelow(net.rows, look.from, row => row.t); i < to; i++) {
    const row = net.rows[i], x = Math.floor((row.t - look.from) * scale), y = lanes[row.tap.number];
    if (y >= 0 && y < rows && x < columns) counts[BAD_ROWS.has(row.what) ? 1 : 0][y * columns + x]++;
  }
  return counts;
}

function drawDenseRows(g) {
  const wide = 3, high = Math.max(3, Math.min(place.em, laneHeight()));
  const columns = Math.ceil((place.right - place.left) / wide), rows = Math.ceil((place.bottom - place.top) / high);
  const [good, bad] = countCells(columns, rows, wide, high), fore = dotOf(theme.fore), red = dotOf(theme.bad);
  const most = Math.log1p(good.reduce((a, b) => Math.max(a, b), bad.reduce((a, b) => Math.max(a, b), 1)));
  const image = cells(columns, rows, i => {
    const told = bad[i] || good[i];
    return told ? dotWith(bad[i] ? red : fore, 0.2 + (0.4 * Math.log1p(told)) / most) : 0;
  });
  g.imageSmoothingEnabled = false;
  g.drawImage(image, 0, 0, columns, rows, place.left, place.top, columns * wide, rows * high);
}

// ---- The whole plot

function axisStep() {
  const unit = UNITS[look.unit].halfBits, wide = (timeOf(7.5 * place.em) - timeOf(0)) / unit;
  const power = 10 ** Math.floor(Math.log10(wide));
  return Math.max([1, 2, 5, 10].find(times => times * power >= wide) * power, look.unit === 0 ? 1 : 0) * unit;
}

function drawAxis(g) {
  const unit = UNITS[look.unit], step = axisStep(), y = place.top - 0.75 * place.em;
  const digits = Math.max(0, Math.min(6, -Math.floor(Math.log10(step / unit.halfBits) + 1e-9)));
  const style = { colour: theme.dim, size: 0.85, align: "center" };
  g.fillStyle = theme.back;
  g.fillRect(0, 0, place.right + 40, place.top);
  for (let k = Math.ceil(look.from / step - 1e-9); k * step <= look.to + 1e-9; k++) {
    const x = xOf(k * step), told = Math.abs((k * step) / unit.halfBits);
    const text = told.toLocaleString("en-US", { maximumFractionDigits: digits });
    line(g, [[x, place.top], [x, place.bottom]], theme.line, 1);
    const half = text.length * 0.3 * place.em;
    if (x - half > place.left - place.em && x + half < place.right + 0.6 * place.em) write(g, text, x, y, style);
  }
  write(g, unit.short, place.left - 1.2 * place.em, y, { ...style, align: "right" });
}

function shorten(g, text, most) {
  if (g.measureText(text).width <= most) return text;
  while (text.length > 2 && g.measureText(text + "\u2026").width > most) text = text.slice(0, -1);
  return text + "\u2026";
}

/** The names of segments and taps left of the plot, as many as there is room for. */
function drawNames(g) {
  g.fillStyle = theme.back;
  g.fillRect(0, place.top, place.left, place.bottom - place.top + 1);
  let below = place.top;
  for (const segment of net.segments) {
    const y = yOf(segment.top) + 0.9 * place.em, isSpread = laneHeight() >= place.em;
    if (y > below && y < place.bottom) {
      write(g, `cable ${segment.name}`, 6, y, { bold: true, size: 0.85 });
      below = y + (isSpread ? 0.3 : 1) * place.em;
    }
    for (const tap of segment.taps) {
      const at = yOf(tap.y);
      if (at - 0.5 * place.em < below || at > place.bottom - 0.4 * place.em) continue;
      write(g, shorten(g, tap.name, place.left - 2.2 * place.em), place.left - 8, at, { align: "right" });
      g.fillStyle = tap.station ? tap.station.colour : theme.repeater;
      g.fillRect(place.left - 5, at - 0.45 * place.em, 4, 0.9 * place.em);
      below = at + 0.5 * place.em;
    }
  }
}

function drawLanes(g, segments) {
  if (laneHeight() < 5) return;
  for (const { segment } of segments) {
    for (const tap of segment.taps) line(g, [[place.left, yOf(tap.y)], [place.right, yOf(tap.y)]], theme.line, 1);
  }
}

function drawCursor(g) {
  const x = xOf(look.at);
  if (x < place.left - 1 || x > place.right + 1) return;
  line(g, [[x, place.top - 4], [x, place.bottom]], theme.back, 4);
  line(g, [[x, place.top - 4], [x, place.bottom]], theme.fore, 2);
  path(g, [[x - 6, place.top - 9], [x + 6, place.top - 9], [x, place.top]]);
  g.fillStyle = theme.fore;
  g.fill();
}

/** Where the plot lies on a canvas of this size. */
function setPlace(wide, high) {
  place.left = Math.min(11 * place.em, Math.max(6 * place.em, 0.12 * wide));
  place.top = 1.9 * place.em;
  place.right = Math.max(place.left + 10, wide - 0.8 * place.em);
  place.bottom = Math.max(place.top + 10, high - 2);
}

/** Draws the plot: `g` is a canvas's context or an SvgPen. */
function drawPlot(g, wide, high) {
  setPlace(wide, high);
  g.fillStyle = theme.back;
  g.fillRect(0, 0, wide, high);
  drawAxis(g);
  const segments = segmentsInView(), rows = rowsInView();
  Object.assign(drawn, { bands: [], marks: [], rows: Boolean(rows), pictures: drawn.pictures + 1 });
  drawn.isDense = segments.reduce((sum, one) => sum + one.bands.length, 0) > MOST_BANDS;
  g.save();
  g.beginPath();
  g.rect(place.left, place.top, place.right - place.left, place.bottom - place.top);
  g.clip();
  if (drawn.isDense) segments.forEach(({ segment }) => drawDenseBands(g, segment));
  else drawSignals(g, segments);
  if (!rows) drawDenseRows(g);
  drawCursor(g);
  if (rows) drawMarks(g, rows);
  g.restore();
  drawNames(g);
}

function drawSignals(g, segments) {
  segments.forEach(one => drawBands(g, one));
  drawLanes(g, segments);
  segments.forEach(one => drawOverlaps(g, one));
  if (laneHeight() >= 9) {
    segments.forEach(one => drawRepeating(g, one.bands));
    drawWaits(g, segments.flatMap(one => one.segment.taps).flatMap(tap => tap.station || []));
  }
  const thick = Math.max(2, Math.min(1.15 * place.em, 0.6 * laneHeight()));
  segments.forEach(one => drawBars(g, one.bands, thick));
}

// ---- The cables at the cursor: where on each of them signals stand

/** The stretches of places, from a band's tap both ways, in which it stands in a half bit. */
function standsAt(band, t) {
  const near = Math.max(0, t - band.end), far = t - band.start, { low, span } = band.tap.segment, own = band.tap.place;
  if (far < 0) return [];
  const both = near === 0 ? [[own - far, own + far]] : [[own - far, own - near], [own + near, own + far]];
  return both.map(([a, b]) => [Math.max(a, low), Math.min(b, low + span)]).filter(([a, b]) => a <= b);
}

function drawCables(g, wide, high) {
  g.fillStyle = theme.back;
  g.fillRect(0, 0, wide, high);
  const row = 3.4 * place.em, room = Math.max(1, Math.floor((high - 0.4 * place.em) / row + 0.01));
  const many = net.segments.length, first = Math.min(drawCables.first || 0, Math.max(0, many - room));
  const shown = net.segments.slice(first, first + room);
  const scale = (wide - place.left - 2 * place.em) / Math.max(1, ...net.segments.map(segment => segment.span));
  shown.forEach((segment, i) => drawCable(g, segment, Math.floor(look.at), i * row + 1.3 * place.em, scale));
  const more = shown.length < many ? ` (${first + 1} to ${first + shown.length} of ${many}; the wheel has more)` : "";
  element("cables-title").textContent = `The cables at the cursor${more}`;
}

function drawCable(g, segment, t, y, scale) {
  const xOfPlace = at => place.left + (at - segment.low) * scale, thick = 0.9 * place.em;
  write(g, shorten(g, `cable ${segment.name}`, place.left - 12), 6, y, { bold: true, size: 0.85 });
  line(g, [[xOfPlace(segment.low), y], [xOfPlace(segment.low + segment.span), y]], theme.dim, 2);
  const bands = bandsNear(segment, t, t + 1), stretches = bands.map(band => standsAt(band, t));
  bands.forEach((band, i) => stretches[i].forEach(([a, b]) => {
    g.globalAlpha = isLit(sourceOf(band).sending) ? 0.6 : 0.15;
    g.fillStyle = colourOf(sourceOf(band));
    g.fillRect(xOfPlace(a) - 1, y - thick / 2, xOfPlace(b) - xOfPlace(a) + 2, thick);
    g.globalAlpha = 1;
    drawFront(g, band, t, xOfPlace, y);
  }));
  g.globalAlpha = 1;
  g.fillStyle = theme.hatch.pattern;
  stretches.forEach((some, i) => stretches.slice(i + 1, i + 60).flat().forEach(([c, d]) => some.forEach(([a, b]) => {
    const [from, to] = [Math.max(a, c), Math.min(b, d)];
    if (from < to) g.fillRect(xOfPlace(from) - 1, y - thick / 2, xOfPlace(to) - xOfPlace(from) + 2, thick);
  })));
  drawTaps(g, segment, y, thick, xOfPlace);
}

/** Arrows at the fronts of a band that are on their way along the cable. */
function drawFront(g, band, t, xOfPlace, y) {
  const { low, span } = band.tap.segment, r = 0.45 * place.em;
  for (const way of [-1, 1]) {
    const at = band.tap.place + way * (t - band.start);
    if (at <= low || at >= low + span) continue;
    path(g, [[xOfPlace(at), y - 1.4 * r], [xOfPlace(at) + way * 1.6 * r, y], [xOfPlace(at), y + 1.4 * r]]);
    g.fillStyle = theme.fore;
    g.fill();
  }
}

function drawTaps(g, segment, y, thick, xOfPlace) {
  let right = -Infinity;
  for (const tap of segment.taps) {
    const x = xOfPlace(tap.place), colour = tap.station ? tap.station.colour : theme.repeater;
    if (x < right) continue;
    setFont(g, 0.85);
    const wide = g.measureText(tap.name).width;
    if (x - wide / 2 < right) continue;
    line(g, [[x, y - 0.65 * place.em], [x, y + 0.75 * place.em]], theme.fore, 1.5);
    g.fillStyle = colour;
    g.fillRect(x - wide / 2, y + 1.75 * place.em, wide, 3);
    write(g, tap.name, x, y + 1.25 * place.em, { size: 0.85, align: "center" });
    right = x + wide / 2 + 0.4 * place.em;
  }
}
</script>
<script>
"use strict";
// A pen with those calls of a canvas's context that the drawing needs; it writes an SVG.

const PATTERNS = { hatch: [8, "M-2 10L10 -2M-2 2L2 -2M6 10L10 6"], stripes: [5, "M2.5 0V5"] };

class SvgPen {
  constructor(wide, high) {
    Object.assign(this, { wide, high, parts: [], states: [], clips: 0, open: 0, way: "", globalAlpha: 1, dash: [] });
    this.measure = document.createElement("canvas").getContext("2d");
  }

  // Ways

  beginPath() { this.way = ""; }
  moveTo(x, y) { this.way += `M${x.toFixed(1)} ${y.toFixed(1)}`; }
  lineTo(x, y) { this.way += `L${x.toFixed(1)} ${y.toFixed(1)}`; }
  closePath() { this.way += "z"; }
  rect(...box) {
    const [x, y, wide, high] = box.map(length => length.toFixed(1));
    this.way += `M${x} ${y}h${wide}v${high}h${-wide}z`;
  }

  arc(x, y, r) { this.way += `M${x - r} ${y}a${r} ${r} 0 1 0 ${2 * r} 0a${r} ${r} 0 1 0 ${-2 * r} 0z`; }

  // What is drawn

  filling() {
    const name = Object.keys(PATTERNS).find(one => theme[one].pattern === this.fillStyle);
    return `fill="${name ? `url(#${name})` : this.fillStyle}" opacity="${this.globalAlpha}"`;
  }

  stroking() {
    return `fill="none" stroke="${this.strokeStyle}" stroke-width="${this.lineWidth}" opacity="${this.globalAlpha}"` +
      (this.dash.length ? ` stroke-dasharray="${this.dash.join(" ")}"` : "");
  }

  setLineDash(dash) { this.dash = dash; }
  fill() { this.parts.push(`<path d="${this.way}" ${this.filling()}/>`); }
  stroke() { this.parts.push(`<path d="${this.way}" ${this.stroking()}/>`); }

  fillRect(...box) {
    this.beginPath();
    this.rect(...box);
    this.fill();
  }

  strokeRect(...box) {
    this.beginPath();
    this.rect(...box);
    this.stroke();
  }

  measureText(text) {
    this.measure.font = this.font;
    return this.measure.measureText(text);
  }

  addText(text, x, y, paint) {
    const anchor = { left: "start", center: "middle", right: "end" }[this.textAlign];
    const [, bold, size] = /(bold )?([\d.]+)px/.exec(this.font), weight = bold ? ` font-weight="bold"` : "";
    this.parts.push(`<text x="${x.toFixed(1)}" y="${y.toFixed(1)}" dy="0.35em" text-anchor="${anchor}" ` +
      `font-size="${size}"${weight} ${paint}>${text}</text>`);
  }

  fillText(text, x, y) { this.addText(text, x, y, this.filling()); }
  strokeText(text, x, y) { this.addText(text, x, y, this.stroking()); }

  drawImage(image, left, top, imageWide, imageHigh, x, y, wide, high) {
    const part = document.createElement("canvas");
    [part.width, part.height] = [imageWide, imageHigh];
    part.getContext("2d").drawImage(image, left, top, imageWide, imageHigh, 0, 0, imageWide, imageHigh);
    this.parts.push(`<image href="${part.toDataURL()}" x="${x}" y="${y}" width="${wide}" height="${high}" ` +
      `preserveAspectRatio="none" style="image-rendering:pixelated"/>`);
  }

  // Clips

  save() { this.states.push([this.open, this.globalAlpha]); }

  clip() {
    this.clips++;
    const name = `clip${this.clips}`;
    this.parts.push(`<clipPath id="${name}"><path d="${this.way}"/></clipPath><g clip-path="url(#${name})">`);
    this.open++;
  }

  restore() {
    const [open, alpha] = this.states.pop();
    for (; this.open > open; this.open--) this.parts.push("</g>");
    this.globalAlpha = alpha;
  }

  /** The whole SVG. */
  written() {
    const patterns = Object.entries(PATTERNS).map(([name, [size, way]]) =>
      `<pattern id="${name}" width="${size}" height="${size}" patternUnits="userSpaceOnUse">` +
      `<path d="${way}" stroke="${theme.fore}" stroke-width="1.2"/></pattern>`);
    return `<svg xmlns="http://www.w3.org/2000/svg" width="${this.wide}" height="${this.high}" ` +
      `viewBox="0 0 ${this.wide} ${this.high}" font-family="DejaVu Sans, Segoe UI, sans-serif">\n` +
      `<defs>${patterns.join("")}</defs>\n${this.parts.join("\n")}\n</svg>\n`;
  }
}
</script>
<script>
"use strict";
// What stands beside the plot, the keys, buttons and pointers, what is saved, and the questions that a test may ask.

// ---- What stands beside the plot

function make(name, properties, ...children) {
  const made = Object.assign(document.createElement(name), properties);
  made.append(...children);
  return made;
}

/** Puts rows of cells into a table's body, where they aren't there yet. A cell is a text or a node. */
function fill(body, key, rows) {
  if (body.dataset.key === key) return;
  body.dataset.key = key;
  body.replaceChildren(...rows().map(cells => make("tr", {}, ...cells.map((cell, i) => {
    const made = make(i ? "td" : "th", i ? {} : { scope: "row" }, ...[cell].flat());
    if (/^[\d,]+$/.test(cell)) made.className = "number";
    return made;
  }))));
}

function nameCell(name, colour) {
  const swatch = make("span", { className: "swatch" });
  swatch.style.background = colour;
  return [swatch, name];
}

/** The stations that are told of: all, or where they are many those that do something, as many as there is room for. */
function stationsTold(t) {
  if (net.stations.length <= MOST_ROWS_TOLD) return net.stations;
  const busy = net.stations.filter(station => sendingAt(station, t));
  const others = net.stations.filter(station => !busy.includes(station)).slice(0, MOST_ROWS_TOLD);
  return [...busy, ...others].slice(0, MOST_ROWS_TOLD);
}

function showStates(t) {
  const told = stationsTold(t), states = told.map(station => stateAt(station, t).words);
  const rest = net.stations.length - told.length;
  fill(element("states").tBodies[0], JSON.stringify([states, told.map(one => one.name)]), () => [
    ...told.map((station, i) => [nameCell(station.name, station.colour), states[i]]),
    ...(rest ? [["\u2026", `and ${group(rest)} more stations`]] : []),
  ]);
}

function shareBar(station, t) {
  const shares = sharesAt(station, t), whole = Math.max(1, t - net.from), bar = make("div", { className: "share" });
  const [sent, lost] = [shares.sent, shares.lost].map(part => (100 * part) / whole);
  const parts = [make("i", {}), make("i", { className: "lost" })];
  parts[0].style.cssText = `width: ${sent}%; background: ${station.colour}`;
  parts[1].style.cssText = `left: ${sent}%; width: ${lost}%`;
  bar.append(...parts);
  bar.title = `${sent.toFixed(1)} % in frames that were sent, ${lost.toFixed(1)} % in others`;
  return [bar, `${(sent + lost).toFixed(1)} %`];
}

function showCounters(t) {
  const counted = countersAt(t);
  const told = stationsTold(t), names = JSON.stringify(told.map(one => one.name));
  const shares = () => told.map(one => [nameCell(one.name, one.colour), ...shareBar(one, t)]);
  fill(element("shares").tBodies[0], t + names, shares);
  const none = newCounters(), row = (words, cell, counters) => [cell, ...words.map(word => group(counters[word]))];
  fill(element("counters").tBodies[0], counted.next + names, () => [
    ...told.map(one => row(TOLD_COUNTS, nameCell(one.name, one.colour), counted.by.get(one) || none)),
    row(TOLD_COUNTS, "all", counted.all),
  ]);
  fill(element("repeaters").tBodies[0], String(counted.next), () => net.repeaters.slice(0, MOST_ROWS_TOLD).map(one =>
    row(REPEATER_COUNTS, nameCell(one.name, theme.repeater), counted.by.get(one) || none)));
}

const TOLD_COUNTS = STATION_COUNTS.filter(word => word !== "cut");

/** The heads of the tables of counters, once. */
function showHeads() {
  for (const [id, words] of [["counters", TOLD_COUNTS], ["repeaters", net.repeaters.length ? REPEATER_COUNTS : []]]) {
    const heads = ["", ...words].map(word => make("th", { scope: "col", className: "number" }, word.replace("_", " ")));
    if (words.length) element(id).tHead.append(make("tr", {}, ...heads));
  }
}

const inWindow = t => Math.min(Math.max(t, net.from), net.to);
const isAtCursor = row => inWindow(row.at) === look.at;

/** The row that was gone to, where the cursor is still there, or else the first one from the cursor on. */
function rowAtCursor() {
  if (look.row && isAtCursor(look.row)) return look.row;
  return net.rows[Math.min(countBelow(net.rows, look.at, row => row.t), net.rows.length - 1)];
}

function showLines() {
  const row = rowAtCursor(), list = element("lines");
  if (!row) return;
  const first = Math.max(0, Math.min(row.index - (LINES_TOLD >> 1), net.rows.length - LINES_TOLD));
  const key = `${first} ${row.index} ${isAtCursor(row)}`;
  if (list.dataset.key === key) return;
  list.dataset.key = key;
  list.replaceChildren(...net.rows.slice(first, first + LINES_TOLD).map(one => {
    const button = make("button", { type: "button", title: sentence(one), onclick: () => goTo(one) }, one.line);
    if (one === row && isAtCursor(row)) button.setAttribute("aria-current", "true");
    return make("li", {}, button);
  }));
}

const RECEPTIONS = new Set(["received", "dropped"]);

/** Of a frame its attempts, and the rows of what others made of them. */
function frameFacts({ station, frame }) {
  const key = `${station} ${frame}`;
  if (frameFacts.kept && frameFacts.kept.key === key) return frameFacts.kept;
  const device = net.stations.find(one => one.name === station);
  const attempts = device ? device.sendings.filter(one => one.frame === frame) : [];
  const bands = net.bands.filter(band => attempts.includes(sourceOf(band).sending));
  const from = Math.min(...bands.map(band => band.start));
  const to = Math.max(...bands.map(band => band.end + band.tap.segment.span));
  const [first, last] = [from, to + 1].map(t => countBelow(net.rows, t, row => row.t));
  const isOfIt = row => bandsOfRow(row).some(band => attempts.includes(sourceOf(band).sending));
  const heard = net.rows.slice(first, last).filter(row => RECEPTIONS.has(row.what) && isOfIt(row));
  return (frameFacts.kept = { key, attempts, heard, rows: [...attempts, ...heard] });
}

function showFrame() {
  const box = element("frame");
  box.hidden = !look.frame;
  if (!look.frame) return;
  const { attempts, heard } = frameFacts(look.frame);
  const told = attempts.map(one => `attempt ${one.attempt}, ${toldTime(one.start)} to ${toldTime(one.end)}: ` +
    (one.what === "sent" ? "sent" : sentence(one)));
  const others = heard.slice(0, 12).map(row => `${toldTime(row.t)}: ${sentence(row)}`);
  if (heard.length > 12) others.push(`and ${group(heard.length - 12)} more`);
  box.replaceChildren(make("h3", {}, `Frame ${look.frame.frame} of ${look.frame.station}`),
    make("ul", {}, ...[...told, ...others].map(text => make("li", {}, text))));
}

function showFacts() {
  const t = Math.floor(look.at);
  element("now").textContent = toldTime(t);
  showStates(t);
  showCounters(t);
  showLines();
  showFrame();
}

function showButtons() {
  for (const button of document.querySelectorAll("[data-go]")) {
    const [way, kind] = button.dataset.go.split(" ");
    button.disabled = !(way === "next" ? next : previous)(kind, look.at);
  }
  element("unit").textContent = UNITS[look.unit].name;
  document.querySelector("[data-do=theme]").textContent = look.dark ? "light" : "dark";
  element("play").textContent = playing ? "stop" : "play";
  element("speed").textContent = `${group(SPEEDS[look.speed])} half bits/s`;
}

const SAMPLES = [
  { says: "jam", fill: "stripes" }, { says: "two signals on top of each other", fill: "hatch" },
  { says: "by a repeater", dash: [4, 3], width: 1 }, { says: "waits: backoff, then its turn", dash: [2, 4], width: 3 },
];

function drawSample(g, { fill, dash, width }, x, y) {
  const [left, top, wide, high] = [x - 0.7 * place.em, y - 0.5 * place.em, 1.4 * place.em, place.em];
  g.fillStyle = COLOURS[4];
  if (width !== 3) g.fillRect(left, top, wide, high);
  if (fill) {
    g.fillStyle = theme[fill].pattern;
    g.fillRect(left, top, wide, high);
  }
  g.setLineDash(dash || []);
  if (width === 3) line(g, [[left, y], [left + wide, y]], COLOURS[0], width);
  else if (dash) {
    g.strokeStyle = theme.fore;
    g.lineWidth = width;
    g.strokeRect(left, top, wide, high);
  }
  g.setLineDash([]);
}

/** The legend, in as many rows as it needs: their height. */
function drawLegend(g, wide) {
  g.fillStyle = theme.back;
  g.fillRect(0, 0, wide, legend.clientHeight);
  let x = 1.2 * place.em, y = place.em;
  for (const [kind, mark] of [...SAMPLES.map(sample => ["", sample]), ...Object.entries(MARKS)]) {
    const left = (mark.word ? 2.8 : 1.1) * place.em;
    setFont(g, 0.85);
    const width = left + g.measureText(mark.says).width + 1.8 * place.em;
    if (x + width > wide) [x, y] = [1.2 * place.em, y + 1.7 * place.em];
    if (!kind) drawSample(g, mark, x, y);
    else drawMark(g, kind, x, y + (mark.isAbove ? 0.85 * place.em : 0), 0.42 * place.em);
    write(g, mark.says, x + left, y, { colour: theme.dim, size: 0.85 });
    x += width;
  }
  return y + place.em;
}

// ---- Pictures: each change draws once, when the browser next shows something

let isDue = false, isSized = true;

function changed(what = "") {
  if (what === "size") isSized = true;
  if (isDue) return;
  isDue = true;
  requestAnimationFrame(show);
}

/** A canvas's context, with as many dots as the screen has there. */
function contextOf(canvas) {
  const scale = devicePixelRatio || 1;
  const [wide, high] = [canvas.clientWidth, canvas.clientHeight].map(length => Math.round(length * scale));
  if (canvas.width !== wide) canvas.width = wide;
  if (canvas.height !== high) canvas.height = high;
  const g = canvas.getContext("2d");
  g.setTransform(scale, 0, 0, scale, 0, 0);
  return g;
}

/** Fits the lanes to another size of the plot or of the text, where they weren't spread by hand. */
function refit() {
  setPlace(plot.clientWidth, plot.clientHeight);
  if (!look.isSpread) fitLanes();
  changed("size");
}

function show() {
  isDue = false;
  drawPlot(contextOf(plot), plot.clientWidth, plot.clientHeight);
  if (isSized) {
    isSized = false;
    const rows = Math.min(net.segments.length, 4);
    cables.style.height = `${(3.4 * rows + 0.4) * place.em}px`;
    legend.style.height = `${drawLegend(legend.getContext("2d"), legend.clientWidth)}px`;
    drawLegend(contextOf(legend), legend.clientWidth);
  }
  const { at, row, frame, dark, text, unit, speed } = look;
  const others = [frame, dark, text, unit, speed, playing > 0, drawCables.first, cables.clientWidth];
  const told = JSON.stringify([Math.floor(at), row && row.index, others]);
  if (show.told !== told) {
    drawCables(contextOf(cables), cables.clientWidth, cables.clientHeight);
    showFacts();
    showButtons();
  }
  show.told = told;
  keepView();
}

// ---- The cursor, playing, and going from row to row

const SPEEDS = [1, 2, 5, 10, 20, 50, 100, 200, 500, 1000, 2000, 5000, 10000, 20000, 50000, 100000];
let playing = 0;

function moveTo(t) {
  look.at = inWindow(t);
  const wide = look.to - look.from;
  if (look.at < look.from || look.at > look.to) {
    look.from = look.at - wide * (playing ? 0.1 : 0.4);
    look.to = look.from + wide;
    pan(0);
  }
  changed();
}

function say(text) {
  element("said").textContent = text;
}

function goTo(row) {
  if (!row) return;
  look.row = row;
  moveTo(row.at);
  const all = rowsOfKind("row"), [first, last] = [row.at, row.at + 1].map(t => countBelow(all, t, one => one.at));
  const others = all.slice(first, last).filter(one => one !== row && isCollision(one) === isCollision(row));
  say(`${toldTime(row.at)}: ${[row, ...others.slice(0, 3)].map(sentence).join("; ")}.`);
}

function goByLine(step) {
  const row = rowAtCursor();
  if (!row) return;
  const at = row.index + (isAtCursor(row) ? step : Math.min(step, 0));
  goTo(net.rows[Math.min(Math.max(at, 0), net.rows.length - 1)]);
}

function play(isOn) {
  playing = isOn ? performance.now() : 0;
  look.at = isOn && look.at >= net.to ? net.from : Math.floor(look.at);
  if (isOn) requestAnimationFrame(playOn);
  changed();
}

function playOn(now) {
  if (!playing) return;
  moveTo(look.at + (Math.max(0, now - playing) / 1000) * SPEEDS[look.speed]);
  playing = now;
  if (look.at < net.to) requestAnimationFrame(playOn);
  else play(false);
}

function setFrame(sending) {
  look.frame = sending ? { station: sending.device.name, frame: sending.frame } : null;
  if (sending) {
    const many = frameFacts(look.frame).attempts.length;
    say(`Frame ${sending.frame} of ${sending.device.name}: ${many} ${many === 1 ? "attempt" : "attempts"}.`);
  }
  changed();
}

// ---- The view in the address

function keepView() {
  clearTimeout(keepView.timer);
  keepView.timer = setTimeout(() => {
    const told = new URLSearchParams({
      view: [look.from, look.to].map(t => +t.toFixed(2)), at: Math.floor(look.at),
      unit: look.unit, text: look.text, dark: +look.dark,
    });
    if (look.isSpread) told.set("lanes", [look.spread.toFixed(3), Math.round(look.down)]);
    if (look.frame) told.set("frame", [look.frame.station, look.frame.frame].join(","));
    history.replaceState(null, "", "#" + decodeURIComponent(told.toString()));
  }, 250);
}

function readView() {
  const told = new URLSearchParams(location.hash.slice(1));
  const numbers = name => (told.get(name) || "").split(",").map(Number);
  const isGood = list => list.length === 2 && list.every(Number.isFinite);
  look.unit = Math.min(2, Math.max(0, +told.get("unit") || 0));
  look.text = Math.min(3, Math.max(0, +told.get("text") || 0));
  look.dark = told.has("dark") ? told.get("dark") === "1" : matchMedia("(prefers-color-scheme: dark)").matches;
  setTheme();
  setPlace(plot.clientWidth, plot.clientHeight);
  fit();
  if (isGood(numbers("view")) && numbers("view")[0] < numbers("view")[1]) {
    [look.from, look.to] = numbers("view");
    zoom(1, look.from);
  }
  if (isGood(numbers("lanes"))) {
    [look.spread, look.down] = numbers("lanes");
    spreadLanes(1, place.top);
  }
  const [station, frame] = (told.get("frame") || "").split(",");
  look.frame = net.stations.some(one => one.name === station) ? { station, frame: +frame } : null;
  look.at = inWindow(Math.floor(+told.get("at")) || net.from);
  changed("size");
}

// ---- Pointers

const pointers = new Map();
let moved = 0;

function bandsAt(x, y) {
  const segment = net.segments.find(one => yOf(one.top) <= y && y <= yOf(one.bottom)), t = timeOf(x);
  if (!segment || x < place.left) return [];
  const at = placeOf(segment, y);
  return bandsNear(segment, Math.floor(t), Math.ceil(t) + 1).filter(band => {
    const later = Math.abs(band.tap.place - at);
    return band.start + later <= t && t < band.end + later;
  });
}

/** The rows whose marks are near a dot, or where marks are too many, those in its cell. */
function rowsAt(x, y) {
  if (drawn.rows) {
    const near = drawn.marks.filter(mark => Math.hypot(mark.x - x, mark.y - y) < 0.8 * place.em);
    return [...new Set(near.map(mark => mark.row))];
  }
  const [first, last] = [x - 2, x + 2].map(one => countBelow(net.rows, timeOf(one), row => row.t));
  return net.rows.slice(first, last).filter(row => Math.abs(yOf(row.tap.y) - y) <= 4);
}

function hint(event) {
  const box = element("hint"), [x, y] = [event.offsetX, event.offsetY];
  const rows = rowsAt(x, y), bands = rows.length || drawn.isDense ? [] : bandsAt(x, y).slice(0, 4);
  const more = rows.length > 4 ? `and ${group(rows.length - 4)} more rows` : "";
  box.hidden = !rows.length && !bands.length;
  if (box.hidden) return;
  box.replaceChildren(...rows.slice(0, 4).map(row => make("div", {}, sentence(row), make("small", {}, row.line))),
    ...bands.map(band => make("div", {}, bandWords(band),
      make("small", {}, `${toldTime(band.start)} to ${toldTime(band.end)}`))), more);
  const [left, top] = [event.clientX + 14, event.clientY + 14];
  box.style.left = `${Math.min(left, innerWidth - box.offsetWidth - 8)}px`;
  box.style.top = `${top + box.offsetHeight > innerHeight ? event.clientY - box.offsetHeight - 10 : top}px`;
}

function click(event) {
  const [x, y] = [event.offsetX, event.offsetY], [row] = rowsAt(x, y), bands = bandsAt(x, y);
  const sendings = [row && SENDINGS.has(row.what) ? row : null, ...bands.map(band => sourceOf(band).sending)];
  if (row) goTo(row);
  else moveTo(Math.round(timeOf(x)));
  setFrame(sendings.find(one => one) || null);
}

function movePointer(event) {
  if (!pointers.has(event.pointerId)) return hint(event);
  const before = [...pointers.values()], [x, y] = [event.offsetX, event.offsetY], last = pointers.get(event.pointerId);
  pointers.set(event.pointerId, [x, y]);
  moved += Math.abs(x - last[0]) + Math.abs(y - last[1]);
  if (pointers.size === 2) {
    const after = [...pointers.values()], apart = ([a, b]) => Math.max(10, Math.hypot(a[0] - b[0], a[1] - b[1]));
    zoom(apart(before) / apart(after), timeOf((after[0][0] + after[1][0]) / 2));
  } else if (moved > 4) {
    element("hint").hidden = true;
    pan(timeOf(last[0]) - timeOf(x));
    scrollDown(last[1] - y);
  }
}

function dropPointer(event) {
  if (pointers.delete(event.pointerId) && pointers.size === 0 && moved <= 4 && event.type === "pointerup") click(event);
}

plot.addEventListener("pointerdown", event => {
  if (event.button) return;
  plot.setPointerCapture(event.pointerId);
  if (!pointers.size) moved = 0;
  pointers.set(event.pointerId, [event.offsetX, event.offsetY]);
});
plot.addEventListener("pointermove", movePointer);
plot.addEventListener("pointerup", dropPointer);
plot.addEventListener("pointercancel", dropPointer);
plot.addEventListener("pointerleave", () => { element("hint").hidden = true; });
plot.addEventListener("wheel", event => {
  event.preventDefault();
  const step = (event.deltaY || event.deltaX) * (event.deltaMode === 1 ? 30 : 1);
  if (event.altKey) spreadLanes(Math.exp(-step / 500), event.offsetY);
  else if (event.shiftKey) scrollDown(step);
  else if (Math.abs(event.deltaX) > Math.abs(event.deltaY)) pan(timeOf(event.deltaX) - timeOf(0));
  else zoom(Math.exp(step / 400), timeOf(event.offsetX));
}, { passive: false });
cables.addEventListener("wheel", event => {
  if (net.segments.length <= 4) return;
  event.preventDefault();
  drawCables.first = Math.min(Math.max((drawCables.first || 0) + Math.sign(event.deltaY), 0), net.segments.length - 1);
  changed();
}, { passive: false });

// ---- Saving: the view as PNG or SVG

function svgText() {
  const pen = new SvgPen(plot.clientWidth, plot.clientHeight);
  drawPlot(pen, pen.wide, pen.high);
  return pen.written();
}

function save(blob, name) {
  const link = make("a", { href: URL.createObjectURL(blob), download: name });
  link.click();
  setTimeout(() => URL.revokeObjectURL(link.href), 1000);
  say(`Saved as ${name}.`);
}

// ---- Buttons and keys

const wide = () => look.to - look.from;
const ACTIONS = {
  in: () => zoom(0.5, cursorInView()), out: () => zoom(2, cursorInView()),
  fit: () => { fit(); changed(); },
  back: () => moveTo(Math.ceil(look.at) - 1), on: () => moveTo(Math.floor(look.at) + 1),
  far_back: () => moveTo(Math.round(look.at - wide() / 20)), far_on: () => moveTo(Math.round(look.at + wide() / 20)),
  view_back: () => pan(-wide() / 2), view_on: () => pan(wide() / 2),
  begin: () => moveTo(net.from), end: () => moveTo(net.to), line_back: () => goByLine(-1), line_on: () => goByLine(1),
  play: () => play(!playing),
  slower: () => { look.speed = Math.max(0, look.speed - 1); changed(); },
  faster: () => { look.speed = Math.min(SPEEDS.length - 1, look.speed + 1); changed(); },
  unit: () => { look.unit = (look.unit + 1) % UNITS.length; say(`Times in ${UNITS[look.unit].name}.`); changed(); },
  text: () => { look.text = (look.text + 1) % 4; setTheme(); refit(); },
  theme: () => { look.dark = !look.dark; setTheme(); changed("size"); },
  frame: () => { const row = rowAtCursor(); setFrame(row && SENDINGS.has(row.what) ? row : null); },
  none: () => setFrame(null),
  svg: () => save(new Blob([svgText()], { type: "image/svg+xml" }), "netsim.svg"),
  png: () => plot.toBlob(blob => save(blob, "netsim.png")),
};
const KEYS = {
  "+": "in", "=": "in", "-": "out", 0: "fit", PageUp: "view_back", PageDown: "view_on", Home: "begin", End: "end",
  ArrowLeft: "back", ArrowRight: "on", "Shift ArrowLeft": "far_back", "Shift ArrowRight": "far_on",
  ArrowUp: "line_back", ArrowDown: "line_on", " ": "play",
  "[": "slower", "]": "faster", u: "unit", t: "text", b: "theme", Enter: "frame", Escape: "none", s: "svg", S: "png",
};
const GO_KEYS = { c: "collision", d: "drop", l: "late", g: "given_up", p: "closed" };

function cursorInView() {
  return look.at >= look.from && look.at <= look.to ? look.at : (look.from + look.to) / 2;
}

function go(way, kind) {
  const row = (way === "next" ? next : previous)(kind, look.at);
  if (row) goTo(row);
  else say(`No ${way} ${kind.replace("_", " ").replace("closed", "port closed")}.`);
}

addEventListener("keydown", event => {
  if (event.ctrlKey || event.metaKey || event.altKey) return;
  if (event.target.closest("button, summary") && (event.key === " " || event.key === "Enter")) return;
  if (event.target.closest("#facts") && /^(Arrow|Page|Home|End)/.test(event.key)) return;
  const kind = GO_KEYS[event.key.toLowerCase()];
  const action = KEYS[event.shiftKey && event.key.length > 1 ? `Shift ${event.key}` : event.key];
  if (!kind && !action) return;
  event.preventDefault();
  if (kind) go(event.shiftKey ? "previous" : "next", kind);
  else ACTIONS[action]();
});
for (const button of document.querySelectorAll("[data-go]")) button.onclick = () => go(...button.dataset.go.split(" "));
for (const button of document.querySelectorAll("button[title]")) {
  button.setAttribute("aria-label", button.title.replace(/ \(.*/, ""));
}
for (const button of document.querySelectorAll("[data-do]")) button.onclick = () => ACTIONS[button.dataset.do]();
element("play").onclick = () => ACTIONS.play();
addEventListener("resize", refit);
addEventListener("hashchange", readView);

// ---- What a test may ask

window.netsimPage = {
  errors, next, previous, sentence, goTo, svgText,
  bands: () => net.bands.map(({ line, tap, start, end, kind }) => ({ line, tap: tap.name, start, end, kind })),
  rows: () => net.rows.map(row => row.line), row: number => net.rows[number],
  outlines: () => net.bands.map(band => outlineOf(band, bendsOf(band.tap.segment))),
  heights: () => Object.fromEntries(net.segments.flatMap(segment => segment.taps).map(tap => [tap.name, yOf(tap.y)])),
  doMeet: (a, b) => doMeet(net.bands[a], net.bands[b]),
  countersAt: t => {
    const { all, by } = countersAt(t);
    return { all, by: Object.fromEntries([...by].map(([device, counters]) => [device.name, counters])) };
  },
  stateAt: (name, t) => stateAt(net.stations.find(station => station.name === name), t).words,
  look: () => ({ ...look, row: undefined }),
  drawn: () => ({ ...drawn, marks: drawn.marks.map(({ x, y, row }) => ({ x, y, line: row.line })) }),
  timeOf, show, pan, zoomTo: (from, to) => { Object.assign(look, { from, to }); pan(0); },
};

element("window").textContent = `half bits ${group(net.from)} to ${group(net.to)} of ${group(net.halfBits)}; ` +
  `${group(net.rows.length)} ${net.rows.length === 1 ? "line" : "lines"} of the log`;
showHeads();
look.speed = Math.max(0, SPEEDS.findIndex(speed => speed >= (net.to - net.from) / 30));
readView();
show();
netsimPage.opened = performance.now();
</script>
</body>
</html>
"##;
