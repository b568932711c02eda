//! What stands in each page between the elements that hold a run: how things look, what they are called, and the script that
//! shows moments. The definitions name these texts, and spell those elements, and the policy.

ghost use Rattle.std.specs.Prelude.{◌≡◌};
ghost use Rattle.xk_show_page.specs.Page.{body_begins, first_lines, page_ends, page_policy, picture_begins};
ghost use Rattle.xk_show_page.specs.Page.{source_begins, source_ends, style_ends, title_ends};

/// The page's first lines, up to which styles and scripts its policy lets count.
#[tactic(auto, unfolding(crate::specs::Page::first_lines))]
pub fn first_lines() -> &'static str
    ensures { result.now ≡ first_lines }
{
    "\
<!DOCTYPE html>\n\
<html lang=\"en\">\n\
<head>\n\
<meta charset=\"utf-8\">\n\
<meta name=\"viewport\" content=\"width=device-width, initial-scale=1\">\n\
<meta http-equiv=\"Content-Security-Policy\" content=\"default-src 'none'; "
}

/// The sums of its script and of both styles, and the beginning of its title: whoever changes one of these is told the new sum by
/// tests/program/html_pages.py.
#[tactic(auto, unfolding(crate::specs::Page::page_policy))]
pub(crate) fn policy() -> &'static str
    ensures { result.now ≡ page_policy }
{
    "\
style-src 'sha256-QW0jIMtXTkkfaYlBND2dXOB+8VgibctLm50Yf0JGq0A=' \
'sha256-1Mhn6nywKkLaXR5W9I5AIbKxhh5lqmYSXkp8j1iVKwY='; \
script-src 'sha256-uxq7+y06EA9sB4bPJa0xOnw2yHT9pTDPpFC8SiTq/08='\">\n\
<title>A run"
}

/// The end of the page's title, and the beginning of its style.
#[tactic(auto, unfolding(crate::specs::Page::title_ends))]
pub(crate) fn title_ends() -> &'static str
    ensures { result.now ≡ title_ends }
{
    ", step by step</title>\n<style>\n"
}

/// The beginning of the page's body.
#[tactic(auto, unfolding(crate::specs::Page::body_begins))]
pub(crate) fn body_begins() -> &'static str
    ensures { result.now ≡ body_begins }
{
    "<body class=\"still\">\n<header>\n<h1>A run"
}

/// The end of the page's style.
#[tactic(auto, unfolding(crate::specs::Page::style_ends))]
pub fn style_ends() -> &'static str
    ensures { result.now ≡ style_ends }
{
    "</style>\n</head>\n"
}

/// The end of the script's element, and of the page.
#[tactic(auto, unfolding(crate::specs::Page::page_ends))]
pub fn page_ends() -> &'static str
    ensures { result.now ≡ page_ends }
{
    "</script>\n</body>\n</html>\n"
}

/// The beginning of the source text's element.
#[tactic(auto, unfolding(crate::specs::Page::source_begins))]
pub(crate) fn source_begins() -> &'static str
    ensures { result.now ≡ source_begins }
{
    "<pre id=\"source\">\n"
}

/// The end of the source text's element.
#[tactic(auto, unfolding(crate::specs::Page::source_ends))]
pub(crate) fn source_ends() -> &'static str
    ensures { result.now ≡ source_ends }
{
    "</pre>\n"
}

/// The beginning of the picture's element.
#[tactic(auto, unfolding(crate::specs::Page::picture_begins))]
pub(crate) fn picture_begins() -> &'static str
    ensures { result.now ≡ picture_begins }
{
    "<div id=\"picture\" tabindex=\"0\" role=\"group\" aria-label=\"Lanes of the run\">\n"
}

/// Colours and letters, in light and in dark.
pub(crate) const COLOURS: &str = r#"/* In light, and in dark. */
:root{
  color-scheme:light dark;
  --page:#ffffff; --panel:#f6f8fa; --ink:#1f2328; --faint:#59636e; --edge:#d0d7de;
  --can:#1a7f37; --waits:#b3261e; --seen:#0a58ca;
  --can-line:#e3f5e6; --waits-line:#fde9e7;
}
@media (prefers-color-scheme:dark){
  :root{
    --page:#0d1117; --panel:#161b22; --ink:#e6edf3; --faint:#9198a1; --edge:#30363d;
    --can:#56d364; --waits:#ff8f87; --seen:#79b8ff;
    --can-line:#12301b; --waits-line:#3a1a18;
  }
}
*{box-sizing:border-box}
body{margin:0;background:var(--page);color:var(--ink);font:15px/1.45 system-ui,sans-serif}
h1{margin:0;font-size:1.15rem}
h2{margin:0 0 .35rem;font-size:.95rem}
pre,ul,#event,#printed{font:13px/1.5 ui-monospace,Menlo,Consolas,monospace}
.help{margin:.25rem 0 0;color:var(--faint);font-size:.85rem}
"#;

/// Where things stand: two columns, on a phone one.
pub(crate) const PLACES: &str = r#"/* Two columns; on a phone, one. */
header{position:sticky;top:0;z-index:1;padding:.6rem 1rem;background:var(--page);border-bottom:1px solid var(--edge)}
#controls{display:flex;align-items:center;gap:.5rem;margin:.4rem 0 0}
.still #controls,.still .state,.still .help{display:none}
#slider{flex:1;min-width:0;height:2rem;accent-color:var(--seen)}
button{padding:.3rem .8rem;border:1px solid var(--edge);border-radius:6px;background:var(--panel);color:inherit;font:inherit}
button:disabled{color:var(--faint);opacity:.6}
#event{display:block;min-height:1.5em;font-weight:bold}
main{display:grid;grid-template-columns:minmax(17rem,2fr) minmax(0,3fr);grid-template-rows:auto auto 1fr;gap:1rem;padding:1rem}
section{min-width:0}
.lanes{grid-column:2;grid-row:1/4}
#picture{max-height:calc(100vh - 11rem);overflow:auto;border:1px solid var(--edge);border-radius:6px}
#picture svg{display:block}
#picture .head{position:sticky;top:0;z-index:1}
#picture .head + svg{margin-top:-112px}
@media (min-width:700px){.lanes{position:sticky;top:8.5rem;align-self:start}}
@media (max-width:699px){
  header{padding:.5rem .75rem}
  h1,header .help{display:none}
  main{display:block;padding:.75rem}
  section{margin-bottom:1rem}
  #picture{max-height:70vh}
}
/* On paper all of the text and the picture, one below the other. */
@media print{
  header,.lanes{position:static}
  main{display:block}
  #controls,.help,.words,#picture .head{display:none}
  #source,#picture,#activities{max-height:none;overflow:visible;border:0}
  #source .row{width:auto;white-space:pre-wrap}
  #picture .head + svg{margin-top:0}
  #picture svg{max-width:100%;height:auto}
}
"#;

/// How the source text, the lists and the picture look.
pub(crate) const MARKS: &str = r#"/* The source text: marked lines, and who stands there. */
#source{max-height:45vh;margin:0;padding:.4rem 0;overflow:auto;background:var(--panel);border:1px solid var(--edge);border-radius:6px}
.still #source{padding:.4rem .75rem}
#source .row{width:max-content;min-width:100%;padding-right:.75rem}
#source .line{display:inline-block;width:3.2em;padding-right:.9em;text-align:right;color:var(--faint);user-select:none}
#source .row.can{background:var(--can-line)}
#source .row.waits{background:var(--waits-line)}
#source .badges{display:inline-block;min-width:var(--badges);margin-right:.5em}
#source .row.goes,#picture .goes{cursor:pointer}
.badge{display:inline-block;min-width:1.6em;margin:0 .2em;padding:0 .35em;border:1px solid var(--edge);border-radius:.8em}
.badge{background:var(--panel);font-weight:bold;text-align:center}
.badge.can{border-color:var(--can);background:var(--can);color:var(--page)}
.badge.waits{border:1px dashed var(--waits);background:var(--page);color:var(--waits)}
.badge.moved{outline:2px solid var(--seen);outline-offset:1px}
/* The lists: a bar tells who can step, who waits, and who has ended. */
ul{margin:0 0 1rem;padding:0;list-style:none}
li{padding:0 .5rem;border-left:4px solid var(--edge)}
ul:empty::after,#printed:empty::after{content:"none";color:var(--faint)}
#activities{max-height:40vh;overflow:auto}
li.can{border-color:var(--can)}
li.waits{border-left-style:dashed;border-color:var(--waits)}
li.ended{color:var(--faint)}
li.moved{font-weight:bold}
li .own{padding-left:1.5em;font-weight:normal}
#printed{margin:0;overflow-wrap:anywhere}
.words{grid-column:1;font-size:.85rem}
.words summary{cursor:pointer;color:var(--faint)}
.words dl{margin:.35rem 0 0}
.words dt{float:left;clear:left;min-width:6.5rem;font:13px/1.5 ui-monospace,Menlo,Consolas,monospace}
.words dd{margin:0 0 .15rem 6.5rem}
/* The picture: the box of the step. */
#picture .now rect{stroke:var(--seen);stroke-width:3}
"#;

/// What stands between the heading's beginning and the element of the source text.
pub(crate) const CONTROLS: &str = r#", step by step</h1>
<output id="event" for="slider"></output>
<div id="controls" role="group" aria-label="Steps">
<button type="button" id="back">Back</button>
<input id="slider" type="range" min="0" max="0" value="0" aria-label="Step of the run">
<button type="button" id="next">Next</button>
<button type="button" id="same">Its next</button>
<button type="button" id="advance">Advance</button>
</div>
<p class="help">Move the slider, press the keys left, right, home and end, or click on a box, a line or a lane's name. Key S goes to the next step of
the same activity, key A to the next advance of a clock. The address names the step.</p>
<noscript><p>Scripts are off: here are the source text and the picture of the run, but not its single steps.</p></noscript>
</header>
<main>
<section class="text">
<h2>Source text</h2>
"#;

/// What stands between the elements of the source text and of the picture.
pub(crate) const LISTS: &str =
    r#"<p class="help"><span class="badge can">0</span> can step, <span class="badge waits">1</span> waits. Activity 0 is main.</p>
</section>
<section class="state">
<h2>Activities</h2>
<ul id="activities"></ul>
<h2>Clocks</h2>
<ul id="clocks"></ul>
<h2>Shared numbers</h2>
<ul id="shared"></ul>
<h2>Printed so far</h2>
<p id="printed"></p>
</section>
<section class="words">
<details>
<summary>What the words and colours mean</summary>
<dl>
<dt>make</dt><dd>it made a clock; read, write, add: a shared number, and what it was then; read .. (step 4): that step wrote it</dd>
<dt>arrive</dt><dd>it came to an advanceAll: it has resumed all its clocks</dd>
<dt>pass</dt><dd>it went on behind the advanceAll, when all of them had advanced</dd>
<dt>resume, drop</dt><dd>it resumed one clock, or left it</dd>
<dt>finish</dt><dd>it began a finish; endfinish: all that was started in it has ended</dd>
<dt>async</dt><dd>it started the activity of this number</dd>
<dt>open</dt><dd>where it stands on a clock: not resumed in this phase</dd>
<dt>signalled</dt><dd>resumed, and the clock hasn't advanced since: here an advanceAll waits</dd>
<dt>ahead</dt><dd>resumed, and the clock has advanced: an advanceAll doesn't wait for it</dd>
<dt>blue</dt><dd>a step on clocks; green: on a shared number; yellow: a print; grey: others</dd>
<dt>red bar</dt><dd>a clock advanced; rings: who is on it; stripes: its phases, two colours in turn</dd>
</dl>
</details>
</section>
<section class="lanes">
<h2>Lanes</h2>
"#;

/// The script's first part: it reads the moments, the source text and the picture.
pub(crate) const READER: &str = r##""use strict";
const byId = id => document.getElementById(id);

// The moments. Each begins at a line "steps 5"; the line "step 5 act 0 at 8:13 print 1" before it says what was done.
// Of a step outside of the part that was asked for there is at most that line, where it printed. Behind the line of an
// activity are those of its own numbers, "act 1 in work, n = 2" and "act 1 called by main at 12:5"; a shared number is
// "total = 5", whatever it is called, or "shared 0 is 5".
const moments = [], printed = [];
let done = "";

// Which step wrote or added to each shared number last, so that a read tells it: "step 9 act 1 at 7:9 read total 2 (step 4)".
const writers = new Map();
function withWriter(line) {
  const [, step, word, name] = /^step (\d+) act \d+ at \S+ (read|write|add) (\S+) /.exec(line) || [];
  if (word === "read") return writers.has(name) ? line + " (step " + writers.get(name) + ")" : line;
  if (word) writers.set(name, step);
  return line;
}
for (const line of byId("moments").textContent.split("\n")) {
  const word = line.split(" ")[0], moment = moments[moments.length - 1];
  if (/^\S+ = -?\d+$/.test(line)) moment.shared.push(line);
  else if (/^act \d+ (in|called by) /.test(line)) moment.own[moment.act.length - 1].push(line.replace(/^act \d+ /, ""));
  else if (word === "step") {
    done = withWriter(line);
    const print = /^step \d+ act \d+ (?:at \S+|unit \d+ place \d+) print (-?\d+)$/.exec(line);
    if (print) printed.push(print[1]);
  } else if (word === "steps") {
    moments.push({steps: Number(line.split(" ")[1]), done, printed: printed.length, act: [], own: [], clock: [], shared: []});
    done = "";
  } else if (word) {
    moment[word].push(line);
    if (word === "act") moment.own.push([]);
  }
}

// An element with a class and a text.
function make(name, kind, text) {
  const made = document.createElement(name);
  made.className = kind;
  made.textContent = text;
  return made;
}

// The source text, a row for each line, with room for badges. A module has none.
const source = byId("source");
const lines = source.textContent.replace(/\n$/, "").split("\n");
const rows = lines.map((text, i) => {
  const row = make("div", "row", "");
  row.append(make("span", "line", i + 1), make("span", "badges", ""), make("span", "code", text));
  return row;
});
source.parentNode.hidden = source.textContent === "";
source.replaceChildren(...rows);

// The line where a step was taken, or where an activity stands: "act 1 at 5:9 can step".
function lineOf(told) {
  const at = / at (\d+):/.exec(told);
  return at ? Number(at[1]) : 0;
}

// Room for as many badges as ever stand at one line.
let most = 0;
for (const moment of moments) {
  const here = new Map();
  for (const line of moment.act) here.set(lineOf(line), (here.get(lineOf(line)) || 0) + 1);
  here.delete(0);
  most = Math.max(most, ...here.values());
}
source.style.setProperty("--badges", Math.min(most, 6) * 2.3 + "em");

// The boxes of the picture, by the numbers of their steps: a title is "step 5 act 0 at 8:13 print 1".
const boxes = new Map();
for (const title of document.querySelectorAll("#picture g > title"))
  boxes.set(Number(title.textContent.split(" ")[1]), title.parentNode);

// The picture's head, what its colours mean and the names of lanes, stands still as one scrolls: as a copy above it.
const picture = byId("picture").firstElementChild;
const lanes = [];
if (picture) {
  const head = picture.cloneNode(false), names = picture.querySelectorAll(".lane");
  head.setAttribute("class", "head");
  head.setAttribute("height", "112");
  head.setAttribute("viewBox", "0 0 " + picture.getAttribute("width") + " 112");
  head.setAttribute("aria-hidden", "true");
  head.removeAttribute("aria-labelledby");
  for (const part of picture.children) {
    if (!["style", "title", "desc", "defs"].includes(part.nodeName)) head.append(part.cloneNode(true));
    if (part === names[names.length - 1]) break;
  }
  lanes.push(...head.querySelectorAll(".lane"));
  picture.before(head);
}
"##;

/// The script's second part: it shows a moment.
pub(crate) const SHOWER: &str = r##"
// Scrolls a pane, and nothing else, so that something in it can be seen, below a head that is so high.
function reveal(pane, seen, high = 0) {
  const a = pane.getBoundingClientRect(), b = seen.getBoundingClientRect();
  if (b.top < a.top + high || b.bottom > a.bottom) pane.scrollTop += b.top - a.top - pane.clientHeight / 2;
  if (b.left < a.left || b.right > a.right) pane.scrollLeft += b.left - a.left - pane.clientWidth / 2;
}

// What an activity does, by its line: "act 1 at 5:9 waits for clocks, clock 0 signalled held by 0".
function doing(line) {
  return / can step/.test(line) ? "can" : / waits /.test(line) ? "waits" : "ended";
}

// Marks the lines of the source text where activities stand: as one where somebody can step, if one can. Behind it stand
// the first four of them, who took the step, and how many more there are.
function mark(acts, who) {
  const more = new Map();
  for (const row of rows) {
    row.classList.remove("can", "waits", "ended");
    row.children[1].replaceChildren();
  }
  for (const line of acts) {
    const at = /^act (\d+) at (\d+):/.exec(line), row = at && rows[at[2] - 1];
    if (!row) continue;
    const badges = row.children[1], moved = at[1] === who;
    if (doing(line) === "can") row.classList.remove("waits");
    if (!row.classList.contains("can")) row.classList.add(doing(line));
    if (badges.childElementCount < 4 || moved) badges.append(make("span", "badge " + doing(line) + (moved ? " moved" : ""), at[1]));
    else more.set(badges, (more.get(badges) || 0) + 1);
    if (moved) reveal(source, row);
  }
  for (const [badges, count] of more) badges.append(make("span", "badge", "+" + count));
}

// Shows the moment of this number.
function show(k) {
  const moment = moments[k], who = moment.done.split(" ")[3];
  const said = moment.done || "before the first step";
  byId("event").textContent = said;
  byId("slider").setAttribute("aria-valuetext", said);
  byId("back").disabled = k === 0;
  byId("next").disabled = k === moments.length - 1;
  byId("same").disabled = sameBehind(k) < 0;
  byId("advance").disabled = advanceBehind(k) < 0;
  byId("activities").replaceChildren(...moment.act.map((line, a) => {
    const told = make("li", doing(line), line);
    told.append(...moment.own[a].map(own => make("div", "own", own)));
    return told;
  }));
  byId("clocks").replaceChildren(...moment.clock.map(line => make("li", "", line)));
  byId("shared").replaceChildren(...moment.shared.map(line => make("li", "", line)));
  byId("printed").textContent = printed.slice(0, moment.printed).join(" ");
  mark(moment.act, who);
  const mover = byId("activities").children[who];
  if (mover) {
    mover.classList.add("moved");
    reveal(byId("activities"), mover);
  }
  for (const box of document.querySelectorAll("#picture .now")) box.classList.remove("now");
  const box = boxes.get(moment.steps);
  if (box) {
    box.classList.add("now");
    reveal(byId("picture"), box, 112);
  } else byId("picture").scrollTop = 0;
}
"##;

/// The script's third part: it goes to a moment as it is told.
pub(crate) const MOVER: &str = r##"
// The first moment behind this one that passes, or -1.
function behind(k, passes) {
  for (let n = k + 1; n < moments.length; n++) if (passes(n)) return n;
  return -1;
}

// The next step of the same activity; before the first step, of main.
function sameBehind(k) {
  const who = moments[k].done.split(" ")[3] || "0";
  return behind(k, n => moments[n].done.split(" ")[3] === who);
}

// The next moment in which a clock has gone on.
const phases = line => / phase (\d+)$/.exec(line)[1];
function advanceBehind(k) {
  return behind(k, n => moments[n].clock.some((line, c) => phases(line) > 0 && (!moments[n - 1].clock[c] || phases(line) !== phases(moments[n - 1].clock[c]))));
}

// Goes to a moment, or the nearest one that there is; the address follows, where the browser lets it.
const slider = byId("slider");
function shown() {
  const k = Number(slider.value);
  show(k);
  try { history.replaceState(null, "", "#" + moments[k].steps); } catch { return; }
}
function go(k) {
  if (k < 0) return;
  slider.value = k;
  shown();
}

// A click on a box goes to its step, one on a line to the next step that was taken there, and one on a lane's name to the next of its activity; behind the
// last one the first comes again.
function goOn(passes) {
  const k = behind(Number(slider.value), passes);
  go(k < 0 ? behind(-1, passes) : k);
}
function onClick(element, act) {
  element.classList.add("goes");
  element.addEventListener("click", act);
}
moments.forEach((moment, k) => {
  const box = boxes.get(moment.steps);
  if (box && moment.done) onClick(box, () => go(k));
});
rows.forEach((row, i) => {
  const taken = n => lineOf(moments[n].done) === i + 1;
  if (behind(-1, taken) >= 0) onClick(row, () => goOn(taken));
});
lanes.forEach((name, b) => onClick(name, () => goOn(n => moments[n].done.split(" ")[3] === String(b))));

// The moment that the address names by a step's number, as in "page.html#12", or the last one before it.
function named() {
  const steps = Number(location.hash.slice(1));
  return Math.max(0, moments.filter(moment => moment.steps <= steps).length - 1);
}

// The keys, wherever one is on the page; the slider has its own.
const keys = {
  ArrowLeft: k => Math.max(k - 1, 0), ArrowRight: k => k + 1, Home: () => 0, End: () => moments.length - 1,
  s: sameBehind, S: sameBehind, a: advanceBehind, A: advanceBehind,
};
document.addEventListener("keydown", pressed => {
  const move = keys[pressed.key];
  if (!move || pressed.target === slider || pressed.altKey || pressed.ctrlKey || pressed.metaKey || pressed.shiftKey) return;
  pressed.preventDefault();
  go(move(Number(slider.value)));
});
slider.addEventListener("input", shown);
byId("back").addEventListener("click", () => go(Number(slider.value) - 1));
byId("next").addEventListener("click", () => go(Number(slider.value) + 1));
byId("same").addEventListener("click", () => go(sameBehind(Number(slider.value))));
byId("advance").addEventListener("click", () => go(advanceBehind(Number(slider.value))));
function begin() {
  slider.value = named();
  show(Number(slider.value));
}
window.addEventListener("hashchange", begin);
slider.max = moments.length - 1;
document.body.classList.remove("still");
begin();
"##;
