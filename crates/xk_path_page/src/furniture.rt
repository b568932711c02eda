//! What stands in each page with a path, beside what stands in each page: how the path looks, and the script that shows it. The
//! definitions name these two texts, and spell the policy, and the element that holds what is told of the path.

ghost use Rattle.std.specs.Prelude.{◌≡◌};
ghost use Rattle.xk_path_page.specs.PathPage.{behind_moments, path_policy, script_begins};

/// The sums of the page's script and of its three styles, and the beginning of its title: whoever changes one of these is told the
/// new sum by tests/program/html_pages.py.
#[tactic(auto, unfolding(crate::specs::PathPage::path_policy))]
pub(crate) fn policy() -> &'static str
    ensures { result.now ≡ path_policy }
{
    "\
style-src 'sha256-3AudEqmNWbq3mUU2JPSAnnVqD4aj2CNtJ7TS8zftzCE=' \
'sha256-1Mhn6nywKkLaXR5W9I5AIbKxhh5lqmYSXkp8j1iVKwY=' \
'sha256-C/CwnOfAaIvnA9MqM4aYikITnRrEXrobyxc7PFf1e48='; \
script-src 'sha256-E6aMYpc/JcaWJiaPh97yynB5puSGVzMHZmMkYc2rsCQ='\">\n\
<title>A run"
}

/// The beginning of the element that holds what is told of the path.
#[tactic(auto, unfolding(crate::specs::PathPage::behind_moments))]
pub(crate) fn behind_moments() -> &'static str
    ensures { result.now ≡ behind_moments }
{
    "</script>\n<script type=\"text/plain\" id=\"path\">\n"
}

/// The end of that element, and the beginning of the script's.
#[tactic(auto, unfolding(crate::specs::PathPage::script_begins))]
pub(crate) fn script_begins() -> &'static str
    ensures { result.now ≡ script_begins }
{
    "</script>\n<script>\n"
}

/// How the path looks, behind the page's own style.
pub(crate) const PATH_LOOK: &str =
    r#"/* The critical path: its boxes, and beside a line's number how many of its steps come from that line. */
:root{--path:#d4006a}
@media (prefers-color-scheme:dark){:root{--path:#ff5ca8}}
#way{display:flex;flex-wrap:wrap;align-items:center;gap:.5rem;margin:.4rem 0 0}
#way .scope{color:var(--faint);font-size:.85rem}
#event .round{color:var(--path)}
#source .line{width:6.4em}
body:not(.unticked) #source .line[data-many]::before{content:attr(data-many);float:left;padding-left:.5em;color:var(--path)}
#span{max-height:40vh;margin:0;overflow:auto}
body:not(.unticked) #picture .of-path:not(.now) rect{stroke:var(--path);stroke-width:2}
/* The box isn't ticked: nothing of it is shown. */
.unticked .critical,.unticked .critical + text,.unticked .round,.unticked .told{display:none}
main{grid-template-rows:auto auto auto 1fr}
.lanes{grid-row:1/5}
@media (min-width:700px){
  .lanes{top:10.8rem}
  #picture{max-height:calc(100vh - 13.3rem)}
}
@media print{
  #way{display:none}
  #span{max-height:none;overflow:visible}
}
"#;

/// The script's last part: it shows the path.
pub(crate) const PATH_SCRIPT: &str = r##"
// The critical path. Lines "step 77 act 3 round 43" are of its steps that the page has, lines "line 4 with 52" tell how many of all its
// steps come from a line of the source text; the others are what span prints. It is shown as long as its box is ticked.
const way = new Map(), span = [];
for (const told of byId("path").textContent.trim().split("\n")) {
  const [word, number, , many, , round] = told.split(" ");
  if (word === "step") way.set(Number(number), round);
  else if (word !== "line") span.push(told);
  else if (rows[number - 1]) rows[number - 1].firstChild.dataset.many = many;
}
const long = span[0].split(" ")[3];
for (const row of rows) {
  const many = row.firstChild.dataset.many;
  if (many) row.title = many + " of the " + long + " steps of the critical path";
}
for (const step of way.keys()) if (boxes.has(step)) boxes.get(step).classList.add("of-path");

// Its box, its buttons, of which runs it is one, and what span prints.
function button(text) {
  const made = make("button", "", text);
  made.type = "button";
  return made;
}
const tick = make("input", "", ""), label = make("label", "", ""), told = make("section", "told", ""), panel = make("div", "", "");
const pathBack = button("Path back"), pathNext = button("Path next");
tick.type = "checkbox";
tick.checked = true;
label.append(tick, " Critical path");
panel.id = "way";
panel.setAttribute("role", "group");
panel.setAttribute("aria-label", "Critical path");
panel.append(label, pathBack, pathNext, make("span", "scope", span[0] + "; " + span[span.length - 1]));
byId("controls").after(panel);
told.append(make("h2", "", "Critical path"), make("pre", "", span.join("\n")));
told.lastChild.id = "span";
document.querySelector(".words").before(told);
tick.addEventListener("change", () => document.body.classList.toggle("unticked", !tick.checked));

// The step of the path before a moment, and the one behind it; or -1.
const onPath = n => way.has(moments[n].steps);
const pathBehind = k => behind(k, onPath);
function pathBefore(k) {
  for (let n = k - 1; n >= 0; n--) if (onPath(n)) return n;
  return -1;
}
pathBack.addEventListener("click", () => go(pathBefore(Number(slider.value))));
pathNext.addEventListener("click", () => go(pathBehind(Number(slider.value))));
document.addEventListener("keydown", pressed => {
  if (pressed.key.toLowerCase() !== "p" || pressed.altKey || pressed.ctrlKey || pressed.metaKey) return;
  pressed.preventDefault();
  const move = pressed.shiftKey ? pathBefore : pathBehind;
  go(move(Number(slider.value)));
});

// A moment is shown with the round of its step, if that is one of the path.
const showStep = show;
show = k => {
  const round = way.get(moments[k].steps);
  showStep(k);
  if (round) byId("event").append(make("span", "round", ", round " + round + " of " + long));
  pathBack.disabled = pathBefore(k) < 0;
  pathNext.disabled = pathBehind(k) < 0;
};
document.querySelector("header .help").append(" Key P goes to the next step of the critical path, and with shift to the one before.");
document.querySelector(".text .help").append(" Left of a line's number: how many steps of the critical path come from it.");
document.querySelector(".words dl").append(make("dt", "", "round"), make("dd", "", "how many steps the longest chain up to a step has"));
begin();
"##;
