// The script that plays a run on a page: it takes all from the page itself.
pub(crate) const SCRIPT: &str = r#"(() => {
"use strict";

const ARROW = "M20 0L-13 13L-6 0L-13-13Z";
const SQUARE = "M-10-10H10V10H-10Z";
const SPEEDS = [0.5, 1, 2, 5, 10, 20, 50, 100];
const events = [];

const pictureIn = (id) => document.querySelector(`[id=${id}] div`)?.shadowRoot?.querySelector("svg");
const textsIn = (picture, group) => [...picture.querySelectorAll(`.${group} text`)];

function set(element, attributes) {
  for (const entry of Object.entries(attributes)) element.setAttribute(...entry);
}

function append(parent, markup) {
  parent.insertAdjacentHTML("beforeend", markup);
  return parent.lastChild;
}

function readPoints(picture) {
  const names = textsIn(picture, "names");
  const circles = [...picture.querySelectorAll(".points circle")];
  return new Map(circles.map(({ cx, cy }, index) => [names[index]?.textContent, { x: cx.baseVal.value, y: cy.baseVal.value }]));
}

// Ticks stay strings, which compare as numbers.
function readTrains() {
  const found = [];
  for (const row of document.querySelectorAll("[id=timetable] tbody tr")) {
    const [name, point, arrives, leaves, , cause] = [...row.cells].map((cell) => cell.textContent);
    if (!arrives) found.push({ name, stops: [] });
    found.at(-1)?.stops.push({ row, point, arrives, leaves, cause });
    events.push(+arrives, +leaves);
  }
  return found;
}

function along(from, to, share) {
  return { x: from.x + share * (to.x - from.x), y: from.y + share * (to.y - from.y) };
}

function describe({ point, leaves, cause }, next) {
  if (point === "-") return ["left", "has left"];
  if (!next) return ["arrived", `has arrived at ${point}`];
  if (now < leaves) return ["waits", `waits at ${point} until ${leaves} ${cause}`];
  if (next.point === "-") return ["moves", `leaves the layout from ${point}`];
  return ["moves", `from ${point} to ${next.point} until ${next.arrives}`];
}

// An empty picture over another one.
function coverOf(picture) {
  const cover = picture.cloneNode();
  const { host } = picture.getRootNode();
  set(cover, { class: "cover", "aria-hidden": true });
  host.after(cover);
  host.parentNode.style.setProperty("--wide", `${picture.viewBox.baseVal.width}px`);
  return cover;
}

function addTrain(train) {
  const drawn = textsIn(layout, "trains").find((text) => text.textContent === train.name);
  const style = `style="--train: ${drawn?.getAttribute("fill")}"`;
  train.group = append(cover, `<g ${style}><line/><path/><text y="29"/></g>`);
  train.item = append(list, `<li ${style}><b></b><span></span></li>`);
  train.group.lastChild.textContent = train.item.firstChild.textContent = train.name;
}

function showTrain({ stops, group, item }) {
  const index = stops.findLastIndex((stop) => stop.arrives <= now);
  const [here, next] = stops.slice(index);
  const [kind, words] = describe(here, next);
  const from = points.get(here.point) ?? { x: -99, y: -99 };
  const before = points.get(stops[index - 1]?.point) ?? { x: from.x - 1, y: from.y };
  const to = points.get(next?.point) ?? along(before, from, 1 + 30 / Math.hypot(from.x - before.x, from.y - before.y));
  const { x, y } = along(from, to, kind === "moves" ? (now - here.leaves) / (next.arrives - here.leaves) : 0);
  const [taken, mark] = group.children;
  set(group, { class: kind, transform: `translate(${x} ${y})` });
  set(taken, { x2: to.x - x, y2: to.y - y });
  set(mark, { d: next ? ARROW : SQUARE });
  mark.style.rotate = `${Math.atan2(to.y - from.y, to.x - from.x)}rad`;
  if (item.lastChild.textContent === words) return;
  item.lastChild.textContent = words;
  item.className = kind;
  for (const stop of stops) stop.row.classList.toggle("here", stop === here);
}

// A copy of the first tick's line goes to the tick that is shown.
function addCursor(first, last) {
  const left = first.getAttribute("x");
  const start = +first.textContent;
  const each = (last.getAttribute("x") - left) / (last.textContent - start);
  const cursor = append(coverOf(graph), "<g></g>");
  cursor.append(graph.querySelector(".ticks line").cloneNode(), first.cloneNode());
  graph.onclick = ({ clientX }) => {
    const { x } = new DOMPoint(clientX).matrixTransform(graph.getScreenCTM().inverse());
    jump((x - left) / each + start);
  };
  return () => {
    set(cursor, { transform: `translate(${(now - start) * each})` });
    cursor.lastChild.textContent = slider.value;
  };
}

function show(tick) {
  now = Math.min(Math.max(tick, 0), end);
  slider.value = Math.floor(now);
  clock.textContent = `${slider.value} of ${end}`;
  slider.ariaValueText = `tick ${clock.textContent}`;
  trains.forEach(showTrain);
  showCursor?.();
}

function setPlaying(plays) {
  isPlaying = plays;
  cancelAnimationFrame(request);
  playButton.textContent = plays ? "\u275a\u275a Pause" : "\u25b6\ufe0e Play";
  list.ariaLive = plays ? "off" : "polite";
}

// Pauses at a whole tick.
function jump(tick) {
  setPlaying(false);
  show(Math.round(tick));
}

function play() {
  let last;
  let elapsed = now < end ? now : 0;
  setPlaying(true);
  request = requestAnimationFrame(function frame(time) {
    elapsed += Math.min(time - (last ?? time), 100) / 1000 * speed.value;
    last = time;
    if (elapsed >= end) return jump(end);
    show(matchMedia("(prefers-reduced-motion: reduce)").matches ? Math.floor(elapsed) : elapsed);
    request = requestAnimationFrame(frame);
  });
}

const toggle = () => isPlaying ? jump(now) : play();
const showAddress = () => jump(/^#t=(\d+)$/.exec(location.hash)?.[1] ?? now);

// Older browsers leave the templates where they are.
for (const template of document.querySelectorAll("template[shadowrootmode]")) {
  template.parentNode.attachShadow({ mode: "open" }).append(template.content);
}
const run = document.getElementById("run");
const layout = pictureIn("layout");
const graph = pictureIn("graph");
const points = readPoints(layout ?? document);
const trains = readTrains();
if (!points.has(trains[0]?.stops[0].point)) return;

const end = events.sort((a, b) => a - b).at(-1);
run.innerHTML = `<div>
<button></button>
<button>Previous event</button>
<button>Next event</button>
<label>Tick <input type=range max=${end}></label>
<b></b>
<label>Ticks a second <select><option>${SPEEDS.join("<option>")}</select></label>
</div>
<ul aria-label="Where each train is"></ul>`;
const [playButton, back, forth, slider, clock, speed, list] = run.querySelectorAll("button, input, b, select, ul");
const cover = coverOf(layout);
const ticks = textsIn(graph ?? document, "ticks").filter((text) => text.textContent >= 0);
const showCursor = ticks[1] && addCursor(ticks[0], ticks.at(-1));
let now = 0;
let isPlaying;
let request;

append(layout, "<style>@media screen { .arrows, .trains, .heading { visibility: hidden } }</style>");
trains.forEach(addTrain);
speed.value = SPEEDS.find((each) => end / each <= 60) ?? 100;
playButton.onclick = toggle;
back.onclick = () => jump(events.findLast((tick) => tick < now) ?? 0);
forth.onclick = () => jump(events.find((tick) => tick > now) ?? end);
slider.oninput = () => jump(slider.value);
onhashchange = showAddress;
onkeydown = (event) => {
  if (event.key !== " " || event.target.closest("button, select")) return;
  event.preventDefault();
  toggle();
};
showAddress();
})();
"#;
