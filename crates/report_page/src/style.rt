// How a page looks.
pub(crate) const STYLE: &str = r#":root {
  color-scheme: light dark;
  --paper: #fff; --ink: #1b1f24; --faint: #59626d; --line: #cbd1d9; --card: #f4f6f8; --mark: #0b5fa5; --lit: #e3eefa;
  --good: #00634a; --good-card: #e6f4ee; --bad: #9d1030; --bad-card: #fdecef; --bar: 61px;
}
@media screen and (prefers-color-scheme: dark) {
  :root {
    --paper: #14171b; --ink: #e9ecf0; --faint: #a8b0bb; --line: #3b424c; --card: #1e2329; --mark: #72b7f5; --lit: #1b3149;
    --good: #58d3a5; --good-card: #12291f; --bad: #ff8fa6; --bad-card: #331119;
  }
}
* { box-sizing: border-box; }
body { margin: 0; background: var(--paper); color: var(--ink); font: 15px/1.45 system-ui, "Segoe UI", Arial, sans-serif; }
main { display: flex; flex-direction: column; max-width: 1240px; margin: 0 auto; padding: 22px 20px 40px; }
h1 { margin: 0 0 14px; font-size: 27px; line-height: 1.2; overflow-wrap: anywhere; }
h2 { margin: 26px 0 8px; font-size: 19px; line-height: 1.3; }
:focus-visible { outline: 3px solid var(--mark); outline-offset: 2px; }

#verdict { padding: 12px 16px; border-left: 6px solid var(--bad); border-radius: 6px; background: var(--bad-card); }
#verdict h2 { display: flex; gap: 10px; align-items: center; margin: 0; }
#verdict h2::before { flex: none; width: 1.4em; border-radius: 50%; color: var(--paper); line-height: 1.4; text-align: center; }
#verdict p { margin: 4px 0 0; }
#verdict ul { margin: 4px 0 0; padding: 0; list-style: none; }
#verdict li { padding: 0; border: 0; font-variant-numeric: tabular-nums; }
#verdict li::before { display: none; }
pre { margin: 8px 0 0; font: 13px/1.5 ui-monospace, Menlo, Consolas, monospace; white-space: pre-wrap; overflow-wrap: anywhere; }
#verdict h2 { color: var(--bad); }
#verdict h2::before { content: "!"; background: var(--bad); }
#verdict.certified { border-color: var(--good); background: var(--good-card); }
#verdict.certified h2 { color: var(--good); }
#verdict.certified h2::before { content: "\2713"; background: var(--good); }

/* What the script puts into #run stands among the sections: the list of trains below the layout. */
#run { display: contents; }
#layout { order: 1; }
#run > ul, #run::after { order: 2; }
#graph { order: 3; }
#timetable { order: 4; }
#sections { order: 5; }
#remarks { order: 6; }
#run > div { position: sticky; top: 0; z-index: 2; display: flex; flex-wrap: wrap; gap: 8px; align-items: center; min-height: var(--bar); margin-top: 12px; background: var(--paper); border-bottom: 1px solid var(--line); }
#run:not(:empty) + #layout > h2 { margin-top: 14px; }
button, select { height: 38px; padding: 0 12px; border: 1px solid var(--line); border-radius: 6px; background: var(--card); color: var(--ink); font: inherit; white-space: nowrap; cursor: pointer; }
button:first-child { min-width: 7em; border-color: var(--mark); background: var(--mark); color: var(--paper); font-weight: 600; }
label { display: flex; gap: 8px; align-items: center; color: var(--faint); white-space: nowrap; }
label:first-of-type { flex: 1; min-width: 0; margin-left: 8px; }
input { flex: 1; min-width: 0; height: 30px; margin: 0; accent-color: var(--mark); }
#run > div > b { min-width: 5.2em; font-size: 18px; font-variant-numeric: tabular-nums; white-space: nowrap; }
#run > ul { display: grid; grid-template-columns: repeat(auto-fill, minmax(min(330px, 100%), 1fr)); gap: 0 28px; max-height: 16em; overflow-y: auto; margin: 10px 0 0; padding: 0; list-style: none; font-variant-numeric: tabular-nums; }
li { display: flex; gap: 8px; padding: 3px 0; border-bottom: 1px solid var(--line); }
li::before { content: ""; flex: none; width: 1em; color: var(--train); text-align: center; }
li b { min-width: 3.2em; color: var(--train); }
li.moves::before { content: "\25B6\FE0E"; }
li.waits::before { content: "\25B7"; }
li.arrived::before { content: "\25A0"; }
li.waits span { font-weight: 600; }
:is(li.arrived, li.left) span { color: var(--faint); }
#run:not(:empty)::after { content: "Filled arrow: the train travels. Hollow arrow: it waits. Square: it has arrived."; margin-top: 8px; color: var(--faint); font-size: 13px; }
@media (prefers-color-scheme: dark) {
  li b, li::before { color: color-mix(in srgb, var(--train) 50%, #fff); }
}

/* A picture and the cover that the script lays over it share a cell of this grid. */
#layout, #graph { display: grid; grid-template-columns: minmax(max(760px, var(--wide, 0px)), 1fr); overflow: auto hidden; }
:is(#layout, #graph) > h2 { position: sticky; left: 0; justify-self: start; }
.picture { grid-area: 2 / 1; display: grid; grid-template-rows: minmax(0, 1fr); border-radius: 6px; outline: 1px solid var(--line); outline-offset: -1px; background: #fff; color-scheme: light; overflow: hidden; }
.cover { grid-area: 2 / 1; width: 100%; height: 100%; min-height: 0; pointer-events: none; font: bold 12px sans-serif; }
#run:not(:empty) ~ #graph > .picture { cursor: pointer; }
.cover text { text-anchor: middle; fill: var(--train); stroke: #fff; stroke-width: 3px; stroke-linejoin: round; paint-order: stroke; }
.cover path { fill: var(--train); stroke: #fff; stroke-width: 1.5; stroke-linejoin: round; }
.cover line { stroke: var(--train); stroke-width: 8; stroke-linecap: round; opacity: .4; }
.cover g:not(.moves) > line { display: none; }
.cover .waits path { fill: #fff; stroke: var(--train); stroke-width: 2.5; }
#graph g line { display: inline; stroke: #c00020; stroke-width: 1.5; opacity: 1; }
#graph g text { fill: #c00020; stroke-width: 14px; }

table { border-collapse: separate; border-spacing: 0; width: 100%; max-width: 760px; font-variant-numeric: tabular-nums; }
th, td { padding: 4px 14px; border-bottom: 1px solid var(--line); text-align: right; }
th { position: sticky; top: 0; background: var(--card); border-bottom: 2px solid var(--line); color: var(--faint); font-weight: 600; }
#run:not(:empty) ~ #timetable th { top: var(--bar); }
:is(th, td):is(:nth-child(-n + 2), :last-child) { text-align: left; overflow-wrap: anywhere; }
td:first-child { font-weight: 600; }
#sections :is(th, td) { position: static; text-align: left; vertical-align: top; }
#sections :is(th, td):nth-child(2) { overflow-wrap: normal; }
#sections p { max-width: 760px; }
tr:not(:first-child):has(:nth-child(3):empty) > td { border-top: 2px solid var(--faint); }
@media screen {
  tr.here > td { background: var(--lit); }
  tr.here > td:first-child { box-shadow: inset 4px 0 var(--mark); }
}

@media (max-width: 860px) {
  :root { --bar: 98px; }
  main { padding: 14px 12px 30px; }
  h1 { font-size: 22px; }
  #run > div { align-content: center; }
  label:first-of-type { order: 1; flex-basis: 34%; margin: 0; }
  #run > div > b, label:last-of-type { order: 1; }
  button { padding: 0 9px; }
  th, td { padding: 4px 8px; }
}
@media (max-width: 480px) {
  #run > div { position: static; padding: 8px 0; }
  #run:not(:empty) ~ #timetable th { top: 0; }
}
@media print {
  @page { size: A4 landscape; margin: 11mm; }
  :root { color-scheme: light; --card: #fff; }
  * { print-color-adjust: exact; }
  body { font-size: 10pt; }
  main { display: block; max-width: none; padding: 0; }
  #run, .cover { display: none; }
  h2 { margin: 4mm 0 2mm; break-after: avoid; }
  #layout, #graph { display: block; overflow: visible; }
  .picture { place-items: stretch; max-height: 165mm; outline: 0; break-inside: avoid; }
  #graph, #timetable { break-before: page; }
  #graph h2, #timetable h2 { margin-top: 0; }
  #timetable { columns: 2; column-gap: 12mm; }
  #timetable h2 { column-span: all; }
  th { position: static; }
  th, td { padding: .5mm 3mm; }
  tr { break-inside: avoid; }
}
"#;
