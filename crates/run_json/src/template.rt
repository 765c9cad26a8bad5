//! The parts of a run's HTML page before and after the run's data. `tools/page_template` makes this file from the files
//! in `page/`.

/// The part of the HTML page before the run's data.
pub const HEAD: &str = "<!DOCTYPE html>
<html lang=\"en\">
<head>
<meta charset=\"utf-8\">
<meta name=\"viewport\" content=\"width=device-width, initial-scale=1\">
<title>A run of realm builds</title>
<style>
:root {
  --paper: #ffffff; --ink: #1b1b1b; --soft: #5a5a5a; --line: #878787; --panel: #f4f4f2; --accent: #0066a1; --wrong: #b3261e; --mark: #fff3c4; --new: #c2178b;
  --undelegated: #cfe6f7; --delegated: #f2cf5b; --rd: #5b1f55; --rec: #a83a08; --rec-aux: #f3a9b4; --data: #0f5c9e; --rtt: #3fae8c;
  --on-undelegated: #12303f; --on-delegated: #3a2b00; --on-rd: #ffffff; --on-rec: #ffffff; --on-rec-aux: #3f0f1a; --on-data: #ffffff; --on-rtt: #04231a;
  --b0: #1b1b1b; --b1: #d96f0c; --b2: #0958bc; --b3: #10635c; --b4: #34004d; --b5: #683a07; --b6: #4e95af; --b7: #8c8d7f;
  --on-b0: #ffffff; --on-b1: #000000; --on-b2: #ffffff; --on-b3: #ffffff; --on-b4: #ffffff; --on-b5: #ffffff; --on-b6: #000000; --on-b7: #000000;
}
:root[data-theme=\"dark\"] {
  --paper: #15181b; --ink: #ececec; --soft: #a8a8a8; --line: #757b82; --panel: #1e2226; --accent: #56b4e9; --wrong: #ff8f85; --mark: #352d0e; --new: #ff7ad1;
  --undelegated: #28465f; --delegated: #e3bd45; --rd: #d19bc6; --rec: #b94a14; --rec-aux: #f3a9b4; --data: #1d6fb8; --rtt: #3aa585;
  --on-undelegated: #d5e9f8; --on-delegated: #2b2000; --on-rd: #2f0a28; --on-rec: #ffffff; --on-rec-aux: #33101a; --on-data: #ffffff; --on-rtt: #021a13;
  --b0: #f5f5f5; --b1: #e8810b; --b2: #0165ff; --b3: #71b094; --b4: #905b7b; --b5: #ffff90; --b6: #83bdfe; --b7: #836648;
  --on-b0: #000000; --on-b1: #000000; --on-b2: #ffffff; --on-b3: #000000; --on-b4: #ffffff; --on-b5: #000000; --on-b6: #000000; --on-b7: #ffffff;
}
[data-b=\"0\"] { --frame: var(--b0); --on-frame: var(--on-b0); }
[data-b=\"1\"] { --frame: var(--b1); --on-frame: var(--on-b1); }
[data-b=\"2\"] { --frame: var(--b2); --on-frame: var(--on-b2); }
[data-b=\"3\"] { --frame: var(--b3); --on-frame: var(--on-b3); }
[data-b=\"4\"] { --frame: var(--b4); --on-frame: var(--on-b4); }
[data-b=\"5\"] { --frame: var(--b5); --on-frame: var(--on-b5); }
[data-b=\"6\"] { --frame: var(--b6); --on-frame: var(--on-b6); }
[data-b=\"7\"] { --frame: var(--b7); --on-frame: var(--on-b7); }
.UNDELEGATED { --fill: var(--undelegated); --on-fill: var(--on-undelegated); }
.DELEGATED { --fill: var(--delegated); --on-fill: var(--on-delegated); }
.RD { --fill: var(--rd); --on-fill: var(--on-rd); }
.RTT { --fill: var(--rtt); --on-fill: var(--on-rtt); }
.DATA { --fill: var(--data); --on-fill: var(--on-data); }
.REC { --fill: var(--rec); --on-fill: var(--on-rec); }
.REC_AUX { --fill: var(--rec-aux); --on-fill: var(--on-rec-aux); }

* { box-sizing: border-box; }
[hidden] { display: none !important; }
body { margin: 0 auto; padding: 0 20px 12px; max-width: 1560px; background: var(--paper); color: var(--ink); font: 15px/1.45 system-ui, \"Segoe UI\", sans-serif; }
h1, h2, h3, p { margin: 0; }
h1 { font-size: 21px; line-height: 1.25; overflow-wrap: anywhere; }
h2 { font-size: 16px; margin: 16px 0 6px; }
h3 { font-size: 15px; }
header { display: grid; grid-template-columns: minmax(0, 1fr) auto auto; align-items: center; gap: 2px 18px; padding-top: 14px; }
#machine { color: var(--soft); }
#about { grid-column: 1 / -1; max-width: 100ch; color: var(--soft); }
#about:empty { display: none; }
button, select { font: inherit; color: inherit; background: var(--panel); border: 1px solid var(--line); border-radius: 6px; padding: 4px 11px; cursor: pointer; }
button:hover, select:hover { border-color: var(--accent); background: var(--paper); }
:focus-visible { outline: 3px solid var(--accent); outline-offset: 1px; }

/* Controls and the turn */
#controls { position: sticky; top: 0; z-index: 3; display: flex; align-items: center; gap: 12px; padding: 10px 0; background: var(--paper); border-bottom: 1px solid var(--line); }
.buttons { display: flex; gap: 6px; }
#controls button { height: 34px; }
#controls svg { display: block; width: 16px; height: 16px; fill: currentColor; stroke: currentColor; stroke-width: 1.6; stroke-linejoin: round; stroke-linecap: round; }
#play { min-width: 70px; }
#slider { flex: 1; min-width: 60px; margin: 0; accent-color: var(--accent); }
#count { order: 1; min-width: 8.5em; text-align: right; font-variant-numeric: tabular-nums; }
#without-label { order: 2; white-space: nowrap; }
#turn { min-height: 66px; padding: 9px 16px; margin-top: 12px; background: var(--panel); border-left: 5px solid var(--accent); border-radius: 6px; }
#turn.helped { min-height: 88px; }
#turn.refused { border-left-color: var(--wrong); }
#line { font: 600 18px/1.4 ui-monospace, \"Cascadia Mono\", Consolas, monospace; overflow-wrap: anywhere; }
#reason { color: var(--soft); }
.refused #reason { color: var(--wrong); }
#help b { color: var(--accent); }
#turn code { font: 0.93em ui-monospace, \"Cascadia Mono\", Consolas, monospace; color: var(--ink); }

/* The parts of the page, by the size of the machine */
#run { display: grid; gap: 0 30px; grid-template: \"machine realms history\" auto / minmax(0, 5fr) minmax(0, 5fr) minmax(220px, 3fr); }
#run.middle { grid-template-columns: minmax(0, 7fr) minmax(0, 5fr) minmax(220px, 3fr); }
#run.small, #run.tiny { grid-template: \"machine history\" auto \"machine realms\" 1fr / minmax(0, 2fr) minmax(280px, 1fr); }
#run.compared { grid-template: \"compare\" auto \"history\" auto / minmax(0, 1fr); }
#run.large.compared { grid-template: \"compare history\" auto / minmax(0, 10fr) minmax(220px, 3fr); }
#compare { grid-area: compare; }
#machine-part { grid-area: machine; }
#realm-part { grid-area: realms; }
#history-part { grid-area: history; }
#worlds { display: grid; grid-template-columns: minmax(0, 1fr) minmax(0, 1fr); gap: 0 30px; }
#verdict { margin: 14px 0 2px; font-size: 18px; }
#verdict.same::before { content: \"\\2713  \"; color: var(--accent); }
#verdict.differ::before { content: \"\\2260  \"; color: var(--wrong); }
#verdict-why { color: var(--soft); }

/* Granules: a grid's font has the size of a tile's label, and all of a tile is measured by that */
#machine-part, #worlds > section { container-type: inline-size; min-width: 0; }
.grid { --gap: 4px; --most: 84px; --label: 0.25; --side: min(var(--most), (100cqi - (var(--columns) - 1) * var(--gap)) / var(--columns)); }
.grid { display: grid; grid-template-columns: repeat(var(--columns), var(--side)); grid-auto-rows: var(--side); gap: var(--gap); padding: 4px 0; border-radius: 6px; font: 600 calc(var(--side) * var(--label))/1 system-ui, \"Segoe UI\", sans-serif; }
.grid.middle { --gap: 3px; --most: 50px; --label: 0.27; }
.grid.small { --gap: 2px; --most: 28px; --label: 0.62; line-height: calc(var(--side) * 0.76); }
.grid.tiny { --gap: 1px; --most: 20px; --label: 0.62; line-height: calc(var(--side) * 0.76); }
.grid > div { display: contents; }
.grid i { position: relative; display: flex; align-items: center; justify-content: center; overflow: hidden; contain: strict; cursor: default; font-style: normal; color: var(--on-fill); background: no-repeat 7% 93% / 0.68em 0.68em var(--fill); border: calc(1px + 0.16em) solid var(--frame); border-radius: 0.5em; }
.grid.middle i { padding-bottom: 0.5em; background-size: 0.74em 0.74em; }
.grid.small i, .grid.tiny i { display: block; text-align: center; border: calc(1px + 0.06em) solid var(--frame); border-radius: 2px; background-position: center bottom; background-size: 100% 20%; }
.grid.large i::before { content: attr(data-g); position: absolute; left: 7%; top: 6%; font-size: 0.8em; font-weight: 500; }
.grid.large i::after, .grid.middle i::after { content: attr(data-b); position: absolute; right: 0; bottom: 0; padding: 0.14em 0.36em 0.06em; border-top-left-radius: 0.4em; background: var(--frame); color: var(--on-frame); font-size: 0.86em; }
.grid i.free { --fill: var(--paper); --on-fill: var(--soft); --frame: var(--line); border-width: 1px; border-style: dotted; }
.grid.large i.free::after, .grid.middle i.free::after { content: none; }
.zero { background-image: radial-gradient(circle closest-side, transparent 50%, currentColor 58% 86%, transparent 96%) !important; }
.full { background-image: radial-gradient(circle closest-side, currentColor 86%, transparent 96%) !important; }
.small .zero, .tiny .zero { background-image: none !important; }
.small .full, .tiny .full { background-image: linear-gradient(currentColor, currentColor) !important; }
.grid i.new { box-shadow: 0 0 0 3px var(--new); z-index: 1; }
.grid i.differs { box-shadow: 0 0 0 3px var(--wrong); z-index: 1; }
.grid.small i.new, .grid.tiny i.new { box-shadow: 0 0 0 2px var(--new); }
.grid.small i.differs, .grid.tiny i.differs { box-shadow: 0 0 0 1px var(--wrong); }
.grid i.pick { outline: 3px solid var(--accent); outline-offset: 0; z-index: 2; }
.grid.large i.differs::before { content: attr(data-g) \" \\2260\"; font-weight: 700; }
#cell { min-height: 2.9em; margin: 6px 0; color: var(--soft); font-size: 14px; }
#legend { display: grid; grid-template-columns: repeat(auto-fill, minmax(16.2em, 1fr)); gap: 5px 10px; font-size: 13px; line-height: 1.25; }
#legend span { display: flex; align-items: center; gap: 6px; }
#legend i { display: inline-flex; flex: none; width: 38px; height: 22px; align-items: center; justify-content: center; font: 600 11px/1 system-ui, \"Segoe UI\", sans-serif; color: var(--on-fill); background: no-repeat center / 11px 11px var(--fill); border: 1px solid var(--line); border-radius: 4px; }
#legend i.free { border-style: dotted; }
#legend i.dot { border-color: transparent; color: var(--ink); }

/* Builds, realms, history */
table { border-collapse: collapse; width: 100%; font-size: 14px; }
th, td { text-align: left; padding: 4px 9px 4px 0; border-bottom: 1px solid var(--line); font-variant-numeric: tabular-nums; font-weight: 400; }
thead th { color: var(--soft); font-weight: 600; }
tr.now > * { background: var(--mark); }
#free { margin-top: 6px; }
#legend i.tag { width: 22px; margin: 0 8px; }
.tag, #legend i.tag { display: inline-block; min-width: 22px; padding: 3px 0; text-align: center; font: 600 13px/1.25 system-ui, \"Segoe UI\", sans-serif; color: var(--on-frame); background: var(--frame); border: 0; border-radius: 4px; }
.realm { border: 1px solid var(--line); border-left: 5px solid var(--frame); border-radius: 6px; padding: 8px 14px 10px; margin-bottom: 12px; }
.realm p { margin: 3px 0; font-size: 14px; }
.realm code, .tree { font: 12.5px/1.6 ui-monospace, \"Cascadia Mono\", Consolas, monospace; }
.realm code { max-width: 32ch; overflow-wrap: anywhere; color: var(--soft); }
.measured { display: flex; flex-wrap: wrap; gap: 0 10px; }
#worlds .realms { margin-top: 14px; }
.realm.differs { box-shadow: 0 0 0 3px var(--wrong); }
.tree, .tree ul { list-style: none; margin: 2px 0 0; padding-left: 2px; }
.tree { max-height: 26em; overflow: auto; }
.tree ul { padding-left: 16px; margin-left: 5px; border-left: 1px solid var(--line); }
.tree summary { cursor: pointer; }
.tree .new { background: var(--mark); }
.level { color: var(--soft); }
.ripas { display: inline-block; padding: 0 5px; border-radius: 4px; border: 1px solid var(--line); font-size: 12px; line-height: 1.4; }
.ripas.RAM { background: var(--data); color: var(--on-data); }
.ripas.DESTROYED { border: 1px dashed var(--wrong); }
.none, .hint { color: var(--soft); }
.hint { margin-bottom: 6px; font-size: 13px; }
#history-part { position: sticky; top: 56px; align-self: start; min-width: 0; }
#run.small #history-part, #run.tiny #history-part, #run.compared:not(.large) #history-part { position: static; }
#history { list-style: none; margin: 0; padding: 3px 0; max-height: max(240px, calc(100vh - 290px)); overflow-y: auto; border: 1px solid var(--line); border-radius: 6px; font: 13px/1.5 ui-monospace, \"Cascadia Mono\", Consolas, monospace; }
#run.small #history, #run.tiny #history, #run.compared:not(.large) #history { max-height: 380px; }
#history li { content-visibility: auto; contain-intrinsic-size: auto 100px auto 22px; }
#history button { display: flex; gap: 10px; width: 100%; text-align: left; border: 0; border-radius: 0; background: none; padding: 1px 10px; font: inherit; }
#history button:hover { background: var(--panel); }
#history .turn { color: var(--soft); min-width: 2.6em; text-align: right; }
#history .later { color: var(--soft); }
#history .refused { color: var(--wrong); }
#history button[aria-current] { background: var(--mark); font-weight: 600; }
#history .out { color: var(--soft); text-decoration: line-through; }
#history .none { padding: 4px 12px; }
footer { margin-top: 18px; padding-top: 8px; color: var(--soft); font-size: 13px; border-top: 1px solid var(--line); }

@media (min-width: 1700px) {
  body { max-width: 2200px; font-size: 17px; }
  h1 { font-size: 25px; } h2 { font-size: 18px; } h3 { font-size: 17px; }
  #history, .realm code, .tree { font-size: 15px; }
  table, .realm p, #cell, #legend, .hint, footer { font-size: 16px; }
  #line { font-size: 22px; }
}
@media (max-width: 1150px) {
  #run.large, #run.middle { grid-template: \"machine realms\" auto \"history history\" auto / minmax(0, 1fr) minmax(0, 1fr); }
  #run.small, #run.tiny { grid-template: \"machine machine\" auto \"realms history\" auto / minmax(0, 1fr) minmax(0, 1fr); }
  #run.compared, #run.large.compared { grid-template: \"compare\" auto \"history\" auto / minmax(0, 1fr); }
  #history-part, #run #history-part { position: static; }
  #history, #run #history { max-height: 40vh; }
}
@media (max-width: 760px) {
  body { padding: 0 12px 12px; }
  header { grid-template-columns: minmax(0, 1fr) auto; }
  #machine, #about { grid-column: 1 / -1; grid-row: auto; font-size: 14px; }
  #theme { grid-row: 1; grid-column: 2; }
  #run.large, #run.middle, #run.small, #run.tiny { grid-template: \"machine\" auto \"realms\" auto \"history\" auto / minmax(0, 1fr); }
  #run.large.compared, #run.compared { grid-template: \"compare\" auto \"history\" auto / minmax(0, 1fr); }
  #worlds { grid-template-columns: minmax(0, 1fr); }
  #controls { flex-wrap: wrap; gap: 6px 8px; padding: 7px 0; }
  .buttons { gap: 4px; }
  .buttons button { padding: 4px 8px; }
  #play { min-width: 62px; }
  #count { order: 0; flex: 1; min-width: 0; font-size: 14px; white-space: nowrap; }
  #slider { order: 1; flex: 1 1 170px; }
  #without-label { font-size: 14px; }
  #legend { grid-template-columns: repeat(auto-fill, minmax(165px, 1fr)); }
  #line { font-size: 16px; }
}
@media (prefers-reduced-motion: no-preference) { .grid.large i, .grid.middle i { transition: background-color 0.15s, border-color 0.15s; } }
@media print {
  :root, :root[data-theme=\"dark\"] { --paper: #fff; --ink: #000; --panel: #fff; --soft: #333; --line: #777; }
  .buttons, #slider, #theme, #without-label, footer, #cell, .hint { display: none; }
  #controls { position: static; border: 0; } #history, #run #history { max-height: none; overflow: visible; columns: 2; } .tree { max-height: none; }
  * { print-color-adjust: exact; -webkit-print-color-adjust: exact; } body { max-width: none; }
}
</style>
</head>
<body>
<header>
<h1 id=\"title\">A run of realm builds</h1>
<p id=\"machine\"></p>
<button id=\"theme\" type=\"button\" title=\"Dark or light (T)\">Dark</button>
<p id=\"about\"></p>
</header>
<nav id=\"controls\" aria-label=\"Turns\">
<span class=\"buttons\">
<button id=\"first\" type=\"button\" title=\"Before the first turn (Home)\" aria-label=\"Before the first turn\"><svg viewBox=\"0 0 16 16\"><path d=\"M3 3v10M13 3L6 8l7 5z\"/></svg></button>
<button id=\"back\" type=\"button\" title=\"One turn back (Left)\" aria-label=\"One turn back\"><svg viewBox=\"0 0 16 16\"><path d=\"M12 3L4 8l8 5z\"/></svg></button>
<button id=\"play\" type=\"button\" title=\"Play or pause (Space)\">Play</button>
<button id=\"next\" type=\"button\" title=\"One turn on (Right)\" aria-label=\"One turn on\"><svg viewBox=\"0 0 16 16\"><path d=\"M4 3l8 5-8 5z\"/></svg></button>
<button id=\"last\" type=\"button\" title=\"The last turn (End)\" aria-label=\"The last turn\"><svg viewBox=\"0 0 16 16\"><path d=\"M13 3v10M3 3l7 5-7 5z\"/></svg></button>
</span>
<output id=\"count\" for=\"slider\"></output>
<input id=\"slider\" type=\"range\" min=\"0\" value=\"0\" step=\"1\" aria-label=\"Turn\">
<label id=\"without-label\">Leave out <select id=\"without\"><option value=\"\">nobody</option></select></label>
</nav>
<section id=\"turn\" aria-label=\"This turn\" aria-live=\"polite\">
<p id=\"line\"></p>
<p id=\"reason\"></p>
<p id=\"help\"></p>
</section>
<main id=\"run\">
<section id=\"compare\" aria-label=\"A build left out\" hidden>
<div role=\"status\">
<h2 id=\"verdict\"></h2>
<p id=\"verdict-why\"></p>
</div>
<div id=\"worlds\">
<section aria-labelledby=\"run-title\"><h2 id=\"run-title\"></h2><div id=\"run-grid\" class=\"grid\" role=\"grid\" tabindex=\"0\" aria-labelledby=\"run-title\"></div><div id=\"run-realms\" class=\"realms\"></div></section>
<section aria-labelledby=\"other-title\"><h2 id=\"other-title\"></h2><div id=\"other-grid\" class=\"grid\" role=\"grid\" tabindex=\"0\" aria-labelledby=\"other-title\"></div><div id=\"other-realms\" class=\"realms\"></div></section>
</div>
</section>
<section id=\"machine-part\" aria-labelledby=\"granules-title\">
<h2 id=\"granules-title\">Granules of the machine</h2>
<div id=\"grid\" class=\"grid\" role=\"grid\" tabindex=\"0\" aria-labelledby=\"granules-title\" aria-describedby=\"cell\"></div>
<div id=\"key\">
<p id=\"cell\" aria-live=\"polite\">Point at a granule for what it is and what it contains.</p>
<div id=\"legend\"></div>
</div>
<h2>Builds</h2>
<table id=\"builds\"><thead><tr><th>Build</th><th>Pages</th><th>Open</th><th>Mark</th><th>Realm</th></tr></thead><tbody></tbody></table>
<p id=\"free\" class=\"hint\"></p>
</section>
<section id=\"realm-part\" aria-labelledby=\"realms-title\">
<h2 id=\"realms-title\">Realms</h2>
<div id=\"realms\" class=\"realms\"></div>
</section>
<aside id=\"history-part\" aria-labelledby=\"history-title\">
<h2 id=\"history-title\">History</h2>
<p class=\"hint\">Each event, and in red each step that was refused. Choose one to see the machine after it.</p>
<ol id=\"history\"></ol>
</aside>
</main>
<footer><p><b>Left</b> and <b>Right</b> a turn back and on; <b>Home</b> and <b>End</b> the start and the end; <b>Space</b> play; <b>0</b> to <b>7</b> leave that build out; <b>Escape</b> back to the run; <b>T</b> dark or light. In the granules: <b>Shift</b> and an arrow key. In the history: <b>Up</b> and <b>Down</b>.</p></footer>
<noscript><p>This page draws its data by a script, which is switched off here.</p></noscript>
";

/// The part of the HTML page after the run's data.
pub const TAIL: &str = "
<script>
\"use strict\";
// The words for states and refusals.
const WORDS = { UNDELEGATED: \"U\", DELEGATED: \"D\", RD: \"RD\", RTT: \"RTT\", DATA: \"DATA\", REC: \"REC\", REC_AUX: \"AUX\" };
const MEANINGS = {
  UNDELEGATED: \"the host's\", DELEGATED: \"the RMM's\", RD: \"a realm descriptor\", RTT: \"a translation table\",
  DATA: \"a realm's memory\", REC: \"a virtual CPU\", REC_AUX: \"a REC's auxiliary\",
};
const STATUS = { 1: \"RMI_ERROR_INPUT\", 2: \"RMI_ERROR_REALM\", 3: \"RMI_ERROR_REC\", 4: \"RMI_ERROR_RTT\" };
const HARDWARE = \"The hardware refuses, and no command is involved: the page is not the host's.\"
  + \" On a machine the access raises a granule protection fault.\";
const REFUSALS = {
  NoBuild: \"There is no such build.\",
  Aborting: \"The build is being aborted.\",
  BadOrder: \"A block has at most 512 pages.\",
  NotLeased: \"The build has no page $1.\",
  RealmThere: \"The build has a realm already.\",
  NoRealm: \"The build has no realm.\",
  NothingToUndo: \"There is nothing to undo, or no mark to go back to.\",
  RecRunning: \"A REC that would have to go is running.\",
  JournalFull: \"The build has 512 operations open.\",
  HistoryFull: \"The rest of the build's room in the history is kept for its undos.\",
  NoBlock: \"No 2^$1 pages in a row, from a multiple of 2^$1 on, are free.\",
  NoVmid: \"All VMIDs are in use.\",
  Rmi: \"The RMM refuses: $status.\",
};

const counted = (n, one) => n + \" \" + one + (n === 1 ? \"\" : \"s\");

// A refusal in general words, for a turn for which the data has no line.
function refusalText(turn) {
  const [word] = turn.step.split(\" \"), name = turn.answer.split(\" \")[2], [, first, index] = turn.numbers;
  if (name === \"Rmi\" && (word === \"fill\" || word === \"peek\")) return HARDWARE;
  const status = (STATUS[first] || \"status \" + first) + (first === 4 ? \", index \" + index : \"\");
  return (REFUSALS[name] || \"Refused.\").replace(\"$status\", status).replaceAll(\"$1\", first);
}
// The worlds of the run: the states of its machine after each number of turns. The data has what each turn changed of
// granules, rows, RECs and realms; a world is made by applying these changes in order. The world without a build is
// made by those of the others alone. What a page contains follows from the events: fill, data and poke write, and any
// other event clears the granules that it changes.
const data = JSON.parse(document.getElementById(\"data\").textContent);
const run = data.run, turns = run.turns, pages = run.settings.pages, builds = run.settings.builds;
const COVERED = { 1: 262144, 2: 512, 3: 1 };

// ---- the bytes of a page: one value, and the bytes that were written over it

const filled = (value) => ({ value, written: new Map(), sum: 4096 * value });
const ZERO = filled(0);
const byteAt = (page, offset) => page.written.get(offset) ?? page.value;
function withByte(page, offset, value) {
  return { value: page.value, written: new Map(page.written).set(offset, value),
    sum: page.sum - byteAt(page, offset) + value };
}
function isSamePage(one, other) {
  if (one === other || one.sum !== other.sum) return one === other;
  if (one.value === other.value && one.written.size + other.written.size === 0) return true;
  for (let offset = 0; offset < 4096; offset++) if (byteAt(one, offset) !== byteAt(other, offset)) return false;
  return true;
}

// ---- worlds

const FREE = { state: \"UNDELEGATED\", build: null, realm: null };
function freshWorld() {
  return {
    granules: Array.from({ length: pages }, (_, granule) => ({ granule, ...FREE })),
    contents: Array(pages).fill(ZERO), numbers: Array(pages).fill(0), leased: Array(builds).fill(0),
    realms: Array(builds).fill(null), open: Array(builds).fill(0),
    mark: Array(builds).fill(null), aborting: Array(builds).fill(false),
  };
}
function copyWorld(world) {
  return {
    granules: world.granules.slice(), contents: world.contents.slice(), numbers: world.numbers.slice(),
    leased: world.leased.slice(),
    realms: world.realms.slice(), open: world.open.slice(), mark: world.mark.slice(), aborting: world.aborting.slice(),
  };
}
// The rows with an item put in, which replaces the rows in its range at its level and below.
function withRow(rows, item) {
  const from = item.first, to = item.first + item.count * COVERED[item.level], kept = [];
  for (const row of rows) {
    const size = COVERED[row.level], start = row.first, end = row.first + row.count * size;
    if (row.level < item.level || end <= from || to <= start) { kept.push(row); continue; }
    if (start < from) kept.push({ ...row, count: (from - start) / size });
    if (to < end) kept.push({ ...row, first: to, count: (end - to) / size });
  }
  kept.push(item);
  return kept.sort((a, b) => a.first - b.first || a.level - b.level);
}
function withRec(recs, rec) {
  const others = recs.filter((it) => it.number !== rec.number);
  return rec.state ? [...others, rec].sort((a, b) => a.number - b.number) : others;
}
function granuleAt(realm, ipa) {
  return realm.rows.find((row) => row.level === 3 && row.first <= ipa && ipa < row.first + row.count).granule;
}
// The operation of an event, as its word and its numbers.
function eventOf(turn) {
  const [, word, ...numbers] = turn.event.split(\" \");
  return { word, numbers: numbers.map(Number) };
}
// The granules whose attributes or content a turn changed.
function changedBy(turn, world) {
  if (turn === null || turn.event === null) return [];
  const { word, numbers } = eventOf(turn);
  if (word === \"fill\") return [numbers[0]];
  if (word === \"poke\") return [granuleAt(world.realms[turn.build], numbers[1])];
  return (turn.granules || []).map((item) => item.granule);
}
function stepRealm(world, turn) {
  const old = world.realms[turn.build];
  let realm = old;
  if (\"realm\" in turn) realm = turn.realm && { ...turn.realm, rows: old ? old.rows : [], recs: old ? old.recs : [] };
  if (realm && turn.rows) realm = { ...realm, rows: turn.rows.reduce(withRow, realm.rows) };
  if (realm && turn.recs) realm = { ...realm, recs: turn.recs.reduce(withRec, realm.recs) };
  world.realms[turn.build] = realm;
}
// Updates the leases of a build. The number of a page is the count of pages that the build had when it took the page.
function stepLeases(world, build, word, [order, first]) {
  if (word === \"take\") for (let k = 0; k < 2 ** order; k++) world.numbers[first + k] = world.leased[build]++;
  if (word === \"untake\") world.leased[build] -= 2 ** order;
}
function stepContents(world, turn, word, numbers) {
  const contents = world.contents, [changed] = changedBy(turn, world);
  if (word === \"fill\") contents[changed] = filled(numbers[1]);
  else if (word === \"data\") contents[changed] = contents[numbers[2]];
  else if (word === \"poke\") contents[changed] = withByte(contents[changed], numbers[2], numbers[3]);
  else for (const granule of changedBy(turn, world)) contents[granule] = ZERO;
}
function stepWorld(world, turn) {
  for (const item of turn.granules || []) world.granules[item.granule] = item;
  stepRealm(world, turn);
  if (turn.event !== null) {
    const { word, numbers } = eventOf(turn);
    stepLeases(world, turn.build, word, numbers);
    stepContents(world, turn, word, numbers);
  }
  world.open[turn.build] = turn.open;
  world.mark[turn.build] = turn.mark;
  world.aborting[turn.build] = turn.aborting;
}

// The worlds after each number of turns, if only the chosen turns are performed.
// Every so often one is kept, to begin from.
class Worlds {
  constructor(isChosen) {
    this.isChosen = isChosen;
    this.every = 512;
    this.kept = [freshWorld()];
    this.go(0);
  }
  go(k) {
    this.world = copyWorld(this.kept[k]);
    this.at = k * this.every;
  }
  after(n) {
    const k = Math.min(Math.floor(n / this.every), this.kept.length - 1);
    if (n < this.at || k * this.every > this.at) this.go(k);
    while (this.at < n) {
      const turn = turns[this.at++];
      if (this.isChosen(turn)) stepWorld(this.world, turn);
      if (this.at === this.kept.length * this.every) this.kept.push(copyWorld(this.world));
    }
    return this.world;
  }
}
const everyone = new Worlds(() => true);
const othersOf = Array.from({ length: builds }, (_, b) => new Worlds((turn) => turn.build !== b));
// Grids of granules: each granule is a tile, filled by its state and framed by its build.
const element = (tag, text, className) => {
  const made = document.createElement(tag);
  if (text !== undefined) made.textContent = text;
  if (className) made.className = className;
  return made;
};
const $ = (id) => document.getElementById(id);
const SIZE = pages <= 64 ? \"large\" : pages <= 256 ? \"middle\" : pages <= 1024 ? \"small\" : \"tiny\";
const COLUMNS = { large: [8, 8], middle: [16, 8], small: [32, 16], tiny: [64, 32] };
const isNarrow = matchMedia(\"(max-width: 760px)\");
const columnsNow = () => Math.min(pages, COLUMNS[SIZE][isNarrow.matches ? 1 : 0]);
const hasBytes = (state) => state === \"UNDELEGATED\" || state === \"DELEGATED\" || state === \"DATA\";

// The kind of a granule's content: the RMM's own, all zeros, or other bytes.
const kindOf = (state, page) => (!hasBytes(state) ? \"\" : page.sum === 0 ? \"zero\" : \"full\");
function contentText(state, page) {
  if (!hasBytes(state)) return \"holds what the RMM keeps there\";
  return page.sum === 0 ? \"all bytes zero\" : \"not zero, sum of its bytes \" + page.sum;
}
function granuleText(world, g) {
  const { state, build, realm } = world.granules[g], bytes = contentText(state, world.contents[g]);
  if (build === null) return \"granule \" + g + \", free; \" + bytes;
  const own = \"granule \" + g + \", page \" + world.numbers[g] + \" of build \" + build + \": \";
  const whose = realm === null ? \"\" : \", of the realm with RD \" + realm;
  return own + state + \", \" + MEANINGS[state] + whose + \"; \" + bytes;
}

const CELL = element(\"i\", \" \");
CELL.setAttribute(\"role\", \"gridcell\");
class Grid {
  constructor(place) {
    this.place = place;
    place.classList.add(SIZE);
    this.cells = Array.from({ length: pages }, () => CELL.cloneNode(true));
    if (SIZE === \"large\") this.cells.forEach((cell, g) => (cell.dataset.g = g));
    this.granuleOf = new Map(this.cells.map((cell, g) => [cell, g]));
    this.shown = Array(pages).fill(\"\");
    this.arrange();
  }
  arrange() {
    const columns = columnsNow(), rows = [];
    for (let g = 0; g < pages; g++) {
      if (g % columns === 0) rows.push(element(\"div\"));
      rows[rows.length - 1].append(this.cells[g]);
    }
    rows.forEach((row) => row.setAttribute(\"role\", \"row\"));
    this.place.style.setProperty(\"--columns\", columns);
    this.place.replaceChildren(...rows);
  }
  draw(world, marks) {
    for (let g = 0; g < pages; g++) {
      const { state, build, realm } = world.granules[g], page = world.contents[g], mark = marks(g);
      const shown = [state, build, realm, world.numbers[g], page.sum, mark].join(\" \");
      if (this.shown[g] === shown) continue;
      this.shown[g] = shown;
      this.drawCell(g, world, (build === null ? \"free\" : state) + \" \" + kindOf(state, page) + \" \" + mark);
    }
  }
  drawCell(g, world, className) {
    const cell = this.cells[g], { state, build } = world.granules[g];
    cell.className = className;
    cell.firstChild.data = build === null ? \"\" : SIZE === \"small\" || SIZE === \"tiny\" ? build : WORDS[state];
    if (build === null) cell.removeAttribute(\"data-b\");
    else cell.setAttribute(\"data-b\", build);
    cell.setAttribute(\"aria-label\", granuleText(world, g));
  }
  pick(g, isPicked) {
    const cell = this.cells[g];
    cell.classList.toggle(\"pick\", isPicked);
    cell.title = cell.getAttribute(\"aria-label\");
    cell.id = this.place.id + \"-\" + g;
    if (isPicked) this.place.setAttribute(\"aria-activedescendant\", cell.id);
  }
}
// Realms: the attributes of each realm, and its tables as a tree.
const folded = new Set(), NO_ROWS = [];
const endOf = (row) => row.first + row.count * COVERED[row.level];
const lastOf = (row) => row.granule + row.count - 1;
// Merges adjacent rows of one level whose granules are adjacent too, but not rows that the turn has changed.
function asRuns(rows, items) {
  const runs = [];
  for (const row of rows) {
    const last = runs[runs.length - 1], isNew = isIn(row, items);
    const isPlain = (it) => it && it.state !== \"TABLE\" && it.granule !== null && !it.isNew;
    const isNext = isPlain(last) && isPlain({ ...row, isNew })
      && [\"level\", \"state\", \"ripas\"].every((it) => last[it] === row[it])
      && endOf(last) === row.first && lastOf(last) + 1 === row.granule;
    if (isNext) last.count += row.count;
    else runs.push({ ...row, isNew });
  }
  return runs;
}
const isIn = (row, items) =>
  items.some((it) => it.level === row.level && it.first < endOf(row) && row.first < endOf(it));
function rangeText(row) {
  const last = endOf(row) - 1;
  return \"IPA \" + row.first + (row.first === last ? \"\" : \"\\u2013\" + last);
}
function rowLine(row) {
  const line = element(\"span\", undefined, row.isNew ? \"new\" : \"\");
  line.append(element(\"span\", \"L\" + row.level, \"level\"), \" \" + rangeText(row) + \": \" + row.state);
  line.firstChild.title = \"level \" + row.level;
  const granules = row.count === 1 ? \"granule \" + row.granule : \"granules \" + row.granule + \"\\u2013\" + lastOf(row);
  if (row.granule !== null) line.append(\" \\u2192 \" + granules);
  if (row.state !== \"TABLE\") line.append(\" \", element(\"span\", row.ripas, \"ripas \" + row.ripas));
  return line;
}
// The entry of a table, which a user can fold. The entry stays open or folded while the turns change.
function tableEntry(key, line) {
  const details = element(\"details\"), summary = element(\"summary\"), list = element(\"ul\");
  details.open = !folded.has(key);
  summary.dataset.key = key;
  summary.append(line);
  summary.addEventListener(\"click\", () => (details.open ? folded.add(key) : folded.delete(key)));
  details.append(summary, list);
  return { details, list };
}
// The rows as a tree by ascending address, in which the rows of a table are below its TABLE row.
function treeOf(b, rows, items) {
  const root = element(\"ul\", undefined, \"tree\"), stack = [{ level: 0, end: Infinity, list: root }];
  const top = () => stack[stack.length - 1];
  for (const row of asRuns(rows, items)) {
    while (row.level <= top().level || row.first >= top().end) stack.pop();
    const entry = element(\"li\"), line = rowLine(row);
    top().list.append(entry);
    if (row.state !== \"TABLE\") { entry.append(line); continue; }
    const { details, list } = tableEntry([b, row.level, row.first].join(\"/\"), line);
    entry.append(details);
    stack.push({ level: row.level, end: endOf(row), list });
  }
  return root;
}
function recText(rec) {
  const auxiliaries = rec.auxiliaries.length ? \", auxiliaries \" + rec.auxiliaries.join(\" \") : \"\";
  return \"REC \" + rec.number + \": \" + rec.state + \", granule \" + rec.granule + auxiliaries;
}
function realmBox(b, realm, items, isMarked) {
  const box = element(\"div\", undefined, \"realm\" + (isMarked ? \" differs\" : \"\")), head = element(\"h3\");
  const measured = element(\"p\", \"Measurement\", \"measured\");
  box.dataset.b = b;
  head.append(element(\"span\", b, \"tag\"), \" Realm of build \" + b + \": \" + realm.state);
  head.firstChild.dataset.b = b;
  const last = realm.table + realm.tables - 1;
  const tables = realm.tables === 1
    ? \"starting table \" + realm.table
    : \"starting tables \" + realm.table + \" to \" + last;
  measured.append(element(\"code\", realm.measurement));
  const ids = \"VMID \" + realm.vmid + \", RD \" + realm.rd + \", \" + realm.width + \" bits of IPA, \" + tables;
  box.append(head, element(\"p\", ids), measured);
  const recs = realm.recs.length ? realm.recs.map(recText).join(\"; \") : \"No REC\";
  box.append(element(\"p\", recs), treeOf(b, realm.rows, items));
  return box;
}

// The boxes of a world's realms. A box whose realm is as it was stays in its place, with its focus and its scroll.
class Realms {
  constructor(place) {
    this.place = place;
    this.slots = Array.from({ length: builds }, () => ({ shown: [], box: null }));
    this.none = element(\"p\", \"There is no realm.\", \"none\");
  }
  draw(realms, turn, isMarked) {
    const focused = this.place.contains(document.activeElement) ? document.activeElement.dataset.key : undefined;
    const folds = [...folded].join(\" \");
    realms.forEach((realm, b) => {
      const items = realm && turn !== null && turn.build === b && turn.rows ? turn.rows : NO_ROWS;
      const shown = realm ? [realm, items, isMarked(b), folds] : [];
      if (shown.length === this.slots[b].shown.length && shown.every((it, k) => it === this.slots[b].shown[k])) return;
      this.slots[b].shown = shown;
      this.replace(b, realm && realmBox(b, realm, items, isMarked(b)));
    });
    if (this.slots.every(({ box }) => box === null)) this.place.replaceChildren(this.none);
    else this.none.remove();
    if (focused) this.place.querySelector('[data-key=\"' + focused + '\"]')?.focus({ preventScroll: true });
  }
  replace(b, box) {
    const old = this.slots[b].box, next = this.slots.slice(b + 1).find((it) => it.box !== null);
    const top = old ? old.lastChild.scrollTop : 0;
    if (old) old.remove();
    if (box) this.place.insertBefore(box, next ? next.box : null);
    if (box && top) box.lastChild.scrollTop = top;
    this.slots[b].box = box;
  }
}
// The turn that is shown: its line, its reason, the machine after it, and the history up to it.
const refusedAt = new Map((data.refused || []).map((it) => [it.turn, it]));
const bare = (text, label) => (text.startsWith(label + \": \") ? text.slice(label.length + 2) : text);
const isRefused = (turn) => turn.accepted === false;
const lineOf = (turn) => turn.build + (turn.step === null ? \" - idle\" : \" \" + turn.step + \" = \" + turn.answer);

// The text of the turn at a place: the reason and the help of a refusal, or the event that it added to the history.
function reasonOf(at) {
  const turn = turns[at], found = refusedAt.get(at);
  if (turn.step === null) return { text: \"The build has no step left.\" };
  if (!isRefused(turn)) return { text: turn.event === null ? \"Nothing changes.\" : \"Event: \" + turn.event };
  return found
    ? { error: bare(found.error, \"error\"), help: found.help && bare(found.help, \"help\") }
    : { error: refusalText(turn) };
}
// A text in which each part between two backquotes becomes code.
const withCode = (text) => text.split(\"`\").map((part, k) => (k % 2 ? element(\"code\", part) : part));
function drawReason(reason) {
  const error = reason.error && [element(\"b\", \"error:\"), \" \", ...withCode(reason.error)];
  $(\"reason\").replaceChildren(...(error || [reason.text]));
  $(\"help\").replaceChildren(...(reason.help ? [element(\"b\", \"help:\"), \" \", ...withCode(reason.help)] : []));
}

// ---- the history

const entries = [];
function makeEntry(at) {
  const turn = turns[at], button = element(\"button\"), item = element(\"li\");
  button.type = \"button\";
  button.tabIndex = -1;
  button.title = \"Turn \" + (at + 1);
  button.append(element(\"span\", at + 1, \"turn\"), element(\"span\", turn.event === null ? lineOf(turn) : turn.event));
  button.addEventListener(\"click\", () => { stop(); show(at + 1); });
  item.append(button);
  entries.push({ at, button, isRefused: isRefused(turn) });
  return item;
}
function makeHistory() {
  const told = turns.map((_, at) => at).filter((at) => turns[at].event !== null || isRefused(turns[at]));
  $(\"history\").append(...told.map(makeEntry));
  if (!told.length) $(\"history\").append(element(\"li\", \"No command was asked for.\", \"none\"));
  else entries[0].button.tabIndex = 0;
}
let current = 0;
function drawHistory() {
  for (const { at, button, isRefused } of entries) {
    const isOut = out !== null && turns[at].build === out;
    button.className = (isRefused ? \"refused\" : \"\") + (at >= now ? \" later\" : \"\") + (isOut ? \" out\" : \"\");
  }
  if (!entries.length) return;
  const past = entries.findIndex(({ at }) => at >= now), last = past < 0 ? entries.length - 1 : past - 1;
  entries[current].button.removeAttribute(\"aria-current\");
  entries[current].button.tabIndex = -1;
  current = Math.max(0, last);
  entries[current].button.tabIndex = 0;
  if (last >= 0) entries[current].button.setAttribute(\"aria-current\", \"true\");
  reveal(entries[current].button);
}
function reveal(button) {
  const list = $(\"history\"), [inner, outer] = [button, list].map((it) => it.getBoundingClientRect());
  const isIn = outer.top <= inner.top && inner.bottom <= outer.bottom;
  if (!isIn) list.scrollTop += inner.top - outer.top - list.clientHeight / 2;
}

// ---- the builds

function buildRow(b, world, isNow) {
  const row = element(\"tr\", undefined, isNow ? \"now\" : \"\"), tag = element(\"span\", b, \"tag\"), realm = world.realms[b];
  const texts = [world.leased[b], world.open[b] + (world.aborting[b] ? \", aborting\" : \"\"),
    world.mark[b] === null ? \"-\" : \"at \" + world.mark[b],
    realm ? realm.state + \", VMID \" + realm.vmid : \"-\"];
  tag.dataset.b = b;
  const head = element(\"th\");
  head.scope = \"row\";
  head.append(tag);
  row.append(head, ...texts.map((text) => element(\"td\", text)));
  return row;
}
function drawBuilds(world, turn) {
  const rows = world.leased.map((_, b) => buildRow(b, world, turn !== null && turn.build === b));
  $(\"builds\").tBodies[0].replaceChildren(...rows);
  $(\"free\").textContent = counted(pages - world.leased.reduce((sum, n) => sum + n, 0), \"page\") + \" free\";
}

// ---- all of it

let now = 0, out = null;
const grid = new Grid($(\"grid\")), realms = new Realms($(\"realms\"));
function drawTurn(turn) {
  $(\"slider\").value = now;
  $(\"slider\").setAttribute(\"aria-valuetext\", \"turn \" + now + \" of \" + turns.length);
  $(\"count\").textContent = \"turn \" + now + \" of \" + turns.length;
  $(\"line\").textContent = turn ? lineOf(turn) : \"Before the first turn\";
  drawReason(turn ? reasonOf(now - 1) : { text: \"All pages are free and zero.\" });
  $(\"turn\").classList.toggle(\"refused\", turn !== null && isRefused(turn));
}
function drawRun(turn) {
  const world = everyone.after(now), changed = new Set(changedBy(turn, world));
  grid.draw(world, (g) => (changed.has(g) ? \"new\" : \"\"));
  realms.draw(world.realms, turn, () => false);
  drawBuilds(world, turn);
}
function draw() {
  const turn = now ? turns[now - 1] : null;
  drawTurn(turn);
  if (out === null) drawRun(turn);
  else drawCompared(turn);
  drawHistory();
  drawPicked();
  tellAddress();
}
function show(n) {
  now = Math.max(0, Math.min(turns.length, n));
  if (now === turns.length) stop();
  draw();
}
// A build left out: the run up to the turn that is shown, beside the same history without the events of that build.
let pair = null;
function makePair() {
  const grids = [new Grid($(\"run-grid\")), new Grid($(\"other-grid\"))];
  return { grids, realms: [new Realms($(\"run-realms\")), new Realms($(\"other-realms\"))] };
}
function differsIn(world, other) {
  return (g) => {
    const one = world.granules[g], two = other.granules[g];
    const isSame = one.state === two.state && one.build === two.build && one.realm === two.realm;
    return !isSame || !isSamePage(world.contents[g], other.contents[g]);
  };
}
function tellVerdict(world, granules, realms) {
  const isSame = granules + realms === 0, open = world.open[out];
  const hasBegun = turns.slice(0, now).some((turn) => turn.build === out && turn.event !== null);
  $(\"verdict\").className = isSame ? \"same\" : \"differ\";
  $(\"verdict\").textContent = isSame
    ? \"No difference: at this turn \" + (hasBegun ? \"nothing of build \" + out + \" is left\" : \"build \" + out + \" has done nothing yet\")
    : \"Build \" + out + \" makes a difference here: in \"
      + counted(granules, \"granule\") + \" and \" + counted(realms, \"realm\");
  $(\"verdict-why\").textContent = open === 0
    ? \"Build \" + out + \" has nothing open at this turn.\"
    : \"Build \" + out + \" has \" + counted(open, \"operation\") + \" open at this turn: what it holds is what differs.\"
      + \" After its abort there is no difference.\";
}
function drawCompared(turn) {
  pair = pair || makePair();
  const worlds = [everyone.after(now), othersOf[out].after(now)], differs = differsIn(...worlds);
  const marks = worlds[0].granules.map((_, g) => (differs(g) ? \"differs\" : \"\"));
  const [mine, theirs] = worlds.map((world) => world.realms.map((realm) => JSON.stringify(realm)));
  const isMarked = (b) => mine[b] !== theirs[b];
  worlds.forEach((world, k) => {
    pair.grids[k].draw(world, (g) => marks[g]);
    pair.realms[k].draw(world.realms, k === 0 || turn === null || turn.build !== out ? turn : null, isMarked);
  });
  tellVerdict(worlds[0], marks.filter(Boolean).length, mine.filter((_, b) => isMarked(b)).length);
  $(\"run-title\").textContent = now === turns.length
    ? \"The run, all \" + counted(now, \"turn\")
    : \"The run after turn \" + now;
  $(\"other-title\").textContent = \"The same history without build \" + out;
}
function leaveOut(build) {
  out = build;
  $(\"without\").value = build === null ? \"\" : build;
  $(\"compare\").hidden = build === null;
  $(\"machine-part\").hidden = $(\"realm-part\").hidden = build !== null;
  $(\"run\").classList.toggle(\"compared\", build !== null);
  (build === null ? $(\"grid\") : $(\"worlds\")).after($(\"key\"));
  draw();
}
// The address of the page names the turn that is shown, the build that is left out, and the theme. A link can ask for
// them, also in an open tab.
const DARK = matchMedia(\"(prefers-color-scheme: dark)\");
let themeAsked = null;
function setTheme(theme) {
  document.documentElement.dataset.theme = theme;
  $(\"theme\").textContent = theme === \"dark\" ? \"Light\" : \"Dark\";
}
function chooseTheme(theme) {
  themeAsked = theme;
  setTheme(theme);
}
// The number in a part of the address, if it is a count up to `most`.
function countIn(text, most) {
  return /^(0|[1-9][0-9]{0,5})$/.test(text) && Number(text) <= most ? Number(text) : undefined;
}
// Shows what an address asks for. A missing part asks for the default, and a wrong part is ignored. So is an address
// that has none of the parts.
function followAddress(hash) {
  const asked = new URLSearchParams(hash.slice(1));
  const [turn, build, theme] = [\"turn\", \"without\", \"theme\"].map((it) => asked.get(it));
  if (turn !== null || build !== null || theme !== null) {
    if (theme === \"dark\" || theme === \"light\") chooseTheme(theme);
    now = turn === null ? turns.length : countIn(turn, turns.length) ?? now;
    leaveOut(build === null ? null : countIn(build, builds - 1) ?? out);
  }
  tellAddress();
}
function addressNow() {
  const parts = { turn: now };
  if (out !== null) parts.without = out;
  if (themeAsked !== null) parts.theme = themeAsked;
  return \"#\" + new URLSearchParams(parts);
}
// Changes the address at once, and then at most four times a second, since browsers limit such changes.
let pending = null;
function tellAddress() {
  if (pending !== null) return;
  writeAddress();
  pending = setTimeout(() => { pending = null; writeAddress(); }, 250);
}
function writeAddress() {
  if (location.hash === addressNow()) return;
  try { history.replaceState(null, \"\", addressNow()); } catch { /* a browser that lets no page of a file do so */ }
}
// The controls, the keys, and the start of the page.
let playing = null;
function stop() {
  if (playing === null) return;
  clearInterval(playing);
  playing = null;
  $(\"play\").textContent = \"Play\";
  $(\"turn\").setAttribute(\"aria-live\", \"polite\");
}
function play() {
  if (playing !== null) { stop(); return; }
  if (now === turns.length) show(0);
  $(\"play\").textContent = \"Pause\";
  $(\"turn\").setAttribute(\"aria-live\", \"off\");
  playing = setInterval(() => show(now + 1), Math.max(40, Math.min(700, 60000 / Math.max(1, turns.length))));
}
function go(n) {
  stop();
  show(n);
}

// ---- the granule that is pointed at or gone to

let picked = null;
const gridsNow = () => (out === null ? [grid] : pair.grids);
const allGrids = () => (pair ? [grid, ...pair.grids] : [grid]);
function drawPicked() {
  if (picked === null) return;
  $(\"cell\").textContent = out === null
    ? granuleText(everyone.world, picked)
    : \"In the run: \" + granuleText(everyone.world, picked)
      + \". Without build \" + out + \": \" + granuleText(othersOf[out].world, picked);
}
function pick(g) {
  if (picked !== null) allGrids().forEach((it) => it.pick(picked, false));
  picked = g;
  gridsNow().forEach((it) => it.pick(g, true));
  drawPicked();
}
function pickAt(e) {
  const it = allGrids().find(({ place }) => place === e.currentTarget), g = it.granuleOf.get(e.target);
  if (g !== undefined) pick(g);
}
for (const id of [\"grid\", \"run-grid\", \"other-grid\"]) {
  $(id).addEventListener(\"mouseover\", pickAt);
  $(id).addEventListener(\"click\", pickAt);
  $(id).addEventListener(\"focus\", () => pick(picked === null ? 0 : picked));
}
function walk(step) {
  const g = (picked === null ? 0 : picked) + step;
  if (g >= 0 && g < pages) pick(g);
}
function walkHistory(step) {
  const at = entries.findIndex(({ button }) => button === document.activeElement) + step;
  if (entries[at]) { go(entries[at].at + 1); entries[at].button.focus(); }
}

// ---- keys: the same wherever the focus is

const TURNS = {
  ArrowLeft: () => go(now - 1), ArrowRight: () => go(now + 1), Home: () => go(0),
  End: () => go(turns.length), \" \": play,
  Escape: () => { stop(); leaveOut(null); }, t: () => $(\"theme\").click(), T: () => $(\"theme\").click(),
};
const WALKS = {
  ArrowLeft: () => walk(-1), ArrowRight: () => walk(1),
  ArrowUp: () => walk(-columnsNow()), ArrowDown: () => walk(columnsNow()),
};
const LIST = { ArrowUp: () => walkHistory(-1), ArrowDown: () => walkHistory(1) };
function actionOf(e) {
  const at = e.target instanceof Element ? e.target : document.body;
  const inGrid = at.closest(\".grid\"), inHistory = at.closest(\"#history\");
  if (inGrid && (e.shiftKey || e.key === \"ArrowUp\" || e.key === \"ArrowDown\") && WALKS[e.key]) return WALKS[e.key];
  if (inHistory && LIST[e.key]) return LIST[e.key];
  const build = countIn(e.key, builds - 1);
  if (build !== undefined) return () => leaveOut(out === build ? null : build);
  return TURNS[e.key];
}
document.addEventListener(\"keydown\", (e) => {
  const action = e.ctrlKey || e.metaKey || e.altKey ? undefined : actionOf(e);
  if (!action) return;
  e.preventDefault();
  e.stopPropagation();
  if (e.key !== \" \" || !e.repeat) action();
}, true);
// Keeps Space from pressing the button that has the focus when the key is let go.
document.addEventListener(\"keyup\", (e) => { if (e.key === \" \") e.preventDefault(); }, true);

// ---- the beginning

function addKey(sign, meaning) {
  const key = element(\"span\");
  key.append(sign, meaning);
  $(\"legend\").append(key);
}
function makeLegend() {
  const isSmall = SIZE === \"small\" || SIZE === \"tiny\";
  for (const state of Object.keys(WORDS)) {
    addKey(element(\"i\", isSmall ? \"\" : WORDS[state], state), state + \": \" + MEANINGS[state]);
  }
  addKey(element(\"i\", \"\", \"free\"), \"free\");
  if (!isSmall) addKey(element(\"i\", \"\", \"dot zero\"), \"all bytes zero\");
  addKey(element(\"i\", \"\", \"dot full\"), \"not zero\");
  const tag = element(\"i\", \"0\", \"tag\");
  tag.dataset.b = 0;
  addKey(tag, \"leased by build 0\");
}
function makeTitle() {
  if (!data.title) return;
  const title = data.title.replace(/`|\\*\\*/g, \"\");
  const [, first, rest] = title.match(/^(.*?[.!?])\\s+(\\S.*)$/s) || [null, title, \"\"];
  document.title = title;
  $(\"title\").textContent = first;
  $(\"about\").textContent = rest && !/[.!?]$/.test(rest) ? rest + \" \\u2026\" : rest;
}
function begin() {
  const s = run.settings, events = turns.filter((turn) => turn.event !== null).length;
  const sizes = [[s.pages, \"page\"], [s.vmids, \"VMID\"], [s.builds, \"build\"], [turns.length, \"turn\"], [events, \"event\"]];
  $(\"machine\").textContent = sizes.map(([n, one]) => counted(n, one)).join(\", \");
  $(\"run\").classList.add(SIZE);
  if ((data.refused || []).some((it) => it.help)) $(\"turn\").classList.add(\"helped\");
  for (let b = 0; b < builds; b++) $(\"without\").append(new Option(\"build \" + b, b));
  $(\"slider\").max = turns.length;
  setTheme(DARK.matches ? \"dark\" : \"light\");
  makeTitle();
  makeLegend();
  makeHistory();
  const asked = location.hash;
  show(turns.length);
  followAddress(asked);
}
$(\"slider\").addEventListener(\"input\", () => go(Number($(\"slider\").value)));
const BUTTONS = { first: TURNS.Home, back: TURNS.ArrowLeft, next: TURNS.ArrowRight, last: TURNS.End, play };
for (const [id, action] of Object.entries(BUTTONS)) $(id).addEventListener(\"click\", action);
$(\"theme\").addEventListener(\"click\", () => {
  chooseTheme(document.documentElement.dataset.theme === \"dark\" ? \"light\" : \"dark\");
  tellAddress();
});
$(\"without\").addEventListener(\"change\", () => leaveOut($(\"without\").value === \"\" ? null : Number($(\"without\").value)));
DARK.addEventListener(\"change\", () => { if (themeAsked === null) setTheme(DARK.matches ? \"dark\" : \"light\"); });
isNarrow.addEventListener(\"change\", () => allGrids().forEach((it) => it.arrange()));
addEventListener(\"hashchange\", (e) => followAddress(new URL(e.newURL).hash));
begin();
</script>
</body>
</html>
";
