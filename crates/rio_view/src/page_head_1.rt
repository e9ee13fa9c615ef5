//! The page of a trace: up to the fabric. Made from `share/page.html` by
//! `tests/view/embed.py --write`.

pub(crate) const HEAD_1: &[u8] = b"<!DOCTYPE html>
<html lang='en'>
<head>
<meta charset='utf-8'>
<meta name='viewport' content='width=device-width, initial-scale=1'>
<title>A trace of RapidIO links</title>
<style>
:root {
  color-scheme: light dark;
  --back: #fff; --text: #1b1b1b; --soft: #5a6068; --line: #c9ced6; --band: #e9edf3;
  --packet: #1257a5; --symbol: #444b55; --retry: #8a5a00; --fault: #b3141d; --way: #6a1b9a;
  --chosen: #fff3c4;
}
@media (prefers-color-scheme: dark) {
  :root {
    --back: #16181c; --text: #e8e8e8; --soft: #a5abb5; --line: #464c55; --band: #262b33;
    --packet: #7db4f5; --symbol: #b9c0ca; --retry: #e0a840; --fault: #ff7b80; --way: #d79bf5;
    --chosen: #3b351d;
  }
}
* { box-sizing: border-box; }
body { margin: 0; height: 100vh; display: flex; flex-direction: column; color: var(--text);
  background: var(--back); font: 13px/1.4 system-ui, sans-serif; }
h1 { font-size: 15px; margin: 0; }
h2 { font-size: 13px; margin: 0 0 4px; }
header { padding: 6px 10px; border-bottom: 1px solid var(--line); }
form { display: flex; flex-wrap: wrap; gap: 4px 14px; align-items: center; margin-top: 4px; }
form span { display: inline-flex; gap: 4px; align-items: center; }
input[type=number] { width: 7em; }
select { min-width: 9em; max-height: 5em; }
input, select, button { font: inherit; }
:focus-visible { outline: 3px solid var(--packet); outline-offset: 1px; }
#status { margin: 3px 0 0; color: var(--soft); min-height: 1.4em; }
main { flex: 1; min-height: 120px; display: flex; }
#pane { flex: 1; display: flex; min-width: 0; overflow: hidden; }
#ladder { flex: 0 0 auto; }
#list { flex: 1; min-width: 0; border-left: 1px solid var(--line); overflow: hidden; }
#bar { width: 26px; flex: none; cursor: pointer; border-left: 1px solid var(--line); }
table { border-collapse: collapse; }
#words { width: 100%; table-layout: fixed; }
#words td, #words th { height: 22px; padding: 0 6px; white-space: nowrap; overflow: hidden;
  text-overflow: ellipsis; text-align: left; font-weight: normal; }
#words th { width: 5.5em; text-align: right; color: var(--soft);
  font-variant-numeric: tabular-nums; }
#words .mark { width: 1.6em; padding: 0; font-weight: bold; text-align: center; }
#words tr { cursor: pointer; }
#words caption { position: absolute; left: -999em; }
tr.chosen { background: var(--chosen); outline: 1px solid var(--text); outline-offset: -1px; }
tr.way th { color: var(--way); font-weight: bold; text-decoration: underline; }
.fault { color: var(--fault); } .retry { color: var(--retry); } .event { font-weight: bold; }
aside { display: flex; height: 30vh; min-height: 110px; border-top: 1px solid var(--line); }
aside section { flex: 1; overflow: auto; padding: 6px 10px; border-right: 1px solid var(--line);
  min-width: 0; }
#detail code { overflow-wrap: anywhere; }
#ports td, #ports th { padding: 0 10px 0 0; text-align: left; }
#way ol { margin: 0; padding-left: 2em; }
#way button { border: 0; background: none; color: inherit; padding: 0; cursor: pointer;
  text-decoration: underline; text-align: left; vertical-align: top; }
svg text { font: 11px system-ui, sans-serif; fill: var(--text); }
svg .middle { text-anchor: middle; } svg .end { text-anchor: end; }
svg .life { stroke: var(--line); } svg .bandrect { fill: var(--band); }
svg .chosenrect { fill: var(--chosen); }
svg .head { font-weight: bold; text-anchor: middle; }
svg path { fill: none; stroke: var(--symbol); stroke-width: 1.2; }
svg .packet path { stroke: var(--packet); stroke-width: 2.4; }
svg .retry path { stroke: var(--retry); stroke-width: 1.6; stroke-dasharray: 8 3; }
svg .fault path { stroke: var(--fault); stroke-width: 1.8; stroke-dasharray: 4 3; }
svg .inside path { stroke: var(--soft); stroke-dasharray: 1 3; }
svg .tip { stroke-dasharray: none !important; }
svg .way path { stroke: var(--way); stroke-width: 3.4; }
svg .retry text { fill: var(--retry); } svg .fault text { fill: var(--fault); }
svg circle { fill: var(--symbol); } svg .fault circle { fill: var(--fault); }
svg .got circle { fill: none; stroke: var(--symbol); } svg .way circle { fill: var(--way); }
#key svg { vertical-align: middle; }
#key dl { margin: 4px 0; display: grid; grid-template-columns: 70px 1fr; gap: 2px 8px; }
#key dd { margin: 0; }
@media print {
  :root { --back: #fff; --text: #000; --soft: #333; --line: #999; --band: #eee; }
  body { height: auto; display: block; } form, #bar, #key, #status { display: none; }
  main, aside { display: block; height: auto; } #pane { overflow: visible; }
  aside section { overflow: visible; border: 0; }
}
</style>
</head>
<body>
<header>
<h1>A trace of RapidIO links</h1>
<form id='controls' action='#' onsubmit='return false'>
<span><label for='line'>Line</label> <input id='line' type='number' min='1'>
<button id='go' type='button'>Go</button></span>
<span><label for='find'>Find</label> <input id='find' type='search'>
<button id='next' type='button'>Next</button>
<button id='before' type='button'>Previous</button></span>
<span><label for='links'>Links</label> <select id='links' multiple size='2'></select></span>
<span><input id='faults' type='checkbox'> <label for='faults'>Only faults and retries</label></span>
<span><input id='same' type='checkbox'>
<label for='same'>Hide what came as it was sent</label></span>
<span><button id='lastfault' type='button'>Fault before</button>
<button id='nextfault' type='button'>Next fault</button></span>
</form>
<p id='status' role='status'></p>
</header>
<main>
<div id='pane' tabindex='0' role='region' aria-label='Lines of the trace. Arrow keys move.'>
<svg id='ladder' width='420' height='100' aria-hidden='true'></svg>
<div id='list'><table id='words'><caption>Lines in sight</caption>
<thead><tr><th scope='col'>line</th><td class='mark'></td><td>words</td></tr></thead>
<tbody><tr><td colspan='3'>The lines stand here.</td></tr></tbody></table></div>
</div>
<canvas id='bar' width='26' height='100' role='img'
aria-label='The whole trace, from top to bottom: where faults and retries are'></canvas>
</main>
<aside>
<section id='detail' aria-label='The chosen line' aria-live='polite' tabindex='0'></section>
<section id='states' aria-label='Ports at the chosen line' tabindex='0'></section>
<section id='way' aria-label='The way of the packet' tabindex='0'></section>
<section id='key' aria-label='Key' tabindex='0'>
<h2>Key</h2>
<dl>
<dt><svg aria-hidden='true' width='60' height='10' class='packet'>
<g class='packet'><path d='M2 5H56'/></g></svg></dt>
<dd>a packet, with its ackID</dd>
<dt><svg aria-hidden='true' width='60' height='10'>
<g><path d='M2 5H56'/></g></svg></dt>
<dd>a control symbol</dd>
<dt><svg aria-hidden='true' width='60' height='10'>
<g class='retry'><path d='M2 5H56'/></g></svg></dt>
<dd><b>~</b> a retry: no room, sent again</dd>
<dt><svg aria-hidden='true' width='60' height='10'>
<g class='fault'><path d='M2 5H56'/></g></svg></dt>
<dd><b>!</b> a fault: an edit, what is refused, recovery, a time-out</dd>
<dt><svg aria-hidden='true' width='60' height='10'>
<g class='inside'><path d='M2 5H56'/></g></svg></dt>
<dd>a move inside a switch</dd>
<dt><svg aria-hidden='true' width='60' height='10'>
<circle cx='10' cy='5' r='3'/><g class='got'>
<circle cx='40' cy='5' r='3'/></g></svg></dt>
<dd>full: a step at a port; open: it came as it was sent</dd>
<dt><svg aria-hidden='true' width='60' height='10'>
<g class='way'><path d='M2 5H56'/></g></svg></dt>
<dd>the way of the chosen packet</dd>
</dl>
<p>Keys: arrows, page and end keys move; <b>g</b> line, <b>/</b> find, <b>f</b> next fault,
<b>Enter</b> the way of a packet. A packet's way is also shown by a click.</p>
</section>
</aside>
<noscript><p>The script in this page shows the trace: let it run.</p></noscript>
<script type='application/json' id='fabric'>
";
