//! The beginning of a page.

/// What stands before the data.
pub(crate) const HEAD: &[u8] = b"<!doctype html>
<html lang='en'>
<head>
<meta charset='utf-8'>
<meta name='viewport' content='width=device-width'>
<title>History</title>
<style>
:root { color-scheme: light dark; --ink: #1b1f24; --paper: #ffffff; --soft: #6b7280; --line: #d0d5dc; --bar: #dbe7f7; --edge: #4a6fa5;
  --fault: #f8d7d4; --red: #b3261e; --order: #2e7d4f; --chosen: #ffe8a3; --panel: #f5f6f8; }
@media (prefers-color-scheme: dark) { :root { --ink: #e6e8eb; --paper: #15181c; --soft: #9aa3ad; --line: #363c44; --bar: #24364d; --edge: #7fa6dc;
  --fault: #4f211e; --red: #ff8a80; --order: #6fcf97; --chosen: #5c4a12; --panel: #1d2127; } }
* { box-sizing: border-box; }
html, body { height: 100%; margin: 0; }
body { display: flex; flex-direction: column; font: 13px/1.4 system-ui, sans-serif; color: var(--ink); background: var(--paper); }
header { display: flex; flex-wrap: wrap; align-items: center; gap: 6px 12px; padding: 8px 12px; border-bottom: 1px solid var(--line); background: var(--panel); }
#verdict { font-weight: 600; }
#verdict.bad { color: var(--red); }
#verdict.good { color: var(--order); }
button { font: inherit; color: inherit; background: var(--paper); border: 1px solid var(--line); border-radius: 4px; padding: 2px 8px; cursor: pointer; }
button:disabled { opacity: 0.4; cursor: default; }
.grow { flex: 1; }
.soft { color: var(--soft); }
#middle { flex: 1; min-height: 0; display: flex; }
#view { position: relative; flex: 1; min-width: 0; }
#scroll { position: absolute; inset: 0; overflow: auto; }
#screen { position: absolute; left: 0; top: 0; pointer-events: none; }
#panel { width: 320px; overflow: auto; padding: 8px 12px; border-left: 1px solid var(--line); background: var(--panel); }
#panel table { border-collapse: collapse; width: 100%; }
#panel td, #panel th { text-align: left; padding: 1px 6px 1px 0; font-weight: normal; vertical-align: top; overflow-wrap: anywhere; }
#panel th { color: var(--soft); }
#panel tr.changed td { background: var(--chosen); }
#tip { position: fixed; display: none; max-width: 360px; padding: 6px 8px; border: 1px solid var(--line); border-radius: 4px; background: var(--paper);
  box-shadow: 0 2px 8px #0004; white-space: pre-line; pointer-events: none; z-index: 2; }
</style>
</head>
<body>
<header>
<span id='verdict'></span>
<button id='fault' title='f'>first fault</button>
<button id='pending' title='u'></button>
<span class='grow'></span>
<span id='counts' class='soft'></span>
<button id='last' title='arrow left'>last entry</button>
<span id='place'></span>
<button id='next' title='arrow right'>next entry</button>
<button id='out' title='-'>zoom out</button>
<button id='in' title='+'>zoom in</button>
</header>
<div id='middle'>
<div id='view'><div id='scroll' tabindex='0'><div id='size'></div></div><canvas id='screen'></canvas></div>
<div id='panel'></div>
</div>
<div id='tip'></div>
<script type='application/json' id='data'>
";
