//! The style of the page: tools/make_viewer.py makes this file from viewer/.

/// Part 1 of the style.
pub(crate) fn style_1() -> &'static [u8] {
    b"
:root {
  color-scheme: light dark; --target: 0px;
  --paper: #fcfcfa; --panel: #ffffff; --ink: #1c1f23; --muted: #5a626d; --line: #dcdfe3; --edge: #868e97; --grid: #eceef0; --soft: #f2f3f1;
  --accent: #0b5fa5; --ok: #146c43; --ok-soft: #e2f3ea; --danger: #b3261e; --danger-soft: #fce8e6; --warn: #7a5200; --warn-soft: #fdf1d8;
  --now: #fff2c2; --now-edge: #d99e00; --string: #7a3e00;
  --block: #cfd4da; --block-high: #e9ecef; --block-line: #7d8690; --hit: #f7cdc9; --hit-line: #b3261e;
  --m: #0072b2; --a: #00805c; --s: #d55e00; --r: #b0509a; --x: #30343a; --e: #8a5a00; --probe: #111111;
}
@media (prefers-color-scheme: dark) {
  :root:not(.paper) {
    --paper: #16181b; --panel: #1c1f23; --ink: #e8e8e4; --muted: #a3abb5; --line: #343a41; --edge: #7d8690; --grid: #23272c; --soft: #23272c;
    --accent: #7dbdf5; --ok: #74d6a0; --ok-soft: #17301f; --danger: #ff8f86; --danger-soft: #3b1a18; --warn: #f0bf63; --warn-soft: #362a12;
    --now: #453a10; --now-edge: #e0b020; --string: #e6b684;
    --block: #363d45; --block-high: #4b545e; --block-line: #98a2ad; --hit: #6b2b27; --hit-line: #ff8f86;
    --m: #58b4ef; --a: #35c79a; --s: #ff9040; --r: #e79acb; --x: #d7d9dc; --e: #f0bf63; --probe: #ffffff;
  }
}
* { box-sizing: border-box; }
html, body { height: 100%; margin: 0; }
body { display: grid; grid-template-rows: auto auto 1fr auto; grid-template-columns: minmax(0, 1fr); background: var(--paper); color: var(--ink); font: 14px/1.45 system-ui, -apple-system, \"Segoe UI\", \"Noto Sans\", sans-serif; }
[hidden] { display: none !important; }
h1, h2, p, dl, ol, ul, figure, table { margin: 0; padding: 0; }
button, input, select { font: inherit; color: inherit; }
:focus-visible { outline: 2px solid var(--accent); outline-offset: 2px; }
.unseen { position: absolute; width: 1px; height: 1px; overflow: hidden; clip-path: inset(50%); }
.mono, code, .n, .number, .times { font-family: ui-monospace, \"SF Mono\", \"Cascadia Mono\", \"DejaVu Sans Mono\", monospace; font-variant-numeric: tabular-nums; }
"
}

/// Part 2 of the style.
pub(crate) fn style_2() -> &'static [u8] {
    b".note { padding: 10px 16px; background: var(--warn-soft); color: var(--warn); }
#not-tried { grid-row: 2; padding: 5px 16px; list-style: none; max-height: 6.4em; overflow: auto; font-size: 13px; overflow-wrap: anywhere; }

header { grid-row: 1; display: flex; align-items: center; gap: 6px 16px; flex-wrap: wrap; padding: 8px 16px; border-bottom: 1px solid var(--line); background: var(--panel); } h1 { min-width: 0; max-width: 100%; overflow: hidden; text-overflow: ellipsis; white-space: nowrap; } header #keys-open { margin-left: auto; }
h1 { font-size: 17px; font-weight: 650; letter-spacing: -0.01em; }
.verdict { padding: 2px 10px 2px 8px; border-radius: 6px; font-weight: 600; }
.verdict.ok { color: var(--ok); background: var(--ok-soft); } .verdict.bad { color: var(--danger); background: var(--danger-soft); } .verdict.warn { color: var(--warn); background: var(--warn-soft); }
.facts { color: var(--muted); flex: 1 1 20em; }
button { border: 1px solid var(--edge); border-radius: 6px; background: var(--panel); padding: 4px 10px; cursor: pointer; }
button:hover:not(:disabled) { border-color: var(--ink); }
button:disabled { color: var(--muted); opacity: 0.55; cursor: default; }

main { grid-row: 3; min-height: 0; display: grid; grid-template-columns: minmax(280px, 27%) minmax(0, 1fr) minmax(300px, 25%); grid-template-areas: \"program views state\"; }
#program { grid-area: program; contain: strict; overflow: auto; border-right: 1px solid var(--line); padding: 6px 0 40px; background: var(--panel); }
#views { grid-area: views; display: grid; grid-template-rows: auto 1fr auto; min-height: 0; position: relative; }
#state { grid-area: state; contain: strict; container-type: inline-size; overflow: auto; border-left: 1px solid var(--line); padding: 0 16px 24px; background: var(--panel); }
.tabs { display: none; }

.piece { height: calc(var(--lines) * 20.5px); min-width: calc(var(--longest) * 7.55px + 60px); contain: size layout style; }
"
}

/// Part 3 of the style.
pub(crate) fn style_3() -> &'static [u8] {
    b".plain { margin: 0; padding-left: 63px; font: 12.5px/20.5px ui-monospace, \"SF Mono\", \"Cascadia Mono\", \"DejaVu Sans Mono\", monospace; }
.line { display: grid; grid-template-columns: 44px 16px auto auto 1fr; align-items: baseline; height: 20.5px; padding-right: 12px; white-space: pre; font-size: 12.5px; border-left: 3px solid transparent; cursor: default; }
.line.ran { border-left-color: color-mix(in srgb, var(--ok) 45%, transparent); }
.line.idle { border-left-color: var(--line); }
.line:hover { background: var(--soft); }
.number { color: var(--muted); text-align: right; padding-right: 6px; font-size: 11.5px; user-select: none; }
.line .sign { font-size: 10px; text-align: center; user-select: none; } .sign.stop { color: var(--danger); font-weight: 700; } .sign.touch { color: var(--s); } .sign.notice, .sign.untried { color: var(--warn); font-weight: 700; } .line.untried { border-left-color: var(--warn); } .line.untried:not(.now) { background: var(--warn-soft); }
.line code i { color: var(--muted); } .line code q { color: var(--string); quotes: none; }
.line.idle code { color: var(--muted); }
.times { color: var(--muted); font-size: 11px; padding-left: 10px; user-select: none; }
.line .done { color: var(--muted); padding-left: 14px; font-size: 12px; font-style: italic; }
.line.pointed { background: var(--now); outline: 2px solid var(--now-edge); outline-offset: -2px; }
.line.now { background: var(--now); border-left-color: var(--now-edge); }
.line.now .done, .line.now .times, .line.now .number { color: var(--ink); }
.line.now.bad { background: var(--danger-soft); border-left-color: var(--danger); } .line.now.bad .done { color: var(--danger); }
.line.next .number::before { content: \"\\25B8\\00A0\"; color: var(--now-edge); }

.bar { display: flex; flex-wrap: wrap; gap: 6px 14px; padding: 7px 10px; }
.choice { display: inline-flex; border: 1px solid var(--edge); border-radius: 7px; overflow: hidden; background: var(--panel); }
.choice label { position: relative; cursor: pointer; }
"
}

/// Part 4 of the style.
pub(crate) fn style_4() -> &'static [u8] {
    b".choice input { position: absolute; inset: 0; opacity: 0; margin: 0; cursor: pointer; }
.choice span { display: block; padding: 3px 11px; font-size: 13px; color: var(--muted); }
.choice label + label span { border-left: 1px solid var(--edge); }
.choice input:checked + span { background: var(--accent); color: var(--panel); font-weight: 600; }
.choice input:focus-visible + span { outline: 2px solid var(--accent); outline-offset: -4px; } .choice input:checked:focus-visible + span { outline-color: var(--panel); }
.sheets { display: grid; grid-template-columns: 1fr 1fr; grid-template-rows: 1fr 1fr; gap: 1px; background: var(--line); border-block: 1px solid var(--line); min-height: 0; }
figure { position: relative; background: var(--paper); min-width: 0; min-height: 0; overflow: hidden; }
figure canvas { position: absolute; inset: 0; width: 100%; height: 100%; touch-action: none; cursor: grab; } figure canvas:active { cursor: grabbing; } figure canvas.found { cursor: pointer; }
figure .gl { pointer-events: none; }
figcaption { position: absolute; z-index: 2; left: 8px; top: 6px; font-weight: 600; font-size: 12px; pointer-events: none; text-shadow: 0 0 3px var(--paper), 0 0 3px var(--paper), 0 0 3px var(--paper); } figcaption small { font-weight: 400; color: var(--muted); font-size: 11px; }
.here { display: none; position: absolute; z-index: 3; right: 10px; top: 52px; padding: 6px 10px; border: 1px solid var(--line); border-radius: 8px; background: color-mix(in srgb, var(--panel) 88%, transparent); font-size: 12.5px; pointer-events: none; white-space: pre; } .here .bad { color: var(--danger); }
#state-open { display: none; padding: 2px 11px; font-size: 13px; } #state-open[aria-pressed=\"true\"] { background: var(--accent); border-color: var(--accent); color: var(--panel); font-weight: 600; }
#to-met { min-width: 0; padding: 0 10px; letter-spacing: 0; font-size: 13px; color: var(--danger); white-space: nowrap; }
"
}

/// Part 5 of the style.
pub(crate) fn style_5() -> &'static [u8] {
    b".turns { position: absolute; right: 6px; bottom: 6px; display: flex; gap: 3px; z-index: 2; } .turns button { padding: 0 7px; font-size: 12px; opacity: 0.75; } .turns button:hover, .turns button:focus-visible { opacity: 1; }
figure.none::after { content: \"This browser has no WebGL: the other three views show the same.\"; position: absolute; inset: 30% 12%; color: var(--muted); text-align: center; } figure.none .turns { display: none; }
#views:not([data-view=\"all\"]) .sheets { grid-template: 1fr / 1fr; } #views:not([data-view=\"all\"]) figure { display: none; }
#views[data-view=\"top\"] [data-sheet=\"top\"], #views[data-view=\"front\"] [data-sheet=\"front\"], #views[data-view=\"side\"] [data-sheet=\"side\"], #views[data-view=\"solid\"] [data-sheet=\"solid\"] { display: block; }
.legend { display: flex; flex-wrap: wrap; gap: 2px 13px; padding: 5px 12px; color: var(--muted); font-size: 12px; }
.key::before { content: \"\"; display: inline-block; width: 18px; vertical-align: middle; margin-right: 5px; border-top: 2px solid; }
.key.m::before { border-color: var(--m); } .key.a::before { border-color: var(--a); border-top-style: dashed; } .key.s::before { border-color: var(--s); border-top-width: 3px; } .key.r::before { border-color: var(--r); border-top-style: dotted; } .key.x::before { border-color: var(--x); border-top-style: dashed; border-top-width: 1px; } .key.e::before { border-color: var(--e); border-top-style: dashed; }
.key.turn::before { border-color: var(--muted); border-top-style: dotted; border-top-width: 2px; } .key.dot::before { width: 8px; height: 8px; border: 0; border-radius: 50%; background: var(--s); } .key.ring::before { width: 9px; height: 9px; border: 2px solid var(--probe); border-radius: 50%; }
.tip { position: absolute; z-index: 5; max-width: 420px; padding: 3px 8px; border-radius: 5px; background: var(--ink); color: var(--paper); font-size: 12px; pointer-events: none; }

#state section { padding: 10px 0 11px; border-bottom: 1px solid var(--line); } #state section:last-child { border-bottom: 0; }
"
}

/// Part 6 of the style.
pub(crate) fn style_6() -> &'static [u8] {
    b"#state h2 { font-size: 12px; font-weight: 600; color: var(--muted); margin-bottom: 4px; } .count { font-weight: 400; }
#state .step h2 { font-size: 14px; color: var(--ink); }
.step .done { overflow-wrap: anywhere; min-height: 2.9em; } .done.bad { color: var(--danger); font-weight: 600; } .done.ok { color: var(--ok); } .done.warn { color: var(--warn); font-weight: 600; } .lost { display: block; color: var(--warn); font-weight: 600; }
#state .why { margin: 10px 0 2px; padding: 9px 11px 10px; border: 1px solid color-mix(in srgb, var(--danger) 35%, transparent); border-left: 4px solid var(--danger); border-radius: 8px; } #state .why h2 { display: flex; flex-wrap: wrap; gap: 0 8px; font-size: 14px; color: var(--danger); margin: 0 0 4px; } #state .why.away h2 { margin: 0; } .why.away > :not(h2) { display: none; }
#why-lines { list-style: none; font-size: 13px; } #why-lines li { display: grid; grid-template-columns: 64px minmax(0, 1fr); padding: 1px 0; overflow-wrap: anywhere; } .why code { font-size: 12px; } .why .free { margin-top: 6px; padding: 5px 8px; background: var(--soft); border-radius: 6px; font-size: 13px; } #why-others { font-size: 13px; } #why-others p { margin-top: 4px; }
.list { max-height: 312px; overflow: auto; outline-offset: -2px; overscroll-behavior: auto; } .list ol { list-style: none; margin: 0; padding: 0; } th.group { padding-top: 6px; color: var(--muted); font-family: inherit; font-size: 12px; }
.raw { font: 12px ui-monospace, \"DejaVu Sans Mono\", monospace; color: var(--muted); overflow-wrap: anywhere; } dd.bad, td.bad { color: var(--danger); font-weight: 600; }
.rows { display: grid; grid-template-columns: auto 1fr; gap: 2px 14px; } .rows dt { color: var(--muted); } .rows dd { margin: 0; overflow-wrap: anywhere; } .rows .mono { font-size: 12px; white-space: pre; }
"
}

/// Part 7 of the style.
pub(crate) fn style_7() -> &'static [u8] {
    b"#places { font-size: 12px; margin-bottom: 4px; } #places th { color: var(--muted); font-family: inherit; font-size: 13px; } #places :is(th, td).n { padding-left: 6px; } #places td { overflow-wrap: anywhere; } #places .bad { color: var(--danger); font-weight: 600; }
#places:is(.wide, .tall) thead { display: none; } #places:is(.wide, .tall) tr { display: grid; grid-template-columns: repeat(3, 1fr); } #places:is(.wide, .tall) th { grid-column: 1 / -1; padding-bottom: 0; } #places:is(.wide, .tall) td { padding-top: 0; }
#places.tall tr { grid-template-columns: 1fr; } #places.tall td::before { content: attr(data-axis); float: left; color: var(--muted); padding-left: 12px; }
@container (max-width: 400px) {
  #points thead { display: none; } #points tr { display: grid; grid-template-columns: repeat(3, 1fr); padding-bottom: 3px; } #points td:last-child { grid-area: 1 / 3; } #points .off { grid-area: 1 / 2; } #points .off:not(:empty)::before { content: \"off \"; color: var(--muted); }
}
.rows small { color: var(--muted); }
table { border-collapse: collapse; width: 100%; font-size: 13px; } th, td { text-align: left; padding: 2px 8px 2px 0; font-weight: 400; } thead th, thead th.n { color: var(--muted); font-size: 11.5px; font-family: inherit; } th.n, td.n { text-align: right; padding-right: 0; padding-left: 8px; }
tbody th { font-family: ui-monospace, \"DejaVu Sans Mono\", monospace; } #points { font-size: 11.5px; } #points th, #points td { padding-left: 0; padding-right: 4px; } #points td:last-child, #points th:last-child { padding-right: 0; }
.changed th, .changed td, dd.changed, li.changed { background: var(--now); } .quietly { color: var(--muted); }
.jump { border: 0; background: none; padding: 0 2px; color: var(--accent); text-decoration: underline; text-decoration-color: color-mix(in srgb, var(--accent) 40%, transparent); text-underline-offset: 2px; text-align: left; overflow-wrap: anywhere; } td .jump { white-space: nowrap; }
"
}

/// Part 8 of the style.
pub(crate) fn style_8() -> &'static [u8] {
    b"#output { font-size: 12px; } .list thead { position: sticky; top: 0; background: var(--panel); } #output li { display: grid; grid-template-columns: minmax(1.8em, auto) 1fr; gap: 0 4px; padding: 1px 0; } #output .jump { color: var(--ink); text-decoration: none; font-family: ui-monospace, \"DejaVu Sans Mono\", monospace; } #output .jump:hover { text-decoration: underline; }
#notices { padding-left: 1.1em; }
#variables-filter { width: 100%; margin: 2px 0 6px; padding: 4px 8px; border: 1px solid var(--edge); border-radius: 6px; background: var(--paper); }

footer { grid-row: 4; display: grid; grid-template-columns: auto 1fr auto; gap: 4px 18px; align-items: center; padding: 8px 16px 10px; border-top: 1px solid var(--line); background: var(--panel); }
.buttons { display: flex; flex-wrap: wrap; align-items: center; gap: 4px; } .buttons button { min-width: 38px; padding: 0 6px; font-size: 12px; letter-spacing: -1px; } #play { min-width: 50px; background: var(--accent); border-color: var(--accent); color: var(--panel); }
.speed { margin-left: 8px; color: var(--muted); } select, input[type=\"number\"] { border: 1px solid var(--edge); border-radius: 6px; background: var(--paper); padding: 3px 6px; }
.time { position: relative; } #profile { display: block; width: 100%; height: 42px; cursor: pointer; touch-action: none; } #slider { display: block; width: 100%; margin: 0; height: 18px; accent-color: var(--accent); }
.where { white-space: nowrap; color: var(--muted); } input[type=\"number\"] { width: 5.6em; text-align: right; color: var(--ink); }
dialog { border: 1px solid var(--line); border-radius: 12px; background: var(--panel); color: var(--ink); max-width: 520px; padding: 20px 24px; } dialog::backdrop { background: rgb(0 0 0 / 0.4); } dialog h2 { font-size: 17px; margin-bottom: 8px; } dialog p { margin: 10px 0; } dialog form { text-align: right; } dialog td:first-child { white-space: nowrap; }
"
}

/// Part 9 of the style.
pub(crate) fn style_9() -> &'static [u8] {
    b"kbd { display: inline-block; min-width: 22px; padding: 0 5px; text-align: center; border: 1px solid var(--line); border-bottom-width: 2px; border-radius: 5px; font: inherit; font-size: 12px; background: var(--paper); }

@media (max-width: 1150px) and (min-width: 901px) { main { grid-template-columns: minmax(240px, 25%) minmax(0, 1fr) 300px; } }
@media (max-width: 900px) {
  body { font-size: 15px; }
  header { padding: 8px 12px; } .facts { order: 3; flex-basis: 100%; font-size: 12.5px; } #keys-open { margin-left: auto; } h1 { font-size: 16px; } .verdict { order: 2; width: 100%; font-size: 13.5px; }
  main { grid-template-columns: 1fr; grid-template-rows: 44% auto minmax(0, 1fr); grid-template-areas: \"views\" \"tabs\" \"panel\"; }
  .tabs { grid-area: tabs; display: flex; border-block: 1px solid var(--line); background: var(--panel); } .tabs button { flex: 1; border: 0; border-radius: 0; min-height: 40px; color: var(--muted); border-bottom: 2px solid transparent; } .tabs button[aria-pressed=\"true\"] { color: var(--ink); font-weight: 600; border-bottom-color: var(--accent); }
  #program, #state { grid-area: panel; border: 0; } body[data-panel=\"program\"] #state, body[data-panel=\"state\"] #program { display: none; }
  .bar { padding: 5px 8px; justify-content: space-between; gap: 4px; } .choice span { padding: 5px 8px; font-size: 12.5px; } .legend { display: none; }
  footer { grid-template-columns: minmax(0, 1fr) auto; gap: 4px 8px; padding: 6px 12px calc(8px + env(safe-area-inset-bottom)); } .time { grid-row: 1; grid-column: 1 / 3; } .buttons button { min-height: 42px; min-width: 40px; } #play { min-width: 50px; } .speed { display: none; } #profile { height: 30px; } .where { font-size: 13px; } .where input[type=\"number\"] { width: 5.2em; }
}
/* what is pressed is large enough for a finger */
@media (max-width: 900px) { :root:not(.framed) { --target: 36px; } }
@media (max-width: 640px), (pointer: coarse) { :root { --target: 36px; } }
"
}

/// Part 10 of the style.
pub(crate) fn style_10() -> &'static [u8] {
    b"button, select, input[type=\"number\"], #variables-filter { min-height: max(30px, var(--target)); } .choice span { min-height: var(--target); min-width: var(--target); display: grid; place-items: center; } :is(.turns button, #state-open) { min-height: max(26px, var(--target)); min-width: var(--target); } .buttons button { min-height: max(34px, var(--target)); } .jump { min-height: var(--target); min-width: var(--target); } td .jump { text-align: right; } #why-lines li { align-items: center; }
/* within the page for browsers, which has the program and the verdict itself */
.framed :is(header, #program, .tabs) { display: none; } .framed .here, .framed #state-open { display: block; } .framed body[data-panel=\"state\"] .here { display: none; } .framed #state-open { margin-left: auto; }
.framed main { grid-template: minmax(0, 1fr) / minmax(0, 1fr); grid-template-areas: \"views\"; } .framed #views { grid-area: views; } .framed body #state { display: none; grid-area: state; border-left: 1px solid var(--line); }
.framed body[data-panel=\"state\"] main { grid-template-columns: minmax(0, 1fr) minmax(300px, 34%); grid-template-areas: \"views state\"; } .framed body[data-panel=\"state\"] #state { display: block; }
.framed footer { grid-template-columns: minmax(0, 1fr) auto; gap: 4px 8px; padding: 6px 12px 8px; } .framed .time { grid-row: 1; grid-column: 1 / -1; } .framed .bar { justify-content: flex-start; gap: 6px 8px; } .framed .choice span { padding-inline: 8px; }
.framed.bare :is(footer, .legend, .here, #state-open) { display: none; }
@media (max-width: 640px) { .framed body[data-panel=\"state\"] main { grid-template: minmax(0, 1fr) minmax(0, 45%) / minmax(0, 1fr); grid-template-areas: \"views\" \"state\"; } .framed body[data-panel=\"state\"] #state { border-left: 0; border-top: 1px solid var(--line); } .framed .here { top: 98px; font-size: 11.5px; padding: 3px 7px; } .framed .legend { display: none; } }
@media (max-width: 430px) { footer { grid-template-columns: minmax(0, 1fr); } .time { grid-column: 1; } }
"
}

/// Part 11 of the style.
pub(crate) fn style_11() -> &'static [u8] {
    b"@media (prefers-reduced-motion: reduce) { * { scroll-behavior: auto !important; transition: none !important; } }
@media print {
  @page { margin: 12mm; }
  :root, :root:not(.framed) { --target: 0px; }
  html, body { height: auto; } body { display: block; background: #fff; font-size: 10pt; }
  header, #program, #state { background: none; } header { padding: 0 0 6pt; border-bottom: 1pt solid #000; } .verdict { border: 1pt solid; }
  #keys-open, footer, .bar, .tabs, .turns, .jump[data-step]::after, figcaption small { display: none !important; }
  main { display: flex; flex-direction: column; } #state { order: 1; } #program { order: 2; }
  #views { display: block; break-inside: avoid; margin: 8pt 0; } .sheets { height: 150mm; } figure canvas { print-color-adjust: exact; }
  #program, #state { contain: none; container-type: normal; } #state { display: block !important; columns: 2; padding: 0; border: 0; overflow: visible; } #state section { break-inside: avoid; } .list { max-height: none; overflow: visible; } .jump { color: inherit; text-decoration: none; }
  #program { display: block !important; overflow: visible; border: 0; border-top: 1pt solid #000; padding-top: 6pt; } .piece { height: auto; min-width: 0; contain: none; } .line { height: auto; white-space: pre-wrap; break-inside: avoid; grid-template-columns: 44px 16px minmax(0, auto) auto 1fr; } .line.now { print-color-adjust: exact; }
}
"
}
