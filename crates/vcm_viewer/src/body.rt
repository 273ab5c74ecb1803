//! The elements of the page, with the sums of its style and of its script: tools/make_viewer.py makes this file from viewer/.

/// Part 1 of what stands before the style.
pub(crate) fn head_1() -> &'static [u8] {
    b"<!doctype html>
<html lang=\"en\">
<head>
<meta charset=\"utf-8\">
<meta http-equiv=\"Content-Security-Policy\" content=\"default-src 'none'; script-src 'sha256-pzIOcTSaJ0TyJ47hR9OumN72DEKD1POej4BX8mlDZSM='; style-src 'sha256-LtivpBrPwpzyqQpjD/zbtDgwPh6S9dRymkreRXOggXU='; base-uri 'none'; form-action 'none'\">
<meta name=\"viewport\" content=\"width=device-width, initial-scale=1\">
<meta name=\"color-scheme\" content=\"light dark\">
<title>vcm view</title>
<style>"
}

/// Part 1 of what stands between the style and the story.
pub(crate) fn middle_1() -> &'static [u8] {
    b"</style>
</head>
<body data-panel=\"program\">
<header>
  <h1 id=\"title\">vcm view</h1>
  <p id=\"verdict\" class=\"verdict\"></p>
  <p id=\"facts\" class=\"facts\"></p>
  <button type=\"button\" id=\"keys-open\" class=\"quiet\" aria-haspopup=\"dialog\">Keys</button>
</header>
<noscript><p class=\"note\">This page needs JavaScript to show the run. It loads nothing from a network.</p></noscript>
<p id=\"fault\" class=\"note\" role=\"alert\" hidden></p>
<ul id=\"not-tried\" class=\"note\" aria-label=\"What wasn't tried\" hidden></ul>
<main>
  <section id=\"views\" aria-label=\"Workpiece and way of the probe\" data-view=\"all\">
    <div class=\"bar\">
      <div class=\"choice\" role=\"radiogroup\" aria-label=\"View\">
        <label><input type=\"radio\" name=\"view\" value=\"all\" checked><span>All</span></label>
        <label><input type=\"radio\" name=\"view\" value=\"solid\"><span>3D</span></label>
        <label><input type=\"radio\" name=\"view\" value=\"top\"><span>Top</span></label>
        <label><input type=\"radio\" name=\"view\" value=\"front\"><span>Front</span></label>
        <label><input type=\"radio\" name=\"view\" value=\"side\"><span>Side</span></label>
      </div>
      <div class=\"choice\" role=\"radiogroup\" aria-label=\"What is in view\">
        <label title=\"home, all blocks and the whole way\"><input type=\"radio\" name=\"fit\" value=\"all\" checked><span>Whole</span></label>
        <label title=\"the blocks\"><input type=\"radio\" name=\"fit\" value=\"part\"><span>Part</span></label>
        <label title=\"follows the probe closely\"><input type=\"radio\" name=\"fit\" value=\"probe\"><span>Probe</span></label>
      </div>
      <button type=\"button\" id=\"state-open\" aria-pressed=\"false\" title=\"Variables, points, output and settings behind this step\">State</button>
    </div>
    <div class=\"sheets\">
      <figure data-sheet=\"top\"><figcaption>Top <small>X right, Y up</small></figcaption><canvas role=\"img\"></canvas></figure>
"
}

/// Part 2 of what stands between the style and the story.
pub(crate) fn middle_2() -> &'static [u8] {
    b"      <figure data-sheet=\"solid\"><figcaption>3D <small>drag to turn</small></figcaption><canvas class=\"gl\" aria-hidden=\"true\"></canvas><canvas class=\"over\" role=\"img\"></canvas>
        <div class=\"turns\"><button type=\"button\" data-turn=\"left\" aria-label=\"Turn left\">&#8592;</button><button type=\"button\" data-turn=\"right\" aria-label=\"Turn right\">&#8594;</button><button type=\"button\" data-turn=\"up\" aria-label=\"Look from higher\">&#8593;</button><button type=\"button\" data-turn=\"down\" aria-label=\"Look from lower\">&#8595;</button></div></figure>
      <figure data-sheet=\"front\"><figcaption>Front <small>X right, Z up</small></figcaption><canvas role=\"img\"></canvas></figure>
      <figure data-sheet=\"side\"><figcaption>Right side <small>Y right, Z up</small></figcaption><canvas role=\"img\"></canvas></figure>
    </div>
    <p class=\"here\" id=\"here\" aria-hidden=\"true\"></p>
    <p class=\"legend\" id=\"legend\"></p>
    <p class=\"tip\" id=\"tip\" hidden></p>
  </section>
  <nav class=\"tabs\" aria-label=\"Panel\">
    <button type=\"button\" data-panel=\"program\" aria-pressed=\"true\">Program</button>
    <button type=\"button\" data-panel=\"state\" aria-pressed=\"false\">State</button>
  </nav>
  <section id=\"program\" aria-label=\"Program text\" tabindex=\"0\"></section>
  <aside id=\"state\" aria-label=\"State behind this step\" tabindex=\"0\">
    <section id=\"why-card\" class=\"why\" aria-labelledby=\"why-title\" hidden><h2><span id=\"why-title\">Why it stops here</span> <button type=\"button\" id=\"why-to\" class=\"jump\" hidden>at its step</button></h2><ol id=\"why-lines\"></ol><p id=\"why-free\" class=\"free\" hidden></p><div id=\"why-others\"></div></section>
    <section class=\"step\"><h2 id=\"step-title\"></h2><p id=\"step-done\" class=\"done\"></p><p id=\"step-line\" class=\"raw\"></p></section>
    <section><h2>Probe</h2><table id=\"places\"><thead><tr><td></td><th scope=\"col\" class=\"n\">X</th><th scope=\"col\" class=\"n\">Y</th><th scope=\"col\" class=\"n\">Z</th></tr></thead><tbody></tbody></table><dl id=\"probe\" class=\"rows\"></dl></section>
"
}

/// Part 3 of what stands between the style and the story.
pub(crate) fn middle_3() -> &'static [u8] {
    b"    <section id=\"variables-section\"><h2>Variables</h2><input type=\"search\" id=\"variables-filter\" placeholder=\"Find a variable\" aria-label=\"Find a variable\" hidden><div class=\"list\" id=\"variables-list\" tabindex=\"0\" role=\"group\" aria-label=\"Variables\"><table id=\"variables\"><thead><tr><th scope=\"col\">Name</th><th scope=\"col\" class=\"n\">Value</th><th scope=\"col\" class=\"n\">Set at step</th></tr></thead></table></div></section>
    <section id=\"points-section\"><h2>Measured points <span id=\"points-count\" class=\"count\"></span></h2><div class=\"list\" id=\"points-list\" tabindex=\"0\" role=\"group\" aria-label=\"Measured points\"><table id=\"points\"><thead><tr><th scope=\"col\">Name</th><th scope=\"col\" class=\"n\">X</th><th scope=\"col\" class=\"n\">Y</th><th scope=\"col\" class=\"n\">Z</th><th scope=\"col\" class=\"n\">Deviation</th><th scope=\"col\" class=\"n\">Step</th></tr></thead></table></div></section>
    <section id=\"boxes-section\"><h2>Boxes of the probe</h2><div class=\"list\" id=\"boxes-list\" tabindex=\"0\" role=\"group\" aria-label=\"Boxes of the probe\"><table id=\"boxes\"><thead><tr><th scope=\"col\">Name</th><th scope=\"col\">Contact, or room</th><th scope=\"col\" class=\"n\">Step</th></tr></thead></table></div></section>
    <section id=\"output-section\"><h2>Output <span id=\"output-count\" class=\"count\"></span></h2><div class=\"list\" id=\"output\" tabindex=\"0\" role=\"group\" aria-label=\"Output\"></div></section>
    <section><h2>Settings</h2><dl id=\"settings\" class=\"rows\"></dl></section>
    <section id=\"notices-section\"><h2>Notices</h2><ul id=\"notices\"></ul></section>
  </aside>
</main>
<footer aria-label=\"Steps of the run\">
  <div class=\"buttons\">
    <button type=\"button\" id=\"to-start\" aria-label=\"To the start\" title=\"To the start (Home)\">&#124;&#9664;</button>
    <button type=\"button\" id=\"step-back\" aria-label=\"One step back\" title=\"One step back (left arrow)\">&#9664;</button>
    <button type=\"button\" id=\"play\" aria-label=\"Play\" title=\"Play (space)\">&#9654;</button>
"
}

/// Part 4 of what stands between the style and the story.
pub(crate) fn middle_4() -> &'static [u8] {
    b"    <button type=\"button\" id=\"step-on\" aria-label=\"One step on\" title=\"One step on (right arrow)\">&#9654;&#124;</button>
    <button type=\"button\" id=\"to-end\" aria-label=\"To the end\" title=\"To the end (End)\">&#9654;&#9654;</button>
    <button type=\"button\" id=\"to-met\" hidden></button>
    <label class=\"speed\">Speed <select id=\"speed\"><option value=\"0.25\">&#188;</option><option value=\"1\" selected>1</option><option value=\"4\">4</option><option value=\"16\">16</option><option value=\"64\">64</option></select></label>
  </div>
  <div class=\"time\">
    <canvas id=\"profile\" aria-hidden=\"true\" title=\"How high the probe is behind each step; dots are measured points, ticks are output lines\"></canvas>
    <input type=\"range\" id=\"slider\" min=\"0\" max=\"1\" value=\"0\" aria-label=\"Step\">
  </div>
  <p class=\"where\"><label>Step <input type=\"number\" id=\"number\" min=\"0\" value=\"0\"></label> <span id=\"of\"></span></p>
</footer>
<p id=\"said\" class=\"unseen\" role=\"status\" aria-live=\"polite\"></p>
<dialog id=\"keys\" aria-labelledby=\"keys-title\">
  <h2 id=\"keys-title\">Keys</h2>
  <table>
    <tr><td><kbd>&#8592;</kbd> <kbd>&#8594;</kbd></td><td>one step back, one step on</td></tr>
    <tr><td><kbd>Shift</kbd> <kbd>&#8592;</kbd> <kbd>&#8594;</kbd></td><td>to the step before or behind that moves the probe or prints</td></tr>
    <tr><td><kbd>Home</kbd> <kbd>End</kbd></td><td>to the start, to the end</td></tr>
    <tr><td><kbd>Space</kbd></td><td>play, and stop playing</td></tr>
    <tr><td><kbd>[</kbd> <kbd>]</kbd></td><td>to the time before or behind at which this line is carried out</td></tr>
    <tr><td><kbd>W</kbd> <kbd>P</kbd> <kbd>F</kbd></td><td>the whole, the part, or follow the probe</td></tr>
    <tr><td><kbd>1</kbd> to <kbd>5</kbd></td><td>all views, 3D, top, front, side</td></tr>
    <tr><td><kbd>+</kbd> <kbd>-</kbd></td><td>nearer, farther</td></tr>
  </table>
  <p>A click on a line goes to the next time that it is carried out; a click on the way goes to its step. The wheel zooms, and dragging moves the views or turns the 3D view.</p>
"
}

/// Part 5 of what stands between the style and the story.
pub(crate) fn middle_5() -> &'static [u8] {
    b"  <p><label><input type=\"checkbox\" id=\"letters\" checked> Keys of one letter or sign work</label></p>
  <form method=\"dialog\"><button>Close</button></form>
</dialog>
<script type=\"text/plain\" id=\"run\">
"
}

/// Part 1 of what stands between the story and the script.
pub(crate) fn between_1() -> &'static [u8] {
    b"<script>"
}

/// Part 1 of what stands behind the script.
pub(crate) fn end_1() -> &'static [u8] {
    b"</script>
</body>
</html>
"
}
