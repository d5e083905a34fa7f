//! What stands on each page: the styles, and the script that renews it.

ghost use Rattle.std.specs.Prelude.{◌≡◌, ◌++◌, OnOk};
ghost use Rattle.status_pages.specs.Fixed.{after_html, before_html, layout_html, looks_html};

use std::alloc::AllocError;

/// The Content-Security-Policy of the page: its own styles and its own script, which is named by its SHA-256, and requests to the server
/// that it came from. The lengths of bars stand in attributes, so that styles have to be allowed as a whole.
pub const POLICY: &str =
    "default-src 'none'; style-src 'unsafe-inline'; script-src 'sha256-T7RPhFvUWdbJBHY9EoueTi0J4S3ZR1zdXZ1RrY6dGCo='; connect-src 'self'; base-uri 'none'; form-action 'none'; frame-ancestors 'none'";

/// Where the page begins, up to its title.
const BEFORE: &[u8] = br##"<!DOCTYPE html>
<html lang="en">
<head>
<meta charset="utf-8">
<meta name="viewport" content="width=device-width, initial-scale=1">
<noscript><meta http-equiv="refresh" content="2"></noscript>
<title>"##;

/// From the title on: how the header, the warnings and the BSCs look.
const LOOKS: &[u8] = br##" - cell broadcast centre</title>
<style>
:root { color-scheme: dark; font: clamp(15px, 0.5vw + 11px, 44px)/1.35 system-ui, sans-serif; font-variant-numeric: tabular-nums; }
body { margin: 0; background: #0f1419; color: #f3f5f7; }
h1, h2, h3, h4, p, ul { margin: 0; padding: 0; font-weight: inherit; }
header { padding: 0.6rem 1rem; border-bottom: 0.25rem solid #f3f5f7; }
header.bad { background: #a61b12; }
header.busy { background: #f0e442; color: #14181c; }
header.good { background: #0b4f78; }
h1 { font-size: clamp(1.8rem, 3vw, 3.6rem); font-weight: 800; line-height: 1.1; }
header.bad h1::before, section.bad h2::before { content: "\2716\00a0"; }
header.busy h1::before, section.busy h2::before { content: "\25b6\00a0"; }
header.good h1::before, section.good h2::before { content: "\2714\00a0"; }
section.off h2::before { content: "\25a0\00a0"; }
.why { max-height: 9rem; overflow-y: auto; list-style: none; font-weight: 600; }
.why:empty { display: none; }
.why a { color: inherit; }
.when { font-weight: 600; }
.sums { display: flex; flex-wrap: wrap; gap: 0 1.2rem; list-style: none; }
h2 { margin: 1rem 0 0.4rem; font-size: 1.3rem; font-weight: 700; }
.w, .b { padding: 0.5rem 0.7rem; border-left: 0.5rem solid #56b4e9; background: #1a2129; min-width: 0; }
.bad > div > .w, .bad > div > .b { border-left-color: #ff7f50; background: #2b1c1a; }
.busy > div > .w, .busy > div > .b { border-left-style: dashed; border-left-color: #f0e442; }
.off > div > .w { border-left-style: double; border-left-color: #8b97a3; }
h3 { display: flex; flex-wrap: wrap; gap: 0 0.9rem; color: #b8c2cc; }
h3 b, .b h3 { color: #f3f5f7; font-size: 1.15rem; font-weight: 700; }
summary { cursor: pointer; }
details:not([open]) > summary { display: flex; flex-wrap: wrap; gap: 0 0.9rem; align-items: baseline; }
details:not([open]) > summary p { flex: 1 1 12rem; min-width: 0; margin: 0; overflow: hidden; font-size: 1rem; text-overflow: ellipsis; white-space: nowrap; }
.text { margin: 0.3rem 0; font-size: 1.2rem; white-space: pre-wrap; overflow-wrap: anywhere; }
.none { color: #ffb199; font-weight: 700; }
.octets { margin: 0.3rem 0; color: #b8c2cc; font-family: ui-monospace, monospace; overflow-wrap: anywhere; }
"##;

/// How boards look, and how the lists are laid out; up to where the picture begins.
const LAYOUT: &[u8] =
    br##".bar { display: flex; height: 1.1rem; overflow: hidden; border: 1px solid #8b97a3; background: #0f1419; }
.bar i { flex: 0 1 0; min-width: 0.6rem; }
i.o, .nums .o::before { background: #56b4e9; }
i.a, .nums .a::before { background: repeating-linear-gradient(45deg, #f0e442 0 0.3rem, #3d3a10 0.3rem 0.5rem); }
i.f, .nums .f::before { background: radial-gradient(#0f1419 32%, transparent 36%) 0 0 / 0.5rem 0.5rem #ff7f50; }
.nums { display: flex; flex-wrap: wrap; gap: 0 1.1rem; }
.nums b { font-size: 1.25rem; font-weight: 700; }
.nums .o::before, .nums .a::before, .nums .f::before { content: ""; display: inline-block; width: 1rem; height: 0.85rem; margin-right: 0.35rem; border: 1px solid #8b97a3; }
.nums .f { color: #ffb199; font-weight: 700; }
.nums .l { color: #f0e442; font-weight: 700; }
.nums .z, .nums .c { color: #a3aeb9; }
.nums span { white-space: nowrap; }
.areas { display: grid; grid-template-columns: repeat(auto-fill, minmax(min(100%, 17rem), 1fr)); gap: 0.4rem 1rem; margin-top: 0.5rem; list-style: none; }
.areas .bar { height: 0.7rem; }
.areas h4 { overflow-wrap: anywhere; color: #d7dee5; }
.areas .nums { font-size: 0.85em; }
.areas:empty { display: none; }
section > div { display: grid; gap: 0.5rem; }
.warnings > section > div { grid-template-columns: repeat(auto-fill, minmax(min(100%, 24rem), 1fr)); }
.warnings > section.bad > div { grid-template-columns: minmax(0, 1fr); }
.bscs > section > div { grid-template-columns: repeat(auto-fill, minmax(min(100%, 9.5rem), 1fr)); }
.bscs > section.bad > div { grid-template-columns: repeat(auto-fill, minmax(min(100%, 14rem), 1fr)); }
.b { padding: 0.3rem 0.5rem; color: #d7dee5; }
.good > div > .b p { display: inline-block; }
.good > div > .b p + p::before { content: "\00b7\00a0"; }
.good > div > .b p:not(:last-child) { margin-right: 0.3rem; }
.b .down { color: #ffb199; font-weight: 700; }
.b .down::before { content: "\2716\00a0"; }
.cols { display: flex; flex-direction: column; padding: 0 0.7rem 1rem; }
.col { display: contents; }
.bscs > .bad { order: 1; }
.warnings > .busy { order: 2; }
.bscs > .busy { order: 3; }
.warnings > .good { order: 4; }
.bscs > .good { order: 5; }
.warnings > .off { order: 6; }
@media (min-width: 900px) {
.cols { flex-direction: row; gap: 1.2rem; }
.col { display: flex; flex: 3 1 0; flex-direction: column; min-width: 0; }
.bscs { flex-grow: 2; }
}
#lost { display: none; position: sticky; top: 0; z-index: 1; padding: 0.8rem 1rem; border-bottom: 0.4rem double #f3f5f7; background: #000000; font-size: clamp(1.4rem, 2.4vw, 2.8rem); font-weight: 800; line-height: 1.15; }
#lost::before { content: "\26a0\00a0"; }
.lost #lost { display: block; }
.lost main { filter: grayscale(1); }
</style>
</head>
<body>
<div id="lost"><span id="what" role="alert"></span> <span id="long"></span></div>
"##;

/// What follows the picture: the script that asks for the page every two seconds and exchanges the picture, and says when no
/// answer comes.
const AFTER: &[u8] = br##"
<script>
(function () {
"use strict";
var heard = performance.now(), behind = 0, asking = false, fault = "", lists = "", open = {};
function by(id) { return document.getElementById(id); }
function put(id, text) { var it = by(id); if (it && it.textContent !== text) it.textContent = text; }
function tell() {
  var old = Math.floor(behind + (performance.now() - heard) / 1000), said = "";
  if (fault) said = fault + " What stands here is old.";
  else if (old > 10) said = "OLD PICTURE. The centre answers, but shows nothing newer.";
  put("age", ", " + old + " s old");
  put("what", said);
  put("long", said ? old + " s" : "");
  document.body.className = said ? "lost" : "";
  if (said) document.title = said.split(".")[0] + " - cell broadcast centre";
}
function keep(all) {
  Object.keys(open).forEach(function (id) {
    var it = all.querySelector("#" + id + " > details");
    if (it) it.open = open[id];
  });
}
function click(event) {
  var link = event.target.closest("a[href^='#w']"), line = event.target.closest("summary");
  if (link) open[link.hash.slice(1)] = true;
  if (link) keep(document);
  if (line) open[line.parentNode.parentNode.id] = !line.parentNode.open;
}
function take(page, date) {
  var now = page.getElementById("now"), was = by("now");
  if (!now) throw new Error("no page");
  var next = now.querySelector(".cols").innerHTML;
  if (next !== lists) keep(now);
  if (next !== lists) was.replaceWith(now);
  else was.querySelector("header").replaceWith(now.querySelector("header"));
  lists = next;
  document.title = page.title;
  heard = performance.now();
  behind = isNaN(date) ? 0 : Math.max(0, date / 1000 - Number(now.dataset.taken));
}
async function renew() {
  if (asking) return;
  asking = true;
  var stop = new AbortController(), late = setTimeout(function () { stop.abort(); }, 5000), said = "NO ANSWER FROM THE CENTRE.";
  try {
    var reply = await fetch(location.href, { cache: "no-store", signal: stop.signal });
    said = "NO PICTURE FROM THE CENTRE.";
    if (reply.ok) {
      take(new DOMParser().parseFromString(await reply.text(), "text/html"), Date.parse(reply.headers.get("Date")));
      said = "";
    }
  } catch (error) {}
  clearTimeout(late);
  fault = said;
  asking = false;
  tell();
}
document.addEventListener("click", click);
setInterval(renew, 2000);
setInterval(tell, 500);
renew();
})();
</script>
</body>
</html>
"##;

#[tactic(auto, unfolding(crate::specs::Fixed::before_html))]
pub(crate) fn push_before(out: &mut Vec<u8>) -> Result<(), AllocError>
    ensures { OnOk result (out.new.items ≡ out.old.items ++ before_html) }
{
    out.extend_from_slice(BEFORE)
}

#[tactic(auto, unfolding(crate::specs::Fixed::looks_html))]
pub(crate) fn push_looks(out: &mut Vec<u8>) -> Result<(), AllocError>
    ensures { OnOk result (out.new.items ≡ out.old.items ++ looks_html) }
{
    out.extend_from_slice(LOOKS)
}

#[tactic(auto, unfolding(crate::specs::Fixed::layout_html))]
pub(crate) fn push_layout(out: &mut Vec<u8>) -> Result<(), AllocError>
    ensures { OnOk result (out.new.items ≡ out.old.items ++ layout_html) }
{
    out.extend_from_slice(LAYOUT)
}

#[tactic(auto, unfolding(crate::specs::Fixed::after_html))]
pub(crate) fn push_after(out: &mut Vec<u8>) -> Result<(), AllocError>
    ensures { OnOk result (out.new.items ≡ out.old.items ++ after_html) }
{
    out.extend_from_slice(AFTER)
}
