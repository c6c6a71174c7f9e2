//! What stands before the data lines of each page: page/literals makes this file.

/// What stands before the data lines of each page.
pub const HEAD: &str = r##"<!DOCTYPE html>
<html lang="en">
<head>
<meta charset="utf-8">
<meta name="viewport" content="width=device-width, initial-scale=1">
<meta http-equiv="Content-Security-Policy" content="default-src 'none'; style-src 'unsafe-inline'; script-src 'unsafe-inline'; img-src data: blob:">
<link rel="icon" href="data:,">
<title>netsim: a run</title>
<style>
:root {
  --back: #ffffff; --fore: #1b1f24; --dim: #59636e; --line: #d0d7de; --panel: #f4f6f8; --mark: #ffe9a8; --link: #0b57a4;
  color-scheme: light;
  font-size: 16px;
}
:root.dark {
  --back: #10151b; --fore: #eef2f6; --dim: #a5b0bc; --line: #3a444f; --panel: #1a2129; --mark: #5c4a10; --link: #7cc0ff;
  color-scheme: dark;
}
* { box-sizing: border-box; }
body { margin: 0; background: var(--back); color: var(--fore); font: 0.875rem/1.4 system-ui, "Segoe UI", "DejaVu Sans", sans-serif; }
header { display: flex; flex-wrap: wrap; align-items: center; gap: 0.3rem 1rem; padding: 0.4rem 0.75rem; border-bottom: 1px solid var(--line); }
h1 { font-size: 1.1rem; margin: 0; white-space: nowrap; }
h1 span { font-weight: normal; color: var(--dim); font-size: 0.875rem; }
h2 { font-size: 0.95rem; margin: 0.5rem 0 0.25rem; }
nav { display: flex; flex-wrap: wrap; gap: 0.3rem 0.9rem; }
.group { display: flex; flex-wrap: wrap; gap: 0.25rem; align-items: center; }
.pair { display: inline-flex; }
.pair button + button { border-left: 0; border-radius: 0 0.3rem 0.3rem 0; }
.pair button:first-child { border-radius: 0.3rem 0 0 0.3rem; }
button { font: inherit; color: inherit; background: var(--panel); border: 1px solid var(--line); border-radius: 0.3rem; padding: 0.15rem 0.5rem; min-height: 1.75rem; cursor: pointer; }
button:hover:not(:disabled) { border-color: var(--dim); }
button:disabled { color: var(--dim); opacity: 0.55; cursor: default; }
:focus-visible { outline: 3px solid #e69f00; outline-offset: 1px; }
#speed { min-width: 7.2rem; text-align: center; font-size: 0.8rem; color: var(--dim); }
#play { min-width: 3.4rem; }
main { display: grid; grid-template-columns: minmax(0, 1fr) 25rem; gap: 0 1rem; padding: 0 0.75rem 0.75rem; }
#pictures { min-width: 0; grid-column: 1; grid-row: 1; }
#facts { grid-column: 2; grid-row: 1 / span 2; max-height: calc(100vh - 4rem); overflow: auto; position: sticky; top: 0; }
#log { grid-column: 1; grid-row: 2; min-width: 0; }
canvas { display: block; width: 100%; touch-action: none; }
#plot { height: 54vh; min-height: 18rem; cursor: crosshair; }
#cables { height: 10rem; touch-action: pan-y; }
#legend { height: 3rem; margin-top: 0.4rem; }
table { width: 100%; border-collapse: collapse; margin-bottom: 0.75rem; font-variant-numeric: tabular-nums; }
caption { text-align: left; color: var(--dim); padding: 0.2rem 0; }
td, th { text-align: left; padding: 0.15rem 0.3rem; border-bottom: 1px solid var(--line); vertical-align: top; font-weight: normal; }
thead th { color: var(--dim); font-size: 0.8rem; vertical-align: bottom; line-height: 1.15; }
tbody th { white-space: nowrap; font-weight: 600; max-width: 9rem; overflow: hidden; text-overflow: ellipsis; }
td.number, th.number { text-align: right; }
.swatch { display: inline-block; width: 0.8em; height: 0.8em; margin-right: 0.4em; border: 1px solid var(--dim); vertical-align: -0.05em; }
#shares td:nth-child(2) { width: 60%; }
#shares td:last-child { text-align: right; white-space: nowrap; }
.share { position: relative; height: 1.2em; background: var(--panel); border: 1px solid var(--line); }
.share i { position: absolute; top: 0; bottom: 0; left: 0; }
.share i.lost { background: repeating-linear-gradient(135deg, var(--fore) 0 2px, transparent 2px 6px); opacity: 0.75; }
#frame { background: var(--panel); border: 1px solid var(--line); border-radius: 0.3rem; padding: 0.4rem 0.6rem; margin-bottom: 0.6rem; }
#frame h3 { margin: 0 0 0.2rem; font-size: 0.95rem; }
#frame ul { margin: 0; padding-left: 1.1rem; }
#said { min-height: 1.4em; margin: 0.2rem 0; font-size: 1rem; }
#lines { list-style: none; margin: 0; padding: 0; font-family: ui-monospace, "DejaVu Sans Mono", monospace; font-size: 0.8rem; border-top: 1px solid var(--line); }
#lines button { display: block; width: 100%; text-align: left; border: 0; border-radius: 0; background: none; min-height: 1.5rem; padding: 0.05rem 0.4rem; overflow-wrap: anywhere; }
#lines button:hover { background: var(--panel); }
#lines button[aria-current] { background: var(--mark); }
#hint { position: fixed; z-index: 2; max-width: min(30rem, 90vw); background: var(--back); color: var(--fore); border: 1px solid var(--dim); border-radius: 0.3rem; padding: 0.3rem 0.6rem; pointer-events: none; box-shadow: 0 2px 8px #0004; }
#hint small { color: var(--dim); display: block; }
details p { max-width: 60rem; }
summary { cursor: pointer; padding: 0.3rem 0; }
@media (max-width: 1000px) {
  main { grid-template-columns: minmax(0, 1fr); }
  #facts { grid-column: 1; grid-row: 2; max-height: none; position: static; }
  #log { grid-row: 3; }
  #plot { height: 50vh; }
}
@media (min-width: 1700px) { main { grid-template-columns: minmax(0, 1fr) 32rem; } }
</style>
<script type="text/plain" id="data">
"##;
