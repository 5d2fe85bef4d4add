//! How a page looks: on a screen, on a phone, and printed.

/// The style sheet. Colours tell verdicts apart, and so do the words beside them.
pub(crate) const STYLE: &[u8] = b"
:root { --pass: #2f855a; --block: #c53030; --return: #dd6b20; --skip: #a0aec0; --line: #cbd5e0; }
* { box-sizing: border-box; }
body { margin: 0 auto; max-width: 72rem; padding: 1rem; color: #1a202c; background: #fff;
  font: 1rem/1.45 system-ui, sans-serif; -webkit-print-color-adjust: exact; print-color-adjust: exact; }
h1 { font-size: 1.5rem; margin: 0 0 1rem; }
h2 { font-size: 1.15rem; margin: 2rem 0 0.5rem; border-bottom: 1px solid var(--line); }
table { border-collapse: collapse; font-size: 0.9rem; margin: 0.5rem 0; }
th, td { padding: 0.15rem 0.6rem; text-align: left; vertical-align: top; border-bottom: 1px solid #edf2f7; }
th { font-weight: 600; }
td.number, th.number { text-align: right; font-variant-numeric: tabular-nums; white-space: nowrap; }
td.share { min-width: 6rem; background: linear-gradient(#bee3f8, #bee3f8) 0 0 / var(--share, 0) 100% no-repeat; }
code { font: 0.85rem/1.4 ui-monospace, monospace; white-space: pre-wrap; overflow-wrap: anywhere; tab-size: 8; }
tr.pass td { background-color: #f0fff4; } tr.block td { background-color: #fff5f5; }
tr.return td { background-color: #fffaf0; } tr.unused td { color: #718096; }
.wide { overflow-x: auto; }
svg { display: block; width: 100%; height: 14rem; background: #f7fafc; border: 1px solid var(--line); }
rect.pass { fill: var(--pass); } rect.block { fill: var(--block); }
rect.return { fill: var(--return); } rect.skip { fill: var(--skip); }
.axis { display: flex; justify-content: space-between; font-size: 0.85rem; margin: 0.25rem 0; }
.key { margin-left: 1em; }
.key.pass { color: var(--pass); } .key.block { color: var(--block); }
.key.return { color: var(--return); } .key.skip { color: var(--skip); }
@media (max-width: 40rem) { body { padding: 0.5rem; } th, td { padding: 0.1rem 0.3rem; } svg { height: 9rem; } }
@media print { body { max-width: none; padding: 0; font-size: 0.8rem; } h2 { break-after: avoid; }
  tr, svg { break-inside: avoid; } .wide { overflow: visible; } }
";
