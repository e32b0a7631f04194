//! The style sheet of the HTML page.

/// The style sheet of the page. It has light and dark colours, and rules for narrow screens and for
/// print.
pub(crate) const STYLE: &str = r##":root {
  color-scheme: light dark;
  --back: #fff; --text: #1c2024; --quiet: #5b6470; --line: #d8dde3; --panel: #f5f7f9;
  --link: #0b5cad;
  --changed: #8a5a00; --changed-back: #fff6e0; --removed: #a1242c; --removed-back: #fdecee;
  --added: #1a6b36; --added-back: #e8f6ec; --bar: #5a8fc7;
}
@media (prefers-color-scheme: dark) {
  :root {
    --back: #14171a; --text: #e4e7ea; --quiet: #9aa4af; --line: #343b43; --panel: #1d2227;
    --link: #7db7ef;
    --changed: #f0c060; --changed-back: #33290f; --removed: #ff9aa2; --removed-back: #3a1a1d;
    --added: #84d69d; --added-back: #16301f; --bar: #3f73a8;
  }
}
* { box-sizing: border-box; }
body { margin: 0 auto; max-width: 76rem; padding: 1rem; background: var(--back); color: var(--text);
  font: 15px/1.5 system-ui, sans-serif; }
h1 { font-size: 1.35rem; margin: 0.2rem 0 0.8rem; overflow-wrap: anywhere; }
h2 { font-size: 1.05rem; margin: 1.4rem 0 0.5rem; }
code, .value, .key { font-family: ui-monospace, monospace; font-size: 0.92em; }
a { color: var(--link); }
:focus-visible { outline: 2px solid var(--link); outline-offset: 2px; }
.skip { position: absolute; left: -99rem; }
.skip:focus { position: static; }
.counts { display: flex; flex-wrap: wrap; gap: 0.6rem; margin: 0; padding: 0; list-style: none; }
.counts li { flex: 1 1 8rem; padding: 0.5rem 0.8rem; border: 1px solid var(--line);
  border-radius: 6px; }
.counts strong { display: block; font-size: 1.5rem; line-height: 1.2;
  font-variant-numeric: tabular-nums; }
.changed strong, tr.changed .mark { color: var(--changed); }
.removed strong, tr.removed .mark { color: var(--removed); }
.added strong, tr.added .mark { color: var(--added); }
.same strong { color: var(--quiet); }
.bars { width: 100%; border-collapse: collapse; }
.bars th { text-align: left; font-weight: normal; padding: 0.15rem 0.8rem 0.15rem 0; width: 1%;
  min-width: 7rem; max-width: 20rem; overflow-wrap: anywhere; }
.bars td { padding: 0.15rem 0; }
.bars .number { width: 1%; padding-right: 0.6rem; text-align: right;
  font-variant-numeric: tabular-nums; }
.bar { display: block; height: 0.8rem; min-width: 2px; border-radius: 2px; background: var(--bar); }
.bars button { font: inherit; color: var(--link); background: none; border: 0; padding: 0;
  cursor: pointer; text-align: left; }
form { display: flex; flex-wrap: wrap; gap: 0.6rem 1.2rem; align-items: end; padding: 0.8rem;
  margin: 0.6rem 0; background: var(--panel); border: 1px solid var(--line); border-radius: 6px; }
fieldset { border: 0; margin: 0; padding: 0; display: flex; flex-wrap: wrap; gap: 0.2rem 0.9rem; }
legend, .label { color: var(--quiet); font-size: 0.87em; padding: 0; display: block; }
input[type=search], select { font: inherit; color: inherit; background: var(--back);
  border: 1px solid var(--line); border-radius: 4px; padding: 0.25rem 0.5rem; max-width: 100%; }
button.plain { font: inherit; padding: 0.3rem 0.8rem; border: 1px solid var(--line);
  border-radius: 4px; background: var(--back); color: var(--text); cursor: pointer; }
.rows { width: 100%; border-collapse: collapse; }
.rows th, .rows td { text-align: left; vertical-align: top; padding: 0.35rem 0.6rem;
  border-bottom: 1px solid var(--line); }
.rows thead th { position: sticky; top: 0; background: var(--back); color: var(--quiet);
  font-weight: normal; }
.rows th[scope=row] { font-weight: normal; min-width: 8rem; overflow-wrap: anywhere; }
.mark { font-weight: bold; white-space: nowrap; }
.where { color: var(--quiet); white-space: nowrap; }
dl { margin: 0; display: grid; grid-template-columns: minmax(6rem, max-content) 1fr;
  gap: 0.15rem 0.8rem; }
dt { color: var(--quiet); overflow-wrap: anywhere; max-width: 18rem; }
dd { margin: 0; min-width: 0; }
.value { white-space: pre-wrap; overflow-wrap: anywhere; border-radius: 3px; padding: 0 0.2rem; }
.value, .key, .where { unicode-bidi: isolate; }
.left { background: var(--removed-back); color: var(--removed); }
.right { background: var(--added-back); color: var(--added); }
.none { font-style: italic; }
del, ins { text-decoration-thickness: 2px; font-weight: bold; }
del { text-decoration-line: line-through; }
ins { text-decoration-line: underline; }
summary { cursor: pointer; }
details.tree { padding-left: 0.4rem; }
details.tree > div { padding-left: 1.1rem; }
.more { margin: 0.8rem 0; }
.hidden { display: none; }
@media (max-width: 40rem) {
  .rows, .rows tbody, .rows tr, .rows td, .rows th { display: block; }
  .rows thead { display: none; }
  .rows tr { border-bottom: 1px solid var(--line); padding: 0.4rem 0; }
  .rows td, .rows th { border: 0; padding: 0.1rem 0; }
  dl { grid-template-columns: 1fr; }
}
@media print {
  :root { color-scheme: light; --back: #fff; --text: #000; --quiet: #444; --line: #bbb;
    --removed-back: #fff; --added-back: #fff; }
  form, .skip, .more { display: none; }
  body { max-width: none; padding: 0; font-size: 10pt; }
  tr { break-inside: avoid; }
  .rows thead th { position: static; }
}
"##;
