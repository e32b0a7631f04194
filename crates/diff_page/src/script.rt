//! The script of the HTML page.

/// The script of the page. It reads the report and shows it. Texts of the report are added as text
/// nodes, never as HTML.
pub(crate) const SCRIPT: &str = r##""use strict";
const PIECE = 500, LONG = 40, MOST_TOKENS = 400;
const WORDS = {changed: "~ changed", removed: "- removed", added: "+ added"};
const find = id => document.getElementById(id);

// A number as it is written: JavaScript would round it.
class Numeral { constructor(text) { this.text = text; } }

// Reads JSON, with numbers as they are written, and objects as maps, which keep their order.
function parse(text) {
  let at = 0;
  const space = () => { while (" \t\n\r".includes(text[at]) && at < text.length) at++; };
  const string = () => {
    const start = at++;
    while (text[at] !== '"') at += text[at] === "\\" ? 2 : 1;
    at++;
    return JSON.parse(text.slice(start, at));
  };
  const list = (end, item) => {
    at++; space();
    while (text[at] !== end) {
      item(); space();
      if (text[at] === ",") { at++; space(); }
    }
    at++;
  };
  const value = () => {
    space();
    if (text[at] === '"') return string();
    if (text[at] === "[") { const items = []; list("]", () => items.push(value())); return items; }
    if (text[at] === "{") {
      const members = new Map();
      list("}", () => { const name = string(); space(); at++; members.set(name, value()); });
      return members;
    }
    const start = at;
    while (at < text.length && !" \t\n\r,]}".includes(text[at])) at++;
    const word = text.slice(start, at);
    const known = {null: null, true: true, false: false};
    return word in known ? known[word] : new Numeral(word);
  };
  return value();
}

function make(name, about = {}, ...parts) {
  const made = document.createElement(name);
  for (const [key, value] of Object.entries(about)) made.setAttribute(key, value);
  made.append(...parts);
  return made;
}

// The text of a value on one line.
function plain(value) {
  if (value === undefined) return "missing";
  if (value instanceof Numeral) return value.text;
  if (Array.isArray(value)) return "[" + value.map(plain).join(",") + "]";
  if (value instanceof Map) {
    const members = [...value].map(([name, part]) => `${JSON.stringify(name)}:${plain(part)}`);
    return "{" + members.join(",") + "}";
  }
  return JSON.stringify(value);
}

// The words and the characters between them, by which two long texts are compared.
const tokens = text => text.match(/\w+|\s+|[^\w\s]/gu) || [];

// Says for each token of two lists whether it is in a longest list that both have.
function common(left, right) {
  const width = right.length + 1, table = new Uint16Array((left.length + 1) * width);
  for (let i = left.length - 1; i >= 0; i--)
    for (let j = right.length - 1; j >= 0; j--)
      table[i * width + j] = left[i] === right[j] ? table[(i + 1) * width + j + 1] + 1
        : Math.max(table[(i + 1) * width + j], table[i * width + j + 1]);
  const inLeft = [], inRight = [];
  for (let i = 0, j = 0; i < left.length && j < right.length;) {
    if (left[i] === right[j]) { inLeft[i++] = inRight[j++] = true; }
    else if (table[(i + 1) * width + j] >= table[i * width + j + 1]) i++;
    else j++;
  }
  return [inLeft, inRight];
}

function marked(parts, isCommon, name) {
  const made = [];
  let run = "", isMarked = false;
  const end = () => { if (run) made.push(isMarked ? make(name, {}, run) : run); run = ""; };
  parts.forEach((part, at) => {
    if (!isCommon[at] !== isMarked) { end(); isMarked = !isMarked; }
    run += part;
  });
  end();
  return made;
}

// Shows a list or an object that can be folded.
function tree(value, side) {
  const entries = Array.isArray(value) ? value.map((v, at) => [`[${at}]`, v]) : [...value];
  const unit = Array.isArray(value) ? "items" : "members";
  const body = make("div");
  const title = make("summary", {}, `${entries.length} ${unit}`);
  const made = make("details", {class: "tree"}, title, body);
  const fill = () => {
    if (!body.firstChild) body.append(...entries.map(([name, part]) =>
      make("div", {}, make("span", {class: "where"}, `${name}: `), shown(part, side))));
  };
  made.addEventListener("toggle", fill);
  if (plain(value).length < 200) { fill(); made.open = true; }
  return made;
}

function shown(value, side) {
  if (value === undefined || value === null)
    return make("span", {class: `value none ${side}`}, value === null ? "null" : "missing");
  if (value instanceof Map || Array.isArray(value)) return tree(value, side);
  return make("span", {class: `value ${side}`}, plain(value));
}

// Shows both sides of a cell, and within two long texts what differs.
function sides(left, right) {
  const arrow = make("span", {"aria-label": "became"}, " → ");
  if (typeof left === "string" && typeof right === "string" && left.length + right.length > LONG) {
    const [before, after] = [tokens(left), tokens(right)];
    if (before.length <= MOST_TOKENS && after.length <= MOST_TOKENS) {
      const [inLeft, inRight] = common(before, after);
      return [make("span", {class: "value left"}, ...marked(before, inLeft, "del")), arrow,
        make("span", {class: "value right"}, ...marked(after, inRight, "ins"))];
    }
  }
  return [shown(left, "left"), arrow, shown(right, "right")];
}

// What differs in a row: names, and both sides.
function changesOf(row) {
  const changes = row.get("changes") || [];
  const named = Array.isArray(changes) ? changes.map(it => [it.get("path"), it]) : [...changes];
  return named.map(([name, it]) => [name, it.get("left"), it.get("right")]);
}

// A path without the places of items, by which differences are counted.
const column = name => name.replace(/\[\d+\]/g, "[]");

const lines = find("report").textContent.split("\n").filter(it => it.trim()).map(parse);
const of = kind => lines.filter(it => it.get("kind") === kind);
const files = of("files")[0] || new Map(), counts = of("counts")[0] || new Map();
const count = name => counts.has(name) ? Number(counts.get(name).text) : 0;
const grouped = number => number.toLocaleString("en");

// The numbers of these members, those that are there.
const numbers = (row, names) =>
  names.filter(it => row.has(it)).map(it => row.get(it).text).join(" → ");

const all = lines.filter(it => it.get("kind") in WORDS).map(row => {
  const kind = row.get("kind"), changes = changesOf(row);
  const keys = [...row.get("key")].map(([name, value]) => `${name}=${plain(value)}`).join(", ");
  const line = numbers(row, ["left_line", "right_line", "line"]);
  const key = keys || `row ${numbers(row, ["left_row", "row"]) || line}`;
  const cells = changes.flatMap(([name, left, right]) => [name, plain(left), plain(right)]);
  const names = new Set(changes.map(([name]) => column(name)));
  return {kind, key, changes, names, line, text: [key, ...cells].join("\n").toLowerCase()};
});

// Shows what differs in a row.
function told({kind, changes}) {
  if (kind !== "changed") return `only in the ${kind === "removed" ? "left" : "right"} file`;
  return make("dl", {}, ...changes.flatMap(([name, left, right]) =>
    [make("dt", {}, name), make("dd", {}, ...sides(left, right))]));
}

function rowOf(row) {
  return make("tr", {class: row.kind},
    make("td", {class: "mark"}, WORDS[row.kind]),
    make("th", {scope: "row", class: "key"}, row.key),
    make("td", {}, told(row)),
    make("td", {class: "where"}, row.line));
}

let chosen = [], drawn = 0;

function draw(most) {
  const rows = find("rows"), end = Math.min(chosen.length, most);
  const part = document.createDocumentFragment();
  while (drawn < end) part.append(rowOf(chosen[drawn++]));
  rows.append(part);
  find("more").classList.toggle("hidden", drawn === chosen.length);
  find("more").textContent = `Show ${grouped(Math.min(PIECE, chosen.length - drawn))} more`;
  const below = drawn < chosen.length ? `, the first ${grouped(drawn)} below` : "";
  const others = count("not_shown");
  const left = others ? ` ${grouped(others)} more are not in this page.` : "";
  find("shown").textContent =
    `${grouped(chosen.length)} of ${grouped(all.length)} differences${below}.${left}`;
}

function filter() {
  const kinds = new Set([...document.querySelectorAll("[name=kind]:checked")].map(it => it.value));
  const name = find("column").value, text = find("text").value.toLowerCase();
  const isOf = it => !name || it.names.has(name);
  chosen = all.filter(it => kinds.has(it.kind) && isOf(it) && it.text.includes(text));
  find("rows").replaceChildren();
  drawn = 0;
  draw(PIECE);
}

function countColumns() {
  const told = counts.get("columns");
  if (told) return [...told].map(([name, it]) => [name, Number(it.text)]);
  const found = new Map();
  for (const it of all) for (const name of it.names) found.set(name, (found.get(name) || 0) + 1);
  return [...found].sort((a, b) => b[1] - a[1]);
}

// Shows how many rows there are of each kind, columns of one file alone, and lines passed over.
function drawCounts() {
  for (const name of ["changed", "removed", "added", "same"]) {
    const number = make("strong", {}, grouped(count(name)));
    find("counts").append(make("li", {class: name}, number, name === "same" ? "the same" : name));
  }
  const lone = of("column").map(it => `${it.get("column")} (${it.get("only_in")} file)`);
  const skipped = ["left", "right"].filter(it => count(`${it}_skipped`))
    .map(it => `${grouped(count(`${it}_skipped`))} (${it} file)`);
  const notes = [["Columns of one file alone", lone], ["Lines passed over", skipped]];
  find("notes").textContent =
    notes.filter(it => it[1].length).map(it => `${it[0]}: ${it[1].join(", ")}.`).join(" ");
}

// Shows how often each column differs.
function drawColumns() {
  const columns = countColumns(), most = Math.max(...columns.map(it => it[1]));
  find("by-column").classList.toggle("hidden", !columns.length);
  for (const [name, cells] of columns) {
    const button = make("button", {type: "button", title: "Show these alone"}, name);
    button.addEventListener("click", () => {
      find("column").value = name;
      filter();
      find("differences").focus();
    });
    const bar = make("span", {class: "bar", style: `width: ${100 * cells / most}%`});
    find("bars").append(make("tr", {},
      make("th", {scope: "row"}, button),
      make("td", {class: "number"}, grouped(cells)),
      make("td", {"aria-hidden": "true"}, bar)));
    find("column").append(make("option", {value: name}, name));
  }
}

function begin() {
  if (files.size) {
    find("title").textContent = `${files.get("left")} → ${files.get("right")}`;
    document.title = `${files.get("left")} → ${files.get("right")}: differences`;
  }
  drawCounts();
  drawColumns();
  find("filter").addEventListener("submit", it => it.preventDefault());
  for (const event of ["input", "change"]) find("filter").addEventListener(event, filter);
  find("clear").addEventListener("click", () => { find("filter").reset(); filter(); });
  find("more").addEventListener("click", () => draw(drawn + PIECE));
  window.addEventListener("beforeprint", () => draw(chosen.length));
  filter();
}

begin();
"##;
