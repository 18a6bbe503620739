//! The script of the page: plain JavaScript, without libraries.

/// What the page does when it is used. Each layer has a sheet of its own, and all show the same place of the board. A finding is chosen by a
/// click on its row, on its marker or on its ring, by the arrow keys within the table, and by `#f27` or `#27` in the address. Then its row and its
/// rings are highlighted, the picture goes there, and its figures are read out. Findings whose markers would cover one another have one
/// together, with their number, which zooms in on them.
pub const SCRIPT: &str = "\
(() => {
'use strict';
document.documentElement.className = '';
const picture = document.getElementById('picture'), spoken = document.getElementById('spoken');
const drawing = picture.querySelector('svg'), table = document.querySelector('table');
const rows = Array.from(table.tBodies[0].rows);
const panels = Array.from(drawing.querySelectorAll('.layer'));
const board = boardOf(panels[0]);
// The room that a marker takes, in pixels, and the least and the greatest part of the board that is shown.
const markerWidth = 18 + 8 * String(rows.length).length, markerHeight = 24;
const leastPart = 1 / 20000, greatestPart = 2;
let view = {x: board.x, y: board.y, part: 1}, chosen = 0, highlighted = [];
let waits = false, onPaper = false, drag = null, dragged = false;

partTable(200);
panels.forEach(it => it.remove());
const sheets = panels.map(sheetOf);
showPage();

// ---- the page

// The sheets take the place of the drawing, of which the legend is left. They are measured while their pictures are empty, which is quick.
function showPage() {
  picture.replaceChildren(...sheets.map(it => it.root));
  picture.style.setProperty('--shape', board.width / board.height);
  showLegend();
  goToAddress();
  draw();
  sheets.forEach((sheet, i) => sheet.svg.prepend(panels[i]));
}

function showLegend() {
  const legend = drawing.querySelector('.legend');
  legend.removeAttribute('transform');
  drawing.replaceChildren(drawing.querySelector('style'), legend);
  drawing.setAttribute('viewBox', '-1 -1.2 46 4.8');
  drawing.setAttribute('class', 'key');
  picture.after(drawing);
}

// Many rows stand in parts of some hundreds each: a browser lays out only the parts that come into view.
function partTable(size) {
  const all = table.tBodies[0];
  if (rows.length <= size) { return; }
  table.classList.add('many');
  for (let i = 0; i < rows.length; i += size) {
    const part = document.createElement('tbody');
    part.append(...rows.slice(i, i + size));
    table.append(part);
  }
  all.remove();
}

// ---- the sheets: a layer each, its picture, and over that the markers of its findings

// The middle and the sides of the whole board with a margin, in millimetres, y downwards.
function boardOf(panel) {
  const box = panel && panel.querySelector('.board');
  if (!box) { return {x: 0, y: 0, width: 1, height: 1}; }
  const [left, top, width, height] = ['x', 'y', 'width', 'height'].map(it => Number(box.getAttribute(it)));
  const margin = Math.max(width, height) / 20;
  return {x: left + width / 2, y: top + height / 2, width: width + 2 * margin, height: height + 2 * margin};
}

function sheetOf(panel) {
  const root = document.getElementById('sheet').content.firstElementChild.cloneNode(true);
  const [heading, sight] = root.children, [markers, bar] = sight.children, svg = drawing.cloneNode(false);
  const [name, note] = ['.name', '.note'].map(it => panel.querySelector(it).textContent);
  heading.firstElementChild.textContent = name;
  heading.lastElementChild.textContent = note;
  heading.title = `${name}: ${note}`;
  svg.setAttribute('role', 'img');
  svg.setAttribute('aria-label', name);
  sight.prepend(svg);
  panel.removeAttribute('transform');
  const button = document.querySelector(`button[data-file=\"${panel.dataset.file}\"]`);
  return {name, button, root, sight, svg, markers, bar, findings: findingsOf(panel), groups: [], drawnAs: '', buttons: new Map(), here: null};
}

// The findings of a panel, by number and element: the middle, how far it reaches from there, and the top, where the marker stands.
function findingsOf(panel) {
  return Array.from(panel.getElementsByClassName('finding'), element => {
    const number = Number((element.id || element.dataset.id).slice(1));
    return {number, element, ...placeOf(element.lastElementChild)};
  });
}

function placeOf(shape) {
  if (shape.localName === 'circle') {
    const [x, y, reach] = ['cx', 'cy', 'r'].map(it => Number(shape.getAttribute(it)));
    return {x, y, reach, top: y - reach};
  }
  const [left, above, right, below] = shape.getAttribute('d').slice(1).split(/[ L]/).map(Number);
  const half = Number(shape.getAttribute('stroke-width')) / 2, x = (left + right) / 2, y = (above + below) / 2;
  return {x, y, reach: Math.hypot(right - left, below - above) / 2 + half, top: y - half};
}

function isOn(sheet) { return !sheet.root.hidden; }

function setLayer(sheet, on) {
  sheet.root.hidden = !on;
  sheet.button.setAttribute('aria-pressed', String(on));
  show();
}

// ---- drawing: each sheet shows the same place of the board

// Many changes within a frame are drawn once.
function show() {
  if (waits) { return; }
  waits = true;
  requestAnimationFrame(() => { waits = false; draw(); });
}

// On paper stands all of it, whatever part is looked at. The areas are measured before anything is written, so that it is laid out once.
function draw() {
  const seen = onPaper ? sheets : sheets.filter(isOn), at = onPaper ? {x: board.x, y: board.y, part: 1} : view;
  const areas = seen.map(areaOf);
  seen.forEach((sheet, i) => drawSheet(sheet, at, areas[i]));
}

// The area of a sheet's picture, in pixels.
function areaOf(sheet) {
  if (onPaper) { return {left: 0, top: 0, width: 700, height: 700 * board.height / board.width}; }
  const {left, top, width, height} = sheet.sight.getBoundingClientRect();
  return {left, top, width: Math.max(width, 1), height: Math.max(height, 1)};
}

// How many millimetres a pixel is where an area shows this part of the board.
function pixelIn(area, part) { return part * Math.max(board.width / area.width, board.height / area.height); }

function drawSheet(sheet, at, area) {
  const width = board.width * at.part, height = board.height * at.part, pixel = pixelIn(area, at.part);
  const box = [at.x - width / 2, at.y - height / 2, width, height].join(' '), drawnAs = `${pixel} ${area.width} ${chosen}`;
  if (sheet.svg.getAttribute('viewBox') !== box) { sheet.svg.setAttribute('viewBox', box); }
  if (sheet.drawnAs !== drawnAs) {
    sheet.drawnAs = drawnAs;
    sheet.groups = together(sheet.findings, pixel);
    drawBar(sheet.bar, pixel, area);
  }
  drawMarkers(sheet, at, pixel, area);
}

// The bar of the scale: the greatest of 1, 2 or 5 times a power of ten that is at most 100 pixels long.
function drawBar(bar, pixel, area) {
  const power = 10 ** Math.floor(Math.log10(100 * pixel)), most = 100 * pixel / power;
  const length = Number((power * ([5, 2].find(it => it <= most) || 1)).toPrecision(1));
  bar.textContent = `${length} mm`;
  bar.style.width = `${100 * length / pixel / area.width}%`;
}

// ---- markers: findings that would cover one another have one together

// Each finding joins the first that has a marker within the room of one, else it gets its own. The chosen one always has its own.
function together(findings, pixel) {
  const width = markerWidth * pixel, height = markerHeight * pixel, squares = new Map(), groups = [];
  const first = findings.filter(it => it.number === chosen);
  for (const it of first.concat(findings)) {
    const column = Math.floor(it.x / width), row = Math.floor(it.top / height), near = groupNear(squares, it, column, row, width, height);
    if (!near) {
      groups.push([it]);
      squares.set(squareAt(column, row), groups[groups.length - 1]);
    } else if (near[0] !== it) {
      near.push(it);
    }
  }
  return groups.sort((one, other) => one[0].number - other[0].number);
}

// The board in squares as large as the room of a marker. No two markers stand in one, and what is near to a marker stands beside it at most.
function squareAt(column, row) { return column * 2 ** 26 + row; }

function groupNear(squares, it, column, row, width, height) {
  for (const right of [0, -1, 1]) {
    for (const down of [0, -1, 1]) {
      const group = squares.get(squareAt(column + right, row + down));
      if (group && Math.abs(group[0].x - it.x) < width && Math.abs(group[0].top - it.top) < height) { return group; }
    }
  }
  return null;
}

// Markers that stay are left as they are, in the order of their numbers, so that none loses the focus.
function drawMarkers(sheet, at, pixel, area) {
  const right = (area.width / 2 + markerWidth) * pixel, down = (area.height / 2 + markerHeight) * pixel;
  const shown = sheet.groups.filter(([it]) => Math.abs(it.x - at.x) < right && Math.abs(it.top - at.y) < down);
  const numbers = new Set(shown.map(([it]) => it.number)), focused = sheet.markers.contains(document.activeElement) && document.activeElement;
  sheet.buttons.forEach((button, number) => {
    if (!numbers.has(number)) { button.remove(); sheet.buttons.delete(number); }
  });
  let next = sheet.markers.firstChild;
  shown.forEach(group => {
    const button = markerOf(sheet, group);
    button.style.left = `${50 + 100 * (group[0].x - at.x) / pixel / area.width}%`;
    button.style.top = `${50 + 100 * (group[0].top - at.y) / pixel / area.height}%`;
    if (button === next) { next = next.nextSibling; } else { sheet.markers.insertBefore(button, next); }
  });
  sheet.markers.setAttribute('aria-label', `${sheet.name}: ${sheet.findings.length} findings, markers in view: ${shown.length}`);
  keepTabStop(sheet, focused);
}

// A marker has the number of its finding, or how many stand together.
function markerOf(sheet, group) {
  const {number, element} = group[0], count = group.length, isChosen = number === chosen, drawnAs = `${count} ${isChosen}`;
  const button = sheet.buttons.get(number) || document.createElement('button');
  if (button.dataset.drawnAs === drawnAs) { return button; }
  sheet.buttons.set(number, button);
  button.type = 'button';
  button.tabIndex = button.tabIndex === 0 && button.isConnected ? 0 : -1;
  button.className = `marker${count > 1 ? ' group' : ''}${isChosen ? ' on' : ''}`;
  Object.assign(button.dataset, {number, count, drawnAs});
  button.textContent = count === 1 ? `#${number}` : isChosen ? `#${number} +${count - 1}` : String(count);
  button.title = count === 1 ? element.firstElementChild.textContent : `${count} findings close together, #${number} among them: zoom in`;
  button.setAttribute('aria-label', button.title);
  return button;
}

// One marker of a layer is in the order of Tab. Where the focused one is gone, the focus goes to the one that its finding stands in now.
function keepTabStop(sheet, focused) {
  const {markers, groups, buttons} = sheet;
  if (focused && !focused.isConnected) {
    const group = groups.find(it => it.some(one => one.number === Number(focused.dataset.number)));
    (group && buttons.get(group[0].number) || picture).focus({preventScroll: true});
  }
  if (markers.firstChild && !markers.querySelector('[tabindex=\"0\"]')) { markers.firstChild.tabIndex = 0; }
}

function useMarker(button) {
  const sheet = sheets.find(it => it.markers === button.parentNode), group = sheet.groups.find(it => it[0].number === Number(button.dataset.number));
  if (group.length === 1) { go(group[0].number); } else { partGroup(sheet, group); }
}

// Goes so near to findings that stand together that they part. Those that are all but at one place are chosen one after the other.
function partGroup(sheet, group) {
  const [left, right] = rangeOf(group, it => it.x), [top, bottom] = rangeOf(group, it => it.top), reach = rangeOf(group, it => it.reach)[1];
  const area = areaOf(sheet), nearest = leastPixel(area, reach);
  if (together(group, nearest).length === 1) { chooseNext(group); return; }
  // Two that are more than two rooms apart cannot stand together with a third.
  const pixel = Math.max((right - left) / markerWidth / 2.5, (bottom - top) / markerHeight / 2.5, nearest);
  const width = right - left + 2 * reach, height = bottom - top + 2 * reach;
  const part = Math.min(1.3 * Math.max(width / board.width, height / board.height), pixel / pixelIn(area, 1));
  view = {x: (left + right) / 2, y: (top + bottom) / 2 + reach, part};
  draw();
  const parted = sheet.groups.filter(it => it.some(one => group.includes(one))).length;
  spoken.textContent = `zoomed in: ${group.length} findings, markers: ${parted}`;
}

function chooseNext(group) {
  const numbers = group.map(it => it.number).sort((one, other) => one - other);
  go(numbers.find(it => it > chosen) || numbers[0]);
}

// The least and the greatest of what is asked of each finding.
function rangeOf(findings, of) {
  return findings.reduce(([low, high], it) => [Math.min(low, of(it)), Math.max(high, of(it))], [Infinity, -Infinity]);
}

// How many millimetres a pixel is at the least: a finding that reaches so far takes up a third of the area.
function leastPixel(area, reach) { return Math.max(6 * reach / Math.min(area.width, area.height), pixelIn(area, leastPart)); }

// ---- zooming and moving

function zoom(factor, at) {
  const part = Math.min(Math.max(view.part * factor, leastPart), greatestPart), by = part / view.part, {x, y} = at || view;
  view = {x: x - (x - view.x) * by, y: y - (y - view.y) * by, part};
  show();
}

function move(right, down) {
  view = {x: view.x + right * board.width * view.part, y: view.y + down * board.height * view.part, part: view.part};
  show();
}

function fit() {
  view = {x: board.x, y: board.y, part: 1};
  show();
}

// ---- choosing a finding

function choose(number) {
  const row = rows[number - 1], places = [];
  if (!row) { return; }
  sheets.forEach(sheet => {
    const finding = sheet.findings.find(it => it.number === number);
    if (finding) { places.push({sheet, finding}); }
  });
  highlighted.forEach(it => { it.classList.remove('on'); it.removeAttribute('aria-current'); });
  highlighted = [row, ...places.map(it => it.finding.element)];
  highlighted.forEach(it => it.classList.add('on'));
  row.setAttribute('aria-current', 'true');
  chosen = number;
  if (places.length > 0) { lookAt(places.find(it => isOn(it.sheet)) || places[0]); }
  document.getElementById('selected').textContent = sentenceOf(row);
  row.scrollIntoView({block: 'nearest'});
}

// A finding as one says it: #3: annular ring on top, hole 14 of board-PTH.drl at 15,13; diameter 0.3; ring 0.149; rule 0.15; off centre: flash 14.
function sentenceOf(row) {
  const [number, kind, layer, holes, diameter, has, rule, cause, why] = Array.from(row.cells, cell => cell.textContent);
  const isGap = kind === 'hole to hole', where = isGap ? '' : ` on ${layer}`;
  const measured = has === 'no pad' ? '' : `${isGap ? 'gap' : 'ring'} ${has}`;
  const parts = [`#${number}: ${kind}${where}, ${holes}`, `${isGap ? 'diameters' : 'diameter'} ${diameter}`, measured, `rule ${rule}`, cause];
  return parts.concat(why && `waived: ${why}`).filter(Boolean).join('; ');
}

// Goes so near to a finding that its marker stands alone, unless others are all but at its place, and rings the place in each layer.
function lookAt({sheet, finding}) {
  if (!isOn(sheet)) { setLayer(sheet, true); }
  const area = areaOf(sheet), {x, y, reach} = finding;
  const alone = Math.max(roomOf(finding, sheet.findings), leastPixel(area, reach)) / pixelIn(area, 1);
  view = {x, y, part: Math.min(view.part, Math.max(24 * reach / board.width, 1 / 8), alone)};
  sheets.forEach(it => ringAt(it, x, y, reach + view.part * board.width / 40));
  if (!isInside(sheet.root)) { picture.scrollTop = sheet.root.offsetTop; }
  show();
}

// How large a pixel may be, in millimetres, so that no other marker covers a finding or its marker.
function roomOf(finding, findings) {
  return 0.999 * findings.reduce((room, it) => {
    const across = Math.abs(it.x - finding.x), along = Math.abs(it.top - finding.top) - 2 * finding.reach;
    return it === finding ? room : Math.min(room, Math.max(across / markerWidth, along / markerHeight));
  }, Infinity);
}

function ringAt(sheet, x, y, radius) {
  if (!sheet.here) {
    sheet.here = document.createElementNS(drawing.namespaceURI, 'circle');
    sheet.here.setAttribute('class', 'here');
    sheet.svg.append(sheet.here);
  }
  Object.entries({cx: x, cy: y, r: radius}).forEach(([name, length]) => sheet.here.setAttribute(name, length));
}

function isInside(root) {
  return root.offsetTop >= picture.scrollTop && root.offsetTop + root.offsetHeight <= picture.scrollTop + picture.clientHeight;
}

// Chooses a finding, and puts it into the address.
function go(number) {
  try { history.replaceState(null, '', `#f${number}`); } catch (refused) { location.hash = `f${number}`; }
  choose(number);
}

function goToAddress() {
  const number = /^#f?([0-9]+)$/.exec(location.hash);
  if (number) { choose(Number(number[1])); }
}

function numberIn(row) { return Number(row.cells[0].textContent); }

// ---- what is done with mouse and keys

table.addEventListener('click', event => {
  const row = event.target.closest('tbody tr');
  if (row) { event.preventDefault(); go(numberIn(row)); }
});
table.addEventListener('keydown', event => {
  const step = {ArrowDown: 1, ArrowUp: -1}[event.key], row = event.target.closest('tbody tr');
  const next = step && row && rows[numberIn(row) - 1 + step];
  if (next) {
    event.preventDefault();
    next.querySelector('a').focus({preventScroll: true});
    go(numberIn(next));
  }
});

sheets.forEach(sheet => sheet.button.addEventListener('click', () => setLayer(sheet, !isOn(sheet))));
document.getElementById('nearer').addEventListener('click', () => zoom(0.6));
document.getElementById('further').addEventListener('click', () => zoom(1 / 0.6));
document.getElementById('whole').addEventListener('click', fit);

picture.addEventListener('keydown', event => {
  if (event.ctrlKey || event.altKey || event.metaKey) { return; }
  const keys = {
    '+': [zoom, 0.6], '=': [zoom, 0.6], '-': [zoom, 1 / 0.6], '0': [fit],
    ArrowLeft: [move, -0.1, 0], ArrowRight: [move, 0.1, 0], ArrowUp: [move, 0, -0.1], ArrowDown: [move, 0, 0.1]
  };
  const marker = event.target.closest('.marker'), [use, ...words] = marker && stepFrom(marker, event.key) || keys[event.key] || [];
  if (use) { event.preventDefault(); use(...words); }
});

// On a marker the arrow keys go to the one before or after it.
function stepFrom(marker, key) {
  const {previousSibling: before, nextSibling: after, parentNode: all} = marker;
  const to = {ArrowLeft: before, ArrowUp: before, ArrowRight: after, ArrowDown: after, Home: all.firstChild, End: all.lastChild};
  return key in to && [() => (to[key] || marker).focus({preventScroll: true})];
}

picture.addEventListener('focusin', event => {
  if (!event.target.matches('.marker')) { return; }
  event.target.parentNode.querySelectorAll('[tabindex=\"0\"]').forEach(it => { it.tabIndex = -1; });
  event.target.tabIndex = 0;
});
picture.addEventListener('click', event => {
  const marker = event.target.closest('.marker'), finding = event.target.closest('.finding');
  if (dragged && event.detail > 0) { return; }
  if (marker) { useMarker(marker); } else if (finding) { go(Number((finding.id || finding.dataset.id).slice(1))); }
});
picture.addEventListener('wheel', event => {
  const sheet = sheets.find(it => it.sight.contains(event.target));
  if (!sheet) { return; }
  event.preventDefault();
  const area = areaOf(sheet), pixel = pixelIn(area, view.part);
  const right = event.clientX - area.left - area.width / 2, down = event.clientY - area.top - area.height / 2;
  zoom(1.2 ** Math.sign(event.deltaY), {x: view.x + right * pixel, y: view.y + down * pixel});
}, {passive: false});
picture.addEventListener('pointerdown', event => {
  const sheet = sheets.find(it => it.sight.contains(event.target));
  dragged = false;
  if (event.button === 0 && sheet) { drag = {x: event.clientX, y: event.clientY, view, pixel: pixelIn(areaOf(sheet), view.part)}; }
});
picture.addEventListener('pointermove', event => {
  if (!drag) { return; }
  const right = event.clientX - drag.x, down = event.clientY - drag.y;
  if (!dragged && Math.abs(right) + Math.abs(down) < 4) { return; }
  if (!dragged) { dragged = true; picture.setPointerCapture(event.pointerId); }
  view = {x: drag.view.x - right * drag.pixel, y: drag.view.y - down * drag.pixel, part: drag.view.part};
  show();
});
['pointerup', 'pointercancel'].forEach(it => picture.addEventListener(it, () => { drag = null; }));

new ResizeObserver(show).observe(picture);
window.addEventListener('beforeprint', () => { onPaper = true; draw(); });
window.addEventListener('afterprint', () => { onPaper = false; show(); });
window.addEventListener('hashchange', goToAddress);
})();
";
