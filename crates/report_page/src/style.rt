//! How the page looks. The picture has a style of its own, whose classes are not used here.

/// The style sheet of the page: the picture and the table side by side, on a narrow screen one below the other, and on a very narrow one, such as
/// that of a phone, each finding as a card in place of a row. The sheets of the layers stand in as many columns as have 22em each. On paper stand
/// all layers and all rows, with the colours for light ground.
/// The parts of a table of many findings (`many`) are laid out as they come into view, which a browser does for boxes other than those of a
/// table alone: each row is a grid whose columns are as wide as those of the table. The third column, the name of a layer's file, takes the width
/// that the others leave. The tool table (`drills`) stands below, and scrolls in a box of its own, on a phone along both axes.
pub const STYLE: &str = "\
:root{color-scheme:light dark;--ink:#222;--paper:#fff;--edge:#999;--rule:#ddd;--head:#eee;--over:#f4f1e6;--on:#ffe08a;--link:#0040b0;--strong:#0050d0;--faint:#666;--lack:#c00018}
@media screen and (prefers-color-scheme:dark){
:root{--ink:#e4e4e4;--paper:#181818;--edge:#777;--rule:#3a3a3a;--head:#2b2b2b;--over:#33302a;--on:#5c4700;--link:#8ab4ff;--strong:#6aa8ff;--faint:#a0a0a0;--lack:#ff6673}
main text{fill:#e4e4e4}
main .board{fill:#22211d;stroke:#777}
main .plated,main .unplated{fill:#181818;stroke:#ccc}
main .slot{stroke:#181818}
main .rim{stroke:#ccc}
main .other{stroke:#aaa}
main .drawn{stroke:#4d4232}
main .drawn g{fill:#4d4232}
main circle.ring{fill:#ff6673;stroke:#ff6673}
main path.ring{stroke:#ff6673}
main .gap{stroke:#c99aff}
main .outline{stroke:#ccc}
}
body{margin:0;font:16px/1.4 sans-serif;color:var(--ink);background:var(--paper);display:flex;flex-direction:column;height:100vh}
header{flex:none;max-height:40vh;overflow:auto;padding:.5em 1em;border-bottom:1px solid var(--edge)}
header ul{margin:.2em 0;padding-left:1.2em}
h1{font-size:1.3em;margin:0}
header p,#selected{margin:0}
main{flex:1;min-height:0;display:grid;grid-template-columns:minmax(0,1fr) minmax(0,1.15fr)}
section{display:flex;flex-direction:column;min-height:0;padding:.5em;gap:.5em}
.tools{display:flex;flex-wrap:wrap;gap:.3em;max-height:7em;overflow:auto}
button{font:inherit;font-size:.85em;padding:.2em .6em;overflow-wrap:anywhere}
button[aria-pressed=false]{text-decoration:line-through;color:var(--faint)}
details{font-size:.85em}
details p{margin:0}
#picture{flex:1;min-height:0;margin:0;border:1px solid var(--edge);position:relative;overflow:auto;display:grid;gap:1px;grid-template-columns:repeat(auto-fit,minmax(min(22em,100%),1fr));grid-auto-rows:minmax(16em,1fr)}
.sheet{display:flex;flex-direction:column;min-width:0;min-height:0;outline:1px solid var(--rule)}
.sheet[hidden]{display:none}
h2{font-size:.9em;margin:0;padding:.1em .4em;white-space:nowrap;overflow:hidden;text-overflow:ellipsis}
small{font-weight:normal;color:var(--faint)}
.sight{flex:1;min-height:0;position:relative;overflow:hidden;overflow:clip;touch-action:none;user-select:none;cursor:grab}
.sight>svg,.markers{position:absolute;inset:0;width:100%;height:100%}
.sight .name,.sight .note,.sight .mark,.sight .number{display:none}
.sight .board{stroke-width:1px;vector-effect:non-scaling-stroke}
.sight .outline path{stroke-width:1.5px;vector-effect:non-scaling-stroke}
.markers{pointer-events:none}
.marker{position:absolute;transform:translate(-50%,calc(-100% - 4px));pointer-events:auto;box-sizing:border-box;min-width:20px;height:20px;padding:0 3px;border:1px solid var(--lack);border-radius:10px;font:bold 11px/18px sans-serif;white-space:nowrap;color:var(--lack);background:var(--paper);cursor:pointer}
.marker::after{content:'';position:absolute;left:50%;top:100%;margin-left:-4px;border:4px solid transparent;border-top-color:var(--lack);border-bottom:0}
.marker.group{color:var(--paper);background:var(--lack)}
.marker.on{color:var(--paper);background:var(--strong);border-color:var(--strong)}
.marker.on::after{border-top-color:var(--strong)}
.marker:hover,.marker:focus,.marker.on{z-index:1}
.bar{position:absolute;left:6px;bottom:6px;border:1px solid;border-top:0;font-size:.7em;line-height:1.2;text-align:center;white-space:nowrap;pointer-events:none}
.key{flex:none;width:100%;max-width:30rem;height:3.2rem}
#selected{height:4.2em;overflow:auto;overflow-wrap:anywhere}
#spoken{position:absolute;width:1px;height:1px;margin:0;overflow:hidden;clip-path:inset(50%);white-space:nowrap}
#rows{flex:1;min-height:0;overflow:auto;border:1px solid var(--edge)}
#drills{flex:none;max-height:24vh;overflow:auto;border:1px solid var(--edge)}
table{width:100%;border-collapse:collapse;font-size:.75em}
#rows table{table-layout:fixed;min-width:54em}
#drills table{min-width:44em}
caption{text-align:left;padding:.3em;font-weight:bold}
th,td{text-align:left;vertical-align:top;padding:.2em .3em;border-top:1px solid var(--rule);overflow-wrap:anywhere}
thead th{position:sticky;top:0;background:var(--head)}
#rows thead th:nth-child(1),#rows thead th:nth-child(6){width:4.8em}
#rows thead th:nth-child(5){width:5.4em}
#rows thead th:nth-child(2){width:4.5em}
#rows thead th:nth-child(4){width:21%}
#rows thead th:nth-child(7){width:3em}
#rows thead th:nth-child(8){width:15%}
#rows thead th:nth-child(9){width:8%}
#rows tbody tr{cursor:pointer}
#rows tbody tr:hover{background:var(--over)}
#rows tbody tr.on{background:var(--on)}
#drills tr>:nth-child(n+3){overflow-wrap:normal}
#drills td:last-child{font-weight:bold;color:var(--lack)}
a{color:var(--link)}
:focus-visible{outline:3px solid var(--strong);outline-offset:-1px}
.reading main{display:none}
.finding{cursor:pointer}
.finding.on>*{stroke:var(--strong)}
.here{fill:none;stroke:var(--strong);stroke-width:3px;vector-effect:non-scaling-stroke;pointer-events:none}
@media screen{
table.many,.many caption,.many thead,.many tbody{display:block}
.many tr{display:grid;grid-template-columns:5.4em 5.1em minmax(0,1fr) 21% 6em 5.4em 3.6em 15% 8%}
.many tbody{content-visibility:auto;contain-intrinsic-size:auto 680em}
.many thead{position:sticky;top:0;z-index:1}
#rows .many thead th{position:static;width:auto}
}
@media screen and (max-width:85em){
body{height:auto}
header{max-height:none}
main{display:block}
#picture{overflow:visible;grid-auto-rows:60vh}
#rows,#drills{max-height:70vh}
}
@media screen and (max-width:43em){
#rows{max-height:none;overflow:visible;border:0}
#rows table{min-width:0;font-size:.9em}
#rows table,#rows caption,#rows tbody,#rows tr,#rows th,#rows td{display:block}
#rows thead,#rows td:empty{display:none}
#rows tbody tr{margin:.5em 0;padding:.3em;border:1px solid var(--edge);border-radius:.4em}
#rows th,#rows td{border:0;padding:.1em .3em}
#rows tbody th::before{content:'#'}
#rows td:nth-child(3)::before{content:'layer: '}
#rows td:nth-child(5)::before{content:'diameter: '}
#rows td:nth-child(6)::before{content:'ring or gap: '}
#rows td:nth-child(7)::before{content:'rule: '}
#rows td:nth-child(8)::before{content:'cause: '}
#rows td:nth-child(9)::before{content:'waived: '}
#rows td::before{color:var(--faint)}
}
@media print{
body,main,section,#picture,.sheet,.sheet[hidden]{display:block;height:auto}
#picture,#rows,#drills{border:0;overflow:visible}
#drills{max-height:none}
.tools,#selected{display:none}
header{max-height:none;overflow:visible}
.sheet{outline:0;break-inside:avoid;margin-bottom:1em}
.sight{aspect-ratio:var(--shape);width:min(100%,80vh*var(--shape))}
#rows table,#drills table{min-width:0;font-size:.6em}
thead th{position:static}
tr{break-inside:avoid}
*{print-color-adjust:exact}
}
";
