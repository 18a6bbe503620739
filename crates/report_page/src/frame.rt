//! What stands on every page, between what is said of a package.

/// From the start to the page's title: it is UTF-8, and no browser loads anything for it. The policy has the SHA-256 of each style and script
/// of the page, from tag to tag: the styles of the page and of its picture, and the scripts at its head and at its end. A browser runs no other,
/// whatever a name or a reason may be taken for.
pub const HEAD: &str = "\
<!DOCTYPE html>
<html lang=\"en\">
<head>
<meta charset=\"utf-8\">
<meta http-equiv=\"Content-Security-Policy\" content=\"default-src 'none'; style-src 'sha256-aT4E8f4ktUBSa/22t5g7KX4ECiMNC8p3jS1wDvbVvZE=' 'sha256-blXjcbfO961yVKxrEwJwWdE7jWJrdRTPj3qDpArJ4vs='; script-src 'sha256-csla810vQzhPU7yIUMJzKEb27vpT4YJVkWmKqyqpL1I=' 'sha256-s7T3FnPXJwAcHys8Hkqo0+R5fCeYtknlX8xpfPmife0='; base-uri 'none'; form-action 'none'\">
<meta name=\"viewport\" content=\"width=device-width, initial-scale=1\">
<title>";

/// From the title to the style.
pub const BEFORE_STYLE: &str = "\
</title>
<style>
";

/// From the style to the heading. Nothing is laid out until the page is read to its end, where the script says so: that is much quicker
/// than to begin anew with each part that comes in.
pub const BODY: &str = "\
</style>
<script>document.documentElement.className = 'reading';</script>
</head>
<body>
<header>
<h1>";

/// From the heading to the particulars of the report.
pub const BEFORE_RULES: &str = "\
</h1>
<p>";

/// From the program to the files.
pub const FILES: &str = "\
</p>
<details open>
<summary>files, and what PASS promises</summary>
<ul>
";

/// From the files to the premises, in the strict profile: what a pass promises.
pub const STRICT_PROMISE: &str = "\
</ul>
<p>In the profile strict PASS promises that every file is a text of its profile's grammar, on every copper layer of its drill file's span each plated \
round hole lies in one flashed pad, whose points hold every grid point within the hole's radius plus the required ring of its centre, and no points of \
two holes are nearer than the required gap. Each plated slot along an axis lies in one flashed pad in the same way, with the ring round each point of \
the line between its ends, and no plated slot is oblique.</p>
";

/// From the files to the premises, in the wide profile: what a pass promises.
pub const WIDE_PROMISE: &str = "\
</ul>
<p>In the profile wide PASS promises that every file is a text of its profile's grammar, on every copper layer of its drill file's span each plated \
hole, round or a slot in any direction, lies in one pad, whose points hold every grid point within the hole's radius plus the required ring of its \
centre line, and no points of two holes are nearer than the required gap. A pad is a flashed disc, rectangle or obround, the shape of a flashed macro, \
or a closed convex contour, from which clear polarity takes nothing away.</p>
";

/// From what a pass promises to the buttons: the premises, which no program can check.
pub const PREMISES: &str = "\
<p>The premises: these are the files that the board is made from; their roles and the order of the copper files are right; plated holes go through the \
layers of the span that is named, or through all copper layers if none is named; what is flashed on a layer is copper when the board is made; in the \
profile wide, macros, regions and polarity mean what the Gerber format says; the toolchain, its compiler, libraries and logic and the operating system \
do what they say. Nothing is promised of findings that are waived.";

/// From the premises to the buttons of the layers: the buttons that zoom.
pub const TOOLS: &str = "\
</p>
</details>
</header>
<main>
<section aria-label=\"picture\">
<div class=\"tools\">
<button type=\"button\" id=\"nearer\">zoom in</button>
<button type=\"button\" id=\"further\">zoom out</button>
<button type=\"button\" id=\"whole\">fit</button>
<details><summary>keys</summary><p id=\"keys\">In the picture plus and minus zoom, 0 fits, and arrows move. Tab goes on to the markers of a layer: there arrows go from marker to marker, and Enter chooses a finding, or zooms in on findings that are close together. In the table arrows go from row to row.</p></details>
</div>
<div class=\"tools\" role=\"group\" aria-label=\"layers\">
";

/// From the buttons of the layers to the picture.
pub const FIGURE: &str = "\
</div>
<figure id=\"picture\" tabindex=\"0\" aria-label=\"The board, a picture for each layer. The table has all findings.\" aria-describedby=\"keys\">
";

/// From the picture to the number of findings. The script takes a `sheet` for each layer.
pub const CAPTION: &str = "\
</figure>
<template id=\"sheet\"><div class=\"sheet\"><h2><span></span> <small></small></h2><div class=\"sight\"><div class=\"markers\" role=\"group\"></div><div class=\"bar\" aria-hidden=\"true\"></div></div></div></template>
<p id=\"spoken\" role=\"status\"></p>
</section>
<section aria-label=\"findings\">
<p id=\"selected\" aria-live=\"polite\">No finding is selected.</p>
<div id=\"rows\">
<table>
<caption>";

/// From the number of findings to their rows: the heads of the columns. Lengths are in millimetres.
pub const COLUMNS: &str = "\
; lengths in mm</caption>
<thead>
<tr><th scope=\"col\">number</th><th scope=\"col\">kind</th><th scope=\"col\">layer</th><th scope=\"col\">hole or holes</th><th scope=\"col\">diameter</th><th scope=\"col\">ring or gap</th><th scope=\"col\">rule</th><th scope=\"col\">cause</th><th scope=\"col\">waived</th></tr>
</thead>
<tbody>
";

/// From the rows of the findings to those of the tool table: the heads of its columns. Lengths are in millimetres.
pub const TOOL_COLUMNS: &str = "\
</tbody>
</table>
</div>
<div id=\"drills\" role=\"region\" aria-label=\"tool table\" tabindex=\"0\">
<table>
<caption>tool table: the smallest annular ring on each layer for each drill file and diameter; lengths in mm</caption>
<thead>
<tr><th scope=\"col\">layer</th><th scope=\"col\">drill file</th><th scope=\"col\">diameter</th><th scope=\"col\">holes</th><th scope=\"col\">no pad that counts</th><th scope=\"col\">smallest ring of the others</th><th scope=\"col\">rule</th><th scope=\"col\">mark</th></tr>
</thead>
<tbody>
";

/// From the rows of the tool table to the script.
pub const BEFORE_SCRIPT: &str = "\
</tbody>
</table>
</div>
</section>
</main>
<script>
";

/// From the script to the end.
pub const END: &str = "\
</script>
</body>
</html>
";
