//! The pages that `ringcheck explain` prints.

ghost use Rattle.std.specs.Prelude.{◌≡◌};
ghost use Rattle.std.specs.List.{before_first};
ghost use Rattle.ringcheck_files.specs.PageWords.{is_colon};

/// The pages of the 48 reasons, in the order of their numbers, then those of the findings, of their causes and of the wide profile.
/// Each begins with its word and a colon.
pub(crate) const PAGES: [&str; 66] = [
    "\
TooLong: an item or a line is longer than 1,048,576 bytes, or the file is over
its limit (268,435,456 bytes; 1,048,576 for a manifest or a file of waivers).
Check that the right file was named, and export it again. A zip archive is not
a manifest: unpack it, and name the files in it.
In a file of waivers, at a place above 0: the reason in that record is longer
than 1,000 bytes. Write a shorter one.
",
    "\
AfterEnd: something follows the end of the file, which is M02 in a
layer and M30 in a drill file. Export the file again, on its own.
",
    "\
Truncated: the file ends before M02 (layer) or M30 (drill file), so the export
was cut off. Export it again. An empty file is refused in the same way:
VeroRoute writes one for a layer that does not exist. Leave it out of the
manifest.
",
    "\
SeveralInOne: one pair of % holds several commands, an older way of writing
Gerber (Allegro). Check with --profile wide: it reads them.
",
    "\
ClearPolarity: %LPC*% removes copper, and the check cannot follow that.
VeroRoute: turn ground fill off. Planes: plot them as positives, or without
cut-outs in clear polarity. Or check with --profile wide: it counts what is
flashed after the last clear object.
",
    "\
BlockAperture: %AB starts an aperture made up of other flashes and draws, and
the check cannot follow that. Export the layer again without block apertures.
",
    "\
NegativeImage: the layer is a negative, so what is drawn is removed. Plot it
as a positive, and export it again.
",
    "\
TrailingZeros: the coordinates omit trailing zeros (%FST), an older way of
writing Gerber. If your tool has a setting for RS-274X or X2, use it. If not:
  gerbv -x rs274x -o OUT IN
Sizes are then rounded to 0.1 mil, and attributes are lost.
",
    "\
Incremental: the coordinates are steps from the previous point (G91, ICI,ON,
%FSLI), not positions. Export the file again with absolute coordinates. If
your tool has no setting for that, and the file is a drill file:
  gerbv -x drill -o OUT IN
Diameters are then rounded to 1 mil, and routed slots are dropped.
",
    "\
OldParameter: a parameter that Gerber no longer has (OF, MI, SF, AS or IR,
with an effect), or a word M00, M01 or N. If your tool has a setting for
RS-274X or X2, use it. If not:
  gerbv -x rs274x -o OUT IN
Sizes are then rounded to 0.1 mil, and attributes are lost.
",
    "\
OldFormat: the drill file does not begin with M48, or it names an older format
(FMAT,1 or G93).
If it is a drill file in Gerber X2: export it as Excellon instead.
pcb-rnd writes only M30 when there are no holes: leave that file out, or check
with --profile wide.
OrCAD:
  gerbv -x drill -o OUT IN
Diameters are then rounded to 1 mil, and routed slots are dropped.
",
    "\
Routed: the line starts a routed path. A slot must be one line with G85.
KiCad: Generate Drill Files, oval holes drill mode, use alternate drill mode.
pcb-rnd: -c plugins/export_excellon/plated_g85_slot=1
         -c plugins/export_excellon/unplated_g85_slot=1
Altium (known setting, not tried): NC Drill Setup, use drilled slot command
(G85).
Or check with --profile wide: it reads slots routed with G00, M15, G01, M16.
",
    "\
Repeat: the drill file repeats holes with a code or a pattern, but the check
needs each hole on a line of its own. Export it again without patterns, or:
  gerbv -x drill -o OUT IN
Diameters are then rounded to 1 mil, and routed slots are dropped.
Or check with --profile wide: it reads hits that R repeats, as R3X2.54 does.
",
    "\
BadWord: the check does not know this Gerber word or parameter. Look at the
item: place is its number, byte is where it starts. Old headers, such as
%ICAS*% and %FSAX.., can be rewritten:
  gerbv -x rs274x -o OUT IN
Sizes are then rounded to 0.1 mil, and attributes are lost. This made 6 of 9
refused layers acceptable.
",
    "\
BadLine: the check does not know this line of the drill file. Look at it:
place is its number. Routing, patterns and incremental input are not allowed.
If your tool has no setting to avoid them:
  gerbv -x drill -o OUT IN
Diameters are then rounded to 1 mil, and routed slots are dropped.
",
    "\
BadNumber: a field is not a number of the right kind, or not one allowed here.
In a file: export it again. On the command line: write a length in millimetres
as in 0.125.
",
    "\
NoZeros: a coordinate without a decimal point omits zeros, and the header does
not say which.
KiCad: zeros format, decimal or keep zeros.
Altium (known setting, not tried): keep leading and trailing zeroes.
Or say its unit, digits and zeros in the manifest (version 3), and check with
--profile wide.
",
    "\
TooManyDigits: a coordinate has more digits than the file's format allows.
Export the file again.
",
    "\
TooFine: a number has a ninth or later decimal that is not 0. In a file:
export it again with fewer decimals. On the command line: give the length in
millimetres, with at most eight decimals.
",
    "\
TooFar: a length is above 10 m, usually because of a wrong unit or a wrong
number of decimals. Export the file again, or fix the length on the command
line.
",
    "\
BareCoordinate: a coordinate has no D code, and no operation stands before it
that it repeats. In the profile strict it repeats a draw alone. Check with
--profile wide, or export the layer again.
",
    "\
InRegion: a command between G36 and G37, where the outline of a region is
drawn, is not allowed there. Export the layer again.
",
    "\
NotInRegion: G37 ends a region that no G36 has started. Export the layer
again.
",
    "\
NoFormat: the layer does not give the format of its coordinates (%FS) before
it draws or ends. Export it again, in full.
",
    "\
NoUnit: the file does not give its unit (%MO in a layer, METRIC or INCH in
the header of a drill file). Export it again, in full. Or say the unit of a
drill file in the manifest (version 3), and check with --profile wide.
",
    "\
UnitConflict: two lines of one file disagree on the unit. Export it again.
",
    "\
FormatConflict: two lines of one file disagree on the number of decimals in
its coordinates, or on which zeros are omitted. Export it again.
",
    "\
Redefined: the same aperture, macro or tool is defined twice. To rewrite a
layer, or a drill file:
  gerbv -x rs274x -o OUT IN
  gerbv -x drill -o OUT IN
In a layer, sizes are then rounded to 0.1 mil, and attributes are lost; in a
drill file, diameters are rounded to 1 mil, and routed slots are dropped.
",
    "\
UnknownMacro: an aperture uses a macro that is not defined before it. Export
the layer again, in full.
",
    "\
UnknownAperture: an aperture is selected that has not been defined. Export the
layer again, in full.
",
    "\
UnknownTool: a tool is selected that the header does not define. Export the
drill file again, in full.
",
    "\
NoAperture: a flash or a draw comes before any aperture has been selected.
Export the layer again, in full.
",
    "\
NoTool: a hole is drilled while no tool is selected. Export the drill file
again, in full.
",
    "\
BadSize: a size, a scale, a number of corners or a drill diameter is out of
range, such as a drill of diameter 0. Fix the pad or the hole, and export the
file again.
",
    "\
BadRepeat: a step and repeat block (%SR) has a count that is not 1 to 10,000,
or a negative step. Export the layer again.
",
    "\
TooManyPads: the layer has more than 4,194,304 flashes, counting copies.
Export a smaller panel, or a single board.
",
    "\
TooManyHoles: the drill file has more than 1,048,576 holes. Export a smaller
panel, or a single board.
",
    "\
BadRule: the ring is negative, or the gap is not above 0. Give both in
millimetres, as in --ring 0.125 --gap 0.25. A picture takes both or neither.
",
    "\
BadManifest: in the manifest: it must begin with the record that names its
fields (role,name,file), and each other record must have the same number of
fields, of UTF-8 text without control characters. Place is the number of the
record.
In a file of waivers: the same, with the fields kind,layer,hole,and,has,why.
With the command manifest: a word is empty or has a control character.
A folder or a zip archive is neither a manifest nor a file of a package:
unpack the archive, and name the files, as in ringcheck manifest gerbers/*
",
    "\
BadRole: in the manifest: the role of a record is not copper, plated or
unplated (or mixed, with --profile wide). A ? means that the role is not
decided yet: decide, and write it in.
In a file of waivers: the kind of a record is neither ring nor gap.
With show and rewrite: the kind is neither layer nor drill.
With --format: the word is not a format, or it is waivers while --waive is
given, or it is not html while --outline is given.
With --profile: the word is neither strict nor wide.
With explain: the word has no page; ringcheck explain lists those that do.
",
    "\
EmptyName: in the manifest: a record has an empty name or an empty file name.
Fill it in; place is the number of the record.
In a file of waivers: a record has no reason. Write why the finding is
accepted after the last comma, or remove the record.
",
    "\
RepeatedName: a record of the manifest has the name of an earlier one. Give
each file a name of its own; place is the number of the record.
",
    "\
NoCopper: the manifest names no copper layer. Add a line for each one, such as
copper,top,top.gbr.
",
    "\
NoDrill: the manifest names no drill file. Add a line for each one, such as
plated,pth,pth.drl or unplated,npth,npth.drl.
",
    "\
NotCopper: the file says that it is not a copper layer (its file function
begins with a word other than Copper). Name another file in the manifest.
",
    "\
BadSpan: the layer span of a record is invalid, or is given where none is
allowed. A span is the numbers of the first and the last copper layer, the
first not above the last; copper layers have none. Fix the record in the
manifest.
",
    "\
NoPlating: in a drill file with the role mixed (with --profile wide), a hole
is drilled with a tool that the header calls neither plated nor unplated, or a
comment that calls tools one or the other comes after the header. A tool is
what the last such comment before it in the header says: ;TYPE=PLATED or
;TYPE=NON_PLATED, or in X2 attributes ; #@! TA.AperFunction,Plated,.. or
NonPlated,..
Export plated and unplated holes as two files, with the roles plated and
unplated; or have your tool write these comments (KiCad, not tried: merge PTH
and NPTH holes into one file, minimal header off).
",
    "\
PlatingConflict: a drill file with the role unplated says (with --profile
wide) that the holes of a tool, or of the whole file, are plated:
;TYPE=PLATED, or in X2 attributes ; #@! TA.AperFunction,Plated,.. or
; #@! TF.FileFunction,Plated,..
If they are plated, give the file the role plated. If it has both kinds, give
it the role mixed, or export two files. If none are plated, the tool that
wrote the file is wrong about them: fix it there.
",
    "\
RING: on this copper layer, no pad contains this plated hole, or every point
of this plated slot, with the ring around it. The line gives the layer and the
drill file by their numbers in the manifest, the hole by its number in the
drill file, its centre or its ends, and its diameter, in millimetres.
What to do: compare with the pads there (ringcheck show --kind layer FILE),
and find the cause among small, off, edge, none, macro, polygon, holed,
scaled, turned, clear and cleared: ringcheck explain small, and so on.
",
    "\
GAP: the edges of these two holes are closer to each other than the gap, or
they touch or overlap. The line gives the drill file of each hole by its
number in the manifest, and the hole by its number in that file; ringcheck
show --kind drill FILE shows where it is. Plated and unplated holes and slots
all count, and so does a hole that is drilled twice.
What to do: move the holes apart, drill them smaller, or remove the second of
two equal holes; check that no drill file is named twice.
",
    "\
OBLIQUE: this plated slot is parallel to neither axis, so its ring on this
copper layer is not judged. The line gives the layer, the drill file and the
slot by their numbers, and the slot's ends and diameter in millimetres.
What to do: turn the slot to an axis, or drill round holes instead.
",
    "\
ring: the copper around a hole is narrower than the rule in some direction.
Choose a larger pad or a smaller drill, or move the hole to the centre of its
pad. If the ring was designed to be exactly the rule, lower the rule: drill
files round positions and diameters, and of 1,731 holes that were designed
with 0.150 mm, 736 fail at 0.150, and none at 0.149. Use as the rule
  the ring minus 0.001 mm  (KiCad, drill files in mm),
  the ring minus 0.003 mm  (KiCad, drill files in inches),
  the ring minus 0.017 mm  (Fritzing).
",
    "\
small: the pad is too small for the hole and its ring, wherever the hole is
placed in it. Choose a larger pad or a smaller drill.
",
    "\
off: the pad is large enough for a hole at its centre, but the hole is off
centre. Drill files round positions and diameters, so a rule equal to the
designed ring fails: of 1,731 holes that were designed with 0.150 mm, 736 fail
at 0.150, and none at 0.149. Use as the rule
  the ring minus 0.001 mm  (KiCad, drill files in mm),
  the ring minus 0.003 mm  (KiCad, drill files in inches),
  the ring minus 0.017 mm  (Fritzing).
",
    "\
edge: in the wide profile, the hole lies in a rounded pad or in a contour, too
close to its edge for the ring. Move the hole or enlarge the pad: a ring in
such a pad is measured to its nearest edge.
",
    "\
none: no pad reaches the centre of the hole, and no flash lies in the hole.
The cause may be:
- an unused pad that was removed (KiCad: keep pads on all layers);
- a pad drawn as a region (gEDA pcb and pcb-rnd: square and octagonal pins;
  use round ones, or check with --profile wide, which counts a convex
  contour), or flashed from outside the hole in a shape that is not judged, so
  that its copper may be there (see ringcheck explain macro);
- a plane that the hole goes through without a pad;
- an unplated hole in a plated drill file;
- a drill file whose origin or number format is not that of the layers, which
  makes nearly every hole a finding: see the line scale of ringcheck measure.
",
    "\
macro: the only flash here is one by an aperture macro, which is not judged.
KiCad: rounded rectangle and custom pads are macros; choose circle, oval or
rectangle.
EAGLE and Altium (known, not tried): octagons and rounded rectangles too.
Or check with --profile wide: it counts such a pad if its shape is known.
",
    "\
polygon: a flash of a regular polygon is not judged. Choose a circle, an oval
or a rectangle for the pad.
Or check with --profile wide: it counts the disc inside a polygon of up to
twelve sides that has no hole.
",
    "\
holed: a flash of an aperture with a hole in it is not judged. Choose an
aperture without a hole: the drill file makes the hole.
",
    "\
scaled: a scaled flash (%LS) is not judged. Export the layer with the pad in
its own size.
",
    "\
turned: a flash turned (%LR) by an angle that is not a multiple of 90 degrees
is not judged, whatever its shape. Turn the pad by a multiple of 90 degrees.
Or check with --profile wide: of a rectangle or an oval it counts the disc
inside.
",
    "\
clear: in the wide profile, the only flash here is in clear polarity (%LPC),
which removes copper. Export the layer with the pad in dark polarity.
",
    "\
cleared: in the wide profile, the only flash here is followed by an object in
clear polarity (%LPC), which may remove its copper, so it does not count as a
pad. Export the layer with its pads after everything clear.
",
    "\
oblique: the ends of a plated slot differ in both directions (a line OBLIQUE
in the report). Rings are judged only for slots along an axis, so such a slot
is a finding on each copper layer that it goes through. Turn it to an axis, or
drill round holes instead; or check with --profile wide, where one pad that
covers both ends contains the slot.
",
    "\
plane: a negative plane that is not marked as one (such as Protel's .GP1) is
accepted as it is, and its clearance discs count as pads: a ring may pass that
does not exist. Do not name such a file as copper.
",
    "\
wide: the profile that check, report, measure, draw, show and manifest use
with --profile wide, in place of the strict one. These count as pads too:
- flashes of macros whose shape is known, such as rounded rectangles;
- regions whose contour is closed and convex.
A plated slot may lie in any direction, if one pad covers both of its ends.
These are read too:
- layers with clear polarity: what comes before a clear object is not a pad;
- slots that are routed in one straight line;
- drill files without holes, and, with the role mixed, plated and unplated
  holes in one file.
A file with the role unplated that says that holes are plated is refused.
",
];

/// The word of a page: what stands before its first colon.
pub(crate) fn word_of(page: &'static str) -> &'static str
    ensures { result.now ≡ before_first is_colon page.now }
{
    match page.split_once(':') {
        Some((word, _)) => word,
        None => page,
    }
}
