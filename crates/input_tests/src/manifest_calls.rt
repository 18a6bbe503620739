//! Manifests that are accepted, with the files and spans that they name, and those that are refused.

use drill_lines::CoordinateFormat;
use grid_units::Reason::*;
use grid_units::{Fail, Profile, Reason, Span, Unit, Zeros};
use manifest::*;
use std::alloc::{AllocError, Global};

/// The place, the byte and the reason of a refusal.
fn refusal_of(read: Result<Vec<Entry>, Fail>) -> Option<(u64, u64, Reason)> {
    match read {
        Err(Fail::Refused(fault)) => Some((fault.place, fault.byte, fault.reason)),
        _ => None,
    }
}

/// The place, the byte and the reason with which a manifest is refused in a profile.
fn refusal_in(rt: HostRuntime, profile: Profile, text: &[u8]) -> Option<(u64, u64, Reason)> {
    refusal_of(read_manifest_in(rt.alloc(), profile, text))
}

/// The same with the function that reads in the strict profile.
fn refusal(rt: HostRuntime, text: &[u8]) -> Option<(u64, u64, Reason)> {
    refusal_of(read_manifest(rt.alloc(), text))
}

/// Whether a manifest is refused for this reason at the record of this number.
fn refuses(rt: HostRuntime, text: &[u8], place: u64, reason: Reason) -> bool {
    refusal(rt, text) == Some((place, 0, reason))
}

fn are_named(entries: &[Entry], files: &[Record]) -> bool {
    for (entry, file) in entries.iter().zip(files) {
        let is_named = entry.name.as_str() == file.1 && entry.file.as_str() == file.2;
        if entry.role != file.0 || !is_named {
            return false;
        }
    }
    entries.len() == files.len()
}

/// Whether the entries have just these spans.
fn are_spanned(entries: &[Entry], spans: &[LayerRange]) -> bool {
    entries.len() == spans.len()
        && entries
            .iter()
            .zip(spans)
            .all(|(entry, span)| layers_of(entry.said.span) == *span)
}

/// What the entries of a manifest have: just these files, or just these spans.
#[derive(Clone, Copy)]
enum Has<'a> {
    Files(&'a [Record]),
    Spans(&'a [LayerRange]),
}

fn are_so(entries: &[Entry], what: Has) -> bool {
    match what {
        Has::Files(files) => are_named(entries, files),
        Has::Spans(spans) => are_spanned(entries, spans),
    }
}

/// Whether a manifest is accepted, and its entries have this.
fn is_accepted(rt: HostRuntime, text: &str, what: Has) -> bool {
    match read_manifest(rt.alloc(), text.as_bytes()) {
        Ok(entries) => are_so(&entries, what),
        Err(_) => false,
    }
}

/// The role, the name and the file of a record.
type Record = (Role, &'static str, &'static str);

const TWO_FILES: [Record; 2] = [(Role::Copper, "a", "b"), (Role::Plated, "c", "d")];

/// A manifest that is accepted, and the files that it names.
const NAMED: [(&str, &[Record]); 9] = [
    (
        "role,name,file\ncopper,top,top.gbr\ncopper,bottom,bottom.gbr\nplated,pth,pth.drl\nunplated,npth,npth.drl\n",
        &[
            (Role::Copper, "top", "top.gbr"),
            (Role::Copper, "bottom", "bottom.gbr"),
            (Role::Plated, "pth", "pth.drl"),
            (Role::Unplated, "npth", "npth.drl"),
        ],
    ),
    // a byte order mark is dropped
    (
        "\u{FEFF}role,name,file\ncopper,a,b\nplated,c,d\n",
        &TWO_FILES,
    ),
    // records end with any line end, and empty lines are none
    ("role,name,file\r\ncopper,a,b\r\nplated,c,d\r\n", &TWO_FILES),
    ("role,name,file\rcopper,a,b\rplated,c,d", &TWO_FILES),
    (
        "\n\r\nrole,name,file\n\n\ncopper,a,b\n\nplated,c,d\n\n\n",
        &TWO_FILES,
    ),
    // quoted fields
    (
        "\"role\",name,file\ncopper,\"a,b\",\"c\"\"d\"\nplated,\"e\"f,g\"h\"\n",
        &[
            (Role::Copper, "a,b", "c\"d"),
            (Role::Plated, "ef", "g\"h\""),
        ],
    ),
    ("role,name,file\ncopper,a,b\nplated,c,\"d", &TWO_FILES),
    // letters that are not ASCII, and spaces
    (
        "role,name,file\ncopper,oberste Lage \u{E4}~, top.gbr \nunplated,n,n\n",
        &[
            (Role::Copper, "oberste Lage \u{E4}~", " top.gbr "),
            (Role::Unplated, "n", "n"),
        ],
    ),
    // one file may stand twice
    (
        "role,name,file\ncopper,a,x\nplated,b,x\n",
        &[(Role::Copper, "a", "x"), (Role::Plated, "b", "x")],
    ),
];

#[test]
fn files_are_named_in_order(rt: HostRuntime) {
    for &(text, files) in &NAMED {
        assert!(rt; is_accepted(rt, text, Has::Files(files)), "of {text}");
    }
}

/// A manifest, and the place and the reason of its refusal.
const REFUSED: [(&str, u64, Reason); 36] = [
    // records that break a rule
    ("", 1, BadManifest),
    ("role,file,name\n", 1, BadManifest),
    ("role,name,file\nvia,a,b\n", 2, BadRole),
    ("role,name,file\ncopper,,b\n", 2, EmptyName),
    ("role,name,file\ncopper,a,b\ncopper,a,b\n", 3, RepeatedName),
    ("role,name,file\ncopper,a,b\n", 3, NoDrill),
    ("role,name,file\nplated,pth,pth.drl\n", 3, NoCopper),
    // every record has as many fields as the first
    ("role,name,file,first,last\ncopper,a,b\n", 2, BadManifest),
    ("role,name,file,first,last\ncopper,a,b,\n", 2, BadManifest),
    ("role,name,file,first,last\ncopper,a,b,,,\n", 2, BadManifest),
    ("role,name,file\ncopper,a,b,,\n", 2, BadManifest),
    ("role,name,file,first\n", 1, BadManifest),
    ("role,name,file,last,first\n", 1, BadManifest),
    ("role,name,file,first,last,\n", 1, BadManifest),
    // one byte order mark is dropped, and what is left is read
    ("\u{FEFF}", 1, BadManifest),
    ("\u{FEFF}\u{FEFF}role,name,file\n", 1, BadManifest),
    // empty lines are no records
    ("role,name,file\n\n\nvia,a,b\n", 2, BadRole),
    ("role,name,file\ncopper,a,b\n\n\n", 3, NoDrill),
    // quoted fields are read, and are no empty lines
    ("role,name,file\n\"\"\n", 2, BadManifest),
    ("role,name,file\n \n", 2, BadManifest),
    ("role,name,file\ncopper,\"a\nb\",c\n", 2, BadManifest),
    // fields are text without control bytes
    ("role,name,file\ncopper,a\u{1F},b\n", 2, BadManifest),
    ("role,name,file\ncopper,a,b\t\n", 2, BadManifest),
    ("role,name,file\ncopper,a,\u{7F}\n", 2, BadManifest),
    ("role,name,file\ncopper,a\n", 2, BadManifest),
    ("role,name,file\ncopper,a,b,c\n", 2, BadManifest),
    // the first reason in order counts
    ("role,name,file\nvia,\u{1},b\n", 2, BadManifest),
    ("role,name,file\nvia,,b\n", 2, BadRole),
    ("role,name,file\nCopper,a,b\n", 2, BadRole),
    ("role,name,file\n,a,b\n", 2, BadRole),
    ("role,name,file\ncopper,a,b\ncopper,a,\n", 3, EmptyName),
    ("role,name,file\ncopper,a,b\nplated,a,c\n", 3, RepeatedName),
    (
        "role,name,file\ncopper,a,b\nvia,c,d\nplated,a,c\n",
        3,
        BadRole,
    ),
    ("role,name,file\n", 2, NoCopper),
    ("role,name,file,from\n", 1, BadManifest),
    ("Role,name,file\ncopper,a,b\n", 1, BadManifest),
];

#[test]
fn manifests_that_break_a_rule_are_refused(rt: HostRuntime) {
    for &(text, place, reason) in &REFUSED {
        assert!(rt; refuses(rt, text.as_bytes(), place, reason), "of {text}");
    }
}

/// A name that is not UTF-8 is refused.
#[test]
fn names_are_text(rt: HostRuntime) {
    let text = b"role,name,file\ncopper,a\xFF,b\n";
    assert!(rt; refuses(rt, text, 2, BadManifest));
}

/// The span of a record, if it has one.
type LayerRange = Option<(u32, u32)>;

fn layers_of(span: Option<Span>) -> LayerRange {
    match span {
        Some(span) => Some((span.first(), span.last())),
        None => None,
    }
}

/// A manifest of version 2 with these records of files.
fn with_records(alloc: Global, records: &str) -> Result<String, AllocError> {
    format!(in alloc; "role,name,file,first,last\n{records}")
}

/// A manifest of version 2: two copper layers, and a drill file with these fields for its span.
fn with_span(alloc: Global, fields: &str) -> Result<String, AllocError> {
    format!(in alloc;
        "role,name,file,first,last\ncopper,top,top.gbr,,\ncopper,bot,bot.gbr,,\nplated,pth,pth.drl,{fields}\n"
    )
}

/// Whether such a manifest is accepted with this span.
fn has_span(rt: HostRuntime, fields: &str, span: LayerRange) -> bool {
    match with_span(rt.alloc(), fields) {
        Ok(text) => is_accepted(rt, text.as_str(), Has::Spans(&[None, None, span])),
        Err(_) => false,
    }
}

/// Whether such a manifest is refused for its span.
fn refuses_span(rt: HostRuntime, fields: &str) -> bool {
    match with_span(rt.alloc(), fields) {
        Ok(text) => refuses(rt, text.as_bytes(), 4, BadSpan),
        Err(_) => false,
    }
}

/// Whether a manifest with these records is refused for this reason at the record of this number.
fn refuses_records(rt: HostRuntime, records: &str, place: u64, reason: Reason) -> bool {
    match with_records(rt.alloc(), records) {
        Ok(text) => refuses(rt, text.as_bytes(), place, reason),
        Err(_) => false,
    }
}

/// The fields of a span, and the span.
const SPANS: [(&str, LayerRange); 5] = [
    ("1,1", Some((1, 1))),
    ("1,2", Some((1, 2))),
    ("2,2", Some((2, 2))),
    ("01,000000002", Some((1, 2))),
    (",", None),
];

#[test]
fn drill_files_name_the_layers_that_they_go_through(rt: HostRuntime) {
    for &(fields, span) in &SPANS {
        assert!(rt; has_span(rt, fields, span), "of {fields}");
    }
}

const NO_SPANS: [&str; 15] = [
    "2,1",
    "1,",
    ",1",
    "0,1",
    "0,0",
    "000,1",
    "1,3",
    "x,1",
    "1,-1",
    "+1,1",
    "1 ,1",
    "1,1.0",
    "1,0000000001",
    "0000000001,1",
    "1,1000000000",
];

#[test]
fn spans_that_are_none_are_refused(rt: HostRuntime) {
    for &fields in &NO_SPANS {
        assert!(rt; refuses_span(rt, fields), "of {fields}");
    }
}

/// Records of files, and the place and the reason of their refusal.
const REFUSED_RECORDS: [(&str, u64, Reason); 10] = [
    ("copper,top,top.gbr,1,1\n", 2, BadSpan),
    ("copper,top,top.gbr,,1\n", 2, BadSpan),
    ("plated,pth,pth.drl,1,1\n", 3, NoCopper),
    ("copper,top,top.gbr,,\n", 3, NoDrill),
    (
        "unplated,a,a.drl,1,2\nplated,b,b.drl,1,3\ncopper,c,c.gbr,,\n",
        2,
        BadSpan,
    ),
    (
        "unplated,a,a.drl,1,1\nplated,b,b.drl,1,3\ncopper,c,c.gbr,,\n",
        3,
        BadSpan,
    ),
    ("copper,a,b,,\nplated,a,c,2,1\n", 3, RepeatedName),
    ("plated,,c,2,1\n", 2, EmptyName),
    ("via,a,c,2,1\n", 2, BadRole),
    ("plated,a,c,2,\t\n", 2, BadManifest),
];

#[test]
fn the_first_refusal_is_told_of_spans(rt: HostRuntime) {
    for &(records, place, reason) in &REFUSED_RECORDS {
        assert!(rt; refuses_records(rt, records, place, reason), "of {records}");
    }
}

#[test]
fn files_of_version_1_have_no_span(rt: HostRuntime) {
    let text = "role,name,file\ncopper,a,b\nplated,c,d\n";
    assert!(rt; is_accepted(rt, text, Has::Spans(&[None, None])));
}

/// Whether a manifest is accepted in the wide profile, with just these files and just these spans.
fn is_accepted_wide(rt: HostRuntime, text: &str, files: &[Record], spans: &[LayerRange]) -> bool {
    match read_manifest_in(rt.alloc(), Profile::Wide, text.as_bytes()) {
        Ok(entries) => are_named(&entries, files) && are_spanned(&entries, spans),
        Err(_) => false,
    }
}

/// A manifest that only the wide profile accepts, with its files, their spans, and the record at which the strict one refuses it.
type WideRow = (&'static str, &'static [Record], &'static [LayerRange], u64);

const WIDE_ALONE: [WideRow; 4] = [
    (
        "role,name,file\ncopper,top,top.gbr\ncopper,bot,bot.gbr\nmixed,pth,all.drl\n",
        &[
            (Role::Copper, "top", "top.gbr"),
            (Role::Copper, "bot", "bot.gbr"),
            (Role::Mixed, "pth", "all.drl"),
        ],
        &[None, None, None],
        4,
    ),
    (
        "role,name,file\nmixed,a,b\ncopper,c,d\nplated,e,f\n",
        &[
            (Role::Mixed, "a", "b"),
            (Role::Copper, "c", "d"),
            (Role::Plated, "e", "f"),
        ],
        &[None, None, None],
        2,
    ),
    // a span, and none
    (
        "role,name,file,first,last\ncopper,a,b,,\ncopper,c,d,,\nmixed,e,f,1,2\n",
        &[
            (Role::Copper, "a", "b"),
            (Role::Copper, "c", "d"),
            (Role::Mixed, "e", "f"),
        ],
        &[None, None, Some((1, 2))],
        4,
    ),
    (
        "role,name,file,first,last\ncopper,a,b,,\nmixed,e,f,,\n",
        &[(Role::Copper, "a", "b"), (Role::Mixed, "e", "f")],
        &[None, None],
        3,
    ),
];

#[test]
fn mixed_is_a_role_of_the_wide_profile_alone(rt: HostRuntime) {
    for &(text, files, spans, place) in &WIDE_ALONE {
        assert!(rt; is_accepted_wide(rt, text, files, spans), "of {text}");
        assert!(rt; refuses(rt, text.as_bytes(), place, BadRole), "of {text}");
    }
}

/// A manifest, and the place and the reason of its refusal in the wide profile.
const REFUSED_WIDE: [(&str, u64, Reason); 9] = [
    // mixed files are no copper layers
    ("role,name,file\nmixed,a,b\n", 3, NoCopper),
    (
        "role,name,file,first,last\ncopper,a,b,,\nmixed,c,d,1,2\n",
        3,
        BadSpan,
    ),
    (
        "role,name,file,first,last\ncopper,a,b,,\nmixed,c,d,1,\n",
        3,
        BadSpan,
    ),
    // the word is `mixed`
    ("role,name,file\nMixed,a,b\n", 2, BadRole),
    ("role,name,file\nmixe,a,b\n", 2, BadRole),
    ("role,name,file\nmixed ,a,b\n", 2, BadRole),
    // the other rules count as before
    ("role,name,file\nmixed,,b\n", 2, EmptyName),
    ("role,name,file\ncopper,a,b\nmixed,a,c\n", 3, RepeatedName),
    ("role,name,file\nmixed,\u{1},b\n", 2, BadManifest),
];

#[test]
fn mixed_files_obey_the_rules_of_the_others(rt: HostRuntime) {
    for &(text, place, reason) in &REFUSED_WIDE {
        let refusal = refusal_in(rt, Profile::Wide, text.as_bytes());
        assert!(rt; refusal == Some((place, 0, reason)), "of {text}");
    }
}

/// What names no mixed file is read alike in both profiles.
#[test]
fn the_profiles_agree_elsewhere(rt: HostRuntime) {
    for &(text, place, reason) in &REFUSED {
        let refusal = refusal_in(rt, Profile::Wide, text.as_bytes());
        assert!(rt; refusal == Some((place, 0, reason)), "of {text}");
    }
}

/// The unit, the digits and the zeros that are said of a drill file's coordinates.
type Format = (Unit, Option<(u8, u8)>, Option<Zeros>);

fn format_of(said: Option<CoordinateFormat>) -> Option<Format> {
    let said = said?;
    let digits = match said.digits {
        Some(digits) => Some((digits.whole(), digits.decimals())),
        None => None,
    };
    Some((said.unit, digits, said.zeros))
}

/// The last three fields of a drill file of version 3, and what they say.
const FORMATS: [(&str, Option<Format>); 5] = [
    (
        "inch,2:4,TZ",
        Some((Unit::Inch, Some((2, 4)), Some(Zeros::Trailing))),
    ),
    (
        "mm,3:3,LZ",
        Some((Unit::Millimetre, Some((3, 3)), Some(Zeros::Leading))),
    ),
    ("mm,,", Some((Unit::Millimetre, None, None))),
    ("inch,,TZ", Some((Unit::Inch, None, Some(Zeros::Trailing)))),
    (",,", None),
];

/// The same that say nothing.
const NO_FORMATS: [&str; 9] = [
    ",2:4,",
    ",,TZ",
    "cm,,",
    "INCH,,",
    "inch,2:7,",
    "inch,0:4,",
    "inch,24,",
    "inch,,tz",
    "inch,,,",
];

/// A manifest of version 3: a copper layer with the fields `copper` for its coordinates, and a drill file with `drill`.
fn with_format(alloc: Global, copper: &str, drill: &str) -> Result<String, AllocError> {
    format!(in alloc;
        "role,name,file,first,last,unit,digits,zeros\ncopper,top,top.gbr,,,{copper}\nplated,pth,pth.drl,,,{drill}\n"
    )
}

/// Whether such a manifest is accepted in the wide profile, and says this of its drill file, and is refused in the strict one.
fn has_format(rt: HostRuntime, fields: &str, format: Option<Format>) -> bool {
    let Ok(text) = with_format(rt.alloc(), ",,", fields) else {
        return false;
    };
    let Ok(entries) = read_manifest_in(rt.alloc(), Profile::Wide, text.as_bytes()) else {
        return false;
    };
    let Some(drill) = entries.get(1) else {
        return false;
    };
    format_of(drill.said.format) == format && refuses(rt, text.as_bytes(), 1, BadManifest)
}

/// Whether such a manifest is refused in the wide profile at this record.
fn refuses_format(rt: HostRuntime, copper: &str, drill: &str, place: u64) -> bool {
    match with_format(rt.alloc(), copper, drill) {
        Ok(text) => {
            refusal_in(rt, Profile::Wide, text.as_bytes()) == Some((place, 0, BadManifest))
        }
        Err(_) => false,
    }
}

#[test]
fn drill_files_are_said_to_have_coordinates_in_the_wide_profile_alone(rt: HostRuntime) {
    for &(fields, format) in &FORMATS {
        assert!(rt; has_format(rt, fields, format), "of {fields}");
    }
    for &fields in &NO_FORMATS {
        assert!(rt; refuses_format(rt, ",,", fields, 3), "of {fields}");
    }
    assert!(rt; refuses_format(rt, "inch,,", ",,", 2));
}
