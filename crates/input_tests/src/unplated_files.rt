use crate::mixed_files::{read, refuses};
use drill_text::PlatingKind;
use grid_units::{Fault, Reason};
use std::alloc::Global;

/// Whether a file whose platings are known so is read.
fn reads(alloc: Global, plating: PlatingKind, text: &str) -> bool {
    read(alloc, plating, text.as_bytes(), 7).is_ok()
}

/// Unplated files that say themselves that holes are plated.
const CONTRADICTED: [(&str, u64, u64); 9] = [
    (
        "M48\nMETRIC\n;TYPE=PLATED\nT1C0.4\n%\nT1\nX0.0Y0.0\nM30\n",
        3,
        11,
    ),
    (
        "M48\nMETRIC\n; #@! TA.AperFunction,Plated,PTH,ViaDrill\nT1C0.4\n%\nT1\nX0.0Y0.0\nM30\n",
        3,
        11,
    ),
    (
        "M48\n; #@! TF.FileFunction,Plated,1,2,PTH\nMETRIC\nT1C0.4\n%\nT1\nX0.0Y0.0\nM30\n",
        2,
        4,
    ),
    (
        "M48\n;#@! TF.FileFunction,Plated\nMETRIC\nT1C0.4\n%\nT1\nX0.0Y0.0\nM30\n",
        2,
        4,
    ),
    // Blanks at the end of a line do not count, and a file function may stand before the header.
    (
        ";   #@! TF.FileFunction,Plated,1,4,PTH \nM48\nMETRIC\nT1C0.4\n%\nT1\nX0.0Y0.0\nM30\n",
        1,
        0,
    ),
    // One such comment is enough, whatever others say, and whether or not a hole is drilled.
    (
        "M48\n; #@! TF.FileFunction,NonPlated,1,2,NPTH\nMETRIC\n;TYPE=NON_PLATED\nT1C0.4\n;TYPE=PLATED\nT2C1.0\n%\nT1\nX0.0Y0.0\nM30\n",
        6,
        76,
    ),
    (
        "M48\nMETRIC\n;TYPE=NON_PLATED\nT1C0.4\n;TYPE=PLATED\n%\nM30\n",
        5,
        35,
    ),
    // After the header too.
    (
        "M48\nMETRIC\nT1C0.4\n%\nT1\n;TYPE=PLATED\nX0.0Y0.0\nM30\n",
        6,
        23,
    ),
    (
        "M48\nMETRIC\nT1C0.4\n%\nT1\nX0.0Y0.0\n; #@! TF.FileFunction,Plated,1,2,PTH\nM30\n",
        7,
        32,
    ),
];

#[test]
fn unplated_files_that_say_plated_are_refused(rt: HostRuntime) {
    for &(text, place, byte) in &CONTRADICTED {
        let fault = Fault {
            place,
            byte,
            reason: Reason::PlatingConflict,
        };
        assert!(rt;
            refuses(rt.alloc(), PlatingKind::Unplated, text, &fault),
            "{text}"
        );
    }
}

/// The same files are read where the role is believed.
#[test]
fn files_whose_role_is_believed_are_read(rt: HostRuntime) {
    for &(text, _, _) in &CONTRADICTED {
        assert!(rt; reads(rt.alloc(), PlatingKind::Stated, text), "{text}");
    }
}

/// Unplated files that do not say that holes are plated.
const UNCONTRADICTED: [&str; 9] = [
    "M48\nMETRIC\n;TYPE=NON_PLATED\nT1C0.4\n%\nT1\nX0.0Y0.0\nM30\n",
    "M48\nMETRIC\n; #@! TA.AperFunction,NonPlated,NPTH,ComponentDrill\nT1C0.4\n%\nT1\nX0.0Y0.0\nM30\n",
    "M48\n; #@! TF.FileFunction,NonPlated,1,2,NPTH\nMETRIC\nT1C0.4\n%\nT1\nX0.0Y0.0\nM30\n",
    "M48\n; #@! TF.FileFunction,MixedPlating,1,2\nMETRIC\nT1C0.4\n%\nT1\nX0.0Y0.0\nM30\n",
    // Words are read byte by byte, and other attributes say nothing of it.
    "M48\n; TYPE=PLATED\n; #@! TF.FileFunction, Plated\n; #@! TF.FileFunctions,Plated\n; #@! TF.FileFunction,plated\nMETRIC\nT1C0.4\n%\nT1\nX0.0Y0.0\nM30\n",
    "M48\n; #@! TF.FileFunction\n; #@! TF.Part,Plated\n; #@! TA.DrillTolerance,Plated\n; Plated\nMETRIC\nT1C0.4\n%\nT1\nX0.0Y0.0\nM30\n",
    // What is taken back says nothing.
    "M48\nMETRIC\n; #@! TD\nT1C0.4\n%\nT1\nX0.0Y0.0\nM30\n",
    "M48\nMETRIC\n; #@! TA.AperFunction,ViaDrill\nT1C0.4\n%\n; a comment\nT1\nX0.0Y0.0\nM30\n",
    "M30\n",
];

#[test]
fn other_unplated_files_are_read(rt: HostRuntime) {
    for &text in &UNCONTRADICTED {
        assert!(rt; reads(rt.alloc(), PlatingKind::Unplated, text), "{text}");
    }
}

/// The other rules come first, and so does an earlier line.
#[test]
fn other_faults_come_first(rt: HostRuntime) {
    let texts = [
        ("M48\nQ\n;TYPE=PLATED\nM30\n", Reason::BadLine, 2, 4),
        (
            "M48\nMETRIC\n;TYPE=PLATED\nQ\n%\nM30\n",
            Reason::PlatingConflict,
            3,
            11,
        ),
        (
            "M48\nMETRIC\nT1C0.4\n%\nT1\nG00X0.0Y0.0\n;TYPE=PLATED\nM30\n",
            Reason::Routed,
            7,
            35,
        ),
    ];
    for &(text, reason, place, byte) in &texts {
        let fault = Fault {
            place,
            byte,
            reason,
        };
        assert!(rt;
            refuses(rt.alloc(), PlatingKind::Unplated, text, &fault),
            "{text}"
        );
    }
}
