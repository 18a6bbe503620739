use drill_text::read_drill;
use std::alloc::Global;

/// Whether the comments of a file contradict the role `plated`, and the role `unplated`; `None` where the file is refused.
fn contradicts(alloc: Global, text: &str) -> Option<(bool, bool)> {
    let drill = read_drill(alloc, text.as_bytes()).ok()?;
    Some((drill.contradicts(true), drill.contradicts(false)))
}

/// Files, and whether their comments contradict the role `plated`, and the role `unplated`.
const FILES: [(&str, bool, bool); 10] = [
    ("M48\nMETRIC\nT1C0.4\n%\nT1\nX0.0Y0.0\nM30\n", false, false),
    (
        "M48\nMETRIC\n;TYPE=PLATED\nT1C0.4\n%\nT1\nX0.0Y0.0\nM30\n",
        false,
        true,
    ),
    (
        "M48\nMETRIC\n;TYPE=NON_PLATED\nT1C0.4\n%\nT1\nX0.0Y0.0\nM30\n",
        true,
        false,
    ),
    // A file function speaks of all holes.
    (
        "M48\n; #@! TF.FileFunction,Plated,1,2,PTH\nMETRIC\nT1C0.4\n%\nT1\nX0.0Y0.0\nM30\n",
        false,
        true,
    ),
    (
        "M48\n; #@! TF.FileFunction,NonPlated,1,2,NPTH\nMETRIC\nT1C0.4\n%\nT1\nX0.0Y0.0\nM30\n",
        true,
        false,
    ),
    (
        "M48\n; #@! TF.FileFunction,MixedPlating,1,2\nMETRIC\nT1C0.4\n%\nT1\nX0.0Y0.0\nM30\n",
        false,
        false,
    ),
    // An attribute of the tools, and one that is taken back.
    (
        "M48\nMETRIC\n; #@! TA.AperFunction,NonPlated,NPTH,ComponentDrill\nT1C0.4\n; #@! TD\nT2C1.0\n%\nT1\nX0.0Y0.0\nM30\n",
        true,
        false,
    ),
    // A file that says both has some plated holes, in whichever order it says so.
    (
        "M48\nMETRIC\n;TYPE=NON_PLATED\nT1C0.4\n;TYPE=PLATED\nT2C1.0\n%\nT1\nX0.0Y0.0\nM30\n",
        false,
        true,
    ),
    (
        "M48\nMETRIC\n;TYPE=PLATED\nT1C0.4\n;TYPE=NON_PLATED\nT2C1.0\n%\nT1\nX0.0Y0.0\nM30\n",
        false,
        true,
    ),
    // After the header too.
    (
        "M48\nMETRIC\nT1C0.4\n%\nT1\nX0.0Y0.0\n;TYPE=NON_PLATED\nM30\n",
        true,
        false,
    ),
];

#[test]
fn comments_contradict_a_role(rt: HostRuntime) {
    for &(text, plated, unplated) in &FILES {
        assert!(rt;
            contradicts(rt.alloc(), text) == Some((plated, unplated)),
            "{text}"
        );
    }
}
