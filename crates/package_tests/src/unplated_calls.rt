//! Packages whose drill file says that holes are plated, where its role says that none is.

use crate::package_check_calls::{FileRow, contradicted_in, fault_in};
use grid_units::{Fault, Profile, Reason};
use package_check::{PackageFault, Role};

/// A layer with one pad, far from the hole.
const TOP: FileRow = (
    Role::Copper,
    "top",
    None,
    b"%FSLAX46Y46*%\n%MOMM*%\n%ADD10C,0.65*%\nD10*\nX9000000Y0D03*\nM02*\n",
);

/// A drill file that says that the holes of a tool are plated, and one that says so of all holes.
const PLATED_TOOL: &[u8] = b"M48\nMETRIC\n;TYPE=PLATED\nT1C0.4\n%\nT1\nX0.0Y0.0\nM30\n";

const PLATED_FILE: &[u8] =
    b"M48\n; #@! TF.FileFunction,Plated,1,2,PTH\nMETRIC\nT1C0.4\n%\nT1\nX0.0Y0.0\nM30\n";

/// The same of holes that are not plated.
const UNPLATED_TOOL: &[u8] = b"M48\nMETRIC\n;TYPE=NON_PLATED\nT1C0.4\n%\nT1\nX0.0Y0.0\nM30\n";

const UNPLATED_FILE: &[u8] =
    b"M48\n; #@! TF.FileFunction,NonPlated,1,2,NPTH\nMETRIC\nT1C0.4\n%\nT1\nX0.0Y0.0\nM30\n";

/// Files, their role, and how many of them have comments that contradict it: none or one.
const CONTRADICTIONS: [(Profile, Role, &[u8], usize); 6] = [
    (Profile::Strict, Role::Unplated, PLATED_TOOL, 1),
    (Profile::Strict, Role::Unplated, PLATED_FILE, 1),
    (Profile::Strict, Role::Plated, PLATED_TOOL, 0),
    (Profile::Strict, Role::Plated, UNPLATED_FILE, 1),
    (Profile::Wide, Role::Plated, UNPLATED_TOOL, 1),
    (Profile::Strict, Role::Unplated, UNPLATED_TOOL, 0),
];

#[test]
fn contradicted_roles_are_counted(rt: HostRuntime) {
    for &(profile, role, bytes, count) in &CONTRADICTIONS {
        let rows = [TOP, (role, "drill", None, bytes)];
        let found = contradicted_in(rt.alloc(), profile, &rows);
        assert!(rt; found == Ok(count));
    }
}

/// A copper file and how the wide profile refuses it with an unplated file that says that holes are plated: by the first file that is refused.
#[test]
fn the_first_file_is_refused(rt: HostRuntime) {
    let fault = Fault {
        place: 3,
        byte: 11,
        reason: Reason::PlatingConflict,
    };
    let drill = (Role::Unplated, "npth", None, PLATED_TOOL);
    let refusal = fault_in(rt.alloc(), Profile::Wide, &[TOP, drill]);
    assert!(rt; refusal == Ok(Some(PackageFault::File { index: 1, fault })));
    let wrong = (Role::Copper, "top", None, b"X".as_slice());
    let refusal = fault_in(rt.alloc(), Profile::Wide, &[wrong, drill]);
    assert!(rt; matches!(refusal, Ok(Some(PackageFault::File { index: 0, .. }))));
}
