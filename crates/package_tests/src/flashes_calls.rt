//! The flashes of a package's files, and what else they draw.

use grid_units::Profile;
use package_check::{File, Keep, PackageFault, Role, Said, read_package};
use std::test::Fail as Failure;

const TWO: &[u8] =
    b"%FSLAX46Y46*%\n%MOMM*%\n%ADD10C,0.75*%\nD10*\nX0Y0D03*\nX2000000Y0D03*\nM02*\n";

const DRILL: &[u8] = b"M48\nMETRIC\nT1C0.4\n%\nT1\nX0.0Y0.0\nM30\n";

/// A square of 75 mm at the origin, and over it a line and the contour of a region.
const DRAWN: &[u8] =
    b"%FSLAX46Y46*%\n%MOMM*%\n%ADD10R,75.0X75.0*%\n%ADD11C,0.5*%\nD10*\nX0Y0D03*\nD11*\nX-1000000Y-2000000D02*\nX3000000Y4000000D01*\nG36*\nX0Y0D02*\nX2000000D01*\nY1000000D01*\nX0Y0D01*\nG37*\nM02*\n";

fn file<'a>(role: Role, bytes: &'a [u8]) -> File<'a> {
    File {
        role,
        name: "file",
        said: Said {
            span: None,
            format: None,
        },
        bytes,
    }
}

#[test]
fn flashes_stand_in_the_order_of_the_files(rt: HostRuntime) -> Result<(), Failure> {
    let files = [file(Role::Plated, DRILL), file(Role::Copper, TWO)];
    let board = read_package(rt.alloc(), Profile::Strict, &files, Keep::Rows)
        .ok()
        .ok_or("no board")?;
    let counts = [0, 1, 2].map(|file| board.rows_of(file).len());
    let layers = board.layers(rt.alloc())?.len();
    assert!(rt; counts == [0, 2, 0] && layers == 1);
    Ok(())
}

#[test]
fn a_refused_file_has_no_flashes(rt: HostRuntime) {
    let files = [file(Role::Plated, TWO), file(Role::Copper, TWO)];
    let refused = read_package(rt.alloc(), Profile::Strict, &files, Keep::Rows).err();
    assert!(rt; matches!(refused, Some(PackageFault::File { index: 0, .. })));
}

#[test]
fn a_board_has_what_its_files_draw(rt: HostRuntime) -> Result<(), Failure> {
    let files = [file(Role::Copper, DRAWN), file(Role::Plated, DRILL)];
    for (keep, count) in [(Keep::RowsAndDrawn, 6), (Keep::Rows, 0), (Keep::Pads, 0)] {
        let board = read_package(rt.alloc(), Profile::Strict, &files, keep)
            .ok()
            .ok_or("refused")?;
        let counts = [0, 1, 2].map(|file| board.drawn_of(file).len());
        assert!(rt; counts == [count, 0, 0]);
    }
    Ok(())
}
