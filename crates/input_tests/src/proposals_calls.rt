//! Reasons for files that were not read, and for bytes that are no text. Manifests that are proposed, and other reasons, are in the data of
//! `worked_examples`.

use grid_units::Profile;
use manifest::*;
use std::alloc::{AllocError, Global};

/// The table of what the files are in the strict profile and why.
fn reasons(alloc: Global, folder: &[InputFile<'_>]) -> Result<Vec<u8>, AllocError> {
    let list = propose(alloc, Profile::Strict, folder)?;
    write_reasons(alloc, list.as_slice())
}

/// Whether the table of what these files are in the strict profile and why has these lines after its header.
fn has_reasons(alloc: Global, folder: &[InputFile<'_>], lines: &str) -> bool {
    match reasons(alloc, folder) {
        Ok(text) => text.strip_prefix("file,role,because\n".as_bytes()) == Some(lines.as_bytes()),
        Err(_) => false,
    }
}

/// Files, and the table of reasons for them without its header.
const REASON_ROWS: [(&[InputFile<'static>], &str); 3] = [
    (
        &[
            InputFile {
                name: "none.gbr",
                content: FileContent::NotRead,
            },
            InputFile {
                name: "long.gbr",
                content: FileContent::TooLong,
            },
        ],
        "none.gbr,?,it cannot be read\nlong.gbr,?,it is too long\n",
    ),
    (
        &[
            InputFile {
                name: "old",
                content: FileContent::Folder,
            },
            InputFile {
                name: "b.zip",
                content: FileContent::Bytes(b"PK\x03\x04\x14\x00"),
            },
        ],
        "old,-,a folder: name its files\nb.zip,-,a zip archive: unpack it\n",
    ),
    (
        &[InputFile {
            name: "odd.gbr",
            content: FileContent::Bytes(
                b"%TF.FileFunction,\x1b[31m\\~\x7f\xc3\xa9\x00,L1*%\nM02*\n",
            ),
        }],
        "odd.gbr,-,file function \\x1b[31m\\x5c~\\x7f\\xc3\\xa9\\x00\n",
    ),
];

/// Files that were not read are undecided, and what a file says of itself is printed as printable ASCII.
#[test]
fn other_files_have_reasons(rt: HostRuntime) {
    for &(folder, lines) in &REASON_ROWS {
        assert!(rt; has_reasons(rt.alloc(), folder, lines), "{lines}");
    }
}
