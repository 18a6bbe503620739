//! Folders and zip archives in place of files.

use super::words::push_indented;
use super::*;
use std::test::Fail as Failure;

/// Files at hand, and the names of folders.
#[derive(Drop)]
struct FolderShelf<'a> {
    shelf: Shelf<'a>,
    folders: &'a [&'a str],
}

impl Loader for FolderShelf<'_> {
    ghost use Rattle.std.specs.Prelude.{List, ℕ, map};
    ghost use Rattle.std.specs.List.{Contains};

    ghost has = { λ s n b. Contains {X = List ℕ × List ℕ} (map (λ f. (f.0.now, f.1.now)) s.shelf.files.now) (n, b) };

    ghost failed = { λ s. s.shelf.failures };

    fn load_into<S: Sink>(
        &mut self,
        alloc: Global,
        name: &str,
        limit: u64,
        sink: &mut S,
    ) -> Result<(), LoadFault> {
        self.shelf.load_into(alloc, name, limit, sink)
    }

    fn is_folder(&self, name: &str) -> bool {
        self.folders.iter().any(|folder| *folder == name)
    }

    fn failures(&self) -> u64 {
        self.shelf.failures
    }
}

/// The first bytes of a zip archive.
const ZIP: &str = "PK\u{3}\u{4}\u{14}\0";

/// What lies at hand: beside the files the folders `boards` and `boards/`.
const FILES: [(&str, &str); 4] = [
    ("a.zip", ZIP),
    ("m.csv", MANIFEST),
    (
        "f.csv",
        "role,name,file\ncopper,top,boards\nplated,pth,pth.drl\n",
    ),
    ("top.gbr", LAYER),
];

/// Words, the status of the run, and what it prints. It says nothing beside that.
const ANSWERS: [(&[&str], Status, &str); 10] = [
    (
        &["report", "--ring", "0.125", "--gap", "0.25", "boards"],
        Status::Device,
        "device\n  boards is a folder, but ringcheck reads files: name the files in it, as in ringcheck manifest boards/*\n",
    ),
    (
        &["measure", "boards/"],
        Status::Device,
        "device\n  boards/ is a folder, but ringcheck reads files: name the files in it, as in ringcheck manifest boards/*\n",
    ),
    (
        &[
            "report", "--ring", "0.125", "--gap", "0.25", "--waive", "boards", "m.csv",
        ],
        Status::Device,
        "device\n  boards is a folder: name a file of waivers\n",
    ),
    (
        &["measure", "f.csv"],
        Status::Device,
        "device file=1 name=top\n  boards, the file of top, is a folder: a manifest must name files\n",
    ),
    (
        &["manifest", "boards"],
        Status::Usage,
        "usage reason=BadManifest\n  boards is a folder, but ringcheck reads files: name the files in it, as in ringcheck manifest boards/*\n",
    ),
    (
        &["manifest", "a.zip"],
        Status::Usage,
        "usage reason=BadManifest\n  a.zip is a zip archive: unpack it, and name the files in it\n",
    ),
    (
        &["manifest", "--why", "a.zip", "boards"],
        Status::Usage,
        "usage reason=BadManifest\n  a.zip is a zip archive: unpack it, and name the files in it\n",
    ),
    (
        &["manifest", "boards", "top.gbr", "a.zip"],
        Status::Pass,
        "role,name,file\ncopper,top.gbr,top.gbr\n",
    ),
    (
        &["manifest", "--why", "boards", "none.gbr", "a.zip"],
        Status::Pass,
        "file,role,because\nboards,-,a folder: name its files\nnone.gbr,?,it cannot be read\na.zip,-,a zip archive: unpack it\n",
    ),
    (
        &["manifest", "boards", "none.gbr"],
        Status::Pass,
        "role,name,file\n?,none.gbr,none.gbr\n",
    ),
];

const NO_MANIFEST: &str = "refused manifest place=1 reason=BadManifest\n";

/// Words of which the answer goes to a program or into a file, with a folder in place of what they name, and what the run prints.
const FOLDERS: [(&[&str], &str); 4] = [
    (
        &["measure", "--format", "json", "boards"],
        "{\"format\":\"ringcheck\",\"version\":3,\"result\":\"device\"}\n",
    ),
    (
        &["check", "--ring", "0.125", "--gap", "0.25", "boards"],
        "device\n",
    ),
    (&["draw", "boards"], "device\n"),
    (&["show", "--kind", "layer", "boards"], "device\n"),
];

/// The same with a zip archive.
const ARCHIVES: [(&[&str], &str); 3] = [
    (
        &["check", "--ring", "0.125", "--gap", "0.25", "a.zip"],
        NO_MANIFEST,
    ),
    (&["draw", "a.zip"], NO_MANIFEST),
    (
        &["measure", "--format", "json", "a.zip"],
        "{\"format\":\"ringcheck\",\"version\":3,\"result\":\"refused\",\"place\":1,\"reason\":\"BadManifest\"}\n",
    ),
];

/// Whether a run over these files and folders ends with this status, prints just this text, and says just this beside it.
fn answers(alloc: Global, words: &[&str], status: Status, text: &str, said: &str) -> bool {
    let mut shelf = FolderShelf {
        shelf: Shelf::new(&FILES),
        folders: &["boards", "boards/"],
    };
    prints(alloc, &mut shelf, words, status, text, said)
}

#[test]
fn folders_and_archives_are_told(rt: HostRuntime) {
    for &(words, status, text) in &ANSWERS {
        assert!(rt; answers(rt.alloc(), words, status, text, ""), "{words:?}");
    }
}

#[test]
fn folders_are_told_beside_an_answer(rt: HostRuntime) {
    let said =
        "  boards is a folder, but ringcheck reads files: name the files in it, as in ringcheck manifest boards/*\n";
    for &(words, text) in &FOLDERS {
        let is_told = answers(rt.alloc(), words, Status::Device, text, said);
        assert!(rt; is_told, "{words:?}");
    }
}

#[test]
fn archives_are_told_beside_an_answer(rt: HostRuntime) {
    let said = "  a.zip is a zip archive: unpack it, and name the files in it\n";
    for &(words, text) in &ARCHIVES {
        let is_told = answers(rt.alloc(), words, Status::Refused, text, said);
        assert!(rt; is_told, "{words:?}");
    }
}

/// Words with an archive in place of a table, and the line of its refusal.
const REFUSED: [(&[&str], &str); 3] = [
    (&["measure", "a.zip"], NO_MANIFEST),
    (
        &["report", "--ring", "0.125", "--gap", "0.25", "a.zip"],
        NO_MANIFEST,
    ),
    (
        &[
            "report", "--ring", "0.125", "--gap", "0.25", "--waive", "a.zip", "m.csv",
        ],
        "refused waivers place=1 reason=BadManifest\n",
    ),
];

/// A line, below it that `a.zip` is an archive, and below that a page.
fn with_archive(alloc: Global, line: &str, page: &str) -> Result<String, AllocError> {
    let mut text = String::from_str(alloc, line)?;
    push_indented(
        &mut text,
        "a.zip is a zip archive: unpack it, and name the files in it",
    )?;
    for row in page.lines() {
        push_indented(&mut text, row)?;
    }
    Ok(text)
}

/// The refusal of an archive says that it is one, above the page of its reason.
#[test]
fn refused_archives_are_told(rt: HostRuntime) -> Result<(), Failure> {
    let page = ringcheck_files::explanation("BadManifest").ok_or("no page")?;
    for &(words, line) in &REFUSED {
        let text = with_archive(rt.alloc(), line, page)?;
        assert!(rt;
            answers(rt.alloc(), words, Status::Refused, text.as_str(), ""),
            "{words:?}"
        );
    }
    Ok(())
}
