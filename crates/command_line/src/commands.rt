//! The commands of the program, with their help.

ghost use Rattle.std.specs.Prelude.{◌≡◌, IfOk, codes, false, true};
ghost use Rattle.clap.specs.Words.{app_of, new_app, rule_of};
ghost use Rattle.command_line.specs.ProgramArgs.{certify_app, check_app, draw_app, explain_app, folder_option, manifest_app, optional, optional_option, measure_app, option, positional, program_app, report_app, rewrite_app, ringcheck_app, rules_app, show_app, verify_app, one_or_more, flag};

use clap::{Arg, ArgAction, Command};
use std::alloc::{AllocError, Global};

/// The version of the program, as the file `VERSION` has it.
pub const VERSION: &str = "0.1.0";

/// The line that `--version` prints.
pub const VERSION_LINE: &str = "ringcheck 0.1.0\n";

/// The program and its version, as reports name them.
pub const PROGRAM: &str = "ringcheck 0.1.0";

const STATUSES: &str = "Exit status: 0 no findings, all of them waived, or done; 1 findings, or not
certified; 2 refused; 3 usage error; 4 a file cannot be read, or out of memory.
To start:  ringcheck manifest gerbers/* > board.csv; ringcheck check --help";

const RING: &str = "Minimum annular ring in mm, e.g. 0.125";

const GAP: &str = "Minimum distance between hole edges, in mm, e.g. 0.25";

const DRILL_OFF: &str = "How far a hole may be drilled off its place, in mm";

const DRILL_WIDE: &str = "How much wider in radius, in mm: give both, or neither";

const KIND: &str = "A Gerber layer or an Excellon drill file";

const PACKAGE: &str = "Manifest of the package: a CSV file, as for check";

const OUTLINE: &str = "Gerber file of the board outline, drawn as a thin line";

const PAGE_OUTLINE: &str = "Gerber file of the board outline, for --format html";

const FORMAT: &str = "text for people, or json, one JSON object
(default: text)";

const REPORT_FORMAT: &str = "text (default), for people; html, a page for browsers;
json, one object; waivers, a file to write reasons in";

const MAX: &str = "Show at most N findings (default: all)";

const WAIVE: &str = "File of waivers: the findings that are accepted";

const EXIT_ZERO: &str = "Exit with status 0 even if there are findings";

const FOLDER: &str = "Folder that file names are relative to";

const PROFILE: &str = "strict (default): only discs, rectangles and
obrounds are pads; wide: rounded pads of macros and
contours are too, and more files are read";

// After `Usage: ` it stands on two lines.
const CHECK_USAGE: &str = "ringcheck check --ring <MM> --gap <MM> [--profile <strict|wide>]
                       [--in <FOLDER>] <MANIFEST>";

const CHECK: &str = "A manifest is a CSV file. Its first line is role,name,file, and each other line
names a file; the role is copper, plated or unplated, or, in the wide profile,
mixed. With role,name,file,first,last a drill file can name the first and the
last layer that its holes go through, and in the wide profile, with
unit,digits,zeros after these, how its coordinates are written: inch,2:4,TZ.
File names are relative to the working directory, or to the folder of --in.
Example:  ringcheck check --ring 0.125 --gap 0.25 board.csv";

// After `Usage: ` it stands on two lines.
const CERTIFY_USAGE: &str = "ringcheck certify --ring <MM> --gap <MM> [--profile <strict|wide>]
                         [--in <FOLDER>] <MANIFEST>";

const CERTIFY: &str =
    "Where check passes, certify prints a certificate instead: one line of JSON, an
in-toto statement with the rules, the profile, and the SHA-256 digests of the
manifest and of each file. Otherwise certify prints what check prints.
Example:  ringcheck certify --ring 0.125 --gap 0.25 board.csv > board.json";

const VERIFY: &str = "The package is checked again, under the rules of the certificate: CERTIFIED if
it passes and no file has changed; else NOT CERTIFIED, with the files that
differ, and exit status 1.
Example:  ringcheck verify board.json";

// After `Usage: ` it stands on two lines.
const MEASURE_USAGE: &str = "ringcheck measure [--profile <strict|wide>] [--format <text|json>]
                         [--in <FOLDER>] <MANIFEST>";

const MEASURE: &str =
    "Under this ring and gap, or smaller ones, check finds nothing; held is the ring
if holes without a pad are left out. Lengths are in mm; any means no limit, and
none that a hole has no pad. Each line ring shows the smallest ring of the
holes of one diameter.
Example:  ringcheck measure board.csv";

const REPORT_PROFILE: &str = "strict (default) or wide: see ringcheck check --help";

// It has too many options to name each, since help has to fit a screen of 24 lines.
const REPORT_USAGE: &str = "ringcheck report --ring <MM> --gap <MM> [OPTIONS] <MANIFEST>";

const REPORT: &str = "Findings and exit status are those of check, unless all findings are waived.
Example:  ringcheck report --ring 0.125 --gap 0.25 board.csv";

// After `Usage: ` it stands on two lines.
const DRAW_USAGE: &str = "ringcheck draw [--ring <MM> --gap <MM>] [--profile <strict|wide>]
                      [--outline <FILE>] [--in <FOLDER>] <MANIFEST>";

const DRAW: &str = "Each copper layer gets a panel, seen from above, with its pads and holes. With
a ring and a gap the findings are drawn too: give both, or neither.
Example:  ringcheck draw --ring 0.125 --gap 0.25 board.csv > board.svg";

// After `Usage: ` it stands on two lines.
const MANIFEST_USAGE: &str = "ringcheck manifest [--why] [--profile <strict|wide>] [--in <FOLDER>]
                          <FILE>...";

const MANIFEST: &str = "The role of each file is worked out from its text, its file function and its
name: read the manifest before you use it. A file that may belong to it, but
whose role cannot be determined, gets the role ?, which check refuses.
Example:  ringcheck manifest gerbers/* > board.csv";

const MANIFEST_PROFILE: &str = "strict (default); wide, for check --profile wide: a
drill file that says of each hole whether it is plated
gets the role mixed";

const EXPLAIN: &str = "Example:  ringcheck explain Routed";

// After `Usage: ` it stands on two lines.
const SHOW_USAGE: &str = "ringcheck show --kind <layer|drill> [--profile <strict|wide>]
                      [--in <FOLDER>] <FILE>";

const SHOW: &str = "Example:  ringcheck show --kind drill pth.drl";

const REWRITE: &str = "Example:  ringcheck rewrite --kind layer top.gbr";

/// The program, whose words come without its name and begin with a command.
// It is not inlined: the values that it builds would otherwise lie in the frame of its caller, which then parses.
#[inline(never)]
pub(crate) fn ringcheck<'a>(alloc: Global) -> Result<Command<'a>, AllocError>
    ensures { IfOk result (λ c. app_of c ≡ ringcheck_app) }
{
    program(alloc)
        .subcommand(check(alloc)?)?
        .subcommand(report(alloc)?)?
        .subcommand(measure(alloc)?)?
        .subcommand(draw(alloc)?)?
        .subcommand(certify(alloc)?)?
        .subcommand(verify(alloc)?)?
        .subcommand(manifest(alloc)?)?
        .subcommand(explain(alloc)?)?
        .subcommand(show(alloc)?)?
        .subcommand(rewrite(alloc)?)
}

/// The program without its commands.
fn program<'a>(alloc: Global) -> Command<'a>
    ensures { app_of result ≡ program_app }
{
    new_command(
        alloc,
        "ringcheck",
        "Check a board's annular rings and hole spacing, from its Gerber and drill files",
        "ringcheck <COMMAND>",
        STATUSES,
    )
    .version(VERSION)
    .no_binary_name(true)
    .subcommand_required(true)
}

/// `check --ring MM --gap MM [--profile strict|wide] [--in FOLDER] MANIFEST`
fn check<'a>(alloc: Global) -> Result<Command<'a>, AllocError>
    ensures { IfOk result (λ c. app_of c ≡ check_app) }
{
    rules_command(
        alloc,
        "check",
        "Check a package against a minimum ring and gap",
        CHECK_USAGE,
        CHECK,
    )
}

/// `certify --ring MM --gap MM [--profile strict|wide] [--in FOLDER] MANIFEST`
fn certify<'a>(alloc: Global) -> Result<Command<'a>, AllocError>
    ensures { IfOk result (λ c. app_of c ≡ certify_app) }
{
    rules_command(
        alloc,
        "certify",
        "Check a package, and print a certificate if it passes",
        CERTIFY_USAGE,
        CERTIFY,
    )
}

/// `verify [--in FOLDER] CERTIFICATE`
fn verify<'a>(alloc: Global) -> Result<Command<'a>, AllocError>
    ensures { IfOk result (λ c. app_of c ≡ verify_app) }
{
    new_command(
        alloc,
        "verify",
        "Check that a certificate still holds for its package",
        "ringcheck verify [--in <FOLDER>] <CERTIFICATE>",
        VERIFY,
    )
    .arg(folder_arg(alloc))?
    .arg(required_arg(
        alloc,
        "certificate",
        "CERTIFICATE",
        "Certificate of the package, as certify prints it",
    ))
}

/// `measure [--profile strict|wide] [--format text|json] [--in FOLDER] MANIFEST`
fn measure<'a>(alloc: Global) -> Result<Command<'a>, AllocError>
    ensures { IfOk result (λ c. app_of c ≡ measure_app) }
{
    new_command(
        alloc,
        "measure",
        "Measure the largest ring and gap that a package meets",
        MEASURE_USAGE,
        MEASURE,
    )
    .arg(profile_arg(alloc))?
    .arg(optional_option_arg(alloc, "format", "text|json", FORMAT))?
    .arg(folder_arg(alloc))?
    .arg(required_arg(alloc, "manifest", "MANIFEST", PACKAGE))
}

/// `report --ring MM --gap MM [--drill-off MM --drill-wide MM] [--profile strict|wide] [--max N] [--waive FILE] [--outline FILE] [--format text|html|json|waivers] [--exit-zero] [--in FOLDER] MANIFEST`
fn report<'a>(alloc: Global) -> Result<Command<'a>, AllocError>
    ensures { IfOk result (λ c. app_of c ≡ report_app) }
{
    new_command(
        alloc,
        "report",
        "Explain each finding: how far below the rule, and why",
        REPORT_USAGE,
        REPORT,
    )
    .arg(ring_arg(alloc))?
    .arg(gap_arg(alloc))?
    .arg(optional_option_arg(alloc, "drill-off", "MM", DRILL_OFF))?
    .arg(optional_option_arg(alloc, "drill-wide", "MM", DRILL_WIDE))?
    .arg(optional_option_arg(alloc, "profile", "NAME", REPORT_PROFILE))?
    .arg(optional_option_arg(alloc, "max", "N", MAX))?
    .arg(optional_option_arg(alloc, "waive", "FILE", WAIVE))?
    .arg(optional_option_arg(alloc, "outline", "FILE", PAGE_OUTLINE))?
    .arg(optional_option_arg(alloc, "format", "NAME", REPORT_FORMAT))?
    .arg(flag_arg(alloc, "exit-zero", EXIT_ZERO))?
    .arg(folder_arg(alloc))?
    .arg(required_arg(alloc, "manifest", "MANIFEST", PACKAGE))
}

/// `draw [--ring MM --gap MM] [--profile strict|wide] [--outline FILE] [--in FOLDER] MANIFEST`
fn draw<'a>(alloc: Global) -> Result<Command<'a>, AllocError>
    ensures { IfOk result (λ c. app_of c ≡ draw_app) }
{
    new_command(
        alloc,
        "draw",
        "Draw a package as an SVG picture",
        DRAW_USAGE,
        DRAW,
    )
    .arg(optional_option_arg(alloc, "ring", "MM", RING))?
    .arg(optional_option_arg(alloc, "gap", "MM", GAP))?
    .arg(profile_arg(alloc))?
    .arg(optional_option_arg(alloc, "outline", "FILE", OUTLINE))?
    .arg(folder_arg(alloc))?
    .arg(required_arg(alloc, "manifest", "MANIFEST", PACKAGE))
}

/// `manifest [--why] [--profile strict|wide] [--in FOLDER] FILE..`
fn manifest<'a>(alloc: Global) -> Result<Command<'a>, AllocError>
    ensures { IfOk result (λ c. app_of c ≡ manifest_app) }
{
    new_command(
        alloc,
        "manifest",
        "Propose a manifest for some files",
        MANIFEST_USAGE,
        MANIFEST,
    )
    .arg(flag_arg(alloc, "why", "Show what each file is taken for, and why"))?
    .arg(optional_option_arg(alloc, "profile", "NAME", MANIFEST_PROFILE))?
    .arg(folder_arg(alloc))?
    .arg(repeated_arg(alloc, "file", "FILE", "Files to look at"))
}

/// `explain [WORD]`
fn explain<'a>(alloc: Global) -> Result<Command<'a>, AllocError>
    ensures { IfOk result (λ c. app_of c ≡ explain_app) }
{
    new_command(
        alloc,
        "explain",
        "Explain a reason or a cause, and what to change",
        "ringcheck explain [WORD]",
        EXPLAIN,
    )
    .arg(optional_arg(
        alloc,
        "word",
        "WORD",
        "Name of a reason or a cause (default: list them all)",
    ))
}

/// `show --kind layer|drill [--profile strict|wide] [--in FOLDER] FILE`
fn show<'a>(alloc: Global) -> Result<Command<'a>, AllocError>
    ensures { IfOk result (λ c. app_of c ≡ show_app) }
{
    new_command(
        alloc,
        "show",
        "Print a table of a layer's flashes or a drill file's holes",
        SHOW_USAGE,
        SHOW,
    )
    .arg(required_option_arg(alloc, "kind", "layer|drill", KIND))?
    .arg(profile_arg(alloc))?
    .arg(folder_arg(alloc))?
    .arg(required_arg(alloc, "file", "FILE", "File to read"))
}

/// `rewrite --kind layer|drill [--in FOLDER] FILE`
fn rewrite<'a>(alloc: Global) -> Result<Command<'a>, AllocError>
    ensures { IfOk result (λ c. app_of c ≡ rewrite_app) }
{
    new_command(
        alloc,
        "rewrite",
        "Print the canonical text of a layer or a drill file",
        "ringcheck rewrite --kind <layer|drill> [--in <FOLDER>] <FILE>",
        REWRITE,
    )
    .arg(required_option_arg(alloc, "kind", "layer|drill", KIND))?
    .arg(folder_arg(alloc))?
    .arg(required_arg(alloc, "file", "FILE", "File to read"))
}

/// `NAME --ring MM --gap MM [--profile strict|wide] [--in FOLDER] MANIFEST`, with its texts for help as of [`new_command`].
fn rules_command<'a>(
    alloc: Global,
    name: &'a str,
    about: &'a str,
    usage: &'a str,
    below: &'a str,
) -> Result<Command<'a>, AllocError>
    ensures { IfOk result (λ c. app_of c ≡ rules_app name.entry.now) }
{
    new_command(alloc, name, about, usage, below)
        .arg(ring_arg(alloc))?
        .arg(gap_arg(alloc))?
        .arg(profile_arg(alloc))?
        .arg(folder_arg(alloc))?
        .arg(required_arg(
            alloc,
            "manifest",
            "MANIFEST",
            "Manifest of the package: a CSV file",
        ))
}

/// A command with its texts for help: what it does, its usage, and what is printed below.
fn new_command<'a>(
    alloc: Global,
    name: &'a str,
    about: &'a str,
    usage: &'a str,
    below: &'a str,
) -> Command<'a>
    ensures { app_of result ≡ new_app name.entry.now }
{
    Command::new(alloc, name)
        .about(about)
        .override_usage(usage)
        .after_help(below)
}

/// An argument by its position that may be left out. Help shows it as `shown`.
fn optional_arg<'a>(alloc: Global, id: &'a str, shown: &'a str, help: &'a str) -> Arg<'a>
    ensures rule { rule_of result ≡ optional id.entry.now }
    ensures global { result.global ≡ false }
{
    Arg::new(alloc, id)
        .action(ArgAction::Set)
        .value_name(shown)
        .help(help)
}

/// A required argument by its position.
fn required_arg<'a>(alloc: Global, id: &'a str, shown: &'a str, help: &'a str) -> Arg<'a>
    ensures rule { rule_of result ≡ positional id.entry.now }
    ensures global { result.global ≡ false }
{
    optional_arg(alloc, id, shown, help).required(true)
}

/// An option with one value that may be left out.
fn optional_option_arg<'a>(alloc: Global, id: &'a str, shown: &'a str, help: &'a str) -> Arg<'a>
    ensures rule { rule_of result ≡ optional_option id.entry.now }
    ensures global { result.global ≡ false }
{
    optional_arg(alloc, id, shown, help).long(id)
}

/// `[--profile strict|wide]`
fn profile_arg<'a>(alloc: Global) -> Arg<'a>
    ensures rule { rule_of result ≡ optional_option (codes "profile") }
    ensures global { result.global ≡ false }
{
    optional_option_arg(alloc, "profile", "NAME", PROFILE)
}

/// `[--in FOLDER]`
fn folder_arg<'a>(alloc: Global) -> Arg<'a>
    ensures rule { rule_of result ≡ folder_option }
    ensures global { result.global ≡ false }
{
    optional_option_arg(alloc, "in", "FOLDER", FOLDER)
}

/// A required option with one value.
fn required_option_arg<'a>(alloc: Global, id: &'a str, shown: &'a str, help: &'a str) -> Arg<'a>
    ensures rule { rule_of result ≡ option id.entry.now }
    ensures global { result.global ≡ false }
{
    required_arg(alloc, id, shown, help).long(id)
}

/// `--ring MM`
fn ring_arg<'a>(alloc: Global) -> Arg<'a>
    ensures rule { rule_of result ≡ option (codes "ring") }
    ensures global { result.global ≡ false }
{
    required_option_arg(alloc, "ring", "MM", RING)
}

/// `--gap MM`
fn gap_arg<'a>(alloc: Global) -> Arg<'a>
    ensures rule { rule_of result ≡ option (codes "gap") }
    ensures global { result.global ≡ false }
{
    required_option_arg(alloc, "gap", "MM", GAP)
}

/// One required argument by its position, or more of them.
fn repeated_arg<'a>(alloc: Global, id: &'a str, shown: &'a str, help: &'a str) -> Arg<'a>
    ensures rule { rule_of result ≡ one_or_more id.entry.now }
    ensures global { result.global ≡ false }
{
    required_arg(alloc, id, shown, help)
        .action(ArgAction::Append)
        .num_args(1..)
}

/// An option without a value.
fn flag_arg<'a>(alloc: Global, id: &'a str, help: &'a str) -> Arg<'a>
    ensures rule { rule_of result ≡ flag id.entry.now }
    ensures global { result.global ≡ false }
{
    Arg::new(alloc, id)
        .long(id)
        .action(ArgAction::SetTrue)
        .help(help)
}
