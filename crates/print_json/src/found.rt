//! The JSON of a report.

ghost use Rattle.std.specs.Prelude.{◌≡◌, Some, map};
ghost use Rattle.json.specs.Json.{document};
ghost use Rattle.json.specs.Print.{print};
ghost use Rattle.json.specs.Tree.{json_tokens};
ghost use Rattle.print_json.specs.Inner.Texts.{about_rest, drilling_rest, report_rest, more_members};
ghost use Rattle.print_json.specs.Packages.{result_word, fewer_value, report_result, waived_report_value};
ghost use Rattle.print_json.specs.Values.{json_text, members_of, or_null, whole};

use crate::VERSION;
use crate::arrays::{Array, Files, Findings, array_numbers};
use crate::drilling::DrillingJson;
use crate::printed::{Text, Value, write_line};
use crate::strings::Escaped;
use board::FileSum;
use grid_units::Profile;
use print_text::Particulars;
use report::{Acceptances, BoardReport, count_waived};
use std::fmt;
use std::fmt::{Display, Formatter};

/// The result of a report, by the number of its findings and of those that are waived.
fn result_word(findings: u128, waived: u128) -> &'static str
    ensures { result.now ≡ result_word findings waived }
{
    if findings == 0 {
        "pass"
    } else if waived == findings {
        "waived"
    } else {
        "findings"
    }
}

/// The result of a report.
fn report_result(report: &BoardReport, accepted: &Acceptances) -> &'static str
    ensures { result.now ≡ report_result report.now accepted.now.rings.now accepted.now.gaps.now }
{
    let findings = report.rings.len() as u128 + report.gaps.len() as u128;
    result_word(findings, count_waived(report, accepted))
}

/// The JSON of a report in the profile of its rules, with the reasons why findings are accepted: one line with its line end, and all
/// findings in it.
#[derive(Clone, Copy)]
pub struct ReportJson<'a> {
    /// The manifest, the program, how many findings the wide profile does not have, and how holes may be drilled.
    pub about: &'a Particulars<'a>,
    /// The names of the package's files.
    pub names: &'a [&'a str],
    /// The contents of the files.
    pub files: &'a [FileSum],
    /// The report.
    pub report: &'a BoardReport,
    /// The reasons. With empty lists it is the JSON of a report without waivers.
    pub accepted: &'a Acceptances<'a>,
}

/// How many findings the wide profile does not have; nothing in the wide profile.
fn fewer_in_wide(profile: Profile, fewer: u128) -> Option<u128>
    ensures { or_null whole result ≡ fewer_value profile fewer }
{
    match profile {
        Profile::Strict => Some(fewer),
        Profile::Wide => None,
    }
}

/// The last members of a report in a profile, from `meets` on, with the closing bracket.
#[derive(Clone, Copy)]
struct ReportRest<'a> {
    profile: Profile,
    json: &'a ReportJson<'a>,
}

impl Display for ReportRest<'_> {
    ghost output = { λ rest. Some (more_members (members_of (report_rest rest.profile rest.json.now.about.now (map (λ name. name.now) rest.json.now.names.now) rest.json.now.files.now rest.json.now.report.now rest.json.now.accepted.now))) };

    #[tactic(auto, unfolding(json::specs::Print::escape_byte))]
    fn fmt<W: fmt::Write>(&self, f: &mut Formatter<W>) -> fmt::Result {
        let (profile, json) = (self.profile, self.json);
        let (names, files, report, accepted) = (json.names, json.files, json.report, json.accepted);
        let fewer = fewer_in_wide(profile, json.about.fewer);
        let files = Files {
            profile,
            names,
            files,
        };
        let scales = report.scales.as_slice();
        let findings = Findings { report, accepted };
        let (files, scales, findings) = (Array(&files), Array(&scales), Array(&findings));
        let (meets, fewer) = (Text(&report.meets), Text(&fewer));
        write!(
            f,
            r#","meets":{meets},"fewer_in_wide":{fewer},"files":{files},"scales":{scales},"findings":{findings}}}"#
        )
    }
}

/// The members of a report in a profile after its rules: first what drilling leaves of them, where the report says it.
#[derive(Clone, Copy)]
struct DrillingRest<'a> {
    profile: Profile,
    json: &'a ReportJson<'a>,
}

impl Display for DrillingRest<'_> {
    ghost output = { λ rest. Some (more_members (members_of (drilling_rest rest.profile rest.json.now.about.now (map (λ name. name.now) rest.json.now.names.now) rest.json.now.files.now rest.json.now.report.now rest.json.now.accepted.now))) };

    #[tactic(auto, unfolding(json::specs::Print::escape_byte))]
    fn fmt<W: fmt::Write>(&self, f: &mut Formatter<W>) -> fmt::Result {
        let (profile, json) = (self.profile, self.json);
        let rest = ReportRest { profile, json };
        match &json.about.drilling {
            Some(drilling) => {
                let rules = &json.report.rules;
                let drilled = DrillingJson { rules, drilling };
                write!(f, r#","drilling":{}{rest}"#, Text(&drilled))
            }
            None => write!(f, "{rest}"),
        }
    }
}

/// The members of a report in a profile from `manifest` on, with the closing bracket.
#[derive(Clone, Copy)]
struct AboutRest<'a> {
    profile: Profile,
    json: &'a ReportJson<'a>,
}

impl Display for AboutRest<'_> {
    ghost output = { λ rest. Some (more_members (members_of (about_rest rest.profile rest.json.now.about.now (map (λ name. name.now) rest.json.now.names.now) rest.json.now.files.now rest.json.now.report.now rest.json.now.accepted.now))) };

    #[tactic(auto, unfolding(json::specs::Print::escape_byte))]
    fn fmt<W: fmt::Write>(&self, f: &mut Formatter<W>) -> fmt::Result {
        let (profile, json) = (self.profile, self.json);
        let (manifest, program) = (Escaped(json.about.manifest), Escaped(json.about.program));
        let rules = Text(&json.report.rules);
        let rest = DrillingRest { profile, json };
        write!(
            f,
            r#","manifest":"{manifest}","program":"{program}","rules":{rules}{rest}"#
        )
    }
}

impl Value for ReportJson<'_> {
    ghost value = { λ json. waived_report_value json.about.now (map (λ name. name.now) json.names.now) json.files.now json.report.now json.accepted.now };

    #[tactic(auto, unfolding(crate::specs::Packages::report_value, json::specs::Print::escape_byte))]
    fn write<W: fmt::Write>(&self, f: &mut Formatter<W>) -> fmt::Result {
        let (profile, json) = (self.report.rules.profile(), self);
        let result = report_result(self.report, self.accepted);
        let about = AboutRest { profile, json };
        let (profile, result) = (Text(&profile), Text(&result));
        write!(
            f,
            r#"{{"format":"ringcheck","version":{VERSION},"profile":{profile},"result":{result}{about}"#
        )
    }

    #[tactic(auto, unfolding(crate::specs::Packages::report_value))]
    fn numbers(&self) {
        let (names, files, report, accepted) = (self.names, self.files, self.report, self.accepted);
        let profile = report.rules.profile();
        u128::from(VERSION).numbers();
        report.rules.numbers();
        if let Some(drilling) = &self.about.drilling {
            let rules = &report.rules;
            DrillingJson { rules, drilling }.numbers();
        }
        fewer_in_wide(profile, self.about.fewer).numbers();
        report.meets.numbers();
        array_numbers(&Files {
            profile,
            names,
            files,
        });
        array_numbers(&report.scales.as_slice());
        array_numbers(&Findings { report, accepted });
    }
}

impl Display for ReportJson<'_> {
    ghost output = { λ json. Some (json_text (waived_report_value json.about.now (map (λ name. name.now) json.names.now) json.files.now json.report.now json.accepted.now)) };

    fn fmt<W: fmt::Write>(&self, f: &mut Formatter<W>) -> fmt::Result {
        write_line(f, self)
    }
}

impl ReportJson<'_> {
    /// Before its line end the printed text is a document of RFC 8259, and its value is just the defined one, whatever the names and the
    /// reasons are. A call does nothing but give this clause.
    pub fn reads_back(&self)
        ensures { document (print (json_tokens (waived_report_value self.now.about.now (map (λ name. name.now) self.now.names.now) self.now.files.now self.now.report.now self.now.accepted.now)))
            ≡ Some (waived_report_value self.now.about.now (map (λ name. name.now) self.now.names.now) self.now.files.now self.now.report.now self.now.accepted.now) }
    {
        self.numbers();
    }
}
