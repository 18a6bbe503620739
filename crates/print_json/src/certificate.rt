//! The JSON of a certificate.

ghost use Rattle.std.specs.Prelude.{◌≡◌, ◌∷◌, [], Some};
ghost use Rattle.std.specs.Fmt.{DisplaysOnOk};
ghost use Rattle.hex.specs.Hex.{encode_lower};
ghost use Rattle.json.specs.Json.{document};
ghost use Rattle.json.specs.Print.{escape, print};
ghost use Rattle.json.specs.Tree.{json_tokens};
ghost use Rattle.print_json.specs.Certificates.{certificate_of, certificate_value, digest_of, digest_value, file_digest_value, predicate_of, predicate_value};
ghost use Rattle.print_json.specs.Inner.Texts.{certified_rest, more_members};
ghost use Rattle.print_json.specs.ReadCertificates.{certified_by, named_by};
ghost use Rattle.print_json.specs.Values.{json_text, members_of};

use crate::arrays::{Array, Files, array_numbers};
use crate::printed::{Text, Value, write_line};
use crate::strings::write_digits;
use board::FileSum;
use grid_units::Rules;
use std::fmt;
use std::fmt::{Display, Formatter};

/// A file by its name in the manifest, or the manifest itself, and the SHA-256 of its bytes.
#[derive(Clone, Copy)]
pub struct FileDigest<'a> {
    /// The name.
    pub name: &'a str,
    /// The 32 bytes of the SHA-256, the first byte first.
    pub sha256: [u8; 32],
}

/// What a package that passes a check is certified by: one line with its line end, the JSON of an in-toto Statement.
#[derive(Clone, Copy)]
pub struct Certificate<'a> {
    /// The program and its version: `ringcheck 1.2.3`.
    pub program: &'a str,
    /// The rules of the check, with its profile.
    pub rules: Rules,
    /// Each file of the package, in order, and last the manifest.
    pub subjects: &'a [FileDigest<'a>],
    /// The manifest, once more, as the configuration of the check.
    pub manifest: FileDigest<'a>,
    /// The names of the package's files.
    pub names: &'a [&'a str],
    /// The contents of the files.
    pub files: &'a [FileSum],
}

/// Writes a byte in hexadecimal digits of lower case, as they stand in a string.
fn write_byte<W: fmt::Write>(f: &mut Formatter<W>, byte: u8) -> fmt::Result
    ensures { DisplaysOnOk W.write_str_gives f.old result (Some (escape (encode_lower (byte ∷ [])))) f.new }
{
    write_digits(f, byte)
}

/// Writes bytes in hexadecimal digits of lower case, as they stand in a string.
#[tactic(auto, using(crate::proofs::Digits::byte_more))]
fn write_bytes<W: fmt::Write>(f: &mut Formatter<W>, bytes: &[u8]) -> fmt::Result
    ensures { DisplaysOnOk W.write_str_gives f.old result (Some (escape (encode_lower bytes.now))) f.new }
{
    for byte in bytes {
        write_byte(f, *byte)?;
    }
    Ok(())
}

/// Bytes in hexadecimal digits of lower case, as they stand in a string.
#[derive(Clone, Copy)]
struct Hexadecimal<'a>(&'a [u8]);

impl Display for Hexadecimal<'_> {
    ghost output = { λ bytes. Some (escape (encode_lower bytes.0.now)) };

    fn fmt<W: fmt::Write>(&self, f: &mut Formatter<W>) -> fmt::Result {
        write_bytes(f, self.0)
    }
}

/// A file: `{"name":"top.gbr","digest":{"sha256":"9f86d081.."}}`.
impl Value for FileDigest<'_> {
    ghost value = { λ file. file_digest_value (digest_of file) };

    #[tactic(auto, unfolding(crate::specs::Certificates::file_digest_value, crate::specs::Certificates::digest_value, json::specs::Print::escape_byte))]
    fn write<W: fmt::Write>(&self, f: &mut Formatter<W>) -> fmt::Result {
        let (name, digest) = (Text(&self.name), Hexadecimal(&self.sha256));
        write!(f, r#"{{"name":{name},"digest":{{"sha256":"{digest}"}}}}"#)
    }

    #[tactic(auto, unfolding(crate::specs::Certificates::file_digest_value, crate::specs::Certificates::digest_value))]
    fn numbers(&self) {}
}

/// The members of what the check found from the profile on, with the closing bracket.
#[derive(Clone, Copy)]
struct CertifiedRest<'a>(&'a Certificate<'a>);

impl Display for CertifiedRest<'_> {
    ghost output = { λ rest. Some (more_members (members_of (certified_rest rest.0.now))) };

    #[tactic(auto, unfolding(json::specs::Print::escape_byte))]
    fn fmt<W: fmt::Write>(&self, f: &mut Formatter<W>) -> fmt::Result {
        let (rules, names, files) = (self.0.rules, self.0.names, self.0.files);
        let profile = rules.profile();
        let files = Files {
            profile,
            names,
            files,
        };
        let (profile, rules, files) = (Text(&profile), Text(&rules), Array(&files));
        write!(
            f,
            r#","profile":{profile},"rules":{rules},"files":{files}}}"#
        )
    }
}

/// What the check found: the predicate of the statement.
#[derive(Clone, Copy)]
struct Predicate<'a>(&'a Certificate<'a>);

impl Value for Predicate<'_> {
    ghost value = { λ found. predicate_of found.0.now };

    #[tactic(auto, unfolding(crate::specs::Certificates::predicate_value, json::specs::Print::escape_byte))]
    fn write<W: fmt::Write>(&self, f: &mut Formatter<W>) -> fmt::Result {
        let (manifest, program) = (Text(&self.0.manifest), Text(&self.0.program));
        let rest = CertifiedRest(self.0);
        write!(
            f,
            r#"{{"result":"PASSED","configuration":[{manifest}],"program":{program}{rest}"#
        )
    }

    #[tactic(auto, unfolding(crate::specs::Certificates::predicate_value))]
    fn numbers(&self) {
        let (rules, names, files) = (self.0.rules, self.0.names, self.0.files);
        let profile = rules.profile();
        self.0.manifest.numbers();
        rules.numbers();
        array_numbers(&Files {
            profile,
            names,
            files,
        });
    }
}

impl Value for Certificate<'_> {
    ghost value = { certificate_of };

    #[tactic(auto, unfolding(crate::specs::Certificates::certificate_value, json::specs::Print::escape_byte))]
    fn write<W: fmt::Write>(&self, f: &mut Formatter<W>) -> fmt::Result {
        let (subjects, found) = (self.subjects, Predicate(self));
        let (subjects, found) = (Array(&subjects), Text(&found));
        write!(
            f,
            r#"{{"_type":"https://in-toto.io/Statement/v1","subject":{subjects},"predicateType":"https://in-toto.io/attestation/test-result/v0.1","predicate":{found}}}"#
        )
    }

    #[tactic(auto, unfolding(crate::specs::Certificates::certificate_value))]
    fn numbers(&self) {
        array_numbers(&self.subjects);
        Predicate(self).numbers();
    }
}

impl Display for Certificate<'_> {
    ghost output = { λ it. Some (json_text (certificate_of it)) };

    fn fmt<W: fmt::Write>(&self, f: &mut Formatter<W>) -> fmt::Result {
        write_line(f, self)
    }
}

impl Certificate<'_> {
    /// Before its line end the printed text is a document of RFC 8259, and its value is just the defined one, whatever the names are. A
    /// call does nothing but give this clause.
    pub fn reads_back(&self)
        ensures { document (print (json_tokens (certificate_of self.now))) ≡ Some (certificate_of self.now) }
    {
        self.numbers();
    }

    /// The printed text is read as that of a certificate of just this manifest, these rules and these digests. A call does nothing but give
    /// this clause.
    pub fn reads_as_made(&self)
        ensures { certified_by (json_text (certificate_of self.now)) ≡ Some (named_by self.now) }
    {
        self.reads_back();
        let _within = (self.rules.ring(), self.rules.gap());
    }
}
