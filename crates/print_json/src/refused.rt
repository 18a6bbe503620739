//! The JSON of a refusal, and of a file that cannot be read.

ghost use Rattle.std.specs.Prelude.{◌≡◌, Some};
ghost use Rattle.std.specs.Fmt.{DisplaysOnOk};
ghost use Rattle.json.specs.Json.{document};
ghost use Rattle.json.specs.Print.{print};
ghost use Rattle.json.specs.Tree.{json_tokens};
ghost use Rattle.print_json.specs.Inner.Texts.{value_text};
ghost use Rattle.print_json.specs.Packages.{device_value, input_error_value, manifest_device_value, refused_manifest_value, refused_value, refused_waivers_value, waivers_device_value};
ghost use Rattle.print_json.specs.Values.{json_text};

use crate::VERSION;
use crate::printed::{Value, write_line};
use crate::strings::Escaped;
use grid_units::{Fault, Reason};
use std::fmt;
use std::fmt::{Display, Formatter};

/// Why there is neither a report nor a measure.
#[derive(Clone, Copy)]
pub enum InputError<'a> {
    /// The manifest is refused.
    RefusedManifest {
        /// The number of its record, from 1; 0 where it is refused as a whole.
        place: u64,
        /// The reason of the refusal.
        reason: Reason,
    },
    /// A file is refused.
    Refused {
        /// Its index in the package, from 0.
        index: usize,
        /// Its name in the manifest.
        name: &'a str,
        /// The place, the byte and the reason of the refusal.
        fault: Fault,
    },
    /// The manifest cannot be read.
    ManifestDevice,
    /// A file cannot be read.
    Device {
        /// Its index in the package, from 0.
        index: usize,
        /// Its name in the manifest.
        name: &'a str,
    },
    /// The file of waivers is refused.
    RefusedWaivers {
        /// The number of its record, from 1; 0 where it is refused as a whole.
        place: u64,
        /// The reason of the refusal.
        reason: Reason,
    },
    /// The file of waivers cannot be read.
    WaiversDevice,
}

/// Writes the object of a refused manifest: `{..,"result":"refused","place":2,"reason":"BadRole"}`.
#[tactic(auto, unfolding(json::specs::Print::escape_byte))]
fn write_refused_manifest<W: fmt::Write>(
    f: &mut Formatter<W>,
    place: u64,
    reason: Reason,
) -> fmt::Result
    ensures { DisplaysOnOk W.write_str_gives f.old result (Some (value_text (refused_manifest_value place reason))) f.new }
{
    write!(
        f,
        r#"{{"format":"ringcheck","version":{VERSION},"result":"refused","place":{place},"reason":"{}"}}"#,
        Escaped(reason.name())
    )
}

/// Writes the object of a refused file: `{..,"result":"refused","file":1,"name":"top","place":11,"byte":100,"reason":"BadWord"}`.
#[tactic(auto, unfolding(json::specs::Print::escape_byte))]
fn write_refused_file<W: fmt::Write>(
    f: &mut Formatter<W>,
    index: usize,
    name: &str,
    fault: Fault,
) -> fmt::Result
    ensures { DisplaysOnOk W.write_str_gives f.old result (Some (value_text (refused_value index name.now fault))) f.new }
{
    let (number, name) = (index as u128 + 1, Escaped(name));
    let (place, byte) = (fault.place, fault.byte);
    write!(
        f,
        r#"{{"format":"ringcheck","version":{VERSION},"result":"refused","file":{number},"name":"{name}","place":{place},"byte":{byte},"reason":"{}"}}"#,
        Escaped(fault.reason.name())
    )
}

/// Writes the object of a file that cannot be read: `{..,"result":"device","file":2,"name":"pth"}`.
#[tactic(auto, unfolding(json::specs::Print::escape_byte))]
fn write_unread_file<W: fmt::Write>(f: &mut Formatter<W>, index: usize, name: &str) -> fmt::Result
    ensures { DisplaysOnOk W.write_str_gives f.old result (Some (value_text (device_value index name.now))) f.new }
{
    let (number, name) = (index as u128 + 1, Escaped(name));
    write!(
        f,
        r#"{{"format":"ringcheck","version":{VERSION},"result":"device","file":{number},"name":"{name}"}}"#
    )
}

/// Writes the object of a refused file of waivers: `{..,"result":"refused","waivers":true,"place":2,"reason":"EmptyName"}`.
#[tactic(auto, unfolding(json::specs::Print::escape_byte))]
fn write_refused_waivers<W: fmt::Write>(
    f: &mut Formatter<W>,
    place: u64,
    reason: Reason,
) -> fmt::Result
    ensures { DisplaysOnOk W.write_str_gives f.old result (Some (value_text (refused_waivers_value place reason))) f.new }
{
    write!(
        f,
        r#"{{"format":"ringcheck","version":{VERSION},"result":"refused","waivers":true,"place":{place},"reason":"{}"}}"#,
        Escaped(reason.name())
    )
}

/// Writes the object of a manifest that cannot be read.
#[tactic(auto, unfolding(json::specs::Print::escape_byte))]
fn write_unread_manifest<W: fmt::Write>(f: &mut Formatter<W>) -> fmt::Result
    ensures { DisplaysOnOk W.write_str_gives f.old result (Some (value_text manifest_device_value)) f.new }
{
    write!(
        f,
        r#"{{"format":"ringcheck","version":{VERSION},"result":"device"}}"#
    )
}

/// Writes the object of a file of waivers that cannot be read.
#[tactic(auto, unfolding(json::specs::Print::escape_byte))]
fn write_unread_waivers<W: fmt::Write>(f: &mut Formatter<W>) -> fmt::Result
    ensures { DisplaysOnOk W.write_str_gives f.old result (Some (value_text waivers_device_value)) f.new }
{
    write!(
        f,
        r#"{{"format":"ringcheck","version":{VERSION},"result":"device","waivers":true}}"#
    )
}

impl Value for InputError<'_> {
    ghost value = { input_error_value };

    fn write<W: fmt::Write>(&self, f: &mut Formatter<W>) -> fmt::Result {
        match self {
            InputError::RefusedManifest { place, reason } => {
                write_refused_manifest(f, *place, *reason)
            }
            InputError::Refused { index, name, fault } => {
                write_refused_file(f, *index, name, *fault)
            }
            InputError::ManifestDevice => write_unread_manifest(f),
            InputError::Device { index, name } => write_unread_file(f, *index, name),
            InputError::RefusedWaivers { place, reason } => {
                write_refused_waivers(f, *place, *reason)
            }
            InputError::WaiversDevice => write_unread_waivers(f),
        }
    }

    fn numbers(&self) {
        u128::from(VERSION).numbers();
        match self {
            InputError::RefusedManifest { place, .. } | InputError::RefusedWaivers { place, .. } =>
                {
                    u128::from(*place).numbers();
                }
            InputError::Refused { index, fault, .. } => {
                (*index as u128 + 1).numbers();
                u128::from(fault.place).numbers();
                u128::from(fault.byte).numbers();
            }
            InputError::Device { index, .. } => (*index as u128 + 1).numbers(),
            InputError::ManifestDevice | InputError::WaiversDevice => {}
        }
    }
}

impl Display for InputError<'_> {
    ghost output = { λ stop. Some (json_text (input_error_value stop)) };

    fn fmt<W: fmt::Write>(&self, f: &mut Formatter<W>) -> fmt::Result {
        write_line(f, self)
    }
}

impl InputError<'_> {
    /// Before its line end the printed text is a document of RFC 8259, and its value is just the defined one, whatever the name is. A call
    /// does nothing but give this clause.
    pub fn reads_back(&self)
        ensures { document (print (json_tokens (input_error_value self.now))) ≡ Some (input_error_value self.now) }
    {
        self.numbers();
    }
}
