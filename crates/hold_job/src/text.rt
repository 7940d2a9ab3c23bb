//! Texts of a job, and the rules on them.
ghost use Rattle.std.specs.Prelude.{◌≡◌, IfOk};
ghost use Rattle.std.specs.List.{list_all};
ghost use Rattle.hold_base.specs.NameBytes.{is_printed};
ghost use Rattle.hold_netlist.specs.Names.{is_among};
ghost use Rattle.hold_job.specs.Names.{is_file_name, is_name, is_corner_name};
ghost use Rattle.hold_job.specs.inner.Forms.{allows, text_form, corner_names};

use crate::corner::Corner;
use crate::fault::JobFault;
use crate::form::{Form, not_its_kind, out_of_range};
use crate::name_set::NameSet;
use hold_base::{Name, Stop, is_printed, limits};
use std::alloc::Global;
use toml::Value;

/// The rules that a text may have to keep.
#[derive(Drop)]
pub enum TextRule<'a> {
    /// It may name a file.
    File,
    /// It may name a type, an instance or a pin.
    Name,
    /// It is such a name, and isn't taken.
    NewName(&'a NameSet),
    /// It may name a corner that stands behind these.
    NewCorner(&'a [Corner]),
    /// It is one of these names.
    OneOf(&'a NameSet),
}

/// Whether a file may have the name.
fn is_file_name(name: &[u8]) -> bool
    ensures { result ≡ is_file_name name.now }
{
    !name.is_empty() && name.len() <= limits::NAME_BYTES
}

/// Whether each byte prints and is no space.
fn are_printed(text: &[u8]) -> bool
    ensures { result ≡ list_all is_printed text.now }
{
    text.iter().all(|byte| is_printed(*byte))
}

/// Whether a type, an instance or a pin may have the name.
fn is_name(name: &[u8]) -> bool
    ensures { result ≡ is_name name.now }
{
    is_file_name(name) && are_printed(name)
}

/// Whether a corner may have the name.
fn is_corner_name(name: &[u8]) -> bool
    ensures { result ≡ is_corner_name name.now }
{
    !name.is_empty() && name.len() <= limits::CORNER_NAME_BYTES && are_printed(name)
}

/// Whether one of the corners, which are few, has the name.
fn is_corner(name: &[u8], corners: &[Corner]) -> bool
    ensures { result ≡ is_among name.now (corner_names corners.now) }
{
    for corner in corners {
        if name == corner.name.bytes() {
            return true;
        }
    }
    false
}

impl TextRule<'_> {
    fn allows(&self, text: &[u8]) -> bool
        ensures { result ≡ allows self.now text.now }
    {
        match self {
            TextRule::File => is_file_name(text),
            TextRule::Name => is_name(text),
            TextRule::NewName(taken) => is_name(text) && !taken.has(text),
            TextRule::NewCorner(corners) => is_corner_name(text) && !is_corner(text, corners),
            TextRule::OneOf(names) => names.has(text),
        }
    }
}

impl Form for TextRule<'_> {
    type Given = Name;

    ghost form = { text_form };

    fn read(&self, alloc: Global, value: &Value) -> Result<Name, Stop<JobFault>> {
        let Some(text) = value.as_str() else {
            return Err(not_its_kind(alloc));
        };
        if !self.allows(text.as_bytes()) {
            return Err(out_of_range(alloc));
        }
        Ok(Name::from_bytes(alloc, text.as_bytes())?)
    }
}
