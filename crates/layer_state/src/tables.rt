//! Tables of what a file defines. They are ordered, so no choice of numbers or names makes them slow.

ghost use Rattle.std.specs.Prelude.{◌≡◌, ◌==◌, ℕ, List, None, Some, nat_eq, OnOk, IfOk, if◌then◌else◌};
ghost use Rattle.std.specs.Option.{option_copied, option_or};
ghost use Rattle.std.specs.Cmp.Lexicographic.{pointwise};
ghost use Rattle.grid_units.specs.declared.profile.Profile.TheVariants.{Wide};
ghost use Rattle.gerber_commands.specs.declared.command.Command.TheVariants as command;

use crate::aperture::{Aperture, copy_of_template, same_template};
use gerber_text::{Pieces, Template};
use grid_units::{Profile, Text};
use pad_shapes::SharedRounded;
use std::alloc::{AllocError, Global};
use std::collections::BTreeMap;

/// An aperture, and its shape, where shapes are asked for and it has one.
#[derive(Drop)]
pub struct Defined {
    pub aperture: Aperture,
    pub shape: Option<SharedRounded>,
}

/// The apertures by their numbers. In the wide profile their templates are kept too, by which it is known whether one is defined again just as before.
#[derive(Drop)]
pub struct Apertures {
    profile: Profile,
    table: BTreeMap<u32, Defined>,
    templates: BTreeMap<u32, Template>,
}

impl Apertures {
    ghost use Rattle.layer_state.specs.Tables.{defined_at, is_allowed_again, profile_of, template_at};

    /// No apertures, in this profile.
    pub(crate) fn new(alloc: Global, profile: Profile) -> Self
        ensures none { (number : ℕ) → defined_at result number ≡ None }
        ensures profile { profile_of result ≡ profile }
        ensures templates { (number : ℕ) → template_at result number ≡ None }
    {
        Apertures {
            profile,
            table: BTreeMap::new(alloc),
            templates: BTreeMap::new(alloc),
        }
    }

    /// The aperture of a number, if it has one, with its shape.
    pub fn get(&self, number: u32) -> Option<&Defined>
        ensures { option_copied result ≡ defined_at self.now number }
    {
        self.table.get(&number)
    }

    /// Whether an aperture that has a number may be defined again by this template.
    pub(crate) fn is_allowed_again(&self, number: u32, template: &Template) -> bool
        ensures { result ≡ is_allowed_again self.now (command.Define number template.now) }
    {
        match self.profile {
            Profile::Strict => false,
            Profile::Wide => match self.templates.get(&number) {
                Some(earlier) => same_template(earlier, template),
                None => false,
            },
        }
    }

    /// Gives a number its aperture, which has this template.
    pub(crate) fn insert(
        &mut self,
        number: u32,
        template: &Template,
        defined: Defined,
    ) -> Result<(), AllocError>
        ensures defined { OnOk result ((other : ℕ) → defined_at self.new other ≡ option_or (if other == number then Some defined else None) (defined_at self.old other)) }
        ensures profile { profile_of self.new ≡ profile_of self.old }
        ensures templates { profile_of self.old ≡ Wide → OnOk result ((other : ℕ) → template_at self.new other ≡ option_or (if other == number then Some template.now else None) (template_at self.old other)) }
    {
        self.table.insert(number, defined)?;
        match self.profile {
            Profile::Strict => Ok(()),
            Profile::Wide => {
                self.templates.insert(number, copy_of_template(template)?)?;
                Ok(())
            }
        }
    }
}

/// The macros by their names. The pieces of one are kept where shapes are asked for.
#[derive(Drop)]
pub(crate) struct Macros {
    table: BTreeMap<Vec<u8>, Option<Pieces>>,
}

impl Macros {
    ghost use Rattle.layer_state.specs.Tables.{has_name, macro_at, pieces_at};

    /// No macros.
    pub(crate) fn new(alloc: Global) -> Self
        ensures { (name : List ℕ) → macro_at result name ≡ None }
    {
        Macros {
            table: BTreeMap::new(alloc),
        }
    }

    /// Whether a macro has this name.
    pub(crate) fn has(&self, name: &Text) -> bool
        ensures { result ≡ has_name self.now name.now }
    {
        self.table.contains_key(name.bytes())
    }

    /// The pieces that are kept of the macro of a name.
    pub(crate) fn get(&self, name: &Text) -> Option<&Pieces>
        ensures { option_copied result ≡ pieces_at self.now name.now }
    {
        self.table.get(name.bytes())?.as_ref()
    }

    /// Gives a name its macro, of which these pieces are kept.
    pub(crate) fn insert(
        &mut self,
        alloc: Global,
        name: &Text,
        pieces: Option<Pieces>,
    ) -> Result<(), AllocError>
        ensures { OnOk result ((other : List ℕ) → macro_at self.new other ≡ option_or (if pointwise nat_eq name.now other then Some pieces else None) (macro_at self.old other)) }
    {
        self.table
            .insert(Vec::from_slice(alloc, name.bytes())?, pieces)?;
        Ok(())
    }
}

/// A copy of the pieces of a macro.
pub(crate) fn copy_of(alloc: Global, texts: &[Text]) -> Result<Pieces, AllocError>
    ensures { IfOk result (λ pieces. pieces ≡ texts.now) }
{
    let mut copies = Vec::new(alloc);
    for text in texts {
        copies.push(text.copy()?)?;
    }
    Ok(Pieces::new(copies))
}
