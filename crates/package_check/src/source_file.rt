//! Files of a package, whose texts are there whole or come in pieces, and how a reader and a check take them.

ghost use Rattle.std.specs.Prelude.{◌≡◌, true, OnOk};
ghost use Rattle.std.proofs.Common.{refl};
ghost use Rattle.manifest.specs.declared.Role.{Role as TheRole};
ghost use Rattle.package_check.specs.CheckViews as checks;
ghost use Rattle.package_check.specs.Checking.{TakesCopper};
ghost use Rattle.package_check.specs.Holding.{TakesFile, setting_of};
ghost use Rattle.package_check.specs.Package.{FileView, HaveRoles, Setting, file_view, is_copper, pieced_file_view};

use crate::{File, PackageCheck, PackageReader, PiecedFile, Role};
use std::alloc::AllocError;

/// A file of a package, which gives its text to a reader or a check.
pub(crate) trait SourceFile {
    /// The view of the file in a setting.
    ghost seen: { Setting → Self → FileView };

    /// Its role.
    ghost role_of: { Self → TheRole };

    fn role(&self) -> Role
        ensures { result ≡ role_of self.now };

    /// Has a reader take the file at this index of the package, from 0.
    fn give(&self, reader: &mut PackageReader, index: usize) -> Result<(), AllocError>
        ensures stands { OnOk result (TakesFile reader.old reader.new index (seen (setting_of reader.old) self.now)) }
        ensures setting { setting_of reader.new ≡ setting_of reader.old };

    /// Has a check take the file at this index of the package, from 0, which is copper, and whose layer has this number, from 0.
    fn give_copper(
        &self,
        check: &mut PackageCheck,
        index: usize,
        layer: usize,
    ) -> Result<(), AllocError>
        ensures stands { is_copper (role_of self.now) ≡ true → OnOk result (TakesCopper check.old check.new index layer (seen (checks.setting_of check.old) self.now)) }
        ensures setting { checks.setting_of check.new ≡ checks.setting_of check.old };

    /// The view has this role in each setting.
    ghost have_roles: { HaveRoles seen role_of };
}

impl SourceFile for File<'_> {
    ghost seen = { file_view };

    ghost role_of = { λ file. file.role };

    fn role(&self) -> Role {
        self.role
    }

    fn give(&self, reader: &mut PackageReader, index: usize) -> Result<(), AllocError> {
        reader.take(index, self.role, self.said, &[self.bytes])
    }

    fn give_copper(
        &self,
        check: &mut PackageCheck,
        index: usize,
        layer: usize,
    ) -> Result<(), AllocError> {
        check.take(index, layer, self.said, &[self.bytes])
    }

    ghost have_roles = { λ setting file. refl };
}

impl SourceFile for PiecedFile<'_> {
    ghost seen = { pieced_file_view };

    ghost role_of = { λ file. file.role };

    fn role(&self) -> Role {
        self.role
    }

    fn give(&self, reader: &mut PackageReader, index: usize) -> Result<(), AllocError> {
        reader.take(index, self.role, self.said, self.pieces)
    }

    fn give_copper(
        &self,
        check: &mut PackageCheck,
        index: usize,
        layer: usize,
    ) -> Result<(), AllocError> {
        check.take(index, layer, self.said, self.pieces)
    }

    ghost have_roles = { λ setting file. refl };
}
