//! Rows of fields, as `csv` writes them.

ghost use Rattle.std.specs.Prelude.{◌≡◌, ◌++◌, ◌∷◌, [], IfOk, map};
ghost use Rattle.csv.specs.Writing.{default_writer, row_text};

use csv::{Writer, WriterBuilder};
use std::alloc::{AllocError, Global};
use std::marker::Model;

/// A table as CSV, row by row. Contracts see its bytes.
// A writer has kilobytes of buffers, which each move of a table would copy on the stack.
#[derive(Drop)]
pub struct Table {
    writer: Box<Writer<Vec<u8>>>,
}

impl Model for Table {
    ghost use Rattle.std.specs.Prelude.{◌≡◌, ◌++◌, ℕ, false, List};
    ghost use Rattle.csv.specs.Writing.{default_writer, fields_written, has_written, writer_pending, writer_setup, writer_under};

    ghost Value = { List ℕ };

    ghost view = { λ table. (writer_under table.writer.value).items ++ writer_pending table.writer.value };

    ghost invariant = { λ table. (writer_setup table.writer.value ≡ default_writer) × (fields_written table.writer.value ≡ 0) × (has_written table.writer.value ≡ false) };
}

impl Table {
    /// A table without rows.
    ///
    /// # Errors
    ///
    /// An `AllocError` where there is no memory.
    // The writer lies on the stack until it is boxed.
    #[inline(never)]
    pub fn new(alloc: Global) -> Result<Table, AllocError>
        ensures { IfOk result (λ table. table ≡ []) }
    {
        let writer = WriterBuilder::new().from_writer(Vec::new(alloc));
        Ok(Table {
            writer: Box::new(alloc, writer)?,
        })
    }

    /// The table with one more row of these fields.
    ///
    /// # Errors
    ///
    /// An `AllocError` where there is no memory.
    pub fn with_row(self, fields: &[&[u8]]) -> Result<Table, AllocError>
        ensures { IfOk result (λ table. table ≡ self ++ row_text default_writer (map (λ field. field.now) fields.now)) }
    {
        let mut writer = self.writer;
        match writer.write_fields(fields) {
            Ok(()) => Ok(Table { writer }),
            Err(_) => Err(AllocError),
        }
    }

    /// The bytes of all rows.
    ///
    /// # Errors
    ///
    /// An `AllocError` where there is no memory.
    // As in `new`: the writer lies on the stack once it is out of its box.
    #[inline(never)]
    pub fn into_bytes(self) -> Result<Vec<u8>, AllocError>
        ensures { IfOk result (λ bytes. bytes.items ≡ self) }
    {
        match Box::into_inner(self.writer).into_inner() {
            Ok(bytes) => Ok(bytes),
            Err(_) => Err(AllocError),
        }
    }
}

/// The table with one more row, of three fields.
pub(crate) fn with_three_fields<'f>(
    table: Table,
    first: &'f [u8],
    second: &'f [u8],
    third: &'f [u8],
) -> Result<Table, AllocError>
    ensures { IfOk result (λ more. more ≡ table ++ row_text default_writer (first.now ∷ second.now ∷ third.now ∷ [])) }
{
    table.with_row(&[first, second, third])
}
