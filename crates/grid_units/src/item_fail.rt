//! Why a single item, line or command has no result.

ghost use Rattle.std.specs.Prelude.{◌≡◌};
ghost use Rattle.grid_units.specs.declared.item_fail.ItemFail.TheVariants.{Memory, Refused};

use crate::fault::Reason;
use std::alloc::AllocError;

/// Why an item, a line or a command has no result: a [`Fail`](crate::Fail) without its place, which the caller adds.
#[derive(Clone, Copy)]
pub enum ItemFail {
    /// An allocation failed.
    Memory,
    /// The item, line or command was refused.
    Refused(Reason),
}

impl From<AllocError> for ItemFail {
    ghost from_gives = { λ _ item_fail. item_fail ≡ Memory };

    fn from(_error: AllocError) -> ItemFail {
        ItemFail::Memory
    }
}

impl From<Reason> for ItemFail {
    ghost from_gives = { λ reason item_fail. item_fail ≡ Refused reason };

    fn from(reason: Reason) -> ItemFail {
        ItemFail::Refused(reason)
    }
}
