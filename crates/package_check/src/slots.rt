//! What a reader keeps of the files of a package, each in a slot at its index.

ghost use Rattle.std.specs.Prelude.{◌≡◌, ◌++◌, ℕ, OnErr, OnOk, ◌∷◌, []};
ghost use Rattle.package_check.specs.Holding.{IsPutAt, kept_at};

use crate::contents::Content;
use board::Shown;
use std::alloc::AllocError;

/// What is kept of a file: its content, and what is kept of it to be shown.
#[derive(Drop)]
pub(crate) struct Kept {
    pub(crate) content: Content,
    pub(crate) shown: Shown,
}

/// Puts what is kept of a file into the slot at its index. What was there is freed. Where there is no memory each slot stays.
#[tactic(auto, using(crate::proofs::SlotLemmas::empty_more, crate::proofs::SlotLemmas::slot_filled))]
pub(crate) fn put<T: Drop>(
    slots: &mut Vec<Option<T>>,
    index: usize,
    one: T,
) -> Result<(), AllocError>
    ensures put { OnOk result (IsPutAt index one slots.old.items slots.new.items) }
    ensures same { OnErr result ((i : ℕ) → kept_at slots.new.items i ≡ kept_at slots.old.items i) }
{
    while slots.len() <= index {
        push(slots, None)?;
    }
    slots[index] = Some(one);
    Ok(())
}

/// Appends an element. Where there is no memory the list stays, and the element is freed.
pub(crate) fn push<T: Drop>(list: &mut Vec<T>, element: T) -> Result<(), AllocError>
    ensures ok { OnOk result (list.new.items ≡ list.old.items ++ element ∷ []) }
    ensures err { OnErr result (list.new.items ≡ list.old.items) }
{
    if list.push(element).is_err() {
        return Err(AllocError);
    }
    Ok(())
}
