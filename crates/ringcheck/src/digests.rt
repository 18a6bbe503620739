//! SHA-256 digests of files, taken while they are loaded.

ghost use Rattle.std.specs.Prelude.{◌≡◌, ◌++◌, [], ℕ, List, length, nat_lt, set, Bool};
ghost use Rattle.sha2.specs.Sha256.{sha256};
ghost use Rattle.ringcheck.specs.Inner.Digests.{Hashes};

use sha2::Sha256;

/// The SHA-256 of the bytes of a file.
pub(crate) type Digest = [u8; 32];

/// What hashes the bytes of a file as they are loaded, where its digest is asked for.
#[derive(Drop)]
pub(crate) struct FileHasher {
    hasher: Option<Sha256>,
}

impl FileHasher {
    /// The hasher of the file at this index, which hashes where the digests have a place for it.
    pub(crate) fn of(digests: &[Digest], index: usize) -> FileHasher
        ensures { Hashes (nat_lt index (length digests.now)) result [] }
    {
        FileHasher {
            hasher: (index < digests.len()).then(sha2::Digest::new),
        }
    }

    /// Takes the next piece of the file.
    pub(crate) fn take(&mut self, piece: &[u8])
        ensures { (on : Bool) (text : List ℕ) → Hashes on self.old text → Hashes on self.new (text ++ piece.now) }
    {
        if let Some(hasher) = &mut self.hasher {
            sha2::Digest::update(hasher, piece);
        }
    }

    /// Puts the digest of the file that was taken at its place.
    pub(crate) fn put(self, digests: &mut [Digest], index: usize)
        ensures { (text : List ℕ) → Hashes (nat_lt index (length digests.old)) self text → digests.new ≡ set digests.old index (sha256 text) }
    {
        if let Some(hasher) = self.hasher {
            if index < digests.len() {
                digests[index] = sha2::Digest::finalize(hasher);
            }
        }
    }
}
