// The name of a document: a hash of its bytes.
ghost use Rattle.std.specs.Prelude.{◌≡◌, IfOk, string_bytes};
ghost use Rattle.live_header.specs.Hashing.{hash_text};

use hex::encode;
use sha2::{Digest, Sha256};
use std::alloc::{AllocError, Global};

/// The SHA-256 hash of a document's bytes, as 64 digits.
pub fn document_hash(alloc: Global, document: &[u8]) -> Result<String, AllocError>
    ensures { IfOk result (λ text. string_bytes text ≡ hash_text document.now) }
{
    let mut hasher = Sha256::new();
    hasher.update(document);
    let digest = hasher.finalize();
    encode(alloc, digest)
}
