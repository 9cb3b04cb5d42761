ghost use Rattle.std.specs.Prelude.{◌≡◌, IfOk};
ghost use Rattle.track_terms.specs.Values as spec;

use std::alloc::{AllocError, Global};
use track_terms::TrackFacts;
use uuid::Uuid;

/// The identifier that a word makes in a file: a version 5 UUID.
pub fn id(alloc: Global, facts: &TrackFacts, word: &[u8]) -> Result<[u8; 16], AllocError>
    ensures { IfOk result (λ id. id ≡ spec.id_of facts.now word.now) }
{
    let mut name = Vec::new(alloc);
    name.extend_from_slice(facts.name.as_slice())?;
    name.extend_from_slice(b"#")?;
    name.extend_from_slice(word)?;
    Ok(Uuid::new_v5(&Uuid::from_bytes(facts.namespace), &name).into_bytes())
}

/// The identifier of the set of this number.
pub(crate) fn reference(alloc: Global, facts: &TrackFacts, set: u8) -> Result<[u8; 16], AllocError>
    ensures { IfOk result (λ id. id ≡ spec.reference facts.now set) }
{
    id(alloc, facts, set.to_string(alloc)?.as_bytes())
}
