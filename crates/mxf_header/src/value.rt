ghost use Rattle.std.specs.Prelude.{◌≡◌, ◌<◌, ◌^◌, length, IfOk};
ghost use Rattle.track_terms.specs.Values as spec;
ghost use Rattle.jiff.specs.Words.{parse_datetime};

use crate::ids::{id, reference};
use jiff::fmt::temporal;
use mast_base::Bytes;
use std::alloc::{AllocError, Global};
use track_terms::{Fact, TrackFacts, UMID, Value, Word, key_of};

/// The bytes of a value.
pub(crate) fn value_bytes(
    alloc: Global,
    facts: &TrackFacts,
    value: Value,
) -> Result<Bytes, AllocError>
    ensures { IfOk result (λ bytes. bytes ≡ spec.value_of facts.now value) }
{
    let terms = facts.kind.terms();
    match value {
        Value::U8(n) => Bytes::copy_of(alloc, &[n]),
        Value::U16(n) => Bytes::copy_of(alloc, &n.to_be_bytes()),
        Value::U32(n) => Bytes::copy_of(alloc, &n.to_be_bytes()),
        Value::U64(n) => Bytes::copy_of(alloc, &n.to_be_bytes()),
        Value::Rational(m, n) => Bytes::copy_of(alloc, &rational(m, n)),
        Value::Fact(fact) => fact_bytes(alloc, facts, fact),
        Value::Text(word) => utf16(alloc, word.text()),
        Value::Id(word) => Bytes::copy_of(alloc, &id(alloc, facts, word.text())?),
        Value::Reference(k) => Bytes::copy_of(alloc, &reference(alloc, facts, k)?),
        Value::OneReference(k) => batch(alloc, &[reference(alloc, facts, k)?]),
        Value::TwoReferences(j, k) => {
            let both = [reference(alloc, facts, j)?, reference(alloc, facts, k)?];
            batch(alloc, &both)
        }
        Value::Label(groups) => Bytes::copy_of(alloc, &key_of(groups)),
        Value::Container => Bytes::copy_of(alloc, &key_of(terms.container)),
        Value::OneContainer => batch(alloc, &[key_of(terms.container)]),
        Value::NoLabels => batch(alloc, &[]),
        Value::DataDefinition => Bytes::copy_of(alloc, &key_of(terms.definition)),
        Value::TrackNumber => Bytes::copy_of(alloc, &terms.item_key[3].to_be_bytes()),
        Value::MaterialPackage => { package_id(alloc, &id(alloc, facts, Word::Material.text())?) }
        Value::SourcePackage => package_id(alloc, &facts.asset),
        Value::NoPackage => Bytes::copy_of(alloc, &[0; 32]),
    }
}

/// What the facts say.
fn fact_bytes(alloc: Global, facts: &TrackFacts, fact: Fact) -> Result<Bytes, AllocError>
    ensures { IfOk result (λ bytes. bytes ≡ spec.fact_value facts.now fact) }
{
    let width = u32::from(facts.width);
    let height = u32::from(facts.height);
    let channels = u32::from(facts.channels);
    match fact {
        Fact::Rate => Bytes::copy_of(alloc, &rational(u32::from(facts.fps), 1)),
        Fact::Issued => Bytes::copy_of(alloc, &time_bytes(facts.issued.as_slice())),
        Fact::Frames => Bytes::copy_of(alloc, &u64::from(facts.frames).to_be_bytes()),
        Fact::Width => Bytes::copy_of(alloc, &width.to_be_bytes()),
        Fact::Height => Bytes::copy_of(alloc, &height.to_be_bytes()),
        Fact::AspectRatio => Bytes::copy_of(alloc, &rational(width, height)),
        Fact::Channels => Bytes::copy_of(alloc, &channels.to_be_bytes()),
        Fact::SampleBytes => {
            Bytes::copy_of(alloc, &(u16::from(facts.channels) * 3).to_be_bytes())
        }
        Fact::SecondBytes => Bytes::copy_of(alloc, &(channels * 144_000).to_be_bytes()),
    }
}

/// The date and time that a text says, in eight bytes: zeros where it says none.
fn time_bytes(text: &[u8]) -> [u8; 8]
    ensures { result ≡ spec.time_bytes (parse_datetime text.now) }
{
    let Ok(issued) = temporal::parse_datetime(text) else {
        return [0; 8];
    };
    let [high, low] = issued.date.year.to_be_bytes();
    let (date, time) = (issued.date, issued.time);
    [
        high,
        low,
        date.month,
        date.day,
        time.hour,
        time.minute,
        time.second,
        0,
    ]
}

/// A rational number in eight bytes.
pub fn rational(numerator: u32, denominator: u32) -> [u8; 8]
    ensures { result ≡ spec.rational numerator denominator }
{
    let [n3, n2, n1, n0] = numerator.to_be_bytes();
    let [d3, d2, d1, d0] = denominator.to_be_bytes();
    [n3, n2, n1, n0, d3, d2, d1, d0]
}

/// A text of ASCII characters in UTF-16.
fn utf16(alloc: Global, text: &[u8]) -> Result<Bytes, AllocError>
    ensures { IfOk result (λ bytes. bytes ≡ spec.utf16 text.now) }
{
    let mut bytes = Vec::new(alloc);
    for byte in text {
        bytes.extend_from_slice(&[0, *byte])?;
    }
    Ok(Bytes::from(bytes))
}

/// A batch of identifiers or labels.
fn batch(alloc: Global, items: &[[u8; 16]]) -> Result<Bytes, AllocError>
    requires { length items.now < 2 ^ 32 }
    ensures { IfOk result (λ bytes. bytes ≡ spec.batch 16 items.now) }
{
    let mut bytes = Vec::new(alloc);
    bytes.extend_from_slice(&(items.len() as u32).to_be_bytes())?;
    bytes.extend_from_slice(&16u32.to_be_bytes())?;
    for item in items {
        bytes.extend_from_slice(item)?;
    }
    Ok(Bytes::from(bytes))
}

/// The identifier of a package from a UUID.
fn package_id(alloc: Global, uuid: &[u8; 16]) -> Result<Bytes, AllocError>
    ensures { IfOk result (λ bytes. bytes ≡ spec.package_id uuid.now) }
{
    let mut bytes = Vec::with_capacity(alloc, 32)?;
    bytes.extend_from_slice(&key_of(UMID))?;
    bytes.extend_from_slice(uuid)?;
    Ok(Bytes::from(bytes))
}
