ghost use Rattle.std.specs.Prelude.{◌≡◌, ◌<◌, ◌≤◌, ◌+◌, ◌^◌, [], ◌∷◌, length, map, IfOk};
ghost use Rattle.codec_terms.specs.MainReading.{number_at, planes_of, fields_end};
ghost use Rattle.code_markers.specs.Fields.{rule_of, sizes};

use byteorder::{BigEndian, ByteOrder};
use codec_terms::MarkerRefusal;

/// What a field of a segment may hold. A kind that names an integer type is of that type's size.
#[derive(Clone, Copy, Debug)]
pub(crate) enum Field {
    U8(u8),
    U16(u16),
    U32(u32),
    /// From the first number to the second.
    U16Within(u16, u16),
    /// From the first number to the second.
    U32Within(u32, u32),
    AnyU32,
    /// The byte Sqcd: at least one guard bit in its upper three bits, and the style 2 below.
    GuardBits,
    /// Two bytes SPqcd beside that many guard bits: of at most 31 bit-planes.
    Step(u8),
}

/// The number of bit-planes of a sub-band by its entry SPqcd (equation E-2).
pub(crate) fn planes_of(guard_bits: u8, entry: u32) -> u32
    ensures { result ≡ planes_of guard_bits entry }
{
    (u32::from(guard_bits) + (entry >> 11)).saturating_sub(1)
}

/// The number in so many bytes at a place, the highest first.
pub(crate) fn number_at(bytes: &[u8], at: usize, size: usize) -> u32
    requires low { 1 ≤ size }
    requires high { size ≤ 4 }
    requires room { at + size ≤ length bytes.now }
    ensures is { result ≡ number_at bytes.now at size }
    ensures fits { result < 256 ^ size }
{
    BigEndian::read_uint(&bytes[at..], size) as u32
}

impl Field {
    /// Its number of bytes.
    fn size(self) -> usize
        ensures size { result ≡ (rule_of self).size }
        ensures low { 1 ≤ result }
        ensures high { result ≤ 4 }
    {
        match self {
            Field::U8(_) | Field::GuardBits => 1,
            Field::U16(_) | Field::U16Within(_, _) | Field::Step(_) => 2,
            Field::U32(_) | Field::U32Within(_, _) | Field::AnyU32 => 4,
        }
    }

    fn accepts(self, number: u32) -> bool
        ensures { result ≡ (rule_of self).accepts number }
    {
        match self {
            Field::U8(n) => number == u32::from(n),
            Field::U16(n) => number == u32::from(n),
            Field::U32(n) => number == n,
            Field::U16Within(low, high) => u32::from(low) <= number && number <= u32::from(high),
            Field::U32Within(low, high) => low <= number && number <= high,
            Field::AnyU32 => true,
            Field::GuardBits => number % 32 == 2 && 1 <= number / 32,
            Field::Step(guard_bits) => planes_of(guard_bits, number) <= 31,
        }
    }
}

/// The place behind a field, or why it is refused.
pub(crate) fn field_end(bytes: &[u8], field: Field, at: usize) -> Result<usize, MarkerRefusal>
    requires { at ≤ length bytes.now }
    ensures { result ≡ fields_end bytes.now (rule_of field ∷ []) at }
{
    let size = field.size();
    if bytes.len() < at + size {
        return Err(MarkerRefusal::Truncated { at: bytes.len() });
    }
    let got = number_at(bytes, at, size);
    if !field.accepts(got) {
        return Err(MarkerRefusal::Field { at, got });
    }
    Ok(at + size)
}

/// The place behind fields one behind another, or the first refusal.
pub(crate) fn fields_end(
    bytes: &[u8],
    fields: &[Field],
    start: usize,
) -> Result<usize, MarkerRefusal>
    requires { start ≤ length bytes.now }
    ensures is { result ≡ fields_end bytes.now (map rule_of fields.now) start }
    ensures place { IfOk result (λ next. next ≡ start + sizes (map rule_of fields.now)) }
    ensures within { IfOk result (λ next. next ≤ length bytes.now) }
{
    let mut at = start;
    for field in fields {
        at = field_end(bytes, *field, at)?;
    }
    Ok(at)
}
