ghost use Rattle.std.specs.Prelude.{◌≡◌, ◌<◌, ◌+◌, length, slice_index};
ghost use Rattle.std.specs.List.{list_any};
ghost use Rattle.std.specs.Str.{bytes_eq};
ghost use Rattle.film_project.specs.Texts as spec;

use film_project::TextRule;
use jiff::civil::DateTime;

/// Where the text first breaks its rule.
pub fn text_place(rule: TextRule, text: &str) -> Option<usize>
    ensures { result ≡ spec.text_place rule text.now }
{
    let bytes = text.as_bytes();
    if let Some(at) = first_offending(rule, bytes) {
        return Some(at);
    }
    if bytes.len() < least_length(rule) {
        return Some(bytes.len());
    }
    meaning_place(rule, text)
}

fn first_offending(rule: TextRule, text: &[u8]) -> Option<usize>
    ensures { result ≡ spec.first_place (spec.offends rule text.now) 0 (length text.now) }
{
    for index in 0..text.len() {
        if offends(rule, text, index) {
            return Some(index);
        }
    }
    None
}

fn least_length(rule: TextRule) -> usize
    ensures { result ≡ spec.least_length rule }
{
    match rule {
        TextRule::Issued => 19,
        TextRule::Namespace => 36,
        TextRule::Title | TextRule::Id | TextRule::File => 1,
        TextRule::ContentKind | TextRule::AssetKind | TextRule::AnyText => 0,
    }
}

fn offends(rule: TextRule, text: &[u8], index: usize) -> bool
    requires { index < length text.now }
    ensures { result ≡ spec.offends rule text.now index }
{
    let byte = text[index];
    match rule {
        TextRule::Title => index >= 100 || !is_printable(byte),
        TextRule::Issued => index >= 19 || !fits_date(index, byte),
        TextRule::Namespace => index >= 36 || !fits_uuid(index, byte),
        TextRule::Id => index >= 40 || !is_name_byte(byte),
        TextRule::File => offends_file(text, index),
        TextRule::ContentKind | TextRule::AssetKind | TextRule::AnyText => false,
    }
}

fn is_printable(byte: u8) -> bool
    ensures { result ≡ spec.is_printable byte }
{
    0x20 <= byte && byte <= 0x7E
}

fn is_digit(byte: u8) -> bool
    ensures { result ≡ spec.is_digit byte }
{
    b'0' <= byte && byte <= b'9'
}

fn is_name_byte(byte: u8) -> bool
    ensures { result ≡ spec.is_name_byte byte }
{
    is_letter(byte) || is_digit(byte) || byte == b'.' || byte == b'_' || byte == b'-'
}

fn is_letter(byte: u8) -> bool
    ensures { result ≡ spec.is_letter byte }
{
    (b'A' <= byte && byte <= b'Z') || (b'a' <= byte && byte <= b'z')
}

fn fits_date(index: usize, byte: u8) -> bool
    ensures { result ≡ spec.fits_date index byte }
{
    if index == 4 || index == 7 {
        byte == b'-'
    } else if index == 10 {
        byte == b'T'
    } else if index == 13 || index == 16 {
        byte == b':'
    } else {
        is_digit(byte)
    }
}

fn fits_uuid(index: usize, byte: u8) -> bool
    ensures { result ≡ spec.fits_uuid index byte }
{
    if index == 8 || index == 13 || index == 18 || index == 23 {
        byte == b'-'
    } else {
        is_digit(byte) || (b'a' <= byte && byte <= b'f')
    }
}

fn offends_file(text: &[u8], index: usize) -> bool
    requires { index < length text.now }
    ensures { result ≡ spec.offends_file text.now index }
{
    let byte = text[index];
    index >= 200
        || !(is_name_byte(byte) || byte == b'/')
        || (index == 0 && byte == b'/')
        || begins_dots(text, index)
}

fn begins_dots(text: &[u8], index: usize) -> bool
    requires { index < length text.now }
    ensures { result ≡ spec.begins_dots text.now index }
{
    begins_part(text, index)
        && text[index] == b'.'
        && byte_at(text, index + 1) == b'.'
        && ends_part(text, index + 2)
}

fn begins_part(text: &[u8], index: usize) -> bool
    requires { index < length text.now }
    ensures { result ≡ spec.begins_part text.now index }
{
    index == 0 || text[index - 1] == b'/'
}

fn ends_part(text: &[u8], index: usize) -> bool
    ensures { result ≡ spec.ends_part text.now index }
{
    index == text.len() || byte_at(text, index) == b'/'
}

/// 0 where the text ends before.
fn byte_at(text: &[u8], index: usize) -> u8
    ensures { result ≡ slice_index text.now index }
{
    if index < text.len() { text[index] } else { 0 }
}

/// What is asked of a text whose bytes and length are right.
fn meaning_place(rule: TextRule, text: &str) -> Option<usize>
    ensures { result ≡ spec.meaning_place rule text.now }
{
    match rule {
        TextRule::ContentKind => word_place(is_content_kind(text)),
        TextRule::AssetKind => word_place(is_asset_kind(text)),
        TextRule::Issued => date_place(text),
        TextRule::Title | TextRule::Namespace | TextRule::Id | TextRule::File | TextRule::AnyText =>
            None,
    }
}

fn word_place(known: bool) -> Option<usize>
    ensures { result ≡ spec.word_place known }
{
    if known { None } else { Some(0) }
}

fn is_content_kind(text: &str) -> bool
    ensures { result ≡ spec.is_one_of spec.content_kinds text.now }
{
    is_one_of(
        &[
            "feature",
            "trailer",
            "test",
            "teaser",
            "rating",
            "advertisement",
            "short",
            "transitional",
            "psa",
            "policy",
        ],
        text,
    )
}

fn is_asset_kind(text: &str) -> bool
    ensures { result ≡ spec.is_one_of spec.asset_kinds text.now }
{
    is_one_of(&["rgb48", "ppm", "j2c", "pcm24"], text)
}

/// The text is one of the words.
pub fn is_one_of(words: &[&str], text: &str) -> bool
    ensures { result ≡ list_any (λ word. bytes_eq word.now text.now) words.now }
{
    words.iter().any(|word| *word == text)
}

fn date_place(text: &str) -> Option<usize>
    ensures { result ≡ spec.date_place text.now }
{
    let bytes = text.as_bytes();
    if two_digits(bytes, 0) < 19 {
        return Some(0);
    }
    if two_digits(bytes, 17) > 59 {
        return Some(17);
    }
    match text.parse::<DateTime>() {
        Ok(_) => None,
        Err(_) => Some(0),
    }
}

fn two_digits(text: &[u8], index: usize) -> u32
    requires { index < 100 }
    ensures { result ≡ spec.two_digits text.now index }
{
    let tens = byte_at(text, index).saturating_sub(b'0');
    let ones = byte_at(text, index + 1).saturating_sub(b'0');
    tens as u32 * 10 + ones as u32
}
