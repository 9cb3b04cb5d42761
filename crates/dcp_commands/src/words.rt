ghost use Rattle.std.specs.Prelude.{◌≡◌, map, option_map, string_bytes, IfOk};
ghost use Rattle.std.specs.List.{list_all};
ghost use Rattle.film_project.specs.Texts.{is_digit};
ghost use Rattle.dcp_commands.specs.Words.{FrameWords, MakeWords, frame_words, is_number, is_positional, make_words, number_in, plan_words, read_words};

use mast_base::{Bytes, NoMemory};
use std::alloc::Global;

/// What `make` is asked for.
#[derive(Clone, Copy, Debug)]
pub(crate) struct Asked<'a> {
    /// The name of the project file.
    pub(crate) project: &'a str,
    /// The output folder.
    pub(crate) out: &'a str,
}

/// What `frame` is asked for.
#[derive(Clone, Copy, Debug)]
pub(crate) struct AskedFrame<'a> {
    /// The name of the project file.
    pub(crate) project: &'a str,
    /// The number of the frame.
    pub(crate) number: u32,
}

fn is_positional(word: &str) -> bool
    ensures { result ≡ is_positional word.now }
{
    let bytes = word.as_bytes();
    !bytes.is_empty() && bytes[0] != b'-'
}

pub(crate) fn make_words(words: &[String]) -> Option<Asked<'_>>
    ensures { option_map (λ asked. record { project = asked.project.now; out = asked.out.now }) result ≡ make_words (map string_bytes words.now) }
{
    let [command, project, out] = words else {
        return None;
    };
    let (project, out) = (project.as_str(), out.as_str());
    if command.as_str() == "make" && is_positional(project) && is_positional(out) {
        Some(Asked { project, out })
    } else {
        None
    }
}

/// The name of the project file that is to be planned.
pub(crate) fn plan_words(words: &[String]) -> Option<&str>
    ensures { option_map (λ project. project.now) result ≡ plan_words (map string_bytes words.now) }
{
    let [command, project] = words else {
        return None;
    };
    if command.as_str() == "plan" && is_positional(project.as_str()) {
        Some(project.as_str())
    } else {
        None
    }
}

/// The name of the codestream's file that is to be read.
pub(crate) fn read_words(words: &[String]) -> Option<&str>
    ensures { option_map (λ file. file.now) result ≡ read_words (map string_bytes words.now) }
{
    let [command, file] = words else {
        return None;
    };
    if command.as_str() == "read" && is_positional(file.as_str()) {
        Some(file.as_str())
    } else {
        None
    }
}

fn is_digit(byte: u8) -> bool
    ensures { result ≡ is_digit byte }
{
    b'0' <= byte && byte <= b'9'
}

fn are_digits(bytes: &[u8]) -> bool
    ensures { result ≡ list_all is_digit bytes.now }
{
    bytes.iter().all(|byte| is_digit(*byte))
}

/// Whether the word is one to nine digits.
fn is_number(word: &str) -> bool
    ensures { result ≡ is_number word.now }
{
    let bytes = word.as_bytes();
    !bytes.is_empty() && bytes.len() <= 9 && are_digits(bytes)
}

/// The number that one to nine digits write.
fn number_in(word: &str) -> Option<u32>
    ensures { result ≡ number_in word.now }
{
    if is_number(word) {
        word.parse().ok()
    } else {
        None
    }
}

/// The project and the frame that is to be shown.
pub(crate) fn frame_words(words: &[String]) -> Option<AskedFrame<'_>>
    ensures { option_map (λ asked. record { project = asked.project.now; number = asked.number }) result ≡ frame_words (map string_bytes words.now) }
{
    let [command, project, number] = words else {
        return None;
    };
    let project = project.as_str();
    if command.as_str() != "frame" || !is_positional(project) {
        return None;
    }
    let number = number_in(number.as_str())?;
    Some(AskedFrame { project, number })
}

/// The output folder that the words name, or `None` where they are no accepted `make`.
pub fn out_name(alloc: Global, words: &[String]) -> Result<Option<Bytes>, NoMemory>
    ensures { IfOk result (λ name. name ≡ option_map (λ asked. asked.out) (make_words (map string_bytes words.now))) }
{
    match make_words(words) {
        Some(asked) => Ok(Some(Bytes::copy_of(alloc, asked.out.as_bytes())?)),
        None => Ok(None),
    }
}
