ghost use Rattle.std.specs.Prelude.{◌≡◌, ◌≢◌, ◌++◌, Ok, codes, string_bytes, IfOk};
ghost use Rattle.std.specs.Fmt.{decimal};
ghost use Rattle.mast_world.specs.Count.{HasRisen};
ghost use Rattle.dcp_commands.specs.Line.{done_text, number_pair, why_text, status_text, line_of, IsPrinted};
ghost use Rattle.dcp_commands.specs.Status.{Answers, status_of};

use crate::status::Status;
use crate::stopped::Stopped;
use film_printer::refusal_text;
use frame_values::BadWhy;
use make_engine::Report;
use mast_base::{Bytes, NoMemory};
use mast_world::Sink;
use std::alloc::{AllocError, Global};

/// What `make` prints of a package.
pub(crate) fn done_text(alloc: Global, report: Report) -> Result<Bytes, NoMemory>
    ensures { IfOk result (λ text. text ≡ done_text report.frames report.kept) }
{
    let (frames, kept) = (report.frames, report.kept);
    let text = format!(in alloc; "done: {frames} frames, {kept} kept\n")?;
    Ok(Bytes::from(text.into_bytes()))
}

/// Two numbers behind a word.
fn pair_text(alloc: Global, front: &str, first: u64, second: u64) -> Result<Vec<u8>, NoMemory>
    ensures { IfOk result (λ text. text.items ≡ front.now ++ number_pair first second) }
{
    Ok(format!(in alloc; "{front}{first} {second}")?.into_bytes())
}

fn header_text(alloc: Global, at: u64) -> Result<Vec<u8>, NoMemory>
    ensures { IfOk result (λ text. text.items ≡ codes "header " ++ decimal at) }
{
    Ok(format!(in alloc; "header {at}")?.into_bytes())
}

fn why_text(alloc: Global, why: BadWhy) -> Result<Vec<u8>, NoMemory>
    ensures { IfOk result (λ text. text.items ≡ why_text why) }
{
    match why {
        BadWhy::Header { at } => header_text(alloc, at),
        BadWhy::Short { size, need } => pair_text(alloc, "short ", size, need),
        BadWhy::Stream { refusal } => {
            let text = stream_inspect::refusal_text(alloc, refusal)?;
            prefixed(alloc, b"stream ", text.as_slice())
        }
        BadWhy::Size { width, height } => {
            pair_text(alloc, "size ", u64::from(width), u64::from(height))
        }
        BadWhy::Limit { part, got } => pair_text(alloc, "limit ", u64::from(part), got),
    }
}

fn bad_frame_text(alloc: Global, frame: u32, why: BadWhy) -> Result<Vec<u8>, NoMemory>
    ensures { IfOk result (λ text. text.items ≡ codes "bad frame: " ++ (decimal frame ++ (codes " " ++ why_text why))) }
{
    let mut text = format!(in alloc; "bad frame: {frame} ")?.into_bytes();
    text.extend_from_slice(why_text(alloc, why)?.as_slice())?;
    Ok(text)
}

fn no_frame_text(alloc: Global, frame: u32, frames: u32) -> Result<Vec<u8>, NoMemory>
    ensures { IfOk result (λ text. text.items ≡ codes "no such frame: " ++ (decimal frame ++ (codes " of " ++ decimal frames))) }
{
    Ok(format!(in alloc; "no such frame: {frame} of {frames}")?.into_bytes())
}

fn short_text(alloc: Global, asset: &[u8], size: u64, need: u64) -> Result<Vec<u8>, NoMemory>
    ensures { IfOk result (λ text. text.items ≡ codes "input short: " ++ (asset.now ++ (codes " has " ++ (decimal size ++ (codes " needs " ++ decimal need))))) }
{
    let mut text = prefixed(alloc, b"input short: ", asset)?;
    text.extend_from_slice(format!(in alloc; " has {size} needs {need}")?.as_bytes())?;
    Ok(text)
}

fn too_long_text(alloc: Global, size: u64) -> Result<Vec<u8>, NoMemory>
    ensures { IfOk result (λ text. text.items ≡ codes "input too long: " ++ decimal size) }
{
    Ok(format!(in alloc; "input too long: {size}")?.into_bytes())
}

fn prefixed(alloc: Global, front: &[u8], rest: &[u8]) -> Result<Vec<u8>, NoMemory>
    ensures { IfOk result (λ text. text.items ≡ front.now ++ rest.now) }
{
    let mut text = front.to_vec(alloc)?;
    text.extend_from_slice(rest)?;
    Ok(text)
}

/// The text of a status; `done` is that of `Done`.
fn status_text(alloc: Global, status: &Status, done: &[u8]) -> Result<Vec<u8>, NoMemory>
    ensures { IfOk result (λ text. text.items ≡ status_text done.now status.now) }
{
    match status {
        Status::Done => Ok(done.to_vec(alloc)?),
        Status::Usage => Ok(b"usage: dcp make|plan|frame|read|trial".to_vec(alloc)?),
        Status::ProjectRefused { refusal } => {
            let text = refusal_text(alloc, refusal)?;
            prefixed(alloc, b"project refused: ", text.as_slice())
        }
        Status::InputMissing { name } => prefixed(alloc, b"input missing: ", name.as_slice()),
        Status::InputShort { asset, size, need } => {
            short_text(alloc, asset.as_slice(), *size, *need)
        }
        Status::SourceFault => Ok(b"source fault".to_vec(alloc)?),
        Status::StoreFault => Ok(b"store fault".to_vec(alloc)?),
        Status::SinkFault => Ok(Vec::new(alloc)),
        Status::NoMemory => Ok(b"no memory".to_vec(alloc)?),
        Status::BadFrame { frame, why } => bad_frame_text(alloc, *frame, *why),
        Status::NoSuchFrame { frame, frames } => no_frame_text(alloc, *frame, *frames),
        Status::BadStream { refusal } => {
            let text = stream_inspect::refusal_text(alloc, *refusal)?;
            prefixed(alloc, b"bad stream: ", text.as_slice())
        }
        Status::InputTooLong { size } => too_long_text(alloc, *size),
    }
}

/// What is printed under a status: `done` as it is, or a line.
fn line_of(alloc: Global, status: &Status, done: &[u8]) -> Result<Vec<u8>, NoMemory>
    ensures { IfOk result (λ line. line.items ≡ line_of done.now status.now) }
{
    let mut line = status_text(alloc, status, done)?;
    if !matches!(status, Status::Done) {
        line.push(b'\n')?;
    }
    Ok(line)
}

/// Prints how a command ended: the bytes that were made, or the line of the status that kept them
/// from being made. It answers that status, or why it couldn't be printed.
pub(crate) fn print<O: Sink>(alloc: Global, outcome: Result<Bytes, Stopped>, out: &mut O) -> Status
    ensures answer { Answers result (status_of outcome) }
    ensures printed { O.tells → IsPrinted (λ text. outcome ≡ Ok text) result (O.written out.old) (O.written out.new) }
    ensures sink_fault { result ≡ Status.SinkFault → HasRisen (O.faults out.old) (O.faults out.new) }
    ensures untroubled { result ≢ Status.SinkFault → O.faults out.new ≡ O.faults out.old }
{
    let (status, done) = match outcome {
        Ok(done) => (Status::Done, done),
        Err(stopped) => (Status::from(stopped), Bytes::new(alloc)),
    };
    print_line(alloc, status, done.as_slice(), out)
}

/// Prints the line of a status, and answers the status, or why it couldn't be printed. `done` is the
/// text of `Done`.
fn print_line<O: Sink>(alloc: Global, status: Status, done: &[u8], out: &mut O) -> Status
    requires { status ≢ Status.SinkFault }
    ensures answer { Answers result status }
    ensures printed { O.tells
        → IsPrinted (λ text. (status ≡ Status.Done) × (text ≡ done.now)) result (O.written out.old) (O.written out.new) }
    ensures sink_fault { result ≡ Status.SinkFault → HasRisen (O.faults out.old) (O.faults out.new) }
    ensures untroubled { result ≢ Status.SinkFault → O.faults out.new ≡ O.faults out.old }
{
    let Ok(line) = line_of(alloc, &status, done) else {
        return Status::NoMemory;
    };
    match out.put(&line) {
        Ok(()) => status,
        Err(_) => Status::SinkFault,
    }
}
