ghost use Rattle.std.specs.Prelude.{◌≡◌, ◌≤◌, length, false, IfOk};
ghost use Rattle.ppm_head.specs.Header.{comment_behind, gap_end, gap_len, header_end, is_token_byte, is_white, token_end, token_len, white_end};

use crate::header::BadHeader;

fn is_white(byte: u8) -> bool
    ensures { result ≡ is_white byte }
{
    matches!(byte, 9..=13 | 32)
}

fn is_token_byte(byte: u8) -> bool
    ensures { result ≡ is_token_byte byte }
{
    !(is_white(byte) || byte == b'#')
}

/// Whether a byte of a gap leaves a comment open, or `None` where it is no byte of the gap.
fn comment_behind(in_comment: bool, byte: u8) -> Option<bool>
    ensures { result ≡ comment_behind in_comment byte }
{
    if in_comment {
        Some(byte != b'\n')
    } else if byte == b'#' {
        Some(true)
    } else if is_white(byte) {
        Some(false)
    } else {
        None
    }
}

/// The length of the gap of white bytes and comments at the front.
fn gap_len(bytes: &[u8]) -> usize
    ensures len { result ≡ gap_len false bytes.now }
    ensures within { result ≤ length bytes.now }
{
    let mut in_comment = false;
    for at in 0..bytes.len() {
        let Some(inside) = comment_behind(in_comment, bytes[at]) else {
            return at;
        };
        in_comment = inside;
    }
    bytes.len()
}

/// The length of the token at the front.
fn token_len(bytes: &[u8]) -> usize
    ensures len { result ≡ token_len bytes.now }
    ensures within { result ≤ length bytes.now }
{
    for at in 0..bytes.len() {
        if !is_token_byte(bytes[at]) {
            return at;
        }
    }
    bytes.len()
}

/// The place behind the wanted token, which is to begin at `start`.
fn token_end(wanted: &[u8], bytes: &[u8], start: usize) -> Result<usize, BadHeader>
    requires { start ≤ length bytes.now }
    ensures end { result ≡ token_end wanted.now bytes.now start }
    ensures within { IfOk result (λ end. end ≤ length bytes.now) }
{
    let rest = &bytes[start..];
    let len = token_len(rest);
    let token = &rest[..len];
    if start + len == bytes.len() && wanted.starts_with(token) {
        return Err(BadHeader { at: bytes.len() });
    }
    if token == wanted {
        Ok(start + len)
    } else {
        Err(BadHeader { at: start })
    }
}

/// The place behind the wanted token, which is to stand behind a gap.
fn next_token_end(wanted: &[u8], bytes: &[u8], start: usize) -> Result<usize, BadHeader>
    requires { start ≤ length bytes.now }
    ensures end { result ≡ token_end wanted.now bytes.now (gap_end bytes.now start) }
    ensures within { IfOk result (λ end. end ≤ length bytes.now) }
{
    let gap = gap_len(&bytes[start..]);
    token_end(wanted, bytes, start + gap)
}

/// The place behind one white byte, which is to be at `start`.
fn white_end(bytes: &[u8], start: usize) -> Result<usize, BadHeader>
    requires { start ≤ length bytes.now }
    ensures end { result ≡ white_end bytes.now start }
    ensures within { IfOk result (λ end. end ≤ length bytes.now) }
{
    if start == bytes.len() {
        Err(BadHeader { at: bytes.len() })
    } else if is_white(bytes[start]) {
        Ok(start + 1)
    } else {
        Err(BadHeader { at: start })
    }
}

/// The place behind the header of a picture whose width and height have these digits, or where the header is
/// first wrong.
pub fn header_end(width: &[u8], height: &[u8], bytes: &[u8]) -> Result<usize, BadHeader>
    ensures end { result ≡ header_end width.now height.now bytes.now }
    ensures within { IfOk result (λ end. end ≤ length bytes.now) }
{
    let magic = token_end(b"P6", bytes, 0)?;
    let columns = next_token_end(width, bytes, magic)?;
    let rows = next_token_end(height, bytes, columns)?;
    let depth = next_token_end(b"65535", bytes, rows)?;
    white_end(bytes, depth)
}
