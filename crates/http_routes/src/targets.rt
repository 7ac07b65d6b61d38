//! The path of a request target (RFC 9112, section 3.2.1), as decoded segments.
ghost use Rattle.http_routes.specs.Targets.{path_in, path_segments, segment_from, segment_in, segments_in, target_segments};
ghost use Rattle.std.specs.List.{slice_split};
ghost use Rattle.std.specs.Prelude.{◌≡◌, ◌==◌, IfOk};

use doc_tree::{NoMemory, Text, Texts};
use percent_encoding::percent_decode;
use std::alloc::Global;

/// The segments of a target's path: what stands before the first `?` is cut at each `/`, and each
/// piece is percent-decoded. `None` exactly where the path doesn't begin with `/`, or where a
/// segment is empty, or once decoded isn't UTF-8 or has a `/`.
pub fn segments_of(alloc: Global, target: &[u8]) -> Result<Option<Texts>, NoMemory>
    ensures { IfOk result (λ segments. segments ≡ target_segments target.now) }
{
    match path_of(target) {
        [b'/', pieces @ ..] => segments_in(alloc, pieces),
        _ => Ok(None),
    }
}

fn path_of(target: &[u8]) -> &[u8]
    ensures { result.now ≡ path_in target.now }
{
    match target.iter().position(|byte| *byte == b'?') {
        Some(end) => &target[..end],
        None => target,
    }
}

fn segments_in(alloc: Global, pieces: &[u8]) -> Result<Option<Texts>, NoMemory>
    ensures { IfOk result (λ segments. segments ≡ segments_in (slice_split (λ b. b == 47) pieces.now)) }
{
    let mut segments = Texts::new(alloc);
    for piece in pieces.split(|byte| *byte == b'/') {
        match segment_of(alloc, piece)? {
            Some(segment) => segments.push(segment)?,
            None => return Ok(None),
        }
    }
    Ok(Some(segments))
}

fn segment_of(alloc: Global, piece: &[u8]) -> Result<Option<Text>, NoMemory>
    ensures { IfOk result (λ segment. segment ≡ segment_in piece.now) }
{
    let mut decoded = Vec::new(alloc);
    percent_decode(piece).append_to(&mut decoded)?;
    Ok(segment_from(decoded))
}

fn segment_from(decoded: Vec<u8>) -> Option<Text>
    ensures { result ≡ segment_from decoded.items }
{
    let segment = Text::of(String::from_utf8(decoded).ok()?);
    let bytes = segment.as_bytes();
    if bytes.is_empty() || bytes.contains(&b'/') {
        None
    } else {
        Some(segment)
    }
}
