//! Lines and their parts before anything is read of them: indent, blank lines, comments, markers.
ghost use Rattle.std.specs.Prelude.{◌≡◌, ◌<◌, ◌≤◌, IfSome, drop, length, take};
ghost use Rattle.yaml_subset.specs.Signs.{colon_at, ended, has_tab, indent, is_apart, is_blank, is_flow_sign, is_indicator, is_marker, is_opening, is_passed, is_quote, is_tail, trimmed};

/// The number of leading spaces.
pub(crate) fn indent(line: &[u8]) -> usize
    ensures { result ≡ indent line.now }
{
    let mut rest = line;
    let mut count = 0;
    while let [b' ', after @ ..] = rest {
        rest = after;
        count += 1;
    }
    count
}

/// Whether a line is blank, or a comment after spaces.
pub(crate) fn is_passed(line: &[u8]) -> bool
    ensures { result ≡ is_passed line.now }
{
    let mut rest = line;
    while let [byte, after @ ..] = rest {
        if *byte != b' ' {
            return *byte == b'#';
        }
        rest = after;
    }
    true
}

/// Whether there is nothing but spaces.
pub(crate) fn is_blank(line: &[u8]) -> bool
    ensures { result ≡ is_blank line.now }
{
    let mut rest = line;
    while let Some((byte, after)) = rest.split_first() {
        if *byte != b' ' {
            return false;
        }
        rest = after;
    }
    true
}

/// Whether a tab stands in the leading white space.
pub(crate) fn has_tab(line: &[u8]) -> bool
    ensures { result ≡ has_tab line.now }
{
    for byte in line {
        if *byte != b' ' {
            return *byte == b'\t';
        }
    }
    false
}

/// Whether only blanks or a comment stand behind a value.
pub(crate) fn is_tail(text: &[u8]) -> bool
    ensures { result ≡ is_tail text.now }
{
    match text {
        [] => true,
        [byte, after @ ..] => *byte == b' ' && is_passed(after),
    }
}

/// Whether there is nothing, or a space first.
pub(crate) fn is_apart(text: &[u8]) -> bool
    ensures { result ≡ is_apart text.now }
{
    match text {
        [] => true,
        [byte, ..] => *byte == b' ',
    }
}

/// Whether a line may open a text.
pub(crate) fn is_opening(line: &[u8]) -> bool
    ensures { result ≡ is_opening line.now }
{
    line == b"---".as_slice()
}

/// Whether a line is a marker of documents.
pub(crate) fn is_marker(line: &[u8]) -> bool
    ensures { result ≡ is_marker line.now }
{
    line == b"---".as_slice() || line == b"...".as_slice()
}

/// The text up to its blank end or its comment.
pub(crate) fn trimmed(text: &[u8]) -> &[u8]
    ensures { result.now ≡ trimmed text.now }
{
    &text[..trimmed_end(text)]
}

// Where a text ends before its blank end or its comment.
fn trimmed_end(text: &[u8]) -> usize
    ensures value { result ≡ ended 0 0 text.now }
    ensures within { result ≤ length text.now }
{
    let mut end = 0;
    for (index, byte) in text.iter().enumerate() {
        if *byte == b'#' && end < index {
            return end;
        }
        if *byte != b' ' {
            end = index + 1;
        }
    }
    end
}

/// The place of the first colon before a space or the end.
#[tactic(auto, using(crate::proofs::SignsLemmas::later_more))]
pub(crate) fn colon_at(text: &[u8]) -> Option<usize>
    ensures value { result ≡ colon_at text.now }
    ensures within { IfSome result (λ i. i < length text.now) }
{
    let mut rest = text;
    let mut place = 0;
    while let [byte, after @ ..] = rest {
        if *byte == b':' && is_apart(after) {
            return Some(place);
        }
        rest = after;
        place += 1;
    }
    None
}

/// Whether no plain scalar begins with a byte.
pub(crate) fn is_indicator(byte: u8) -> bool
    ensures { result ≡ is_indicator byte }
{
    matches!(
        byte,
        b',' | b'['
            | b']'
            | b'{'
            | b'}'
            | b'#'
            | b'&'
            | b'*'
            | b'!'
            | b'|'
            | b'>'
            | b'\''
            | b'"'
            | b'%'
            | b'@'
            | b'`'
    )
}

/// Whether a byte ends a plain scalar in a flow.
pub(crate) fn is_flow_sign(byte: u8) -> bool
    ensures { result ≡ is_flow_sign byte }
{
    matches!(byte, b',' | b'[' | b']' | b'{' | b'}')
}

/// Whether a byte is a quote.
pub(crate) fn is_quote(byte: u8) -> bool
    ensures { result ≡ is_quote byte }
{
    matches!(byte, b'"' | b'\'')
}

/// What stands behind so many bytes.
pub(crate) fn behind(text: &[u8], count: usize) -> &[u8]
    ensures { result.now ≡ drop count text.now }
{
    if count < text.len() {
        &text[count..]
    } else {
        &text[text.len()..]
    }
}

/// The first bytes, so many at most.
pub(crate) fn front(text: &[u8], count: usize) -> &[u8]
    ensures { result.now ≡ take count text.now }
{
    if count < text.len() {
        &text[..count]
    } else {
        text
    }
}
