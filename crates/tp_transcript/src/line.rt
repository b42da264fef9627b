//! The lines of a transcript.

/// A line of a transcript.
#[derive(Clone, Copy)]
pub(crate) enum Line<'a> {
    /// An empty line or a comment.
    Nothing,
    Case,
    Command(&'a [u8]),
    /// A line of standard input.
    Input(&'a [u8]),
    /// Bytes of standard input, spelled.
    InputBytes(&'a [u8]),
    /// A line of standard output.
    Output(&'a [u8]),
    /// Bytes of standard output, spelled.
    OutputBytes(&'a [u8]),
    /// A line of standard error.
    Errors(&'a [u8]),
    Exit(&'a [u8]),
}

/// Returns the text after a mark and a space, if the line begins with them or is the mark.
fn after<'a>(line: &'a [u8], mark: &[u8]) -> Option<&'a [u8]> {
    let rest = line.strip_prefix(mark)?;
    if rest.is_empty() {
        return Some(rest);
    }
    rest.strip_prefix(b" ".as_slice())
}

/// Reads a line of input, or of output with a mark.
fn stream_line(line: &[u8]) -> Option<Line<'_>> {
    if let Some(text) = after(line, b"<") {
        return Some(Line::Input(text));
    }
    if let Some(words) = line.strip_prefix(b"<".as_slice()) {
        return Some(Line::InputBytes(words));
    }
    if let Some(text) = after(line, b"1>") {
        return Some(Line::Output(text));
    }
    if let Some(words) = line.strip_prefix(b">".as_slice()) {
        return Some(Line::OutputBytes(words));
    }
    Some(Line::Errors(after(line, b"2>")?))
}

/// Reads a line of a transcript.
pub(crate) fn line_of(line: &[u8]) -> Line<'_> {
    if line.is_empty() || line.starts_with(b"#".as_slice()) {
        return Line::Nothing;
    }
    if let Some(command) = after(line, b"$") {
        return Line::Command(command);
    }
    if after(line, b"case").is_some() {
        return Line::Case;
    }
    if let Some(status) = after(line, b"exit") {
        return Line::Exit(status);
    }
    stream_line(line).unwrap_or(Line::Output(line))
}
