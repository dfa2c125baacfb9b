//! Lines of a unit file.
ghost use Rattle.std.specs.Prelude.{◌≡◌};
ghost use Rattle.unit_text.specs.Lines.{is_blank, is_comment, IsSplitAtBackslash, without_line_feed};

/// Whether a byte is a space or a tab.
fn is_blank(byte: u8) -> bool
    ensures { result ≡ is_blank byte }
{
    byte == b' ' || byte == b'\t'
}

/// A line without the line feed that ends it.
pub fn without_line_feed(line: &[u8]) -> &[u8]
    ensures { result.now ≡ without_line_feed line.now }
{
    match line {
        [front @ .., b'\n'] => front,
        _ => line,
    }
}

/// Whether a line is passed over.
pub fn is_comment(line: &[u8]) -> bool
    ensures { result ≡ is_comment line.now }
{
    for byte in line {
        if !is_blank(*byte) {
            return *byte == b'#' || *byte == b';';
        }
    }
    false
}

/// What stands before the backslash of a line that goes on, if it does.
pub fn before_backslash(line: &str) -> Option<&str>
    ensures { IsSplitAtBackslash line.now result }
{
    line.strip_suffix('\\')
}
