//! Fields of cases.
use bstr::ByteVec;
use std::alloc::Global;
use std::test::Fail;
use switch_names::Bytes;

/// The answer where a case can't be read.
pub fn misread<T>() -> Result<T, Fail> {
    Err(Fail::new("a case can't be read"))
}

/// The bytes of a field: none for `\e`, and else those of its text, in which `\n` and the like are bytes.
///
/// Fails where the text is empty.
pub fn field_of(alloc: Global, text: &str) -> Result<Bytes, Fail> {
    match text {
        "" => Err(Fail::new("a field is empty")),
        "\\e" => Ok(Bytes::from_vec(Vec::new(alloc))),
        _ => Ok(Bytes::from_vec(Vec::<u8>::unescape_bytes(alloc, text)?)),
    }
}

/// The text of a field.
///
/// Fails where its bytes are no text.
pub fn text_of(field: &Bytes) -> Result<&str, Fail> {
    Ok(std::str::from_utf8(field.as_slice())?)
}
