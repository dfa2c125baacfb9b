//! Numbers and names of units, as cases have them.
use std::alloc::{AllocError, Global};
use std::test::Fail;
use switch_names::{Bytes, Listed, UnitName};
use world_text::{misread, text_of};

/// The answer where memory is wanting.
pub fn no_memory<T>() -> Result<T, Fail> {
    Err(Fail::from(AllocError))
}

/// A field as a number in digits.
pub fn number_of(field: &Bytes) -> Result<u64, Fail> {
    match field.as_slice() {
        [b'0'..=b'9', ..] => Ok(text_of(field)?.parse::<u64>()?),
        _ => misread(),
    }
}

/// The names of units between the blanks of a field: `-` has none.
pub fn names_of(alloc: Global, field: &Bytes) -> Result<Listed<UnitName>, Fail> {
    let mut names = Listed::new(alloc);
    if let [b'-'] = field.as_slice() {
        return Ok(names);
    }
    for name in text_of(field)?.split(' ') {
        names.push(UnitName::parse(alloc, name)?)?;
    }
    Ok(names)
}
