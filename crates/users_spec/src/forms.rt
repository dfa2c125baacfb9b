//! The forms of JSON values.
ghost use Rattle.std.specs.Prelude.{◌≡◌, map, option_map, option_and_then, IfOk};
ghost use Rattle.std.specs.List.{list_all};
ghost use Rattle.serde_json.specs.View.{view};
ghost use Rattle.serde_json.specs.Find.{as_str};
ghost use Rattle.users_spec.specs.AccountName.{is_account_name};
ghost use Rattle.users_spec.specs.Fields.{all_of, as_id, as_list, as_plain};

use crate::account_name::{is_account_name, is_plain};
use serde_json::Value;
use std::alloc::{AllocError, Global};
use switch_names::{Listed, Text};

/// The greatest id.
const ID_MAX: u64 = 4_294_967_294;

/// An id, which is a number in digits alone.
pub fn as_id(value: &Value) -> Option<u32>
    ensures { result ≡ as_id (view value.now) }
{
    let number = value.as_u64()?;
    if number <= ID_MAX {
        Some(number as u32)
    } else {
        None
    }
}

/// A text that can be a field of a line.
pub fn as_plain(value: &Value) -> Option<&str>
    ensures { option_map (λ text. text.now) result ≡ as_plain (view value.now) }
{
    let text = value.as_str()?;
    if is_plain(text) { Some(text) } else { None }
}

/// A list.
pub fn as_list(value: &Value) -> Option<&[Value]>
    ensures { option_map (λ list. map view list.now) result ≡ as_list (view value.now) }
{
    let list = value.as_array()?;
    Some(list.as_slice())
}

/// The texts that the values are, where they all are texts.
pub fn texts_of(alloc: Global, values: &[Value]) -> Result<Option<Listed<Text>>, AllocError>
    ensures { IfOk result (λ texts. texts ≡ all_of as_str (map view values.now)) }
{
    let mut texts = Listed::new(alloc);
    for value in values {
        let Some(text) = value.as_str() else {
            return Ok(None);
        };
        texts.push(Text::from_str(alloc, text)?)?;
    }
    Ok(Some(texts))
}

/// Whether all texts are names of accounts.
pub fn are_names(texts: &[Text]) -> bool
    ensures { result ≡ list_all is_account_name texts.now }
{
    texts.iter().all(|text| is_account_name(text.as_str()))
}
