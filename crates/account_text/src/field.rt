//! Fields of a line.
ghost use Rattle.std.specs.Prelude.{◌≡◌, ◌<◌, ◌≤◌, ◌∷◌, [], length, MatchOption, IfOk, OnOk, ◌++◌, string_bytes, filter, not};
ghost use Rattle.std.specs.List.{flat_map, join_with_byte};
ghost use Rattle.std.specs.Str.{all_ascii_digits};
ghost use Rattle.switch_names.specs.Texts.{is_empty};
ghost use Rattle.account_text.specs.Field.{fields, id_of, members_of};

use std::alloc::{AllocError, Global};
use switch_names::{Listed, Text};

/// The greatest id.
const MAX_ID: u32 = 4_294_967_294;

/// The first field of a text that has more, and the text of the others.
pub fn cut_field(text: &str) -> Option<(&str, &str)>
    ensures { MatchOption result (fields text.now ≡ text.now ∷ []) (λ cut. fields text.now ≡ cut.0.now ∷ fields cut.1.now) }
{
    text.split_once(':')
}

/// The only field of a text, if it has no more.
pub fn last_field(text: &str) -> Option<&str>
    ensures { MatchOption result (1 < length (fields text.now)) (λ last. fields text.now ≡ last.now ∷ []) }
{
    match cut_field(text) {
        Some(_) => None,
        None => Some(text),
    }
}

/// The first two fields of a text that has more, and the text of the others.
pub fn cut_two(text: &str) -> Option<(&str, &str, &str)>
    ensures { MatchOption result (length (fields text.now) ≤ 2) (λ cut. fields text.now ≡ cut.0.now ∷ cut.1.now ∷ fields cut.2.now) }
{
    let Some((first, rest)) = cut_field(text) else {
        return None;
    };
    let Some((second, rest)) = cut_field(rest) else {
        return None;
    };
    Some((first, second, rest))
}

/// Whether a field has nothing but digits.
fn is_digits(field: &str) -> bool
    ensures { result ≡ all_ascii_digits field.now }
{
    field.as_bytes().iter().all(|byte| byte.is_ascii_digit())
}

/// The id that a field says.
pub fn read_id(field: &str) -> Option<u32>
    ensures { result ≡ id_of field.now }
{
    if field.len() > 10 || !is_digits(field) {
        return None;
    }
    match field.parse::<u32>() {
        Ok(id) => (id <= MAX_ID).then_some(id),
        Err(_) => None,
    }
}

/// Adds a member, unless it is empty.
fn add_member(alloc: Global, members: &mut Vec<Text>, member: &str) -> Result<(), AllocError>
    ensures { OnOk result (members.new.items ≡ members.old.items ++ filter (λ name. not (is_empty name)) (member.now ∷ [])) }
{
    if !member.is_empty() {
        members.push(Text::from_str(alloc, member)?)?;
    }
    Ok(())
}

/// The members that a field says.
pub fn read_members(alloc: Global, field: &str) -> Result<Listed<Text>, AllocError>
    ensures { IfOk result (λ members. members ≡ members_of field.now) }
{
    let mut members = Vec::new(alloc);
    for member in field.split(',') {
        add_member(alloc, &mut members, member)?;
    }
    members.shrink_to_fit();
    Ok(Listed::from_vec(members))
}

/// Adds members to a field that has one.
fn push_members(field: &mut String, members: &[Text]) -> Result<(), AllocError>
    ensures { OnOk result (string_bytes field.new ≡ string_bytes field.old ++ flat_map (λ member. 44 ∷ member) members.now) }
{
    for member in members {
        field.push(',')?;
        field.push_str(member.as_str())?;
    }
    Ok(())
}

/// Members as a field.
pub fn join_members(alloc: Global, members: &[Text]) -> Result<String, AllocError>
    ensures { IfOk result (λ field. string_bytes field ≡ join_with_byte 44 members.now) }
{
    let mut field = String::new(alloc);
    let [first, rest @ ..] = members else {
        return Ok(field);
    };
    field.push_str(first.as_str())?;
    push_members(&mut field, rest)?;
    Ok(field)
}
