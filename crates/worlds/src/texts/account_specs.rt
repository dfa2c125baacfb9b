//! What specifications declare of accounts, by the options `users.users` and `users.groups` of the NixOS
//! manual.
use crate::writing::{show_value, show_words};
use std::alloc::Global;
use std::test::Fail;
use switch_names::Bytes;
use users_spec::{GroupSpec, Spec, UserSpec, is_account_name};
use world_text::{Lines, text_of};

/// Shows a group: its name, its id and its members.
fn show_group(lines: &mut Lines, group: &GroupSpec) {
    lines.add_word("group");
    lines.add_word(group.name.as_str());
    lines.add_value(&group.gid);
    show_words(lines, group.members.as_slice());
}

/// Shows a user: its name, its id and its group, of which kind it is, its texts and its hashes.
fn show_user(lines: &mut Lines, user: &UserSpec) {
    lines.add_word("user");
    lines.add_word(user.name.as_str());
    lines.add_value(&user.uid);
    lines.add_word(user.group.as_str());
    lines.add_word(if user.system { "system" } else { "normal" });
    lines.add_value(&user.description.as_str());
    lines.add_value(&user.home.as_str());
    lines.add_value(&user.shell.as_str());
    lines.add_value(&user.hashed);
    show_value(lines, &user.initial);
}

/// Shows whether other accounts stay, and the accounts in the order of declaration.
fn show_accounts(lines: &mut Lines, spec: &Spec) {
    lines.add_word(if spec.mutable() { "mutable" } else { "fixed" });
    lines.end_line();
    for group in spec.groups().as_slice() {
        show_group(lines, group);
    }
    for user in spec.users().as_slice() {
        show_user(lines, user);
    }
}

/// Shows what a specification declares, or its fault.
pub fn show_spec(alloc: Global, lines: &mut Lines, text: &[u8]) -> Result<(), Fail> {
    match Spec::read(alloc, text) {
        Ok(spec) => show_accounts(lines, &spec),
        Err(fault) => show_value(lines, &fault),
    }
    Ok(())
}

/// Shows whether a text is the name of an account.
pub fn show_account_name(lines: &mut Lines, text: &Bytes) -> Result<(), Fail> {
    show_value(lines, &is_account_name(text_of(text)?));
    Ok(())
}
