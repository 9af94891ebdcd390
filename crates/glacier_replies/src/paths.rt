// The paths that replies name.
ghost use Rattle.std.specs.Prelude.{◌≡◌, IfOk};
ghost use Rattle.glacier_replies.specs.Paths.{location as path_of_vault, item_location as path_of_item};

use glacier_base::{Account, Id, Memory, Text, VaultName};
use std::alloc::Global;

/// The path of a vault.
pub(crate) fn location(alloc: Global, account: &Account, name: &VaultName) -> Result<Text, Memory>
    ensures { IfOk result (λ text. text ≡ path_of_vault account.now name.now) }
{
    let mut text = Text::of(alloc, b"/")?;
    text.extend_from_slice(account.bytes())?;
    text.extend_from_slice(b"/vaults/")?;
    text.extend_from_slice(name.bytes())?;
    Ok(text)
}

/// The path of an item in a vault, behind this word.
pub(crate) fn item_location(
    alloc: Global,
    account: &Account,
    name: &VaultName,
    word: &[u8],
    id: Id,
) -> Result<Text, Memory>
    ensures { IfOk result (λ text. text ≡ path_of_item account.now name.now word.now id) }
{
    let mut text = location(alloc, account, name)?;
    text.extend_from_slice(word)?;
    text.extend_from_slice(&id.text())?;
    Ok(text)
}
