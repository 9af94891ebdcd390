// Names, dates and descriptions as texts.
ghost use Rattle.std.specs.Prelude.{◌≡◌, IsAscii};

use glacier_base::{Account, Description, Region, VaultName};

/// The text of bytes that are ASCII.
pub(crate) fn ascii_text(bytes: &[u8]) -> &str
    requires { IsAscii bytes.now }
    ensures { result.now ≡ bytes.now }
{
    match str::from_utf8(bytes) {
        Ok(text) => text,
        Err(_) => unreachable!(),
    }
}

/// The text of a vault's name.
pub(crate) fn name_text(name: &VaultName) -> &str
    ensures { result.now ≡ name.now }
{
    ascii_text(name.bytes())
}

/// The digits of an account.
pub(crate) fn account_text(account: &Account) -> &str
    ensures { result.now ≡ account.now }
{
    ascii_text(account.bytes())
}

/// The name of a region.
pub(crate) fn region_text(region: &Region) -> &str
    ensures { result.now ≡ region.now }
{
    ascii_text(region.bytes())
}

/// The text of a description.
pub(crate) fn description_text(description: &Description) -> &str
    ensures { result.now ≡ description.now }
{
    ascii_text(description.bytes())
}
