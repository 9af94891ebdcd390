// The replies to what is accepted.
ghost use Rattle.std.specs.Prelude.{◌≡◌, IfOk};
ghost use Rattle.glacier_replies.specs.Replies.{created, deleted, described, uploaded};

use crate::bodies::vault_body;
use crate::fields::{push_field, push_tree};
use crate::paths::{item_location, location};
use crate::refusals::json_reply;
use glacier_base::{Digest, Id, IdKind, List, Memory, Text, VaultName};
use glacier_http::{Kind, Reply};
use glacier_vault::{Rules, VaultState};
use std::alloc::Global;

/// The reply where a vault was made or is there already: 201 with its path.
pub fn created_reply(alloc: Global, rules: &Rules, name: &VaultName) -> Result<Reply, Memory>
    ensures { IfOk result (λ reply. reply ≡ created rules.now name.now) }
{
    let path = location(alloc, &rules.account, name)?;
    let mut fields = List::new(alloc);
    push_field(alloc, &mut fields, b"Location", path)?;
    Ok(Reply {
        status: 201,
        fields,
        kind: Kind::Empty,
        body: Text::new(alloc),
    })
}

/// The reply where a vault or an archive was deleted or wasn't there: 204.
pub fn deleted_reply(alloc: Global) -> Reply
    ensures { result ≡ deleted }
{
    Reply {
        status: 204,
        fields: List::new(alloc),
        kind: Kind::Empty,
        body: Text::new(alloc),
    }
}

/// The reply where an archive with this number and tree hash was uploaded: 201 with its path, its
/// tree hash and its id.
pub fn uploaded_reply(
    alloc: Global,
    rules: &Rules,
    name: &VaultName,
    archive: u64,
    tree: &Digest,
) -> Result<Reply, Memory>
    ensures { IfOk result (λ reply. reply ≡ uploaded rules.now name.now archive tree.now) }
{
    let id = Id {
        kind: IdKind::Archive,
        number: archive,
    };
    let path = item_location(alloc, &rules.account, name, b"/archives/", id)?;
    let mut fields = List::new(alloc);
    push_field(alloc, &mut fields, b"Location", path)?;
    push_tree(alloc, &mut fields, tree)?;
    push_field(
        alloc,
        &mut fields,
        b"x-amz-archive-id",
        Text::of(alloc, &id.text())?,
    )?;
    Ok(Reply {
        status: 201,
        fields,
        kind: Kind::Empty,
        body: Text::new(alloc),
    })
}

/// The reply to the question for a vault.
pub fn described_reply(
    alloc: Global,
    rules: &Rules,
    name: &VaultName,
    vault: &VaultState,
) -> Result<Reply, Memory>
    ensures { IfOk result (λ reply. reply ≡ described rules.now name.now vault.now) }
{
    let body = vault_body(alloc, rules, name, vault)?;
    Ok(json_reply(alloc, 200, body))
}
