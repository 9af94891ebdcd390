//! What holds of every reply.
ghost use Rattle.std.specs.Prelude.{◌≡◌, ◌≤◌, length, Some, None};
ghost use Rattle.hex.specs.Hex.{encode_lower};
ghost use Rattle.glacier_replies.specs.Fields.{HasShortFields};
ghost use Rattle.glacier_replies.specs.JobReplies.{begun, output};
ghost use Rattle.glacier_replies.specs.Replies.{created, uploaded};

use glacier_base::{Digest, VaultName};
use glacier_vault::Rules;

/// An account has 12 digits, and a vault's name at most 255 bytes.
fn names_are_short(rules: &Rules, name: &VaultName)
    ensures account { length rules.now.account ≡ 12 }
    ensures name { length name.now ≤ 255 }
{
    let _account = rules.account.bytes();
    let _name = name.bytes();
}

/// A digest has 64 digits.
fn digits_are_few(digest: &Digest)
    ensures { length (encode_lower digest.now) ≡ 64 }
{
    let text = digest.text();
    prove!(text.len() == 64);
}

/// The lines of a reply's own fields have at most `MOST_FIELD_BYTES`.
pub fn fields_are_short(rules: &Rules, name: &VaultName, number: u64, tree: &Digest)
    ensures created { HasShortFields (created rules.now name.now) }
    ensures uploaded { HasShortFields (uploaded rules.now name.now number tree.now) }
    ensures begun { HasShortFields (begun rules.now name.now number) }
{
    names_are_short(rules, name);
    digits_are_few(tree);
}

/// So have those of the reply that goes before a job's output.
pub fn output_fields_are_short(first: u64, last: u64, size: u64, tree: &Digest)
    ensures whole { HasShortFields (output None size (Some tree.now)) }
    ensures part { HasShortFields (output (Some (first, last)) size (Some tree.now)) }
    ensures bare { HasShortFields (output (Some (first, last)) size None) }
{
    digits_are_few(tree);
}
