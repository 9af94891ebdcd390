// The outputs of jobs.
ghost use Rattle.std.specs.Option.{option_copied};
ghost use Rattle.std.specs.Prelude.{◌≡◌, ◌≤◌, ◌+◌, IfOk, IfSome, Some, None, length};
ghost use Rattle.glacier_replies.specs.Fields.{HasShortFields};
ghost use Rattle.glacier_replies.specs.JobReplies.{output};
ghost use Rattle.glacier_vault.specs.Lawful.{IsLawful, IsLawfulBody};
ghost use Rattle.glacier_vault.specs.Rows.{no_change};
ghost use Rattle.glacier_machine.specs.JobSteps.{stored_archive as archive_stored, sent_tree as tree_of_sent, output_length as length_of_output, inventory_kind as kind_of_inventory, HasBytes, inventory_part, output_answer, job_output_step};

use crate::action::{Answer, Stretch};
use crate::answers::{refused_answer, unchanged};
use glacier_base::{Digest, Memory, Text, VaultName};
use glacier_http::Kind;
use glacier_job::{find, output_range};
use glacier_replies::laws::output_fields_are_short;
use glacier_replies::output_reply;
use glacier_treehash::range_hash;
use glacier_vault::{AccountState, Archive, Change, Work};
use std::alloc::Global;

/// The archive of a number in a vault, live or held.
pub fn stored_archive<'a>(
    state: &'a AccountState,
    name: &VaultName,
    number: u64,
) -> Option<&'a Archive>
    ensures { option_copied result ≡ archive_stored state.now name.now number }
{
    let vault = state.vaults.get(name)?;
    match vault.archives.get(number) {
        Some(archive) => Some(archive),
        None => vault.held.get(number),
    }
}

/// The tree hash of an archive's bytes, where the range that they are taken of is a node and they
/// are one too.
fn sent_tree(
    range: Option<Digest>,
    archive: Option<&Archive>,
    first: u64,
    end: u64,
) -> Option<Digest>
    requires { IfSome archive (λ there.
        IsLawfulBody there.now.size there.now.leaves there.now.tree) }
    ensures { result ≡ tree_of_sent range (option_copied archive.entry) first end }
{
    let _range = range?;
    let archive = archive?;
    range_hash(archive.leaves.as_slice(), archive.size, first, end)
}

/// How many bytes the output of a job has.
fn output_length(work: &Work, inventory: &[u8]) -> u64
    ensures { result ≡ length_of_output work.now inventory.now }
{
    match work {
        Work::Archive { first, end, .. } => end.saturating_sub(*first),
        Work::Inventory { .. } => inventory.len() as u64,
    }
}

fn inventory_kind(csv: bool) -> Kind
    ensures { result ≡ kind_of_inventory csv }
{
    if csv { Kind::Csv } else { Kind::Json }
}

/// The stretch of an archive that a part of a job's output is.
fn stretch_of(vault: &VaultName, archive: u64, first: u64, end: u64, part: (u64, u64)) -> Stretch
    requires order { part.0 ≤ part.1 }
    requires within { first + part.1 ≤ end }
    ensures { result ≡ record {
      vault = vault.now;
      archive = archive;
      first = first + part.0;
      end = first + part.1;
    } }
{
    Stretch {
        vault: *vault,
        archive,
        first: first + part.0,
        end: first + part.1,
    }
}

/// A range has few digits.
fn range_is_short(first: u64, last: u64, length: u64)
    ensures { HasShortFields (output (Some (first, last)) length None) }
{}

/// The fields of the reply that goes before an output are short.
fn fields_are_short(asked: Option<(u64, u64)>, length: u64, tree: &Option<Digest>)
    ensures { HasShortFields (output asked length tree.now) }
{
    match (asked, tree) {
        (None, None) => {}
        (None, Some(tree)) => output_fields_are_short(0, 0, length, tree),
        (Some((first, last)), None) => range_is_short(first, last, length),
        (Some((first, last)), Some(tree)) => output_fields_are_short(first, last, length, tree),
    }
}

/// The answer with a stretch of an archive, of an output of so many bytes.
fn archive_answer(
    alloc: Global,
    state: &AccountState,
    stretch: Stretch,
    range: Option<Digest>,
    asked: Option<(u64, u64)>,
    length: u64,
) -> Result<Answer, Memory>
    requires { IfSome (archive_stored state.now stretch.vault stretch.archive) (λ there.
        IsLawfulBody there.size there.leaves there.tree) }
    ensures answer { IfOk result (λ answer. answer ≡ record {
      reply = output asked length (tree_of_sent range
          (archive_stored state.now stretch.vault stretch.archive) stretch.first stretch.end);
      stretch = Some stretch;
      change = no_change;
    }) }
    ensures short { IfOk result (λ answer. HasShortFields answer.reply) }
{
    let stored = stored_archive(state, &stretch.vault, stretch.archive);
    let tree = sent_tree(range, stored, stretch.first, stretch.end);
    fields_are_short(asked, length, &tree);
    let reply = output_reply(alloc, asked, length, tree)?;
    Ok(Answer {
        reply,
        stretch: Some(stretch),
        change: Change::none(alloc),
    })
}

/// The answer with a part of an inventory's text.
fn inventory_answer(
    alloc: Global,
    csv: bool,
    asked: Option<(u64, u64)>,
    inventory: &[u8],
    part: (u64, u64),
) -> Result<Answer, Memory>
    requires order { part.0 ≤ part.1 }
    requires within { part.1 ≤ length inventory.now }
    ensures answer { IfOk result (λ answer. answer
        ≡ inventory_part csv asked inventory.now part) }
    ensures short { IfOk result (λ answer. HasShortFields answer.reply) }
{
    fields_are_short(asked, inventory.len() as u64, &None);
    let mut reply = output_reply(alloc, asked, inventory.len() as u64, None)?;
    reply.kind = inventory_kind(csv);
    reply.body = Text::of(alloc, &inventory[part.0 as usize..part.1 as usize])?;
    Ok(unchanged(alloc, reply))
}

/// The answer with the bytes of an output from one to before another.
fn part_answer(
    alloc: Global,
    state: &AccountState,
    name: &VaultName,
    work: &Work,
    asked: Option<(u64, u64)>,
    inventory: &[u8],
    part: (u64, u64),
) -> Result<Answer, Memory>
    requires work { HasBytes state.now name.now work.now }
    requires order { part.0 ≤ part.1 }
    requires within { part.1 ≤ length_of_output work.now inventory.now }
    ensures answer { IfOk result (λ answer. answer
        ≡ output_answer state.now name.now work.now asked inventory.now part) }
    ensures short { IfOk result (λ answer. HasShortFields answer.reply) }
{
    match work {
        Work::Archive {
            archive,
            first,
            end,
            range,
            ..
        } => {
            let stretch = stretch_of(name, *archive, *first, *end, part);
            archive_answer(alloc, state, stretch, *range, asked, *end - *first)
        }
        Work::Inventory { csv } => inventory_answer(alloc, *csv, asked, inventory, part),
    }
}

/// Answers with the output of a job, all of it or a range of a first and a last byte. That of a
/// retrieval is a stretch of its archive, and that of an inventory is the text that is handed in,
/// which isn't looked at for a retrieval.
#[tactic(auto, using(crate::proofs::JobLemmas::found_bytes, crate::proofs::JobLemmas::output_order, crate::proofs::JobLemmas::output_end, crate::proofs::AsciiLemmas::found_ascii, crate::proofs::AsciiLemmas::output_ascii))]
pub fn job_output(
    alloc: Global,
    state: &AccountState,
    name: &VaultName,
    job: u64,
    range: Option<(u64, u64)>,
    inventory: &[u8],
) -> Result<Answer, Memory>
    requires lawful { IsLawful state.now }
    requires order { IfSome range (λ range. range.0 ≤ range.1) }
    ensures answer { IfOk result (λ answer. answer
        ≡ (job_output_step name.now job range inventory.now state.now).answer) }
    ensures short { IfOk result (λ answer. HasShortFields answer.reply) }
{
    let found = match find(state, name, job) {
        Ok(found) => found,
        Err(refusal) => return refused_answer(alloc, refusal),
    };
    match output_range(found, output_length(&found.work, inventory), range) {
        Ok(part) => part_answer(alloc, state, name, &found.work, range, inventory, part),
        Err(refusal) => refused_answer(alloc, refusal),
    }
}
