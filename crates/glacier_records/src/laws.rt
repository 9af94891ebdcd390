// Laws of spellings, which no code calls.
ghost use Rattle.std.specs.Prelude.{◌≡◌, ◌+◌, ◌*◌, ℕ, List, length};
ghost use Rattle.glacier_records.specs.KeptLengths.{kept_length, run_count};
ghost use Rattle.glacier_records.specs.Spells.{Spells};
ghost use Rattle.glacier_records.specs.declared.kept.Kept.{Kept};
ghost use Rattle.glacier_records.specs.declared.records.Item.TheVariants as item;
ghost use Rattle.glacier_records.specs.declared.records.Record.{Record};

/// No bytes spell two records, and no record has two spellings.
pub fn one_spelling()
    ensures one_record { (bytes : List ℕ) (one other : Record)
        → Spells bytes one → Spells bytes other → one ≡ other }
    ensures one_text { (bytes others : List ℕ) (one : Record)
        → Spells bytes one → Spells others one → bytes ≡ others }
{}

/// The record of an item of a snapshot and its frame of 5 bytes take as many bytes as the item's
/// length says, and 8 for each run of its blobs.
pub fn kept_records_length()
    ensures { (bytes account : List ℕ) (moment : ℕ) (kept : Kept)
        → Spells bytes (record { account = account; moment = moment; item = item.Kept kept })
        → 5 + length bytes ≡ kept_length kept + 8 * run_count kept }
{}
