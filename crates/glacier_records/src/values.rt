// Reading the fields of records.
ghost use Rattle.glacier_records.specs.Fields.{account_field, moment_field, name_field, text_field, description_field, digest_field, flag_field, tier_field, stage_field, optional_field, retrieval_field, work_of, work_field};
ghost use Rattle.std.proofs.Common.{inl};
ghost use Rattle.glacier_records.specs.Codec.{with_fields};
ghost use Rattle.glacier_records.specs.Taken.{Takes};

use crate::kept::StageName;
use crate::reader::Reader;
use crate::unread::Unread;
use glacier_base::{Account, Description, Digest, Moment, Text, VaultName};
use glacier_vault::{Tier, Work};
use std::alloc::Global;

impl<'a> Reader<'a> {
    /// An account's twelve digits.
    pub(crate) fn account(&mut self) -> Result<Account, Unread>
        ensures { Takes (account_field.read self.old) result self.new }
    {
        let digits = self.bytes(12)?;
        match Account::parse(digits) {
            Some(account) => Ok(account),
            None => Err(Unread::NoValue),
        }
    }

    /// A moment in seconds.
    pub(crate) fn moment(&mut self) -> Result<Moment, Unread>
        ensures { Takes (moment_field.read self.old) result self.new }
    {
        let seconds = self.u64()?;
        match Moment::new(seconds) {
            Some(moment) => Ok(moment),
            None => Err(Unread::NoValue),
        }
    }

    /// A vault's name, behind its length.
    pub(crate) fn name(&mut self) -> Result<VaultName, Unread>
        ensures { Takes (name_field.read self.old) result self.new }
    {
        let length = self.byte()?;
        let text = self.bytes(length as usize)?;
        match VaultName::parse(text) {
            Some(name) => Ok(name),
            None => Err(Unread::NoValue),
        }
    }

    /// A description, behind its length.
    pub(crate) fn description(&mut self) -> Result<Description, Unread>
        ensures { Takes (description_field.read self.old) result self.new }
    {
        let length = self.u16()?;
        let text = self.bytes(length as usize)?;
        match Description::parse(text) {
            Some(description) => Ok(description),
            None => Err(Unread::NoValue),
        }
    }

    /// A text, behind its length.
    pub(crate) fn text(&mut self, alloc: Global) -> Result<Text, Unread>
        ensures { Takes (text_field.read self.old) result self.new }
    {
        let length = self.u16()?;
        let bytes = self.bytes(length as usize)?;
        let text = Text::of(alloc, bytes)?;
        Ok(text)
    }

    pub(crate) fn digest(&mut self) -> Result<Digest, Unread>
        ensures { Takes (digest_field.read self.old) result self.new }
    {
        let bytes = self.bytes(32)?;
        let mut digest = [0; 32];
        digest.copy_from_slice(bytes);
        Ok(Digest(digest))
    }

    pub(crate) fn flag(&mut self) -> Result<bool, Unread>
        ensures { Takes (flag_field.read self.old) result self.new }
    {
        match self.byte()? {
            0 => Ok(false),
            1 => Ok(true),
            _ => Err(Unread::NoValue),
        }
    }

    pub(crate) fn tier(&mut self) -> Result<Tier, Unread>
        ensures { Takes (tier_field.read self.old) result self.new }
    {
        match self.byte()? {
            0 => Ok(Tier::Expedited),
            1 => Ok(Tier::Standard),
            2 => Ok(Tier::Bulk),
            _ => Err(Unread::NoValue),
        }
    }

    pub(crate) fn stage(&mut self) -> Result<StageName, Unread>
        ensures { Takes (stage_field.read self.old) result self.new }
    {
        match self.byte()? {
            0 => Ok(StageName::Waiting),
            1 => Ok(StageName::Failed),
            2 => Ok(StageName::Done),
            _ => Err(Unread::NoValue),
        }
    }

    /// A digest that may be missing.
    fn optional_digest(&mut self) -> Result<Option<Digest>, Unread>
        ensures { Takes (optional_field.read self.old) result self.new }
    {
        match self.byte()? {
            0 => Ok(None),
            1 => {
                let digest = self.digest()?;
                Ok(Some(digest))
            }
            _ => Err(Unread::NoValue),
        }
    }

    fn retrieval(&mut self) -> Result<Work, Unread>
        ensures { Takes (with_fields (λ f. work_of (inl f)) retrieval_field self.old) result self.new }
    {
        let archive = self.u64()?;
        let size = self.u64()?;
        let tree = self.digest()?;
        let first = self.u64()?;
        let end = self.u64()?;
        let range = self.optional_digest()?;
        Ok(Work::Archive {
            archive,
            size,
            tree,
            first,
            end,
            range,
        })
    }

    /// What a job asks for.
    pub(crate) fn work(&mut self) -> Result<Work, Unread>
        ensures { Takes (work_field.read self.old) result self.new }
    {
        match self.byte()? {
            0 => self.retrieval(),
            1 => {
                let csv = self.flag()?;
                Ok(Work::Inventory { csv })
            }
            _ => Err(Unread::NoValue),
        }
    }
}
