// What a record tells.
use crate::kept::Kept;
use glacier_base::{Account, List, Moment};
use glacier_extents::Run;
use glacier_vault::Event;

/// An event of an account at a moment, or an item of a snapshot of the account.
#[derive(Drop)]
pub struct Record {
    pub account: Account,
    pub moment: Moment,
    pub item: Item,
}

/// What a record tells: a change with the blocks of its blob, or what a state holds.
#[derive(Drop)]
pub enum Item {
    Event(Event, List<Run>),
    Kept(Kept),
}
