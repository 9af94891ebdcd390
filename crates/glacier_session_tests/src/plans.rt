// Plans of a station in memory.
use glacier_base::{List, Moment, Text};
use glacier_disk::MemPlan;
use std::alloc::Global;

/// What a station is to hold, and what is to come to it. Right and Blobs are empty.
#[derive(Clone, Copy)]
pub struct Plan<'a> {
    pub lead: &'a str,
    pub left: &'a str,
    pub inputs: &'a [&'a [u8]],
    pub pieces: &'a [usize],
    pub seconds: &'a [u64],
    pub faults: &'a [u64],
}

fn texts(alloc: Global, inputs: &[&[u8]]) -> Option<List<Text>> {
    let mut texts = List::new(alloc);
    for input in inputs {
        texts.push(Text::of(alloc, input).ok()?).ok()?;
    }
    Some(texts)
}

fn moments(alloc: Global, seconds: &[u64]) -> Option<List<Moment>> {
    let mut moments = List::new(alloc);
    for second in seconds {
        moments.push(Moment::new(*second)?).ok()?;
    }
    Some(moments)
}

pub fn mem_plan(alloc: Global, plan: &Plan) -> Option<MemPlan> {
    let lead = Text::of(alloc, plan.lead.as_bytes()).ok()?;
    let left = Text::of(alloc, plan.left.as_bytes()).ok()?;
    let connections = texts(alloc, plan.inputs)?;
    let pieces = List::from_vec(plan.pieces.to_vec(alloc).ok()?);
    let moments = moments(alloc, plan.seconds)?;
    let faults = List::from_vec(plan.faults.to_vec(alloc).ok()?);
    Some(MemPlan {
        areas: [lead, left, Text::new(alloc), Text::new(alloc)],
        connections,
        pieces,
        moments,
        faults,
    })
}

/// Lead, Left and Right of a disk; Blobs is empty.
pub type Image = (&'static [u8], &'static [u8], &'static [u8]);

/// A plan of a disk with these areas, to which nobody comes, and of which no call fails.
pub fn plan_of(alloc: Global, areas: [Text; 4]) -> MemPlan {
    MemPlan {
        areas,
        connections: List::new(alloc),
        pieces: List::new(alloc),
        moments: List::new(alloc),
        faults: List::new(alloc),
    }
}

/// The same of Lead, Left and Right.
pub fn three_areas(alloc: Global, lead: &[u8], left: &[u8], right: &[u8]) -> Option<MemPlan> {
    let lead = Text::of(alloc, lead).ok()?;
    let left = Text::of(alloc, left).ok()?;
    let right = Text::of(alloc, right).ok()?;
    Some(plan_of(alloc, [lead, left, right, Text::new(alloc)]))
}

/// The same of an image.
pub fn disk_plan(alloc: Global, image: &Image) -> Option<MemPlan> {
    let (lead, left, right) = *image;
    three_areas(alloc, lead, left, right)
}
