// What a station in memory holds at first, and what comes to it.
ghost use Rattle.std.specs.Prelude.{◌≡◌, [], ◌∷◌, map, IfOk};

use glacier_base::{List, Memory, Moment, Text};
use std::alloc::Global;

/// What a station in memory holds, and what comes to it.
#[derive(Drop)]
pub struct MemPlan {
    /// The contents of the areas in their order, all of them stable.
    pub areas: [Text; 4],
    /// The inputs of the connections, in order.
    pub connections: List<Text>,
    /// The bounds of the receives one by one, in bytes; 0 counts as 1, and after the end each gives
    /// all that fits.
    pub pieces: List<usize>,
    /// The readings of the clock; after the end the last one is given again, or 0 where there is
    /// none.
    pub moments: List<Moment>,
    /// The numbers, from 0, of the calls that fail; `now` and `hang_up` are not counted.
    pub faults: List<u64>,
}

impl MemPlan {
    /// Four empty areas, no connection, bound or reading, and no call that fails.
    pub fn empty(alloc: Global) -> MemPlan
        ensures areas { result.areas ≡ [] ∷ [] ∷ [] ∷ [] ∷ [] }
        ensures connections { result.connections ≡ [] }
        ensures pieces { result.pieces ≡ [] }
        ensures moments { result.moments ≡ [] }
        ensures faults { result.faults ≡ [] }
    {
        MemPlan {
            areas: [
                Text::new(alloc),
                Text::new(alloc),
                Text::new(alloc),
                Text::new(alloc),
            ],
            connections: List::new(alloc),
            pieces: List::new(alloc),
            moments: List::new(alloc),
            faults: List::new(alloc),
        }
    }

    /// The same with these inputs, in place of its own.
    pub fn with_inputs(self, alloc: Global, inputs: &[&[u8]]) -> Result<MemPlan, Memory>
        ensures { IfOk result (λ plan. plan ≡ record self {
          connections = map (λ input. input.now) inputs.now;
        }) }
    {
        let mut plan = self;
        plan.connections = List::new(alloc);
        for input in inputs {
            plan.connections.push(Text::of(alloc, input)?)?;
        }
        Ok(plan)
    }

    /// The same with these failures, in place of its own.
    pub fn with_faults(self, alloc: Global, numbers: &[u64]) -> Result<MemPlan, Memory>
        ensures { IfOk result (λ plan. plan ≡ record self { faults = numbers.now }) }
    {
        let mut plan = self;
        plan.faults = List::from_vec(numbers.to_vec(alloc)?);
        Ok(plan)
    }
}
