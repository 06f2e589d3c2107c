// Steps of the core.
use pipe_core::{CoreAnswer, CoreStep, World, core_step};
use prof_base::Memory;
use std::alloc::Global;

// Does a step. A world has a ring with places.
pub(crate) fn attempt(
    alloc: Global,
    world: &mut World,
    step: CoreStep,
) -> Result<CoreAnswer, Memory> {
    if world.cells.is_empty() {
        return Ok(CoreAnswer::NotNext);
    }
    core_step(alloc, world, step)
}

// Does a step, and tells whether it changed anything or ended an offer.
pub(crate) fn is_done(alloc: Global, world: &mut World, step: CoreStep) -> Result<bool, Memory> {
    match attempt(alloc, world, step)? {
        CoreAnswer::Done | CoreAnswer::Full(_) => Ok(true),
        CoreAnswer::Empty | CoreAnswer::NotNext => Ok(false),
    }
}
