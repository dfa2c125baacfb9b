//! Hosts in memory, as cases have them.
use crate::reading::{put_places, put_systems};
use host_memory::MemoryHost;
use host_trait::World;
use std::alloc::{AllocError, Global};
use std::test::Fail;
use switch_names::{Bytes, Listed};

/// The list of a number.
pub fn list_of(alloc: Global, number: u64) -> Result<Listed<u64>, AllocError> {
    Ok(Listed::from_vec([number].to_vec(alloc)?))
}

/// A host with the world of these places.
pub fn host_of(alloc: Global, places: &[Bytes]) -> Result<MemoryHost, Fail> {
    let mut world = World::new(alloc);
    put_places(alloc, &mut world, places)?;
    Ok(MemoryHost::new(alloc, world))
}

/// A host with the world of these places and the two systems.
pub fn host_of_systems(alloc: Global, places: &[Bytes]) -> Result<MemoryHost, Fail> {
    let mut world = World::new(alloc);
    put_systems(alloc, &mut world)?;
    put_places(alloc, &mut world, places)?;
    Ok(MemoryHost::new(alloc, world))
}
