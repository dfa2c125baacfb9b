//! The generations that are kept, and the links of those that go.
ghost use Rattle.std.specs.Prelude.{◌≡◌, ◌≤◌, ◌-◌, ◌++◌, ◌∷◌, [], not, filter, length, map, IfOk, OnOk};
ghost use Rattle.generations.specs.Places.{link_path};
ghost use Rattle.store_collect.specs.Kept.{gens_kept, is_current_of, links_gone};

use generations::{Gen, Gens, generation_path};
use std::alloc::{AllocError, Global};
use switch_names::{Listed, Path};

/// Whether a generation is the current one.
fn is_current(generation: &Gen, gens: &Gens) -> bool
    ensures { result ≡ is_current_of gens.now generation.now }
{
    gens.current == Some(generation.number)
}

/// How many generations there are but for the last so many.
fn older_count(gens: &Gens, keep: u32) -> usize
    ensures count { result ≡ length gens.now.list - keep }
    ensures within { result ≤ length gens.now.list }
{
    gens.list.as_slice().len().saturating_sub(keep as usize)
}

/// Adds an equal generation.
fn add_copy(alloc: Global, list: &mut Listed<Gen>, generation: &Gen) -> Result<(), AllocError>
    ensures { OnOk result (list.new ≡ list.old ++ generation.now ∷ []) }
{
    let target = match &generation.target {
        Some(target) => Some(target.copy(alloc)?),
        None => None,
    };
    let number = generation.number;
    list.push(Gen { number, target })
}

/// Adds a generation, where it is the current one.
fn add_if_current(
    alloc: Global,
    list: &mut Listed<Gen>,
    generation: &Gen,
    gens: &Gens,
) -> Result<(), AllocError>
    ensures { OnOk result (list.new ≡ list.old ++ filter (is_current_of gens.now) (generation.now ∷ [])) }
{
    if !is_current(generation, gens) {
        return Ok(());
    }
    add_copy(alloc, list, generation)
}

/// Adds those of some generations that are the current one.
fn add_current(
    alloc: Global,
    list: &mut Listed<Gen>,
    generations: &[Gen],
    gens: &Gens,
) -> Result<(), AllocError>
    ensures { OnOk result (list.new ≡ list.old ++ filter (is_current_of gens.now) generations.now) }
{
    for generation in generations {
        add_if_current(alloc, list, generation, gens)?;
    }
    Ok(())
}

/// Adds equal generations.
fn add_copies(alloc: Global, list: &mut Listed<Gen>, generations: &[Gen]) -> Result<(), AllocError>
    ensures { OnOk result (list.new ≡ list.old ++ generations.now) }
{
    for generation in generations {
        add_copy(alloc, list, generation)?;
    }
    Ok(())
}

/// The generations that are kept: the last so many, and the current one.
pub(crate) fn kept(alloc: Global, gens: &Gens, keep: u32) -> Result<Gens, AllocError>
    ensures { IfOk result (λ kept. kept ≡ gens_kept keep gens.now) }
{
    let (older, last) = gens.list.as_slice().split_at(older_count(gens, keep));
    let mut list = Listed::new(alloc);
    add_current(alloc, &mut list, older, gens)?;
    add_copies(alloc, &mut list, last)?;
    Ok(Gens {
        list,
        current: gens.current,
    })
}

/// Adds the link of a generation, where it isn't the current one.
fn add_link(
    alloc: Global,
    links: &mut Listed<Path>,
    generation: &Gen,
    gens: &Gens,
) -> Result<(), AllocError>
    ensures { OnOk result (links.new ≡ links.old ++ map (λ gen. link_path gen.number) (filter (λ gen. not (is_current_of gens.now gen)) (generation.now ∷ []))) }
{
    if is_current(generation, gens) {
        return Ok(());
    }
    links.push(generation_path(alloc, generation.number)?)
}

/// Adds the links of some generations, but for the current one.
fn add_links(
    alloc: Global,
    links: &mut Listed<Path>,
    generations: &[Gen],
    gens: &Gens,
) -> Result<(), AllocError>
    ensures { OnOk result (links.new ≡ links.old ++ map (λ gen. link_path gen.number) (filter (λ gen. not (is_current_of gens.now gen)) generations.now)) }
{
    for generation in generations {
        add_link(alloc, links, generation, gens)?;
    }
    Ok(())
}

/// The links of the generations that go, by ascending number.
pub(crate) fn gone_links(alloc: Global, gens: &Gens, keep: u32) -> Result<Listed<Path>, AllocError>
    ensures { IfOk result (λ links. links ≡ links_gone keep gens.now) }
{
    let (older, _last) = gens.list.as_slice().split_at(older_count(gens, keep));
    let mut links = Listed::new(alloc);
    add_links(alloc, &mut links, older, gens)?;
    Ok(links)
}
