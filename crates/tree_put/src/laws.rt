//! What holds of the first place in the way.
ghost use Rattle.std.specs.Prelude.{◌≡◌, ◌++◌, ◌↔◌, List, None};
ghost use Rattle.host_trait.specs.World.{Leaves};
ghost use Rattle.tree_put.specs.declared.written_place.WrittenPlace.{WrittenPlace};
ghost use Rattle.tree_put.specs.WrittenPlace.{in_the_way};
ghost use Rattle.tree_put.specs.First.{AreSamePlaces, AreSorted, first_in_the_way};

/// Of sorted places it is the first of the list.
pub fn of_sorted_places_it_is_the_first()
    ensures { (places : List WrittenPlace) (leaves : Leaves) → AreSorted places → first_in_the_way places leaves ≡ in_the_way places leaves }
{}

/// It doesn't matter in which order places are told, and how often.
pub fn the_order_does_not_matter()
    ensures { (one other : List WrittenPlace) (leaves : Leaves) → AreSamePlaces one other → first_in_the_way one leaves ≡ first_in_the_way other leaves }
{}

/// Nothing is in the way of two lists exactly where nothing is in the way of either.
pub fn none_is_in_the_way_of_both()
    ensures { (one other : List WrittenPlace) (leaves : Leaves) → (first_in_the_way (one ++ other) leaves ≡ None)
        ↔ ((first_in_the_way one leaves ≡ None) × (first_in_the_way other leaves ≡ None)) }
{}

/// Nothing is in the way exactly where nothing is in the way of the places as they are listed.
pub fn none_is_in_the_way_as_listed()
    ensures { (places : List WrittenPlace) (leaves : Leaves) → (first_in_the_way places leaves ≡ None) ↔ (in_the_way places leaves ≡ None) }
{}
