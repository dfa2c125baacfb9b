//! What holds of the lists of every world.
ghost use Rattle.std.specs.Prelude.{◌≡◌};
ghost use Rattle.host_trait.specs.World.{Leaves};
ghost use Rattle.log_text.specs.declared.lists.Lists.{Lists};
ghost use Rattle.owed_lists.specs.Lists.{AreListsOf};

/// Each world has its lists, whatever stands in their places.
pub fn each_world_has_lists()
    ensures { (leaves : Leaves) → (lists : Lists) × AreListsOf leaves lists }
{}

/// A world has one set of lists.
pub fn one_set_of_lists()
    ensures { (leaves : Leaves) (one other : Lists) → AreListsOf leaves one → AreListsOf leaves other → one ≡ other }
{}
