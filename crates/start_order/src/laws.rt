//! What holds of every order.
ghost use Rattle.start_order.specs.Laws.{CheckLaw, CycleLaw, EdgeLaw, OneAnswerLaw, OneCycleLaw, OneEdgesLaw, OneOrderLaw, RearrangedLaw, RisingLaw};

/// An order has each unit, and each once.
pub fn an_order_is_a_rearrangement()
    ensures { RearrangedLaw }
{}

/// There is one order.
pub fn one_order_is_there()
    ensures { OneOrderLaw }
{}

/// There is one list of edges that puts some units before others.
pub fn one_list_of_edges_is_there()
    ensures { OneEdgesLaw }
{}

/// A unit has one cycle.
pub fn one_cycle_is_there()
    ensures { OneCycleLaw }
{}

/// There is one answer: one order, one list of broken units and one of their cycles.
pub fn one_answer_is_there()
    ensures { OneAnswerLaw }
{}

/// What stands before a unit is ahead of it, unless the unit was taken while none was free.
pub fn each_edge_is_kept_or_broken()
    ensures { EdgeLaw }
{}

/// Of two units that are taken while none is free, the first is the lesser.
pub fn broken_units_rise()
    ensures { RisingLaw }
{}

/// A cycle has two units at least, and each stands after the next one, the last after the first.
pub fn a_cycle_is_a_ring()
    ensures { CycleLaw }
{}

/// What is ordered passes the check.
pub fn what_is_ordered_passes()
    ensures { CheckLaw }
{}
