ghost use Rattle.model.specs.Examples.{RingPlanned, RingOrder, RingPatience, RingAccepted, RoundTwoLanes, RoundOneLane, RoundCycle, OneLinkPatience, GridRoutes, Session, Worked};

// The ring of four, planned with one lane.
pub fn ring_planned()
    ensures { RingPlanned }
{}

// The order of its one lane.
pub fn ring_order()
    ensures { RingOrder }
{}

// The patience of three of its pairs.
pub fn ring_patience()
    ensures { RingPatience }
{}

// It is accepted.
pub fn ring_accepted()
    ensures { RingAccepted }
{}

// The table that goes round the ring, filed in two lanes.
pub fn round_two_lanes()
    ensures { RoundTwoLanes }
{}

// The same table does not fit one lane.
pub fn round_one_lane()
    ensures { RoundOneLane }
{}

// Its cycle in one lane, from each of its members, and no other.
pub fn round_cycle()
    ensures { RoundCycle }
{}

// The patience on two switches and one link.
pub fn one_link_patience()
    ensures { OneLinkPatience }
{}

// Two routes of the grid of two by two.
pub fn grid_routes()
    ensures { GridRoutes }
{}

// A session of posts, serves and looks on the planned ring.
pub fn session()
    ensures { Session }
{}

// All of them together.
pub fn worked()
    ensures { Worked }
{}
