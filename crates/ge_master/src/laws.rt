//! What is meant by a master at home. The functions do nothing: their contracts are the laws.
ghost use Rattle.ge_master.specs.Areas.{Areas, StandsNow};
ghost use Rattle.ge_master.specs.Homes.{Parts, IsHome};

/// Where a master is at home on two areas, every pair of what a stop may leave of them now stands for its cluster.
pub fn masters_at_home_stand_for_their_cluster()
    ensures { (parts : Parts) (now : Areas) → IsHome parts now → StandsNow now parts.cluster }
{}
