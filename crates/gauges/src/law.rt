// What the distance of a list has to do with the distance of its tree.
ghost use Rattle.gauges.specs.SceneDistance.{SceneDistanceLaw};

// For an accepted list, the distance of the tree that it spells is the number that working it out leaves.
pub fn scene_distance_law()
    ensures { SceneDistanceLaw }
{}
