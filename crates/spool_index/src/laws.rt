//! The facts that the places of files rely on. The functions do nothing.

ghost use Rattle.spool_index.specs.Laws.{PlacesAreByName, PlacesGrowByChange, PlacesGrowByGroup, PlacesHaveNames};

/// The places of a spool's files are those that have their names.
pub fn places_are_by_name()
    ensures named { PlacesHaveNames }
    ensures are { PlacesAreByName }
{}

/// If each file keeps its inode and its name, the places of a change's new files follow the others.
pub fn places_grow_with_the_spool()
    ensures change { PlacesGrowByChange }
    ensures group { PlacesGrowByGroup }
{}
