//! A law of new volumes. The function does nothing.

ghost use Rattle.volume_new.specs.Laws.{AnImageStands, EachHostHasAnImage};

/// Some image stands for a spool: under each host, that of a new volume stands for the spool without changes.
pub fn an_image_stands()
    ensures each { EachHostHasAnImage }
    ensures one { AnImageStands }
{}
