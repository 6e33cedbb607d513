//! A law of copies. The function does nothing.

ghost use Rattle.copy_portions.specs.Copying.{EndsAlike};

/// A copy that is made while batches change the blocks, in any order of portions and batches, is alike with them once it lacks none.
pub fn each_copy_ends_alike()
    ensures { EndsAlike }
{}
