// Laws of images, each the contract of a function.

ghost use Rattle.lu_image_store.specs.Laws.{NeededAreEnds, OffsetsAreAgreed};

/// The needed objects of a store, as a list, are the ends of finite chains of carried pointers.
pub fn needed_objects()
    ensures { NeededAreEnds }
{}

/// The image of a pointer's offset is the one on which all its candidates agree.
pub fn offset_images()
    ensures { OffsetsAreAgreed }
{}
