// Laws of images, each the contract of a function.

ghost use Rattle.lu_image_laws.specs.Laws.{PlacesAreOne, ImagesAreOne, PartsAreKept, ImagesAreStores, ObjectsMove, NoOthersMove, ObjectsStayTwo, PointersShare};

/// At one offset at most one place outside unions has a type, so an offset has at most one image.
pub fn offsets()
    ensures places { PlacesAreOne }
    ensures images { ImagesAreOne }
{}

/// A pointer's image lies at the same part of its object.
pub fn parts()
    ensures { PartsAreKept }
{}

/// The image of a store is a store of the new program.
pub fn stores()
    ensures { ImagesAreStores }
{}

/// One old object has one image, and two have two: each needed object stands at its new number, the image has no other
/// objects, and pointers to an object go to its image.
pub fn sharing()
    ensures stand { ObjectsMove }
    ensures alone { NoOthersMove }
    ensures two { ObjectsStayTwo }
    ensures pointers { PointersShare }
{}
