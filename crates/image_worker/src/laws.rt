//! Laws on images.
ghost use Rattle.image_worker.specs.Words.{ImagesAreUnique};

use resolution_existence::canonical_table_exists;

/// The images of a range are unique: whoever makes them, by however many workers, the rows are the same.
pub fn images_are_unique()
    ensures { ImagesAreUnique }
{
    canonical_table_exists();
}
