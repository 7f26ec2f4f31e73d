//! What holds of all images.
ghost use Rattle.gs_keep_image.specs.Promises.{WhatIsLoadedIsTheImage, WhatWasTakenIsLoaded};

use gs_image::promises::{images_tell_parts, refused_bytes_are_no_image};
use gs_parts_image::promises::a_store_is_read_as_it_is_written;

/// The image of a store, where what a restart drops of its servers is empty, is read as a desk with the same store, by a log with its sizes
/// that names its digest. It isn't read only where memory runs out.
pub fn what_was_taken_is_loaded()
    ensures { WhatWasTakenIsLoaded }
{
    images_tell_parts();
    refused_bytes_are_no_image();
}

/// What is read is a desk whose image these bytes are, with the digest that the log names, and of its sizes.
pub fn what_is_loaded_is_the_image()
    ensures { WhatIsLoadedIsTheImage }
{
    a_store_is_read_as_it_is_written();
}
