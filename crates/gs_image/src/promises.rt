// What the definitions promise, of each image.
ghost use Rattle.gs_image.specs.Promises.{ImagesTellParts, RefusedBytesAreNoImage, WhatWasWrittenIsRead};

/// Two images with the same bytes have the same parts.
pub fn images_tell_parts()
    ensures { ImagesTellParts }
{}

/// What is read of what was written is the same, unless memory runs out.
pub fn what_was_written_is_read()
    ensures { WhatWasWrittenIsRead }
{}

/// Bytes that are refused are the image of no parts, unless memory ran out.
pub fn refused_bytes_are_no_image()
    ensures { RefusedBytesAreNoImage }
{}
