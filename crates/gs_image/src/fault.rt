// Why bytes are no image.
ghost use Rattle.std.specs.Prelude.{◌≡◌};
ghost use Rattle.gs_image.specs.declared.fault.ImageFault.TheVariants.{Memory};

use std::alloc::AllocFailed;
use thiserror::Error;

/// Why bytes aren't read as an image. Parts are counted from 0.
#[derive(Clone, Copy, Debug, PartialEq, Eq, Error)]
pub enum ImageFault {
    #[error("memory is lacking to read the image")]
    Memory,
    /// The bytes end before the number of parts does.
    #[error("it ends before the number of its parts")]
    ShortFront,
    #[error("it is no image of a store")]
    Magic,
    #[error("it is an image of another version")]
    Version,
    /// The bytes end before a part does, by its length.
    #[error("it ends before its part {0} does")]
    PartLength(u64),
    #[error("its part {0} has another digest")]
    PartDigest(u64),
    /// The bytes end before the last digest does.
    #[error("it ends before its last digest does")]
    ShortEnd,
    #[error("it has another digest")]
    Digest,
    #[error("bytes stand after its end")]
    Behind,
}

impl<T: Drop> From<AllocFailed<T>> for ImageFault {
    ghost from_gives = { λ _ e. e ≡ Memory };

    fn from(_error: AllocFailed<T>) -> ImageFault {
        ImageFault::Memory
    }
}
