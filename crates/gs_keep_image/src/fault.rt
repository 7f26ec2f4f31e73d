// Why no store is read of an image.
use gs_image::ImageFault;
use thiserror::Error;

/// Why no store is read of an image, with the text for standard error, behind the file's name.
#[derive(Clone, Copy, Debug, PartialEq, Eq, Error)]
pub enum LoadFault {
    #[error("memory is lacking to read it")]
    Memory,
    /// The bytes are no image.
    #[error("{0}")]
    Frame(ImageFault),
    /// They are an image with another digest than the log names.
    #[error("it is another image than the log names")]
    Other,
    /// They are an image of no store.
    #[error("its parts are those of no store")]
    Form,
    /// They are an image of a store of other sizes than the log has.
    #[error("it is the image of a store of other sizes than the log's")]
    Sizes,
}
