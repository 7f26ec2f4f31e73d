// When an image is taken.
ghost use Rattle.std.specs.Prelude.{◌≡◌};
ghost use Rattle.gs_keep_image.specs.Due.{is_due};

/// No image is taken of a log that has grown by fewer bytes.
const LEAST_BYTES: u64 = 1_048_576;

/// Whether a log is so long behind its first line that an image is taken of it: some times as long as the image that it begins from, and a
/// mebibyte at least. A log that begins from none has one of 0 bytes. With 0 times no image is taken.
pub fn is_due(times: u64, grown: u64, image: u64) -> bool
    ensures { result ≡ is_due times grown image }
{
    if times == 0 || grown < LEAST_BYTES {
        return false;
    }
    match times.checked_mul(image) {
        Some(least) => least <= grown,
        None => false,
    }
}
