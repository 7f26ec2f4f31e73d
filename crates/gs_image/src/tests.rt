// Images as another program writes them.
use crate::{ImageFault, ImageWriter, read};
use std::alloc::{AllocError, Global};
use std::test::Fail;

// The image of an empty part and of the text `ab`, as another program makes it.
const TWO_PARTS: [u8; 141] = [
    b'c', b'h', b'u', b'n', b'k', b's', b't', b'o', b'r', b'e', b' ', b'i', b'm', b'a', b'g', b'e',
    b' ', b'1', b'\n', 0, 0, 0, 0, 0, 0, 0, 2, //
    0, 0, 0, 0, 0, 0, 0, 0, //
    227, 176, 196, 66, 152, 252, 28, 20, 154, 251, 244, 200, 153, 111, 185, 36, 39, 174, 65, 228,
    100, 155, 147, 76, 164, 149, 153, 27, 120, 82, 184, 85, //
    0, 0, 0, 0, 0, 0, 0, 2, b'a', b'b', //
    251, 142, 32, 252, 46, 76, 63, 36, 140, 96, 195, 155, 214, 82, 243, 193, 52, 114, 152, 187,
    151, 123, 139, 77, 89, 3, 184, 80, 85, 98, 6, 3, //
    25, 251, 0, 18, 180, 215, 5, 112, 137, 70, 27, 166, 99, 191, 163, 74, 19, 235, 45, 218, 42,
    136, 55, 182, 97, 171, 250, 151, 48, 171, 138, 65,
];

fn written(alloc: Global) -> Result<Vec<u8>, AllocError> {
    let writer = ImageWriter::new(alloc)?;
    let writer = writer.with(b"")?;
    let writer = writer.with(b"ab")?;
    writer.finish()
}

// Why the image isn't read with other bytes from a place on.
fn refused(alloc: Global, at: usize, bytes: &[u8]) -> Result<Option<ImageFault>, AllocError> {
    let mut image = Vec::new(alloc);
    image.extend_from_slice(&TWO_PARTS[..at.min(141)])?;
    image.extend_from_slice(bytes)?;
    match read(alloc, &image) {
        Ok(_parts) => Ok(None),
        Err(fault) => Ok(Some(fault)),
    }
}

#[test]
fn an_image_is_as_another_program_makes_it(rt: HostRuntime) -> Result<(), Fail> {
    let image = written(rt.alloc())?;
    assert!(rt; image.as_slice() == TWO_PARTS.as_slice());
    Ok(())
}

#[test]
fn it_is_read_as_its_parts(rt: HostRuntime) -> Result<(), Fail> {
    match read(rt.alloc(), &TWO_PARTS) {
        Ok(parts) => {
            assert!(rt; parts.len() == 2);
            assert!(rt; parts[0].is_empty());
            assert!(rt; parts[1] == b"ab".as_slice());
        }
        Err(_) => assert!(rt; false),
    }
    Ok(())
}

#[test]
fn each_fault_is_told(rt: HostRuntime) -> Result<(), Fail> {
    let alloc = rt.alloc();
    let rows: [(usize, &[u8], Option<ImageFault>); 10] = [
        (141, b"", None),
        (26, b"", Some(ImageFault::ShortFront)),
        (0, &TWO_PARTS[1..], Some(ImageFault::Magic)),
        (17, &TWO_PARTS[16..], Some(ImageFault::Version)),
        (66, b"", Some(ImageFault::PartLength(0))),
        (76, b"", Some(ImageFault::PartLength(1))),
        (
            75,
            b"abcdefghijklmnopqrstuvwxyz0123456789",
            Some(ImageFault::PartDigest(1)),
        ),
        (140, b"", Some(ImageFault::ShortEnd)),
        (140, b"0", Some(ImageFault::Digest)),
        (141, b"0", Some(ImageFault::Behind)),
    ];
    for (at, bytes, fault) in rows {
        assert!(rt; refused(alloc, at, bytes)? == fault, "at {at}");
    }
    Ok(())
}
