use cg_image::write_image;
use cg_image_read::{ImageError, read_image};

/// An image, written down from the format: a global of type int with the value 7, a function that only returns, and the
/// site of an allocation in it.
#[rattlefmt::skip]
pub(crate) const IMAGE: [u8; 156] = [
    // 0: magic and version
    0x4c, 0x55, 0x49, 0x4d, 1, 0, 0, 0,
    // 8: names `x`, `main` and `s`, at 12, 17 and 25
    3, 0, 0, 0, 1, 0, 0, 0, b'x', 4, 0, 0, 0, b'm', b'a', b'i', b'n', 1, 0, 0, 0, b's',
    // 30: types int at 34, struct 0 at 36, function 0 at 41, and two of type 0 at 46
    4, 0, 0, 0, 0, 4, 4, 0, 0, 0, 0, 3, 0, 0, 0, 0, 6, 0, 0, 0, 0, 2, 0, 0, 0,
    // 55: a struct at 59, of the name 2 with one field, of the name 0 and the type 0
    1, 0, 0, 0, 2, 0, 0, 0, 1, 0, 0, 0, 0, 0, 0, 0, 0, 0, 0, 0,
    // 75: no union
    0, 0, 0, 0,
    // 79: a signature at 83, with no result and no parameter
    1, 0, 0, 0, 0, 0, 0, 0, 0, 0, 0, 0,
    // 91: a global at 95, of the name 0 and the type 0, with 4 bytes
    1, 0, 0, 0, 0, 0, 0, 0, 0, 0, 0, 0, 4, 0, 0, 0, 7, 0, 0, 0,
    // 111: a function at 115, of the name 1 and the signature 0, with no local, height 1 and the code `Return`
    1, 0, 0, 0, 1, 0, 0, 0, 0, 0, 0, 0, 0, 0, 0, 0, 1, 0, 0, 0, 1, 0, 0, 0, 41,
    // 136: a site at 140, the first of function 0, of elements of the type 0
    1, 0, 0, 0, 0, 0, 0, 0, 0, 0, 0, 0, 0, 0, 0, 0,
    // 152: no hidden function
    0, 0, 0, 0,
];

#[test]
fn reads_an_image(rt: HostRuntime) -> Result<(), ImageError> {
    let code = read_image(rt.alloc(), &IMAGE)?;
    assert_eq!(&rt; code.names.as_slice().len(), 3);
    assert_eq!(&rt; code.types.pointer(), 4);
    assert_eq!(&rt; code.functions.as_slice().len(), 1);
    assert_eq!(&rt; code.globals.as_slice().len(), 1);
    assert_eq!(&rt; code.sites.as_slice().len(), 1);
    assert_eq!(&rt; code.filters, 0);
    Ok(())
}

#[test]
fn writes_what_it_read(rt: HostRuntime) -> Result<(), ImageError> {
    let alloc = rt.alloc();
    let code = read_image(alloc, &IMAGE)?;
    let image = write_image(alloc, &code)?;
    assert!(&rt; image.as_slice() == IMAGE.as_slice());
    Ok(())
}
