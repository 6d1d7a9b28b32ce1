use crate::images::IMAGE;
use cg_image_read::{ImageError, read_image};
use std::alloc::Global;

/// Why bytes are no image.
fn refusal(alloc: Global, bytes: &[u8]) -> Option<ImageError> {
    match read_image(alloc, bytes) {
        Ok(_) => None,
        Err(e) => Some(e),
    }
}

/// Why the image with other bytes at some places is none.
fn refusal_with(alloc: Global, changes: &[(usize, u8)]) -> Option<ImageError> {
    let mut bytes = IMAGE;
    for (place, byte) in changes {
        if *place < bytes.len() {
            bytes[*place] = *byte;
        }
    }
    refusal(alloc, &bytes)
}

#[test]
fn each_front_is_cut_off(rt: HostRuntime) -> Result<(), ImageError> {
    let alloc = rt.alloc();
    for count in 0..IMAGE.len() {
        assert_eq!(&rt;
            refusal(alloc, &IMAGE[..count]),
            Some(ImageError::Truncated)
        );
    }
    Ok(())
}

#[test]
fn tells_the_first_fault(rt: HostRuntime) -> Result<(), ImageError> {
    let alloc = rt.alloc();
    assert_eq!(&rt; refusal(alloc, b"LUI"), Some(ImageError::Truncated));
    assert_eq!(&rt; refusal(alloc, b"XUIM"), Some(ImageError::Magic));
    assert_eq!(&rt;
        refusal(alloc, b"LUIM\x02\0\0\0"),
        Some(ImageError::Version)
    );
    // 4,294,967,295 names, and three bytes
    assert_eq!(&rt;
        refusal(alloc, b"LUIM\x01\0\0\0\xff\xff\xff\xff\x01\0\0"),
        Some(ImageError::Truncated)
    );
    let mut longer = [0; 157];
    longer[..156].copy_from_slice(&IMAGE);
    assert_eq!(&rt; refusal(alloc, &longer), Some(ImageError::Extra));
    Ok(())
}

#[test]
fn tells_the_item(rt: HostRuntime) -> Result<(), ImageError> {
    let alloc = rt.alloc();
    let faults = [
        // no identifier, and a name twice
        (16, b'1', 12),
        (29, b'x', 25),
        // a tag, a kind, an element
        (34, 7, 34),
        (35, 8, 34),
        (47, 4, 46),
        // entries of later lists
        (37, 1, 36),
        (42, 1, 41),
        // an array of no elements: no table
        (51, 0, 30),
        // a struct, its field, a signature
        (59, 3, 59),
        (67, 3, 59),
        (71, 4, 59),
        (83, 5, 83),
        // a global's name, type and number of bytes
        (95, 3, 95),
        (99, 4, 95),
        (103, 3, 95),
        // a function's name, signature and code
        (115, 4, 115),
        (119, 1, 115),
        (135, 0, 115),
        // a site's function and type, and hidden functions
        (140, 1, 140),
        (148, 4, 140),
        (152, 2, 152),
    ];
    for (place, byte, at) in faults {
        assert_eq!(&rt;
            refusal_with(alloc, &[(place, byte)]),
            Some(ImageError::Table { at })
        );
    }
    // 257 locals, and the height 4,097
    for place in [124, 128] {
        assert_eq!(&rt;
            refusal_with(
                alloc,
                &[(place - 1, 1), (place, if place == 124 { 1 } else { 16 })]
            ),
            Some(ImageError::Table { at: 115 })
        );
    }
    Ok(())
}

#[test]
fn tries_entries_of_later_lists_when_their_number_is_read(
    rt: HostRuntime,
) -> Result<(), ImageError> {
    let alloc = rt.alloc();
    let mut bytes = IMAGE;
    bytes[37] = 1;
    assert_eq!(&rt; refusal(alloc, &bytes[..58]), Some(ImageError::Truncated));
    assert_eq!(&rt;
        refusal(alloc, &bytes[..59]),
        Some(ImageError::Table { at: 36 })
    );
    // the wrong signature's number is tried after the wrong field
    assert_eq!(&rt;
        refusal_with(alloc, &[(42, 1), (71, 4)]),
        Some(ImageError::Table { at: 59 })
    );
    Ok(())
}
