// Sizes and words of images, by example.
use crate::layout::refused;
use image::{check, load};
use std::test::Fail;

#[test]
fn sizes(rt: HostRuntime) -> Result<(), Fail> {
    // bytes, frames counted, number and place of the refusal, frames lent
    for (size, count, expected, frames) in [
        (0usize, 0u8, Some((11u8, 0usize)), 0usize),
        (1, 0, Some((11, 0)), 0),
        (2, 0, None, 0),
        (3, 0, Some((12, 2)), 0),
        (2, 1, Some((11, 0)), 0),
        (4097, 1, Some((11, 0)), 0),
        (4098, 1, None, 1),
        (4099, 1, Some((12, 4098)), 1),
        (8193, 2, Some((11, 0)), 1),
        (8194, 1, Some((12, 4098)), 1),
    ] {
        let mut image = vec![in rt.alloc(); 0u8; size]?;
        if let Some(first) = image.get_mut(0) {
            *first = count;
        }
        assert_eq!(rt; refused(check(&image)), expected);
        assert_eq!(rt; load(rt.alloc(), &image)?.len() / 1024, frames);
    }
    Ok(())
}

#[test]
fn words_are_the_bytes(rt: HostRuntime) -> Result<(), Fail> {
    let mut image = vec![in rt.alloc(); 0u8; 4098]?;
    image[0] = 1;
    image[2] = 0x13;
    image[3] = 0x01;
    image[4] = 0x50;
    image[4097] = 0x80;
    let words = load(rt.alloc(), &image)?;
    assert!(rt; words.len() == 1024);
    assert_eq!(rt; words[0], 0x0050_0113);
    assert_eq!(rt; words[1], 0);
    assert_eq!(rt; words[1023], 0x8000_0000);
    Ok(())
}
