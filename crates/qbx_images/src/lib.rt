// An image's file read into a buffer, and a part of an image.
#![tactic(auto)]

ghost use Rattle.std.specs.Prelude.{◌≡◌, ◌≤◌, length, take, drop, IfSome};
ghost use Rattle.qbx_images.specs.Images.{made, factory};

use qbx_system::{ENOENT, System};

// The file in the first bytes of the buffer: how many, and how many the file has.
#[derive(Clone, Copy)]
pub struct ImageFile {
    pub count: usize,
    pub there: u64,
}

// Has an image's file in the buffer: the file's own bytes, or a chip from the factory of so many bytes where there is no file
// and one may be made. Where it cannot be had, the system's reason stays to be told.
pub fn present(
    system: &mut System,
    image: &mut [u8],
    path: &[u8],
    size: usize,
    makes: bool,
) -> Option<ImageFile>
    requires { size ≤ length image.old }
    ensures { IfSome result (λ file. file.count ≤ length image.new) }
{
    let Some(mut file) = system.open_read(path) else {
        let is_missing = system.reason() == ENOENT;
        return absent(image, size, makes && is_missing);
    };
    let count = qbx_files::fill(system, &mut file, image).ok()?;
    let there = qbx_files::length_of(&mut file, count);
    Some(ImageFile { count, there })
}

// The file could not be opened; where it may be made, the chip is as it left the factory.
fn absent(image: &mut [u8], size: usize, makes: bool) -> Option<ImageFile>
    requires { size ≤ length image.old }
    ensures { (result ≡ made makes size) × (image.new ≡ factory makes size image.old) }
{
    if !makes {
        return None;
    }
    image[..size].fill(255);
    Some(ImageFile {
        count: size,
        there: 0,
    })
}

// A part of an image, as far as the image goes.
pub fn piece(image: &[u8], at: usize, count: usize) -> &[u8]
    ensures { result.now ≡ take count (drop at image.now) }
{
    if image.len() < at {
        return &image[0..0];
    }
    if image.len() - at < count {
        return &image[at..];
    }
    let end = at + count;
    &image[at..end]
}
