//! How large flash is, where the image ends, which pages are the code pool's, and how many entries the map of one has.

/// The words of flash.
pub const WORDS: usize = 65536;

/// The pages of flash.
pub const PAGES: usize = 512;

/// The words of a page.
pub const PAGE_WORDS: u16 = 128;

/// An erased word.
pub const BLANK: u16 = 0xFFFF;

/// The first word of the kernel's pages, where its entries begin.
pub const KERNEL_FIRST: u16 = 0xF000;

/// The most pages of an image: the pool begins behind them at the latest.
pub const MOST_IMAGE_PAGES: u16 = 192;

/// The most words of an image.
pub const MOST_IMAGE_WORDS: u16 = PAGE_WORDS * MOST_IMAGE_PAGES;

/// Where in a page of the code pool its map's entries begin.
pub const FIRST_ENTRY: u16 = 2;

/// The most entries of a map.
pub const MOST_ENTRIES: u16 = PAGE_WORDS - FIRST_ENTRY;

/// Which part of flash is the image and which is the code pool. The pages from 480 on are the
/// kernel's.
#[derive(Clone, Copy)]
pub struct Layout {
    /// The image's length in words; it begins at word 0.
    pub image_words: u16,
    /// The first page of the code pool.
    pub pool_first: u16,
    /// The number of the pool's pages.
    pub pool_pages: u16,
}

impl Layout {
    ghost use Rattle.std.specs.Prelude.{◌≡◌, ◌≤◌};
    ghost use Rattle.flash_words.specs.Layouts.{IsRight, layout_of, most_image_words};

    /// The layout for an image of this many words: the pool is pages 128 to 479, or 192 to 479 for an image
    /// that goes beyond page 127.
    pub fn of(image_words: u16) -> Layout
        requires { image_words ≤ most_image_words }
        ensures right { IsRight result }
        ensures value { result ≡ layout_of image_words }
    {
        if image_words <= 16384 {
            Layout {
                image_words,
                pool_first: 128,
                pool_pages: 352,
            }
        } else {
            Layout {
                image_words,
                pool_first: MOST_IMAGE_PAGES,
                pool_pages: 288,
            }
        }
    }
}
