ghost use Rattle.std.specs.Prelude.{◌≤◌, length};

// The site text and the library text, neither of which is too long to be read.
#[derive(Clone, Copy)]
pub struct Texts<'a> {
    pub(crate) site: &'a [u8],
    pub(crate) library: &'a [u8],
    ghost short_site: { length site.now ≤ 65536 },
    ghost short_library: { length library.now ≤ 65536 },
}
