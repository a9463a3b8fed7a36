//! The layouts of a text.

ghost use Rattle.std.specs.Prelude.{◌≡◌};
ghost use Rattle.cert_text.specs.Certificates.{width_of};

/// How wide the numbers of segments and intervals may be.
#[derive(Clone, Copy)]
pub(crate) enum Width {
    /// 127 bits, in any number text.
    Narrow,
    /// Any size, in digits and a stroke alone.
    Long,
}

/// How the segments are written.
#[derive(Clone, Copy)]
pub(crate) enum Layout {
    /// Each in full, in version 1.
    Full,
    /// The first in full, and of each later one what changes from the one before it, in version 2.
    Chained,
    /// In either way, with numbers of any size, in version 3.
    Wide,
}

impl Layout {
    /// How wide its numbers may be.
    pub(crate) fn width(self) -> Width
        ensures { result ≡ width_of self }
    {
        match self {
            Layout::Full => Width::Narrow,
            Layout::Chained => Width::Narrow,
            Layout::Wide => Width::Long,
        }
    }
}
