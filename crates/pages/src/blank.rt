//! Values one of which stands for none.
ghost use Rattle.std.specs.Prelude.{◌≡◌, ◌↔◌, None, IsTrue};

/// A value of a place, one of which stands for none.
pub trait Blank: Drop {
    ghost blank: { Self };

    /// The value that stands for none.
    fn blank() -> Self
        ensures { result ≡ blank };

    /// Whether it stands for none.
    fn is_blank(&self) -> bool
        ensures { IsTrue result ↔ (self.now ≡ blank) };
}

impl<T: Drop> Blank for Option<T> {
    ghost blank = { None };

    fn blank() -> Self {
        None
    }

    fn is_blank(&self) -> bool {
        self.is_none()
    }
}
