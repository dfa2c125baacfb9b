//! What is planned for the boot menu.
use switch_names::{Bytes, Listed, Path};

/// A file that is put for the boot loader.
pub struct BootFile {
    /// Its place.
    pub at: Path,
    /// Its text.
    pub bytes: Bytes,
}

/// One call: a derived drop is proved anew in each function that lets one go.
impl Drop for BootFile {
    fn drop(self) {
        let BootFile { at: _, bytes: _ } = self;
    }
}

/// What is planned for the boot menu.
pub struct BootTexts {
    /// The entries that go, in byte order.
    pub gone: Listed<Path>,
    /// The entries that are put, by ascending number.
    pub entries: Listed<BootFile>,
    /// The text of `loader.conf`, where a generation is the current one.
    pub loader: Option<Bytes>,
}

/// One call: a derived drop is proved anew in each function that lets one go.
impl Drop for BootTexts {
    fn drop(self) {
        let BootTexts {
            gone: _,
            entries: _,
            loader: _,
        } = self;
    }
}
