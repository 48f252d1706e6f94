//! Files that are read on while they grow.

use mad_term::{Source, Stream};
use std::{fs, io};
use termimad_given::Folder;

/// Where files are that grow, by their names. Nothing is known of what they hold.
pub(crate) trait Growing {
    /// A file, from its start on. At its end it may have more later.
    type File: Source + Drop;

    /// The file of a name.
    ///
    /// # Errors
    ///
    /// It can't be opened.
    fn open(&self, name: &str) -> io::Result<Self::File>;
}

impl Growing for Folder<'_> {
    type File = Stream<fs::File>;

    fn open(&self, name: &str) -> io::Result<Self::File> {
        let file = fs::File::open(self.rt, name)?;
        Ok(Stream::new(file))
    }
}
