//! Files as texts that have names.

use crate::texts::Texts;
use std::alloc::Global;
use std::{fs, io};

/// The files that the system has. Nothing is known of what they hold.
#[derive(Clone, Copy)]
pub struct Folder<'r> {
    /// What reads them.
    pub rt: &'r HostRuntime,
}

impl Texts for Folder<'_> {
    ghost use Rattle.termimad_given.specs.Given.{files};

    ghost holds = { λ _. files };

    fn read(&self, _alloc: Global, name: &str) -> io::Result<Vec<u8>> {
        fs::read(self.rt, name)
    }
}
