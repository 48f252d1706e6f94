//! Whether two editors are the same.

ghost use Rattle.std.specs.Prelude.{◌≡◌, ◌↔◌, IsTrue};
ghost use Rattle.std.proofs.Common.{rules};
ghost use Rattle.std.specs.Cmp.Rules.{comparing};
ghost use Rattle.mad_edit.specs.Editor.{same_editor};

use crate::content::InputFieldContent;

impl PartialEq for InputFieldContent {
    ghost eq = { same_editor };

    ghost laws = { Prim.search (comparing, rules) };

    /// Whether both have the same text, the same cursor and the same tail.
    fn eq(&self, other: &InputFieldContent) -> bool
        ensures eq { result ≡ same_editor self.now other.now }
        ensures same { IsTrue result ↔ (self.now ≡ other.now) }
    {
        self.lines == other.lines
            && self.pos == other.pos
            && self.selection_tail == other.selection_tail
    }
}

impl Eq for InputFieldContent {
    ghost laws = { Prim.search (comparing, rules) };
}
