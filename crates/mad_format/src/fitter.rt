//! Fitting a composite to a width, with an ellipsis in place of what goes.

ghost use Rattle.std.specs.Prelude.{◌≡◌, ◌<◌, ◌≤◌, IsOk, OnOk, OnErr};
ghost use Rattle.mad_md.specs.declared.alignment.Alignment.TheVariants.{Unspecified};

use crate::composite::FmtComposite;
use crate::indents::indent_of;
use crate::line_skin::LineSkin;
use mad_fitting::fit_compounds;
use mad_md::Alignment;
use std::alloc::AllocError;

/// Fits composites to a width by an alignment: what goes is at the end of those that are aligned left, in front of those that are
/// aligned right, at both ends of centered ones.
///
/// Without alignment it is in the middle of the widest words first, then of the widest compounds, and only then at the end.
#[derive(Clone, Copy, Debug)]
pub struct Fitter {
    align: Alignment,
}

impl Fitter {
    ghost use Rattle.mad_format.specs.Fitting.{IsCompositeFitted, IsCompositeReplaced};
    ghost use Rattle.mad_format.specs.Wraps.{IsMeasured};

    /// The fitter of an alignment.
    pub fn for_align(align: Alignment) -> Self
        ensures { result ≡ record { align = align } }
    {
        Fitter { align }
    }

    /// Fits the composite to a width, by its cached length. One that fits stays as it is.
    ///
    /// # Errors
    ///
    /// Out of memory is the only error, and the composite is as it was then.
    pub fn fit<S: LineSkin>(
        self,
        composite: &mut FmtComposite,
        max_width: usize,
        skin: &S,
    ) -> Result<(), AllocError>
        ensures fits { composite.old.visible_length ≤ max_width → IsOk result × (composite.new ≡ composite.old) }
        ensures fitted { max_width < composite.old.visible_length → IsMeasured (S.rules skin.now) composite.old
            → OnOk result (IsCompositeFitted (S.rules skin.now) self.align max_width composite.old composite.new) }

        // How that is, exactly, at each width but 0 and 1.
        ensures replaced { 2 ≤ max_width → max_width < composite.old.visible_length → IsMeasured (S.rules skin.now) composite.old
            → OnOk result (IsCompositeReplaced (S.rules skin.now) self.align max_width composite.old composite.new) }
        ensures measured { max_width < composite.old.visible_length → OnOk result (IsMeasured (S.rules skin.now) composite.new) }
        ensures kind { composite.new.kind ≡ composite.old.kind }
        ensures spacing { composite.new.spacing ≡ composite.old.spacing }
        ensures margins { composite.new.margins ≡ composite.old.margins }
        ensures err { OnErr result (composite.new ≡ composite.old) }
    {
        if composite.visible_length <= max_width {
            return Ok(());
        }
        let indent = indent_of(composite.kind, skin.items_indentation());
        let alloc = *composite.compounds.allocator();
        let fitted = fit_compounds(alloc, &composite.compounds, indent, max_width, self.align)?;
        composite.compounds = fitted;
        composite.recompute_width(skin);
        Ok(())
    }
}

impl Default for Fitter {
    ghost is_default = { λ fitter. fitter ≡ record { align = Unspecified } };

    /// The fitter that cuts in the middle, as without alignment.
    fn default() -> Self {
        Self::for_align(Alignment::Unspecified)
    }
}
