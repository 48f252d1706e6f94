//! Laws, each the contract of a small function: what the per cent of a page says.

ghost use Rattle.mad_page.specs.PageLaws.{ReachesPercent};

/// A page that goes to a per cent tells that per cent or more, and would tell less with any row further up on top.
pub fn per_cent_is_reached()
    ensures { ReachesPercent }
{}
