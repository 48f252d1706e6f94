//! The keys that scroll views.

ghost use Rattle.std.specs.Prelude.{◌≡◌};
ghost use Rattle.mad_view.specs.ViewKeys.{is_scroll_key};

use mad_term::{KeyCode, KeyCombination, KeyModifiers};

/// Whether a key scrolls a view: an arrow up or down or a page key, without modifiers.
pub(crate) fn is_scroll_key(key: KeyCombination) -> bool
    ensures { result ≡ is_scroll_key key.code key.modifiers }
{
    key.modifiers == KeyModifiers::NONE
        && matches!(
            key.code,
            KeyCode::Up | KeyCode::Down | KeyCode::PageUp | KeyCode::PageDown
        )
}
