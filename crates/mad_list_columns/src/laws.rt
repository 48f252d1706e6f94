//! What a screen shows of a list, as laws: functions that do nothing and state them.

ghost use Rattle.mad_list_columns.specs.Places.{PlacesAreFilled};
ghost use Rattle.mad_list_columns.specs.Shown.{ListsAreShown};

/// A list that fits its area is shown there: its titles, its rule, its rows and its bar. Other cells change only right of the area, in body rows
/// past the last shown row. These become blanks in the plain pen. The pen is plain again.
pub fn lists_are_shown<T, E, F, O>()
    ensures { ListsAreShown T E F O }
{}

/// A text that is counted by its columns fills its place exactly, whatever it is.
pub fn places_are_filled()
    ensures { PlacesAreFilled }
{}
