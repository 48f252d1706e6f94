//! Which columns a title goes over.

ghost use Rattle.std.specs.Prelude.{◌≡◌, ◌∷◌, ◌<◌, ◌≤◌, drop, length, string_bytes, take};
ghost use Rattle.mad_list_columns.specs.Drawing.{title_over, titles};
ghost use Rattle.mad_list_columns.specs.Titles.{BeginsAnother, HaveTitle};

use crate::columns::ListViewColumn;

/// The columns below the first title, and the others. There is one at least.
pub(crate) fn split_title<E>(
    columns: &[ListViewColumn<E>],
) -> (&[ListViewColumn<E>], &[ListViewColumn<E>])
    requires { 0 < length columns.now }
    ensures titles { titles columns.entry.now ≡ title_over result.0.now ∷ titles result.1.now }
    ensures some { 0 < length result.0.now }
    ensures shorter { length result.1.now < length columns.entry.now }
{
    let others = count_alike(&columns[0], &columns[1..]);
    columns.split_at(1 + others)
}

// How many columns at the front have the title of the one before them.
fn count_alike<E>(first: &ListViewColumn<E>, others: &[ListViewColumn<E>]) -> usize
    ensures within { result ≤ length others.now }
    ensures alike { HaveTitle (string_bytes first.now.title) (take result others.now) }
    ensures next { BeginsAnother (string_bytes first.now.title) (drop result others.now) }
{
    for (i, column) in others.iter().enumerate() {
        if column.title != first.title {
            return i;
        }
    }
    others.len()
}
