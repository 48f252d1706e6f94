//! Numbers of items, counted in their lists, and gutters of containers.

ghost use Rattle.std.specs.Prelude.{◌≡◌, take};
ghost use Rattle.markdown_gutters.specs.Lists.{no_list, last_list, number_in, list_after, is_number, item_gutter, is_item, up_to_bar, last_gutter};

use mad_sections::Gutter;

/// A list whose last item began: its sign, and the number of its next item. There is none where the sign is 0.
#[derive(Debug, Clone, Copy, PartialEq, Eq)]
pub struct Counted {
    pub sign: u8,
    pub next: u32,
}

/// No list, or one that has ended.
pub fn no_list() -> Counted
    ensures { result ≡ no_list }
{
    Counted { sign: 0, next: 0 }
}

/// The list in the innermost open container.
pub fn last_list(lists: &[Counted]) -> Counted
    ensures { result ≡ last_list lists.now }
{
    match lists {
        [.., list] => *list,
        [] => no_list(),
    }
}

/// The number of an item: the next one of its list, or the one that it has, if it begins a list.
pub fn number_in(list: Counted, sign: u8, number: u32) -> u32
    ensures { result ≡ number_in list sign number }
{
    if list.sign == sign { list.next } else { number }
}

/// A list after an item.
pub fn list_after(sign: u8, number: u32) -> Counted
    ensures { result ≡ list_after sign number }
{
    Counted {
        sign,
        next: number.saturating_add(1),
    }
}

fn is_number(sign: u8) -> bool
    ensures { result ≡ is_number sign }
{
    sign == b'.' || sign == b')'
}

/// The gutter of an item.
pub fn item_gutter(sign: u8, number: u32) -> Gutter
    ensures { result ≡ item_gutter sign number }
{
    if is_number(sign) {
        Gutter::Number(number)
    } else {
        Gutter::Bullet
    }
}

/// Whether it is an item's.
pub fn is_item(gutter: Gutter) -> bool
    ensures { result ≡ is_item gutter }
{
    match gutter {
        Gutter::Bar | Gutter::AlertBar(_) | Gutter::Code | Gutter::Signs(_) | Gutter::Below(_) =>
            false,
        Gutter::Bullet | Gutter::Number(_) | Gutter::Task(_) => true,
    }
}

/// Without the items behind the last bar.
pub fn up_to_bar(gutters: &[Gutter]) -> &[Gutter]
    ensures { result.now ≡ up_to_bar gutters.entry.now }
{
    let mut len = gutters.len();
    while len > 0 && is_item(gutters[len - 1]) {
        len -= 1;
    }
    &gutters[..len]
}

/// The first so many gutters.
pub fn first_gutters(gutters: &[Gutter], count: usize) -> &[Gutter]
    ensures { result.now ≡ take count gutters.entry.now }
{
    if count < gutters.len() {
        &gutters[..count]
    } else {
        gutters
    }
}

/// The last gutter, if there is one.
pub fn last_gutter(gutters: &[Gutter]) -> Option<Gutter>
    ensures { result ≡ last_gutter gutters.now }
{
    match gutters {
        [.., gutter] => Some(*gutter),
        [] => None,
    }
}
