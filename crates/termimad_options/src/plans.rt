//! What a call does where it is made.

ghost use Rattle.std.specs.Prelude.{◌≡◌};
ghost use Rattle.termimad_options.specs.Plans.{IsPlanOf, columns_of, comes, obeys, says_links, screen_of, skin_of, suiting, way_of};

use crate::calls::{Call, Links};

/// The shade that a terminal says of its background.
#[derive(Clone, Copy, Debug, PartialEq, Eq)]
pub enum Shade {
    /// A dark one.
    Dark,
    /// A light one.
    Light,
    /// It doesn't say.
    Unknown,
}

/// What is known of where a text goes, and what the user has set.
#[derive(Clone, Copy)]
pub struct Surroundings<'a> {
    /// Whether standard output is a terminal.
    pub is_terminal: bool,
    /// Whether TERM says that it obeys no commands.
    pub is_dumb: bool,
    /// Whether it has fewer than 256 colors.
    pub has_few_colors: bool,
    /// Whether NO_COLOR is set.
    pub is_colorless: bool,
    /// The shade of its background.
    pub shade: Shade,
    /// Its columns, if it says them.
    pub columns: Option<u16>,
    /// Its rows, if it says them.
    pub rows: Option<u16>,
    /// The columns that COLUMNS says.
    pub set_columns: Option<u16>,
    /// The skin that TERMIMAD_SKIN says.
    pub skin: Option<&'a str>,
}

/// Where texts go.
#[derive(Clone, Copy, Debug, PartialEq, Eq)]
pub enum Way {
    /// They are written.
    Writes,
    /// They are paged.
    Pages,
    /// Those of more rows than this are paged, and others are written.
    PagesBeyond(u16),
}

/// The screen of a terminal, on which what comes is redrawn in place.
#[derive(Clone, Copy, Debug, PartialEq, Eq)]
pub struct Screen {
    /// Its columns.
    pub columns: u16,
    /// Its rows.
    pub rows: u16,
}

/// What a call does.
#[derive(Clone, Copy)]
pub struct Plan<'a> {
    /// Where texts go.
    pub way: Way,
    /// The columns that they are laid out in.
    pub columns: u16,
    /// Their skin: a name, a file or JSON text.
    pub skin: &'a str,
    /// Whether it is written where links lead.
    pub says_links: bool,
    /// Whether the input is written as it comes.
    pub streams: bool,
    /// The screen that it is shown on as it comes, and redrawn, if it is.
    pub screen: Option<Screen>,
}

/// What a call does where it is made.
pub fn plan_of<'a>(call: &Call<'a>, around: &Surroundings<'a>) -> Plan<'a>
    ensures { IsPlanOf call.now around.now result }
{
    let skin = skin_of(call, around);
    Plan {
        way: way_of(call, around),
        columns: columns_of(call, around),
        skin,
        says_links: says_links(call.links, around, skin),
        streams: comes(call),
        screen: screen_of(call, around),
    }
}

// Whether the input is written as it comes.
fn comes(call: &Call) -> bool
    ensures { result ≡ comes call.now }
{
    call.streams || call.lives
}

// The screen on which what comes is redrawn: that of a terminal which says its size.
fn screen_of(call: &Call, around: &Surroundings) -> Option<Screen>
    ensures { result ≡ screen_of call.now around.now }
{
    if !obeys(around) || !call.lives {
        return None;
    }
    let columns = around.columns?;
    let rows = around.rows?;
    Some(Screen { columns, rows })
}

// Whether standard output is a terminal that obeys commands.
fn obeys(around: &Surroundings) -> bool
    ensures { result ≡ obeys around.now }
{
    around.is_terminal && !around.is_dumb
}

// Where texts go.
fn way_of(call: &Call, around: &Surroundings) -> Way
    ensures { result ≡ way_of call.now around.now }
{
    if !obeys(around) || call.writes || comes(call) {
        Way::Writes
    } else if call.fits {
        Way::PagesBeyond(around.rows.unwrap_or(24))
    } else {
        Way::Pages
    }
}

// The columns that texts are laid out in.
fn columns_of(call: &Call, around: &Surroundings) -> u16
    ensures { result ≡ columns_of call.now around.now }
{
    call.width
        .or(around.columns.or(around.set_columns))
        .unwrap_or(80)
}

// The skin of texts.
fn skin_of<'a>(call: &Call<'a>, around: &Surroundings<'a>) -> &'a str
    ensures { result.now ≡ skin_of call.now around.now }
{
    match call.skin.or(around.skin) {
        Some("auto") => suiting(around),
        Some(name) => name,
        None if obeys(around) && !around.is_colorless => suiting(around),
        None => "none",
    }
}

// The skin that suits a terminal.
fn suiting(around: &Surroundings) -> &'static str
    ensures { result.now ≡ suiting around.now }
{
    if around.has_few_colors {
        return "sixteen";
    }
    match around.shade {
        Shade::Light => "light",
        Shade::Dark | Shade::Unknown => "dark",
    }
}

// Whether it is written where links lead; it isn't where there is no style.
fn says_links(links: Links, around: &Surroundings, skin: &str) -> bool
    ensures { result ≡ says_links links around.now skin.now }
{
    match links {
        Links::Always => skin != "none",
        Links::Never => false,
        Links::Auto => obeys(around) && skin != "none",
    }
}
