//! The attributes of a text on a terminal, and the name and the code of each.

ghost use Rattle.std.specs.Prelude.{◌≡◌};
ghost use Rattle.mad_term.specs.Attribute.{attribute_index, attribute_name, attribute_code};

/// How a text looks, apart from its colors.
#[derive(Clone, Copy, Debug, PartialEq, Eq)]
pub enum Attribute {
    Reset,
    Bold,
    Dim,
    Italic,
    Underlined,
    SlowBlink,
    RapidBlink,
    Reverse,
    Hidden,
    CrossedOut,
    Fraktur,
    NoBold,
    NormalIntensity,
    NoItalic,
    NoUnderline,
    NoBlink,
    NoReverse,
    NoHidden,
    NotCrossedOut,
    Framed,
    Encircled,
    OverLined,
    NotFramedOrEncircled,
    NotOverLined,
}

impl Attribute {
    /// All attributes, in the order in which a style's are written.
    pub const ALL: [Attribute; 24] = [
        Attribute::Reset,
        Attribute::Bold,
        Attribute::Dim,
        Attribute::Italic,
        Attribute::Underlined,
        Attribute::SlowBlink,
        Attribute::RapidBlink,
        Attribute::Reverse,
        Attribute::Hidden,
        Attribute::CrossedOut,
        Attribute::Fraktur,
        Attribute::NoBold,
        Attribute::NormalIntensity,
        Attribute::NoItalic,
        Attribute::NoUnderline,
        Attribute::NoBlink,
        Attribute::NoReverse,
        Attribute::NoHidden,
        Attribute::NotCrossedOut,
        Attribute::Framed,
        Attribute::Encircled,
        Attribute::OverLined,
        Attribute::NotFramedOrEncircled,
        Attribute::NotOverLined,
    ];

    /// Its index in `ALL`.
    pub(crate) fn index(self) -> u32
        ensures { result ≡ attribute_index self }
    {
        self as u32
    }

    /// Its name.
    pub fn name(self) -> &'static str
        ensures { result.now ≡ attribute_name self }
    {
        match self {
            Attribute::Reset => "Reset",
            Attribute::Bold => "Bold",
            Attribute::Dim => "Dim",
            Attribute::Italic => "Italic",
            Attribute::Underlined => "Underlined",
            Attribute::SlowBlink => "SlowBlink",
            Attribute::RapidBlink => "RapidBlink",
            Attribute::Reverse => "Reverse",
            Attribute::Hidden => "Hidden",
            Attribute::CrossedOut => "CrossedOut",
            Attribute::Fraktur => "Fraktur",
            Attribute::NoBold => "NoBold",
            Attribute::NormalIntensity => "NormalIntensity",
            Attribute::NoItalic => "NoItalic",
            Attribute::NoUnderline => "NoUnderline",
            Attribute::NoBlink => "NoBlink",
            Attribute::NoReverse => "NoReverse",
            Attribute::NoHidden => "NoHidden",
            Attribute::NotCrossedOut => "NotCrossedOut",
            Attribute::Framed => "Framed",
            Attribute::Encircled => "Encircled",
            Attribute::OverLined => "OverLined",
            Attribute::NotFramedOrEncircled => "NotFramedOrEncircled",
            Attribute::NotOverLined => "NotOverLined",
        }
    }

    /// Its code: the number of the command that sets it.
    pub fn code(self) -> u8
        ensures { result ≡ attribute_code self }
    {
        match self {
            Attribute::Reset => 0,
            Attribute::Bold => 1,
            Attribute::Dim => 2,
            Attribute::Italic => 3,
            Attribute::Underlined => 4,
            Attribute::SlowBlink => 5,
            Attribute::RapidBlink => 6,
            Attribute::Reverse => 7,
            Attribute::Hidden => 8,
            Attribute::CrossedOut => 9,
            Attribute::Fraktur => 20,
            Attribute::NoBold => 21,
            Attribute::NormalIntensity => 22,
            Attribute::NoItalic => 23,
            Attribute::NoUnderline => 24,
            Attribute::NoBlink => 25,
            Attribute::NoReverse => 27,
            Attribute::NoHidden => 28,
            Attribute::NotCrossedOut => 29,
            Attribute::Framed => 51,
            Attribute::Encircled => 52,
            Attribute::OverLined => 53,
            Attribute::NotFramedOrEncircled => 54,
            Attribute::NotOverLined => 55,
        }
    }
}
