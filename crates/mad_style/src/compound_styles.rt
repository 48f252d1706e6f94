//! How the text of a compound looks.

ghost use Rattle.std.specs.Prelude.{◌≡◌, ◌≢◌, ◌||◌, Some, None, false, true};
ghost use Rattle.mad_term.specs.declared.attribute.Attribute.{Attribute};
ghost use Rattle.mad_term.specs.Attribute.{attribute_index};
ghost use Rattle.mad_term.specs.Attributes.{has_attribute};
ghost use Rattle.mad_term.specs.AttributeSets.{no_attributes, only};

use mad_term::{Attribute, Attributes, Color, ContentStyle};

/// The attributes that a style's tokens name, in this order.
pub const ATTRIBUTES: [Attribute; 8] = [
    Attribute::Bold,
    Attribute::Dim,
    Attribute::Italic,
    Attribute::Underlined,
    Attribute::Reverse,
    Attribute::CrossedOut,
    Attribute::Encircled,
    Attribute::OverLined,
];

/// How the text of a compound looks: its colors and its attributes.
#[derive(Clone, Copy, Debug, PartialEq)]
pub struct CompoundStyle {
    /// The colors and attributes that its pieces are written in.
    pub object_style: ContentStyle,
}

impl Default for CompoundStyle {
    ghost use Rattle.mad_style.specs.CompoundStyles.{unstyled};

    ghost is_default = { λ style. style ≡ unstyled };

    /// The style in which nothing is set.
    fn default() -> Self {
        Self::new(None, None, Attributes::default())
    }
}

impl From<ContentStyle> for CompoundStyle {
    ghost from_gives = { λ object_style style. style ≡ record { object_style = object_style } };

    fn from(object_style: ContentStyle) -> Self {
        Self { object_style }
    }
}

impl CompoundStyle {
    ghost use Rattle.mad_style.specs.CompoundStyles.{text_style, foreground_set, background_set, attribute_added, overwritten};

    /// A style of these colors and attributes, without a color of its own for the underline.
    pub const fn new(
        foreground_color: Option<Color>,
        background_color: Option<Color>,
        attributes: Attributes,
    ) -> Self
        ensures { result ≡ text_style foreground_color background_color attributes }
    {
        Self {
            object_style: ContentStyle {
                foreground_color,
                background_color,
                underline_color: None,
                attributes,
            },
        }
    }

    /// A style of a foreground and a background alone.
    pub fn with_fgbg(fg: Color, bg: Color) -> Self
        ensures { result ≡ text_style (Some fg) (Some bg) no_attributes }
    {
        Self::new(Some(fg), Some(bg), Attributes::default())
    }

    /// A style of a foreground alone.
    pub fn with_fg(fg: Color) -> Self
        ensures { result ≡ text_style (Some fg) None no_attributes }
    {
        Self::new(Some(fg), None, Attributes::default())
    }

    /// A style of a background alone.
    pub fn with_bg(bg: Color) -> Self
        ensures { result ≡ text_style None (Some bg) no_attributes }
    {
        Self::new(None, Some(bg), Attributes::default())
    }

    /// A style of one attribute alone.
    pub fn with_attr(attr: Attribute) -> Self
        ensures { result ≡ text_style None None (only attr) }
    {
        Self::new(None, None, Attributes::from(attr))
    }

    /// Sets the foreground.
    pub fn set_fg(&mut self, color: Color)
        ensures { self.new ≡ foreground_set self.old color }
    {
        self.object_style.foreground_color = Some(color);
    }

    /// Sets the background.
    pub fn set_bg(&mut self, color: Color)
        ensures { self.new ≡ background_set self.old color }
    {
        self.object_style.background_color = Some(color);
    }

    /// Sets the foreground and the background.
    pub fn set_fgbg(&mut self, fg: Color, bg: Color)
        ensures { self.new ≡ background_set (foreground_set self.old fg) bg }
    {
        self.set_fg(fg);
        self.set_bg(bg);
    }

    /// Puts an attribute in.
    pub fn add_attr(&mut self, attr: Attribute)
        ensures value { self.new ≡ attribute_added self.old attr }
        ensures has { has_attribute self.new.object_style.attributes attr ≡ true }
        ensures others { (b : Attribute) → attribute_index b ≢ attribute_index attr → has_attribute self.new.object_style.attributes b ≡ has_attribute self.old.object_style.attributes b }
    {
        self.object_style.attributes.set(attr);
    }

    /// Whether the style has the attribute.
    pub fn has_attr(&self, attr: Attribute) -> bool
        ensures { result ≡ has_attribute self.now.object_style.attributes attr }
    {
        self.object_style.attributes.has(attr)
    }

    /// Takes an attribute out.
    pub fn remove_attr(&mut self, attr: Attribute)
        ensures same { self.new ≡ record self.old { object_style = record self.old.object_style { attributes = self.new.object_style.attributes } } }
        ensures has { has_attribute self.new.object_style.attributes attr ≡ false }
        ensures others { (b : Attribute) → attribute_index b ≢ attribute_index attr → has_attribute self.new.object_style.attributes b ≡ has_attribute self.old.object_style.attributes b }
    {
        self.object_style.attributes.unset(attr);
    }

    /// Puts another style over this one: its foreground and its background replace this one's where they
    /// are present, and its attributes are added.
    pub fn overwrite_with(&mut self, other: &Self)
        ensures value { self.new ≡ overwritten self.old other.now }
        ensures attributes { (a : Attribute) → has_attribute self.new.object_style.attributes a ≡ (has_attribute self.old.object_style.attributes a || has_attribute other.now.object_style.attributes a) }
    {
        let over = &other.object_style;
        let style = &mut self.object_style;
        style.foreground_color = over.foreground_color.or(style.foreground_color);
        style.background_color = over.background_color.or(style.background_color);
        style.attributes.extend(over.attributes);
    }

    /// The foreground, if it is set.
    pub const fn get_fg(&self) -> Option<Color>
        ensures { result ≡ self.now.object_style.foreground_color }
    {
        self.object_style.foreground_color
    }

    /// The background, if it is set.
    pub const fn get_bg(&self) -> Option<Color>
        ensures { result ≡ self.now.object_style.background_color }
    {
        self.object_style.background_color
    }

    /// The attributes.
    pub fn attrs(self) -> Attributes
        ensures { result ≡ self.object_style.attributes }
    {
        self.object_style.attributes
    }
}
