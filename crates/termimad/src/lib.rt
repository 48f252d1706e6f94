//! Markdown for terminals: the names that a program needs, from the crates that have them.
//!
//! Most names are at the top. What a text is, what a terminal takes and shows, and each other subject has a module of its own, with more
//! names and with laws: [`md`], [`events`], [`term`], [`keys`], [`screen`], [`frames`], [`draw`], [`wrap`], [`layout`], [`pages`], [`widths`], [`parse`], [`edit`], [`field`], [`list`], [`live`] and [`ask`].
#![tactic(auto)]

/// The blocks of Markdown as events and the inlines of a leaf as events, for programs that make something else of a text.
pub mod events {
    pub use markdown_definitions::definitions::definitions_of;
    pub use markdown_destinations::destinations::{Destination, link_leads};
    pub use markdown_events::{Event, Tag, read_events, read_placed};
    pub use markdown_inline_events::{
        Inline, InlineEvent, InlineTag, LinePlace, laws, leaf_source, line_places, read_inlines,
    };
    pub use markdown_inlines::inlines::LinkTarget;
    pub use markdown_leaves::{Block, Kind, Part};
    pub use markdown_lines::links::Definitions;
}

/// What a terminal takes, and what it shows.
pub mod term {
    pub use mad_characters::char_columns;
    pub use mad_screen::{Cell, CutOut, Looks, NotPlain, Pen, Screen, ScriptSource, laws};
    pub use mad_term::{
        Attribute, Attributes, Clear, ClearType, Color, ContentStyle, Error, Event,
        InsufficientWidthError, KeyCode, KeyCombination, KeyEvent, KeyModifiers, MouseButton,
        MouseEvent, MouseEventKind, MoveTo, Out, Source, Stream, StyledContent, StyledNumber,
        StyledRepeat, TimedEvent, push_background, push_clear, push_foreground, push_move,
        push_styled, put_all, put_displayed, put_text, queue_bg, queue_clear, queue_fg, queue_move,
        queue_repeated, queue_styled,
    };
}

/// What a plain terminal shows of the bytes that it reads.
pub mod screen {
    pub use mad_screen::{Cell, Looks, NotPlain, Pen, Screen};
}

/// Drawings of one's own, and laws of drawing.
pub mod draw {
    pub use mad_draw::{
        Parts, Rows, RowsBeside, ScrollBar, columns_beside, draw_rows, laws, put_parts,
    };
}

/// Breaking lines that are too wide, with the fewest lines; the lines of a plain text.
pub mod wrap {
    pub use mad_format::wrap_text;
    pub use mad_layout::{
        WrapBound, check_wrap_bound, hard_wrap_composite, hard_wrap_lines, room_of, wrap_bound,
    };
    pub use mad_wrap::{Room, laws};
}

/// What laying out asks of a skin. Laws of layouts: texts that keep the premises, tables that fit when they are drawn, and a worked screen.
pub mod layout {
    pub use mad_layout::{LineSkin, laws};
}

/// Pages as rows, and laws of these: the columns of what stands in front of a line, and that each row fills its width.
pub mod pages {
    pub use mad_dressing::{HeadingMarks, PageMarks};
    pub use mad_mark_runs::MarkRun;
    pub use mad_page_rows::{PageTextRows, PlacedPageRows, laws};
    pub use mad_page_skin::{CodeStyles, TitleStyles};
    pub use mad_pages::{PageRow, lay_page};
    pub use mad_sections::Alert;
    pub use markdown_layout::{draw_page, lay_markdown, read_drawable};
}

/// Laws of the widths of a table's columns.
pub mod widths {
    pub use mad_widths::laws;
}

/// Styles as texts, both ways.
pub mod parse {
    pub use mad_parse::{
        ParseAlignError, ParseAttributeError, ParseColorError, ParseStyleTokenError,
        PushStyleTokens, StyleToken, compound_style_from, laws, line_style_from, parse_align,
        parse_attribute, parse_color, parse_compound_style, parse_line_style,
        parse_ordered_item_style, parse_style_token, parse_style_tokens, parse_styled_char,
        style_tokens_to_string, write_align, write_attribute, write_color, write_style_tokens,
    };
}

/// The editor's text.
pub mod edit {
    pub use mad_edit::{Chars, InputFieldContent, Line, Pos, Range, laws};
}

/// Laws of an input field: what its scrolls keep in view, and what its rows have.
pub mod field {
    pub use mad_field::laws;
    pub use mad_field_rows::laws as row_laws;
}

/// Lists without a skin: their rows, what is written of them, and what a screen shows of that.
pub mod list {
    pub use mad_list::{
        CellExtract, CellMeasure, ListRow, ListRows, ListView, ListViewCell, ListViewColumn,
        NoFilter, NoOrder, RowFilter, RowOrder,
    };
    pub use mad_list_columns::{ListStyle, body_height, fit_columns, laws, list_bar, push_list};
}

/// Laws of texts that come in pieces, on a terminal that scrolls.
pub mod live {
    pub use mad_live::laws;
    pub use mad_stream::laws as text_laws;
    pub use markdown_live::laws as page_laws;
}

/// Questions, and what can be answered.
pub mod ask {
    pub use mad_ask::{Answer, AskError, Choices, Question};
}

pub use mad_ask::Answer;
pub use mad_ask::AskError;
pub use mad_ask::Question;
pub use mad_draw::BORDER_STYLE_BLAND;
pub use mad_draw::BORDER_STYLE_HALF_WIDTH_OUTSIDE;
pub use mad_draw::BORDER_STYLE_MIDDLE_ROUND_LINE;
pub use mad_draw::BORDER_STYLE_MIDDLE_SQUARE_LINE;
pub use mad_draw::CropWriter;
pub use mad_draw::Filling;
pub use mad_draw::ProgressBar;
pub use mad_draw::Rect;
pub use mad_draw::RectBorderStyle;
pub use mad_draw::WriteSpaced;
pub use mad_draw::fill_bg;
pub use mad_draw::queue_spaces;
pub use mad_edit::Chars;
pub use mad_edit::InputFieldContent;
pub use mad_edit::Pos;
pub use mad_edit::Range;
pub use mad_field::InputField;
pub use mad_fitting::ELLIPSIS;
pub use mad_fitting::Run;
pub use mad_fitting::Zones;
pub use mad_format::Fitter;
pub use mad_format::wrap_text;
pub use mad_frames as frames;
pub use mad_frames::Frame;
pub use mad_frames::Gathered;
pub use mad_frames::PresentError;
pub use mad_frames::TestTerminal;
pub use mad_json::ScrollBarStyleDef;
pub use mad_json::SkinError;
pub use mad_json::skin_from_value;
pub use mad_json::skin_to_value;
pub use mad_keys as keys;
pub use mad_keys::Keys;
pub use mad_keys::event_bytes;
pub use mad_layout::CodeBlock;
pub use mad_layout::DisplayableLine;
pub use mad_layout::FmtComposite;
pub use mad_layout::FmtInline;
pub use mad_layout::FmtLine;
pub use mad_layout::FmtTableRow;
pub use mad_layout::FmtTableRule;
pub use mad_layout::FmtText;
pub use mad_layout::MadSkin;
pub use mad_layout::RelativePosition;
pub use mad_layout::RowSkin;
pub use mad_layout::Table;
pub use mad_layout::composite_kind_widths;
pub use mad_layout::draw_text;
pub use mad_layout::draw_text_in;
pub use mad_layout::find_blocks;
pub use mad_layout::fix_all_tables;
pub use mad_layout::inline;
pub use mad_layout::justify_blocks;
pub use mad_layout::lay_row;
pub use mad_layout::print_inline;
pub use mad_layout::print_text;
pub use mad_layout::term_text;
pub use mad_layout::text;
pub use mad_list::CellExtract;
pub use mad_list::CellMeasure;
pub use mad_list::ListView;
pub use mad_list::ListViewCell;
pub use mad_list::ListViewColumn;
pub use mad_list::NoFilter;
pub use mad_list::NoOrder;
pub use mad_list::RowFilter;
pub use mad_list::RowOrder;
pub use mad_md as md;
pub use mad_md::Alignment;
pub use mad_md::Composite;
pub use mad_md::CompositeStyle;
pub use mad_md::Compound;
pub use mad_md::Line;
pub use mad_md::LineCursor;
pub use mad_md::MAX_HEADER_DEPTH;
pub use mad_md::ParseOptions;
pub use mad_md::TableRow;
pub use mad_md::TableRule;
pub use mad_md::Text;
pub use mad_md::parse_text;
pub use mad_md::parse_text_with;
pub use mad_measure::Area;
pub use mad_measure::DEFAULT_TAB_REPLACEMENT;
pub use mad_measure::Spacing;
pub use mad_measure::StrFit;
pub use mad_measure::TAB_REPLACEMENT;
pub use mad_measure::Token;
pub use mad_measure::Tokens;
pub use mad_measure::compute_scrollbar;
pub use mad_measure::first_chars;
pub use mad_measure::is_printable;
pub use mad_measure::printable;
pub use mad_measure::token_iter;
pub use mad_measure::tokenize;
pub use mad_page_skin::PageSkin;
pub use mad_screen::CutOut;
pub use mad_screen::ScriptSource;
pub use mad_sections::Gutter;
pub use mad_sections::Page;
pub use mad_sections::Section;
pub use mad_steady::is_steady;
pub use mad_steady::steady;
pub use mad_stream::LiveText;
pub use mad_stream::SourceError;
pub use mad_stream::TextStream;
pub use mad_stream::complete_front;
pub use mad_stream::cut_text;
pub use mad_stream::show_pieces_on;
pub use mad_stream::show_source_on;
pub use mad_stream::write_front_on;
pub use mad_stream::write_pieces_on;
pub use mad_stream::write_source_on;
pub use mad_style::ASCII_TABLE_BORDER_CHARS;
pub use mad_style::ATTRIBUTES;
pub use mad_style::CompositeKind;
pub use mad_style::CompoundStyle;
pub use mad_style::LineStyle;
pub use mad_style::ListItemsIndentationMode;
pub use mad_style::MAX_ORDERED_LIST_DEPTH;
pub use mad_style::OrderedItemStyle;
pub use mad_style::ROUNDED_TABLE_BORDER_CHARS;
pub use mad_style::STANDARD_TABLE_BORDER_CHARS;
pub use mad_style::ScrollBarStyle;
pub use mad_style::StyledChar;
pub use mad_style::StyledText;
pub use mad_style::TableBorderChars;
pub use mad_style::ansi;
pub use mad_style::gray;
pub use mad_style::ordered_item_indent;
pub use mad_style::rgb;
pub use mad_term::Attribute;
pub use mad_term::Attributes;
pub use mad_term::Clear;
pub use mad_term::ClearType;
pub use mad_term::Color;
pub use mad_term::ContentStyle;
pub use mad_term::Error;
pub use mad_term::Event;
pub use mad_term::InsufficientWidthError;
pub use mad_term::KeyCode;
pub use mad_term::KeyCombination;
pub use mad_term::KeyEvent;
pub use mad_term::KeyModifiers;
pub use mad_term::MouseButton;
pub use mad_term::MouseEvent;
pub use mad_term::MouseEventKind;
pub use mad_term::MoveTo;
pub use mad_term::Out;
pub use mad_term::Source;
pub use mad_term::Stream;
pub use mad_term::StyledContent;
pub use mad_term::StyledNumber;
pub use mad_term::StyledRepeat;
pub use mad_term::TimedEvent;
pub use mad_term::char_columns;
pub use mad_term::put_all;
pub use mad_term::put_displayed;
pub use mad_term::put_text;
pub use mad_term::queue_bg;
pub use mad_term::queue_clear;
pub use mad_term::queue_fg;
pub use mad_term::queue_move;
pub use mad_term::queue_repeated;
pub use mad_term::queue_styled;
pub use mad_view::MadView;
pub use mad_view::TextView;
pub use mad_view::draw_views;
pub use mad_widths::TblFit;
pub use mad_widths::TblFitResult;
pub use markdown_code::language_word;
pub use markdown_code::read_code;
pub use markdown_code::write_code_on;
pub use markdown_headings::Heading;
pub use markdown_headings::find_section;
pub use markdown_headings::find_target;
pub use markdown_headings::headings;
pub use markdown_layout::DressedMarkdown;
pub use markdown_layout::draw_markdown;
pub use markdown_layout::write_markdown_on;
pub use markdown_layout::write_page_on;
pub use markdown_live::LiveMarkdown;
pub use markdown_live::show_markdown_pieces_on;
pub use markdown_live::show_markdown_source_on;
pub use markdown_live::shown_line;
pub use markdown_reader::Anchor;
pub use markdown_reader::Link;
pub use markdown_reader::Markdown;
pub use markdown_reader::read_anchors;
pub use markdown_stream::MarkdownStream;
pub use markdown_stream::write_markdown_pieces_on;
pub use markdown_stream::write_markdown_source_on;
pub use markdown_view::MarkdownView;
