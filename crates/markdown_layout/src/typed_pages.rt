//! What types promise of a page, whoever made it. Each function here does nothing, and only says so.

ghost use Rattle.std.specs.Prelude.{map, option_map, IfSome};
ghost use Rattle.std.specs.List.{AllByRecursion};
ghost use Rattle.mad_sections.specs.Sections.{page_content, section_content};
ghost use Rattle.mad_page_rows.specs.FaceLaws.{IsTypedGutter};
ghost use Rattle.markdown_layout.specs.KeptPremises.{IsTypedSection};

use mad_md::typed_texts::typed_text;
use mad_sections::{Gutter, Page, Section};

/// The sections of a page, read or made. Their text is UTF-8, and the number of an item is below 2^32.
pub fn typed_page(page: &Page<'_>)
    ensures { AllByRecursion IsTypedSection (page_content page.now) }
{
    typed_sections(&page.sections);
}

fn typed_sections(sections: &[Section<'_>])
    ensures { AllByRecursion IsTypedSection (map section_content sections.now) }
{
    let mut rest = sections;
    while let [section, next @ ..] = rest {
        typed_section(section);
        rest = next;
    }
}

fn typed_section(section: &Section<'_>)
    ensures { IsTypedSection (section_content section.now) }
{
    typed_gutters(section.gutters);
    typed_list(section.list);
    typed_text(&section.text);
}

fn typed_list(list: Option<&[Gutter]>)
    ensures { IfSome (option_map (λ gs. gs.now) list.entry) (AllByRecursion IsTypedGutter) }
{
    if let Some(gutters) = list {
        typed_gutters(gutters);
    }
}

fn typed_gutters(gutters: &[Gutter])
    ensures { AllByRecursion IsTypedGutter gutters.now }
{
    let mut rest = gutters;
    while let [gutter, next @ ..] = rest {
        typed_gutter(*gutter);
        rest = next;
    }
}

fn typed_gutter(gutter: Gutter)
    ensures { IsTypedGutter gutter }
{}
