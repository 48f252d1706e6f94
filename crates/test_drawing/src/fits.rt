//! Fitting to a width, wider places, and cuts of runs that are kept.

ghost use Rattle.std.specs.Prelude.{OnOk};
ghost use Rattle.mad_fitting.specs.Zones.{AreZones, runs_of};

use crate::pictures::{push_cell, push_compounds};
use crate::skins::unstyled_skin;
use crate::words::{align, number, numbers, style};
use mad_fitting::Zones;
use mad_format::{FmtComposite, LineSkin};
use mad_md::{Alignment, Composite, CompositeStyle, Compound};
use mad_term::Error;
use std::alloc::{AllocError, Global};
use std::fmt::Write;

// A composite of a text with inline marks, of this kind.
fn composite<'s, S: LineSkin>(
    alloc: Global,
    style: CompositeStyle,
    text: &'s str,
    skin: &S,
) -> Result<FmtComposite<'s>, AllocError> {
    let compounds = Composite::from_inline(alloc, text)?.compounds;
    Ok(FmtComposite::from(Composite { style, compounds }, skin))
}

/// What a text becomes that is fitted to a width by an alignment, and its cached length then.
pub fn fit(alloc: Global, picture: &mut String, words: &str, text: &str) -> Result<(), Error> {
    let mut words = words.split_whitespace();
    let width = number(&mut words);
    let align = align(&mut words);
    let skin = unstyled_skin();
    let mut composite = composite(alloc, style(&mut words), text, &skin)?;
    composite.fit_width(width, align, &skin)?;
    push_compounds(picture, &composite)?;
    Ok(write!(picture, "{} columns", composite.visible_length)?)
}

/// Whether a text fits that is fitted to a width by each alignment, and leaves two columns at most.
pub fn fits(alloc: Global, picture: &mut String, words: &str, text: &str) -> Result<(), Error> {
    let mut words = words.split_whitespace();
    let width = number(&mut words);
    let style = style(&mut words);
    let skin = unstyled_skin();
    for align in &[
        Alignment::Unspecified,
        Alignment::Left,
        Alignment::Center,
        Alignment::Right,
    ] {
        let mut composite = composite(alloc, style, text, &skin)?;
        composite.fit_width(width, *align, &skin)?;
        let columns = composite.visible_length;
        writeln!(picture, "{}", columns <= width && width - columns <= 2)?;
    }
    Ok(())
}

/// What a text becomes that fills a width by an alignment, with its place.
pub fn fill(alloc: Global, picture: &mut String, words: &str, text: &str) -> Result<(), Error> {
    let mut words = words.split_whitespace();
    let width = number(&mut words);
    let align = align(&mut words);
    let skin = unstyled_skin();
    let mut composite = composite(alloc, style(&mut words), text, &skin)?;
    composite.fill_width(width, align, &skin)?;
    push_cell(picture, &composite)?;
    Ok(())
}

/// The runs of a text that may be cut, and what they are after cuts. Of each cut the words say the number of a run and the columns that
/// are too many; its gain is told.
pub fn zones(alloc: Global, picture: &mut String, words: &str, text: &str) -> Result<(), Error> {
    let cuts = numbers(alloc, words.split_whitespace())?;
    let mut compounds = Composite::from_inline(alloc, text)?.compounds;
    let mut zones = Zones::new(alloc, &compounds)?;
    push_runs(picture, &zones)?;
    for cut in cuts.chunks_exact(2) {
        cut_run(picture, &mut zones, &mut compounds, (cut[0], cut[1]))?;
    }
    Ok(())
}

// A cut of the run of this number, if there is one, where so many columns are too many.
fn cut_run(
    picture: &mut String,
    zones: &mut Zones,
    compounds: &mut Vec<Compound>,
    cut: (usize, usize),
) -> Result<(), AllocError>
    requires { AreZones 0 compounds.old.items (runs_of zones.old) }
    ensures { OnOk result (AreZones 0 compounds.new.items (runs_of zones.new)) }
{
    let (number, excess) = cut;
    if number >= zones.runs().len() {
        return Ok(());
    }
    let gain = zones.cut(number, compounds, excess)?;
    push_texts(picture, compounds)?;
    write!(picture, "gains {gain}, ")?;
    push_runs(picture, zones)
}

// The runs, each by the number of its compound, its first byte, and the byte after it.
fn push_runs(picture: &mut String, zones: &Zones) -> Result<(), AllocError> {
    picture.push_str("runs")?;
    for run in zones.runs() {
        write!(picture, " {}:{}-{}", run.compound, run.start, run.end)?;
    }
    picture.push('\n')
}

fn push_texts(picture: &mut String, compounds: &[Compound]) -> Result<(), AllocError> {
    for compound in compounds {
        write!(picture, "|{}|", compound.src)?;
    }
    picture.push('\n')
}
