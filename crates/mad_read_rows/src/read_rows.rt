//! Rows of composites that were read, put after a string without a layout in between.

ghost use Rattle.std.specs.Prelude.{◌≡◌, ◌≢◌, ◌+◌, drop, get_or, ◌<◌, ◌≤◌, ◌-◌, ◌++◌, ◌∷◌, ◌^◌, ℕ, [], List, IfOk, OnOk, IsTrue, length, map, slice_range, string_bytes};
ghost use Rattle.std.specs.Prelude.{false, true, if◌then◌else◌};
ghost use Rattle.std.specs.List.{flat_map};
ghost use Rattle.std.specs.Str.{bytes_eq, IsCharBoundary, IsUtf8};
ghost use Rattle.mad_md.specs.Flagged.{flags_of, run_of};
ghost use Rattle.mad_md.specs.declared.compound.Compound.{Compound};
ghost use Rattle.mad_md.specs.Lines.{styled_runs};
ghost use Rattle.mad_measure.specs.Chunks.{ArePlain, is_space_at};
ghost use Rattle.mad_measure.specs.Completions.{left_completion};
ghost use Rattle.mad_measure.specs.TokenPositions.{bytes_of};
ghost use Rattle.mad_measure.specs.declared.tokens.Token.{Token};
ghost use Rattle.mad_wrap.specs.Writings.{IsWrittenBare, WritesBefore, WritesUpTo, put_bytes};
ghost use Rattle.mad_wrap.specs.declared.first_fit.FirstFit.{FirstFit};
ghost use Rattle.mad_wrap.specs.Breaks.{total_width};
ghost use Rattle.mad_wrap.specs.WordLines.{AreInCompounds};
ghost use Rattle.mad_wrap.specs.Words.{alone, together};
ghost use Rattle.mad_style.specs.declared.kinds.CompositeKind.TheVariants.{ListItem};
ghost use Rattle.mad_term.specs.Styles.{IsUnstyled};
ghost use Rattle.mad_draw.specs.Pieces.{pieces_bytes, single_spaces};
ghost use Rattle.mad_rows.specs.Rows.{compound_piece, prefix_pieces};
ghost use Rattle.mad_rows.specs.RowStyles.{compound_style, ellipsis_bytes};
ghost use Rattle.mad_read_rows.specs.ReadRows.{HasPlainMarks, front_bytes, IsBetween, run_bytes, token_bytes, IsPlainIn, PutsReadOrNone, WritesWrap};
ghost use Rattle.mad_read_rows.specs.WordRows.{BeginsBlank, HasLastWord, IsQuickTo, no_compound, WritesPieces, WritesSome, WritesWordWrap, WritesWords};

use mad_format::{follow_up, margins_and_rest, room_of};
use mad_md::typed_texts::typed_composite;
use mad_md::{Alignment, Composite, Compound};
use mad_measure::{Token, plain_end, token_at};
use mad_rows::composites::{CompositeFront, PlacedCompound, Prefix};
use mad_rows::row_skin::{RowSkin, is_bare, is_ellipsis};
use mad_rows::row_writing::append_compounds;
use mad_rows::style_commands::{StyleCommands, append_three};
use mad_style::{CompositeKind, CompoundStyle, LineStyle};
use mad_term::{StyleOpening, closing_text};
use mad_wrap::{FirstFit, Put, Room, fit_columns, is_cut_clean, next_span};
use std::alloc::{AllocError, Global};

// Compounds of more bytes than these are laid out first.
const MOST_BYTES: usize = 0x4000_0000_0000_0000;

/// Puts the rows of what a composite that was read becomes at a width, in columns, after the rows that are there. Where it isn't known how
/// without its lines, it puts none; it says whether it did.
///
/// # Errors
///
/// Out of memory; what the rows then end with is open.
pub fn append_read(
    alloc: Global,
    rows: &mut String,
    composite: &Composite,
    width: usize,
    skin: &RowSkin,
    commands: &mut StyleCommands,
) -> Result<bool, AllocError>
    ensures { IfOk result (λ done. PutsReadOrNone skin.now width (styled_runs composite.now) (string_bytes rows.old) done (string_bytes rows.new)) }
{
    typed_composite(composite);
    let kind = CompositeKind::from(composite.style);
    let style = skin.line_style(kind);
    if width == usize::MAX || !is_aligned_left(style.align) {
        return Ok(false);
    }
    let ((margin, _), inner) = margins_and_rest(skin, kind, width);
    let room = room_of(skin, kind, inner);
    let front = CompositeFront {
        skin,
        style,
        kind,
        outer: margin,
        inner: 0,
    };
    let compounds = composite.compounds.as_slice();
    if let Some(_columns) = fit_columns(compounds, room) {
        append_whole(rows, front, compounds, commands)?;
        return Ok(true);
    }
    if !are_short(compounds) {
        return Ok(false);
    }
    if room.whole_words {
        append_word_wrap(alloc, rows, front, compounds, room, commands)?;
        return Ok(true);
    }
    if is_cut_clean(compounds, room) {
        return Ok(false);
    }
    append_wrap(alloc, rows, front, compounds, room)?;
    Ok(true)
}

// A line that fits.
fn append_whole(
    rows: &mut String,
    front: CompositeFront,
    compounds: &[Compound],
    commands: &mut StyleCommands,
) -> Result<(), AllocError>
    ensures { OnOk result (string_bytes rows.new ≡ string_bytes rows.old ++ (front_bytes front.entry ++ (pieces_bytes (map (compound_piece front.entry.skin.now front.entry.style.now) compounds.now) ++ 10 ∷ []))) }
{
    append_front(rows, front)?;
    append_compounds(rows, compounds, front.style, front.skin, commands)?;
    rows.push_str("\n")
}

// What is in front of a row's text.
fn append_front(rows: &mut String, front: CompositeFront) -> Result<(), AllocError>
    ensures { OnOk result (string_bytes rows.new ≡ string_bytes rows.old ++ front_bytes front.entry) }
{
    if front.outer == 0 && front.inner == 0 {
        return append_prefix(rows, front.kind, front.skin);
    }
    rows.reserve(front.columns())?;
    write!(rows, "{front}")
}

// The prefix of a line of this kind.
fn append_prefix(rows: &mut String, kind: CompositeKind, skin: &RowSkin) -> Result<(), AllocError>
    ensures { OnOk result (string_bytes rows.new ≡ string_bytes rows.old ++ pieces_bytes (prefix_pieces skin.now kind)) }
{
    match kind {
        CompositeKind::Paragraph | CompositeKind::Header(_) | CompositeKind::Code => Ok(()),
        CompositeKind::ListItem(depth) if has_plain_marks(skin) => {
            append_plain_mark(rows, depth as usize, skin)
        }
        kind => {
            let prefix = Prefix { skin, kind };
            write!(rows, "{prefix}")
        }
    }
}

// Whether bullets, and the spaces beside them, need no commands.
fn has_plain_marks(skin: &RowSkin) -> bool
    ensures { IsTrue result → HasPlainMarks skin.now }
{
    let bullet = skin.bullet;
    skin.paragraph.compound_style.object_style.is_unstyled()
        && bullet.compound_style().object_style.is_unstyled()
}

// The bullet of an item of this depth.
fn append_plain_mark(rows: &mut String, depth: usize, skin: &RowSkin) -> Result<(), AllocError>
    requires { HasPlainMarks skin.now }
    ensures { OnOk result (string_bytes rows.new ≡ string_bytes rows.old ++ pieces_bytes (prefix_pieces skin.now (ListItem depth))) }
{
    append_plain_spaces(rows, depth, &skin.paragraph.compound_style)?;
    rows.push(skin.bullet.nude_char())?;
    rows.push_str(" ")?;
    Ok(())
}

// Single spaces in a style that needs no commands.
fn append_plain_spaces(
    rows: &mut String,
    count: usize,
    style: &CompoundStyle,
) -> Result<(), AllocError>
    requires { IsUnstyled style.now.object_style }
    ensures { OnOk result (string_bytes rows.new ≡ string_bytes rows.old ++ pieces_bytes (single_spaces style.now count)) }
{
    for _done in 0..count {
        rows.push_str(" ")?;
    }
    Ok(())
}

// Lines that are wrapped.
fn append_wrap(
    alloc: Global,
    rows: &mut String,
    front: CompositeFront,
    compounds: &[Compound],
    room: Room,
) -> Result<(), AllocError>
    ensures { OnOk result (WritesWrap front.entry room compounds.now (string_bytes rows.old) (string_bytes rows.new)) }
{
    let mut later = String::new(alloc);
    append_front(
        &mut later,
        CompositeFront {
            kind: follow_up(front.kind),
            ..front
        },
    )?;
    append_front(rows, front)?;
    let fit = FirstFit::new(room);
    let max = room.token_limit();
    let style = front.style;
    append_tokens(alloc, rows, fit, compounds, max, &later, style, front.skin)?;
    rows.push_str("\n")?;
    Ok(())
}

// Lines that are wrapped, words whole.
fn append_word_wrap(
    alloc: Global,
    rows: &mut String,
    front: CompositeFront,
    compounds: &[Compound],
    room: Room,
    commands: &mut StyleCommands,
) -> Result<(), AllocError>
    ensures { OnOk result (WritesWordWrap front.entry room compounds.now (string_bytes rows.old) (string_bytes rows.new)) }
{
    let mut later = String::new(alloc);
    append_front(
        &mut later,
        CompositeFront {
            kind: follow_up(front.kind),
            ..front
        },
    )?;
    append_front(rows, front)?;
    let fit = FirstFit::new(room);
    let limit = room.token_limit();
    let style = front.style;
    append_pieces(
        alloc, rows, fit, compounds, limit, &later, style, front.skin, commands,
    )?;
    rows.push_str("\n")?;
    Ok(())
}

// The pieces of the compounds' tokens. Those of a single compound are its tokens.
fn append_pieces(
    alloc: Global,
    rows: &mut String,
    fit: FirstFit,
    compounds: &[Compound],
    limit: usize,
    later: &str,
    style: &LineStyle,
    skin: &RowSkin,
    commands: &mut StyleCommands,
) -> Result<(), AllocError>
    ensures { OnOk result (WritesWords (token_bytes skin.now style.now) later.now limit compounds.now fit (string_bytes rows.old) (string_bytes rows.new)) }
{
    if compounds.len() == 1 {
        append_tokens(alloc, rows, fit, compounds, limit, later, style, skin)
    } else {
        append_words(
            alloc, rows, fit, compounds, limit, later, style, skin, commands,
        )
    }
}

// The words of the compounds, as they are placed on lines.
fn append_words(
    alloc: Global,
    rows: &mut String,
    fit: FirstFit,
    compounds: &[Compound],
    limit: usize,
    later: &str,
    style: &LineStyle,
    skin: &RowSkin,
    commands: &mut StyleCommands,
) -> Result<(), AllocError>
    ensures { OnOk result (WritesWords (token_bytes skin.now style.now) later.now limit compounds.now fit (string_bytes rows.old) (string_bytes rows.new)) }
{
    let mut fit = fit;
    // The tokens of a word that may go on, and their columns.
    let mut word = Vec::new(alloc);
    let mut width = 0;
    // Whether those of this word are put one by one.
    let mut is_loose = false;
    for index in 0..compounds.len() {
        let compound = compounds[index];
        let end = quick_end(compounds, index, style, skin);
        let mut at = 0;
        while at < compound.src.len() {
            if at < end && word.is_empty() && !is_loose {
                let (after, to) = append_front_words(rows, fit, compound, at, end, limit, later)?;
                fit = after;
                at = to;
                continue;
            }
            let token = token_at(compound, at, limit);
            at = token.end_in_compound;
            if may_go_on(&word, token)
                && !token.blank
                && !is_loose
                && token.width <= limit - width
            {
                word.push(token)?;
                width += token.width;
                continue;
            }
            // The word has ended, or is wider than the limit, or is this token alone.
            if !word.is_empty() {
                fit = append_begun(
                    rows,
                    fit,
                    &word,
                    width,
                    token.blank,
                    later,
                    style,
                    skin,
                    commands,
                )?;
                word.clear();
                width = 0;
            }
            fit = append_word(
                rows,
                fit,
                &[token],
                token.width,
                later,
                style,
                skin,
                commands,
            )?;
            is_loose = !token.blank;
        }
    }
    append_word(rows, fit, &word, width, later, style, skin, commands)?;
    Ok(())
}

// Up to where the tokens of a compound can be put one by one, if it needs no commands and isn't code: to its last word, or to its end where
// no word goes on after it; else 0.
fn quick_end(compounds: &[Compound], index: usize, style: &LineStyle, skin: &RowSkin) -> usize
    requires { index < length compounds.now }
    ensures word { 0 < result → IsQuickTo (token_bytes skin.now style.now) (get_or compounds.now index no_compound) (drop (index + 1) compounds.now) result }
    ensures text { IsUtf8 (get_or compounds.now index no_compound).src.now }
{
    let next = index + 1;
    let ends = next == compounds.len() || begins_with_space(compounds[next]);
    quick_in(compounds[index], ends, style, skin)
}

// The same, where it is known whether its last word ends with it.
fn quick_in(compound: Compound, ends: bool, style: &LineStyle, skin: &RowSkin) -> usize
    ensures word { 0 < result → (ends ≡ false → HasLastWord (token_bytes skin.now style.now) compound.entry result) × (ends ≡ true → (IsWrittenBare (token_bytes skin.now style.now) compound.entry) × (result ≡ length compound.entry.src.now)) }
    ensures text { IsUtf8 compound.entry.src.now }
{
    if compound.code || !is_plain(compound, style, skin) {
        return 0;
    }
    if ends {
        compound.src.len()
    } else {
        after_last_space(compound.src.as_bytes())
    }
}

// Whether a compound begins with a blank.
fn begins_with_space(compound: Compound) -> bool
    ensures { IsTrue result → BeginsBlank compound.entry }
{
    !compound.code && !compound.src.is_empty() && compound.src.as_bytes()[0] == b' '
}

// Where the last space ends; 0 if there is none.
fn after_last_space(bytes: &[u8]) -> usize
    ensures inside { result ≤ length bytes.now }
    ensures space { 0 < result → is_space_at bytes.now (result - 1) ≡ true }
{
    let mut end = bytes.len();
    while end > 0 && bytes[end - 1] != b' ' {
        end -= 1;
    }
    end
}

// The tokens of a compound that needs no commands, span by span, up to a byte at least. It says where they end.
fn append_front_words(
    rows: &mut String,
    fit: FirstFit,
    compound: Compound,
    start: usize,
    end: usize,
    max: usize,
    later: &str,
) -> Result<(FirstFit, usize), AllocError>
    requires border { IsCharBoundary compound.src.now start }
    requires inside { end ≤ length compound.src.now }
    requires some { start < end }
    ensures border { IfOk result (λ after. IsCharBoundary compound.entry.src.now after.1) }
    ensures past { IfOk result (λ after. end ≤ after.1) }
    ensures written { IfOk result (λ after. (write : Token → List ℕ) → IsWrittenBare write compound.entry → WritesSome write later.now max compound.entry start end after.1 fit (string_bytes rows.old) after.0 (string_bytes rows.new)) }
{
    let bytes = compound.src.as_bytes();
    let mut fit = fit;
    let mut at = start;
    let mut plain = plain_end(bytes, start);
    while at < end {
        plain = plain_past(bytes, at, plain);
        let span = next_span(fit, compound, at, plain.min(end), max);
        if span.end <= end {
            append_text(rows, &compound.src[at..span.end], span.put, later)?;
            fit = span.after;
            at = span.end;
        } else {
            let token = token_at(compound, at, max);
            let put = fit.put(token);
            append_text(rows, &compound.src[at..token.end_in_compound], put, later)?;
            at = token.end_in_compound;
        }
    }
    Ok((fit, at))
}

// Whether a token is one of several of a word that fits on a line, as far as can be told: most end before their compound does, where a
// blank comes, or a character with which the word is too wide.
fn may_go_on(word: &[Token], token: Token) -> bool
    ensures { result ≡ false → (word.now ≡ []) × (token.entry.end_in_compound ≢ length token.entry.compound.src.now) }
{
    !word.is_empty() || token.end_in_compound == token.compound.src.len()
}

// The tokens of a word: together where it has ended, else each alone.
fn append_begun(
    rows: &mut String,
    fit: FirstFit,
    word: &[Token],
    width: usize,
    ended: bool,
    later: &str,
    style: &LineStyle,
    skin: &RowSkin,
    commands: &mut StyleCommands,
) -> Result<FirstFit, AllocError>
    requires within { AreInCompounds word.now }
    requires width { width ≡ total_width word.now }
    ensures { IfOk result (λ after. WritesPieces (token_bytes skin.now style.now) later.now fit (if ended then together word.now else map alone word.now) (string_bytes rows.old) after (string_bytes rows.new)) }
{
    if ended {
        append_word(rows, fit, word, width, later, style, skin, commands)
    } else {
        append_each(rows, fit, word, later, style, skin, commands)
    }
}

// Each of the tokens alone.
fn append_each(
    rows: &mut String,
    fit: FirstFit,
    tokens: &[Token],
    later: &str,
    style: &LineStyle,
    skin: &RowSkin,
    commands: &mut StyleCommands,
) -> Result<FirstFit, AllocError>
    requires { AreInCompounds tokens.now }
    ensures { IfOk result (λ after. WritesPieces (token_bytes skin.now style.now) later.now fit (map alone tokens.now) (string_bytes rows.old) after (string_bytes rows.new)) }
{
    let mut fit = fit;
    for token in tokens {
        fit = append_word(
            rows,
            fit,
            &[*token],
            token.width,
            later,
            style,
            skin,
            commands,
        )?;
    }
    Ok(fit)
}

// The tokens of a word together, if there are any.
fn append_word(
    rows: &mut String,
    fit: FirstFit,
    word: &[Token],
    width: usize,
    later: &str,
    style: &LineStyle,
    skin: &RowSkin,
    commands: &mut StyleCommands,
) -> Result<FirstFit, AllocError>
    requires within { AreInCompounds word.now }
    requires width { width ≡ total_width word.now }
    ensures { IfOk result (λ after. WritesPieces (token_bytes skin.now style.now) later.now fit (together word.now) (string_bytes rows.old) after (string_bytes rows.new)) }
{
    let Some(first) = word.first() else {
        return Ok(fit);
    };
    let mut after = fit;
    match after.put(Token { width, ..*first }) {
        Put::OnLine => {}
        Put::OnNext => {
            rows.push_str("\n")?;
            rows.push_str(later)?;
        }
        Put::InGap => return Ok(after),
    }
    append_parts(rows, word, style, skin, commands)?;
    Ok(after)
}

// Tokens on one row.
fn append_parts(
    rows: &mut String,
    tokens: &[Token],
    style: &LineStyle,
    skin: &RowSkin,
    commands: &mut StyleCommands,
) -> Result<(), AllocError>
    requires { AreInCompounds tokens.now }
    ensures { OnOk result (string_bytes rows.new ≡ string_bytes rows.old ++ flat_map (token_bytes skin.now style.now) tokens.now) }
{
    for token in tokens {
        append_compounds(rows, &[token.to_compound()], style, skin, commands)?;
    }
    Ok(())
}

// The tokens of the compounds.
fn append_tokens(
    alloc: Global,
    rows: &mut String,
    fit: FirstFit,
    compounds: &[Compound],
    max: usize,
    later: &str,
    style: &LineStyle,
    skin: &RowSkin,
) -> Result<(), AllocError>
    ensures { OnOk result ((after : FirstFit) × WritesBefore (token_bytes skin.now style.now) later.now max compounds.now [] fit (string_bytes rows.old) after (string_bytes rows.new)) }
{
    let mut fit = fit;
    for compound in compounds {
        fit = append_compound(alloc, rows, fit, *compound, max, later, style, skin)?;
    }
    Ok(())
}

// The tokens of a compound.
fn append_compound(
    alloc: Global,
    rows: &mut String,
    fit: FirstFit,
    compound: Compound,
    max: usize,
    later: &str,
    style: &LineStyle,
    skin: &RowSkin,
) -> Result<FirstFit, AllocError>
    ensures { IfOk result (λ after. WritesUpTo (token_bytes skin.now style.now) later.now max compound.entry (length compound.entry.src.now) fit (string_bytes rows.old) after (string_bytes rows.new)) }
{
    if is_plain(compound, style, skin) {
        return append_spans(rows, fit, compound, max, later);
    }
    if is_ellipsis(compound.src) {
        return append_styled(rows, fit, compound, max, later, style, skin);
    }
    append_marked(alloc, rows, fit, compound, max, later, style, skin)
}

// The tokens of a compound that isn't an ellipsis; its commands are made once.
fn append_marked(
    alloc: Global,
    rows: &mut String,
    fit: FirstFit,
    compound: Compound,
    max: usize,
    later: &str,
    style: &LineStyle,
    skin: &RowSkin,
) -> Result<FirstFit, AllocError>
    requires { bytes_eq compound.src.now ellipsis_bytes ≡ false }
    ensures { IfOk result (λ after. WritesUpTo (token_bytes skin.now style.now) later.now max compound.entry (length compound.entry.src.now) fit (string_bytes rows.old) after (string_bytes rows.new)) }
{
    let own = skin.compound_style(style, &compound).object_style;
    let mut opening = String::new(alloc);
    let commands = StyleOpening(own);
    write!(opening, "{commands}")?;
    let closing = closing_text(own);
    append_between(
        rows, fit, compound, max, later, &opening, closing, style, skin,
    )
}

// The tokens of a compound, each but an ellipsis between these commands.
fn append_between(
    rows: &mut String,
    fit: FirstFit,
    compound: Compound,
    max: usize,
    later: &str,
    opening: &str,
    closing: &str,
    style: &LineStyle,
    skin: &RowSkin,
) -> Result<FirstFit, AllocError>
    requires { (part : Compound) → flags_of part ≡ flags_of compound → IsBetween skin.now style.now opening.now closing.now part }
    ensures { IfOk result (λ after. WritesUpTo (token_bytes skin.now style.now) later.now max compound.entry (length compound.entry.src.now) fit (string_bytes rows.old) after (string_bytes rows.new)) }
{
    let mut fit = fit;
    let mut at = 0;
    while at < compound.src.len() {
        let token = token_at(compound, at, max);
        let put = fit.put(token);
        let part = token.to_compound();
        append_token(rows, &part, put, later, opening, closing, style, skin)?;
        at = token.end_in_compound;
    }
    Ok(fit)
}

// A part of a compound where it is put, between these commands if it isn't an ellipsis.
fn append_token(
    rows: &mut String,
    part: &Compound,
    put: Put,
    later: &str,
    opening: &str,
    closing: &str,
    style: &LineStyle,
    skin: &RowSkin,
) -> Result<(), AllocError>
    requires { IsBetween skin.now style.now opening.now closing.now part.now }
    ensures { OnOk result (string_bytes rows.new ≡ string_bytes rows.old ++ put_bytes later.now put (run_bytes skin.now style.now (run_of part.now))) }
{
    if is_ellipsis(part.src) {
        append_part(rows, part, put, later, style, skin)
    } else {
        append_piece(rows, part.src, put, later, opening, closing)
    }
}

// A text between commands where it is put.
fn append_piece(
    rows: &mut String,
    text: &str,
    put: Put,
    later: &str,
    opening: &str,
    closing: &str,
) -> Result<(), AllocError>
    ensures { OnOk result (string_bytes rows.new ≡ string_bytes rows.old ++ put_bytes later.now put (opening.now ++ (text.now ++ closing.now))) }
{
    match put {
        Put::OnLine => append_three(rows, opening, text, closing),
        Put::OnNext => {
            rows.push_str("\n")?;
            rows.push_str(later)?;
            append_three(rows, opening, text, closing)
        }
        Put::InGap => Ok(()),
    }
}

// The tokens of a compound that needs no commands, span by span.
fn append_spans(
    rows: &mut String,
    fit: FirstFit,
    compound: Compound,
    max: usize,
    later: &str,
) -> Result<FirstFit, AllocError>
    ensures { IfOk result (λ after. (write : Token → List ℕ) → IsWrittenBare write compound.entry → WritesUpTo write later.now max compound.entry (length compound.entry.src.now) fit (string_bytes rows.old) after (string_bytes rows.new)) }
{
    let bytes = compound.src.as_bytes();
    let mut fit = fit;
    let mut at = 0;
    let mut plain = plain_end(bytes, 0);
    while at < bytes.len() {
        plain = plain_past(bytes, at, plain);
        let span = next_span(fit, compound, at, plain, max);
        append_text(rows, &compound.src[at..span.end], span.put, later)?;
        fit = span.after;
        at = span.end;
    }
    Ok(fit)
}

// Where the spaces and graphic ASCII characters that begin at `at` end, if that was known before to be no further than `plain`.
fn plain_past(bytes: &[u8], at: usize, plain: usize) -> usize
    requires plain { ArePlain bytes.now at plain }
    requires inside { plain ≤ length bytes.now }
    requires at { at ≤ length bytes.now }
    ensures plain { ArePlain bytes.now at result }
    ensures inside { result ≤ length bytes.now }
{
    if plain < at {
        plain_end(bytes, at)
    } else {
        plain
    }
}

// A text where it is put.
fn append_text(rows: &mut String, text: &str, put: Put, later: &str) -> Result<(), AllocError>
    ensures { OnOk result (string_bytes rows.new ≡ string_bytes rows.old ++ put_bytes later.now put text.now) }
{
    match put {
        Put::OnLine => rows.push_str(text),
        Put::OnNext => {
            rows.push_str("\n")?;
            rows.push_str(later)?;
            rows.push_str(text)
        }
        Put::InGap => Ok(()),
    }
}

// The tokens of any compound, one by one.
fn append_styled(
    rows: &mut String,
    fit: FirstFit,
    compound: Compound,
    max: usize,
    later: &str,
    style: &LineStyle,
    skin: &RowSkin,
) -> Result<FirstFit, AllocError>
    ensures { IfOk result (λ after. WritesUpTo (token_bytes skin.now style.now) later.now max compound.entry (length compound.entry.src.now) fit (string_bytes rows.old) after (string_bytes rows.new)) }
{
    let mut fit = fit;
    let mut at = 0;
    while at < compound.src.len() {
        let token = token_at(compound, at, max);
        let put = fit.put(token);
        append_part(rows, &token.to_compound(), put, later, style, skin)?;
        at = token.end_in_compound;
    }
    Ok(fit)
}

// A part of a compound where it is put.
fn append_part(
    rows: &mut String,
    part: &Compound,
    put: Put,
    later: &str,
    style: &LineStyle,
    skin: &RowSkin,
) -> Result<(), AllocError>
    ensures { OnOk result (string_bytes rows.new ≡ string_bytes rows.old ++ put_bytes later.now put (run_bytes skin.now style.now (run_of part.now))) }
{
    let placed = PlacedCompound {
        skin,
        style,
        compound: part,
    };
    match put {
        Put::OnLine => write!(rows, "{placed}"),
        Put::OnNext => write!(rows, "\n{later}{placed}"),
        Put::InGap => Ok(()),
    }
}

// Whether each part of the compound needs no commands in a line of that style.
fn is_plain(compound: Compound, style: &LineStyle, skin: &RowSkin) -> bool
    ensures { IsTrue result → IsPlainIn skin.now style.now compound.entry }
{
    skin.ellipsis.object_style.is_unstyled()
        && !is_ellipsis(compound.src)
        && style_in(compound, style, skin).object_style.is_unstyled()
}

// The style of a compound in a line of that style. Most have no flag.
fn style_in(compound: Compound, style: &LineStyle, skin: &RowSkin) -> CompoundStyle
    ensures { result ≡ compound_style skin.now style.now (run_of compound.entry) }
{
    if is_bare(&compound) {
        style.compound_style
    } else {
        skin.compound_style(style, &compound)
    }
}

// Whether the compounds have no more bytes than are taken.
fn are_short(compounds: &[Compound]) -> bool
    ensures { IsTrue result → bytes_of compounds.now < 2 ^ 62 }
{
    let mut bytes: usize = 0;
    for compound in compounds {
        bytes = bytes.saturating_add(compound.src.len());
    }
    bytes < MOST_BYTES
}

/// Whether no columns are left of a text in a wider place.
pub fn is_aligned_left(align: Alignment) -> bool
    ensures { IsTrue result → (rest : ℕ) → left_completion align rest ≡ 0 }
{
    matches!(align, Alignment::Left | Alignment::Unspecified)
}
