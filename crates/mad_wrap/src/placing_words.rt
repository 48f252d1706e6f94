//! Placing tokens on lines, words whole.

ghost use Rattle.std.specs.Prelude.{◌≡◌, ◌≢◌, ◌++◌, ◌∷◌, [], List, IfOk, OnOk, false, length, map, if◌then◌else◌};
ghost use Rattle.mad_measure.specs.Tokens.{IsInCompound};
ghost use Rattle.mad_measure.specs.declared.tokens.Token.{Token};
ghost use Rattle.mad_wrap.specs.Breaks.{total_width};
ghost use Rattle.mad_wrap.specs.LeastWrap.{AreTokensIn};
ghost use Rattle.mad_wrap.specs.WordLines.{AreInCompounds, AreWordLines, TakesTokens};

use crate::first_fit::{FirstFit, Put};
use crate::room::Room;
use crate::wrapped_line::WrappedLine;
use mad_md::Compound;
use mad_measure::{Token, token_iter};
use std::alloc::{AllocError, Global};
use std::mem;

/// Places the tokens of the compounds one after the other: a word that fits on each line as a whole, any other token alone. Each goes
/// where it is put by first fit.
pub(crate) fn place_words<'s>(
    alloc: Global,
    compounds: &[Compound<'s>],
    room: Room,
) -> Result<Vec<WrappedLine<'s>>, AllocError>
    ensures { IfOk result (λ lines. (ts : List Token) × AreTokensIn room compounds.now ts × AreWordLines room ts lines.items) }
{
    let limit = room.token_limit();
    let mut lines = WordLines::new(alloc, room)?;
    // The tokens of a word that may go on, and their columns.
    let mut word = Vec::new(alloc);
    let mut width = 0;
    // Whether those of this word are put one by one.
    let mut is_loose = false;
    for token in token_iter(compounds, limit) {
        if may_go_on(&word, token) && !token.blank && !is_loose && token.width <= limit - width {
            word.push(token)?;
            width += token.width;
            continue;
        }
        // The word has ended, or is wider than the limit, or is this token alone.
        if !word.is_empty() {
            lines.put_begun(alloc, &word, width, token.blank)?;
            word.clear();
            width = 0;
        }
        lines.put(alloc, token)?;
        is_loose = !token.blank;
    }
    lines.put_word(alloc, &word, width)?;
    lines.finish()
}

// Whether a token is one of several of a word that fits on a line, as far as can be told: most end before their compound does, where a
// blank comes, or a character with which the word is too wide.
fn may_go_on(word: &[Token], token: Token) -> bool
    ensures { result ≡ false → (word.now ≡ []) × (token.entry.end_in_compound ≢ length token.entry.compound.src.now) }
{
    !word.is_empty() || token.end_in_compound == token.compound.src.len()
}

// How many tokens lines mostly have: one in three columns. In a wide room they get more memory as they grow.
fn usual_tokens(room: Room) -> usize {
    room.width.min(120) / 3
}

/// Lines as pieces are put on them.
#[derive(Drop)]
pub(crate) struct WordLines<'s> {
    // The lines before the last.
    lines: Vec<WrappedLine<'s>>,
    // The last line.
    line: WrappedLine<'s>,
    // Where first fit has come.
    fit: FirstFit,
}

impl<'s> WordLines<'s> {
    ghost use Rattle.mad_wrap.specs.WordLines.{BeginsLine, IsAtFirst, PutsPiece, PutsPieces};
    ghost use Rattle.mad_wrap.specs.Words.{alone, together};

    // A first line without text.
    fn new(alloc: Global, room: Room) -> Result<Self, AllocError>
        ensures { IfOk result (λ lines. IsAtFirst room lines) }
    {
        let line = WrappedLine::with_capacity(alloc, usual_tokens(room))?;
        Ok(WordLines {
            lines: Vec::new(alloc),
            line,
            fit: FirstFit::new(room),
        })
    }

    // Puts a token alone.
    fn put(&mut self, alloc: Global, token: Token<'s>) -> Result<(), AllocError>
        requires { IsInCompound token }
        ensures { OnOk result (PutsPiece self.old (alone token.entry) self.new) }
    {
        match self.fit.put(token) {
            Put::OnLine => {}
            Put::OnNext => {
                // The same as below, so that the quick path keeps its values in registers.
                let next = WrappedLine::with_capacity(alloc, self.line.compounds.len())?;
                self.lines.push(mem::replace(&mut self.line, next))?;
            }
            Put::InGap => return Ok(()),
        }
        self.line.add(token.to_compound(), token.width)?;
        Ok(())
    }

    // Puts the tokens of a word: together where it has ended, else each alone.
    fn put_begun(
        &mut self,
        alloc: Global,
        word: &[Token<'s>],
        width: usize,
        ended: bool,
    ) -> Result<(), AllocError>
        requires within { AreInCompounds word.now }
        requires width { width ≡ total_width word.now }
        ensures { OnOk result (PutsPieces self.old (if ended then together word.now else map alone word.now) self.new) }
    {
        if ended {
            self.put_word(alloc, word, width)
        } else {
            self.put_each(alloc, word)
        }
    }

    // Puts the tokens of a word together, if there are any.
    fn put_word(
        &mut self,
        alloc: Global,
        word: &[Token<'s>],
        width: usize,
    ) -> Result<(), AllocError>
        requires within { AreInCompounds word.now }
        requires width { width ≡ total_width word.now }
        ensures { OnOk result (PutsPieces self.old (together word.now) self.new) }
    {
        let Some(first) = word.first() else {
            return Ok(());
        };
        match self.fit.put(Token { width, ..*first }) {
            Put::OnLine => {}
            Put::OnNext => self.begin_line(alloc)?,
            Put::InGap => return Ok(()),
        }
        add_tokens(&mut self.line, word)?;
        Ok(())
    }

    // Puts each of the tokens alone.
    fn put_each(&mut self, alloc: Global, tokens: &[Token<'s>]) -> Result<(), AllocError>
        requires { AreInCompounds tokens.now }
        ensures { OnOk result (PutsPieces self.old (map alone tokens.now) self.new) }
    {
        for token in tokens {
            self.put_word(alloc, &[*token], token.width)?;
        }
        Ok(())
    }

    // Begins the next line.
    fn begin_line(&mut self, alloc: Global) -> Result<(), AllocError>
        ensures { OnOk result (BeginsLine self.old self.new) }
    {
        // Most lines have about as many tokens as the one before.
        let next = WrappedLine::with_capacity(alloc, self.line.compounds.len())?;
        self.lines.push(mem::replace(&mut self.line, next))?;
        Ok(())
    }

    // All lines.
    fn finish(self) -> Result<Vec<WrappedLine<'s>>, AllocError>
        ensures { IfOk result (λ lines. lines.items ≡ self.entry.lines.items ++ self.entry.line ∷ []) }
    {
        let WordLines {
            mut lines,
            line,
            ..
        } = self;
        lines.push(line)?;
        Ok(lines)
    }
}

// Puts these tokens after the others of the line.
fn add_tokens<'s>(line: &mut WrappedLine<'s>, tokens: &[Token<'s>]) -> Result<(), AllocError>
    requires { AreInCompounds tokens.now }
    ensures { OnOk result (TakesTokens line.old tokens.now line.new) }
{
    for token in tokens {
        line.add(token.to_compound(), token.width)?;
    }
    Ok(())
}
