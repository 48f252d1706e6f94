//! What a block of bytes from the terminal does.

ghost use Rattle.std.specs.Prelude.{◌≡◌, IfOk, OnOk, None, Option, Some};
ghost use Rattle.mad_input.specs.Hearing.{PauseHears};
ghost use Rattle.mad_input.specs.declared.input.Heard.{Heard as SomeHeard};
ghost use Rattle.mad_pager.specs.Pagers.{view_of};
ghost use Rattle.mad_pager.specs.Sessions.{asks_size, end_of};
ghost use Rattle.termimad_page_run.specs.Blocks.{turn_heard, turn_told, AreHeardDone, IsBlockDone, IsEndedIn, IsHeardStep, IsToldDone, IsToldStep};

use mad_input::{Heard, TerminalInput};
use mad_pager::{End, Pager, Turn};
use std::alloc::{AllocError, Global};

/// Does what is heard of a block says, in order, and no more after what ends the session. Then comes a pause, if there is one. Last the
/// text is laid out for the size that the terminal told, if it told one. If something that is heard asks for the size of the screen, so does the answer.
///
/// # Errors
///
/// Out of memory is the only error.
pub(crate) fn apply_block(
    alloc: Global,
    pager: &mut Pager,
    terminal: &mut TerminalInput,
    block: &[u8],
    pauses: bool,
) -> Result<Turn, AllocError>
    ensures goes { IfOk result (λ turn. end_of turn ≡ None → IsBlockDone terminal.old block.now pauses (view_of pager.old) terminal.new (asks_size turn) (view_of pager.new)) }
    ensures ends { IfOk result (λ turn. (end : End) → end_of turn ≡ Some end → IsEndedIn terminal.old block.now (view_of pager.old) end) }
{
    let turn = apply_bytes(alloc, pager, terminal, block, pauses)?;
    pager.settle(alloc)?;
    Ok(turn)
}

// Does what is heard of a block says.
fn apply_bytes(
    alloc: Global,
    pager: &mut Pager,
    terminal: &mut TerminalInput,
    block: &[u8],
    pauses: bool,
) -> Result<Turn, AllocError>
    ensures goes { IfOk result (λ turn. end_of turn ≡ None → AreHeardDone terminal.old block.now pauses (view_of pager.old) terminal.new (asks_size turn) (view_of pager.new)) }
    ensures ends { IfOk result (λ turn. (end : End) → end_of turn ≡ Some end → IsEndedIn terminal.old block.now (view_of pager.old) end) }
{
    let mut asks = false;
    for b in block {
        let heard = terminal.byte(*b);
        let turn = apply_told(alloc, pager, heard)?;
        if let Some(end) = turn.end() {
            return Ok(Turn::Ends(end));
        }
        asks |= turn.asks_size();
    }
    let turn = turn_after(asks);
    if pauses {
        apply_pause(alloc, pager, terminal)?;
        return Ok(turn);
    }
    Ok(turn)
}

// How a session goes on that doesn't end.
fn turn_after(asks: bool) -> Turn
    ensures asks { asks_size result ≡ asks }
    ensures goes { end_of result ≡ None }
{
    if asks { Turn::AsksSize } else { Turn::Goes }
}

// Does what a pause says: a lone ESC that was typed is Esc, which never ends a session.
fn apply_pause(
    alloc: Global,
    pager: &mut Pager,
    terminal: &mut TerminalInput,
) -> Result<(), AllocError>
    ensures { OnOk result ((told : Option SomeHeard) × PauseHears terminal.old.mode terminal.old told terminal.new × IsToldDone told (view_of pager.old) (view_of pager.new)) }
{
    let heard = terminal.pause();
    apply_told(alloc, pager, heard)?;
    Ok(())
}

// Does what is heard, if anything is.
fn apply_told(alloc: Global, pager: &mut Pager, heard: Option<Heard>) -> Result<Turn, AllocError>
    ensures step { OnOk result (IsToldStep heard (view_of pager.old) (view_of pager.new)) }
    ensures turn { IfOk result (λ turn. turn ≡ turn_told heard (view_of pager.old)) }
{
    match heard {
        Some(heard) => apply_heard(alloc, pager, heard),
        None => Ok(Turn::Goes),
    }
}

// Does what is heard: an event that was typed, or one of a pasted text. A terminal that is ready is to be asked for its size.
fn apply_heard(alloc: Global, pager: &mut Pager, heard: Heard) -> Result<Turn, AllocError>
    ensures step { OnOk result (IsHeardStep heard (view_of pager.old) (view_of pager.new)) }
    ensures turn { IfOk result (λ turn. turn ≡ turn_heard heard (view_of pager.old)) }
{
    match heard {
        Heard::Typed(event) => pager.apply(alloc, event),
        Heard::Pasted(event) => {
            pager.paste(event)?;
            Ok(Turn::Goes)
        }
        Heard::Ready => Ok(Turn::AsksSize),
    }
}
