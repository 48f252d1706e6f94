//! A call.

ghost use Rattle.std.specs.Prelude.{◌≡◌, MatchResult, map, option_map, string_bytes};
ghost use Rattle.termimad_command.specs.Calls.{is_misplaced};
ghost use Rattle.termimad_command.specs.Runs.{Acts, Answers, Fulfils, HasRun, IsNoted, IsUnnoted, Performs, ShowsTexts, TellsPlan, look_of, names_of, place_text};
ghost use Rattle.termimad_command.specs.Written.{streams};

use crate::asking::{Request, asked};
use crate::notices::say_notices;
use crate::refusals::{Refusal, refuse};
use crate::showing::show_texts;
use crate::skins::skin_of_word;
use crate::words::parted;
use crate::writing::{Look, flush, hand_on, write_out};
use mad_page_skin::PageSkin;
use mad_term::{Out, Source};
use std::alloc::Global;
use termimad_given::Texts;
use termimad_options::{Call, Plan, Surroundings, has_controls, plan_line, plan_of};

/// Does what the words after the program's name ask for, and answers the status.
///
/// The texts are written in their order, each as it is read, in the columns and the skin that are planned where the call is made, and then the
/// output is flushed; without a name the input is written. With `--stream` the input is written and flushed as it comes; with
/// `--live` it is shown so on a terminal, and what still changes is redrawn in place. Help and the version are written
/// too. Where the first word is `--plan`, what the call would do is written instead, as a line that a shell reads. Before texts are written, `err` gets a
/// line for each key that names no part of a skin, and one for a language that isn't known. A refusal is said once, on `err`.
/// Statuses are 0, and of a refusal 1 to 5 and 141.
pub fn run<T: Texts, I: Source, O: Out, E: Out>(
    alloc: Global,
    args: &[String],
    around: &Surroundings,
    texts: &T,
    input: &mut I,
    out: &mut O,
    err: &mut E,
) -> u8
    ensures { HasRun (T.holds texts.now) (map string_bytes args.now) around.now (streams (I.seen input.old) (O.seen out.old)) (E.seen err.old)
        result (streams (I.seen input.new) (O.seen out.new)) (E.seen err.new) }
{
    let Ok((plans, parted)) = parted(alloc, args) else {
        return refuse(alloc, err, Refusal::Memory);
    };
    let around = lent(around);
    let words = parted.words.as_slice();
    let ran = perform(
        alloc,
        plans,
        words,
        parted.place,
        &around,
        texts,
        input,
        out,
        err,
    );
    answer(alloc, err, ran)
}

// The same surroundings, as long as they are lent: the borrow checker shortens no loan that lies in a struct.
fn lent<'a>(around: &'a Surroundings) -> Surroundings<'a>
    ensures { result ≡ around.now }
{
    let skin = match around.skin {
        Some(skin) => Some(skin),
        None => None,
    };
    Surroundings {
        is_terminal: around.is_terminal,
        is_dumb: around.is_dumb,
        has_few_colors: around.has_few_colors,
        is_colorless: around.is_colorless,
        shade: around.shade,
        columns: around.columns,
        rows: around.rows,
        set_columns: around.set_columns,
        skin,
    }
}

// The status of a call; its refusal is said.
fn answer<E: Out>(alloc: Global, err: &mut E, ran: Result<(), Refusal>) -> u8
    ensures { Answers ran.entry (E.seen err.old) result (E.seen err.new) }
{
    match ran {
        Ok(()) => 0,
        Err(refusal) => refuse(alloc, err, refusal),
    }
}

// Does what the words ask for, or plans it.
fn perform<'a, T: Texts, I: Source, O: Out, E: Out>(
    alloc: Global,
    plans: bool,
    words: &'a [&str],
    place: Option<&str>,
    around: &Surroundings<'a>,
    texts: &T,
    input: &mut I,
    out: &mut O,
    err: &mut E,
) -> Result<(), Refusal<'a>>
    ensures { Performs (T.holds texts.now) plans (map (λ word. word.now) words.now) (option_map (λ word. word.now) place.entry) around.now
        (streams (I.seen input.old) (O.seen out.old)) (E.seen err.old) result (streams (I.seen input.new) (O.seen out.new)) (E.seen err.new) }
{
    if is_misplaced(place) {
        return Err(Refusal::Misplaced);
    }
    let request = asked(alloc, words)?;
    fulfil(alloc, plans, request, place, around, texts, input, out, err)
}

// Whether the word that says where a text is shown first has characters that a terminal obeys.
fn is_misplaced(place: Option<&str>) -> bool
    ensures { result ≡ is_misplaced (option_map (λ word. word.now) place.entry) }
{
    match place {
        Some(word) => has_controls(word),
        None => false,
    }
}

// Does what is asked for: a call, or the text of an answer is written.
fn fulfil<'a, T: Texts, I: Source, O: Out, E: Out>(
    alloc: Global,
    plans: bool,
    request: Request<'a>,
    place: Option<&str>,
    around: &Surroundings<'a>,
    texts: &T,
    input: &mut I,
    out: &mut O,
    err: &mut E,
) -> Result<(), Refusal<'a>>
    ensures { Fulfils (T.holds texts.now) plans request.entry (option_map (λ word. word.now) place.entry) around.now
        (streams (I.seen input.old) (O.seen out.old)) (E.seen err.old) result (streams (I.seen input.new) (O.seen out.new)) (E.seen err.new) }
{
    match request {
        Request::Answer(text) => write_out(out, &text),
        Request::Call(call) => {
            let plan = plan_of(&call, around);
            act(alloc, plans, &call, &plan, place, texts, input, out, err)
        }
    }
}

// Does a call that is planned so, or tells the plan.
fn act<'a, T: Texts, I: Source, O: Out, E: Out>(
    alloc: Global,
    plans: bool,
    call: &Call<'a>,
    plan: &Plan<'a>,
    place: Option<&str>,
    texts: &T,
    input: &mut I,
    out: &mut O,
    err: &mut E,
) -> Result<(), Refusal<'a>>
    ensures { Acts (T.holds texts.now) plans call.now plan.now (option_map (λ word. word.now) place.entry)
        (streams (I.seen input.old) (O.seen out.old)) (E.seen err.old) result (streams (I.seen input.new) (O.seen out.new)) (E.seen err.new) }
{
    if plans {
        tell_plan(alloc, call, plan, place, out)
    } else {
        show(alloc, call, plan, texts, input, out, err)
    }
}

// Writes what a call does, as a line that a shell reads.
fn tell_plan<'a, O: Out>(
    alloc: Global,
    call: &Call<'a>,
    plan: &Plan<'a>,
    place: Option<&str>,
    out: &mut O,
) -> Result<(), Refusal<'a>>
    ensures { TellsPlan call.now plan.now (option_map (λ word. word.now) place.entry) (O.seen out.old) result (O.seen out.new) }
{
    let names = names_of(call);
    let place = place_text(place);
    let Ok(line) = plan_line(alloc, plan, place, call.grammar, names) else {
        return Err(Refusal::Memory);
    };
    write_out(out, &line)
}

// The word that says where a text is shown first, or no text without one.
fn place_text(place: Option<&str>) -> &str
    ensures { result.now ≡ place_text (option_map (λ word. word.now) place.entry) }
{
    match place {
        Some(word) => word,
        None => "",
    }
}

// Shows the texts of a call. Where one can't be shown, those before it go out before that is said.
fn show<'a, T: Texts, I: Source, O: Out, E: Out>(
    alloc: Global,
    call: &Call<'a>,
    plan: &Plan<'a>,
    texts: &T,
    input: &mut I,
    out: &mut O,
    err: &mut E,
) -> Result<(), Refusal<'a>>
    ensures { ShowsTexts (T.holds texts.now) call.now plan.now (streams (I.seen input.old) (O.seen out.old)) (E.seen err.old) result
        (streams (I.seen input.new) (O.seen out.new)) (E.seen err.new) }
{
    let skin = skin_noted(alloc, call, plan, texts, err)?;
    let look = look_of(plan, skin);
    let names = names_of(call);
    match show_texts(alloc, &look, call.grammar, names, texts, input, out) {
        Ok(()) => flush(out),
        Err(refusal) => {
            hand_on(out);
            Err(refusal)
        }
    }
}

// The skin of a call; what isn't known of it and of the language is said.
fn skin_noted<'a, T: Texts, E: Out>(
    alloc: Global,
    call: &Call<'a>,
    plan: &Plan<'a>,
    texts: &T,
    err: &mut E,
) -> Result<PageSkin, Refusal<'a>>
    ensures { MatchResult result (λ skin. IsNoted (T.holds texts.now) call.now plan.now skin (E.seen err.old) (E.seen err.new))
        (λ refusal. IsUnnoted plan.now refusal (E.seen err.old) (E.seen err.new)) }
{
    let read = skin_of_word(alloc, texts, plan.skin)?;
    say_notices(alloc, err, call.grammar, read.1.as_slice())?;
    Ok(read.0)
}

// How texts are written by a plan, in this skin.
fn look_of(plan: &Plan, skin: PageSkin) -> Look
    ensures { result ≡ look_of plan.now skin }
{
    Look {
        skin,
        columns: plan.columns,
        is_styled: plan.skin != "none",
        streams: plan.streams,
        screen: plan.screen,
        says_links: plan.says_links,
    }
}

// The names of the texts of a call: that of the input, where it has none.
fn names_of<'c, 'a>(call: &'c Call<'a>) -> &'c [&'a str]
    ensures { map (λ name. name.now) result.now ≡ names_of call.now }
{
    let names = call.files.as_slice();
    if names.is_empty() {
        return &["-"];
    }
    names
}
