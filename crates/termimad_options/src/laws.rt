//! What callers rely on.

ghost use Rattle.termimad_options.specs.Laws.{LinksNeedStyles, NamesAskNothing, OptionsWin, PipesStayPlain, SomeCalls, SomeLanguages, SomeNames, SomePlaces, TerminalsPage};

/// Where standard output is no terminal, texts are written, nothing is redrawn, and there are no styles where no skin is named.
#[tactic(auto, using(crate::proofs::LawLemmas::pipes_plain))]
pub fn pipes_stay_plain()
    ensures { PipesStayPlain }
{}

/// Where there are no styles, nothing is written of where links lead.
#[tactic(auto, using(crate::proofs::LawLemmas::links_need_styles))]
pub fn links_need_styles()
    ensures { LinksNeedStyles }
{}

/// An option wins over a file's name, over what the terminal says, and over what is set.
#[tactic(auto, using(crate::proofs::LawLemmas::options_win))]
pub fn options_win()
    ensures { OptionsWin }
{}

/// A call of the program's name alone asks for nothing.
#[tactic(auto, using(crate::proofs::LawLemmas::nothing_asked))]
pub fn names_ask_nothing()
    ensures { NamesAskNothing }
{}

/// A call that asks for nothing pages on a terminal, in its columns and in the skin that suits it.
#[tactic(auto, using(crate::proofs::LawLemmas::terminals_page))]
pub fn terminals_page()
    ensures { TerminalsPage }
{}

/// Which words some calls take and refuse, and what they say.
#[tactic(auto, using(crate::proofs::LawLemmas::calls_read))]
pub fn calls_are_read()
    ensures { SomeCalls }
{}

/// How files of some names are read.
#[tactic(auto, using(crate::proofs::LawLemmas::names_read))]
pub fn names_are_read()
    ensures { SomeNames }
{}

/// Which languages some words say.
#[tactic(auto, using(crate::proofs::LawLemmas::languages_understood))]
pub fn languages_are_understood()
    ensures { SomeLanguages }
{}

/// Which words say where a text is shown first.
#[tactic(auto, using(crate::proofs::LawLemmas::places_read))]
pub fn places_are_read()
    ensures { SomePlaces }
{}
