// Written by tools/code_tables. Do not edit.
//! The tables of languages.

ghost use Rattle.std.specs.Prelude.{◌≡◌, map};
ghost use Rattle.code_tables.specs.Rules.{word_of, mode_of};
ghost use Rattle.code_tables.specs.Heads.{by_head, heads_in};
ghost use Rattle.code_tables.specs.Tables.{sh_rules_0, sh_rules_1, sh_rules_2, sh_rules_3, console_rules_0, console_rules_1, console_rules_2, console_rules_3, console_rules_4, python_rules_0, pycon_rules_0, pycon_rules_1, rust_rules_0, rust_rules_1, javascript_rules_0, javascript_rules_1, javascript_rules_2, typescript_rules_0, typescript_rules_1, typescript_rules_2, json_rules_0, yaml_rules_0, toml_rules_0, ini_rules_0, ini_rules_1, ini_rules_2, diff_rules_0, xml_rules_0, xml_rules_1, html_rules_0, html_rules_1, html_rules_2, html_rules_3, html_rules_4, html_rules_5, css_rules_0, css_rules_1, css_rules_2, c_rules_0, c_rules_1, cpp_rules_0, cpp_rules_1, java_rules_0, csharp_rules_0, csharp_rules_1, kotlin_rules_0, swift_rules_0, go_rules_0, protobuf_rules_0, php_rules_0, php_rules_1, php_rules_2, php_rules_3, ruby_rules_0, ruby_rules_1, ruby_rules_2, perl_rules_0, lua_rules_0, sql_rules_0, make_rules_0, make_rules_1, make_rules_2, make_rules_3, dockerfile_rules_0, dockerfile_rules_1, dockerfile_rules_2, dockerfile_rules_3, cmake_rules_0, lisp_rules_0, haskell_rules_0, sh_0, sh_1, sh_2, sh_3, console_0, console_1, console_2, console_3, console_4, python_0, pycon_0, pycon_1, rust_0, rust_1, javascript_0, javascript_1, javascript_2, typescript_0, typescript_1, typescript_2, json_0, yaml_0, toml_0, ini_0, ini_1, ini_2, diff_0, xml_0, xml_1, html_0, html_1, html_2, html_3, html_4, html_5, css_0, css_1, css_2, c_0, c_1, cpp_0, cpp_1, java_0, csharp_0, csharp_1, kotlin_0, swift_0, go_0, protobuf_0, php_0, php_1, php_2, php_3, ruby_0, ruby_1, ruby_2, perl_0, lua_0, sql_0, make_0, make_1, make_2, make_3, dockerfile_0, dockerfile_1, dockerfile_2, dockerfile_3, cmake_0, lisp_0, haskell_0, sh_mode, sh_rules, console_mode, console_rules, python_mode, python_rules, pycon_mode, pycon_rules, rust_mode, rust_rules, javascript_mode, javascript_rules, typescript_mode, typescript_rules, json_mode, json_rules, yaml_mode, yaml_rules, toml_mode, toml_rules, ini_mode, ini_rules, diff_mode, diff_rules, xml_mode, xml_rules, html_mode, html_rules, css_mode, css_rules, c_mode, c_rules, cpp_mode, cpp_rules, java_mode, java_rules, csharp_mode, csharp_rules, kotlin_mode, kotlin_rules, swift_mode, swift_rules, go_mode, go_rules, protobuf_mode, protobuf_rules, php_mode, php_rules, ruby_mode, ruby_rules, perl_mode, perl_rules, lua_mode, lua_rules, sql_mode, sql_rules, make_mode, make_rules, dockerfile_mode, dockerfile_rules, cmake_mode, cmake_rules, lisp_mode, lisp_rules, haskell_mode, haskell_rules, sh_words, python_words, rust_words, javascript_words, typescript_words, json_words, toml_words, c_words, cpp_words, java_words, csharp_words, kotlin_words, swift_words, go_words, protobuf_words, php_words, ruby_words, perl_words, lua_words, sql_words, make_words, make_words21, cmake_words, lisp_words, haskell_words, mode_at, rules_at, words_with};

use crate::rules::{Class, Escape, Extent, Language, ModeRow, Place, RuleRow, Turn, Words};

/// A mode of a language, with its rules.
pub fn mode_at(language: Language, n: usize) -> ModeRow
    ensures words { mode_of result ≡ mode_at language n }
    ensures rules { heads_in result ≡ by_head (rules_at language n) }
{
    match language {
        Language::Sh => sh_mode(n),
        Language::Console => console_mode(n),
        Language::Python => python_mode(n),
        Language::Pycon => pycon_mode(n),
        Language::Rust => rust_mode(n),
        Language::Javascript => javascript_mode(n),
        Language::Typescript => typescript_mode(n),
        Language::Json => json_mode(n),
        Language::Yaml => yaml_mode(n),
        Language::Toml => toml_mode(n),
        Language::Ini => ini_mode(n),
        Language::Diff => diff_mode(n),
        Language::Xml => xml_mode(n),
        Language::Html => html_mode(n),
        Language::Css => css_mode(n),
        Language::C => c_mode(n),
        Language::Cpp => cpp_mode(n),
        Language::Java => java_mode(n),
        Language::Csharp => csharp_mode(n),
        Language::Kotlin => kotlin_mode(n),
        Language::Swift => swift_mode(n),
        Language::Go => go_mode(n),
        Language::Protobuf => protobuf_mode(n),
        Language::Php => php_mode(n),
        Language::Ruby => ruby_mode(n),
        Language::Perl => perl_mode(n),
        Language::Lua => lua_mode(n),
        Language::Sql => sql_mode(n),
        Language::Make => make_mode(n),
        Language::Dockerfile => dockerfile_mode(n),
        Language::Cmake => cmake_mode(n),
        Language::Lisp => lisp_mode(n),
        Language::Haskell => haskell_mode(n),
    }
}

/// The words of so many bytes.
pub fn words_with(words: Words, len: usize) -> &'static [(&'static str, Class)]
    ensures { map word_of result.now ≡ words_with words len }
{
    match words {
        Words::NoWords => &[],
        Words::ShWords => sh_words(len),
        Words::PythonWords => python_words(len),
        Words::RustWords => rust_words(len),
        Words::JavascriptWords => javascript_words(len),
        Words::TypescriptWords => typescript_words(len),
        Words::JsonWords => json_words(len),
        Words::TomlWords => toml_words(len),
        Words::CWords => c_words(len),
        Words::CppWords => cpp_words(len),
        Words::JavaWords => java_words(len),
        Words::CsharpWords => csharp_words(len),
        Words::KotlinWords => kotlin_words(len),
        Words::SwiftWords => swift_words(len),
        Words::GoWords => go_words(len),
        Words::ProtobufWords => protobuf_words(len),
        Words::PhpWords => php_words(len),
        Words::RubyWords => ruby_words(len),
        Words::PerlWords => perl_words(len),
        Words::LuaWords => lua_words(len),
        Words::SqlWords => sql_words(len),
        Words::MakeWords => make_words(len),
        Words::MakeWords21 => make_words21(len),
        Words::CmakeWords => cmake_words(len),
        Words::LispWords => lisp_words(len),
        Words::HaskellWords => haskell_words(len),
    }
}

macro_rules! rule {
    ($place:ident, $mark:literal, $extent:expr, $close:literal, $followed:expr, $class:ident, $turn:expr) => {
        RuleRow {
            place: Place::$place,
            mark: $mark,
            extent: $extent,
            close: $close,
            followed: $followed,
            class: Class::$class,
            turn: $turn,
        }
    };
}

fn sh_mode(n: usize) -> ModeRow
    ensures words { mode_of result ≡ sh_mode n }
    ensures rules { heads_in result ≡ by_head (sh_rules n) }
{
    match n {
        1 => sh_1(),
        2 => sh_2(),
        3 => sh_3(),
        _ => sh_0(),
    }
}

#[tactic(auto, unfolding(crate::specs::Heads::by_head))]
fn sh_0() -> ModeRow
    ensures words { mode_of result ≡ sh_0 }
    ensures rules { heads_in result ≡ by_head sh_rules_0 }
{
    ModeRow {
        places: "0000000000000000000000000000000000316004700000000000000000002000000000000000000000000000000050008000000000000000000000000000000000000000000000000000000000000000000000000000000000000000000000000000000000000000000000000000000000000000000000000000000000000000",
        rules: &SH_0_RULES,
        words: Words::ShWords,
        starts: "",
        more: "",
        otherwise: Class::Plain,
        members: false,
        capitals: false,
        numbers: false,
        folds: false,
    }
}

#[rattlefmt::skip]
static SH_0_RULES: [&[RuleRow]; 9] = [
    &[
        rule!(Apart, "", Extent::Word, "", &["=", "+="], Key, Turn::Stays),
        rule!(Apart, "", Extent::Digits, "", &[], Number, Turn::Stays),
    ],
    &[
        rule!(Apart, "#", Extent::Line, "", &[], Comment, Turn::Stays),
        rule!(Apart, "", Extent::Word, "", &["=", "+="], Key, Turn::Stays),
        rule!(Apart, "", Extent::Digits, "", &[], Number, Turn::Stays),
    ],
    &[
        rule!(Anywhere, "<<<", Extent::Itself, "", &[], Plain, Turn::Stays),
        rule!(Anywhere, "<<", Extent::Labelled(false), "", &[], Text, Turn::Stays),
        rule!(Apart, "", Extent::Word, "", &["=", "+="], Key, Turn::Stays),
        rule!(Apart, "", Extent::Digits, "", &[], Number, Turn::Stays),
    ],
    &[
        rule!(Anywhere, "\"", Extent::Itself, "", &[], Text, Turn::Enters(1)),
        rule!(Apart, "", Extent::Word, "", &["=", "+="], Key, Turn::Stays),
        rule!(Apart, "", Extent::Digits, "", &[], Number, Turn::Stays),
    ],
    &[
        rule!(Anywhere, "'", Extent::ThroughLines(Escape::Never), "'", &[], Text, Turn::Stays),
        rule!(Apart, "", Extent::Word, "", &["=", "+="], Key, Turn::Stays),
        rule!(Apart, "", Extent::Digits, "", &[], Number, Turn::Stays),
    ],
    &[
        rule!(Anywhere, "\\", Extent::OneMore, "", &[], Text, Turn::Stays),
        rule!(Apart, "", Extent::Word, "", &["=", "+="], Key, Turn::Stays),
        rule!(Apart, "", Extent::Digits, "", &[], Number, Turn::Stays),
    ],
    &[
        rule!(Anywhere, "$'", Extent::ThroughLines(Escape::Backslash), "'", &[], Text, Turn::Stays),
        rule!(Apart, "", Extent::Word, "", &["=", "+="], Key, Turn::Stays),
        rule!(Apart, "", Extent::Digits, "", &[], Number, Turn::Stays),
        rule!(Anywhere, "${", Extent::Itself, "", &[], Key, Turn::Enters(3)),
        rule!(Anywhere, "$(", Extent::Itself, "", &[], Plain, Turn::Enters(2)),
        rule!(Anywhere, "$", Extent::Word, "", &[], Key, Turn::Stays),
        rule!(Anywhere, "$#", Extent::Itself, "", &[], Key, Turn::Stays),
        rule!(Anywhere, "$@", Extent::Itself, "", &[], Key, Turn::Stays),
        rule!(Anywhere, "$*", Extent::Itself, "", &[], Key, Turn::Stays),
        rule!(Anywhere, "$?", Extent::Itself, "", &[], Key, Turn::Stays),
        rule!(Anywhere, "$!", Extent::Itself, "", &[], Key, Turn::Stays),
        rule!(Anywhere, "$$", Extent::Itself, "", &[], Key, Turn::Stays),
        rule!(Anywhere, "$-", Extent::Itself, "", &[], Key, Turn::Stays),
    ],
    &[
        rule!(Apart, "", Extent::Word, "", &["=", "+="], Key, Turn::Stays),
        rule!(Apart, "", Extent::Digits, "", &[], Number, Turn::Stays),
        rule!(Anywhere, "(", Extent::Itself, "", &[], Plain, Turn::Enters(2)),
    ],
    &[
        rule!(Apart, "", Extent::Word, "", &["=", "+="], Key, Turn::Stays),
        rule!(Apart, "", Extent::Digits, "", &[], Number, Turn::Stays),
        rule!(Anywhere, "`", Extent::Itself, "", &[], Text, Turn::Stays),
    ],
];

#[tactic(auto, unfolding(crate::specs::Heads::by_head))]
fn sh_1() -> ModeRow
    ensures words { mode_of result ≡ sh_1 }
    ensures rules { heads_in result ≡ by_head sh_rules_1 }
{
    ModeRow {
        places: "0000000000000000000000000000000000203000000000000000000000000000000000000000000000000000000010000000000000000000000000000000000000000000000000000000000000000000000000000000000000000000000000000000000000000000000000000000000000000000000000000000000000000000",
        rules: &SH_1_RULES,
        words: Words::NoWords,
        starts: "",
        more: "",
        otherwise: Class::Text,
        members: true,
        capitals: false,
        numbers: false,
        folds: false,
    }
}

#[rattlefmt::skip]
static SH_1_RULES: [&[RuleRow]; 4] = [
    &[],
    &[
        rule!(Anywhere, "\\", Extent::OneMore, "", &[], Text, Turn::Stays),
    ],
    &[
        rule!(Anywhere, "\"", Extent::Itself, "", &[], Text, Turn::Leaves),
    ],
    &[
        rule!(Anywhere, "${", Extent::Itself, "", &[], Key, Turn::Enters(3)),
        rule!(Anywhere, "$(", Extent::Itself, "", &[], Plain, Turn::Enters(2)),
        rule!(Anywhere, "$", Extent::Word, "", &[], Key, Turn::Stays),
        rule!(Anywhere, "$#", Extent::Itself, "", &[], Key, Turn::Stays),
        rule!(Anywhere, "$@", Extent::Itself, "", &[], Key, Turn::Stays),
        rule!(Anywhere, "$*", Extent::Itself, "", &[], Key, Turn::Stays),
        rule!(Anywhere, "$?", Extent::Itself, "", &[], Key, Turn::Stays),
        rule!(Anywhere, "$!", Extent::Itself, "", &[], Key, Turn::Stays),
        rule!(Anywhere, "$$", Extent::Itself, "", &[], Key, Turn::Stays),
        rule!(Anywhere, "$-", Extent::Itself, "", &[], Key, Turn::Stays),
    ],
];

#[tactic(auto, unfolding(crate::specs::Heads::by_head))]
fn sh_2() -> ModeRow
    ensures words { mode_of result ≡ sh_2 }
    ensures rules { heads_in result ≡ by_head sh_rules_2 }
{
    ModeRow {
        places: "0000000000000000000000000000000000427005810000000000000000003000000000000000000000000000000060009000000000000000000000000000000000000000000000000000000000000000000000000000000000000000000000000000000000000000000000000000000000000000000000000000000000000000",
        rules: &SH_2_RULES,
        words: Words::ShWords,
        starts: "",
        more: "",
        otherwise: Class::Plain,
        members: false,
        capitals: false,
        numbers: false,
        folds: false,
    }
}

#[rattlefmt::skip]
static SH_2_RULES: [&[RuleRow]; 10] = [
    &[
        rule!(Apart, "", Extent::Word, "", &["=", "+="], Key, Turn::Stays),
        rule!(Apart, "", Extent::Digits, "", &[], Number, Turn::Stays),
    ],
    &[
        rule!(Anywhere, ")", Extent::Itself, "", &[], Plain, Turn::Leaves),
        rule!(Apart, "", Extent::Word, "", &["=", "+="], Key, Turn::Stays),
        rule!(Apart, "", Extent::Digits, "", &[], Number, Turn::Stays),
    ],
    &[
        rule!(Apart, "#", Extent::Line, "", &[], Comment, Turn::Stays),
        rule!(Apart, "", Extent::Word, "", &["=", "+="], Key, Turn::Stays),
        rule!(Apart, "", Extent::Digits, "", &[], Number, Turn::Stays),
    ],
    &[
        rule!(Anywhere, "<<<", Extent::Itself, "", &[], Plain, Turn::Stays),
        rule!(Anywhere, "<<", Extent::Labelled(false), "", &[], Text, Turn::Stays),
        rule!(Apart, "", Extent::Word, "", &["=", "+="], Key, Turn::Stays),
        rule!(Apart, "", Extent::Digits, "", &[], Number, Turn::Stays),
    ],
    &[
        rule!(Anywhere, "\"", Extent::Itself, "", &[], Text, Turn::Enters(1)),
        rule!(Apart, "", Extent::Word, "", &["=", "+="], Key, Turn::Stays),
        rule!(Apart, "", Extent::Digits, "", &[], Number, Turn::Stays),
    ],
    &[
        rule!(Anywhere, "'", Extent::ThroughLines(Escape::Never), "'", &[], Text, Turn::Stays),
        rule!(Apart, "", Extent::Word, "", &["=", "+="], Key, Turn::Stays),
        rule!(Apart, "", Extent::Digits, "", &[], Number, Turn::Stays),
    ],
    &[
        rule!(Anywhere, "\\", Extent::OneMore, "", &[], Text, Turn::Stays),
        rule!(Apart, "", Extent::Word, "", &["=", "+="], Key, Turn::Stays),
        rule!(Apart, "", Extent::Digits, "", &[], Number, Turn::Stays),
    ],
    &[
        rule!(Anywhere, "$'", Extent::ThroughLines(Escape::Backslash), "'", &[], Text, Turn::Stays),
        rule!(Apart, "", Extent::Word, "", &["=", "+="], Key, Turn::Stays),
        rule!(Apart, "", Extent::Digits, "", &[], Number, Turn::Stays),
        rule!(Anywhere, "${", Extent::Itself, "", &[], Key, Turn::Enters(3)),
        rule!(Anywhere, "$(", Extent::Itself, "", &[], Plain, Turn::Enters(2)),
        rule!(Anywhere, "$", Extent::Word, "", &[], Key, Turn::Stays),
        rule!(Anywhere, "$#", Extent::Itself, "", &[], Key, Turn::Stays),
        rule!(Anywhere, "$@", Extent::Itself, "", &[], Key, Turn::Stays),
        rule!(Anywhere, "$*", Extent::Itself, "", &[], Key, Turn::Stays),
        rule!(Anywhere, "$?", Extent::Itself, "", &[], Key, Turn::Stays),
        rule!(Anywhere, "$!", Extent::Itself, "", &[], Key, Turn::Stays),
        rule!(Anywhere, "$$", Extent::Itself, "", &[], Key, Turn::Stays),
        rule!(Anywhere, "$-", Extent::Itself, "", &[], Key, Turn::Stays),
    ],
    &[
        rule!(Apart, "", Extent::Word, "", &["=", "+="], Key, Turn::Stays),
        rule!(Apart, "", Extent::Digits, "", &[], Number, Turn::Stays),
        rule!(Anywhere, "(", Extent::Itself, "", &[], Plain, Turn::Enters(2)),
    ],
    &[
        rule!(Apart, "", Extent::Word, "", &["=", "+="], Key, Turn::Stays),
        rule!(Apart, "", Extent::Digits, "", &[], Number, Turn::Stays),
        rule!(Anywhere, "`", Extent::Itself, "", &[], Text, Turn::Stays),
    ],
];

#[tactic(auto, unfolding(crate::specs::Heads::by_head))]
fn sh_3() -> ModeRow
    ensures words { mode_of result ≡ sh_3 }
    ensures rules { heads_in result ≡ by_head sh_rules_3 }
{
    ModeRow {
        places: "0000000000000000000000000000000000204000000000000000000000000000000000000000000000000000000030000000000000000000000000000000010000000000000000000000000000000000000000000000000000000000000000000000000000000000000000000000000000000000000000000000000000000000",
        rules: &SH_3_RULES,
        words: Words::NoWords,
        starts: "",
        more: "",
        otherwise: Class::Key,
        members: true,
        capitals: false,
        numbers: false,
        folds: false,
    }
}

#[rattlefmt::skip]
static SH_3_RULES: [&[RuleRow]; 5] = [
    &[],
    &[
        rule!(Anywhere, "}", Extent::Itself, "", &[], Key, Turn::Leaves),
    ],
    &[
        rule!(Anywhere, "\"", Extent::Itself, "", &[], Text, Turn::Enters(1)),
    ],
    &[
        rule!(Anywhere, "\\", Extent::OneMore, "", &[], Text, Turn::Stays),
    ],
    &[
        rule!(Anywhere, "${", Extent::Itself, "", &[], Key, Turn::Enters(3)),
        rule!(Anywhere, "$(", Extent::Itself, "", &[], Plain, Turn::Enters(2)),
        rule!(Anywhere, "$", Extent::Word, "", &[], Key, Turn::Stays),
        rule!(Anywhere, "$#", Extent::Itself, "", &[], Key, Turn::Stays),
        rule!(Anywhere, "$@", Extent::Itself, "", &[], Key, Turn::Stays),
        rule!(Anywhere, "$*", Extent::Itself, "", &[], Key, Turn::Stays),
        rule!(Anywhere, "$?", Extent::Itself, "", &[], Key, Turn::Stays),
        rule!(Anywhere, "$!", Extent::Itself, "", &[], Key, Turn::Stays),
        rule!(Anywhere, "$$", Extent::Itself, "", &[], Key, Turn::Stays),
        rule!(Anywhere, "$-", Extent::Itself, "", &[], Key, Turn::Stays),
    ],
];

fn console_mode(n: usize) -> ModeRow
    ensures words { mode_of result ≡ console_mode n }
    ensures rules { heads_in result ≡ by_head (console_rules n) }
{
    match n {
        1 => console_1(),
        2 => console_2(),
        3 => console_3(),
        4 => console_4(),
        _ => console_0(),
    }
}

#[tactic(auto, unfolding(crate::specs::Heads::by_head))]
fn console_0() -> ModeRow
    ensures words { mode_of result ≡ console_0 }
    ensures rules { heads_in result ≡ by_head console_rules_0 }
{
    ModeRow {
        places: "0000000000000000000000000000000000021300000000000000000000000040000000000000000000000000000000000000000000000000000000000000000000000000000000000000000000000000000000000000000000000000000000000000000000000000000000000000000000000000000000000000000000000000",
        rules: &CONSOLE_0_RULES,
        words: Words::NoWords,
        starts: "",
        more: "",
        otherwise: Class::Plain,
        members: true,
        capitals: false,
        numbers: false,
        folds: false,
    }
}

#[rattlefmt::skip]
static CONSOLE_0_RULES: [&[RuleRow]; 5] = [
    &[],
    &[
        rule!(FirstWord, "$ ", Extent::Itself, "", &[], Key, Turn::Enters(1)),
    ],
    &[
        rule!(FirstWord, "# ", Extent::Itself, "", &[], Key, Turn::Enters(1)),
    ],
    &[
        rule!(FirstWord, "% ", Extent::Itself, "", &[], Key, Turn::Enters(1)),
    ],
    &[
        rule!(FirstWord, "> ", Extent::Itself, "", &[], Key, Turn::Enters(1)),
    ],
];

#[tactic(auto, unfolding(crate::specs::Heads::by_head))]
fn console_1() -> ModeRow
    ensures words { mode_of result ≡ console_1 }
    ensures rules { heads_in result ≡ by_head console_rules_1 }
{
    ModeRow {
        places: "0000000000100000000000000000000000427005800000000000000000003000000000000000000000000000000060009000000000000000000000000000000000000000000000000000000000000000000000000000000000000000000000000000000000000000000000000000000000000000000000000000000000000000",
        rules: &CONSOLE_1_RULES,
        words: Words::ShWords,
        starts: "",
        more: "",
        otherwise: Class::Plain,
        members: false,
        capitals: false,
        numbers: false,
        folds: false,
    }
}

#[rattlefmt::skip]
static CONSOLE_1_RULES: [&[RuleRow]; 10] = [
    &[
        rule!(Apart, "", Extent::Word, "", &["=", "+="], Key, Turn::Stays),
        rule!(Apart, "", Extent::Digits, "", &[], Number, Turn::Stays),
    ],
    &[
        rule!(Anywhere, "\n", Extent::Itself, "", &[], Plain, Turn::Leaves),
        rule!(Apart, "", Extent::Word, "", &["=", "+="], Key, Turn::Stays),
        rule!(Apart, "", Extent::Digits, "", &[], Number, Turn::Stays),
    ],
    &[
        rule!(Apart, "#", Extent::Line, "", &[], Comment, Turn::Stays),
        rule!(Apart, "", Extent::Word, "", &["=", "+="], Key, Turn::Stays),
        rule!(Apart, "", Extent::Digits, "", &[], Number, Turn::Stays),
    ],
    &[
        rule!(Anywhere, "<<<", Extent::Itself, "", &[], Plain, Turn::Stays),
        rule!(Anywhere, "<<", Extent::Labelled(false), "", &[], Text, Turn::Stays),
        rule!(Apart, "", Extent::Word, "", &["=", "+="], Key, Turn::Stays),
        rule!(Apart, "", Extent::Digits, "", &[], Number, Turn::Stays),
    ],
    &[
        rule!(Anywhere, "\"", Extent::Itself, "", &[], Text, Turn::Enters(2)),
        rule!(Apart, "", Extent::Word, "", &["=", "+="], Key, Turn::Stays),
        rule!(Apart, "", Extent::Digits, "", &[], Number, Turn::Stays),
    ],
    &[
        rule!(Anywhere, "'", Extent::ThroughLines(Escape::Never), "'", &[], Text, Turn::Stays),
        rule!(Apart, "", Extent::Word, "", &["=", "+="], Key, Turn::Stays),
        rule!(Apart, "", Extent::Digits, "", &[], Number, Turn::Stays),
    ],
    &[
        rule!(Anywhere, "\\\n", Extent::Itself, "", &[], Text, Turn::Stays),
        rule!(Anywhere, "\\", Extent::OneMore, "", &[], Text, Turn::Stays),
        rule!(Apart, "", Extent::Word, "", &["=", "+="], Key, Turn::Stays),
        rule!(Apart, "", Extent::Digits, "", &[], Number, Turn::Stays),
    ],
    &[
        rule!(Anywhere, "$'", Extent::ThroughLines(Escape::Backslash), "'", &[], Text, Turn::Stays),
        rule!(Apart, "", Extent::Word, "", &["=", "+="], Key, Turn::Stays),
        rule!(Apart, "", Extent::Digits, "", &[], Number, Turn::Stays),
        rule!(Anywhere, "${", Extent::Itself, "", &[], Key, Turn::Enters(4)),
        rule!(Anywhere, "$(", Extent::Itself, "", &[], Plain, Turn::Enters(3)),
        rule!(Anywhere, "$", Extent::Word, "", &[], Key, Turn::Stays),
        rule!(Anywhere, "$#", Extent::Itself, "", &[], Key, Turn::Stays),
        rule!(Anywhere, "$@", Extent::Itself, "", &[], Key, Turn::Stays),
        rule!(Anywhere, "$*", Extent::Itself, "", &[], Key, Turn::Stays),
        rule!(Anywhere, "$?", Extent::Itself, "", &[], Key, Turn::Stays),
        rule!(Anywhere, "$!", Extent::Itself, "", &[], Key, Turn::Stays),
        rule!(Anywhere, "$$", Extent::Itself, "", &[], Key, Turn::Stays),
        rule!(Anywhere, "$-", Extent::Itself, "", &[], Key, Turn::Stays),
    ],
    &[
        rule!(Apart, "", Extent::Word, "", &["=", "+="], Key, Turn::Stays),
        rule!(Apart, "", Extent::Digits, "", &[], Number, Turn::Stays),
        rule!(Anywhere, "(", Extent::Itself, "", &[], Plain, Turn::Enters(3)),
    ],
    &[
        rule!(Apart, "", Extent::Word, "", &["=", "+="], Key, Turn::Stays),
        rule!(Apart, "", Extent::Digits, "", &[], Number, Turn::Stays),
        rule!(Anywhere, "`", Extent::Itself, "", &[], Text, Turn::Stays),
    ],
];

#[tactic(auto, unfolding(crate::specs::Heads::by_head))]
fn console_2() -> ModeRow
    ensures words { mode_of result ≡ console_2 }
    ensures rules { heads_in result ≡ by_head console_rules_2 }
{
    ModeRow {
        places: "0000000000000000000000000000000000203000000000000000000000000000000000000000000000000000000010000000000000000000000000000000000000000000000000000000000000000000000000000000000000000000000000000000000000000000000000000000000000000000000000000000000000000000",
        rules: &CONSOLE_2_RULES,
        words: Words::NoWords,
        starts: "",
        more: "",
        otherwise: Class::Text,
        members: true,
        capitals: false,
        numbers: false,
        folds: false,
    }
}

#[rattlefmt::skip]
static CONSOLE_2_RULES: [&[RuleRow]; 4] = [
    &[],
    &[
        rule!(Anywhere, "\\", Extent::OneMore, "", &[], Text, Turn::Stays),
    ],
    &[
        rule!(Anywhere, "\"", Extent::Itself, "", &[], Text, Turn::Leaves),
    ],
    &[
        rule!(Anywhere, "${", Extent::Itself, "", &[], Key, Turn::Enters(4)),
        rule!(Anywhere, "$(", Extent::Itself, "", &[], Plain, Turn::Enters(3)),
        rule!(Anywhere, "$", Extent::Word, "", &[], Key, Turn::Stays),
        rule!(Anywhere, "$#", Extent::Itself, "", &[], Key, Turn::Stays),
        rule!(Anywhere, "$@", Extent::Itself, "", &[], Key, Turn::Stays),
        rule!(Anywhere, "$*", Extent::Itself, "", &[], Key, Turn::Stays),
        rule!(Anywhere, "$?", Extent::Itself, "", &[], Key, Turn::Stays),
        rule!(Anywhere, "$!", Extent::Itself, "", &[], Key, Turn::Stays),
        rule!(Anywhere, "$$", Extent::Itself, "", &[], Key, Turn::Stays),
        rule!(Anywhere, "$-", Extent::Itself, "", &[], Key, Turn::Stays),
    ],
];

#[tactic(auto, unfolding(crate::specs::Heads::by_head))]
fn console_3() -> ModeRow
    ensures words { mode_of result ≡ console_3 }
    ensures rules { heads_in result ≡ by_head console_rules_3 }
{
    ModeRow {
        places: "0000000000000000000000000000000000427005810000000000000000003000000000000000000000000000000060009000000000000000000000000000000000000000000000000000000000000000000000000000000000000000000000000000000000000000000000000000000000000000000000000000000000000000",
        rules: &CONSOLE_3_RULES,
        words: Words::ShWords,
        starts: "",
        more: "",
        otherwise: Class::Plain,
        members: false,
        capitals: false,
        numbers: false,
        folds: false,
    }
}

#[rattlefmt::skip]
static CONSOLE_3_RULES: [&[RuleRow]; 10] = [
    &[
        rule!(Apart, "", Extent::Word, "", &["=", "+="], Key, Turn::Stays),
        rule!(Apart, "", Extent::Digits, "", &[], Number, Turn::Stays),
    ],
    &[
        rule!(Anywhere, ")", Extent::Itself, "", &[], Plain, Turn::Leaves),
        rule!(Apart, "", Extent::Word, "", &["=", "+="], Key, Turn::Stays),
        rule!(Apart, "", Extent::Digits, "", &[], Number, Turn::Stays),
    ],
    &[
        rule!(Apart, "#", Extent::Line, "", &[], Comment, Turn::Stays),
        rule!(Apart, "", Extent::Word, "", &["=", "+="], Key, Turn::Stays),
        rule!(Apart, "", Extent::Digits, "", &[], Number, Turn::Stays),
    ],
    &[
        rule!(Anywhere, "<<<", Extent::Itself, "", &[], Plain, Turn::Stays),
        rule!(Anywhere, "<<", Extent::Labelled(false), "", &[], Text, Turn::Stays),
        rule!(Apart, "", Extent::Word, "", &["=", "+="], Key, Turn::Stays),
        rule!(Apart, "", Extent::Digits, "", &[], Number, Turn::Stays),
    ],
    &[
        rule!(Anywhere, "\"", Extent::Itself, "", &[], Text, Turn::Enters(2)),
        rule!(Apart, "", Extent::Word, "", &["=", "+="], Key, Turn::Stays),
        rule!(Apart, "", Extent::Digits, "", &[], Number, Turn::Stays),
    ],
    &[
        rule!(Anywhere, "'", Extent::ThroughLines(Escape::Never), "'", &[], Text, Turn::Stays),
        rule!(Apart, "", Extent::Word, "", &["=", "+="], Key, Turn::Stays),
        rule!(Apart, "", Extent::Digits, "", &[], Number, Turn::Stays),
    ],
    &[
        rule!(Anywhere, "\\", Extent::OneMore, "", &[], Text, Turn::Stays),
        rule!(Apart, "", Extent::Word, "", &["=", "+="], Key, Turn::Stays),
        rule!(Apart, "", Extent::Digits, "", &[], Number, Turn::Stays),
    ],
    &[
        rule!(Anywhere, "$'", Extent::ThroughLines(Escape::Backslash), "'", &[], Text, Turn::Stays),
        rule!(Apart, "", Extent::Word, "", &["=", "+="], Key, Turn::Stays),
        rule!(Apart, "", Extent::Digits, "", &[], Number, Turn::Stays),
        rule!(Anywhere, "${", Extent::Itself, "", &[], Key, Turn::Enters(4)),
        rule!(Anywhere, "$(", Extent::Itself, "", &[], Plain, Turn::Enters(3)),
        rule!(Anywhere, "$", Extent::Word, "", &[], Key, Turn::Stays),
        rule!(Anywhere, "$#", Extent::Itself, "", &[], Key, Turn::Stays),
        rule!(Anywhere, "$@", Extent::Itself, "", &[], Key, Turn::Stays),
        rule!(Anywhere, "$*", Extent::Itself, "", &[], Key, Turn::Stays),
        rule!(Anywhere, "$?", Extent::Itself, "", &[], Key, Turn::Stays),
        rule!(Anywhere, "$!", Extent::Itself, "", &[], Key, Turn::Stays),
        rule!(Anywhere, "$$", Extent::Itself, "", &[], Key, Turn::Stays),
        rule!(Anywhere, "$-", Extent::Itself, "", &[], Key, Turn::Stays),
    ],
    &[
        rule!(Apart, "", Extent::Word, "", &["=", "+="], Key, Turn::Stays),
        rule!(Apart, "", Extent::Digits, "", &[], Number, Turn::Stays),
        rule!(Anywhere, "(", Extent::Itself, "", &[], Plain, Turn::Enters(3)),
    ],
    &[
        rule!(Apart, "", Extent::Word, "", &["=", "+="], Key, Turn::Stays),
        rule!(Apart, "", Extent::Digits, "", &[], Number, Turn::Stays),
        rule!(Anywhere, "`", Extent::Itself, "", &[], Text, Turn::Stays),
    ],
];

#[tactic(auto, unfolding(crate::specs::Heads::by_head))]
fn console_4() -> ModeRow
    ensures words { mode_of result ≡ console_4 }
    ensures rules { heads_in result ≡ by_head console_rules_4 }
{
    ModeRow {
        places: "0000000000000000000000000000000000204000000000000000000000000000000000000000000000000000000030000000000000000000000000000000010000000000000000000000000000000000000000000000000000000000000000000000000000000000000000000000000000000000000000000000000000000000",
        rules: &CONSOLE_4_RULES,
        words: Words::NoWords,
        starts: "",
        more: "",
        otherwise: Class::Key,
        members: true,
        capitals: false,
        numbers: false,
        folds: false,
    }
}

#[rattlefmt::skip]
static CONSOLE_4_RULES: [&[RuleRow]; 5] = [
    &[],
    &[
        rule!(Anywhere, "}", Extent::Itself, "", &[], Key, Turn::Leaves),
    ],
    &[
        rule!(Anywhere, "\"", Extent::Itself, "", &[], Text, Turn::Enters(2)),
    ],
    &[
        rule!(Anywhere, "\\", Extent::OneMore, "", &[], Text, Turn::Stays),
    ],
    &[
        rule!(Anywhere, "${", Extent::Itself, "", &[], Key, Turn::Enters(4)),
        rule!(Anywhere, "$(", Extent::Itself, "", &[], Plain, Turn::Enters(3)),
        rule!(Anywhere, "$", Extent::Word, "", &[], Key, Turn::Stays),
        rule!(Anywhere, "$#", Extent::Itself, "", &[], Key, Turn::Stays),
        rule!(Anywhere, "$@", Extent::Itself, "", &[], Key, Turn::Stays),
        rule!(Anywhere, "$*", Extent::Itself, "", &[], Key, Turn::Stays),
        rule!(Anywhere, "$?", Extent::Itself, "", &[], Key, Turn::Stays),
        rule!(Anywhere, "$!", Extent::Itself, "", &[], Key, Turn::Stays),
        rule!(Anywhere, "$$", Extent::Itself, "", &[], Key, Turn::Stays),
        rule!(Anywhere, "$-", Extent::Itself, "", &[], Key, Turn::Stays),
    ],
];

fn python_mode(_n: usize) -> ModeRow
    ensures words { mode_of result ≡ python_mode _n }
    ensures rules { heads_in result ≡ by_head (python_rules _n) }
{
    python_0()
}

#[tactic(auto, unfolding(crate::specs::Heads::by_head))]
fn python_0() -> ModeRow
    ensures words { mode_of result ≡ python_0 }
    ensures rules { heads_in result ≡ by_head python_rules_0 }
{
    ModeRow {
        places: "0000000000000000000000000000000000210003000000000000000000000000<09000:00000000000800;00000000000050006000000000007004000000000000000000000000000000000000000000000000000000000000000000000000000000000000000000000000000000000000000000000000000000000000000000",
        rules: &PYTHON_0_RULES,
        words: Words::PythonWords,
        starts: "",
        more: "",
        otherwise: Class::Plain,
        members: true,
        capitals: false,
        numbers: true,
        folds: false,
    }
}

#[rattlefmt::skip]
static PYTHON_0_RULES: [&[RuleRow]; 13] = [
    &[],
    &[
        rule!(Anywhere, "#", Extent::Line, "", &[], Comment, Turn::Stays),
    ],
    &[
        rule!(Anywhere, "\"\"\"", Extent::ThroughLines(Escape::Backslash), "\"\"\"", &[], Text, Turn::Stays),
        rule!(Anywhere, "\"", Extent::Through(Escape::Backslash), "\"", &[], Text, Turn::Stays),
    ],
    &[
        rule!(Anywhere, "'''", Extent::ThroughLines(Escape::Backslash), "'''", &[], Text, Turn::Stays),
        rule!(Anywhere, "'", Extent::Through(Escape::Backslash), "'", &[], Text, Turn::Stays),
    ],
    &[
        rule!(Anywhere, "u\"\"\"", Extent::ThroughLines(Escape::Backslash), "\"\"\"", &[], Text, Turn::Stays),
        rule!(Anywhere, "u'''", Extent::ThroughLines(Escape::Backslash), "'''", &[], Text, Turn::Stays),
        rule!(Anywhere, "u\"", Extent::Through(Escape::Backslash), "\"", &[], Text, Turn::Stays),
        rule!(Anywhere, "u'", Extent::Through(Escape::Backslash), "'", &[], Text, Turn::Stays),
    ],
    &[
        rule!(Anywhere, "b\"\"\"", Extent::ThroughLines(Escape::Backslash), "\"\"\"", &[], Text, Turn::Stays),
        rule!(Anywhere, "br\"\"\"", Extent::ThroughLines(Escape::Backslash), "\"\"\"", &[], Text, Turn::Stays),
        rule!(Anywhere, "b'''", Extent::ThroughLines(Escape::Backslash), "'''", &[], Text, Turn::Stays),
        rule!(Anywhere, "br'''", Extent::ThroughLines(Escape::Backslash), "'''", &[], Text, Turn::Stays),
        rule!(Anywhere, "b\"", Extent::Through(Escape::Backslash), "\"", &[], Text, Turn::Stays),
        rule!(Anywhere, "br\"", Extent::Through(Escape::Backslash), "\"", &[], Text, Turn::Stays),
        rule!(Anywhere, "b'", Extent::Through(Escape::Backslash), "'", &[], Text, Turn::Stays),
        rule!(Anywhere, "br'", Extent::Through(Escape::Backslash), "'", &[], Text, Turn::Stays),
    ],
    &[
        rule!(Anywhere, "f\"\"\"", Extent::ThroughLines(Escape::Backslash), "\"\"\"", &[], Text, Turn::Stays),
        rule!(Anywhere, "fr\"\"\"", Extent::ThroughLines(Escape::Backslash), "\"\"\"", &[], Text, Turn::Stays),
        rule!(Anywhere, "f'''", Extent::ThroughLines(Escape::Backslash), "'''", &[], Text, Turn::Stays),
        rule!(Anywhere, "fr'''", Extent::ThroughLines(Escape::Backslash), "'''", &[], Text, Turn::Stays),
        rule!(Anywhere, "f\"", Extent::Through(Escape::Backslash), "\"", &[], Text, Turn::Stays),
        rule!(Anywhere, "fr\"", Extent::Through(Escape::Backslash), "\"", &[], Text, Turn::Stays),
        rule!(Anywhere, "f'", Extent::Through(Escape::Backslash), "'", &[], Text, Turn::Stays),
        rule!(Anywhere, "fr'", Extent::Through(Escape::Backslash), "'", &[], Text, Turn::Stays),
    ],
    &[
        rule!(Anywhere, "r\"\"\"", Extent::ThroughLines(Escape::Backslash), "\"\"\"", &[], Text, Turn::Stays),
        rule!(Anywhere, "rb\"\"\"", Extent::ThroughLines(Escape::Backslash), "\"\"\"", &[], Text, Turn::Stays),
        rule!(Anywhere, "rf\"\"\"", Extent::ThroughLines(Escape::Backslash), "\"\"\"", &[], Text, Turn::Stays),
        rule!(Anywhere, "r'''", Extent::ThroughLines(Escape::Backslash), "'''", &[], Text, Turn::Stays),
        rule!(Anywhere, "rb'''", Extent::ThroughLines(Escape::Backslash), "'''", &[], Text, Turn::Stays),
        rule!(Anywhere, "rf'''", Extent::ThroughLines(Escape::Backslash), "'''", &[], Text, Turn::Stays),
        rule!(Anywhere, "r\"", Extent::Through(Escape::Backslash), "\"", &[], Text, Turn::Stays),
        rule!(Anywhere, "rb\"", Extent::Through(Escape::Backslash), "\"", &[], Text, Turn::Stays),
        rule!(Anywhere, "rf\"", Extent::Through(Escape::Backslash), "\"", &[], Text, Turn::Stays),
        rule!(Anywhere, "r'", Extent::Through(Escape::Backslash), "'", &[], Text, Turn::Stays),
        rule!(Anywhere, "rb'", Extent::Through(Escape::Backslash), "'", &[], Text, Turn::Stays),
        rule!(Anywhere, "rf'", Extent::Through(Escape::Backslash), "'", &[], Text, Turn::Stays),
    ],
    &[
        rule!(Anywhere, "R\"\"\"", Extent::ThroughLines(Escape::Backslash), "\"\"\"", &[], Text, Turn::Stays),
        rule!(Anywhere, "R'''", Extent::ThroughLines(Escape::Backslash), "'''", &[], Text, Turn::Stays),
        rule!(Anywhere, "R\"", Extent::Through(Escape::Backslash), "\"", &[], Text, Turn::Stays),
        rule!(Anywhere, "R'", Extent::Through(Escape::Backslash), "'", &[], Text, Turn::Stays),
    ],
    &[
        rule!(Anywhere, "B\"\"\"", Extent::ThroughLines(Escape::Backslash), "\"\"\"", &[], Text, Turn::Stays),
        rule!(Anywhere, "B'''", Extent::ThroughLines(Escape::Backslash), "'''", &[], Text, Turn::Stays),
        rule!(Anywhere, "B\"", Extent::Through(Escape::Backslash), "\"", &[], Text, Turn::Stays),
        rule!(Anywhere, "B'", Extent::Through(Escape::Backslash), "'", &[], Text, Turn::Stays),
    ],
    &[
        rule!(Anywhere, "F\"\"\"", Extent::ThroughLines(Escape::Backslash), "\"\"\"", &[], Text, Turn::Stays),
        rule!(Anywhere, "F'''", Extent::ThroughLines(Escape::Backslash), "'''", &[], Text, Turn::Stays),
        rule!(Anywhere, "F\"", Extent::Through(Escape::Backslash), "\"", &[], Text, Turn::Stays),
        rule!(Anywhere, "F'", Extent::Through(Escape::Backslash), "'", &[], Text, Turn::Stays),
    ],
    &[
        rule!(Anywhere, "U\"\"\"", Extent::ThroughLines(Escape::Backslash), "\"\"\"", &[], Text, Turn::Stays),
        rule!(Anywhere, "U'''", Extent::ThroughLines(Escape::Backslash), "'''", &[], Text, Turn::Stays),
        rule!(Anywhere, "U\"", Extent::Through(Escape::Backslash), "\"", &[], Text, Turn::Stays),
        rule!(Anywhere, "U'", Extent::Through(Escape::Backslash), "'", &[], Text, Turn::Stays),
    ],
    &[
        rule!(FirstWord, "@", Extent::UpTo, "( \t#", &[], Key, Turn::Stays),
    ],
];

fn pycon_mode(n: usize) -> ModeRow
    ensures words { mode_of result ≡ pycon_mode n }
    ensures rules { heads_in result ≡ by_head (pycon_rules n) }
{
    match n {
        1 => pycon_1(),
        _ => pycon_0(),
    }
}

#[tactic(auto, unfolding(crate::specs::Heads::by_head))]
fn pycon_0() -> ModeRow
    ensures words { mode_of result ≡ pycon_0 }
    ensures rules { heads_in result ≡ by_head pycon_rules_0 }
{
    ModeRow {
        places: "0000000000000000000000000000000000000000000000200000000000000010000000000000000000000000000000000000000000000000000000000000000000000000000000000000000000000000000000000000000000000000000000000000000000000000000000000000000000000000000000000000000000000000",
        rules: &PYCON_0_RULES,
        words: Words::NoWords,
        starts: "",
        more: "",
        otherwise: Class::Plain,
        members: true,
        capitals: false,
        numbers: false,
        folds: false,
    }
}

#[rattlefmt::skip]
static PYCON_0_RULES: [&[RuleRow]; 3] = [
    &[],
    &[
        rule!(FirstWord, ">>> @", Extent::UpTo, "( \t#", &[], Key, Turn::Enters(1)),
        rule!(FirstWord, ">>> ", Extent::Itself, "", &[], Key, Turn::Enters(1)),
    ],
    &[
        rule!(FirstWord, "... @", Extent::UpTo, "( \t#", &[], Key, Turn::Enters(1)),
        rule!(FirstWord, "...     @", Extent::UpTo, "( \t#", &[], Key, Turn::Enters(1)),
        rule!(FirstWord, "... ", Extent::Itself, "", &[], Key, Turn::Enters(1)),
    ],
];

#[tactic(auto, unfolding(crate::specs::Heads::by_head))]
fn pycon_1() -> ModeRow
    ensures words { mode_of result ≡ pycon_1 }
    ensures rules { heads_in result ≡ by_head pycon_rules_1 }
{
    ModeRow {
        places: "000000000010000000000000000000000032000400000000000000000000000000:000;00000000000900<00000000000060007000000000005008000000000000000000000000000000000000000000000000000000000000000000000000000000000000000000000000000000000000000000000000000000000000000000",
        rules: &PYCON_1_RULES,
        words: Words::PythonWords,
        starts: "",
        more: "",
        otherwise: Class::Plain,
        members: true,
        capitals: false,
        numbers: true,
        folds: false,
    }
}

#[rattlefmt::skip]
static PYCON_1_RULES: [&[RuleRow]; 13] = [
    &[],
    &[
        rule!(Anywhere, "\n", Extent::Itself, "", &[], Plain, Turn::Leaves),
    ],
    &[
        rule!(Anywhere, "#", Extent::Line, "", &[], Comment, Turn::Stays),
    ],
    &[
        rule!(Anywhere, "\"", Extent::Through(Escape::Backslash), "\"", &[], Text, Turn::Stays),
    ],
    &[
        rule!(Anywhere, "'", Extent::Through(Escape::Backslash), "'", &[], Text, Turn::Stays),
    ],
    &[
        rule!(Anywhere, "r\"", Extent::Through(Escape::Backslash), "\"", &[], Text, Turn::Stays),
        rule!(Anywhere, "r'", Extent::Through(Escape::Backslash), "'", &[], Text, Turn::Stays),
    ],
    &[
        rule!(Anywhere, "b\"", Extent::Through(Escape::Backslash), "\"", &[], Text, Turn::Stays),
        rule!(Anywhere, "b'", Extent::Through(Escape::Backslash), "'", &[], Text, Turn::Stays),
    ],
    &[
        rule!(Anywhere, "f\"", Extent::Through(Escape::Backslash), "\"", &[], Text, Turn::Stays),
        rule!(Anywhere, "f'", Extent::Through(Escape::Backslash), "'", &[], Text, Turn::Stays),
    ],
    &[
        rule!(Anywhere, "u\"", Extent::Through(Escape::Backslash), "\"", &[], Text, Turn::Stays),
        rule!(Anywhere, "u'", Extent::Through(Escape::Backslash), "'", &[], Text, Turn::Stays),
    ],
    &[
        rule!(Anywhere, "R\"", Extent::Through(Escape::Backslash), "\"", &[], Text, Turn::Stays),
        rule!(Anywhere, "R'", Extent::Through(Escape::Backslash), "'", &[], Text, Turn::Stays),
    ],
    &[
        rule!(Anywhere, "B\"", Extent::Through(Escape::Backslash), "\"", &[], Text, Turn::Stays),
        rule!(Anywhere, "B'", Extent::Through(Escape::Backslash), "'", &[], Text, Turn::Stays),
    ],
    &[
        rule!(Anywhere, "F\"", Extent::Through(Escape::Backslash), "\"", &[], Text, Turn::Stays),
        rule!(Anywhere, "F'", Extent::Through(Escape::Backslash), "'", &[], Text, Turn::Stays),
    ],
    &[
        rule!(Anywhere, "U\"", Extent::Through(Escape::Backslash), "\"", &[], Text, Turn::Stays),
        rule!(Anywhere, "U'", Extent::Through(Escape::Backslash), "'", &[], Text, Turn::Stays),
    ],
];

fn rust_mode(n: usize) -> ModeRow
    ensures words { mode_of result ≡ rust_mode n }
    ensures rules { heads_in result ≡ by_head (rust_rules n) }
{
    match n {
        1 => rust_1(),
        _ => rust_0(),
    }
}

#[tactic(auto, unfolding(crate::specs::Heads::by_head))]
fn rust_0() -> ModeRow
    ensures words { mode_of result ≡ rust_0 }
    ensures rules { heads_in result ≡ by_head rust_rules_0 }
{
    ModeRow {
        places: "0000000000000000000000000000000000367005000000010000000000000000000000000000000000000000000000000040000000000800002000000000000000000000000000000000000000000000000000000000000000000000000000000000000000000000000000000000000000000000000000000000000000000000",
        rules: &RUST_0_RULES,
        words: Words::RustWords,
        starts: "",
        more: "",
        otherwise: Class::Plain,
        members: true,
        capitals: false,
        numbers: true,
        folds: false,
    }
}

#[rattlefmt::skip]
static RUST_0_RULES: [&[RuleRow]; 9] = [
    &[
        rule!(Anywhere, "", Extent::Word, "", &["!(", "![", "!{"], Name, Turn::Stays),
    ],
    &[
        rule!(Anywhere, "//", Extent::Line, "", &[], Comment, Turn::Stays),
        rule!(Anywhere, "/*", Extent::Nested, "*/", &[], Comment, Turn::Stays),
        rule!(Anywhere, "", Extent::Word, "", &["!(", "![", "!{"], Name, Turn::Stays),
    ],
    &[
        rule!(Anywhere, "r\"", Extent::ThroughLines(Escape::Never), "\"", &[], Text, Turn::Stays),
        rule!(Anywhere, "r#\"", Extent::ThroughLines(Escape::Never), "\"#", &[], Text, Turn::Stays),
        rule!(Anywhere, "r##\"", Extent::ThroughLines(Escape::Never), "\"##", &[], Text, Turn::Stays),
        rule!(Anywhere, "r###\"", Extent::ThroughLines(Escape::Never), "\"###", &[], Text, Turn::Stays),
        rule!(Anywhere, "", Extent::Word, "", &["!(", "![", "!{"], Name, Turn::Stays),
    ],
    &[
        rule!(Anywhere, "\"", Extent::ThroughLines(Escape::Backslash), "\"", &[], Text, Turn::Stays),
        rule!(Anywhere, "", Extent::Word, "", &["!(", "![", "!{"], Name, Turn::Stays),
    ],
    &[
        rule!(Anywhere, "br\"", Extent::ThroughLines(Escape::Never), "\"", &[], Text, Turn::Stays),
        rule!(Anywhere, "br#\"", Extent::ThroughLines(Escape::Never), "\"#", &[], Text, Turn::Stays),
        rule!(Anywhere, "br##\"", Extent::ThroughLines(Escape::Never), "\"##", &[], Text, Turn::Stays),
        rule!(Anywhere, "br###\"", Extent::ThroughLines(Escape::Never), "\"###", &[], Text, Turn::Stays),
        rule!(Anywhere, "b\"", Extent::ThroughLines(Escape::Backslash), "\"", &[], Text, Turn::Stays),
        rule!(Anywhere, "b'", Extent::QuotedChar, "", &[], Text, Turn::Stays),
        rule!(Anywhere, "", Extent::Word, "", &["!(", "![", "!{"], Name, Turn::Stays),
    ],
    &[
        rule!(Anywhere, "'", Extent::QuotedChar, "", &[], Text, Turn::Stays),
        rule!(Anywhere, "'", Extent::Word, "", &[], Key, Turn::Stays),
        rule!(Anywhere, "", Extent::Word, "", &["!(", "![", "!{"], Name, Turn::Stays),
    ],
    &[
        rule!(Anywhere, "#![", Extent::Itself, "", &[], Key, Turn::Enters(1)),
        rule!(Anywhere, "#[", Extent::Itself, "", &[], Key, Turn::Enters(1)),
        rule!(Anywhere, "", Extent::Word, "", &["!(", "![", "!{"], Name, Turn::Stays),
    ],
    &[
        rule!(Anywhere, "$", Extent::Word, "", &[], Key, Turn::Stays),
        rule!(Anywhere, "", Extent::Word, "", &["!(", "![", "!{"], Name, Turn::Stays),
    ],
    &[
        rule!(Anywhere, "", Extent::Word, "", &["!(", "![", "!{"], Name, Turn::Stays),
        rule!(Anywhere, "macro_rules!", Extent::Itself, "", &[], Name, Turn::Stays),
    ],
];

#[tactic(auto, unfolding(crate::specs::Heads::by_head))]
fn rust_1() -> ModeRow
    ensures words { mode_of result ≡ rust_1 }
    ensures rules { heads_in result ≡ by_head rust_rules_1 }
{
    ModeRow {
        places: "0000000000000000000000000000000000100000000000000000000000000000000000000000000000000000000203000000000000000000000000000000000000000000000000000000000000000000000000000000000000000000000000000000000000000000000000000000000000000000000000000000000000000000",
        rules: &RUST_1_RULES,
        words: Words::NoWords,
        starts: "",
        more: "",
        otherwise: Class::Key,
        members: true,
        capitals: false,
        numbers: false,
        folds: false,
    }
}

#[rattlefmt::skip]
static RUST_1_RULES: [&[RuleRow]; 4] = [
    &[],
    &[
        rule!(Anywhere, "\"", Extent::ThroughLines(Escape::Backslash), "\"", &[], Text, Turn::Stays),
    ],
    &[
        rule!(Anywhere, "[", Extent::Itself, "", &[], Key, Turn::Enters(1)),
    ],
    &[
        rule!(Anywhere, "]", Extent::Itself, "", &[], Key, Turn::Leaves),
    ],
];

fn javascript_mode(n: usize) -> ModeRow
    ensures words { mode_of result ≡ javascript_mode n }
    ensures rules { heads_in result ≡ by_head (javascript_rules n) }
{
    match n {
        1 => javascript_1(),
        2 => javascript_2(),
        _ => javascript_0(),
    }
}

#[tactic(auto, unfolding(crate::specs::Heads::by_head))]
fn javascript_0() -> ModeRow
    ensures words { mode_of result ≡ javascript_0 }
    ensures rules { heads_in result ≡ by_head javascript_rules_0 }
{
    ModeRow {
        places: "0000000000000000000000000000000000210003000000060000000000000000000000000000000000000000000000004000000000000000000000000005000000000000000000000000000000000000000000000000000000000000000000000000000000000000000000000000000000000000000000000000000000000000",
        rules: &JAVASCRIPT_0_RULES,
        words: Words::JavascriptWords,
        starts: "$",
        more: "$",
        otherwise: Class::Plain,
        members: true,
        capitals: false,
        numbers: true,
        folds: false,
    }
}

#[rattlefmt::skip]
static JAVASCRIPT_0_RULES: [&[RuleRow]; 7] = [
    &[],
    &[
        rule!(FirstByte, "#!", Extent::Line, "", &[], Comment, Turn::Stays),
    ],
    &[
        rule!(Anywhere, "\"", Extent::Through(Escape::Backslash), "\"", &[], Text, Turn::Stays),
    ],
    &[
        rule!(Anywhere, "'", Extent::Through(Escape::Backslash), "'", &[], Text, Turn::Stays),
    ],
    &[
        rule!(Anywhere, "`", Extent::Itself, "", &[], Text, Turn::Enters(1)),
    ],
    &[
        rule!(Anywhere, "{", Extent::Itself, "", &[], Plain, Turn::Enters(2)),
    ],
    &[
        rule!(Anywhere, "//", Extent::Line, "", &[], Comment, Turn::Stays),
        rule!(Anywhere, "/*", Extent::ThroughLines(Escape::Never), "*/", &[], Comment, Turn::Stays),
        rule!(Value, "/", Extent::Pattern, "", &[], Text, Turn::Stays),
    ],
];

#[tactic(auto, unfolding(crate::specs::Heads::by_head))]
fn javascript_1() -> ModeRow
    ensures words { mode_of result ≡ javascript_1 }
    ensures rules { heads_in result ≡ by_head javascript_rules_1 }
{
    ModeRow {
        places: "0000000000000000000000000000000000003000000000000000000000000000000000000000000000000000000010002000000000000000000000000000000000000000000000000000000000000000000000000000000000000000000000000000000000000000000000000000000000000000000000000000000000000000",
        rules: &JAVASCRIPT_1_RULES,
        words: Words::NoWords,
        starts: "",
        more: "",
        otherwise: Class::Text,
        members: true,
        capitals: false,
        numbers: false,
        folds: false,
    }
}

#[rattlefmt::skip]
static JAVASCRIPT_1_RULES: [&[RuleRow]; 4] = [
    &[],
    &[
        rule!(Anywhere, "\\", Extent::OneMore, "", &[], Text, Turn::Stays),
    ],
    &[
        rule!(Anywhere, "`", Extent::Itself, "", &[], Text, Turn::Leaves),
    ],
    &[
        rule!(Anywhere, "${", Extent::Itself, "", &[], Text, Turn::Enters(2)),
    ],
];

#[tactic(auto, unfolding(crate::specs::Heads::by_head))]
fn javascript_2() -> ModeRow
    ensures words { mode_of result ≡ javascript_2 }
    ensures rules { heads_in result ≡ by_head javascript_rules_2 }
{
    ModeRow {
        places: "0000000000000000000000000000000000320004000000070000000000000000000000000000000000000000000000005000000000000000000000000006010000000000000000000000000000000000000000000000000000000000000000000000000000000000000000000000000000000000000000000000000000000000",
        rules: &JAVASCRIPT_2_RULES,
        words: Words::JavascriptWords,
        starts: "$",
        more: "$",
        otherwise: Class::Plain,
        members: true,
        capitals: false,
        numbers: true,
        folds: false,
    }
}

#[rattlefmt::skip]
static JAVASCRIPT_2_RULES: [&[RuleRow]; 8] = [
    &[],
    &[
        rule!(Anywhere, "}", Extent::Itself, "", &[], Plain, Turn::Leaves),
    ],
    &[
        rule!(FirstByte, "#!", Extent::Line, "", &[], Comment, Turn::Stays),
    ],
    &[
        rule!(Anywhere, "\"", Extent::Through(Escape::Backslash), "\"", &[], Text, Turn::Stays),
    ],
    &[
        rule!(Anywhere, "'", Extent::Through(Escape::Backslash), "'", &[], Text, Turn::Stays),
    ],
    &[
        rule!(Anywhere, "`", Extent::Itself, "", &[], Text, Turn::Enters(1)),
    ],
    &[
        rule!(Anywhere, "{", Extent::Itself, "", &[], Plain, Turn::Enters(2)),
    ],
    &[
        rule!(Anywhere, "//", Extent::Line, "", &[], Comment, Turn::Stays),
        rule!(Anywhere, "/*", Extent::ThroughLines(Escape::Never), "*/", &[], Comment, Turn::Stays),
        rule!(Value, "/", Extent::Pattern, "", &[], Text, Turn::Stays),
    ],
];

fn typescript_mode(n: usize) -> ModeRow
    ensures words { mode_of result ≡ typescript_mode n }
    ensures rules { heads_in result ≡ by_head (typescript_rules n) }
{
    match n {
        1 => typescript_1(),
        2 => typescript_2(),
        _ => typescript_0(),
    }
}

#[tactic(auto, unfolding(crate::specs::Heads::by_head))]
fn typescript_0() -> ModeRow
    ensures words { mode_of result ≡ typescript_0 }
    ensures rules { heads_in result ≡ by_head typescript_rules_0 }
{
    ModeRow {
        places: "0000000000000000000000000000000000210003000000060000000000000000700000000000000000000000000000004000000000000000000000000005000000000000000000000000000000000000000000000000000000000000000000000000000000000000000000000000000000000000000000000000000000000000",
        rules: &TYPESCRIPT_0_RULES,
        words: Words::TypescriptWords,
        starts: "$",
        more: "$",
        otherwise: Class::Plain,
        members: true,
        capitals: false,
        numbers: true,
        folds: false,
    }
}

#[rattlefmt::skip]
static TYPESCRIPT_0_RULES: [&[RuleRow]; 8] = [
    &[
        rule!(AfterColon, "", Extent::Word, "", &[], Name, Turn::Stays),
    ],
    &[
        rule!(FirstByte, "#!", Extent::Line, "", &[], Comment, Turn::Stays),
        rule!(AfterColon, "", Extent::Word, "", &[], Name, Turn::Stays),
    ],
    &[
        rule!(Anywhere, "\"", Extent::Through(Escape::Backslash), "\"", &[], Text, Turn::Stays),
        rule!(AfterColon, "", Extent::Word, "", &[], Name, Turn::Stays),
    ],
    &[
        rule!(Anywhere, "'", Extent::Through(Escape::Backslash), "'", &[], Text, Turn::Stays),
        rule!(AfterColon, "", Extent::Word, "", &[], Name, Turn::Stays),
    ],
    &[
        rule!(Anywhere, "`", Extent::Itself, "", &[], Text, Turn::Enters(1)),
        rule!(AfterColon, "", Extent::Word, "", &[], Name, Turn::Stays),
    ],
    &[
        rule!(Anywhere, "{", Extent::Itself, "", &[], Plain, Turn::Enters(2)),
        rule!(AfterColon, "", Extent::Word, "", &[], Name, Turn::Stays),
    ],
    &[
        rule!(Anywhere, "//", Extent::Line, "", &[], Comment, Turn::Stays),
        rule!(Anywhere, "/*", Extent::ThroughLines(Escape::Never), "*/", &[], Comment, Turn::Stays),
        rule!(Value, "/", Extent::Pattern, "", &[], Text, Turn::Stays),
        rule!(AfterColon, "", Extent::Word, "", &[], Name, Turn::Stays),
    ],
    &[
        rule!(Anywhere, "@", Extent::Word, "", &[], Keyword, Turn::Stays),
        rule!(AfterColon, "", Extent::Word, "", &[], Name, Turn::Stays),
    ],
];

#[tactic(auto, unfolding(crate::specs::Heads::by_head))]
fn typescript_1() -> ModeRow
    ensures words { mode_of result ≡ typescript_1 }
    ensures rules { heads_in result ≡ by_head typescript_rules_1 }
{
    ModeRow {
        places: "0000000000000000000000000000000000003000000000000000000000000000000000000000000000000000000010002000000000000000000000000000000000000000000000000000000000000000000000000000000000000000000000000000000000000000000000000000000000000000000000000000000000000000",
        rules: &TYPESCRIPT_1_RULES,
        words: Words::NoWords,
        starts: "",
        more: "",
        otherwise: Class::Text,
        members: true,
        capitals: false,
        numbers: false,
        folds: false,
    }
}

#[rattlefmt::skip]
static TYPESCRIPT_1_RULES: [&[RuleRow]; 4] = [
    &[],
    &[
        rule!(Anywhere, "\\", Extent::OneMore, "", &[], Text, Turn::Stays),
    ],
    &[
        rule!(Anywhere, "`", Extent::Itself, "", &[], Text, Turn::Leaves),
    ],
    &[
        rule!(Anywhere, "${", Extent::Itself, "", &[], Text, Turn::Enters(2)),
    ],
];

#[tactic(auto, unfolding(crate::specs::Heads::by_head))]
fn typescript_2() -> ModeRow
    ensures words { mode_of result ≡ typescript_2 }
    ensures rules { heads_in result ≡ by_head typescript_rules_2 }
{
    ModeRow {
        places: "0000000000000000000000000000000000320004000000070000000000000000800000000000000000000000000000005000000000000000000000000006010000000000000000000000000000000000000000000000000000000000000000000000000000000000000000000000000000000000000000000000000000000000",
        rules: &TYPESCRIPT_2_RULES,
        words: Words::TypescriptWords,
        starts: "$",
        more: "$",
        otherwise: Class::Plain,
        members: true,
        capitals: false,
        numbers: true,
        folds: false,
    }
}

#[rattlefmt::skip]
static TYPESCRIPT_2_RULES: [&[RuleRow]; 9] = [
    &[
        rule!(AfterColon, "", Extent::Word, "", &[], Name, Turn::Stays),
    ],
    &[
        rule!(Anywhere, "}", Extent::Itself, "", &[], Plain, Turn::Leaves),
        rule!(AfterColon, "", Extent::Word, "", &[], Name, Turn::Stays),
    ],
    &[
        rule!(FirstByte, "#!", Extent::Line, "", &[], Comment, Turn::Stays),
        rule!(AfterColon, "", Extent::Word, "", &[], Name, Turn::Stays),
    ],
    &[
        rule!(Anywhere, "\"", Extent::Through(Escape::Backslash), "\"", &[], Text, Turn::Stays),
        rule!(AfterColon, "", Extent::Word, "", &[], Name, Turn::Stays),
    ],
    &[
        rule!(Anywhere, "'", Extent::Through(Escape::Backslash), "'", &[], Text, Turn::Stays),
        rule!(AfterColon, "", Extent::Word, "", &[], Name, Turn::Stays),
    ],
    &[
        rule!(Anywhere, "`", Extent::Itself, "", &[], Text, Turn::Enters(1)),
        rule!(AfterColon, "", Extent::Word, "", &[], Name, Turn::Stays),
    ],
    &[
        rule!(Anywhere, "{", Extent::Itself, "", &[], Plain, Turn::Enters(2)),
        rule!(AfterColon, "", Extent::Word, "", &[], Name, Turn::Stays),
    ],
    &[
        rule!(Anywhere, "//", Extent::Line, "", &[], Comment, Turn::Stays),
        rule!(Anywhere, "/*", Extent::ThroughLines(Escape::Never), "*/", &[], Comment, Turn::Stays),
        rule!(Value, "/", Extent::Pattern, "", &[], Text, Turn::Stays),
        rule!(AfterColon, "", Extent::Word, "", &[], Name, Turn::Stays),
    ],
    &[
        rule!(Anywhere, "@", Extent::Word, "", &[], Keyword, Turn::Stays),
        rule!(AfterColon, "", Extent::Word, "", &[], Name, Turn::Stays),
    ],
];

fn json_mode(_n: usize) -> ModeRow
    ensures words { mode_of result ≡ json_mode _n }
    ensures rules { heads_in result ≡ by_head (json_rules _n) }
{
    json_0()
}

#[tactic(auto, unfolding(crate::specs::Heads::by_head))]
fn json_0() -> ModeRow
    ensures words { mode_of result ≡ json_0 }
    ensures rules { heads_in result ≡ by_head json_rules_0 }
{
    ModeRow {
        places: "0000000000000000000000000000000000200000000000010000000000000000000000000000000000000000000000000000000000000000000000000000000000000000000000000000000000000000000000000000000000000000000000000000000000000000000000000000000000000000000000000000000000000000",
        rules: &JSON_0_RULES,
        words: Words::JsonWords,
        starts: "",
        more: "",
        otherwise: Class::Plain,
        members: true,
        capitals: false,
        numbers: true,
        folds: false,
    }
}

#[rattlefmt::skip]
static JSON_0_RULES: [&[RuleRow]; 3] = [
    &[],
    &[
        rule!(Anywhere, "//", Extent::Line, "", &[], Comment, Turn::Stays),
        rule!(Anywhere, "/*", Extent::ThroughLines(Escape::Never), "*/", &[], Comment, Turn::Stays),
    ],
    &[
        rule!(Anywhere, "\"", Extent::Through(Escape::Backslash), "\"", &[":"], Key, Turn::Stays),
        rule!(Anywhere, "\"", Extent::Through(Escape::Backslash), "\"", &[], Text, Turn::Stays),
    ],
];

fn yaml_mode(_n: usize) -> ModeRow
    ensures words { mode_of result ≡ yaml_mode _n }
    ensures rules { heads_in result ≡ by_head (yaml_rules _n) }
{
    yaml_0()
}

#[tactic(auto, unfolding(crate::specs::Heads::by_head))]
fn yaml_0() -> ModeRow
    ensures words { mode_of result ≡ yaml_0 }
    ensures rules { heads_in result ≡ by_head yaml_rules_0 }
{
    ModeRow {
        places: "0000000000000000000000000000000008410265007003000000000000000000000000000000000000000000000000000000000000000000000000000000000000000000000000000000000000000000000000000000000000000000000000000000000000000000000000000000000000000000000000000000000000000000",
        rules: &YAML_0_RULES,
        words: Words::NoWords,
        starts: "",
        more: "-.",
        otherwise: Class::Plain,
        members: true,
        capitals: false,
        numbers: false,
        folds: false,
    }
}

#[rattlefmt::skip]
static YAML_0_RULES: [&[RuleRow]; 9] = [
    &[
        rule!(FirstWord, "", Extent::UpTo, ":#\"'{}[],&*!|>%@`", &[": ", ":\n"], Key, Turn::Stays),
    ],
    &[
        rule!(Apart, "#", Extent::Line, "", &[], Comment, Turn::Stays),
        rule!(FirstWord, "", Extent::UpTo, ":#\"'{}[],&*!|>%@`", &[": ", ":\n"], Key, Turn::Stays),
    ],
    &[
        rule!(FirstByte, "%", Extent::Line, "", &[], Key, Turn::Stays),
        rule!(FirstWord, "", Extent::UpTo, ":#\"'{}[],&*!|>%@`", &[": ", ":\n"], Key, Turn::Stays),
    ],
    &[
        rule!(FirstByte, "---", Extent::Line, "", &[], Plain, Turn::Stays),
        rule!(FirstWord, "- ", Extent::Itself, "", &[], Plain, Turn::Stays),
        rule!(FirstWord, "", Extent::UpTo, ":#\"'{}[],&*!|>%@`", &[": ", ":\n"], Key, Turn::Stays),
    ],
    &[
        rule!(FirstWord, "\"", Extent::Through(Escape::Backslash), "\"", &[": ", ":\n"], Key, Turn::Stays),
        rule!(Apart, "\"", Extent::ThroughLines(Escape::Backslash), "\"", &[], Text, Turn::Stays),
        rule!(FirstWord, "", Extent::UpTo, ":#\"'{}[],&*!|>%@`", &[": ", ":\n"], Key, Turn::Stays),
    ],
    &[
        rule!(FirstWord, "'", Extent::Through(Escape::Doubled), "'", &[": ", ":\n"], Key, Turn::Stays),
        rule!(Apart, "'", Extent::ThroughLines(Escape::Doubled), "'", &[], Text, Turn::Stays),
        rule!(FirstWord, "", Extent::UpTo, ":#\"'{}[],&*!|>%@`", &[": ", ":\n"], Key, Turn::Stays),
    ],
    &[
        rule!(FirstWord, "", Extent::UpTo, ":#\"'{}[],&*!|>%@`", &[": ", ":\n"], Key, Turn::Stays),
        rule!(Apart, "&", Extent::Word, "", &[], Key, Turn::Stays),
    ],
    &[
        rule!(FirstWord, "", Extent::UpTo, ":#\"'{}[],&*!|>%@`", &[": ", ":\n"], Key, Turn::Stays),
        rule!(Apart, "*", Extent::Word, "", &[], Key, Turn::Stays),
    ],
    &[
        rule!(FirstWord, "", Extent::UpTo, ":#\"'{}[],&*!|>%@`", &[": ", ":\n"], Key, Turn::Stays),
        rule!(Apart, "!", Extent::Word, "", &[], Key, Turn::Stays),
    ],
];

fn toml_mode(_n: usize) -> ModeRow
    ensures words { mode_of result ≡ toml_mode _n }
    ensures rules { heads_in result ≡ by_head (toml_rules _n) }
{
    toml_0()
}

#[tactic(auto, unfolding(crate::specs::Heads::by_head))]
fn toml_0() -> ModeRow
    ensures words { mode_of result ≡ toml_0 }
    ensures rules { heads_in result ≡ by_head toml_rules_0 }
{
    ModeRow {
        places: "0000000000000000000000000000000000310004000000000000000000000000000000000000000000000000000200000000000000000000000000000000000000000000000000000000000000000000000000000000000000000000000000000000000000000000000000000000000000000000000000000000000000000000",
        rules: &TOML_0_RULES,
        words: Words::TomlWords,
        starts: "",
        more: "-",
        otherwise: Class::Plain,
        members: true,
        capitals: false,
        numbers: true,
        folds: false,
    }
}

#[rattlefmt::skip]
static TOML_0_RULES: [&[RuleRow]; 5] = [
    &[
        rule!(FirstWord, "", Extent::UpTo, "=\"#[{}],", &["="], Key, Turn::Stays),
        rule!(Anywhere, "", Extent::Word, "", &["="], Key, Turn::Stays),
    ],
    &[
        rule!(Anywhere, "#", Extent::Line, "", &[], Comment, Turn::Stays),
        rule!(FirstWord, "", Extent::UpTo, "=\"#[{}],", &["="], Key, Turn::Stays),
        rule!(Anywhere, "", Extent::Word, "", &["="], Key, Turn::Stays),
    ],
    &[
        rule!(FirstWord, "[", Extent::UpTo, "#", &[], Keyword, Turn::Stays),
        rule!(FirstWord, "", Extent::UpTo, "=\"#[{}],", &["="], Key, Turn::Stays),
        rule!(Anywhere, "", Extent::Word, "", &["="], Key, Turn::Stays),
    ],
    &[
        rule!(Anywhere, "\"\"\"", Extent::ThroughLines(Escape::Backslash), "\"\"\"", &[], Text, Turn::Stays),
        rule!(FirstWord, "\"", Extent::Through(Escape::Backslash), "\"", &["=", "."], Key, Turn::Stays),
        rule!(Anywhere, "\"", Extent::Through(Escape::Backslash), "\"", &[], Text, Turn::Stays),
        rule!(FirstWord, "", Extent::UpTo, "=\"#[{}],", &["="], Key, Turn::Stays),
        rule!(Anywhere, "", Extent::Word, "", &["="], Key, Turn::Stays),
    ],
    &[
        rule!(Anywhere, "'''", Extent::ThroughLines(Escape::Never), "'''", &[], Text, Turn::Stays),
        rule!(Anywhere, "'", Extent::Through(Escape::Never), "'", &[], Text, Turn::Stays),
        rule!(FirstWord, "", Extent::UpTo, "=\"#[{}],", &["="], Key, Turn::Stays),
        rule!(Anywhere, "", Extent::Word, "", &["="], Key, Turn::Stays),
    ],
];

fn ini_mode(n: usize) -> ModeRow
    ensures words { mode_of result ≡ ini_mode n }
    ensures rules { heads_in result ≡ by_head (ini_rules n) }
{
    match n {
        1 => ini_1(),
        2 => ini_2(),
        _ => ini_0(),
    }
}

#[tactic(auto, unfolding(crate::specs::Heads::by_head))]
fn ini_0() -> ModeRow
    ensures words { mode_of result ≡ ini_0 }
    ensures rules { heads_in result ≡ by_head ini_rules_0 }
{
    ModeRow {
        places: "0000000000000000000000000000000000010000000000000000000000020000000000000000000000000000000300000000000000000000000000000000000000000000000000000000000000000000000000000000000000000000000000000000000000000000000000000000000000000000000000000000000000000000",
        rules: &INI_0_RULES,
        words: Words::NoWords,
        starts: "",
        more: "",
        otherwise: Class::Plain,
        members: true,
        capitals: false,
        numbers: false,
        folds: false,
    }
}

#[rattlefmt::skip]
static INI_0_RULES: [&[RuleRow]; 4] = [
    &[
        rule!(FirstWord, "", Extent::UpTo, "=:;#", &["=", ":"], Key, Turn::Enters(1)),
        rule!(FirstWord, "", Extent::UpTo, ";#", &[], Key, Turn::Stays),
    ],
    &[
        rule!(FirstWord, "#", Extent::Line, "", &[], Comment, Turn::Stays),
        rule!(FirstWord, "", Extent::UpTo, "=:;#", &["=", ":"], Key, Turn::Enters(1)),
        rule!(FirstWord, "", Extent::UpTo, ";#", &[], Key, Turn::Stays),
    ],
    &[
        rule!(FirstWord, ";", Extent::Line, "", &[], Comment, Turn::Stays),
        rule!(FirstWord, "", Extent::UpTo, "=:;#", &["=", ":"], Key, Turn::Enters(1)),
        rule!(FirstWord, "", Extent::UpTo, ";#", &[], Key, Turn::Stays),
    ],
    &[
        rule!(FirstWord, "[", Extent::Through(Escape::Never), "]", &[], Keyword, Turn::Stays),
        rule!(FirstWord, "", Extent::UpTo, "=:;#", &["=", ":"], Key, Turn::Enters(1)),
        rule!(FirstWord, "", Extent::UpTo, ";#", &[], Key, Turn::Stays),
    ],
];

#[tactic(auto, unfolding(crate::specs::Heads::by_head))]
fn ini_1() -> ModeRow
    ensures words { mode_of result ≡ ini_1 }
    ensures rules { heads_in result ≡ by_head ini_rules_1 }
{
    ModeRow {
        places: "0000000000000000000000000000000000000000000000000000000000200100000000000000000000000000000000000000000000000000000000000000000000000000000000000000000000000000000000000000000000000000000000000000000000000000000000000000000000000000000000000000000000000000",
        rules: &INI_1_RULES,
        words: Words::NoWords,
        starts: "",
        more: "",
        otherwise: Class::Plain,
        members: true,
        capitals: false,
        numbers: false,
        folds: false,
    }
}

#[rattlefmt::skip]
static INI_1_RULES: [&[RuleRow]; 3] = [
    &[],
    &[
        rule!(Anywhere, "=", Extent::Itself, "", &[], Plain, Turn::Becomes(2)),
    ],
    &[
        rule!(Anywhere, ":", Extent::Itself, "", &[], Plain, Turn::Becomes(2)),
    ],
];

#[tactic(auto, unfolding(crate::specs::Heads::by_head))]
fn ini_2() -> ModeRow
    ensures words { mode_of result ≡ ini_2 }
    ensures rules { heads_in result ≡ by_head ini_rules_2 }
{
    ModeRow {
        places: "0000000000200000000000000000000000040000000000000000000000030000000000000000000000000000000010000000000000000000000000000000000000000000000000000000000000000000000000000000000000000000000000000000000000000000000000000000000000000000000000000000000000000000",
        rules: &INI_2_RULES,
        words: Words::NoWords,
        starts: "",
        more: "",
        otherwise: Class::Text,
        members: true,
        capitals: false,
        numbers: false,
        folds: false,
    }
}

#[rattlefmt::skip]
static INI_2_RULES: [&[RuleRow]; 5] = [
    &[],
    &[
        rule!(Anywhere, "\\\n", Extent::Itself, "", &[], Plain, Turn::Stays),
    ],
    &[
        rule!(Anywhere, "\n", Extent::Itself, "", &[], Plain, Turn::Leaves),
    ],
    &[
        rule!(Apart, ";", Extent::Line, "", &[], Comment, Turn::Stays),
    ],
    &[
        rule!(Apart, "#", Extent::Line, "", &[], Comment, Turn::Stays),
    ],
];

fn diff_mode(_n: usize) -> ModeRow
    ensures words { mode_of result ≡ diff_mode _n }
    ensures rules { heads_in result ≡ by_head (diff_rules _n) }
{
    diff_0()
}

#[tactic(auto, unfolding(crate::specs::Heads::by_head))]
fn diff_0() -> ModeRow
    ensures words { mode_of result ≡ diff_0 }
    ensures rules { heads_in result ≡ by_head diff_rules_0 }
{
    ModeRow {
        places: "00000000000000000000000000000000080000000001020000000000000097:0300000000600000000000000000000000000400005000000000000000000000000000000000000000000000000000000000000000000000000000000000000000000000000000000000000000000000000000000000000000000000000000000",
        rules: &DIFF_0_RULES,
        words: Words::NoWords,
        starts: "",
        more: "",
        otherwise: Class::Plain,
        members: true,
        capitals: false,
        numbers: false,
        folds: false,
    }
}

#[rattlefmt::skip]
static DIFF_0_RULES: [&[RuleRow]; 11] = [
    &[],
    &[
        rule!(FirstByte, "+", Extent::Line, "", &[], Inserted, Turn::Stays),
    ],
    &[
        rule!(FirstByte, "-", Extent::Line, "", &[], Deleted, Turn::Stays),
    ],
    &[
        rule!(FirstByte, "@", Extent::Line, "", &[], Key, Turn::Stays),
    ],
    &[
        rule!(FirstByte, "diff ", Extent::Line, "", &[], Key, Turn::Stays),
    ],
    &[
        rule!(FirstByte, "index ", Extent::Line, "", &[], Key, Turn::Stays),
    ],
    &[
        rule!(FirstByte, "Index", Extent::Line, "", &[], Key, Turn::Stays),
    ],
    &[
        rule!(FirstByte, "=", Extent::Line, "", &[], Key, Turn::Stays),
    ],
    &[
        rule!(FirstByte, "!", Extent::Line, "", &[], Name, Turn::Stays),
    ],
    &[
        rule!(FirstByte, "<", Extent::Line, "", &[], Deleted, Turn::Stays),
    ],
    &[
        rule!(FirstByte, ">", Extent::Line, "", &[], Inserted, Turn::Stays),
    ],
];

fn xml_mode(n: usize) -> ModeRow
    ensures words { mode_of result ≡ xml_mode n }
    ensures rules { heads_in result ≡ by_head (xml_rules n) }
{
    match n {
        1 => xml_1(),
        _ => xml_0(),
    }
}

#[tactic(auto, unfolding(crate::specs::Heads::by_head))]
fn xml_0() -> ModeRow
    ensures words { mode_of result ≡ xml_0 }
    ensures rules { heads_in result ≡ by_head xml_rules_0 }
{
    ModeRow {
        places: "0000000000000000000000000000000000000020000000000000000000001000000000000000000000000000000000000000000000000000000000000000000000000000000000000000000000000000000000000000000000000000000000000000000000000000000000000000000000000000000000000000000000000000",
        rules: &XML_0_RULES,
        words: Words::NoWords,
        starts: "",
        more: "-.:",
        otherwise: Class::Plain,
        members: true,
        capitals: false,
        numbers: false,
        folds: false,
    }
}

#[rattlefmt::skip]
static XML_0_RULES: [&[RuleRow]; 3] = [
    &[],
    &[
        rule!(Anywhere, "<!--", Extent::ThroughLines(Escape::Never), "-->", &[], Comment, Turn::Stays),
        rule!(Anywhere, "<![CDATA[", Extent::ThroughLines(Escape::Never), "]]>", &[], Key, Turn::Stays),
        rule!(Anywhere, "<?", Extent::ThroughLines(Escape::Never), "?>", &[], Key, Turn::Stays),
        rule!(Anywhere, "<!", Extent::ThroughLines(Escape::Never), ">", &[], Key, Turn::Stays),
        rule!(Anywhere, "</", Extent::UpTo, " \t>", &[], Key, Turn::Enters(1)),
        rule!(Anywhere, "<", Extent::Word, "", &[], Key, Turn::Enters(1)),
    ],
    &[
        rule!(Anywhere, "&", Extent::Word, "", &[";"], Name, Turn::Stays),
        rule!(Anywhere, "&#", Extent::Word, "", &[], Name, Turn::Stays),
    ],
];

#[tactic(auto, unfolding(crate::specs::Heads::by_head))]
fn xml_1() -> ModeRow
    ensures words { mode_of result ≡ xml_1 }
    ensures rules { heads_in result ≡ by_head xml_rules_1 }
{
    ModeRow {
        places: "0000000000000000000000000000000000400005000000010000000000000320000000000000000000000000000000000000000000000000000000000000000000000000000000000000000000000000000000000000000000000000000000000000000000000000000000000000000000000000000000000000000000000000",
        rules: &XML_1_RULES,
        words: Words::NoWords,
        starts: "",
        more: "#*-.:@",
        otherwise: Class::Plain,
        members: true,
        capitals: false,
        numbers: false,
        folds: false,
    }
}

#[rattlefmt::skip]
static XML_1_RULES: [&[RuleRow]; 6] = [
    &[
        rule!(Anywhere, "", Extent::Word, "", &[], Key, Turn::Stays),
    ],
    &[
        rule!(Anywhere, "/>", Extent::Itself, "", &[], Key, Turn::Leaves),
        rule!(Anywhere, "", Extent::Word, "", &[], Key, Turn::Stays),
    ],
    &[
        rule!(Anywhere, ">", Extent::Itself, "", &[], Key, Turn::Leaves),
        rule!(Anywhere, "", Extent::Word, "", &[], Key, Turn::Stays),
    ],
    &[
        rule!(Anywhere, "=", Extent::Itself, "", &[], Key, Turn::Stays),
        rule!(Anywhere, "", Extent::Word, "", &[], Key, Turn::Stays),
    ],
    &[
        rule!(Anywhere, "\"", Extent::ThroughLines(Escape::Never), "\"", &[], Text, Turn::Stays),
        rule!(Anywhere, "", Extent::Word, "", &[], Key, Turn::Stays),
    ],
    &[
        rule!(Anywhere, "'", Extent::ThroughLines(Escape::Never), "'", &[], Text, Turn::Stays),
        rule!(Anywhere, "", Extent::Word, "", &[], Key, Turn::Stays),
    ],
];

fn html_mode(n: usize) -> ModeRow
    ensures words { mode_of result ≡ html_mode n }
    ensures rules { heads_in result ≡ by_head (html_rules n) }
{
    match n {
        1 => html_1(),
        2 => html_2(),
        3 => html_3(),
        4 => html_4(),
        5 => html_5(),
        _ => html_0(),
    }
}

#[tactic(auto, unfolding(crate::specs::Heads::by_head))]
fn html_0() -> ModeRow
    ensures words { mode_of result ≡ html_0 }
    ensures rules { heads_in result ≡ by_head html_rules_0 }
{
    ModeRow {
        places: "0000000000000000000000000000000000000020000000000000000000001000000000000000000000000000000000000000000000000000000000000000000000000000000000000000000000000000000000000000000000000000000000000000000000000000000000000000000000000000000000000000000000000000",
        rules: &HTML_0_RULES,
        words: Words::NoWords,
        starts: "",
        more: "-.:",
        otherwise: Class::Plain,
        members: true,
        capitals: false,
        numbers: false,
        folds: true,
    }
}

#[rattlefmt::skip]
static HTML_0_RULES: [&[RuleRow]; 3] = [
    &[],
    &[
        rule!(Anywhere, "<!--", Extent::ThroughLines(Escape::Never), "-->", &[], Comment, Turn::Stays),
        rule!(Anywhere, "<![CDATA[", Extent::ThroughLines(Escape::Never), "]]>", &[], Key, Turn::Stays),
        rule!(Anywhere, "<?", Extent::ThroughLines(Escape::Never), "?>", &[], Key, Turn::Stays),
        rule!(Anywhere, "<!", Extent::ThroughLines(Escape::Never), ">", &[], Key, Turn::Stays),
        rule!(Anywhere, "<script", Extent::Itself, "", &[], Key, Turn::Enters(2)),
        rule!(Anywhere, "<SCRIPT", Extent::Itself, "", &[], Key, Turn::Enters(2)),
        rule!(Anywhere, "<style", Extent::Itself, "", &[], Key, Turn::Enters(3)),
        rule!(Anywhere, "<STYLE", Extent::Itself, "", &[], Key, Turn::Enters(3)),
        rule!(Anywhere, "</", Extent::UpTo, " \t>", &[], Key, Turn::Enters(1)),
        rule!(Anywhere, "<", Extent::Word, "", &[], Key, Turn::Enters(1)),
    ],
    &[
        rule!(Anywhere, "&", Extent::Word, "", &[";"], Name, Turn::Stays),
        rule!(Anywhere, "&#", Extent::Word, "", &[], Name, Turn::Stays),
    ],
];

#[tactic(auto, unfolding(crate::specs::Heads::by_head))]
fn html_1() -> ModeRow
    ensures words { mode_of result ≡ html_1 }
    ensures rules { heads_in result ≡ by_head html_rules_1 }
{
    ModeRow {
        places: "0000000000000000000000000000000000400005000000010000000000000320000000000000000000000000000000000000000000000000000000000000000000000000000000000000000000000000000000000000000000000000000000000000000000000000000000000000000000000000000000000000000000000000",
        rules: &HTML_1_RULES,
        words: Words::NoWords,
        starts: "",
        more: "#*-.:@",
        otherwise: Class::Plain,
        members: true,
        capitals: false,
        numbers: false,
        folds: true,
    }
}

#[rattlefmt::skip]
static HTML_1_RULES: [&[RuleRow]; 6] = [
    &[
        rule!(Anywhere, "", Extent::Word, "", &[], Key, Turn::Stays),
    ],
    &[
        rule!(Anywhere, "/>", Extent::Itself, "", &[], Key, Turn::Leaves),
        rule!(Anywhere, "", Extent::Word, "", &[], Key, Turn::Stays),
    ],
    &[
        rule!(Anywhere, ">", Extent::Itself, "", &[], Key, Turn::Leaves),
        rule!(Anywhere, "", Extent::Word, "", &[], Key, Turn::Stays),
    ],
    &[
        rule!(Anywhere, "=", Extent::Itself, "", &[], Key, Turn::Stays),
        rule!(Anywhere, "", Extent::Word, "", &[], Key, Turn::Stays),
    ],
    &[
        rule!(Anywhere, "\"", Extent::ThroughLines(Escape::Never), "\"", &[], Text, Turn::Stays),
        rule!(Anywhere, "", Extent::Word, "", &[], Key, Turn::Stays),
    ],
    &[
        rule!(Anywhere, "'", Extent::ThroughLines(Escape::Never), "'", &[], Text, Turn::Stays),
        rule!(Anywhere, "", Extent::Word, "", &[], Key, Turn::Stays),
    ],
];

#[tactic(auto, unfolding(crate::specs::Heads::by_head))]
fn html_2() -> ModeRow
    ensures words { mode_of result ≡ html_2 }
    ensures rules { heads_in result ≡ by_head html_rules_2 }
{
    ModeRow {
        places: "0000000000000000000000000000000000400005000000010000000000000320000000000000000000000000000000000000000000000000000000000000000000000000000000000000000000000000000000000000000000000000000000000000000000000000000000000000000000000000000000000000000000000000",
        rules: &HTML_2_RULES,
        words: Words::NoWords,
        starts: "",
        more: "-:",
        otherwise: Class::Plain,
        members: true,
        capitals: false,
        numbers: true,
        folds: true,
    }
}

#[rattlefmt::skip]
static HTML_2_RULES: [&[RuleRow]; 6] = [
    &[
        rule!(Anywhere, "", Extent::Word, "", &[], Key, Turn::Stays),
    ],
    &[
        rule!(Anywhere, "/>", Extent::Itself, "", &[], Key, Turn::Leaves),
        rule!(Anywhere, "", Extent::Word, "", &[], Key, Turn::Stays),
    ],
    &[
        rule!(Anywhere, ">", Extent::Itself, "", &[], Key, Turn::Becomes(4)),
        rule!(Anywhere, "", Extent::Word, "", &[], Key, Turn::Stays),
    ],
    &[
        rule!(Anywhere, "=", Extent::Itself, "", &[], Key, Turn::Stays),
        rule!(Anywhere, "", Extent::Word, "", &[], Key, Turn::Stays),
    ],
    &[
        rule!(Anywhere, "\"", Extent::Through(Escape::Never), "\"", &[], Text, Turn::Stays),
        rule!(Anywhere, "", Extent::Word, "", &[], Key, Turn::Stays),
    ],
    &[
        rule!(Anywhere, "'", Extent::Through(Escape::Never), "'", &[], Text, Turn::Stays),
        rule!(Anywhere, "", Extent::Word, "", &[], Key, Turn::Stays),
    ],
];

#[tactic(auto, unfolding(crate::specs::Heads::by_head))]
fn html_3() -> ModeRow
    ensures words { mode_of result ≡ html_3 }
    ensures rules { heads_in result ≡ by_head html_rules_3 }
{
    ModeRow {
        places: "0000000000000000000000000000000000400005000000010000000000000320000000000000000000000000000000000000000000000000000000000000000000000000000000000000000000000000000000000000000000000000000000000000000000000000000000000000000000000000000000000000000000000000",
        rules: &HTML_3_RULES,
        words: Words::NoWords,
        starts: "",
        more: "-:",
        otherwise: Class::Plain,
        members: true,
        capitals: false,
        numbers: true,
        folds: true,
    }
}

#[rattlefmt::skip]
static HTML_3_RULES: [&[RuleRow]; 6] = [
    &[
        rule!(Anywhere, "", Extent::Word, "", &[], Key, Turn::Stays),
    ],
    &[
        rule!(Anywhere, "/>", Extent::Itself, "", &[], Key, Turn::Leaves),
        rule!(Anywhere, "", Extent::Word, "", &[], Key, Turn::Stays),
    ],
    &[
        rule!(Anywhere, ">", Extent::Itself, "", &[], Key, Turn::Becomes(5)),
        rule!(Anywhere, "", Extent::Word, "", &[], Key, Turn::Stays),
    ],
    &[
        rule!(Anywhere, "=", Extent::Itself, "", &[], Key, Turn::Stays),
        rule!(Anywhere, "", Extent::Word, "", &[], Key, Turn::Stays),
    ],
    &[
        rule!(Anywhere, "\"", Extent::Through(Escape::Never), "\"", &[], Text, Turn::Stays),
        rule!(Anywhere, "", Extent::Word, "", &[], Key, Turn::Stays),
    ],
    &[
        rule!(Anywhere, "'", Extent::Through(Escape::Never), "'", &[], Text, Turn::Stays),
        rule!(Anywhere, "", Extent::Word, "", &[], Key, Turn::Stays),
    ],
];

#[tactic(auto, unfolding(crate::specs::Heads::by_head))]
fn html_4() -> ModeRow
    ensures words { mode_of result ≡ html_4 }
    ensures rules { heads_in result ≡ by_head html_rules_4 }
{
    ModeRow {
        places: "0000000000000000000000000000000000200003000000050000000000001000000000000000000000000000000000004000000000000000000000000000000000000000000000000000000000000000000000000000000000000000000000000000000000000000000000000000000000000000000000000000000000000000",
        rules: &HTML_4_RULES,
        words: Words::JavascriptWords,
        starts: "$",
        more: "$",
        otherwise: Class::Plain,
        members: true,
        capitals: false,
        numbers: true,
        folds: false,
    }
}

#[rattlefmt::skip]
static HTML_4_RULES: [&[RuleRow]; 6] = [
    &[],
    &[
        rule!(Anywhere, "</script", Extent::Itself, "", &[], Key, Turn::Becomes(1)),
        rule!(Anywhere, "</SCRIPT", Extent::Itself, "", &[], Key, Turn::Becomes(1)),
    ],
    &[
        rule!(Anywhere, "\"", Extent::Through(Escape::Backslash), "\"", &[], Text, Turn::Stays),
    ],
    &[
        rule!(Anywhere, "'", Extent::Through(Escape::Backslash), "'", &[], Text, Turn::Stays),
    ],
    &[
        rule!(Anywhere, "`", Extent::ThroughLines(Escape::Backslash), "`", &[], Text, Turn::Stays),
    ],
    &[
        rule!(Anywhere, "//", Extent::Line, "", &[], Comment, Turn::Stays),
        rule!(Anywhere, "/*", Extent::ThroughLines(Escape::Never), "*/", &[], Comment, Turn::Stays),
        rule!(Value, "/", Extent::Pattern, "", &[], Text, Turn::Stays),
    ],
];

#[tactic(auto, unfolding(crate::specs::Heads::by_head))]
fn html_5() -> ModeRow
    ensures words { mode_of result ≡ html_5 }
    ensures rules { heads_in result ≡ by_head html_rules_5 }
{
    ModeRow {
        places: "0000000000000000000000000000000000360004000005720000000000001000000000000000000000000000000000000000000000000000000000000000000000000000000000000000000000000000000000000000000000000000000000000000000000000000000000000000000000000000000000000000000000000000",
        rules: &HTML_5_RULES,
        words: Words::NoWords,
        starts: "-",
        more: "-",
        otherwise: Class::Plain,
        members: true,
        capitals: false,
        numbers: true,
        folds: true,
    }
}

#[rattlefmt::skip]
static HTML_5_RULES: [&[RuleRow]; 8] = [
    &[
        rule!(Anywhere, "", Extent::Word, "", &[":"], Keyword, Turn::Stays),
    ],
    &[
        rule!(Anywhere, "</style", Extent::Itself, "", &[], Key, Turn::Becomes(1)),
        rule!(Anywhere, "</STYLE", Extent::Itself, "", &[], Key, Turn::Becomes(1)),
        rule!(Anywhere, "", Extent::Word, "", &[":"], Keyword, Turn::Stays),
    ],
    &[
        rule!(Anywhere, "/*", Extent::ThroughLines(Escape::Never), "*/", &[], Comment, Turn::Stays),
        rule!(Anywhere, "", Extent::Word, "", &[":"], Keyword, Turn::Stays),
    ],
    &[
        rule!(Anywhere, "\"", Extent::Through(Escape::Backslash), "\"", &[], Text, Turn::Stays),
        rule!(Anywhere, "", Extent::Word, "", &[":"], Keyword, Turn::Stays),
    ],
    &[
        rule!(Anywhere, "'", Extent::Through(Escape::Backslash), "'", &[], Text, Turn::Stays),
        rule!(Anywhere, "", Extent::Word, "", &[":"], Keyword, Turn::Stays),
    ],
    &[
        rule!(Anywhere, "-", Extent::Itself, "", &[".", "0", "1", "2", "3", "4", "5", "6", "7", "8", "9"], Plain, Turn::Stays),
        rule!(Anywhere, "", Extent::Word, "", &[":"], Keyword, Turn::Stays),
    ],
    &[
        rule!(Anywhere, "", Extent::Word, "", &[":"], Keyword, Turn::Stays),
        rule!(Anywhere, "#", Extent::Word, "", &[], Number, Turn::Stays),
    ],
    &[
        rule!(Anywhere, "", Extent::Word, "", &[":"], Keyword, Turn::Stays),
        rule!(Anywhere, ".", Extent::Word, "", &[], Key, Turn::Stays),
    ],
];

fn css_mode(n: usize) -> ModeRow
    ensures words { mode_of result ≡ css_mode n }
    ensures rules { heads_in result ≡ by_head (css_rules n) }
{
    match n {
        1 => css_1(),
        2 => css_2(),
        _ => css_0(),
    }
}

#[tactic(auto, unfolding(crate::specs::Heads::by_head))]
fn css_0() -> ModeRow
    ensures words { mode_of result ≡ css_0 }
    ensures rules { heads_in result ≡ by_head css_rules_0 }
{
    ModeRow {
        places: "0000000000000000000000000000000000100002000000030000000000000000400000000000000000000000000000000000000000000000000000000005060000000000000000000000000000000000000000000000000000000000000000000000000000000000000000000000000000000000000000000000000000000000",
        rules: &CSS_0_RULES,
        words: Words::NoWords,
        starts: "-",
        more: "-",
        otherwise: Class::Plain,
        members: true,
        capitals: false,
        numbers: true,
        folds: false,
    }
}

#[rattlefmt::skip]
static CSS_0_RULES: [&[RuleRow]; 7] = [
    &[
        rule!(Anywhere, "", Extent::Word, "", &[], Key, Turn::Stays),
    ],
    &[
        rule!(Anywhere, "\"", Extent::Through(Escape::Backslash), "\"", &[], Text, Turn::Stays),
        rule!(Anywhere, "", Extent::Word, "", &[], Key, Turn::Stays),
    ],
    &[
        rule!(Anywhere, "'", Extent::Through(Escape::Backslash), "'", &[], Text, Turn::Stays),
        rule!(Anywhere, "", Extent::Word, "", &[], Key, Turn::Stays),
    ],
    &[
        rule!(Anywhere, "/*", Extent::ThroughLines(Escape::Never), "*/", &[], Comment, Turn::Stays),
        rule!(Anywhere, "//", Extent::Line, "", &[], Comment, Turn::Stays),
        rule!(Anywhere, "", Extent::Word, "", &[], Key, Turn::Stays),
    ],
    &[
        rule!(Anywhere, "@media", Extent::Itself, "", &[], Keyword, Turn::Enters(2)),
        rule!(Anywhere, "@supports", Extent::Itself, "", &[], Keyword, Turn::Enters(2)),
        rule!(Anywhere, "@layer", Extent::Itself, "", &[], Keyword, Turn::Enters(2)),
        rule!(Anywhere, "@container", Extent::Itself, "", &[], Keyword, Turn::Enters(2)),
        rule!(Anywhere, "@", Extent::Word, "", &[], Keyword, Turn::Stays),
        rule!(Anywhere, "", Extent::Word, "", &[], Key, Turn::Stays),
    ],
    &[
        rule!(Anywhere, "{", Extent::Itself, "", &[], Plain, Turn::Enters(1)),
        rule!(Anywhere, "", Extent::Word, "", &[], Key, Turn::Stays),
    ],
    &[
        rule!(Anywhere, "}", Extent::Itself, "", &[], Plain, Turn::Leaves),
        rule!(Anywhere, "", Extent::Word, "", &[], Key, Turn::Stays),
    ],
];

#[tactic(auto, unfolding(crate::specs::Heads::by_head))]
fn css_1() -> ModeRow
    ensures words { mode_of result ≡ css_1 }
    ensures rules { heads_in result ≡ by_head css_rules_1 }
{
    ModeRow {
        places: "000000000000000000000000000000000918:;02000007030000000000000000600000000000000000000000000000000000000000000000000000000004050000000000000000000000000000000000000000000000000000000000000000000000000000000000000000000000000000000000000000000000000000000000",
        rules: &CSS_1_RULES,
        words: Words::NoWords,
        starts: "-",
        more: "-",
        otherwise: Class::Plain,
        members: true,
        capitals: false,
        numbers: true,
        folds: false,
    }
}

#[rattlefmt::skip]
static CSS_1_RULES: [&[RuleRow]; 12] = [
    &[
        rule!(Anywhere, "", Extent::Word, "", &[":"], Keyword, Turn::Stays),
        rule!(Anywhere, "", Extent::Word, "", &[], Name, Turn::Stays),
    ],
    &[
        rule!(Anywhere, "\"", Extent::Through(Escape::Backslash), "\"", &[], Text, Turn::Stays),
        rule!(Anywhere, "", Extent::Word, "", &[":"], Keyword, Turn::Stays),
        rule!(Anywhere, "", Extent::Word, "", &[], Name, Turn::Stays),
    ],
    &[
        rule!(Anywhere, "'", Extent::Through(Escape::Backslash), "'", &[], Text, Turn::Stays),
        rule!(Anywhere, "", Extent::Word, "", &[":"], Keyword, Turn::Stays),
        rule!(Anywhere, "", Extent::Word, "", &[], Name, Turn::Stays),
    ],
    &[
        rule!(Anywhere, "/*", Extent::ThroughLines(Escape::Never), "*/", &[], Comment, Turn::Stays),
        rule!(Anywhere, "//", Extent::Line, "", &[], Comment, Turn::Stays),
        rule!(Anywhere, "", Extent::Word, "", &[":"], Keyword, Turn::Stays),
        rule!(Anywhere, "", Extent::Word, "", &[], Name, Turn::Stays),
    ],
    &[
        rule!(Anywhere, "{", Extent::Itself, "", &[], Plain, Turn::Enters(1)),
        rule!(Anywhere, "", Extent::Word, "", &[":"], Keyword, Turn::Stays),
        rule!(Anywhere, "", Extent::Word, "", &[], Name, Turn::Stays),
    ],
    &[
        rule!(Anywhere, "}", Extent::Itself, "", &[], Plain, Turn::Leaves),
        rule!(Anywhere, "", Extent::Word, "", &[":"], Keyword, Turn::Stays),
        rule!(Anywhere, "", Extent::Word, "", &[], Name, Turn::Stays),
    ],
    &[
        rule!(Anywhere, "@", Extent::Word, "", &[], Keyword, Turn::Stays),
        rule!(Anywhere, "", Extent::Word, "", &[":"], Keyword, Turn::Stays),
        rule!(Anywhere, "", Extent::Word, "", &[], Name, Turn::Stays),
    ],
    &[
        rule!(Anywhere, "-", Extent::Itself, "", &[".", "0", "1", "2", "3", "4", "5", "6", "7", "8", "9"], Plain, Turn::Stays),
        rule!(Anywhere, "--", Extent::Word, "", &[], Key, Turn::Stays),
        rule!(Anywhere, "", Extent::Word, "", &[":"], Keyword, Turn::Stays),
        rule!(Anywhere, "", Extent::Word, "", &[], Name, Turn::Stays),
    ],
    &[
        rule!(Anywhere, "", Extent::Word, "", &[":"], Keyword, Turn::Stays),
        rule!(Anywhere, "#", Extent::Word, "", &[], Number, Turn::Stays),
        rule!(Anywhere, "", Extent::Word, "", &[], Name, Turn::Stays),
    ],
    &[
        rule!(Anywhere, "", Extent::Word, "", &[":"], Keyword, Turn::Stays),
        rule!(Anywhere, "!", Extent::Word, "", &[], Key, Turn::Stays),
        rule!(Anywhere, "", Extent::Word, "", &[], Name, Turn::Stays),
    ],
    &[
        rule!(Anywhere, "", Extent::Word, "", &[":"], Keyword, Turn::Stays),
        rule!(Anywhere, "$", Extent::Word, "", &[], Key, Turn::Stays),
        rule!(Anywhere, "", Extent::Word, "", &[], Name, Turn::Stays),
    ],
    &[
        rule!(Anywhere, "", Extent::Word, "", &[":"], Keyword, Turn::Stays),
        rule!(Anywhere, "%", Extent::Itself, "", &[], Number, Turn::Stays),
        rule!(Anywhere, "", Extent::Word, "", &[], Name, Turn::Stays),
    ],
];

#[tactic(auto, unfolding(crate::specs::Heads::by_head))]
fn css_2() -> ModeRow
    ensures words { mode_of result ≡ css_2 }
    ensures rules { heads_in result ≡ by_head css_rules_2 }
{
    ModeRow {
        places: "0000000000000000000000000000000000200003000000010000000000050000000000000000000000000000000000000000000000000000000000000004000000000000000000000000000000000000000000000000000000000000000000000000000000000000000000000000000000000000000000000000000000000000",
        rules: &CSS_2_RULES,
        words: Words::NoWords,
        starts: "-",
        more: "-",
        otherwise: Class::Plain,
        members: true,
        capitals: false,
        numbers: true,
        folds: false,
    }
}

#[rattlefmt::skip]
static CSS_2_RULES: [&[RuleRow]; 6] = [
    &[
        rule!(Anywhere, "", Extent::Word, "", &[], Name, Turn::Stays),
    ],
    &[
        rule!(Anywhere, "/*", Extent::ThroughLines(Escape::Never), "*/", &[], Comment, Turn::Stays),
        rule!(Anywhere, "", Extent::Word, "", &[], Name, Turn::Stays),
    ],
    &[
        rule!(Anywhere, "\"", Extent::Through(Escape::Backslash), "\"", &[], Text, Turn::Stays),
        rule!(Anywhere, "", Extent::Word, "", &[], Name, Turn::Stays),
    ],
    &[
        rule!(Anywhere, "'", Extent::Through(Escape::Backslash), "'", &[], Text, Turn::Stays),
        rule!(Anywhere, "", Extent::Word, "", &[], Name, Turn::Stays),
    ],
    &[
        rule!(Anywhere, "{", Extent::Itself, "", &[], Plain, Turn::Becomes(0)),
        rule!(Anywhere, "", Extent::Word, "", &[], Name, Turn::Stays),
    ],
    &[
        rule!(Anywhere, ";", Extent::Itself, "", &[], Plain, Turn::Leaves),
        rule!(Anywhere, "", Extent::Word, "", &[], Name, Turn::Stays),
    ],
];

fn c_mode(n: usize) -> ModeRow
    ensures words { mode_of result ≡ c_mode n }
    ensures rules { heads_in result ≡ by_head (c_rules n) }
{
    match n {
        1 => c_1(),
        _ => c_0(),
    }
}

#[tactic(auto, unfolding(crate::specs::Heads::by_head))]
fn c_0() -> ModeRow
    ensures words { mode_of result ≡ c_0 }
    ensures rules { heads_in result ≡ by_head c_rules_0 }
{
    ModeRow {
        places: "0000000000000000000000000000000000320004000000010000000000000000000000000000500000000000000000000000000000000000000000000000000000000000000000000000000000000000000000000000000000000000000000000000000000000000000000000000000000000000000000000000000000000000",
        rules: &C_0_RULES,
        words: Words::CWords,
        starts: "",
        more: "",
        otherwise: Class::Plain,
        members: true,
        capitals: false,
        numbers: true,
        folds: false,
    }
}

#[rattlefmt::skip]
static C_0_RULES: [&[RuleRow]; 6] = [
    &[],
    &[
        rule!(Anywhere, "//", Extent::Line, "", &[], Comment, Turn::Stays),
        rule!(Anywhere, "/*", Extent::ThroughLines(Escape::Never), "*/", &[], Comment, Turn::Stays),
    ],
    &[
        rule!(FirstWord, "#", Extent::Itself, "", &[], Key, Turn::Enters(1)),
    ],
    &[
        rule!(Anywhere, "\"", Extent::Through(Escape::Backslash), "\"", &[], Text, Turn::Stays),
    ],
    &[
        rule!(Anywhere, "'", Extent::Through(Escape::Backslash), "'", &[], Text, Turn::Stays),
    ],
    &[
        rule!(Anywhere, "L\"", Extent::Through(Escape::Backslash), "\"", &[], Text, Turn::Stays),
    ],
];

#[tactic(auto, unfolding(crate::specs::Heads::by_head))]
fn c_1() -> ModeRow
    ensures words { mode_of result ≡ c_1 }
    ensures rules { heads_in result ≡ by_head c_rules_1 }
{
    ModeRow {
        places: "0000000000200000000000000000000000000000000000030000000000000000000000000000000000000000000010000000000000000000000000000000000000000000000000000000000000000000000000000000000000000000000000000000000000000000000000000000000000000000000000000000000000000000",
        rules: &C_1_RULES,
        words: Words::NoWords,
        starts: "",
        more: "",
        otherwise: Class::Key,
        members: true,
        capitals: false,
        numbers: false,
        folds: false,
    }
}

#[rattlefmt::skip]
static C_1_RULES: [&[RuleRow]; 4] = [
    &[],
    &[
        rule!(Anywhere, "\\\n", Extent::Itself, "", &[], Key, Turn::Stays),
    ],
    &[
        rule!(Anywhere, "\n", Extent::Itself, "", &[], Plain, Turn::Leaves),
    ],
    &[
        rule!(Anywhere, "/*", Extent::ThroughLines(Escape::Never), "*/", &[], Comment, Turn::Stays),
        rule!(Anywhere, "//", Extent::Line, "", &[], Comment, Turn::Stays),
    ],
];

fn cpp_mode(n: usize) -> ModeRow
    ensures words { mode_of result ≡ cpp_mode n }
    ensures rules { heads_in result ≡ by_head (cpp_rules n) }
{
    match n {
        1 => cpp_1(),
        _ => cpp_0(),
    }
}

#[tactic(auto, unfolding(crate::specs::Heads::by_head))]
fn cpp_0() -> ModeRow
    ensures words { mode_of result ≡ cpp_0 }
    ensures rules { heads_in result ≡ by_head cpp_rules_0 }
{
    ModeRow {
        places: "0000000000000000000000000000000000430005000000010000000000000000000000000000600000200000000000000000000000000000000000000000000000000000000000000000000000000000000000000000000000000000000000000000000000000000000000000000000000000000000000000000000000000000",
        rules: &CPP_0_RULES,
        words: Words::CppWords,
        starts: "",
        more: "",
        otherwise: Class::Plain,
        members: true,
        capitals: false,
        numbers: true,
        folds: false,
    }
}

#[rattlefmt::skip]
static CPP_0_RULES: [&[RuleRow]; 7] = [
    &[],
    &[
        rule!(Anywhere, "//", Extent::Line, "", &[], Comment, Turn::Stays),
        rule!(Anywhere, "/*", Extent::ThroughLines(Escape::Never), "*/", &[], Comment, Turn::Stays),
    ],
    &[
        rule!(Anywhere, "R\"(", Extent::ThroughLines(Escape::Never), ")\"", &[], Text, Turn::Stays),
    ],
    &[
        rule!(FirstWord, "#", Extent::Itself, "", &[], Key, Turn::Enters(1)),
    ],
    &[
        rule!(Anywhere, "\"", Extent::Through(Escape::Backslash), "\"", &[], Text, Turn::Stays),
    ],
    &[
        rule!(Anywhere, "'", Extent::Through(Escape::Backslash), "'", &[], Text, Turn::Stays),
    ],
    &[
        rule!(Anywhere, "L\"", Extent::Through(Escape::Backslash), "\"", &[], Text, Turn::Stays),
    ],
];

#[tactic(auto, unfolding(crate::specs::Heads::by_head))]
fn cpp_1() -> ModeRow
    ensures words { mode_of result ≡ cpp_1 }
    ensures rules { heads_in result ≡ by_head cpp_rules_1 }
{
    ModeRow {
        places: "0000000000200000000000000000000000000000000000030000000000000000000000000000000000000000000010000000000000000000000000000000000000000000000000000000000000000000000000000000000000000000000000000000000000000000000000000000000000000000000000000000000000000000",
        rules: &CPP_1_RULES,
        words: Words::NoWords,
        starts: "",
        more: "",
        otherwise: Class::Key,
        members: true,
        capitals: false,
        numbers: false,
        folds: false,
    }
}

#[rattlefmt::skip]
static CPP_1_RULES: [&[RuleRow]; 4] = [
    &[],
    &[
        rule!(Anywhere, "\\\n", Extent::Itself, "", &[], Key, Turn::Stays),
    ],
    &[
        rule!(Anywhere, "\n", Extent::Itself, "", &[], Plain, Turn::Leaves),
    ],
    &[
        rule!(Anywhere, "/*", Extent::ThroughLines(Escape::Never), "*/", &[], Comment, Turn::Stays),
        rule!(Anywhere, "//", Extent::Line, "", &[], Comment, Turn::Stays),
    ],
];

fn java_mode(_n: usize) -> ModeRow
    ensures words { mode_of result ≡ java_mode _n }
    ensures rules { heads_in result ≡ by_head (java_rules _n) }
{
    java_0()
}

#[tactic(auto, unfolding(crate::specs::Heads::by_head))]
fn java_0() -> ModeRow
    ensures words { mode_of result ≡ java_0 }
    ensures rules { heads_in result ≡ by_head java_rules_0 }
{
    ModeRow {
        places: "0000000000000000000000000000000000300004000000010000000000000000200000000000500000000000000000000000000000000000000000000000000000000000000000000000000000000000000000000000000000000000000000000000000000000000000000000000000000000000000000000000000000000000",
        rules: &JAVA_0_RULES,
        words: Words::JavaWords,
        starts: "",
        more: "",
        otherwise: Class::Plain,
        members: true,
        capitals: false,
        numbers: true,
        folds: false,
    }
}

#[rattlefmt::skip]
static JAVA_0_RULES: [&[RuleRow]; 6] = [
    &[],
    &[
        rule!(Anywhere, "//", Extent::Line, "", &[], Comment, Turn::Stays),
        rule!(Anywhere, "/*", Extent::ThroughLines(Escape::Never), "*/", &[], Comment, Turn::Stays),
    ],
    &[
        rule!(Anywhere, "@interface", Extent::Itself, "", &[], Keyword, Turn::Stays),
        rule!(Anywhere, "@", Extent::Word, "", &[], Key, Turn::Stays),
    ],
    &[
        rule!(Anywhere, "\"\"\"", Extent::ThroughLines(Escape::Backslash), "\"\"\"", &[], Text, Turn::Stays),
        rule!(Anywhere, "\"", Extent::Through(Escape::Backslash), "\"", &[], Text, Turn::Stays),
    ],
    &[
        rule!(Anywhere, "'", Extent::Through(Escape::Backslash), "'", &[], Text, Turn::Stays),
    ],
    &[
        rule!(Anywhere, "L\"", Extent::Through(Escape::Backslash), "\"", &[], Text, Turn::Stays),
    ],
];

fn csharp_mode(n: usize) -> ModeRow
    ensures words { mode_of result ≡ csharp_mode n }
    ensures rules { heads_in result ≡ by_head (csharp_rules n) }
{
    match n {
        1 => csharp_1(),
        _ => csharp_0(),
    }
}

#[tactic(auto, unfolding(crate::specs::Heads::by_head))]
fn csharp_0() -> ModeRow
    ensures words { mode_of result ≡ csharp_0 }
    ensures rules { heads_in result ≡ by_head csharp_rules_0 }
{
    ModeRow {
        places: "0000000000000000000000000000000000654007000000010000000000000000300000000000800000000000000200000000000000000000000000000000000000000000000000000000000000000000000000000000000000000000000000000000000000000000000000000000000000000000000000000000000000000000",
        rules: &CSHARP_0_RULES,
        words: Words::CsharpWords,
        starts: "",
        more: "",
        otherwise: Class::Plain,
        members: true,
        capitals: false,
        numbers: true,
        folds: false,
    }
}

#[rattlefmt::skip]
static CSHARP_0_RULES: [&[RuleRow]; 9] = [
    &[],
    &[
        rule!(Anywhere, "//", Extent::Line, "", &[], Comment, Turn::Stays),
        rule!(Anywhere, "/*", Extent::ThroughLines(Escape::Never), "*/", &[], Comment, Turn::Stays),
    ],
    &[
        rule!(FirstWord, "[", Extent::Through(Escape::Backslash), "]", &[], Key, Turn::Stays),
    ],
    &[
        rule!(Anywhere, "@\"", Extent::ThroughLines(Escape::Doubled), "\"", &[], Text, Turn::Stays),
    ],
    &[
        rule!(Anywhere, "$\"", Extent::Through(Escape::Backslash), "\"", &[], Text, Turn::Stays),
    ],
    &[
        rule!(FirstWord, "#", Extent::Itself, "", &[], Key, Turn::Enters(1)),
    ],
    &[
        rule!(Anywhere, "\"", Extent::Through(Escape::Backslash), "\"", &[], Text, Turn::Stays),
    ],
    &[
        rule!(Anywhere, "'", Extent::Through(Escape::Backslash), "'", &[], Text, Turn::Stays),
    ],
    &[
        rule!(Anywhere, "L\"", Extent::Through(Escape::Backslash), "\"", &[], Text, Turn::Stays),
    ],
];

#[tactic(auto, unfolding(crate::specs::Heads::by_head))]
fn csharp_1() -> ModeRow
    ensures words { mode_of result ≡ csharp_1 }
    ensures rules { heads_in result ≡ by_head csharp_rules_1 }
{
    ModeRow {
        places: "0000000000200000000000000000000000000000000000030000000000000000000000000000000000000000000010000000000000000000000000000000000000000000000000000000000000000000000000000000000000000000000000000000000000000000000000000000000000000000000000000000000000000000",
        rules: &CSHARP_1_RULES,
        words: Words::NoWords,
        starts: "",
        more: "",
        otherwise: Class::Key,
        members: true,
        capitals: false,
        numbers: false,
        folds: false,
    }
}

#[rattlefmt::skip]
static CSHARP_1_RULES: [&[RuleRow]; 4] = [
    &[],
    &[
        rule!(Anywhere, "\\\n", Extent::Itself, "", &[], Key, Turn::Stays),
    ],
    &[
        rule!(Anywhere, "\n", Extent::Itself, "", &[], Plain, Turn::Leaves),
    ],
    &[
        rule!(Anywhere, "/*", Extent::ThroughLines(Escape::Never), "*/", &[], Comment, Turn::Stays),
        rule!(Anywhere, "//", Extent::Line, "", &[], Comment, Turn::Stays),
    ],
];

fn kotlin_mode(_n: usize) -> ModeRow
    ensures words { mode_of result ≡ kotlin_mode _n }
    ensures rules { heads_in result ≡ by_head (kotlin_rules _n) }
{
    kotlin_0()
}

#[tactic(auto, unfolding(crate::specs::Heads::by_head))]
fn kotlin_0() -> ModeRow
    ensures words { mode_of result ≡ kotlin_0 }
    ensures rules { heads_in result ≡ by_head kotlin_rules_0 }
{
    ModeRow {
        places: "0000000000000000000000000000000000300004000000010000000000000000200000000000500000000000000000000000000000000000000000000000000000000000000000000000000000000000000000000000000000000000000000000000000000000000000000000000000000000000000000000000000000000000",
        rules: &KOTLIN_0_RULES,
        words: Words::KotlinWords,
        starts: "",
        more: "",
        otherwise: Class::Plain,
        members: true,
        capitals: false,
        numbers: true,
        folds: false,
    }
}

#[rattlefmt::skip]
static KOTLIN_0_RULES: [&[RuleRow]; 6] = [
    &[],
    &[
        rule!(Anywhere, "//", Extent::Line, "", &[], Comment, Turn::Stays),
        rule!(Anywhere, "/*", Extent::ThroughLines(Escape::Never), "*/", &[], Comment, Turn::Stays),
    ],
    &[
        rule!(Anywhere, "@", Extent::Word, "", &[], Key, Turn::Stays),
    ],
    &[
        rule!(Anywhere, "\"\"\"", Extent::ThroughLines(Escape::Never), "\"\"\"", &[], Text, Turn::Stays),
        rule!(Anywhere, "\"", Extent::Through(Escape::Backslash), "\"", &[], Text, Turn::Stays),
    ],
    &[
        rule!(Anywhere, "'", Extent::Through(Escape::Backslash), "'", &[], Text, Turn::Stays),
    ],
    &[
        rule!(Anywhere, "L\"", Extent::Through(Escape::Backslash), "\"", &[], Text, Turn::Stays),
    ],
];

fn swift_mode(_n: usize) -> ModeRow
    ensures words { mode_of result ≡ swift_mode _n }
    ensures rules { heads_in result ≡ by_head (swift_rules _n) }
{
    swift_0()
}

#[tactic(auto, unfolding(crate::specs::Heads::by_head))]
fn swift_0() -> ModeRow
    ensures words { mode_of result ≡ swift_0 }
    ensures rules { heads_in result ≡ by_head swift_rules_0 }
{
    ModeRow {
        places: "0000000000000000000000000000000000430005000000010000000000000000200000000000600000000000000000000000000000000000000000000000000000000000000000000000000000000000000000000000000000000000000000000000000000000000000000000000000000000000000000000000000000000000",
        rules: &SWIFT_0_RULES,
        words: Words::SwiftWords,
        starts: "",
        more: "",
        otherwise: Class::Plain,
        members: true,
        capitals: false,
        numbers: true,
        folds: false,
    }
}

#[rattlefmt::skip]
static SWIFT_0_RULES: [&[RuleRow]; 7] = [
    &[],
    &[
        rule!(Anywhere, "//", Extent::Line, "", &[], Comment, Turn::Stays),
        rule!(Anywhere, "/*", Extent::ThroughLines(Escape::Never), "*/", &[], Comment, Turn::Stays),
    ],
    &[
        rule!(Anywhere, "@", Extent::Word, "", &[], Key, Turn::Stays),
    ],
    &[
        rule!(Anywhere, "#", Extent::Word, "", &[], Keyword, Turn::Stays),
    ],
    &[
        rule!(Anywhere, "\"\"\"", Extent::ThroughLines(Escape::Backslash), "\"\"\"", &[], Text, Turn::Stays),
        rule!(Anywhere, "\"", Extent::Through(Escape::Backslash), "\"", &[], Text, Turn::Stays),
    ],
    &[
        rule!(Anywhere, "'", Extent::Through(Escape::Backslash), "'", &[], Text, Turn::Stays),
    ],
    &[
        rule!(Anywhere, "L\"", Extent::Through(Escape::Backslash), "\"", &[], Text, Turn::Stays),
    ],
];

fn go_mode(_n: usize) -> ModeRow
    ensures words { mode_of result ≡ go_mode _n }
    ensures rules { heads_in result ≡ by_head (go_rules _n) }
{
    go_0()
}

#[tactic(auto, unfolding(crate::specs::Heads::by_head))]
fn go_0() -> ModeRow
    ensures words { mode_of result ≡ go_0 }
    ensures rules { heads_in result ≡ by_head go_rules_0 }
{
    ModeRow {
        places: "0000000000000000000000000000000000300004000000010000000000000000000000000000000000000000000000002000000000000000000000000000000000000000000000000000000000000000000000000000000000000000000000000000000000000000000000000000000000000000000000000000000000000000",
        rules: &GO_0_RULES,
        words: Words::GoWords,
        starts: "",
        more: "",
        otherwise: Class::Plain,
        members: true,
        capitals: false,
        numbers: true,
        folds: false,
    }
}

#[rattlefmt::skip]
static GO_0_RULES: [&[RuleRow]; 5] = [
    &[],
    &[
        rule!(Anywhere, "//", Extent::Line, "", &[], Comment, Turn::Stays),
        rule!(Anywhere, "/*", Extent::ThroughLines(Escape::Never), "*/", &[], Comment, Turn::Stays),
    ],
    &[
        rule!(Anywhere, "`", Extent::ThroughLines(Escape::Never), "`", &[], Text, Turn::Stays),
    ],
    &[
        rule!(Anywhere, "\"", Extent::Through(Escape::Backslash), "\"", &[], Text, Turn::Stays),
    ],
    &[
        rule!(Anywhere, "'", Extent::Through(Escape::Backslash), "'", &[], Text, Turn::Stays),
    ],
];

fn protobuf_mode(_n: usize) -> ModeRow
    ensures words { mode_of result ≡ protobuf_mode _n }
    ensures rules { heads_in result ≡ by_head (protobuf_rules _n) }
{
    protobuf_0()
}

#[tactic(auto, unfolding(crate::specs::Heads::by_head))]
fn protobuf_0() -> ModeRow
    ensures words { mode_of result ≡ protobuf_0 }
    ensures rules { heads_in result ≡ by_head protobuf_rules_0 }
{
    ModeRow {
        places: "0000000000000000000000000000000000200003000000010000000000000000000000000000400000000000000000000000000000000000000000000000000000000000000000000000000000000000000000000000000000000000000000000000000000000000000000000000000000000000000000000000000000000000",
        rules: &PROTOBUF_0_RULES,
        words: Words::ProtobufWords,
        starts: "",
        more: "",
        otherwise: Class::Plain,
        members: true,
        capitals: false,
        numbers: true,
        folds: false,
    }
}

#[rattlefmt::skip]
static PROTOBUF_0_RULES: [&[RuleRow]; 5] = [
    &[],
    &[
        rule!(Anywhere, "//", Extent::Line, "", &[], Comment, Turn::Stays),
        rule!(Anywhere, "/*", Extent::ThroughLines(Escape::Never), "*/", &[], Comment, Turn::Stays),
    ],
    &[
        rule!(Anywhere, "\"", Extent::Through(Escape::Backslash), "\"", &[], Text, Turn::Stays),
    ],
    &[
        rule!(Anywhere, "'", Extent::Through(Escape::Backslash), "'", &[], Text, Turn::Stays),
    ],
    &[
        rule!(Anywhere, "L\"", Extent::Through(Escape::Backslash), "\"", &[], Text, Turn::Stays),
    ],
];

fn php_mode(n: usize) -> ModeRow
    ensures words { mode_of result ≡ php_mode n }
    ensures rules { heads_in result ≡ by_head (php_rules n) }
{
    match n {
        1 => php_1(),
        2 => php_2(),
        3 => php_3(),
        _ => php_0(),
    }
}

#[tactic(auto, unfolding(crate::specs::Heads::by_head))]
fn php_0() -> ModeRow
    ensures words { mode_of result ≡ php_0 }
    ensures rules { heads_in result ≡ by_head php_rules_0 }
{
    ModeRow {
        places: "0000000000000000000000000000000000537006000000020000000000004001000000000000000000000000000000000000000000000000000000000000000000000000000000000000000000000000000000000000000000000000000000000000000000000000000000000000000000000000000000000000000000000000",
        rules: &PHP_0_RULES,
        words: Words::PhpWords,
        starts: "",
        more: "",
        otherwise: Class::Plain,
        members: false,
        capitals: false,
        numbers: true,
        folds: true,
    }
}

#[rattlefmt::skip]
static PHP_0_RULES: [&[RuleRow]; 8] = [
    &[],
    &[
        rule!(Anywhere, "?>", Extent::Itself, "", &[], Key, Turn::Becomes(2)),
    ],
    &[
        rule!(Anywhere, "//", Extent::Line, "", &[], Comment, Turn::Stays),
        rule!(Anywhere, "/*", Extent::ThroughLines(Escape::Never), "*/", &[], Comment, Turn::Stays),
    ],
    &[
        rule!(Anywhere, "#[", Extent::Through(Escape::Never), "]", &[], Key, Turn::Stays),
        rule!(Anywhere, "#", Extent::Line, "", &[], Comment, Turn::Stays),
    ],
    &[
        rule!(Anywhere, "<?php", Extent::Itself, "", &[], Key, Turn::Stays),
        rule!(Anywhere, "<?PHP", Extent::Itself, "", &[], Key, Turn::Stays),
        rule!(Anywhere, "<?=", Extent::Itself, "", &[], Key, Turn::Stays),
        rule!(Anywhere, "<<<", Extent::Labelled(false), "", &[], Text, Turn::Stays),
    ],
    &[
        rule!(Anywhere, "\"", Extent::Itself, "", &[], Text, Turn::Enters(1)),
    ],
    &[
        rule!(Anywhere, "'", Extent::ThroughLines(Escape::Backslash), "'", &[], Text, Turn::Stays),
    ],
    &[
        rule!(Anywhere, "$", Extent::Word, "", &[], Key, Turn::Stays),
    ],
];

#[tactic(auto, unfolding(crate::specs::Heads::by_head))]
fn php_1() -> ModeRow
    ensures words { mode_of result ≡ php_1 }
    ensures rules { heads_in result ≡ by_head php_rules_1 }
{
    ModeRow {
        places: "0000000000000000000000000000000000204000000000000000000000000000000000000000000000000000000010000000000000000000000000000003000000000000000000000000000000000000000000000000000000000000000000000000000000000000000000000000000000000000000000000000000000000000",
        rules: &PHP_1_RULES,
        words: Words::NoWords,
        starts: "",
        more: "",
        otherwise: Class::Text,
        members: true,
        capitals: false,
        numbers: false,
        folds: true,
    }
}

#[rattlefmt::skip]
static PHP_1_RULES: [&[RuleRow]; 5] = [
    &[],
    &[
        rule!(Anywhere, "\\", Extent::OneMore, "", &[], Text, Turn::Stays),
    ],
    &[
        rule!(Anywhere, "\"", Extent::Itself, "", &[], Text, Turn::Leaves),
    ],
    &[
        rule!(Anywhere, "{$", Extent::Through(Escape::Never), "}", &[], Key, Turn::Stays),
    ],
    &[
        rule!(Anywhere, "$", Extent::Word, "", &[], Key, Turn::Stays),
    ],
];

#[tactic(auto, unfolding(crate::specs::Heads::by_head))]
fn php_2() -> ModeRow
    ensures words { mode_of result ≡ php_2 }
    ensures rules { heads_in result ≡ by_head php_rules_2 }
{
    ModeRow {
        places: "0000000000000000000000000000000000000000000000000000000000001000000000000000000000000000000000000000000000000000000000000000000000000000000000000000000000000000000000000000000000000000000000000000000000000000000000000000000000000000000000000000000000000000",
        rules: &PHP_2_RULES,
        words: Words::NoWords,
        starts: "",
        more: "-.:",
        otherwise: Class::Plain,
        members: true,
        capitals: false,
        numbers: false,
        folds: true,
    }
}

#[rattlefmt::skip]
static PHP_2_RULES: [&[RuleRow]; 2] = [
    &[],
    &[
        rule!(Anywhere, "<?php", Extent::Itself, "", &[], Key, Turn::Becomes(0)),
        rule!(Anywhere, "<?PHP", Extent::Itself, "", &[], Key, Turn::Becomes(0)),
        rule!(Anywhere, "<?=", Extent::Itself, "", &[], Key, Turn::Becomes(0)),
        rule!(Anywhere, "<?", Extent::Itself, "", &[], Key, Turn::Becomes(0)),
        rule!(Anywhere, "<!--", Extent::ThroughLines(Escape::Never), "-->", &[], Comment, Turn::Stays),
        rule!(Anywhere, "</", Extent::UpTo, " \t>", &[], Key, Turn::Enters(3)),
        rule!(Anywhere, "<", Extent::Word, "", &[], Key, Turn::Enters(3)),
    ],
];

#[tactic(auto, unfolding(crate::specs::Heads::by_head))]
fn php_3() -> ModeRow
    ensures words { mode_of result ≡ php_3 }
    ensures rules { heads_in result ≡ by_head php_rules_3 }
{
    ModeRow {
        places: "0000000000000000000000000000000000500006000000020000000000003410000000000000000000000000000000000000000000000000000000000000000000000000000000000000000000000000000000000000000000000000000000000000000000000000000000000000000000000000000000000000000000000000",
        rules: &PHP_3_RULES,
        words: Words::NoWords,
        starts: "",
        more: "-.:",
        otherwise: Class::Plain,
        members: true,
        capitals: false,
        numbers: false,
        folds: true,
    }
}

#[rattlefmt::skip]
static PHP_3_RULES: [&[RuleRow]; 7] = [
    &[
        rule!(Anywhere, "", Extent::Word, "", &[], Key, Turn::Stays),
    ],
    &[
        rule!(Anywhere, ">", Extent::Itself, "", &[], Key, Turn::Leaves),
        rule!(Anywhere, "", Extent::Word, "", &[], Key, Turn::Stays),
    ],
    &[
        rule!(Anywhere, "/>", Extent::Itself, "", &[], Key, Turn::Leaves),
        rule!(Anywhere, "", Extent::Word, "", &[], Key, Turn::Stays),
    ],
    &[
        rule!(Anywhere, "<?php", Extent::Itself, "", &[], Key, Turn::Enters(0)),
        rule!(Anywhere, "<?PHP", Extent::Itself, "", &[], Key, Turn::Enters(0)),
        rule!(Anywhere, "<?=", Extent::Itself, "", &[], Key, Turn::Enters(0)),
        rule!(Anywhere, "", Extent::Word, "", &[], Key, Turn::Stays),
    ],
    &[
        rule!(Anywhere, "=", Extent::Itself, "", &[], Key, Turn::Stays),
        rule!(Anywhere, "", Extent::Word, "", &[], Key, Turn::Stays),
    ],
    &[
        rule!(Anywhere, "\"", Extent::ThroughLines(Escape::Never), "\"", &[], Text, Turn::Stays),
        rule!(Anywhere, "", Extent::Word, "", &[], Key, Turn::Stays),
    ],
    &[
        rule!(Anywhere, "'", Extent::ThroughLines(Escape::Never), "'", &[], Text, Turn::Stays),
        rule!(Anywhere, "", Extent::Word, "", &[], Key, Turn::Stays),
    ],
];

fn ruby_mode(n: usize) -> ModeRow
    ensures words { mode_of result ≡ ruby_mode n }
    ensures rules { heads_in result ≡ by_head (ruby_rules n) }
{
    match n {
        1 => ruby_1(),
        2 => ruby_2(),
        _ => ruby_0(),
    }
}

#[tactic(auto, unfolding(crate::specs::Heads::by_head))]
fn ruby_0() -> ModeRow
    ensures words { mode_of result ≡ ruby_0 }
    ensures rules { heads_in result ≡ by_head ruby_rules_0 }
{
    ModeRow {
        places: "000000000000000000000000000000000053;<060000000=0000000000904100:00000000000000000000000000000027000000000000000000000000008000000000000000000000000000000000000000000000000000000000000000000000000000000000000000000000000000000000000000000000000000000000000",
        rules: &RUBY_0_RULES,
        words: Words::RubyWords,
        starts: "",
        more: "!?",
        otherwise: Class::Plain,
        members: true,
        capitals: true,
        numbers: true,
        folds: false,
    }
}

#[rattlefmt::skip]
static RUBY_0_RULES: [&[RuleRow]; 14] = [
    &[
        rule!(Apart, "", Extent::Word, ":", &[": ", ":\n"], Text, Turn::Stays),
    ],
    &[
        rule!(FirstByte, "=begin", Extent::ThroughLines(Escape::Never), "\n=end", &[], Comment, Turn::Stays),
        rule!(Apart, "", Extent::Word, ":", &[": ", ":\n"], Text, Turn::Stays),
    ],
    &[
        rule!(FirstByte, "__END__", Extent::ThroughLines(Escape::Never), "\0", &[], Comment, Turn::Stays),
        rule!(Apart, "", Extent::Word, ":", &[": ", ":\n"], Text, Turn::Stays),
    ],
    &[
        rule!(Anywhere, "#", Extent::Line, "", &[], Comment, Turn::Stays),
        rule!(Apart, "", Extent::Word, ":", &[": ", ":\n"], Text, Turn::Stays),
    ],
    &[
        rule!(Anywhere, "<<", Extent::Labelled(true), "", &[], Text, Turn::Stays),
        rule!(Apart, "", Extent::Word, ":", &[": ", ":\n"], Text, Turn::Stays),
    ],
    &[
        rule!(Anywhere, "\"", Extent::Itself, "", &[], Text, Turn::Enters(1)),
        rule!(Apart, "", Extent::Word, ":", &[": ", ":\n"], Text, Turn::Stays),
    ],
    &[
        rule!(Anywhere, "'", Extent::ThroughLines(Escape::Backslash), "'", &[], Text, Turn::Stays),
        rule!(Apart, "", Extent::Word, ":", &[": ", ":\n"], Text, Turn::Stays),
    ],
    &[
        rule!(Anywhere, "`", Extent::ThroughLines(Escape::Backslash), "`", &[], Text, Turn::Stays),
        rule!(Apart, "", Extent::Word, ":", &[": ", ":\n"], Text, Turn::Stays),
    ],
    &[
        rule!(Anywhere, "{", Extent::Itself, "", &[], Plain, Turn::Enters(2)),
        rule!(Apart, "", Extent::Word, ":", &[": ", ":\n"], Text, Turn::Stays),
    ],
    &[
        rule!(Anywhere, ":\"", Extent::Through(Escape::Backslash), "\"", &[], Text, Turn::Stays),
        rule!(Anywhere, "::", Extent::Itself, "", &[], Plain, Turn::Stays),
        rule!(Anywhere, ":", Extent::Word, "", &[], Text, Turn::Stays),
        rule!(Apart, "", Extent::Word, ":", &[": ", ":\n"], Text, Turn::Stays),
    ],
    &[
        rule!(Anywhere, "@@", Extent::Word, "", &[], Key, Turn::Stays),
        rule!(Anywhere, "@", Extent::Word, "", &[], Key, Turn::Stays),
        rule!(Apart, "", Extent::Word, ":", &[": ", ":\n"], Text, Turn::Stays),
    ],
    &[
        rule!(Anywhere, "$", Extent::Word, "", &[], Key, Turn::Stays),
        rule!(Apart, "", Extent::Word, ":", &[": ", ":\n"], Text, Turn::Stays),
    ],
    &[
        rule!(Anywhere, "%w(", Extent::ThroughLines(Escape::Backslash), ")", &[], Text, Turn::Stays),
        rule!(Anywhere, "%w[", Extent::ThroughLines(Escape::Backslash), "]", &[], Text, Turn::Stays),
        rule!(Anywhere, "%i[", Extent::ThroughLines(Escape::Backslash), "]", &[], Text, Turn::Stays),
        rule!(Anywhere, "%i(", Extent::ThroughLines(Escape::Backslash), ")", &[], Text, Turn::Stays),
        rule!(Anywhere, "%w{", Extent::ThroughLines(Escape::Backslash), "}", &[], Text, Turn::Stays),
        rule!(Anywhere, "%q(", Extent::ThroughLines(Escape::Backslash), ")", &[], Text, Turn::Stays),
        rule!(Anywhere, "%Q(", Extent::ThroughLines(Escape::Backslash), ")", &[], Text, Turn::Stays),
        rule!(Anywhere, "%r{", Extent::ThroughLines(Escape::Backslash), "}", &[], Text, Turn::Stays),
        rule!(Anywhere, "%{", Extent::ThroughLines(Escape::Backslash), "}", &[], Text, Turn::Stays),
        rule!(Anywhere, "%(", Extent::ThroughLines(Escape::Backslash), ")", &[], Text, Turn::Stays),
        rule!(Apart, "", Extent::Word, ":", &[": ", ":\n"], Text, Turn::Stays),
    ],
    &[
        rule!(Apart, "", Extent::Word, ":", &[": ", ":\n"], Text, Turn::Stays),
        rule!(Value, "/", Extent::Through(Escape::Backslash), "/", &[], Text, Turn::Stays),
    ],
];

#[tactic(auto, unfolding(crate::specs::Heads::by_head))]
fn ruby_1() -> ModeRow
    ensures words { mode_of result ≡ ruby_1 }
    ensures rules { heads_in result ≡ by_head ruby_rules_1 }
{
    ModeRow {
        places: "0000000000000000000000000000000000230000000000000000000000000000000000000000000000000000000010000000000000000000000000000000000000000000000000000000000000000000000000000000000000000000000000000000000000000000000000000000000000000000000000000000000000000000",
        rules: &RUBY_1_RULES,
        words: Words::NoWords,
        starts: "",
        more: "",
        otherwise: Class::Text,
        members: true,
        capitals: false,
        numbers: false,
        folds: false,
    }
}

#[rattlefmt::skip]
static RUBY_1_RULES: [&[RuleRow]; 4] = [
    &[],
    &[
        rule!(Anywhere, "\\", Extent::OneMore, "", &[], Text, Turn::Stays),
    ],
    &[
        rule!(Anywhere, "\"", Extent::Itself, "", &[], Text, Turn::Leaves),
    ],
    &[
        rule!(Anywhere, "#{", Extent::Itself, "", &[], Text, Turn::Enters(2)),
    ],
];

#[tactic(auto, unfolding(crate::specs::Heads::by_head))]
fn ruby_2() -> ModeRow
    ensures words { mode_of result ≡ ruby_2 }
    ensures rules { heads_in result ≡ by_head ruby_rules_2 }
{
    ModeRow {
        places: "000000000000000000000000000000000064<=070000000>0000000000:05200;00000000000000000000000000000038000000000000000000000000009010000000000000000000000000000000000000000000000000000000000000000000000000000000000000000000000000000000000000000000000000000000000",
        rules: &RUBY_2_RULES,
        words: Words::RubyWords,
        starts: "",
        more: "!?",
        otherwise: Class::Plain,
        members: true,
        capitals: true,
        numbers: true,
        folds: false,
    }
}

#[rattlefmt::skip]
static RUBY_2_RULES: [&[RuleRow]; 15] = [
    &[
        rule!(Apart, "", Extent::Word, ":", &[": ", ":\n"], Text, Turn::Stays),
    ],
    &[
        rule!(Anywhere, "}", Extent::Itself, "", &[], Plain, Turn::Leaves),
        rule!(Apart, "", Extent::Word, ":", &[": ", ":\n"], Text, Turn::Stays),
    ],
    &[
        rule!(FirstByte, "=begin", Extent::ThroughLines(Escape::Never), "\n=end", &[], Comment, Turn::Stays),
        rule!(Apart, "", Extent::Word, ":", &[": ", ":\n"], Text, Turn::Stays),
    ],
    &[
        rule!(FirstByte, "__END__", Extent::ThroughLines(Escape::Never), "\0", &[], Comment, Turn::Stays),
        rule!(Apart, "", Extent::Word, ":", &[": ", ":\n"], Text, Turn::Stays),
    ],
    &[
        rule!(Anywhere, "#", Extent::Line, "", &[], Comment, Turn::Stays),
        rule!(Apart, "", Extent::Word, ":", &[": ", ":\n"], Text, Turn::Stays),
    ],
    &[
        rule!(Anywhere, "<<", Extent::Labelled(true), "", &[], Text, Turn::Stays),
        rule!(Apart, "", Extent::Word, ":", &[": ", ":\n"], Text, Turn::Stays),
    ],
    &[
        rule!(Anywhere, "\"", Extent::Itself, "", &[], Text, Turn::Enters(1)),
        rule!(Apart, "", Extent::Word, ":", &[": ", ":\n"], Text, Turn::Stays),
    ],
    &[
        rule!(Anywhere, "'", Extent::ThroughLines(Escape::Backslash), "'", &[], Text, Turn::Stays),
        rule!(Apart, "", Extent::Word, ":", &[": ", ":\n"], Text, Turn::Stays),
    ],
    &[
        rule!(Anywhere, "`", Extent::ThroughLines(Escape::Backslash), "`", &[], Text, Turn::Stays),
        rule!(Apart, "", Extent::Word, ":", &[": ", ":\n"], Text, Turn::Stays),
    ],
    &[
        rule!(Anywhere, "{", Extent::Itself, "", &[], Plain, Turn::Enters(2)),
        rule!(Apart, "", Extent::Word, ":", &[": ", ":\n"], Text, Turn::Stays),
    ],
    &[
        rule!(Anywhere, ":\"", Extent::Through(Escape::Backslash), "\"", &[], Text, Turn::Stays),
        rule!(Anywhere, "::", Extent::Itself, "", &[], Plain, Turn::Stays),
        rule!(Anywhere, ":", Extent::Word, "", &[], Text, Turn::Stays),
        rule!(Apart, "", Extent::Word, ":", &[": ", ":\n"], Text, Turn::Stays),
    ],
    &[
        rule!(Anywhere, "@@", Extent::Word, "", &[], Key, Turn::Stays),
        rule!(Anywhere, "@", Extent::Word, "", &[], Key, Turn::Stays),
        rule!(Apart, "", Extent::Word, ":", &[": ", ":\n"], Text, Turn::Stays),
    ],
    &[
        rule!(Anywhere, "$", Extent::Word, "", &[], Key, Turn::Stays),
        rule!(Apart, "", Extent::Word, ":", &[": ", ":\n"], Text, Turn::Stays),
    ],
    &[
        rule!(Anywhere, "%w(", Extent::ThroughLines(Escape::Backslash), ")", &[], Text, Turn::Stays),
        rule!(Anywhere, "%w[", Extent::ThroughLines(Escape::Backslash), "]", &[], Text, Turn::Stays),
        rule!(Anywhere, "%i[", Extent::ThroughLines(Escape::Backslash), "]", &[], Text, Turn::Stays),
        rule!(Anywhere, "%i(", Extent::ThroughLines(Escape::Backslash), ")", &[], Text, Turn::Stays),
        rule!(Anywhere, "%w{", Extent::ThroughLines(Escape::Backslash), "}", &[], Text, Turn::Stays),
        rule!(Anywhere, "%q(", Extent::ThroughLines(Escape::Backslash), ")", &[], Text, Turn::Stays),
        rule!(Anywhere, "%Q(", Extent::ThroughLines(Escape::Backslash), ")", &[], Text, Turn::Stays),
        rule!(Anywhere, "%r{", Extent::ThroughLines(Escape::Backslash), "}", &[], Text, Turn::Stays),
        rule!(Anywhere, "%{", Extent::ThroughLines(Escape::Backslash), "}", &[], Text, Turn::Stays),
        rule!(Anywhere, "%(", Extent::ThroughLines(Escape::Backslash), ")", &[], Text, Turn::Stays),
        rule!(Apart, "", Extent::Word, ":", &[": ", ":\n"], Text, Turn::Stays),
    ],
    &[
        rule!(Apart, "", Extent::Word, ":", &[": ", ":\n"], Text, Turn::Stays),
        rule!(Value, "/", Extent::Through(Escape::Backslash), "/", &[], Text, Turn::Stays),
    ],
];

fn perl_mode(_n: usize) -> ModeRow
    ensures words { mode_of result ≡ perl_mode _n }
    ensures rules { heads_in result ≡ by_head (perl_rules _n) }
{
    perl_0()
}

#[tactic(auto, unfolding(crate::specs::Heads::by_head))]
fn perl_0() -> ModeRow
    ensures words { mode_of result ≡ perl_0 }
    ensures rules { heads_in result ≡ by_head perl_rules_0 }
{
    ModeRow {
        places: "000000000000000000000000000000000053?>060000000<0000000000004100=00000000000000000000000000000020000000000000700080;90000:00000000000000000000000000000000000000000000000000000000000000000000000000000000000000000000000000000000000000000000000000000000000000",
        rules: &PERL_0_RULES,
        words: Words::PerlWords,
        starts: "",
        more: "",
        otherwise: Class::Plain,
        members: false,
        capitals: false,
        numbers: true,
        folds: false,
    }
}

#[rattlefmt::skip]
static PERL_0_RULES: [&[RuleRow]; 16] = [
    &[],
    &[
        rule!(FirstByte, "=head", Extent::ThroughLines(Escape::Never), "\n=cut", &[], Comment, Turn::Stays),
        rule!(FirstByte, "=pod", Extent::ThroughLines(Escape::Never), "\n=cut", &[], Comment, Turn::Stays),
        rule!(FirstByte, "=over", Extent::ThroughLines(Escape::Never), "\n=cut", &[], Comment, Turn::Stays),
        rule!(FirstByte, "=item", Extent::ThroughLines(Escape::Never), "\n=cut", &[], Comment, Turn::Stays),
        rule!(FirstByte, "=begin", Extent::ThroughLines(Escape::Never), "\n=cut", &[], Comment, Turn::Stays),
        rule!(FirstByte, "=for", Extent::ThroughLines(Escape::Never), "\n=cut", &[], Comment, Turn::Stays),
        rule!(FirstByte, "=encoding", Extent::ThroughLines(Escape::Never), "\n=cut", &[], Comment, Turn::Stays),
        rule!(FirstByte, "=cut", Extent::ThroughLines(Escape::Never), "\n=cut", &[], Comment, Turn::Stays),
        rule!(FirstByte, "=back", Extent::ThroughLines(Escape::Never), "\n=cut", &[], Comment, Turn::Stays),
    ],
    &[
        rule!(FirstByte, "__END__", Extent::ThroughLines(Escape::Never), "\0", &[], Comment, Turn::Stays),
        rule!(FirstByte, "__DATA__", Extent::ThroughLines(Escape::Never), "\0", &[], Comment, Turn::Stays),
    ],
    &[
        rule!(FirstByte, "#!", Extent::Line, "", &[], Comment, Turn::Stays),
        rule!(Anywhere, "#", Extent::Line, "", &[], Comment, Turn::Stays),
    ],
    &[
        rule!(Anywhere, "<<", Extent::Labelled(true), "", &[], Text, Turn::Stays),
    ],
    &[
        rule!(Anywhere, "\"", Extent::ThroughLines(Escape::Backslash), "\"", &[], Text, Turn::Stays),
    ],
    &[
        rule!(Anywhere, "'", Extent::ThroughLines(Escape::Backslash), "'", &[], Text, Turn::Stays),
    ],
    &[
        rule!(Apart, "m(", Extent::ThroughLines(Escape::Backslash), ")", &[], Text, Turn::Stays),
        rule!(Apart, "m{", Extent::ThroughLines(Escape::Backslash), "}", &[], Text, Turn::Stays),
        rule!(Apart, "m[", Extent::ThroughLines(Escape::Backslash), "]", &[], Text, Turn::Stays),
        rule!(Apart, "m/", Extent::ThroughLines(Escape::Backslash), "/", &[], Text, Turn::Stays),
        rule!(Apart, "m|", Extent::ThroughLines(Escape::Backslash), "|", &[], Text, Turn::Stays),
        rule!(Apart, "m!", Extent::ThroughLines(Escape::Backslash), "!", &[], Text, Turn::Stays),
        rule!(Apart, "m<", Extent::ThroughLines(Escape::Backslash), ">", &[], Text, Turn::Stays),
    ],
    &[
        rule!(Apart, "qw(", Extent::ThroughLines(Escape::Backslash), ")", &[], Text, Turn::Stays),
        rule!(Apart, "qw{", Extent::ThroughLines(Escape::Backslash), "}", &[], Text, Turn::Stays),
        rule!(Apart, "qw[", Extent::ThroughLines(Escape::Backslash), "]", &[], Text, Turn::Stays),
        rule!(Apart, "qw/", Extent::ThroughLines(Escape::Backslash), "/", &[], Text, Turn::Stays),
        rule!(Apart, "qw|", Extent::ThroughLines(Escape::Backslash), "|", &[], Text, Turn::Stays),
        rule!(Apart, "qw!", Extent::ThroughLines(Escape::Backslash), "!", &[], Text, Turn::Stays),
        rule!(Apart, "qw<", Extent::ThroughLines(Escape::Backslash), ">", &[], Text, Turn::Stays),
        rule!(Apart, "q(", Extent::ThroughLines(Escape::Backslash), ")", &[], Text, Turn::Stays),
        rule!(Apart, "q{", Extent::ThroughLines(Escape::Backslash), "}", &[], Text, Turn::Stays),
        rule!(Apart, "q[", Extent::ThroughLines(Escape::Backslash), "]", &[], Text, Turn::Stays),
        rule!(Apart, "q/", Extent::ThroughLines(Escape::Backslash), "/", &[], Text, Turn::Stays),
        rule!(Apart, "q|", Extent::ThroughLines(Escape::Backslash), "|", &[], Text, Turn::Stays),
        rule!(Apart, "q!", Extent::ThroughLines(Escape::Backslash), "!", &[], Text, Turn::Stays),
        rule!(Apart, "q<", Extent::ThroughLines(Escape::Backslash), ">", &[], Text, Turn::Stays),
        rule!(Apart, "qq(", Extent::ThroughLines(Escape::Backslash), ")", &[], Text, Turn::Stays),
        rule!(Apart, "qq{", Extent::ThroughLines(Escape::Backslash), "}", &[], Text, Turn::Stays),
        rule!(Apart, "qq[", Extent::ThroughLines(Escape::Backslash), "]", &[], Text, Turn::Stays),
        rule!(Apart, "qq/", Extent::ThroughLines(Escape::Backslash), "/", &[], Text, Turn::Stays),
        rule!(Apart, "qq|", Extent::ThroughLines(Escape::Backslash), "|", &[], Text, Turn::Stays),
        rule!(Apart, "qq!", Extent::ThroughLines(Escape::Backslash), "!", &[], Text, Turn::Stays),
        rule!(Apart, "qq<", Extent::ThroughLines(Escape::Backslash), ">", &[], Text, Turn::Stays),
        rule!(Apart, "qr(", Extent::ThroughLines(Escape::Backslash), ")", &[], Text, Turn::Stays),
        rule!(Apart, "qr{", Extent::ThroughLines(Escape::Backslash), "}", &[], Text, Turn::Stays),
        rule!(Apart, "qr[", Extent::ThroughLines(Escape::Backslash), "]", &[], Text, Turn::Stays),
        rule!(Apart, "qr/", Extent::ThroughLines(Escape::Backslash), "/", &[], Text, Turn::Stays),
        rule!(Apart, "qr|", Extent::ThroughLines(Escape::Backslash), "|", &[], Text, Turn::Stays),
        rule!(Apart, "qr!", Extent::ThroughLines(Escape::Backslash), "!", &[], Text, Turn::Stays),
        rule!(Apart, "qr<", Extent::ThroughLines(Escape::Backslash), ">", &[], Text, Turn::Stays),
        rule!(Apart, "qw (", Extent::ThroughLines(Escape::Backslash), ")", &[], Text, Turn::Stays),
        rule!(Apart, "qw {", Extent::ThroughLines(Escape::Backslash), "}", &[], Text, Turn::Stays),
        rule!(Apart, "qw [", Extent::ThroughLines(Escape::Backslash), "]", &[], Text, Turn::Stays),
        rule!(Apart, "qw /", Extent::ThroughLines(Escape::Backslash), "/", &[], Text, Turn::Stays),
        rule!(Apart, "qw |", Extent::ThroughLines(Escape::Backslash), "|", &[], Text, Turn::Stays),
        rule!(Apart, "qw !", Extent::ThroughLines(Escape::Backslash), "!", &[], Text, Turn::Stays),
        rule!(Apart, "qw <", Extent::ThroughLines(Escape::Backslash), ">", &[], Text, Turn::Stays),
    ],
    &[
        rule!(Apart, "tr/", Extent::TwoParts, "/", &[], Text, Turn::Stays),
        rule!(Apart, "tr|", Extent::TwoParts, "|", &[], Text, Turn::Stays),
        rule!(Apart, "tr,", Extent::TwoParts, ",", &[], Text, Turn::Stays),
        rule!(Apart, "tr!", Extent::TwoParts, "!", &[], Text, Turn::Stays),
        rule!(Apart, "tr#", Extent::TwoParts, "#", &[], Text, Turn::Stays),
    ],
    &[
        rule!(Apart, "y/", Extent::TwoParts, "/", &[], Text, Turn::Stays),
        rule!(Apart, "y|", Extent::TwoParts, "|", &[], Text, Turn::Stays),
        rule!(Apart, "y,", Extent::TwoParts, ",", &[], Text, Turn::Stays),
        rule!(Apart, "y!", Extent::TwoParts, "!", &[], Text, Turn::Stays),
        rule!(Apart, "y#", Extent::TwoParts, "#", &[], Text, Turn::Stays),
    ],
    &[
        rule!(Apart, "s/", Extent::TwoParts, "/", &[], Text, Turn::Stays),
        rule!(Apart, "s|", Extent::TwoParts, "|", &[], Text, Turn::Stays),
        rule!(Apart, "s,", Extent::TwoParts, ",", &[], Text, Turn::Stays),
        rule!(Apart, "s!", Extent::TwoParts, "!", &[], Text, Turn::Stays),
        rule!(Apart, "s#", Extent::TwoParts, "#", &[], Text, Turn::Stays),
        rule!(Apart, "s{", Extent::Through(Escape::Backslash), "}", &[], Text, Turn::Stays),
    ],
    &[
        rule!(Value, "/", Extent::Through(Escape::Backslash), "/", &[], Text, Turn::Stays),
    ],
    &[
        rule!(Anywhere, "@", Extent::Word, "", &[], Key, Turn::Stays),
    ],
    &[
        rule!(Apart, "%", Extent::Word, "", &[], Key, Turn::Stays),
    ],
    &[
        rule!(Anywhere, "$#", Extent::Word, "", &[], Key, Turn::Stays),
        rule!(Anywhere, "$", Extent::Word, "", &[], Key, Turn::Stays),
        rule!(Anywhere, "$&", Extent::Itself, "", &[], Key, Turn::Stays),
        rule!(Anywhere, "$@", Extent::Itself, "", &[], Key, Turn::Stays),
        rule!(Anywhere, "$!", Extent::Itself, "", &[], Key, Turn::Stays),
        rule!(Anywhere, "$/", Extent::Itself, "", &[], Key, Turn::Stays),
        rule!(Anywhere, "$\\", Extent::Itself, "", &[], Key, Turn::Stays),
        rule!(Anywhere, "$,", Extent::Itself, "", &[], Key, Turn::Stays),
        rule!(Anywhere, "$;", Extent::Itself, "", &[], Key, Turn::Stays),
        rule!(Anywhere, "$.", Extent::Itself, "", &[], Key, Turn::Stays),
        rule!(Anywhere, "$", Extent::Itself, "", &[], Key, Turn::Stays),
    ],
];

fn lua_mode(_n: usize) -> ModeRow
    ensures words { mode_of result ≡ lua_mode _n }
    ensures rules { heads_in result ≡ by_head (lua_rules _n) }
{
    lua_0()
}

#[tactic(auto, unfolding(crate::specs::Heads::by_head))]
fn lua_0() -> ModeRow
    ensures words { mode_of result ≡ lua_0 }
    ensures rules { heads_in result ≡ by_head lua_rules_0 }
{
    ModeRow {
        places: "0000000000000000000000000000000000300004000001000000000000000000000000000000000000000000000200000000000000000000000000000000000000000000000000000000000000000000000000000000000000000000000000000000000000000000000000000000000000000000000000000000000000000000",
        rules: &LUA_0_RULES,
        words: Words::LuaWords,
        starts: "",
        more: "",
        otherwise: Class::Plain,
        members: true,
        capitals: false,
        numbers: true,
        folds: false,
    }
}

#[rattlefmt::skip]
static LUA_0_RULES: [&[RuleRow]; 5] = [
    &[],
    &[
        rule!(Anywhere, "--[[", Extent::ThroughLines(Escape::Never), "]]", &[], Comment, Turn::Stays),
        rule!(Anywhere, "--[=[", Extent::ThroughLines(Escape::Never), "]=]", &[], Comment, Turn::Stays),
        rule!(Anywhere, "--[==[", Extent::ThroughLines(Escape::Never), "]==]", &[], Comment, Turn::Stays),
        rule!(Anywhere, "--", Extent::Line, "", &[], Comment, Turn::Stays),
    ],
    &[
        rule!(Anywhere, "[[", Extent::ThroughLines(Escape::Never), "]]", &[], Text, Turn::Stays),
        rule!(Anywhere, "[=[", Extent::ThroughLines(Escape::Never), "]=]", &[], Text, Turn::Stays),
        rule!(Anywhere, "[==[", Extent::ThroughLines(Escape::Never), "]==]", &[], Text, Turn::Stays),
    ],
    &[
        rule!(Anywhere, "\"", Extent::Through(Escape::Backslash), "\"", &[], Text, Turn::Stays),
    ],
    &[
        rule!(Anywhere, "'", Extent::Through(Escape::Backslash), "'", &[], Text, Turn::Stays),
    ],
];

fn sql_mode(_n: usize) -> ModeRow
    ensures words { mode_of result ≡ sql_mode _n }
    ensures rules { heads_in result ≡ by_head (sql_rules _n) }
{
    sql_0()
}

#[tactic(auto, unfolding(crate::specs::Heads::by_head))]
fn sql_0() -> ModeRow
    ensures words { mode_of result ≡ sql_0 }
    ensures rules { heads_in result ≡ by_head sql_rules_0 }
{
    ModeRow {
        places: "0000000000000000000000000000000000450003000001020000000000000000000000000000000000000000000000000000000000000000000000000000000000000000000000000000000000000000000000000000000000000000000000000000000000000000000000000000000000000000000000000000000000000000",
        rules: &SQL_0_RULES,
        words: Words::SqlWords,
        starts: "",
        more: "",
        otherwise: Class::Plain,
        members: true,
        capitals: false,
        numbers: true,
        folds: true,
    }
}

#[rattlefmt::skip]
static SQL_0_RULES: [&[RuleRow]; 6] = [
    &[],
    &[
        rule!(Anywhere, "--", Extent::Line, "", &[], Comment, Turn::Stays),
    ],
    &[
        rule!(Anywhere, "/*", Extent::ThroughLines(Escape::Never), "*/", &[], Comment, Turn::Stays),
    ],
    &[
        rule!(Anywhere, "'", Extent::ThroughLines(Escape::Doubled), "'", &[], Text, Turn::Stays),
    ],
    &[
        rule!(Anywhere, "\"", Extent::ThroughLines(Escape::Doubled), "\"", &[], Text, Turn::Stays),
    ],
    &[
        rule!(FirstWord, "#", Extent::Line, "", &[], Comment, Turn::Stays),
    ],
];

fn make_mode(n: usize) -> ModeRow
    ensures words { mode_of result ≡ make_mode n }
    ensures rules { heads_in result ≡ by_head (make_rules n) }
{
    match n {
        1 => make_1(),
        2 => make_2(),
        3 => make_3(),
        _ => make_0(),
    }
}

#[tactic(auto, unfolding(crate::specs::Heads::by_head))]
fn make_0() -> ModeRow
    ensures words { mode_of result ≡ make_0 }
    ensures rules { heads_in result ≡ by_head make_rules_0 }
{
    ModeRow {
        places: "0000000002000000000000000000000000817009000005000000000000000000000000000000000000000000000000000000030004000000000600000000000000000000000000000000000000000000000000000000000000000000000000000000000000000000000000000000000000000000000000000000000000000000",
        rules: &MAKE_0_RULES,
        words: Words::MakeWords,
        starts: "",
        more: "-",
        otherwise: Class::Plain,
        members: false,
        capitals: false,
        numbers: true,
        folds: false,
    }
}

#[rattlefmt::skip]
static MAKE_0_RULES: [&[RuleRow]; 10] = [
    &[
        rule!(FirstByte, "", Extent::UpTo, ":=#$\t ?+\"'", &["=", ":=", "?=", "+=", "::="], Key, Turn::Stays),
    ],
    &[
        rule!(Anywhere, "#", Extent::Line, "", &[], Comment, Turn::Stays),
        rule!(FirstByte, "", Extent::UpTo, ":=#$\t ?+\"'", &["=", ":=", "?=", "+=", "::="], Key, Turn::Stays),
    ],
    &[
        rule!(FirstByte, "\t", Extent::Itself, "", &[], Plain, Turn::Enters(1)),
        rule!(FirstByte, "", Extent::UpTo, ":=#$\t ?+\"'", &["=", ":=", "?=", "+=", "::="], Key, Turn::Stays),
    ],
    &[
        rule!(FirstWord, "else ", Extent::Line, "", &[], Keyword, Turn::Stays),
        rule!(FirstWord, "endif ", Extent::Line, "", &[], Keyword, Turn::Stays),
        rule!(FirstByte, "", Extent::UpTo, ":=#$\t ?+\"'", &["=", ":=", "?=", "+=", "::="], Key, Turn::Stays),
    ],
    &[
        rule!(FirstWord, "ifeq ", Extent::Line, "", &[], Keyword, Turn::Stays),
        rule!(FirstWord, "ifneq ", Extent::Line, "", &[], Keyword, Turn::Stays),
        rule!(FirstWord, "ifdef ", Extent::Line, "", &[], Keyword, Turn::Stays),
        rule!(FirstWord, "ifndef ", Extent::Line, "", &[], Keyword, Turn::Stays),
        rule!(FirstWord, "include ", Extent::Line, "", &[], Keyword, Turn::Stays),
        rule!(FirstByte, "", Extent::UpTo, ":=#$\t ?+\"'", &["=", ":=", "?=", "+=", "::="], Key, Turn::Stays),
    ],
    &[
        rule!(FirstWord, "-include ", Extent::Line, "", &[], Keyword, Turn::Stays),
        rule!(FirstByte, "", Extent::UpTo, ":=#$\t ?+\"'", &["=", ":=", "?=", "+=", "::="], Key, Turn::Stays),
    ],
    &[
        rule!(FirstWord, "sinclude ", Extent::Line, "", &[], Keyword, Turn::Stays),
        rule!(FirstByte, "", Extent::UpTo, ":=#$\t ?+\"'", &["=", ":=", "?=", "+=", "::="], Key, Turn::Stays),
    ],
    &[
        rule!(FirstByte, "", Extent::UpTo, ":=#$\t ?+\"'", &["=", ":=", "?=", "+=", "::="], Key, Turn::Stays),
        rule!(Anywhere, "$(", Extent::Itself, "", &[], Key, Turn::Enters(2)),
        rule!(Anywhere, "${", Extent::Through(Escape::Never), "}", &[], Key, Turn::Stays),
        rule!(Anywhere, "$@", Extent::Itself, "", &[], Key, Turn::Stays),
        rule!(Anywhere, "$<", Extent::Itself, "", &[], Key, Turn::Stays),
        rule!(Anywhere, "$^", Extent::Itself, "", &[], Key, Turn::Stays),
        rule!(Anywhere, "$*", Extent::Itself, "", &[], Key, Turn::Stays),
        rule!(Anywhere, "$+", Extent::Itself, "", &[], Key, Turn::Stays),
        rule!(Anywhere, "$?", Extent::Itself, "", &[], Key, Turn::Stays),
        rule!(Anywhere, "$%", Extent::Itself, "", &[], Key, Turn::Stays),
        rule!(Anywhere, "$$", Extent::Itself, "", &[], Key, Turn::Stays),
        rule!(Anywhere, "$1", Extent::Itself, "", &[], Key, Turn::Stays),
        rule!(Anywhere, "$2", Extent::Itself, "", &[], Key, Turn::Stays),
        rule!(Anywhere, "$3", Extent::Itself, "", &[], Key, Turn::Stays),
        rule!(Anywhere, "$4", Extent::Itself, "", &[], Key, Turn::Stays),
        rule!(Anywhere, "$5", Extent::Itself, "", &[], Key, Turn::Stays),
        rule!(Anywhere, "$6", Extent::Itself, "", &[], Key, Turn::Stays),
        rule!(Anywhere, "$7", Extent::Itself, "", &[], Key, Turn::Stays),
        rule!(Anywhere, "$8", Extent::Itself, "", &[], Key, Turn::Stays),
        rule!(Anywhere, "$9", Extent::Itself, "", &[], Key, Turn::Stays),
        rule!(Anywhere, "$0", Extent::Itself, "", &[], Key, Turn::Stays),
    ],
    &[
        rule!(FirstByte, "", Extent::UpTo, ":=#$\t ?+\"'", &["=", ":=", "?=", "+=", "::="], Key, Turn::Stays),
        rule!(Anywhere, "\"", Extent::Through(Escape::Backslash), "\"", &[], Text, Turn::Stays),
    ],
    &[
        rule!(FirstByte, "", Extent::UpTo, ":=#$\t ?+\"'", &["=", ":=", "?=", "+=", "::="], Key, Turn::Stays),
        rule!(Anywhere, "'", Extent::Through(Escape::Backslash), "'", &[], Text, Turn::Stays),
    ],
];

#[tactic(auto, unfolding(crate::specs::Heads::by_head))]
fn make_1() -> ModeRow
    ensures words { mode_of result ≡ make_1 }
    ensures rules { heads_in result ≡ by_head make_rules_1 }
{
    ModeRow {
        places: "0000000000100000000000000000000000432005000000000000000000000000000000000000000000000000000060000000000000000000000000000000000000000000000000000000000000000000000000000000000000000000000000000000000000000000000000000000000000000000000000000000000000000000",
        rules: &MAKE_1_RULES,
        words: Words::ShWords,
        starts: "",
        more: "",
        otherwise: Class::Plain,
        members: false,
        capitals: false,
        numbers: true,
        folds: false,
    }
}

#[rattlefmt::skip]
static MAKE_1_RULES: [&[RuleRow]; 7] = [
    &[],
    &[
        rule!(Anywhere, "\n", Extent::Itself, "", &[], Plain, Turn::Leaves),
    ],
    &[
        rule!(Anywhere, "$(", Extent::Itself, "", &[], Key, Turn::Enters(2)),
        rule!(Anywhere, "${", Extent::Through(Escape::Never), "}", &[], Key, Turn::Stays),
        rule!(Anywhere, "$@", Extent::Itself, "", &[], Key, Turn::Stays),
        rule!(Anywhere, "$<", Extent::Itself, "", &[], Key, Turn::Stays),
        rule!(Anywhere, "$^", Extent::Itself, "", &[], Key, Turn::Stays),
        rule!(Anywhere, "$*", Extent::Itself, "", &[], Key, Turn::Stays),
        rule!(Anywhere, "$+", Extent::Itself, "", &[], Key, Turn::Stays),
        rule!(Anywhere, "$?", Extent::Itself, "", &[], Key, Turn::Stays),
        rule!(Anywhere, "$%", Extent::Itself, "", &[], Key, Turn::Stays),
        rule!(Anywhere, "$$", Extent::Itself, "", &[], Key, Turn::Stays),
        rule!(Anywhere, "$1", Extent::Itself, "", &[], Key, Turn::Stays),
        rule!(Anywhere, "$2", Extent::Itself, "", &[], Key, Turn::Stays),
        rule!(Anywhere, "$3", Extent::Itself, "", &[], Key, Turn::Stays),
        rule!(Anywhere, "$4", Extent::Itself, "", &[], Key, Turn::Stays),
        rule!(Anywhere, "$5", Extent::Itself, "", &[], Key, Turn::Stays),
        rule!(Anywhere, "$6", Extent::Itself, "", &[], Key, Turn::Stays),
        rule!(Anywhere, "$7", Extent::Itself, "", &[], Key, Turn::Stays),
        rule!(Anywhere, "$8", Extent::Itself, "", &[], Key, Turn::Stays),
        rule!(Anywhere, "$9", Extent::Itself, "", &[], Key, Turn::Stays),
        rule!(Anywhere, "$0", Extent::Itself, "", &[], Key, Turn::Stays),
    ],
    &[
        rule!(Apart, "#", Extent::Line, "", &[], Comment, Turn::Stays),
    ],
    &[
        rule!(Anywhere, "\"", Extent::Through(Escape::Backslash), "\"", &[], Text, Turn::Stays),
    ],
    &[
        rule!(Anywhere, "'", Extent::Through(Escape::Backslash), "'", &[], Text, Turn::Stays),
    ],
    &[
        rule!(Anywhere, "\\\n", Extent::Itself, "", &[], Text, Turn::Stays),
        rule!(Anywhere, "\\", Extent::OneMore, "", &[], Text, Turn::Stays),
    ],
];

#[tactic(auto, unfolding(crate::specs::Heads::by_head))]
fn make_2() -> ModeRow
    ensures words { mode_of result ≡ make_2 }
    ensures rules { heads_in result ≡ by_head make_rules_2 }
{
    ModeRow {
        places: "0000000000000000000000000000000000003004210000000000000000000000000000000000000000000000000000000000000000000000000000000000000000000000000000000000000000000000000000000000000000000000000000000000000000000000000000000000000000000000000000000000000000000000",
        rules: &MAKE_2_RULES,
        words: Words::MakeWords21,
        starts: "",
        more: "-",
        otherwise: Class::Plain,
        members: false,
        capitals: false,
        numbers: true,
        folds: false,
    }
}

#[rattlefmt::skip]
static MAKE_2_RULES: [&[RuleRow]; 5] = [
    &[
        rule!(Anywhere, "", Extent::Word, "", &[")", ":"], Key, Turn::Stays),
    ],
    &[
        rule!(Anywhere, ")", Extent::Itself, "", &[], Key, Turn::Leaves),
        rule!(Anywhere, "", Extent::Word, "", &[")", ":"], Key, Turn::Stays),
    ],
    &[
        rule!(Anywhere, "(", Extent::Itself, "", &[], Plain, Turn::Enters(3)),
        rule!(Anywhere, "", Extent::Word, "", &[")", ":"], Key, Turn::Stays),
    ],
    &[
        rule!(Anywhere, "$(", Extent::Itself, "", &[], Key, Turn::Enters(2)),
        rule!(Anywhere, "${", Extent::Through(Escape::Never), "}", &[], Key, Turn::Stays),
        rule!(Anywhere, "$@", Extent::Itself, "", &[], Key, Turn::Stays),
        rule!(Anywhere, "$<", Extent::Itself, "", &[], Key, Turn::Stays),
        rule!(Anywhere, "$^", Extent::Itself, "", &[], Key, Turn::Stays),
        rule!(Anywhere, "$*", Extent::Itself, "", &[], Key, Turn::Stays),
        rule!(Anywhere, "$+", Extent::Itself, "", &[], Key, Turn::Stays),
        rule!(Anywhere, "$?", Extent::Itself, "", &[], Key, Turn::Stays),
        rule!(Anywhere, "$%", Extent::Itself, "", &[], Key, Turn::Stays),
        rule!(Anywhere, "$$", Extent::Itself, "", &[], Key, Turn::Stays),
        rule!(Anywhere, "$1", Extent::Itself, "", &[], Key, Turn::Stays),
        rule!(Anywhere, "$2", Extent::Itself, "", &[], Key, Turn::Stays),
        rule!(Anywhere, "$3", Extent::Itself, "", &[], Key, Turn::Stays),
        rule!(Anywhere, "$4", Extent::Itself, "", &[], Key, Turn::Stays),
        rule!(Anywhere, "$5", Extent::Itself, "", &[], Key, Turn::Stays),
        rule!(Anywhere, "$6", Extent::Itself, "", &[], Key, Turn::Stays),
        rule!(Anywhere, "$7", Extent::Itself, "", &[], Key, Turn::Stays),
        rule!(Anywhere, "$8", Extent::Itself, "", &[], Key, Turn::Stays),
        rule!(Anywhere, "$9", Extent::Itself, "", &[], Key, Turn::Stays),
        rule!(Anywhere, "$0", Extent::Itself, "", &[], Key, Turn::Stays),
        rule!(Anywhere, "", Extent::Word, "", &[")", ":"], Key, Turn::Stays),
    ],
    &[
        rule!(Anywhere, "", Extent::Word, "", &[")", ":"], Key, Turn::Stays),
        rule!(Anywhere, "'", Extent::Through(Escape::Backslash), "'", &[], Text, Turn::Stays),
    ],
];

#[tactic(auto, unfolding(crate::specs::Heads::by_head))]
fn make_3() -> ModeRow
    ensures words { mode_of result ≡ make_3 }
    ensures rules { heads_in result ≡ by_head make_rules_3 }
{
    ModeRow {
        places: "0000000000000000000000000000000000003000210000000000000000000000000000000000000000000000000000000000000000000000000000000000000000000000000000000000000000000000000000000000000000000000000000000000000000000000000000000000000000000000000000000000000000000000",
        rules: &MAKE_3_RULES,
        words: Words::NoWords,
        starts: "",
        more: "-",
        otherwise: Class::Plain,
        members: false,
        capitals: false,
        numbers: true,
        folds: false,
    }
}

#[rattlefmt::skip]
static MAKE_3_RULES: [&[RuleRow]; 4] = [
    &[],
    &[
        rule!(Anywhere, ")", Extent::Itself, "", &[], Plain, Turn::Leaves),
    ],
    &[
        rule!(Anywhere, "(", Extent::Itself, "", &[], Plain, Turn::Enters(3)),
    ],
    &[
        rule!(Anywhere, "$(", Extent::Itself, "", &[], Key, Turn::Enters(2)),
        rule!(Anywhere, "${", Extent::Through(Escape::Never), "}", &[], Key, Turn::Stays),
        rule!(Anywhere, "$@", Extent::Itself, "", &[], Key, Turn::Stays),
        rule!(Anywhere, "$<", Extent::Itself, "", &[], Key, Turn::Stays),
        rule!(Anywhere, "$^", Extent::Itself, "", &[], Key, Turn::Stays),
        rule!(Anywhere, "$*", Extent::Itself, "", &[], Key, Turn::Stays),
        rule!(Anywhere, "$+", Extent::Itself, "", &[], Key, Turn::Stays),
        rule!(Anywhere, "$?", Extent::Itself, "", &[], Key, Turn::Stays),
        rule!(Anywhere, "$%", Extent::Itself, "", &[], Key, Turn::Stays),
        rule!(Anywhere, "$$", Extent::Itself, "", &[], Key, Turn::Stays),
        rule!(Anywhere, "$1", Extent::Itself, "", &[], Key, Turn::Stays),
        rule!(Anywhere, "$2", Extent::Itself, "", &[], Key, Turn::Stays),
        rule!(Anywhere, "$3", Extent::Itself, "", &[], Key, Turn::Stays),
        rule!(Anywhere, "$4", Extent::Itself, "", &[], Key, Turn::Stays),
        rule!(Anywhere, "$5", Extent::Itself, "", &[], Key, Turn::Stays),
        rule!(Anywhere, "$6", Extent::Itself, "", &[], Key, Turn::Stays),
        rule!(Anywhere, "$7", Extent::Itself, "", &[], Key, Turn::Stays),
        rule!(Anywhere, "$8", Extent::Itself, "", &[], Key, Turn::Stays),
        rule!(Anywhere, "$9", Extent::Itself, "", &[], Key, Turn::Stays),
        rule!(Anywhere, "$0", Extent::Itself, "", &[], Key, Turn::Stays),
    ],
];

fn dockerfile_mode(n: usize) -> ModeRow
    ensures words { mode_of result ≡ dockerfile_mode n }
    ensures rules { heads_in result ≡ by_head (dockerfile_rules n) }
{
    match n {
        1 => dockerfile_1(),
        2 => dockerfile_2(),
        3 => dockerfile_3(),
        _ => dockerfile_0(),
    }
}

#[tactic(auto, unfolding(crate::specs::Heads::by_head))]
fn dockerfile_0() -> ModeRow
    ensures words { mode_of result ≡ dockerfile_0 }
    ensures rules { heads_in result ≡ by_head dockerfile_rules_0 }
{
    ModeRow {
        places: "0000000000000000000000000000000000MKP00NQ0000000000000000000L0000D0:0<20H000680F004J0@>B0000O000RC090;10G000570E003I0?=A0000000000000000000000000000000000000000000000000000000000000000000000000000000000000000000000000000000000000000000000000000000000000000",
        rules: &DOCKERFILE_0_RULES,
        words: Words::ShWords,
        starts: "",
        more: "",
        otherwise: Class::Plain,
        members: false,
        capitals: false,
        numbers: false,
        folds: true,
    }
}

#[rattlefmt::skip]
static DOCKERFILE_0_RULES: [&[RuleRow]; 35] = [
    &[
        rule!(Apart, "", Extent::Word, "", &["=", "+="], Key, Turn::Stays),
        rule!(Apart, "", Extent::Digits, "", &[], Number, Turn::Stays),
    ],
    &[
        rule!(FirstWord, "from ", Extent::Itself, "", &[], Keyword, Turn::Stays),
        rule!(Apart, "", Extent::Word, "", &["=", "+="], Key, Turn::Stays),
        rule!(Apart, "", Extent::Digits, "", &[], Number, Turn::Stays),
    ],
    &[
        rule!(FirstWord, "FROM ", Extent::Itself, "", &[], Keyword, Turn::Stays),
        rule!(Apart, "", Extent::Word, "", &["=", "+="], Key, Turn::Stays),
        rule!(Apart, "", Extent::Digits, "", &[], Number, Turn::Stays),
    ],
    &[
        rule!(FirstWord, "run ", Extent::Itself, "", &[], Keyword, Turn::Stays),
        rule!(Apart, "", Extent::Word, "", &["=", "+="], Key, Turn::Stays),
        rule!(Apart, "", Extent::Digits, "", &[], Number, Turn::Stays),
    ],
    &[
        rule!(FirstWord, "RUN ", Extent::Itself, "", &[], Keyword, Turn::Stays),
        rule!(Apart, "", Extent::Word, "", &["=", "+="], Key, Turn::Stays),
        rule!(Apart, "", Extent::Digits, "", &[], Number, Turn::Stays),
    ],
    &[
        rule!(FirstWord, "label ", Extent::Itself, "", &[], Keyword, Turn::Stays),
        rule!(Apart, "", Extent::Word, "", &["=", "+="], Key, Turn::Stays),
        rule!(Apart, "", Extent::Digits, "", &[], Number, Turn::Stays),
    ],
    &[
        rule!(FirstWord, "LABEL ", Extent::Itself, "", &[], Keyword, Turn::Stays),
        rule!(Apart, "", Extent::Word, "", &["=", "+="], Key, Turn::Stays),
        rule!(Apart, "", Extent::Digits, "", &[], Number, Turn::Stays),
    ],
    &[
        rule!(FirstWord, "maintainer ", Extent::Itself, "", &[], Keyword, Turn::Stays),
        rule!(Apart, "", Extent::Word, "", &["=", "+="], Key, Turn::Stays),
        rule!(Apart, "", Extent::Digits, "", &[], Number, Turn::Stays),
    ],
    &[
        rule!(FirstWord, "MAINTAINER ", Extent::Itself, "", &[], Keyword, Turn::Stays),
        rule!(Apart, "", Extent::Word, "", &["=", "+="], Key, Turn::Stays),
        rule!(Apart, "", Extent::Digits, "", &[], Number, Turn::Stays),
    ],
    &[
        rule!(FirstWord, "cmd ", Extent::Itself, "", &[], Keyword, Turn::Stays),
        rule!(FirstWord, "copy ", Extent::Itself, "", &[], Keyword, Turn::Stays),
        rule!(Apart, "", Extent::Word, "", &["=", "+="], Key, Turn::Stays),
        rule!(Apart, "", Extent::Digits, "", &[], Number, Turn::Stays),
    ],
    &[
        rule!(FirstWord, "CMD ", Extent::Itself, "", &[], Keyword, Turn::Stays),
        rule!(FirstWord, "COPY ", Extent::Itself, "", &[], Keyword, Turn::Stays),
        rule!(Apart, "", Extent::Word, "", &["=", "+="], Key, Turn::Stays),
        rule!(Apart, "", Extent::Digits, "", &[], Number, Turn::Stays),
    ],
    &[
        rule!(FirstWord, "expose ", Extent::Itself, "", &[], Keyword, Turn::Stays),
        rule!(FirstWord, "env ", Extent::Itself, "", &[], Keyword, Turn::Stays),
        rule!(FirstWord, "entrypoint ", Extent::Itself, "", &[], Keyword, Turn::Stays),
        rule!(Apart, "", Extent::Word, "", &["=", "+="], Key, Turn::Stays),
        rule!(Apart, "", Extent::Digits, "", &[], Number, Turn::Stays),
    ],
    &[
        rule!(FirstWord, "EXPOSE ", Extent::Itself, "", &[], Keyword, Turn::Stays),
        rule!(FirstWord, "ENV ", Extent::Itself, "", &[], Keyword, Turn::Stays),
        rule!(FirstWord, "ENTRYPOINT ", Extent::Itself, "", &[], Keyword, Turn::Stays),
        rule!(Apart, "", Extent::Word, "", &["=", "+="], Key, Turn::Stays),
        rule!(Apart, "", Extent::Digits, "", &[], Number, Turn::Stays),
    ],
    &[
        rule!(FirstWord, "volume ", Extent::Itself, "", &[], Keyword, Turn::Stays),
        rule!(Apart, "", Extent::Word, "", &["=", "+="], Key, Turn::Stays),
        rule!(Apart, "", Extent::Digits, "", &[], Number, Turn::Stays),
    ],
    &[
        rule!(FirstWord, "VOLUME ", Extent::Itself, "", &[], Keyword, Turn::Stays),
        rule!(Apart, "", Extent::Word, "", &["=", "+="], Key, Turn::Stays),
        rule!(Apart, "", Extent::Digits, "", &[], Number, Turn::Stays),
    ],
    &[
        rule!(FirstWord, "user ", Extent::Itself, "", &[], Keyword, Turn::Stays),
        rule!(Apart, "", Extent::Word, "", &["=", "+="], Key, Turn::Stays),
        rule!(Apart, "", Extent::Digits, "", &[], Number, Turn::Stays),
    ],
    &[
        rule!(FirstWord, "USER ", Extent::Itself, "", &[], Keyword, Turn::Stays),
        rule!(Apart, "", Extent::Word, "", &["=", "+="], Key, Turn::Stays),
        rule!(Apart, "", Extent::Digits, "", &[], Number, Turn::Stays),
    ],
    &[
        rule!(FirstWord, "workdir ", Extent::Itself, "", &[], Keyword, Turn::Stays),
        rule!(Apart, "", Extent::Word, "", &["=", "+="], Key, Turn::Stays),
        rule!(Apart, "", Extent::Digits, "", &[], Number, Turn::Stays),
    ],
    &[
        rule!(FirstWord, "WORKDIR ", Extent::Itself, "", &[], Keyword, Turn::Stays),
        rule!(Apart, "", Extent::Word, "", &["=", "+="], Key, Turn::Stays),
        rule!(Apart, "", Extent::Digits, "", &[], Number, Turn::Stays),
    ],
    &[
        rule!(FirstWord, "add ", Extent::Itself, "", &[], Keyword, Turn::Stays),
        rule!(FirstWord, "arg ", Extent::Itself, "", &[], Keyword, Turn::Stays),
        rule!(Apart, "", Extent::Word, "", &["=", "+="], Key, Turn::Stays),
        rule!(Apart, "", Extent::Digits, "", &[], Number, Turn::Stays),
    ],
    &[
        rule!(FirstWord, "ADD ", Extent::Itself, "", &[], Keyword, Turn::Stays),
        rule!(FirstWord, "ARG ", Extent::Itself, "", &[], Keyword, Turn::Stays),
        rule!(Apart, "", Extent::Word, "", &["=", "+="], Key, Turn::Stays),
        rule!(Apart, "", Extent::Digits, "", &[], Number, Turn::Stays),
    ],
    &[
        rule!(FirstWord, "onbuild ", Extent::Itself, "", &[], Keyword, Turn::Stays),
        rule!(Apart, "", Extent::Word, "", &["=", "+="], Key, Turn::Stays),
        rule!(Apart, "", Extent::Digits, "", &[], Number, Turn::Stays),
    ],
    &[
        rule!(FirstWord, "ONBUILD ", Extent::Itself, "", &[], Keyword, Turn::Stays),
        rule!(Apart, "", Extent::Word, "", &["=", "+="], Key, Turn::Stays),
        rule!(Apart, "", Extent::Digits, "", &[], Number, Turn::Stays),
    ],
    &[
        rule!(FirstWord, "healthcheck ", Extent::Itself, "", &[], Keyword, Turn::Stays),
        rule!(Apart, "", Extent::Word, "", &["=", "+="], Key, Turn::Stays),
        rule!(Apart, "", Extent::Digits, "", &[], Number, Turn::Stays),
    ],
    &[
        rule!(FirstWord, "HEALTHCHECK ", Extent::Itself, "", &[], Keyword, Turn::Stays),
        rule!(Apart, "", Extent::Word, "", &["=", "+="], Key, Turn::Stays),
        rule!(Apart, "", Extent::Digits, "", &[], Number, Turn::Stays),
    ],
    &[
        rule!(FirstWord, "stopsignal ", Extent::Itself, "", &[], Keyword, Turn::Stays),
        rule!(FirstWord, "shell ", Extent::Itself, "", &[], Keyword, Turn::Stays),
        rule!(Apart, "", Extent::Word, "", &["=", "+="], Key, Turn::Stays),
        rule!(Apart, "", Extent::Digits, "", &[], Number, Turn::Stays),
    ],
    &[
        rule!(FirstWord, "STOPSIGNAL ", Extent::Itself, "", &[], Keyword, Turn::Stays),
        rule!(FirstWord, "SHELL ", Extent::Itself, "", &[], Keyword, Turn::Stays),
        rule!(Apart, "", Extent::Word, "", &["=", "+="], Key, Turn::Stays),
        rule!(Apart, "", Extent::Digits, "", &[], Number, Turn::Stays),
    ],
    &[
        rule!(FirstWord, "#", Extent::Line, "", &[], Comment, Turn::Stays),
        rule!(Apart, "#", Extent::Line, "", &[], Comment, Turn::Stays),
        rule!(Apart, "", Extent::Word, "", &["=", "+="], Key, Turn::Stays),
        rule!(Apart, "", Extent::Digits, "", &[], Number, Turn::Stays),
    ],
    &[
        rule!(Anywhere, "<<<", Extent::Itself, "", &[], Plain, Turn::Stays),
        rule!(Anywhere, "<<", Extent::Labelled(false), "", &[], Text, Turn::Stays),
        rule!(Apart, "", Extent::Word, "", &["=", "+="], Key, Turn::Stays),
        rule!(Apart, "", Extent::Digits, "", &[], Number, Turn::Stays),
    ],
    &[
        rule!(Anywhere, "\"", Extent::Itself, "", &[], Text, Turn::Enters(1)),
        rule!(Apart, "", Extent::Word, "", &["=", "+="], Key, Turn::Stays),
        rule!(Apart, "", Extent::Digits, "", &[], Number, Turn::Stays),
    ],
    &[
        rule!(Anywhere, "'", Extent::ThroughLines(Escape::Never), "'", &[], Text, Turn::Stays),
        rule!(Apart, "", Extent::Word, "", &["=", "+="], Key, Turn::Stays),
        rule!(Apart, "", Extent::Digits, "", &[], Number, Turn::Stays),
    ],
    &[
        rule!(Anywhere, "\\", Extent::OneMore, "", &[], Text, Turn::Stays),
        rule!(Apart, "", Extent::Word, "", &["=", "+="], Key, Turn::Stays),
        rule!(Apart, "", Extent::Digits, "", &[], Number, Turn::Stays),
    ],
    &[
        rule!(Anywhere, "$'", Extent::ThroughLines(Escape::Backslash), "'", &[], Text, Turn::Stays),
        rule!(Apart, "", Extent::Word, "", &["=", "+="], Key, Turn::Stays),
        rule!(Apart, "", Extent::Digits, "", &[], Number, Turn::Stays),
        rule!(Anywhere, "${", Extent::Itself, "", &[], Key, Turn::Enters(3)),
        rule!(Anywhere, "$(", Extent::Itself, "", &[], Plain, Turn::Enters(2)),
        rule!(Anywhere, "$", Extent::Word, "", &[], Key, Turn::Stays),
        rule!(Anywhere, "$#", Extent::Itself, "", &[], Key, Turn::Stays),
        rule!(Anywhere, "$@", Extent::Itself, "", &[], Key, Turn::Stays),
        rule!(Anywhere, "$*", Extent::Itself, "", &[], Key, Turn::Stays),
        rule!(Anywhere, "$?", Extent::Itself, "", &[], Key, Turn::Stays),
        rule!(Anywhere, "$!", Extent::Itself, "", &[], Key, Turn::Stays),
        rule!(Anywhere, "$$", Extent::Itself, "", &[], Key, Turn::Stays),
        rule!(Anywhere, "$-", Extent::Itself, "", &[], Key, Turn::Stays),
    ],
    &[
        rule!(Apart, "", Extent::Word, "", &["=", "+="], Key, Turn::Stays),
        rule!(Apart, "", Extent::Digits, "", &[], Number, Turn::Stays),
        rule!(Anywhere, "(", Extent::Itself, "", &[], Plain, Turn::Enters(2)),
    ],
    &[
        rule!(Apart, "", Extent::Word, "", &["=", "+="], Key, Turn::Stays),
        rule!(Apart, "", Extent::Digits, "", &[], Number, Turn::Stays),
        rule!(Anywhere, "`", Extent::Itself, "", &[], Text, Turn::Stays),
    ],
];

#[tactic(auto, unfolding(crate::specs::Heads::by_head))]
fn dockerfile_1() -> ModeRow
    ensures words { mode_of result ≡ dockerfile_1 }
    ensures rules { heads_in result ≡ by_head dockerfile_rules_1 }
{
    ModeRow {
        places: "0000000000000000000000000000000000203000000000000000000000000000000000000000000000000000000010000000000000000000000000000000000000000000000000000000000000000000000000000000000000000000000000000000000000000000000000000000000000000000000000000000000000000000",
        rules: &DOCKERFILE_1_RULES,
        words: Words::NoWords,
        starts: "",
        more: "",
        otherwise: Class::Text,
        members: true,
        capitals: false,
        numbers: false,
        folds: true,
    }
}

#[rattlefmt::skip]
static DOCKERFILE_1_RULES: [&[RuleRow]; 4] = [
    &[],
    &[
        rule!(Anywhere, "\\", Extent::OneMore, "", &[], Text, Turn::Stays),
    ],
    &[
        rule!(Anywhere, "\"", Extent::Itself, "", &[], Text, Turn::Leaves),
    ],
    &[
        rule!(Anywhere, "${", Extent::Itself, "", &[], Key, Turn::Enters(3)),
        rule!(Anywhere, "$(", Extent::Itself, "", &[], Plain, Turn::Enters(2)),
        rule!(Anywhere, "$", Extent::Word, "", &[], Key, Turn::Stays),
        rule!(Anywhere, "$#", Extent::Itself, "", &[], Key, Turn::Stays),
        rule!(Anywhere, "$@", Extent::Itself, "", &[], Key, Turn::Stays),
        rule!(Anywhere, "$*", Extent::Itself, "", &[], Key, Turn::Stays),
        rule!(Anywhere, "$?", Extent::Itself, "", &[], Key, Turn::Stays),
        rule!(Anywhere, "$!", Extent::Itself, "", &[], Key, Turn::Stays),
        rule!(Anywhere, "$$", Extent::Itself, "", &[], Key, Turn::Stays),
        rule!(Anywhere, "$-", Extent::Itself, "", &[], Key, Turn::Stays),
    ],
];

#[tactic(auto, unfolding(crate::specs::Heads::by_head))]
fn dockerfile_2() -> ModeRow
    ensures words { mode_of result ≡ dockerfile_2 }
    ensures rules { heads_in result ≡ by_head dockerfile_rules_2 }
{
    ModeRow {
        places: "0000000000000000000000000000000000427005810000000000000000003000000000000000000000000000000060009000000000000000000000000000000000000000000000000000000000000000000000000000000000000000000000000000000000000000000000000000000000000000000000000000000000000000",
        rules: &DOCKERFILE_2_RULES,
        words: Words::ShWords,
        starts: "",
        more: "",
        otherwise: Class::Plain,
        members: false,
        capitals: false,
        numbers: false,
        folds: true,
    }
}

#[rattlefmt::skip]
static DOCKERFILE_2_RULES: [&[RuleRow]; 10] = [
    &[
        rule!(Apart, "", Extent::Word, "", &["=", "+="], Key, Turn::Stays),
        rule!(Apart, "", Extent::Digits, "", &[], Number, Turn::Stays),
    ],
    &[
        rule!(Anywhere, ")", Extent::Itself, "", &[], Plain, Turn::Leaves),
        rule!(Apart, "", Extent::Word, "", &["=", "+="], Key, Turn::Stays),
        rule!(Apart, "", Extent::Digits, "", &[], Number, Turn::Stays),
    ],
    &[
        rule!(Apart, "#", Extent::Line, "", &[], Comment, Turn::Stays),
        rule!(Apart, "", Extent::Word, "", &["=", "+="], Key, Turn::Stays),
        rule!(Apart, "", Extent::Digits, "", &[], Number, Turn::Stays),
    ],
    &[
        rule!(Anywhere, "<<<", Extent::Itself, "", &[], Plain, Turn::Stays),
        rule!(Anywhere, "<<", Extent::Labelled(false), "", &[], Text, Turn::Stays),
        rule!(Apart, "", Extent::Word, "", &["=", "+="], Key, Turn::Stays),
        rule!(Apart, "", Extent::Digits, "", &[], Number, Turn::Stays),
    ],
    &[
        rule!(Anywhere, "\"", Extent::Itself, "", &[], Text, Turn::Enters(1)),
        rule!(Apart, "", Extent::Word, "", &["=", "+="], Key, Turn::Stays),
        rule!(Apart, "", Extent::Digits, "", &[], Number, Turn::Stays),
    ],
    &[
        rule!(Anywhere, "'", Extent::ThroughLines(Escape::Never), "'", &[], Text, Turn::Stays),
        rule!(Apart, "", Extent::Word, "", &["=", "+="], Key, Turn::Stays),
        rule!(Apart, "", Extent::Digits, "", &[], Number, Turn::Stays),
    ],
    &[
        rule!(Anywhere, "\\", Extent::OneMore, "", &[], Text, Turn::Stays),
        rule!(Apart, "", Extent::Word, "", &["=", "+="], Key, Turn::Stays),
        rule!(Apart, "", Extent::Digits, "", &[], Number, Turn::Stays),
    ],
    &[
        rule!(Anywhere, "$'", Extent::ThroughLines(Escape::Backslash), "'", &[], Text, Turn::Stays),
        rule!(Apart, "", Extent::Word, "", &["=", "+="], Key, Turn::Stays),
        rule!(Apart, "", Extent::Digits, "", &[], Number, Turn::Stays),
        rule!(Anywhere, "${", Extent::Itself, "", &[], Key, Turn::Enters(3)),
        rule!(Anywhere, "$(", Extent::Itself, "", &[], Plain, Turn::Enters(2)),
        rule!(Anywhere, "$", Extent::Word, "", &[], Key, Turn::Stays),
        rule!(Anywhere, "$#", Extent::Itself, "", &[], Key, Turn::Stays),
        rule!(Anywhere, "$@", Extent::Itself, "", &[], Key, Turn::Stays),
        rule!(Anywhere, "$*", Extent::Itself, "", &[], Key, Turn::Stays),
        rule!(Anywhere, "$?", Extent::Itself, "", &[], Key, Turn::Stays),
        rule!(Anywhere, "$!", Extent::Itself, "", &[], Key, Turn::Stays),
        rule!(Anywhere, "$$", Extent::Itself, "", &[], Key, Turn::Stays),
        rule!(Anywhere, "$-", Extent::Itself, "", &[], Key, Turn::Stays),
    ],
    &[
        rule!(Apart, "", Extent::Word, "", &["=", "+="], Key, Turn::Stays),
        rule!(Apart, "", Extent::Digits, "", &[], Number, Turn::Stays),
        rule!(Anywhere, "(", Extent::Itself, "", &[], Plain, Turn::Enters(2)),
    ],
    &[
        rule!(Apart, "", Extent::Word, "", &["=", "+="], Key, Turn::Stays),
        rule!(Apart, "", Extent::Digits, "", &[], Number, Turn::Stays),
        rule!(Anywhere, "`", Extent::Itself, "", &[], Text, Turn::Stays),
    ],
];

#[tactic(auto, unfolding(crate::specs::Heads::by_head))]
fn dockerfile_3() -> ModeRow
    ensures words { mode_of result ≡ dockerfile_3 }
    ensures rules { heads_in result ≡ by_head dockerfile_rules_3 }
{
    ModeRow {
        places: "0000000000000000000000000000000000204000000000000000000000000000000000000000000000000000000030000000000000000000000000000000010000000000000000000000000000000000000000000000000000000000000000000000000000000000000000000000000000000000000000000000000000000000",
        rules: &DOCKERFILE_3_RULES,
        words: Words::NoWords,
        starts: "",
        more: "",
        otherwise: Class::Key,
        members: true,
        capitals: false,
        numbers: false,
        folds: true,
    }
}

#[rattlefmt::skip]
static DOCKERFILE_3_RULES: [&[RuleRow]; 5] = [
    &[],
    &[
        rule!(Anywhere, "}", Extent::Itself, "", &[], Key, Turn::Leaves),
    ],
    &[
        rule!(Anywhere, "\"", Extent::Itself, "", &[], Text, Turn::Enters(1)),
    ],
    &[
        rule!(Anywhere, "\\", Extent::OneMore, "", &[], Text, Turn::Stays),
    ],
    &[
        rule!(Anywhere, "${", Extent::Itself, "", &[], Key, Turn::Enters(3)),
        rule!(Anywhere, "$(", Extent::Itself, "", &[], Plain, Turn::Enters(2)),
        rule!(Anywhere, "$", Extent::Word, "", &[], Key, Turn::Stays),
        rule!(Anywhere, "$#", Extent::Itself, "", &[], Key, Turn::Stays),
        rule!(Anywhere, "$@", Extent::Itself, "", &[], Key, Turn::Stays),
        rule!(Anywhere, "$*", Extent::Itself, "", &[], Key, Turn::Stays),
        rule!(Anywhere, "$?", Extent::Itself, "", &[], Key, Turn::Stays),
        rule!(Anywhere, "$!", Extent::Itself, "", &[], Key, Turn::Stays),
        rule!(Anywhere, "$$", Extent::Itself, "", &[], Key, Turn::Stays),
        rule!(Anywhere, "$-", Extent::Itself, "", &[], Key, Turn::Stays),
    ],
];

fn cmake_mode(_n: usize) -> ModeRow
    ensures words { mode_of result ≡ cmake_mode _n }
    ensures rules { heads_in result ≡ by_head (cmake_rules _n) }
{
    cmake_0()
}

#[tactic(auto, unfolding(crate::specs::Heads::by_head))]
fn cmake_0() -> ModeRow
    ensures words { mode_of result ≡ cmake_0 }
    ensures rules { heads_in result ≡ by_head cmake_rules_0 }
{
    ModeRow {
        places: "0000000000000000000000000000000000213000000000000000000000000000000000000000000000000000000000000000000000000000000000000000000000000000000000000000000000000000000000000000000000000000000000000000000000000000000000000000000000000000000000000000000000000000",
        rules: &CMAKE_0_RULES,
        words: Words::CmakeWords,
        starts: "",
        more: "",
        otherwise: Class::Plain,
        members: false,
        capitals: false,
        numbers: false,
        folds: false,
    }
}

#[rattlefmt::skip]
static CMAKE_0_RULES: [&[RuleRow]; 4] = [
    &[
        rule!(FirstWord, "", Extent::Word, "", &["("], Name, Turn::Stays),
    ],
    &[
        rule!(Anywhere, "#[[", Extent::ThroughLines(Escape::Never), "]]", &[], Comment, Turn::Stays),
        rule!(Anywhere, "#", Extent::Line, "", &[], Comment, Turn::Stays),
        rule!(FirstWord, "", Extent::Word, "", &["("], Name, Turn::Stays),
    ],
    &[
        rule!(Anywhere, "\"", Extent::ThroughLines(Escape::Backslash), "\"", &[], Text, Turn::Stays),
        rule!(FirstWord, "", Extent::Word, "", &["("], Name, Turn::Stays),
    ],
    &[
        rule!(Anywhere, "${", Extent::Through(Escape::Never), "}", &[], Key, Turn::Stays),
        rule!(FirstWord, "", Extent::Word, "", &["("], Name, Turn::Stays),
    ],
];

fn lisp_mode(_n: usize) -> ModeRow
    ensures words { mode_of result ≡ lisp_mode _n }
    ensures rules { heads_in result ≡ by_head (lisp_rules _n) }
{
    lisp_0()
}

#[tactic(auto, unfolding(crate::specs::Heads::by_head))]
fn lisp_0() -> ModeRow
    ensures words { mode_of result ≡ lisp_0 }
    ensures rules { heads_in result ≡ by_head lisp_rules_0 }
{
    ModeRow {
        places: "0000000000000000000000000000000000270056000000000000000000410003000000000000000000000000000000000000000000000000000000000000000000000000000000000000000000000000000000000000000000000000000000000000000000000000000000000000000000000000000000000000000000000000",
        rules: &LISP_0_RULES,
        words: Words::LispWords,
        starts: "*+-/<>=&%",
        more: "!$%&*+-./:<=>?",
        otherwise: Class::Plain,
        members: false,
        capitals: false,
        numbers: true,
        folds: false,
    }
}

#[rattlefmt::skip]
static LISP_0_RULES: [&[RuleRow]; 8] = [
    &[],
    &[
        rule!(Anywhere, ";", Extent::Line, "", &[], Comment, Turn::Stays),
    ],
    &[
        rule!(Anywhere, "\"", Extent::ThroughLines(Escape::Backslash), "\"", &[], Text, Turn::Stays),
    ],
    &[
        rule!(Anywhere, "?\\", Extent::OneMore, "", &[], Text, Turn::Stays),
    ],
    &[
        rule!(Apart, ":", Extent::Word, "", &[], Name, Turn::Stays),
    ],
    &[
        rule!(Apart, "&", Extent::Word, "", &[], Name, Turn::Stays),
    ],
    &[
        rule!(Anywhere, "'", Extent::Word, "", &[], Text, Turn::Stays),
    ],
    &[
        rule!(Anywhere, "#|", Extent::Nested, "|#", &[], Comment, Turn::Stays),
        rule!(Anywhere, "#'", Extent::Itself, "", &[], Plain, Turn::Stays),
    ],
];

fn haskell_mode(_n: usize) -> ModeRow
    ensures words { mode_of result ≡ haskell_mode _n }
    ensures rules { heads_in result ≡ by_head (haskell_rules _n) }
{
    haskell_0()
}

#[tactic(auto, unfolding(crate::specs::Heads::by_head))]
fn haskell_0() -> ModeRow
    ensures words { mode_of result ≡ haskell_0 }
    ensures rules { heads_in result ≡ by_head haskell_rules_0 }
{
    ModeRow {
        places: "0000000000000000000000000000000000300004000001000000000000000000000000000000000000000000000000000000000000000000000000000002000000000000000000000000000000000000000000000000000000000000000000000000000000000000000000000000000000000000000000000000000000000000",
        rules: &HASKELL_0_RULES,
        words: Words::HaskellWords,
        starts: "",
        more: "'",
        otherwise: Class::Plain,
        members: false,
        capitals: true,
        numbers: true,
        folds: false,
    }
}

#[rattlefmt::skip]
static HASKELL_0_RULES: [&[RuleRow]; 5] = [
    &[],
    &[
        rule!(Anywhere, "--", Extent::Line, "", &[], Comment, Turn::Stays),
    ],
    &[
        rule!(Anywhere, "{-", Extent::Nested, "-}", &[], Comment, Turn::Stays),
    ],
    &[
        rule!(Anywhere, "\"", Extent::Through(Escape::Backslash), "\"", &[], Text, Turn::Stays),
    ],
    &[
        rule!(Anywhere, "'", Extent::QuotedChar, "", &[], Text, Turn::Stays),
        rule!(Anywhere, "'", Extent::Word, "", &[], Name, Turn::Stays),
    ],
];

fn sh_words(len: usize) -> &'static [(&'static str, Class)]
    ensures { map word_of result.now ≡ sh_words len }
{
    match len {
        2 => &SH_WORDS_2,
        3 => &SH_WORDS_3,
        4 => &SH_WORDS_4,
        5 => &SH_WORDS_5,
        6 => &SH_WORDS_6,
        7 => &SH_WORDS_7,
        8 => &SH_WORDS_8,
        _ => &[],
    }
}

#[rattlefmt::skip]
static SH_WORDS_2: [(&str, Class); 8] = [("bg", Class::Name), ("cd", Class::Name), ("do", Class::Keyword), ("fc", Class::Name), ("fg", Class::Name), ("fi", Class::Keyword), ("if", Class::Keyword), ("in", Class::Keyword)];

#[rattlefmt::skip]
static SH_WORDS_3: [(&str, Class); 4] = [("for", Class::Keyword), ("let", Class::Name), ("pwd", Class::Name), ("set", Class::Name)];

#[rattlefmt::skip]
static SH_WORDS_4: [(&str, Class); 24] = [("bind", Class::Name), ("case", Class::Keyword), ("dirs", Class::Name), ("done", Class::Keyword), ("echo", Class::Name), ("elif", Class::Keyword), ("else", Class::Keyword), ("esac", Class::Keyword), ("eval", Class::Name), ("exec", Class::Name), ("exit", Class::Name), ("hash", Class::Name), ("help", Class::Name), ("jobs", Class::Name), ("kill", Class::Name), ("popd", Class::Name), ("read", Class::Name), ("test", Class::Name), ("then", Class::Keyword), ("time", Class::Name), ("trap", Class::Name), ("true", Class::Name), ("type", Class::Name), ("wait", Class::Name)];

#[rattlefmt::skip]
static SH_WORDS_5: [(&str, Class); 12] = [("alias", Class::Name), ("break", Class::Keyword), ("false", Class::Name), ("local", Class::Name), ("pushd", Class::Name), ("shift", Class::Name), ("shopt", Class::Name), ("times", Class::Name), ("umask", Class::Name), ("unset", Class::Name), ("until", Class::Keyword), ("while", Class::Keyword)];

#[rattlefmt::skip]
static SH_WORDS_6: [(&str, Class); 10] = [("caller", Class::Name), ("disown", Class::Name), ("enable", Class::Name), ("export", Class::Name), ("logout", Class::Name), ("printf", Class::Name), ("return", Class::Keyword), ("select", Class::Keyword), ("source", Class::Name), ("ulimit", Class::Name)];

#[rattlefmt::skip]
static SH_WORDS_7: [(&str, Class); 9] = [("builtin", Class::Name), ("command", Class::Name), ("compgen", Class::Name), ("declare", Class::Name), ("getopts", Class::Name), ("history", Class::Name), ("suspend", Class::Name), ("typeset", Class::Name), ("unalias", Class::Name)];

#[rattlefmt::skip]
static SH_WORDS_8: [(&str, Class); 4] = [("complete", Class::Name), ("continue", Class::Keyword), ("function", Class::Keyword), ("readonly", Class::Name)];

fn python_words(len: usize) -> &'static [(&'static str, Class)]
    ensures { map word_of result.now ≡ python_words len }
{
    match len {
        2 => &PYTHON_WORDS_2,
        3 => &PYTHON_WORDS_3,
        4 => &PYTHON_WORDS_4,
        5 => &PYTHON_WORDS_5,
        6 => &PYTHON_WORDS_6,
        7 => &PYTHON_WORDS_7,
        8 => &PYTHON_WORDS_8,
        9 => &PYTHON_WORDS_9,
        10 => &PYTHON_WORDS_10,
        11 => &PYTHON_WORDS_11,
        12 => &PYTHON_WORDS_12,
        13 => &PYTHON_WORDS_13,
        14 => &PYTHON_WORDS_14,
        15 => &PYTHON_WORDS_15,
        16 => &PYTHON_WORDS_16,
        17 => &PYTHON_WORDS_17,
        18 => &PYTHON_WORDS_18,
        19 => &PYTHON_WORDS_19,
        21 => &PYTHON_WORDS_21,
        25 => &PYTHON_WORDS_25,
        _ => &[],
    }
}

#[rattlefmt::skip]
static PYTHON_WORDS_2: [(&str, Class); 6] = [("as", Class::Keyword), ("id", Class::Name), ("if", Class::Keyword), ("in", Class::Keyword), ("is", Class::Keyword), ("or", Class::Keyword)];

#[rattlefmt::skip]
static PYTHON_WORDS_3: [(&str, Class); 26] = [("abs", Class::Name), ("all", Class::Name), ("and", Class::Keyword), ("any", Class::Name), ("bin", Class::Name), ("chr", Class::Name), ("cls", Class::Name), ("def", Class::Keyword), ("del", Class::Keyword), ("dir", Class::Name), ("for", Class::Keyword), ("hex", Class::Name), ("int", Class::Name), ("len", Class::Name), ("map", Class::Name), ("max", Class::Name), ("min", Class::Name), ("not", Class::Keyword), ("oct", Class::Name), ("ord", Class::Name), ("pow", Class::Name), ("set", Class::Name), ("str", Class::Name), ("sum", Class::Name), ("try", Class::Keyword), ("zip", Class::Name)];

#[rattlefmt::skip]
static PYTHON_WORDS_4: [(&str, Class); 20] = [("None", Class::Name), ("True", Class::Name), ("bool", Class::Name), ("case", Class::Keyword), ("dict", Class::Name), ("elif", Class::Keyword), ("else", Class::Keyword), ("eval", Class::Name), ("from", Class::Keyword), ("hash", Class::Name), ("iter", Class::Name), ("list", Class::Name), ("next", Class::Name), ("open", Class::Name), ("pass", Class::Keyword), ("repr", Class::Name), ("self", Class::Name), ("type", Class::Name), ("vars", Class::Name), ("with", Class::Keyword)];

#[rattlefmt::skip]
static PYTHON_WORDS_5: [(&str, Class); 19] = [("False", Class::Name), ("aiter", Class::Name), ("async", Class::Keyword), ("await", Class::Keyword), ("break", Class::Keyword), ("bytes", Class::Name), ("class", Class::Keyword), ("float", Class::Name), ("input", Class::Name), ("match", Class::Keyword), ("print", Class::Name), ("raise", Class::Keyword), ("range", Class::Name), ("round", Class::Name), ("slice", Class::Name), ("super", Class::Name), ("tuple", Class::Name), ("while", Class::Keyword), ("yield", Class::Keyword)];

#[rattlefmt::skip]
static PYTHON_WORDS_6: [(&str, Class); 13] = [("__eq__", Class::Name), ("assert", Class::Keyword), ("divmod", Class::Name), ("except", Class::Keyword), ("filter", Class::Name), ("format", Class::Name), ("global", Class::Keyword), ("import", Class::Keyword), ("lambda", Class::Keyword), ("locals", Class::Name), ("object", Class::Name), ("return", Class::Keyword), ("sorted", Class::Name)];

#[rattlefmt::skip]
static PYTHON_WORDS_7: [(&str, Class); 16] = [("IOError", Class::Name), ("OSError", Class::Name), ("Warning", Class::Name), ("__all__", Class::Name), ("__doc__", Class::Name), ("__len__", Class::Name), ("__new__", Class::Name), ("__str__", Class::Name), ("compile", Class::Name), ("complex", Class::Name), ("delattr", Class::Name), ("finally", Class::Keyword), ("getattr", Class::Name), ("globals", Class::Name), ("hasattr", Class::Name), ("setattr", Class::Name)];

#[rattlefmt::skip]
static PYTHON_WORDS_8: [(&str, Class); 19] = [("EOFError", Class::Name), ("Ellipsis", Class::Name), ("KeyError", Class::Name), ("TabError", Class::Name), ("__call__", Class::Name), ("__dict__", Class::Name), ("__exit__", Class::Name), ("__file__", Class::Name), ("__hash__", Class::Name), ("__init__", Class::Name), ("__iter__", Class::Name), ("__name__", Class::Name), ("__next__", Class::Name), ("__repr__", Class::Name), ("callable", Class::Name), ("continue", Class::Keyword), ("nonlocal", Class::Keyword), ("property", Class::Name), ("reversed", Class::Name)];

#[rattlefmt::skip]
static PYTHON_WORDS_9: [(&str, Class); 8] = [("Exception", Class::Name), ("NameError", Class::Name), ("TypeError", Class::Name), ("__class__", Class::Name), ("__enter__", Class::Name), ("bytearray", Class::Name), ("enumerate", Class::Name), ("frozenset", Class::Name)];

#[rattlefmt::skip]
static PYTHON_WORDS_10: [(&str, Class); 8] = [("IndexError", Class::Name), ("SystemExit", Class::Name), ("ValueError", Class::Name), ("__import__", Class::Name), ("breakpoint", Class::Name), ("isinstance", Class::Name), ("issubclass", Class::Name), ("memoryview", Class::Name)];

#[rattlefmt::skip]
static PYTHON_WORDS_11: [(&str, Class); 11] = [("BufferError", Class::Name), ("ImportError", Class::Name), ("LookupError", Class::Name), ("MemoryError", Class::Name), ("SyntaxError", Class::Name), ("SystemError", Class::Name), ("UserWarning", Class::Name), ("__getitem__", Class::Name), ("__setitem__", Class::Name), ("__version__", Class::Name), ("classmethod", Class::Name)];

#[rattlefmt::skip]
static PYTHON_WORDS_12: [(&str, Class); 5] = [("BytesWarning", Class::Name), ("RuntimeError", Class::Name), ("TimeoutError", Class::Name), ("UnicodeError", Class::Name), ("staticmethod", Class::Name)];

#[rattlefmt::skip]
static PYTHON_WORDS_13: [(&str, Class); 7] = [("BaseException", Class::Name), ("FutureWarning", Class::Name), ("GeneratorExit", Class::Name), ("ImportWarning", Class::Name), ("OverflowError", Class::Name), ("StopIteration", Class::Name), ("SyntaxWarning", Class::Name)];

#[rattlefmt::skip]
static PYTHON_WORDS_14: [(&str, Class); 7] = [("AssertionError", Class::Name), ("AttributeError", Class::Name), ("NotImplemented", Class::Name), ("RecursionError", Class::Name), ("ReferenceError", Class::Name), ("RuntimeWarning", Class::Name), ("UnicodeWarning", Class::Name)];

#[rattlefmt::skip]
static PYTHON_WORDS_15: [(&str, Class); 6] = [("ArithmeticError", Class::Name), ("BrokenPipeError", Class::Name), ("ConnectionError", Class::Name), ("FileExistsError", Class::Name), ("PermissionError", Class::Name), ("ResourceWarning", Class::Name)];

#[rattlefmt::skip]
static PYTHON_WORDS_16: [(&str, Class); 3] = [("EnvironmentError", Class::Name), ("IndentationError", Class::Name), ("InterruptedError", Class::Name)];

#[rattlefmt::skip]
static PYTHON_WORDS_17: [(&str, Class); 4] = [("FileNotFoundError", Class::Name), ("KeyboardInterrupt", Class::Name), ("UnboundLocalError", Class::Name), ("ZeroDivisionError", Class::Name)];

#[rattlefmt::skip]
static PYTHON_WORDS_18: [(&str, Class); 6] = [("DeprecationWarning", Class::Name), ("FloatingPointError", Class::Name), ("ProcessLookupError", Class::Name), ("StopAsyncIteration", Class::Name), ("UnicodeDecodeError", Class::Name), ("UnicodeEncodeError", Class::Name)];

#[rattlefmt::skip]
static PYTHON_WORDS_19: [(&str, Class); 2] = [("ModuleNotFoundError", Class::Name), ("NotImplementedError", Class::Name)];

#[rattlefmt::skip]
static PYTHON_WORDS_21: [(&str, Class); 1] = [("UnicodeTranslateError", Class::Name)];

#[rattlefmt::skip]
static PYTHON_WORDS_25: [(&str, Class); 1] = [("PendingDeprecationWarning", Class::Name)];

fn rust_words(len: usize) -> &'static [(&'static str, Class)]
    ensures { map word_of result.now ≡ rust_words len }
{
    match len {
        2 => &RUST_WORDS_2,
        3 => &RUST_WORDS_3,
        4 => &RUST_WORDS_4,
        5 => &RUST_WORDS_5,
        6 => &RUST_WORDS_6,
        7 => &RUST_WORDS_7,
        8 => &RUST_WORDS_8,
        9 => &RUST_WORDS_9,
        10 => &RUST_WORDS_10,
        12 => &RUST_WORDS_12,
        17 => &RUST_WORDS_17,
        19 => &RUST_WORDS_19,
        _ => &[],
    }
}

#[rattlefmt::skip]
static RUST_WORDS_2: [(&str, Class); 9] = [("Eq", Class::Name), ("Fn", Class::Name), ("Ok", Class::Name), ("as", Class::Keyword), ("fn", Class::Keyword), ("i8", Class::Name), ("if", Class::Keyword), ("in", Class::Keyword), ("u8", Class::Name)];

#[rattlefmt::skip]
static RUST_WORDS_3: [(&str, Class); 23] = [("Box", Class::Name), ("Err", Class::Name), ("Ord", Class::Name), ("Vec", Class::Name), ("box", Class::Keyword), ("dyn", Class::Keyword), ("f32", Class::Name), ("f64", Class::Name), ("for", Class::Keyword), ("i16", Class::Name), ("i32", Class::Name), ("i64", Class::Name), ("let", Class::Keyword), ("mod", Class::Keyword), ("mut", Class::Keyword), ("pub", Class::Keyword), ("ref", Class::Keyword), ("str", Class::Name), ("try", Class::Keyword), ("u16", Class::Name), ("u32", Class::Name), ("u64", Class::Name), ("use", Class::Keyword)];

#[rattlefmt::skip]
static RUST_WORDS_4: [(&str, Class); 22] = [("Copy", Class::Name), ("Drop", Class::Name), ("From", Class::Name), ("Into", Class::Name), ("None", Class::Name), ("Self", Class::Name), ("Send", Class::Name), ("Some", Class::Name), ("Sync", Class::Name), ("bool", Class::Name), ("char", Class::Name), ("drop", Class::Name), ("else", Class::Keyword), ("enum", Class::Keyword), ("i128", Class::Name), ("impl", Class::Keyword), ("loop", Class::Keyword), ("move", Class::Keyword), ("self", Class::Name), ("true", Class::Name), ("type", Class::Keyword), ("u128", Class::Name)];

#[rattlefmt::skip]
static RUST_WORDS_5: [(&str, Class); 20] = [("AsMut", Class::Name), ("AsRef", Class::Name), ("Clone", Class::Name), ("FnMut", Class::Name), ("Sized", Class::Name), ("Unpin", Class::Name), ("async", Class::Keyword), ("await", Class::Keyword), ("break", Class::Keyword), ("const", Class::Keyword), ("crate", Class::Keyword), ("false", Class::Name), ("isize", Class::Name), ("match", Class::Keyword), ("super", Class::Keyword), ("trait", Class::Keyword), ("union", Class::Keyword), ("usize", Class::Name), ("where", Class::Keyword), ("while", Class::Keyword)];

#[rattlefmt::skip]
static RUST_WORDS_6: [(&str, Class); 10] = [("Extend", Class::Name), ("FnOnce", Class::Name), ("Option", Class::Name), ("Result", Class::Name), ("String", Class::Name), ("extern", Class::Keyword), ("return", Class::Keyword), ("static", Class::Keyword), ("struct", Class::Keyword), ("unsafe", Class::Keyword)];

#[rattlefmt::skip]
static RUST_WORDS_7: [(&str, Class); 4] = [("Default", Class::Name), ("ToOwned", Class::Name), ("TryFrom", Class::Name), ("TryInto", Class::Name)];

#[rattlefmt::skip]
static RUST_WORDS_8: [(&str, Class); 3] = [("Iterator", Class::Name), ("ToString", Class::Name), ("continue", Class::Keyword)];

#[rattlefmt::skip]
static RUST_WORDS_9: [(&str, Class); 1] = [("PartialEq", Class::Name)];

#[rattlefmt::skip]
static RUST_WORDS_10: [(&str, Class); 1] = [("PartialOrd", Class::Name)];

#[rattlefmt::skip]
static RUST_WORDS_12: [(&str, Class); 2] = [("FromIterator", Class::Name), ("IntoIterator", Class::Name)];

#[rattlefmt::skip]
static RUST_WORDS_17: [(&str, Class); 1] = [("ExactSizeIterator", Class::Name)];

#[rattlefmt::skip]
static RUST_WORDS_19: [(&str, Class); 1] = [("DoubleEndedIterator", Class::Name)];

fn javascript_words(len: usize) -> &'static [(&'static str, Class)]
    ensures { map word_of result.now ≡ javascript_words len }
{
    match len {
        2 => &JAVASCRIPT_WORDS_2,
        3 => &JAVASCRIPT_WORDS_3,
        4 => &JAVASCRIPT_WORDS_4,
        5 => &JAVASCRIPT_WORDS_5,
        6 => &JAVASCRIPT_WORDS_6,
        7 => &JAVASCRIPT_WORDS_7,
        8 => &JAVASCRIPT_WORDS_8,
        9 => &JAVASCRIPT_WORDS_9,
        10 => &JAVASCRIPT_WORDS_10,
        11 => &JAVASCRIPT_WORDS_11,
        12 => &JAVASCRIPT_WORDS_12,
        13 => &JAVASCRIPT_WORDS_13,
        14 => &JAVASCRIPT_WORDS_14,
        17 => &JAVASCRIPT_WORDS_17,
        18 => &JAVASCRIPT_WORDS_18,
        _ => &[],
    }
}

#[rattlefmt::skip]
static JAVASCRIPT_WORDS_2: [(&str, Class); 5] = [("as", Class::Keyword), ("do", Class::Keyword), ("if", Class::Keyword), ("in", Class::Keyword), ("of", Class::Keyword)];

#[rattlefmt::skip]
static JAVASCRIPT_WORDS_3: [(&str, Class); 8] = [("Map", Class::Name), ("NaN", Class::Name), ("Set", Class::Name), ("for", Class::Keyword), ("let", Class::Keyword), ("new", Class::Keyword), ("try", Class::Keyword), ("var", Class::Keyword)];

#[rattlefmt::skip]
static JAVASCRIPT_WORDS_4: [(&str, Class); 13] = [("Date", Class::Name), ("Intl", Class::Name), ("JSON", Class::Name), ("Math", Class::Name), ("case", Class::Keyword), ("else", Class::Keyword), ("eval", Class::Name), ("from", Class::Keyword), ("null", Class::Name), ("this", Class::Keyword), ("true", Class::Name), ("void", Class::Keyword), ("with", Class::Keyword)];

#[rattlefmt::skip]
static JAVASCRIPT_WORDS_5: [(&str, Class); 15] = [("Array", Class::Name), ("Error", Class::Name), ("Proxy", Class::Name), ("async", Class::Keyword), ("await", Class::Keyword), ("break", Class::Keyword), ("catch", Class::Keyword), ("class", Class::Keyword), ("const", Class::Keyword), ("false", Class::Name), ("isNaN", Class::Name), ("super", Class::Keyword), ("throw", Class::Keyword), ("while", Class::Keyword), ("yield", Class::Keyword)];

#[rattlefmt::skip]
static JAVASCRIPT_WORDS_6: [(&str, Class); 14] = [("BigInt", Class::Name), ("Number", Class::Name), ("Object", Class::Name), ("RegExp", Class::Name), ("String", Class::Name), ("Symbol", Class::Name), ("delete", Class::Keyword), ("export", Class::Keyword), ("import", Class::Keyword), ("return", Class::Keyword), ("static", Class::Keyword), ("switch", Class::Keyword), ("typeof", Class::Keyword), ("window", Class::Name)];

#[rattlefmt::skip]
static JAVASCRIPT_WORDS_7: [(&str, Class); 8] = [("Boolean", Class::Name), ("Promise", Class::Name), ("Reflect", Class::Name), ("WeakMap", Class::Name), ("WeakSet", Class::Name), ("default", Class::Keyword), ("extends", Class::Keyword), ("finally", Class::Keyword)];

#[rattlefmt::skip]
static JAVASCRIPT_WORDS_8: [(&str, Class); 10] = [("DataView", Class::Name), ("Function", Class::Name), ("Infinity", Class::Name), ("URIError", Class::Name), ("continue", Class::Keyword), ("debugger", Class::Keyword), ("document", Class::Name), ("function", Class::Keyword), ("isFinite", Class::Name), ("parseInt", Class::Name)];

#[rattlefmt::skip]
static JAVASCRIPT_WORDS_9: [(&str, Class); 6] = [("EvalError", Class::Name), ("Int8Array", Class::Name), ("TypeError", Class::Name), ("decodeURI", Class::Name), ("encodeURI", Class::Name), ("undefined", Class::Name)];

#[rattlefmt::skip]
static JAVASCRIPT_WORDS_10: [(&str, Class); 7] = [("Int16Array", Class::Name), ("Int32Array", Class::Name), ("RangeError", Class::Name), ("Uint8Array", Class::Name), ("globalThis", Class::Name), ("instanceof", Class::Keyword), ("parseFloat", Class::Name)];

#[rattlefmt::skip]
static JAVASCRIPT_WORDS_11: [(&str, Class); 5] = [("ArrayBuffer", Class::Name), ("SyntaxError", Class::Name), ("Uint16Array", Class::Name), ("Uint32Array", Class::Name), ("constructor", Class::Keyword)];

#[rattlefmt::skip]
static JAVASCRIPT_WORDS_12: [(&str, Class); 2] = [("Float32Array", Class::Name), ("Float64Array", Class::Name)];

#[rattlefmt::skip]
static JAVASCRIPT_WORDS_13: [(&str, Class); 1] = [("InternalError", Class::Name)];

#[rattlefmt::skip]
static JAVASCRIPT_WORDS_14: [(&str, Class); 1] = [("ReferenceError", Class::Name)];

#[rattlefmt::skip]
static JAVASCRIPT_WORDS_17: [(&str, Class); 1] = [("Uint8ClampedArray", Class::Name)];

#[rattlefmt::skip]
static JAVASCRIPT_WORDS_18: [(&str, Class); 2] = [("decodeURIComponent", Class::Name), ("encodeURIComponent", Class::Name)];

fn typescript_words(len: usize) -> &'static [(&'static str, Class)]
    ensures { map word_of result.now ≡ typescript_words len }
{
    match len {
        2 => &TYPESCRIPT_WORDS_2,
        3 => &TYPESCRIPT_WORDS_3,
        4 => &TYPESCRIPT_WORDS_4,
        5 => &TYPESCRIPT_WORDS_5,
        6 => &TYPESCRIPT_WORDS_6,
        7 => &TYPESCRIPT_WORDS_7,
        8 => &TYPESCRIPT_WORDS_8,
        9 => &TYPESCRIPT_WORDS_9,
        10 => &TYPESCRIPT_WORDS_10,
        11 => &TYPESCRIPT_WORDS_11,
        12 => &TYPESCRIPT_WORDS_12,
        13 => &TYPESCRIPT_WORDS_13,
        14 => &TYPESCRIPT_WORDS_14,
        17 => &TYPESCRIPT_WORDS_17,
        18 => &TYPESCRIPT_WORDS_18,
        _ => &[],
    }
}

#[rattlefmt::skip]
static TYPESCRIPT_WORDS_2: [(&str, Class); 6] = [("as", Class::Keyword), ("do", Class::Keyword), ("if", Class::Keyword), ("in", Class::Keyword), ("is", Class::Keyword), ("of", Class::Keyword)];

#[rattlefmt::skip]
static TYPESCRIPT_WORDS_3: [(&str, Class); 9] = [("Map", Class::Name), ("NaN", Class::Name), ("Set", Class::Name), ("any", Class::Name), ("for", Class::Keyword), ("let", Class::Keyword), ("new", Class::Keyword), ("try", Class::Keyword), ("var", Class::Keyword)];

#[rattlefmt::skip]
static TYPESCRIPT_WORDS_4: [(&str, Class); 15] = [("Date", Class::Name), ("Intl", Class::Name), ("JSON", Class::Name), ("Math", Class::Name), ("case", Class::Keyword), ("else", Class::Keyword), ("enum", Class::Keyword), ("eval", Class::Name), ("from", Class::Keyword), ("null", Class::Name), ("this", Class::Keyword), ("true", Class::Name), ("type", Class::Keyword), ("void", Class::Keyword), ("with", Class::Keyword)];

#[rattlefmt::skip]
static TYPESCRIPT_WORDS_5: [(&str, Class); 18] = [("Array", Class::Name), ("Error", Class::Name), ("Proxy", Class::Name), ("async", Class::Keyword), ("await", Class::Keyword), ("break", Class::Keyword), ("catch", Class::Keyword), ("class", Class::Keyword), ("const", Class::Keyword), ("false", Class::Name), ("infer", Class::Keyword), ("isNaN", Class::Name), ("keyof", Class::Keyword), ("never", Class::Name), ("super", Class::Keyword), ("throw", Class::Keyword), ("while", Class::Keyword), ("yield", Class::Keyword)];

#[rattlefmt::skip]
static TYPESCRIPT_WORDS_6: [(&str, Class); 21] = [("BigInt", Class::Name), ("Number", Class::Name), ("Object", Class::Name), ("RegExp", Class::Name), ("String", Class::Name), ("Symbol", Class::Name), ("bigint", Class::Name), ("delete", Class::Keyword), ("export", Class::Keyword), ("import", Class::Keyword), ("module", Class::Keyword), ("number", Class::Name), ("object", Class::Name), ("public", Class::Keyword), ("return", Class::Keyword), ("static", Class::Keyword), ("string", Class::Name), ("switch", Class::Keyword), ("symbol", Class::Name), ("typeof", Class::Keyword), ("window", Class::Name)];

#[rattlefmt::skip]
static TYPESCRIPT_WORDS_7: [(&str, Class); 13] = [("Boolean", Class::Name), ("Promise", Class::Name), ("Reflect", Class::Name), ("WeakMap", Class::Name), ("WeakSet", Class::Name), ("asserts", Class::Keyword), ("boolean", Class::Name), ("declare", Class::Keyword), ("default", Class::Keyword), ("extends", Class::Keyword), ("finally", Class::Keyword), ("private", Class::Keyword), ("unknown", Class::Name)];

#[rattlefmt::skip]
static TYPESCRIPT_WORDS_8: [(&str, Class); 13] = [("DataView", Class::Name), ("Function", Class::Name), ("Infinity", Class::Name), ("URIError", Class::Name), ("abstract", Class::Keyword), ("continue", Class::Keyword), ("debugger", Class::Keyword), ("document", Class::Name), ("function", Class::Keyword), ("isFinite", Class::Name), ("override", Class::Keyword), ("parseInt", Class::Name), ("readonly", Class::Keyword)];

#[rattlefmt::skip]
static TYPESCRIPT_WORDS_9: [(&str, Class); 8] = [("EvalError", Class::Name), ("Int8Array", Class::Name), ("TypeError", Class::Name), ("decodeURI", Class::Name), ("encodeURI", Class::Name), ("interface", Class::Keyword), ("protected", Class::Keyword), ("undefined", Class::Name)];

#[rattlefmt::skip]
static TYPESCRIPT_WORDS_10: [(&str, Class); 8] = [("Int16Array", Class::Name), ("Int32Array", Class::Name), ("RangeError", Class::Name), ("Uint8Array", Class::Name), ("globalThis", Class::Name), ("implements", Class::Keyword), ("instanceof", Class::Keyword), ("parseFloat", Class::Name)];

#[rattlefmt::skip]
static TYPESCRIPT_WORDS_11: [(&str, Class); 5] = [("ArrayBuffer", Class::Name), ("SyntaxError", Class::Name), ("Uint16Array", Class::Name), ("Uint32Array", Class::Name), ("constructor", Class::Keyword)];

#[rattlefmt::skip]
static TYPESCRIPT_WORDS_12: [(&str, Class); 2] = [("Float32Array", Class::Name), ("Float64Array", Class::Name)];

#[rattlefmt::skip]
static TYPESCRIPT_WORDS_13: [(&str, Class); 1] = [("InternalError", Class::Name)];

#[rattlefmt::skip]
static TYPESCRIPT_WORDS_14: [(&str, Class); 1] = [("ReferenceError", Class::Name)];

#[rattlefmt::skip]
static TYPESCRIPT_WORDS_17: [(&str, Class); 1] = [("Uint8ClampedArray", Class::Name)];

#[rattlefmt::skip]
static TYPESCRIPT_WORDS_18: [(&str, Class); 2] = [("decodeURIComponent", Class::Name), ("encodeURIComponent", Class::Name)];

fn json_words(len: usize) -> &'static [(&'static str, Class)]
    ensures { map word_of result.now ≡ json_words len }
{
    match len {
        4 => &JSON_WORDS_4,
        5 => &JSON_WORDS_5,
        _ => &[],
    }
}

#[rattlefmt::skip]
static JSON_WORDS_4: [(&str, Class); 2] = [("null", Class::Name), ("true", Class::Name)];

#[rattlefmt::skip]
static JSON_WORDS_5: [(&str, Class); 1] = [("false", Class::Name)];

fn toml_words(len: usize) -> &'static [(&'static str, Class)]
    ensures { map word_of result.now ≡ toml_words len }
{
    match len {
        4 => &TOML_WORDS_4,
        5 => &TOML_WORDS_5,
        _ => &[],
    }
}

#[rattlefmt::skip]
static TOML_WORDS_4: [(&str, Class); 1] = [("true", Class::Name)];

#[rattlefmt::skip]
static TOML_WORDS_5: [(&str, Class); 1] = [("false", Class::Name)];

fn c_words(len: usize) -> &'static [(&'static str, Class)]
    ensures { map word_of result.now ≡ c_words len }
{
    match len {
        2 => &C_WORDS_2,
        3 => &C_WORDS_3,
        4 => &C_WORDS_4,
        5 => &C_WORDS_5,
        6 => &C_WORDS_6,
        7 => &C_WORDS_7,
        8 => &C_WORDS_8,
        9 => &C_WORDS_9,
        12 => &C_WORDS_12,
        14 => &C_WORDS_14,
        _ => &[],
    }
}

#[rattlefmt::skip]
static C_WORDS_2: [(&str, Class); 2] = [("do", Class::Keyword), ("if", Class::Keyword)];

#[rattlefmt::skip]
static C_WORDS_3: [(&str, Class); 3] = [("asm", Class::Keyword), ("for", Class::Keyword), ("int", Class::Name)];

#[rattlefmt::skip]
static C_WORDS_4: [(&str, Class); 12] = [("FILE", Class::Name), ("NULL", Class::Name), ("auto", Class::Keyword), ("bool", Class::Name), ("case", Class::Keyword), ("char", Class::Name), ("else", Class::Keyword), ("enum", Class::Keyword), ("goto", Class::Keyword), ("long", Class::Name), ("true", Class::Name), ("void", Class::Name)];

#[rattlefmt::skip]
static C_WORDS_5: [(&str, Class); 11] = [("_Bool", Class::Name), ("break", Class::Keyword), ("const", Class::Keyword), ("div_t", Class::Name), ("false", Class::Name), ("float", Class::Name), ("off_t", Class::Name), ("pid_t", Class::Name), ("short", Class::Name), ("union", Class::Keyword), ("while", Class::Keyword)];

#[rattlefmt::skip]
static C_WORDS_6: [(&str, Class); 15] = [("double", Class::Name), ("extern", Class::Keyword), ("fpos_t", Class::Name), ("inline", Class::Keyword), ("int8_t", Class::Name), ("ldiv_t", Class::Name), ("return", Class::Keyword), ("signed", Class::Name), ("size_t", Class::Name), ("sizeof", Class::Keyword), ("static", Class::Keyword), ("struct", Class::Keyword), ("switch", Class::Keyword), ("time_t", Class::Name), ("wint_t", Class::Name)];

#[rattlefmt::skip]
static C_WORDS_7: [(&str, Class); 11] = [("clock_t", Class::Name), ("default", Class::Keyword), ("int16_t", Class::Name), ("int32_t", Class::Name), ("int64_t", Class::Name), ("jmp_buf", Class::Name), ("ssize_t", Class::Name), ("typedef", Class::Keyword), ("uint8_t", Class::Name), ("va_list", Class::Name), ("wchar_t", Class::Name)];

#[rattlefmt::skip]
static C_WORDS_8: [(&str, Class); 12] = [("_Alignas", Class::Keyword), ("_Complex", Class::Name), ("continue", Class::Keyword), ("intptr_t", Class::Name), ("register", Class::Keyword), ("restrict", Class::Keyword), ("uint16_t", Class::Name), ("uint32_t", Class::Name), ("uint64_t", Class::Name), ("unsigned", Class::Name), ("volatile", Class::Keyword), ("wctype_t", Class::Name)];

#[rattlefmt::skip]
static C_WORDS_9: [(&str, Class); 5] = [("_Noreturn", Class::Keyword), ("mbstate_t", Class::Name), ("ptrdiff_t", Class::Name), ("uintptr_t", Class::Name), ("wctrans_t", Class::Name)];

#[rattlefmt::skip]
static C_WORDS_12: [(&str, Class); 2] = [("sig_atomic_t", Class::Name), ("thread_local", Class::Keyword)];

#[rattlefmt::skip]
static C_WORDS_14: [(&str, Class); 1] = [("_Static_assert", Class::Keyword)];

fn cpp_words(len: usize) -> &'static [(&'static str, Class)]
    ensures { map word_of result.now ≡ cpp_words len }
{
    match len {
        2 => &CPP_WORDS_2,
        3 => &CPP_WORDS_3,
        4 => &CPP_WORDS_4,
        5 => &CPP_WORDS_5,
        6 => &CPP_WORDS_6,
        7 => &CPP_WORDS_7,
        8 => &CPP_WORDS_8,
        9 => &CPP_WORDS_9,
        10 => &CPP_WORDS_10,
        11 => &CPP_WORDS_11,
        12 => &CPP_WORDS_12,
        13 => &CPP_WORDS_13,
        14 => &CPP_WORDS_14,
        16 => &CPP_WORDS_16,
        _ => &[],
    }
}

#[rattlefmt::skip]
static CPP_WORDS_2: [(&str, Class); 3] = [("do", Class::Keyword), ("if", Class::Keyword), ("or", Class::Keyword)];

#[rattlefmt::skip]
static CPP_WORDS_3: [(&str, Class); 8] = [("and", Class::Keyword), ("asm", Class::Keyword), ("for", Class::Keyword), ("int", Class::Name), ("new", Class::Keyword), ("not", Class::Keyword), ("try", Class::Keyword), ("xor", Class::Keyword)];

#[rattlefmt::skip]
static CPP_WORDS_4: [(&str, Class); 13] = [("FILE", Class::Name), ("NULL", Class::Name), ("auto", Class::Keyword), ("bool", Class::Name), ("case", Class::Keyword), ("char", Class::Name), ("else", Class::Keyword), ("enum", Class::Keyword), ("goto", Class::Keyword), ("long", Class::Name), ("this", Class::Keyword), ("true", Class::Name), ("void", Class::Name)];

#[rattlefmt::skip]
static CPP_WORDS_5: [(&str, Class); 16] = [("_Bool", Class::Name), ("break", Class::Keyword), ("catch", Class::Keyword), ("class", Class::Keyword), ("const", Class::Keyword), ("div_t", Class::Name), ("false", Class::Name), ("final", Class::Keyword), ("float", Class::Name), ("off_t", Class::Name), ("pid_t", Class::Name), ("short", Class::Name), ("throw", Class::Keyword), ("union", Class::Keyword), ("using", Class::Keyword), ("while", Class::Keyword)];

#[rattlefmt::skip]
static CPP_WORDS_6: [(&str, Class); 20] = [("delete", Class::Keyword), ("double", Class::Name), ("export", Class::Keyword), ("extern", Class::Keyword), ("fpos_t", Class::Name), ("friend", Class::Keyword), ("inline", Class::Keyword), ("int8_t", Class::Name), ("ldiv_t", Class::Name), ("public", Class::Keyword), ("return", Class::Keyword), ("signed", Class::Name), ("size_t", Class::Name), ("sizeof", Class::Keyword), ("static", Class::Keyword), ("struct", Class::Keyword), ("switch", Class::Keyword), ("time_t", Class::Name), ("typeid", Class::Keyword), ("wint_t", Class::Name)];

#[rattlefmt::skip]
static CPP_WORDS_7: [(&str, Class); 19] = [("alignas", Class::Keyword), ("alignof", Class::Keyword), ("char8_t", Class::Name), ("clock_t", Class::Name), ("concept", Class::Keyword), ("default", Class::Keyword), ("int16_t", Class::Name), ("int32_t", Class::Name), ("int64_t", Class::Name), ("jmp_buf", Class::Name), ("mutable", Class::Keyword), ("nullptr", Class::Keyword), ("private", Class::Keyword), ("ssize_t", Class::Name), ("typedef", Class::Keyword), ("uint8_t", Class::Name), ("va_list", Class::Name), ("virtual", Class::Keyword), ("wchar_t", Class::Name)];

#[rattlefmt::skip]
static CPP_WORDS_8: [(&str, Class); 24] = [("_Alignas", Class::Keyword), ("_Complex", Class::Name), ("char16_t", Class::Name), ("char32_t", Class::Name), ("co_await", Class::Keyword), ("co_yield", Class::Keyword), ("continue", Class::Keyword), ("decltype", Class::Keyword), ("explicit", Class::Keyword), ("intptr_t", Class::Name), ("noexcept", Class::Keyword), ("operator", Class::Keyword), ("override", Class::Keyword), ("register", Class::Keyword), ("requires", Class::Keyword), ("restrict", Class::Keyword), ("template", Class::Keyword), ("typename", Class::Keyword), ("uint16_t", Class::Name), ("uint32_t", Class::Name), ("uint64_t", Class::Name), ("unsigned", Class::Name), ("volatile", Class::Keyword), ("wctype_t", Class::Name)];

#[rattlefmt::skip]
static CPP_WORDS_9: [(&str, Class); 11] = [("_Noreturn", Class::Keyword), ("co_return", Class::Keyword), ("consteval", Class::Keyword), ("constexpr", Class::Keyword), ("constinit", Class::Keyword), ("mbstate_t", Class::Name), ("namespace", Class::Keyword), ("protected", Class::Keyword), ("ptrdiff_t", Class::Name), ("uintptr_t", Class::Name), ("wctrans_t", Class::Name)];

#[rattlefmt::skip]
static CPP_WORDS_10: [(&str, Class); 1] = [("const_cast", Class::Keyword)];

#[rattlefmt::skip]
static CPP_WORDS_11: [(&str, Class); 1] = [("static_cast", Class::Keyword)];

#[rattlefmt::skip]
static CPP_WORDS_12: [(&str, Class); 3] = [("dynamic_cast", Class::Keyword), ("sig_atomic_t", Class::Name), ("thread_local", Class::Keyword)];

#[rattlefmt::skip]
static CPP_WORDS_13: [(&str, Class); 1] = [("static_assert", Class::Keyword)];

#[rattlefmt::skip]
static CPP_WORDS_14: [(&str, Class); 1] = [("_Static_assert", Class::Keyword)];

#[rattlefmt::skip]
static CPP_WORDS_16: [(&str, Class); 1] = [("reinterpret_cast", Class::Keyword)];

fn java_words(len: usize) -> &'static [(&'static str, Class)]
    ensures { map word_of result.now ≡ java_words len }
{
    match len {
        2 => &JAVA_WORDS_2,
        3 => &JAVA_WORDS_3,
        4 => &JAVA_WORDS_4,
        5 => &JAVA_WORDS_5,
        6 => &JAVA_WORDS_6,
        7 => &JAVA_WORDS_7,
        8 => &JAVA_WORDS_8,
        9 => &JAVA_WORDS_9,
        10 => &JAVA_WORDS_10,
        12 => &JAVA_WORDS_12,
        _ => &[],
    }
}

#[rattlefmt::skip]
static JAVA_WORDS_2: [(&str, Class); 2] = [("do", Class::Keyword), ("if", Class::Keyword)];

#[rattlefmt::skip]
static JAVA_WORDS_3: [(&str, Class); 5] = [("for", Class::Keyword), ("int", Class::Name), ("new", Class::Keyword), ("try", Class::Keyword), ("var", Class::Keyword)];

#[rattlefmt::skip]
static JAVA_WORDS_4: [(&str, Class); 11] = [("byte", Class::Name), ("case", Class::Keyword), ("char", Class::Name), ("else", Class::Keyword), ("enum", Class::Keyword), ("goto", Class::Keyword), ("long", Class::Name), ("null", Class::Name), ("this", Class::Keyword), ("true", Class::Name), ("void", Class::Name)];

#[rattlefmt::skip]
static JAVA_WORDS_5: [(&str, Class); 12] = [("break", Class::Keyword), ("catch", Class::Keyword), ("class", Class::Keyword), ("const", Class::Keyword), ("false", Class::Name), ("final", Class::Keyword), ("float", Class::Name), ("short", Class::Name), ("super", Class::Keyword), ("throw", Class::Keyword), ("while", Class::Keyword), ("yield", Class::Keyword)];

#[rattlefmt::skip]
static JAVA_WORDS_6: [(&str, Class); 11] = [("assert", Class::Keyword), ("double", Class::Name), ("import", Class::Keyword), ("native", Class::Keyword), ("public", Class::Keyword), ("record", Class::Keyword), ("return", Class::Keyword), ("sealed", Class::Keyword), ("static", Class::Keyword), ("switch", Class::Keyword), ("throws", Class::Keyword)];

#[rattlefmt::skip]
static JAVA_WORDS_7: [(&str, Class); 7] = [("boolean", Class::Name), ("default", Class::Keyword), ("extends", Class::Keyword), ("finally", Class::Keyword), ("package", Class::Keyword), ("permits", Class::Keyword), ("private", Class::Keyword)];

#[rattlefmt::skip]
static JAVA_WORDS_8: [(&str, Class); 4] = [("abstract", Class::Keyword), ("continue", Class::Keyword), ("strictfp", Class::Keyword), ("volatile", Class::Keyword)];

#[rattlefmt::skip]
static JAVA_WORDS_9: [(&str, Class); 3] = [("interface", Class::Keyword), ("protected", Class::Keyword), ("transient", Class::Keyword)];

#[rattlefmt::skip]
static JAVA_WORDS_10: [(&str, Class); 2] = [("implements", Class::Keyword), ("instanceof", Class::Keyword)];

#[rattlefmt::skip]
static JAVA_WORDS_12: [(&str, Class); 1] = [("synchronized", Class::Keyword)];

fn csharp_words(len: usize) -> &'static [(&'static str, Class)]
    ensures { map word_of result.now ≡ csharp_words len }
{
    match len {
        2 => &CSHARP_WORDS_2,
        3 => &CSHARP_WORDS_3,
        4 => &CSHARP_WORDS_4,
        5 => &CSHARP_WORDS_5,
        6 => &CSHARP_WORDS_6,
        7 => &CSHARP_WORDS_7,
        8 => &CSHARP_WORDS_8,
        9 => &CSHARP_WORDS_9,
        10 => &CSHARP_WORDS_10,
        _ => &[],
    }
}

#[rattlefmt::skip]
static CSHARP_WORDS_2: [(&str, Class); 7] = [("as", Class::Keyword), ("by", Class::Keyword), ("do", Class::Keyword), ("if", Class::Keyword), ("in", Class::Keyword), ("is", Class::Keyword), ("on", Class::Keyword)];

#[rattlefmt::skip]
static CSHARP_WORDS_3: [(&str, Class); 11] = [("add", Class::Keyword), ("for", Class::Keyword), ("get", Class::Keyword), ("int", Class::Name), ("let", Class::Keyword), ("new", Class::Keyword), ("out", Class::Keyword), ("ref", Class::Keyword), ("set", Class::Keyword), ("try", Class::Keyword), ("var", Class::Keyword)];

#[rattlefmt::skip]
static CSHARP_WORDS_4: [(&str, Class); 17] = [("base", Class::Keyword), ("bool", Class::Name), ("byte", Class::Name), ("case", Class::Keyword), ("char", Class::Name), ("else", Class::Keyword), ("enum", Class::Keyword), ("from", Class::Keyword), ("goto", Class::Keyword), ("into", Class::Keyword), ("lock", Class::Keyword), ("long", Class::Name), ("null", Class::Keyword), ("this", Class::Keyword), ("true", Class::Keyword), ("uint", Class::Name), ("void", Class::Keyword)];

#[rattlefmt::skip]
static CSHARP_WORDS_5: [(&str, Class); 21] = [("alias", Class::Keyword), ("async", Class::Keyword), ("await", Class::Keyword), ("break", Class::Keyword), ("catch", Class::Keyword), ("class", Class::Keyword), ("const", Class::Keyword), ("event", Class::Keyword), ("false", Class::Keyword), ("fixed", Class::Keyword), ("float", Class::Name), ("group", Class::Keyword), ("sbyte", Class::Name), ("short", Class::Name), ("throw", Class::Keyword), ("ulong", Class::Name), ("using", Class::Keyword), ("value", Class::Keyword), ("where", Class::Keyword), ("while", Class::Keyword), ("yield", Class::Keyword)];

#[rattlefmt::skip]
static CSHARP_WORDS_6: [(&str, Class); 18] = [("double", Class::Name), ("extern", Class::Keyword), ("global", Class::Keyword), ("object", Class::Name), ("params", Class::Keyword), ("public", Class::Keyword), ("remove", Class::Keyword), ("return", Class::Keyword), ("sealed", Class::Keyword), ("select", Class::Keyword), ("sizeof", Class::Keyword), ("static", Class::Keyword), ("string", Class::Name), ("struct", Class::Keyword), ("switch", Class::Keyword), ("typeof", Class::Keyword), ("unsafe", Class::Keyword), ("ushort", Class::Name)];

#[rattlefmt::skip]
static CSHARP_WORDS_7: [(&str, Class); 10] = [("checked", Class::Keyword), ("decimal", Class::Name), ("default", Class::Keyword), ("dynamic", Class::Name), ("finally", Class::Keyword), ("foreach", Class::Keyword), ("orderby", Class::Keyword), ("partial", Class::Keyword), ("private", Class::Keyword), ("virtual", Class::Keyword)];

#[rattlefmt::skip]
static CSHARP_WORDS_8: [(&str, Class); 9] = [("abstract", Class::Keyword), ("continue", Class::Keyword), ("delegate", Class::Keyword), ("explicit", Class::Keyword), ("implicit", Class::Keyword), ("internal", Class::Keyword), ("operator", Class::Keyword), ("override", Class::Keyword), ("readonly", Class::Keyword)];

#[rattlefmt::skip]
static CSHARP_WORDS_9: [(&str, Class); 5] = [("ascending", Class::Keyword), ("interface", Class::Keyword), ("namespace", Class::Keyword), ("protected", Class::Keyword), ("unchecked", Class::Keyword)];

#[rattlefmt::skip]
static CSHARP_WORDS_10: [(&str, Class); 2] = [("descending", Class::Keyword), ("stackalloc", Class::Keyword)];

fn kotlin_words(len: usize) -> &'static [(&'static str, Class)]
    ensures { map word_of result.now ≡ kotlin_words len }
{
    match len {
        2 => &KOTLIN_WORDS_2,
        3 => &KOTLIN_WORDS_3,
        4 => &KOTLIN_WORDS_4,
        5 => &KOTLIN_WORDS_5,
        6 => &KOTLIN_WORDS_6,
        7 => &KOTLIN_WORDS_7,
        8 => &KOTLIN_WORDS_8,
        9 => &KOTLIN_WORDS_9,
        10 => &KOTLIN_WORDS_10,
        11 => &KOTLIN_WORDS_11,
        _ => &[],
    }
}

#[rattlefmt::skip]
static KOTLIN_WORDS_2: [(&str, Class); 7] = [("as", Class::Keyword), ("by", Class::Keyword), ("do", Class::Keyword), ("if", Class::Keyword), ("in", Class::Keyword), ("is", Class::Keyword), ("it", Class::Keyword)];

#[rattlefmt::skip]
static KOTLIN_WORDS_3: [(&str, Class); 12] = [("Any", Class::Name), ("Int", Class::Name), ("Map", Class::Name), ("Set", Class::Name), ("for", Class::Keyword), ("fun", Class::Keyword), ("get", Class::Keyword), ("out", Class::Keyword), ("set", Class::Keyword), ("try", Class::Keyword), ("val", Class::Keyword), ("var", Class::Keyword)];

#[rattlefmt::skip]
static KOTLIN_WORDS_4: [(&str, Class); 15] = [("Byte", Class::Name), ("Char", Class::Name), ("List", Class::Name), ("Long", Class::Name), ("Unit", Class::Name), ("data", Class::Keyword), ("else", Class::Keyword), ("enum", Class::Keyword), ("file", Class::Keyword), ("init", Class::Keyword), ("null", Class::Name), ("open", Class::Keyword), ("this", Class::Keyword), ("true", Class::Name), ("when", Class::Keyword)];

#[rattlefmt::skip]
static KOTLIN_WORDS_5: [(&str, Class); 18] = [("Array", Class::Name), ("Float", Class::Name), ("Short", Class::Name), ("break", Class::Keyword), ("catch", Class::Keyword), ("class", Class::Keyword), ("const", Class::Keyword), ("false", Class::Name), ("field", Class::Keyword), ("final", Class::Keyword), ("infix", Class::Keyword), ("inner", Class::Keyword), ("param", Class::Keyword), ("super", Class::Keyword), ("throw", Class::Keyword), ("value", Class::Keyword), ("where", Class::Keyword), ("while", Class::Keyword)];

#[rattlefmt::skip]
static KOTLIN_WORDS_6: [(&str, Class); 11] = [("Double", Class::Name), ("String", Class::Name), ("actual", Class::Keyword), ("expect", Class::Keyword), ("import", Class::Keyword), ("inline", Class::Keyword), ("object", Class::Keyword), ("public", Class::Keyword), ("return", Class::Keyword), ("sealed", Class::Keyword), ("vararg", Class::Keyword)];

#[rattlefmt::skip]
static KOTLIN_WORDS_7: [(&str, Class); 9] = [("Boolean", Class::Name), ("Nothing", Class::Name), ("dynamic", Class::Keyword), ("finally", Class::Keyword), ("package", Class::Keyword), ("private", Class::Keyword), ("reified", Class::Keyword), ("suspend", Class::Keyword), ("tailrec", Class::Keyword)];

#[rattlefmt::skip]
static KOTLIN_WORDS_8: [(&str, Class); 12] = [("abstract", Class::Keyword), ("continue", Class::Keyword), ("delegate", Class::Keyword), ("external", Class::Keyword), ("internal", Class::Keyword), ("lateinit", Class::Keyword), ("noinline", Class::Keyword), ("operator", Class::Keyword), ("override", Class::Keyword), ("property", Class::Keyword), ("receiver", Class::Keyword), ("setparam", Class::Keyword)];

#[rattlefmt::skip]
static KOTLIN_WORDS_9: [(&str, Class); 4] = [("companion", Class::Keyword), ("interface", Class::Keyword), ("protected", Class::Keyword), ("typealias", Class::Keyword)];

#[rattlefmt::skip]
static KOTLIN_WORDS_10: [(&str, Class); 1] = [("annotation", Class::Keyword)];

#[rattlefmt::skip]
static KOTLIN_WORDS_11: [(&str, Class); 2] = [("constructor", Class::Keyword), ("crossinline", Class::Keyword)];

fn swift_words(len: usize) -> &'static [(&'static str, Class)]
    ensures { map word_of result.now ≡ swift_words len }
{
    match len {
        2 => &SWIFT_WORDS_2,
        3 => &SWIFT_WORDS_3,
        4 => &SWIFT_WORDS_4,
        5 => &SWIFT_WORDS_5,
        6 => &SWIFT_WORDS_6,
        7 => &SWIFT_WORDS_7,
        8 => &SWIFT_WORDS_8,
        9 => &SWIFT_WORDS_9,
        10 => &SWIFT_WORDS_10,
        11 => &SWIFT_WORDS_11,
        14 => &SWIFT_WORDS_14,
        _ => &[],
    }
}

#[rattlefmt::skip]
static SWIFT_WORDS_2: [(&str, Class); 5] = [("as", Class::Keyword), ("do", Class::Keyword), ("if", Class::Keyword), ("in", Class::Keyword), ("is", Class::Keyword)];

#[rattlefmt::skip]
static SWIFT_WORDS_3: [(&str, Class); 11] = [("Any", Class::Name), ("Int", Class::Name), ("Set", Class::Name), ("any", Class::Keyword), ("for", Class::Keyword), ("get", Class::Keyword), ("let", Class::Keyword), ("nil", Class::Name), ("set", Class::Keyword), ("try", Class::Keyword), ("var", Class::Keyword)];

#[rattlefmt::skip]
static SWIFT_WORDS_4: [(&str, Class); 16] = [("Bool", Class::Name), ("Int8", Class::Name), ("Self", Class::Keyword), ("UInt", Class::Name), ("Void", Class::Name), ("case", Class::Keyword), ("else", Class::Keyword), ("enum", Class::Keyword), ("func", Class::Keyword), ("init", Class::Keyword), ("lazy", Class::Keyword), ("open", Class::Keyword), ("self", Class::Keyword), ("some", Class::Keyword), ("true", Class::Name), ("weak", Class::Keyword)];

#[rattlefmt::skip]
static SWIFT_WORDS_5: [(&str, Class); 22] = [("Array", Class::Name), ("Float", Class::Name), ("Int16", Class::Name), ("Int32", Class::Name), ("Int64", Class::Name), ("UInt8", Class::Name), ("actor", Class::Keyword), ("async", Class::Keyword), ("await", Class::Keyword), ("break", Class::Keyword), ("catch", Class::Keyword), ("class", Class::Keyword), ("defer", Class::Keyword), ("false", Class::Name), ("final", Class::Keyword), ("guard", Class::Keyword), ("infix", Class::Keyword), ("inout", Class::Keyword), ("super", Class::Keyword), ("throw", Class::Keyword), ("where", Class::Keyword), ("while", Class::Keyword)];

#[rattlefmt::skip]
static SWIFT_WORDS_6: [(&str, Class); 16] = [("Double", Class::Name), ("String", Class::Name), ("UInt16", Class::Name), ("UInt32", Class::Name), ("UInt64", Class::Name), ("deinit", Class::Keyword), ("didSet", Class::Keyword), ("import", Class::Keyword), ("prefix", Class::Keyword), ("public", Class::Keyword), ("repeat", Class::Keyword), ("return", Class::Keyword), ("static", Class::Keyword), ("struct", Class::Keyword), ("switch", Class::Keyword), ("throws", Class::Keyword)];

#[rattlefmt::skip]
static SWIFT_WORDS_7: [(&str, Class); 6] = [("default", Class::Keyword), ("dynamic", Class::Keyword), ("postfix", Class::Keyword), ("private", Class::Keyword), ("unowned", Class::Keyword), ("willSet", Class::Keyword)];

#[rattlefmt::skip]
static SWIFT_WORDS_8: [(&str, Class); 11] = [("Optional", Class::Name), ("continue", Class::Keyword), ("indirect", Class::Keyword), ("internal", Class::Keyword), ("mutating", Class::Keyword), ("operator", Class::Keyword), ("optional", Class::Keyword), ("override", Class::Keyword), ("protocol", Class::Keyword), ("required", Class::Keyword), ("rethrows", Class::Keyword)];

#[rattlefmt::skip]
static SWIFT_WORDS_9: [(&str, Class); 4] = [("Character", Class::Name), ("extension", Class::Keyword), ("subscript", Class::Keyword), ("typealias", Class::Keyword)];

#[rattlefmt::skip]
static SWIFT_WORDS_10: [(&str, Class); 2] = [("Dictionary", Class::Name), ("precedence", Class::Keyword)];

#[rattlefmt::skip]
static SWIFT_WORDS_11: [(&str, Class); 4] = [("convenience", Class::Keyword), ("fallthrough", Class::Keyword), ("fileprivate", Class::Keyword), ("nonmutating", Class::Keyword)];

#[rattlefmt::skip]
static SWIFT_WORDS_14: [(&str, Class); 1] = [("associatedtype", Class::Keyword)];

fn go_words(len: usize) -> &'static [(&'static str, Class)]
    ensures { map word_of result.now ≡ go_words len }
{
    match len {
        2 => &GO_WORDS_2,
        3 => &GO_WORDS_3,
        4 => &GO_WORDS_4,
        5 => &GO_WORDS_5,
        6 => &GO_WORDS_6,
        7 => &GO_WORDS_7,
        8 => &GO_WORDS_8,
        9 => &GO_WORDS_9,
        10 => &GO_WORDS_10,
        11 => &GO_WORDS_11,
        _ => &[],
    }
}

#[rattlefmt::skip]
static GO_WORDS_2: [(&str, Class); 2] = [("go", Class::Keyword), ("if", Class::Keyword)];

#[rattlefmt::skip]
static GO_WORDS_3: [(&str, Class); 9] = [("any", Class::Name), ("cap", Class::Name), ("for", Class::Keyword), ("int", Class::Name), ("len", Class::Name), ("map", Class::Keyword), ("new", Class::Name), ("nil", Class::Name), ("var", Class::Keyword)];

#[rattlefmt::skip]
static GO_WORDS_4: [(&str, Class); 17] = [("bool", Class::Name), ("byte", Class::Name), ("case", Class::Keyword), ("chan", Class::Keyword), ("copy", Class::Name), ("else", Class::Keyword), ("func", Class::Keyword), ("goto", Class::Keyword), ("imag", Class::Name), ("int8", Class::Name), ("iota", Class::Name), ("make", Class::Name), ("real", Class::Name), ("rune", Class::Name), ("true", Class::Name), ("type", Class::Keyword), ("uint", Class::Name)];

#[rattlefmt::skip]
static GO_WORDS_5: [(&str, Class); 13] = [("break", Class::Keyword), ("close", Class::Name), ("const", Class::Keyword), ("defer", Class::Keyword), ("error", Class::Name), ("false", Class::Name), ("int16", Class::Name), ("int32", Class::Name), ("int64", Class::Name), ("panic", Class::Name), ("print", Class::Name), ("range", Class::Keyword), ("uint8", Class::Name)];

#[rattlefmt::skip]
static GO_WORDS_6: [(&str, Class); 11] = [("append", Class::Name), ("delete", Class::Name), ("import", Class::Keyword), ("return", Class::Keyword), ("select", Class::Keyword), ("string", Class::Name), ("struct", Class::Keyword), ("switch", Class::Keyword), ("uint16", Class::Name), ("uint32", Class::Name), ("uint64", Class::Name)];

#[rattlefmt::skip]
static GO_WORDS_7: [(&str, Class); 8] = [("complex", Class::Name), ("default", Class::Keyword), ("float32", Class::Name), ("float64", Class::Name), ("package", Class::Keyword), ("println", Class::Name), ("recover", Class::Name), ("uintptr", Class::Name)];

#[rattlefmt::skip]
static GO_WORDS_8: [(&str, Class); 1] = [("continue", Class::Keyword)];

#[rattlefmt::skip]
static GO_WORDS_9: [(&str, Class); 2] = [("complex64", Class::Name), ("interface", Class::Keyword)];

#[rattlefmt::skip]
static GO_WORDS_10: [(&str, Class); 1] = [("complex128", Class::Name)];

#[rattlefmt::skip]
static GO_WORDS_11: [(&str, Class); 1] = [("fallthrough", Class::Keyword)];

fn protobuf_words(len: usize) -> &'static [(&'static str, Class)]
    ensures { map word_of result.now ≡ protobuf_words len }
{
    match len {
        2 => &PROTOBUF_WORDS_2,
        3 => &PROTOBUF_WORDS_3,
        4 => &PROTOBUF_WORDS_4,
        5 => &PROTOBUF_WORDS_5,
        6 => &PROTOBUF_WORDS_6,
        7 => &PROTOBUF_WORDS_7,
        8 => &PROTOBUF_WORDS_8,
        10 => &PROTOBUF_WORDS_10,
        _ => &[],
    }
}

#[rattlefmt::skip]
static PROTOBUF_WORDS_2: [(&str, Class); 1] = [("to", Class::Keyword)];

#[rattlefmt::skip]
static PROTOBUF_WORDS_3: [(&str, Class); 3] = [("map", Class::Name), ("max", Class::Keyword), ("rpc", Class::Keyword)];

#[rattlefmt::skip]
static PROTOBUF_WORDS_4: [(&str, Class); 3] = [("bool", Class::Name), ("enum", Class::Keyword), ("true", Class::Name)];

#[rattlefmt::skip]
static PROTOBUF_WORDS_5: [(&str, Class); 8] = [("bytes", Class::Name), ("ctype", Class::Keyword), ("false", Class::Name), ("float", Class::Name), ("group", Class::Keyword), ("int32", Class::Name), ("int64", Class::Name), ("oneof", Class::Keyword)];

#[rattlefmt::skip]
static PROTOBUF_WORDS_6: [(&str, Class); 12] = [("double", Class::Name), ("extend", Class::Keyword), ("import", Class::Keyword), ("option", Class::Keyword), ("packed", Class::Keyword), ("sint32", Class::Name), ("sint64", Class::Name), ("stream", Class::Keyword), ("string", Class::Name), ("syntax", Class::Keyword), ("uint32", Class::Name), ("uint64", Class::Name)];

#[rattlefmt::skip]
static PROTOBUF_WORDS_7: [(&str, Class); 7] = [("default", Class::Keyword), ("fixed32", Class::Name), ("fixed64", Class::Name), ("message", Class::Keyword), ("package", Class::Keyword), ("returns", Class::Keyword), ("service", Class::Keyword)];

#[rattlefmt::skip]
static PROTOBUF_WORDS_8: [(&str, Class); 6] = [("optional", Class::Keyword), ("repeated", Class::Keyword), ("required", Class::Keyword), ("reserved", Class::Keyword), ("sfixed32", Class::Name), ("sfixed64", Class::Name)];

#[rattlefmt::skip]
static PROTOBUF_WORDS_10: [(&str, Class); 1] = [("extensions", Class::Keyword)];

fn php_words(len: usize) -> &'static [(&'static str, Class)]
    ensures { map word_of result.now ≡ php_words len }
{
    match len {
        2 => &PHP_WORDS_2,
        3 => &PHP_WORDS_3,
        4 => &PHP_WORDS_4,
        5 => &PHP_WORDS_5,
        6 => &PHP_WORDS_6,
        7 => &PHP_WORDS_7,
        8 => &PHP_WORDS_8,
        9 => &PHP_WORDS_9,
        10 => &PHP_WORDS_10,
        11 => &PHP_WORDS_11,
        12 => &PHP_WORDS_12,
        13 => &PHP_WORDS_13,
        15 => &PHP_WORDS_15,
        17 => &PHP_WORDS_17,
        _ => &[],
    }
}

#[rattlefmt::skip]
static PHP_WORDS_2: [(&str, Class); 5] = [("as", Class::Keyword), ("do", Class::Keyword), ("fn", Class::Keyword), ("if", Class::Keyword), ("or", Class::Keyword)];

#[rattlefmt::skip]
static PHP_WORDS_3: [(&str, Class); 9] = [("and", Class::Keyword), ("die", Class::Keyword), ("for", Class::Keyword), ("int", Class::Name), ("new", Class::Keyword), ("try", Class::Keyword), ("use", Class::Keyword), ("var", Class::Keyword), ("xor", Class::Keyword)];

#[rattlefmt::skip]
static PHP_WORDS_4: [(&str, Class); 14] = [("bool", Class::Name), ("case", Class::Keyword), ("echo", Class::Keyword), ("else", Class::Keyword), ("enum", Class::Keyword), ("eval", Class::Keyword), ("exit", Class::Keyword), ("goto", Class::Keyword), ("list", Class::Keyword), ("null", Class::Keyword), ("self", Class::Keyword), ("trim", Class::Name), ("true", Class::Keyword), ("void", Class::Name)];

#[rattlefmt::skip]
static PHP_WORDS_5: [(&str, Class); 22] = [("array", Class::Keyword), ("break", Class::Keyword), ("catch", Class::Keyword), ("class", Class::Keyword), ("clone", Class::Keyword), ("const", Class::Keyword), ("count", Class::Name), ("empty", Class::Keyword), ("endif", Class::Keyword), ("false", Class::Keyword), ("final", Class::Keyword), ("float", Class::Name), ("isset", Class::Keyword), ("match", Class::Keyword), ("mixed", Class::Name), ("never", Class::Name), ("print", Class::Keyword), ("throw", Class::Keyword), ("trait", Class::Keyword), ("unset", Class::Keyword), ("while", Class::Keyword), ("yield", Class::Keyword)];

#[rattlefmt::skip]
static PHP_WORDS_6: [(&str, Class); 15] = [("define", Class::Name), ("elseif", Class::Keyword), ("endfor", Class::Keyword), ("global", Class::Keyword), ("header", Class::Name), ("object", Class::Name), ("parent", Class::Keyword), ("printf", Class::Name), ("public", Class::Keyword), ("return", Class::Keyword), ("static", Class::Keyword), ("strlen", Class::Name), ("strpos", Class::Name), ("substr", Class::Name), ("switch", Class::Keyword)];

#[rattlefmt::skip]
static PHP_WORDS_7: [(&str, Class); 14] = [("__dir__", Class::Name), ("declare", Class::Keyword), ("default", Class::Keyword), ("defined", Class::Name), ("dirname", Class::Name), ("explode", Class::Name), ("extends", Class::Keyword), ("finally", Class::Keyword), ("foreach", Class::Keyword), ("implode", Class::Name), ("include", Class::Keyword), ("private", Class::Keyword), ("require", Class::Keyword), ("sprintf", Class::Name)];

#[rattlefmt::skip]
static PHP_WORDS_8: [(&str, Class); 11] = [("__file__", Class::Name), ("__line__", Class::Name), ("abstract", Class::Keyword), ("callable", Class::Keyword), ("continue", Class::Keyword), ("endwhile", Class::Keyword), ("function", Class::Keyword), ("in_array", Class::Name), ("is_array", Class::Name), ("iterable", Class::Name), ("readonly", Class::Keyword)];

#[rattlefmt::skip]
static PHP_WORDS_9: [(&str, Class); 7] = [("__class__", Class::Name), ("endswitch", Class::Keyword), ("insteadof", Class::Keyword), ("interface", Class::Keyword), ("is_string", Class::Name), ("namespace", Class::Keyword), ("protected", Class::Keyword)];

#[rattlefmt::skip]
static PHP_WORDS_10: [(&str, Class); 7] = [("__method__", Class::Name), ("array_keys", Class::Name), ("enddeclare", Class::Keyword), ("endforeach", Class::Keyword), ("implements", Class::Keyword), ("instanceof", Class::Keyword), ("preg_match", Class::Name)];

#[rattlefmt::skip]
static PHP_WORDS_11: [(&str, Class); 3] = [("array_merge", Class::Name), ("file_exists", Class::Name), ("str_replace", Class::Name)];

#[rattlefmt::skip]
static PHP_WORDS_12: [(&str, Class); 3] = [("class_exists", Class::Name), ("include_once", Class::Keyword), ("require_once", Class::Keyword)];

#[rattlefmt::skip]
static PHP_WORDS_13: [(&str, Class); 2] = [("__namespace__", Class::Name), ("method_exists", Class::Name)];

#[rattlefmt::skip]
static PHP_WORDS_15: [(&str, Class); 2] = [("function_exists", Class::Name), ("property_exists", Class::Name)];

#[rattlefmt::skip]
static PHP_WORDS_17: [(&str, Class); 2] = [("file_get_contents", Class::Name), ("file_put_contents", Class::Name)];

fn ruby_words(len: usize) -> &'static [(&'static str, Class)]
    ensures { map word_of result.now ≡ ruby_words len }
{
    match len {
        1 => &RUBY_WORDS_1,
        2 => &RUBY_WORDS_2,
        3 => &RUBY_WORDS_3,
        4 => &RUBY_WORDS_4,
        5 => &RUBY_WORDS_5,
        6 => &RUBY_WORDS_6,
        7 => &RUBY_WORDS_7,
        8 => &RUBY_WORDS_8,
        9 => &RUBY_WORDS_9,
        10 => &RUBY_WORDS_10,
        11 => &RUBY_WORDS_11,
        12 => &RUBY_WORDS_12,
        13 => &RUBY_WORDS_13,
        15 => &RUBY_WORDS_15,
        16 => &RUBY_WORDS_16,
        19 => &RUBY_WORDS_19,
        20 => &RUBY_WORDS_20,
        21 => &RUBY_WORDS_21,
        _ => &[],
    }
}

#[rattlefmt::skip]
static RUBY_WORDS_1: [(&str, Class); 1] = [("p", Class::Name)];

#[rattlefmt::skip]
static RUBY_WORDS_2: [(&str, Class); 4] = [("do", Class::Keyword), ("if", Class::Keyword), ("in", Class::Keyword), ("or", Class::Keyword)];

#[rattlefmt::skip]
static RUBY_WORDS_3: [(&str, Class); 8] = [("END", Class::Keyword), ("and", Class::Keyword), ("def", Class::Keyword), ("end", Class::Keyword), ("for", Class::Keyword), ("new", Class::Name), ("nil", Class::Name), ("not", Class::Keyword)];

#[rattlefmt::skip]
static RUBY_WORDS_4: [(&str, Class); 20] = [("attr", Class::Name), ("case", Class::Keyword), ("else", Class::Keyword), ("exec", Class::Name), ("exit", Class::Name), ("fork", Class::Name), ("gets", Class::Name), ("loop", Class::Name), ("next", Class::Keyword), ("proc", Class::Name), ("puts", Class::Name), ("rand", Class::Name), ("redo", Class::Keyword), ("self", Class::Name), ("send", Class::Name), ("then", Class::Keyword), ("to_a", Class::Name), ("to_s", Class::Name), ("true", Class::Name), ("when", Class::Keyword)];

#[rattlefmt::skip]
static RUBY_WORDS_5: [(&str, Class); 22] = [("Array", Class::Name), ("BEGIN", Class::Keyword), ("Float", Class::Name), ("abort", Class::Name), ("alias", Class::Keyword), ("begin", Class::Keyword), ("break", Class::Keyword), ("catch", Class::Name), ("class", Class::Keyword), ("elsif", Class::Keyword), ("false", Class::Name), ("is_a?", Class::Name), ("print", Class::Name), ("raise", Class::Keyword), ("retry", Class::Keyword), ("sleep", Class::Name), ("super", Class::Keyword), ("throw", Class::Name), ("undef", Class::Keyword), ("until", Class::Keyword), ("while", Class::Keyword), ("yield", Class::Keyword)];

#[rattlefmt::skip]
static RUBY_WORDS_6: [(&str, Class); 14] = [("String", Class::Name), ("ensure", Class::Keyword), ("extend", Class::Name), ("format", Class::Name), ("freeze", Class::Name), ("lambda", Class::Name), ("method", Class::Name), ("module", Class::Keyword), ("printf", Class::Name), ("public", Class::Name), ("rescue", Class::Keyword), ("return", Class::Keyword), ("system", Class::Name), ("unless", Class::Keyword)];

#[rattlefmt::skip]
static RUBY_WORDS_7: [(&str, Class); 6] = [("Integer", Class::Name), ("include", Class::Name), ("inspect", Class::Name), ("private", Class::Name), ("require", Class::Name), ("sprintf", Class::Name)];

#[rattlefmt::skip]
static RUBY_WORDS_8: [(&str, Class); 4] = [("__FILE__", Class::Name), ("__LINE__", Class::Name), ("defined?", Class::Keyword), ("kind_of?", Class::Name)];

#[rattlefmt::skip]
static RUBY_WORDS_9: [(&str, Class); 2] = [("object_id", Class::Name), ("protected", Class::Name)];

#[rattlefmt::skip]
static RUBY_WORDS_10: [(&str, Class); 1] = [("class_eval", Class::Name)];

#[rattlefmt::skip]
static RUBY_WORDS_11: [(&str, Class); 3] = [("attr_reader", Class::Name), ("attr_writer", Class::Name), ("respond_to?", Class::Name)];

#[rattlefmt::skip]
static RUBY_WORDS_12: [(&str, Class); 1] = [("block_given?", Class::Name)];

#[rattlefmt::skip]
static RUBY_WORDS_13: [(&str, Class); 3] = [("attr_accessor", Class::Name), ("define_method", Class::Name), ("instance_eval", Class::Name)];

#[rattlefmt::skip]
static RUBY_WORDS_15: [(&str, Class); 1] = [("module_function", Class::Name)];

#[rattlefmt::skip]
static RUBY_WORDS_16: [(&str, Class); 1] = [("require_relative", Class::Name)];

#[rattlefmt::skip]
static RUBY_WORDS_19: [(&str, Class); 1] = [("public_class_method", Class::Name)];

#[rattlefmt::skip]
static RUBY_WORDS_20: [(&str, Class); 1] = [("private_class_method", Class::Name)];

#[rattlefmt::skip]
static RUBY_WORDS_21: [(&str, Class); 2] = [("instance_variable_get", Class::Name), ("instance_variable_set", Class::Name)];

fn perl_words(len: usize) -> &'static [(&'static str, Class)]
    ensures { map word_of result.now ≡ perl_words len }
{
    match len {
        2 => &PERL_WORDS_2,
        3 => &PERL_WORDS_3,
        4 => &PERL_WORDS_4,
        5 => &PERL_WORDS_5,
        6 => &PERL_WORDS_6,
        7 => &PERL_WORDS_7,
        8 => &PERL_WORDS_8,
        9 => &PERL_WORDS_9,
        _ => &[],
    }
}

#[rattlefmt::skip]
static PERL_WORDS_2: [(&str, Class); 13] = [("do", Class::Keyword), ("eq", Class::Keyword), ("ge", Class::Keyword), ("gt", Class::Keyword), ("if", Class::Keyword), ("lc", Class::Name), ("le", Class::Keyword), ("lt", Class::Keyword), ("my", Class::Keyword), ("ne", Class::Keyword), ("no", Class::Keyword), ("or", Class::Keyword), ("uc", Class::Name)];

#[rattlefmt::skip]
static PERL_WORDS_3: [(&str, Class); 28] = [("END", Class::Keyword), ("abs", Class::Name), ("and", Class::Keyword), ("chr", Class::Name), ("cmp", Class::Keyword), ("cos", Class::Name), ("die", Class::Name), ("eof", Class::Name), ("exp", Class::Name), ("for", Class::Keyword), ("hex", Class::Name), ("int", Class::Name), ("log", Class::Name), ("map", Class::Name), ("new", Class::Keyword), ("not", Class::Keyword), ("oct", Class::Name), ("ord", Class::Name), ("our", Class::Keyword), ("pop", Class::Name), ("pos", Class::Name), ("ref", Class::Name), ("sin", Class::Name), ("sub", Class::Keyword), ("tie", Class::Name), ("use", Class::Keyword), ("vec", Class::Name), ("xor", Class::Keyword)];

#[rattlefmt::skip]
static PERL_WORDS_4: [(&str, Class); 40] = [("bind", Class::Name), ("case", Class::Keyword), ("chop", Class::Name), ("dump", Class::Name), ("each", Class::Name), ("else", Class::Keyword), ("eval", Class::Keyword), ("exec", Class::Name), ("exit", Class::Name), ("fork", Class::Name), ("getc", Class::Name), ("glob", Class::Name), ("goto", Class::Name), ("grep", Class::Name), ("join", Class::Name), ("keys", Class::Name), ("kill", Class::Name), ("last", Class::Keyword), ("link", Class::Name), ("next", Class::Keyword), ("open", Class::Name), ("pack", Class::Name), ("pipe", Class::Name), ("push", Class::Name), ("rand", Class::Name), ("read", Class::Name), ("recv", Class::Name), ("redo", Class::Keyword), ("seek", Class::Name), ("send", Class::Name), ("sort", Class::Name), ("sqrt", Class::Name), ("stat", Class::Name), ("tell", Class::Name), ("then", Class::Keyword), ("tied", Class::Name), ("time", Class::Name), ("wait", Class::Name), ("warn", Class::Name), ("when", Class::Keyword)];

#[rattlefmt::skip]
static PERL_WORDS_5: [(&str, Class); 34] = [("BEGIN", Class::Keyword), ("alarm", Class::Name), ("atan2", Class::Name), ("bless", Class::Keyword), ("chdir", Class::Name), ("chmod", Class::Name), ("chomp", Class::Name), ("chown", Class::Name), ("close", Class::Name), ("elsif", Class::Keyword), ("fcntl", Class::Name), ("flock", Class::Name), ("given", Class::Keyword), ("index", Class::Name), ("ioctl", Class::Name), ("local", Class::Keyword), ("lstat", Class::Name), ("mkdir", Class::Name), ("print", Class::Keyword), ("reset", Class::Keyword), ("rmdir", Class::Name), ("shift", Class::Name), ("sleep", Class::Name), ("split", Class::Name), ("srand", Class::Name), ("state", Class::Keyword), ("times", Class::Name), ("umask", Class::Name), ("undef", Class::Name), ("untie", Class::Name), ("until", Class::Keyword), ("utime", Class::Name), ("while", Class::Keyword), ("write", Class::Name)];

#[rattlefmt::skip]
static PERL_WORDS_6: [(&str, Class); 24] = [("accept", Class::Name), ("caller", Class::Name), ("chroot", Class::Name), ("delete", Class::Name), ("exists", Class::Name), ("fileno", Class::Name), ("gmtime", Class::Name), ("import", Class::Name), ("length", Class::Name), ("listen", Class::Name), ("printf", Class::Name), ("rename", Class::Name), ("return", Class::Keyword), ("rindex", Class::Name), ("scalar", Class::Name), ("select", Class::Name), ("socket", Class::Name), ("splice", Class::Name), ("substr", Class::Name), ("system", Class::Name), ("unless", Class::Keyword), ("unlink", Class::Name), ("unpack", Class::Name), ("values", Class::Name)];

#[rattlefmt::skip]
static PERL_WORDS_7: [(&str, Class); 18] = [("binmode", Class::Name), ("connect", Class::Name), ("defined", Class::Name), ("foreach", Class::Keyword), ("lcfirst", Class::Name), ("opendir", Class::Name), ("package", Class::Keyword), ("readdir", Class::Name), ("require", Class::Keyword), ("reverse", Class::Name), ("sprintf", Class::Name), ("symlink", Class::Name), ("syscall", Class::Name), ("sysopen", Class::Name), ("sysread", Class::Name), ("ucfirst", Class::Name), ("unshift", Class::Name), ("waitpid", Class::Name)];

#[rattlefmt::skip]
static PERL_WORDS_8: [(&str, Class); 9] = [("closedir", Class::Name), ("continue", Class::Keyword), ("endgrent", Class::Name), ("formline", Class::Name), ("readline", Class::Name), ("readlink", Class::Name), ("readpipe", Class::Name), ("syswrite", Class::Name), ("truncate", Class::Name)];

#[rattlefmt::skip]
static PERL_WORDS_9: [(&str, Class); 5] = [("localtime", Class::Name), ("prototype", Class::Name), ("quotemeta", Class::Name), ("rewinddir", Class::Name), ("wantarray", Class::Name)];

fn lua_words(len: usize) -> &'static [(&'static str, Class)]
    ensures { map word_of result.now ≡ lua_words len }
{
    match len {
        2 => &LUA_WORDS_2,
        3 => &LUA_WORDS_3,
        4 => &LUA_WORDS_4,
        5 => &LUA_WORDS_5,
        6 => &LUA_WORDS_6,
        7 => &LUA_WORDS_7,
        8 => &LUA_WORDS_8,
        10 => &LUA_WORDS_10,
        12 => &LUA_WORDS_12,
        14 => &LUA_WORDS_14,
        _ => &[],
    }
}

#[rattlefmt::skip]
static LUA_WORDS_2: [(&str, Class); 5] = [("_G", Class::Name), ("do", Class::Keyword), ("if", Class::Keyword), ("in", Class::Keyword), ("or", Class::Keyword)];

#[rattlefmt::skip]
static LUA_WORDS_3: [(&str, Class); 5] = [("and", Class::Keyword), ("end", Class::Keyword), ("for", Class::Keyword), ("nil", Class::Name), ("not", Class::Keyword)];

#[rattlefmt::skip]
static LUA_WORDS_4: [(&str, Class); 7] = [("else", Class::Keyword), ("goto", Class::Keyword), ("load", Class::Name), ("next", Class::Name), ("then", Class::Keyword), ("true", Class::Name), ("type", Class::Name)];

#[rattlefmt::skip]
static LUA_WORDS_5: [(&str, Class); 9] = [("break", Class::Keyword), ("error", Class::Name), ("false", Class::Name), ("local", Class::Keyword), ("pairs", Class::Name), ("pcall", Class::Name), ("print", Class::Name), ("until", Class::Keyword), ("while", Class::Keyword)];

#[rattlefmt::skip]
static LUA_WORDS_6: [(&str, Class); 13] = [("assert", Class::Name), ("dofile", Class::Name), ("elseif", Class::Keyword), ("ipairs", Class::Name), ("module", Class::Name), ("rawget", Class::Name), ("rawlen", Class::Name), ("rawset", Class::Name), ("repeat", Class::Keyword), ("return", Class::Keyword), ("select", Class::Name), ("unpack", Class::Name), ("xpcall", Class::Name)];

#[rattlefmt::skip]
static LUA_WORDS_7: [(&str, Class); 3] = [("getfenv", Class::Name), ("require", Class::Name), ("setfenv", Class::Name)];

#[rattlefmt::skip]
static LUA_WORDS_8: [(&str, Class); 6] = [("_VERSION", Class::Name), ("function", Class::Keyword), ("loadfile", Class::Name), ("rawequal", Class::Name), ("tonumber", Class::Name), ("tostring", Class::Name)];

#[rattlefmt::skip]
static LUA_WORDS_10: [(&str, Class); 1] = [("loadstring", Class::Name)];

#[rattlefmt::skip]
static LUA_WORDS_12: [(&str, Class); 2] = [("getmetatable", Class::Name), ("setmetatable", Class::Name)];

#[rattlefmt::skip]
static LUA_WORDS_14: [(&str, Class); 1] = [("collectgarbage", Class::Name)];

fn sql_words(len: usize) -> &'static [(&'static str, Class)]
    ensures { map word_of result.now ≡ sql_words len }
{
    match len {
        2 => &SQL_WORDS_2,
        3 => &SQL_WORDS_3,
        4 => &SQL_WORDS_4,
        5 => &SQL_WORDS_5,
        6 => &SQL_WORDS_6,
        7 => &SQL_WORDS_7,
        8 => &SQL_WORDS_8,
        9 => &SQL_WORDS_9,
        10 => &SQL_WORDS_10,
        11 => &SQL_WORDS_11,
        12 => &SQL_WORDS_12,
        13 => &SQL_WORDS_13,
        14 => &SQL_WORDS_14,
        17 => &SQL_WORDS_17,
        _ => &[],
    }
}

#[rattlefmt::skip]
static SQL_WORDS_2: [(&str, Class); 11] = [("as", Class::Keyword), ("by", Class::Keyword), ("do", Class::Keyword), ("if", Class::Keyword), ("in", Class::Keyword), ("is", Class::Keyword), ("no", Class::Keyword), ("of", Class::Keyword), ("on", Class::Keyword), ("or", Class::Keyword), ("to", Class::Keyword)];

#[rattlefmt::skip]
static SQL_WORDS_3: [(&str, Class); 18] = [("add", Class::Keyword), ("all", Class::Keyword), ("and", Class::Keyword), ("any", Class::Keyword), ("asc", Class::Keyword), ("bit", Class::Name), ("dec", Class::Name), ("end", Class::Keyword), ("for", Class::Keyword), ("int", Class::Name), ("key", Class::Keyword), ("not", Class::Keyword), ("off", Class::Keyword), ("out", Class::Keyword), ("row", Class::Keyword), ("set", Class::Keyword), ("sql", Class::Keyword), ("use", Class::Keyword)];

#[rattlefmt::skip]
static SQL_WORDS_4: [(&str, Class); 45] = [("blob", Class::Name), ("bool", Class::Name), ("both", Class::Keyword), ("case", Class::Keyword), ("cast", Class::Keyword), ("char", Class::Name), ("date", Class::Name), ("desc", Class::Keyword), ("drop", Class::Keyword), ("each", Class::Keyword), ("else", Class::Keyword), ("exec", Class::Keyword), ("exit", Class::Keyword), ("from", Class::Keyword), ("full", Class::Keyword), ("int8", Class::Name), ("into", Class::Keyword), ("join", Class::Keyword), ("json", Class::Name), ("last", Class::Keyword), ("left", Class::Keyword), ("like", Class::Keyword), ("lock", Class::Keyword), ("loop", Class::Keyword), ("next", Class::Keyword), ("null", Class::Keyword), ("only", Class::Keyword), ("over", Class::Keyword), ("read", Class::Keyword), ("real", Class::Name), ("role", Class::Keyword), ("rows", Class::Keyword), ("rule", Class::Keyword), ("show", Class::Keyword), ("temp", Class::Keyword), ("text", Class::Name), ("then", Class::Keyword), ("true", Class::Keyword), ("type", Class::Keyword), ("user", Class::Keyword), ("uuid", Class::Name), ("view", Class::Keyword), ("when", Class::Keyword), ("with", Class::Keyword), ("work", Class::Keyword)];

#[rattlefmt::skip]
static SQL_WORDS_5: [(&str, Class); 37] = [("abort", Class::Keyword), ("after", Class::Keyword), ("alter", Class::Keyword), ("array", Class::Name), ("begin", Class::Keyword), ("check", Class::Keyword), ("close", Class::Keyword), ("cross", Class::Keyword), ("elsif", Class::Keyword), ("false", Class::Keyword), ("fetch", Class::Keyword), ("first", Class::Keyword), ("float", Class::Name), ("grant", Class::Keyword), ("group", Class::Keyword), ("ilike", Class::Keyword), ("index", Class::Keyword), ("inner", Class::Keyword), ("inout", Class::Keyword), ("jsonb", Class::Name), ("limit", Class::Keyword), ("local", Class::Keyword), ("match", Class::Keyword), ("nulls", Class::Keyword), ("order", Class::Keyword), ("outer", Class::Keyword), ("owned", Class::Keyword), ("owner", Class::Keyword), ("raise", Class::Keyword), ("reset", Class::Keyword), ("right", Class::Keyword), ("setof", Class::Keyword), ("start", Class::Keyword), ("table", Class::Keyword), ("using", Class::Keyword), ("where", Class::Keyword), ("write", Class::Keyword)];

#[rattlefmt::skip]
static SQL_WORDS_6: [(&str, Class); 36] = [("action", Class::Keyword), ("before", Class::Keyword), ("bigint", Class::Name), ("binary", Class::Name), ("change", Class::Keyword), ("column", Class::Keyword), ("commit", Class::Keyword), ("create", Class::Keyword), ("cursor", Class::Keyword), ("delete", Class::Keyword), ("engine", Class::Keyword), ("escape", Class::Keyword), ("except", Class::Keyword), ("exists", Class::Keyword), ("filter", Class::Keyword), ("having", Class::Keyword), ("insert", Class::Keyword), ("modify", Class::Keyword), ("notify", Class::Keyword), ("number", Class::Name), ("offset", Class::Keyword), ("public", Class::Keyword), ("rename", Class::Keyword), ("return", Class::Keyword), ("revoke", Class::Keyword), ("schema", Class::Keyword), ("select", Class::Keyword), ("serial", Class::Name), ("stable", Class::Keyword), ("strict", Class::Keyword), ("tables", Class::Keyword), ("unique", Class::Keyword), ("unlock", Class::Keyword), ("update", Class::Keyword), ("values", Class::Keyword), ("window", Class::Keyword)];

#[rattlefmt::skip]
static SQL_WORDS_7: [(&str, Class); 31] = [("analyze", Class::Keyword), ("between", Class::Keyword), ("boolean", Class::Name), ("cascade", Class::Keyword), ("cluster", Class::Keyword), ("collate", Class::Keyword), ("comment", Class::Keyword), ("decimal", Class::Name), ("declare", Class::Keyword), ("default", Class::Keyword), ("definer", Class::Keyword), ("exclude", Class::Keyword), ("execute", Class::Keyword), ("explain", Class::Keyword), ("foreign", Class::Keyword), ("instead", Class::Keyword), ("integer", Class::Name), ("natural", Class::Keyword), ("nothing", Class::Keyword), ("numeric", Class::Name), ("partial", Class::Keyword), ("perform", Class::Keyword), ("plpgsql", Class::Keyword), ("prepare", Class::Keyword), ("primary", Class::Keyword), ("replace", Class::Keyword), ("returns", Class::Keyword), ("session", Class::Keyword), ("trigger", Class::Keyword), ("varchar", Class::Name), ("varying", Class::Name)];

#[rattlefmt::skip]
static SQL_WORDS_8: [(&str, Class); 19] = [("absolute", Class::Keyword), ("coalesce", Class::Keyword), ("database", Class::Keyword), ("distinct", Class::Keyword), ("external", Class::Keyword), ("function", Class::Keyword), ("inherits", Class::Keyword), ("interval", Class::Name), ("language", Class::Keyword), ("operator", Class::Keyword), ("restrict", Class::Keyword), ("rollback", Class::Keyword), ("security", Class::Keyword), ("sequence", Class::Keyword), ("smallint", Class::Name), ("trailing", Class::Keyword), ("truncate", Class::Keyword), ("unsigned", Class::Keyword), ("volatile", Class::Keyword)];

#[rattlefmt::skip]
static SQL_WORDS_9: [(&str, Class); 16] = [("assertion", Class::Keyword), ("bigserial", Class::Name), ("character", Class::Name), ("databases", Class::Keyword), ("extension", Class::Keyword), ("immediate", Class::Keyword), ("immutable", Class::Keyword), ("intersect", Class::Keyword), ("isolation", Class::Keyword), ("partition", Class::Keyword), ("procedure", Class::Keyword), ("recursive", Class::Keyword), ("returning", Class::Keyword), ("savepoint", Class::Keyword), ("temporary", Class::Keyword), ("timestamp", Class::Name)];

#[rattlefmt::skip]
static SQL_WORDS_10: [(&str, Class); 4] = [("constraint", Class::Keyword), ("deferrable", Class::Keyword), ("privileges", Class::Keyword), ("references", Class::Keyword)];

#[rattlefmt::skip]
static SQL_WORDS_11: [(&str, Class); 2] = [("timestamptz", Class::Name), ("transaction", Class::Keyword)];

#[rattlefmt::skip]
static SQL_WORDS_12: [(&str, Class); 2] = [("current_date", Class::Keyword), ("current_user", Class::Keyword)];

#[rattlefmt::skip]
static SQL_WORDS_13: [(&str, Class); 2] = [("authorization", Class::Keyword), ("autoincrement", Class::Keyword)];

#[rattlefmt::skip]
static SQL_WORDS_14: [(&str, Class); 1] = [("auto_increment", Class::Keyword)];

#[rattlefmt::skip]
static SQL_WORDS_17: [(&str, Class); 1] = [("current_timestamp", Class::Keyword)];

fn make_words(len: usize) -> &'static [(&'static str, Class)]
    ensures { map word_of result.now ≡ make_words len }
{
    match len {
        4 => &MAKE_WORDS_4,
        5 => &MAKE_WORDS_5,
        6 => &MAKE_WORDS_6,
        7 => &MAKE_WORDS_7,
        8 => &MAKE_WORDS_8,
        _ => &[],
    }
}

#[rattlefmt::skip]
static MAKE_WORDS_4: [(&str, Class); 2] = [("else", Class::Keyword), ("ifeq", Class::Keyword)];

#[rattlefmt::skip]
static MAKE_WORDS_5: [(&str, Class); 5] = [("endef", Class::Keyword), ("endif", Class::Keyword), ("ifdef", Class::Keyword), ("ifneq", Class::Keyword), ("vpath", Class::Keyword)];

#[rattlefmt::skip]
static MAKE_WORDS_6: [(&str, Class); 3] = [("define", Class::Keyword), ("export", Class::Keyword), ("ifndef", Class::Keyword)];

#[rattlefmt::skip]
static MAKE_WORDS_7: [(&str, Class); 1] = [("include", Class::Keyword)];

#[rattlefmt::skip]
static MAKE_WORDS_8: [(&str, Class); 3] = [("override", Class::Keyword), ("sinclude", Class::Keyword), ("unexport", Class::Keyword)];

fn make_words21(len: usize) -> &'static [(&'static str, Class)]
    ensures { map word_of result.now ≡ make_words21 len }
{
    match len {
        2 => &MAKE_WORDS21_2,
        3 => &MAKE_WORDS21_3,
        4 => &MAKE_WORDS21_4,
        5 => &MAKE_WORDS21_5,
        6 => &MAKE_WORDS21_6,
        7 => &MAKE_WORDS21_7,
        8 => &MAKE_WORDS21_8,
        9 => &MAKE_WORDS21_9,
        10 => &MAKE_WORDS21_10,
        _ => &[],
    }
}

#[rattlefmt::skip]
static MAKE_WORDS21_2: [(&str, Class); 2] = [("if", Class::Keyword), ("or", Class::Keyword)];

#[rattlefmt::skip]
static MAKE_WORDS21_3: [(&str, Class); 2] = [("and", Class::Keyword), ("dir", Class::Keyword)];

#[rattlefmt::skip]
static MAKE_WORDS21_4: [(&str, Class); 7] = [("call", Class::Keyword), ("eval", Class::Keyword), ("file", Class::Keyword), ("info", Class::Keyword), ("join", Class::Keyword), ("sort", Class::Keyword), ("word", Class::Keyword)];

#[rattlefmt::skip]
static MAKE_WORDS21_5: [(&str, Class); 6] = [("error", Class::Keyword), ("shell", Class::Keyword), ("strip", Class::Keyword), ("subst", Class::Keyword), ("value", Class::Keyword), ("words", Class::Keyword)];

#[rattlefmt::skip]
static MAKE_WORDS21_6: [(&str, Class); 5] = [("filter", Class::Keyword), ("flavor", Class::Keyword), ("notdir", Class::Keyword), ("origin", Class::Keyword), ("suffix", Class::Keyword)];

#[rattlefmt::skip]
static MAKE_WORDS21_7: [(&str, Class); 3] = [("abspath", Class::Keyword), ("foreach", Class::Keyword), ("warning", Class::Keyword)];

#[rattlefmt::skip]
static MAKE_WORDS21_8: [(&str, Class); 6] = [("basename", Class::Keyword), ("lastword", Class::Keyword), ("patsubst", Class::Keyword), ("realpath", Class::Keyword), ("wildcard", Class::Keyword), ("wordlist", Class::Keyword)];

#[rattlefmt::skip]
static MAKE_WORDS21_9: [(&str, Class); 3] = [("addprefix", Class::Keyword), ("addsuffix", Class::Keyword), ("firstword", Class::Keyword)];

#[rattlefmt::skip]
static MAKE_WORDS21_10: [(&str, Class); 2] = [("filter-out", Class::Keyword), ("findstring", Class::Keyword)];

fn cmake_words(len: usize) -> &'static [(&'static str, Class)]
    ensures { map word_of result.now ≡ cmake_words len }
{
    match len {
        4 => &CMAKE_WORDS_4,
        5 => &CMAKE_WORDS_5,
        6 => &CMAKE_WORDS_6,
        7 => &CMAKE_WORDS_7,
        8 => &CMAKE_WORDS_8,
        _ => &[],
    }
}

#[rattlefmt::skip]
static CMAKE_WORDS_4: [(&str, Class); 2] = [("MSVC", Class::Keyword), ("UNIX", Class::Keyword)];

#[rattlefmt::skip]
static CMAKE_WORDS_5: [(&str, Class); 3] = [("APPLE", Class::Keyword), ("MINGW", Class::Keyword), ("WIN32", Class::Keyword)];

#[rattlefmt::skip]
static CMAKE_WORDS_6: [(&str, Class); 6] = [("CYGWIN", Class::Keyword), ("MSVC60", Class::Keyword), ("MSVC70", Class::Keyword), ("MSVC71", Class::Keyword), ("MSVC80", Class::Keyword), ("MSVC90", Class::Keyword)];

#[rattlefmt::skip]
static CMAKE_WORDS_7: [(&str, Class); 1] = [("BORLAND", Class::Keyword)];

#[rattlefmt::skip]
static CMAKE_WORDS_8: [(&str, Class); 1] = [("MSVC_IDE", Class::Keyword)];

fn lisp_words(len: usize) -> &'static [(&'static str, Class)]
    ensures { map word_of result.now ≡ lisp_words len }
{
    match len {
        1 => &LISP_WORDS_1,
        2 => &LISP_WORDS_2,
        3 => &LISP_WORDS_3,
        4 => &LISP_WORDS_4,
        5 => &LISP_WORDS_5,
        6 => &LISP_WORDS_6,
        7 => &LISP_WORDS_7,
        8 => &LISP_WORDS_8,
        9 => &LISP_WORDS_9,
        10 => &LISP_WORDS_10,
        11 => &LISP_WORDS_11,
        12 => &LISP_WORDS_12,
        13 => &LISP_WORDS_13,
        14 => &LISP_WORDS_14,
        15 => &LISP_WORDS_15,
        16 => &LISP_WORDS_16,
        17 => &LISP_WORDS_17,
        19 => &LISP_WORDS_19,
        _ => &[],
    }
}

#[rattlefmt::skip]
static LISP_WORDS_1: [(&str, Class); 1] = [("t", Class::Name)];

#[rattlefmt::skip]
static LISP_WORDS_2: [(&str, Class); 5] = [("do", Class::Keyword), ("fn", Class::Keyword), ("if", Class::Keyword), ("ns", Class::Keyword), ("or", Class::Keyword)];

#[rattlefmt::skip]
static LISP_WORDS_3: [(&str, Class); 4] = [("and", Class::Keyword), ("def", Class::Keyword), ("let", Class::Keyword), ("nil", Class::Name)];

#[rattlefmt::skip]
static LISP_WORDS_4: [(&str, Class); 11] = [("case", Class::Keyword), ("cond", Class::Keyword), ("defn", Class::Keyword), ("else", Class::Keyword), ("flet", Class::Keyword), ("let*", Class::Keyword), ("loop", Class::Keyword), ("set!", Class::Keyword), ("setf", Class::Keyword), ("setq", Class::Keyword), ("when", Class::Keyword)];

#[rattlefmt::skip]
static LISP_WORDS_5: [(&str, Class); 9] = [("begin", Class::Keyword), ("catch", Class::Keyword), ("defun", Class::Keyword), ("pcase", Class::Keyword), ("prog1", Class::Keyword), ("prog2", Class::Keyword), ("progn", Class::Keyword), ("quote", Class::Keyword), ("while", Class::Keyword)];

#[rattlefmt::skip]
static LISP_WORDS_6: [(&str, Class); 8] = [("define", Class::Keyword), ("defvar", Class::Keyword), ("dolist", Class::Keyword), ("if-let", Class::Keyword), ("labels", Class::Keyword), ("lambda", Class::Keyword), ("letrec", Class::Keyword), ("unless", Class::Keyword)];

#[rattlefmt::skip]
static LISP_WORDS_7: [(&str, Class); 9] = [("cl-case", Class::Keyword), ("cl-flet", Class::Keyword), ("cl-loop", Class::Keyword), ("declare", Class::Keyword), ("defface", Class::Keyword), ("deftype", Class::Keyword), ("dotimes", Class::Keyword), ("provide", Class::Keyword), ("require", Class::Keyword)];

#[rattlefmt::skip]
static LISP_WORDS_8: [(&str, Class); 8] = [("cl-defun", Class::Keyword), ("defalias", Class::Keyword), ("defclass", Class::Keyword), ("defconst", Class::Keyword), ("defgroup", Class::Keyword), ("defmacro", Class::Keyword), ("defsubst", Class::Keyword), ("when-let", Class::Keyword)];

#[rattlefmt::skip]
static LISP_WORDS_9: [(&str, Class); 4] = [("cl-labels", Class::Keyword), ("defcustom", Class::Keyword), ("defmethod", Class::Keyword), ("defstruct", Class::Keyword)];

#[rattlefmt::skip]
static LISP_WORDS_10: [(&str, Class); 4] = [("defgeneric", Class::Keyword), ("defpackage", Class::Keyword), ("in-package", Class::Keyword), ("setq-local", Class::Keyword)];

#[rattlefmt::skip]
static LISP_WORDS_11: [(&str, Class); 2] = [("cl-defmacro", Class::Keyword), ("interactive", Class::Keyword)];

#[rattlefmt::skip]
static LISP_WORDS_12: [(&str, Class); 1] = [("defvar-local", Class::Keyword)];

#[rattlefmt::skip]
static LISP_WORDS_13: [(&str, Class); 2] = [("defvar-keymap", Class::Keyword), ("ignore-errors", Class::Keyword)];

#[rattlefmt::skip]
static LISP_WORDS_14: [(&str, Class); 3] = [("condition-case", Class::Keyword), ("save-excursion", Class::Keyword), ("unwind-protect", Class::Keyword)];

#[rattlefmt::skip]
static LISP_WORDS_15: [(&str, Class); 1] = [("save-match-data", Class::Keyword)];

#[rattlefmt::skip]
static LISP_WORDS_16: [(&str, Class); 2] = [("save-restriction", Class::Keyword), ("with-temp-buffer", Class::Keyword)];

#[rattlefmt::skip]
static LISP_WORDS_17: [(&str, Class); 2] = [("define-minor-mode", Class::Keyword), ("eval-when-compile", Class::Keyword)];

#[rattlefmt::skip]
static LISP_WORDS_19: [(&str, Class); 2] = [("define-derived-mode", Class::Keyword), ("with-current-buffer", Class::Keyword)];

fn haskell_words(len: usize) -> &'static [(&'static str, Class)]
    ensures { map word_of result.now ≡ haskell_words len }
{
    match len {
        2 => &HASKELL_WORDS_2,
        3 => &HASKELL_WORDS_3,
        4 => &HASKELL_WORDS_4,
        5 => &HASKELL_WORDS_5,
        6 => &HASKELL_WORDS_6,
        7 => &HASKELL_WORDS_7,
        8 => &HASKELL_WORDS_8,
        9 => &HASKELL_WORDS_9,
        _ => &[],
    }
}

#[rattlefmt::skip]
static HASKELL_WORDS_2: [(&str, Class); 5] = [("as", Class::Keyword), ("do", Class::Keyword), ("if", Class::Keyword), ("in", Class::Keyword), ("of", Class::Keyword)];

#[rattlefmt::skip]
static HASKELL_WORDS_3: [(&str, Class); 2] = [("let", Class::Keyword), ("mdo", Class::Keyword)];

#[rattlefmt::skip]
static HASKELL_WORDS_4: [(&str, Class); 5] = [("case", Class::Keyword), ("data", Class::Keyword), ("else", Class::Keyword), ("then", Class::Keyword), ("type", Class::Keyword)];

#[rattlefmt::skip]
static HASKELL_WORDS_5: [(&str, Class); 3] = [("class", Class::Keyword), ("infix", Class::Keyword), ("where", Class::Keyword)];

#[rattlefmt::skip]
static HASKELL_WORDS_6: [(&str, Class); 7] = [("family", Class::Keyword), ("forall", Class::Keyword), ("hiding", Class::Keyword), ("import", Class::Keyword), ("infixl", Class::Keyword), ("infixr", Class::Keyword), ("module", Class::Keyword)];

#[rattlefmt::skip]
static HASKELL_WORDS_7: [(&str, Class); 4] = [("default", Class::Keyword), ("foreign", Class::Keyword), ("newtype", Class::Keyword), ("pattern", Class::Keyword)];

#[rattlefmt::skip]
static HASKELL_WORDS_8: [(&str, Class); 2] = [("deriving", Class::Keyword), ("instance", Class::Keyword)];

#[rattlefmt::skip]
static HASKELL_WORDS_9: [(&str, Class); 1] = [("qualified", Class::Keyword)];
