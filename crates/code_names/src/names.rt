//! The names of languages, and the language that is named behind a fence.

ghost use Rattle.std.specs.Prelude.{◌≡◌, map};
ghost use Rattle.code_names.specs.Names.{ends_word, is_before_word, language_names, language_of, name_of, named_by, word_onward};

use code_tables::rules::Language;

/// The language that is named behind a fence, if one is: by the first word, up to a blank or one of `,{}:;`. Braces, periods and blanks in front of it
/// don't count, and capital letters are as small ones.
pub fn language_of(info: &[u8]) -> Option<Language>
    ensures { result ≡ language_of info.now }
{
    let word = word_onward(info);
    let mut rest = names();
    while let [row, next @ ..] = rest {
        if is_named_by(row.0.as_bytes(), word) {
            return Some(row.1);
        }
        rest = next;
    }
    None
}

// What stands behind a fence, from its first word on.
fn word_onward(info: &[u8]) -> &[u8]
    ensures { result.now ≡ word_onward info.now }
{
    let mut rest = info;
    while let [b, next @ ..] = rest {
        if !is_before_word(*b) {
            return rest;
        }
        rest = next;
    }
    rest
}

// Whether a byte stands in front of the first word.
fn is_before_word(b: u8) -> bool
    ensures { result ≡ is_before_word b }
{
    b == b' ' || b == b'\t' || b == b'{' || b == b'}' || b == b'.'
}

// Whether a byte ends a word.
fn ends_word(b: u8) -> bool
    ensures { result ≡ ends_word b }
{
    b == b' ' || b == b'\t' || b == b',' || b == b'{' || b == b'}' || b == b':' || b == b';'
}

// Whether the first word is this name.
fn is_named_by(name: &[u8], word: &[u8]) -> bool
    ensures { result ≡ named_by name.now word.now }
{
    let mut left = name;
    let mut rest = word;
    while let [a, more @ ..] = left {
        let [b, next @ ..] = rest else {
            return false;
        };
        if *a != b.to_ascii_lowercase() {
            return false;
        }
        left = more;
        rest = next;
    }
    match rest {
        [] => true,
        [b, ..] => ends_word(*b),
    }
}

// All names, each with its language.
#[tactic(auto, unfolding(crate::specs::Names::language_names))]
fn names() -> &'static [(&'static str, Language)]
    ensures { map name_of result.now ≡ language_names }
{
    &NAMES
}

static NAMES: [(&str, Language); 133] = [
    ("sh", Language::Sh),
    ("bash", Language::Sh),
    ("shell", Language::Sh),
    ("zsh", Language::Sh),
    ("ksh", Language::Sh),
    ("shell-script", Language::Sh),
    ("console", Language::Console),
    ("shell-session", Language::Console),
    ("shellsession", Language::Console),
    ("sh-session", Language::Console),
    ("bash-session", Language::Console),
    ("terminal", Language::Console),
    ("python", Language::Python),
    ("py", Language::Python),
    ("python3", Language::Python),
    ("py3", Language::Python),
    ("pyi", Language::Python),
    ("pycon", Language::Pycon),
    ("python-console", Language::Pycon),
    ("rust", Language::Rust),
    ("rs", Language::Rust),
    ("no_run", Language::Rust),
    ("compile_fail", Language::Rust),
    ("should_panic", Language::Rust),
    ("ignore", Language::Rust),
    ("notrust", Language::Rust),
    ("edition2018", Language::Rust),
    ("edition2021", Language::Rust),
    ("javascript", Language::Javascript),
    ("js", Language::Javascript),
    ("node", Language::Javascript),
    ("jsx", Language::Javascript),
    ("mjs", Language::Javascript),
    ("cjs", Language::Javascript),
    ("typescript", Language::Typescript),
    ("ts", Language::Typescript),
    ("tsx", Language::Typescript),
    ("mts", Language::Typescript),
    ("cts", Language::Typescript),
    ("json", Language::Json),
    ("json5", Language::Json),
    ("jsonc", Language::Json),
    ("geojson", Language::Json),
    ("yaml", Language::Yaml),
    ("yml", Language::Yaml),
    ("toml", Language::Toml),
    ("ini", Language::Ini),
    ("cfg", Language::Ini),
    ("conf", Language::Ini),
    ("properties", Language::Ini),
    ("dosini", Language::Ini),
    ("editorconfig", Language::Ini),
    ("desktop", Language::Ini),
    ("systemd", Language::Ini),
    ("diff", Language::Diff),
    ("patch", Language::Diff),
    ("udiff", Language::Diff),
    ("xml", Language::Xml),
    ("svg", Language::Xml),
    ("xsd", Language::Xml),
    ("xsl", Language::Xml),
    ("rss", Language::Xml),
    ("plist", Language::Xml),
    ("html", Language::Html),
    ("htm", Language::Html),
    ("xhtml", Language::Html),
    ("vue", Language::Html),
    ("svelte", Language::Html),
    ("css", Language::Css),
    ("scss", Language::Css),
    ("less", Language::Css),
    ("sass", Language::Css),
    ("c", Language::C),
    ("h", Language::C),
    ("cpp", Language::Cpp),
    ("c++", Language::Cpp),
    ("cc", Language::Cpp),
    ("cxx", Language::Cpp),
    ("hpp", Language::Cpp),
    ("hxx", Language::Cpp),
    ("h++", Language::Cpp),
    ("arduino", Language::Cpp),
    ("java", Language::Java),
    ("csharp", Language::Csharp),
    ("cs", Language::Csharp),
    ("c#", Language::Csharp),
    ("kotlin", Language::Kotlin),
    ("kt", Language::Kotlin),
    ("kts", Language::Kotlin),
    ("swift", Language::Swift),
    ("go", Language::Go),
    ("golang", Language::Go),
    ("protobuf", Language::Protobuf),
    ("proto", Language::Protobuf),
    ("php", Language::Php),
    ("php3", Language::Php),
    ("php5", Language::Php),
    ("phtml", Language::Php),
    ("ruby", Language::Ruby),
    ("rb", Language::Ruby),
    ("rake", Language::Ruby),
    ("gemfile", Language::Ruby),
    ("perl", Language::Perl),
    ("pl", Language::Perl),
    ("pm", Language::Perl),
    ("lua", Language::Lua),
    ("sql", Language::Sql),
    ("mysql", Language::Sql),
    ("postgresql", Language::Sql),
    ("postgres", Language::Sql),
    ("plpgsql", Language::Sql),
    ("sqlite", Language::Sql),
    ("psql", Language::Sql),
    ("make", Language::Make),
    ("makefile", Language::Make),
    ("mk", Language::Make),
    ("mf", Language::Make),
    ("dockerfile", Language::Dockerfile),
    ("docker", Language::Dockerfile),
    ("containerfile", Language::Dockerfile),
    ("cmake", Language::Cmake),
    ("lisp", Language::Lisp),
    ("elisp", Language::Lisp),
    ("emacs-lisp", Language::Lisp),
    ("el", Language::Lisp),
    ("scheme", Language::Lisp),
    ("common-lisp", Language::Lisp),
    ("cl", Language::Lisp),
    ("racket", Language::Lisp),
    ("clojure", Language::Lisp),
    ("clj", Language::Lisp),
    ("haskell", Language::Haskell),
    ("hs", Language::Haskell),
];
