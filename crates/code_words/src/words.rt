//! The word that names the language of a file.

ghost use Rattle.std.specs.Prelude.{◌≡◌, map, option_map};
ghost use Rattle.std.specs.Char.{is_ascii_alphanumeric};
ghost use Rattle.std.specs.List.{list_all};
ghost use Rattle.std.specs.Str.{str_eq_ignore_ascii_case};
ghost use Rattle.code_words.specs.Words.{behind_last, ending_or, file_names, file_of, is_language, language_word, names_language, word_among};

use code_names::language_of;

/// The word of a fence for the language of a file. A word that names a language stays as it is.
///
/// The word may be the name of a file, with its folders or without: `main.rs`, `Makefile`, `src/Cargo.toml`, `.bashrc`. What stands behind its last
/// period then names the language, or a table of names does. Capital letters are as small ones.
pub fn language_word(word: &str) -> &[u8]
    ensures { result.now ≡ language_word word.entry.now }
{
    let name = behind_last(b'/', word.as_bytes());
    if let Some(found) = file_word(name) {
        return found;
    }
    if let Some(found) = file_word(behind_last(b'.', name)) {
        return found;
    }
    ending_or(word.as_bytes())
}

/// Whether a file is in a language by its name: that is known, or how it ends is, or this is a name of a language, of letters and digits alone.
pub fn names_language(name: &str) -> bool
    ensures { result ≡ names_language name.now }
{
    let name = behind_last(b'/', name.as_bytes());
    let ending = behind_last(b'.', name);
    file_word(name).is_some() || file_word(ending).is_some() || is_language(ending)
}

// Whether letters and digits are a name of a language.
fn is_language(word: &[u8]) -> bool
    ensures { result ≡ is_language word.now }
{
    are_alphanumeric(word) && language_of(word).is_some()
}

// Whether all bytes are letters and digits.
fn are_alphanumeric(bytes: &[u8]) -> bool
    ensures { result ≡ list_all is_ascii_alphanumeric bytes.now }
{
    bytes.iter().all(|byte| byte.is_ascii_alphanumeric())
}

// How the name ends, if that names a language, and else the word itself.
fn ending_or(word: &[u8]) -> &[u8]
    ensures { result.now ≡ ending_or word.entry.now }
{
    let ending = behind_last(b'.', behind_last(b'/', word));
    if language_of(ending).is_some() {
        return ending;
    }
    word
}

// What stands behind the last of these bytes, or all.
fn behind_last(byte: u8, bytes: &[u8]) -> &[u8]
    ensures { result.now ≡ behind_last byte bytes.entry.now }
{
    let mut found = bytes;
    let mut rest = bytes;
    while let [b, next @ ..] = rest {
        rest = next;
        if *b == byte {
            found = next;
        }
    }
    found
}

// The language's name for a file of this name.
fn file_word(name: &[u8]) -> Option<&'static [u8]>
    ensures { option_map (λ word. word.now) result ≡ word_among file_names name.now }
{
    let mut rest = file_names();
    while let [row, next @ ..] = rest {
        if is_same_name(row.0.as_bytes(), name) {
            return Some(row.1.as_bytes());
        }
        rest = next;
    }
    None
}

// Whether two names are the same, in small or in capital letters.
fn is_same_name(a: &[u8], b: &[u8]) -> bool
    ensures { result ≡ str_eq_ignore_ascii_case a.now b.now }
{
    a.eq_ignore_ascii_case(b)
}

// The files whose names say their language otherwise than by a name of it.
#[tactic(auto, unfolding(crate::specs::Words::file_names))]
fn file_names() -> &'static [(&'static str, &'static str)]
    ensures { map file_of result.now ≡ file_names }
{
    &FILE_NAMES
}

static FILE_NAMES: [(&str, &str); 82] = [
    ("bashrc", "sh"),
    ("bash_profile", "sh"),
    ("bash_aliases", "sh"),
    ("bash_logout", "sh"),
    ("profile", "sh"),
    ("zshrc", "sh"),
    ("zshenv", "sh"),
    ("zprofile", "sh"),
    ("zlogin", "sh"),
    ("kshrc", "sh"),
    ("pkgbuild", "sh"),
    ("apkbuild", "sh"),
    ("ebuild", "sh"),
    ("bats", "sh"),
    ("pyw", "python"),
    ("bzl", "python"),
    ("sconstruct", "python"),
    ("sconscript", "python"),
    ("wscript", "python"),
    ("jsm", "javascript"),
    ("jsonl", "json"),
    ("ndjson", "json"),
    ("webmanifest", "json"),
    ("ipynb", "json"),
    ("babelrc", "json"),
    ("composer.lock", "json"),
    ("pipfile.lock", "json"),
    ("flake.lock", "json"),
    ("clang-format", "yaml"),
    ("clang-tidy", "yaml"),
    ("cargo.lock", "toml"),
    ("poetry.lock", "toml"),
    ("pipfile", "toml"),
    ("gitconfig", "ini"),
    ("gitmodules", "ini"),
    ("npmrc", "ini"),
    ("service", "ini"),
    ("socket", "ini"),
    ("timer", "ini"),
    ("rej", "diff"),
    ("xslt", "xml"),
    ("wsdl", "xml"),
    ("rdf", "xml"),
    ("atom", "xml"),
    ("opml", "xml"),
    ("gpx", "xml"),
    ("kml", "xml"),
    ("csproj", "xml"),
    ("xaml", "xml"),
    ("shtml", "html"),
    ("hh", "cpp"),
    ("ipp", "cpp"),
    ("tpp", "cpp"),
    ("ino", "cpp"),
    ("csx", "csharp"),
    ("php4", "php"),
    ("php7", "php"),
    ("php8", "php"),
    ("rakefile", "ruby"),
    ("gemspec", "ruby"),
    ("podfile", "ruby"),
    ("podspec", "ruby"),
    ("vagrantfile", "ruby"),
    ("brewfile", "ruby"),
    ("ru", "ruby"),
    ("psgi", "perl"),
    ("cpanfile", "perl"),
    ("rockspec", "lua"),
    ("gnumakefile", "make"),
    ("bsdmakefile", "make"),
    ("mak", "make"),
    ("am", "make"),
    ("cmakelists.txt", "cmake"),
    ("lsp", "lisp"),
    ("asd", "lisp"),
    ("scm", "lisp"),
    ("ss", "lisp"),
    ("rkt", "lisp"),
    ("cljs", "lisp"),
    ("cljc", "lisp"),
    ("edn", "lisp"),
    ("emacs", "lisp"),
];
