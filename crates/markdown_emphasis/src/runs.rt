//! Runs of marks, and whether two fit.

ghost use Rattle.std.specs.Prelude.{◌≡◌};
ghost use Rattle.markdown_emphasis.specs.Matching.{fits, lengths_fit, taken, add_up_to_threes, is_same_sign};

/// The mark that a run repeats.
#[derive(Clone, Copy)]
pub enum Sign {
    Star,
    Underscore,
    Tilde,
}

/// A run of one mark.
#[derive(Clone, Copy)]
pub struct Run {
    pub sign: Sign,
    /// How many marks it has.
    pub count: usize,
    /// Whether it can open.
    pub opens: bool,
    /// Whether it can close.
    pub closes: bool,
}

/// What is left of a run.
#[derive(Clone, Copy)]
pub struct Mark {
    /// The index of the run.
    pub place: usize,
    pub run: Run,
    /// How many of its marks no pair has taken.
    pub left: usize,
}

/// Two runs that match.
#[derive(Clone, Copy)]
pub struct Pair {
    /// The index of the run that opens.
    pub opener: usize,
    /// The index of the run that closes.
    pub closer: usize,
    /// The mark of both.
    pub sign: Sign,
    /// How many marks of each it takes: one or two.
    pub count: usize,
}

// Whether two runs are of the same mark.
fn is_same_sign(a: Sign, b: Sign) -> bool
    ensures { result ≡ is_same_sign a b }
{
    match (a, b) {
        (Sign::Star, Sign::Star) => true,
        (Sign::Underscore, Sign::Underscore) => true,
        (Sign::Tilde, Sign::Tilde) => true,
        _ => false,
    }
}

// Whether two lengths add up to a multiple of three, and aren't multiples of three themselves.
fn add_up_to_threes(a: usize, b: usize) -> bool
    ensures { result ≡ add_up_to_threes a b }
{
    let rest = a % 3;
    let other = b % 3;
    (rest + other) % 3 == 0 && !(rest == 0 && other == 0)
}

// Whether the lengths of two runs allow a pair.
fn lengths_fit(opener: &Run, closer: &Run) -> bool
    ensures { result ≡ lengths_fit closer.now.sign opener.now closer.now }
{
    match closer.sign {
        Sign::Tilde => opener.count == closer.count && closer.count <= 2,
        _ => !((opener.closes || closer.opens) && add_up_to_threes(opener.count, closer.count)),
    }
}

/// Whether a run can be closed by a later one.
pub(crate) fn fits(opener: &Run, closer: &Run) -> bool
    ensures { result ≡ fits opener.now closer.now }
{
    is_same_sign(opener.sign, closer.sign)
        && opener.opens
        && closer.closes
        && lengths_fit(opener, closer)
}

/// How many marks a pair takes of each of its runs.
pub(crate) fn taken(opener: &Mark, closer: &Mark) -> usize
    ensures { result ≡ taken opener.now closer.now }
{
    match closer.run.sign {
        Sign::Tilde => closer.left,
        _ if opener.left >= 2 && closer.left >= 2 => 2,
        _ => 1,
    }
}
