//! The word that a line begins with.

ghost use Rattle.std.specs.Prelude.{◌≡◌};
ghost use Rattle.vault_lines.specs.Keywords.{keyword_in, keyword_text};

/// The word that a line begins with.
#[derive(Clone, Copy, Debug, PartialEq, Eq)]
pub(crate) enum Keyword {
    Hello,
    Make,
    Nest,
    CheckOut,
    Extend,
    Save,
    CheckIn,
    Abandon,
    Hold,
    Release,
    State,
    List,
    Fetch,
    Count,
    Give,
    Note,
    Show,
    Claims,
    Drafts,
    Draft,
    Wait,
    Quit,
}

impl Keyword {
    /// Every keyword.
    const ALL: [Keyword; 22] = [
        Keyword::Hello,
        Keyword::Make,
        Keyword::Nest,
        Keyword::CheckOut,
        Keyword::Extend,
        Keyword::Save,
        Keyword::CheckIn,
        Keyword::Abandon,
        Keyword::Hold,
        Keyword::Release,
        Keyword::State,
        Keyword::List,
        Keyword::Fetch,
        Keyword::Count,
        Keyword::Give,
        Keyword::Note,
        Keyword::Show,
        Keyword::Claims,
        Keyword::Drafts,
        Keyword::Draft,
        Keyword::Wait,
        Keyword::Quit,
    ];

    /// How it is spelled.
    fn text(self) -> &'static [u8]
        ensures { result.now ≡ keyword_text self }
    {
        match self {
            Keyword::Hello => b"hello",
            Keyword::Make => b"make",
            Keyword::Nest => b"nest",
            Keyword::CheckOut => b"checkout",
            Keyword::Extend => b"extend",
            Keyword::Save => b"save",
            Keyword::CheckIn => b"checkin",
            Keyword::Abandon => b"abandon",
            Keyword::Hold => b"hold",
            Keyword::Release => b"release",
            Keyword::State => b"state",
            Keyword::List => b"list",
            Keyword::Fetch => b"fetch",
            Keyword::Count => b"count",
            Keyword::Give => b"give",
            Keyword::Note => b"note",
            Keyword::Show => b"show",
            Keyword::Claims => b"claims",
            Keyword::Drafts => b"drafts",
            Keyword::Draft => b"draft",
            Keyword::Wait => b"wait",
            Keyword::Quit => b"quit",
        }
    }

    /// The keyword that this word is, if any.
    pub(crate) fn read(word: &[u8]) -> Option<Keyword>
        ensures { result ≡ keyword_in word.now }
    {
        Keyword::ALL
            .iter()
            .copied()
            .find(|keyword| keyword.text() == word)
    }
}
