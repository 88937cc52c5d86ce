//! Tokens of a line.

ghost use Rattle.std.specs.Prelude.{◌≡◌};
ghost use Rattle.iso_grammar.specs.Kinds.{number_of, same_kind};

/// The kind of a token: a word of the grammar, a class of tokens, or a symbol.
#[derive(Clone, Copy, Debug, PartialEq, Eq)]
pub enum Kind {
    And,
    Begin,
    Between,
    Bigint,
    Commit,
    Config,
    Connect,
    Count,
    Cs,
    CurCommit,
    Current,
    Cursors,
    Db2iso,
    Delete,
    Disabled,
    End,
    Exclusive,
    Expire,
    From,
    In,
    Index,
    Insert,
    IntegerWord,
    Into,
    Is,
    Isolation,
    Lock,
    Locklist,
    Logmax,
    Maxlocks,
    Mode,
    Not,
    Null,
    On,
    Or,
    Reset,
    Retain,
    Rollback,
    Row,
    Rr,
    Rs,
    Savepoint,
    Select,
    Set,
    Share,
    Snapshot,
    Table,
    Timeout,
    To,
    Unique,
    Update,
    Ur,
    Values,
    Varchar,
    Wait,
    Where,
    Window,
    With,
    Work,
    /// The integer 1.
    One,
    /// Any other integer.
    Integer,
    /// A word that is none of the grammar's.
    Name,
    /// A text in quotes.
    Text,
    Open,
    Close,
    Comma,
    Colon,
    Semicolon,
    Ampersand,
    Star,
    Equal,
    NotEqual,
    Less,
    LessEqual,
    Greater,
    GreaterEqual,
    Plus,
    Minus,
    /// What stands in no line: a byte that begins no token, or the quote of a text that does not end.
    Other,
}

/// A token: its kind, and the places of its first and last byte in the line, from 1.
#[derive(Clone, Copy, Debug, PartialEq, Eq)]
pub struct Token {
    pub kind: Kind,
    pub start: u32,
    pub end: u32,
}

fn number(kind: Kind) -> u8
    ensures { result ≡ number_of kind }
{
    kind as u8
}

/// Whether both are the same kind.
pub fn same(a: Kind, b: Kind) -> bool
    ensures { result ≡ same_kind a b }
{
    number(a) == number(b)
}

/// The words of the grammar, in small letters.
pub const KEYWORDS: [(&[u8], Kind); 59] = [
    (b"and", Kind::And),
    (b"begin", Kind::Begin),
    (b"between", Kind::Between),
    (b"bigint", Kind::Bigint),
    (b"commit", Kind::Commit),
    (b"config", Kind::Config),
    (b"connect", Kind::Connect),
    (b"count", Kind::Count),
    (b"cs", Kind::Cs),
    (b"cur_commit", Kind::CurCommit),
    (b"current", Kind::Current),
    (b"cursors", Kind::Cursors),
    (b"db2iso", Kind::Db2iso),
    (b"delete", Kind::Delete),
    (b"disabled", Kind::Disabled),
    (b"end", Kind::End),
    (b"exclusive", Kind::Exclusive),
    (b"expire", Kind::Expire),
    (b"from", Kind::From),
    (b"in", Kind::In),
    (b"index", Kind::Index),
    (b"insert", Kind::Insert),
    (b"integer", Kind::IntegerWord),
    (b"into", Kind::Into),
    (b"is", Kind::Is),
    (b"isolation", Kind::Isolation),
    (b"lock", Kind::Lock),
    (b"locklist", Kind::Locklist),
    (b"logmax", Kind::Logmax),
    (b"maxlocks", Kind::Maxlocks),
    (b"mode", Kind::Mode),
    (b"not", Kind::Not),
    (b"null", Kind::Null),
    (b"on", Kind::On),
    (b"or", Kind::Or),
    (b"reset", Kind::Reset),
    (b"retain", Kind::Retain),
    (b"rollback", Kind::Rollback),
    (b"row", Kind::Row),
    (b"rr", Kind::Rr),
    (b"rs", Kind::Rs),
    (b"savepoint", Kind::Savepoint),
    (b"select", Kind::Select),
    (b"set", Kind::Set),
    (b"share", Kind::Share),
    (b"snapshot", Kind::Snapshot),
    (b"table", Kind::Table),
    (b"timeout", Kind::Timeout),
    (b"to", Kind::To),
    (b"unique", Kind::Unique),
    (b"update", Kind::Update),
    (b"ur", Kind::Ur),
    (b"values", Kind::Values),
    (b"varchar", Kind::Varchar),
    (b"wait", Kind::Wait),
    (b"where", Kind::Where),
    (b"window", Kind::Window),
    (b"with", Kind::With),
    (b"work", Kind::Work),
];
