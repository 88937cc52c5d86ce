//! The tokens of head lines that say something.

use iso_grammar::Token;

/// The type of a column; that of a text with the token of its length.
#[derive(Clone, Copy)]
pub enum TypeWords {
    Integer,
    Bigint,
    Varchar(Token),
}

/// A column of a TABLE line: its name, its type, and whether NOT NULL stands behind it.
#[derive(Clone, Copy)]
pub struct ColumnWords {
    pub name: Token,
    pub kind: TypeWords,
    pub required: bool,
}

/// A setting of a CONFIG line.
#[derive(Clone, Copy)]
pub enum SettingName {
    CurCommit,
    Locklist,
    Maxlocks,
    Logmax,
    Window,
}

/// A CONFIG line: its setting, the setting's word, and its value.
#[derive(Clone, Copy)]
pub struct SettingWords {
    pub name: SettingName,
    pub word: Token,
    pub value: Token,
}

/// A ROW line but for its values: its first token, its table, and the parenthesis that closes the values.
#[derive(Clone, Copy)]
pub struct RowWords {
    pub first: Token,
    pub table: Token,
    pub close: Token,
}

/// An INDEX line: its first token, whether that is UNIQUE, the index, its table and its column.
#[derive(Clone, Copy)]
pub struct IndexWords {
    pub first: Token,
    pub unique: bool,
    pub name: Token,
    pub table: Token,
    pub column: Token,
}
