//! Reads isolation levels.

ghost use Rattle.iso_grammar.specs.Reading.{Gives};
ghost use Rattle.iso_sql.specs.ConditionReading as word;
ghost use Rattle.iso_sql.specs.StatementReading as spec;

use iso_grammar::{Kind, ReadError, Tokens};
use iso_types::Isolation;

fn as_level(tokens: &mut Tokens<'_>, kind: Kind, level: Isolation) -> Result<Isolation, ReadError>
    ensures { Gives (word.word kind level) tokens.old result tokens.new }
{
    tokens.expect(kind)?;
    Ok(level)
}

/// Takes a level.
#[tactic(auto, unfolding(crate::specs::StatementReading::isolation))]
pub fn isolation(tokens: &mut Tokens<'_>) -> Result<Isolation, ReadError>
    ensures { Gives (spec.isolation) tokens.old result tokens.new }
{
    if tokens.sees(Kind::Ur) {
        as_level(tokens, Kind::Ur, Isolation::Ur)
    } else if tokens.sees(Kind::Cs) {
        as_level(tokens, Kind::Cs, Isolation::Cs)
    } else if tokens.sees(Kind::Rs) {
        as_level(tokens, Kind::Rs, Isolation::Rs)
    } else {
        as_level(tokens, Kind::Rr, Isolation::Rr)
    }
}

/// Takes WITH and a level, if WITH comes next.
#[tactic(auto, unfolding(crate::specs::StatementReading::level))]
pub fn level(tokens: &mut Tokens<'_>) -> Result<Option<Isolation>, ReadError>
    ensures { Gives (spec.level) tokens.old result tokens.new }
{
    if !tokens.sees(Kind::With) {
        return Ok(None);
    }
    tokens.expect(Kind::With)?;
    Ok(Some(isolation(tokens)?))
}
