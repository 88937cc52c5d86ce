ghost use Rattle.std.specs.Prelude.{◌≡◌, ◌<◌, ◌+◌, ◌*◌, ◌%◌};
ghost use Rattle.iso_generate.specs.Generated.{account, amount, behind, body, body_on, deed, drawn, later, newcomer};

use rand_core::utils::NextWord;
use rand_pcg::Lcg64Xsh32;

/// A statement of a generated script, with its numbers: `x` of an account, `w` of a row that is inserted or deleted, `z` of an amount.
#[derive(Clone, Copy)]
pub enum Deed {
    Show(u32),
    Count(u32),
    ShowAll,
    Add(u32, u32),
    Insert(u32, u32),
    Delete(u32),
    Commit,
    Rollback,
}

/// A body line: its connection, from 0 to 3; a number from 0 to 3, of which 0 is the mark `&`; and its statement.
#[derive(Clone, Copy)]
pub struct Body {
    pub conn: u32,
    pub mark: u32,
    pub deed: Deed,
}

// The next word modulo k.
#[tactic(auto, unfolding(crate::specs::Generated::drawn, crate::specs::Generated::later))]
fn draw(words: &mut Lcg64Xsh32, k: u32) -> u32
    requires { 0 < k }
    ensures number { result ≡ drawn k words.old }
    ensures below { result < k }
    ensures on { words.new ≡ later words.old }
{
    words.next_word() % k
}

// The number of one of the accounts.
#[tactic(auto, unfolding(crate::specs::Generated::account))]
fn account(words: &mut Lcg64Xsh32) -> u32
    ensures number { result ≡ account words.old }
    ensures small { result < 1000 }
    ensures on { words.new ≡ later words.old }
{
    10 + 10 * draw(words, 20)
}

// A number that is mostly no account yet.
#[tactic(auto, unfolding(crate::specs::Generated::newcomer))]
fn newcomer(words: &mut Lcg64Xsh32) -> u32
    ensures number { result ≡ newcomer words.old }
    ensures small { result < 1000 }
    ensures on { words.new ≡ later words.old }
{
    1 + draw(words, 300)
}

// An amount.
#[tactic(auto, unfolding(crate::specs::Generated::amount))]
fn amount(words: &mut Lcg64Xsh32) -> u32
    ensures number { result ≡ amount words.old }
    ensures on { words.new ≡ later words.old }
{
    draw(words, 100)
}

// The statement that a number from 0 to 11 stands for.
#[tactic(auto, unfolding(crate::specs::Generated::deed, crate::specs::Generated::behind))]
fn choose(words: &mut Lcg64Xsh32, k: u32) -> Deed
    ensures deed { result ≡ deed k words.old }
    ensures on { words.new ≡ behind (deed k words.old) words.old }
{
    if k < 3 {
        Deed::Show(account(words))
    } else if k == 3 {
        Deed::Count(account(words))
    } else if k == 4 {
        Deed::ShowAll
    } else if k < 7 {
        Deed::Add(amount(words), account(words))
    } else if k == 7 {
        Deed::Insert(newcomer(words), amount(words))
    } else if k == 8 {
        Deed::Delete(newcomer(words))
    } else if k < 11 {
        Deed::Commit
    } else {
        Deed::Rollback
    }
}

impl Body {
    /// The next line.
    pub fn drawn(words: &mut Lcg64Xsh32) -> Body
        ensures body { result ≡ body words.old }
        ensures on { words.new ≡ body_on words.old }
    {
        let conn = draw(words, 4);
        let mark = draw(words, 4);
        let k = draw(words, 12);
        let deed = choose(words, k);
        Body { conn, mark, deed }
    }
}
