//! Of all that is wrong with the parts of a statement the least is told.

ghost use Rattle.std.specs.Prelude.{◌≡◌, ◌++◌, ◌∷◌, ℕ, Bool, List, [], Option};
ghost use Rattle.iso_grammar.specs.Lex.{tokens};
ghost use Rattle.iso_grammar.specs.declared.fault.Fault as fault;
ghost use Rattle.iso_grammar.specs.declared.token.Token as token;
ghost use Rattle.iso_sql.specs.Actions as action;
ghost use Rattle.iso_sql.specs.Every as every;
ghost use Rattle.iso_sql.specs.Every.{IsLeastOf, Rise, StandIn, assigned_tokens, every_assigned, every_inserted, every_listed, every_selected, every_stored, every_updated, item_tokens, row_tokens};
ghost use Rattle.iso_sql.specs.Names.{Names, table_names};
ghost use Rattle.iso_sql.specs.Rows as row;
ghost use Rattle.iso_grammar.specs.declared.fault.Checked as checked;
ghost use Rattle.iso_sql.specs.declared.assignment.Target as assignment;
ghost use Rattle.iso_sql.specs.declared.list.Chosen as list;
ghost use Rattle.iso_sql.specs.declared.statement.Condition as meant;
ghost use Rattle.iso_types.specs.declared.head.Head as declared;
ghost use Rattle.iso_types.specs.declared.head.Isolation as isolation;
ghost use Rattle.iso_sql.specs.Statements as rule;
ghost use Rattle.iso_sql.specs.declared.statement.Statement as statement;
ghost use Rattle.iso_types.specs.declared.head.Column as column;

/// The fault that is told is the least of all that is wrong: at the least place, and there the first of UNKNOWN, TYPE,
/// DUPLICATE and LIMIT; none is told exactly where nothing is wrong.
///
/// A list of columns, of literals or of assignments is left at its first fault, which is the least since the tokens of a list
/// rise: wherever they stand in a line (`rise`), so in each text that is a statement (`text`). Each statement has its list of
/// all that is wrong with it, and only a statement has one (`every_text`, `no_other`); of a condition its own least fault
/// counts. A list of faults has one least (`one`). This project's own.
pub fn told_faults_are_least()
    ensures rise { (line : List ℕ) (ts : List token.Token) → StandIn ts (tokens line) → Rise 0 ts }
    ensures columns { (names : Names) (ts : List token.Token) (n : ℕ) → Rise n ts → IsLeastOf (action.listed names [] ts).fault (every_listed names [] ts) }
    ensures assignments { (names : Names) (targets : List assignment.Target) (n : ℕ) → Rise n (assigned_tokens targets) → IsLeastOf (action.assigned names [] targets).fault (every_assigned names [] targets) }
    ensures literals { (strict : Bool) (line : List ℕ) (columns : List column.Column) (ts : List token.Token) (close : token.Token) (n : ℕ) → Rise n (ts ++ close ∷ []) → IsLeastOf (row.stored_fault strict line columns ts close) (every_stored strict line columns ts close) }
    ensures select { (head : declared.Head) (line : List ℕ) (items : list.Chosen) (t : token.Token) (cond : checked.Checked meant.Condition) (level : Option isolation.Isolation) (n : ℕ) → Rise n (item_tokens items) → IsLeastOf (action.selected head line items t cond level).fault (every_selected (table_names head line t) items t cond.fault) }
    ensures insert { (head : declared.Head) (line : List ℕ) (t : token.Token) (columns : Option (List token.Token)) (literals : List token.Token) (close : token.Token) (n : ℕ) → Rise n (row_tokens columns literals close) → IsLeastOf (action.inserted head line t columns literals close).fault (every_inserted (table_names head line t) t columns literals close) }
    ensures update { (head : declared.Head) (line : List ℕ) (t : token.Token) (targets : List assignment.Target) (cond : checked.Checked meant.Condition) (level : Option isolation.Isolation) (n : ℕ) → Rise n (assigned_tokens targets) → IsLeastOf (action.updated head line t targets cond level).fault (every_updated (table_names head line t) t targets cond.fault) }
    ensures text { (head : declared.Head) (text : List ℕ) (x : checked.Checked statement.Statement) (fs : List fault.Fault) → every.faulty head text (tokens text) (x, fs) → IsLeastOf x.fault fs }
    ensures every_text { (head : declared.Head) (line : List ℕ) (ts : List token.Token) (x : checked.Checked statement.Statement) → rule.statement head line ts x → (fs : List fault.Fault) × every.faulty head line ts (x, fs) }
    ensures no_other { (head : declared.Head) (line : List ℕ) (ts : List token.Token) (x : checked.Checked statement.Statement) (fs : List fault.Fault) → every.faulty head line ts (x, fs) → rule.statement head line ts x }
    ensures one { (fs : List fault.Fault) (a b : Option fault.Fault) → IsLeastOf a fs → IsLeastOf b fs → a ≡ b }
{}
