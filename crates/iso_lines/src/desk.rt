ghost use Rattle.std.specs.Prelude.{◌≡◌, List, not, ◌<◌, ◌≤◌, ◌||◌, ◌++◌, ◌∷◌, [], IfOk, OnOk, OnErr, true, false, is_some, if◌then◌else◌, length};
ghost use Rattle.std.specs.Map.{keys_of};
ghost use Rattle.indexmap.specs.IndexMap.{spare};
ghost use Rattle.iso_modes.specs.Terms.{is_kept};
ghost use Rattle.iso_queue.specs.Lines.{asked, is_granted, is_touched, is_used, is_waiter};
ghost use Rattle.iso_queue.specs.declared.types.Asked.{Asked as Outcome};
ghost use Rattle.iso_types.specs.Ids.{name_eq};
ghost use Rattle.iso_types.specs.declared.value.Name.{Name as Other};
ghost use Rattle.iso_lines.specs.Named.{changed, key_of, line_of, nobody, same};
ghost use Rattle.iso_lines.specs.Locks.{IsSeated};
ghost use Rattle.iso_lines.specs.Registers.{AreIdle};
ghost use Rattle.iso_lines.specs.Weighs.{IsBlank, IsWeighed};

use crate::lines::{Change, Lines, forget};
use crate::tasks::table_of;
use crate::weights::{holds_long, reweigh};
use indexmap::IndexMap;
use iso_modes::{Mode, Term};
use iso_queue::Asked;
use iso_types::{Conn, Memory, Name, TableId};
use std::alloc::Global;

/// What is kept for a connection: the names that it holds or awaits, those on which its hold may be Fresh or Brief,
/// those that it may await, and for each table on how many of its rows and keys it has a hold that is not Brief.
#[derive(Drop)]
pub struct Desk {
    pub names: IndexMap<Name, usize>,
    pub loose: IndexMap<Name, usize>,
    pub awaited: IndexMap<Name, usize>,
    pub weights: Vec<usize>,
}

/// Puts the name among those of the connection, in room that was taken.
pub fn put(names: &mut IndexMap<Name, usize>, name: &Name)
    requires { 0 < spare names.old }
    ensures put { is_some (key_of names.new.entries name.now) ≡ true }
    ensures others { (n : Other) → same name.now n ≡ false → key_of names.new.entries n ≡ key_of names.old.entries n }
    ensures more { (n : Other) → is_some (key_of names.old.entries n) ≡ true → is_some (key_of names.new.entries n) ≡ true }
{
    match names.entry(*name) {
        Ok(entry) => {
            entry.or_insert(0);
        }
        Err(_) => unreachable!(),
    }
}

/// Puts the name among them where it must be there.
fn put_where(names: &mut IndexMap<Name, usize>, name: &Name, there: bool)
    requires { 0 < spare names.old }
    ensures put { (not there || is_some (key_of names.new.entries name.now)) ≡ true }
    ensures more { (n : Other) → is_some (key_of names.old.entries n) ≡ true → is_some (key_of names.new.entries n) ≡ true }
{
    if there {
        put(names, name);
    }
}

/// Whether a hold of the term ends before its unit of work does, or may.
pub fn is_loose(term: Term) -> bool
    ensures { result ≡ not (is_kept term) }
{
    term != Term::Kept
}

/// Takes room for one more name. `Memory`: want of memory.
fn make_room(desk: &mut Desk) -> Result<(), Memory>
    ensures names { desk.new.names.entries ≡ desk.old.names.entries }
    ensures loose { desk.new.loose.entries ≡ desk.old.loose.entries }
    ensures awaited { desk.new.awaited.entries ≡ desk.old.awaited.entries }
    ensures weights { desk.new.weights ≡ desk.old.weights }
    ensures room { OnOk result (0 < spare desk.new.names) }
    ensures loose_room { OnOk result (0 < spare desk.new.loose) }
    ensures awaited_room { OnOk result (0 < spare desk.new.awaited) }
{
    desk.names.reserve(1)?;
    desk.loose.reserve(1)?;
    desk.awaited.reserve(1)?;
    Ok(())
}

/// Whether the connection holds or awaits the name.
pub fn touches(lines: &Lines, conn: Conn, name: &Name) -> bool
    ensures { result ≡ is_touched (line_of lines.now name.now) conn }
{
    match lines.queue(name) {
        Some(queue) => queue.touches(conn),
        None => false,
    }
}

/// Whether the connection awaits the name.
pub fn waits(lines: &Lines, conn: Conn, name: &Name) -> bool
    ensures { result ≡ is_waiter (line_of lines.now name.now).waiters conn }
{
    match lines.queue(name) {
        Some(queue) => queue.wait(conn).is_some(),
        None => false,
    }
}

/// Requests the mode on the name: all memory is taken before anything changes.
pub fn request_in(
    lines: &mut Lines,
    desk: &mut Desk,
    conn: Conn,
    tables: &[TableId],
    name: &Name,
    mode: Mode,
    term: Term,
) -> Result<Asked, Memory>
    requires seated { IsSeated lines.old conn desk.old }
    requires weighed { IsWeighed tables.now lines.old conn desk.old.names.entries desk.old.weights.items }
    ensures answer { IfOk result (λ a. a ≡ (if is_granted (line_of lines.old name.now) conn mode then Outcome.Granted else Outcome.Queued)) }
    ensures line { OnOk result (line_of lines.new name.now ≡ asked (line_of lines.old name.now) conn mode term) }
    ensures others { OnOk result ((n : Other) → name_eq name.now n ≡ false → line_of lines.new n ≡ line_of lines.old n) }
    ensures names { OnOk result (line_of lines.old name.now ≡ nobody → keys_of lines.new.index ≡ keys_of lines.old.index ++ name.now ∷ []) }
    ensures seated { IsSeated lines.new conn desk.new }
    ensures weighed { IsWeighed tables.now lines.new conn desk.new.names.entries desk.new.weights.items }
    ensures err { OnErr result (lines.new ≡ lines.old) }
    ensures same_names { OnErr result (desk.new.names.entries ≡ desk.old.names.entries) }
{
    let _ = desk.names.len();
    make_room(desk)?;
    let before = holds_long(lines, conn, name);
    let asked = lines.ask(name, conn, mode, term)?;
    put(&mut desk.names, name);
    put_where(&mut desk.loose, name, is_loose(term));
    put_where(&mut desk.awaited, name, waits(lines, conn, name));
    let after = holds_long(lines, conn, name);
    let _ = desk.names.len();
    reweigh(&mut desk.weights, table_of(tables, name), before, after);
    Ok(asked)
}

/// Changes the connection's part in the name's line, and counts the name in or out of the weights of the names, which are
/// those that the connection holds or awaits. It takes no memory.
pub fn change_weighed(
    lines: &mut Lines,
    names: &IndexMap<Name, usize>,
    weights: &mut Vec<usize>,
    conn: Conn,
    tables: &[TableId],
    name: &Name,
    change: Change,
)
    requires there { (n : Other) → is_touched (line_of lines.old n) conn ≡ true → is_some (key_of names.now.entries n) ≡ true }
    requires weighed { IsWeighed tables.now lines.old conn names.now.entries weights.old.items }
    ensures line { line_of lines.new name.now ≡ changed change conn (line_of lines.old name.now) }
    ensures others { (n : Other) → name_eq name.now n ≡ false → line_of lines.new n ≡ line_of lines.old n }
    ensures last { (ns : List Other) → keys_of lines.old.index ≡ ns ++ name.now ∷ [] → is_used (changed change conn (line_of lines.old name.now)) ≡ false → keys_of lines.new.index ≡ ns }
    ensures weighed { IsWeighed tables.now lines.new conn names.now.entries weights.new.items }
{
    let before = holds_long(lines, conn, name);
    lines.change(name, conn, change);
    let after = holds_long(lines, conn, name);
    let _ = names.len();
    reweigh(weights, table_of(tables, name), before, after);
}

/// Changes the connection's part in the name's line; a name that it no longer holds or awaits is none of its names any more.
/// It takes no memory.
pub fn change_in(
    lines: &mut Lines,
    desk: &mut Desk,
    conn: Conn,
    tables: &[TableId],
    name: &Name,
    change: Change,
)
    requires seated { IsSeated lines.old conn desk.old }
    requires weighed { IsWeighed tables.now lines.old conn desk.old.names.entries desk.old.weights.items }
    ensures line { line_of lines.new name.now ≡ changed change conn (line_of lines.old name.now) }
    ensures others { (n : Other) → name_eq name.now n ≡ false → line_of lines.new n ≡ line_of lines.old n }
    ensures last { (ns : List Other) → keys_of lines.old.index ≡ ns ++ name.now ∷ [] → is_used (changed change conn (line_of lines.old name.now)) ≡ false → keys_of lines.new.index ≡ ns }
    ensures seated { IsSeated lines.new conn desk.new }
    ensures weighed { IsWeighed tables.now lines.new conn desk.new.names.entries desk.new.weights.items }
    ensures fewer { length desk.new.names.entries ≤ length desk.old.names.entries }
{
    let _ = desk.names.len();
    change_weighed(
        lines,
        &desk.names,
        &mut desk.weights,
        conn,
        tables,
        name,
        change,
    );
    keep_where_touched(&mut desk.names, lines, conn, name);
    let _ = desk.names.len();
}

/// Forgets the name where the connection neither holds nor awaits it.
pub fn keep_where_touched(names: &mut IndexMap<Name, usize>, lines: &Lines, conn: Conn, name: &Name)
    ensures own { (is_touched (line_of lines.now name.now) conn ≡ true → is_some (key_of names.old.entries name.now) ≡ true) → is_some (key_of names.new.entries name.now) ≡ is_touched (line_of lines.now name.now) conn }
    ensures others { (n : Other) → same name.now n ≡ false → key_of names.new.entries n ≡ key_of names.old.entries n }
    ensures fewer { length names.new.entries ≤ length names.old.entries }
{
    if !touches(lines, conn, name) {
        forget(names, name);
    }
}

/// For each of 256 tables no weight. `Memory`: want of memory.
fn no_weights(alloc: Global) -> Result<Vec<usize>, Memory>
    ensures { IfOk result (λ v. IsBlank v.items) }
{
    Ok(vec![in alloc; 0; 256]?)
}

/// 32 desks without a name. `Memory`: want of memory.
#[tactic(auto, using(crate::proofs::Released::idle_push))]
pub fn empty_desks(alloc: Global) -> Result<Vec<Desk>, Memory>
    ensures size { IfOk result (λ v. length v.items ≡ 32) }
    ensures idle { IfOk result (λ v. AreIdle v.items) }
{
    let mut desks = Vec::new(alloc);
    for _turn in 0..32u32 {
        let weights = no_weights(alloc)?;
        desks.push(Desk {
            names: IndexMap::new(alloc),
            loose: IndexMap::new(alloc),
            awaited: IndexMap::new(alloc),
            weights,
        })?;
    }
    Ok(desks)
}
