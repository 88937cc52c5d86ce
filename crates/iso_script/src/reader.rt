//! What stands between the lines of a script that is read.

ghost use Rattle.std.specs.Prelude.{◌≡◌, OnOk};
ghost use Rattle.iso_script.specs.Advance as step;
ghost use Rattle.iso_script.specs.Reading as spec;
ghost use Rattle.iso_script.specs.Steps.{verdict as judged};
ghost use Rattle.iso_script.specs.declared.event.Event.TheVariants as event;

use crate::event::{Event, Setting, Settings};
use crate::fault::{LineCause, cause_of};
use crate::script::{Line, Script, What};
use iso_grammar::Checked;
use iso_types::{Config, Conn, Head, Items, Memory};
use std::alloc::Global;

/// Which line may come next.
#[derive(Clone, Copy)]
pub enum Place {
    First,
    Head,
    Body,
    After,
}

/// A script so far, with the settings that were declared.
#[derive(Drop)]
pub struct Reader {
    pub place: Place,
    pub set: Settings,
    pub script: Script,
}

fn with_setting(config: Config, setting: Setting) -> Config
    ensures { result ≡ step.with_setting config setting }
{
    match setting {
        Setting::CurCommit(cur_commit) => Config {
            cur_commit,
            ..config
        },
        Setting::Locklist(locklist) => Config { locklist, ..config },
        Setting::Maxlocks(maxlocks) => Config { maxlocks, ..config },
        Setting::Logmax(logmax) => Config { logmax, ..config },
        Setting::Window(window) => Config { window, ..config },
    }
}

fn with_set(set: Settings, setting: Setting) -> Settings
    ensures { result ≡ step.with_set set setting }
{
    match setting {
        Setting::CurCommit(_) => Settings {
            cur_commit: true,
            ..set
        },
        Setting::Locklist(_) => Settings {
            locklist: true,
            ..set
        },
        Setting::Maxlocks(_) => Settings {
            maxlocks: true,
            ..set
        },
        Setting::Logmax(_) => Settings {
            logmax: true,
            ..set
        },
        Setting::Window(_) => Settings {
            window: true,
            ..set
        },
    }
}

/// What a line with these faults says.
pub fn verdict(found: Checked<Event>) -> Result<Event, LineCause>
    ensures { result ≡ judged found }
{
    if let Some(fault) = found.fault {
        return Err(cause_of(fault));
    }
    Ok(found.value)
}

impl Reader {
    /// Before the first line.
    pub fn new(alloc: Global) -> Reader
        ensures { result ≡ spec.start }
    {
        Reader {
            place: Place::First,
            set: Settings {
                cur_commit: false,
                locklist: false,
                maxlocks: false,
                logmax: false,
                window: false,
            },
            script: Script {
                head: Head {
                    config: Config {
                        cur_commit: true,
                        locklist: 1024,
                        maxlocks: 60,
                        logmax: 65536,
                        window: 65536,
                    },
                    tables: Items::new(alloc),
                    indexes: Items::new(alloc),
                    rows: Items::new(alloc),
                    conns: Items::new(alloc),
                },
                lines: Items::new(alloc),
            },
        }
    }

    fn ask(&mut self, number: u32, conn: Option<Conn>, free: bool, what: What) -> Result<(), Memory>
        ensures { OnOk result (self.new ≡ step.advance self.old number (event.Asked conn free what)) }
    {
        self.script.lines.push(Line {
            number,
            conn,
            free,
            what,
        })
    }

    fn configure(&mut self, setting: Setting, number: u32)
        ensures { self.new ≡ step.advance self.old number (event.Config setting) }
    {
        self.set = with_set(self.set, setting);
        self.script.head.config = with_setting(self.script.head.config, setting);
    }

    /// Takes the event of the line with this number; after `Memory` it stands anywhere.
    pub fn advance(&mut self, number: u32, event: Event) -> Result<(), Memory>
        ensures { OnOk result (self.new ≡ step.advance self.old number event) }
    {
        match event {
            Event::First => self.place = Place::Head,
            Event::Config(setting) => self.configure(setting, number),
            Event::Table(table) => self.script.head.tables.push(table)?,
            Event::Index(index) => self.script.head.indexes.push(index)?,
            Event::Row(row) => self.script.head.rows.push(row)?,
            Event::Connect(conn) => self.script.head.conns.push(conn)?,
            Event::Begin => self.place = Place::Body,
            Event::Asked(conn, free, what) => self.ask(number, conn, free, what)?,
            Event::End => self.place = Place::After,
        }
        Ok(())
    }
}
