ghost use Rattle.std.specs.Prelude.{◌≡◌, ◌≤◌, ◌+◌, ◌∷◌, [], List as Seq, All, map, position, vec_len, IfOk, OnOk};
ghost use Rattle.std.specs.Vec.{vec_capacity};
ghost use Rattle.outside.specs.declared.kept.Change.{Change};
ghost use Rattle.outside.specs.Changes.{changed, all_changed, has_number};
ghost use Rattle.outside.specs.Tables.{kept_table, kept_tables, change_of, is_create, is_put_to, puts_to, creates, IsReady, HasRoom};

use crate::kept::{Change, KeptRow, KeptTable};
use crate::rows::Rows;
use bson_values::{Bytes, NoMemory, Space};
use std::alloc::Global;

/// A table, to whose rows others may be added without memory.
#[derive(Drop)]
pub struct Table {
    number: u64,
    space: Space,
    rows: Rows,
}

/// A change that has its memory.
#[derive(Drop)]
pub enum Step {
    Create(Table),
    Drop(u64),
    Put(u64, KeptRow),
    Cut(u64, Bytes),
}

impl Table {
    pub fn of(alloc: Global, kept: KeptTable) -> Table
        ensures { kept_table result ≡ kept }
    {
        let KeptTable {
            number,
            space,
            rows,
        } = kept;
        Table {
            number,
            space,
            rows: Rows::of(alloc, rows),
        }
    }

    pub fn copy(&self, alloc: Global) -> Result<KeptTable, NoMemory>
        ensures { IfOk result (λ copied. copied ≡ kept_table self.now) }
    {
        let space = self.space.copy(alloc)?;
        let rows = self.rows.copy(alloc)?;
        Ok(KeptTable {
            number: self.number,
            space,
            rows,
        })
    }
}

impl Change {
    fn is_create(&self) -> bool
        ensures { result ≡ is_create self.now }
    {
        matches!(self, Change::Create { .. })
    }

    fn is_put_to(&self, table: u64) -> bool
        ensures { result ≡ is_put_to table self.now }
    {
        matches!(self, Change::Put { number, .. } if table == *number)
    }
}

fn creates(changes: &[Change]) -> usize
    ensures { result ≡ creates changes.now }
{
    changes.iter().filter(|change| change.is_create()).count()
}

fn puts_to(number: u64, changes: &[Change]) -> usize
    ensures { result ≡ puts_to number changes.now }
{
    changes
        .iter()
        .filter(|change| change.is_put_to(number))
        .count()
}

/// A change with its memory, among all changes.
fn step_of(alloc: Global, change: &Change, all: &[Change]) -> Result<Step, NoMemory>
    ensures change { IfOk result (λ step. change_of step ≡ change.now) }
    ensures ready { IfOk result (IsReady all.now) }
{
    match change {
        Change::Create { number, space } => {
            let space = space.copy(alloc)?;
            let rows = Rows::new(alloc, puts_to(*number, all))?;
            Ok(Step::Create(Table {
                number: *number,
                space,
                rows,
            }))
        }
        Change::Drop { number } => Ok(Step::Drop(*number)),
        Change::Put {
            number,
            place,
            key,
            text,
        } => {
            let key = key.copy(alloc)?;
            let text = text.copy(alloc)?;
            Ok(Step::Put(
                *number,
                KeptRow {
                    place: *place,
                    key,
                    text,
                },
            ))
        }
        Change::Cut { number, key } => Ok(Step::Cut(*number, key.copy(alloc)?)),
    }
}

/// All changes with their memory.
pub fn steps_of(alloc: Global, changes: &[Change]) -> Result<Vec<Step>, NoMemory>
    ensures changes { IfOk result (λ steps. map change_of steps.items ≡ changes.now) }
    ensures ready { IfOk result (λ steps. All (IsReady changes.now) steps.items) }
{
    let mut steps = Vec::new(alloc);
    for change in changes {
        let step = step_of(alloc, change, changes)?;
        steps.push(step)?;
    }
    Ok(steps)
}

/// Makes room for the changes.
pub fn make_room(tables: &mut Vec<Table>, changes: &[Change]) -> Result<(), NoMemory>
    ensures tables { kept_tables tables.new.items ≡ kept_tables tables.old.items }
    ensures room { OnOk result (HasRoom tables.new changes.now) }
{
    tables.reserve(creates(changes))?;
    for place in 0..tables.len() {
        let table = &mut tables[place];
        table.rows.make_room(puts_to(table.number, changes))?;
    }
    Ok(())
}

/// Where the first table of that number stands.
fn place_of(tables: &[Table], number: u64) -> Option<usize>
    ensures { result ≡ position (λ table. has_number number (kept_table table)) tables.now }
{
    tables.iter().position(|table| table.number == number)
}

/// Makes one change, without taking memory.
fn make(tables: &mut Vec<Table>, step: Step)
    requires room { HasRoom tables.old (change_of step ∷ []) }
    requires ready { IsReady [] step }
    ensures tables { kept_tables tables.new.items ≡ changed (change_of step) (kept_tables tables.old.items) }
    // Room for further changes is still there.
    ensures room { (rest : Seq Change) → IsReady rest step → HasRoom tables.old (change_of step ∷ rest)
        → HasRoom tables.new rest }
{
    match step {
        Step::Create(table) => tables.push_reserved(table),
        Step::Drop(number) => {
            if let Some(place) = place_of(tables, number) {
                tables.remove(place);
            }
        }
        Step::Put(number, row) => {
            if let Some(place) = place_of(tables, number) {
                let table = &mut tables[place];
                table.rows.put(row);
            }
        }
        Step::Cut(number, key) => {
            if let Some(place) = place_of(tables, number) {
                let table = &mut tables[place];
                table.rows.cut(&key);
            }
        }
    }
}

/// Makes all changes, without taking memory.
pub fn make_all(tables: &mut Vec<Table>, steps: Vec<Step>)
    requires room { HasRoom tables.old (map change_of steps.items) }
    requires ready { All (IsReady (map change_of steps.items)) steps.items }
    ensures { kept_tables tables.new.items ≡ all_changed (map change_of steps.items) (kept_tables tables.old.items) }
{
    let mut steps = steps.into_iter();
    while let Some(step) = steps.next() {
        make(tables, step);
    }
}
