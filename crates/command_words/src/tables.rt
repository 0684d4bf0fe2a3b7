ghost use Rattle.std.specs.Prelude.{◌≡◌, map, find, option_map};
ghost use Rattle.std.specs.Str.{bytes_eq};
ghost use Rattle.command_words.specs.Tables.{shape_of, item_fields, commands};
ghost use Rattle.command_words.specs.Refusal.{takes_among, takes_of, item_takes};
ghost use Rattle.command_words.specs.Told.{told, shape_told};

use crate::takes::{Item, Takes};
use crate::word::Word;

/// The name of a command.
#[derive(Clone, Copy)]
pub(crate) struct Name {
    name: &'static str,
    word: Word,
}

/// A field, what it takes, and whether it has to be there.
#[derive(Clone, Copy)]
pub(crate) struct Row {
    pub(crate) name: &'static str,
    pub(crate) takes: Takes,
    pub(crate) required: bool,
}

/// What stands beside a command's name, its other fields, and whether nothing further is looked at.
#[derive(Clone, Copy)]
pub(crate) struct Table {
    own: Takes,
    fields: &'static [Row],
    free: bool,
}

/// Rows of fields, as `may "name": Takes`, or `must` of one that has to be there.
macro_rules! rows {
    (@required may) => { false };
    (@required must) => { true };
    ($($how:ident $name:literal: $takes:ident $(($item:ident))?),* $(,)?) => {
        [$(Row { name: $name, takes: Takes::$takes $((Item::$item))?, required: rows!(@required $how) }),*]
    };
}

/// The table of a command: what stands beside its name, and its fields.
macro_rules! table {
    ($own:ident { $($rows:tt)* }) => {
        Table {
            own: Takes::$own,
            fields: &rows! { $($rows)* },
            free: false,
        }
    };
}

/// Rows of names, as `"name" => Word`.
macro_rules! commands {
    ($($name:literal => $word:ident),* $(,)?) => {
        [$(Name { name: $name, word: Word::$word }),*]
    };
}

static COMMANDS: [Name; 9] = commands! {
    "ping" => Ping,
    "insert" => Insert,
    "update" => Update,
    "delete" => Delete,
    "findAndModify" => FindAndModify,
    "findandmodify" => FindAndModify,
    "find" => Find,
    "count" => Count,
    "distinct" => Distinct,
};

static FREE: Table = Table {
    own: Takes::Anything,
    fields: &[],
    free: true,
};

static INSERT: Table = table! { Text { must "documents": Documents, may "ordered": Truth } };

static UPDATE: Table = table! { Text { must "updates": Items(Update), may "ordered": Truth } };

static DELETE: Table = table! { Text { must "deletes": Items(Delete), may "ordered": Truth } };

static FIND_AND_MODIFY: Table = table! { Text {
    may "query": Document, may "sort": Document, may "remove": Truth, may "update": DocumentOrArray, may "new": Truth, may "upsert": Truth,
    may "fields": Document,
} };

static FIND: Table = table! { Text {
    may "filter": Document, may "sort": Document, may "projection": Document, may "skip": Natural, may "limit": Natural,
    may "batchSize": Natural, may "singleBatch": Truth,
} };

static COUNT: Table =
    table! { Text { may "query": Document, may "skip": Natural, may "limit": Whole } };

static DISTINCT: Table = table! { Text { must "key": Text, may "query": Document } };

static UPDATE_ITEM: [Row; 4] = rows! {
    must "q": Document, must "u": DocumentOrArray, may "multi": Truth, may "upsert": Truth,
};

static DELETE_ITEM: [Row; 2] = rows! { must "q": Document, must "limit": ZeroOrOne };

#[tactic(auto, unfolding(crate::specs::Tables::commands))]
fn commands() -> &'static [Name]
    ensures { map (λ row. (row.name.now, row.word)) result.now ≡ commands }
{
    &COMMANDS
}

#[tactic(auto, unfolding(crate::specs::Tables::shape_of))]
fn table_of(word: Word) -> &'static Table
    ensures { shape_told result.now ≡ shape_of word }
{
    match word {
        Word::Ping => &FREE,
        Word::Insert => &INSERT,
        Word::Update => &UPDATE,
        Word::Delete => &DELETE,
        Word::FindAndModify => &FIND_AND_MODIFY,
        Word::Find => &FIND,
        Word::Count => &COUNT,
        Word::Distinct => &DISTINCT,
    }
}

/// The fields of a command.
pub(crate) fn fields_of(word: Word) -> &'static [Row]
    ensures { map told result.now ≡ (shape_of word).fields }
{
    table_of(word).fields
}

/// The fields of an item.
#[tactic(auto, unfolding(crate::specs::Tables::item_fields))]
pub(crate) fn item_fields(item: Item) -> &'static [Row]
    ensures { map told result.now ≡ item_fields item }
{
    match item {
        Item::Update => &UPDATE_ITEM,
        Item::Delete => &DELETE_ITEM,
    }
}

/// What stands beside the command's name.
pub(crate) fn own_of(word: Word) -> Takes
    ensures { result ≡ (shape_of word).own }
{
    table_of(word).own
}

/// Whether nothing further is looked at.
pub(crate) fn is_free(word: Word) -> bool
    ensures { result ≡ (shape_of word).free }
{
    table_of(word).free
}

fn find_word(rows: &[Name], name: &str) -> Option<Word>
    ensures { result ≡ option_map (λ row. row.word) (find (λ row. bytes_eq row.name.now name.now) rows.now) }
{
    rows.iter().find(|row| row.name == name).map(|row| row.word)
}

/// The command of that name.
pub(crate) fn word_of(name: &str) -> Option<Word>
    ensures { result ≡ option_map (λ it. it.1) (find (λ it. bytes_eq it.0 name.now) commands) }
{
    find_word(commands(), name)
}

fn find_takes(rows: &[Row], name: &str) -> Option<Takes>
    ensures { result ≡ option_map (λ row. row.takes) (find (λ row. bytes_eq row.name.now name.now) rows.now) }
{
    rows.iter()
        .find(|row| row.name == name)
        .map(|row| row.takes)
}

/// What the field of that name takes among the rows.
fn takes_among(rows: &[Row], name: &str) -> Takes
    ensures { result ≡ takes_among (map told rows.now) name.now }
{
    find_takes(rows, name).unwrap_or(Takes::Unknown)
}

/// What the field of an item takes.
pub(crate) fn item_takes(item: Item, name: &str) -> Takes
    ensures { result ≡ item_takes item name.now }
{
    takes_among(item_fields(item), name)
}

/// What the field of a command takes.
pub(crate) fn takes_of(word: Word, name: &str) -> Takes
    ensures { result ≡ takes_of word name.now }
{
    if name == "$db" {
        return Takes::Text;
    }
    takes_among(fields_of(word), name)
}
