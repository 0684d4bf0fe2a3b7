ghost use Rattle.std.specs.Prelude.{◌≡◌, ◌==◌, ◌∷◌, ◌++◌, [], ◌≤◌, ◌<◌, ◌+◌, length, count_by, OnOk, IfOk, IfErr, IfSome, IfNone, Ok};
ghost use Rattle.std.specs.List.{list_any};
ghost use Rattle.doc_paths.specs.Paths.{parts, is_empty, read, IsRefusedFor};

use bson_values::{List, NoMemory, Text};
use std::alloc::Global;
use std::marker::Model;
use std::sync::Arc;

/// The most parts of a path.
pub const MOST_PARTS: usize = 100;

/// Why a text is no path.
#[derive(Clone, Copy, Debug, PartialEq, Eq)]
pub enum PathRefused {
    /// A part is empty.
    Empty,
    /// There are more than 100 parts, and none is empty.
    Long,
    NoMemory,
}

/// The names on the way to a value, from the outside in (MongoDB Manual, "Dot Notation"), which contracts see as the list of them.
#[derive(Drop)]
pub struct Path {
    parts: Arc<List<Text>>,
}

impl Model for Path {
    ghost use Rattle.std.specs.Prelude.{ℕ, List as Seq, length, ◌≤◌, ◌<◌};

    ghost Value = { Seq (Seq ℕ) };

    ghost view = { λ it. it.parts.value };

    ghost invariant = { λ it. (0 < length it.parts.value) × (length it.parts.value ≤ 100) };
}

/// The first part and what is behind its dot, where there is a dot.
fn cut_once(text: &str) -> Option<(&str, &str)>
    ensures none { IfNone result (parts text.now ≡ text.now ∷ []) }
    ensures cut { IfSome result (λ it. parts text.now ≡ it.0.now ∷ parts it.1.now) }
    ensures shorter { IfSome result (λ it. length it.1.now < length text.now) }
{
    text.split_once('.')
}

fn any_empty(text: &str) -> bool
    ensures { result ≡ list_any is_empty (parts text.now) }
{
    let mut rest = text;
    while let Some((part, after)) = cut_once(rest) {
        if part.len() == 0 {
            return true;
        }
        rest = after;
    }
    rest.len() == 0
}

fn dots(text: &str) -> usize
    ensures { result ≡ count_by (λ byte. byte == 46) text.now }
{
    text.as_bytes().iter().filter(|byte| **byte == b'.').count()
}

fn push(alloc: Global, all: &mut List<Text>, part: &str) -> Result<(), NoMemory>
    ensures { OnOk result (all.new ≡ all.old ++ part.now ∷ []) }
{
    let part = Text::of(alloc, part)?;
    all.add(part)
}

fn cut(alloc: Global, text: &str) -> Result<List<Text>, NoMemory>
    ensures { IfOk result (λ all. all ≡ parts text.now) }
{
    let mut all = List::new(alloc);
    let mut rest = text;
    while let Some((part, after)) = cut_once(rest) {
        push(alloc, &mut all, part)?;
        rest = after;
    }
    push(alloc, &mut all, rest)?;
    Ok(all)
}

fn shared(alloc: Global, parts: List<Text>) -> Result<Path, PathRefused>
    requires some { 0 < length parts }
    requires few { length parts ≤ 100 }
    ensures ok { IfOk result (λ path. path ≡ parts) }
    ensures none { IfErr result (λ why. why ≡ PathRefused.NoMemory) }
{
    match Arc::new(alloc, parts) {
        Ok(parts) => Ok(Path { parts }),
        Err(_) => Err(PathRefused::NoMemory),
    }
}

impl Path {
    /// The path that a text spells, its parts between dots. The parts are counted before memory is taken for them.
    #[tactic(auto, using(crate::proofs::Cuts::parts_counted))]
    pub fn read(alloc: Global, text: &str) -> Result<Path, PathRefused>
        ensures ok { IfOk result (λ path. read text.now ≡ Ok path) }
        ensures refused { IfErr result (λ why. IsRefusedFor why (read text.now)) }
    {
        if any_empty(text) {
            return Err(PathRefused::Empty);
        }
        if dots(text) >= MOST_PARTS {
            return Err(PathRefused::Long);
        }
        match cut(alloc, text) {
            Ok(parts) => shared(alloc, parts),
            Err(NoMemory) => Err(PathRefused::NoMemory),
        }
    }

    pub fn parts(&self) -> &[Text]
        ensures same { result.now ≡ self.now }
        ensures some { 0 < length self.now }
        ensures few { length self.now ≤ 100 }
    {
        self.parts.as_slice()
    }

    /// A copy that shares the parts.
    pub fn copy(&self, _alloc: Global) -> Result<Path, NoMemory>
        ensures { IfOk result (λ path. path ≡ self.now) }
    {
        let parts = Arc::try_clone(&self.parts)?;
        Ok(Path { parts })
    }
}
