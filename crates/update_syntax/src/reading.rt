ghost use Rattle.std.specs.Prelude.{◌≡◌, ◌++◌, ◌∷◌, [], map, IfErr, IfOk, OnOk, Ok};
ghost use Rattle.std.specs.Option.{option_copied};
ghost use Rattle.std.specs.List.{flat_map, list_all};
ghost use Rattle.bson_values.specs.declared.value.Value.{out-Value};
ghost use Rattle.filter_syntax.specs.Operands.{all_of, each};
ghost use Rattle.update_syntax.specs.declared.refused.UpdateRefused.TheVariants as refused;
ghost use Rattle.update_syntax.specs.Answers.{Adds, Fails, Gives};
ghost use Rattle.update_syntax.specs.Reading.{is_field, is_operation, operator_steps, path_at, paths_of, target_of, read, read_document};
ghost use Rattle.update_syntax.specs.Reading.{read_operators, read_replacement, step_of, steps_in, without_conflict};
ghost use Rattle.update_syntax.specs.Told.{told};

use crate::conflicts::any_clash;
use crate::names::{begins_with_operator, has_dollar};
use crate::operands::read_step;
use crate::operators::{Operator, operator_named};
use crate::paths::read_path;
use crate::refused::UpdateRefused;
use crate::update::{Step, Update};
use bson_values::{Document, List, NoMemory, Pair, Value};
use case_tables::{BAD_UPDATE, NOT_SUPPORTED, PATHS_CONFLICT};
use doc_paths::Path;
use std::alloc::Global;

// ---- forms

fn is_operation(pair: &Pair<Value>) -> bool
    ensures { result ≡ is_operation pair.now }
{
    operator_named(pair.name.as_str()).is_some() && matches!(pair.value, Value::Doc(_))
}

fn are_operations(pairs: &[Pair<Value>]) -> bool
    ensures { result ≡ list_all is_operation pairs.now }
{
    pairs.iter().all(|pair| is_operation(pair))
}

fn is_field(pair: &Pair<Value>) -> bool
    ensures { result ≡ is_field pair.now }
{
    !has_dollar(pair.name.as_str())
}

fn are_fields(pairs: &[Pair<Value>]) -> bool
    ensures { result ≡ list_all is_field pairs.now }
{
    pairs.iter().all(|pair| is_field(pair))
}

// ---- conflicts

impl Step {
    fn path(&self) -> &Path
        ensures { result.now ≡ path_at self.now }
    {
        match self {
            Step::Set(path, _) => path,
            Step::SetOnInsert(path, _) => path,
            Step::Unset(path) => path,
            Step::Inc(path, _) => path,
            Step::Mul(path, _) => path,
            Step::Min(path, _) => path,
            Step::Max(path, _) => path,
            Step::Rename(path, _) => path,
            Step::Push(path, _) => path,
            Step::AddToSet(path, _) => path,
            Step::Pop { path, .. } => path,
            Step::Pull(path, _) => path,
            Step::PullAll(path, _) => path,
            Step::CurrentDate { path, .. } => path,
            Step::Bit(path, _, _) => path,
        }
    }

    /// The path to which a value is moved.
    fn target(&self) -> Option<&Path>
        ensures { option_copied result ≡ target_of self.now }
    {
        match self {
            Step::Rename(_, target) => Some(target),
            _ => None,
        }
    }
}

fn add_path(alloc: Global, path: &Path, out: &mut List<Path>) -> Result<(), NoMemory>
    ensures { OnOk result (out.new ≡ out.old ++ path.now ∷ []) }
{
    let path = path.copy(alloc)?;
    out.add(path)
}

fn add_paths(alloc: Global, step: &Step, out: &mut List<Path>) -> Result<(), NoMemory>
    ensures { OnOk result (out.new ≡ out.old ++ paths_of step.now) }
{
    add_path(alloc, step.path(), out)?;
    match step.target() {
        Some(target) => add_path(alloc, target, out),
        None => Ok(()),
    }
}

fn paths_of(alloc: Global, steps: &[Step]) -> Result<List<Path>, NoMemory>
    ensures { IfOk result (λ all. all ≡ flat_map paths_of steps.now) }
{
    let mut all = List::new(alloc);
    for step in steps {
        add_paths(alloc, step, &mut all)?;
    }
    Ok(all)
}

fn without_conflict(alloc: Global, steps: List<Step>) -> Result<Update, UpdateRefused>
    ensures { Gives result (without_conflict steps) }
{
    let paths = paths_of(alloc, steps.as_slice())?;
    if any_clash(paths) {
        return Err(UpdateRefused::Refused(PATHS_CONFLICT));
    }
    Ok(Update::Steps(steps))
}

// ---- operators

fn read_pair(alloc: Global, operator: Operator, pair: &Pair<Value>) -> Result<Step, UpdateRefused>
    ensures { Gives result (step_of (told operator) pair.now) }
{
    match read_path(alloc, pair.name.as_str()) {
        Ok(path) => read_step(alloc, operator, path, &pair.value),
        Err(why) => Err(why),
    }
}

/// The steps of one operator, a path each.
#[tactic(auto, using(crate::proofs::Same::map_same))]
fn read_pairs(
    alloc: Global,
    operator: Operator,
    pairs: &[Pair<Value>],
) -> Result<List<Step>, UpdateRefused>
    ensures { Gives result (each (step_of (told operator)) pairs.now) }
{
    let mut all = List::new(alloc);
    for pair in pairs {
        let step = read_pair(alloc, operator, pair)?;
        all.add(step)?;
    }
    Ok(all)
}

fn put_all(steps: List<Step>, out: &mut List<Step>) -> Result<(), UpdateRefused>
    ensures ok { OnOk result (out.new ≡ out.old ++ steps) }
    ensures none { IfErr result (λ why. why ≡ refused.NoMemory) }
{
    match out.append(steps) {
        Ok(()) => Ok(()),
        Err(NoMemory) => Err(UpdateRefused::NoMemory),
    }
}

#[tactic(auto, unfolding(crate::specs::Reading::operator_steps))]
fn read_operator(
    alloc: Global,
    pair: &Pair<Value>,
    out: &mut List<Step>,
) -> Result<(), UpdateRefused>
    ensures { Adds out.old out.new result (operator_steps pair.now) }
{
    let Some(operator) = operator_named(pair.name.as_str()) else {
        return Err(UpdateRefused::Refused(BAD_UPDATE));
    };
    let Value::Doc(doc) = &pair.value else {
        return Err(UpdateRefused::Refused(BAD_UPDATE));
    };
    match read_pairs(alloc, operator, doc.as_slice()) {
        Ok(steps) => put_all(steps, out),
        Err(why) => Err(why),
    }
}

fn read_each(alloc: Global, pairs: &[Pair<Value>]) -> Result<List<Step>, UpdateRefused>
    ensures { Gives result (all_of operator_steps (map (λ pair. pair) pairs.now)) }
{
    let mut all = List::new(alloc);
    for pair in pairs {
        read_operator(alloc, pair, &mut all)?;
    }
    Ok(all)
}

#[tactic(auto, using(crate::proofs::Same::map_same))]
fn read_operators(alloc: Global, pairs: &[Pair<Value>]) -> Result<Update, UpdateRefused>
    ensures { Gives result (read_operators pairs.now) }
{
    if !are_operations(pairs) {
        return Err(UpdateRefused::Refused(BAD_UPDATE));
    }
    match read_each(alloc, pairs) {
        Ok(steps) => without_conflict(alloc, steps),
        Err(why) => Err(why),
    }
}

// ---- updates

fn read_replacement(alloc: Global, doc: &Document, multi: bool) -> Result<Update, UpdateRefused>
    ensures { Gives result (read_replacement multi doc.now) }
{
    if multi || !are_fields(doc.as_slice()) {
        return Err(UpdateRefused::Refused(BAD_UPDATE));
    }
    let doc = doc.copy(alloc)?;
    Ok(Update::Replace(doc))
}

fn read_document(alloc: Global, doc: &Document, multi: bool) -> Result<Update, UpdateRefused>
    ensures { Gives result (read_document multi doc.now) }
{
    if begins_with_operator(doc) {
        return read_operators(alloc, doc.as_slice());
    }
    read_replacement(alloc, doc, multi)
}

impl Update {
    /// The update that a value spells: operators, where its first name begins with `$`, else a replacement, which `multi`, an update of
    /// all documents, does not take.
    pub fn read(alloc: Global, value: &Value, multi: bool) -> Result<Update, UpdateRefused>
        ensures ok { IfOk result (λ update. read multi value.now ≡ Ok update) }
        ensures refused { IfErr result (λ why. Fails why (read multi value.now)) }
    {
        match value {
            Value::Doc(doc) => read_document(alloc, doc, multi),
            Value::Arr(_) => Err(UpdateRefused::Refused(NOT_SUPPORTED)),
            _ => Err(UpdateRefused::Refused(BAD_UPDATE)),
        }
    }
}
