//! Messages as entries, while a call is open.
ghost use Rattle.std.specs.Prelude.{◌≡◌, IfErr, IfOk, true};
ghost use Rattle.tcl_serve.specs.Entering.{AsksEntry, IsEntry, IsMisfit, NoEntry, client_way};
ghost use Rattle.tcl_serve.specs.Messages as asks;
ghost use Rattle.tcl_serve.specs.Messages.{ask_of, evaluation_of};
ghost use Rattle.tcl_serve.specs.declared.messages.Ask.TheVariants as ask;
ghost use Rattle.tcl_run.specs.Entering.{whole_entry};

use crate::messages::{
    Alias, AliasToClient, Ask, ClearAlias, Create, Evaluate, LimitCount, LimitDepth,
};
use crate::refusals::Refusal;
use std::alloc::Global;
use tcl_run::entry::{Entry, OwnEntry};
use tcl_text::text::Text;
use tcl_tree::alias;
use tcl_value::value::Value;

/// What the interpreter at a path is asked for.
pub type Asked = (Vec<Text>, Entry);

/// The values of these texts.
///
/// # Errors
/// 122; want of memory.
pub fn values_of(alloc: Global, texts: &[Text]) -> Result<Vec<Value>, Refusal>
    ensures values { IfOk result (λ values. values.items ≡ texts.now) }
    ensures fault { IfErr result IsMisfit }
{
    let mut values = Vec::new(alloc);
    'texts: for text in texts {
        values.push(Value::from_text(text.clone()?)?)?;
    }
    Ok(values)
}

/// The alias of an interpreter at the path to the client, whose calls begin with these words.
///
/// # Errors
/// 122; want of memory.
pub fn client_alias(alloc: Global, path: &[Text], words: &[Text]) -> Result<alias::Alias, Refusal>
    ensures alias { IfOk result (λ made. made ≡ client_way path.now words.now) }
    ensures fault { IfErr result IsMisfit }
{
    let words = values_of(alloc, words)?;
    Ok(alias::Alias::past(alloc, path, words)?)
}

/// What a script is evaluated by.
///
/// # Errors
/// 512; 122; want of memory.
pub(crate) fn evaluation(evaluate: Evaluate) -> Result<Asked, Refusal>
    ensures entry { IfOk result (λ asked. IsEntry (asks.Evaluate (evaluation_of evaluate))
        evaluate.interpreter.tree asked.0.items (whole_entry asked.1) true) }
    ensures fault { IfErr result NoEntry }
{
    let Evaluate {
        interpreter,
        script,
        limit,
    } = evaluate;
    if limit.is_some() {
        return Err(Refusal::EntryLimit);
    }
    let script = Value::from_text(script)?;
    Ok((interpreter.path, Entry::Eval(script)))
}

/// What is asked of an interpreter by a message that evaluates no script.
///
/// # Errors
/// 510 where it isn't done as an entry; 513; 122; want of memory.
pub(crate) fn entry_of(alloc: Global, ask: Ask) -> Result<Asked, Refusal>
    ensures entry { IfOk result
        (λ asked. AsksEntry (ask_of ask) asked.0.items (whole_entry asked.1)) }
    ensures fault { IfErr result NoEntry }
{
    match ask {
        Ask::Create(ask) => creation(ask),
        Ask::Delete(path) => deletion(path),
        Ask::Alias(ask) => alias_entry(alloc, ask),
        Ask::AliasToClient(ask) => client_alias_entry(alloc, ask),
        Ask::ClearAlias(ClearAlias { path, name }) => {
            Ok((path, Entry::Own(OwnEntry::ClearAlias(name))))
        }
        Ask::LimitCount(LimitCount { path, count }) => {
            Ok((path, Entry::Own(OwnEntry::SetCountLimit(count))))
        }
        Ask::LimitDepth(LimitDepth { path, depth }) => {
            Ok((path, Entry::Own(OwnEntry::SetDepthLimit(depth))))
        }
        _ => Err(Refusal::CallOpen),
    }
}

/// What an interpreter is made by, of the one above it.
///
/// # Errors
/// 513.
fn creation(create: Create) -> Result<Asked, Refusal>
    ensures entry { IfOk result
        (λ asked. AsksEntry (ask_of (ask.Create create)) asked.0.items (whole_entry asked.1)) }
    ensures fault { IfErr result NoEntry }
{
    let Create { path, safe } = create;
    let mut target = path;
    match target.pop() {
        Some(name) => {
            let name = Some(name);
            Ok((target, Entry::Own(OwnEntry::Create { name, safe })))
        }
        None => Err(Refusal::Root),
    }
}

/// What an interpreter is deleted by, of the one above it.
///
/// # Errors
/// 513.
fn deletion(path: Vec<Text>) -> Result<Asked, Refusal>
    ensures entry { IfOk result
        (λ asked. AsksEntry (ask_of (ask.Delete path)) asked.0.items (whole_entry asked.1)) }
    ensures fault { IfErr result NoEntry }
{
    let mut target = path;
    match target.pop() {
        Some(name) => Ok((target, Entry::Own(OwnEntry::Delete(name)))),
        None => Err(Refusal::Root),
    }
}

/// What a name becomes an alias to another interpreter by.
///
/// # Errors
/// 122; want of memory.
fn alias_entry(alloc: Global, alias: Alias) -> Result<Asked, Refusal>
    ensures entry { IfOk result
        (λ asked. AsksEntry (ask_of (ask.Alias alias)) asked.0.items (whole_entry asked.1)) }
    ensures fault { IfErr result NoEntry }
{
    let Alias {
        path,
        name,
        to,
        words,
    } = alias;
    let words = values_of(alloc, words.as_slice())?;
    let alias = alias::Alias::between(alloc, path.as_slice(), to.as_slice(), words)?;
    Ok((path, Entry::Own(OwnEntry::SetAlias { name, alias })))
}

/// What a name becomes an alias to the client by.
///
/// # Errors
/// 122; want of memory.
fn client_alias_entry(alloc: Global, alias: AliasToClient) -> Result<Asked, Refusal>
    ensures entry { IfOk result
        (λ asked. AsksEntry (ask_of (ask.AliasToClient alias)) asked.0.items
        (whole_entry asked.1)) }
    ensures fault { IfErr result NoEntry }
{
    let AliasToClient { path, name, words } = alias;
    let alias = client_alias(alloc, path.as_slice(), words.as_slice())?;
    Ok((path, Entry::Own(OwnEntry::SetAlias { name, alias })))
}
