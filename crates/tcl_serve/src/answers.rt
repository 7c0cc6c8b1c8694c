//! The lines that are written.
ghost use Rattle.serde_json.specs.Data.{member, no_members, object};
ghost use Rattle.serde_json.specs.View.{view};
ghost use Rattle.std.specs.Prelude.{◌≡◌, IfOk};
ghost use Rattle.std.specs.String.{string_bytes};
ghost use Rattle.tcl_serve.specs.Answers as written;
ghost use Rattle.tcl_serve.specs.Answers.{answer_data, ended_data, error_data, limit_name};
ghost use Rattle.tcl_serve.specs.Answers.{object_with, replayed_data, standing_data, text_data};
ghost use Rattle.tcl_serve.specs.Answers.{texts_data, watched_data};
ghost use Rattle.tcl_serve.specs.declared.answers.Ended.TheVariants.{Completed, Cut, Exited};
ghost use Rattle.tcl_serve.specs.declared.answers.Ended.TheVariants.{Stopped};

use crate::refusals::Refusal;
use serde_json::{Map, Value, put};
use std::alloc::{AllocError, Global};
use tcl_flow::stop::StopKind;
use tcl_text::text::Text;

/// How an evaluation ended.
#[derive(Drop)]
pub enum Ended {
    /// It completed, with this code and text.
    Completed(i64, Text),
    /// A limit of the root was met.
    Stopped(StopKind),
    /// It ended the whole run with this status.
    Exited(i64),
    /// The client ended the run, or is gone.
    Cut,
}

/// How an interpreter stands.
#[derive(Drop)]
pub struct Standing {
    /// Whether it is safe.
    pub safe: bool,
    /// How many steps were counted in it.
    pub count: u64,
    /// The limit of these.
    pub count_limit: Option<u64>,
    /// How many evaluations are in progress in it and below it.
    pub depth: u64,
    /// The limit of these.
    pub depth_limit: u64,
    /// The names of its children.
    pub children: Vec<Text>,
}

/// An evaluation that was watched.
#[derive(Drop)]
pub struct Watched {
    /// How it ended.
    pub ended: Ended,
    /// The number of the record.
    pub number: u64,
    /// The lines of the record.
    pub lines: Vec<Text>,
}

/// A replay.
#[derive(Drop)]
pub struct Replayed {
    /// What came of the moves.
    pub outcome: Text,
    /// Whether the interpreter told what it tells in the record.
    pub same: bool,
    /// The number under which it is kept as it was left.
    pub saved: u64,
    /// What it told, a line for each crossing.
    pub lines: Vec<Text>,
}

/// What is said of a message that was done.
#[derive(Drop)]
pub enum Answer {
    /// It was done.
    Done,
    /// The tree has this number.
    Tree(u64),
    /// The saved interpreter has this number.
    Saved(u64),
    /// The text that was asked for, if it is there.
    Text(Option<Text>),
    /// How the interpreter stands.
    Standing(Standing),
    /// How the evaluation ended.
    Ended(Ended),
    /// How the evaluation ended that was watched.
    Watched(Watched),
    /// What came of the replay.
    Replayed(Replayed),
    /// Whether the two are the same.
    Same(bool),
}

/// A list of texts.
fn texts_value(alloc: Global, texts: &[Text]) -> Result<Value, AllocError>
    ensures { IfOk result (λ value. view value ≡ texts_data texts.now) }
{
    let mut items = Vec::new(alloc);
    'texts: for text in texts {
        items.push(Value::try_from_str(alloc, text.as_str())?)?;
    }
    Ok(Value::Array(items))
}

/// A text, or null.
fn text_value(alloc: Global, text: &Option<Text>) -> Result<Value, AllocError>
    ensures { IfOk result (λ value. view value ≡ text_data text.now) }
{
    match text {
        Some(text) => Value::try_from_str(alloc, text.as_str()),
        None => Ok(Value::Null),
    }
}

/// The name of a limit. (That the root is gone can't come.)
fn limit_name(kind: StopKind) -> &'static str
    ensures { result.now ≡ limit_name kind }
{
    match kind {
        StopKind::Count => "count",
        StopKind::Depth => "depth",
        StopKind::Gone => "gone",
    }
}

/// An object of these members. (`json!` has an exit at each member, where what is made of the
/// object is let go: that is dear to prove.)
fn object(alloc: Global, members: Vec<(&str, Value)>) -> Result<Value, AllocError>
    ensures { IfOk result (λ value. view value ≡ object_with members.entry.items) }
{
    let mut object = Map::new(alloc);
    'members: for (name, value) in members {
        put(&mut object, alloc, name, value)?;
    }
    Ok(Value::Object(object))
}

/// An object of this member alone.
fn object_of_one(alloc: Global, name: &str, value: Value) -> Result<Value, AllocError>
    ensures { IfOk result
        (λ made. view made ≡ object (member name.now (view value) no_members)) }
{
    let mut object = Map::new(alloc);
    put(&mut object, alloc, name, value)?;
    Ok(Value::Object(object))
}

/// That an evaluation completed.
fn completed_value(alloc: Global, code: i64, text: &Text) -> Result<Value, AllocError>
    ensures { IfOk result (λ value. view value ≡ ended_data (Completed code text.now)) }
{
    let end = Value::try_from_str(alloc, "completed")?;
    let text = Value::try_from_str(alloc, text.as_str())?;
    let members = vec![in alloc; ("end", end), ("code", Value::from(code)), ("text", text)]?;
    object(alloc, members)
}

/// That an evaluation met this limit.
fn stopped_value(alloc: Global, kind: StopKind) -> Result<Value, AllocError>
    ensures { IfOk result (λ value. view value ≡ ended_data (Stopped kind)) }
{
    let end = Value::try_from_str(alloc, "stopped")?;
    let limit = Value::try_from_str(alloc, limit_name(kind))?;
    let members = vec![in alloc; ("end", end), ("limit", limit)]?;
    object(alloc, members)
}

/// That an evaluation ended the whole run.
fn exited_value(alloc: Global, status: i64) -> Result<Value, AllocError>
    ensures { IfOk result (λ value. view value ≡ ended_data (Exited status)) }
{
    let end = Value::try_from_str(alloc, "exited")?;
    let members = vec![in alloc; ("end", end), ("status", Value::from(status))]?;
    object(alloc, members)
}

/// That the client ended the run, or is gone.
fn cut_value(alloc: Global) -> Result<Value, AllocError>
    ensures { IfOk result (λ value. view value ≡ ended_data Cut) }
{
    let end = Value::try_from_str(alloc, "cut")?;
    object_of_one(alloc, "end", end)
}

/// How an evaluation ended.
fn ended_value(alloc: Global, ended: &Ended) -> Result<Value, AllocError>
    ensures { IfOk result (λ value. view value ≡ ended_data ended.now) }
{
    match ended {
        Ended::Completed(code, text) => completed_value(alloc, *code, text),
        Ended::Stopped(kind) => stopped_value(alloc, *kind),
        Ended::Exited(status) => exited_value(alloc, *status),
        Ended::Cut => cut_value(alloc),
    }
}

/// How an interpreter stands.
fn standing_value(alloc: Global, standing: &Standing) -> Result<Value, AllocError>
    ensures { IfOk result (λ value. view value ≡ standing_data standing.now) }
{
    let children = texts_value(alloc, standing.children.as_slice())?;
    let members = vec![in alloc;
        ("children", children),
        ("safe", Value::Bool(standing.safe)),
        ("count", Value::from(standing.count)),
        ("count_limit", Value::from(standing.count_limit)),
        ("depth", Value::from(standing.depth)),
        ("depth_limit", Value::from(standing.depth_limit)),
    ]?;
    object(alloc, members)
}

/// An evaluation that was watched.
fn watched_value(alloc: Global, watched: &Watched) -> Result<Value, AllocError>
    ensures { IfOk result (λ value. view value ≡ watched_data watched.now) }
{
    let ended = ended_value(alloc, &watched.ended)?;
    let lines = texts_value(alloc, watched.lines.as_slice())?;
    let members = vec![in alloc;
        ("ended", ended),
        ("record", Value::from(watched.number)),
        ("lines", lines),
    ]?;
    object(alloc, members)
}

/// A replay.
fn replayed_value(alloc: Global, replayed: &Replayed) -> Result<Value, AllocError>
    ensures { IfOk result (λ value. view value ≡ replayed_data replayed.now) }
{
    let lines = texts_value(alloc, replayed.lines.as_slice())?;
    let outcome = Value::try_from_str(alloc, replayed.outcome.as_str())?;
    let members = vec![in alloc;
        ("lines", lines),
        ("outcome", outcome),
        ("same", Value::Bool(replayed.same)),
        ("saved", Value::from(replayed.saved)),
    ]?;
    object(alloc, members)
}

/// What is said of a message that was done.
fn answer_value(alloc: Global, answer: &Answer) -> Result<Value, AllocError>
    ensures { IfOk result (λ value. view value ≡ answer_data answer.now) }
{
    match answer {
        Answer::Done => Ok(Value::Object(Map::new(alloc))),
        Answer::Tree(number) => object_of_one(alloc, "tree", Value::from(*number)),
        Answer::Saved(number) => object_of_one(alloc, "saved", Value::from(*number)),
        Answer::Text(text) => object_of_one(alloc, "text", text_value(alloc, text)?),
        Answer::Standing(standing) => standing_value(alloc, standing),
        Answer::Ended(ended) => ended_value(alloc, ended),
        Answer::Watched(watched) => watched_value(alloc, watched),
        Answer::Replayed(replayed) => replayed_value(alloc, replayed),
        Answer::Same(same) => object_of_one(alloc, "same", Value::Bool(*same)),
    }
}

/// What answers a message of this id.
fn answer_object(alloc: Global, id: Option<u64>, answer: &Answer) -> Result<Value, AllocError>
    ensures { IfOk result (λ value. view value ≡ written.answer_object id answer.now) }
{
    let answer = answer_value(alloc, answer)?;
    let members = vec![in alloc; ("id", Value::from(id)), ("ok", answer)]?;
    object(alloc, members)
}

/// Why a message isn't done.
fn error_value(alloc: Global, refusal: &Refusal) -> Result<Value, AllocError>
    ensures { IfOk result (λ value. view value ≡ error_data refusal.now) }
{
    let text = Value::String(refusal.text(alloc)?);
    let members = vec![in alloc; ("number", Value::from(refusal.number())), ("text", text)]?;
    object(alloc, members)
}

/// What answers a message of this id, or of none that can be read, which isn't done.
fn refusal_object(alloc: Global, id: Option<u64>, refusal: &Refusal) -> Result<Value, AllocError>
    ensures { IfOk result (λ value. view value ≡ written.refusal_object id refusal.now) }
{
    let error = error_value(alloc, refusal)?;
    let members = vec![in alloc; ("id", Value::from(id)), ("error", error)]?;
    object(alloc, members)
}

/// What answers a message of this id, or a line of which none can be read.
fn reply_object(
    alloc: Global,
    id: Option<u64>,
    answer: &Result<Answer, Refusal>,
) -> Result<Value, AllocError>
    ensures { IfOk result (λ value. view value ≡ written.reply_object id answer.now) }
{
    match answer {
        Ok(answer) => answer_object(alloc, id, answer),
        Err(refusal) => refusal_object(alloc, id, refusal),
    }
}

/// The line that answers a message of this id, or a line of which none can be read.
///
/// # Errors
/// Want of memory.
pub fn reply_line(
    alloc: Global,
    id: Option<u64>,
    answer: &Result<Answer, Refusal>,
) -> Result<String, AllocError>
    ensures { IfOk result (λ line. string_bytes line ≡ written.reply_line id answer.now) }
{
    let object = reply_object(alloc, id, answer)?;
    let line = object.to_string(alloc)?;
    Ok(line)
}

/// A call of the client.
#[derive(Drop)]
pub struct ClientCall {
    /// Its number.
    pub number: u64,
    /// The tree's number.
    pub tree: u64,
    /// The path of the interpreter that calls.
    pub interpreter: Vec<Text>,
    /// The alias's words, and behind them those of the call.
    pub words: Vec<Text>,
}

/// What calls the client.
fn call_object(alloc: Global, call: &ClientCall) -> Result<Value, AllocError>
    ensures { IfOk result (λ value. view value ≡ written.call_object call.now) }
{
    let interpreter = texts_value(alloc, call.interpreter.as_slice())?;
    let words = texts_value(alloc, call.words.as_slice())?;
    let members = vec![in alloc;
        ("call", Value::from(call.number)),
        ("tree", Value::from(call.tree)),
        ("interpreter", interpreter),
        ("words", words),
    ]?;
    object(alloc, members)
}

/// The line that calls the client.
///
/// # Errors
/// Want of memory.
pub fn call_line(alloc: Global, call: &ClientCall) -> Result<String, AllocError>
    ensures { IfOk result (λ line. string_bytes line ≡ written.call_line call.now) }
{
    let object = call_object(alloc, call)?;
    let line = object.to_string(alloc)?;
    Ok(line)
}
