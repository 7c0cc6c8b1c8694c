//! The messages that lines are.
ghost use Rattle.serde_json.specs.Read.{read};
ghost use Rattle.serde_json.specs.View.{view};
ghost use Rattle.std.specs.Prelude.{◌≡◌, ◌≢◌, ◌⊎◌, Err, IfErr, IfOk, IsUtf8, Ok, Some};
ghost use Rattle.tcl_serve.specs.Fields.{mapped};
ghost use Rattle.tcl_serve.specs.Messages.{IsNoJson, MeansOrWants, alias_in, alias_to_client_in};
ghost use Rattle.tcl_serve.specs.Messages.{ask_of, asked, asks_in, asks_of, channel_of};
ghost use Rattle.tcl_serve.specs.Messages.{clear_alias_in, compare_in, create_in, evaluation_in};
ghost use Rattle.tcl_serve.specs.Messages.{evaluation_of, id_in, kind_in, limit_count_in};
ghost use Rattle.tcl_serve.specs.Messages.{limit_depth_in, make_tree_in, on_tree, place_in};
ghost use Rattle.tcl_serve.specs.Messages.{place_of, put_file_in, replay_in, return_in, said_of};
ghost use Rattle.tcl_serve.specs.Messages.{said_under, take_output_in, watch_in};
ghost use Rattle.tcl_serve.specs.declared.messages.Ask.TheVariants as ask;
ghost use Rattle.tcl_serve.specs.declared.messages.Message.TheVariants as message;
ghost use Rattle.tcl_serve.specs.declared.refusals.Refusal.TheVariants.{Memory};

use crate::fields::{
    Field, flag_in, integer_in, number_in, number_or_null_in, only, optional_number_in, str_in,
    text_in, texts_in,
};
use crate::kinds::Kind;
use crate::refusals::Refusal;
use serde_json::Value;
use std::alloc::Global;
use tcl_interpreter::node::MOST_STEPS;
use tcl_text::integer::Integers;
use tcl_text::text::Text;

/// How many steps an evaluation or a replay may make where its message doesn't say.
pub const STEPS: u64 = 10_000_000;

/// An interpreter of a tree.
#[derive(Drop)]
pub struct Interpreter {
    /// The tree's number.
    pub tree: u64,
    /// The interpreter's path.
    pub path: Vec<Text>,
}

/// An interpreter is made.
#[derive(Drop)]
pub struct Create {
    /// Its path.
    pub path: Vec<Text>,
    /// Whether it is safe in any case.
    pub safe: bool,
}

/// A name of an interpreter becomes an alias to another one.
#[derive(Drop)]
pub struct Alias {
    /// The interpreter's path.
    pub path: Vec<Text>,
    /// The name.
    pub name: Text,
    /// The path of the other interpreter.
    pub to: Vec<Text>,
    /// The words with which calls begin there.
    pub words: Vec<Text>,
}

/// A name of an interpreter becomes an alias to the client.
#[derive(Drop)]
pub struct AliasToClient {
    /// The interpreter's path.
    pub path: Vec<Text>,
    /// The name.
    pub name: Text,
    /// The words with which calls begin.
    pub words: Vec<Text>,
}

/// An alias of an interpreter is taken away.
#[derive(Drop)]
pub struct ClearAlias {
    /// The interpreter's path.
    pub path: Vec<Text>,
    /// The alias's name.
    pub name: Text,
}

/// The limit of steps of an interpreter is set, or taken away.
#[derive(Drop)]
pub struct LimitCount {
    /// The interpreter's path.
    pub path: Vec<Text>,
    /// The limit.
    pub count: Option<u64>,
}

/// The limit of depth of an interpreter is set.
#[derive(Drop)]
pub struct LimitDepth {
    /// The interpreter's path.
    pub path: Vec<Text>,
    /// The limit.
    pub depth: u64,
}

/// A file is put into the place of any that has its name.
#[derive(Drop)]
pub struct PutFile {
    /// The file's name.
    pub name: Text,
    /// What it holds.
    pub text: Text,
}

/// A channel that scripts write to.
#[derive(Clone, Copy)]
pub enum Channel {
    /// `stdout`.
    Output,
    /// `stderr`.
    Errors,
}

/// What is asked of a tree that evaluates no script.
#[derive(Drop)]
pub enum Ask {
    Create(Create),
    /// The interpreter at the path is deleted.
    Delete(Vec<Text>),
    Alias(Alias),
    AliasToClient(AliasToClient),
    ClearAlias(ClearAlias),
    LimitCount(LimitCount),
    LimitDepth(LimitDepth),
    /// The interpreter at the path is looked at.
    Look(Vec<Text>),
    PutFile(PutFile),
    /// The file of this name is read.
    GetFile(Text),
    /// The text is put behind what can be read from `stdin`.
    PutInput(Text),
    /// What was written to the channel is taken.
    TakeOutput(Channel),
}

/// A script is evaluated in an interpreter.
#[derive(Drop)]
pub struct Evaluate {
    /// The interpreter.
    pub interpreter: Interpreter,
    /// The script.
    pub script: Text,
    /// How many steps it may make; none where the message doesn't say.
    pub limit: Option<u64>,
}

/// A script is evaluated, and what crosses the boundary of an interpreter meanwhile is recorded.
#[derive(Drop)]
pub struct Watch {
    /// The evaluation.
    pub evaluate: Evaluate,
    /// The path of the interpreter that is watched.
    pub watched: Vec<Text>,
}

/// Two saved interpreters are compared.
#[derive(Clone, Copy)]
pub struct Compare {
    /// The number of the one.
    pub saved: u64,
    /// The number of the other.
    pub with: u64,
}

/// A record is replayed to a saved interpreter.
#[derive(Clone, Copy)]
pub struct Replay {
    /// The number of the saved interpreter.
    pub saved: u64,
    /// The number of the record.
    pub played: u64,
    /// How many steps it may make.
    pub limit: u64,
}

/// The open call is answered.
#[derive(Drop)]
pub struct Return {
    /// The call's number.
    pub call: u64,
    /// The code of its completion.
    pub code: i64,
    /// The text of its completion.
    pub text: Text,
}

/// What a line asks for.
#[derive(Drop)]
pub enum Message {
    /// A tree is made, in which integer texts are read so.
    MakeTree(Integers),
    /// The tree of this number is dropped.
    DropTree(u64),
    /// Something is asked of the tree of this number.
    OnTree(u64, Ask),
    Evaluate(Evaluate),
    Watch(Watch),
    /// The interpreter is saved.
    Save(Interpreter),
    Compare(Compare),
    Replay(Replay),
    /// The saved interpreter of this number is dropped.
    DropSaved(u64),
    /// The record of this number is dropped.
    DropRecord(u64),
    Return(Return),
    /// The run of the open call of this number is ended.
    EndRun(u64),
}

/// A line that was read.
#[derive(Drop)]
pub enum Line {
    /// It has this id, and asks for something.
    Asks(u64, Message),
    /// It isn't understood. It has this id, if that can be read.
    Fails(Option<u64>, Refusal),
}

/// What a line says.
pub fn message_in(alloc: Global, line: &[u8]) -> Line
    ensures { MeansOrWants line.now (said_of result) }
{
    match json_of(alloc, line) {
        Ok(value) => line_of(alloc, &value),
        Err(refusal) => Line::Fails(None, refusal),
    }
}

/// The JSON that a line is.
fn json_of(alloc: Global, line: &[u8]) -> Result<Value, Refusal>
    ensures ok { IfOk result (λ value. IsUtf8 line.now × (read line.now ≡ Some (view value))) }
    ensures err { IfErr result (IsNoJson line.now) }
{
    let Ok(text) = str::from_utf8(line) else {
        return Err(Refusal::NotUtf8);
    };
    match Value::from_str(alloc, text) {
        Ok(value) => Ok(value),
        Err(error) => {
            if error.is_memory() {
                return Err(Refusal::Memory);
            }
            Err(Refusal::NotJson)
        }
    }
}

/// What a line of JSON says.
fn line_of(alloc: Global, line: &Value) -> Line
    ensures { (said_of result ≡ said_under (view line.now) (id_in (view line.now))) ⊎
        ((said_of result).asks ≡ Err Memory) }
{
    match id_of(line) {
        Ok(id) => line_under(id, message_of(alloc, line)),
        Err(refusal) => Line::Fails(None, refusal),
    }
}

/// The line of an id that asks for this.
fn line_under(id: u64, message: Result<Message, Refusal>) -> Line
    ensures { said_of result ≡ record { id = Some id; asks = mapped asks_of message } }
{
    match message {
        Ok(message) => Line::Asks(id, message),
        Err(refusal) => Line::Fails(Some(id), refusal),
    }
}

/// The id of a line.
fn id_of(line: &Value) -> Result<u64, Refusal>
    ensures ok { IfOk result (λ r. id_in (view line.now) ≡ Ok r) }
    ensures err { IfErr result (λ e. id_in (view line.now) ≡ Err e) }
{
    if !line.is_object() {
        return Err(Refusal::NotObject);
    }
    number_in(line, Field::Id)
}

/// What a line asks for.
fn message_of(alloc: Global, line: &Value) -> Result<Message, Refusal>
    ensures ok { IfOk result (λ r. asks_in (view line.now) ≡ Ok (asks_of r)) }
    ensures err { IfErr result (λ e. e ≢ Memory → asks_in (view line.now) ≡ Err e) }
{
    let kind = kind_of(alloc, line)?;
    only(alloc, line, kind.fields())?;
    message_as(alloc, line, kind)
}

/// What a message of this kind asks for.
fn message_as(alloc: Global, line: &Value, kind: Kind) -> Result<Message, Refusal>
    ensures ok { IfOk result (λ r. asked kind (view line.now) ≡ Ok (asks_of r)) }
    ensures err { IfErr result (λ e. e ≢ Memory → asked kind (view line.now) ≡ Err e) }
{
    match kind {
        Kind::MakeTree => Ok(Message::MakeTree(make_tree_in(line)?)),
        Kind::DropTree => Ok(Message::DropTree(number_in(line, Field::Tree)?)),
        Kind::Create => on_tree(line, Ask::Create(create_in(alloc, line)?)),
        Kind::Delete => on_tree(line, Ask::Delete(texts_in(alloc, line, Field::Path)?)),
        Kind::Evaluate => Ok(Message::Evaluate(evaluate_in(alloc, line)?)),
        Kind::Alias => on_tree(line, Ask::Alias(alias_in(alloc, line)?)),
        Kind::AliasToClient => on_tree(line, Ask::AliasToClient(alias_to_client_in(alloc, line)?)),
        Kind::ClearAlias => on_tree(line, Ask::ClearAlias(clear_alias_in(alloc, line)?)),
        Kind::LimitCount => on_tree(line, Ask::LimitCount(limit_count_in(alloc, line)?)),
        Kind::LimitDepth => on_tree(line, Ask::LimitDepth(limit_depth_in(alloc, line)?)),
        Kind::Look => on_tree(line, Ask::Look(texts_in(alloc, line, Field::Path)?)),
        Kind::PutFile => on_tree(line, Ask::PutFile(put_file_in(alloc, line)?)),
        Kind::GetFile => on_tree(line, Ask::GetFile(text_in(alloc, line, Field::Name)?)),
        Kind::PutInput => on_tree(line, Ask::PutInput(text_in(alloc, line, Field::Text)?)),
        Kind::TakeOutput => on_tree(line, Ask::TakeOutput(channel_in(line)?)),
        Kind::Watch => Ok(Message::Watch(watch_in(alloc, line)?)),
        Kind::Save => Ok(Message::Save(interpreter_in(alloc, line)?)),
        Kind::Compare => Ok(Message::Compare(compare_in(line)?)),
        Kind::Replay => Ok(Message::Replay(replay_in(line)?)),
        Kind::DropSaved => Ok(Message::DropSaved(number_in(line, Field::Saved)?)),
        Kind::DropRecord => Ok(Message::DropRecord(number_in(line, Field::Record)?)),
        Kind::Return => Ok(Message::Return(return_in(alloc, line)?)),
        Kind::EndRun => Ok(Message::EndRun(number_in(line, Field::Call)?)),
    }
}

/// A message that asks this of a tree.
fn on_tree(line: &Value, asking: Ask) -> Result<Message, Refusal>
    ensures ok { IfOk result (λ r. on_tree (view line.now) (ask_of asking) ≡ Ok (asks_of r)) }
    ensures err { IfErr result (λ e. on_tree (view line.now) (ask_of asking) ≡ Err e) }
{
    let tree = number_in(line, Field::Tree)?;
    Ok(Message::OnTree(tree, asking))
}

/// What kind of message a line is.
fn kind_of(alloc: Global, line: &Value) -> Result<Kind, Refusal>
    ensures ok { IfOk result (λ r. kind_in (view line.now) ≡ Ok r) }
    ensures err { IfErr result (λ e. e ≢ Memory → kind_in (view line.now) ≡ Err e) }
{
    let name = str_in(line, Field::Do)?;
    match Kind::named(name) {
        Some(kind) => Ok(kind),
        None => Err(Refusal::UnknownMessage(Text::new(alloc, name)?)),
    }
}

/// How integer texts are to be read in a tree.
fn make_tree_in(line: &Value) -> Result<Integers, Refusal>
    ensures ok { IfOk result (λ r. make_tree_in (view line.now) ≡ Ok r) }
    ensures err { IfErr result (λ e. make_tree_in (view line.now) ≡ Err e) }
{
    match optional_number_in(line, Field::Integers)? {
        None | Some(8) => Ok(Integers::Tcl8),
        Some(9) => Ok(Integers::Tcl9),
        Some(_) => Err(Refusal::OutOfRange(Field::Integers)),
    }
}

/// The interpreter of a message.
fn interpreter_in(alloc: Global, line: &Value) -> Result<Interpreter, Refusal>
    ensures ok { IfOk result (λ r. place_in (view line.now) ≡ Ok (place_of r)) }
    ensures err { IfErr result (λ e. e ≢ Memory → place_in (view line.now) ≡ Err e) }
{
    let tree = number_in(line, Field::Tree)?;
    let path = texts_in(alloc, line, Field::Path)?;
    Ok(Interpreter { tree, path })
}

/// An interpreter that is to be made.
fn create_in(alloc: Global, line: &Value) -> Result<Create, Refusal>
    ensures ok { IfOk result (λ r. create_in (view line.now) ≡ Ok (ask_of (ask.Create r))) }
    ensures err { IfErr result (λ e. e ≢ Memory → create_in (view line.now) ≡ Err e) }
{
    let safe = flag_in(line, Field::Safe)?;
    let path = texts_in(alloc, line, Field::Path)?;
    Ok(Create { path, safe })
}

/// An evaluation.
fn evaluate_in(alloc: Global, line: &Value) -> Result<Evaluate, Refusal>
    ensures ok { IfOk result (λ r. evaluation_in (view line.now) ≡ Ok (evaluation_of r)) }
    ensures err { IfErr result (λ e. e ≢ Memory → evaluation_in (view line.now) ≡ Err e) }
{
    let limit = optional_number_in(line, Field::Limit)?;
    let interpreter = interpreter_in(alloc, line)?;
    let script = text_in(alloc, line, Field::Script)?;
    Ok(Evaluate {
        interpreter,
        script,
        limit,
    })
}

/// An alias.
fn alias_in(alloc: Global, line: &Value) -> Result<Alias, Refusal>
    ensures ok { IfOk result (λ r. alias_in (view line.now) ≡ Ok (ask_of (ask.Alias r))) }
    ensures err { IfErr result (λ e. e ≢ Memory → alias_in (view line.now) ≡ Err e) }
{
    let path = texts_in(alloc, line, Field::Path)?;
    let name = text_in(alloc, line, Field::Name)?;
    let to = texts_in(alloc, line, Field::To)?;
    let words = texts_in(alloc, line, Field::Words)?;
    Ok(Alias {
        path,
        name,
        to,
        words,
    })
}

/// An alias to the client.
fn alias_to_client_in(alloc: Global, line: &Value) -> Result<AliasToClient, Refusal>
    ensures ok { IfOk result
        (λ r. alias_to_client_in (view line.now) ≡ Ok (ask_of (ask.AliasToClient r))) }
    ensures err { IfErr result (λ e. e ≢ Memory → alias_to_client_in (view line.now) ≡ Err e) }
{
    let path = texts_in(alloc, line, Field::Path)?;
    let name = text_in(alloc, line, Field::Name)?;
    let words = texts_in(alloc, line, Field::Words)?;
    Ok(AliasToClient { path, name, words })
}

/// An alias that is to be taken away.
fn clear_alias_in(alloc: Global, line: &Value) -> Result<ClearAlias, Refusal>
    ensures ok { IfOk result
        (λ r. clear_alias_in (view line.now) ≡ Ok (ask_of (ask.ClearAlias r))) }
    ensures err { IfErr result (λ e. e ≢ Memory → clear_alias_in (view line.now) ≡ Err e) }
{
    let path = texts_in(alloc, line, Field::Path)?;
    let name = text_in(alloc, line, Field::Name)?;
    Ok(ClearAlias { path, name })
}

/// A limit of steps.
fn limit_count_in(alloc: Global, line: &Value) -> Result<LimitCount, Refusal>
    ensures ok { IfOk result
        (λ r. limit_count_in (view line.now) ≡ Ok (ask_of (ask.LimitCount r))) }
    ensures err { IfErr result (λ e. e ≢ Memory → limit_count_in (view line.now) ≡ Err e) }
{
    let count = number_or_null_in(line, Field::Count)?;
    if count.unwrap_or(0) > MOST_STEPS {
        return Err(Refusal::OutOfRange(Field::Count));
    }
    let path = texts_in(alloc, line, Field::Path)?;
    Ok(LimitCount { path, count })
}

/// A limit of depth.
fn limit_depth_in(alloc: Global, line: &Value) -> Result<LimitDepth, Refusal>
    ensures ok { IfOk result
        (λ r. limit_depth_in (view line.now) ≡ Ok (ask_of (ask.LimitDepth r))) }
    ensures err { IfErr result (λ e. e ≢ Memory → limit_depth_in (view line.now) ≡ Err e) }
{
    let depth = number_in(line, Field::Depth)?;
    let path = texts_in(alloc, line, Field::Path)?;
    Ok(LimitDepth { path, depth })
}

/// A file.
fn put_file_in(alloc: Global, line: &Value) -> Result<PutFile, Refusal>
    ensures ok { IfOk result (λ r. put_file_in (view line.now) ≡ Ok (ask_of (ask.PutFile r))) }
    ensures err { IfErr result (λ e. e ≢ Memory → put_file_in (view line.now) ≡ Err e) }
{
    let name = text_in(alloc, line, Field::Name)?;
    let text = text_in(alloc, line, Field::Text)?;
    Ok(PutFile { name, text })
}

/// The channel of a message.
fn channel_in(line: &Value) -> Result<Channel, Refusal>
    ensures ok { IfOk result
        (λ r. take_output_in (view line.now) ≡ Ok (ask_of (ask.TakeOutput r))) }
    ensures err { IfErr result (λ e. take_output_in (view line.now) ≡ Err e) }
{
    let name = str_in(line, Field::Channel)?;
    channel_of(name)
}

/// The channel of a name.
fn channel_of(name: &str) -> Result<Channel, Refusal>
    ensures ok { IfOk result (λ r. channel_of name.now ≡ Ok r) }
    ensures err { IfErr result (λ e. channel_of name.now ≡ Err e) }
{
    match name {
        "stdout" => Ok(Channel::Output),
        "stderr" => Ok(Channel::Errors),
        _ => Err(Refusal::OutOfRange(Field::Channel)),
    }
}

/// An evaluation that is to be watched.
fn watch_in(alloc: Global, line: &Value) -> Result<Watch, Refusal>
    ensures ok { IfOk result (λ r. watch_in (view line.now) ≡ Ok (asks_of (message.Watch r))) }
    ensures err { IfErr result (λ e. e ≢ Memory → watch_in (view line.now) ≡ Err e) }
{
    let evaluate = evaluate_in(alloc, line)?;
    let watched = texts_in(alloc, line, Field::Watched)?;
    Ok(Watch { evaluate, watched })
}

/// Two saved interpreters.
fn compare_in(line: &Value) -> Result<Compare, Refusal>
    ensures ok { IfOk result (λ r. compare_in (view line.now) ≡ Ok (asks_of (message.Compare r))) }
    ensures err { IfErr result (λ e. compare_in (view line.now) ≡ Err e) }
{
    let saved = number_in(line, Field::Saved)?;
    let with = number_in(line, Field::With)?;
    Ok(Compare { saved, with })
}

/// A replay.
fn replay_in(line: &Value) -> Result<Replay, Refusal>
    ensures ok { IfOk result (λ r. replay_in (view line.now) ≡ Ok (asks_of (message.Replay r))) }
    ensures err { IfErr result (λ e. replay_in (view line.now) ≡ Err e) }
{
    let saved = number_in(line, Field::Saved)?;
    let played = number_in(line, Field::Record)?;
    let limit = optional_number_in(line, Field::Limit)?.unwrap_or(STEPS);
    Ok(Replay {
        saved,
        played,
        limit,
    })
}

/// The answer to a call.
fn return_in(alloc: Global, line: &Value) -> Result<Return, Refusal>
    ensures ok { IfOk result (λ r. return_in (view line.now) ≡ Ok (asks_of (message.Return r))) }
    ensures err { IfErr result (λ e. e ≢ Memory → return_in (view line.now) ≡ Err e) }
{
    let call = number_in(line, Field::Call)?;
    let code = integer_in(line, Field::Code)?;
    let text = text_in(alloc, line, Field::Text)?;
    Ok(Return { call, code, text })
}
