//! What is asked of an interpreter, or of the host, in words.
ghost use Rattle.std.specs.Prelude.{◌≡◌, IfOk};
ghost use Rattle.tcl_player.specs.Words.{alias_words, entry_words, limit_word};
ghost use Rattle.tcl_player.specs.Words.{question_words, request_words, safe_word};
ghost use Rattle.tcl_run.specs.Entering.{entry_of, mode_text, question_of, request_of, whole_entry};

use crate::words::{count_text, list_text, number_text, one, three, two, with_values};
use std::alloc::{AllocError, Global};
use tcl_host::open_mode::OpenMode;
use tcl_host::request::Request;
use tcl_run::entry::{Entry, OwnEntry, Question};
use tcl_text::text::Text;
use tcl_tree::alias::Alias;

/// The word for a mode in which a file is opened.
fn mode_word(mode: OpenMode) -> &'static str
    ensures { result.now ≡ mode_text mode }
{
    match mode {
        OpenMode::Read => "r",
        OpenMode::Write => "w",
        OpenMode::Append => "a",
    }
}

/// A request of the host.
fn request_words(alloc: Global, request: &Request) -> Result<Vec<Text>, AllocError>
    ensures { IfOk result (λ words. words.items ≡ request_words (request_of request.now)) }
{
    match request {
        Request::Open(name, mode) => {
            let mode = Text::new(alloc, mode_word(*mode))?;
            three(alloc, "open", name, &mode)
        }
        Request::ReadLine(channel) => two(alloc, "gets", channel),
        Request::ReadAll(channel) => two(alloc, "read", channel),
        Request::Write(channel, text) => three(alloc, "puts", channel, text),
        Request::Flush(channel) => two(alloc, "flush", channel),
        Request::Close(channel) => two(alloc, "close", channel),
        Request::Eof(channel) => two(alloc, "eof", channel),
    }
}

/// A question.
fn question_words(alloc: Global, question: &Question) -> Result<Vec<Text>, AllocError>
    ensures { IfOk result (λ words. words.items ≡ question_words (question_of question.now)) }
{
    match question {
        Question::Exists => one(alloc, "exists"),
        Question::IsSafe => one(alloc, "issafe"),
        Question::Aliases => one(alloc, "aliases"),
        Question::AliasOf(name) => two(alloc, "alias", name),
        Question::Hidden => one(alloc, "hidden"),
        Question::Slaves => one(alloc, "slaves"),
        Question::CountLimitOf => one(alloc, "limit"),
        Question::DepthLimitOf => one(alloc, "recursionlimit"),
    }
}

/// A limit of steps.
fn limit_word(alloc: Global, limit: Option<u64>) -> Result<Text, AllocError>
    ensures { IfOk result (λ text. text ≡ limit_word limit) }
{
    match limit {
        Some(n) => number_text(alloc, n),
        None => Text::new(alloc, "none"),
    }
}

/// Whether a child is asked to be safe.
fn safe_word(safe: bool) -> &'static str
    ensures { result.now ≡ safe_word safe }
{
    if safe { "create-safe" } else { "create" }
}

/// An alias that is set: the name, the way to its target, and its words.
fn alias_words(alloc: Global, name: &Text, alias: &Alias) -> Result<Vec<Text>, AllocError>
    ensures { IfOk result (λ words. words.items
        ≡ alias_words name.now alias.now.up alias.now.down alias.now.words) }
{
    let up = count_text(alloc, alias.up())?;
    let mut words = three(alloc, "set-alias", name, &up)?;
    words.push(list_text(alloc, alias.down())?)?;
    with_values(alloc, words, alias.words())
}

/// What evaluates nothing.
fn own_words(alloc: Global, entry: &OwnEntry) -> Result<Vec<Text>, AllocError>
    ensures { IfOk result (λ words. words.items ≡ entry_words (entry_of entry.now)) }
{
    match entry {
        OwnEntry::SetAlias { name, alias } => alias_words(alloc, name, alias),
        OwnEntry::ClearAlias(name) => two(alloc, "clear-alias", name),
        OwnEntry::Hide { name, hidden } => three(alloc, "hide", name, hidden),
        OwnEntry::Expose { hidden, name } => three(alloc, "expose", hidden, name),
        OwnEntry::SetCountLimit(limit) => two(alloc, "limit", &limit_word(alloc, *limit)?),
        OwnEntry::SetDepthLimit(limit) => {
            two(alloc, "recursionlimit", &number_text(alloc, *limit)?)
        }
        OwnEntry::Create {
            name: Some(name),
            safe,
        } => two(alloc, safe_word(*safe), name),
        OwnEntry::Create { name: None, safe } => one(alloc, safe_word(*safe)),
        OwnEntry::Delete(name) => two(alloc, "delete", name),
        OwnEntry::Ask(question) => question_words(alloc, question),
    }
}

/// What is asked.
pub(crate) fn entry_words(alloc: Global, entry: &Entry) -> Result<Vec<Text>, AllocError>
    ensures { IfOk result (λ words. words.items ≡ entry_words (whole_entry entry.now)) }
{
    match entry {
        Entry::Eval(script) => two(alloc, "eval", &script.text(alloc)?),
        Entry::CallWords(words) => with_values(alloc, one(alloc, "call")?, words.as_slice()),
        Entry::InvokeHidden {
            is_global: true,
            words,
        } => { with_values(alloc, one(alloc, "invokehidden-global")?, words.as_slice()) }
        Entry::InvokeHidden {
            is_global: false,
            words,
        } => { with_values(alloc, one(alloc, "invokehidden")?, words.as_slice()) }
        Entry::Own(own) => own_words(alloc, own),
        Entry::AskHost(request) => request_words(alloc, request),
    }
}
