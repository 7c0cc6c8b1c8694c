//! The fields of a message.
ghost use Rattle.serde_json.specs.Find.{as_number, as_object, get};
ghost use Rattle.serde_json.specs.View.{items_view, view};
ghost use Rattle.std.specs.Option.{option_and_then, option_map};
ghost use Rattle.std.specs.Prelude.{◌≡◌, ◌≢◌, Err, IfErr, IfOk, Ok, OnOk, Some};
ghost use Rattle.tcl_serve.specs.Fields.{flag_of, in_field, integer_of, is_among, is_field};
ghost use Rattle.tcl_serve.specs.Fields.{no_number};
ghost use Rattle.tcl_serve.specs.Fields.{items_of, number_of, number_or_null_of, only};
ghost use Rattle.tcl_serve.specs.Fields.{optional_in, present};
ghost use Rattle.tcl_serve.specs.Fields.{text_of, texts_of};
ghost use Rattle.tcl_serve.specs.Names.{name_of, type_name, type_of};
ghost use Rattle.tcl_serve.specs.declared.refusals.Refusal.TheVariants.{Memory, OutOfRange};
ghost use Rattle.tcl_serve.specs.declared.refusals.Refusal.TheVariants.{WrongType};

use crate::refusals::Refusal;
use serde_json::Value;
use std::alloc::Global;
use tcl_text::text::Text;

/// The fields that messages have.
#[derive(Clone, Copy)]
pub enum Field {
    Id,
    Do,
    Integers,
    Tree,
    Path,
    Safe,
    Script,
    Limit,
    Name,
    To,
    Words,
    Count,
    Depth,
    Text,
    Channel,
    Watched,
    Saved,
    With,
    Record,
    Call,
    Code,
}

/// What can stand in a field.
#[derive(Clone, Copy)]
pub enum FieldType {
    /// A number from 0 to 18446744073709551615.
    Number,
    /// The same, or null.
    NumberOrNull,
    /// A number from -9223372036854775808 to 9223372036854775807.
    Integer,
    /// True or false.
    Flag,
    /// A text.
    Text,
    /// A list of texts.
    Texts,
}

impl FieldType {
    /// Its name.
    pub fn name(self) -> &'static str
        ensures { result.now ≡ type_name self }
    {
        match self {
            FieldType::Number => "a number",
            FieldType::NumberOrNull => "a number or null",
            FieldType::Integer => "an integer",
            FieldType::Flag => "true or false",
            FieldType::Text => "a text",
            FieldType::Texts => "a list of texts",
        }
    }
}

impl Field {
    /// Its name.
    pub fn name(self) -> &'static str
        ensures { result.now ≡ name_of self }
    {
        match self {
            Field::Id => "id",
            Field::Do => "do",
            Field::Integers => "integers",
            Field::Tree => "tree",
            Field::Path => "path",
            Field::Safe => "safe",
            Field::Script => "script",
            Field::Limit => "limit",
            Field::Name => "name",
            Field::To => "to",
            Field::Words => "words",
            Field::Count => "count",
            Field::Depth => "depth",
            Field::Text => "text",
            Field::Channel => "channel",
            Field::Watched => "watched",
            Field::Saved => "saved",
            Field::With => "with",
            Field::Record => "record",
            Field::Call => "call",
            Field::Code => "code",
        }
    }

    /// What can stand in it.
    pub fn field_type(self) -> FieldType
        ensures { result ≡ type_of self }
    {
        match self {
            Field::Id
            | Field::Integers
            | Field::Tree
            | Field::Limit
            | Field::Depth
            | Field::Saved
            | Field::With
            | Field::Record
            | Field::Call => FieldType::Number,
            Field::Count => FieldType::NumberOrNull,
            Field::Code => FieldType::Integer,
            Field::Safe => FieldType::Flag,
            Field::Do | Field::Script | Field::Name | Field::Text | Field::Channel => {
                FieldType::Text
            }
            Field::Path | Field::To | Field::Words | Field::Watched => FieldType::Texts,
        }
    }
}

/// What stands in a field.
///
/// # Errors
/// 506 where the field is missing.
fn member(line: &Value, field: Field) -> Result<&Value, Refusal>
    ensures ok { IfOk result
        (λ value. present field (get (name_of field) (view line.now)) ≡ Ok (view value.now)) }
    ensures err { IfErr result
        (λ e. present field (get (name_of field) (view line.now)) ≡ Err e) }
{
    match line.get(field.name()) {
        Some(value) => Ok(value),
        None => Err(Refusal::Missing(field)),
    }
}

/// Why a value is no number that the field can have.
fn no_number(value: &Value, field: Field) -> Refusal
    ensures { result ≡ no_number field (as_number (view value.now)) }
{
    if value.is_number() {
        return Refusal::OutOfRange(field);
    }
    Refusal::WrongType(field)
}

/// The number that a value is.
fn number_of(value: &Value, field: Field) -> Result<u64, Refusal>
    ensures ok { IfOk result (λ r. number_of field (view value.now) ≡ Ok r) }
    ensures err { IfErr result (λ e. number_of field (view value.now) ≡ Err e) }
{
    match value.as_u64() {
        Some(number) => Ok(number),
        None => Err(no_number(value, field)),
    }
}

/// The number in a field.
///
/// # Errors
/// 506, 507 and 508.
pub fn number_in(line: &Value, field: Field) -> Result<u64, Refusal>
    ensures ok { IfOk result (λ r. in_field number_of field (view line.now) ≡ Ok r) }
    ensures err { IfErr result (λ e. in_field number_of field (view line.now) ≡ Err e) }
{
    let value = member(line, field)?;
    number_of(value, field)
}

/// The number in a field, or null.
///
/// # Errors
/// 506, 507 and 508.
pub fn number_or_null_in(line: &Value, field: Field) -> Result<Option<u64>, Refusal>
    ensures ok { IfOk result (λ r. in_field number_or_null_of field (view line.now) ≡ Ok r) }
    ensures err { IfErr result (λ e. in_field number_or_null_of field (view line.now) ≡ Err e) }
{
    let value = member(line, field)?;
    if value.is_null() {
        return Ok(None);
    }
    Ok(Some(number_of(value, field)?))
}

/// The number in a field that may be missing.
///
/// # Errors
/// 507 and 508.
pub fn optional_number_in(line: &Value, field: Field) -> Result<Option<u64>, Refusal>
    ensures ok { IfOk result (λ r. optional_in number_of field (view line.now) ≡ Ok r) }
    ensures err { IfErr result (λ e. optional_in number_of field (view line.now) ≡ Err e) }
{
    match line.get(field.name()) {
        Some(value) => Ok(Some(number_of(value, field)?)),
        None => Ok(None),
    }
}

/// The integer in a field.
///
/// # Errors
/// 506, 507 and 508.
pub fn integer_in(line: &Value, field: Field) -> Result<i64, Refusal>
    ensures ok { IfOk result (λ r. in_field integer_of field (view line.now) ≡ Ok r) }
    ensures err { IfErr result (λ e. in_field integer_of field (view line.now) ≡ Err e) }
{
    let value = member(line, field)?;
    match value.as_i64() {
        Some(number) => Ok(number),
        None => Err(no_number(value, field)),
    }
}

/// Whether a field is true.
///
/// # Errors
/// 506 and 507.
pub fn flag_in(line: &Value, field: Field) -> Result<bool, Refusal>
    ensures ok { IfOk result (λ r. in_field flag_of field (view line.now) ≡ Ok r) }
    ensures err { IfErr result (λ e. in_field flag_of field (view line.now) ≡ Err e) }
{
    let value = member(line, field)?;
    match value.as_bool() {
        Some(flag) => Ok(flag),
        None => Err(Refusal::WrongType(field)),
    }
}

/// The text in a field.
///
/// # Errors
/// 506 and 507.
pub fn str_in<'a>(line: &'a Value, field: Field) -> Result<&'a str, Refusal>
    ensures ok { IfOk result (λ r. in_field text_of field (view line.now) ≡ Ok (r.now)) }
    ensures err { IfErr result (λ e. in_field text_of field (view line.now) ≡ Err e) }
{
    let value = member(line, field)?;
    match value.as_str() {
        Some(text) => Ok(text),
        None => Err(Refusal::WrongType(field)),
    }
}

/// The text in a field.
///
/// # Errors
/// 506 and 507; want of memory.
pub fn text_in(alloc: Global, line: &Value, field: Field) -> Result<Text, Refusal>
    ensures ok { IfOk result (λ r. in_field text_of field (view line.now) ≡ Ok r) }
    ensures err { IfErr result (λ e. e ≢ Memory → in_field text_of field (view line.now) ≡ Err e) }
{
    let text = str_in(line, field)?;
    Ok(Text::new(alloc, text)?)
}

/// The list of texts in a field.
///
/// # Errors
/// 506 and 507; want of memory.
pub fn texts_in(alloc: Global, line: &Value, field: Field) -> Result<Vec<Text>, Refusal>
    ensures ok { IfOk result (λ r. in_field texts_of field (view line.now) ≡ Ok (r.items)) }
    ensures err { IfErr result (λ e. e ≢ Memory → in_field texts_of field (view line.now) ≡ Err e) }
{
    let value = member(line, field)?;
    match value.as_array() {
        Some(items) => texts_of(alloc, items.as_slice(), field),
        None => Err(Refusal::WrongType(field)),
    }
}

/// The texts that items are.
fn texts_of(alloc: Global, items: &[Value], field: Field) -> Result<Vec<Text>, Refusal>
    ensures ok { IfOk result (λ r. items_of field (items_view items.now) ≡ Ok (r.items)) }
    ensures err { IfErr result (λ e. e ≢ Memory → items_of field (items_view items.now) ≡ Err e) }
{
    let mut texts = Vec::new(alloc);
    'items: for item in items {
        match item.as_str() {
            Some(text) => texts.push(Text::new(alloc, text)?)?,
            None => return Err(Refusal::WrongType(field)),
        }
    }
    Ok(texts)
}

/// Looks whether a message has only these fields, beside its id and what it does.
///
/// # Errors
/// 505 of the first field, in the order of their names, that is another one; want of memory.
#[tactic(auto, using(crate::proofs::Readings::members_names))]
pub fn only(alloc: Global, line: &Value, fields: &[Field]) -> Result<(), Refusal>
    ensures ok { OnOk result (only fields.now (view line.now) ≡ Ok tt) }
    ensures err { IfErr result (λ e. e ≢ Memory → only fields.now (view line.now) ≡ Err e) }
{
    let Some(members) = line.as_object() else {
        return Err(Refusal::NotObject);
    };
    'names: for name in members.keys() {
        if !is_among(name.as_str(), fields) {
            return Err(Refusal::UnknownField(Text::new(alloc, name.as_str())?));
        }
    }
    Ok(())
}

/// Whether a name is that of one of these fields, or of one that each message has.
fn is_among(name: &str, fields: &[Field]) -> bool
    ensures { result ≡ is_field fields.now name.now }
{
    if name == Field::Id.name() {
        return true;
    }
    if name == Field::Do.name() {
        return true;
    }
    any_named(fields, name)
}

/// Whether one of these fields has this name.
fn any_named(fields: &[Field], name: &str) -> bool
    ensures { result ≡ is_among fields.now name.now }
{
    fields.iter().any(|field| field.name() == name)
}
